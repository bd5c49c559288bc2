// Queries over the documents of a store, answered by readers.
ghost use Rattle.std.specs.Prelude.{◌≡◌, ◌∷◌, ◌++◌, ◌<◌, [], List, map, take, codes, length, string_bytes, Ok, IfOk, IfErr};
ghost use Rattle.alta_machine.specs.Explained.{explained};
ghost use Rattle.alta_machine.specs.PlanOf.{plan_of};
ghost use Rattle.alta_compile.specs.Space.{Placed};
ghost use Rattle.alta_compile.specs.View.{tree};
ghost use Rattle.alta_disk.specs.Disk.{DiskState};
ghost use Rattle.alta_meaning.specs.Standing.{StandsFor};
ghost use Rattle.alta_machine.specs.declared.document.Document.{Document};
ghost use Rattle.alta_machine.specs.declared.document.State.{State};
ghost use Rattle.alta_machine.specs.Deciding.{answers};
ghost use Rattle.alta_machine.specs.Matches.{IsWellFormed};
ghost use Rattle.alta_machine.specs.Shape.{Shape};
ghost use Rattle.alta_machine.specs.Spelling.{canonical};
ghost use Rattle.alta_query.specs.Texts.{HasTextTerms};
ghost use Rattle.alta_query.specs.View.{shape};
ghost use Rattle.alta_machine.specs.Patterns.{title_end};
ghost use Rattle.alta_machine.specs.Ranked.{ranked};
ghost use Rattle.alta_machine.specs.Uses.{uses_of};
ghost use Rattle.alta_search.specs.Answers.{coming};
ghost use Rattle.alta_search.specs.Documents.{AreToCome};
ghost use Rattle.alta_search.specs.Order.{used};
ghost use Rattle.alta_search.specs.Plans.{tests_of};
ghost use Rattle.alta_search.specs.Shown.{ShowsDocuments};
ghost use Rattle.alta_search.specs.Told.{answer_of};
ghost use Rattle.alta_search.specs.Tops.{AreToRank};
ghost use Rattle.alta_top.specs.Best.{AreBest};
ghost use Rattle.alta_machine.specs.Scores.{scored};
ghost use Rattle.alta_search.specs.View.{Shows};
ghost use Rattle.alta_replies.specs.Asks.{WritesLines, asked_lines, asked_loads, asked_reply, asked_tests};
ghost use Rattle.alta_replies.specs.Replies.{IsReply};
ghost use Rattle.alta_replies.specs.Loading.{LoadsKept, MayLoad, Queries, order_loads, search_loads, text_loads, top_loads, top_text_loads};
ghost use Rattle.alta_machine.specs.Machine.{IsRefusal};
ghost use Rattle.alta_machine.specs.Searching.{IsNoQuery, answer_lines, score_lines, found_line, found_by, counted_by, ranked_by, searching, counting, explaining, ranking};

use crate::replying::{put_answers, put_count, put_scores, refused, written};
use alta_codec::{Len, Steps, Text};
use alta_compile::{Plan, a_plan_is_text, compile};
use alta_disk::Disk;
use alta_loading::{KeptLists, load_ordered};
use alta_query::{Query, parse, print};
use alta_search::{Loading, Page, Snapshot, loading_order, ranking_order};
use alta_store::{Sources, Store, StoreFault, a_search_sees_the_state, load_fault};
use alta_top::Top;
use std::alloc::{AllocError, Global};
use std::marker::Brand;
use std::sync::ledger::{Blank, Ledger};

/// What is asked of a query.
#[derive(Clone, Copy)]
pub enum Ask {
    /// All answers, as a search does.
    Answers,
    /// How many there are, as a count does.
    Count,
    /// The first so many by falling score, as a top does.
    Best(u64),
}

/// The reply to what is asked of a text. Of a search it is a line for each document that matches, with its number and name, and how many
/// they are; of a count, how many match. Of a top it is a line for each of the first documents that match, by falling score and at the
/// same score by rising number, with its number, name and score, and how many match. Where the text is no query, the reply says so.
///
/// What it loads of the disk are the lists of the query, and for a top behind them those of the places where titles end. Its faults are
/// those of loading them.
pub fn answered<D: Disk>(
    alloc: Global,
    disk: &mut D,
    store: &Store,
    kept: &mut KeptLists,
    ask: Ask,
    text: &str,
) -> Result<Text, StoreFault>
    requires { MayLoad D.tells (D.state disk.old) store.now kept.old }
    ensures reply { (s : State) → D.tells → StandsFor s (D.state disk.old).content
        → IfOk result (λ reply. reply ≡ asked_reply ask text.now s.documents) }
    ensures queries { Queries D.tells D.state disk.old disk.new store.now kept.old kept.new
        (asked_loads ask store.now text.now) (IsNoQuery text.now) result }
{
    let query = match parse(alloc, text) {
        Ok(query) => query,
        Err(fault) => return refused(alloc, fault),
    };
    let Ok((plan, order)) = planned(alloc, ask, &query) else {
        return Err(StoreFault::Memory);
    };
    match load(alloc, disk, store, kept, order) {
        Ok(snapshot) => written(counted::<Brand>(
            alloc,
            ask,
            &plan,
            &query,
            &snapshot,
            Blank::new(1),
        )),
        Err(fault) => Err(fault),
    }
}

/// The reply to an explain: the canonical spelling of the query and the lines of its plan, or that the text is no query. It
/// fails for want of memory alone.
pub fn explain(alloc: Global, text: &str) -> Result<Text, StoreFault>
    ensures { IsReply (explaining text.now) result }
{
    let query = match parse(alloc, text) {
        Ok(query) => query,
        Err(fault) => return refused(alloc, fault),
    };
    let reply = written(with_plan(alloc, &query));
    drop(query);
    reply
}

// The canonical spelling of a query, and the lines of its plan.
fn with_plan(alloc: Global, query: &Query) -> Result<String, AllocError>
    requires { HasTextTerms (shape query.now) }
    ensures { IfOk result (λ reply. string_bytes reply ≡ canonical (shape query.now) ++ codes "\n"
        ++ explained [] (plan_of (shape query.now))) }
{
    a_plan_is_text();
    let canonical = print(alloc, query)?;
    let plan = alta_compile::explain(alloc, &compile(alloc, query)?)?;
    headed(alloc, canonical.as_str(), plan.as_str())
}

// Lines below a first one.
fn headed(alloc: Global, head: &str, lines: &str) -> Result<String, AllocError>
    ensures { IfOk result (λ text. string_bytes text ≡ head.now ++ codes "\n" ++ lines.now) }
{
    format!(in alloc; "{head}\n{lines}")
}

// What is asked of a plan over a snapshot, in lines. Nobody reads how many steps it took.
fn counted<L: Ledger>(
    alloc: Global,
    ask: Ask,
    plan: &Plan,
    query: &Query,
    snapshot: &Snapshot,
    blank: Blank,
) -> Result<String, AllocError>
    requires tests { snapshot.now.tests ≡ asked_tests ask (tree plan.now) }
    requires query { tree plan.now ≡ plan_of (shape query.now) }
    requires read { IsWellFormed (shape query.now) }
    requires name { blank.name ≡ L.name }
    requires parts { blank.parts ≡ L.parts }
    requires shared { 0 < L.parts }
    ensures { WritesLines (λ documents. AreToCome (tree plan.now) snapshot.now 0 documents
        × AreToRank (tree plan.now) snapshot.now documents) (asked_lines ask (shape query.now)) result }
{
    let mut steps = Steps::<L>::new(blank);
    match ask {
        Ask::Answers => list(alloc, plan, query, snapshot, &mut steps),
        Ask::Count => tally(alloc, plan, query, snapshot, &mut steps),
        Ask::Best(count) => best(alloc, plan, query, snapshot, count, &mut steps),
    }
}

// The answers of a plan over a snapshot, a line for each, and how many they are.
fn list<L: Ledger>(
    alloc: Global,
    plan: &Plan,
    query: &Query,
    snapshot: &Snapshot,
    steps: &mut Steps<L>,
) -> Result<String, AllocError>
    requires tests { snapshot.now.tests ≡ tests_of (tree plan.now) }
    requires query { tree plan.now ≡ plan_of (shape query.now) }
    ensures { WritesLines (AreToCome (tree plan.now) snapshot.now 0)
        (asked_lines Ask.Answers (shape query.now)) result }
{
    let page = alta_search::search(alloc, plan, query, snapshot, steps)?;
    let mut reply = String::new(alloc);
    put_answers(&mut reply, &page.answers)?;
    put_count(&mut reply, page.answers.len() as u64)?;
    Ok(reply)
}

// How many answers a plan has over a snapshot.
fn tally<L: Ledger>(
    alloc: Global,
    plan: &Plan,
    query: &Query,
    snapshot: &Snapshot,
    steps: &mut Steps<L>,
) -> Result<String, AllocError>
    requires tests { snapshot.now.tests ≡ tests_of (tree plan.now) }
    requires query { tree plan.now ≡ plan_of (shape query.now) }
    ensures { WritesLines (AreToCome (tree plan.now) snapshot.now 0) (asked_lines Ask.Count (shape query.now)) result }
{
    let count = alta_counts::count(alloc, plan, query, snapshot, steps)?;
    let mut reply = String::new(alloc);
    put_count(&mut reply, count)?;
    Ok(reply)
}

// The best answers of a plan over a snapshot, a line for each, and how many answers there are.
fn best<L: Ledger>(
    alloc: Global,
    plan: &Plan,
    query: &Query,
    snapshot: &Snapshot,
    count: u64,
    steps: &mut Steps<L>,
) -> Result<String, AllocError>
    requires tests { snapshot.now.tests ≡ tests_of (tree plan.now) ++ title_end ∷ [] }
    requires query { tree plan.now ≡ plan_of (shape query.now) }
    requires read { IsWellFormed (shape query.now) }
    ensures { WritesLines (AreToRank (tree plan.now) snapshot.now)
        (asked_lines (Ask.Best count) (shape query.now)) result }
{
    let best = alta_top::top(alloc, plan, query, snapshot, count, steps)?;
    let mut reply = String::new(alloc);
    put_scores(&mut reply, best.answers.as_slice())?;
    put_count(&mut reply, best.total)?;
    Ok(reply)
}

// The plan of a query, and the tests that are loaded for what is asked, in order.
fn planned(alloc: Global, ask: Ask, query: &Query) -> Result<(Plan, Loading), AllocError>
    ensures plan { IfOk result (λ planned. tree planned.0 ≡ plan_of (shape query.now)) }
    ensures order { IfOk result (λ planned. used planned.1 ≡ asked_tests ask (tree planned.0)) }
{
    let plan = compile(alloc, query)?;
    let order = order_for(alloc, ask, &plan)?;
    Ok((plan, order))
}

// The tests of a plan that are loaded for what is asked, in order.
fn order_for(alloc: Global, ask: Ask, plan: &Plan) -> Result<Loading, AllocError>
    ensures { IfOk result (λ order. used order ≡ asked_tests ask (tree plan.now)) }
{
    match ask {
        Ask::Answers => loading_order(alloc, plan),
        Ask::Count => loading_order(alloc, plan),
        Ask::Best(_count) => ranking_order(alloc, plan),
    }
}

/// The plan of a query, and the snapshot of a store's documents for it, whose lists are loaded from the disk. Over it the answers of the
/// plan are the documents that the query matches.
///
/// # Errors
///
/// `Damaged` at the first fault of the first list that has one, in the order of loading; never where the disk stands for a state.
/// `Disk` where a read failed. `Memory` where there is no memory.
pub(crate) fn plan_and_load<D: Disk>(
    alloc: Global,
    disk: &mut D,
    store: &Store,
    kept: &mut KeptLists,
    query: &Query,
) -> Result<(Plan, Snapshot), StoreFault>
    requires { MayLoad D.tells (D.state disk.old) store.now kept.old }
    ensures plan { IfOk result (λ found. tree found.0 ≡ plan_of (shape query.now)) }
    ensures tests { IfOk result (λ found. found.1.tests ≡ tests_of (tree found.0)) }
    ensures answers { (s : State) → D.tells → StandsFor s (D.state disk.old).content
        → IfOk result (λ found. AreToCome (tree found.0) found.1 0 (answers s.documents (shape query.now))) }
    ensures loads { LoadsKept D.tells store.now kept.new (search_loads store.now (plan_of (shape query.now)))
        (D.state disk.old) (D.state disk.new) result }
{
    let Ok((plan, order)) = planned(alloc, Ask::Answers, query) else {
        return Err(StoreFault::Memory);
    };
    match load(alloc, disk, store, kept, order) {
        Ok(snapshot) => Ok((plan, snapshot)),
        Err(fault) => {
            drop(plan);
            Err(fault)
        }
    }
}

/// The snapshot of a store's documents for the tests of an order, whose lists are loaded from the disk.
pub(crate) fn load<D: Disk>(
    alloc: Global,
    disk: &mut D,
    store: &Store,
    kept: &mut KeptLists,
    order: Loading,
) -> Result<Snapshot, StoreFault>
    requires { MayLoad D.tells (D.state disk.old) store.now kept.old }
    ensures tests { IfOk result (λ snapshot. snapshot.tests ≡ used order) }
    ensures answers { (s : State) (q : Shape) → D.tells → StandsFor s (D.state disk.old).content
        → IfOk result (λ snapshot. AreToCome (plan_of q) snapshot 0 (answers s.documents q)) }
    ensures ranked { (s : State) (q : Shape) → D.tells → StandsFor s (D.state disk.old).content
        → IfOk result (λ snapshot. AreToRank (plan_of q) snapshot (answers s.documents q)) }
    ensures shown { (s : State) → D.tells → StandsFor s (D.state disk.old).content
        → IfOk result (λ snapshot. ShowsDocuments snapshot s.documents) }
    ensures loads { LoadsKept D.tells store.now kept.new (order_loads store.now (used order)) (D.state disk.old)
        (D.state disk.new) result }
{
    a_search_sees_the_state::<D>();
    let Ok(sources) = store.sources() else {
        return Err(StoreFault::Memory);
    };
    let Sources {
        levels,
        newest,
        gone,
        rows,
    } = sources;
    match load_ordered(alloc, disk, order, levels, kept, newest, rows, gone) {
        Ok(snapshot) => Ok(snapshot),
        Err(fault) => Err(load_fault(fault)),
    }
}
