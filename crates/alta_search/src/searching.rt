// The answers of a plan all at once, and page by page.
// A search is given the query beside the plan, and finds the conjunction in it. The reader of a plan has one owner for a page and for
// the best answers (`picked`), so that neither has to drop it.
ghost use Rattle.std.specs.Prelude.{◌≡◌, ℕ, ◌+◌, ◌<◌, ◌≤◌, List, map, length, All, false, IsTrue, is_some, Some, None, IfSome, IfOk, IfErr};
ghost use Rattle.alta_codec.specs.declared.location.TheConstants.{TOP};
ghost use Rattle.alta_codec.specs.Rising.{count_from};
ghost use Rattle.alta_compile.specs.Conjoined.{conjunction_of};
ghost use Rattle.alta_machine.specs.PlanOf.{plan_of};
ghost use Rattle.alta_compile.specs.Space.{Placed};
ghost use Rattle.alta_machine.specs.Plans.{Tree};
ghost use Rattle.alta_compile.specs.View.{tree};
ghost use Rattle.alta_query.specs.View.{shape};
ghost use Rattle.alta_search.specs.Answers.{IsPage, coming};
ghost use Rattle.alta_search.specs.Leads.{IsConjunction};
ghost use Rattle.alta_search.specs.Told.{answer_of, rows_at};
ghost use Rattle.alta_search.specs.Plans.{tests_of, lists, locations_below, IsOneFound};
ghost use Rattle.alta_search.specs.View.{Shows};
ghost use Rattle.alta_search.specs.Walks.{IsPart, IsReading};
ghost use Rattle.alta_search.specs.Walked.{AreSearchSteps, BeginsReader, Picks};

use crate::leading::by_rarest;
use crate::page::{Answers, Page};
use crate::plan_reader::PlanReader;
use crate::section::Section;
use crate::snapshot::Snapshot;
use crate::tree::node;
use crate::walk::{Picked, collect};
use alta_codec::{Loc, Steps, TOP};
use alta_compile::{Conjunction, Plan, conjunction};
use alta_query::Query;
use std::alloc::{AllocError, Global};
use std::sync::ledger::Ledger;

/// A reader of the ends that a plan finds over the snapshot of its tests, which stands at the first end from a place on. It goes
/// by the tree of the plan.
pub fn by_tree<'a, L: Ledger>(
    alloc: Global,
    plan: &Plan,
    snapshot: &Section<'a>,
    from: Loc,
    steps: &mut Steps<L>,
) -> Result<PlanReader<'a>, AllocError>
    requires tests { snapshot.now.tests ≡ tests_of (tree plan.now) }
    requires top { from ≤ TOP }
    ensures { BeginsReader (tree plan.now) None snapshot.now from steps.old steps.new result }
{
    let (tests, uses) = snapshot.uses();
    let (node, _rest) = node(alloc, plan, tests, uses, steps)?;
    Ok(PlanReader::by_tree(node, from, steps))
}

/// The same, led by the rarest word of the plan's conjunction.
fn by_word<'a, L: Ledger>(
    alloc: Global,
    plan: &Plan,
    found: &Conjunction,
    snapshot: &Section<'a>,
    from: Loc,
    steps: &mut Steps<L>,
) -> Result<PlanReader<'a>, AllocError>
    requires tests { snapshot.now.tests ≡ tests_of (tree plan.now) }
    requires found { IsConjunction (tree plan.now) found.now }
    requires top { from ≤ TOP }
    ensures { BeginsReader (tree plan.now) (Some found.now) snapshot.now from steps.old steps.new result }
{
    let reader = by_rarest(alloc, found, snapshot, from, steps)?;
    Ok(reader)
}

/// The same, whichever way: led by the rarest word where the plan has a conjunction, else by its tree.
pub(crate) fn begin<'a, L: Ledger>(
    alloc: Global,
    plan: &Plan,
    found: &Option<Conjunction>,
    snapshot: &Section<'a>,
    from: Loc,
    steps: &mut Steps<L>,
) -> Result<PlanReader<'a>, AllocError>
    requires tests { snapshot.now.tests ≡ tests_of (tree plan.now) }
    requires found { IfSome found.now (IsConjunction (tree plan.now)) }
    requires top { from ≤ TOP }
    ensures { BeginsReader (tree plan.now) found.now snapshot.now from steps.old steps.new result }
{
    match found {
        Some(found) => by_word(alloc, plan, found, snapshot, from, steps),
        None => by_tree(alloc, plan, snapshot, from, steps),
    }
}

/// The rows of the next `count` answers at most, from where the reader stands on, by their indexes, whether more are left, and where the
/// reader stands then.
fn next_picks<L: Ledger>(
    alloc: Global,
    reader: &mut PlanReader<'_>,
    section: &Section<'_>,
    count: u64,
    steps: &mut Steps<L>,
) -> Result<(Picked, Loc), AllocError>
    requires stands { IsReading reader.old }
    ensures picks { Picks section.now.rows section.now.gone count reader.old reader.new steps.old
        steps.new result (λ r. r.0) }
    ensures place { IfOk result (λ r. r.1 ≡ reader.new.place) }
    ensures unpassed { IfOk result (λ _. IsTrue reader.new.one → reader.new.place < TOP
        → count_from reader.new.all reader.new.place ≤ reader.new.left) }
    ensures few { IfOk result (λ _. length section.now.rows < TOP) }
{
    let rows = section.rows();
    let mut walk = rows.walk();
    let picked = collect(alloc, reader, &mut walk, section.gone(), count, steps)?;
    let place = reader.loc();
    Ok((picked, place))
}

/// The rows of the next `count` answers of a plan at most, from a place on, by their indexes, whether more are left, and the place from
/// which on those are to come.
pub fn picked<L: Ledger>(
    alloc: Global,
    plan: &Plan,
    found: &Option<Conjunction>,
    section: &Section<'_>,
    from: Loc,
    count: u64,
    steps: &mut Steps<L>,
) -> Result<(Picked, Loc), AllocError>
    requires tests { section.now.tests ≡ tests_of (tree plan.now) }
    requires found { IfSome found.now (IsConjunction (tree plan.now)) }
    requires top { from ≤ TOP }
    ensures inside { IfOk result (λ r. All (λ i. i < length section.now.rows) r.0.picks.items) }
    ensures part { IfOk result (λ r. (space : List Placed) → Shows space section.now
        → IsPart (coming space (tree plan.now) section.now from) (coming space (tree plan.now) section.now r.1) count
        (rows_at section.now.rows r.0.picks.items) r.0.more r.1) }
    ensures lazy { IfOk result (λ r. IsOneFound (tree plan.now) → IsTrue r.0.more
        → steps.new ≤ steps.old + lists section.now.cuts + locations_below r.1 section.now.cuts) }
    ensures top { IfOk result (λ r. r.1 ≤ TOP) }
    ensures few { IfOk result (λ _. length section.now.rows < TOP) }
    ensures steps { AreSearchSteps found.now section.now steps.old steps.new }
{
    let mut reader = begin(alloc, plan, found, section, from, steps)?;
    let picks = next_picks(alloc, &mut reader, section, count, steps);
    drop(reader);
    picks
}

/// The page of the answers whose rows were picked.
fn page_of(snapshot: &Snapshot, picked: Picked) -> Result<Page, AllocError>
    requires { All (λ i. i < length snapshot.now.rows) picked.picks.items }
    ensures answers { IfOk result (λ page. page.answers
        ≡ map answer_of (rows_at snapshot.now.rows picked.picks.items)) }
    ensures more { IfOk result (λ page. page.more ≡ picked.more) }
{
    let rows = snapshot.rows().share()?;
    Ok(Page {
        answers: Answers::new(rows, picked.picks),
        more: picked.more,
    })
}

/// The next `count` answers of a plan at most, from a place on, and the place from which on further ones are to come. Each
/// list of the snapshot is read once at most.
pub fn next_page<L: Ledger>(
    alloc: Global,
    plan: &Plan,
    found: &Option<Conjunction>,
    snapshot: &Snapshot,
    from: Loc,
    count: u64,
    steps: &mut Steps<L>,
) -> Result<(Page, Loc), AllocError>
    requires tests { snapshot.now.tests ≡ tests_of (tree plan.now) }
    requires found { IfSome found.now (IsConjunction (tree plan.now)) }
    requires top { from ≤ TOP }
    ensures page { IfOk result (λ r. (space : List Placed) → Shows space snapshot.now
        → IsPage space (tree plan.now) snapshot.now from r.1 count r.0 steps.old steps.new) }
    ensures top { IfOk result (λ r. r.1 ≤ TOP) }
    ensures few { IfOk result (λ _. length snapshot.now.rows < TOP) }
    ensures steps { AreSearchSteps found.now snapshot.now steps.old steps.new }
{
    let (picks, place) = picked(alloc, plan, found, &snapshot.whole(), from, count, steps)?;
    let page = page_of(snapshot, picks)?;
    Ok((page, place))
}

/// The words and the negated words of the query of a plan, if it has nothing else.
pub fn asked(alloc: Global, plan: &Plan, query: &Query) -> Result<Option<Conjunction>, AllocError>
    requires { tree plan.now ≡ plan_of (shape query.now) }
    ensures found { IfOk result (λ found. found ≡ conjunction_of (shape query.now)) }
    ensures plan { IfOk result (λ found. IfSome found (IsConjunction (tree plan.now))) }
{
    let found = conjunction(alloc, query)?;
    Ok(found)
}

/// All answers of a query by its plan, over the snapshot of the plan's tests, with `more` false. It adds at most as many steps
/// as the lists of the tests are and have locations; for a conjunction of words, for each list at most four and twice
/// the locations of its rarest word. Fails for want of memory alone.
pub fn search<L: Ledger>(
    alloc: Global,
    plan: &Plan,
    query: &Query,
    snapshot: &Snapshot,
    steps: &mut Steps<L>,
) -> Result<Page, AllocError>
    requires tests { snapshot.now.tests ≡ tests_of (tree plan.now) }
    requires query { tree plan.now ≡ plan_of (shape query.now) }
    ensures answers { IfOk result (λ page. (space : List Placed) → Shows space snapshot.now
        → page.answers ≡ map answer_of (coming space (tree plan.now) snapshot.now 0)) }
    ensures more { IfOk result (λ page. (space : List Placed) → Shows space snapshot.now → page.more ≡ false) }
    ensures steps { AreSearchSteps (conjunction_of (shape query.now)) snapshot.now steps.old steps.new }
{
    let found = asked(alloc, plan, query)?;
    let (page, _next) = next_page(alloc, plan, &found, snapshot, 0, TOP, steps)?;
    Ok(page)
}
