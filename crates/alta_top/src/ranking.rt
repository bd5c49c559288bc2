// The best answers of a query.
// Of all answers the index of the row alone is kept, and a name is copied only of one that is among the best: a heap of all names
// would take memory by the answers and not by what is asked for.
ghost use Rattle.std.specs.Prelude.{◌≡◌, ℕ, ◌+◌, ◌^◌, ◌<◌, ◌≤◌, true, ◌∷◌, ◌++◌, [], List, map, length, All, IfSome, IfOk, OnOk};
ghost use Rattle.alta_machine.specs.PlanOf.{plan_of};
ghost use Rattle.alta_compile.specs.Space.{Placed};
ghost use Rattle.alta_compile.specs.View.{tree};
ghost use Rattle.alta_machine.specs.declared.document.Document.{Document};
ghost use Rattle.alta_machine.specs.Matches.{IsWellFormed};
ghost use Rattle.alta_machine.specs.Patterns.{title_end};
ghost use Rattle.alta_query.specs.View.{shape};
ghost use Rattle.alta_content.specs.Rows.{end_of};
ghost use Rattle.alta_rank.specs.AnyUse.{asks_any_use};
ghost use Rattle.alta_rank.specs.Kept.{IsBest};
ghost use Rattle.alta_machine.specs.Uses.{uses_of};
ghost use Rattle.alta_machine.specs.declared.scored.Scored.{Scored};
ghost use Rattle.alta_search.specs.Answers.{coming};
ghost use Rattle.alta_search.specs.Leads.{IsConjunction};
ghost use Rattle.alta_search.specs.Lists.{count_lists, count_locations};
ghost use Rattle.alta_search.specs.Plans.{tests_of, lists, locations};
ghost use Rattle.alta_top.specs.Scoring.{HasScored, AreScorable, last_lists, scored_by};
ghost use Rattle.alta_search.specs.Told.{rows_at};
ghost use Rattle.alta_search.specs.Tops.{AreToRank};
ghost use Rattle.alta_top.specs.Best.{AreBest, AreTopSteps};
ghost use Rattle.alta_search.specs.View.{Shows};
ghost use Rattle.alta_search.specs.Walked.{WalksOver};

use crate::best::Top;
use crate::scored_walk::best_scored;
use crate::scoring::{may_lead, score_row, scorer};
use alta_codec::{Steps, TOP, Text};
use alta_compile::{Conjunction, Plan};
use alta_content::{AllRows, DocRow};
use alta_machine::{Scored, ScoredList, Uses};
use alta_query::Query;
use alta_rank::{
    Best, Scorer, a_query_has_few_uses, a_score_is_of_an_answer, a_score_is_of_the_cells,
    asks_any_use, uses,
};
use alta_search::{Section, Snapshot, TestReader, asked, picked};
use std::alloc::{AllocError, Global};
use std::sync::ledger::Ledger;

/// The indexes of the rows of all answers of a plan.
fn answered<L: Ledger>(
    alloc: Global,
    plan: &Plan,
    found: &Option<Conjunction>,
    snapshot: &Section<'_>,
    steps: &mut Steps<L>,
) -> Result<Vec<usize>, AllocError>
    requires tests { snapshot.now.tests ≡ tests_of (tree plan.now) }
    requires found { IfSome found.now (IsConjunction (tree plan.now)) }
    ensures inside { IfOk result (λ picks. All (λ i. i < length snapshot.now.rows) picks.items) }
    ensures walks { WalksOver snapshot.now steps.old steps.new result
        (λ picks. (space : List Placed) → Shows space snapshot.now → rows_at snapshot.now.rows picks.items
        ≡ coming space (tree plan.now) snapshot.now 0) }
{
    let (picked, _) = picked(alloc, plan, found, snapshot, 0, TOP, steps)?;
    Ok(picked.picks)
}

/// The indexes of the rows of all answers of a query by its plan, over the snapshot of the plan's tests and of one test behind them. It
/// leaves the steps of that test's lists.
fn all_answered<L: Ledger>(
    alloc: Global,
    plan: &Plan,
    query: &Query,
    snapshot: &Snapshot,
    steps: &mut Steps<L>,
) -> Result<Vec<usize>, AllocError>
    requires tests { snapshot.now.tests ≡ tests_of (tree plan.now) ++ title_end ∷ [] }
    requires query { tree plan.now ≡ plan_of (shape query.now) }
    ensures inside { IfOk result (λ picks. All (λ i. i < length snapshot.now.rows) picks.items) }
    ensures answers { IfOk result (λ picks. (space : List Placed) → Shows space snapshot.now
        → rows_at snapshot.now.rows picks.items ≡ coming space (tree plan.now) snapshot.now 0) }
    ensures most { steps.new + (count_locations (last_lists snapshot.now) + count_lists (last_lists snapshot.now))
        ≤ steps.old + (locations snapshot.now.cuts + lists snapshot.now.cuts) }
{
    let section = snapshot.first(snapshot.len() - 1);
    let found = asked(alloc, plan, query)?;
    let picks = answered(alloc, plan, &found, &section, steps);
    drop(found);
    picks
}

/// Takes the document of a row in, with its score. Its name is copied only where it is kept.
pub(crate) fn offer(
    alloc: Global,
    best: &mut Best,
    row: &DocRow,
    score: u64,
) -> Result<(), AllocError>
    ensures count { best.new.count ≡ best.old.count }
    ensures best { OnOk result ((every : List Scored) → IsBest best.old.count every best.old.kept
        → IsBest best.old.count (every ++ record { number = row.now.number; name = row.now.name; score = score }
        ∷ []) best.new.kept) }
{
    if best.has_place(row.number, score) {
        let name = Text::of(alloc, row.name.as_str())?;
        best.put(Scored {
            number: row.number,
            name,
            score,
        })?;
    }
    Ok(())
}

/// The first `count` by score of the documents of the rows at these indexes, which rise.
fn best_of<L: Ledger>(
    alloc: Global,
    scorer: &mut Scorer<TestReader<'_>>,
    rows: &AllRows,
    picks: &[usize],
    count: u64,
    steps: &mut Steps<L>,
) -> Result<Best, AllocError>
    requires { All (λ i. i < length rows.now) picks.now }
    ensures scored { HasScored scorer.old scorer.new steps.old steps.new }
    ensures count { IfOk result (λ best. best.count ≡ count) }
    ensures best { IfOk result (λ best. length scorer.old.uses ≤ 64
        → AreScorable scorer.old.asked (rows_at rows.now picks.now)
        → IsBest count (map (scored_by scorer.old) (rows_at rows.now picks.now)) best.kept) }
{
    let mut best = Best::new(alloc, count);
    for index in picks {
        let row = rows.row(*index);
        offer(alloc, &mut best, row, score_row(scorer, row, steps))?;
    }
    Ok(best)
}

/// The same, by the answers that the plan finds.
fn top_by_plan<L: Ledger>(
    alloc: Global,
    plan: &Plan,
    query: &Query,
    uses: Uses,
    snapshot: &Snapshot,
    count: u64,
    steps: &mut Steps<L>,
) -> Result<Top, AllocError>
    requires tests { snapshot.now.tests ≡ tests_of (tree plan.now) ++ title_end ∷ [] }
    requires query { tree plan.now ≡ plan_of (shape query.now) }
    requires uses { uses ≡ uses_of (shape query.now) }
    ensures best { IfOk result (λ top. IsWellFormed (shape query.now) → (documents : List Document)
        → AreToRank (tree plan.now) snapshot.now documents
        → AreBest (uses_of (shape query.now)) documents count top) }
    ensures total { IfOk result (λ top. (space : List Placed) → Shows space snapshot.now
        → top.total ≡ length (coming space (tree plan.now) snapshot.now 0)) }
    ensures most { AreTopSteps (uses_of (shape query.now)) snapshot.now steps.old steps.new }
{
    a_query_has_few_uses();
    a_score_is_of_the_cells();
    let picks = all_answered(alloc, plan, query, snapshot, steps)?;
    let mut scorer = scorer(alloc, &snapshot.whole(), uses, steps)?;
    let best = best_of(alloc, &mut scorer, snapshot.rows(), &picks, count, steps)?;
    Ok(Top {
        answers: ScoredList::from_vec(best.into_sorted()),
        total: picks.len() as u64,
    })
}

/// The same of a query that asks for one of its uses, by the rows that have a score.
fn top_by_uses<L: Ledger>(
    alloc: Global,
    plan: &Plan,
    query: &Query,
    uses: Uses,
    snapshot: &Snapshot,
    count: u64,
    steps: &mut Steps<L>,
) -> Result<Top, AllocError>
    requires tests { snapshot.now.tests ≡ tests_of (tree plan.now) ++ title_end ∷ [] }
    requires query { tree plan.now ≡ plan_of (shape query.now) }
    requires uses { uses ≡ uses_of (shape query.now) }
    requires any { asks_any_use (shape query.now) ≡ true }
    requires few { length uses ≤ 64 }
    requires low { All (λ r. end_of r < 2 ^ 54) snapshot.now.rows }
    ensures best { IfOk result (λ top. IsWellFormed (shape query.now) → (documents : List Document)
        → AreToRank (tree plan.now) snapshot.now documents
        → AreBest (uses_of (shape query.now)) documents count top) }
    ensures total { IfOk result (λ top. (space : List Placed) → Shows space snapshot.now
        → top.total ≡ length (coming space (tree plan.now) snapshot.now 0)) }
    ensures most { AreTopSteps (uses_of (shape query.now)) snapshot.now steps.old steps.new }
{
    a_score_is_of_the_cells();
    a_score_is_of_an_answer();
    let mut scorer = scorer(alloc, &snapshot.whole(), uses, steps)?;
    let found = best_scored(
        alloc,
        &mut scorer,
        snapshot.rows(),
        snapshot.gone(),
        count,
        steps,
    )?;
    Ok(Top {
        answers: ScoredList::from_vec(found.best.into_sorted()),
        total: found.total,
    })
}

/// The first `count` answers of a query by score, and how many it has in all, by its plan over the snapshot of the plan's tests and
/// of the test of title ends behind them, as [`alta_search::ranking_order`] has them. It adds at most as many steps as the lists of these
/// tests are and have locations, and as those of the query's uses are and have once more. Beside its readers it keeps the index of each
/// answer's row, and number, score and name of `count` answers. Fails for want of memory alone.
///
/// A query that was read has at most 64 uses, and a document at most 262,146 cells, so that no score passes 64 bits; of a snapshot or
/// a query with more the answers are in no order that is said.
pub fn top<L: Ledger>(
    alloc: Global,
    plan: &Plan,
    query: &Query,
    snapshot: &Snapshot,
    count: u64,
    steps: &mut Steps<L>,
) -> Result<Top, AllocError>
    requires tests { snapshot.now.tests ≡ tests_of (tree plan.now) ++ title_end ∷ [] }
    requires query { tree plan.now ≡ plan_of (shape query.now) }
    ensures best { IfOk result (λ top. IsWellFormed (shape query.now) → (documents : List Document)
        → AreToRank (tree plan.now) snapshot.now documents
        → AreBest (uses_of (shape query.now)) documents count top) }
    ensures total { IfOk result (λ top. (space : List Placed) → Shows space snapshot.now
        → top.total ≡ length (coming space (tree plan.now) snapshot.now 0)) }
    ensures most { AreTopSteps (uses_of (shape query.now)) snapshot.now steps.old steps.new }
{
    let uses = uses(alloc, query)?;
    if asks_any_use(query) && may_lead(&uses, snapshot.rows()) {
        return top_by_uses(alloc, plan, query, uses, snapshot, count, steps);
    }
    top_by_plan(alloc, plan, query, uses, snapshot, count, steps)
}
