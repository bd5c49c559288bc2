// How many answers a query has by its plan: each kind of query by the walk that asks least of its lists.
// No row is looked at: each location of a plan's list is one document's end.
ghost use Rattle.std.specs.Prelude.{◌≡◌, None, Some};
ghost use Rattle.alta_compile.specs.Conjoined.{conjunction_of};
ghost use Rattle.alta_compile.specs.View.{tree};
ghost use Rattle.alta_counts.specs.Counted.{IsCountedBy, CountsAnswers};
ghost use Rattle.alta_machine.specs.PlanOf.{plan_of};
ghost use Rattle.alta_query.specs.View.{shape};
ghost use Rattle.alta_search.specs.Leads.{IsConjunction};
ghost use Rattle.alta_search.specs.Plans.{tests_of};

use crate::asked_count::{count_either, count_titled, has_few_words};
use crate::by_level::count_by_level;
use crate::stem_walk::count_stem;
use crate::tallies::tally;
use alta_codec::Steps;
use alta_compile::{Conjunction, Plan, asks_either, asks_stem, asks_title};
use alta_query::Query;
use alta_search::{Section, Snapshot, asked, by_tree};
use std::alloc::{AllocError, Global};
use std::sync::ledger::Ledger;

/// How many answers a plan has, by a reader of the ends that its tree finds.
fn count_by_tree<L: Ledger>(
    alloc: Global,
    plan: &Plan,
    snapshot: &Snapshot,
    steps: &mut Steps<L>,
) -> Result<u64, AllocError>
    requires tests { snapshot.now.tests ≡ tests_of (tree plan.now) }
    ensures { CountsAnswers (tree plan.now) None snapshot.now steps.old steps.new result }
{
    let reader = by_tree(alloc, plan, &snapshot.whole(), 0, steps)?;
    let live = tally(alloc, reader, snapshot.gone(), steps)?;
    Ok(live)
}

/// How many answers a plan has that is a conjunction of words, led by the rarest.
fn count_words<L: Ledger>(
    alloc: Global,
    plan: &Plan,
    found: &Conjunction,
    snapshot: &Snapshot,
    steps: &mut Steps<L>,
) -> Result<u64, AllocError>
    requires tests { snapshot.now.tests ≡ tests_of (tree plan.now) }
    requires found { IsConjunction (tree plan.now) found.now }
    ensures { CountsAnswers (tree plan.now) (Some found.now) snapshot.now steps.old steps.new result }
{
    let section = snapshot.whole();
    let live = count_by_level(alloc, found, &section, steps)?;
    Ok(live)
}

/// How many answers a query has by its plan: by its words where it is a conjunction of them, else by a reader of the ends that the
/// plan finds.
fn count_by_reader<L: Ledger>(
    alloc: Global,
    plan: &Plan,
    query: &Query,
    snapshot: &Snapshot,
    steps: &mut Steps<L>,
) -> Result<u64, AllocError>
    requires tests { snapshot.now.tests ≡ tests_of (tree plan.now) }
    requires query { tree plan.now ≡ plan_of (shape query.now) }
    ensures { CountsAnswers (tree plan.now) (conjunction_of (shape query.now)) snapshot.now steps.old steps.new result }
{
    let found = asked(alloc, plan, query)?;
    match &found {
        Some(words) => count_words(alloc, plan, words, snapshot, steps),
        None => count_by_tree(alloc, plan, snapshot, steps),
    }
}

/// The walk by which the answers of a query are counted.
enum Counting {
    /// Over a word and the ends of titles.
    Title,
    /// Over the terms of a stem.
    Stem,
    /// Over the words of an Or.
    Either,
    /// By a reader of the ends that the plan finds.
    Reader,
}

/// How a query is counted over the snapshot of the tests of its plan: a word in titles, a stem and an Or of a few words by one walk
/// over their lists.
fn counting_of(query: &Query, snapshot: &Section<'_>) -> Counting
    ensures { IsCountedBy (shape query.now) snapshot.now result }
{
    if asks_title(query) {
        return Counting::Title;
    }
    if asks_stem(query) {
        return Counting::Stem;
    }
    if asks_either(query) && has_few_words(snapshot) {
        return Counting::Either;
    }
    Counting::Reader
}

/// How many answers a query has by its plan, over the snapshot of the plan's tests; none of them is kept, and no row is looked
/// at. It adds at most as many steps as the lists of the tests are and have locations; for a conjunction of words, for each list
/// at most four and twice the locations of its rarest word. Fails for want of memory alone.
pub fn count<L: Ledger>(
    alloc: Global,
    plan: &Plan,
    query: &Query,
    snapshot: &Snapshot,
    steps: &mut Steps<L>,
) -> Result<u64, AllocError>
    requires tests { snapshot.now.tests ≡ tests_of (tree plan.now) }
    requires query { tree plan.now ≡ plan_of (shape query.now) }
    ensures { CountsAnswers (tree plan.now) (conjunction_of (shape query.now)) snapshot.now steps.old steps.new result }
{
    let section = snapshot.whole();
    match counting_of(query, &section) {
        Counting::Title => count_titled(alloc, &section, steps),
        Counting::Stem => count_stem(alloc, &section, steps),
        Counting::Either => count_either(alloc, &section, steps),
        Counting::Reader => count_by_reader(alloc, plan, query, snapshot, steps),
    }
}
