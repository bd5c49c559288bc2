// How many steps searches for conjunctions of words and the first page of a word add, in figures.
ghost use Rattle.std.specs.Prelude.{◌≡◌, ◌+◌, ◌≤◌, [], ◌∷◌, List, length, IfOk, IsTrue, Some};
ghost use Rattle.alta_compile.specs.Conjoined.{conjunction_of};
ghost use Rattle.alta_machine.specs.PlanOf.{plan_of};
ghost use Rattle.alta_compile.specs.Space.{Placed, list_of};
ghost use Rattle.alta_compile.specs.View.{tree};
ghost use Rattle.alta_query.specs.View.{shape};
ghost use Rattle.alta_machine.specs.declared.test.Test.{Test};
ghost use Rattle.alta_search.specs.Answers.{coming, first_end};
ghost use Rattle.alta_search.specs.Plans.{tests_of, lists, locations_below, IsOneFound};
ghost use Rattle.alta_search.specs.View.{Shows};

use alta_codec::Steps;
use alta_compile::Plan;
use alta_cursors::Cursor;
use alta_query::Query;
use alta_search::{Page, Snapshot, search};
use std::alloc::{AllocError, Global};
use std::sync::ledger::Ledger;

/// The answers of a rare word and a common one. Where the ends of the documents and both words have a list each, and the rare
/// word stands once, the search adds at most 18 steps, whichever of the words comes first and however often the common one
/// stands.
pub fn rare_and_common<L: Ledger>(
    alloc: Global,
    plan: &Plan,
    query: &Query,
    snapshot: &Snapshot,
    steps: &mut Steps<L>,
) -> Result<Page, AllocError>
    requires tests { snapshot.now.tests ≡ tests_of (tree plan.now) }
    requires query { tree plan.now ≡ plan_of (shape query.now) }
    ensures rare_first { (space : List Placed) (rare common : Test) → Shows space snapshot.now
        → conjunction_of (shape query.now) ≡ Some (record { words = rare ∷ common ∷ []; negated = [] })
        → lists snapshot.now.cuts ≡ 3 → length (list_of space rare) ≡ 1 → steps.new ≤ steps.old + 18 }
    ensures common_first { (space : List Placed) (rare common : Test) → Shows space snapshot.now
        → conjunction_of (shape query.now) ≡ Some (record { words = common ∷ rare ∷ []; negated = [] })
        → lists snapshot.now.cuts ≡ 3 → length (list_of space rare) ≡ 1 → steps.new ≤ steps.old + 18 }
{
    search(alloc, plan, query, snapshot, steps)
}

/// The answers of a word without another. Where the word stands twice, and the five lists that are used are not empty, of which
/// three are the ends of the documents, the search adds at most 40 steps, however often the other word stands.
pub fn one_without_another<L: Ledger>(
    alloc: Global,
    plan: &Plan,
    query: &Query,
    snapshot: &Snapshot,
    steps: &mut Steps<L>,
) -> Result<Page, AllocError>
    requires tests { snapshot.now.tests ≡ tests_of (tree plan.now) }
    requires query { tree plan.now ≡ plan_of (shape query.now) }
    ensures { (space : List Placed) (word other : Test) → Shows space snapshot.now
        → conjunction_of (shape query.now) ≡ Some (record { words = word ∷ []; negated = other ∷ [] })
        → lists snapshot.now.cuts ≡ 5 → length (list_of space word) ≡ 2 → steps.new ≤ steps.old + 40 }
{
    search(alloc, plan, query, snapshot, steps)
}

/// The next answer of a cursor over one word. Where the ends of the documents and the word have a list each, and three of their
/// locations are below the end of the first answer that is left, it adds at most 5 steps, however many answers are left.
pub fn one_of_a_common_word<L: Ledger>(
    alloc: Global,
    cursor: &mut Cursor,
    steps: &mut Steps<L>,
) -> Result<Page, AllocError>
    ensures { IfOk result (λ page. (space : List Placed) → Shows space cursor.old.snapshot
        → IsOneFound (tree cursor.old.plan) → IsTrue page.more → lists cursor.old.snapshot.cuts ≡ 2
        → locations_below (first_end (coming space (tree cursor.old.plan) cursor.old.snapshot cursor.new.from))
        cursor.old.snapshot.cuts ≡ 3
        → steps.new ≤ steps.old + 5) }
{
    let page = cursor.fetch(alloc, 1, steps)?;
    Ok(page)
}
