// Cursors: pages of the answers of a query.
// A cursor keeps the conjunction that was found in its query. No document ends at or above TOP, so a cursor that stands there answers at
// once, and no reader is made.
ghost use Rattle.std.specs.Prelude.{◌≡◌, ℕ, ◌≤◌, List, Some, IfOk, IfErr};
ghost use Rattle.alta_codec.specs.declared.location.TheConstants.{TOP};
ghost use Rattle.alta_compile.specs.Conjoined.{conjunction_of};
ghost use Rattle.alta_compile.specs.Space.{Placed};
ghost use Rattle.alta_compile.specs.View.{tree};
ghost use Rattle.alta_machine.specs.PlanOf.{plan_of};
ghost use Rattle.alta_machine.specs.Plans.{Tree};
ghost use Rattle.alta_query.specs.View.{shape};
ghost use Rattle.alta_search.specs.Answers.{IsPage};
ghost use Rattle.alta_search.specs.Plans.{tests_of};
ghost use Rattle.alta_search.specs.View.{Shows};
ghost use Rattle.alta_search.specs.Walked.{AreSearchSteps};

use alta_codec::{Loc, Steps, TOP};
use alta_compile::{Conjunction, Plan};
use alta_query::Query;
use alta_search::{Answers, Page, Snapshot, asked, next_page};
use std::alloc::{AllocError, Global};
use std::marker::Model;
use std::sync::ledger::Ledger;

/// The page of no answers, with `more` false: what comes past the last answer.
fn last(alloc: Global, snapshot: &Snapshot) -> Result<Page, AllocError>
    ensures { IfOk result (λ page. (space : List Placed) (plan : Tree) (from count steps : ℕ) → TOP ≤ from
        → IsPage space plan snapshot.now from from count page steps steps) }
{
    let picks = Vec::new(alloc);
    let answers = Answers::new(snapshot.rows().share()?, picks);
    Ok(Page {
        answers,
        more: false,
    })
}

/// The answers of a plan that are still to come, over the snapshot of its tests. Contracts see the plan, its conjunction if
/// its query is one, the snapshot, and the place from which on documents that end there are still to come.
#[derive(Drop)]
pub struct Cursor {
    plan: Plan,
    found: Option<Conjunction>,
    snapshot: Snapshot,
    from: Loc,
}

impl Model for Cursor {
    ghost use Rattle.std.specs.Prelude.{◌≡◌, ◌≤◌, IfSome};
    ghost use Rattle.alta_codec.specs.declared.location.TheConstants.{TOP};
    ghost use Rattle.alta_compile.specs.View.{tree};
    ghost use Rattle.alta_compile.specs.contracts.asked.Conjunction as a;
    ghost use Rattle.alta_compile.specs.contracts.plan.Plan as e;
    ghost use Rattle.std.specs.Coded.{codes};
    ghost use Rattle.alta_search.specs.Leads.{IsConjunction};
    ghost use Rattle.alta_search.specs.Plans.{tests_of};
    ghost use Rattle.alta_cursors.specs.View.{CursorView};

    ghost Value = { CursorView };

    ghost coded = { Prim.hlevel (codes, e.the_row.coded, a.the_row.coded) };

    ghost view = { λ c. record { plan = c.plan; found = c.found; snapshot = c.snapshot; from = c.from } };

    ghost invariant = { λ c. (c.snapshot.tests ≡ tests_of (tree c.plan)) × (c.from ≤ TOP)
        × IfSome c.found (IsConjunction (tree c.plan)) };
}

impl Cursor {
    /// The cursor over all answers of the query by its plan. The snapshot is that of the plan's tests. No reader is made or
    /// moved. Fails for want of memory alone; the plan and the snapshot are dropped then.
    pub fn new(
        alloc: Global,
        plan: Plan,
        query: &Query,
        snapshot: Snapshot,
    ) -> Result<Cursor, AllocError>
        requires tests { snapshot.tests ≡ tests_of (tree plan) }
        requires query { tree plan ≡ plan_of (shape query.now) }
        ensures plan { IfOk result (λ c. c.plan ≡ plan) }
        ensures found { IfOk result (λ c. c.found ≡ conjunction_of (shape query.now)) }
        ensures snapshot { IfOk result (λ c. c.snapshot ≡ snapshot) }
        ensures from { IfOk result (λ c. c.from ≡ 0) }
    {
        let found = asked(alloc, &plan, query)?;
        Ok(Cursor {
            plan,
            found,
            snapshot,
            from: 0,
        })
    }

    /// The next `count` answers at most, and whether more are left; they are taken off. It adds at most as many steps as
    /// the lists of the plan's tests are and have locations; of one Found, where more are left, at most the lists and the
    /// locations below the end of the first answer that is left; for a conjunction of words, for each list at most four
    /// and twice the locations of its rarest word. Fails for want of memory alone, and the cursor then stands where it
    /// stood. Past the last answer no reader is made.
    pub fn fetch<L: Ledger>(
        &mut self,
        alloc: Global,
        count: u64,
        steps: &mut Steps<L>,
    ) -> Result<Page, AllocError>
        ensures plan { self.new.plan ≡ self.old.plan }
        ensures found { self.new.found ≡ self.old.found }
        ensures snapshot { self.new.snapshot ≡ self.old.snapshot }
        ensures page { IfOk result (λ page. (space : List Placed) → Shows space self.old.snapshot
            → IsPage space (tree self.old.plan) self.old.snapshot self.old.from self.new.from count page
            steps.old steps.new) }
        ensures steps { AreSearchSteps self.old.found self.old.snapshot steps.old steps.new }
        ensures past { self.old.from ≡ TOP → steps.new ≡ steps.old }
        ensures kept { IfErr result (λ _. self.new ≡ self.old) }
    {
        if self.from == TOP {
            let page = last(alloc, &self.snapshot)?;
            return Ok(page);
        }
        let (page, next) = next_page(
            alloc,
            &self.plan,
            &self.found,
            &self.snapshot,
            self.from,
            count,
            steps,
        )?;
        self.from = next;
        Ok(page)
    }
}
