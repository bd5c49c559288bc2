// Plans.
ghost use Rattle.std.specs.Prelude.{◌≡◌, suc, length};
ghost use Rattle.alta_docread.specs.Solutions.{IsHeld};
ghost use Rattle.alta_solver.specs.Bounds.{IsNamed};

use alta_machine::Tests;
use alta_solver::System;
use std::marker::Model;

/// Which documents are found: variable 0 is the end of a document, variable i is a location whose cell meets test i - 1,
/// and a system of bounds holds between them. The bounds name these variables alone, and hold each of them but the first
/// between the end before the document's own and that end.
#[derive(Drop)]
pub struct FoundPlan {
    tests: Tests,
    system: System,
}

impl Model for FoundPlan {
    ghost use Rattle.std.specs.Prelude.{suc, length};
    ghost use Rattle.alta_docread.specs.Solutions.{IsHeld};
    ghost use Rattle.alta_solver.specs.Bounds.{IsNamed};
    ghost use Rattle.alta_machine.specs.Plans.{FoundTree};

    ghost Value = { FoundTree };

    ghost view = { λ f. record { tests = f.tests; bounds = f.system } };

    ghost invariant = { λ f. IsNamed (suc (length f.tests)) f.system × IsHeld (suc (length f.tests)) f.system };
}

impl FoundPlan {
    /// The plan of these tests and bounds.
    pub(crate) fn new(tests: Tests, system: System) -> FoundPlan
        requires named { IsNamed (suc (length tests)) system }
        requires held { IsHeld (suc (length tests)) system }
        ensures tests { result.tests ≡ tests }
        ensures bounds { result.bounds ≡ system }
    {
        FoundPlan { tests, system }
    }

    /// The test of each variable but the first.
    pub fn tests(&self) -> &Tests
        ensures { result.now ≡ self.now.tests }
    {
        &self.tests
    }

    /// The bounds between the variables.
    pub fn system(&self) -> &System
        ensures bounds { result.now ≡ self.now.bounds }
        ensures named { IsNamed (suc (length self.now.tests)) self.now.bounds }
        ensures held { IsHeld (suc (length self.now.tests)) self.now.bounds }
    {
        &self.system
    }
}

/// A plan: a tree of sets of documents, each seen as the list of their ends.
#[derive(Drop)]
pub enum Plan {
    /// The documents that a system of bounds finds.
    Found(FoundPlan),
    /// The documents that all of these find.
    AllOf(Plans),
    /// The documents that one of these finds at least.
    AnyOf(Plans),
    /// The documents that this one does not find.
    Without(Box<Plan>),
}

/// Plans, as the parts of an AllOf in order.
pub type Plans = Vec<Plan>;
