// What a list of atoms asks for, gathered atom by atom.
ghost use Rattle.std.specs.Prelude.{◌≡◌, ℕ, suc, ◌+◌, ◌<◌, ◌≤◌, List, [], ◌∷◌, ◌++◌, map, length, IfOk, OnOk};
ghost use Rattle.alta_docread.specs.Solutions.{IsHeld};
ghost use Rattle.alta_machine.specs.Patterns.{neighbours, before_end, title_end, near_pattern, phrase_pattern, titled, pattern_of};
ghost use Rattle.alta_query.specs.View.{atom_view};
ghost use Rattle.alta_machine.specs.declared.test.Test.TheVariants.{Is};
ghost use Rattle.alta_solver.specs.Bounds.{IsNamed};
ghost use Rattle.alta_codec.specs.declared.form.Form.TheVariants.{LocLoc};
ghost use Rattle.alta_compile.specs.Drafted.{IsAdded, placed};
ghost use Rattle.alta_codec.specs.Inequality.{upper, lower};
ghost use Rattle.alta_machine.specs.PlanOf.{held};

use crate::plan::FoundPlan;
use alta_codec::{Bytes, Form};
use alta_machine::kinds::{NAME, TITLE_END, term};
use alta_machine::{Test, Tests};
use alta_query::Atom;
use alta_solver::{Bound, System};
use std::alloc::{AllocError, Global};
use std::slice;

/// Tests again, behind those that are there.
fn push_tests(out: &mut Vec<Test>, tests: &[Test]) -> Result<(), AllocError>
    ensures { OnOk result (out.new.items ≡ out.old.items ++ tests.now) }
{
    for test in tests {
        out.push(test.copy()?)?;
    }
    Ok(())
}

/// Variable `i` is at most variable `j` plus `ahead`.
fn within(i: usize, j: usize, ahead: u16) -> Bound
    ensures { result ≡ record { form = LocLoc; i = i; j = j; plus = ahead; minus = 0 } }
{
    Bound::new(Form::LocLoc, i, j, ahead as i64).unwrap()
}

/// The side of variable `i` is below variable `j`.
fn below(form: Form, i: usize, j: usize) -> Bound
    ensures { result ≡ record { form = form; i = i; j = j; plus = 0; minus = 1 } }
{
    Bound::new(form, i, j, -1).unwrap()
}

/// The bounds by which each word of a phrase stands right before the next, where `base` variables stand before its own.
fn push_neighbours(out: &mut Vec<Bound>, base: usize, words: &[Test]) -> Result<(), AllocError>
    requires { base < 9223372036854775808 }
    ensures { OnOk result (out.new.items ≡ out.old.items ++ map (placed base) (neighbours 0 words.now)) }
{
    for i in 1..words.len() {
        out.push(below(Form::LocLoc, base + i, base + i + 1))?;
        out.push(within(base + i + 1, base + i, 1))?;
    }
    Ok(())
}

/// The bounds by which each of `count` variables behind `base` others stands before the one behind them.
fn push_before_end(out: &mut Vec<Bound>, base: usize, count: usize) -> Result<(), AllocError>
    requires { base + count < 9223372036854775808 }
    ensures { OnOk result (out.new.items ≡ out.old.items ++ map (placed base) (before_end count count)) }
{
    for i in 0..count {
        out.push(below(Form::LocLoc, base + i + 1, base + count + 1))?;
    }
    Ok(())
}

/// For each variable behind the first the two bounds that hold it in a document.
fn push_held(out: &mut Vec<Bound>, count: usize) -> Result<(), AllocError>
    requires { count < 9223372036854775808 }
    ensures { OnOk result (out.new.items ≡ out.old.items ++ held count) }
{
    for i in 0..count {
        out.push(within(i + 1, 0, 0))?;
        out.push(below(Form::PrevLoc, 0, i + 1))?;
    }
    Ok(())
}

/// Tests, and bounds between the variables of them: variable 0 is the end of a document, variable i has test i - 1.
#[derive(Drop)]
pub(crate) struct Draft {
    tests: Vec<Test>,
    bounds: Vec<Bound>,
}

impl Draft {
    /// No tests and no bounds.
    pub(crate) fn new(alloc: Global) -> Draft
        ensures tests { result.tests.items ≡ [] }
        ensures bounds { result.bounds.items ≡ [] }
    {
        Draft {
            tests: Vec::new(alloc),
            bounds: Vec::new(alloc),
        }
    }

    /// Adds what an atom asks for, and nothing for a value.
    pub(crate) fn add(&mut self, alloc: Global, atom: &Atom) -> Result<(), AllocError>
        ensures { OnOk result (IsAdded self.old self.new (pattern_of (atom_view atom.now))) }
    {
        match atom {
            Atom::Words { title, tests, .. } => self.add_words(alloc, *title, tests.as_slice()),
            Atom::Prefix { title, test, .. } => self.add_words(
                alloc,
                *title,
                slice::from_ref(test),
            ),
            Atom::Near {
                left,
                distance,
                right,
            } => self.add_near(left.test(), *distance, right.test()),
            Atom::Name { name } => {
                let term = term(alloc, NAME, name.as_str().as_bytes())?;
                self.add_term(term)
            }
            Atom::Value { .. } => Ok(()),
        }
    }

    /// Adds a phrase, which maybe stands in the title.
    fn add_words(&mut self, alloc: Global, title: bool, words: &[Test]) -> Result<(), AllocError>
        ensures { OnOk result (IsAdded self.old self.new (titled title (phrase_pattern words.now))) }
    {
        let base = self.tests.len();
        push_tests(&mut self.tests, words)?;
        push_neighbours(&mut self.bounds, base, words)?;
        if title {
            let end = term(alloc, TITLE_END, &[])?;
            self.tests.push(Test::Is(end))?;
            push_before_end(&mut self.bounds, base, words.len())?;
        }
        Ok(())
    }

    /// Adds two tests that are met at most so far apart.
    fn add_near(&mut self, left: &Test, distance: u16, right: &Test) -> Result<(), AllocError>
        ensures { OnOk result (IsAdded self.old self.new (near_pattern left.now distance right.now)) }
    {
        let base = self.tests.len();
        self.tests.push(left.copy()?)?;
        self.tests.push(right.copy()?)?;
        self.bounds.push(within(base + 1, base + 2, distance))?;
        self.bounds.push(within(base + 2, base + 1, distance))?;
        Ok(())
    }

    /// Adds the test for a term.
    pub(crate) fn add_term(&mut self, term: Bytes) -> Result<(), AllocError>
        ensures { OnOk result (IsAdded self.old self.new (phrase_pattern (Is term ∷ []))) }
    {
        self.tests.push(Test::Is(term))?;
        Ok(())
    }

    /// The plan of what was gathered.
    pub(crate) fn close(self, alloc: Global) -> Result<FoundPlan, AllocError>
        requires { IsNamed (suc (length self.tests.items)) self.bounds.items }
        ensures { IfOk result (λ f. f ≡ record {
          tests = self.tests.items;
          bounds = held (length self.tests.items)
              ++ self.bounds.items;
        }) }
    {
        let Draft { tests, bounds } = self;
        let mut all = Vec::with_capacity(alloc, bounds.len())?;
        push_held(&mut all, tests.len())?;
        all.extend_from_slice(&bounds)?;
        Ok(FoundPlan::new(Tests::from_vec(tests), System::new(all)))
    }
}
