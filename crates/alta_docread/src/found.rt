// A reader of the first places of all solutions.
ghost use Rattle.std.specs.Prelude.{◌≡◌, ℕ, ◌+◌, ◌<◌, ◌≤◌, List, map, length, slice_index, slice_set, sum_by, All, Contains, ◌↔◌};
ghost use Rattle.std.specs.List.{concat};
ghost use Rattle.alta_codec.specs.Rising.{IsRising, IsPlace, first_from, count_from};
ghost use Rattle.alta_solver.specs.Solution.{list_at, IsSolution, IsAtLeast};
ghost use Rattle.alta_docread.specs.FoundView.{walk_of, solver_of};
ghost use Rattle.alta_docread.specs.Solutions.{found_list, walk_list, walk_all, Leads, IsHeld, IsReadyFrom, IsWalking, IsSoundWalk, IsWalked};
ghost use Rattle.alta_docread.specs.SolutionLaws.{walk_rises, walk_place};
ghost use Rattle.alta_docread.specs.Tree.{found, IsUnmoved};

use alta_codec::{Loc, Steps, TOP};
use alta_reader::{BackReader, Reader};
use alta_solver::Solver;
use std::sync::ledger::Ledger;

/// Brings the first reader to the first location at or above `to`, if it stands below.
fn raise_first<R: BackReader, L: Ledger>(solver: &mut Solver<R>, to: Loc, steps: &mut Steps<L>)
    requires top { to ≤ TOP }
    ensures system { solver.new.bounds ≡ solver.old.bounds }
    ensures lists { map R.list solver.new.readers ≡ map R.list solver.old.readers }
    ensures alls { map R.all solver.new.readers ≡ map R.all solver.old.readers }
    ensures some { 0 < length solver.new.readers }
    ensures rising { IsRising (list_at (map R.list solver.old.readers) 0) }
    ensures reached { to ≤ slice_index (map R.location solver.new.readers) 0 }
    ensures keeps { (x : List ℕ) → IsSolution (map R.list solver.old.readers) solver.old.bounds x → to ≤ slice_index x 0
        → IsAtLeast (map R.location solver.old.readers) x → IsAtLeast (map R.location solver.new.readers) x }
    ensures left { sum_by R.left solver.new.readers ≤ sum_by R.left solver.old.readers }
    ensures falls { slice_index (map R.location solver.old.readers) 0 < to
        → sum_by R.left solver.new.readers < sum_by R.left solver.old.readers }
    ensures steps { steps.new + sum_by R.left solver.new.readers ≤ steps.old + sum_by R.left solver.old.readers }
{
    if solver.first() < to {
        solver.raise(0, to, steps);
    }
}

/// Brings readers on towards the solutions whose first place is at or above `to`. From a solution to the place behind it, it
/// moves the second reader and not the first: in each later solution that one stands behind the place that the first leaves,
/// and the first follows it, so that it is not brought to each of its places.
fn approach<R: BackReader, L: Ledger>(
    solver: &mut Solver<R>,
    at: Loc,
    to: Loc,
    steps: &mut Steps<L>,
)
    requires held { IsHeld (length solver.old.readers) solver.old.bounds }
    requires walking { IsWalking (map R.list solver.old.readers) solver.old.bounds
        (map R.location solver.old.readers) at }
    requires above { at < to }
    requires top { to ≤ TOP }
    ensures system { solver.new.bounds ≡ solver.old.bounds }
    ensures lists { map R.list solver.new.readers ≡ map R.list solver.old.readers }
    ensures alls { map R.all solver.new.readers ≡ map R.all solver.old.readers }
    ensures some { 0 < length solver.new.readers }
    ensures reached { IsReadyFrom to (map R.location solver.new.readers) }
    ensures keeps { (x : List ℕ) → IsSolution (map R.list solver.old.readers) solver.old.bounds x → to ≤ slice_index x 0
        → IsAtLeast (map R.location solver.old.readers) x → IsAtLeast (map R.location solver.new.readers) x }
    ensures left { sum_by R.left solver.new.readers ≤ sum_by R.left solver.old.readers }
    ensures falls { slice_index (map R.location solver.old.readers) 0 < to → 0 < at
        → sum_by R.left solver.new.readers < sum_by R.left solver.old.readers }
    ensures steps { steps.new + sum_by R.left solver.new.readers ≤ steps.old + sum_by R.left solver.old.readers }
{
    if at == 0 || at + 1 < to || solver.len() < 2 {
        raise_first(solver, to, steps);
        return;
    }
    solver.raise(1, to, steps);
}

/// Goes on to the first solution whose first place is at or above `to`, and answers that place, TOP where there is none.
fn walk<R: BackReader, L: Ledger>(
    solver: &mut Solver<R>,
    at: Loc,
    to: Loc,
    steps: &mut Steps<L>,
) -> Loc
    requires held { IsHeld (length solver.old.readers) solver.old.bounds }
    requires walking { IsWalking (map R.list solver.old.readers) solver.old.bounds
        (map R.location solver.old.readers) at }
    requires above { at < to }
    requires top { to ≤ TOP }
    ensures system { solver.new.bounds ≡ solver.old.bounds }
    ensures lists { map R.list solver.new.readers ≡ map R.list solver.old.readers }
    ensures alls { map R.all solver.new.readers ≡ map R.all solver.old.readers }
    ensures walking { IsWalking (map R.list solver.old.readers) solver.old.bounds
        (map R.location solver.new.readers) result }
    ensures place { result ≡ first_from (found_list (map R.list solver.old.readers) solver.old.bounds) to }
    ensures unpassed { result < TOP → count_from (concat (map R.all solver.new.readers)) result
        ≤ sum_by R.left solver.new.readers }
    ensures left { sum_by R.left solver.new.readers ≤ sum_by R.left solver.old.readers }
    ensures falls { 0 < at → sum_by R.left solver.new.readers < sum_by R.left solver.old.readers }
    ensures steps { steps.new + sum_by R.left solver.new.readers ≤ steps.old + sum_by R.left solver.old.readers }
{
    approach(solver, at, to, steps);
    if solver.settle(steps) {
        solver.first()
    } else {
        TOP
    }
}

/// A reader of the first places of all solutions of a system: with the ends of documents first, of the ends of the
/// documents that have a solution.
///
/// It stands nowhere, at 0, until its first move. A move is a raise of the first reader, or of the second from one solution
/// to the next, and one settling of the system.
/// While it stands below `TOP` it has passed no element of its readers' leaves at or above where it stands.
#[derive(Drop)]
pub struct Found<R: BackReader> {
    solver: Solver<R>,
    at: Loc,
}

impl<R: BackReader> Found<R> {
    /// The reader of the solutions of `solver`, which stands nowhere yet. Each place but the first is held between the
    /// first and the element before the first.
    pub fn new(solver: Solver<R>) -> Found<R>
        requires { IsHeld (length solver.readers) solver.bounds }
        ensures solver { solver_of result ≡ solver }
        ensures begins { ⟦<Found<R> as Reader>⟧.location result ≡ 0 }
        ensures list { ⟦<Found<R> as Reader>⟧.list result ≡ found_list (map R.list solver.readers) solver.bounds }
        ensures solutions { (e : ℕ) → Contains (⟦<Found<R> as Reader>⟧.list result) e
            ↔ Leads (map R.list solver.readers) solver.bounds e }
        ensures all { ⟦<Found<R> as Reader>⟧.all result ≡ concat (map R.all solver.readers) }
        ensures left { ⟦<Found<R> as Reader>⟧.left result ≡ sum_by R.left solver.readers }
        ensures unmoved { All (λ r. R.location r ≡ first_from (R.list r) 0) solver.readers
            → IsUnmoved (found (walk_of R.list R.all R.location R.left result)) }
    {
        // Its answer says that there is a first reader, and that its list rises.
        let _first = solver.first();
        Found { solver, at: 0 }
    }

    /// Goes to the first place of its list. No reader was moved.
    pub fn begin<L: Ledger>(&mut self, steps: &mut Steps<L>)
        requires { IsUnmoved (found (walk_of R.list R.all R.location R.left self.old)) }
        ensures sound { ⟦<Found<R> as Reader>⟧.sound self.new }
        ensures walked { IsWalked (walk_of R.list R.all R.location R.left self.old)
            (walk_of R.list R.all R.location R.left self.new) 1 steps.old steps.new }
    {
        self.go(1, steps);
    }

    /// Where it stands: nowhere, at 0, until its first move.
    pub(crate) fn place(&self) -> Loc
        ensures { result ≡ self.now.at }
    {
        self.at
    }

    /// Goes on to the first place at or above `to`.
    pub(crate) fn go<L: Ledger>(&mut self, to: Loc, steps: &mut Steps<L>)
        requires sound { IsSoundWalk (walk_of R.list R.all R.location R.left self.old) }
        requires above { self.old.at < to }
        requires top { to ≤ TOP }
        ensures { IsWalked (walk_of R.list R.all R.location R.left self.old)
            (walk_of R.list R.all R.location R.left self.new) to steps.old steps.new }
    {
        self.at = walk(&mut self.solver, self.at, to, steps);
    }
}

impl<R: BackReader> Reader for Found<R> {
    ghost sound = { λ s. IsSoundWalk (walk_of R.list R.all R.location R.left s) × (0 < s.at) };

    ghost list = { λ s. walk_list (walk_of R.list R.all R.location R.left s) };

    ghost location = { λ s. s.at };

    ghost all = { λ s. walk_all (walk_of R.list R.all R.location R.left s) };

    ghost left = { λ s. sum_by R.left s.solver.readers };

    ghost cost = { λ s. sum_by R.left s.solver.readers };

    /// Where it stands. Below `TOP`, each of its readers stands there or before, and no element of their leaves at or above
    /// there was passed.
    fn loc(&self) -> Loc
        requires { ⟦<Found<R> as Reader>⟧.sound self.now }
        ensures location { result ≡ ⟦<Found<R> as Reader>⟧.location self.now }
        ensures place { IsPlace (⟦<Found<R> as Reader>⟧.list self.now) result }
        ensures within { result < TOP → All (λ x. x ≤ result) (walk_of R.list R.all R.location R.left self.now).places }
        ensures unpassed { result < TOP → count_from (⟦<Found<R> as Reader>⟧.all self.now) result
            ≤ ⟦<Found<R> as Reader>⟧.left self.now }
    {
        self.at
    }

    fn next<L: Ledger>(&mut self, steps: &mut Steps<L>) {
        let to = self.at + 1;
        self.go(to, steps);
    }

    fn seek<L: Ledger>(&mut self, to: Loc, steps: &mut Steps<L>) {
        self.go(to, steps);
    }

    ghost rises = { λ s h. walk_rises (walk_of R.list R.all R.location R.left s) h.0 };

    ghost stands = { λ s h. walk_place (walk_of R.list R.all R.location R.left s) h.0 h.1 };
}
