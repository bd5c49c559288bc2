// Readers under a system of bounds.
// The first reader is that of document ends. From one solution to the next the second moves, and the bound between both brings the
// first on, so that it is not brought to each end between. The two bounds that hold a reader to the first are one test, as one of
// them at most does not hold. Whether the first has passed its list is asked once the bounds hold; the other readers are then
// brought behind its last location, once.
ghost use Rattle.std.specs.Prelude.{◌≡◌, ◌↔◌, ℕ, ◌+◌, ◌*◌, ◌<◌, ◌≤◌, List, map, length, slice_index, slice_index_or, slice_set, All, sum_by, IsTrue, IsOk, IfOk, IfErr, false};
ghost use Rattle.alta_codec.specs.Rising.{IsRising, first_from};
ghost use Rattle.alta_solver.specs.Solution.{list_at, IsSolution, IsAtLeast, IsLeast};
ghost use Rattle.alta_codec.specs.Inequality.{upper, lower};
ghost use Rattle.alta_solver.specs.Bounds.{IsNamed, IsPair, IsPaired};

use crate::bound::Bound;
use crate::least;
use crate::system::System;
use alta_codec::{Form, Loc, Steps, TOP};
use alta_reader::{BackReader, many};
use std::marker::Model;
use std::sync::ledger::Ledger;

/// Whether each bound names two of `n` readers.
fn is_named(bounds: &[Bound], n: usize) -> bool
    ensures { IsTrue result ↔ IsNamed n bounds.now }
{
    bounds.iter().all(|b| b.i() < n && b.j() < n)
}

/// Whether the bound says that reader `i` stands at most where the first does.
fn is_upper(bound: &Bound, i: usize) -> bool
    ensures { IsTrue result → bound.now ≡ upper i }
{
    bound.form() == Form::LocLoc
        && bound.i() == i
        && bound.j() == 0
        && bound.plus() == 0
        && bound.minus() == 0
}

/// Whether the bound says that reader `i` stands behind the element before the first one's place.
fn is_lower(bound: &Bound, i: usize) -> bool
    ensures { IsTrue result → bound.now ≡ lower i }
{
    bound.form() == Form::PrevLoc
        && bound.i() == 0
        && bound.j() == i
        && bound.plus() == 0
        && bound.minus() == 1
}

/// Whether these two bounds hold reader `m + 1` to the first.
fn is_pair(bounds: &[Bound], m: usize) -> bool
    requires { 2 * m + 1 < length bounds.now }
    ensures { IsTrue result → IsPair bounds.now m }
{
    is_upper(&bounds[2 * m], m + 1) && is_lower(&bounds[2 * m + 1], m + 1)
}

/// How many readers behind the first have the two bounds that hold them to it in front of all, in their order.
fn leading_pairs(bounds: &[Bound]) -> usize
    ensures { IsPaired result bounds.now }
{
    let mut pairs = 0;
    'pairs: while pairs < bounds.len() / 2 && is_pair(bounds, pairs) {
        pairs += 1;
    }
    pairs
}

/// Readers, and bounds between their places. Contracts see it as the two lists. No call takes memory.
#[derive(Drop)]
pub struct Solver<R: BackReader> {
    readers: Vec<R>,
    bounds: Vec<Bound>,
    /// How many pairs of bounds that hold a reader to the first stand in front.
    pairs: usize,
    /// The index behind the last bound in which the first reader is bounded.
    behind_first: usize,
}

impl<R: BackReader> Model for Solver<R> {
    ghost use Rattle.std.specs.Prelude.{ℕ, ◌<◌, List, length, All};
    ghost use Rattle.alta_solver.specs.Bounds.{IsBehindBounds, IsNamed, IsPaired};
    ghost use Rattle.alta_solver.specs.Setting.{Setting};

    ghost Value = { Setting R };

    ghost view = { λ s. record { readers = s.readers.items; bounds = s.bounds.items } };

    ghost invariant = { λ s. All R.sound s.readers.items × (0 < length s.readers.items)
        × IsNamed (length s.readers.items) s.bounds.items × IsPaired s.pairs s.bounds.items
        × IsBehindBounds 0 s.bounds.items s.behind_first };
}

impl<R: BackReader> Solver<R> {
    /// The solver of these readers under this system. Err hands both back, exactly where there is no reader or a bound names one that is not there.
    pub fn new(readers: Vec<R>, system: System) -> Result<Solver<R>, (Vec<R>, System)>
        requires { All R.sound readers.items }
        ensures ok { IfOk result (λ s. (s.readers ≡ readers.items) × (s.bounds ≡ system)) }
        ensures err { IfErr result (λ e. (e.0 ≡ readers) × (e.1 ≡ system)) }
        ensures which { IsOk result ↔ ((0 < length readers.items) × IsNamed (length readers.items) system) }
    {
        if readers.is_empty() || !is_named(&system, readers.len()) {
            return Err((readers, system));
        }
        let pairs = leading_pairs(&system);
        let behind_first = least::behind_bounded(&system, 0, 0);
        Ok(Solver {
            readers,
            bounds: Vec::from(system),
            pairs,
            behind_first,
        })
    }

    /// How many readers there are.
    pub fn len(&self) -> usize
        ensures { result ≡ length self.now.readers }
    {
        self.readers.len()
    }

    /// Where reader `i` stands.
    pub fn loc(&self, i: usize) -> Loc
        requires { i < length self.now.readers }
        ensures { result ≡ slice_index (map R.location self.now.readers) i }
    {
        many::place_at(&self.readers, i)
    }

    /// Where the first reader stands.
    pub fn first(&self) -> Loc
        ensures some { 0 < length self.now.readers }
        ensures sound { All R.sound self.now.readers }
        ensures value { result ≡ slice_index (map R.location self.now.readers) 0 }
        ensures rising { IsRising (list_at (map R.list self.now.readers) 0) }
        ensures top { result ≤ TOP }
    {
        many::place_at(&self.readers, 0)
    }

    /// Moves reader `i` to the least element of its list at or above `to`, or to `TOP`.
    pub fn raise<L: Ledger>(&mut self, i: usize, to: Loc, steps: &mut Steps<L>)
        requires within { i < length self.old.readers }
        requires above { slice_index (map R.location self.old.readers) i < to }
        requires top { to ≤ TOP }
        ensures system { self.new.bounds ≡ self.old.bounds }
        ensures lists { map R.list self.new.readers ≡ map R.list self.old.readers }
        ensures alls { map R.all self.new.readers ≡ map R.all self.old.readers }
        ensures places { map R.location self.new.readers
            ≡ slice_set (map R.location self.old.readers) i (first_from (list_at (map R.list self.old.readers) i) to) }
        ensures falls { sum_by R.left self.new.readers < sum_by R.left self.old.readers }
        ensures steps { steps.new + sum_by R.left self.new.readers ≤ steps.old + sum_by R.left self.old.readers }
    {
        many::seek_at(&mut self.readers, i, to, steps)
    }

    /// Brings the readers to the least solution at or above where they stand, in which reader 0 is below `TOP`. False
    /// exactly where there is none; the readers then stand at or above where they stood.
    ///
    /// A raise is one seek, two where it goes past a previous location. A system that is settled costs one test of each
    /// bound, and after a raise no bound is tested twice before the next raise. Later bounds come first: a bound is tested
    /// only where all behind it hold, and after a raise none behind the last that the raise can have broken.
    pub fn settle<L: Ledger>(&mut self, steps: &mut Steps<L>) -> bool
        ensures system { self.new.bounds ≡ self.old.bounds }
        ensures lists { map R.list self.new.readers ≡ map R.list self.old.readers }
        ensures alls { map R.all self.new.readers ≡ map R.all self.old.readers }
        ensures above { IsAtLeast (map R.location self.old.readers) (map R.location self.new.readers) }
        ensures least { IsTrue result → IsLeast (map R.list self.old.readers) self.old.bounds
            (map R.location self.old.readers) (map R.location self.new.readers) }
        ensures none { result ≡ false → (x : List ℕ) → IsSolution (map R.list self.old.readers) self.old.bounds x
            → IsAtLeast (map R.location self.old.readers) x → ⊥ }
        ensures keeps { sum_by R.left self.new.readers ≤ sum_by R.left self.old.readers }
        ensures steps { steps.new + sum_by R.left self.new.readers ≤ steps.old + sum_by R.left self.old.readers }
    {
        let settled = least::settle(
            &mut self.readers,
            &self.bounds,
            self.pairs,
            self.behind_first,
            steps,
        );
        if !settled {
            return false;
        }
        many::place_at(&self.readers, 0) < TOP
    }
}
