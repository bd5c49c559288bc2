// The search for the least solution, over a slice of readers.
ghost use Rattle.std.specs.Prelude.{◌≡◌, ℕ, ◌+◌, ◌<◌, ◌≤◌, ◌*◌, List, map, length, slice_index, slice_index_or, slice_set, All, sum_by, IsTrue, false};
ghost use Rattle.alta_codec.specs.Rising.{first_from, pred_of};
ghost use Rattle.alta_codec.specs.declared.location.TheConstants.{TOP};
ghost use Rattle.alta_solver.specs.Solution.{low_side, high_side, list_at, IsSolution, IsAtLeast, IsRaised, IsRaisedPast};
ghost use Rattle.alta_codec.specs.Inequality.{Inequality};
ghost use Rattle.alta_solver.specs.Bounds.{IsBetween, IsBehindBounds, IsPair, IsPaired};
ghost use Rattle.alta_solver.specs.Moves.{AreReady, AreKept, IsTested};
ghost use Rattle.alta_solver.specs.Repair.{IsRepaired};
ghost use Rattle.alta_solver.specs.Settling.{IsSettling};
ghost use Rattle.alta_reader.specs.Places.{IsLocation};

use crate::bound::Bound;
use alta_codec::{Form, Loc, Steps, TOP};
use alta_reader::BackReader;
use alta_reader::many::{place_at, prev_at, seek_at};
use std::sync::ledger::Ledger;

/// What became of a bound.
#[derive(Clone, Copy)]
enum Outcome {
    /// It held.
    Settled,
    /// A reader was moved.
    Moved,
    /// No solution is at or above the readers.
    Stuck,
}

/// The side that is to be at most the other.
#[inline(always)]
fn low_at<R: BackReader>(readers: &[R], i: usize, form: Form) -> Loc
    requires sound { All R.sound readers.now }
    requires within { i < length readers.now }
    ensures { IsLocation (low_side form (list_at (map R.list readers.now) i)
        (slice_index (map R.location readers.now) i)) result }
{
    match form {
        Form::LocLoc | Form::LocPrev => place_at(readers, i),
        Form::PrevLoc | Form::PrevPrev => prev_at(readers, i),
    }
}

/// The side that bounds the other.
#[inline(always)]
fn high_at<R: BackReader>(readers: &[R], j: usize, form: Form) -> Loc
    requires sound { All R.sound readers.now }
    requires within { j < length readers.now }
    ensures { IsLocation (high_side form (list_at (map R.list readers.now) j)
        (slice_index (map R.location readers.now) j)) result }
{
    match form {
        Form::LocLoc | Form::PrevLoc => place_at(readers, j),
        Form::LocPrev | Form::PrevPrev => prev_at(readers, j),
    }
}

/// Brings a reader whose previous location is below `to` to the first location at or above `to`.
fn reach<R: BackReader, L: Ledger>(readers: &mut [R], j: usize, to: Loc, steps: &mut Steps<L>)
    requires sound { All R.sound readers.old }
    requires within { j < length readers.old }
    requires short { pred_of (list_at (map R.list readers.old) j) (slice_index (map R.location readers.old) j) < to }
    requires top { to ≤ TOP }
    ensures { AreKept R.sound R.list R.all R.location R.left (λ places. places
        ≡ slice_set (map R.location readers.old) j (first_from (list_at (map R.list readers.old) j) to))
        readers.old readers.new steps.old steps.new }
{
    if place_at(readers, j) < to {
        seek_at(readers, j, to, steps);
    }
}

/// Brings a reader whose previous location is below `to` behind the first location at or above `to`.
/// False where there is no such location.
fn raise_past<R: BackReader, L: Ledger>(
    readers: &mut [R],
    j: usize,
    to: Loc,
    steps: &mut Steps<L>,
) -> bool
    requires sound { All R.sound readers.old }
    requires within { j < length readers.old }
    requires short { pred_of (list_at (map R.list readers.old) j) (slice_index (map R.location readers.old) j) < to }
    requires top { to ≤ TOP }
    ensures kept { AreKept R.sound R.list R.all R.location R.left
        (λ places. IsRaisedPast (list_at (map R.list readers.old) j) to (map R.location readers.old) j places result)
        readers.old readers.new steps.old steps.new }
    ensures falls { IsTrue result → sum_by R.left readers.new < sum_by R.left readers.old }
{
    reach(readers, j, to, steps);
    let at = place_at(readers, j);
    if at == TOP {
        return false;
    }
    seek_at(readers, j, at + 1, steps);
    true
}

/// Brings reader `j` to the least place whose side is at least `need`. False where there is none.
#[inline(always)]
fn raise_side<R: BackReader, L: Ledger>(
    readers: &mut [R],
    form: Form,
    j: usize,
    need: u64,
    steps: &mut Steps<L>,
) -> bool
    requires sound { All R.sound readers.old }
    requires within { j < length readers.old }
    requires short { high_side form (list_at (map R.list readers.old) j)
        (slice_index (map R.location readers.old) j) < need }
    ensures kept { AreKept R.sound R.list R.all R.location R.left
        (λ places. IsRaised (list_at (map R.list readers.old) j) form need
        (map R.location readers.old) j places result) readers.old readers.new steps.old steps.new }
    ensures falls { IsTrue result → sum_by R.left readers.new < sum_by R.left readers.old }
{
    if need > TOP {
        return false;
    }
    match form {
        Form::LocLoc | Form::PrevLoc => {
            seek_at(readers, j, need, steps);
            true
        }
        Form::LocPrev | Form::PrevPrev => raise_past(readers, j, need, steps),
    }
}

/// Mends one bound that does not hold by one reader's moves.
#[inline(always)]
fn repair<R: BackReader, L: Ledger>(
    readers: &mut [R],
    form: Form,
    i: usize,
    j: usize,
    plus: u64,
    minus: u64,
    steps: &mut Steps<L>,
) -> Outcome
    requires sound { All R.sound readers.old }
    requires between { IsBetween (length readers.old)
        (record { form = form; i = i; j = j; plus = plus; minus = minus }) }
    ensures kept { AreKept R.sound R.list R.all R.location R.left
        (λ places. IsRepaired (map R.list readers.old)
        (record { form = form; i = i; j = j; plus = plus; minus = minus })
        (map R.location readers.old) places result) readers.old readers.new steps.old steps.new }
    ensures falls { result ≡ Outcome.Moved → sum_by R.left readers.new < sum_by R.left readers.old }
{
    let low = low_at(readers, i, form) + minus;
    let high = high_at(readers, j, form) + plus;
    if low <= high {
        return Outcome::Settled;
    }
    if raise_side(readers, form, j, low - plus, steps) {
        Outcome::Moved
    } else {
        Outcome::Stuck
    }
}

/// The index behind the last bound from `from` on in which reader `i` is bounded, `from` where there is none.
pub(crate) fn behind_bounded(bounds: &[Bound], from: usize, i: usize) -> usize
    requires { from ≤ length bounds.now }
    ensures after { from ≤ result }
    ensures behind { IsBehindBounds i bounds.now result }
{
    let mut at = bounds.len();
    'bounds: while at > from && bounds[at - 1].i() != i {
        at -= 1;
    }
    at
}

/// Tests the bound at `at`, whose parts are given, and mends it where it does not hold. It answers an index from which on the
/// bounds hold, if those behind this one did; none where there is no solution.
#[inline(always)]
fn try_at<R: BackReader, L: Ledger>(
    readers: &mut [R],
    bounds: &[Bound],
    at: usize,
    form: Form,
    i: usize,
    j: usize,
    plus: u64,
    minus: u64,
    steps: &mut Steps<L>,
) -> Option<usize>
    requires ready { AreReady R.sound bounds.now readers.old }
    requires within { at < length bounds.now }
    requires bound { (d : Inequality) → slice_index_or bounds.now at d
        ≡ record { form = form; i = i; j = j; plus = plus; minus = minus } }
    requires plus_within { plus ≤ 1000000 }
    requires minus_within { minus ≤ 1000000 }
    ensures { IsTested R.sound R.list R.all R.location R.left bounds.now
        (at + 1) result readers.old readers.new steps.old steps.new }
{
    match repair(readers, form, i, j, plus, minus, steps) {
        Outcome::Settled => Some(at),
        Outcome::Moved => Some(behind_bounded(bounds, at, j)),
        Outcome::Stuck => None,
    }
}

/// Brings the first reader on to `to`, where reader `m + 1` stands, so that both bounds of the pair hold. It answers an index
/// from which on the bounds hold, if those behind the pair did.
#[inline(always)]
fn lead<R: BackReader, L: Ledger>(
    readers: &mut [R],
    bounds: &[Bound],
    behind_first: usize,
    m: usize,
    to: Loc,
    steps: &mut Steps<L>,
) -> usize
    requires ready { AreReady R.sound bounds.now readers.old }
    requires behind { IsBehindBounds 0 bounds.now behind_first }
    requires pair { IsPair bounds.now m }
    requires there { slice_index (map R.location readers.old) (m + 1) ≡ to }
    requires short { slice_index (map R.location readers.old) 0 < to }
    requires top { to ≤ TOP }
    ensures { IsTested R.sound R.list R.all R.location R.left bounds.now (2 * m + 2)
        (Some result) readers.old readers.new steps.old steps.new }
{
    seek_at(readers, 0, to, steps);
    if behind_first == 2 * m + 2 {
        2 * m
    } else {
        behind_first
    }
}

/// Brings reader `m + 1` on to `to`, the first place behind the element before the first reader's. It answers as `lead`
/// does.
#[inline(always)]
fn follow<R: BackReader, L: Ledger>(
    readers: &mut [R],
    bounds: &[Bound],
    m: usize,
    to: Loc,
    steps: &mut Steps<L>,
) -> usize
    requires ready { AreReady R.sound bounds.now readers.old }
    requires pair { IsPair bounds.now m }
    requires there { pred_of (list_at (map R.list readers.old) 0)
        (slice_index (map R.location readers.old) 0) + 1 ≡ to }
    requires short { slice_index (map R.location readers.old) (m + 1) < to }
    requires top { to ≤ TOP }
    ensures { IsTested R.sound R.list R.all R.location R.left bounds.now (2 * m + 2)
        (Some result) readers.old readers.new steps.old steps.new }
{
    seek_at(readers, m + 1, to, steps);
    let next = behind_bounded(bounds, 2 * m + 2, m + 1);
    if next == 2 * m + 2 && place_at(readers, m + 1) <= place_at(readers, 0) {
        2 * m
    } else {
        next
    }
}

/// Tests the two bounds that hold reader `m + 1` to the first one, of which one at most does not hold, and mends that one. It
/// answers as `lead` does.
fn try_pair<R: BackReader, L: Ledger>(
    readers: &mut [R],
    bounds: &[Bound],
    behind_first: usize,
    m: usize,
    steps: &mut Steps<L>,
) -> usize
    requires ready { AreReady R.sound bounds.now readers.old }
    requires behind { IsBehindBounds 0 bounds.now behind_first }
    requires pair { IsPair bounds.now m }
    ensures { IsTested R.sound R.list R.all R.location R.left bounds.now (2 * m + 2)
        (Some result) readers.old readers.new steps.old steps.new }
{
    let at = place_at(readers, m + 1);
    if place_at(readers, 0) < at {
        return lead(readers, bounds, behind_first, m, at, steps);
    }
    let before = prev_at(readers, 0);
    if before < at {
        return 2 * m;
    }
    follow(readers, bounds, m, before + 1, steps)
}

/// Tests the bound in front of `at`, and with the second of a pair the first too. It answers as for one bound.
fn try_before<R: BackReader, L: Ledger>(
    readers: &mut [R],
    bounds: &[Bound],
    pairs: usize,
    behind_first: usize,
    at: usize,
    steps: &mut Steps<L>,
) -> Option<usize>
    requires ready { AreReady R.sound bounds.now readers.old }
    requires paired { IsPaired pairs bounds.now }
    requires behind { IsBehindBounds 0 bounds.now behind_first }
    requires some_left { 0 < at }
    requires within { at ≤ length bounds.now }
    ensures { IsTested R.sound R.list R.all R.location R.left bounds.now at result readers.old readers.new
        steps.old steps.new }
{
    if at <= 2 * pairs && at % 2 == 0 {
        return Some(try_pair(readers, bounds, behind_first, at / 2 - 1, steps));
    }
    let bound = &bounds[at - 1];
    try_at(
        readers,
        bounds,
        at - 1,
        bound.form(),
        bound.i(),
        bound.j(),
        bound.plus(),
        bound.minus(),
        steps,
    )
}

/// Brings the readers to the least places at or above where they stand at which all bounds hold. False where there is no
/// solution. Nor is there one where the first reader has then passed its last location.
///
/// It tests the bounds from the last to the first, each raise being one or two seeks, and after a raise goes on from the last
/// bound that the raise can have broken. So a system that is settled costs one test of each bound, and each bound is tested
/// only where all behind it hold: with those that hold readers to the first one in front, the first one moves last.
pub(crate) fn settle<R: BackReader, L: Ledger>(
    readers: &mut [R],
    bounds: &[Bound],
    pairs: usize,
    behind_first: usize,
    steps: &mut Steps<L>,
) -> bool
    requires ready { AreReady R.sound bounds.now readers.old }
    requires paired { IsPaired pairs bounds.now }
    requires behind { IsBehindBounds 0 bounds.now behind_first }
    ensures kept { AreKept R.sound R.list R.all R.location R.left
        (λ places. IsAtLeast (map R.location readers.old) places) readers.old readers.new steps.old steps.new }
    ensures settled { IsTrue result → IsSettling (map R.list readers.old) bounds.now (map R.location readers.old)
        (map R.location readers.new) 0 }
    ensures none { result ≡ false → (x : List ℕ) → IsSolution (map R.list readers.old) bounds.now x
        → IsAtLeast (map R.location readers.old) x → ⊥ }
{
    let mut at = bounds.len();
    'settle: while at > 0 {
        match try_before(readers, bounds, pairs, behind_first, at, steps) {
            Some(next) => at = next,
            None => return false,
        }
    }
    true
}
