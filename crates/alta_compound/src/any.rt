// A reader of the union of several readers' lists.
// The readers stand in their own vector as a binary heap by place, so a move puts them into another order, and its clauses say them
// up to order; `all` is the sorted gathering of their elements for the same reason. The element before the union's place is kept
// beside it.
ghost use Rattle.std.specs.Prelude.{◌≡◌, ◌+◌, ◌<◌, ◌≤◌, map, slice_index_or, All, sum_by};
ghost use Rattle.std.specs.List.Sorted.{IsPermutation};
ghost use Rattle.alta_codec.specs.Rising.{first_from, pred_of};
ghost use Rattle.alta_codec.specs.declared.location.TheConstants.{TOP};
ghost use Rattle.alta_compound.specs.Gathered.{gathered};
ghost use Rattle.alta_compound.specs.Heap.{IsHeapFrom};
ghost use Rattle.alta_compound.specs.IsUnion.{IsUnion};
ghost use Rattle.alta_compound.specs.Moves.{MovesThoseBefore, cost_before};
ghost use Rattle.alta_compound.specs.OverReaders.{union_of-rises, in_step_place, gathered-members, gathered-left};
ghost use Rattle.alta_compound.specs.Readers.{readers_of};
ghost use Rattle.alta_compound.specs.Union.{union_of, IsInStep};
ghost use Rattle.alta_reader.specs.Moves.{MoveOn};

use crate::heap::{build, least_place, move_first};
use alta_codec::{Loc, Steps, TOP};
use alta_reader::{BackReader, Reader};
use std::sync::ledger::Ledger;

/// Moves the readers that stand before `to`, each once, and answers the last element of the union below `to`.
fn seek_before<R: BackReader, L: Ledger>(
    readers: &mut [R],
    at: Loc,
    to: Loc,
    steps: &mut Steps<L>,
) -> Loc
    requires sound { All R.sound readers.old }
    requires in_step { IsInStep R.list R.location readers.old at }
    requires heap { IsHeapFrom 0 (map R.location readers.old) }
    requires above { at < to }
    requires top { to ≤ TOP }
    ensures moves { MoveOn R.sound R.left (MovesThoseBefore R.list R.all R.location to) readers.old readers.new
        steps.old steps.new }
    ensures heap { IsHeapFrom 0 (map R.location readers.new) }
    ensures last { result ≡ pred_of (union_of (map R.list readers.old)) to }
    ensures spent { steps.new ≤ steps.old + sum_by (cost_before R.cost R.location to) readers.old }
{
    let mut last = at;
    'moves: while least_place(readers) < to {
        last = last.max(move_first(readers, to, steps));
    }
    last
}

/// A reader of the union of several readers' lists.
///
/// Asking where it stands, or for the element before, costs nothing. A move costs the moves of the readers that stand
/// before its goal, and for each of them time that grows with the logarithm of the number of readers. It touches no
/// other reader.
#[derive(Drop)]
pub struct AnyReader<R: BackReader> {
    /// A heap by the places where they stand.
    readers: Vec<R>,
    /// The least of their places.
    at: Loc,
    /// The last element of the union below `at`, 0 where there is none.
    before: Loc,
}

/// Goes on to the first place of the union at or above `to`. It answers that place, and the element before it. It is a call of its own,
/// so that a reader that may be a union or one list moves the one list without what a union's move saves on the stack.
#[inline(never)]
fn go<R: BackReader, L: Ledger>(
    readers: &mut [R],
    at: Loc,
    to: Loc,
    steps: &mut Steps<L>,
) -> (Loc, Loc)
    requires sound { All R.sound readers.old }
    requires in_step { IsInStep R.list R.location readers.old at }
    requires heap { IsHeapFrom 0 (map R.location readers.old) }
    requires above { at < to }
    requires top { to ≤ TOP }
    ensures moves { MoveOn R.sound R.left (MovesThoseBefore R.list R.all R.location to) readers.old readers.new
        steps.old steps.new }
    ensures union { IsUnion R.list R.location readers.new result.0 result.1 }
    ensures list { union_of (map R.list readers.new) ≡ union_of (map R.list readers.old) }
    ensures all { gathered (map R.all readers.new) ≡ gathered (map R.all readers.old) }
    ensures place { result.0 ≡ first_from (union_of (map R.list readers.old)) to }
    ensures spent { steps.new ≤ steps.old + sum_by (cost_before R.cost R.location to) readers.old }
    ensures cost { steps.new ≤ steps.old + sum_by R.cost readers.old }
{
    let before = seek_before(readers, at, to, steps);
    (least_place(readers), before)
}

impl<R: BackReader> AnyReader<R> {
    /// The reader of the union, which stands at its first location. No reader was moved before.
    pub fn new(readers: Vec<R>) -> AnyReader<R>
        requires sound { All R.sound readers.items }
        requires unmoved { All (λ r. R.location r ≡ first_from (R.list r) 0) readers.items }
        ensures sound { ⟦<AnyReader<R> as Reader>⟧.sound result }
        ensures list { ⟦<AnyReader<R> as Reader>⟧.list result ≡ union_of (map R.list readers.items) }
        ensures all { ⟦<AnyReader<R> as Reader>⟧.all result ≡ gathered (map R.all readers.items) }
        ensures left { ⟦<AnyReader<R> as Reader>⟧.left result ≡ sum_by R.left readers.items }
        ensures unmoved { ⟦<AnyReader<R> as Reader>⟧.location result
            ≡ first_from (union_of (map R.list readers.items)) 0 }
        ensures readers { IsPermutation readers.items (readers_of result) }
    {
        let mut readers = readers;
        build(&mut readers);
        let at = least_place(&readers);
        AnyReader {
            readers,
            at,
            before: 0,
        }
    }
}

impl<R: BackReader> Reader for AnyReader<R> {
    ghost sound = { λ s. All R.sound s.readers.items × IsUnion R.list R.location s.readers.items s.at s.before };

    ghost list = { λ s. union_of (map R.list s.readers.items) };

    ghost location = { λ s. s.at };

    ghost all = { λ s. gathered (map R.all s.readers.items) };

    ghost left = { λ s. sum_by R.left s.readers.items };

    ghost cost = { λ s. sum_by R.cost s.readers.items };

    fn loc(&self) -> Loc {
        self.at
    }

    /// Goes to the next location, or to `TOP` past the last. It moves exactly the readers that stand before its goal,
    /// each once.
    fn next<L: Ledger>(&mut self, steps: &mut Steps<L>)
        requires sound { ⟦<AnyReader<R> as Reader>⟧.sound self.old }
        requires below { ⟦<AnyReader<R> as Reader>⟧.location self.old < TOP }
        ensures sound { ⟦<AnyReader<R> as Reader>⟧.sound self.new }
        ensures list { ⟦<AnyReader<R> as Reader>⟧.list self.new ≡ ⟦<AnyReader<R> as Reader>⟧.list self.old }
        ensures all { ⟦<AnyReader<R> as Reader>⟧.all self.new ≡ ⟦<AnyReader<R> as Reader>⟧.all self.old }
        ensures location { ⟦<AnyReader<R> as Reader>⟧.location self.new
            ≡ first_from (⟦<AnyReader<R> as Reader>⟧.list self.old) (⟦<AnyReader<R> as Reader>⟧.location self.old + 1) }
        ensures falls { ⟦<AnyReader<R> as Reader>⟧.left self.new < ⟦<AnyReader<R> as Reader>⟧.left self.old }
        ensures steps { steps.new + ⟦<AnyReader<R> as Reader>⟧.left self.new
            ≤ steps.old + ⟦<AnyReader<R> as Reader>⟧.left self.old }
        ensures cost { steps.new ≤ steps.old + ⟦<AnyReader<R> as Reader>⟧.cost self.old }
        ensures spent { steps.new ≤ steps.old + sum_by
            (cost_before R.cost R.location (⟦<AnyReader<R> as Reader>⟧.location self.old + 1)) (readers_of self.old) }
        ensures moved { MovesThoseBefore R.list R.all R.location (⟦<AnyReader<R> as Reader>⟧.location self.old + 1)
            (readers_of self.old) (readers_of self.new) }
    {
        (self.at, self.before) = go(&mut self.readers, self.at, self.at + 1, steps);
    }

    /// Goes to the least location at or above `to`, or to `TOP` past the last. It moves exactly the readers that stand before its
    /// goal, each once.
    fn seek<L: Ledger>(&mut self, to: Loc, steps: &mut Steps<L>)
        requires sound { ⟦<AnyReader<R> as Reader>⟧.sound self.old }
        requires above { ⟦<AnyReader<R> as Reader>⟧.location self.old < to }
        requires top { to ≤ TOP }
        ensures sound { ⟦<AnyReader<R> as Reader>⟧.sound self.new }
        ensures list { ⟦<AnyReader<R> as Reader>⟧.list self.new ≡ ⟦<AnyReader<R> as Reader>⟧.list self.old }
        ensures all { ⟦<AnyReader<R> as Reader>⟧.all self.new ≡ ⟦<AnyReader<R> as Reader>⟧.all self.old }
        ensures location { ⟦<AnyReader<R> as Reader>⟧.location self.new
            ≡ first_from (⟦<AnyReader<R> as Reader>⟧.list self.old) to }
        ensures falls { ⟦<AnyReader<R> as Reader>⟧.left self.new < ⟦<AnyReader<R> as Reader>⟧.left self.old }
        ensures steps { steps.new + ⟦<AnyReader<R> as Reader>⟧.left self.new
            ≤ steps.old + ⟦<AnyReader<R> as Reader>⟧.left self.old }
        ensures cost { steps.new ≤ steps.old + ⟦<AnyReader<R> as Reader>⟧.cost self.old }
        ensures spent { steps.new ≤ steps.old + sum_by (cost_before R.cost R.location to) (readers_of self.old) }
        ensures moved { MovesThoseBefore R.list R.all R.location to (readers_of self.old) (readers_of self.new) }
    {
        (self.at, self.before) = go(&mut self.readers, self.at, to, steps);
    }

    ghost rises = { λ s h. union_of-rises R.list s.readers.items
        (λ k d l. R.rises (slice_index_or s.readers.items k d) (h.0 k d l)) };

    ghost stands = { λ s h. in_step_place R.list R.location s.readers.items s.at h.1.in_step };
}

impl<R: BackReader> BackReader for AnyReader<R> {
    fn prev(&self) -> Loc {
        self.before
    }

    ghost members = { λ s h. gathered-members R.list R.all s.readers.items
        (λ k d l. R.members (slice_index_or s.readers.items k d) (h.0 k d l)) };

    ghost left_is = { λ s h. gathered-left R.list R.all R.location R.left s.readers.items s.at h.1.in_step
        (λ k d l. R.members (slice_index_or s.readers.items k d) (h.0 k d l))
        (λ k d l. R.left_is (slice_index_or s.readers.items k d) (h.0 k d l)) };
}
