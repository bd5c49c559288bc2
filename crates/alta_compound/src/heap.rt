// A binary heap of readers by their places, in a slice of them.
ghost use Rattle.std.specs.Prelude.{◌≡◌, ℕ, ◌+◌, ◌*◌, ◌<◌, ◌≤◌, [], map, length, slice_index, slice_index_or, All, sum_by};
ghost use Rattle.std.specs.List.Sorted.{IsPermutation};
ghost use Rattle.alta_codec.specs.Rising.{pred_of};
ghost use Rattle.alta_codec.specs.declared.location.TheConstants.{TOP};
ghost use Rattle.alta_compound.specs.Heap.{IsChild, IsHeapFrom};
ghost use Rattle.alta_compound.specs.Moves.{MovesFirst, cost_before};
ghost use Rattle.alta_compound.specs.Union.{least_of};
ghost use Rattle.alta_reader.specs.Moves.{MoveOn};

use alta_codec::{Loc, Steps, TOP};
use alta_reader::BackReader;
use alta_reader::many::place_at;
use std::sync::ledger::Ledger;

/// The child of `at` that stands at the lesser place.
fn lesser_child<R: BackReader>(readers: &[R], at: usize) -> usize
    requires sound { All R.sound readers.now }
    requires some { 2 * at + 1 < length readers.now }
    ensures child { IsChild at result }
    ensures within { result < length readers.now }
    ensures least { (c : ℕ) → IsChild at c → c < length readers.now
        → slice_index (map R.location readers.now) result ≤ slice_index (map R.location readers.now) c }
{
    let end = readers.len() - 1;
    let left = 2 * at + 1;
    if left < end && place_at(readers, left + 1) < place_at(readers, left) {
        left + 1
    } else {
        left
    }
}

/// Brings the reader at `from` down to where it is above no child, where the readers behind it are a heap.
fn sift_down<R: BackReader>(readers: &mut [R], from: usize)
    requires sound { All R.sound readers.old }
    requires heap { IsHeapFrom (from + 1) (map R.location readers.old) }
    ensures heap { IsHeapFrom from (map R.location readers.new) }
    ensures permutation { IsPermutation readers.old readers.new }
{
    let mut at = from;
    'sift: while at < readers.len() / 2 {
        let child = lesser_child(readers, at);
        if place_at(readers, at) <= place_at(readers, child) {
            return;
        }
        readers.swap(at, child);
        at = child;
    }
}

/// Puts the readers into the order of a heap.
pub(crate) fn build<R: BackReader>(readers: &mut [R])
    requires { All R.sound readers.old }
    ensures heap { IsHeapFrom 0 (map R.location readers.new) }
    ensures permutation { IsPermutation readers.old readers.new }
{
    let mut from = readers.len() / 2;
    'build: while from > 0 {
        from -= 1;
        sift_down(readers, from);
    }
}

/// The least place of the readers, `TOP` where there is no reader.
pub(crate) fn least_place<R: BackReader>(readers: &[R]) -> Loc
    requires sound { All R.sound readers.now }
    requires heap { IsHeapFrom 0 (map R.location readers.now) }
    ensures least { result ≡ least_of (map R.location readers.now) }
    ensures first { slice_index_or (map R.location readers.now) 0 TOP ≡ result }
{
    if readers.is_empty() {
        TOP
    } else {
        place_at(readers, 0)
    }
}

/// Moves the first reader on to `to`, restores the heap, and answers the last element of that reader below `to`.
pub(crate) fn move_first<R: BackReader, L: Ledger>(
    readers: &mut [R],
    to: Loc,
    steps: &mut Steps<L>,
) -> Loc
    requires sound { All R.sound readers.old }
    requires heap { IsHeapFrom 0 (map R.location readers.old) }
    requires some { 0 < length readers.old }
    requires before { slice_index (map R.location readers.old) 0 < to }
    requires top { to ≤ TOP }
    ensures moves { MoveOn R.sound R.left (MovesFirst R.list R.all R.location to) readers.old readers.new
        steps.old steps.new }
    ensures heap { IsHeapFrom 0 (map R.location readers.new) }
    ensures last { result ≡ pred_of (slice_index_or (map R.list readers.old) 0 []) to }
    ensures cost { steps.new + sum_by (cost_before R.cost R.location to) readers.new
        ≤ steps.old + sum_by (cost_before R.cost R.location to) readers.old }
{
    readers[0].seek(to, steps);
    let last = readers[0].prev();
    sift_down(readers, 0);
    last
}
