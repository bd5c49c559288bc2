// Readers that are brought to a place.
ghost use Rattle.std.specs.Prelude.{◌≡◌, ℕ, ◌-◌, ◌<◌, ◌≤◌, List, [], map, length, slice_index_or, All};
ghost use Rattle.std.specs.Bool.{OnTrue, OnFalse};
ghost use Rattle.alta_codec.specs.Rising.{first_from};
ghost use Rattle.alta_codec.specs.declared.location.TheConstants.{TOP};
ghost use Rattle.alta_docread.specs.Tree.{IsAhead};
ghost use Rattle.alta_lead.specs.Moves.{AreAhead, IsMoved, AreMoved};

use alta_codec::{Loc, Steps};
use alta_compound::EndReader;
use alta_reader::many::{place_at, seek_at};
use alta_reader::{BackReader, Reader};
use std::sync::ledger::Ledger;

/// Brings the ends to the first at or above `to`, where they stand below it, and answers where they stand.
pub(crate) fn reach<R: BackReader, L: Ledger>(
    ends: &mut EndReader<R>,
    to: Loc,
    steps: &mut Steps<L>,
) -> Loc
    requires sound { R.sound ends.old.inner }
    requires ahead { IsAhead to (R.list ends.old.inner) (R.location ends.old.inner) }
    requires top { to ≤ TOP }
    ensures place { result ≡ first_from (R.list ends.old.inner) to }
    ensures location { R.location ends.new.inner ≡ result }
    ensures falls { R.location ends.old.inner < to → R.left ends.new.inner < R.left ends.old.inner }
    ensures moved { IsMoved R.sound R.list R.all R.left R.cost 1 ends.old.inner ends.new.inner (steps.new - steps.old) }
{
    let here = ends.loc();
    if here >= to {
        return here;
    }
    ends.seek(to, steps);
    ends.loc()
}

/// Brings reader `j` to its first place at or above `to`, where it stands below it, and answers where it stands. No
/// reader has passed an element from there on.
pub(crate) fn bring<R: BackReader, L: Ledger>(
    readers: &mut [R],
    j: usize,
    to: Loc,
    steps: &mut Steps<L>,
) -> Loc
    requires sound { All R.sound readers.old }
    requires within { j < length readers.old }
    requires ahead { AreAhead to (map R.list readers.old) (map R.location readers.old) }
    requires top { to ≤ TOP }
    ensures place { result ≡ first_from (slice_index_or (map R.list readers.old) j []) to }
    ensures ahead { AreAhead to (map R.list readers.old) (map R.location readers.new) }
    ensures moved { AreMoved R.sound R.list R.all R.left R.cost 1 readers.old readers.new (steps.new - steps.old) }
    ensures own { (of : List ℕ → ℕ) → ((r : R) → R.cost r ≤ of (R.list r))
        → steps.new - steps.old ≤ of (slice_index_or (map R.list readers.old) j []) }
{
    let here = place_at(readers, j);
    if here < to {
        seek_at(readers, j, to, steps);
        place_at(readers, j)
    } else {
        here
    }
}

/// Brings each reader to its first place from `start` on, until one stands behind `end`, and answers where that stands.
/// It answers `end` where none does.
pub(crate) fn lacking<R: BackReader, L: Ledger>(
    readers: &mut [R],
    start: Loc,
    end: Loc,
    steps: &mut Steps<L>,
) -> Loc
    requires sound { All R.sound readers.old }
    requires ahead { AreAhead start (map R.list readers.old) (map R.location readers.old) }
    requires top { start ≤ TOP }
    ensures none { result ≤ end → (k : ℕ) → k < length readers.old
        → first_from (slice_index_or (map R.list readers.old) k []) start ≤ end }
    ensures one { end < result → (k : ℕ) × (k < length readers.old)
        × (result ≡ first_from (slice_index_or (map R.list readers.old) k []) start) }
    ensures ahead { AreAhead start (map R.list readers.old) (map R.location readers.new) }
    ensures moved { AreMoved R.sound R.list R.all R.left R.cost 1 readers.old readers.new (steps.new - steps.old) }
{
    for i in 0..readers.len() {
        let place = bring(readers, i, start, steps);
        if place > end {
            return place;
        }
    }
    end
}

/// Brings each reader to its first place from `start` on, until one stands at or before `end`, and answers whether one does.
pub(crate) fn bars<R: BackReader, L: Ledger>(
    readers: &mut [R],
    start: Loc,
    end: Loc,
    steps: &mut Steps<L>,
) -> bool
    requires sound { All R.sound readers.old }
    requires ahead { AreAhead start (map R.list readers.old) (map R.location readers.old) }
    requires top { start ≤ TOP }
    ensures one { OnTrue result ((k : ℕ) × (k < length readers.old)
        × (first_from (slice_index_or (map R.list readers.old) k []) start ≤ end)) }
    ensures none { OnFalse result ((k : ℕ) → k < length readers.old
        → end < first_from (slice_index_or (map R.list readers.old) k []) start) }
    ensures ahead { AreAhead start (map R.list readers.old) (map R.location readers.new) }
    ensures moved { AreMoved R.sound R.list R.all R.left R.cost 1 readers.old readers.new (steps.new - steps.old) }
{
    for i in 0..readers.len() {
        if bring(readers, i, start, steps) <= end {
            return true;
        }
    }
    false
}
