//! One reader of several, in words on the lists of their lists and places. Layers above speak of these plain lists
//! alone.
ghost use Rattle.std.specs.Prelude.{◌+◌, ◌<◌, ◌≤◌, [], map, length, slice_index, slice_index_or, All};
ghost use Rattle.alta_codec.specs.Rising.{first_from, pred_of, count_from};
ghost use Rattle.alta_codec.specs.declared.location.TheConstants.{TOP};
ghost use Rattle.alta_reader.specs.Moves.{MoveOn, SeeksAlone};
ghost use Rattle.alta_reader.specs.Places.{IsLocation, IsReadAt};

use crate::{BackReader, Reader};
use alta_codec::{Loc, Steps};
use std::sync::ledger::Ledger;

/// Where reader `j` stands.
pub fn place_at<R: BackReader>(readers: &[R], j: usize) -> Loc
    requires sound { All R.sound readers.now }
    requires within { j < length readers.now }
    ensures { IsReadAt (slice_index_or (map R.list readers.now) j [])
        (slice_index (map R.location readers.now) j) result }
{
    readers[j].loc()
}

/// The element before the place of reader `j`, 0 where there is none.
pub fn prev_at<R: BackReader>(readers: &[R], j: usize) -> Loc
    requires sound { All R.sound readers.now }
    requires within { j < length readers.now }
    ensures { IsLocation (pred_of (slice_index_or (map R.list readers.now) j [])
        (slice_index (map R.location readers.now) j)) result }
{
    readers[j].prev()
}

/// Moves reader `j` forward to the least element of its list at or above `to`, and no other.
pub fn seek_at<R: BackReader, L: Ledger>(readers: &mut [R], j: usize, to: Loc, steps: &mut Steps<L>)
    requires sound { All R.sound readers.old }
    requires within { j < length readers.old }
    requires above { slice_index (map R.location readers.old) j < to }
    requires top { to ≤ TOP }
    ensures moves { MoveOn R.sound R.left (SeeksAlone R.list R.all R.location j to) readers.old readers.new
        steps.old steps.new }
    ensures own { steps.new + count_from (slice_index_or (map R.all readers.old) j [])
        (first_from (slice_index_or (map R.list readers.old) j []) to)
        ≤ steps.old + count_from (slice_index_or (map R.all readers.old) j [])
        (slice_index (map R.location readers.old) j) }
    ensures cost { steps.new ≤ steps.old + slice_index (map R.cost readers.old) j }
{
    readers[j].seek(to, steps);
}
