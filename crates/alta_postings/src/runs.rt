// Runs of eight numbers of one byte each, in the first part of a block.
// A block whose locations are kept is read so only where each number has one byte, since each location has to be written.
ghost use Rattle.std.specs.Prelude.{◌≡◌, ℕ, ◌+◌, ◌-◌, ◌*◌, ◌<◌, ◌≤◌, ◌++◌, length, take, drop, None, IsTrue};
ghost use Rattle.alta_codec.specs.declared.location.TheConstants.{TOP};
ghost use Rattle.alta_postings.specs.Deltas.{fault_from, list_from};
ghost use Rattle.alta_postings.specs.Short.{AreGaps, IsFilled};

use alta_codec::TOP;
use arrayvec::ArrayVec;
use std::simd::prelude::*;

// What eight numbers of one byte count at most.
const RUN: u64 = 8 * 127;

// Whether each of the eight bytes at a place is a number of its own, and none is 0.
#[inline(always)]
fn are_gaps(bytes: &[u8], at: usize) -> bool
    requires { at + 8 ≤ length bytes.now }
    ensures { IsTrue result → AreGaps bytes.now at }
{
    let lanes = u8x8::from_slice(&bytes[at..]);
    let zero = lanes.simd_eq(u8x8::splat(0));
    let longer = lanes.simd_ge(u8x8::splat(128));
    (zero | longer).to_bitmask() == 0
}

// Appends the locations of eight numbers of one byte each, of which the last may not reach `TOP`, and answers the last.
#[inline(always)]
fn fill_run(bytes: &[u8], at: usize, before: u64, out: &mut ArrayVec<u64, 64>) -> u64
    requires within { at + 8 ≤ length bytes.now }
    requires gaps { AreGaps bytes.now at }
    requires low { before + 1016 < TOP }
    requires room { length out.old.items + 8 ≤ 64 }
    ensures filled { (s y f : ℕ) → IsFilled bytes.now s y f before at out.old.items
        → IsFilled bytes.now s y f result (at + 8) out.new.items }
    ensures fits { length out.new.items ≡ length out.old.items + 8 }
{
    let mut last = before;
    for i in 0..8 {
        last += u64::from(bytes[at + i]);
        out.push(last);
    }
    last
}

// Appends the locations of runs at a place, as long as they last: the place behind them, and the last location.
#[inline(always)]
pub(crate) fn fill_runs(
    bytes: &[u8],
    place: usize,
    first: u64,
    out: &mut ArrayVec<u64, 64>,
) -> (usize, u64)
    requires within { place ≤ length bytes.now }
    requires few { length out.old.items ≤ 64 }
    ensures filled { (s y f : ℕ) → IsFilled bytes.now s y f first place out.old.items
        → IsFilled bytes.now s y f result.1 result.0 out.new.items }
    ensures fits { length out.new.items ≤ 64 }
{
    let mut at = place;
    let mut last = first;
    'runs: while bytes.len() - at >= 8
        && out.len() <= 56
        && last < TOP - RUN
        && are_gaps(bytes, at)
    {
        last = fill_run(bytes, at, last, out);
        at += 8;
    }
    (at, last)
}
