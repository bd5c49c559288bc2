// Numbers of one or of two bytes, as many at once as begin in the lanes of a vector.
// A number begins at each place whose byte before is below 128. So how many begin at sixteen places, and what they come to, are sums
// over lanes, with no branch for the length of a number. What is longer, is 0 or is not in its shortest spelling is left to the
// reading of one number, which finds its fault.
ghost use Rattle.std.specs.Prelude.{◌≡◌, ℕ, ◌+◌, ◌/◌, ◌<◌, ◌≤◌, length, slice_index, IsTrue, IfSome};
ghost use Rattle.std.specs.Simd.Lanes.{sum_l};
ghost use Rattle.alta_codec.specs.declared.location.TheConstants.{TOP};
ghost use Rattle.alta_postings.specs.Short.{IsReadTo};

use alta_codec::TOP;
use std::simd::prelude::*;

/// What sixteen numbers of two bytes each and their last byte count at most.
pub(crate) const REACH: u64 = 1 << 20;

// Whether each lane is a number of one byte, and none is 0.
#[inline(always)]
fn are_gaps(lanes: u8x16) -> bool
    ensures { IsTrue result → (i : ℕ) → i < 16 → (0 < slice_index lanes i) × (slice_index lanes i < 128) }
{
    let zero = lanes.simd_eq(u8x16::splat(0));
    let longer = lanes.simd_ge(u8x16::splat(128));
    (zero | longer).to_bitmask() == 0
}

// Whether no lane is 128 or more.
#[inline(always)]
fn are_low(lanes: u8x16) -> bool
    ensures { IsTrue result → (i : ℕ) → i < 16 → slice_index lanes i < 128 }
{
    lanes.simd_ge(u8x16::splat(128)).to_bitmask() == 0
}

// The sum of all lanes.
#[inline(always)]
fn lane_sum(lanes: u8x16) -> u64
    ensures sum { result ≡ sum_l lanes }
    ensures low { result ≤ 4080 }
{
    u64::from(lanes.cast::<u16>().strict_reduce_sum())
}

// 1 where the last lane is 128 or more, and else 0.
#[inline(always)]
fn last_long(lanes: u8x16) -> u64
    ensures { result ≡ slice_index lanes 15 / 128 }
{
    lanes.simd_ge(u8x16::splat(128)).to_bitmask() >> 15
}

// The numbers that begin at sixteen places of which the first begins one, if each has one byte or two and is in its shortest
// spelling: the place behind them, the last location, and how many there are.
#[inline(always)]
pub(crate) fn scan_lanes(bytes: &[u8], at: usize, before: u64) -> Option<(usize, u64, usize)>
    requires within { at + 16 < length bytes.now }
    requires low { before + REACH < TOP }
    ensures read { IfSome result (λ r. (s y n : ℕ) → IsReadTo bytes.now s y before n at
        → IsReadTo bytes.now s y r.1 (n + r.2) r.0) }
    ensures few { IfSome result (λ r. r.2 ≤ 16) }
    ensures after { IfSome result (λ r. at < r.0) }
    ensures within { IfSome result (λ r. r.0 ≤ length bytes.now) }
{
    let here = u8x16::from_slice(&bytes[at..]);
    let next = u8x16::from_slice(&bytes[at + 1..]);
    if !are_gaps(here.simd_min(next)) {
        return None;
    }
    let sum = lane_sum(here);
    if are_low(here) {
        return Some((at + 16, before + sum, 16));
    }
    let longer = here.simd_ge(u8x16::splat(128));
    let high = lane_sum(longer.select(next, u8x16::splat(0)));
    let longs = lane_sum(longer.select(u8x16::splat(1), u8x16::splat(0)));
    let over = last_long(here);
    let rest = over * u64::from(bytes[at + 16]);
    let reach = sum + 127 * high + rest - 128 * longs;
    let count = 16 + over - longs;
    Some((at + 16 + over as usize, before + reach, count as usize))
}

// Goes over such numbers from the start of a block, as long as they last and stay in it: the place behind them, the last
// location, and how many there were.
#[inline(always)]
pub(crate) fn scan_runs(bytes: &[u8], place: usize, before: u64) -> (usize, u64, usize)
    requires within { place ≤ length bytes.now }
    requires low { before < TOP }
    ensures read { IsReadTo bytes.now place before result.1 result.2 result.0 }
    ensures few { result.2 ≤ 64 }
{
    let mut at = place;
    let mut last = before;
    let mut count: usize = 0;
    'runs: while bytes.len() - at > 16 && count <= 48 && last < TOP - REACH {
        match scan_lanes(bytes, at, last) {
            Some((next, location, more)) => {
                at = next;
                last = location;
                count += more;
            }
            None => return (at, last, count),
        }
    }
    (at, last, count)
}
