// One location of a stream.
// Numbers of one and of two bytes are read here, and longer ones by `get_number` apart from it; both ways have the same contract.
// Where the gaps of a list are short nearly all numbers have one byte, and where that is foreseen the processor goes on without
// waiting for it.
ghost use Rattle.std.specs.Prelude.{◌≡◌, ◌+◌, ◌<◌, ◌≤◌, length, drop, slice_index, Some, None, IsTrue, IfSome};
ghost use Rattle.alta_codec.specs.declared.location.TheConstants.{TOP};
ghost use Rattle.alta_postings.specs.Deltas.{fault_from, IsStep};
ghost use Rattle.alta_postings.specs.Placed.{ReadsFrom};
ghost use Rattle.alta_postings.specs.Short.{IsShort};

use crate::fault::{StreamCause, StreamFault, cause};
use alta_codec::{TOP, get_number};
use std::simd::prelude::*;

// What the second byte of a number counts, if it has one. It is a product, since a branch here would be foreseen badly.
#[inline(always)]
fn second_of(first: u64, second: u64) -> u64
    requires { first < 256 }
    ensures one { first < 128 → result ≡ 0 }
    ensures two { 128 ≤ first → result ≡ second }
{
    first / 128 * second
}

// The number of one or of two bytes at a place, and the place after it; none where it is longer. No branch depends on which of the
// two it is, since in most lists both come in turn. A second byte of 0 is not refused here.
#[inline(always)]
fn short_number(bytes: &[u8], at: usize) -> Option<(u64, usize)>
    requires { at + 1 < length bytes.now }
    ensures { IfSome result (λ r. IsShort bytes.now at r.0 r.1) }
{
    let first = u64::from(bytes[at]);
    let second = u64::from(bytes[at + 1]);
    if first.min(second) >= 128 {
        return None;
    }
    let high = second_of(first, second);
    Some((first % 128 + 128 * high, at + 1 + (first / 128) as usize))
}

// The location that is spelled at a place, or the fault that its number shows, for a number of any length.
#[inline(never)]
fn slow_location(bytes: &[u8], at: usize, before: u64) -> Result<(u64, usize), StreamFault>
    requires within { at < length bytes.now }
    requires low { before < TOP }
    ensures { ReadsFrom bytes.now at before (λ step. IsStep bytes.now at before step.0 step.1) result }
{
    match get_number(bytes, at) {
        Ok((difference, next)) => {
            if difference == 0 {
                return Err(StreamFault {
                    place: at,
                    cause: StreamCause::Zero,
                });
            }
            if difference >= TOP - before {
                return Err(StreamFault {
                    place: at,
                    cause: StreamCause::Top,
                });
            }
            Ok((before + difference, next))
        }
        Err(fault) => Err(StreamFault {
            place: at,
            cause: cause(fault),
        }),
    }
}

/// The location that is spelled at a place, behind the location `before`, and the place after it; or the fault that
/// this number shows.
#[inline(always)]
pub fn read_location(bytes: &[u8], at: usize, before: u64) -> Result<(u64, usize), StreamFault>
    requires within { at < length bytes.now }
    requires low { before < TOP }
    ensures { ReadsFrom bytes.now at before (λ step. IsStep bytes.now at before step.0 step.1) result }
{
    if at + 1 < bytes.len() {
        if let Some((difference, next)) = short_number(bytes, at) {
            let longer = (next - at - 1) as u64;
            if difference > 127 * longer && difference < TOP - before {
                return Ok((before + difference, next));
            }
        }
    }
    slow_location(bytes, at, before)
}

// The location that is spelled at a place of a stream, for a number of any length.
#[inline(never)]
fn slow_next(bytes: &[u8], at: usize, before: u64) -> (u64, usize)
    requires within { at < length bytes.now }
    requires low { before < TOP }
    requires spelled { fault_from at 0 before (drop at bytes.now) ≡ None }
    ensures { IsStep bytes.now at before result.0 result.1 }
{
    match get_number(bytes, at) {
        Ok((difference, next)) => (before + difference, next),
        Err(_fault) => (before, at),
    }
}

/// The location that is spelled at a place of a stream, behind the location `before`, and the place after it. Bytes that
/// spell a list have no difference of 0 and none that leads to `TOP`, so neither is tested.
#[inline(always)]
pub fn next_location(bytes: &[u8], at: usize, before: u64) -> (u64, usize)
    requires within { at < length bytes.now }
    requires low { before < TOP }
    requires spelled { fault_from at 0 before (drop at bytes.now) ≡ None }
    ensures { IsStep bytes.now at before result.0 result.1 }
{
    if at + 1 < bytes.len() {
        if let Some((difference, next)) = short_number(bytes, at) {
            return (before + difference, next);
        }
    }
    slow_next(bytes, at, before)
}

// Whether none of the eight bytes at a place is 128 or more.
#[inline(always)]
fn are_low(bytes: &[u8], at: usize) -> bool
    requires { at + 8 ≤ length bytes.now }
    ensures { IsTrue result → slice_index bytes.now at < 128 }
{
    let lanes = u8x8::from_slice(&bytes[at..]);
    lanes.simd_ge(u8x8::splat(128)).to_bitmask() == 0
}

/// The location that is spelled at a place of a stream, as [`next_location`] reads it, where eight bytes are left. A number of
/// one byte is foreseen where the next ones have one byte too; else no branch depends on whether it has one byte or two.
#[inline(always)]
pub fn near_location(bytes: &[u8], at: usize, before: u64) -> (u64, usize)
    requires within { at + 8 ≤ length bytes.now }
    requires low { before < TOP }
    requires spelled { fault_from at 0 before (drop at bytes.now) ≡ None }
    ensures { IsStep bytes.now at before result.0 result.1 }
{
    if are_low(bytes, at) {
        return (before + u64::from(bytes[at]), at + 1);
    }
    if let Some((difference, next)) = short_number(bytes, at) {
        return (before + difference, next);
    }
    slow_next(bytes, at, before)
}

/// The location that is spelled at a place of a stream, as [`next_location`] reads it; none at the end.
#[inline(never)]
pub fn last_location(bytes: &[u8], at: usize, before: u64) -> Option<(u64, usize)>
    requires within { at ≤ length bytes.now }
    requires low { before < TOP }
    requires spelled { fault_from at 0 before (drop at bytes.now) ≡ None }
    ensures read { IfSome result (λ r. IsStep bytes.now at before r.0 r.1) }
    ensures none { result ≡ None → at ≡ length bytes.now }
{
    if at == bytes.len() {
        return None;
    }
    Some(slow_next(bytes, at, before))
}
