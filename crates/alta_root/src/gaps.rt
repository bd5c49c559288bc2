// Where bytes may be placed beside the extents of a root and others.
ghost use Rattle.std.specs.Prelude.{◌≡◌, ◌⊎◌, ℕ, ◌+◌, ◌<◌, ◌≤◌, ◌^◌, ◌++◌, IfSome, IfNone, IsTrue, IsFalse, ◌↔◌};
ghost use Rattle.std.specs.List.{All};
ghost use Rattle.alta_codec.specs.declared.extent.Extent.{Extent};
ghost use Rattle.alta_disk.specs.Parts.{Apart};
ghost use Rattle.alta_root.specs.Gaps.{IsFirstGap, IsGap, IsLongestGap, first_gap, greatest_gap, taken_by};
ghost use Rattle.alta_root.specs.Meeting.{AreClear, IsLonger, IsRoom, IsRoomAt, Meets};

use crate::Root;
use alta_codec::Extent;
use alta_layout::HEAD_BYTES;

/// The first place behind the head where so many bytes meet no extent of the root and none of the others, and end at the
/// limit or before. None exactly where there is no such place. It takes no memory.
///
/// From the head on it steps over what it meets, each extent once at most: for `n` extents at most `n + 1` places are
/// compared with each of them, 306 comparisons where nothing is named beside a root.
pub fn first_gap(root: &Root, extra: &[Extent], bytes: u64, limit: u64) -> Option<u64>
    ensures some { IfSome result (λ at. IsFirstGap (taken_by root.now extra.now) bytes limit at) }
    ensures none { IfNone result ((at : ℕ) → IsGap (taken_by root.now extra.now) bytes limit at → ⊥) }
    ensures first { result ≡ first_gap (taken_by root.now extra.now) bytes limit }
{
    let mut at = HEAD_BYTES;
    while at <= limit && bytes <= limit - at {
        match met(root, extra, at, bytes) {
            None => return Some(at),
            Some(extent) => at = extent.place.checked_add(extent.bytes)?,
        }
    }
    None
}

/// The most bytes that [`first_gap`] finds a place for, 0 where it finds none. It takes no memory.
///
/// The place behind the head and the one behind each of `n` extents are compared with each of them: at most 306
/// comparisons where nothing is named beside a root.
pub fn greatest_gap(root: &Root, extra: &[Extent], limit: u64) -> u64
    ensures longest { IsLongestGap (taken_by root.now extra.now) limit result }
    ensures greatest { result ≡ greatest_gap (taken_by root.now extra.now) limit }
{
    let at_head = room_at(root, extra, limit, HEAD_BYTES);
    let behind_list = longest_behind(root, extra, limit, &[root.deletions], at_head);
    let behind_levels = longest_behind(root, extra, limit, root.levels.as_slice(), behind_list);
    longest_behind(root, extra, limit, extra, behind_levels)
}

// ---- what meets a range

fn met(root: &Root, extra: &[Extent], at: u64, bytes: u64) -> Option<Extent>
    requires { at + bytes < 2 ^ 64 }
    ensures none { IfNone result (AreClear (taken_by root.now extra.now) at bytes) }
    ensures some { IfSome result (Meets (taken_by root.now extra.now) at bytes) }
{
    if meets(root.deletions, at, bytes) {
        return Some(root.deletions);
    }
    match met_among(root.levels.as_slice(), at, bytes) {
        Some(level) => Some(level),
        None => met_among(extra, at, bytes),
    }
}

fn met_among(extents: &[Extent], at: u64, bytes: u64) -> Option<Extent>
    requires { at + bytes < 2 ^ 64 }
    ensures none { IfNone result (AreClear extents.now at bytes) }
    ensures some { IfSome result (Meets extents.now at bytes) }
{
    for extent in extents {
        if meets(*extent, at, bytes) {
            return Some(*extent);
        }
    }
    None
}

fn meets(extent: Extent, at: u64, bytes: u64) -> bool
    requires { at + bytes < 2 ^ 64 }
    ensures yes { IsTrue result → (extent.place < at + bytes) × (at < extent.place + extent.bytes) }
    ensures no { IsFalse result → Apart at bytes extent.place extent.bytes }
{
    extent.place < at + bytes && !ends_before(extent, at)
}

// Whether the extent ends at this place or before.
fn ends_before(extent: Extent, at: u64) -> bool
    ensures { IsTrue result ↔ (extent.place + extent.bytes ≤ at) }
{
    extent.place <= at && extent.bytes <= at - extent.place
}

// ---- how much room there is

// The longest gap behind one of some extents, where it is longer than this.
fn longest_behind(root: &Root, extra: &[Extent], limit: u64, among: &[Extent], longest: u64) -> u64
    ensures { IsLonger (taken_by root.now extra.now) limit among.now longest result }
{
    let mut longest = longest;
    for extent in among {
        longest = longest.max(room_behind(root, extra, limit, *extent));
    }
    longest
}

fn room_behind(root: &Root, extra: &[Extent], limit: u64, extent: Extent) -> u64
    ensures { IsRoomAt (taken_by root.now extra.now) limit (extent.place + extent.bytes) result }
{
    match extent.place.checked_add(extent.bytes) {
        Some(end) => room_at(root, extra, limit, end),
        None => 0,
    }
}

fn room_at(root: &Root, extra: &[Extent], limit: u64, at: u64) -> u64
    ensures { IsRoomAt (taken_by root.now extra.now) limit at result }
{
    if at < HEAD_BYTES || limit < at {
        return 0;
    }
    let beside_list = room_beside(&[root.deletions], at, limit - at);
    let beside_levels = room_beside(root.levels.as_slice(), at, beside_list);
    room_beside(extra, at, beside_levels)
}

// How many of so many bytes at this place meet none of these extents.
fn room_beside(extents: &[Extent], at: u64, room: u64) -> u64
    ensures { IsRoom extents.now at room result }
{
    let mut room = room;
    for extent in extents {
        if !ends_before(*extent, at) {
            room = room.min(extent.place.saturating_sub(at));
        }
    }
    room
}
