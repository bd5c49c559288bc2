// The lists of levels and of the newest documents merged window by window.
// Each level has a row up to which it was read, and the lists of it that are at hand. Those of the newest documents are all at hand, and
// stand last.
ghost use Rattle.std.specs.Prelude.{◌≡◌, ◌+◌, ◌<◌, ◌≤◌, ℕ, [], List, All, Ok, Err, false, length, take, slice_index, slice_index_or, IfErr, IfOk, OnOk};
ghost use Rattle.alta_content.specs.Spans.{SpansRise};
ghost use Rattle.alta_content.specs.TermList.{TermList};
ghost use Rattle.alta_content.specs.declared.content.Content.{Content};
ghost use Rattle.alta_content.specs.declared.spans.Span.{Span};
ghost use Rattle.alta_disk.specs.Answers.{IfDamaged};
ghost use Rattle.alta_disk.specs.Calls.{Retrieves};
ghost use Rattle.alta_disk.specs.Disk.{DiskState};
ghost use Rattle.alta_joins.specs.Contents.{StandsOn};
ghost use Rattle.alta_joins.specs.Damages.{FindsDamage, Tells};
ghost use Rattle.alta_joins.specs.Reading.{AreAllMerged, AreFilled, AreMergedTo, AreReadTo, Fills, IsOpen, IsRefilled, ReadsOn};
ghost use Rattle.alta_joins.specs.Reading.{left_of, sizes_of};
ghost use Rattle.alta_meaning.specs.Broken.{IsBrokenAmong};
ghost use Rattle.alta_merge.specs.Fronts.{NoneLeft};

use crate::window::{read_window, test_from};
use alta_content::{PackedLocations, Span, TermLists};
use alta_disk::{Disk, LoadFault};
use alta_level::segments_read_back;
use alta_merge::{Room, merge_first};
use alta_table::OpenLevel;
use std::alloc::Global;
use std::default::MadeWith;

// Tests what is left of the first levels, one after the other.
fn test_before<D: Disk>(
    alloc: Global,
    disk: &mut D,
    levels: &[OpenLevel],
    rows: &[usize],
    n: usize,
) -> Result<(), LoadFault>
    requires stands { D.tells → All (StandsOn (D.state disk.old).content) levels.now }
    requires opened { All IsOpen levels.now }
    requires read { (newest : List TermList) × (read : List (List TermList))
        × AreReadTo D.tells (D.state disk.old).content newest levels.now rows.now read }
    requires within { n ≤ length levels.now }
    ensures whole { D.tells → IfOk result (λ x. (contents : List Content)
        × Tells {X = List Content} (λ c. c) (D.state disk.old).content (take n levels.now) (Ok contents)) }
    ensures damage { D.tells → IfErr result (λ fault. FindsDamage {X = Unit {0}} (D.state disk.old).content levels.now
        (Err fault)) }
    ensures broken { D.tells → IfDamaged result (IsBrokenAmong levels.now (D.state disk.old).content) }
    ensures retrieves { Retrieves D.tells (left_of (take n levels.now) rows.now) (D.state disk.old)
        (D.state disk.new) result }
{
    segments_read_back();
    for i in 0..n {
        match test_from(alloc, disk, &levels[i], rows[i]) {
            Ok(()) => {}
            Err(fault) => return Err(fault),
        }
    }
    Ok(())
}

// Takes the next window of a level of which no list is at hand. Where one of its lists is damaged, the levels before it are tested first.
fn refill<D: Disk>(
    alloc: Global,
    disk: &mut D,
    levels: &[OpenLevel],
    rows: &mut [usize],
    hand: &mut [TermLists],
    i: usize,
) -> Result<(), LoadFault>
    requires stands { D.tells → All (StandsOn (D.state disk.old).content) levels.now }
    requires opened { All IsOpen levels.now }
    requires merged { (image : List ℕ) × (newest : List TermList) × (spans : List Span) × (made : List TermList)
        × AreMergedTo D.tells image (D.state disk.old).content newest spans levels.now rows.old hand.old made }
    requires within { i < length levels.now }
    requires left { slice_index rows.old i < slice_index (sizes_of levels.now) i }
    requires none { slice_index_or hand.old i [] ≡ [] }
    ensures fills { Fills D.tells levels.now rows.old hand.old rows.new hand.new (D.state disk.old) (D.state disk.new)
        result }
    ensures filled { OnOk result (IsRefilled i rows.old hand.old rows.new hand.new) }
{
    segments_read_back();
    match read_window(alloc, disk, &levels[i], rows[i]) {
        Ok(window) => {
            rows[i] = window.end;
            hand[i] = window.lists;
            Ok(())
        }
        Err(LoadFault::Damaged(place)) => match test_before(alloc, disk, levels, rows, i) {
            Ok(()) => Err(LoadFault::Damaged(place)),
            Err(fault) => Err(fault),
        },
        Err(LoadFault::Disk) => Err(LoadFault::Disk),
        Err(LoadFault::Memory) => Err(LoadFault::Memory),
    }
}

// Takes the next window of a level if none of its lists is at hand and it has a list left.
fn fill_one<D: Disk>(
    alloc: Global,
    disk: &mut D,
    levels: &[OpenLevel],
    rows: &mut [usize],
    hand: &mut [TermLists],
    i: usize,
) -> Result<(), LoadFault>
    requires stands { D.tells → All (StandsOn (D.state disk.old).content) levels.now }
    requires opened { All IsOpen levels.now }
    requires merged { (image : List ℕ) × (newest : List TermList) × (spans : List Span) × (made : List TermList)
        × AreMergedTo D.tells image (D.state disk.old).content newest spans levels.now rows.old hand.old made }
    requires within { i < length levels.now }
    ensures fills { Fills D.tells levels.now rows.old hand.old rows.new hand.new (D.state disk.old) (D.state disk.new)
        result }
    ensures filled { AreFilled i levels.now rows.old hand.old
        → OnOk result (AreFilled (i + 1) levels.now rows.new hand.new) }
{
    if hand[i].first().is_some() {
        return Ok(());
    }
    if rows[i] >= levels[i].terms() {
        return Ok(());
    }
    refill(alloc, disk, levels, rows, hand, i)
}

// Takes the next window of each level of which no list is at hand, and which has a list left.
fn fill<D: Disk>(
    alloc: Global,
    disk: &mut D,
    levels: &[OpenLevel],
    rows: &mut [usize],
    hand: &mut [TermLists],
) -> Result<(), LoadFault>
    requires stands { D.tells → All (StandsOn (D.state disk.old).content) levels.now }
    requires opened { All IsOpen levels.now }
    requires merged { (image : List ℕ) × (newest : List TermList) × (spans : List Span) × (made : List TermList)
        × AreMergedTo D.tells image (D.state disk.old).content newest spans levels.now rows.old hand.old made }
    ensures fills { Fills D.tells levels.now rows.old hand.old rows.new hand.new (D.state disk.old) (D.state disk.new)
        result }
    ensures filled { OnOk result (AreFilled (length levels.now) levels.now rows.new hand.new) }
{
    for i in 0..levels.len() {
        match fill_one(alloc, disk, levels, rows, hand, i) {
            Ok(()) => {}
            Err(fault) => return Err(fault),
        }
    }
    Ok(())
}

// Merges the term that comes next, and answers whether there was one.
fn merge_next<D: Disk>(
    alloc: Global,
    disk: &mut D,
    levels: &[OpenLevel],
    rows: &mut [usize],
    hand: &mut [TermLists],
    made: &mut TermLists,
    room: &mut Room,
    spans: &[Span],
) -> Result<bool, LoadFault>
    requires stands { D.tells → All (StandsOn (D.state disk.old).content) levels.now }
    requires opened { All IsOpen levels.now }
    requires rising { SpansRise spans.now }
    requires merged { (image : List ℕ) × (newest : List TermList)
        × AreMergedTo D.tells image (D.state disk.old).content newest spans.now levels.now rows.old hand.old made.old }
    ensures merged { (image : List ℕ) → (newest : List TermList)
        → AreMergedTo D.tells image (D.state disk.old).content newest spans.now levels.now rows.old hand.old made.old
        → OnOk result (AreMergedTo D.tells image (D.state disk.new).content newest spans.now levels.now rows.new
        hand.new made.new) }
    ensures none { IfOk result (λ some. some ≡ false → NoneLeft hand.new (length hand.new)) }
    ensures filled { IfOk result (λ some. some ≡ false → AreFilled (length levels.now) levels.now rows.new
        hand.new) }
    ensures reads { ReadsOn D.tells levels.now rows.old rows.new (D.state disk.old) (D.state disk.new) result }
{
    match fill(alloc, disk, levels, rows, hand) {
        Ok(()) => {}
        Err(fault) => return Err(fault),
    }
    match merge_first(made, hand, room, spans) {
        Ok(some) => Ok(some),
        Err(_) => Err(LoadFault::Memory),
    }
}

/// Merges the lists of all levels and the newest documents' lists, which stand last at hand, behind what was made. What stands in the
/// spans is left out, and a term that keeps no location.
///
/// # Errors
///
/// `Damaged` exactly where a list of a level has a fault, at the first place of the first level that has one. `Disk` where a read
/// failed. `Memory` where there was no memory.
pub fn merge_lists<D: Disk>(
    alloc: Global,
    disk: &mut D,
    levels: &[OpenLevel],
    rows: &mut [usize],
    hand: &mut [TermLists],
    made: &mut TermLists,
    spans: &[Span],
) -> Result<(), LoadFault>
    requires stands { D.tells → All (StandsOn (D.state disk.old).content) levels.now }
    requires opened { All IsOpen levels.now }
    requires rising { SpansRise spans.now }
    requires merged { (image : List ℕ) × (newest : List TermList)
        × AreMergedTo D.tells image (D.state disk.old).content newest spans.now levels.now rows.old hand.old made.old }
    ensures merged { (image : List ℕ) → (newest : List TermList)
        → AreMergedTo D.tells image (D.state disk.old).content newest spans.now levels.now rows.old hand.old made.old
        → OnOk result (AreAllMerged D.tells image newest spans.now levels.now made.new) }
    ensures reads { ReadsOn D.tells levels.now rows.old rows.new (D.state disk.old) (D.state disk.new) result }
{
    let mut room = Room {
        packed: PackedLocations::made_with(alloc),
        locations: Vec::new(alloc),
    };
    for _term in 0..u64::MAX {
        match merge_next(alloc, disk, levels, rows, hand, made, &mut room, spans) {
            Ok(true) => {}
            Ok(false) => return Ok(()),
            Err(fault) => return Err(fault),
        }
    }
    // No memory has so many terms.
    Err(LoadFault::Memory)
}
