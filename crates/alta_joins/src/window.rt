// Windows over the lists of a level: as many rows at a time as have few bytes.
ghost use Rattle.std.specs.Prelude.{◌<◌, ◌≤◌, List, drop, length, IfOk};
ghost use Rattle.alta_content.specs.TermList.{TermList};
ghost use Rattle.alta_disk.specs.Answers.{IfDamaged};
ghost use Rattle.alta_disk.specs.Calls.{Reads, Retrieves};
ghost use Rattle.alta_disk.specs.Disk.{DiskState};
ghost use Rattle.alta_joins.specs.Contents.{StandsOn};
ghost use Rattle.alta_joins.specs.Reading.{AreRead, IsFaultFrom, rows_between};
ghost use Rattle.alta_table.specs.Terms.{data_bytes};

use crate::level::{lists_in, rows_extent};
use alta_content::TermLists;
use alta_disk::{Disk, LoadFault, read_part};
use alta_table::OpenLevel;
use std::alloc::Global;

// A window has at most so many bytes, unless its first list has more. Windows of a megabyte cost as many instructions, and leave more of
// the heap of the C library behind.
const WINDOW: u64 = 65_536;

/// Lists of a level that stand one behind the other.
#[derive(Drop)]
pub struct Window {
    pub lists: TermLists,
    /// The row behind those of the lists.
    pub end: usize,
}

// The row behind the last one of a window that begins at a row. It looks by halves.
fn window_end(level: &OpenLevel, from: usize) -> usize
    requires { from < length level.now.terms }
    ensures some { from < result }
    ensures within { result ≤ length level.now.terms }
{
    let (first, _summary) = level.stream_place(from);
    let mut high = level.terms();
    let mut low = from + 1;
    while low < high {
        let middle = high - (high - low) / 2;
        let (_stream, last) = level.stream_place(middle - 1);
        let end = last.place.saturating_add(last.bytes);
        if end.saturating_sub(first.place) <= WINDOW {
            low = middle;
        } else {
            high = middle - 1;
        }
    }
    low
}

/// Reads the lists of a level from a row on by one read of the disk: so many as have 64 KiB together, and one at least. Each is
/// tested as [`alta_level::check_list`] tests it.
///
/// # Errors
///
/// `Damaged` where a list that was read has a fault, at the place of the first. `Disk` where the read failed. `Memory` where there was
/// no memory.
pub fn read_window<D: Disk>(
    alloc: Global,
    disk: &mut D,
    level: &OpenLevel,
    from: usize,
) -> Result<Window, LoadFault>
    requires stands { D.tells → StandsOn (D.state disk.old).content level.now }
    requires some { from < length level.now.terms }
    ensures read { IfOk result (λ window. AreRead D.tells (D.state disk.old).content level.now from window.end
        window.lists) }
    ensures on { IfOk result (λ window. from < window.end) }
    ensures within { IfOk result (λ window. window.end ≤ length level.now.terms) }
    ensures first { D.tells → IfDamaged result (IsFaultFrom (D.state disk.old).content level.now from) }
    ensures cost { IfOk result (λ window. Reads D.tells (data_bytes (rows_between level.now from window.end))
        (D.state disk.old) (D.state disk.new)) }
    ensures retrieves { Retrieves D.tells (data_bytes (drop from level.now.terms)) (D.state disk.old)
        (D.state disk.new) result }
{
    let end = window_end(level, from);
    let extent = rows_extent(level, from, end)?;
    let bytes = read_part(alloc, disk, extent.place, extent.bytes)?;
    match lists_in(alloc, level, from, end, bytes, extent.place) {
        Ok(lists) => Ok(Window { lists, end }),
        Err(fault) => Err(fault),
    }
}

/// Reads the lists of a level from a row on to the last, window by window, and keeps none.
///
/// # Errors
///
/// Those of [`read_window`].
pub fn test_from<D: Disk>(
    alloc: Global,
    disk: &mut D,
    level: &OpenLevel,
    from: usize,
) -> Result<(), LoadFault>
    requires stands { D.tells → StandsOn (D.state disk.old).content level.now }
    requires within { from ≤ length level.now.terms }
    ensures read { IfOk result (λ x. (lists : List TermList)
        × AreRead D.tells (D.state disk.old).content level.now from (length level.now.terms) lists) }
    ensures first { D.tells → IfDamaged result (IsFaultFrom (D.state disk.old).content level.now from) }
    ensures retrieves { Retrieves D.tells (data_bytes (drop from level.now.terms)) (D.state disk.old)
        (D.state disk.new) result }
{
    let mut row = from;
    while row < level.terms() {
        match read_window(alloc, disk, level, row) {
            Ok(window) => row = window.end,
            Err(fault) => return Err(fault),
        }
    }
    Ok(())
}
