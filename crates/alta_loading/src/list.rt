// One list of a level.
ghost use Rattle.std.specs.Prelude.{◌≡◌, ℕ, ◌+◌, ◌<◌, ◌≤◌, ◌^◌, List, length, Err, IfOk};
ghost use Rattle.alta_content.specs.Rows.{AreDocuments};
ghost use Rattle.alta_disk.specs.Calls.{Retrieves};
ghost use Rattle.alta_disk.specs.Disk.{DiskState};
ghost use Rattle.alta_meaning.specs.Broken.{IsBrokenIn};
ghost use Rattle.alta_level.specs.Stored.{IsListFault, IsListOf, stored_of};
ghost use Rattle.alta_disk.specs.Answers.{IfDamaged, IsDamaged, IsFound};
ghost use Rattle.alta_loading.specs.Lists.{KeepsRow, LiesWithin, stored_as, stored_in, stream_size, summary_size};
ghost use Rattle.alta_disk.specs.declared.fault.LoadFault.TheVariants.{Disk as DiskFault};
ghost use Rattle.alta_table.specs.Places.{stream_extent, stream_place, summary_extent};
ghost use Rattle.alta_table.specs.Tables.{total_of};

use alta_codec::Extent;
use alta_disk::{Disk, LoadFault, read_part};
use alta_level::{StoredList, check_list};
use alta_table::{LevelFault, OpenLevel, TermCursor};
use alta_words::Posting;
use std::alloc::Global;

/// Loads the list of a term of a level, by the row of the term. Stream and summary stand one behind the other, and are
/// read by one read of the disk. The list is tested as [`alta_level::check_list`] tests it, against its own rules, the row
/// of its term and the documents of the level: each number of the stream is read once. The summary alone is copied.
///
/// # Errors
///
/// `Damaged` exactly where the list has a fault, at the place of its first fault. `Disk` where the read failed. `Memory`
/// where there was no memory for the bytes of stream and summary.
pub fn load_list<D: Disk>(
    alloc: Global,
    disk: &mut D,
    table: &OpenLevel,
    row: &TermCursor<'_>,
) -> Result<Posting, LoadFault>
    requires tables { row.now.tables ≡ table.now }
    requires row { row.now.row < length table.now.terms }
    requires within { D.tells → LiesWithin table.now (D.state disk.old).content }
    // What is loaded is the list that stands there, and if there is one it is loaded.
    ensures list { D.tells → IfOk result (λ posting. IsListOf table.now.documents
        (stored_in table.now row.now.row (D.state disk.old).content) posting) }
    ensures only { D.tells → (list : List ℕ)
        → IsListOf table.now.documents (stored_in table.now row.now.row (D.state disk.old).content) list
        → IsFound (λ posting. posting) result list }
    // The damage is the first of the list, and if there is one that is the answer.
    ensures first { D.tells → IfDamaged result
        (IsListFault table.now.documents (stored_in table.now row.now.row (D.state disk.old).content)) }
    ensures damaged { D.tells → (p : ℕ) → IsListFault table.now.documents
        (stored_in table.now row.now.row (D.state disk.old).content) p → IsDamaged result p }
    // It is a damage of the level.
    ensures broken { D.tells → IfDamaged result (IsBrokenIn table.now (D.state disk.old).content) }
    // Whatever the disk tells, what is loaded keeps what its row and the documents say.
    ensures kept { IfOk result (λ posting. KeepsRow table.now row.now.row posting) }
    ensures retrieves { Retrieves D.tells (stream_size table.now row.now.row + summary_size table.now row.now.row)
        (D.state disk.old) (D.state disk.new) result }
{
    let (stream, summary) = places(table, row);
    // A level lies within its disk, so there is always such an end.
    let Some(end) = summary.place.checked_add(summary.bytes) else {
        return Err(LoadFault::Memory);
    };
    let mut bytes = read_part(alloc, disk, stream.place, end - stream.place)?;
    let behind = bytes.split_off(stream.bytes as usize)?;
    checked(table, row, bytes, behind)
}

/// Where stream and summary of a row stand.
pub(crate) fn places(table: &OpenLevel, row: &TermCursor<'_>) -> (Extent, Extent)
    requires tables { row.now.tables ≡ table.now }
    ensures stream { result.0 ≡ stream_extent table.now row.now.row }
    ensures summary { result.1 ≡ summary_extent table.now row.now.row }
    ensures beside { result.1.place ≡ result.0.place + result.0.bytes }
    ensures within { result.1.place + result.1.bytes ≤ table.now.place + total_of table.now.documents table.now.terms }
{
    row.stream_place()
}

// The list of a row, of these bytes, or its first fault.
fn checked(
    table: &OpenLevel,
    row: &TermCursor<'_>,
    stream: Vec<u8>,
    summary: Vec<u8>,
) -> Result<Posting, LoadFault>
    requires row { row.now.row < length table.now.terms }
    requires tables { row.now.tables ≡ table.now }
    requires sizes { (length stream.items ≡ stream_size table.now row.now.row)
        × (length summary.items ≡ summary_size table.now row.now.row) }
    requires below { stream_place table.now row.now.row + stream_size table.now row.now.row
        + summary_size table.now row.now.row < 2 ^ 64 }
    ensures list { IfOk result (λ posting. IsListOf table.now.documents
        (stored_as table.now row.now.row stream.items summary.items) posting) }
    ensures first { IfDamaged result (IsListFault table.now.documents
        (stored_as table.now row.now.row stream.items summary.items)) }
    ensures only { (list : List ℕ) → IsListOf table.now.documents
        (stored_as table.now row.now.row stream.items summary.items) list → IsFound (λ posting. posting) result list }
    ensures damaged { (p : ℕ) → IsListFault table.now.documents
        (stored_as table.now row.now.row stream.items summary.items) p → IsDamaged result p }
    ensures some { IfOk result (λ posting. 0 < length posting) }
    ensures lean { result ≡ Err DiskFault → ⊥ }
{
    let list = stored(table, row, &stream, &summary);
    match check_list(&list, table.rows()) {
        Ok(bounds) => Ok(Posting::of(stream, summary, bounds)),
        Err(LevelFault::Damaged(place)) => Err(LoadFault::Damaged(place)),
        Err(LevelFault::Memory) => Err(LoadFault::Memory),
    }
}

// The list of a row, of these bytes.
fn stored<'a>(
    table: &OpenLevel,
    row: &'a TermCursor<'_>,
    stream: &'a [u8],
    summary: &'a [u8],
) -> StoredList<'a>
    requires tables { row.now.tables ≡ table.now }
    ensures { stored_of result ≡ stored_as table.now row.now.row stream.now summary.now }
{
    listed(row, stream, summary)
}

// The list of the row at which a cursor stands, of these bytes.
fn listed<'a>(cursor: &'a TermCursor<'_>, stream: &'a [u8], summary: &'a [u8]) -> StoredList<'a>
    ensures { stored_of result ≡ stored_as cursor.now.tables cursor.now.row stream.now summary.now }
{
    let (place, behind) = cursor.stream_place();
    StoredList {
        stream,
        stream_place: place.place,
        summary,
        summary_place: behind.place,
        term: cursor.term(),
        count: cursor.count(),
    }
}
