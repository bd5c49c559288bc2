// The content of a level, read from its segment.
// The tables are not read again, so what is read has the rows that were opened, whatever the disk tells, and levels in order may be
// joined without another test.
ghost use Rattle.std.specs.Prelude.{◌≡◌, ◌≢◌, ◌+◌, ◌++◌, ◌∷◌, [], ◌<◌, ◌≤◌, ◌^◌, ℕ, length, Err, IfErr, IfOk};
ghost use Rattle.alta_content.specs.declared.content.Content.{Content};
ghost use Rattle.alta_disk.specs.Calls.{Retrieves};
ghost use Rattle.alta_disk.specs.Disk.{DiskState};
ghost use Rattle.alta_meaning.specs.Broken.{IsBrokenIn};
ghost use Rattle.alta_disk.specs.Answers.{IfDamaged, IsDamaged, IsFound};
ghost use Rattle.alta_joins.specs.Contents.{IsContentOf, IsSegmentOn, StandsOn, list_at, row_at};
ghost use Rattle.alta_joins.specs.Damages.{IsDamageOn};
ghost use Rattle.alta_joins.specs.Reading.{rows_between};
ghost use Rattle.alta_disk.specs.declared.fault.LoadFault.TheVariants.{Disk as DiskFault, Memory};
ghost use Rattle.alta_level.specs.Damage.{AreListsOf, IsFaultInLists, data_place, stored_at};
ghost use Rattle.alta_level.specs.Segments.{IsSegment};
ghost use Rattle.alta_level.specs.Stored.{IsListFault, IsListOf, stored_of};
ghost use Rattle.alta_table.specs.Places.{stream_place};
ghost use Rattle.alta_table.specs.Tables.{tables_bytes};
ghost use Rattle.alta_table.specs.Terms.{data_bytes};

use alta_codec::Extent;
use alta_content::{Content, DocRows, TermLists, give_back};
use alta_disk::{Disk, LoadFault, read_part};
use alta_level::{StoredList, check_list, segments_read_back};
use alta_table::{LevelFault, OpenLevel, TermCursor};
use std::alloc::Global;

/// A packed row of a term takes some sixteen bytes: the term's own, and three numbers.
pub const ROW_BYTES: usize = 16;

/// Reads the content of a level. Its streams and summaries stand one behind the other, and are read by one read of the disk. The
/// rows are those of the tables that were opened, and are copied. Each list is tested as [`alta_level::check_list`] tests it, and its
/// stream is copied. The memory of what is read is given back as the lists are copied, so the content takes little more beside it.
///
/// # Errors
///
/// `Damaged` exactly where a list of the level has a fault, at the place of the first fault of the first list that has one. `Disk`
/// where the read failed. `Memory` where there was no memory.
pub fn read_level<D: Disk>(
    alloc: Global,
    disk: &mut D,
    level: &OpenLevel,
) -> Result<Content, LoadFault>
    requires { D.tells → StandsOn (D.state disk.old).content level.now }
    // What is read is the content of the segment that stands there, and if there is one it is read.
    ensures segment { D.tells → IfOk result (IsSegmentOn (D.state disk.old).content level.now) }
    ensures only { D.tells → (content : Content) → IsSegmentOn (D.state disk.old).content level.now content
        → IsFound (λ x. x) result content }
    // The damage is the first, and if there is one that is the answer.
    ensures first { D.tells → IfDamaged result (IsDamageOn (D.state disk.old).content level.now) }
    ensures damaged { D.tells → (place : ℕ) → IsDamageOn (D.state disk.old).content level.now place
        → IsDamaged result place }
    // It is one of a stream or a summary.
    ensures broken { D.tells → IfDamaged result (IsBrokenIn level.now (D.state disk.old).content) }
    // Whatever the disk tells, what is read keeps the rules of a content, and has these tables.
    ensures kept { IfOk result (IsContentOf level.now) }
    ensures retrieves { Retrieves D.tells (data_bytes level.now.terms) (D.state disk.old) (D.state disk.new) result }
{
    segments_read_back();
    let extent = data_extent(level)?;
    let bytes = read_part(alloc, disk, extent.place, extent.bytes)?;
    content_in(alloc, level, bytes, extent.place)
}

/// Where the streams and summaries of a level stand.
pub fn data_extent(level: &OpenLevel) -> Result<Extent, LoadFault>
    ensures place { IfOk result (λ extent. extent.place ≡ data_place level.now) }
    ensures bytes { IfOk result (λ extent. extent.bytes ≡ data_bytes level.now.terms) }
    ensures below { IfOk result (λ extent. extent.place + extent.bytes < 2 ^ 64) }
    ensures only { IfErr result (λ fault. fault ≡ Memory) }
{
    // This call tells that there is a term.
    let _documents = level.documents();
    rows_extent(level, 0, level.terms())
}

/// Where the streams and summaries of the rows from one on stand, up to another.
pub fn rows_extent(level: &OpenLevel, from: usize, to: usize) -> Result<Extent, LoadFault>
    requires some { from < to }
    requires within { to ≤ length level.now.terms }
    ensures place { IfOk result (λ extent. extent.place ≡ stream_place level.now from) }
    ensures bytes { IfOk result (λ extent. extent.bytes ≡ data_bytes (rows_between level.now from to)) }
    ensures below { IfOk result (λ extent. extent.place + extent.bytes < 2 ^ 64) }
    ensures only { IfErr result (λ fault. fault ≡ Memory) }
{
    let (first, _summary) = level.stream_place(from);
    let (_stream, last) = level.stream_place(to - 1);
    // A level lies within its disk, so there is always such an end.
    let Some(end) = last.place.checked_add(last.bytes) else {
        return Err(LoadFault::Memory);
    };
    Ok(Extent {
        place: first.place,
        bytes: end - first.place,
    })
}

// The content of a level, whose lists stand in these bytes behind its tables.
fn content_in(
    alloc: Global,
    level: &OpenLevel,
    bytes: Vec<u8>,
    place: u64,
) -> Result<Content, LoadFault>
    requires long { length bytes.items ≡ data_bytes level.now.terms }
    requires place { place ≡ data_place level.now }
    requires below { place + length bytes.items < 2 ^ 64 }
    ensures kept { IfOk result (IsContentOf level.now) }
    ensures segment { IfOk result (IsSegment (tables_bytes level.now.documents level.now.terms ++ bytes.items)) }
    ensures first { IfDamaged result (IsFaultInLists level.now.documents level.now.terms bytes.items
        (data_place level.now)) }
    ensures lean { result ≢ Err DiskFault }
{
    let _documents = level.documents();
    let lists = match lists_in(alloc, level, 0, level.terms(), bytes, place) {
        Ok(lists) => lists,
        Err(fault) => return Err(fault),
    };
    let documents = level.rows().copy_rows(alloc)?;
    Ok(Content {
        documents: DocRows::from_vec(documents),
        lists,
    })
}

/// The lists of the rows from one on, up to another, whose streams and summaries stand one behind the other in these bytes. No list
/// takes memory of its own: their streams are copied into room for all, and the memory of the bytes is given back as they are read.
pub fn lists_in(
    alloc: Global,
    level: &OpenLevel,
    from: usize,
    to: usize,
    bytes: Vec<u8>,
    place: u64,
) -> Result<TermLists, LoadFault>
    requires some { from < to }
    requires within { to ≤ length level.now.terms }
    requires whole { data_bytes (rows_between level.now from to) ≤ length bytes.items }
    requires below { place + length bytes.items < 2 ^ 64 }
    ensures found { IfOk result (AreListsOf level.now.documents (rows_between level.now from to) bytes.items place) }
    ensures first { IfDamaged result (IsFaultInLists level.now.documents (rows_between level.now from to) bytes.items
        place) }
    ensures lean { result ≢ Err DiskFault }
{
    let rows = (to - from).saturating_mul(ROW_BYTES);
    let mut lists = TermLists::with_room(alloc, rows, bytes.len())?;
    let mut rest = bytes;
    let mut front = 0;
    let mut at = place;
    let mut cursor = level.at(from);
    for row in from..to {
        let (stream, summary) = cursor.stream_place();
        let len = stream.bytes + summary.bytes;
        let (_passed, here) = rest.split_at(front);
        match put_row(&mut lists, level, &cursor, here, at) {
            Ok(()) => {}
            Err(fault) => return Err(fault),
        }
        front = give_back(&mut rest, front + len as usize);
        at += len;
        cursor.next();
    }
    Ok(lists)
}

// Puts the list of the row at which a cursor stands. Its stream begins the bytes, which begin at a place, and is copied: it spells the
// gaps of its locations.
fn put_row(
    lists: &mut TermLists,
    level: &OpenLevel,
    cursor: &TermCursor<'_>,
    bytes: &[u8],
    place: u64,
) -> Result<(), LoadFault>
    requires whole { (row_at cursor.now.tables cursor.now.row).stream
        + (row_at cursor.now.tables cursor.now.row).summary ≤ length bytes.now }
    requires below { place + length bytes.now < 2 ^ 64 }
    ensures put { IfOk result (λ x. lists.new
        ≡ lists.old ++ (list_at (row_at cursor.now.tables cursor.now.row) bytes.now) ∷ []) }
    ensures found { IfOk result (λ x. IsListOf level.now.documents
        (stored_at (row_at cursor.now.tables cursor.now.row) bytes.now place)
        (list_at (row_at cursor.now.tables cursor.now.row) bytes.now).locations) }
    ensures first { IfDamaged result (IsListFault level.now.documents
        (stored_at (row_at cursor.now.tables cursor.now.row) bytes.now place)) }
    ensures lean { result ≢ Err DiskFault }
{
    let list = stored(cursor, bytes, place);
    match check_list(&list, level.rows()) {
        Ok(_bounds) => {
            lists.put_spelled(list.term, list.count, list.stream)?;
            Ok(())
        }
        Err(LevelFault::Damaged(place)) => Err(LoadFault::Damaged(place)),
        Err(LevelFault::Memory) => Err(LoadFault::Memory),
    }
}

// The list of the row at which a cursor stands, as it stands at the front of these bytes.
fn stored<'a>(cursor: &'a TermCursor<'_>, bytes: &'a [u8], place: u64) -> StoredList<'a>
    requires whole { (row_at cursor.now.tables cursor.now.row).stream
        + (row_at cursor.now.tables cursor.now.row).summary ≤ length bytes.now }
    requires below { place + length bytes.now < 2 ^ 64 }
    ensures { stored_of result ≡ stored_at (row_at cursor.now.tables cursor.now.row) bytes.now place }
{
    let (first, second) = cursor.stream_place();
    let (stream, behind) = bytes.split_at(first.bytes as usize);
    let (summary, _rest) = behind.split_at(second.bytes as usize);
    StoredList {
        stream,
        stream_place: place,
        summary,
        summary_place: place + first.bytes,
        term: cursor.term(),
        count: cursor.count(),
    }
}
