// A content, read from its segment.
ghost use Rattle.std.specs.Prelude.{◌≡◌, ◌+◌, ◌++◌, ◌∷◌, [], ◌<◌, ◌≤◌, ◌^◌, drop, length, IfOk, ℕ};
ghost use Rattle.alta_table.specs.Answers.{IfDamaged, IsDamaged, IsFound};
ghost use Rattle.alta_content.specs.Rows.{AreDocuments};
ghost use Rattle.alta_table.specs.Tables.{AreTables, IsDamage, tables_bytes};
ghost use Rattle.alta_table.specs.Terms.{data_bytes, data_of};
ghost use Rattle.alta_level.specs.Damage.{AreListsOf, IsFaultInLists, IsSegmentFault, row_at, stored_at};
ghost use Rattle.alta_level.specs.Segments.{IsSegment};
ghost use Rattle.alta_level.specs.Stored.{stored_of};
ghost use Rattle.alta_level.specs.Whole.{ReadsList};
ghost use Rattle.alta_content.specs.declared.content.Content.{Content};

use crate::checking::read_list;
use crate::laws::segments_read_back;
use crate::stored::StoredList;
use alta_codec::Loc;
use alta_content::{Content, DocRows, LevelRows, TermLists};
use alta_table::{LevelFault, OpenLevel, TermCursor, head, tables_in_front, tables_read_back};
use std::alloc::Global;
use std::default::MadeWith;
use std::rc::Rc;

// The tables of a segment, and how many bytes they have.
fn tables_at(alloc: Global, bytes: &[u8], place: u64) -> Result<(OpenLevel, usize), LevelFault>
    requires { place + length bytes.now < 2 ^ 64 }
    ensures found { IfOk result (λ x. AreTables bytes.now place (length bytes.now) x.0) }
    ensures len { IfOk result (λ x. x.1 ≡ length (tables_bytes x.0.documents x.0.terms)) }
    ensures first { IfDamaged result (IsDamage bytes.now place (length bytes.now)) }
{
    tables_read_back();
    tables_in_front();
    let total = bytes.len() as u64;
    match head(bytes, place, total) {
        Err(fault) => Err(fault),
        Ok(head) => {
            let len = (32 + head.document_bytes + head.term_bytes) as usize;
            let (front, _lists) = bytes.split_at(len);
            match OpenLevel::open(alloc, front, place, total) {
                Ok(table) => Ok((table, len)),
                Err(fault) => Err(fault),
            }
        }
    }
}

// The list of the row at which a cursor stands. Its stream begins the bytes, which begin at a place. And what stands behind its summary.
fn list_at<'a: 'b, 'b>(
    cursor: &'b TermCursor<'_>,
    bytes: &'a [u8],
    place: u64,
) -> (StoredList<'b>, &'a [u8])
    requires whole { data_of (row_at cursor.now.tables.terms cursor.now.row) ≤ length bytes.now }
    requires below { place + length bytes.now < 2 ^ 64 }
    ensures list { stored_of result.0 ≡ stored_at (row_at cursor.now.tables.terms cursor.now.row) bytes.now place }
    ensures behind { result.1.now ≡ drop (data_of (row_at cursor.now.tables.terms cursor.now.row)) bytes.now }
{
    let (at, above) = cursor.stream_place();
    let (stream, rest) = bytes.split_at(at.bytes as usize);
    let (summary, behind) = rest.split_at(above.bytes as usize);
    let list = StoredList {
        stream,
        stream_place: place,
        summary,
        summary_place: place + at.bytes,
        term: cursor.term(),
        count: cursor.count(),
    };
    (list, behind)
}

// Puts a list that was read. Its locations are left in `locations`.
fn put_list(
    lists: &mut TermLists,
    locations: &mut Vec<Loc>,
    places: &mut Vec<u64>,
    list: &StoredList<'_>,
    documents: &LevelRows,
) -> Result<(), LevelFault>
    requires stream { list.now.stream_place + length list.now.stream.now < 2 ^ 64 }
    requires summary { list.now.summary_place + length list.now.summary.now < 2 ^ 64 }
    requires documents { AreDocuments documents.now }
    ensures put { IfOk result (λ x. lists.new
        ≡ lists.old ++ (record { term = list.now.term.now; locations = locations.new.items }) ∷ []) }
    ensures reads { ReadsList documents.now (stored_of list.now) locations.new.items result }
{
    match read_list(locations, places, list, documents) {
        Ok(()) => match lists.put(list.term, locations) {
            Ok(()) => Ok(()),
            Err(_none) => Err(LevelFault::Memory),
        },
        Err(fault) => Err(fault),
    }
}

// The lists of all rows, whose streams and summaries stand one behind the other. No list takes memory of its own.
fn lists_at(
    alloc: Global,
    table: &OpenLevel,
    streams: &[u8],
    place: u64,
    documents: &LevelRows,
) -> Result<TermLists, LevelFault>
    requires whole { data_bytes table.now.terms ≤ length streams.now }
    requires below { place + length streams.now < 2 ^ 64 }
    requires documents { AreDocuments documents.now }
    ensures found { IfOk result (AreListsOf documents.now table.now.terms streams.now place) }
    ensures first { IfDamaged result (IsFaultInLists documents.now table.now.terms streams.now place) }
{
    let mut lists = TermLists::made_with(alloc);
    let mut locations = Vec::new(alloc);
    let mut places = Vec::new(alloc);
    let mut rest = streams;
    let mut at = place;
    let mut cursor = table.first();
    for row in 0..table.terms() {
        let (list, behind) = list_at(&cursor, rest, at);
        match put_list(&mut lists, &mut locations, &mut places, &list, documents) {
            Ok(()) => {}
            Err(fault) => return Err(fault),
        }
        at += (rest.len() - behind.len()) as u64;
        rest = behind;
        cursor.next();
    }
    Ok(lists)
}

// The content of a segment whose tables were read: they are its first bytes, so many.
fn content_of(
    alloc: Global,
    table: OpenLevel,
    len: usize,
    bytes: &[u8],
    place: u64,
) -> Result<Content, LevelFault>
    requires below { place + length bytes.now < 2 ^ 64 }
    requires tables { AreTables bytes.now place (length bytes.now) table }
    requires len { len ≡ length (tables_bytes table.documents table.terms) }
    ensures found { IfOk result (IsSegment bytes.now) }
    ensures first { IfDamaged result (IsSegmentFault bytes.now place) }
{
    let Ok(documents) = table.rows().clone() else {
        return Err(LevelFault::Memory);
    };
    let (_tables, streams) = bytes.split_at(len);
    match lists_at(alloc, &table, streams, place + len as u64, &documents) {
        Ok(lists) => {
            drop(table);
            let Ok(documents) = LevelRows::unshare(alloc, documents) else {
                return Err(LevelFault::Memory);
            };
            Ok(Content {
                documents: DocRows::from_vec(documents),
                lists,
            })
        }
        Err(fault) => Err(fault),
    }
}

// The content, or the first damage.
fn content_at(alloc: Global, bytes: &[u8], place: u64) -> Result<Content, LevelFault>
    requires { place + length bytes.now < 2 ^ 64 }
    ensures found { IfOk result (IsSegment bytes.now) }
    ensures first { IfDamaged result (IsSegmentFault bytes.now place) }
{
    match tables_at(alloc, bytes, place) {
        Ok((table, len)) => content_of(alloc, table, len, bytes, place),
        Err(fault) => Err(fault),
    }
}

/// Reads a whole segment that begins at a place of the disk. `Damaged` has the place of the first field that breaks a
/// rule: of the head, then of the documents, then of the terms, then the first byte behind the last stream and summary,
/// then the head's number of terms where the term `D` is missing. Then come the lists in the order of the terms, each as
/// [`read_list`] tests it. `Memory` comes only where memory is wanting. Each field of the tables is read once, but for
/// the head, which is read twice; each number of a stream is read once, no name is copied, and no list takes memory of its
/// own.
pub fn read_content(alloc: Global, bytes: &[u8], place: u64) -> Result<Content, LevelFault>
    requires { place + length bytes.now < 2 ^ 64 }
    // What is read is spelled so.
    ensures found { IfOk result (IsSegment bytes.now) }
    // What is spelled so is read.
    ensures only { (content : Content) → IsSegment bytes.now content → IsFound (λ x. x) result content }
    // The damage is the first.
    ensures first { IfDamaged result (IsSegmentFault bytes.now place) }
    // Where there is damage, that is the answer.
    ensures broken { (p : ℕ) → IsSegmentFault bytes.now place p → IsDamaged result p }
{
    segments_read_back();
    content_at(alloc, bytes, place)
}
