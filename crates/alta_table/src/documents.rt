// The document part of a segment.
ghost use Rattle.std.specs.Prelude.{◌≡◌, ◌+◌, ◌<◌, ◌≤◌, ◌^◌, [], length, IfOk};
ghost use Rattle.alta_format.specs.Gives.{Gives};
ghost use Rattle.alta_format.specs.Format.{read, part};
ghost use Rattle.alta_table.specs.Answers.{Answers};
ghost use Rattle.alta_table.specs.Documents.{rises, are_cells, is_name_len, is_graphic_text, row_format, row_from, documents_format};
ghost use Rattle.alta_content.specs.Rows.{AreDocuments, end_of};
ghost use Rattle.alta_table.specs.Places.{EndsRow};

use crate::fault::LevelFault;
use alta_codec::{DocNumber, Loc, TOP};
use alta_content::{DocName, DocRow};
use alta_format::{ReadFault, byte_at, packed_at, text_at};
use std::alloc::{AllocError, Global};
use std::rc::Rc;

fn is_rising(before: u64, more: u64) -> bool
    requires { before < TOP }
    ensures { result ≡ rises before more }
{
    0 < more && more < TOP - before
}

fn is_cell_count(first: Loc, cells: u64) -> bool
    requires { first < TOP }
    ensures { result ≡ are_cells first cells }
{
    3 <= cells && cells <= 262_146 && first + cells - 1 < TOP
}

fn is_length(len: u8) -> bool
    ensures { result ≡ is_name_len len }
{
    0 < len && len <= 64
}

fn is_graphic_name(name: &[u8]) -> bool
    ensures { result ≡ is_graphic_text name.now }
{
    name.iter().all(|b| 33 <= *b && *b <= 126)
}

// What a row says. Its name is where it was read.
#[derive(Drop)]
struct RowFields<'a> {
    number: DocNumber,
    first: Loc,
    cells: u64,
    name: &'a [u8],
}

// What the row at the front says, behind a row with this number and this end.
#[tactic(auto, unfolding(alta_format::specs::Format::read, crate::specs::Documents::row_format))]
fn row_at(number: DocNumber, end: Loc, bytes: &[u8]) -> Result<(RowFields<'_>, &[u8]), ReadFault>
    requires number { number < TOP }
    requires end { end < TOP }
    ensures gives { Gives (λ x. (row_from x.0, x.1.now)) result
        (read (row_format (record { number = number; end = end })) bytes.now) }
    ensures cells { IfOk result (λ x. 3 ≤ x.0.cells) }
    ensures number_below { IfOk result (λ x. x.0.number < TOP) }
    ensures end_below { IfOk result (λ x. end_of (row_from x.0) < TOP) }
{
    let (more, behind_number) = packed_at(bytes)?;
    if !is_rising(number, more) {
        return Err(ReadFault::Broken(bytes.len()));
    }
    let (gap, behind_first) = packed_at(behind_number)?;
    if !is_rising(end, gap) {
        return Err(ReadFault::Broken(behind_number.len()));
    }
    let first = end + gap;
    let (cells, behind_cells) = packed_at(behind_first)?;
    if !is_cell_count(first, cells) {
        return Err(ReadFault::Broken(behind_first.len()));
    }
    let (len, behind_len) = byte_at(behind_cells)?;
    if !is_length(len) {
        return Err(ReadFault::Broken(behind_cells.len()));
    }
    let (name, rest) = text_at(behind_len, len as usize)?;
    if !is_graphic_name(name) {
        return Err(ReadFault::Broken(behind_len.len()));
    }
    let fields = RowFields {
        number: number + more,
        first,
        cells,
        name,
    };
    Ok((fields, rest))
}

// The row that says this. Its name stands in the part, in front of what is left behind the row.
fn row_in(part: &Rc<Vec<u8>>, fields: &RowFields<'_>, behind: &[u8]) -> Result<DocRow, AllocError>
    requires { EndsRow part.now.value.items fields.now.name.now behind.now }
    ensures { IfOk result (λ row. row ≡ row_from fields.now) }
{
    let at = part.len() - behind.len() - fields.name.len() - 1;
    Ok(DocRow {
        number: fields.number,
        first: fields.first,
        cells: fields.cells,
        name: DocName::at(part, at)?,
    })
}

// So many rows, which are all of the bytes, and whose names are in a copy of these. A row takes five bytes at least, so no false count
// takes more memory than the part.
fn rows_of(
    alloc: Global,
    count: u64,
    bytes: &[u8],
    part: &Rc<Vec<u8>>,
) -> Result<Vec<DocRow>, ReadFault>
    requires { bytes.now ≡ part.now.value.items }
    ensures { Gives (λ rows. (rows.items, [])) result (read (documents_format count) bytes.now) }
{
    let most = (bytes.len() as u64 / 5).min(count) as usize;
    let mut rows = Vec::with_capacity(alloc, most)?;
    let mut number: DocNumber = 0;
    let mut end: Loc = 0;
    let mut rest = bytes;
    for _ in 0..count {
        match row_at(number, end, rest) {
            Ok((fields, behind)) => {
                let row = row_in(part, &fields, behind)?;
                number = fields.number;
                end = fields.first + fields.cells - 1;
                rest = behind;
                rows.push(row)?;
            }
            Err(fault) => return Err(fault),
        }
    }
    if !rest.is_empty() {
        return Err(ReadFault::Broken(rest.len()));
    }
    Ok(rows)
}

// The same bytes, to be shared by the names in them.
fn shared(alloc: Global, bytes: &[u8]) -> Result<Rc<Vec<u8>>, AllocError>
    ensures { IfOk result (λ shared. shared.value.items ≡ bytes.now) }
{
    match Rc::new(alloc, Vec::from_slice(alloc, bytes)?) {
        Ok(shared) => Ok(shared),
        Err(_) => Err(AllocError),
    }
}

/// The rows of a document part that begins at a place of the disk. Their names share one copy of the part.
pub fn read_documents(
    alloc: Global,
    count: u64,
    bytes: &[u8],
    place: u64,
) -> Result<Vec<DocRow>, LevelFault>
    requires { place + length bytes.now < 2 ^ 64 }
    ensures exact { Answers (λ rows. rows.items) result (part (documents_format count) bytes.now place) }
    ensures stand { IfOk result (λ rows. AreDocuments rows.items) }
{
    let Ok(part) = shared(alloc, bytes) else {
        return Err(LevelFault::Memory);
    };
    match rows_of(alloc, count, bytes, &part) {
        Ok(rows) => Ok(rows),
        Err(ReadFault::Memory) => Err(LevelFault::Memory),
        Err(ReadFault::Broken(left)) => {
            Err(LevelFault::Damaged(place + (bytes.len() - left) as u64))
        }
    }
}
