// The row of a document, by its number.
ghost use Rattle.std.specs.Prelude.{◌≡◌, ◌+◌, ◌-◌, ◌<◌, ◌≤◌, ◌++◌, ℕ, Contains, length, get_or, IfSome, IfNone};
ghost use Rattle.std.specs.List.{All};
ghost use Rattle.alta_codec.specs.declared.location.TheConstants.{TOP};
ghost use Rattle.alta_content.specs.Rows.{AreDocuments, end_of as end_in};
ghost use Rattle.alta_content.specs.declared.document.DocRow.{DocRow};
ghost use Rattle.alta_meaning.specs.Opened.{table_rows};
ghost use Rattle.alta_catalog.specs.Finding.{AreOther, FollowOn};

use alta_codec::Loc;
use alta_content::DocRow;
use alta_memlevel::MemLevel;
use alta_table::OpenLevel;

/// The location of the last cell of a row.
pub(crate) fn end_of(row: &DocRow) -> Loc
    requires some { 1 ≤ row.now.cells }
    requires below { end_in row.now < TOP }
    ensures { result ≡ end_in row.now }
{
    row.first + (row.cells - 1)
}

/// The row with this number, of the levels or in memory, where the numbers follow on one another from the first on.
pub(crate) fn find<'a>(
    levels: &'a [OpenLevel],
    memory: &'a MemLevel,
    first: u64,
    number: u64,
) -> Option<&'a DocRow>
    ensures some { FollowOn first memory.now.content.documents
        → IfSome result (λ row. Contains (table_rows levels.now ++ memory.now.content.documents) row.now
        × (row.now.number ≡ number)) }
    ensures none { FollowOn first memory.now.content.documents
        → IfNone result (AreOther number (table_rows levels.now ++ memory.now.content.documents)) }
{
    match index_of(first, number, memory.len()) {
        Some(index) => Some(memory.row(index)),
        None => level_row(levels, number),
    }
}

// Where the row of a number stands, among so many whose numbers follow on one another from the first on.
fn index_of(first: u64, number: u64, rows: usize) -> Option<usize>
    ensures some { IfSome result (λ index. (index < rows) × (first + index ≡ number)) }
    ensures none { IfNone result (first ≤ number → number < first + rows → ⊥) }
{
    let index = number.checked_sub(first)?;
    if index < rows as u64 {
        Some(index as usize)
    } else {
        None
    }
}

// The row with this number, of the first level that has one.
fn level_row(levels: &[OpenLevel], number: u64) -> Option<&DocRow>
    ensures some { IfSome result (λ row. Contains (table_rows levels.now) row.now × (row.now.number ≡ number)) }
    ensures none { IfNone result (AreOther number (table_rows levels.now)) }
{
    for level in levels {
        match row_in(level.documents(), number) {
            Some(row) => return Some(row),
            None => {}
        }
    }
    None
}

// The row with this number, found by halves.
fn row_in(rows: &[DocRow], number: u64) -> Option<&DocRow>
    requires { AreDocuments rows.now }
    ensures some { IfSome result (λ row. Contains rows.now row.now × (row.now.number ≡ number)) }
    ensures none { IfNone result (AreOther number rows.now) }
{
    match rows.binary_search_by(|row| row.number.cmp(&number)) {
        Ok(index) => Some(&rows[index]),
        Err(_place) => None,
    }
}
