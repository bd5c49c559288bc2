// The order of a level behind those before it.
ghost use Rattle.std.specs.Prelude.{◌≡◌, ◌<◌, length, List};
ghost use Rattle.alta_content.specs.Rows.{AreDocuments, start};
ghost use Rattle.alta_meaning.specs.Opened.{are_in_order, table_rows};
ghost use Rattle.alta_table.specs.Tables.{Tables};
ghost use Rattle.alta_opening.specs.Rows.{behind_rows, left_by, leaves_room, lies_behind};

use alta_codec::{DocNumber, Loc};
use alta_content::DocRow;
use alta_root::Root;

/// The number and the end of the last row, both 0 where there is no row.
#[derive(Clone, Copy)]
pub(crate) struct Last {
    pub(crate) number: DocNumber,
    pub(crate) end: Loc,
}

/// The last of rows, of which there is one at least.
pub(crate) fn last_of(rows: &[DocRow]) -> Last
    requires some { 0 < length rows.now }
    requires rows { AreDocuments rows.now }
    ensures { left_by result ≡ behind_rows start rows.now }
{
    let row = &rows[rows.len() - 1];
    Last {
        number: row.number,
        end: row.first + row.cells - 1,
    }
}

// Whether a row lies behind the last one.
fn follows(last: Last, row: &DocRow) -> bool
    ensures { result ≡ lies_behind (left_by last) row.now }
{
    last.number < row.number && last.end < row.first
}

// Whether the last row lies below the next number and location of the root.
fn is_below(root: &Root, last: Last) -> bool
    ensures { result ≡ leaves_room root.now (left_by last) }
{
    last.number < root.next_number && last.end < root.next_location
}

/// Whether the rows of a level are in order, behind levels whose last row this is, and below the next ones of the root. Only the
/// first and the last row are looked at, since rows rise.
pub(crate) fn are_placed(root: &Root, last: Last, rows: &[DocRow]) -> bool
    requires some { 0 < length rows.now }
    requires rows { AreDocuments rows.now }
    ensures { (levels : List Tables) → AreDocuments (table_rows levels)
        → left_by last ≡ behind_rows start (table_rows levels) → result ≡ are_in_order root.now levels rows.now }
{
    follows(last, &rows[0]) && is_below(root, last_of(rows))
}
