// The deletion list against the levels.
ghost use Rattle.std.specs.Prelude.{◌≡◌, ◌++◌, ◌≤◌, ℕ, List, drop, length, false, IfNone, IfSome};
ghost use Rattle.alta_codec.specs.Rising.{IsRising};
ghost use Rattle.alta_content.specs.Rows.{AreDocuments, AreDocumentsBehind, Before};
ghost use Rattle.alta_content.specs.declared.document.DocRow.{DocRow};
ghost use Rattle.alta_meaning.specs.Opened.{have_ends, table_rows};
ghost use Rattle.alta_opening.specs.Rows.{are_ends};

use alta_codec::Loc;
use alta_content::DocRow;
use alta_table::OpenLevel;

// How many of the deleted ends lie before the rows or are theirs, where `from` lie before the rows; None where one of the others is
// no row's and lies before one of them. The two lists are walked side by side.
fn passed(rows: &[DocRow], deleted: &[Loc], from: usize) -> Option<usize>
    requires rising { IsRising deleted.now }
    requires within { from ≤ length deleted.now }
    requires rows { (before : Before) × AreDocumentsBehind before rows.now }
    ensures within { IfSome result (λ at. at ≤ length deleted.now) }
    ensures passed { (before : Before) → (later : List DocRow) → AreDocumentsBehind before (rows.now ++ later)
        → IfSome result (λ at. are_ends (rows.now ++ later) (drop from deleted.now)
        ≡ are_ends later (drop at deleted.now)) }
    ensures missing { (before : Before) → (later : List DocRow) → AreDocumentsBehind before (rows.now ++ later)
        → IfNone result (are_ends (rows.now ++ later) (drop from deleted.now) ≡ false) }
{
    let mut at = from;
    for row in rows {
        if at == deleted.len() {
            return Some(at);
        }
        let end = row.first + row.cells - 1;
        if deleted[at] < end {
            return None;
        }
        if deleted[at] == end {
            at += 1;
        }
    }
    Some(at)
}

/// Whether each deleted end is the end of a row of a level: one walk over both.
pub(crate) fn have_all(levels: &[OpenLevel], deleted: &[Loc]) -> bool
    requires rising { IsRising deleted.now }
    requires rows { AreDocuments (table_rows levels.now) }
    ensures { result ≡ have_ends levels.now deleted.now }
{
    let mut at = 0;
    for level in levels {
        match passed(level.documents(), deleted, at) {
            Some(further) => at = further,
            None => return false,
        }
    }
    at == deleted.len()
}
