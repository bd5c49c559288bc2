// Whether contents may be joined.
ghost use Rattle.std.specs.Prelude.{◌↔◌, ◌<◌, ◌∷◌, [], IsTrue};
ghost use Rattle.alta_content.specs.Parts.{IsPart, MayJoin};
ghost use Rattle.alta_content.specs.Rows.{IsPlaced, end_of};

use alta_content::{Content, DocRow, Span};

// Whether a row has a lower number than another, and ends before it.
fn is_before(row: &DocRow, other: &DocRow) -> bool
    requires { IsPlaced row.now }
    ensures { IsTrue result ↔ (row.now.number < other.now.number) × (end_of row.now < other.now.first) }
{
    row.number < other.number && Span::of(row).last < other.first
}

/// Whether two contents may be joined, the first before the second: all numbers and ranges of the first lie below those of the
/// second. Only the last row of the first and the first row of the second are looked at.
pub fn may_join(a: &Content, b: &Content) -> bool
    requires a { IsPart a.now }
    requires b { IsPart b.now }
    ensures { IsTrue result ↔ MayJoin (a.now ∷ b.now ∷ []) }
{
    let Some(row) = a.documents.as_slice().last() else {
        return true;
    };
    let Some(other) = b.documents.as_slice().first() else {
        return true;
    };
    is_before(row, other)
}
