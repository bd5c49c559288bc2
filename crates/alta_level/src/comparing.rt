// The locations of a list beside the rows of a summary.
ghost use Rattle.std.specs.Prelude.{◌≡◌, ◌↔◌, ℕ, ◌<◌, List, None, length, IfErr, IfOk, IfSome, IsTrue};
ghost use Rattle.alta_postings.specs.Deltas.{HasPlaces, Spells, decoded_list};
ghost use Rattle.alta_words.specs.Fault.{Agrees, HasRow, IsPostingFault};
ghost use Rattle.alta_words.specs.Word.{IsPosting};
ghost use Rattle.alta_level.specs.Coded.{IsCoded};
ghost use Rattle.alta_level.specs.Decoded.{AreRowsOf, IsFirstOther};

use alta_codec::Loc;
use alta_postings::Summary;
use alta_words::PostingFault;

// Whether a row has these values.
fn has_row(table: &Summary<'_>, i: usize, first: Loc, last: Loc, place: u64) -> bool
    requires { i < table.now.count }
    ensures { IsTrue result ↔ HasRow table.now.bytes i first last place }
{
    let row = table.row(i);
    row.first == first && row.last == last && row.place == place
}

// Whether a number is that of a row and of a block that are the same, or of neither.
fn agrees(table: &Summary<'_>, locations: &[Loc], places: &[u64], i: usize) -> bool
    requires { HasPlaces locations.now (length locations.now) places.now }
    ensures { IsTrue result ↔ Agrees locations.now table.now.bytes table.now.count i }
{
    if i >= table.rows() {
        return i >= places.len();
    }
    if i >= places.len() {
        return false;
    }
    let last = (64 * i + 63).min(locations.len() - 1);
    has_row(table, i, locations[64 * i], locations[last], places[i])
}

// The first number of which the row is not the block, or one of the two is missing.
fn first_other(table: &Summary<'_>, locations: &[Loc], places: &[u64]) -> Option<usize>
    requires { HasPlaces locations.now (length locations.now) places.now }
    ensures same { result ≡ None → AreRowsOf locations.now table.now.bytes table.now.count }
    ensures other { IfSome result (IsFirstOther locations.now table.now.bytes table.now.count) }
{
    if table.rows() == 0 && places.len() < 2 {
        return None;
    }
    let count = table.rows().max(places.len());
    for i in 0..count {
        if !agrees(table, locations, places, i) {
            return Some(i);
        }
    }
    None
}

/// Whether the summary belongs to the locations, whose blocks begin at these places of their stream. A fault is the
/// summary's own, else the first row that is not the block of its number or is missing. The stream is not read.
pub fn compare(summary: &[u8], locations: &[Loc], places: &[u64]) -> Result<(), PostingFault>
    requires { HasPlaces locations.now (length locations.now) places.now }
    ensures coded { IfOk result (λ x. (stream : List ℕ) → Spells stream locations.now
        → IsCoded stream summary.now (decoded_list stream)) }
    ensures posting { IfOk result (λ x. (stream : List ℕ) → Spells stream locations.now
        → (b : ℕ) × IsPosting stream summary.now b) }
    ensures fault { IfErr result (λ fault. (stream : List ℕ) → Spells stream locations.now
        → IsPostingFault stream summary.now fault) }
{
    match Summary::open(summary) {
        Ok(table) => match first_other(&table, locations, places) {
            None => Ok(()),
            Some(row) => Err(PostingFault::Differ(row)),
        },
        Err(wrong) => Err(PostingFault::Summary(wrong.place)),
    }
}
