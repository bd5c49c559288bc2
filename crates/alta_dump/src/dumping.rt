// The dump of the documents of a snapshot.
ghost use Rattle.std.specs.Prelude.{◌≡◌, ◌≢◌, ℕ, ◌+◌, ◌<◌, ◌≤◌, ◌++◌, [], false, cond, nat_eq, List, map, codes, decimal, length, slice_index, is_some, All, IfOk, OnOk, string_bytes};
ghost use Rattle.std.specs.List.{starts_with};
ghost use Rattle.alta_codec.specs.Name.{IsName};
ghost use Rattle.alta_codec.specs.Rising.{IsRising};
ghost use Rattle.alta_content.specs.Rows.{ends_of};
ghost use Rattle.alta_machine.specs.Dumps.{count_lines, dump_of, dumped, line_or_skipped, lines_for};
ghost use Rattle.alta_machine.specs.DumpLines.{line_of};
ghost use Rattle.alta_dump.specs.Seen.{AreSeen, IsRowSeen, terms_of};
ghost use Rattle.alta_dump.specs.Shown.{dump_tests, places_of, row_in};
ghost use Rattle.alta_gather.specs.declared.held.Held.{Held};
ghost use Rattle.alta_memlevel.specs.Added.{Added};
ghost use Rattle.alta_memlevel.specs.Documents.{document_in};
ghost use Rattle.alta_machine.specs.declared.document.Document.{Document};
ghost use Rattle.alta_machine.specs.declared.document.State.{State};
ghost use Rattle.alta_search.specs.Plans.{lists, locations};
ghost use Rattle.alta_search.specs.Shown.{ShowsDocuments};
ghost use Rattle.alta_search.specs.Told.{rows_at};

use crate::gathering::{gather, some_from};
use crate::live::{live, places, row_at};
use crate::rebuilding::line;
use alta_codec::{Steps, Text};
use alta_content::{AllRows, DocRow};
use alta_gather::PackedHeld;
use alta_search::{Snapshot, TermLists};
use std::alloc::{AllocError, Global};
use std::sync::ledger::Ledger;

/// The dump of the documents that the snapshot shows: for each of them, in order, the line that adds its folded words again, or that it
/// is skipped; and then how many lines there are. The snapshot is that of [`crate::dump_order`]. Each list is walked over once, with at
/// most as many steps as the lists are and have locations. Fails for want of memory alone.
///
/// The text is as long as the folded words of all documents. Beside it the walks keep 8 bytes for each cell of a live document, and 32
/// for each of these documents, with room to grow in. A test with 2^32 - 1 terms or more counts as a want of memory.
pub fn dump<L: Ledger>(
    alloc: Global,
    snapshot: &Snapshot,
    steps: &mut Steps<L>,
) -> Result<Text, AllocError>
    requires tests { snapshot.now.tests ≡ dump_tests }
    ensures text { IfOk result (λ text. (s : State) → ShowsDocuments snapshot.now s.documents → text ≡ dump_of s) }
    // It is no refusal.
    ensures other { IfOk result (λ text. starts_with nat_eq text (codes "! ") ≡ false) }
    ensures steps { steps.new ≤ steps.old + (lists snapshot.now.cuts + locations snapshot.now.cuts) }
{
    let rows = snapshot.rows();
    let title_terms = snapshot.terms(1);
    let word_terms = snapshot.terms(2);
    let live = live(alloc, snapshot, steps)?;
    let places = places(alloc, rows, &live)?;
    let titles = gather(alloc, &places, title_terms, steps)?;
    let words = gather(alloc, &places, word_terms, steps)?;
    let text = written(alloc, rows, &live, word_terms, &words, &titles)?;
    Ok(Text::from_string(text))
}

// The lines of the live rows, and how many of them add a document.
fn written(
    alloc: Global,
    rows: &AllRows,
    live: &[usize],
    terms: &[TermLists],
    words: &[PackedHeld],
    titles: &[PackedHeld],
) -> Result<String, AllocError>
    requires rising { IsRising (ends_of rows.now) }
    requires live { All (λ i. i < length rows.now) live.now }
    requires titles { length titles.now ≡ length words.now }
    ensures text { IfOk result (λ text. (documents : List Added) (f g : ℕ → Held)
        → rows_at rows.now live.now ≡ map row_in documents
        → words.now ≡ map f (places_of (rows_at rows.now live.now))
        → titles.now ≡ map g (places_of (rows_at rows.now live.now))
        → All (IsRowSeen (terms_of terms.now) f g) documents → string_bytes text ≡ dumped (map document_in documents)) }
    ensures other { IfOk result (λ text. starts_with nat_eq (string_bytes text) (codes "! ") ≡ false) }
{
    let mut text = String::new(alloc);
    let count = put_documents(&mut text, alloc, rows, live, terms, words, titles)?;
    put_count(&mut text, count)?;
    Ok(text)
}

// Writes how many lines there are.
fn put_count(text: &mut String, count: u64) -> Result<(), AllocError>
    ensures { OnOk result (string_bytes text.new ≡ string_bytes text.old ++ codes "dumped "
        ++ decimal count ++ codes "\n") }
{
    write!(text, "dumped {count}\n")
}

// Writes the lines of the live rows, and answers how many of them add a document.
fn put_documents(
    text: &mut String,
    alloc: Global,
    rows: &AllRows,
    live: &[usize],
    terms: &[TermLists],
    words: &[PackedHeld],
    titles: &[PackedHeld],
) -> Result<u64, AllocError>
    requires empty { string_bytes text.old ≡ [] }
    requires rising { IsRising (ends_of rows.now) }
    requires live { All (λ i. i < length rows.now) live.now }
    requires titles { length titles.now ≡ length words.now }
    ensures lines { IfOk result (λ count. (documents : List Added) (f g : ℕ → Held)
        → rows_at rows.now live.now ≡ map row_in documents
        → words.now ≡ map f (places_of (rows_at rows.now live.now))
        → titles.now ≡ map g (places_of (rows_at rows.now live.now))
        → All (IsRowSeen (terms_of terms.now) f g) documents
        → (string_bytes text.new ≡ lines_for (map document_in documents))
        × (count ≡ count_lines (map document_in documents))) }
    ensures other { OnOk result (slice_index (string_bytes text.new) 0 ≢ 33) }
{
    let mut from = 0;
    let mut count = 0;
    'live: for i in 0..live.len() {
        let row = row_at(rows, live, i);
        let own = some_from(words, from, row.cells);
        let ends = some_from(titles, from, row.cells);
        let lines = put_document(text, alloc, row, terms, own, ends)?;
        count += lines;
        from += own.len();
    }
    Ok(count)
}

// Writes the line of a document, or that it is skipped, and answers how many lines add it: one, or none.
fn put_document(
    text: &mut String,
    alloc: Global,
    row: &DocRow,
    terms: &[TermLists],
    words: &[PackedHeld],
    titles: &[PackedHeld],
) -> Result<u64, AllocError>
    requires { length titles.now ≡ length words.now }
    ensures line { IfOk result (λ count. (d : Document) → d.number ≡ row.now.number → d.name ≡ row.now.name
        → IsName d.name → AreSeen (terms_of terms.now) words.now titles.now d.cells
        → (string_bytes text.new ≡ string_bytes text.old ++ line_or_skipped d (line_of d))
        × (count ≡ cond (is_some (line_of d)) 1 0)) }
    ensures most { IfOk result (λ count. count ≤ 1) }
    ensures other { OnOk result (slice_index (string_bytes text.old) 0 ≢ 33
        → slice_index (string_bytes text.new) 0 ≢ 33) }
{
    let name = row.name.as_str();
    let found = line(alloc, terms, name, words, titles)?;
    match found {
        Some(line) => {
            put_line(text, line)?;
            Ok(1)
        }
        None => {
            put_skipped(text, row.number, name)?;
            Ok(0)
        }
    }
}

// Writes a line.
fn put_line(text: &mut String, line: String) -> Result<(), AllocError>
    ensures { OnOk result (string_bytes text.new ≡ string_bytes text.old ++ string_bytes line ++ codes "\n") }
{
    text.push_str(&line)?;
    text.push('\n')
}

// Writes that the document is skipped.
fn put_skipped(text: &mut String, number: u64, name: &str) -> Result<(), AllocError>
    ensures { OnOk result (string_bytes text.new ≡ string_bytes text.old ++ codes "skipped " ++ decimal number
        ++ codes " " ++ name.now ++ codes "\n") }
{
    write!(text, "skipped {number} {name}\n")
}
