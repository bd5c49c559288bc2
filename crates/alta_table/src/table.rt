// The tables of a segment, opened.
ghost use Rattle.std.specs.Prelude.{◌≡◌, ℕ, ◌+◌, ◌-◌, ◌<◌, ◌≤◌, ◌^◌, length, take, Some, Ok, IfOk, IfSome, MatchOption, slice_get};
ghost use Rattle.alta_format.specs.Format.{AreBytes, part};
ghost use Rattle.std.specs.List.{list_any, starts_with};
ghost use Rattle.alta_table.specs.Answers.{Answers, IfDamaged, IsDamaged, IsFound};
ghost use Rattle.alta_codec.specs.Rising.{IsRising};
ghost use Rattle.alta_content.specs.Rows.{AreDocuments, ends_of};
ghost use Rattle.alta_table.specs.Documents.{documents_bytes};
ghost use Rattle.alta_table.specs.Terms.{AreTerms, data_bytes, is_end, terms_format, terms_of};
ghost use Rattle.alta_table.specs.Tables.{AreTables, IsDamage, KeepRules, Tables, read_head, tables_bytes, tables_of, term_part, total_of};
ghost use Rattle.alta_table.specs.Marks.{IsHeld, rows_in};
ghost use Rattle.alta_table.specs.Places.{name_at, name_place, row_at, stream_extent, summary_extent, tables_in};
ghost use Rattle.alta_table.specs.Search.{IsPrefixRange};
ghost use Rattle.alta_table.specs.declared.sizes.Head.{Head};

use crate::cursor::TermCursor;
use crate::documents::read_documents;
use crate::fault::LevelFault;
use crate::heading::head;
use crate::parts::Parts;
use crate::search::{find_in, prefixed_in};
use crate::sizes::Head;
use crate::terms::{HeldTerms, read_terms};
use crate::writers::put_documents;
use alta_codec::Extent;
use alta_content::{DocRow, LevelRows};
use std::alloc::{AllocError, Global};
use std::convert::AsSlice;
use std::marker::Model;
use std::rc::Rc;

/// Head, documents and terms of a segment. Contracts see the segment's place on the disk and the rows.
#[derive(Drop)]
pub struct OpenLevel {
    parts: Parts,
}

impl Model for OpenLevel {
    ghost use Rattle.alta_table.specs.Tables.{Tables};
    ghost use Rattle.alta_table.specs.Places.{AreParts, tables_in};

    ghost Value = { Tables };

    ghost view = { λ t. tables_in t.parts };

    ghost invariant = { λ t. AreParts t.parts };
}

// Whether there is the term at which documents end.
fn has_end(terms: &HeldTerms) -> bool
    requires { IsHeld terms.now 0 }
    ensures { result ≡ list_any is_end (rows_in terms.now) }
{
    find_in(terms, b"D").is_some()
}

// Rows of documents, to be shared.
fn shared(alloc: Global, rows: Vec<DocRow>) -> Result<Rc<LevelRows>, AllocError>
    requires { IsRising (ends_of rows.items) }
    ensures { IfOk result (λ shared. shared.value ≡ rows.items) }
{
    let rows = LevelRows::new(alloc, rows)?;
    match Rc::new(alloc, rows) {
        Ok(shared) => Ok(shared),
        Err(_) => Err(AllocError),
    }
}

// The terms behind the documents of tables with this head, and how many bytes no stream or summary takes of so much room.
fn terms_behind(
    alloc: Global,
    head: Head,
    room: u64,
    tables: Vec<u8>,
    place: u64,
) -> Result<(HeldTerms, u64), LevelFault>
    requires whole { length tables.items ≡ 32 + head.document_bytes + head.term_bytes }
    requires below { place + length tables.items < 2 ^ 64 }
    ensures exact { Answers (λ x. (rows_in x.0, x.1)) result
        (part (terms_format head.terms room) (term_part tables.items head) (place + 32 + head.document_bytes)) }
    ensures held { IfOk result (λ x. IsHeld x.0 x.1) }
    ensures room { IfOk result (λ x. x.0.room ≡ room) }
{
    let from = 32 + head.document_bytes as usize;
    let part = place + 32 + head.document_bytes;
    read_terms(alloc, head.terms, room, tables, from, part)
}

#[tactic(auto, unfolding(crate::specs::Tables::tables_of))]
fn opened(alloc: Global, bytes: Vec<u8>, place: u64, total: u64) -> Result<Parts, LevelFault>
    requires below { place + total < 2 ^ 64 }
    requires whole { (h : Head) → read_head bytes.items place total ≡ Ok h
        → length bytes.items ≡ 32 + h.document_bytes + h.term_bytes }
    ensures exact { Answers tables_in result (tables_of bytes.items place total) }
    ensures held { IfOk result (λ p. IsHeld p.terms 0) }
    ensures end { IfOk result (λ p. p.end ≡ place + total) }
{
    let head = head(&bytes, place, total)?;
    let (_front, tables) = bytes.split_at(32);
    let (first, _terms) = tables.split_at(head.document_bytes as usize);
    let documents = read_documents(alloc, head.documents, first, place + 32)?;
    let room = total - 32 - head.document_bytes - head.term_bytes;
    let (terms, left) = terms_behind(alloc, head, room, bytes, place)?;
    if left > 0 {
        return Err(LevelFault::Damaged(place + (total - left)));
    }
    if !has_end(&terms) {
        return Err(LevelFault::Damaged(place + 8));
    }
    let Ok(rows) = shared(alloc, documents) else {
        return Err(LevelFault::Memory);
    };
    Ok(Parts {
        place,
        end: place + total,
        documents: rows,
        terms,
    })
}

// Bytes are below 256.
fn are_bytes(bytes: &[u8])
    ensures { AreBytes bytes.now }
{}

fn table_of(alloc: Global, bytes: Vec<u8>, place: u64, total: u64) -> Result<OpenLevel, LevelFault>
    requires below { place + total < 2 ^ 64 }
    requires whole { (h : Head) → read_head bytes.items place total ≡ Ok h
        → length bytes.items ≡ 32 + h.document_bytes + h.term_bytes }
    ensures exact { Answers (λ x. x) result (tables_of bytes.items place total) }
    ensures fits { AreBytes bytes.items }
{
    are_bytes(&bytes);
    let parts = opened(alloc, bytes, place, total)?;
    Ok(OpenLevel { parts })
}

// The same of a copy.
fn copy_of(alloc: Global, bytes: &[u8], place: u64, total: u64) -> Result<OpenLevel, LevelFault>
    requires below { place + total < 2 ^ 64 }
    requires whole { (h : Head) → read_head bytes.now place total ≡ Ok h
        → length bytes.now ≡ 32 + h.document_bytes + h.term_bytes }
    ensures { Answers (λ x. x) result (tables_of bytes.now place total) }
{
    match Vec::from_slice(alloc, bytes) {
        Ok(copy) => table_of(alloc, copy, place, total),
        Err(_) => Err(LevelFault::Memory),
    }
}

// How many bytes of the document part stand in front of a row's name.
fn bytes_before(alloc: Global, rows: &[DocRow], row: usize) -> Result<usize, AllocError>
    requires row { row < length rows.now }
    requires documents { AreDocuments rows.now }
    ensures { IfOk result (λ before. before + length (name_at rows.now row)
        ≡ length (documents_bytes (take (row + 1) rows.now))) }
{
    let mut spelled = Vec::new(alloc);
    put_documents(&mut spelled, &rows[..row + 1])?;
    Ok(spelled.len() - rows[row].name.as_bytes().len())
}

impl OpenLevel {
    /// Reads head, documents and terms of a segment of `total` bytes that begins at a place of the disk. `bytes` holds
    /// exactly these, as [`head`] gives their lengths. `Damaged` has the place of the first field that breaks a rule:
    /// of the head, then of the documents, then of the terms, then the first byte behind the last stream and summary,
    /// and last the head's number of terms where the term `D` is missing. It makes one pass over the bytes, and keeps
    /// a copy of them.
    pub fn open(
        alloc: Global,
        bytes: &[u8],
        place: u64,
        total: u64,
    ) -> Result<OpenLevel, LevelFault>
        requires below { place + total < 2 ^ 64 }
        requires whole { (h : Head) → read_head bytes.now place total ≡ Ok h
            → length bytes.now ≡ 32 + h.document_bytes + h.term_bytes }
        // What is read is spelled so.
        ensures found { IfOk result (AreTables bytes.now place total) }
        ensures spelled { IfOk result (λ t. bytes.now ≡ tables_bytes t.documents t.terms) }
        // What is spelled so is read.
        ensures only { (t : Tables) → AreTables bytes.now place total t → IsFound (λ x. x) result t }
        // The damage is the first.
        ensures first { IfDamaged result (IsDamage bytes.now place total) }
        // Where there is damage, that is the answer.
        ensures broken { (p : ℕ) → IsDamage bytes.now place total p → IsDamaged result p }
        // The same in one fact.
        ensures exact { Answers (λ x. x) result (tables_of bytes.now place total) }
    {
        copy_of(alloc, bytes, place, total)
    }

    /// The same of bytes that it keeps, without a copy.
    pub fn keep(
        alloc: Global,
        bytes: Vec<u8>,
        place: u64,
        total: u64,
    ) -> Result<OpenLevel, LevelFault>
        requires below { place + total < 2 ^ 64 }
        requires whole { (h : Head) → read_head bytes.items place total ≡ Ok h
            → length bytes.items ≡ 32 + h.document_bytes + h.term_bytes }
        ensures found { IfOk result (AreTables bytes.items place total) }
        ensures exact { Answers (λ x. x) result (tables_of bytes.items place total) }
    {
        table_of(alloc, bytes, place, total)
    }

    /// The documents, in rising order of number and of location.
    pub fn documents(&self) -> &[DocRow]
        ensures rows { result.now ≡ self.now.documents }
        // They keep the rules, and so do the terms, of which one is `D`.
        ensures kept { KeepRules (total_of self.now.documents self.now.terms) self.now.documents self.now.terms }
    {
        self.parts.documents.as_slice()
    }

    /// The same documents, to be shared, with their ends in a list of their own.
    pub fn rows(&self) -> &Rc<LevelRows>
        ensures rows { result.now.value ≡ self.now.documents }
        // They keep the rules, and so do the terms, of which one is `D`.
        ensures kept { KeepRules (total_of self.now.documents self.now.terms) self.now.documents self.now.terms }
    {
        &self.parts.documents
    }

    /// The place on the disk of a document's name. It spells the rows up to this one again. Fails for want of memory alone.
    pub fn name_place(&self, alloc: Global, row: usize) -> Result<u64, AllocError>
        requires { row < length self.now.documents }
        ensures { IfOk result (λ place. place ≡ name_place self.now row) }
    {
        let before = bytes_before(alloc, self.documents(), row)?;
        Ok(self.parts.place + 32 + before as u64)
    }

    /// How many terms there are.
    pub fn terms(&self) -> usize
        ensures { result ≡ length self.now.terms }
    {
        self.parts.terms.count
    }

    /// The first term, and what its row says. There is one, since documents have ends.
    pub fn first(&self) -> TermCursor<'_>
        ensures tables { result.tables ≡ self.now }
        ensures row { result.row ≡ 0 }
    {
        TermCursor::at(&self.parts, 0)
    }

    /// The term of a row, and what its row says. It reads the rows from the last mark on, of which each sixteenth row has one.
    pub fn at(&self, row: usize) -> TermCursor<'_>
        requires { row < length self.now.terms }
        ensures tables { result.tables ≡ self.now }
        ensures row { result.row ≡ row }
    {
        TermCursor::at(&self.parts, row)
    }

    /// The row of a term, and what it says, None exactly where the term is not there. It looks by halves.
    pub fn look_up(&self, term: &[u8]) -> Option<TermCursor<'_>>
        ensures tables { IfSome result (λ c. c.tables ≡ self.now) }
        ensures row { MatchOption (row_at result) ((i : ℕ) → slice_get (terms_of self.now.terms) i ≡ Some term.now
            → ⊥) (λ i. slice_get (terms_of self.now.terms) i ≡ Some term.now) }
    {
        match find_in(&self.parts.terms, term) {
            Some((row, walk)) => Some(TermCursor::behind(&self.parts, row, walk)),
            None => None,
        }
    }

    /// The number of a term's row, None exactly where the term is not there. It looks by halves.
    pub fn find(&self, term: &[u8]) -> Option<usize>
        ensures { MatchOption result ((i : ℕ) → slice_get (terms_of self.now.terms) i ≡ Some term.now
            → ⊥) (λ i. slice_get (terms_of self.now.terms) i ≡ Some term.now) }
    {
        match self.look_up(term) {
            Some(cursor) => Some(cursor.row()),
            None => None,
        }
    }

    /// The rows of the terms that begin with a prefix: the first, and the row behind the last. The two are equal where
    /// no term begins so. It looks by halves.
    pub fn prefixed(&self, prefix: &[u8]) -> (usize, usize)
        ensures { IsPrefixRange (terms_of self.now.terms) prefix.now result.0 result.1 }
    {
        prefixed_in(&self.parts.terms, prefix)
    }

    /// Where stream and summary of a row's term stand on the disk.
    pub fn stream_place(&self, row: usize) -> (Extent, Extent)
        requires { row < length self.now.terms }
        ensures stream { result.0 ≡ stream_extent self.now row }
        ensures summary { result.1 ≡ summary_extent self.now row }
        // They end within the segment, the summary behind the stream.
        ensures beside { result.1.place ≡ result.0.place + result.0.bytes }
        ensures within { result.1.place + result.1.bytes ≤ self.now.place + total_of self.now.documents self.now.terms }
    {
        self.at(row).stream_place()
    }
}
