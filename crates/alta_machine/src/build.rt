// The cells of a document.
ghost use Rattle.std.specs.Prelude.{◌≡◌, ◌↔◌, ◌∷◌, [], ◌++◌, map, slice_index, IfOk, OnOk, Err};
ghost use Rattle.alta_codec.specs.Name.{IsName};
ghost use Rattle.alta_machine.specs.Cells.{cells_of, word_cell};
ghost use Rattle.alta_machine.specs.Terms.{range_terms};
ghost use Rattle.alta_text.specs.Words.{folded_of, words_of};

use crate::cell::Cell;
use crate::kinds::{
    CELL_LIMIT, DOCUMENT_END, NAME, START, TITLE_END, WORD, WORD_LIMIT, WRITTEN, term,
};
use crate::terms::RangeTerm;
use crate::{LEVELS, number};
use alta_codec::{Bytes, name_ok};
use alta_text::put_folded;
use std::alloc::{AllocError, Global};
use unicode_segmentation::UnicodeSegmentation;

/// Why a document has no cells.
#[derive(Clone, Copy, Debug, PartialEq, Eq)]
pub enum MetaFault {
    /// The name isn't one by [`name_ok`].
    BadName,
    /// Memory was wanting.
    Memory,
}

impl From<AllocError> for MetaFault {
    ghost use Rattle.alta_machine.specs.declared.build.MetaFault.TheVariants.{Memory};

    ghost from_gives = { λ _ fault. fault ≡ Memory };

    fn from(_: AllocError) -> MetaFault {
        MetaFault::Memory
    }
}

/// The cells of a document with this name, title and body: those of the name, of each word of the title, of the
/// title's end, of each word of the body, and of the document's end.
pub fn cells(alloc: Global, name: &str, title: &str, body: &str) -> Result<Vec<Cell>, MetaFault>
    ensures value { IfOk result (λ all. all.items ≡ cells_of name.now title.now body.now) }
    ensures bad_name { (result ≡ Err MetaFault.BadName) ↔ ¬ (IsName name.now) }
{
    if !name_ok(name.as_bytes()) {
        return Err(MetaFault::BadName);
    }
    Ok(document_cells(alloc, name, title, body)?)
}

fn document_cells(
    alloc: Global,
    name: &str,
    title: &str,
    body: &str,
) -> Result<Vec<Cell>, AllocError>
    ensures { IfOk result (λ all. all.items ≡ cells_of name.now title.now body.now) }
{
    let mut all = Vec::new(alloc);
    let first = Cell::two(
        term(alloc, NAME, name.as_bytes())?,
        term(alloc, START, b"")?,
    );
    all.push(first)?;
    put_words(alloc, &mut all, title)?;
    let title_end = Cell::one(term(alloc, TITLE_END, b"")?);
    all.push(title_end)?;
    put_words(alloc, &mut all, body)?;
    let document_end = Cell::one(term(alloc, DOCUMENT_END, b"")?);
    all.push(document_end)?;
    Ok(all)
}

/// The term of a word's folding.
fn folded_term(alloc: Global, written: &str) -> Result<Bytes, AllocError>
    ensures { IfOk result (λ term. term ≡ WORD ∷ folded_of written.now) }
{
    let mut bytes = Vec::with_capacity(alloc, 1 + written.len())?;
    bytes.push(WORD)?;
    put_folded(&mut bytes, written)?;
    Ok(Bytes::from_vec(bytes))
}

/// Adds a cell for each word of the text.
fn put_words(alloc: Global, all: &mut Vec<Cell>, text: &str) -> Result<(), AllocError>
    ensures { OnOk result (all.new.items ≡ all.old.items ++ map word_cell (words_of text.now)) }
{
    for written in text.unicode_words() {
        let cell = cell_of(alloc, written)?;
        all.push(cell)?;
    }
    Ok(())
}

/// The cell of a word.
fn cell_of(alloc: Global, written: &str) -> Result<Cell, AllocError>
    ensures { IfOk result (λ cell. cell ≡ word_cell (written.now, folded_of written.now)) }
{
    if written.len() > WORD_LIMIT {
        return Ok(Cell::default());
    }
    let folding = folded_term(alloc, written)?;
    let Some((_, folded)) = folding.as_slice().split_first() else {
        return Ok(Cell::default());
    };
    if folded.len() > WORD_LIMIT {
        return Ok(Cell::default());
    }
    if written.as_bytes() == folded {
        return match number(written) {
            Some(value) => number_cell(alloc, folding, value),
            None => Ok(Cell::one(folding)),
        };
    }
    let spelling = term(alloc, WRITTEN, written.as_bytes())?;
    Ok(Cell::two(folding, spelling))
}

/// The cell of a number: the term of its folding, and behind it the number's range terms.
fn number_cell(alloc: Global, folding: Bytes, value: u32) -> Result<Cell, AllocError>
    requires { slice_index folding 0 ≡ 87 }
    ensures { IfOk result (λ cell. cell ≡ folding ∷ range_terms value) }
{
    let mut ranges = Vec::with_capacity(alloc, CELL_LIMIT - 1)?;
    put_ranges(&mut ranges, value)?;
    Ok(Cell::number(folding, ranges))
}

/// Adds the range terms of a number, those of the lowest level first.
fn put_ranges(ranges: &mut Vec<RangeTerm>, value: u32) -> Result<(), AllocError>
    ensures { OnOk result (ranges.new.items ≡ ranges.old.items ++ range_terms value) }
{
    for level in 0..LEVELS + 1 {
        ranges.push(crate::term(value, level))?;
    }
    Ok(())
}
