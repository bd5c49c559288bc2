// Whether the cells that a line makes are those that walks over the lists saw.
ghost use Rattle.std.specs.Prelude.{◌≡◌, ℕ, ◌+◌, ◌<◌, List, true, nat_eq, length, All, IfOk};
ghost use Rattle.std.specs.List.{list_all};
ghost use Rattle.alta_codec.specs.Name.{IsName};
ghost use Rattle.alta_machine.specs.DumpLines as lines;
ghost use Rattle.alta_machine.specs.Plain.{ends_document, ends_title, of_kind};
ghost use Rattle.alta_dump.specs.Seen.{AreFoldings, AreSeen, HasFewFoldings, is_held, is_word, terms_of};
ghost use Rattle.alta_machine.specs.Cells.{cells_of};
ghost use Rattle.alta_machine.specs.declared.kinds.TheConstants.{WORD as word_kind};

use crate::texts::term_at;
use alta_gather::{Held, PackedHeld};
use alta_machine::kinds::{DOCUMENT_END, TITLE_END, WORD};
use alta_machine::{Cell, MetaFault, cells};
use alta_search::TermLists;
use std::alloc::{AllocError, Global};

/// Whether a list has the place.
pub(crate) fn is_place(held: PackedHeld) -> bool
    ensures { result ≡ is_held held }
{
    match held.unpack() {
        Held::Never => false,
        Held::Once(_) => true,
        Held::Often => true,
    }
}

/// Whether the cells of a document with this name, title and body are those that were seen.
pub(crate) fn comes_again(
    alloc: Global,
    terms: &[TermLists],
    name: &str,
    title: &str,
    body: &str,
    words: &[PackedHeld],
    titles: &[PackedHeld],
) -> Result<bool, AllocError>
    requires titles { length titles.now ≡ length words.now }
    ensures { IfOk result (λ b. (seen : List (List (List ℕ))) → IsName name.now
        → list_all (is_word (terms_of terms.now)) words.now ≡ true
        → AreSeen (terms_of terms.now) words.now titles.now seen
        → b ≡ lines.are_alike (cells_of name.now title.now body.now) seen) }
{
    match cells(alloc, name, title, body) {
        Ok(again) => Ok(are_alike(&again, terms, words, titles)),
        Err(MetaFault::BadName) => Ok(false),
        Err(MetaFault::Memory) => Err(AllocError),
    }
}

// Whether the cells are those that were seen.
fn are_alike(
    again: &[Cell],
    terms: &[TermLists],
    words: &[PackedHeld],
    titles: &[PackedHeld],
) -> bool
    requires few { All HasFewFoldings again.now }
    requires titles { length titles.now ≡ length words.now }
    ensures { (seen : List (List (List ℕ))) → list_all (is_word (terms_of terms.now)) words.now ≡ true
        → AreSeen (terms_of terms.now) words.now titles.now seen
        → result ≡ lines.are_alike again.now seen }
{
    if again.len() != words.len() {
        return false;
    }
    'cells: for i in 0..again.len() {
        let last = is_last(again.len(), i);
        if !is_alike(&again[i], terms, words[i], titles[i], last) {
            return false;
        }
    }
    true
}

// Whether this is the last of so many.
fn is_last(count: usize, index: usize) -> bool
    requires { index < count }
    ensures { result ≡ nat_eq (index + 1) count }
{
    index + 1 == count
}

// Whether the cell is one that was seen so; a document ends at its last cell.
fn is_alike(
    cell: &Cell,
    terms: &[TermLists],
    word: PackedHeld,
    title: PackedHeld,
    last: bool,
) -> bool
    requires { HasFewFoldings cell.now }
    ensures { (seen : List (List ℕ)) → AreFoldings (terms_of terms.now) word (of_kind word_kind seen)
        → is_held title ≡ ends_title seen → last ≡ ends_document seen
        → result ≡ lines.is_alike cell.now seen }
{
    has_foldings(cell, terms, word)
        && cell.holds(&[TITLE_END]) == is_place(title)
        && cell.holds(&[DOCUMENT_END]) == last
}

// Whether the cell, which has one folded word at most, has those that were seen.
fn has_foldings(cell: &Cell, terms: &[TermLists], word: PackedHeld) -> bool
    requires { HasFewFoldings cell.now }
    ensures { (seen : List (List ℕ)) → AreFoldings (terms_of terms.now) word (of_kind word_kind seen)
        → result ≡ lines.are_same (of_kind word_kind cell.now) (of_kind word_kind seen) }
{
    match word.unpack() {
        Held::Never => !cell.begins(&[WORD]),
        Held::Once(index) => cell.holds(term_at(terms, index as usize)),
        Held::Often => false,
    }
}
