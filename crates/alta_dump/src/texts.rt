// The words of cells, as walks over the lists saw them, and the texts that they make.
ghost use Rattle.std.specs.Prelude.{◌≡◌, ◌∷◌, ◌++◌, [], true, false, get_or, if◌then◌else◌, MatchOption, IfOk, OnOk, string_bytes};
ghost use Rattle.std.specs.List.{list_all};
ghost use Rattle.std.specs.Str.{is_utf8};
ghost use Rattle.alta_machine.specs.Plain.{rest_of};
ghost use Rattle.alta_dump.specs.Seen.{is_word, terms_of, text_seen, word_at};

use alta_gather::{Held, PackedHeld};
use alta_search::TermLists;
use std::alloc::{AllocError, Global};
use std::str::from_utf8;

/// A word that is too long for a cell, which stands for the word of a cell that has none.
const TOO_LONG: &str =
    "xxxxxxxxxxxxxxxxxxxxxxxxxxxxxxxxxxxxxxxxxxxxxxxxxxxxxxxxxxxxxxxxxxxxxxxxxxxxxxxxxxxxxxxxxxxxxxxxxxxxxxxxxxxxxxxxxxxxxxxxxxxxxxxxx";

/// Whether each cell has one folded word at most, and that is text.
pub(crate) fn are_words(terms: &[TermLists], words: &[PackedHeld]) -> bool
    ensures { result ≡ list_all (is_word (terms_of terms.now)) words.now }
{
    words.iter().all(|held| is_fine(terms, *held))
}

// Whether the cell has.
fn is_fine(terms: &[TermLists], held: PackedHeld) -> bool
    ensures { result ≡ is_word (terms_of terms.now) held }
{
    match word(terms, held) {
        Some(_) => true,
        None => false,
    }
}

/// The words of cells, with a space between each two.
pub(crate) fn text(
    alloc: Global,
    terms: &[TermLists],
    words: &[PackedHeld],
) -> Result<String, AllocError>
    ensures { IfOk result (λ text. list_all (is_word (terms_of terms.now)) words.now ≡ true
        → string_bytes text ≡ text_seen (terms_of terms.now) words.now) }
{
    let mut text = String::new(alloc);
    for (i, held) in words.iter().enumerate() {
        put_word(&mut text, i == 0, terms, *held)?;
    }
    Ok(text)
}

// Appends the word of a cell, behind a space unless it is the first.
fn put_word(
    text: &mut String,
    first: bool,
    terms: &[TermLists],
    held: PackedHeld,
) -> Result<(), AllocError>
    ensures { OnOk result (is_word (terms_of terms.now) held ≡ true
        → string_bytes text.new ≡ string_bytes text.old
        ++ (if first then word_at (terms_of terms.now) held else 32 ∷ word_at (terms_of terms.now) held)) }
{
    match word(terms, held) {
        Some(word) => put_spaced(text, first, word),
        None => Ok(()),
    }
}

// Appends a word, behind a space unless it is the first.
fn put_spaced(text: &mut String, first: bool, word: &str) -> Result<(), AllocError>
    ensures { OnOk result (string_bytes text.new ≡ string_bytes text.old
        ++ (if first then word.now else 32 ∷ word.now)) }
{
    if first {
        return text.push_str(word);
    }
    text.push(' ')?;
    text.push_str(word)
}

// The word of a cell, if it is one at most, and text.
fn word(terms: &[TermLists], held: PackedHeld) -> Option<&str>
    ensures { MatchOption result (is_word (terms_of terms.now) held ≡ false)
        (λ word. (is_word (terms_of terms.now) held ≡ true) × (word.now ≡ word_at (terms_of terms.now) held)) }
{
    match held.unpack() {
        Held::Never => Some(TOO_LONG),
        Held::Once(index) => text_of(rest_at(terms, index as usize)),
        Held::Often => None,
    }
}

// The bytes, if they are text.
fn text_of(bytes: &[u8]) -> Option<&str>
    ensures { MatchOption result (is_utf8 bytes.now ≡ false) (λ text. (is_utf8 bytes.now ≡ true)
        × (text.now ≡ bytes.now)) }
{
    match from_utf8(bytes) {
        Ok(text) => Some(text),
        Err(_) => None,
    }
}

// What follows the kind of the term with this index.
fn rest_at(terms: &[TermLists], index: usize) -> &[u8]
    ensures { result.now ≡ rest_of (get_or (terms_of terms.now) index []) }
{
    match term_at(terms, index).split_first() {
        Some((_, rest)) => rest,
        None => &[],
    }
}

/// The bytes of the term with this index; past the last term there are none.
pub(crate) fn term_at(terms: &[TermLists], index: usize) -> &[u8]
    ensures { result.now ≡ get_or (terms_of terms.now) index [] }
{
    match terms.get(index) {
        Some(term) => term.term.as_slice(),
        None => &[],
    }
}
