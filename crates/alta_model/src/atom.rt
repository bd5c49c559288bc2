// Whether cells match an atom.
ghost use Rattle.std.specs.Prelude.{◌≡◌, ◌↔◌, ◌∷◌, [], ◌≤◌, length, map, take, All, IsTrue};
ghost use Rattle.alta_model.specs.Near.{IsLast};
ghost use Rattle.alta_model.specs.Phrase.{has_phrase};
ghost use Rattle.alta_machine.specs.Patterns.{AtomMatches, Satisfies, SatisfiesOne, in_title, phrase_pattern, range_pattern, title_end, titled, value_patterns};
ghost use Rattle.alta_query.specs.View.{atom_view};
ghost use Rattle.alta_machine.specs.Words.{name_test};
ghost use Rattle.alta_machine.specs.declared.test.Test.TheVariants.{Is};
ghost use Rattle.alta_machine.specs.Covers.{IsRange};

use crate::near::{holds_near, later};
use crate::phrase::has_phrase;
use alta_machine::kinds::{NAME, TITLE_END};
use alta_machine::{Cell, Range, Test, cover, range_term};
use alta_query::Atom;
use std::slice::from_ref;

/// Whether some cells answer the pattern of the atom, or one of the patterns of a value.
pub fn atom_matches(atom: &Atom, cells: &[Cell]) -> bool
    ensures { IsTrue result ↔ AtomMatches cells.now (atom_view atom.now) }
{
    match atom {
        Atom::Words { title, tests, .. } => holds_words(*title, tests.as_slice(), cells),
        Atom::Prefix { title, test, .. } => holds_words(*title, from_ref(test), cells),
        Atom::Near {
            left,
            distance,
            right,
        } => holds_near(left.test(), *distance, right.test(), cells),
        Atom::Name { name } => holds_name(name.as_str(), cells),
        Atom::Value { low, high } => holds_value(*low, *high, cells),
    }
}

// Whether the cells have a number from one to another.
fn holds_value(low: u32, high: u32, cells: &[Cell]) -> bool
    ensures { IsTrue result ↔ SatisfiesOne cells.now (value_patterns low high) }
{
    holds_one(cover(low, high).as_slice(), cells)
}

// Whether the cells have a number of one of the ranges.
fn holds_one(ranges: &[Range], cells: &[Cell]) -> bool
    requires { All IsRange ranges.now }
    ensures { IsTrue result ↔ SatisfiesOne cells.now (map range_pattern ranges.now) }
{
    for range in ranges {
        if holds_range(*range, cells) {
            return true;
        }
    }
    false
}

// Whether the cells have a number of the range.
fn holds_range(range: Range, cells: &[Cell]) -> bool
    requires { IsRange range }
    ensures { IsTrue result ↔ Satisfies cells.now (range_pattern range) }
{
    has_term(&range_term(range), cells)
}

fn has_term(term: &[u8], cells: &[Cell]) -> bool
    ensures { result ≡ has_phrase (Is term.now ∷ []) cells.now }
{
    for cell in cells {
        if cell.holds(term) {
            return true;
        }
    }
    false
}

// Whether the cells have the words, in the title where that is asked for.
fn holds_words(title: bool, tests: &[Test], cells: &[Cell]) -> bool
    ensures { IsTrue result ↔ Satisfies cells.now (titled title (phrase_pattern tests.now)) }
{
    if title {
        holds_title_phrase(tests, cells)
    } else {
        holds_phrase(tests, cells)
    }
}

// Whether the document has the name.
fn holds_name(name: &str, cells: &[Cell]) -> bool
    ensures { IsTrue result ↔ Satisfies cells.now (phrase_pattern (name_test name.now ∷ [])) }
{
    has_name(name, cells)
}

fn has_name(name: &str, cells: &[Cell]) -> bool
    ensures { result ≡ has_phrase (name_test name.now ∷ []) cells.now }
{
    for cell in cells {
        if cell.holds_kind(NAME, name.as_bytes()) {
            return true;
        }
    }
    false
}

// Whether the cells have the phrase.
fn holds_phrase(tests: &[Test], cells: &[Cell]) -> bool
    ensures { IsTrue result ↔ Satisfies cells.now (phrase_pattern tests.now) }
{
    has_phrase(tests, cells)
}

// Whether the title has the phrase: whether it stands before the last cell where a title ends.
fn holds_title_phrase(tests: &[Test], cells: &[Cell]) -> bool
    ensures { IsTrue result ↔ Satisfies cells.now (in_title (phrase_pattern tests.now)) }
{
    match title_place(cells) {
        None => false,
        Some(end) => has_phrase(tests, before(cells, end)),
    }
}

// The last place where a title ends.
fn title_place(cells: &[Cell]) -> Option<usize>
    ensures { IsLast cells.now title_end (length cells.now) result }
{
    let mut last = None;
    let mut i = 0;
    while i < cells.len() {
        last = later(last, i, cells[i].holds_kind(TITLE_END, b"".as_slice()));
        i += 1;
    }
    last
}

// The cells before a place.
fn before(cells: &[Cell], end: usize) -> &[Cell]
    requires { end ≤ length cells.now }
    ensures { result.now ≡ take end cells.now }
{
    &cells[..end]
}
