// A cell of a document: its terms, which rise.
// A cell is an enum of none, one or two terms, or of a number's, so that only that of a number has a vector of its own. The range terms
// of a number are all of one length, so they stand in one allocation.
ghost use Rattle.std.specs.Prelude.{◌≡◌, ◌-◌, ◌<◌, ◌∷◌, [], false, length, slice_get, take, IfSome};
ghost use Rattle.std.specs.Option.{option_copied};
ghost use Rattle.std.specs.Str.{bytes_eq};
ghost use Rattle.alta_codec.specs.Order.{Precedes};
ghost use Rattle.alta_machine.specs.Cells.{IsCell, cell_holds, cell_begins, terms_of};

use crate::terms::RangeTerm;
use alta_codec::{Bytes, Len};
use std::marker::Model;

/// What stands at one place of a document: at most two terms, or the 34 of a number. Contracts see the rising list of them.
#[derive(Drop)]
pub struct Cell {
    terms: Terms,
}

#[derive(Drop)]
enum Terms {
    Empty,
    One(Bytes),
    Two(Bytes, Bytes),
    Number(Bytes, Vec<RangeTerm>),
}

impl Model for Cell {
    ghost use Rattle.std.specs.Prelude.{List, ℕ};
    ghost use Rattle.alta_machine.specs.Cells.{IsCell, terms_of};

    ghost Value = { List (List ℕ) };

    ghost view = { λ c. terms_of c.terms };

    ghost invariant = { λ c. IsCell (terms_of c.terms) };
}

impl Default for Cell {
    ghost is_default = { λ cell. cell ≡ [] };

    /// The cell without terms.
    fn default() -> Cell {
        Cell {
            terms: Terms::Empty,
        }
    }
}

impl Len for Cell {
    ghost len_of = { length };

    fn len(&self) -> usize {
        match &self.terms {
            Terms::Empty => 0,
            Terms::One(_) => 1,
            Terms::Two(_, _) => 2,
            Terms::Number(_, ranges) => 1 + ranges.len(),
        }
    }
}

impl Cell {
    /// The cell of one term.
    pub fn one(term: Bytes) -> Cell
        ensures { result ≡ term ∷ [] }
    {
        Cell {
            terms: Terms::One(term),
        }
    }

    /// The cell of two terms.
    pub fn two(first: Bytes, second: Bytes) -> Cell
        requires { Precedes first second }
        ensures { result ≡ first ∷ second ∷ [] }
    {
        Cell {
            terms: Terms::Two(first, second),
        }
    }

    /// The cell of a number: the term of its folding, and behind it its range terms, without a copy.
    pub fn number(folding: Bytes, ranges: Vec<RangeTerm>) -> Cell
        requires { IsCell (folding ∷ ranges.items) }
        ensures { result ≡ folding ∷ ranges.items }
    {
        Cell {
            terms: Terms::Number(folding, ranges),
        }
    }

    /// The term at an index, which is none of those before it.
    pub fn get(&self, i: usize) -> Option<&[u8]>
        ensures value { option_copied result ≡ slice_get self.now i }
        ensures apart { IfSome result (λ term. cell_holds term.now (take i self.now) ≡ false) }
    {
        term_at(&self.terms, i)
    }

    /// Whether it has the term.
    pub fn holds(&self, term: &[u8]) -> bool
        ensures { result ≡ cell_holds term.now self.now }
    {
        match &self.terms {
            Terms::Empty => false,
            Terms::One(only) => only.as_slice() == term,
            Terms::Two(first, second) => first.as_slice() == term || second.as_slice() == term,
            Terms::Number(folding, ranges) => {
                folding.as_slice() == term || has_range(ranges, term)
            }
        }
    }

    /// Whether it has the term of this kind with this rest.
    pub fn holds_kind(&self, kind: u8, rest: &[u8]) -> bool
        ensures { result ≡ cell_holds (kind ∷ rest.now) self.now }
    {
        match &self.terms {
            Terms::Empty => false,
            Terms::One(only) => is_kind(only.as_slice(), kind, rest),
            Terms::Two(first, second) => {
                is_kind(first.as_slice(), kind, rest) || is_kind(second.as_slice(), kind, rest)
            }
            Terms::Number(folding, ranges) => {
                is_kind(folding.as_slice(), kind, rest) || has_range_of_kind(ranges, kind, rest)
            }
        }
    }

    /// Whether one of its terms begins so.
    pub fn begins(&self, prefix: &[u8]) -> bool
        ensures { result ≡ cell_begins prefix.now self.now }
    {
        match &self.terms {
            Terms::Empty => false,
            Terms::One(only) => only.as_slice().starts_with(prefix),
            Terms::Two(first, second) => {
                first.as_slice().starts_with(prefix) || second.as_slice().starts_with(prefix)
            }
            Terms::Number(folding, ranges) => {
                folding.as_slice().starts_with(prefix) || range_begins(ranges, prefix)
            }
        }
    }
}

/// The term at an index.
fn term_at(terms: &Terms, i: usize) -> Option<&[u8]>
    ensures { option_copied result ≡ slice_get (terms_of terms.now) i }
{
    match (i, terms) {
        (0, Terms::One(first) | Terms::Two(first, _) | Terms::Number(first, _)) => {
            Some(first.as_slice())
        }
        (1, Terms::Two(_, second)) => Some(second.as_slice()),
        (_, Terms::Number(_, ranges)) => range_at(ranges, i),
        _ => None,
    }
}

/// The range term at an index, where the first of them stands at 1.
fn range_at(ranges: &[RangeTerm], i: usize) -> Option<&[u8]>
    requires { 0 < i }
    ensures { option_copied result ≡ slice_get ranges.now (i - 1) }
{
    match ranges.get(i - 1) {
        Some(range) => Some(range.as_slice()),
        None => None,
    }
}

/// Whether the term is one of these.
fn has_range(ranges: &[RangeTerm], term: &[u8]) -> bool
    ensures { result ≡ cell_holds term.now ranges.now }
{
    ranges.iter().any(|held| held.as_slice() == term)
}

/// Whether the term of this kind with this rest is one of these.
fn has_range_of_kind(ranges: &[RangeTerm], kind: u8, rest: &[u8]) -> bool
    ensures { result ≡ cell_holds (kind ∷ rest.now) ranges.now }
{
    ranges
        .iter()
        .any(|held| is_kind(held.as_slice(), kind, rest))
}

/// Whether one of these terms begins so.
fn range_begins(ranges: &[RangeTerm], prefix: &[u8]) -> bool
    ensures { result ≡ cell_begins prefix.now ranges.now }
{
    ranges
        .iter()
        .any(|held| held.as_slice().starts_with(prefix))
}

/// Whether the term is the one of this kind with this rest.
fn is_kind(term: &[u8], kind: u8, rest: &[u8]) -> bool
    ensures { result ≡ bytes_eq term.now (kind ∷ rest.now) }
{
    match term.split_first() {
        Some((first, tail)) => *first == kind && tail == rest,
        None => false,
    }
}
