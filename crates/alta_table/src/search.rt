// Looking for terms: by halves among the marks, and then row by row.
ghost use Rattle.std.specs.Prelude.{◌≡◌, ◌⊎◌, ◌+◌, ◌*◌, ◌<◌, ◌≤◌, ℕ, Some, IfSome, MatchOption, length, slice_get, slice_index_or, true, false};
ghost use Rattle.std.specs.List.Sorted.{IsPartitionPoint};
ghost use Rattle.alta_table.specs.Marks.{IsHeld, StandsBefore, head_of, rows_in};
ghost use Rattle.alta_table.specs.Places.{HasPassed};
ghost use Rattle.alta_table.specs.Terms.{terms_of};
ghost use Rattle.alta_table.specs.Walks.{behind_of, row_of};
ghost use Rattle.alta_table.specs.Search.{IsPrefixRange, stands_by};
ghost use Rattle.alta_table.specs.declared.marks.Mark.{Mark};

use crate::marks::{Marks, STRIDE};
use crate::terms::HeldTerms;
use crate::walk::Walk;

// Whether a term stands before a prefix or, where those `begun` count too, begins with it.
fn stands(term: &[u8], prefix: &[u8], begun: bool) -> bool
    ensures { result ≡ stands_by prefix.now begun term.now }
{
    let before = term.cmp(prefix).is_lt();
    if begun {
        before || term.starts_with(prefix)
    } else {
        before
    }
}

// The last mark behind a row whose term stands so, or the first.
fn last_mark(marks: &Marks, prefix: &[u8], begun: bool) -> usize
    ensures { (result ≡ 0) ⊎ ((result < length marks.now.marks.items)
        × ((d : Mark) → stands_by prefix.now begun
        (head_of marks.now.heads.items (slice_index_or marks.now.marks.items result d)) ≡ true)) }
{
    let mut low = 0;
    let mut high = marks.marks.len();
    'halve: while low < high {
        let middle = low + (high - low) / 2;
        if stands(marks.head(&marks.marks[middle]), prefix, begun) {
            low = middle + 1;
        } else {
            high = middle;
        }
    }
    low.saturating_sub(1)
}

// How many of the first rows stand so, and a walk that has passed the row behind them, where there is one.
fn point<'a>(terms: &'a HeldTerms, prefix: &[u8], begun: bool) -> (usize, Walk<'a>)
    requires { IsHeld terms.now 0 }
    ensures within { result.0 ≤ length (rows_in terms.now) }
    ensures point { IsPartitionPoint (λ row. stands_by prefix.now begun row.term ≡ true)
        (λ row. stands_by prefix.now begun row.term ≡ false) (rows_in terms.now) result.0 }
    ensures passed { result.0 < length (rows_in terms.now) → HasPassed terms.now result.0 result.1 }
{
    let mark = last_mark(&terms.marks, prefix, begun);
    let mut walk = terms.walk_from(mark);
    let mut row = mark * STRIDE;
    'rows: while row < terms.count {
        walk.pass();
        if !stands(walk.term(), prefix, begun) {
            return (row, walk);
        }
        row += 1;
    }
    (row, walk)
}

/// The row of a term, and a walk that has passed it, None exactly where the term is not there.
pub fn find_in<'a>(terms: &'a HeldTerms, term: &[u8]) -> Option<(usize, Walk<'a>)>
    requires { IsHeld terms.now 0 }
    ensures row { MatchOption result ((i : ℕ) → slice_get (terms_of (rows_in terms.now)) i ≡ Some term.now
        → ⊥) (λ x. slice_get (terms_of (rows_in terms.now)) x.0 ≡ Some term.now) }
    ensures passed { IfSome result (λ x. HasPassed terms.now x.0 x.1) }
{
    let (row, walk) = point(terms, term, false);
    if row >= terms.count {
        return None;
    }
    if walk.term() == term {
        Some((row, walk))
    } else {
        None
    }
}

/// The first row whose term begins with the prefix, and the row behind the last.
pub fn prefixed_in(terms: &HeldTerms, prefix: &[u8]) -> (usize, usize)
    requires { IsHeld terms.now 0 }
    ensures { IsPrefixRange (terms_of (rows_in terms.now)) prefix.now result.0 result.1 }
{
    let (first, _walk) = point(terms, prefix, false);
    let (behind, _walk) = point(terms, prefix, true);
    (first, behind)
}
