// Looking for rising terms in a level.
ghost use Rattle.std.specs.Prelude.{◌≡◌, Some, IfSome, IsTrue, slice_get};
ghost use Rattle.std.specs.declared.cmp.Ordering.TheVariants.{Less};
ghost use Rattle.alta_loading.specs.Met.{level_terms};
ghost use Rattle.alta_loading.specs.Near.{IsBeside, order_to};

use alta_table::{OpenLevel, TermCursor};
use std::cmp::Ordering;
use std::marker::Model;

/// Two rows of a level, one behind the other.
#[derive(Drop)]
pub struct Beside<'a> {
    pub before: TermCursor<'a>,
    pub here: TermCursor<'a>,
}

/// A level in which terms are looked up, and the rows at which the look-up of the next one begins. Contracts see the level alone.
#[derive(Drop)]
pub struct Near<'a> {
    level: &'a OpenLevel,
    beside: Option<Beside<'a>>,
}

impl<'a> Model for Near<'a> {
    ghost use Rattle.std.specs.Prelude.{IfSome};
    ghost use Rattle.alta_loading.specs.Near.{IsBeside};
    ghost use Rattle.alta_table.specs.Tables.{Tables};

    ghost Value = { Tables };

    ghost view = { λ n. n.level.now };

    ghost invariant = { λ n. IfSome n.beside (λ b. IsBeside n.level.now b) };
}

impl<'a> Near<'a> {
    ghost use Rattle.std.specs.Prelude.{◌≡◌, ℕ, Some, IfSome, MatchOption, slice_get};
    ghost use Rattle.alta_loading.specs.Met.{level_terms};
    ghost use Rattle.alta_table.specs.Places.{row_at};

    /// A level in which no term was looked up.
    pub fn new(level: &'a OpenLevel) -> Near<'a>
        ensures { result ≡ level.now }
    {
        Near {
            level,
            beside: None,
        }
    }

    /// The row of a term, None exactly where it is not there. It looks at the rows behind that of the term before. So along rising terms,
    /// among which are those of all rows between, a look-up compares one row or two. With any other term it looks by halves.
    pub fn find(&mut self, term: &[u8]) -> Option<TermCursor<'a>>
        ensures level { self.new ≡ self.old }
        ensures tables { IfSome result (λ c. c.tables ≡ self.old) }
        ensures row { MatchOption (row_at result) ((i : ℕ) → slice_get (level_terms self.old) i ≡ Some term.now
            → ⊥) (λ i. slice_get (level_terms self.old) i ≡ Some term.now) }
    {
        // This call tells that the terms rise.
        let _documents = self.level.documents();
        let Some(beside) = &self.beside else {
            return self.find_anew(term);
        };
        match order_of(&beside.here, term) {
            Ordering::Equal => {
                let found = beside.here.copy();
                self.beside = behind(self.level, &found);
                Some(found)
            }
            Ordering::Greater if is_lower(&beside.before, term) => None,
            _ => self.find_anew(term),
        }
    }

    // The row of a term, looked for by halves.
    fn find_anew(&mut self, term: &[u8]) -> Option<TermCursor<'a>>
        ensures level { self.new ≡ self.old }
        ensures tables { IfSome result (λ c. c.tables ≡ self.old) }
        ensures row { MatchOption (row_at result) ((i : ℕ) → slice_get (level_terms self.old) i ≡ Some term.now
            → ⊥) (λ i. slice_get (level_terms self.old) i ≡ Some term.now) }
    {
        match self.level.look_up(term) {
            Some(found) => {
                self.beside = behind(self.level, &found);
                Some(found)
            }
            None => {
                let (place, _behind) = self.level.prefixed(term);
                self.beside = beside_at(self.level, place);
                None
            }
        }
    }
}

// This row and the one behind it, if there is one.
fn behind<'a>(level: &'a OpenLevel, row: &TermCursor<'a>) -> Option<Beside<'a>>
    requires { row.now.tables ≡ level.now }
    ensures { IfSome result (λ b. IsBeside level.now b) }
{
    let terms = level.terms();
    if row.row() + 1 >= terms {
        return None;
    }
    let mut here = row.copy();
    here.next();
    Some(Beside {
        before: row.copy(),
        here,
    })
}

// The row before a place and the one at it, if there are both.
fn beside_at<'a>(level: &'a OpenLevel, place: usize) -> Option<Beside<'a>>
    ensures { IfSome result (λ b. IsBeside level.now b) }
{
    if place == 0 || place >= level.terms() {
        return None;
    }
    Some(Beside {
        before: level.at(place - 1),
        here: level.at(place),
    })
}

// How the term of a row stands to another.
fn order_of(cursor: &TermCursor<'_>, term: &[u8]) -> Ordering
    ensures { result ≡ order_to term.now (slice_get (level_terms cursor.now.tables) cursor.now.row) }
{
    cursor.term().cmp(term)
}

// Whether the term of a row is lower than another.
fn is_lower(cursor: &TermCursor<'_>, term: &[u8]) -> bool
    ensures { IsTrue result → order_to term.now (slice_get (level_terms cursor.now.tables) cursor.now.row) ≡ Less }
{
    order_of(cursor, term).is_lt()
}
