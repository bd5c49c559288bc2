// A walk along the rows of levels.
ghost use Rattle.std.specs.Prelude.{◌≡◌, ℕ, ◌+◌, ◌<◌, ◌≤◌, map, length, Contains, HoldsAt, IfSome, None, [], slice_index, slice_index_or};
ghost use Rattle.alta_codec.specs.Rising.{IsRising};
ghost use Rattle.alta_codec.specs.declared.location.TheConstants.{TOP};
ghost use Rattle.alta_content.specs.All.{shared_rows, rows_of_levels, IsPlace};
ghost use Rattle.alta_content.specs.Rows.{end_of, ends_of};

use crate::LevelRows;
use alta_codec::{Loc, index_from};
use std::marker::Model;
use std::rc::Rc;

/// A place in levels: how many levels and rows of them stand before it, and how many rows of its own level.
#[derive(Clone, Copy)]
struct Place {
    level: usize,
    before: usize,
    index: usize,
}

/// The first place from this one on whose row ends at or above `end`, or behind all rows.
fn first_from(levels: &[Rc<LevelRows>], place: Place, end: Loc) -> Place
    requires rising { IsRising (ends_of (rows_of_levels (map shared_rows levels.now))) }
    requires place { IsPlace (map shared_rows levels.now) place.level place.before place.index }
    requires passed { (k : ℕ) → k < place.before + place.index
        → slice_index (ends_of (rows_of_levels (map shared_rows levels.now))) k < end }
    ensures place { IsPlace (map shared_rows levels.now) result.level result.before result.index }
    ensures before { (k : ℕ) → k < result.before + result.index
        → slice_index (ends_of (rows_of_levels (map shared_rows levels.now))) k < end }
    ensures stands { result.level < length levels.now → result.index
        < length (slice_index_or (map shared_rows levels.now) result.level []) }
    ensures here { result.level < length levels.now
        → end ≤ slice_index (ends_of (rows_of_levels (map shared_rows levels.now))) (result.before + result.index) }
{
    let mut place = place;
    'levels: while place.level < levels.len() {
        let ends = levels[place.level].ends();
        place.index = index_from(ends, place.index, end);
        if place.index < ends.len() {
            return place;
        }
        place = Place {
            level: place.level + 1,
            before: place.before + ends.len(),
            index: 0,
        };
    }
    place
}

/// The index of the row at the first place whose row ends at or above `end`, if it ends there.
fn index_of(levels: &[Rc<LevelRows>], place: Place, end: Loc) -> Option<usize>
    requires rising { IsRising (ends_of (rows_of_levels (map shared_rows levels.now))) }
    requires place { IsPlace (map shared_rows levels.now) place.level place.before place.index }
    requires passed { (k : ℕ) → k < place.before + place.index
        → slice_index (ends_of (rows_of_levels (map shared_rows levels.now))) k < end }
    requires stands { place.level < length levels.now → place.index
        < length (slice_index_or (map shared_rows levels.now) place.level []) }
    requires here { place.level < length levels.now
        → end ≤ slice_index (ends_of (rows_of_levels (map shared_rows levels.now))) (place.before + place.index) }
    ensures inside { IfSome result (λ i. i < length (rows_of_levels (map shared_rows levels.now))) }
    ensures there { IfSome result (HoldsAt (λ r. end_of r ≡ end) (rows_of_levels (map shared_rows levels.now))) }
    ensures none { result ≡ None → Contains (ends_of (rows_of_levels (map shared_rows levels.now))) end → ⊥ }
{
    if place.level >= levels.len() {
        return None;
    }
    let ends = levels[place.level].ends();
    if ends[place.index] == end {
        Some(place.before + place.index)
    } else {
        None
    }
}

/// A walk along rows in rising order of their ends. Contracts see the rows, and how many were passed.
#[derive(Drop)]
pub struct RowWalk<'a> {
    levels: &'a [Rc<LevelRows>],
    place: Place,
}

impl<'a> Model for RowWalk<'a> {
    ghost use Rattle.std.specs.Prelude.{map, ◌+◌};
    ghost use Rattle.alta_codec.specs.Rising.{IsRising};
    ghost use Rattle.alta_content.specs.Rows.{ends_of};
    ghost use Rattle.alta_content.specs.All.{Walked, shared_rows, rows_of_levels, IsPlace};

    ghost Value = { Walked };

    ghost view = { λ w. record {
      rows = rows_of_levels (map shared_rows w.levels.now);
      at = w.place.before
          + w.place.index;
    } };

    ghost invariant = { λ w. IsRising (ends_of (rows_of_levels (map shared_rows w.levels.now)))
        × IsPlace (map shared_rows w.levels.now) w.place.level w.place.before w.place.index };
}

impl<'a> RowWalk<'a> {
    ghost use Rattle.alta_content.specs.All.{IsPast};
    ghost use Rattle.alta_content.specs.Rows.{end_of, ends_of};

    /// A walk that stands in front of the first row.
    pub(crate) fn new(levels: &'a [Rc<LevelRows>]) -> RowWalk<'a>
        requires { IsRising (ends_of (rows_of_levels (map shared_rows levels.now))) }
        ensures rows { result.rows ≡ rows_of_levels (map shared_rows levels.now) }
        ensures at { result.at ≡ 0 }
    {
        RowWalk {
            levels,
            place: Place {
                level: 0,
                before: 0,
                index: 0,
            },
        }
    }

    /// Goes on to the first row whose end is at or above `end`, and answers its index where it ends there. It looks at about
    /// 2 log n ends to pass n rows.
    pub fn find(&mut self, end: Loc) -> Option<usize>
        requires { IsPast self.old end }
        ensures rows { self.new.rows ≡ self.old.rows }
        ensures past { IsPast self.new end }
        ensures inside { IfSome result (λ i. i < length self.old.rows) }
        ensures there { IfSome result (HoldsAt (λ r. end_of r ≡ end) self.old.rows) }
        ensures none { result ≡ None → Contains (ends_of self.old.rows) end → ⊥ }
    {
        self.place = first_from(self.levels, self.place, end);
        index_of(self.levels, self.place, end)
    }

    /// Goes on to the first row whose end is at or above `end`, and answers its index, if there is one. It looks at about 2 log n ends
    /// to pass n rows.
    pub fn reach(&mut self, end: Loc) -> Option<usize>
        requires { IsPast self.old end }
        ensures rows { self.new.rows ≡ self.old.rows }
        ensures past { IsPast self.new end }
        ensures some { IfSome result (λ i. (i ≡ self.new.at) × (i < length self.old.rows)
            × (end ≤ slice_index (ends_of self.old.rows) i)) }
        ensures none { result ≡ None → length self.old.rows ≤ self.new.at }
    {
        self.place = first_from(self.levels, self.place, end);
        if self.place.level >= self.levels.len() {
            return None;
        }
        Some(self.place.before + self.place.index)
    }
}
