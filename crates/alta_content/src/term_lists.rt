// The terms of a content with their locations, packed.
ghost use Rattle.std.specs.Prelude.{◌≡◌, ◌<◌, ◌++◌, ℕ, List, [], drop, length, flat_map, IfOk, MatchOption, OnOk};
ghost use Rattle.alta_codec.specs.Lists.{Pushes};
ghost use Rattle.alta_content.specs.Fronts.{front_locations, front_term};
ghost use Rattle.alta_content.specs.Packed.{AreGaps, list_gaps};

use crate::packed_locations::PackedList;
use crate::packing::{put_gaps, put_locations_at, put_row, row_at, term_at};
use crate::passed::give_back;
use alta_codec::{Len, Loc};
use std::alloc::{AllocError, Global};
use std::default::MadeWith;
use std::marker::Model;

/// Terms with their locations, which are put at the end and read from the front. They are held packed: of each term its bytes and
/// three numbers, and of each location its distance from the one before, all numbers as unsigned LEB128 (DWARF 5, section 7.6).
#[derive(Drop)]
pub struct TermLists {
    // How many terms are left.
    count: usize,
    // For each term its length, its bytes, how many locations it has, and how many bytes their gaps have.
    rows: Vec<u8>,
    // Where the first row begins that is left.
    row: usize,
    // The gaps of all locations.
    gaps: Vec<u8>,
    // Where those of the first term begin that is left.
    gap: usize,
}

impl Model for TermLists {
    ghost use Rattle.std.specs.Prelude.{List, drop, length, ◌≤◌};
    ghost use Rattle.alta_content.specs.Packed.{Packs, lists_in};
    ghost use Rattle.alta_content.specs.TermList.{TermList};

    ghost Value = { List TermList };

    ghost view = { λ a. lists_in a.count (drop a.row a.rows.items) (drop a.gap a.gaps.items) };

    ghost invariant = { λ a. Packs (drop a.row a.rows.items) (drop a.gap a.gaps.items)
        (lists_in a.count (drop a.row a.rows.items) (drop a.gap a.gaps.items))
        × (a.row ≤ length a.rows.items) × (a.gap ≤ length a.gaps.items) };
}

impl MadeWith<Global> for TermLists {
    ghost is_made_with = { λ lists. lists ≡ [] };

    /// No terms.
    fn made_with(alloc: Global) -> TermLists {
        TermLists {
            count: 0,
            rows: Vec::new(alloc),
            row: 0,
            gaps: Vec::new(alloc),
            gap: 0,
        }
    }
}

impl Len for TermLists {
    ghost len_of = { length };

    fn len(&self) -> usize {
        self.count
    }
}

impl TermLists {
    /// No terms, with room for rows of so many bytes, and for locations whose gaps have so many.
    pub fn with_room(alloc: Global, rows: usize, gaps: usize) -> Result<TermLists, AllocError>
        ensures { IfOk result (λ lists. lists ≡ []) }
    {
        let rows = Vec::with_capacity(alloc, rows)?;
        let gaps = Vec::with_capacity(alloc, gaps)?;
        Ok(TermLists {
            count: 0,
            rows,
            row: 0,
            gaps,
            gap: 0,
        })
    }

    /// How many bytes the rows of the terms that are left have.
    pub fn row_room(&self) -> usize {
        self.rows.len() - self.row
    }

    /// How many bytes the gaps of the locations that are left have.
    pub fn room(&self) -> usize
        ensures { result ≡ length (flat_map list_gaps self.now) }
    {
        self.gaps.len() - self.gap
    }

    /// Adds a term with its locations at the end. Where memory is wanting the lists stay.
    pub fn put(&mut self, term: &[u8], locations: &[Loc]) -> Result<(), AllocError>
        ensures { Pushes (record { term = term.now; locations = locations.now }) self.old self.new result }
    {
        let gaps = self.gaps.len();
        put_gaps(&mut self.gaps, locations)?;
        let bytes = self.gaps.len() - gaps;
        if put_row(&mut self.rows, term, locations.len() as u64, bytes).is_err() {
            self.gaps.truncate(gaps);
            return Err(AllocError);
        }
        self.count += 1;
        Ok(())
    }

    /// Adds a term with so many locations at the end, whose gaps are these bytes. They are copied. Where memory is wanting the lists
    /// stay.
    pub fn put_spelled(&mut self, term: &[u8], count: u64, gaps: &[u8]) -> Result<(), AllocError>
        requires { (locations : List ℕ) × AreGaps gaps.now count locations }
        ensures { (locations : List ℕ) → AreGaps gaps.now count locations
            → Pushes (record { term = term.now; locations = locations }) self.old self.new result }
    {
        let before = self.gaps.len();
        self.gaps.extend_from_slice(gaps)?;
        if put_row(&mut self.rows, term, count, gaps.len()).is_err() {
            self.gaps.truncate(before);
            return Err(AllocError);
        }
        self.count += 1;
        Ok(())
    }

    /// The first term, None where there is none.
    pub fn first(&self) -> Option<&[u8]>
        ensures { MatchOption result (self.now ≡ []) (λ term. (0 < length self.now)
            × (term.now ≡ front_term self.now)) }
    {
        if self.count == 0 {
            return None;
        }
        let (term, _behind) = term_at(&self.rows, self.row);
        Some(term)
    }

    /// Lends the list of the first term as it is held, one without locations where there is no term.
    pub fn first_packed(&self) -> PackedList<'_>
        ensures { AreGaps result.gaps.now result.count (front_locations self.now) }
    {
        if self.count == 0 {
            return PackedList {
                count: 0,
                gaps: &[],
            };
        }
        let row = row_at(&self.rows, self.row);
        let (_passed, left) = self.gaps.split_at(self.gap);
        let (gaps, _behind) = left.split_at(row.gaps as usize);
        PackedList {
            count: row.count,
            gaps,
        }
    }

    /// Appends the locations of the first term, none where there is no term.
    pub fn put_first(&self, all: &mut Vec<Loc>) -> Result<(), AllocError>
        ensures { OnOk result (all.new.items ≡ all.old.items ++ front_locations self.now) }
    {
        if self.count == 0 {
            return Ok(());
        }
        let row = row_at(&self.rows, self.row);
        put_locations_at(all, &self.gaps, self.gap, row.count)
    }

    /// Drops the first term, if there is one. The memory of terms that were dropped is given back as they become many.
    pub fn skip(&mut self)
        ensures { self.new ≡ drop 1 self.old }
    {
        if self.count == 0 {
            return;
        }
        let row = row_at(&self.rows, self.row);
        let behind = self.gap.saturating_add(row.gaps as usize);
        let behind = behind.min(self.gaps.len());
        self.row = give_back(&mut self.rows, row.behind);
        self.gap = give_back(&mut self.gaps, behind);
        self.count -= 1;
    }
}
