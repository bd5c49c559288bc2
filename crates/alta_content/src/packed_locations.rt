// Locations that are gathered from lists, packed as the lists are.
ghost use Rattle.std.specs.Prelude.{◌≡◌, ℕ, List, []};
ghost use Rattle.alta_content.specs.Packed.{Appends, AreGaps};

use crate::packing::{last_at, put_behind};
use alta_codec::Loc;
use std::alloc::{AllocError, Global};
use std::default::MadeWith;
use std::marker::Model;

/// A list as it is held.
#[derive(Clone, Copy)]
pub struct PackedList<'a> {
    /// How many locations it has.
    pub count: u64,
    /// Their gaps.
    pub gaps: &'a [u8],
}

/// Locations of lists, one list behind the other. A list is put by a copy of its gaps, of which the first alone changes, and is read
/// for its last location once another one comes. Contracts see the locations.
#[derive(Drop)]
pub struct PackedLocations {
    // How many locations there are.
    count: u64,
    // Their gaps.
    gaps: Vec<u8>,
    // How many stand before those of the last list.
    before: u64,
    // The last of them, 0 where there are none.
    last: Loc,
    // Where the gaps of the last list begin.
    place: usize,
}

impl Model for PackedLocations {
    ghost use Rattle.std.specs.Prelude.{List, ℕ};
    ghost use Rattle.alta_content.specs.Packed.{IsGathered, locations_in};

    ghost Value = { List ℕ };

    ghost view = { λ p. locations_in p.count 0 p.gaps.items };

    ghost invariant = { λ p. IsGathered p.gaps.items p.count p.before p.last p.place
        (locations_in p.count 0 p.gaps.items) };
}

impl MadeWith<Global> for PackedLocations {
    ghost is_made_with = { λ locations. locations ≡ [] };

    /// No locations.
    fn made_with(alloc: Global) -> PackedLocations {
        PackedLocations {
            count: 0,
            gaps: Vec::new(alloc),
            before: 0,
            last: 0,
            place: 0,
        }
    }
}

impl PackedLocations {
    /// Leaves no locations. Their room stays for others.
    pub fn clear(&mut self)
        ensures { self.new ≡ [] }
    {
        self.count = 0;
        self.gaps.clear();
        self.before = 0;
        self.last = 0;
        self.place = 0;
    }

    /// Adds the locations of a list behind the others. Where memory is wanting, these stay.
    pub fn put(&mut self, list: PackedList<'_>) -> Result<(), AllocError>
        requires { (locations : List ℕ) × AreGaps list.gaps.now list.count locations }
        ensures { (locations : List ℕ) → AreGaps list.entry.gaps.now list.entry.count locations
            → Appends locations self.old self.new result }
    {
        let last = last_at(&self.gaps, self.place, self.last, self.count - self.before);
        let place = self.gaps.len();
        put_behind(&mut self.gaps, last, list.gaps)?;
        self.before = self.count;
        self.last = last;
        self.place = place;
        self.count += list.count;
        Ok(())
    }

    /// Lends all of them as one list.
    pub fn as_list(&self) -> PackedList<'_>
        ensures { AreGaps result.gaps.now result.count self.now }
    {
        PackedList {
            count: self.count,
            gaps: &self.gaps,
        }
    }
}
