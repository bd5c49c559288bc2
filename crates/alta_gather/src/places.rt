// Places that rise, in runs of places that follow each other.
// A place is found by the last place of its run, so a search looks at runs alone, and a place takes no memory of its own.
ghost use Rattle.std.specs.Prelude.{◌≡◌, ℕ, ◌+◌, ◌-◌, ◌<◌, ◌≤◌, ◌++◌, [], length, All, IfOk};
ghost use Rattle.std.specs.List.{range_with_len};
ghost use Rattle.alta_codec.specs.Rising.{IsRising};
ghost use Rattle.alta_codec.specs.declared.location.TheConstants.{TOP};
ghost use Rattle.alta_gather.specs.Runs.{last_above};

use alta_codec::Loc;
use std::alloc::{AllocError, Global};
use std::marker::Model;

/// A run of places that follow each other.
#[derive(Clone, Copy)]
pub(crate) struct Run {
    /// Its first place.
    pub(crate) first: Loc,
    /// How many places stand in the runs before it.
    pub(crate) before: usize,
}

/// Places that rise, of which contracts see the list. They take 24 bytes for each run of places that follow each other.
#[derive(Drop)]
pub struct Places {
    /// The last place of each run.
    pub(crate) lasts: Vec<Loc>,
    pub(crate) runs: Vec<Run>,
    count: usize,
}

impl Model for Places {
    ghost use Rattle.std.specs.Prelude.{◌≡◌, ℕ, List, length};
    ghost use Rattle.alta_gather.specs.Runs.{AreRuns, places_in};

    ghost Value = { List ℕ };

    ghost view = { λ p. places_in p.lasts.items p.runs.items };

    ghost invariant = { λ p. AreRuns 0 0 p.lasts.items p.runs.items
        × (p.count ≡ length (places_in p.lasts.items p.runs.items)) };
}

impl Places {
    /// No places.
    pub fn new(alloc: Global) -> Places
        ensures empty { result ≡ [] }
    {
        Places {
            lasts: Vec::new(alloc),
            runs: Vec::new(alloc),
            count: 0,
        }
    }

    /// How many they are.
    pub fn len(&self) -> usize
        ensures count { result ≡ length self.now }
    {
        self.count
    }

    /// These, and the places from `first` to before `end` of which none is at or below one of these: those that are, are left out.
    /// Fails for want of memory alone; then these are dropped.
    pub fn with(self, first: Loc, end: Loc) -> Result<Places, AllocError>
        requires { end ≤ TOP }
        ensures { IfOk result (λ places. 1 ≤ first → All (λ p. p < first) self
            → places ≡ self ++ range_with_len first (end - first)) }
    {
        let mut places = self;
        let first = first.max(above(&places.lasts));
        if end <= first {
            return Ok(places);
        }
        places.lasts.push(end - 1)?;
        places.runs.push(Run {
            first,
            before: places.count,
        })?;
        places.count += (end - first) as usize;
        Ok(places)
    }
}

/// The first place above runs that end at these.
fn above(lasts: &[Loc]) -> Loc
    requires { IsRising lasts.now }
    ensures { result ≡ last_above 0 lasts.now + 1 }
{
    match lasts.last() {
        Some(last) => *last + 1,
        None => 1,
    }
}
