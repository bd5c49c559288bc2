// The deleted ends of an index.
ghost use Rattle.std.specs.Prelude.{◌≡◌, ℕ, ◌<◌, ◌≤◌, ◌⊎◌, ◌↔◌, [], length, insert, Contains, IsTrue, IfOk, IfErr, OnOk, OnErr};
ghost use Rattle.alta_codec.specs.Rising.{IsRising};
ghost use Rattle.alta_codec.specs.declared.location.TheConstants.{TOP};
ghost use Rattle.alta_content.specs.Ends.{ShowsRising};
ghost use Rattle.alta_catalog.specs.Ends.{with_end};

use alta_codec::Loc;
use std::alloc::{AllocError, Global};
use std::marker::Model;

/// The ends of deleted documents. Contracts see them as a list of locations, which rises strictly, from 1 to below
/// `TOP`.
#[derive(Drop)]
pub struct Deletions {
    ends: Vec<Loc>,
}

impl Model for Deletions {
    ghost use Rattle.std.specs.Prelude.{List, ℕ};
    ghost use Rattle.alta_codec.specs.Rising.{IsRising};

    ghost Value = { List ℕ };

    ghost view = { λ d. d.ends.items };

    ghost invariant = { λ d. IsRising d.ends.items };
}

impl Deletions {
    /// No deleted ends. What they take in memory comes from the allocator.
    pub fn new(alloc: Global) -> Deletions
        ensures { result ≡ [] }
    {
        Deletions {
            ends: Vec::new(alloc),
        }
    }

    /// Puts an end in its place; one that is held already stays there once. An end above all others is appended in
    /// constant time; any other is found by a binary search, and those above it move up. Where memory is wanting, the
    /// list stays.
    pub fn delete(&mut self, end: Loc) -> Result<(), AllocError>
        requires positive { 1 ≤ end }
        requires below { end < TOP }
        ensures placed { OnOk result (self.new ≡ with_end end self.old) }
        ensures members { OnOk result ((x : ℕ) → Contains self.new x ↔ (Contains self.old x ⊎ (x ≡ end))) }
        ensures rising { IsRising self.new }
        ensures kept { OnErr result (self.new ≡ self.old) }
    {
        match place_of(&self.ends, end) {
            Ok(_) => Ok(()),
            Err(place) => {
                self.ends.insert(place, end)?;
                Ok(())
            }
        }
    }

    /// Whether the end is deleted: a binary search.
    pub fn holds(&self, end: Loc) -> bool
        ensures { IsTrue result ↔ Contains self.now end }
    {
        self.ends.binary_search(&end).is_ok()
    }

    /// The deleted ends, borrowed.
    pub fn ends(&self) -> &[Loc]
        ensures { ShowsRising self.now result.now }
    {
        &self.ends
    }
}

// Where the end is held, or else where it belongs.
fn place_of(ends: &[Loc], end: Loc) -> Result<usize, usize>
    requires { IsRising ends.now }
    ensures held { IfOk result (λ _. with_end end ends.now ≡ ends.now) }
    ensures room { IfErr result (λ place. place ≤ length ends.now) }
    ensures place { IfErr result (λ place. with_end end ends.now ≡ insert ends.now place end) }
{
    match ends.last() {
        Some(last) if end <= *last => ends.binary_search(&end),
        _ => Err(ends.len()),
    }
}
