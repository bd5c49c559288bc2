//! Readers: a rising list of locations with a place in it, which only moves forward and counts its moves.
//!
//! `sound` is a member, asked by each call and kept by it, since a fact about all values of a type can't stand in a struct that owns
//! memory. `cost` bounds one move where `left` bounds all together; of a union it is the sum over its readers, so that it is a
//! number of the reader alone.
#![tactic(auto)]

pub mod many;

ghost use Rattle.std.specs.Prelude.{◌≡◌, ◌↔◌, ℕ, ◌+◌, ◌<◌, ◌≤◌, List, Contains};
ghost use Rattle.alta_codec.specs.Rising.{IsRising, IsPlace, first_from, pred_of, count_from};
ghost use Rattle.alta_codec.specs.declared.location.TheConstants.{TOP};

use alta_codec::{Loc, Steps};
use std::sync::ledger::Ledger;

/// A list of locations that rises strictly, from 1 to below [`alta_codec::TOP`], with a place in it that only moves
/// forward. No call takes memory.
///
/// An implementation gives six meanings. `sound` is what each of its values keeps from its making on. `list` is the
/// list. `location` is where the reader stands: at an element, or at `TOP` once it has passed the last. `all` holds the
/// elements of all leaf lists below the reader, each as often as leaves have it. `left` is a number that falls at each
/// move by at least the steps that the move adds, so it bounds all moves that are still to come. `cost` is how many steps
/// the next move adds at most.
pub trait Reader {
    ghost sound: { Self → Type 0 };

    ghost list: { Self → List ℕ };

    ghost location: { Self → ℕ };

    ghost all: { Self → List ℕ };

    ghost left: { Self → ℕ };

    ghost cost: { Self → ℕ };

    /// Where the reader stands.
    fn loc(&self) -> Loc
        requires { sound self.now }
        ensures location { result ≡ location self.now }
        ensures place { IsPlace (list self.now) result };

    /// Goes to the least element above, or to `TOP` where there is none.
    fn next<L: Ledger>(&mut self, steps: &mut Steps<L>)
        requires sound { sound self.old }
        requires below { location self.old < TOP }
        ensures sound { sound self.new }
        ensures list { list self.new ≡ list self.old }
        ensures all { all self.new ≡ all self.old }
        ensures location { location self.new ≡ first_from (list self.old) (location self.old + 1) }
        ensures falls { left self.new < left self.old }
        ensures steps { steps.new + left self.new ≤ steps.old + left self.old }
        ensures cost { steps.new ≤ steps.old + cost self.old };

    /// Goes to the least element at or above `to`, or to `TOP` where there is none.
    fn seek<L: Ledger>(&mut self, to: Loc, steps: &mut Steps<L>)
        requires sound { sound self.old }
        requires above { location self.old < to }
        requires top { to ≤ TOP }
        ensures sound { sound self.new }
        ensures list { list self.new ≡ list self.old }
        ensures all { all self.new ≡ all self.old }
        ensures location { location self.new ≡ first_from (list self.old) to }
        ensures falls { left self.new < left self.old }
        ensures steps { steps.new + left self.new ≤ steps.old + left self.old }
        ensures cost { steps.new ≤ steps.old + cost self.old };

    ghost rises: { (s : Self) → sound s → IsRising (list s) };

    ghost stands: { (s : Self) → sound s → IsPlace (list s) (location s) };
}

/// A reader that also knows the element before its place. Its list has the elements of `all`, and `left` counts those
/// of `all` at or above the place.
pub trait BackReader: Reader {
    /// The greatest element below the place, 0 where there is none.
    fn prev(&self) -> Loc
        requires { Self.sound self.now }
        ensures { result ≡ pred_of (Self.list self.now) (Self.location self.now) };

    ghost members: { (s : Self) → Self.sound s → (x : ℕ) → Contains (Self.all s) x ↔ Contains (Self.list s) x };

    ghost left_is: { (s : Self) → Self.sound s → Self.left s ≡ count_from (Self.all s) (Self.location s) };
}
