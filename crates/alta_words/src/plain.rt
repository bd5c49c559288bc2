// A reader of a plain list of locations.
ghost use Rattle.std.specs.Prelude.{◌≡◌, refl, ◌+◌, ◌<◌, ◌≤◌};
ghost use Rattle.alta_codec.specs.Rising.{IsRising, first_from, pred_of};
ghost use Rattle.alta_codec.proofs.ByIndex.{at_place};
ghost use Rattle.alta_codec.specs.declared.location.TheConstants.{TOP};
ghost use Rattle.alta_reader.specs.Moves.{IsNewReader};
ghost use Rattle.alta_words.specs.Leaps.{Leaps};
ghost use Rattle.alta_words.specs.Plain.{IsSoundPlain, plain_list, plain_place, plain_left};

use alta_codec::{Loc, Steps, TOP, index_from};
use alta_reader::{BackReader, Reader};
use std::sync::ledger::Ledger;

/// A reader of a rising list of locations in memory, which it borrows.
#[derive(Drop)]
pub struct PlainReader<'a> {
    list: &'a [u64],
    at: usize,
}

impl<'a> PlainReader<'a> {
    /// A reader of `list`, which stands at its first location, or at `TOP` where it is empty. It adds one step.
    pub fn new<L: Ledger>(list: &'a [u64], steps: &mut Steps<L>) -> PlainReader<'a>
        requires { IsRising list.now }
        ensures { IsNewReader IsSoundPlain plain_list plain_list plain_place plain_left list.now
            steps.old steps.new result }
    {
        steps.tick();
        PlainReader { list, at: 0 }
    }

    /// The greatest location of the list, 0 where it is empty.
    pub fn last(&self) -> Loc
        requires { IsSoundPlain self.now }
        ensures { result ≡ pred_of (plain_list self.now) TOP }
    {
        if self.list.is_empty() {
            0
        } else {
            self.list[self.list.len() - 1]
        }
    }
}

impl<'a> Reader for PlainReader<'a> {
    ghost sound = { IsSoundPlain };

    ghost list = { plain_list };

    ghost location = { plain_place };

    ghost all = { plain_list };

    ghost left = { plain_left };

    ghost cost = { λ s. 1 };

    fn loc(&self) -> Loc {
        if self.at < self.list.len() {
            self.list[self.at]
        } else {
            TOP
        }
    }

    /// Goes to the next location, or to `TOP` past the last. It adds exactly one step.
    fn next<L: Ledger>(&mut self, steps: &mut Steps<L>)
        requires sound { IsSoundPlain self.old }
        requires below { plain_place self.old < TOP }
        ensures { Leaps IsSoundPlain plain_list plain_place self.old self.new
            (first_from (plain_list self.old) (plain_place self.old + 1)) steps.old steps.new }
    {
        steps.tick();
        self.at += 1;
    }

    /// Goes to the least location at or above `to`, or to `TOP` past the last. It adds exactly one step, and looks at
    /// about 2 log n locations to pass n of them.
    fn seek<L: Ledger>(&mut self, to: Loc, steps: &mut Steps<L>)
        requires sound { IsSoundPlain self.old }
        requires above { plain_place self.old < to }
        requires top { to ≤ TOP }
        ensures { Leaps IsSoundPlain plain_list plain_place self.old self.new
            (first_from (plain_list self.old) to) steps.old steps.new }
    {
        steps.tick();
        self.at = index_from(self.list, self.at, to);
    }

    ghost rises = { λ s h. h.0 };

    ghost stands = { λ s h. (at_place s.list.now s.at h.0).0 };
}

impl<'a> BackReader for PlainReader<'a> {
    fn prev(&self) -> Loc {
        if self.at == 0 {
            0
        } else {
            self.list[self.at - 1]
        }
    }

    ghost members = { λ s h x. (λ m. m, λ m. m) };

    ghost left_is = { λ s h. refl };
}
