// A leaf in one of its forms.
ghost use Rattle.std.specs.Prelude.{◌≡◌, refl, ◌+◌, ◌<◌, ◌≤◌};
ghost use Rattle.alta_codec.specs.Rising.{first_from, pred_of, count_from};
ghost use Rattle.alta_codec.specs.declared.location.TheConstants.{TOP};
ghost use Rattle.alta_words.specs.Leaf.{leaf_list, leaf_place, IsSoundLeaf, leaf_rises, leaf_stands};
ghost use Rattle.alta_words.specs.Leaps.{Leaps};

use crate::plain::PlainReader;
use crate::word::WordReader;
use alta_codec::{Loc, Steps};
use alta_reader::{BackReader, Reader};
use std::sync::ledger::Ledger;

/// A reader of one list of locations, in one of its forms.
#[derive(Drop)]
pub enum Leaf<'a> {
    /// Of a coded list.
    Coded(WordReader<'a>),
    /// Of a plain list in memory.
    Plain(PlainReader<'a>),
}

impl<'a> Leaf<'a> {
    /// The greatest location of the list, 0 where it is empty.
    #[inline(always)]
    pub fn last(&self) -> Loc
        requires { IsSoundLeaf self.now }
        ensures { result ≡ pred_of (leaf_list self.now) TOP }
    {
        match self {
            Leaf::Coded(reader) => reader.last(),
            Leaf::Plain(reader) => reader.last(),
        }
    }
}

impl<'a> Reader for Leaf<'a> {
    ghost sound = { IsSoundLeaf };

    ghost list = { leaf_list };

    ghost location = { leaf_place };

    ghost all = { leaf_list };

    ghost left = { λ s. count_from (leaf_list s) (leaf_place s) };

    ghost cost = { λ s. 1 };

    #[inline(always)]
    fn loc(&self) -> Loc {
        match self {
            Leaf::Coded(reader) => reader.loc(),
            Leaf::Plain(reader) => reader.loc(),
        }
    }

    /// Goes to the next location, or to `TOP` past the last. It adds exactly one step.
    #[inline(always)]
    fn next<L: Ledger>(&mut self, steps: &mut Steps<L>)
        requires sound { IsSoundLeaf self.old }
        requires below { leaf_place self.old < TOP }
        ensures { Leaps IsSoundLeaf leaf_list leaf_place self.old self.new
            (first_from (leaf_list self.old) (leaf_place self.old + 1)) steps.old steps.new }
    {
        match self {
            Leaf::Coded(reader) => reader.next(steps),
            Leaf::Plain(reader) => reader.next(steps),
        }
    }

    /// Goes to the least location at or above `to`, or to `TOP` past the last. It adds exactly one step.
    #[inline(always)]
    fn seek<L: Ledger>(&mut self, to: Loc, steps: &mut Steps<L>)
        requires sound { IsSoundLeaf self.old }
        requires above { leaf_place self.old < to }
        requires top { to ≤ TOP }
        ensures { Leaps IsSoundLeaf leaf_list leaf_place self.old self.new
            (first_from (leaf_list self.old) to) steps.old steps.new }
    {
        match self {
            Leaf::Coded(reader) => reader.seek(to, steps),
            Leaf::Plain(reader) => reader.seek(to, steps),
        }
    }

    ghost rises = { leaf_rises };

    ghost stands = { leaf_stands };
}

impl<'a> BackReader for Leaf<'a> {
    fn prev(&self) -> Loc {
        match self {
            Leaf::Coded(reader) => reader.prev(),
            Leaf::Plain(reader) => reader.prev(),
        }
    }

    ghost members = { λ s h x. (λ m. m, λ m. m) };

    ghost left_is = { λ s h. refl };
}
