// A reader of the locations of a test that has one term at most.
ghost use Rattle.std.specs.Prelude.{◌≡◌, refl};
ghost use Rattle.alta_search.specs.Words.{IsSoundSingle, single_list, single_place, single_left, single_cost};
ghost use Rattle.alta_search.specs.WordLaws.{single_rises, single_stands};

use crate::term_reader::TermReader;
use alta_codec::{Loc, Steps};
use alta_reader::{BackReader, Reader};
use alta_words::{PlainReader, WordReader};
use std::sync::ledger::Ledger;

/// A reader of the locations of a test that has one term at most: each move adds one step. Where the term has one list, it is
/// that list's own.
#[derive(Drop)]
pub enum SingleReader<'a> {
    /// Of its one list, which is coded.
    Coded(WordReader<'a>),
    /// Of its one list, which is plain.
    Plain(PlainReader<'a>),
    /// Of its lists through all levels.
    Chain(TermReader<'a>),
}

impl<'a> Reader for SingleReader<'a> {
    ghost sound = { IsSoundSingle };

    ghost list = { single_list };

    ghost location = { single_place };

    ghost all = { single_list };

    ghost left = { single_left };

    ghost cost = { single_cost };

    #[inline(always)]
    fn loc(&self) -> Loc {
        match self {
            SingleReader::Coded(reader) => reader.loc(),
            SingleReader::Plain(reader) => reader.loc(),
            SingleReader::Chain(reader) => reader.loc(),
        }
    }

    #[inline(always)]
    fn next<L: Ledger>(&mut self, steps: &mut Steps<L>) {
        match self {
            SingleReader::Coded(reader) => reader.next(steps),
            SingleReader::Plain(reader) => reader.next(steps),
            SingleReader::Chain(reader) => reader.next(steps),
        }
    }

    #[inline(always)]
    fn seek<L: Ledger>(&mut self, to: Loc, steps: &mut Steps<L>) {
        match self {
            SingleReader::Coded(reader) => reader.seek(to, steps),
            SingleReader::Plain(reader) => reader.seek(to, steps),
            SingleReader::Chain(reader) => reader.seek(to, steps),
        }
    }

    ghost rises = { single_rises };

    ghost stands = { single_stands };
}

impl<'a> BackReader for SingleReader<'a> {
    fn prev(&self) -> Loc {
        match self {
            SingleReader::Coded(reader) => reader.prev(),
            SingleReader::Plain(reader) => reader.prev(),
            SingleReader::Chain(reader) => reader.prev(),
        }
    }

    ghost members = { λ s h x. (λ m. m, λ m. m) };

    ghost left_is = { λ s h. refl };
}
