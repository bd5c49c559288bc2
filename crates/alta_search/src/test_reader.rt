// A reader of the locations of a test.
ghost use Rattle.alta_search.specs.Words.{IsSoundReader, reader_list, reader_all, reader_place, reader_left, reader_cost};
ghost use Rattle.alta_search.specs.WordLaws.{reader_rises, reader_stands, reader_members, reader_left_is};

use crate::term_reader::TermReader;
use alta_codec::{Loc, Steps};
use alta_compound::AnyReader;
use alta_reader::{BackReader, Reader};
use alta_words::{PlainReader, WordReader};
use std::sync::ledger::Ledger;

/// A reader of the locations of a test. Where the test has one list in all, it is that list's own.
#[derive(Drop)]
pub enum TestReader<'a> {
    /// Of its one list, which is coded.
    Coded(WordReader<'a>),
    /// Of its one list, which is plain.
    Plain(PlainReader<'a>),
    /// Of the union of its terms, each through all levels.
    Any(AnyReader<TermReader<'a>>),
}

impl<'a> Reader for TestReader<'a> {
    ghost sound = { IsSoundReader };

    ghost list = { reader_list };

    ghost location = { reader_place };

    ghost all = { reader_all };

    ghost left = { reader_left };

    ghost cost = { reader_cost };

    fn loc(&self) -> Loc {
        match self {
            TestReader::Coded(reader) => reader.loc(),
            TestReader::Plain(reader) => reader.loc(),
            TestReader::Any(reader) => reader.loc(),
        }
    }

    fn next<L: Ledger>(&mut self, steps: &mut Steps<L>) {
        match self {
            TestReader::Coded(reader) => reader.next(steps),
            TestReader::Plain(reader) => reader.next(steps),
            TestReader::Any(reader) => reader.next(steps),
        }
    }

    fn seek<L: Ledger>(&mut self, to: Loc, steps: &mut Steps<L>) {
        match self {
            TestReader::Coded(reader) => reader.seek(to, steps),
            TestReader::Plain(reader) => reader.seek(to, steps),
            TestReader::Any(reader) => reader.seek(to, steps),
        }
    }

    ghost rises = { reader_rises };

    ghost stands = { reader_stands };
}

impl<'a> BackReader for TestReader<'a> {
    fn prev(&self) -> Loc {
        match self {
            TestReader::Coded(reader) => reader.prev(),
            TestReader::Plain(reader) => reader.prev(),
            TestReader::Any(reader) => reader.prev(),
        }
    }

    ghost members = { reader_members };

    ghost left_is = { reader_left_is };
}
