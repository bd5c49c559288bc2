// A reader of the lists of one term.
ghost use Rattle.std.specs.Prelude.{◌≡◌, refl};
ghost use Rattle.alta_search.specs.Words.{IsSoundChain, chain_list, chain_place, IsSoundTerm, term_list, term_place, term_left, term_cost};
ghost use Rattle.alta_search.specs.WordLaws.{term_stands};

use alta_codec::{Loc, Steps};
use alta_reader::{BackReader, Reader};
use alta_words::ChainReader;
use std::sync::ledger::Ledger;

/// A reader of the lists of one term through all levels, which keeps where it stands: a union compares its readers' places
/// again and again.
#[derive(Drop)]
pub struct TermReader<'a> {
    at: Loc,
    chain: ChainReader<'a>,
}

impl<'a> TermReader<'a> {
    /// The reader of the lists that the chain reads, which stands where that stands.
    pub(crate) fn new(chain: ChainReader<'a>) -> TermReader<'a>
        requires { IsSoundChain chain }
        ensures sound { IsSoundTerm result }
        ensures list { term_list result ≡ chain_list chain.entry }
        ensures place { term_place result ≡ chain_place chain.entry }
    {
        TermReader {
            at: chain.loc(),
            chain,
        }
    }
}

impl<'a> Reader for TermReader<'a> {
    ghost sound = { IsSoundTerm };

    ghost list = { term_list };

    ghost location = { term_place };

    ghost all = { term_list };

    ghost left = { term_left };

    ghost cost = { term_cost };

    #[inline(always)]
    fn loc(&self) -> Loc {
        self.at
    }

    #[inline(always)]
    fn next<L: Ledger>(&mut self, steps: &mut Steps<L>) {
        self.chain.next(steps);
        self.at = self.chain.loc();
    }

    #[inline(always)]
    fn seek<L: Ledger>(&mut self, to: Loc, steps: &mut Steps<L>) {
        self.chain.seek(to, steps);
        self.at = self.chain.loc();
    }

    ghost rises = { λ s h. h.0.1.rising };

    ghost stands = { term_stands };
}

impl<'a> BackReader for TermReader<'a> {
    fn prev(&self) -> Loc {
        self.chain.prev()
    }

    ghost members = { λ s h x. (λ m. m, λ m. m) };

    ghost left_is = { λ s h. refl };
}
