// A reader of the last locations of documents.
ghost use Rattle.std.specs.Prelude.{◌≡◌, ℕ, ◌+◌};
ghost use Rattle.alta_codec.specs.Rising.{pred_of};

use alta_codec::{Loc, Steps};
use alta_reader::{BackReader, Reader};
use std::sync::ledger::Ledger;

/// A reader of the last locations of documents, which also knows where the document of an end starts. It passes all
/// moves on to the reader that it is made of.
#[derive(Drop)]
pub struct EndReader<R: BackReader> {
    inner: R,
}

impl<R: BackReader> EndReader<R> {
    /// The reader of the ends that `inner` reads, which stands where that stands.
    pub fn new(inner: R) -> EndReader<R>
        requires { R.sound inner }
        ensures sound { ⟦<EndReader<R> as Reader>⟧.sound result }
        ensures list { ⟦<EndReader<R> as Reader>⟧.list result ≡ R.list inner }
        ensures all { ⟦<EndReader<R> as Reader>⟧.all result ≡ R.all inner }
        ensures location { ⟦<EndReader<R> as Reader>⟧.location result ≡ R.location inner }
        ensures left { ⟦<EndReader<R> as Reader>⟧.left result ≡ R.left inner }
    {
        EndReader { inner }
    }

    /// The reader that it is made of.
    pub fn into_inner(self) -> R
        ensures { result ≡ self.inner }
    {
        self.inner
    }

    /// The first location after the previous document: one past the end before the place, 1 where there is none.
    pub fn start(&self) -> Loc
        requires { ⟦<EndReader<R> as Reader>⟧.sound self.now }
        ensures { result ≡ pred_of (⟦<EndReader<R> as Reader>⟧.list self.now)
            (⟦<EndReader<R> as Reader>⟧.location self.now) + 1 }
    {
        self.inner.prev() + 1
    }
}

impl<R: BackReader> Reader for EndReader<R> {
    ghost sound = { λ s. R.sound s.inner };

    ghost list = { λ s. R.list s.inner };

    ghost location = { λ s. R.location s.inner };

    ghost all = { λ s. R.all s.inner };

    ghost left = { λ s. R.left s.inner };

    ghost cost = { λ s. R.cost s.inner };

    fn loc(&self) -> Loc {
        self.inner.loc()
    }

    fn next<L: Ledger>(&mut self, steps: &mut Steps<L>) {
        self.inner.next(steps)
    }

    fn seek<L: Ledger>(&mut self, to: Loc, steps: &mut Steps<L>) {
        self.inner.seek(to, steps)
    }

    ghost rises = { λ s h. R.rises s.inner h };

    ghost stands = { λ s h. R.stands s.inner h };
}

impl<R: BackReader> BackReader for EndReader<R> {
    fn prev(&self) -> Loc {
        self.inner.prev()
    }

    ghost members = { λ s h. R.members s.inner h };

    ghost left_is = { λ s h. R.left_is s.inner h };
}
