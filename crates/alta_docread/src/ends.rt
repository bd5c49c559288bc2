// The ends of documents below a tree, with what such a reader keeps.
ghost use Rattle.std.specs.Prelude.{◌≡◌, ℕ, ◌+◌, ◌<◌, ◌≤◌};
ghost use Rattle.alta_codec.specs.Rising.{IsRising, IsPlace, first_from};
ghost use Rattle.alta_codec.specs.declared.location.TheConstants.{TOP};
ghost use Rattle.alta_docread.specs.Tree.{IsAhead};

use alta_codec::{Loc, Steps, TOP};
use alta_compound::EndReader;
use alta_reader::{BackReader, Reader};
use std::marker::Model;
use std::sync::ledger::Ledger;

/// A reader of ends that keeps what such a reader keeps, so that its calls need not be told.
#[derive(Drop)]
pub struct Ends<R: BackReader> {
    reader: EndReader<R>,
}

impl<R: BackReader> Model for Ends<R> {
    ghost use Rattle.alta_compound.specs.declared.end.EndReader.{EndReader};

    ghost Value = { EndReader R };

    ghost view = { λ e. e.reader };

    ghost invariant = { λ e. R.sound e.reader.inner };
}

impl<R: BackReader> Ends<R> {
    pub(crate) fn new(reader: EndReader<R>) -> Ends<R>
        requires { ⟦<EndReader<R> as Reader>⟧.sound reader }
        ensures { result ≡ reader }
    {
        Ends { reader }
    }

    /// The end where it stands, `TOP` past the last.
    pub(crate) fn place(&self) -> Loc
        ensures value { result ≡ ⟦<EndReader<R> as Reader>⟧.location self.now }
        ensures place { IsPlace (⟦<EndReader<R> as Reader>⟧.list self.now) result }
        ensures rising { IsRising (⟦<EndReader<R> as Reader>⟧.list self.now) }
        ensures top { result ≤ TOP }
    {
        self.reader.loc()
    }

    /// Goes to the first end at or above `to`, where it does not stand there yet.
    pub(crate) fn reach<L: Ledger>(&mut self, to: Loc, steps: &mut Steps<L>)
        requires ahead { IsAhead to (⟦<EndReader<R> as Reader>⟧.list self.old)
            (⟦<EndReader<R> as Reader>⟧.location self.old) }
        requires top { to ≤ TOP }
        ensures list { ⟦<EndReader<R> as Reader>⟧.list self.new ≡ ⟦<EndReader<R> as Reader>⟧.list self.old }
        ensures all { ⟦<EndReader<R> as Reader>⟧.all self.new ≡ ⟦<EndReader<R> as Reader>⟧.all self.old }
        ensures location { ⟦<EndReader<R> as Reader>⟧.location self.new
            ≡ first_from (⟦<EndReader<R> as Reader>⟧.list self.old) to }
        ensures rising { IsRising (⟦<EndReader<R> as Reader>⟧.list self.new) }
        ensures left { ⟦<EndReader<R> as Reader>⟧.left self.new ≤ ⟦<EndReader<R> as Reader>⟧.left self.old }
        ensures falls { ⟦<EndReader<R> as Reader>⟧.location self.old < to
            → ⟦<EndReader<R> as Reader>⟧.left self.new < ⟦<EndReader<R> as Reader>⟧.left self.old }
        ensures steps { steps.new + ⟦<EndReader<R> as Reader>⟧.left self.new
            ≤ steps.old + ⟦<EndReader<R> as Reader>⟧.left self.old }
    {
        if self.place() < to {
            self.reader.seek(to, steps)
        }
    }
}
