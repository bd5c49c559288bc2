// A difference of ends as a reader.
// Its ends are kept in a type with an invariant, so that what a tree keeps is said of plain lists and places alone.
ghost use Rattle.std.specs.Prelude.{◌<◌};
ghost use Rattle.alta_docread.specs.Tree.{tree_list, tree_all, tree_left, IsSoundTree, IsMoved, IsUnmoved};
ghost use Rattle.alta_docread.specs.TreeLaws.{tree_rises, tree_stands};
ghost use Rattle.alta_docread.specs.View.{apart_of};

use crate::moves::go_without;
use crate::node::Without;
use alta_codec::{Loc, Steps};
use alta_reader::{BackReader, Reader};
use std::sync::ledger::Ledger;

impl<R: BackReader> Without<R> {
    /// Goes to its first end. No reader was moved.
    pub fn begin<L: Ledger>(&mut self, steps: &mut Steps<L>)
        requires { IsUnmoved (apart_of R.list R.all R.location R.left self.old) }
        ensures sound { ⟦<Without<R> as Reader>⟧.sound self.new }
        ensures moved { IsMoved (apart_of R.list R.all R.location R.left self.old)
            (apart_of R.list R.all R.location R.left self.new) 1 steps.old steps.new }
    {
        go_without(self, 1, steps);
    }
}

impl<R: BackReader> Reader for Without<R> {
    ghost sound = { λ s. IsSoundTree (apart_of R.list R.all R.location R.left s) × (0 < s.at) };

    ghost list = { λ s. tree_list (apart_of R.list R.all R.location R.left s) };

    ghost location = { λ s. s.at };

    ghost all = { λ s. tree_all (apart_of R.list R.all R.location R.left s) };

    ghost left = { λ s. tree_left (apart_of R.list R.all R.location R.left s) };

    ghost cost = { λ s. tree_left (apart_of R.list R.all R.location R.left s) };

    fn loc(&self) -> Loc {
        self.at
    }

    fn next<L: Ledger>(&mut self, steps: &mut Steps<L>) {
        let to = self.at + 1;
        go_without(self, to, steps);
    }

    fn seek<L: Ledger>(&mut self, to: Loc, steps: &mut Steps<L>) {
        go_without(self, to, steps);
    }

    ghost rises = { λ s h. tree_rises (apart_of R.list R.all R.location R.left s) h.0 };

    ghost stands = { λ s h. tree_stands (apart_of R.list R.all R.location R.left s) h.0 h.1 };
}
