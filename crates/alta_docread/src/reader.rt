// A tree of document readers as one reader.
// A reader that was not moved stands at 0, which is no location: its making takes no steps, so it can't know its first end. `new`
// brings it there.
ghost use Rattle.std.specs.Prelude.{◌≡◌, ℕ, ◌+◌, ◌<◌, ◌≤◌, All, IsTrue};
ghost use Rattle.alta_codec.specs.Rising.{IsPlace, first_from, count_from};
ghost use Rattle.alta_codec.specs.declared.location.TheConstants.{TOP};
ghost use Rattle.alta_docread.specs.DocView.{IsReading};
ghost use Rattle.alta_docread.specs.Tree.{tree_list, tree_all, tree_left, IsOneFound, IsUnmoved};
ghost use Rattle.alta_docread.specs.View.{tree_of};

use crate::moves::seek;
use crate::node::Node;
use alta_codec::{Loc, Steps, TOP};
use alta_reader::{BackReader, Reader};
use std::marker::Model;
use std::sync::ledger::Ledger;

/// A reader of the ends of the documents that a tree matches. Contracts see the lists and numbers of its tree. Neither its
/// making nor a move takes memory.
#[derive(Drop)]
pub struct DocReader<R: BackReader> {
    node: Node<R>,
    /// Where the tree stands.
    at: Loc,
}

impl<R: BackReader> Model for DocReader<R> {
    ghost use Rattle.std.specs.Prelude.{◌≡◌, ◌<◌};
    ghost use Rattle.alta_docread.specs.DocView.{DocView, view_of};
    ghost use Rattle.alta_docread.specs.Tree.{tree_place, IsSoundTree};
    ghost use Rattle.alta_docread.specs.View.{tree_of};

    ghost Value = { DocView };

    ghost view = { λ s. view_of (tree_of R.list R.all R.location R.left s.node) };

    ghost invariant = { λ s. IsSoundTree (tree_of R.list R.all R.location R.left s.node) × (0 < s.at)
        × (s.at ≡ tree_place (tree_of R.list R.all R.location R.left s.node)) };
}

impl<R: BackReader> DocReader<R> {
    /// The reader of the tree, which stands at the first end. No reader of the tree was moved, and each intersection has
    /// a tree. The steps that it adds are at most what is left of the readers falls.
    pub fn new<L: Ledger>(node: Node<R>, steps: &mut Steps<L>) -> DocReader<R>
        requires { IsUnmoved (tree_of R.list R.all R.location R.left node) }
        ensures sound { ⟦<DocReader<R> as Reader>⟧.sound result }
        ensures list { ⟦<DocReader<R> as Reader>⟧.list result
            ≡ tree_list (tree_of R.list R.all R.location R.left node) }
        ensures all { ⟦<DocReader<R> as Reader>⟧.all result ≡ tree_all (tree_of R.list R.all R.location R.left node) }
        ensures location { ⟦<DocReader<R> as Reader>⟧.location result
            ≡ first_from (tree_list (tree_of R.list R.all R.location R.left node)) 1 }
        ensures one_found { IsOneFound (tree_of R.list R.all R.location R.left node) → IsTrue result.one }
        ensures left { ⟦<DocReader<R> as Reader>⟧.left result
            ≤ tree_left (tree_of R.list R.all R.location R.left node) }
        ensures steps { steps.new + ⟦<DocReader<R> as Reader>⟧.left result
            ≤ steps.old + tree_left (tree_of R.list R.all R.location R.left node) }
    {
        DocReader::starting_at(node, 1, steps)
    }

    /// The same, which stands at the first end at or above a place, or at `TOP` where there is none. It goes there at once,
    /// and to no end before.
    pub fn starting_at<L: Ledger>(node: Node<R>, place: Loc, steps: &mut Steps<L>) -> DocReader<R>
        requires unmoved { IsUnmoved (tree_of R.list R.all R.location R.left node) }
        requires some { 0 < place }
        requires top { place ≤ TOP }
        ensures sound { ⟦<DocReader<R> as Reader>⟧.sound result }
        ensures list { ⟦<DocReader<R> as Reader>⟧.list result
            ≡ tree_list (tree_of R.list R.all R.location R.left node) }
        ensures all { ⟦<DocReader<R> as Reader>⟧.all result ≡ tree_all (tree_of R.list R.all R.location R.left node) }
        ensures location { ⟦<DocReader<R> as Reader>⟧.location result
            ≡ first_from (tree_list (tree_of R.list R.all R.location R.left node)) place }
        ensures one_found { IsOneFound (tree_of R.list R.all R.location R.left node) → IsTrue result.one }
        ensures left { ⟦<DocReader<R> as Reader>⟧.left result
            ≤ tree_left (tree_of R.list R.all R.location R.left node) }
        ensures steps { steps.new + ⟦<DocReader<R> as Reader>⟧.left result
            ≤ steps.old + tree_left (tree_of R.list R.all R.location R.left node) }
    {
        let mut node = node;
        let at = seek(&mut node, place, steps);
        DocReader { node, at }
    }
}

impl<R: BackReader> Reader for DocReader<R> {
    ghost sound = { IsReading };

    ghost list = { λ s. s.list };

    ghost location = { λ s. s.place };

    ghost all = { λ s. s.all };

    ghost left = { λ s. s.left };

    ghost cost = { λ s. s.left };

    /// Where it stands. Over one `Found` and below `TOP`, each reader stands there or before, and no element of the leaves at
    /// or above there was passed.
    fn loc(&self) -> Loc
        requires { ⟦<DocReader<R> as Reader>⟧.sound self.now }
        ensures location { result ≡ ⟦<DocReader<R> as Reader>⟧.location self.now }
        ensures place { IsPlace (⟦<DocReader<R> as Reader>⟧.list self.now) result }
        ensures within { IsTrue self.now.one → result < TOP
            → All (λ x. x ≤ result) self.now.places }
        ensures unpassed { IsTrue self.now.one → result < TOP
            → count_from (⟦<DocReader<R> as Reader>⟧.all self.now) result ≤ ⟦<DocReader<R> as Reader>⟧.left self.now }
    {
        self.at
    }

    /// Goes to the next end, or to `TOP` past the last.
    fn next<L: Ledger>(&mut self, steps: &mut Steps<L>)
        requires sound { ⟦<DocReader<R> as Reader>⟧.sound self.old }
        requires below { ⟦<DocReader<R> as Reader>⟧.location self.old < TOP }
        ensures sound { ⟦<DocReader<R> as Reader>⟧.sound self.new }
        ensures list { ⟦<DocReader<R> as Reader>⟧.list self.new ≡ ⟦<DocReader<R> as Reader>⟧.list self.old }
        ensures all { ⟦<DocReader<R> as Reader>⟧.all self.new ≡ ⟦<DocReader<R> as Reader>⟧.all self.old }
        ensures location { ⟦<DocReader<R> as Reader>⟧.location self.new
            ≡ first_from (⟦<DocReader<R> as Reader>⟧.list self.old) (⟦<DocReader<R> as Reader>⟧.location self.old + 1) }
        ensures falls { ⟦<DocReader<R> as Reader>⟧.left self.new < ⟦<DocReader<R> as Reader>⟧.left self.old }
        ensures steps { steps.new + ⟦<DocReader<R> as Reader>⟧.left self.new
            ≤ steps.old + ⟦<DocReader<R> as Reader>⟧.left self.old }
        ensures cost { steps.new ≤ steps.old + ⟦<DocReader<R> as Reader>⟧.cost self.old }
        ensures one_found { IsTrue self.old.one → IsTrue self.new.one }
    {
        self.at = seek(&mut self.node, self.at + 1, steps);
    }

    /// Goes to the least end at or above `to`, or to `TOP` past the last.
    fn seek<L: Ledger>(&mut self, to: Loc, steps: &mut Steps<L>)
        requires sound { ⟦<DocReader<R> as Reader>⟧.sound self.old }
        requires above { ⟦<DocReader<R> as Reader>⟧.location self.old < to }
        requires top { to ≤ TOP }
        ensures sound { ⟦<DocReader<R> as Reader>⟧.sound self.new }
        ensures list { ⟦<DocReader<R> as Reader>⟧.list self.new ≡ ⟦<DocReader<R> as Reader>⟧.list self.old }
        ensures all { ⟦<DocReader<R> as Reader>⟧.all self.new ≡ ⟦<DocReader<R> as Reader>⟧.all self.old }
        ensures location { ⟦<DocReader<R> as Reader>⟧.location self.new
            ≡ first_from (⟦<DocReader<R> as Reader>⟧.list self.old) to }
        ensures falls { ⟦<DocReader<R> as Reader>⟧.left self.new < ⟦<DocReader<R> as Reader>⟧.left self.old }
        ensures steps { steps.new + ⟦<DocReader<R> as Reader>⟧.left self.new
            ≤ steps.old + ⟦<DocReader<R> as Reader>⟧.left self.old }
        ensures cost { steps.new ≤ steps.old + ⟦<DocReader<R> as Reader>⟧.cost self.old }
        ensures one_found { IsTrue self.old.one → IsTrue self.new.one }
    {
        self.at = seek(&mut self.node, to, steps);
    }

    ghost rises = { λ s h. h.rising };

    ghost stands = { λ s h. h.stands };
}
