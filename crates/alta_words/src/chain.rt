// A reader of several lists, one behind the other.
ghost use Rattle.std.specs.Prelude.{◌≡◌, refl, ℕ, ◌+◌, ◌<◌, ◌≤◌, [], map, length, slice_index, slice_index_or, slice_set, All};
ghost use Rattle.std.specs.List.{concat};
ghost use Rattle.alta_codec.specs.Rising.{IsRising, first_from, pred_of, count_from};
ghost use Rattle.alta_codec.specs.declared.location.TheConstants.{TOP};
ghost use Rattle.alta_words.specs.Chain.{IsChain, chain_place};
ghost use Rattle.alta_words.specs.Leaf.{leaf_list, leaf_place, IsSoundLeaf};
ghost use Rattle.alta_words.specs.Leaves.{GoesOn, MovesAtMostOne, leaves_of};

use crate::leaf::Leaf;
use alta_codec::{Loc, Steps, TOP};
use alta_reader::many::{place_at, prev_at};
use alta_reader::{BackReader, Reader};
use std::sync::ledger::Ledger;

/// The greatest element of the list of leaf `k`, 0 where it is empty.
#[inline(always)]
fn last_at(leaves: &[Leaf<'_>], k: usize) -> Loc
    requires sound { All IsSoundLeaf leaves.now }
    requires within { k < length leaves.now }
    ensures { result ≡ pred_of (slice_index_or (map leaf_list leaves.now) k []) TOP }
{
    leaves[k].last()
}

/// Moves leaf `j` to the first place of its list at or above `to`, by one step.
#[inline(always)]
fn seek_leaf<L: Ledger>(leaves: &mut [Leaf<'_>], j: usize, to: Loc, steps: &mut Steps<L>)
    requires sound { All IsSoundLeaf leaves.old }
    requires within { j < length leaves.old }
    requires above { slice_index (map leaf_place leaves.old) j < to }
    requires top { to ≤ TOP }
    ensures sound { All IsSoundLeaf leaves.new }
    ensures lists { map leaf_list leaves.new ≡ map leaf_list leaves.old }
    ensures places { map leaf_place leaves.new
        ≡ slice_set (map leaf_place leaves.old) j (first_from (slice_index_or (map leaf_list leaves.old) j []) to) }
    ensures moved { MovesAtMostOne leaves.old leaves.new }
    ensures one { steps.new ≡ steps.old + 1 }
{
    leaves[j].seek(to, steps);
}

/// The first leaf from `from` on whose list reaches `to`, the number of leaves where none does.
fn leaf_from(leaves: &[Leaf<'_>], from: usize, to: Loc) -> usize
    requires sound { All IsSoundLeaf leaves.now }
    requires within { from ≤ length leaves.now }
    ensures after { from ≤ result }
    ensures within { result ≤ length leaves.now }
    ensures skipped { (k : ℕ) → from ≤ k → k < result
        → pred_of (slice_index_or (map leaf_list leaves.now) k []) TOP < to }
    ensures found { result < length leaves.now
        → to ≤ pred_of (slice_index_or (map leaf_list leaves.now) result []) TOP }
{
    let mut at = from;
    'leaves: while at < leaves.len() && last_at(leaves, at) < to {
        at += 1;
    }
    at
}

/// Goes on to the first place at or above `to`, and answers the leaf that stands there. At most that one moves.
#[inline(never)]
fn go_far<L: Ledger>(leaves: &mut [Leaf<'_>], at: usize, to: Loc, steps: &mut Steps<L>) -> usize
    requires sound { All IsSoundLeaf leaves.old }
    requires chain { IsChain (map leaf_list leaves.old) (map leaf_place leaves.old) at }
    requires above { slice_index_or (map leaf_place leaves.old) at TOP < to }
    requires top { to ≤ TOP }
    ensures { GoesOn leaves.old leaves.new at to result steps.old steps.new }
{
    let next = leaf_from(leaves, at, to);
    if next == leaves.len() {
        return next;
    }
    let here = place_at(leaves, next);
    if here >= to {
        return next;
    }
    seek_leaf(leaves, next, to, steps);
    next
}

/// The same, which mostly is a move of the leaf that is being read.
#[inline(always)]
fn go<L: Ledger>(leaves: &mut [Leaf<'_>], at: usize, to: Loc, steps: &mut Steps<L>) -> usize
    requires sound { All IsSoundLeaf leaves.old }
    requires chain { IsChain (map leaf_list leaves.old) (map leaf_place leaves.old) at }
    requires above { slice_index_or (map leaf_place leaves.old) at TOP < to }
    requires top { to ≤ TOP }
    ensures { GoesOn leaves.old leaves.new at to result steps.old steps.new }
{
    if last_at(leaves, at) >= to {
        seek_leaf(leaves, at, to, steps);
        return at;
    }
    go_far(leaves, at, to, steps)
}

/// The element before the chain's place, 0 where there is none.
fn prev_of(leaves: &[Leaf<'_>], at: usize) -> Loc
    requires sound { All IsSoundLeaf leaves.now }
    requires chain { IsChain (map leaf_list leaves.now) (map leaf_place leaves.now) at }
    ensures { result ≡ pred_of (concat (map leaf_list leaves.now)) (slice_index_or (map leaf_place leaves.now) at TOP) }
{
    if at < leaves.len() {
        let near = prev_at(leaves, at);
        if near > 0 {
            return near;
        }
    }
    let mut k = at;
    'back: while k > 0 {
        let last = last_at(leaves, k - 1);
        if last > 0 {
            return last;
        }
        k -= 1;
    }
    0
}

/// A reader of the lists of several leaves as one: all locations of a leaf lie below those of the later ones.
#[derive(Drop)]
pub struct ChainReader<'a> {
    leaves: Vec<Leaf<'a>>,
    at: usize,
}

impl<'a> ChainReader<'a> {
    /// The reader of the joined list, which stands at its first location. No leaf was moved before.
    pub fn new(leaves: Vec<Leaf<'a>>) -> ChainReader<'a>
        requires sound { All IsSoundLeaf leaves.items }
        requires unmoved { All (λ r. leaf_place r ≡ first_from (leaf_list r) 0) leaves.items }
        requires in_order { IsRising (concat (map leaf_list leaves.items)) }
        ensures sound { ⟦<ChainReader<'a> as Reader>⟧.sound result }
        ensures list { ⟦<ChainReader<'a> as Reader>⟧.list result ≡ concat (map leaf_list leaves.entry.items) }
        ensures all { ⟦<ChainReader<'a> as Reader>⟧.all result ≡ concat (map leaf_list leaves.entry.items) }
        ensures unmoved { ⟦<ChainReader<'a> as Reader>⟧.location result
            ≡ first_from (concat (map leaf_list leaves.entry.items)) 0 }
        ensures left { ⟦<ChainReader<'a> as Reader>⟧.left result ≡ length (concat (map leaf_list leaves.entry.items)) }
        ensures leaves { leaves_of result ≡ leaves.entry.items }
    {
        let at = leaf_from(&leaves, 0, 1);
        ChainReader { leaves, at }
    }
}

impl<'a> Reader for ChainReader<'a> {
    ghost sound = { λ s. All IsSoundLeaf s.leaves.items
        × IsChain (map leaf_list s.leaves.items) (map leaf_place s.leaves.items) s.at };

    ghost list = { λ s. concat (map leaf_list s.leaves.items) };

    ghost location = { λ s. slice_index_or (map leaf_place s.leaves.items) s.at TOP };

    ghost all = { λ s. concat (map leaf_list s.leaves.items) };

    ghost left = { λ s. count_from (concat (map leaf_list s.leaves.items))
        (slice_index_or (map leaf_place s.leaves.items) s.at TOP) };

    ghost cost = { λ s. 1 };

    fn loc(&self) -> Loc {
        if self.at < self.leaves.len() {
            place_at(&self.leaves, self.at)
        } else {
            TOP
        }
    }

    /// Goes to the next location, or to `TOP` past the last. It moves at most one leaf.
    #[inline(always)]
    fn next<L: Ledger>(&mut self, steps: &mut Steps<L>)
        requires sound { ⟦<ChainReader<'a> as Reader>⟧.sound self.old }
        requires below { ⟦<ChainReader<'a> as Reader>⟧.location self.old < TOP }
        ensures sound { ⟦<ChainReader<'a> as Reader>⟧.sound self.new }
        ensures list { ⟦<ChainReader<'a> as Reader>⟧.list self.new ≡ ⟦<ChainReader<'a> as Reader>⟧.list self.old }
        ensures all { ⟦<ChainReader<'a> as Reader>⟧.all self.new ≡ ⟦<ChainReader<'a> as Reader>⟧.all self.old }
        ensures location { ⟦<ChainReader<'a> as Reader>⟧.location self.new
            ≡ first_from (⟦<ChainReader<'a> as Reader>⟧.list self.old)
            (⟦<ChainReader<'a> as Reader>⟧.location self.old + 1) }
        ensures falls { ⟦<ChainReader<'a> as Reader>⟧.left self.new < ⟦<ChainReader<'a> as Reader>⟧.left self.old }
        ensures steps { steps.new + ⟦<ChainReader<'a> as Reader>⟧.left self.new
            ≤ steps.old + ⟦<ChainReader<'a> as Reader>⟧.left self.old }
        ensures cost { steps.new ≤ steps.old + 1 }
        ensures moved { MovesAtMostOne (leaves_of self.old) (leaves_of self.new) }
    {
        let here = self.loc();
        self.at = go(&mut self.leaves, self.at, here + 1, steps);
    }

    /// Goes to the least location at or above `to`, or to `TOP` past the last. It moves at most one leaf.
    #[inline(always)]
    fn seek<L: Ledger>(&mut self, to: Loc, steps: &mut Steps<L>)
        requires sound { ⟦<ChainReader<'a> as Reader>⟧.sound self.old }
        requires above { ⟦<ChainReader<'a> as Reader>⟧.location self.old < to }
        requires top { to ≤ TOP }
        ensures sound { ⟦<ChainReader<'a> as Reader>⟧.sound self.new }
        ensures list { ⟦<ChainReader<'a> as Reader>⟧.list self.new ≡ ⟦<ChainReader<'a> as Reader>⟧.list self.old }
        ensures all { ⟦<ChainReader<'a> as Reader>⟧.all self.new ≡ ⟦<ChainReader<'a> as Reader>⟧.all self.old }
        ensures location { ⟦<ChainReader<'a> as Reader>⟧.location self.new
            ≡ first_from (⟦<ChainReader<'a> as Reader>⟧.list self.old) to }
        ensures falls { ⟦<ChainReader<'a> as Reader>⟧.left self.new < ⟦<ChainReader<'a> as Reader>⟧.left self.old }
        ensures steps { steps.new + ⟦<ChainReader<'a> as Reader>⟧.left self.new
            ≤ steps.old + ⟦<ChainReader<'a> as Reader>⟧.left self.old }
        ensures cost { steps.new ≤ steps.old + 1 }
        ensures moved { MovesAtMostOne (leaves_of self.old) (leaves_of self.new) }
    {
        self.at = go(&mut self.leaves, self.at, to, steps);
    }

    ghost rises = { λ s h. h.1.rising };

    ghost stands = { λ s h. chain_place (map leaf_list s.leaves.items) (map leaf_place s.leaves.items) s.at h.1 };
}

impl<'a> BackReader for ChainReader<'a> {
    fn prev(&self) -> Loc {
        prev_of(&self.leaves, self.at)
    }

    ghost members = { λ s h x. (λ m. m, λ m. m) };

    ghost left_is = { λ s h. refl };
}
