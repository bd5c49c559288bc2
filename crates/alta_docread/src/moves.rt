// Moves of trees of document readers.
ghost use Rattle.std.specs.Prelude.{◌≡◌, ◌<◌, ◌≤◌, length, All};
ghost use Rattle.alta_codec.specs.declared.location.TheConstants.{TOP};
ghost use Rattle.alta_docread.specs.FoundView.{walk_of};
ghost use Rattle.alta_docread.specs.Moves.{IsReached, IsPassed, IsJoined, IsAsked, IsSkipped};
ghost use Rattle.alta_docread.specs.Tree.{tree_place, tree_list, found, all_of, any_of, IsAhead, IsSoundTree, IsMoved};
ghost use Rattle.alta_docread.specs.View.{reading_of, tree_of, trees_in, apart_of};

use crate::ends::Ends;
use crate::found::Found;
use crate::node::{Node, Without};
use alta_codec::{Loc, Steps, TOP};
use alta_reader::BackReader;
use std::sync::ledger::Ledger;

/// Moves the tree to the first place of its list at or above `to`, where it does not stand there yet, and answers where it
/// stands. A tree below is asked by moves alone, so that none is asked again for what it answered.
#[cycle(moves)]
pub(crate) fn seek<R: BackReader, L: Ledger>(
    node: &mut Node<R>,
    to: Loc,
    steps: &mut Steps<L>,
) -> Loc
    requires sound { IsSoundTree (tree_of R.list R.all R.location R.left node.old) }
    requires some { 0 < to }
    requires top { to ≤ TOP }
    ensures place { result ≡ tree_place (tree_of R.list R.all R.location R.left node.new) }
    ensures moved { IsMoved (tree_of R.list R.all R.location R.left node.old)
        (tree_of R.list R.all R.location R.left node.new) to steps.old steps.new }
{
    match node {
        Node::Found(reader) => seek_found(reader, to, steps),
        Node::AllOf(nodes) => seek_all(nodes, to, steps),
        Node::AnyOf(nodes) => seek_any(nodes, to, steps),
        Node::Without(reader) => seek_without(reader, to, steps),
    }
}

/// Moves a `Found` to the first place of its list at or above `to`, and answers where it stands.
fn seek_found<R: BackReader, L: Ledger>(
    reader: &mut Box<Found<R>>,
    to: Loc,
    steps: &mut Steps<L>,
) -> Loc
    requires sound { IsSoundTree (found (walk_of R.list R.all R.location R.left reader.old.value)) }
    requires some { 0 < to }
    requires top { to ≤ TOP }
    ensures place { result ≡ reader.new.value.at }
    ensures moved { IsMoved (found (walk_of R.list R.all R.location R.left reader.old.value))
        (found (walk_of R.list R.all R.location R.left reader.new.value)) to steps.old steps.new }
{
    if reader.place() >= to {
        return reader.place();
    }
    reader.go(to, steps);
    reader.place()
}

/// Moves the trees of a union to their first places at or above `to`, and answers the least place.
#[cycle(moves)]
fn seek_any<R: BackReader, L: Ledger>(
    nodes: &mut Vec<Node<R>>,
    to: Loc,
    steps: &mut Steps<L>,
) -> Loc
    requires sound { IsSoundTree (any_of (trees_in R.list R.all R.location R.left nodes.old.items)) }
    requires some { 0 < to }
    requires top { to ≤ TOP }
    ensures place { result ≡ tree_place (any_of (trees_in R.list R.all R.location R.left nodes.new.items)) }
    ensures moved { IsMoved (any_of (trees_in R.list R.all R.location R.left nodes.old.items))
        (any_of (trees_in R.list R.all R.location R.left nodes.new.items)) to steps.old steps.new }
{
    seek_each(nodes, to, steps)
}

/// Moves each tree that stands below `to` to its first place there, and answers the least place.
#[cycle(moves)]
fn seek_each<R: BackReader, L: Ledger>(
    nodes: &mut Vec<Node<R>>,
    to: Loc,
    steps: &mut Steps<L>,
) -> Loc
    requires sound { All (λ n. IsSoundTree (tree_of R.list R.all R.location R.left n)) nodes.old.items }
    requires some { 0 < to }
    requires top { to ≤ TOP }
    ensures { IsReached (tree_of R.list R.all R.location R.left) nodes.old.items nodes.new.items to result
        steps.old steps.new }
{
    let mut least = TOP;
    for i in 0..nodes.len() {
        least = least.min(seek(&mut nodes[i], to, steps));
    }
    least
}

/// Moves the trees of an intersection to the first place at or above `to` that all their lists have, and answers it.
#[cycle(moves)]
fn seek_all<R: BackReader, L: Ledger>(
    nodes: &mut Vec<Node<R>>,
    to: Loc,
    steps: &mut Steps<L>,
) -> Loc
    requires sound { IsSoundTree (all_of (trees_in R.list R.all R.location R.left nodes.old.items)) }
    requires some { 0 < to }
    requires top { to ≤ TOP }
    ensures place { result ≡ tree_place (all_of (trees_in R.list R.all R.location R.left nodes.new.items)) }
    ensures moved { IsMoved (all_of (trees_in R.list R.all R.location R.left nodes.old.items))
        (all_of (trees_in R.list R.all R.location R.left nodes.new.items)) to steps.old steps.new }
{
    agree(nodes, to, steps)
}

/// Brings the trees to one place at or above `to`, and answers it. It passes over the trees until all stand at one place
/// after a pass.
#[cycle(moves)]
fn agree<R: BackReader, L: Ledger>(nodes: &mut Vec<Node<R>>, to: Loc, steps: &mut Steps<L>) -> Loc
    requires sound { All (λ n. IsSoundTree (tree_of R.list R.all R.location R.left n)) nodes.old.items }
    requires nodes { 0 < length nodes.old.items }
    requires some { 0 < to }
    requires top { to ≤ TOP }
    ensures { IsJoined (tree_of R.list R.all R.location R.left) nodes.old.items nodes.new.items to result
        steps.old steps.new }
{
    let mut goal = to;
    'agree: loop {
        let (least, last) = pass(nodes, goal, steps);
        if least == last {
            return last;
        }
        goal = last;
    }
}

/// Moves each tree in turn to where the one before stands, the first to `goal`, and answers the least of their places and
/// the last.
#[cycle(moves)]
fn pass<R: BackReader, L: Ledger>(
    nodes: &mut Vec<Node<R>>,
    goal: Loc,
    steps: &mut Steps<L>,
) -> (Loc, Loc)
    requires sound { All (λ n. IsSoundTree (tree_of R.list R.all R.location R.left n)) nodes.old.items }
    requires nodes { 0 < length nodes.old.items }
    requires some { 0 < goal }
    requires top { goal ≤ TOP }
    ensures { IsPassed (tree_of R.list R.all R.location R.left) nodes.old.items nodes.new.items goal result.0 result.1
        steps.old steps.new }
{
    let mut least = TOP;
    let mut last = goal;
    for i in 0..nodes.len() {
        last = seek(&mut nodes[i], last, steps);
        least = least.min(last);
    }
    (least, last)
}

/// Moves a difference to its first end at or above `to`, and answers where it stands.
#[cycle(moves)]
fn seek_without<R: BackReader, L: Ledger>(
    reader: &mut Box<Without<R>>,
    to: Loc,
    steps: &mut Steps<L>,
) -> Loc
    requires sound { IsSoundTree (apart_of R.list R.all R.location R.left reader.old.value) }
    requires some { 0 < to }
    requires top { to ≤ TOP }
    ensures place { result ≡ reader.new.value.at }
    ensures moved { IsMoved (apart_of R.list R.all R.location R.left reader.old.value)
        (apart_of R.list R.all R.location R.left reader.new.value) to steps.old steps.new }
{
    if reader.at >= to {
        return reader.at;
    }
    go_without(reader, to, steps);
    reader.at
}

/// Moves a difference that stands below `to` to its first end at or above it.
#[cycle(moves)]
pub(crate) fn go_without<R: BackReader, L: Ledger>(
    reader: &mut Without<R>,
    to: Loc,
    steps: &mut Steps<L>,
)
    requires sound { IsSoundTree (apart_of R.list R.all R.location R.left reader.old) }
    requires above { reader.old.at < to }
    requires top { to ≤ TOP }
    ensures { IsMoved (apart_of R.list R.all R.location R.left reader.old)
        (apart_of R.list R.all R.location R.left reader.new) to steps.old steps.new }
{
    reader.at = skip(&mut reader.ends, &mut reader.child, to, steps);
}

/// Brings the ends to the first at or above `to` that the tree's list does not have, and answers it.
#[cycle(moves)]
fn skip<R: BackReader, L: Ledger>(
    ends: &mut Ends<R>,
    child: &mut Node<R>,
    to: Loc,
    steps: &mut Steps<L>,
) -> Loc
    requires sound { IsSoundTree (tree_of R.list R.all R.location R.left child.old) }
    requires ends { IsAhead to (reading_of R.list R.all R.location R.left ends.old).list
        (reading_of R.list R.all R.location R.left ends.old).place }
    requires ahead { IsAhead to (tree_list (tree_of R.list R.all R.location R.left child.old))
        (tree_place (tree_of R.list R.all R.location R.left child.old)) }
    requires some { 0 < to }
    requires top { to ≤ TOP }
    ensures { IsSkipped (reading_of R.list R.all R.location R.left ends.old)
        (reading_of R.list R.all R.location R.left ends.new) (tree_of R.list R.all R.location R.left child.old)
        (tree_of R.list R.all R.location R.left child.new) to result steps.old steps.new }
{
    ends.reach(to, steps);
    'ends: while has(child, ends.place(), steps) {
        ends.reach(ends.place() + 1, steps);
    }
    ends.place()
}

/// Whether the tree's list has the end. It moves the tree there, where the end is below `TOP`.
#[cycle(moves)]
fn has<R: BackReader, L: Ledger>(child: &mut Node<R>, end: Loc, steps: &mut Steps<L>) -> bool
    requires sound { IsSoundTree (tree_of R.list R.all R.location R.left child.old) }
    requires ahead { IsAhead end (tree_list (tree_of R.list R.all R.location R.left child.old))
        (tree_place (tree_of R.list R.all R.location R.left child.old)) }
    requires some { 0 < end }
    requires top { end ≤ TOP }
    ensures { IsAsked (tree_of R.list R.all R.location R.left child.old)
        (tree_of R.list R.all R.location R.left child.new) end result steps.old steps.new }
{
    if end == TOP {
        return false;
    }
    seek(child, end, steps) == end
}
