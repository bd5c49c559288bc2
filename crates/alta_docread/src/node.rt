// Trees of document readers.
// A tree is asked by moves alone, which answer where it then stands, so none is asked again for what it answered. A pass over an
// intersection answers the least and the last of its trees' places: where both are the same all stand there. At its end all are
// brought to theirs. A union of no trees stands at TOP from its making.
ghost use Rattle.std.specs.Prelude.{◌≡◌, ◌↔◌, ℕ, ◌<◌, length, Contains, All, Any};
ghost use Rattle.alta_codec.specs.Rising.{first_from};
ghost use Rattle.alta_docread.specs.FoundView.{walk_of};
ghost use Rattle.alta_docread.specs.Tree.{tree_list, IsUnmoved, found, all_of, any_of, without};
ghost use Rattle.alta_docread.specs.View.{reading_of, tree_of, trees_in, apart_of};

use crate::ends::Ends;
use crate::found::Found;
use alta_codec::Loc;
use alta_compound::EndReader;
use alta_reader::{BackReader, Reader};

/// A tree of document readers over readers `R`, which a plan gives. An intersection stands at the greatest place of its
/// trees, a union at the least; a tree stands nowhere, at 0, until its first move. Its depth is the plan's, which the query bounds, and
/// the recursion over it goes no deeper.
#[cycle(node)]
#[derive(Drop)]
pub enum Node<R: BackReader> {
    /// The ends of the documents that have a solution.
    Found(Box<Found<R>>),
    /// The ends that each tree has.
    AllOf(Vec<Node<R>>),
    /// The ends that some tree has.
    AnyOf(Vec<Node<R>>),
    /// The ends that a tree does not have.
    Without(Box<Without<R>>),
}

/// A reader of the ends that a tree does not have. It stands nowhere, at 0, until its first move.
#[cycle(node)]
#[derive(Drop)]
pub struct Without<R: BackReader> {
    pub(crate) ends: Ends<R>,
    pub(crate) child: Node<R>,
    pub(crate) at: Loc,
}

impl<R: BackReader> Without<R> {
    /// The reader of the ends that are not in the list of `child`.
    pub fn new(ends: EndReader<R>, child: Node<R>) -> Without<R>
        requires { ⟦<EndReader<R> as Reader>⟧.sound ends }
        ensures members { (z : ℕ) → Contains (tree_list (apart_of R.list R.all R.location R.left result)) z
            ↔ (Contains (⟦<EndReader<R> as Reader>⟧.list ends) z
            × (Contains (tree_list (tree_of R.list R.all R.location R.left child)) z → ⊥)) }
        ensures unmoved { ⟦<EndReader<R> as Reader>⟧.location ends ≡ first_from (⟦<EndReader<R> as Reader>⟧.list ends) 0
            → IsUnmoved (tree_of R.list R.all R.location R.left child)
            → IsUnmoved (apart_of R.list R.all R.location R.left result) }
        ensures tree { apart_of R.list R.all R.location R.left result
            ≡ without 0 (reading_of R.list R.all R.location R.left ends)
            (tree_of R.list R.all R.location R.left child) }
    {
        Without {
            ends: Ends::new(ends),
            child,
            at: 0,
        }
    }
}

/// The node of an intersection.
fn joint<R: BackReader>(nodes: Vec<Node<R>>) -> Node<R>
    ensures { tree_of R.list R.all R.location R.left result
        ≡ all_of (trees_in R.list R.all R.location R.left nodes.items) }
{
    Node::AllOf(nodes)
}

/// The node of a union.
fn united<R: BackReader>(nodes: Vec<Node<R>>) -> Node<R>
    ensures { tree_of R.list R.all R.location R.left result
        ≡ any_of (trees_in R.list R.all R.location R.left nodes.items) }
{
    Node::AnyOf(nodes)
}

impl<R: BackReader> Node<R> {
    /// The tree of one `Found`.
    pub fn found(reader: Box<Found<R>>) -> Node<R>
        ensures { tree_of R.list R.all R.location R.left result
            ≡ found (walk_of R.list R.all R.location R.left reader.value) }
    {
        Node::Found(reader)
    }

    /// The intersection of the trees.
    pub fn all_of(nodes: Vec<Node<R>>) -> Node<R>
        ensures members { (z : ℕ) → Contains (tree_list (tree_of R.list R.all R.location R.left result)) z
            ↔ ((0 < length nodes.items)
            × All (λ n. Contains (tree_list (tree_of R.list R.all R.location R.left n)) z) nodes.items) }
        ensures unmoved { 0 < length nodes.items
            → All (λ n. IsUnmoved (tree_of R.list R.all R.location R.left n)) nodes.items
            → IsUnmoved (tree_of R.list R.all R.location R.left result) }
        ensures tree { tree_of R.list R.all R.location R.left result
            ≡ all_of (trees_in R.list R.all R.location R.left nodes.items) }
    {
        joint(nodes)
    }

    /// The union of the trees.
    pub fn any_of(nodes: Vec<Node<R>>) -> Node<R>
        ensures members { (z : ℕ) → Contains (tree_list (tree_of R.list R.all R.location R.left result)) z
            ↔ Any (λ n. Contains (tree_list (tree_of R.list R.all R.location R.left n)) z) nodes.items }
        ensures unmoved { All (λ n. IsUnmoved (tree_of R.list R.all R.location R.left n)) nodes.items
            → IsUnmoved (tree_of R.list R.all R.location R.left result) }
        ensures tree { tree_of R.list R.all R.location R.left result
            ≡ any_of (trees_in R.list R.all R.location R.left nodes.items) }
    {
        united(nodes)
    }

    /// The ends that a tree does not have.
    pub fn without(reader: Box<Without<R>>) -> Node<R>
        ensures { tree_of R.list R.all R.location R.left result ≡ apart_of R.list R.all R.location R.left reader.value }
    {
        Node::Without(reader)
    }
}
