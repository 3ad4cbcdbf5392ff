//! A slice that is a search tree: its root is in the middle, and the slices before and after it are
//! its subtrees.
ghost use Rattle.std.specs.Prelude.{◌≡◌, ◌<◌, ◌++◌, ◌∷◌, [], List, Some};
ghost use Rattle.ipnetwork_family.specs.Network.{Network};
ghost use Rattle.reducing.specs.Joining.{joined};
ghost use Rattle.reducing.specs.Private.ListParts.{IsSpan, JoinsFirst, least, no_pair};
ghost use Rattle.reducing.specs.Private.Trees.{IsTaken, IsTree, alone, blocks, from_end};

use crate::joining::joined;
use crate::span::{Span, alone, between, followed, least};
use ipnetwork_blocks::AddressSpace;

/// A place for a block of a list, and the span of the blocks in the tree of which it is the root.
#[derive(Clone, Copy)]
pub(crate) struct Node<N> {
    pub(crate) block: Option<N>,
    pub(crate) span: Option<Span<N>>,
}

// An end of a list.
#[derive(Clone, Copy)]
enum End {
    First,
    Last,
}

/// The span of the blocks in a tree.
pub(crate) fn span<N: AddressSpace>(tree: &[Node<N>]) -> Option<Span<N>>
    requires { IsTree N.WIDTH N.pair tree.now }
    ensures { IsSpan N.WIDTH N.pair (blocks N.pair tree.now) result }
{
    match tree.get(tree.len() / 2) {
        Some(root) => root.span,
        None => None,
    }
}

// The root of a tree.
fn root<N: AddressSpace>(left: &[Node<N>], block: Option<N>, right: &[Node<N>]) -> Node<N>
    requires left { IsTree N.WIDTH N.pair left.now }
    requires right { IsTree N.WIDTH N.pair right.now }
    ensures block { result.block ≡ block }
    ensures span { IsSpan N.WIDTH N.pair
        ((blocks N.pair left.now ++ alone N.pair block) ++ blocks N.pair right.now) result.span }
{
    let span = followed(followed(span(left), alone(block)), span(right));
    Node { block, span }
}

/// Makes a tree of the blocks in these places.
pub(crate) fn build<N: AddressSpace>(tree: &mut [Node<N>])
    ensures tree { IsTree N.WIDTH N.pair tree.new }
    ensures blocks { blocks N.pair tree.new ≡ blocks N.pair tree.old }
{
    if tree.is_empty() {
        return;
    }
    let middle = tree.len() / 2;
    let (left, rest) = tree.split_at_mut(middle);
    let (place, right) = rest.split_at_mut(1);
    build(left);
    build(right);
    place[0] = root(left, place[0].block, right);
}

// Takes out the block at this end.
#[cycle(take)]
fn take<N: AddressSpace>(tree: &mut [Node<N>], end: End) -> Option<N>
    requires { IsTree N.WIDTH N.pair tree.old }
    ensures tree { IsTree N.WIDTH N.pair tree.new }
    ensures taken { IsTaken N.pair end (blocks N.pair tree.old) (blocks N.pair tree.new) result }
{
    if span(tree).is_none() {
        return None;
    }
    let middle = tree.len() / 2;
    let (left, rest) = tree.split_at_mut(middle);
    let (place, right) = rest.split_at_mut(1);
    let block = place[0].block;
    let (taken, block) = match end {
        End::First => take_from(left, block, right, End::First),
        End::Last => take_from(right, block, left, End::Last),
    };
    place[0] = root(left, block, right);
    taken
}

// Takes out the block at this end, where the near tree is, of two trees and the block between them.
// Returns what was taken, and the block that is then between the trees.
#[cycle(take)]
fn take_from<N: AddressSpace>(
    near: &mut [Node<N>],
    block: Option<N>,
    far: &mut [Node<N>],
    end: End,
) -> (Option<N>, Option<N>)
    requires near { IsTree N.WIDTH N.pair near.old }
    requires far { IsTree N.WIDTH N.pair far.old }
    ensures near { IsTree N.WIDTH N.pair near.new }
    ensures far { IsTree N.WIDTH N.pair far.new }
    ensures taken { IsTaken N.pair end
        (from_end end (blocks N.pair near.old) (alone N.pair block) (blocks N.pair far.old))
        (from_end end (blocks N.pair near.new) (alone N.pair result.1) (blocks N.pair far.new))
        result.0 }
{
    if let Some(taken) = take(near, end) {
        return (Some(taken), block);
    }
    if let Some(taken) = block {
        return (Some(taken), None);
    }
    (take(far, end), None)
}

// Removes and returns the last block of a list: the blocks of a tree and, if there is one, `block`.
fn take_end<N: AddressSpace>(left: &mut [Node<N>], block: Option<N>) -> Option<N>
    requires { IsTree N.WIDTH N.pair left.old }
    ensures tree { IsTree N.WIDTH N.pair left.new }
    ensures taken { IsTaken N.pair End.Last
        (blocks N.pair left.old ++ alone N.pair block) (blocks N.pair left.new) result }
{
    if let Some(last) = block {
        return Some(last);
    }
    take(left, End::Last)
}

/// Joins the first two neighbours that have this number of others, the least in the tree.
#[cycle(join)]
pub(crate) fn join<N: AddressSpace>(tree: &mut [Node<N>], others: u128)
    requires tree { IsTree N.WIDTH N.pair tree.old }
    requires least { others ≡ least N.WIDTH (blocks N.pair tree.old) }
    requires pair { others < no_pair }
    ensures tree { IsTree N.WIDTH N.pair tree.new }
    ensures joins { JoinsFirst N.WIDTH (blocks N.pair tree.old) (blocks N.pair tree.new) others }
{
    if tree.is_empty() {
        return;
    }
    let middle = tree.len() / 2;
    let (left, rest) = tree.split_at_mut(middle);
    let (place, right) = rest.split_at_mut(1);
    let block = join_parts(left, place[0].block, right, others);
    place[0] = root(left, block, right);
}

// Joins the first two neighbours that have this number of others, the least of those in the left
// tree, the block and the right tree. Returns the block that is then between the trees.
#[cycle(join)]
fn join_parts<N: AddressSpace>(
    left: &mut [Node<N>],
    block: Option<N>,
    right: &mut [Node<N>],
    others: u128,
) -> Option<N>
    requires left { IsTree N.WIDTH N.pair left.old }
    requires right { IsTree N.WIDTH N.pair right.old }
    requires least { others ≡ least N.WIDTH ((blocks N.pair left.old ++ alone N.pair block)
        ++ blocks N.pair right.old) }
    requires pair { others < no_pair }
    ensures left { IsTree N.WIDTH N.pair left.new }
    ensures right { IsTree N.WIDTH N.pair right.new }
    ensures joins { JoinsFirst N.WIDTH
        ((blocks N.pair left.old ++ alone N.pair block) ++ blocks N.pair right.old)
        ((blocks N.pair left.new ++ alone N.pair result) ++ blocks N.pair right.new) others }
{
    let front = followed(span(left), alone(block));
    if least(span(left)) == others {
        join(left, others);
        block
    } else if least(front) == others {
        both(take(left, End::Last), block)
    } else if between(front, span(right)) == others {
        let last = take_end(left, block);
        both(last, take(right, End::First))
    } else {
        join(right, others);
        block
    }
}

// The block that two blocks are joined into, if there are two.
fn both<N: AddressSpace>(first: Option<N>, second: Option<N>) -> Option<N>
    ensures { (a b : Network) → alone N.pair first ≡ a ∷ [] → alone N.pair second ≡ b ∷ []
        → alone N.pair result ≡ joined N.WIDTH a b ∷ [] }
{
    Some(joined(first?, second?))
}
