//! A list of blocks in which neighbours are joined.
ghost use Rattle.std.specs.Prelude.{◌≡◌, ◌<◌, ◌++◌, IfOk, OnOk, length, map};
ghost use Rattle.reducing.specs.Private.ListParts.{JoinsFirst, least, no_pair};
ghost use Rattle.reducing.specs.Private.Trees.{alone};

use crate::span::least;
use crate::tree::{Node, build, join, span};
use ipnetwork_blocks::AddressSpace;
use std::alloc::{AllocError, Global};
use std::marker::Model;

/// A list of blocks, in a tree.
#[derive(Drop)]
pub(crate) struct TreeList<N: AddressSpace> {
    tree: Vec<Node<N>>,
    count: usize,
}

// A contract sees the list of the blocks.
impl<N: AddressSpace> Model for TreeList<N> {
    ghost use Rattle.std.specs.Prelude.{◌≡◌, List, length};
    ghost use Rattle.ipnetwork_family.specs.Network.{Network};
    ghost use Rattle.reducing.specs.Private.Trees.{IsTree, blocks};

    ghost Value = { List Network };

    ghost view = { λ s. blocks N.pair s.tree.items };

    ghost invariant = { λ s. IsTree N.WIDTH N.pair s.tree.items
        × (s.count ≡ length (blocks N.pair s.tree.items)) };
}

impl<N: AddressSpace> TreeList<N> {
    /// The list of these blocks.
    pub(crate) fn new(alloc: Global, list: &[N]) -> Result<Self, AllocError>
        ensures { IfOk result (λ made. made ≡ map N.pair list.now) }
    {
        let mut tree = Vec::with_capacity(alloc, list.len())?;
        for block in list {
            tree.push(Node {
                block: Some(*block),
                span: None,
            })?;
        }
        build(tree.as_mut_slice());
        Ok(TreeList {
            tree,
            count: list.len(),
        })
    }

    /// The number of blocks.
    pub(crate) fn len(&self) -> usize
        ensures { result ≡ length self.now }
    {
        self.count
    }

    /// The least number of others at two neighbours.
    pub(crate) fn least(&self) -> u128
        ensures { result ≡ least N.WIDTH self.now }
    {
        least(span(self.tree.as_slice()))
    }

    /// Joins the first two neighbours that have this number of others, the least.
    pub(crate) fn join_least(&mut self, others: u128)
        requires least { others ≡ least N.WIDTH self.old }
        requires pair { others < no_pair }
        ensures { JoinsFirst N.WIDTH self.old self.new others }
    {
        join(self.tree.as_mut_slice(), others);
        self.count -= 1;
    }

    /// The blocks, in the memory of another list.
    pub(crate) fn into_blocks(self, memory: Vec<N>) -> Result<Vec<N>, AllocError>
        ensures { IfOk result (λ list. map N.pair list.items ≡ self) }
    {
        let mut list = memory;
        list.clear();
        for node in &self.tree {
            push_block(&mut list, node.block)?;
        }
        Ok(list)
    }
}

// Appends the block, if there is one.
fn push_block<N: AddressSpace>(list: &mut Vec<N>, block: Option<N>) -> Result<(), AllocError>
    ensures { OnOk result (map N.pair list.new.items
        ≡ map N.pair list.old.items ++ alone N.pair block) }
{
    let Some(block) = block else {
        return Ok(());
    };
    list.push(block)?;
    Ok(())
}
