//! The blocks of a set, one after the other.
ghost use Rattle.std.specs.Prelude.{◌≡◌, List, MatchOption, [], ◌∷◌};
ghost use Rattle.std.specs.Iterator.{YieldsFirstBy, item_count};
ghost use Rattle.ipnetwork_family.specs.Network.{Network};
ghost use Rattle.ipnetwork_sets.specs.Sets.{IsAddressSet};

use crate::address_set::AddressSet;
use crate::address_slice::AddressSlice;
use crate::common::Intersection;
use crate::difference::Difference;
use crate::union::Union;
use ipnetwork_blocks::{AddressSpace, laws};
use std::marker::Model;

/// An iterator over the blocks of a set, in ascending order.
///
/// ```
/// let set = AddressSet::from_networks(vec![in rt.alloc(); "192.0.2.0/25".parse::<Ipv4Network>()?]?);
/// let other = AddressSet::from_networks(vec![in rt.alloc(); "192.0.2.0/26".parse()?]?);
/// let mut blocks = set.difference(&other);
/// assert_eq!(rt; SetBlocks::next_block(&mut blocks), Some("192.0.2.64/26".parse()?));
/// ```
pub trait SetBlocks<N: AddressSpace>: Drop {
    // The blocks still to come.
    ghost left: { Self → List Network };

    /// The next block; `None` after the last.
    ///
    /// ```
    /// let set = AddressSet::from_networks(vec![in rt.alloc(); "192.0.2.0/25".parse::<Ipv4Network>()?]?);
    /// let mut blocks = set.iter();
    /// assert_eq!(rt; blocks.next_block(), Some("192.0.2.0/25".parse()?));
    /// assert_eq!(rt; blocks.next_block(), None);
    /// ```
    fn next_block(&mut self) -> Option<N>
        ensures step { MatchOption result ((left self.old ≡ []) × (left self.new ≡ []))
            (λ block. left self.old ≡ N.pair block ∷ left self.new) }
        ensures set { IsAddressSet N.WIDTH (left self.old) };
}

/// The iterator over the blocks of an `AddressSet` or an `AddressSlice`, in ascending order.
///
/// ```
/// let set = AddressSet::from_networks(vec![in rt.alloc(); "192.0.2.0/25".parse::<Ipv4Network>()?]?);
/// let blocks: Blocks<'_, Ipv4Network> = set.iter();
/// assert!(rt; blocks.eq(["192.0.2.0/25".parse()?]));
/// ```
#[derive(Debug, Drop)]
pub struct Blocks<'a, N: AddressSpace> {
    rest: AddressSlice<'a, N>,
}

// A contract sees an iterator as the list of the blocks still to come.
impl<'a, N: AddressSpace> Model for Blocks<'a, N> {
    ghost use Rattle.std.specs.Prelude.{List};
    ghost use Rattle.ipnetwork_family.specs.Network.{Network};

    ghost Value = { List Network };

    ghost view = { λ b. b.rest };
}

impl<N: AddressSpace> AddressSet<N> {
    /// An iterator over the blocks, in ascending order.
    ///
    /// ```
    /// let set = AddressSet::from_networks(vec![in rt.alloc(); "192.0.2.0/25".parse::<Ipv4Network>()?]?);
    /// let mut blocks = set.iter();
    /// assert_eq!(rt; blocks.next(), Some("192.0.2.0/25".parse()?));
    /// ```
    pub fn iter(&self) -> Blocks<'_, N>
        ensures { result ≡ self.now }
    {
        self.as_slice().iter()
    }
}

impl<'a, N: AddressSpace> AddressSlice<'a, N> {
    /// An iterator over the blocks, in ascending order.
    ///
    /// ```
    /// let list: [Ipv4Network; 1] = ["192.0.2.0/25".parse()?];
    /// assert!(rt; AddressSlice::from_blocks(&list).unwrap().iter().eq(list));
    /// ```
    pub fn iter(&self) -> Blocks<'a, N>
        ensures { result ≡ self.now }
    {
        Blocks {
            rest: AddressSlice::of_blocks(self.blocks()),
        }
    }
}

impl<'a, N: AddressSpace> Iterator for Blocks<'a, N> {
    type Item = N;

    ghost next_gives = { YieldsFirstBy N.pair (λ left. left) };

    ghost remaining = { item_count (λ left. left) };

    fn next(&mut self) -> Option<N> {
        laws::one_block();
        let left = self.rest.blocks();
        let Some((block, rest)) = left.split_first() else {
            return None;
        };
        self.rest = AddressSlice::of_blocks(rest);
        Some(*block)
    }
}

impl<'a, N: AddressSpace> SetBlocks<N> for Blocks<'a, N> {
    ghost left = { λ left. left };

    fn next_block(&mut self) -> Option<N> {
        let _ = self.rest.blocks();
        self.next()
    }
}

impl<'a, N: AddressSpace> SetBlocks<N> for Intersection<'a, N> {
    ghost left = { λ left. left };

    fn next_block(&mut self) -> Option<N> {
        self.law_are_sets();
        self.next()
    }
}

impl<'a, N: AddressSpace> SetBlocks<N> for Difference<'a, N> {
    ghost left = { λ left. left };

    fn next_block(&mut self) -> Option<N> {
        self.law_are_sets();
        self.next()
    }
}

impl<'a, N: AddressSpace> SetBlocks<N> for Union<'a, N> {
    ghost left = { λ left. left };

    fn next_block(&mut self) -> Option<N> {
        self.law_are_sets();
        self.next()
    }
}
