//! The ranges of addresses of a set.
ghost use Rattle.std.specs.Prelude.{◌≡◌, ◌∷◌, option_map};
ghost use Rattle.std.specs.Iterator.{YieldsFirstBy, item_count};
ghost use Rattle.ipnetwork_family.specs.Network.{high, low};
ghost use Rattle.ipnetwork_blocks.specs.Aggregate.{InUnion};
ghost use Rattle.ipnetwork_sets.specs.Sets.{IsAddressSet};
ghost use Rattle.ipnetwork_sets.specs.RangeLists.{IsRangeList};
ghost use Rattle.ipnetwork_sets.specs.Private.Touching.{runs, runs_left, IsAhead};

use crate::address_set::AddressSet;
use crate::address_slice::AddressSlice;
use crate::blocks::{Blocks, SetBlocks};
use crate::common::Intersection;
use crate::difference::Difference;
use crate::order::touches;
use crate::union::Union;
use ipnetwork_blocks::{AddressSpace, laws};
use std::marker::Model;

/// An iterator over the ranges of a set, in ascending order: the first and the last address of
/// each. The ranges are as long as possible, so there is at least one address between two of them
/// that is not in the set.
///
/// ```
/// let networks = vec![in rt.alloc(); "10.0.0.0/31".parse::<Ipv4Network>()?, "10.0.0.2/32".parse()?]?;
/// let set = AddressSet::from_networks(networks);
/// let ranges: Ranges<Ipv4Network, Blocks<'_, Ipv4Network>> = set.ranges();
/// assert!(rt; ranges.eq([(Ipv4Addr::new(10, 0, 0, 0), Ipv4Addr::new(10, 0, 0, 2))]));
/// ```
#[derive(Debug, Drop)]
pub struct Ranges<N: AddressSpace, B: SetBlocks<N>> {
    ahead: Option<N>,
    blocks: B,
}

// A contract sees an iterator as the list of the ranges still to come.
impl<N: AddressSpace, B: SetBlocks<N>> Model for Ranges<N, B> {
    ghost use Rattle.std.specs.Prelude.{ℕ, List, option_map};
    ghost use Rattle.ipnetwork_sets.specs.Private.Touching.{runs_left, IsAhead};

    ghost Value = { List (ℕ × ℕ) };

    ghost view = { λ r. runs_left N.WIDTH (option_map N.pair r.ahead) (B.left r.blocks) };

    ghost invariant = { λ r. IsAhead N.WIDTH (option_map N.pair r.ahead) (B.left r.blocks) };
}

impl<N: AddressSpace, B: SetBlocks<N>> Ranges<N, B> {
    /// The ranges of the remaining blocks.
    ///
    /// ```
    /// let list: [Ipv4Network; 1] = ["192.0.2.0/24".parse()?];
    /// let mut ranges = Ranges::of(AddressSlice::from_blocks(&list).unwrap().iter());
    /// assert_eq!(rt; ranges.next(), Some((Ipv4Addr::new(192, 0, 2, 0), Ipv4Addr::new(192, 0, 2, 255))));
    /// ```
    pub fn of(mut blocks: B) -> Self
        ensures { IsRangeList (InUnion N.WIDTH (B.left blocks)) result }
    {
        laws::one_block();
        let ahead = blocks.next_block();
        Ranges { ahead, blocks }
    }
}

impl<N: AddressSpace, B: SetBlocks<N>> Iterator for Ranges<N, B> {
    type Item = (N::Addr, N::Addr);

    ghost next_gives = { YieldsFirstBy (λ r. (N.number r.0, N.number r.1)) (λ left. left) };

    ghost remaining = { item_count (λ left. left) };

    fn next(&mut self) -> Option<(N::Addr, N::Addr)> {
        let first = self.ahead?;
        let (last, ahead) = last_of_run(first, &mut self.blocks);
        self.ahead = ahead;
        Some((first.network(), last.broadcast()))
    }
}

// The last block of the run that begins with `first`, and the block after the run, if there is one.
fn last_of_run<N: AddressSpace, B: SetBlocks<N>>(first: N, blocks: &mut B) -> (N, Option<N>)
    requires { IsAddressSet N.WIDTH (N.pair first ∷ B.left blocks.old) }
    ensures ahead { IsAhead N.WIDTH (option_map N.pair result.1) (B.left blocks.new) }
    ensures run { runs N.WIDTH (N.pair first ∷ B.left blocks.old) ≡ (
      low N.WIDTH (N.pair first),
      high N.WIDTH (N.pair result.0),
    ) ∷ runs_left N.WIDTH (option_map N.pair result.1)
        (B.left blocks.new) }
{
    laws::one_block();
    let mut last = first;
    loop {
        let Some(block) = blocks.next_block() else {
            return (last, None);
        };
        if !touches(last, block) {
            return (last, Some(block));
        }
        last = block;
    }
}

impl<N: AddressSpace> AddressSet<N> {
    /// The first and the last address of each range of the set, in ascending order: the fewest
    /// ranges possible. Goes over the blocks once, as the iterator advances.
    ///
    /// ```
    /// let networks = vec![in rt.alloc(); "192.0.2.0/25".parse::<Ipv4Network>()?, "192.0.2.128/25".parse()?]?;
    /// let set = AddressSet::from_networks(networks);
    /// let range = (Ipv4Addr::new(192, 0, 2, 0), Ipv4Addr::new(192, 0, 2, 255));
    /// assert_eq!(rt; set.ranges().next(), Some(range));
    /// ```
    pub fn ranges(&self) -> Ranges<N, Blocks<'_, N>>
        ensures { IsRangeList (InUnion N.WIDTH self.now) result }
    {
        Ranges::of(self.iter())
    }
}

impl<'a, N: AddressSpace> AddressSlice<'a, N> {
    /// The first and the last address of each range of the set, in ascending order: the fewest
    /// ranges possible. Goes over the blocks once, as the iterator advances.
    ///
    /// ```
    /// let list: [Ipv4Network; 1] = ["192.0.2.0/24".parse()?];
    /// let range = (Ipv4Addr::new(192, 0, 2, 0), Ipv4Addr::new(192, 0, 2, 255));
    /// assert_eq!(rt; AddressSlice::from_blocks(&list).unwrap().ranges().next(), Some(range));
    /// ```
    pub fn ranges(&self) -> Ranges<N, Blocks<'a, N>>
        ensures { IsRangeList (InUnion N.WIDTH self.now) result }
    {
        Ranges::of(self.iter())
    }
}

impl<'a, N: AddressSpace> Intersection<'a, N> {
    /// The ranges of the remaining blocks.
    ///
    /// ```
    /// let set = AddressSet::from_networks(vec![in rt.alloc(); "192.0.2.0/25".parse::<Ipv4Network>()?]?);
    /// let other = AddressSet::from_networks(vec![in rt.alloc(); "192.0.2.64/26".parse()?]?);
    /// let range = (Ipv4Addr::new(192, 0, 2, 64), Ipv4Addr::new(192, 0, 2, 127));
    /// assert_eq!(rt; set.intersection(&other).ranges().next(), Some(range));
    /// ```
    pub fn ranges(self) -> Ranges<N, Intersection<'a, N>>
        ensures { IsRangeList (InUnion N.WIDTH self.entry) result }
    {
        Ranges::of(self)
    }
}

impl<'a, N: AddressSpace> Difference<'a, N> {
    /// The ranges of the remaining blocks.
    ///
    /// ```
    /// let set = AddressSet::from_networks(vec![in rt.alloc(); "192.0.2.0/25".parse::<Ipv4Network>()?]?);
    /// let other = AddressSet::from_networks(vec![in rt.alloc(); "192.0.2.0/32".parse()?]?);
    /// let range = (Ipv4Addr::new(192, 0, 2, 1), Ipv4Addr::new(192, 0, 2, 127));
    /// assert_eq!(rt; set.difference(&other).ranges().next(), Some(range));
    /// ```
    pub fn ranges(self) -> Ranges<N, Difference<'a, N>>
        ensures { IsRangeList (InUnion N.WIDTH self.entry) result }
    {
        Ranges::of(self)
    }
}

impl<'a, N: AddressSpace> Union<'a, N> {
    /// The ranges of the remaining blocks.
    ///
    /// ```
    /// let set = AddressSet::from_networks(vec![in rt.alloc(); "192.0.2.0/25".parse::<Ipv4Network>()?]?);
    /// let other = AddressSet::from_networks(vec![in rt.alloc(); "192.0.2.128/32".parse()?]?);
    /// let range = (Ipv4Addr::new(192, 0, 2, 0), Ipv4Addr::new(192, 0, 2, 128));
    /// assert_eq!(rt; set.union_blocks(&other).ranges().next(), Some(range));
    /// ```
    pub fn ranges(self) -> Ranges<N, Union<'a, N>>
        ensures { IsRangeList (InUnion N.WIDTH self.entry) result }
    {
        Ranges::of(self)
    }
}
