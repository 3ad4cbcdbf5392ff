//! The blocks of one prefix length within a network.
ghost use Rattle.std.specs.Prelude.{◌≡◌, ◌<◌, ◌≤◌, ◌⊎◌, MatchOption};
ghost use Rattle.std.specs.Iterator.{YieldsFirstBy, item_count};
ghost use Rattle.ipnetwork_blocks.specs.Subnets.{subnets_of};

use crate::address_space::AddressSpace;
use crate::following_block::following;
use std::alloc::AllocError;
use std::marker::Model;

/// An iterator over the blocks of one prefix length within a network, in ascending order.
///
/// ```
/// let mut blocks: SubnetIterator<Ipv4Network> = subnets("10.0.0.0/23".parse()?, 24).unwrap();
/// assert_eq!(rt; blocks.next(), Some("10.0.0.0/24".parse()?));
/// assert_eq!(rt; blocks.next(), Some("10.0.1.0/24".parse()?));
/// assert_eq!(rt; blocks.next(), None);
/// ```
#[derive(Debug, Drop)]
pub struct SubnetIterator<N: AddressSpace> {
    next: Option<N>,
    last: N,
}

// A contract sees an iterator as the list of the blocks still to come, each as its address and
// prefix length.
impl<N: AddressSpace> Model for SubnetIterator<N> {
    ghost use Rattle.std.specs.Prelude.{List, option_map};
    ghost use Rattle.ipnetwork_family.specs.Network.{Network};
    ghost use Rattle.ipnetwork_blocks.specs.Private.BlockRuns.{blocks_left, AreEnds};

    ghost Value = { List Network };

    ghost view = { λ s. blocks_left N.WIDTH (option_map N.pair s.next) (N.pair s.last) };

    ghost invariant = { λ s. AreEnds N.WIDTH (option_map N.pair s.next) (N.pair s.last) };
}

/// Returns the blocks of this prefix length within the network, each once, in ascending order:
/// 2^(`prefix` - n) of them, where n is the network's own prefix length. If `prefix` is n, the only
/// block is the network's own. Returns `None` if `prefix` is shorter than n or greater than
/// `WIDTH`.
///
/// ```
/// let network: Ipv4Network = "10.0.0.0/8".parse()?;
/// assert_eq!(rt; subnets(network, 16).unwrap().count(), 256);
/// assert!(rt; subnets(network, 7).is_none());
/// ```
pub fn subnets<N: AddressSpace>(network: N, prefix: u8) -> Option<SubnetIterator<N>>
    ensures { MatchOption result ((prefix < (N.pair network).prefix) ⊎ (N.WIDTH < prefix))
        (λ left. ((N.pair network).prefix ≤ prefix) × (prefix ≤ N.WIDTH)
        × (left ≡ subnets_of N.WIDTH (N.pair network) prefix)) }
{
    if prefix < network.prefix() {
        return None;
    }
    let first = N::block(network.network(), prefix)?;
    let last = N::block(network.broadcast(), prefix)?;
    Some(SubnetIterator {
        next: Some(first),
        last,
    })
}

impl<N: AddressSpace> Iterator for SubnetIterator<N> {
    type Item = N;

    ghost next_gives = { YieldsFirstBy N.pair (λ left. left) };

    ghost remaining = { item_count (λ left. left) };

    fn next(&mut self) -> Option<N> {
        let item = self.next?;
        self.next = if item == self.last {
            None
        } else {
            following(item)
        };
        Some(item)
    }
}

impl<N: AddressSpace> Clone for SubnetIterator<N> {
    ghost is_clone = { λ left copy. copy ≡ left };

    ghost is_infallible = { λ _. Unit {0} };

    fn clone(&self) -> Result<Self, AllocError> {
        Ok(SubnetIterator { ..*self })
    }
}
