//! The blocks of a set, one after the other.
ghost use Rattle.std.specs.Prelude.{◌≡◌};
ghost use Rattle.std.specs.Iterator.{YieldsFirst, item_count};
ghost use Rattle.ipnetwork_sets.specs.IpSets.{v4_then_v6};

use crate::SetBlocks;
use ipnetwork::{IpNetwork, Ipv4Network, Ipv6Network};
use std::marker::Model;

/// An iterator over the blocks of a set: the IPv4 blocks, followed by the IPv6 blocks, each in
/// ascending order. `V4` and `V6` iterate over the blocks of each family: they are the iterators of
/// `ipnetwork_sets` over a set, an intersection, a difference or a union.
///
/// ```
/// let v4 = vec![in rt.alloc(); "192.0.2.0/24".parse::<Ipv4Network>()?]?;
/// let set = IpAddressSet::from_lists(v4, Vec::new(rt.alloc()));
/// let blocks: IpBlocks<ipnetwork_sets::Blocks<'_, Ipv4Network>, ipnetwork_sets::Blocks<'_, Ipv6Network>> = set.iter();
/// assert!(rt; blocks.eq(["192.0.2.0/24".parse()?]));
/// ```
#[derive(Debug, Drop)]
pub struct IpBlocks<V4: SetBlocks<Ipv4Network>, V6: SetBlocks<Ipv6Network>> {
    pub(crate) v4: V4,
    pub(crate) v6: V6,
}

// A contract sees an iterator as the list of the blocks still to come.
impl<V4: SetBlocks<Ipv4Network>, V6: SetBlocks<Ipv6Network>> Model for IpBlocks<V4, V6> {
    ghost use Rattle.std.specs.Prelude.{List};
    ghost use Rattle.ipnetwork.specs.declared.ip_network.IpNetwork.{IpNetwork};
    ghost use Rattle.ipnetwork_sets.specs.IpSets.{v4_then_v6};

    ghost Value = { List IpNetwork };

    ghost view = { λ b. v4_then_v6 (V4.left b.v4) (V6.left b.v6) };
}

impl<V4: SetBlocks<Ipv4Network>, V6: SetBlocks<Ipv6Network>> IpBlocks<V4, V6> {
    // The blocks of both iterators.
    pub(crate) fn of(v4: V4, v6: V6) -> Self
        ensures { result ≡ v4_then_v6 (V4.left v4) (V6.left v6) }
    {
        IpBlocks { v4, v6 }
    }
}

impl<V4: SetBlocks<Ipv4Network>, V6: SetBlocks<Ipv6Network>> Iterator for IpBlocks<V4, V6> {
    type Item = IpNetwork;

    ghost next_gives = { YieldsFirst (λ left. left) };

    ghost remaining = { item_count (λ left. left) };

    fn next(&mut self) -> Option<IpNetwork> {
        match self.v4.next_block() {
            Some(block) => Some(IpNetwork::V4(block)),
            None => Some(IpNetwork::V6(self.v6.next_block()?)),
        }
    }
}
