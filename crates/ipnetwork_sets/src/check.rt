//! Whether a list of networks is the list of a set.
ghost use Rattle.std.specs.Prelude.{◌↔◌, IsTrue, map};
ghost use Rattle.std.specs.List.{All};
ghost use Rattle.ipnetwork_family.specs.Network.{IsNetwork, HostBitsAreZero};
ghost use Rattle.ipnetwork_blocks.specs.Private.Joining.{AreHalves, Follows};
ghost use Rattle.ipnetwork_sets.specs.Sets.{IsAddressSet};

use crate::order::ends_before;
use ipnetwork_blocks::{AddressSpace, HoldsNetwork, laws};

/// Whether the networks that the values hold are the maximal blocks of their union, in ascending
/// order. Goes over them once.
///
/// ```
/// let halves: [Ipv4Network; 2] = ["192.0.2.0/25".parse()?, "192.0.2.128/25".parse()?];
/// assert!(rt; !is_address_set::<Ipv4Network, Ipv4Network>(&halves));
/// ```
pub fn is_address_set<N: AddressSpace, H: HoldsNetwork<N>>(list: &[H]) -> bool
    requires { All H.holds list.now }
    ensures { IsTrue result ↔ IsAddressSet N.WIDTH (map H.held list.now) }
{
    laws::one_block();
    for next in 0..list.len() {
        let block = list[next].held_network();
        if !has_no_host_bits(block) {
            return false;
        }
        if next > 0 && !follows(list[next - 1].held_network(), block) {
            return false;
        }
    }
    true
}

// Whether the network has no host bits.
fn has_no_host_bits<N: AddressSpace>(network: N) -> bool
    ensures told { IsTrue result ↔ HostBitsAreZero N.WIDTH (N.pair network) }
    ensures network { IsNetwork N.WIDTH (N.pair network) }
{
    N::WIDTH - network.prefix() <= N::trailing_zeros(network.ip())
}

// Whether the second begins after the first ends, and the two are not the halves of one block.
fn follows<N: AddressSpace>(first: N, second: N) -> bool
    ensures { IsTrue result ↔ Follows N.WIDTH (N.pair first) (N.pair second) }
{
    ends_before(first, second) && !are_halves(first, second)
}

/// Whether two blocks that differ are the halves of one block.
pub(crate) fn are_halves<N: AddressSpace>(first: N, second: N) -> bool
    ensures { IsTrue result ↔ AreHalves N.WIDTH (N.pair first) (N.pair second) }
{
    let prefix = first.prefix();
    let other_prefix = second.prefix();
    if prefix == 0 || other_prefix != prefix {
        return false;
    }
    let one = first.ip();
    let other = second.ip();
    let shared = N::shared_bits(one, other);
    prefix - 1 <= shared
}
