//! Replaces lists of networks by the shortest list of blocks, in place.
ghost use Rattle.ipnetwork_c.specs.Held.{v4_in, v6_in};
ghost use Rattle.ipnetwork_c.specs.Lists.{Aggregates};

use crate::fault::{OK, PREFIX};
use crate::listed::all_fit;
use crate::structs::{Ipv4InC, Ipv6InC};
use ipnetwork::{Ipv4Network, Ipv6Network};
use ipnetwork_blocks::aggregate_held;

/// Replaces the networks, which may have host bits, by their aggregate, at the front of the list:
/// the fewest blocks with the same addresses, in ascending order. Writes the number of blocks to
/// `count`. The networks after the blocks are unspecified. Returns `PREFIX` if a prefix length is
/// greater than 32.
#[unsafe(no_mangle)]
pub extern "C" fn ipnetwork_v4_aggregate(networks: &mut [Ipv4InC], count: &mut usize) -> u32
    ensures { Aggregates 32 v4_in (networks.old, count.old) (networks.new, count.new) result }
{
    if !all_fit::<Ipv4Network, Ipv4InC>(networks) {
        return PREFIX;
    }
    *count = aggregate_held::<Ipv4Network, Ipv4InC>(networks);
    OK
}

/// The same for IPv6, for prefix lengths up to 128.
#[unsafe(no_mangle)]
pub extern "C" fn ipnetwork_v6_aggregate(networks: &mut [Ipv6InC], count: &mut usize) -> u32
    ensures { Aggregates 128 v6_in (networks.old, count.old) (networks.new, count.new) result }
{
    if !all_fit::<Ipv6Network, Ipv6InC>(networks) {
        return PREFIX;
    }
    *count = aggregate_held::<Ipv6Network, Ipv6InC>(networks);
    OK
}
