//! The least list of blocks with the same union as networks of either family.
ghost use Rattle.std.specs.Prelude.{◌≡◌, ◌≤◌, length, take, drop, vec_capacity};
ghost use Rattle.std.specs.List.{All};
ghost use Rattle.std.specs.List.Sorted.{IsPermutation};
ghost use Rattle.ipnetwork.specs.IpNetworks.{IsV4, IsV6};
ghost use Rattle.ipnetwork_blocks.specs.AggregateIp.{IsIpAggregate};

use crate::aggregate::aggregate_held;
use ipnetwork::{IpNetwork, Ipv4Network, Ipv6Network};

/// Replaces the networks with the aggregate of the IPv4 networks followed by the aggregate of the
/// IPv6 networks, at the front of the slice, and returns the number of blocks. Each family is
/// aggregated as by `aggregate_in_place`. The rest of the slice holds unspecified networks.
///
/// Sorts each family and makes one pass over it.
///
/// ```
/// let mut networks: [IpNetwork; 3] = ["2001:db8::/32".parse()?, "10.128.0.0/9".parse()?, "10.0.0.0/9".parse()?];
/// assert_eq!(rt; aggregate_ip_in_place(&mut networks), 2);
/// assert_eq!(rt; &networks[..2], ["10.0.0.0/8".parse()?, "2001:db8::/32".parse()?].as_slice());
/// ```
pub fn aggregate_ip_in_place(networks: &mut [IpNetwork]) -> usize
    ensures within { result ≤ length networks.old }
    ensures aggregate { IsIpAggregate networks.old (take result networks.new) }
{
    let v4_count = put_v4_first(networks);
    let (v4, v6) = networks.split_at_mut(v4_count);
    let v4_blocks = aggregate_held::<Ipv4Network, IpNetwork>(v4);
    let v6_blocks = aggregate_held::<Ipv6Network, IpNetwork>(v6);
    networks.copy_within(v4_count..v4_count + v6_blocks, v4_blocks);
    v4_blocks + v6_blocks
}

/// Replaces the networks with the aggregate of the IPv4 networks followed by the aggregate of the
/// IPv6 networks: the blocks that `aggregate_ip_in_place` puts at the front. Frees no memory: the
/// capacity does not change.
///
/// ```
/// let mut networks = vec![in rt.alloc(); "2001:db8::/32".parse::<IpNetwork>()?, "10.0.0.0/8".parse()?]?;
/// aggregate_ip_vec(&mut networks);
/// assert_eq!(rt; networks.as_slice(), ["10.0.0.0/8".parse()?, "2001:db8::/32".parse()?].as_slice());
/// ```
pub fn aggregate_ip_vec(networks: &mut Vec<IpNetwork>)
    ensures aggregate { IsIpAggregate networks.old.items networks.new.items }
    ensures capacity { vec_capacity networks.new ≡ vec_capacity networks.old }
{
    let count = aggregate_ip_in_place(networks.as_mut_slice());
    networks.truncate(count);
}

// Moves the IPv4 networks before the IPv6 networks, and returns the number of IPv4 networks.
fn put_v4_first(networks: &mut [IpNetwork]) -> usize
    ensures within { result ≤ length networks.old }
    ensures same { IsPermutation networks.old networks.new }
    ensures v4 { All IsV4 (take result networks.new) }
    ensures v6 { All IsV6 (drop result networks.new) }
{
    let mut v4_count = 0;
    for next in 0..networks.len() {
        if networks[next].is_ipv4() {
            networks.swap(v4_count, next);
            v4_count += 1;
        }
    }
    v4_count
}
