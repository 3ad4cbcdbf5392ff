//! The hosts of a network: its members, except those that are reserved for other uses.
ghost use Rattle.std.specs.Prelude.{◌≡◌, ℕ, ◌+◌, ◌-◌, ◌≤◌};
ghost use Rattle.std.specs.Iterator.{YieldsFirst, item_count};
ghost use Rattle.ipnetwork_family.specs.Network.{count_up};
ghost use Rattle.ipnetwork_blocks.specs.Hosts.{AreIpv4Hosts, AreIpv6Hosts};

use ipnetwork_addr::Ipv4Addr;
use ipnetwork_family::{Ipv4Network, Ipv6Network, Ipv6NetworkIterator};
use std::alloc::AllocError;
use std::marker::Model;

/// An iterator over the hosts of an IPv4 network, in ascending order.
///
/// ```
/// let mut hosts: Ipv4HostIterator = ipv4_hosts("192.0.2.0/24".parse()?);
/// assert_eq!(rt; hosts.next(), Some(Ipv4Addr::new(192, 0, 2, 1)));
/// assert_eq!(rt; hosts.count(), 253);
/// ```
#[derive(Debug, Drop)]
pub struct Ipv4HostIterator {
    last: u32,
    count: u32,
}

// A contract sees an iterator as the list of the addresses still to come.
impl Model for Ipv4HostIterator {
    ghost use Rattle.std.specs.Prelude.{ℕ, List, ◌+◌, ◌-◌, ◌≤◌};
    ghost use Rattle.ipnetwork_family.specs.Network.{count_up};

    ghost Value = { List ℕ };

    ghost view = { λ i. count_up (i.last + 1 - i.count) i.count };

    ghost invariant = { λ i. i.count ≤ i.last + 1 };
}

/// Returns the addresses that hosts of an IPv4 network may have, each once, in ascending order. Up
/// to prefix length 30 these are all members except the first and the last, whose host bits are all
/// zeros and all ones (RFC 1122, section 3.2.1.3). At 31 they are both members (RFC 3021), and at
/// 32 the only member.
///
/// ```
/// let mut hosts = ipv4_hosts("10.0.0.4/30".parse()?);
/// assert_eq!(rt; hosts.next(), Some(Ipv4Addr::new(10, 0, 0, 5)));
/// ```
pub fn ipv4_hosts(network: Ipv4Network) -> Ipv4HostIterator
    ensures { AreIpv4Hosts network result }
{
    let first = u32::from(network.network());
    let last = u32::from(network.broadcast());
    if network.prefix() > 30 {
        return Ipv4HostIterator {
            last,
            count: last - first + 1,
        };
    }
    Ipv4HostIterator {
        last: last - 1,
        count: last - first - 1,
    }
}

/// Returns the addresses that hosts of an IPv6 network may have, each once, in ascending order. Up
/// to prefix length 126 these are all members except the first, the anycast address of the
/// network's routers (RFC 4291, section 2.6.1). At 127 they are both members (RFC 6164), and at 128
/// the only member.
///
/// ```
/// let mut hosts = ipv6_hosts("2001:db8::/64".parse()?);
/// assert_eq!(rt; hosts.next(), Some("2001:db8::1".parse()?));
/// ```
pub fn ipv6_hosts(network: Ipv6Network) -> Ipv6NetworkIterator
    ensures { AreIpv6Hosts network result }
{
    let mut members = network.iter();
    if network.prefix() <= 126 {
        let _ = members.next();
    }
    members
}

impl Iterator for Ipv4HostIterator {
    type Item = Ipv4Addr;

    ghost next_gives = { YieldsFirst (λ left. left) };

    ghost remaining = { item_count (λ left. left) };

    fn next(&mut self) -> Option<Ipv4Addr> {
        if self.count == 0 {
            return None;
        }
        self.count -= 1;
        Some(Ipv4Addr::from(self.last - self.count))
    }
}

impl Clone for Ipv4HostIterator {
    ghost is_clone = { λ left copy. copy ≡ left };

    ghost is_infallible = { λ _. Unit {0} };

    fn clone(&self) -> Result<Self, AllocError> {
        Ok(Ipv4HostIterator { ..*self })
    }
}
