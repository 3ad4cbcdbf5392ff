//! The members of a network of either family, in order.

use ipnetwork_addr::IpAddr;
use ipnetwork_family::{Ipv4NetworkIterator, Ipv6NetworkIterator};
use std::alloc::AllocError;
use std::marker::Model;

/// An iterator over the members of a network of either family, in ascending order.
///
/// ```
/// let mut members = "192.0.2.7/30".parse::<IpNetwork>()?.iter();
/// assert_eq!(rt; members.next(), "192.0.2.4".parse().ok());
/// ```
#[derive(Debug, Drop)]
pub struct IpNetworkIterator {
    members: Members,
}

#[derive(Debug, Drop)]
enum Members {
    V4(Ipv4NetworkIterator),
    V6(Ipv6NetworkIterator),
}

// In contracts, an iterator is the list of the remaining addresses.
impl Model for IpNetworkIterator {
    ghost use Rattle.std.specs.Prelude.{List};
    ghost use Rattle.ipnetwork_addr.specs.declared.ip.IpAddr.{IpAddr};
    ghost use Rattle.ipnetwork.specs.Private.Members.{listed};

    ghost Value = { List IpAddr };

    ghost view = { λ i. listed i.members };
}

impl IpNetworkIterator {
    ghost use Rattle.std.specs.Prelude.{◌≡◌, ◌+◌, drop, map, slice_get};
    ghost use Rattle.ipnetwork_addr.specs.declared.ip.IpAddr.TheVariants as addresses;

    /// Creates an iterator over the members of an IPv4 network.
    pub(crate) fn of_v4(members: Ipv4NetworkIterator) -> Self
        ensures { result ≡ map addresses.V4 members }
    {
        IpNetworkIterator {
            members: Members::V4(members),
        }
    }

    /// Creates an iterator over the members of an IPv6 network.
    pub(crate) fn of_v6(members: Ipv6NetworkIterator) -> Self
        ensures { result ≡ map addresses.V6 members }
    {
        IpNetworkIterator {
            members: Members::V6(members),
        }
    }

    /// The member that comes after `n` others: the last of those that `n + 1` calls of `next`
    /// return. `None` if at most `n` members are left; after that none is. Takes one step for any
    /// `n`.
    ///
    /// ```
    /// let mut members = "10.0.0.0/8".parse::<IpNetwork>()?.iter();
    /// assert_eq!(rt; members.nth(65536), "10.1.0.0".parse().ok());
    /// assert_eq!(rt; members.next(), "10.1.0.1".parse().ok());
    /// assert_eq!(rt; members.nth(16_777_216), None);
    /// ```
    pub fn nth(&mut self, n: usize) -> Option<IpAddr>
        ensures item { result ≡ slice_get self.old n }
        ensures left { self.new ≡ drop (n + 1) self.old }
    {
        match &mut self.members {
            Members::V4(members) => Some(IpAddr::V4(members.nth(n)?)),
            Members::V6(members) => Some(IpAddr::V6(members.nth(n)?)),
        }
    }
}

impl Iterator for IpNetworkIterator {
    type Item = IpAddr;

    ghost use Rattle.std.specs.Iterator.{YieldsFirst, item_count};

    ghost next_gives = { YieldsFirst (λ left. left) };

    ghost remaining = { item_count (λ left. left) };

    fn next(&mut self) -> Option<IpAddr> {
        match &mut self.members {
            Members::V4(members) => Some(IpAddr::V4(members.next()?)),
            Members::V6(members) => Some(IpAddr::V6(members.next()?)),
        }
    }
}

impl Clone for IpNetworkIterator {
    ghost use Rattle.std.specs.Prelude.{◌≡◌};

    ghost is_clone = { λ left copy. copy ≡ left };

    ghost is_infallible = { λ _. Unit {0} };

    fn clone(&self) -> Result<Self, AllocError> {
        Ok(IpNetworkIterator {
            members: match &self.members {
                Members::V4(members) => Members::V4(members.clone()?),
                Members::V6(members) => Members::V6(members.clone()?),
            },
        })
    }
}
