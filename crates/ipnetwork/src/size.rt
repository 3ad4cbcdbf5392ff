//! The number of addresses of a network.
ghost use Rattle.std.specs.Prelude.{◌≡◌, ◌==◌, Some, decimal};
ghost use Rattle.std.proofs.Common.{rules};
ghost use Rattle.std.specs.Cmp.{partial_order_from_own_ties};
ghost use Rattle.std.specs.Cmp.Rules.{comparing, hashing};
ghost use Rattle.std.specs.Ordering.{nat_cmp, on, as_partial_cmp};
ghost use Rattle.std.specs.Hash as fed;

use arrayvec::ArrayString;
use ipnetwork_addr::decimal::push_number;
use ipnetwork_family::NetworkSizeError;
use std::cmp::Ordering;
use std::fmt;
use std::hash::{Hash, Hasher};

/// The greatest number of bytes that a size is printed as.
const DECIMAL_MAX: usize = 39;

/// The number of addresses of an IPv4 or IPv6 network.
///
/// Sizes are compared and hashed only by their numbers: an IPv4 and an IPv6 size of the same number
/// are equal.
///
/// ```
/// let size = "2001:db8::/120".parse::<IpNetwork>()?.size();
/// assert_eq!(rt; size, NetworkSize::V6(256));
/// assert_eq!(rt; size, NetworkSize::V4(256));
/// ```
#[derive(Clone, Copy, Debug)]
pub enum NetworkSize {
    /// The size of an IPv4 network.
    V4(u32),
    /// The size of an IPv6 network.
    V6(u128),
}

impl From<u32> for NetworkSize {
    ghost use Rattle.ipnetwork.specs.declared.size.NetworkSize.TheVariants as sizes;

    ghost from_gives = { λ number size. size ≡ sizes.V4 number };

    /// Returns the size of this number, in the variant `V4`.
    fn from(number: u32) -> Self {
        NetworkSize::V4(number)
    }
}

impl From<u128> for NetworkSize {
    ghost use Rattle.ipnetwork.specs.declared.size.NetworkSize.TheVariants as sizes;

    ghost from_gives = { λ number size. size ≡ sizes.V6 number };

    /// Returns the size of this number, in the variant `V6`.
    fn from(number: u128) -> Self {
        NetworkSize::V6(number)
    }
}

impl From<NetworkSize> for u128 {
    ghost use Rattle.ipnetwork.specs.Sizes.{size_number};

    ghost from_gives = { λ size number. number ≡ size_number size };

    /// Returns the number of a size of either family.
    fn from(size: NetworkSize) -> Self {
        match size {
            NetworkSize::V4(number) => u128::from(number),
            NetworkSize::V6(number) => number,
        }
    }
}

impl TryFrom<NetworkSize> for u32 {
    type Error = NetworkSizeError;

    ghost use Rattle.ipnetwork.specs.Sizes.{FitsV4};

    ghost try_from_gives = { FitsV4 };

    /// Returns the number of an IPv4 size, or `NetworkIsTooLarge` for an IPv6 size, however small
    /// it is.
    fn try_from(size: NetworkSize) -> Result<Self, NetworkSizeError> {
        match size {
            NetworkSize::V4(number) => Ok(number),
            NetworkSize::V6(_) => Err(NetworkSizeError::NetworkIsTooLarge),
        }
    }
}

impl PartialEq for NetworkSize {
    ghost use Rattle.ipnetwork.specs.Sizes.{size_number};

    ghost eq = { on size_number ◌==◌ };

    ghost laws = { Prim.search (comparing, rules) };

    fn eq(&self, other: &NetworkSize) -> bool {
        u128::from(*self) == u128::from(*other)
    }
}

impl Eq for NetworkSize {
    ghost laws = { Prim.search (comparing, rules) };
}

impl Ord for NetworkSize {
    ghost use Rattle.ipnetwork.specs.Sizes.{size_number};

    ghost cmp = { on size_number nat_cmp };

    ghost total = { Prim.search (comparing, rules) };

    ghost matches_partial_cmp = { Prim.search (comparing, rules) };

    ghost matches_eq = { Prim.search (comparing, rules) };

    fn cmp(&self, other: &NetworkSize) -> Ordering {
        u128::from(*self).cmp(&u128::from(*other))
    }
}

impl PartialOrd for NetworkSize {
    ghost use Rattle.ipnetwork.specs.Sizes.{size_number};

    ghost partial_cmp = { as_partial_cmp (on size_number nat_cmp) };

    ghost laws = { partial_order_from_own_ties (Prim.search (comparing, rules))
        (Prim.search (comparing, rules)) };

    fn partial_cmp(&self, other: &NetworkSize) -> Option<Ordering> {
        Some(self.cmp(other))
    }
}

impl Hash for NetworkSize {
    ghost use Rattle.ipnetwork.specs.Sizes.{size_number};

    ghost hash_input = { λ size. fed.u128 (size_number size) };

    ghost respects_eq = { Prim.search (hashing, rules) };

    fn hash<H: Hasher>(&self, state: &mut H) {
        u128::from(*self).hash(state);
    }
}

impl fmt::Display for NetworkSize {
    ghost use Rattle.ipnetwork.specs.Sizes.{size_number};

    ghost output = { λ size. Some (decimal (size_number size)) };

    ghost styled_output = { λ size _. Some (decimal (size_number size)) };

    fn fmt<W: fmt::Write>(&self, f: &mut fmt::Formatter<W>) -> fmt::Result {
        let mut text = ArrayString::<DECIMAL_MAX>::new();
        push_number(&mut text, u128::from(*self));
        f.write_str(text.as_str())
    }
}
