//! The number of addresses in a set.
ghost use Rattle.std.specs.Prelude.{◌≡◌, ◌==◌, ℕ, ◌+◌, ◌^◌, min, Some, decimal};
ghost use Rattle.std.proofs.Common.{rules};
ghost use Rattle.std.specs.Cmp.{partial_order_from_own_ties};
ghost use Rattle.std.specs.Cmp.Rules.{comparing};
ghost use Rattle.std.specs.Ordering.{nat_cmp, on, as_partial_cmp};
ghost use Rattle.ipnetwork_family.specs.Network.{block_size};
ghost use Rattle.ipnetwork_sets.specs.Counts.{count_number};

use arrayvec::ArrayString;
use ipnetwork_addr::decimal::push_number;
use ipnetwork_blocks::AddressSpace;
use ipnetwork_family::NetworkSizeError;
use std::cmp::Ordering;
use std::fmt;

/// The greatest number of bytes that a count is printed as.
const DECIMAL_MAX: usize = 39;

/// A number of addresses, from 0 to 2^128, which is the number of all IPv6 addresses.
///
/// Counts are compared by their numbers, and printed in decimal.
///
/// ```
/// let all = AddressCount::ZERO.add_block("::/0".parse::<Ipv6Network>()?);
/// let half = AddressCount::ZERO.add_block("8000::/1".parse::<Ipv6Network>()?);
/// assert_eq!(rt; (all, half), (AddressCount::AllOfIpv6, AddressCount::Number(1 << 127)));
/// ```
#[derive(Clone, Copy, Debug)]
pub enum AddressCount {
    /// A number below 2^128.
    Number(u128),
    /// 2^128.
    AllOfIpv6,
}

impl AddressCount {
    /// No addresses.
    ///
    /// ```
    /// assert_eq!(rt; u128::try_from(AddressCount::ZERO), Ok(0));
    /// ```
    pub const ZERO: AddressCount = AddressCount::Number(0);

    /// The count plus the number of addresses of the network, or 2^128 if the sum is greater. Host
    /// bits are ignored.
    ///
    /// The sum over blocks of one family that share no addresses is exact.
    ///
    /// ```
    /// let count = AddressCount::ZERO.add_block("192.0.2.0/24".parse::<Ipv4Network>()?);
    /// assert_eq!(rt; count, AddressCount::from(256));
    /// ```
    pub fn add_block<N: AddressSpace>(self, network: N) -> AddressCount
        ensures { count_number result ≡ min
            (count_number self + block_size N.WIDTH (N.pair network).prefix) (2 ^ 128) }
    {
        let host_bits = N::WIDTH - network.prefix();
        let AddressCount::Number(number) = self else {
            return AddressCount::AllOfIpv6;
        };
        if host_bits >= 128 {
            return AddressCount::AllOfIpv6;
        }
        match number.checked_add(1 << host_bits) {
            Some(sum) => AddressCount::Number(sum),
            None => AddressCount::AllOfIpv6,
        }
    }
}

impl From<u128> for AddressCount {
    ghost use Rattle.std.specs.Prelude.{◌≡◌};
    ghost use Rattle.ipnetwork_sets.specs.Counts.{count_number};

    ghost from_gives = { λ number count. count_number count ≡ number };

    /// The count with this number.
    fn from(number: u128) -> Self {
        AddressCount::Number(number)
    }
}

impl TryFrom<AddressCount> for u128 {
    type Error = NetworkSizeError;

    ghost use Rattle.ipnetwork_sets.specs.Counts.{FitsNumber};

    ghost try_from_gives = { FitsNumber };

    /// The number of the count. The error for 2^128, which a `u128` cannot hold, is
    /// `NetworkIsTooLarge`.
    fn try_from(count: AddressCount) -> Result<Self, NetworkSizeError> {
        match count {
            AddressCount::Number(number) => Ok(number),
            AddressCount::AllOfIpv6 => Err(NetworkSizeError::NetworkIsTooLarge),
        }
    }
}

impl PartialEq for AddressCount {
    ghost use Rattle.ipnetwork_sets.specs.Counts.{count_number};

    ghost eq = { on count_number ◌==◌ };

    ghost laws = { Prim.search (comparing, rules) };

    fn eq(&self, other: &AddressCount) -> bool {
        compare(*self, *other) == Ordering::Equal
    }
}

impl Eq for AddressCount {
    ghost laws = { Prim.search (comparing, rules) };
}

impl Ord for AddressCount {
    ghost use Rattle.ipnetwork_sets.specs.Counts.{count_number};

    ghost cmp = { on count_number nat_cmp };

    ghost total = { Prim.search (comparing, rules) };

    ghost matches_partial_cmp = { Prim.search (comparing, rules) };

    ghost matches_eq = { Prim.search (comparing, rules) };

    fn cmp(&self, other: &AddressCount) -> Ordering {
        compare(*self, *other)
    }
}

impl PartialOrd for AddressCount {
    ghost use Rattle.ipnetwork_sets.specs.Counts.{count_number};

    ghost partial_cmp = { as_partial_cmp (on count_number nat_cmp) };

    ghost laws = { partial_order_from_own_ties (Prim.search (comparing, rules))
        (Prim.search (comparing, rules)) };

    fn partial_cmp(&self, other: &AddressCount) -> Option<Ordering> {
        Some(self.cmp(other))
    }
}

// Compares two counts by their numbers.
fn compare(first: AddressCount, second: AddressCount) -> Ordering
    ensures { result ≡ nat_cmp (count_number first) (count_number second) }
{
    match first {
        AddressCount::Number(number) => match second {
            AddressCount::Number(other) => number.cmp(&other),
            AddressCount::AllOfIpv6 => Ordering::Less,
        },
        AddressCount::AllOfIpv6 => match second {
            AddressCount::Number(_) => Ordering::Greater,
            AddressCount::AllOfIpv6 => Ordering::Equal,
        },
    }
}

impl fmt::Display for AddressCount {
    ghost use Rattle.ipnetwork_sets.specs.Counts.{count_number};

    ghost output = { λ count. Some (decimal (count_number count)) };

    ghost styled_output = { λ count _. Some (decimal (count_number count)) };

    fn fmt<W: fmt::Write>(&self, f: &mut fmt::Formatter<W>) -> fmt::Result {
        match self {
            AddressCount::Number(number) => {
                let mut text = ArrayString::<DECIMAL_MAX>::new();
                push_number(&mut text, *number);
                f.write_str(text.as_str())
            }
            AddressCount::AllOfIpv6 => f.write_str("340282366920938463463374607431768211456"),
        }
    }
}
