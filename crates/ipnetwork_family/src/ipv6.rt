//! IPv6: the implementation of `Address`, the number of members and the nth member, and masks.
ghost use Rattle.std.specs.Prelude.{◌≡◌, ℕ, ◌+◌, ◌-◌, ◌^◌, ◌<◌, ◌≤◌};
ghost use Rattle.std.specs.Option.{SomeIff};
ghost use Rattle.ipnetwork_family.specs.Family.{v6_family};
ghost use Rattle.ipnetwork_family.specs.Masks.{GivesPrefixOfMask};
ghost use Rattle.ipnetwork_family.specs.Network.{low, size_of};

use crate::mask_table::mask_segments;
use crate::network::mask_to_prefix;
use crate::parse::read_prefix;
use crate::segments::{agree, filled, kept, leading_ones};
use crate::{Address, IpNetworkError, Network};
use arrayvec::ArrayString;
use ipnetwork_addr::{ADDRESS_TEXT_CAPACITY, AddrParseError, Ipv6Addr, laws};

impl Address for Ipv6Addr {
    ghost use Rattle.std.specs.Prelude.{refl};
    ghost use Rattle.std.proofs.Common.{rules};

    const WIDTH: u8 = 128;

    ghost WIDTH = { 128 };

    ghost family = { v6_family };

    ghost number = { λ address. address };

    ghost of_number = { λ number. number };

    ghost back = { λ a. refl };

    ghost forth = { λ n. refl };

    fn read_bytes(text: &[u8]) -> Result<Ipv6Addr, AddrParseError> {
        Ipv6Addr::read_bytes(text)
    }

    fn read_suffix(text: &[u8]) -> Option<u8> {
        read_prefix(text, 128)
    }

    fn refusal() -> AddrParseError {
        AddrParseError::Ipv6
    }

    fn canonical(&self) -> ArrayString<ADDRESS_TEXT_CAPACITY> {
        Ipv6Addr::canonical(self)
    }

    fn law_texts() {
        laws::v6_text_is_computed();
        laws::v6_text_bytes();
        laws::canonical_v6_names_its_address();
        laws::canonical_v6_is_one_text();
    }

    fn law_of_width(self) {
        let _ = self.segments();
    }

    fn mask(prefix: u8) -> Ipv6Addr {
        Ipv6Addr::from(*mask_segments(prefix))
    }

    fn prefix_of_mask(self) -> Option<u8> {
        let segments = self.segments();
        let prefix = leading_ones(&segments);
        if segments == *mask_segments(prefix) {
            Some(prefix)
        } else {
            None
        }
    }

    fn least(self, prefix: u8) -> Ipv6Addr {
        Ipv6Addr::from(kept(&self.segments(), mask_segments(prefix)))
    }

    fn greatest(self, prefix: u8) -> Ipv6Addr {
        Ipv6Addr::from(filled(&self.segments(), mask_segments(prefix)))
    }

    fn agrees(self, other: Ipv6Addr, prefix: u8) -> bool {
        agree(&self.segments(), &other.segments(), mask_segments(prefix))
    }

    fn next(self) -> Ipv6Addr {
        Ipv6Addr::from(u128::from(self) + 1)
    }

    fn previous(self) -> Ipv6Addr {
        Ipv6Addr::from(u128::from(self) - 1)
    }

    fn plus(self, offset: u128) -> Ipv6Addr {
        Ipv6Addr::from(u128::from(self) + offset)
    }

    fn distance(self, last: Ipv6Addr) -> u128 {
        u128::from(last) - u128::from(self)
    }

    fn shared_bits(self, other: Ipv6Addr) -> u8 {
        (u128::from(self) ^ u128::from(other)).leading_zeros() as u8
    }

    fn trailing_zeros(self) -> u8 {
        u128::from(self).trailing_zeros() as u8
    }

    ghost address_order = { λ x y. refl };

    ghost few_digits = { (Prim.search rules, Prim.search rules, Prim.search rules) };

    ghost few_bits = { Prim.search rules };
}

/// The number with ones in all bits after the first `prefix`.
fn host_ones(prefix: u8) -> u128
    requires { prefix ≤ 128 }
    ensures { result ≡ 2 ^ (128 - prefix) - 1 }
{
    u128::MAX.checked_shr(u32::from(prefix)).unwrap_or(0)
}

impl Network<Ipv6Addr> {
    /// The number of members. At prefix length 0, where that would need 129 bits, the result is one
    /// less: 2^128 - 1.
    ///
    /// ```
    /// let network: Ipv6Network = "2001:db8::/64".parse()?;
    /// assert_eq!(rt; network.size(), 1 << 64);
    /// ```
    pub fn size(&self) -> u128
        ensures { result ≡ size_of 128 self.now }
    {
        host_ones(self.prefix()).saturating_add(1)
    }

    /// The member at index `n`, counted from 0 in ascending order; `None` if `n` is not less than
    /// `size`.
    ///
    /// ```
    /// let network: Ipv6Network = "2001:db8::1/64".parse()?;
    /// assert_eq!(rt; network.nth(0xffff), Some("2001:db8::ffff".parse::<Ipv6Addr>()?));
    /// ```
    pub fn nth(self, n: u128) -> Option<Ipv6Addr>
        ensures { SomeIff result (n < size_of 128 self) (low 128 self + n) }
    {
        if n < self.size() {
            Some(Ipv6Addr::from(u128::from(self.network()) + n))
        } else {
            None
        }
    }
}

/// The prefix length of a mask, or `InvalidPrefix` if the address is not one of the 129 masks.
///
/// ```
/// let mask: Ipv6Addr = "ffff:ffff:ffff:ffff::".parse()?;
/// assert_eq!(rt; ipv6_mask_to_prefix(mask), Ok(64));
/// ```
pub fn ipv6_mask_to_prefix(mask: Ipv6Addr) -> Result<u8, IpNetworkError>
    ensures { GivesPrefixOfMask 128 mask result }
{
    mask_to_prefix(mask)
}
