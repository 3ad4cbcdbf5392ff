//! IPv4: the implementation of `Address`, the number of members and the nth member, and masks.
ghost use Rattle.std.specs.Prelude.{◌≡◌, ℕ, ◌+◌, ◌-◌, ◌^◌, ◌<◌, ◌≤◌};
ghost use Rattle.std.specs.Option.{SomeIff};
ghost use Rattle.ipnetwork_family.specs.Family.{v4_family};
ghost use Rattle.ipnetwork_family.specs.Masks.{GivesPrefixOfMask};
ghost use Rattle.ipnetwork_family.specs.Network.{low, size_of};

use crate::network::mask_to_prefix;
use crate::parse::read_prefix;
use crate::{Address, IpNetworkError, Network};
use arrayvec::ArrayString;
use ipnetwork_addr::{ADDRESS_TEXT_CAPACITY, AddrParseError, Ipv4Addr, laws};

impl Address for Ipv4Addr {
    ghost use Rattle.std.specs.Prelude.{refl};
    ghost use Rattle.std.proofs.Common.{rules};

    const WIDTH: u8 = 32;

    ghost WIDTH = { 32 };

    ghost family = { v4_family };

    ghost number = { λ address. address };

    ghost of_number = { λ number. number };

    ghost back = { λ a. refl };

    ghost forth = { λ n. refl };

    fn read_bytes(text: &[u8]) -> Result<Ipv4Addr, AddrParseError> {
        Ipv4Addr::read_bytes(text)
    }

    fn read_suffix(text: &[u8]) -> Option<u8> {
        if let Some(prefix) = read_prefix(text, 32) {
            return Some(prefix);
        }
        // Does nothing. The proof needs the law: the text names no other address, so no other mask.
        laws::v4_text_names_one();
        match Ipv4Addr::read_bytes(text) {
            Ok(mask) => mask.prefix_of_mask(),
            Err(_) => None,
        }
    }

    fn refusal() -> AddrParseError {
        AddrParseError::Ipv4
    }

    fn canonical(&self) -> ArrayString<ADDRESS_TEXT_CAPACITY> {
        Ipv4Addr::canonical(self)
    }

    fn law_texts() {
        laws::v4_text_is_computed();
        laws::v4_text_bytes();
        laws::canonical_v4_names_its_address();
    }

    fn law_of_width(self) {
        let _ = self.octets();
    }

    fn mask(prefix: u8) -> Ipv4Addr {
        Ipv4Addr::from(!host_ones(prefix))
    }

    fn prefix_of_mask(self) -> Option<u8> {
        let mask = u32::from(self);
        let prefix = (!mask).leading_zeros() as u8;
        if !mask == host_ones(prefix) {
            Some(prefix)
        } else {
            None
        }
    }

    fn least(self, prefix: u8) -> Ipv4Addr {
        Ipv4Addr::from(u32::from(self) & !host_ones(prefix))
    }

    fn greatest(self, prefix: u8) -> Ipv4Addr {
        let ones = host_ones(prefix);
        Ipv4Addr::from(u32::from(self) & !ones | ones)
    }

    fn agrees(self, other: Ipv4Addr, prefix: u8) -> bool {
        let mask = !host_ones(prefix);
        u32::from(self) & mask == u32::from(other) & mask
    }

    fn next(self) -> Ipv4Addr {
        Ipv4Addr::from(u32::from(self) + 1)
    }

    fn previous(self) -> Ipv4Addr {
        Ipv4Addr::from(u32::from(self) - 1)
    }

    fn plus(self, offset: u128) -> Ipv4Addr {
        Ipv4Addr::from(u32::from(self) + offset as u32)
    }

    fn distance(self, last: Ipv4Addr) -> u128 {
        u128::from(u32::from(last) - u32::from(self))
    }

    fn shared_bits(self, other: Ipv4Addr) -> u8 {
        (u32::from(self) ^ u32::from(other)).leading_zeros() as u8
    }

    fn trailing_zeros(self) -> u8 {
        u32::from(self).trailing_zeros() as u8
    }

    ghost address_order = { λ x y. refl };

    ghost few_digits = { (Prim.search rules, Prim.search rules, Prim.search rules) };

    ghost few_bits = { Prim.search rules };
}

/// The number with ones in all bits after the first `prefix`.
fn host_ones(prefix: u8) -> u32
    requires { prefix ≤ 32 }
    ensures { result ≡ 2 ^ (32 - prefix) - 1 }
{
    // In 64 bits, a shift by 32 needs no special case.
    (u64::from(u32::MAX) >> prefix) as u32
}

impl Network<Ipv4Addr> {
    /// The number of members. At prefix length 0, where that would need 33 bits, the result is one
    /// less: 4,294,967,295.
    ///
    /// ```
    /// let network: Ipv4Network = "192.0.2.77/26".parse()?;
    /// assert_eq!(rt; network.size(), 64);
    /// ```
    pub fn size(&self) -> u32
        ensures { result ≡ size_of 32 self.now }
    {
        host_ones(self.prefix()).saturating_add(1)
    }

    /// The member at index `n`, counted from 0 in ascending order; `None` if `n` is not less than
    /// `size`.
    ///
    /// ```
    /// let network: Ipv4Network = "192.0.2.77/26".parse()?;
    /// assert_eq!(rt; network.nth(1), Some(Ipv4Addr::new(192, 0, 2, 65)));
    /// assert_eq!(rt; network.nth(64), None);
    /// ```
    pub fn nth(self, n: u32) -> Option<Ipv4Addr>
        ensures { SomeIff result (n < size_of 32 self) (low 32 self + n) }
    {
        if n < self.size() {
            Some(Ipv4Addr::from(u32::from(self.network()) + n))
        } else {
            None
        }
    }
}

/// The prefix length of a mask, or `InvalidPrefix` if the address is not one of the 33 masks.
///
/// ```
/// assert_eq!(rt; ipv4_mask_to_prefix(Ipv4Addr::new(255, 255, 240, 0)), Ok(20));
/// ```
pub fn ipv4_mask_to_prefix(mask: Ipv4Addr) -> Result<u8, IpNetworkError>
    ensures { GivesPrefixOfMask 32 mask result }
{
    mask_to_prefix(mask)
}
