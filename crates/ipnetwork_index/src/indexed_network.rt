//! What an index needs from a family of addresses.
ghost use Rattle.std.specs.Prelude.{◌≡◌, ℕ, ◌+◌, ◌/◌, ◌%◌, ◌^◌, ◌<◌, ◌≤◌, IsTrue};
ghost use Rattle.ipnetwork_index.specs.Halves.{IsLastOf, halves_ascend};

use crate::key::Key;
use ipnetwork_addr::{Ipv4Addr, Ipv6Addr};
use ipnetwork_blocks::AddressSpace;
use ipnetwork_family::{Ipv4Network, Ipv6Network};

/// Networks whose addresses can be indexed as plain numbers, which are compared as a whole. No call
/// allocates.
///
/// ```
/// assert_eq!(rt; Ipv4Network::number_of(Ipv4Addr::new(0, 0, 1, 2)), 258);
/// ```
pub trait IndexedNetwork: AddressSpace {
    /// The plain numbers of the family.
    type Number: Key;

    /// The high halves of these numbers.
    type High: Key;

    // The high half of a number.
    ghost high: { ℕ → ℕ };

    /// The number of an address.
    ///
    /// ```
    /// assert_eq!(rt; Ipv6Network::number_of("::1:2".parse()?), 65538);
    /// ```
    fn number_of(addr: Self::Addr) -> Self::Number
        ensures number { Self.Number.value result ≡ Self.number addr }
        ensures width { Self.Number.value result < 2 ^ Self.WIDTH };

    /// The number of the last address.
    ///
    /// ```
    /// assert_eq!(rt; Ipv4Network::greatest(), u32::MAX);
    /// ```
    fn greatest() -> Self::Number
        ensures { Self.Number.value result + 1 ≡ 2 ^ Self.WIDTH };

    /// The high half of a number, or the number itself if it is not compared by halves.
    ///
    /// ```
    /// assert_eq!(rt; Ipv6Network::high_of(5 << 64 | 7), 5);
    /// assert_eq!(rt; Ipv4Network::high_of(7), 7);
    /// ```
    fn high_of(number: Self::Number) -> Self::High
        ensures { Self.High.value result ≡ high (Self.Number.value number) };

    /// Whether the number is known to be the greatest with its high half.
    ///
    /// ```
    /// assert!(rt; Ipv6Network::ends_high((5 << 64) - 1));
    /// assert!(rt; !Ipv6Network::ends_high(5 << 64));
    /// ```
    fn ends_high(number: Self::Number) -> bool
        ensures { IsTrue result → IsLastOf high (Self.Number.value number) };

    /// The last 32 bits of a number, which are all bits of an IPv4 address.
    ///
    /// ```
    /// assert_eq!(rt; Ipv6Network::low_word(5 << 32 | 7), 7);
    /// assert_eq!(rt; Ipv4Network::low_word(7), 7);
    /// ```
    fn low_word(number: Self::Number) -> u32
        ensures { result ≡ Self.Number.value number % 2 ^ 32 };

    /// Whether numbers are to be compared by halves. Those of IPv6 addresses are, since most
    /// networks end where a high half does.
    ///
    /// ```
    /// assert!(rt; Ipv6Network::has_halves());
    /// ```
    fn has_halves() -> bool;

    // A greater number does not have a smaller high half.
    ghost high_ascends: { (x y : ℕ) → x ≤ y → high x ≤ high y };
}

impl IndexedNetwork for Ipv4Network {
    type Number = u32;

    type High = u32;

    ghost high = { λ n. n };

    fn number_of(addr: Ipv4Addr) -> u32 {
        u32::from(addr)
    }

    fn greatest() -> u32 {
        u32::MAX
    }

    fn high_of(number: u32) -> u32 {
        number
    }

    fn ends_high(_number: u32) -> bool {
        true
    }

    fn low_word(number: u32) -> u32 {
        number
    }

    fn has_halves() -> bool {
        false
    }

    ghost high_ascends = { λ x y l. l };
}

impl IndexedNetwork for Ipv6Network {
    type Number = u128;

    type High = u64;

    ghost high = { λ n. n / 2 ^ 64 };

    fn number_of(addr: Ipv6Addr) -> u128 {
        u128::from(addr)
    }

    fn greatest() -> u128 {
        u128::MAX
    }

    fn high_of(number: u128) -> u64 {
        (number >> 64) as u64
    }

    fn ends_high(number: u128) -> bool {
        number % (1 << 64) == (1 << 64) - 1
    }

    fn low_word(number: u128) -> u32 {
        (number % (1 << 32)) as u32
    }

    fn has_halves() -> bool {
        true
    }

    ghost high_ascends = { halves_ascend };
}
