//! What networks need from their addresses.
ghost use Rattle.std.specs.Prelude.{◌≡◌, ◌↔◌, ℕ, ◌+◌, ◌-◌, ◌/◌, ◌^◌, ◌<◌, ◌≤◌, length, IsTrue, MatchOption};
ghost use Rattle.std.specs.Ordering.{nat_cmp};
ghost use Rattle.ipnetwork_addr.specs.Reading.{Reads};
ghost use Rattle.ipnetwork_family.specs.Bits.{SharesBits, EndsInZeros};
ghost use Rattle.ipnetwork_family.specs.Family.{Family, HasClearTexts};
ghost use Rattle.ipnetwork_family.specs.Network.{mask_of, IsNoMask, low, high, block_size};

use arrayvec::ArrayString;
use ipnetwork_addr::{ADDRESS_TEXT_CAPACITY, AddrParseError};
use std::fmt::Debug;
use std::hash::Hash;

/// The addresses of one family. An address represents a number of `WIDTH` bits and is ordered by
/// it; a prefix length is the number of leading bits that are compared. No call allocates.
///
/// ```
/// assert_eq!(rt; <Ipv4Addr as Address>::WIDTH, 32);
/// assert_eq!(rt; <Ipv6Addr as Address>::WIDTH, 128);
/// ```
pub trait Address: Copy + Ord + Hash + Debug {
    /// The number of bits of an address, and the greatest prefix length: 32 for IPv4, 128 for IPv6.
    const WIDTH: u8;

    // The number of bits, as contracts see it.
    ghost WIDTH: { ℕ };

    // How addresses and prefix lengths are spelled.
    ghost family: { Family WIDTH };

    // The number that an address represents.
    ghost number: { Self → ℕ };

    // The address that represents a number.
    ghost of_number: { ℕ → Self };

    // An address is determined by its number.
    ghost back: { (a : Self) → of_number (number a) ≡ a };

    // The address of a number has that number.
    ghost forth: { (n : ℕ) → number (of_number n) ≡ n };

    /// The address that a text names, or `refusal` if it names none.
    ///
    /// ```
    /// let address = <Ipv4Addr as Address>::read_bytes(b"192.0.2.1")?;
    /// assert_eq!(rt; address, Ipv4Addr::new(192, 0, 2, 1));
    /// ```
    fn read_bytes(text: &[u8]) -> Result<Self, AddrParseError>
        ensures { Reads (λ name address. family.NamesAddress name (number address)) family.refusal
            text.now result };

    /// The prefix length that a text after the `/` of a network gives, or `None` if it gives none:
    /// a number or, for IPv4 only, a mask written as an address.
    ///
    /// ```
    /// assert_eq!(rt; Ipv4Addr::read_suffix(b"255.255.240.0"), Some(20));
    /// assert_eq!(rt; Ipv6Addr::read_suffix(b"129"), None);
    /// ```
    fn read_suffix(text: &[u8]) -> Option<u8>
        ensures { MatchOption result ((p : ℕ) → ¬ (family.IsSuffix text.now p))
            (λ p. (p ≤ WIDTH) × family.IsSuffix text.now p) };

    /// The error for a text that names no address of the family.
    ///
    /// ```
    /// assert_eq!(rt; Ipv4Addr::refusal(), AddrParseError::Ipv4);
    /// ```
    fn refusal() -> AddrParseError
        ensures { result ≡ family.refusal };

    /// The canonical text of the address.
    ///
    /// ```
    /// let address = Ipv4Addr::new(192, 0, 2, 1);
    /// assert_eq!(rt; Address::canonical(&address).as_str(), "192.0.2.1");
    /// ```
    fn canonical(&self) -> ArrayString<ADDRESS_TEXT_CAPACITY>
        ensures bytes { result.bytes ≡ family.canonical (number self.now) }
        ensures short { (length result.bytes ≤ family.address_length)
            × (family.address_length ≤ ADDRESS_TEXT_CAPACITY) };

    /// Does nothing. Its contract states that the texts of the family are unambiguous.
    #[doc(hidden)]
    fn law_texts()
        ensures { HasClearTexts WIDTH family };

    /// Does nothing. Its contract states that the address's number has `WIDTH` bits.
    #[doc(hidden)]
    fn law_of_width(self)
        ensures { number self < 2 ^ WIDTH };

    /// The mask of a prefix length, which must be at most `WIDTH`: that many leading ones, followed
    /// by zeros.
    ///
    /// ```
    /// assert_eq!(rt; Ipv4Addr::mask(20), Ipv4Addr::new(255, 255, 240, 0));
    /// ```
    fn mask(prefix: u8) -> Self
        requires { prefix ≤ WIDTH }
        ensures { number result ≡ mask_of WIDTH prefix };

    /// The prefix length of a mask; `None` if the address is not a mask.
    ///
    /// ```
    /// assert_eq!(rt; Ipv4Addr::new(255, 255, 240, 0).prefix_of_mask(), Some(20));
    /// assert_eq!(rt; Ipv4Addr::new(255, 0, 255, 0).prefix_of_mask(), None);
    /// ```
    fn prefix_of_mask(self) -> Option<u8>
        ensures { MatchOption result (IsNoMask WIDTH (number self))
            (λ prefix. (prefix ≤ WIDTH) × (number self ≡ mask_of WIDTH prefix)) };

    /// The address with the bits after the first `prefix` cleared. `prefix` must be at most
    /// `WIDTH`.
    ///
    /// ```
    /// assert_eq!(rt; Ipv4Addr::new(192, 0, 2, 77).least(26), Ipv4Addr::new(192, 0, 2, 64));
    /// ```
    fn least(self, prefix: u8) -> Self
        requires { prefix ≤ WIDTH }
        ensures { number result ≡ low WIDTH (record { address = number self; prefix = prefix }) };

    /// The address with the bits after the first `prefix` set. `prefix` must be at most `WIDTH`.
    ///
    /// ```
    /// assert_eq!(rt; Ipv4Addr::new(192, 0, 2, 77).greatest(26), Ipv4Addr::new(192, 0, 2, 127));
    /// ```
    fn greatest(self, prefix: u8) -> Self
        requires { prefix ≤ WIDTH }
        ensures { number result ≡ high WIDTH (record { address = number self; prefix = prefix }) };

    /// Whether two addresses agree in their first `prefix` bits. `prefix` must be at most `WIDTH`.
    ///
    /// ```
    /// let address = Ipv4Addr::new(192, 0, 2, 77);
    /// assert!(rt; address.agrees(Ipv4Addr::new(192, 0, 2, 127), 26));
    /// assert!(rt; !address.agrees(Ipv4Addr::new(192, 0, 2, 128), 26));
    /// ```
    fn agrees(self, other: Self, prefix: u8) -> bool
        requires { prefix ≤ WIDTH }
        ensures { IsTrue result
            ↔ (number self / block_size WIDTH prefix ≡ number other / block_size WIDTH prefix) };

    /// The next address. This one must not be the last.
    ///
    /// ```
    /// assert_eq!(rt; Ipv4Addr::new(192, 0, 2, 255).next(), Ipv4Addr::new(192, 0, 3, 0));
    /// ```
    fn next(self) -> Self
        requires { number self + 1 < 2 ^ WIDTH }
        ensures { number result ≡ number self + 1 };

    /// The previous address. This one must not be the first.
    ///
    /// ```
    /// assert_eq!(rt; Ipv4Addr::new(192, 0, 3, 0).previous(), Ipv4Addr::new(192, 0, 2, 255));
    /// ```
    fn previous(self) -> Self
        requires { 0 < number self }
        ensures { number result ≡ number self - 1 };

    /// The address `offset` places after this one. It must not exceed the last address of the
    /// family.
    ///
    /// ```
    /// assert_eq!(rt; Ipv4Addr::new(192, 0, 2, 255).plus(257), Ipv4Addr::new(192, 0, 4, 0));
    /// ```
    fn plus(self, offset: u128) -> Self
        requires { number self + offset < 2 ^ WIDTH }
        ensures { number result ≡ number self + offset };

    /// How many places `last` comes after this address. It must not come before it.
    ///
    /// ```
    /// assert_eq!(rt; Ipv4Addr::new(192, 0, 2, 255).distance(Ipv4Addr::new(192, 0, 4, 0)), 257);
    /// ```
    fn distance(self, last: Self) -> u128
        requires { number self ≤ number last }
        ensures { result ≡ number last - number self };

    /// The number of leading bits that two addresses share: the greatest prefix length of a block
    /// that holds both.
    ///
    /// ```
    /// let address = Ipv4Addr::new(192, 0, 2, 77);
    /// assert_eq!(rt; address.shared_bits(Ipv4Addr::new(192, 0, 2, 127)), 26);
    /// ```
    fn shared_bits(self, other: Self) -> u8
        ensures { SharesBits WIDTH (number self) (number other) result };

    /// The number of trailing zero bits; `WIDTH` for the address 0.
    ///
    /// ```
    /// assert_eq!(rt; Ipv4Addr::new(255, 255, 240, 0).trailing_zeros(), 12);
    /// ```
    fn trailing_zeros(self) -> u8
        ensures { EndsInZeros WIDTH (number self) result };

    // Addresses are ordered by their numbers.
    ghost address_order: { (x y : Self) → Self.cmp x y ≡ nat_cmp (number x) (number y) };

    // A prefix length has at most `prefix_digits` digits, which is 1 to 3.
    ghost few_digits: { (1 ≤ family.prefix_digits) × (family.prefix_digits ≤ 3)
        × (WIDTH < 10 ^ family.prefix_digits) };

    // An address has at most 128 bits.
    ghost few_bits: { WIDTH ≤ 128 };
}
