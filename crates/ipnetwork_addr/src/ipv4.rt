//! IPv4 addresses.
ghost use Rattle.std.specs.Prelude.{◌≡◌, ℕ, ◌^◌, ◌<◌, ◌≤◌, [], ◌∷◌, length, Some};
ghost use Rattle.std.specs.Int.Digits.{number_from_digits};
ghost use Rattle.ipnetwork_addr.specs.Digits.{octets_of};
ghost use Rattle.ipnetwork_addr.specs.Ipv4Text.{NamesV4, canonical_v4};
ghost use Rattle.ipnetwork_addr.specs.Reading.{Reads};

use crate::decimal::push_decimal;
use crate::octet::read_octets;
use crate::{ADDRESS_TEXT_CAPACITY, AddrParseError};
use arrayvec::ArrayString;
use std::fmt;
use std::marker::Model;
use std::str::FromStr;

/// An IPv4 address of 32 bits, ordered by its number.
///
/// ```
/// let address: Ipv4Addr = "192.0.2.1".parse()?;
/// assert_eq!(rt; u32::from(address), 3_221_225_985);
/// ```
#[derive(Clone, Copy, Debug, PartialEq, Eq, PartialOrd, Ord, Hash)]
pub struct Ipv4Addr {
    number: u32,
}

// In contracts, an address is its number.
impl Model for Ipv4Addr {
    ghost Value = { ℕ };

    ghost view = { λ a. a.number };

    ghost inverse = { λ n. record { number = n } };
}

impl Ipv4Addr {
    /// Creates the address `a.b.c.d`.
    ///
    /// ```
    /// let address = Ipv4Addr::new(192, 0, 2, 1);
    /// assert_eq!(rt; address, Ipv4Addr::from(0xc000_0201));
    /// ```
    pub fn new(a: u8, b: u8, c: u8, d: u8) -> Self
        ensures { result ≡ number_from_digits 256 (a ∷ b ∷ c ∷ d ∷ []) }
    {
        Ipv4Addr {
            number: u32::from_be_bytes([a, b, c, d]),
        }
    }

    /// Returns the four octets, highest first.
    ///
    /// ```
    /// assert_eq!(rt; Ipv4Addr::from(0xc000_0201).octets(), [192, 0, 2, 1]);
    /// ```
    pub fn octets(&self) -> [u8; 4]
        ensures octets { result ≡ octets_of self.now }
        ensures bound { self.now < 2 ^ 32 }
    {
        self.number.to_be_bytes()
    }

    /// Reads the address that a text names: four decimal octets joined by `.`, each at most 255 and
    /// without a leading zero. Nothing may come before or after. For any other text the error is
    /// `AddrParseError::Ipv4`.
    ///
    /// ```
    /// assert_eq!(rt; Ipv4Addr::read_bytes(b"192.0.2.1"), Ok(Ipv4Addr::new(192, 0, 2, 1)));
    /// assert_eq!(rt; Ipv4Addr::read_bytes(b"192.0.2.256"), Err(AddrParseError::Ipv4));
    /// ```
    pub fn read_bytes(text: &[u8]) -> Result<Self, AddrParseError>
        ensures { Reads NamesV4 AddrParseError.Ipv4 text.now result }
    {
        match read_octets(text) {
            Some(octets) => Ok(Ipv4Addr::from(octets)),
            None => Err(AddrParseError::Ipv4),
        }
    }

    /// Returns the canonical text, at most 15 bytes: four shortest decimals joined by `.`.
    ///
    /// ```
    /// let address = Ipv4Addr::new(192, 0, 2, 1);
    /// assert_eq!(rt; address.canonical().as_str(), "192.0.2.1");
    /// ```
    pub fn canonical(&self) -> ArrayString<ADDRESS_TEXT_CAPACITY>
        ensures bytes { result.bytes ≡ canonical_v4 self.now }
        ensures short { length result.bytes ≤ 15 }
    {
        let [a, b, c, d] = self.octets();
        let mut text = ArrayString::new();
        push_decimal(&mut text, a);
        text.push('.');
        push_decimal(&mut text, b);
        text.push('.');
        push_decimal(&mut text, c);
        text.push('.');
        push_decimal(&mut text, d);
        text
    }
}

impl From<u32> for Ipv4Addr {
    ghost from_gives = { λ number address. address ≡ number };

    /// Creates the address with this number.
    fn from(number: u32) -> Self {
        Ipv4Addr { number }
    }
}

impl From<[u8; 4]> for Ipv4Addr {
    ghost from_gives = { λ octets address. address ≡ number_from_digits 256 octets };

    /// Creates the address with these octets, highest first.
    fn from(octets: [u8; 4]) -> Self {
        let [a, b, c, d] = octets;
        Ipv4Addr::new(a, b, c, d)
    }
}

impl From<Ipv4Addr> for u32 {
    ghost from_gives = { λ address number. number ≡ address };

    /// Returns the number of the address.
    fn from(address: Ipv4Addr) -> Self {
        address.number
    }
}

impl FromStr for Ipv4Addr {
    type Err = AddrParseError;

    ghost use Rattle.ipnetwork_addr.specs.declared.error.AddrParseError.TheVariants as faults;

    ghost from_str_gives = { Reads NamesV4 faults.Ipv4 };

    /// The same as `read_bytes`.
    fn from_str(text: &str) -> Result<Self, AddrParseError> {
        Ipv4Addr::read_bytes(text.as_bytes())
    }
}

impl fmt::Display for Ipv4Addr {
    ghost output = { λ address. Some (canonical_v4 address) };

    ghost styled_output = { λ address _. Some (canonical_v4 address) };

    fn fmt<W: fmt::Write>(&self, f: &mut fmt::Formatter<W>) -> fmt::Result {
        f.write_str(self.canonical().as_str())
    }
}
