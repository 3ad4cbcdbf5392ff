//! Addresses of either family.
ghost use Rattle.std.specs.Prelude.{◌≡◌, ◌≤◌, Some, length};
ghost use Rattle.ipnetwork_addr.specs.Reading.{Reads};

use crate::first_mark::has_colon_first;
use crate::{ADDRESS_TEXT_CAPACITY, AddrParseError, Ipv4Addr, Ipv6Addr};
use arrayvec::ArrayString;
use std::fmt;
use std::str::FromStr;

/// An address of either family. Every IPv4 address is ordered before every IPv6 address.
///
/// ```
/// let v4: IpAddr = "255.255.255.255".parse()?;
/// let v6: IpAddr = "::".parse()?;
/// assert!(rt; v4 < v6);
/// ```
#[derive(Clone, Copy, Debug, PartialEq, Eq, PartialOrd, Ord, Hash)]
pub enum IpAddr {
    /// An IPv4 address.
    V4(Ipv4Addr),
    /// An IPv6 address.
    V6(Ipv6Addr),
}

impl IpAddr {
    ghost use Rattle.ipnetwork_addr.specs.Either.{NamesIp, canonical_ip, unmapped};

    /// Reads the address that a text names, with `Ipv4Addr::read_bytes` or `Ipv6Addr::read_bytes`;
    /// no text names an address of each family. For any other text the error is
    /// `AddrParseError::Ip`.
    ///
    /// ```
    /// assert_eq!(rt; IpAddr::read_bytes(b"192.0.2.1"), Ok(IpAddr::V4(Ipv4Addr::new(192, 0, 2, 1))));
    /// assert_eq!(rt; IpAddr::read_bytes(b"192.0.2"), Err(AddrParseError::Ip));
    /// ```
    #[inline(always)]
    pub fn read_bytes(text: &[u8]) -> Result<Self, AddrParseError>
        ensures { Reads NamesIp AddrParseError.Ip text.now result }
    {
        if has_colon_first(text) {
            match Ipv6Addr::read_bytes(text) {
                Ok(address) => Ok(IpAddr::V6(address)),
                Err(_) => Err(AddrParseError::Ip),
            }
        } else {
            match Ipv4Addr::read_bytes(text) {
                Ok(address) => Ok(IpAddr::V4(address)),
                Err(_) => Err(AddrParseError::Ip),
            }
        }
    }

    /// Returns the canonical text of the address, at most 39 bytes.
    ///
    /// ```
    /// let address: IpAddr = "2001:DB8:0:0:1:0:0:1".parse()?;
    /// assert_eq!(rt; address.canonical().as_str(), "2001:db8::1:0:0:1");
    /// ```
    pub fn canonical(&self) -> ArrayString<ADDRESS_TEXT_CAPACITY>
        ensures bytes { result.bytes ≡ canonical_ip self.now }
        ensures short { length result.bytes ≤ 39 }
    {
        match self {
            IpAddr::V4(address) => address.canonical(),
            IpAddr::V6(address) => address.canonical(),
        }
    }

    /// Returns the IPv4 address that an IPv4-mapped address, one in `::ffff:0:0/96`, represents
    /// (RFC 4291, section 2.5.5.2), and any other address unchanged.
    ///
    /// ```
    /// let mapped: IpAddr = "::ffff:10.1.1.1".parse()?;
    /// assert_eq!(rt; mapped.to_canonical(), "10.1.1.1".parse()?);
    /// let other: IpAddr = "::10.1.1.1".parse()?;
    /// assert_eq!(rt; other.to_canonical(), other);
    /// ```
    pub fn to_canonical(&self) -> IpAddr
        ensures { result ≡ unmapped self.now }
    {
        match self {
            IpAddr::V4(address) => IpAddr::V4(*address),
            IpAddr::V6(address) => {
                let number = u128::from(*address);
                if number / 0x1_0000_0000 == 0xffff {
                    IpAddr::V4(Ipv4Addr::from((number % 0x1_0000_0000) as u32))
                } else {
                    IpAddr::V6(*address)
                }
            }
        }
    }
}

impl FromStr for IpAddr {
    type Err = AddrParseError;

    ghost use Rattle.ipnetwork_addr.specs.Either.{NamesIp};
    ghost use Rattle.ipnetwork_addr.specs.declared.error.AddrParseError.TheVariants as faults;

    ghost from_str_gives = { Reads NamesIp faults.Ip };

    /// The same as `read_bytes`.
    fn from_str(text: &str) -> Result<Self, AddrParseError> {
        IpAddr::read_bytes(text.as_bytes())
    }
}

impl fmt::Display for IpAddr {
    ghost use Rattle.ipnetwork_addr.specs.Either.{canonical_ip};

    ghost output = { λ address. Some (canonical_ip address) };

    ghost styled_output = { λ address _. Some (canonical_ip address) };

    fn fmt<W: fmt::Write>(&self, f: &mut fmt::Formatter<W>) -> fmt::Result {
        f.write_str(self.canonical().as_str())
    }
}
