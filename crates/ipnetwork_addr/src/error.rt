//! The error of reading an address.
ghost use Rattle.std.specs.Prelude.{Some};

use std::error::Error;
use std::fmt;

/// The error for a text that names no address. It says which kind of address was expected, but not
/// where the text is wrong.
///
/// ```
/// assert_eq!(rt; Ipv4Addr::read_bytes(b"192.0.2.01"), Err(AddrParseError::Ipv4));
/// let text = AddrParseError::Ipv4.to_string(rt.alloc())?;
/// assert_eq!(rt; text.as_str(), "invalid IPv4 address syntax");
/// ```
#[derive(Clone, Copy, Debug, PartialEq, Eq)]
pub enum AddrParseError {
    /// The text names no IPv4 address.
    Ipv4,
    /// The text names no IPv6 address.
    Ipv6,
    /// The text names no address of either family.
    Ip,
}

impl fmt::Display for AddrParseError {
    ghost use Rattle.ipnetwork_addr.specs.Faults.{addr_fault_text};

    ghost output = { λ fault. Some (addr_fault_text fault) };

    ghost styled_output = { λ fault _. Some (addr_fault_text fault) };

    fn fmt<W: fmt::Write>(&self, f: &mut fmt::Formatter<W>) -> fmt::Result {
        f.write_str(match self {
            AddrParseError::Ipv4 => "invalid IPv4 address syntax",
            AddrParseError::Ipv6 => "invalid IPv6 address syntax",
            AddrParseError::Ip => "invalid IP address syntax",
        })
    }
}

impl Error for AddrParseError {}
