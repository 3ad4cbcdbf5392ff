//! Both readers of IPv4 addresses applied to one text, and whether they agree.
ghost use Rattle.std.specs.Prelude.{◌↔◌, IsTrue};
ghost use Rattle.std.specs.Net.Grammar.{Parses, IsIpv4Text};
ghost use Rattle.ipnetwork_addr.specs.Ipv4Text.{NamesV4};
ghost use Rattle.ipnetwork_addr.specs.Reading.{Reads};
ghost use Rattle.ipnetwork_witness.specs.Agreement.{Agree, SameV4};

use crate::laws;
use ipnetwork_addr::{AddrParseError, Ipv4Addr};
use std::net;

/// Returns what the two readers of IPv4 addresses, this library's and std's, return for a text.
/// They agree.
///
/// ```
/// let (ours, theirs) = read_v4(b"192.0.2.1");
/// assert_eq!(rt; ours?.octets(), theirs?.octets());
/// ```
pub fn read_v4(
    text: &[u8],
) -> (
    Result<Ipv4Addr, AddrParseError>,
    Result<net::Ipv4Addr, net::AddrParseError>,
)
    ensures ours { Reads NamesV4 AddrParseError.Ipv4 text.now result.0 }
    ensures theirs { Parses IsIpv4Text text.now result.1 }
    ensures agree { Agree SameV4 result.0 result.1 }
{
    laws::v4_readers_agree();
    (Ipv4Addr::read_bytes(text), net::Ipv4Addr::parse_ascii(text))
}

/// Returns whether two results agree: they are addresses with the same four octets, or two errors.
///
/// ```
/// let (ours, _) = read_v4(b"192.0.2.1");
/// let (_, theirs) = read_v4(b"192.0.2.01");
/// assert!(rt; !agree_v4(&ours, &theirs));
/// ```
pub fn agree_v4(
    ours: &Result<Ipv4Addr, AddrParseError>,
    theirs: &Result<net::Ipv4Addr, net::AddrParseError>,
) -> bool
    ensures { IsTrue result ↔ Agree SameV4 ours.now theirs.now }
{
    match ours {
        Ok(address) => match theirs {
            Ok(other) => address.octets() == other.octets(),
            Err(_) => false,
        },
        Err(_) => theirs.is_err(),
    }
}
