//! Both readers of IPv6 addresses applied to one text, and whether they agree.
ghost use Rattle.std.specs.Prelude.{◌↔◌, IsTrue};
ghost use Rattle.std.specs.Net.Grammar.{Parses, IsIpv6Text};
ghost use Rattle.ipnetwork_addr.specs.Ipv6Text.{NamesV6};
ghost use Rattle.ipnetwork_addr.specs.Reading.{Reads};
ghost use Rattle.ipnetwork_witness.specs.Agreement.{Agree, SameV6};

use crate::laws;
use ipnetwork_addr::{AddrParseError, Ipv6Addr};
use std::net;

/// Returns what the two readers of IPv6 addresses, this library's and std's, return for a text.
/// They agree.
///
/// ```
/// let (ours, theirs) = read_v6(b"2001:db8::1");
/// assert_eq!(rt; ours?.segments(), theirs?.segments());
/// ```
pub fn read_v6(
    text: &[u8],
) -> (
    Result<Ipv6Addr, AddrParseError>,
    Result<net::Ipv6Addr, net::AddrParseError>,
)
    ensures ours { Reads NamesV6 AddrParseError.Ipv6 text.now result.0 }
    ensures theirs { Parses IsIpv6Text text.now result.1 }
    ensures agree { Agree SameV6 result.0 result.1 }
{
    laws::v6_readers_agree();
    (Ipv6Addr::read_bytes(text), net::Ipv6Addr::parse_ascii(text))
}

/// Returns whether two results agree: they are addresses with the same eight groups, or two errors.
///
/// ```
/// let (ours, _) = read_v6(b"2001:db8::1");
/// let (_, theirs) = read_v6(b"1::2::3");
/// assert!(rt; !agree_v6(&ours, &theirs));
/// ```
pub fn agree_v6(
    ours: &Result<Ipv6Addr, AddrParseError>,
    theirs: &Result<net::Ipv6Addr, net::AddrParseError>,
) -> bool
    ensures { IsTrue result ↔ Agree SameV6 ours.now theirs.now }
{
    match ours {
        Ok(address) => match theirs {
            Ok(other) => address.segments() == other.segments(),
            Err(_) => false,
        },
        Err(_) => theirs.is_err(),
    }
}
