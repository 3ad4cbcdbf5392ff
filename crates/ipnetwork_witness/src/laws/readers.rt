//! Laws on the readers: for every text, this library's reader and std's return results that agree.
ghost use Rattle.std.specs.Prelude.{ℕ, List, Result};
ghost use Rattle.std.specs.Net.Grammar.{Parses, IsIpv4Text, IsIpv6Text};
ghost use Rattle.std.specs.declared.net.ipv4_addr.Ipv4Addr as std_v4;
ghost use Rattle.std.specs.declared.net.ipv6_addr.Ipv6Addr as std_v6;
ghost use Rattle.std.specs.declared.net.parser.AddrParseError as std_error;
ghost use Rattle.ipnetwork_addr.specs.declared.error.AddrParseError as error;
ghost use Rattle.ipnetwork_addr.specs.declared.error.AddrParseError.TheVariants as kinds;
ghost use Rattle.ipnetwork_addr.specs.Ipv4Text.{NamesV4};
ghost use Rattle.ipnetwork_addr.specs.Ipv6Text.{NamesV6};
ghost use Rattle.ipnetwork_addr.specs.Reading.{Reads};
ghost use Rattle.ipnetwork_witness.specs.Agreement.{Agree, SameV4, SameV6};

use super::{v4_texts_are_shared, v6_texts_are_shared};
use ipnetwork_addr::laws as address_laws;

/// Reading any text as an IPv4 address, this library's reader and std's return addresses with the
/// same bits, or both return an error.
pub fn v4_readers_agree()
    ensures { (text : List ℕ)
        (ours : Result ℕ error.AddrParseError)
        (theirs : Result std_v4.Ipv4Addr std_error.AddrParseError)
        → Reads NamesV4 kinds.Ipv4 text ours → Parses IsIpv4Text text theirs
        → Agree SameV4 ours theirs }
{
    v4_texts_are_shared();
    address_laws::v4_text_names_one();
}

/// Reading any text as an IPv6 address, this library's reader and std's return addresses with the
/// same bits, or both return an error.
pub fn v6_readers_agree()
    ensures { (text : List ℕ)
        (ours : Result ℕ error.AddrParseError)
        (theirs : Result std_v6.Ipv6Addr std_error.AddrParseError)
        → Reads NamesV6 kinds.Ipv6 text ours → Parses IsIpv6Text text theirs
        → Agree SameV6 ours theirs }
{
    v6_texts_are_shared();
    address_laws::v6_text_names_one();
}
