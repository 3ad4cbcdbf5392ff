//! Laws on what can be computed: the address that a text names, and the result of a reader.
ghost use Rattle.std.specs.Prelude.{◌≡◌, ◌↔◌, ℕ, List, Result, Some};
ghost use Rattle.ipnetwork_addr.specs.Ipv4Text.{NamesV4};
ghost use Rattle.ipnetwork_addr.specs.Computed.Ipv4Text.{v4_of};
ghost use Rattle.ipnetwork_addr.specs.Either.{NamesIp};
ghost use Rattle.ipnetwork_addr.specs.Computed.Either.{ip_of};
ghost use Rattle.ipnetwork_addr.specs.Computed.Ipv6Text.{v6_of};
ghost use Rattle.ipnetwork_addr.specs.Ipv6Text.{NamesV6};
ghost use Rattle.ipnetwork_addr.specs.Reading.{Reads};
ghost use Rattle.ipnetwork_addr.specs.Computed.Reading.{answer_from};

use crate::{AddrParseError, IpAddr};

/// The address that an IPv4 text names can be computed from the text.
pub fn v4_text_is_computed()
    ensures { (text : List ℕ) (address : ℕ) → NamesV4 text address ↔ (v4_of text ≡ Some address) }
{}

/// The address that an IPv6 text names can be computed from the text.
pub fn v6_text_is_computed()
    ensures { (text : List ℕ) (address : ℕ) → NamesV6 text address ↔ (v6_of text ≡ Some address) }
{}

/// What reading an IPv4 address returns can be computed from the text, and the text determines it.
pub fn v4_reading_is_computed()
    ensures { (text : List ℕ) (result : Result ℕ AddrParseError)
        → Reads NamesV4 AddrParseError.Ipv4 text result
        ↔ (result ≡ answer_from AddrParseError.Ipv4 (v4_of text)) }
{}

/// What reading an IPv6 address returns can be computed from the text, and the text determines it.
pub fn v6_reading_is_computed()
    ensures { (text : List ℕ) (result : Result ℕ AddrParseError)
        → Reads NamesV6 AddrParseError.Ipv6 text result
        ↔ (result ≡ answer_from AddrParseError.Ipv6 (v6_of text)) }
{}

/// What reading an address of either family returns can be computed from the text, and the text
/// determines it.
pub fn ip_reading_is_computed()
    ensures { (text : List ℕ) (result : Result IpAddr AddrParseError)
        → Reads NamesIp AddrParseError.Ip text result
        ↔ (result ≡ answer_from AddrParseError.Ip (ip_of text)) }
{}
