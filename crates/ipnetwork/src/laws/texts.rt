//! Laws on texts: which network a text names, how a network is printed, and the error for a text
//! that names none.
ghost use Rattle.std.specs.Prelude.{◌≡◌, ◌↔◌, ℕ, List, Result, Ok};
ghost use Rattle.std.specs.List.{AllByRecursion};
ghost use Rattle.ipnetwork_family.specs.NetworkText.{IsNetworkByte};
ghost use Rattle.ipnetwork_family.specs.declared.error.CidrFault.{CidrFault};
ghost use Rattle.ipnetwork.specs.IpNetworks.{IsIpNetwork};
ghost use Rattle.ipnetwork.specs.IpNetworkText.{NamesIpNetwork, ReadsIpNetwork, ip_network_text};
ghost use Rattle.ipnetwork.specs.Computed.IpNetworkText.{ip_network_of};

use crate::{IpNetwork, Ipv4Addr, Ipv6Addr};
use ipnetwork_addr::laws as address_laws;
use ipnetwork_family::laws as family_laws;

/// A text names at most one network, across both families.
pub fn ip_network_text_names_one()
    ensures { (text : List ℕ) (a b : IpNetwork)
        → NamesIpNetwork text a → NamesIpNetwork text b → a ≡ b }
{
    address_laws::v4_text_is_computed();
    address_laws::v6_text_is_computed();
    address_laws::no_text_names_both();
    family_laws::v4_network_reading_is_computed();
    family_laws::v6_network_reading_is_computed();
}

/// What reading a network of either family returns can be computed from the text, and the text
/// determines it.
pub fn ip_network_reading_is_computed()
    ensures { (text : List ℕ) (result : Result IpNetwork CidrFault)
        → ReadsIpNetwork text result ↔ (result ≡ ip_network_of text) }
{
    ip_network_text_names_one();
    family_laws::v4_network_reading_is_computed();
    family_laws::v6_network_reading_is_computed();
}

/// The canonical text of a network names it, host bits included.
pub fn canonical_ip_network_names_it()
    ensures { (n : IpNetwork) → IsIpNetwork n → NamesIpNetwork (ip_network_text n) n }
{
    family_laws::canonical_network_names_it::<Ipv4Addr>();
    family_laws::canonical_network_names_it::<Ipv6Addr>();
}

/// Reading the canonical text of a network can only return that network, so printing the result
/// gives the same text.
pub fn canonical_ip_network_reads_back()
    ensures { (n : IpNetwork) (result : Result IpNetwork CidrFault) → IsIpNetwork n
        → ReadsIpNetwork (ip_network_text n) result ↔ (result ≡ Ok n) }
{
    ip_network_text_names_one();
    canonical_ip_network_names_it();
}

/// Two networks are equal if and only if their canonical texts are, across families too.
pub fn canonical_ip_network_is_one_to_one()
    ensures { (a b : IpNetwork) → IsIpNetwork a → IsIpNetwork b
        → (a ≡ b) ↔ (ip_network_text a ≡ ip_network_text b) }
{
    ip_network_text_names_one();
    canonical_ip_network_names_it();
}

/// The canonical text of a network consists of hex digits, `.`, `:` and `/`.
pub fn canonical_ip_network_bytes()
    ensures { (n : IpNetwork) → IsIpNetwork n → AllByRecursion IsNetworkByte (ip_network_text n) }
{
    family_laws::canonical_network_bytes::<Ipv4Addr>();
    family_laws::canonical_network_bytes::<Ipv6Addr>();
}
