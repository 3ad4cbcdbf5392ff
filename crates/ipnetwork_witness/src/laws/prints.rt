//! Laws on printing: std prints the canonical text of an address.
ghost use Rattle.std.specs.Prelude.{◌≡◌, ℕ};
ghost use Rattle.std.specs.Net.Addr.{ipv4_octets, ipv6_segments};
ghost use Rattle.std.specs.Net.Text.{ipv4_text, ipv6_text, ip_text};
ghost use Rattle.std.specs.declared.net.ipv4_addr.Ipv4Addr as std_v4;
ghost use Rattle.std.specs.declared.net.ipv6_addr.Ipv6Addr as std_v6;
ghost use Rattle.std.specs.declared.net.ip_addr.IpAddr as std_ip;
ghost use Rattle.ipnetwork_addr.specs.declared.ip.IpAddr as either;
ghost use Rattle.ipnetwork_addr.specs.Either.{canonical_ip};
ghost use Rattle.ipnetwork_addr.specs.Ipv4Text.{canonical_v4};
ghost use Rattle.ipnetwork_addr.specs.Computed.Ipv6Canonical.{canonical_v6};
ghost use Rattle.ipnetwork_witness.specs.Agreement.{SameV4, SameV6, SameIp};

use ipnetwork_addr::laws as address_laws;

/// The canonical text of an IPv4 address is what std prints for the address with the same bits.
pub fn v4_prints_agree()
    ensures { (ours : ℕ) (theirs : std_v4.Ipv4Addr) → SameV4 ours theirs
        → canonical_v4 ours ≡ ipv4_text (ipv4_octets theirs) }
{}

/// The canonical text of an IPv6 address is what std prints for the address with the same bits.
pub fn v6_prints_agree()
    ensures { (ours : ℕ) (theirs : std_v6.Ipv6Addr) → SameV6 ours theirs
        → canonical_v6 ours ≡ ipv6_text (ipv6_segments theirs) }
{
    address_laws::canonical_v6_is_one_text();
}

/// The canonical text of an address of either family is what std prints for the address of that
/// family with the same bits.
pub fn ip_prints_agree()
    ensures { (ours : either.IpAddr) (theirs : std_ip.IpAddr) → SameIp ours theirs
        → canonical_ip ours ≡ ip_text theirs }
{
    v4_prints_agree();
    v6_prints_agree();
}
