//! Laws on reading: both grammars have the same texts, and a text names the same address in both.
ghost use Rattle.std.specs.Prelude.{◌↔◌, ℕ, List};
ghost use Rattle.std.specs.Net.Grammar.{IsIpv4Text, IsIpv6Text, IsIpText};
ghost use Rattle.std.specs.declared.net.ipv4_addr.Ipv4Addr as std_v4;
ghost use Rattle.std.specs.declared.net.ipv6_addr.Ipv6Addr as std_v6;
ghost use Rattle.std.specs.declared.net.ip_addr.IpAddr as std_ip;
ghost use Rattle.ipnetwork_addr.specs.declared.ip.IpAddr as either;
ghost use Rattle.ipnetwork_addr.specs.Either.{NamesIp, FitsIp};
ghost use Rattle.ipnetwork_addr.specs.Ipv4Text.{NamesV4};
ghost use Rattle.ipnetwork_addr.specs.Ipv6Text.{NamesV6};
ghost use Rattle.ipnetwork_witness.specs.Agreement.{SameV4, SameV6, SameIp};

/// A text names an IPv4 address if and only if it spells std's address with the same bits.
pub fn v4_names_agree()
    ensures { (text : List ℕ) (ours : ℕ) (theirs : std_v4.Ipv4Addr) → SameV4 ours theirs
        → NamesV4 text ours ↔ IsIpv4Text text theirs }
{}

/// A text names an IPv6 address if and only if it spells std's address with the same bits.
pub fn v6_names_agree()
    ensures { (text : List ℕ) (ours : ℕ) (theirs : std_v6.Ipv6Addr) → SameV6 ours theirs
        → NamesV6 text ours ↔ IsIpv6Text text theirs }
{}

/// A text names an address of either family if and only if it spells std's address of that family
/// with the same bits.
pub fn ip_names_agree()
    ensures { (text : List ℕ) (ours : either.IpAddr) (theirs : std_ip.IpAddr) → SameIp ours theirs
        → NamesIp text ours ↔ IsIpText text theirs }
{
    v4_names_agree();
    v6_names_agree();
}

/// Both grammars have the same texts: a text that names an IPv4 address here spells it in std, and
/// a text that spells one in std names it here.
pub fn v4_texts_are_shared()
    ensures ours { (text : List ℕ) (ours : ℕ) → NamesV4 text ours
        → (theirs : std_v4.Ipv4Addr) × SameV4 ours theirs × IsIpv4Text text theirs }
    ensures theirs { (text : List ℕ) (theirs : std_v4.Ipv4Addr) → IsIpv4Text text theirs
        → (ours : ℕ) × SameV4 ours theirs × NamesV4 text ours }
{}

/// Both grammars have the same texts: a text that names an IPv6 address here spells it in std, and
/// a text that spells one in std names it here.
pub fn v6_texts_are_shared()
    ensures ours { (text : List ℕ) (ours : ℕ) → NamesV6 text ours
        → (theirs : std_v6.Ipv6Addr) × SameV6 ours theirs × IsIpv6Text text theirs }
    ensures theirs { (text : List ℕ) (theirs : std_v6.Ipv6Addr) → IsIpv6Text text theirs
        → (ours : ℕ) × SameV6 ours theirs × NamesV6 text ours }
{}

/// Both grammars have the same texts: a text that names an address of either family here spells it
/// in std, and a text that spells one in std names it here.
pub fn ip_texts_are_shared()
    ensures ours { (text : List ℕ) (ours : either.IpAddr) → NamesIp text ours
        → (theirs : std_ip.IpAddr) × SameIp ours theirs × IsIpText text theirs }
    ensures theirs { (text : List ℕ) (theirs : std_ip.IpAddr) → IsIpText text theirs
        → (ours : either.IpAddr) × SameIp ours theirs × NamesIp text ours }
{
    v4_texts_are_shared();
    v6_texts_are_shared();
}

/// The address that a text names fits in the bits of its family, 32 or 128.
pub fn ip_text_fits()
    ensures { (text : List ℕ) (address : either.IpAddr) → NamesIp text address → FitsIp address }
{}
