//! Laws of texts: which address a text names, and how an address is printed.
ghost use Rattle.std.specs.Prelude.{true, false, ◌++◌, ◌≡◌, ◌↔◌, ℕ, ◌+◌, ◌*◌, ◌^◌, ◌<◌, List, codes};
ghost use Rattle.ipnetwork_addr.specs.Ipv4Text.{IsOctet, IsPlainOctet, NamesV4, canonical_v4};
ghost use Rattle.ipnetwork_addr.specs.Either.{NamesIp, FitsIp, canonical_ip, unmapped};
ghost use Rattle.ipnetwork_addr.specs.declared.ip.IpAddr.TheVariants.{V4, V6};
ghost use Rattle.ipnetwork_addr.specs.Ipv6Canonical.{IsCanonicalV6};
ghost use Rattle.ipnetwork_addr.specs.Computed.Ipv6Canonical.{canonical_v6};
ghost use Rattle.ipnetwork_addr.specs.Ipv6Text.{NamesV6};
ghost use Rattle.ipnetwork_addr.specs.Texts.{IsAddressByte, colon_first};
ghost use Rattle.std.specs.List.{AllByRecursion};

use crate::IpAddr;

/// The text of an octet is one to three decimal digits without a leading zero, with a value of at
/// most 255.
pub fn octet_texts()
    ensures { (text : List ℕ) (n : ℕ) → IsOctet text n ↔ IsPlainOctet text n }
{}

/// A text names at most one IPv4 address.
pub fn v4_text_names_one()
    ensures { (text : List ℕ) (a b : ℕ) → NamesV4 text a → NamesV4 text b → a ≡ b }
{}

/// The canonical text of an IPv4 address names it.
pub fn canonical_v4_names_its_address()
    ensures { (address : ℕ) → address < 2 ^ 32 → NamesV4 (canonical_v4 address) address }
{}

/// Two IPv4 addresses are equal if and only if their canonical texts are.
pub fn canonical_v4_is_one_to_one()
    ensures { (a b : ℕ) → a < 2 ^ 32 → b < 2 ^ 32 → (a ≡ b) ↔ (canonical_v4 a ≡ canonical_v4 b) }
{}

/// Each byte of an IPv4 text can occur in an address: it is a hex digit, `.` or `:`.
pub fn v4_text_bytes()
    ensures { (text : List ℕ) (address : ℕ) → NamesV4 text address
        → AllByRecursion IsAddressByte text }
{}

/// A text names at most one IPv6 address.
pub fn v6_text_names_one()
    ensures { (text : List ℕ) (a b : ℕ) → NamesV6 text a → NamesV6 text b → a ≡ b }
{}

/// No text names both an IPv4 and an IPv6 address.
pub fn no_text_names_both()
    ensures { (text : List ℕ) (a b : ℕ) → NamesV4 text a → NamesV6 text b → ⊥ }
{}

/// The canonical text of an IPv6 address names it.
pub fn canonical_v6_names_its_address()
    ensures { (text : List ℕ) (address : ℕ) → address < 2 ^ 128 → IsCanonicalV6 text address
        → NamesV6 text address }
{}

/// An IPv6 address has exactly one canonical text.
pub fn canonical_v6_is_one_text()
    ensures { (text : List ℕ) (address : ℕ) → IsCanonicalV6 text address
        ↔ (text ≡ canonical_v6 address) }
{}

/// Two IPv6 addresses are equal if and only if their canonical texts are.
pub fn canonical_v6_is_one_to_one()
    ensures { (a b : ℕ) → a < 2 ^ 128 → b < 2 ^ 128 → (a ≡ b) ↔ (canonical_v6 a ≡ canonical_v6 b) }
{}

/// Each byte of an IPv6 text can occur in an address: it is a hex digit, `.` or `:`.
pub fn v6_text_bytes()
    ensures { (text : List ℕ) (address : ℕ) → NamesV6 text address
        → AllByRecursion IsAddressByte text }
{}

/// A text names at most one address of either family.
pub fn ip_text_names_one()
    ensures { (text : List ℕ) (a b : IpAddr) → NamesIp text a → NamesIp text b → a ≡ b }
{}

/// The canonical text of an address of either family names it.
pub fn canonical_ip_names_its_address()
    ensures { (address : IpAddr) → FitsIp address → NamesIp (canonical_ip address) address }
{}

/// Two addresses of either family are equal if and only if their canonical texts are.
pub fn canonical_ip_is_one_to_one()
    ensures { (a b : IpAddr) → FitsIp a → FitsIp b → (a ≡ b) ↔ (canonical_ip a ≡ canonical_ip b) }
{}

/// In an IPv4 text, whatever follows it, a dot comes before any colon.
pub fn v4_text_has_a_dot_first()
    ensures { (text rest : List ℕ) (address : ℕ) → NamesV4 text address
        → colon_first (text ++ rest) ≡ false }
{}

/// In an IPv6 text, whatever follows it, a colon comes before any dot.
pub fn v6_text_has_a_colon_first()
    ensures { (text rest : List ℕ) (address : ℕ) → NamesV6 text address
        → colon_first (text ++ rest) ≡ true }
{}

/// The canonical text of an IPv4-mapped address is `::ffff:`, followed by that of the IPv4 address
/// that it represents.
pub fn mapped_text_ends_in_its_v4()
    ensures { (mapped address : ℕ) → unmapped (V6 mapped) ≡ V4 address
        → canonical_v6 mapped ≡ codes "::ffff:" ++ canonical_v4 address }
{}

/// Each IPv4 address is represented by an IPv4-mapped address, one in `::ffff:0:0/96`.
pub fn each_v4_has_its_mapped()
    ensures { (address : ℕ) → address < 2 ^ 32
        → unmapped (V6 (0xffff * 2 ^ 32 + address)) ≡ V4 address }
{}
