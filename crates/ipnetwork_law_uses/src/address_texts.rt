//! What follows from the laws of the texts of addresses.
ghost use Rattle.std.specs.Prelude.{true, false, ◌≡◌, ◌≢◌, ◌↔◌, ◌++◌, ℕ, ◌+◌, ◌*◌, ◌^◌, ◌<◌, List, Result, Some, codes};
ghost use Rattle.std.specs.List.{AllByRecursion};
ghost use Rattle.ipnetwork_addr.specs.Computed.Either.{ip_of};
ghost use Rattle.ipnetwork_addr.specs.Computed.Ipv4Text.{v4_of};
ghost use Rattle.ipnetwork_addr.specs.Computed.Ipv6Canonical.{canonical_v6};
ghost use Rattle.ipnetwork_addr.specs.Computed.Ipv6Text.{v6_of};
ghost use Rattle.ipnetwork_addr.specs.Computed.Reading.{answer_from};
ghost use Rattle.ipnetwork_addr.specs.Either.{NamesIp, canonical_ip, unmapped};
ghost use Rattle.ipnetwork_addr.specs.Ipv4Text.{IsOctet, IsPlainOctet, NamesV4, canonical_v4};
ghost use Rattle.ipnetwork_addr.specs.Ipv6Canonical.{IsCanonicalV6};
ghost use Rattle.ipnetwork_addr.specs.Ipv6Text.{NamesV6};
ghost use Rattle.ipnetwork_addr.specs.Reading.{Reads};
ghost use Rattle.ipnetwork_addr.specs.Texts.{IsAddressByte, colon_first};
ghost use Rattle.ipnetwork_addr.specs.declared.ip.IpAddr.TheVariants.{V4, V6};

use ipnetwork_addr::{AddrParseError, IpAddr, laws};

// A text that names another address does not name this one.
fn v4_text_is_of_no_other()
    ensures { (text : List ℕ) (a b : ℕ) → NamesV4 text a → a ≢ b → ¬ (NamesV4 text b) }
{
    laws::v4_text_names_one();
}

fn v6_text_is_of_no_other()
    ensures { (text : List ℕ) (a b : ℕ) → NamesV6 text a → a ≢ b → ¬ (NamesV6 text b) }
{
    laws::v6_text_names_one();
}

fn v4_text_is_no_v6_text()
    ensures { (text : List ℕ) (a b : ℕ) → NamesV4 text a → ¬ (NamesV6 text b) }
{
    laws::no_text_names_both();
}

fn ip_text_is_of_no_other()
    ensures v4 { (text : List ℕ) (a b : ℕ) → NamesIp text (V4 a) → a ≢ b → ¬ (NamesIp text (V4 b)) }
    ensures v6 { (text : List ℕ) (a b : ℕ) → NamesIp text (V6 a) → a ≢ b → ¬ (NamesIp text (V6 b)) }
    ensures both { (text : List ℕ) (a b : ℕ) → NamesIp text (V4 a) → ¬ (NamesIp text (V6 b)) }
{
    laws::ip_text_names_one();
}

fn canonical_v4_is_a_text()
    ensures { (a : ℕ) → a < 2 ^ 32 → NamesV4 (canonical_v4 a) a }
{
    laws::canonical_v4_names_its_address();
}

fn canonical_v6_is_a_text()
    ensures { (text : List ℕ) (a : ℕ) → a < 2 ^ 128 → IsCanonicalV6 text a → NamesV6 text a }
{
    laws::canonical_v6_names_its_address();
}

fn canonical_ip_is_a_text()
    ensures v4 { (a : ℕ) → a < 2 ^ 32 → NamesIp (canonical_ip (V4 a)) (V4 a) }
    ensures v6 { (a : ℕ) → a < 2 ^ 128 → NamesIp (canonical_ip (V6 a)) (V6 a) }
{
    laws::canonical_ip_names_its_address();
}

fn canonical_v6_is_the_computed_one()
    ensures one { (text other : List ℕ) (a : ℕ) → IsCanonicalV6 text a → IsCanonicalV6 other a
        → text ≡ other }
    ensures computed { (a : ℕ) → IsCanonicalV6 (canonical_v6 a) a }
{
    laws::canonical_v6_is_one_text();
}

fn canonical_v4_texts_differ()
    ensures { (a b : ℕ) → a < 2 ^ 32 → b < 2 ^ 32 → a ≢ b → canonical_v4 a ≢ canonical_v4 b }
{
    laws::canonical_v4_is_one_to_one();
}

fn canonical_v6_texts_differ()
    ensures { (a b : ℕ) → a < 2 ^ 128 → b < 2 ^ 128 → a ≢ b → canonical_v6 a ≢ canonical_v6 b }
{
    laws::canonical_v6_is_one_to_one();
}

fn canonical_ip_texts_differ()
    ensures v4 { (a b : ℕ) → a < 2 ^ 32 → b < 2 ^ 32 → a ≢ b
        → canonical_ip (V4 a) ≢ canonical_ip (V4 b) }
    ensures v6 { (a b : ℕ) → a < 2 ^ 128 → b < 2 ^ 128 → a ≢ b
        → canonical_ip (V6 a) ≢ canonical_ip (V6 b) }
    ensures both { (a b : ℕ) → a < 2 ^ 32 → b < 2 ^ 128 → canonical_ip (V4 a)
        ≢ canonical_ip (V6 b) }
{
    laws::canonical_ip_is_one_to_one();
}

fn v4_bytes()
    ensures { (text : List ℕ) (a : ℕ) → NamesV4 text a → AllByRecursion IsAddressByte text }
{
    laws::v4_text_bytes();
}

fn v6_bytes()
    ensures { (text : List ℕ) (a : ℕ) → NamesV6 text a → AllByRecursion IsAddressByte text }
{
    laws::v6_text_bytes();
}

fn octets_are_plain()
    ensures { (text : List ℕ) (n : ℕ) → IsOctet text n ↔ IsPlainOctet text n }
{
    laws::octet_texts();
}

fn v4_text_has_one_address()
    ensures { (text : List ℕ) (a : ℕ) → NamesV4 text a ↔ (v4_of text ≡ Some a) }
{
    laws::v4_text_is_computed();
}

fn v6_text_has_one_address()
    ensures { (text : List ℕ) (a : ℕ) → NamesV6 text a ↔ (v6_of text ≡ Some a) }
{
    laws::v6_text_is_computed();
}

fn v4_reading_has_one_result()
    ensures { (text : List ℕ) (result : Result ℕ AddrParseError)
        → Reads NamesV4 AddrParseError.Ipv4 text result
        ↔ (result ≡ answer_from AddrParseError.Ipv4 (v4_of text)) }
{
    laws::v4_reading_is_computed();
}

fn v6_reading_has_one_result()
    ensures { (text : List ℕ) (result : Result ℕ AddrParseError)
        → Reads NamesV6 AddrParseError.Ipv6 text result
        ↔ (result ≡ answer_from AddrParseError.Ipv6 (v6_of text)) }
{
    laws::v6_reading_is_computed();
}

fn ip_reading_has_one_result()
    ensures { (text : List ℕ) (result : Result IpAddr AddrParseError)
        → Reads NamesIp AddrParseError.Ip text result
        ↔ (result ≡ answer_from AddrParseError.Ip (ip_of text)) }
{
    laws::ip_reading_is_computed();
}

fn a_dot_comes_first()
    ensures { (text rest : List ℕ) (a : ℕ) → NamesV4 text a → colon_first (text ++ rest) ≡ false }
{
    laws::v4_text_has_a_dot_first();
}

fn a_colon_comes_first()
    ensures { (text rest : List ℕ) (a : ℕ) → NamesV6 text a → colon_first (text ++ rest) ≡ true }
{
    laws::v6_text_has_a_colon_first();
}

fn a_mapped_text_has_its_v4()
    ensures { (mapped a : ℕ) → unmapped (V6 mapped) ≡ V4 a
        → canonical_v6 mapped ≡ codes "::ffff:" ++ canonical_v4 a }
{
    laws::mapped_text_ends_in_its_v4();
}

fn a_v4_address_has_its_mapped()
    ensures { (a : ℕ) → a < 2 ^ 32 → unmapped (V6 (0xffff * 2 ^ 32 + a)) ≡ V4 a }
{
    laws::each_v4_has_its_mapped();
}
