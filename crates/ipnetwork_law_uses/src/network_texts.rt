//! What follows from the laws of the texts, errors and JSON values of networks of one family.
ghost use Rattle.std.specs.Prelude.{◌≡◌, ◌≢◌, ◌↔◌, ℕ, ◌-◌, ◌^◌, List, length, Some, Result, Ok, IfOk, IfErr, string_bytes};
ghost use Rattle.std.specs.List.{AllByRecursion};
ghost use Rattle.serde_json.specs.Data.{string};
ghost use Rattle.serde_json.specs.Errors.{IsMemory};
ghost use Rattle.serde_json.specs.Written.{compact_text};
ghost use Rattle.ipnetwork_addr.specs.Ipv4Text.{NamesV4, canonical_v4};
ghost use Rattle.ipnetwork_addr.specs.Ipv6Text.{NamesV6};
ghost use Rattle.ipnetwork_addr.specs.Computed.Ipv6Canonical.{canonical_v6};
ghost use Rattle.ipnetwork_addr.specs.declared.error.AddrParseError.TheVariants as kinds;
ghost use Rattle.ipnetwork_family.specs.Computed.Ipv4NetworkText.{v4_network_of};
ghost use Rattle.ipnetwork_family.specs.Computed.Ipv6NetworkText.{v6_network_of};
ghost use Rattle.ipnetwork_family.specs.Computed.PrefixNumber.{prefix_number_of};
ghost use Rattle.ipnetwork_family.specs.Family.{ParsesNetworkOf, v4_family, v6_family};
ghost use Rattle.ipnetwork_family.specs.Faults.{SameError};
ghost use Rattle.ipnetwork_family.specs.ErrorTexts.{refusal_of, refusal_text};
ghost use Rattle.ipnetwork_family.specs.Ipv4NetworkText.{IsV4Suffix, NamesV4Network, ReadsV4Network};
ghost use Rattle.ipnetwork_family.specs.Ipv6NetworkText.{IsV6Suffix, NamesV6Network, ReadsV6Network};
ghost use Rattle.ipnetwork_family.specs.JsonValues.{ReadsValue, in_quotes};
ghost use Rattle.ipnetwork_family.specs.Laws.{FormatFaultIsPrinted};
ghost use Rattle.ipnetwork_family.specs.Network.{Network as Pair, IsNetwork};
ghost use Rattle.ipnetwork_family.specs.NetworkText.{IsNetworkByte, HasNoSuffix, NamesNetwork, before_slash, network_text};
ghost use Rattle.ipnetwork_family.specs.Parsing.{ParsesV4Network, ParsesV6Network, ParsesAsItReads};
ghost use Rattle.ipnetwork_family.specs.PrefixNumber.{IsPrefixNumber};
ghost use Rattle.ipnetwork_family.specs.declared.error.CidrFault.{CidrFault};
ghost use Rattle.ipnetwork_family.specs.declared.error.IpNetworkError.{IpNetworkError};

use ipnetwork_addr::{Ipv4Addr, Ipv6Addr};
use ipnetwork_family::{Ipv4Network, Ipv6Network, JsonFault, laws};
use serde_json::Error;
use std::alloc::Global;

fn prefix_text_has_one_number()
    ensures one { (text : List ℕ) (p q : ℕ) → IsPrefixNumber text p → IsPrefixNumber text q → p
        ≡ q }
    ensures computed { (text : List ℕ) (p : ℕ) → prefix_number_of text ≡ Some p
        → IsPrefixNumber text p }
{
    laws::prefix_number_is_computed();
}

fn v4_network_text_is_of_no_other()
    ensures { (text : List ℕ) (a b : Pair) → NamesV4Network text a → a ≢ b
        → ¬ (NamesV4Network text b) }
{
    laws::network_text_names_one::<Ipv4Addr>();
}

fn v6_network_text_is_of_no_other()
    ensures { (text : List ℕ) (a b : Pair) → NamesV6Network text a → a ≢ b
        → ¬ (NamesV6Network text b) }
{
    laws::network_text_names_one::<Ipv6Addr>();
}

fn v4_reading_has_one_result()
    ensures { (text : List ℕ) (result : Result Pair CidrFault)
        → ReadsV4Network text result ↔ (result ≡ v4_network_of text) }
{
    laws::v4_network_reading_is_computed();
}

fn v6_reading_has_one_result()
    ensures { (text : List ℕ) (result : Result Pair CidrFault)
        → ReadsV6Network text result ↔ (result ≡ v6_network_of text) }
{
    laws::v6_network_reading_is_computed();
}

fn canonical_v4_network_is_a_text()
    ensures { (n : Pair) → IsNetwork 32 n → NamesV4Network (network_text canonical_v4 n) n }
{
    laws::canonical_network_names_it::<Ipv4Addr>();
}

fn canonical_v6_network_is_a_text()
    ensures { (n : Pair) → IsNetwork 128 n → NamesV6Network (network_text canonical_v6 n) n }
{
    laws::canonical_network_names_it::<Ipv6Addr>();
}

fn canonical_v4_network_is_read()
    ensures { (n : Pair) (result : Result Pair CidrFault) → IsNetwork 32 n
        → ReadsV4Network (network_text canonical_v4 n) result ↔ (result ≡ Ok n) }
{
    laws::canonical_network_reads_back::<Ipv4Addr>();
}

fn canonical_v6_network_is_read()
    ensures { (n : Pair) (result : Result Pair CidrFault) → IsNetwork 128 n
        → ReadsV6Network (network_text canonical_v6 n) result ↔ (result ≡ Ok n) }
{
    laws::canonical_network_reads_back::<Ipv6Addr>();
}

fn canonical_v4_networks_differ()
    ensures { (a b : Pair) → IsNetwork 32 a → IsNetwork 32 b → a ≢ b
        → network_text canonical_v4 a ≢ network_text canonical_v4 b }
{
    laws::canonical_network_is_one_to_one::<Ipv4Addr>();
}

fn canonical_v6_networks_differ()
    ensures { (a b : Pair) → IsNetwork 128 a → IsNetwork 128 b → a ≢ b
        → network_text canonical_v6 a ≢ network_text canonical_v6 b }
{
    laws::canonical_network_is_one_to_one::<Ipv6Addr>();
}

fn v4_network_bytes()
    ensures { (n : Pair) → IsNetwork 32 n
        → AllByRecursion IsNetworkByte (network_text canonical_v4 n) }
{
    laws::canonical_network_bytes::<Ipv4Addr>();
}

fn v6_network_bytes()
    ensures { (n : Pair) → IsNetwork 128 n
        → AllByRecursion IsNetworkByte (network_text canonical_v6 n) }
{
    laws::canonical_network_bytes::<Ipv6Addr>();
}

fn a_refused_text_has_no_suffix()
    ensures v4 { (text : List ℕ) (a : ℕ) → NamesV4 (before_slash text) a
        → ((n : Pair) → ¬ (NamesV4Network text n)) → HasNoSuffix IsV4Suffix text }
    ensures v6 { (text : List ℕ) (a : ℕ) → NamesV6 (before_slash text) a
        → ((n : Pair) → ¬ (NamesV6Network text n)) → HasNoSuffix IsV6Suffix text }
{
    laws::suffix_is_refused();
}

fn a_text_has_room()
    ensures { length (network_text canonical_v6 (record { address = 2 ^ 128 - 1; prefix = 128 }))
        ≡ 43 }
{
    laws::longest_network_text();
}

fn parsing_is_as_reading()
    ensures v4 { ParsesAsItReads ReadsV4Network kinds.Ipv4 ParsesV4Network }
    ensures v6 { ParsesAsItReads ReadsV6Network kinds.Ipv6 ParsesV6Network }
{
    laws::parsing_is_reading();
}

fn errors_print_differently()
    ensures other { (a b : IpNetworkError) → ¬ (SameError a b)
        → refusal_text (refusal_of a) ≢ refusal_text (refusal_of b) }
    ensures same { (a b : IpNetworkError) → SameError a b
        → refusal_text (refusal_of a) ≡ refusal_text (refusal_of b) }
    ensures format { FormatFaultIsPrinted }
{
    laws::errors_by_their_texts();
}

fn v4_network_is_quoted()
    ensures { (n : Pair) → IsNetwork 32 n
        → compact_text (string (network_text canonical_v4 n))
        ≡ in_quotes (network_text canonical_v4 n) }
{
    laws::network_stands_in_quotes::<Ipv4Addr>();
}

fn v6_network_is_quoted()
    ensures { (n : Pair) → IsNetwork 128 n
        → compact_text (string (network_text canonical_v6 n))
        ≡ in_quotes (network_text canonical_v6 n) }
{
    laws::network_stands_in_quotes::<Ipv6Addr>();
}

fn v4_value_is_read()
    ensures { (n : Pair) (result : Result Pair JsonFault) → IsNetwork 32 n
        → ReadsValue (ParsesNetworkOf v4_family) (Some (network_text canonical_v4 n)) result
        ↔ (result ≡ Ok n) }
{
    laws::network_value_reads_back::<Ipv4Addr>();
}

fn v6_value_is_read()
    ensures { (n : Pair) (result : Result Pair JsonFault) → IsNetwork 128 n
        → ReadsValue (ParsesNetworkOf v6_family) (Some (network_text canonical_v6 n)) result
        ↔ (result ≡ Ok n) }
{
    laws::network_value_reads_back::<Ipv6Addr>();
}

fn v4_network_comes_back(
    alloc: Global,
    network: &Ipv4Network,
) -> Result<(String, Result<Ipv4Network, JsonFault>), Error>
    ensures text { IfOk result
        (λ answer. string_bytes answer.0 ≡ in_quotes (network_text canonical_v4 network.now)) }
    ensures back { IfOk result (λ answer. answer.1 ≡ Ok network.now) }
    ensures err { IfErr result IsMemory }
{
    laws::network_through_json(alloc, network)
}

fn v6_network_comes_back(
    alloc: Global,
    network: &Ipv6Network,
) -> Result<(String, Result<Ipv6Network, JsonFault>), Error>
    ensures text { IfOk result
        (λ answer. string_bytes answer.0 ≡ in_quotes (network_text canonical_v6 network.now)) }
    ensures back { IfOk result (λ answer. answer.1 ≡ Ok network.now) }
    ensures err { IfErr result IsMemory }
{
    laws::network_through_json(alloc, network)
}
