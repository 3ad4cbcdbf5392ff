//! What follows from the laws of networks of either family: their sets, texts and JSON values.
ghost use Rattle.std.specs.Prelude.{◌≡◌, ◌≢◌, ◌↔◌, ℕ, List, Some, Result, Ok, IfOk, IfErr, IsTrue, Contains, string_bytes};
ghost use Rattle.std.specs.List.{AllByRecursion, AllPairs};
ghost use Rattle.serde_json.specs.Data.{string};
ghost use Rattle.serde_json.specs.Errors.{IsMemory};
ghost use Rattle.serde_json.specs.Written.{compact_text};
ghost use Rattle.ipnetwork.specs.Computed.IpNetworkText.{ip_network_of};
ghost use Rattle.ipnetwork.specs.Computed.IpNetworks.{is_ip_member, is_ip_subnet};
ghost use Rattle.ipnetwork.specs.IpNetworks.{IsIpNetwork, IpMember, IpSubnet, IpOverlap, IsV4, IsV6, TakesV4, TakesV6, ip_members};
ghost use Rattle.ipnetwork.specs.IpNetworkText.{NamesIpNetwork, ReadsIpNetwork, ParsesIpNetwork, ip_network_text};
ghost use Rattle.ipnetwork.specs.Laws.{AsksItsFamily, MakesInItsFamily, ReadsInItsFamily, TakesItsFamily, MaskedIsMade, NoMaskIsRefused};
ghost use Rattle.ipnetwork.specs.declared.ip_network.IpNetwork.TheVariants.{V4, V6};
ghost use Rattle.ipnetwork.specs.declared.size.NetworkSize.TheVariants as sizes;
ghost use Rattle.ipnetwork_addr.specs.Computed.Ipv6Canonical.{canonical_v6};
ghost use Rattle.ipnetwork_addr.specs.Either.{IsAddrBefore};
ghost use Rattle.ipnetwork_addr.specs.Ipv4Text.{canonical_v4};
ghost use Rattle.ipnetwork_addr.specs.declared.error.AddrParseError.TheVariants as kinds;
ghost use Rattle.ipnetwork_addr.specs.declared.ip.IpAddr.TheVariants as ips;
ghost use Rattle.ipnetwork_family.specs.Ipv4NetworkText.{NamesV4Network};
ghost use Rattle.ipnetwork_family.specs.Ipv6NetworkText.{NamesV6Network};
ghost use Rattle.ipnetwork_family.specs.JsonValues.{ReadsValue, in_quotes};
ghost use Rattle.ipnetwork_family.specs.Network.{Network, IsNetwork, Member, Subnet};
ghost use Rattle.ipnetwork_family.specs.NetworkText.{IsNetworkByte};
ghost use Rattle.ipnetwork_family.specs.Parsing.{ParsesAsItReads};
ghost use Rattle.ipnetwork_family.specs.declared.error.CidrFault.{CidrFault};

use ipnetwork::{IpNetwork, JsonFault, laws};
use serde_json::Error;
use std::alloc::Global;

fn questions_are_those_of_the_family()
    ensures v4 { AsksItsFamily 32 V4 ips.V4 sizes.V4 }
    ensures v6 { AsksItsFamily 128 V6 ips.V6 sizes.V6 }
{
    laws::each_asks_its_family();
}

fn networks_are_made_in_the_family()
    ensures v4 { MakesInItsFamily 32 V4 ips.V4 }
    ensures v6 { MakesInItsFamily 128 V6 ips.V6 }
    ensures masked { MaskedIsMade }
    ensures refused { NoMaskIsRefused }
    ensures takes_v4 { TakesItsFamily V4 V6 IsV4 TakesV4 }
    ensures takes_v6 { TakesItsFamily V6 V4 IsV6 TakesV6 }
{
    laws::each_is_made_in_its_family();
}

fn texts_are_those_of_the_family()
    ensures v4 { ReadsInItsFamily V4 NamesV4Network canonical_v4 }
    ensures v6 { ReadsInItsFamily V6 NamesV6Network canonical_v6 }
    ensures parsed { ParsesAsItReads ReadsIpNetwork kinds.Ip ParsesIpNetwork }
{
    laws::each_is_read_in_its_family();
}

fn families_share_no_address()
    ensures { (a b : Network) → IsNetwork 32 a → IsNetwork 128 b → ¬ (IpOverlap (V4 a) (V6 b)) }
{
    laws::families_are_apart();
}

fn members_pass_the_test()
    ensures v4 { (n : Network) (x : ℕ) → IsTrue (is_ip_member (V4 n) (ips.V4 x)) ↔ Member 32 n x }
    ensures v6 { (n : Network) (x : ℕ) → IsTrue (is_ip_member (V6 n) (ips.V6 x)) ↔ Member 128 n x }
{
    laws::ip_membership_is_computed();
}

fn subnets_pass_the_test()
    ensures v4 { (a b : Network) → IsNetwork 32 a → IsNetwork 32 b
        → IsTrue (is_ip_subnet (V4 a) (V4 b)) ↔ IpSubnet (V4 a) (V4 b) }
    ensures v6 { (a b : Network) → IsNetwork 128 a → IsNetwork 128 b
        → IsTrue (is_ip_subnet (V6 a) (V6 b)) ↔ IpSubnet (V6 a) (V6 b) }
{
    laws::ip_subnet_is_computed();
}

fn members_are_listed()
    ensures v4 { (n : Network) (x : ℕ) → IsNetwork 32 n
        → Contains (ip_members (V4 n)) (ips.V4 x) ↔ Member 32 n x }
    ensures v6 { (n : Network) (x : ℕ) → IsNetwork 128 n
        → Contains (ip_members (V6 n)) (ips.V6 x) ↔ Member 128 n x }
    ensures ascend4 { (n : Network) → IsNetwork 32 n → AllPairs IsAddrBefore (ip_members (V4 n)) }
    ensures ascend6 { (n : Network) → IsNetwork 128 n → AllPairs IsAddrBefore (ip_members (V6 n)) }
{
    laws::ip_listing();
}

fn text_is_of_no_other()
    ensures { (text : List ℕ) (a b : IpNetwork) → NamesIpNetwork text a → a ≢ b
        → ¬ (NamesIpNetwork text b) }
{
    laws::ip_network_text_names_one();
}

fn reading_has_one_result()
    ensures { (text : List ℕ) (result : Result IpNetwork CidrFault)
        → ReadsIpNetwork text result ↔ (result ≡ ip_network_of text) }
{
    laws::ip_network_reading_is_computed();
}

fn canonical_network_is_a_text()
    ensures { (n : IpNetwork) → IsIpNetwork n → NamesIpNetwork (ip_network_text n) n }
{
    laws::canonical_ip_network_names_it();
}

fn canonical_network_is_read()
    ensures { (n : IpNetwork) (result : Result IpNetwork CidrFault) → IsIpNetwork n
        → ReadsIpNetwork (ip_network_text n) result ↔ (result ≡ Ok n) }
{
    laws::canonical_ip_network_reads_back();
}

fn canonical_networks_differ()
    ensures { (a b : IpNetwork) → IsIpNetwork a → IsIpNetwork b → a ≢ b
        → ip_network_text a ≢ ip_network_text b }
{
    laws::canonical_ip_network_is_one_to_one();
}

fn network_bytes()
    ensures v4 { (n : Network) → IsNetwork 32 n
        → AllByRecursion IsNetworkByte (ip_network_text (V4 n)) }
    ensures v6 { (n : Network) → IsNetwork 128 n
        → AllByRecursion IsNetworkByte (ip_network_text (V6 n)) }
{
    laws::canonical_ip_network_bytes();
}

fn network_is_quoted()
    ensures { (n : IpNetwork) → IsIpNetwork n
        → compact_text (string (ip_network_text n)) ≡ in_quotes (ip_network_text n) }
{
    laws::ip_network_stands_in_quotes();
}

fn value_is_read()
    ensures { (n : IpNetwork) (result : Result IpNetwork JsonFault) → IsIpNetwork n
        → ReadsValue ParsesIpNetwork (Some (ip_network_text n)) result ↔ (result ≡ Ok n) }
{
    laws::ip_network_value_reads_back();
}

fn network_comes_back(
    alloc: Global,
    network: &IpNetwork,
) -> Result<(String, Result<IpNetwork, JsonFault>), Error>
    ensures text { IfOk result
        (λ answer. string_bytes answer.0 ≡ in_quotes (ip_network_text network.now)) }
    ensures back { IfOk result (λ answer. answer.1 ≡ Ok network.now) }
    ensures err { IfErr result IsMemory }
{
    laws::ip_network_through_json(alloc, network)
}
