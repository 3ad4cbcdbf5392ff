//! Laws on the two families: each call returns what the call of the network's own family returns.
ghost use Rattle.std.specs.Prelude.{◌≡◌, ◌<◌, Result, Ok};
ghost use Rattle.ipnetwork.specs.IpNetworks.{prefix_of, IsV4, IsV6, TakesV4, TakesV6};
ghost use Rattle.ipnetwork.specs.IpNetworkText.{ReadsIpNetwork, ParsesIpNetwork};
ghost use Rattle.ipnetwork.specs.Laws.{AsksItsFamily, MakesInItsFamily, ReadsInItsFamily, TakesItsFamily, MaskedIsMade, NoMaskIsRefused};
ghost use Rattle.ipnetwork.specs.declared.size.NetworkSize.TheVariants as sizes;
ghost use Rattle.ipnetwork_addr.specs.Ipv4Text.{canonical_v4};
ghost use Rattle.ipnetwork_addr.specs.Computed.Ipv6Canonical.{canonical_v6};
ghost use Rattle.ipnetwork_addr.specs.declared.error.AddrParseError.TheVariants as kinds;
ghost use Rattle.ipnetwork_addr.specs.declared.ip.IpAddr.TheVariants as ips;
ghost use Rattle.ipnetwork_family.specs.Ipv4NetworkText.{NamesV4Network};
ghost use Rattle.ipnetwork_family.specs.Ipv6NetworkText.{NamesV6Network};
ghost use Rattle.ipnetwork_family.specs.Parsing.{ParsesAsItReads};
ghost use Rattle.ipnetwork.specs.declared.ip_network.IpNetwork.TheVariants as networks;

use crate::{IpNetwork, IpNetworkError, ip_mask_to_prefix};
use ipnetwork_family::laws as family_laws;

/// Each call that asks about a network of either family returns what that of its own family
/// returns.
pub fn each_asks_its_family()
    ensures v4 { AsksItsFamily 32 networks.V4 ips.V4 sizes.V4 }
    ensures v6 { AsksItsFamily 128 networks.V6 ips.V6 sizes.V6 }
{}

/// Each call that makes a network of either family returns what that of its own family returns.
/// Making one with a mask is making it with the mask's prefix length, whatever the mask's family. A
/// network converts to a network of its own family, and the result is the network itself.
pub fn each_is_made_in_its_family()
    ensures v4 { MakesInItsFamily 32 networks.V4 ips.V4 }
    ensures v6 { MakesInItsFamily 128 networks.V6 ips.V6 }
    ensures masked { MaskedIsMade }
    ensures refused { NoMaskIsRefused }
    ensures takes_v4 { TakesItsFamily networks.V4 networks.V6 IsV4 TakesV4 }
    ensures takes_v6 { TakesItsFamily networks.V6 networks.V4 IsV6 TakesV6 }
{
    family_laws::masks();
}

/// The texts of a network of either family are those of its own family. Parsing returns the network
/// that reading returns, and otherwise the error for the cause `Addr` and the kind `Ip`, or
/// `OutOfMemory` instead.
pub fn each_is_read_in_its_family()
    ensures v4 { ReadsInItsFamily networks.V4 NamesV4Network canonical_v4 }
    ensures v6 { ReadsInItsFamily networks.V6 NamesV6Network canonical_v6 }
    ensures parsed { ParsesAsItReads ReadsIpNetwork kinds.Ip ParsesIpNetwork }
{}

/// `ip_mask_to_prefix` returns the network's prefix length for the mask of a network.
pub fn ip_mask_converts_back(network: IpNetwork) -> Result<u8, IpNetworkError>
    ensures { result ≡ Ok (prefix_of network) }
{
    family_laws::mask_conversion();
    let _ = network.prefix();
    ip_mask_to_prefix(network.mask())
}
