//! Laws of masks: what the conversions return for the mask of a network.
ghost use Rattle.std.specs.Prelude.{◌≡◌, Ok};
ghost use Rattle.ipnetwork_family.specs.Laws.{MaskIsComputed, MaskIsConverted};

use crate::{IpNetworkError, Ipv4Network, Ipv6Network, ipv4_mask_to_prefix, ipv6_mask_to_prefix};

/// Converting the mask of a prefix length gives that prefix length, for addresses of any number of
/// bits.
pub fn mask_conversion()
    ensures computed { MaskIsComputed }
    ensures converted { MaskIsConverted }
{}

/// For the mask of a network, `ipv4_mask_to_prefix` returns the network's prefix length.
pub fn v4_mask_converts_back(network: Ipv4Network) -> Result<u8, IpNetworkError>
    ensures { result ≡ Ok network.prefix }
{
    mask_conversion();
    let _ = network.prefix();
    ipv4_mask_to_prefix(network.mask())
}

/// For the mask of a network, `ipv6_mask_to_prefix` returns the network's prefix length.
pub fn v6_mask_converts_back(network: Ipv6Network) -> Result<u8, IpNetworkError>
    ensures { result ≡ Ok network.prefix }
{
    mask_conversion();
    let _ = network.prefix();
    ipv6_mask_to_prefix(network.mask())
}
