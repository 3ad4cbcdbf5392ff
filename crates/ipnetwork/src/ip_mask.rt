//! Masks of either family.
ghost use Rattle.ipnetwork.specs.IpNetworks.{GivesMaskPrefix};

use ipnetwork_addr::IpAddr;
use ipnetwork_family::{IpNetworkError, ipv4_mask_to_prefix, ipv6_mask_to_prefix};

/// Returns the prefix length of a mask of either family, or `InvalidPrefix` if the address is not a
/// mask of its family.
///
/// ```
/// assert_eq!(rt; ip_mask_to_prefix("255.255.240.0".parse()?), Ok(20));
/// assert_eq!(rt; ip_mask_to_prefix("ffff::".parse()?), Ok(16));
/// ```
pub fn ip_mask_to_prefix(mask: IpAddr) -> Result<u8, IpNetworkError>
    ensures { GivesMaskPrefix mask result }
{
    match mask {
        IpAddr::V4(mask) => ipv4_mask_to_prefix(mask),
        IpAddr::V6(mask) => ipv6_mask_to_prefix(mask),
    }
}
