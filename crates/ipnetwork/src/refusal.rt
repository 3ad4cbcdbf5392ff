//! Why a text names no network of either family.
ghost use Rattle.std.specs.Prelude.{◌≡◌};
ghost use Rattle.ipnetwork.specs.IpNetworkText.{TellsIpCause};
ghost use Rattle.ipnetwork.specs.Private.Causes.{first_cause};

use ipnetwork_family::{CidrFault, Ipv4Network, Ipv6Network};

/// Returns why a text names no network of either family, or `None` if it names one.
///
/// The cause is `Format` if the text has two or more `/`, else `Addr` if the text before the `/` is
/// no address of either family, else `Prefix`. `IpNetwork::read_bytes` returns `Addr` in all three
/// cases.
///
/// ```
/// assert_eq!(rt; cause(b"10.0.0.0/33"), Some(CidrFault::Prefix));
/// assert_eq!(rt; cause(b"10.0.0.0/8"), None);
/// ```
pub fn cause(text: &[u8]) -> Option<CidrFault>
    ensures { TellsIpCause text.now result }
{
    let Err(v4) = Ipv4Network::read_bytes(text) else {
        return None;
    };
    let Err(v6) = Ipv6Network::read_bytes(text) else {
        return None;
    };
    Some(first_cause(v4, v6))
}

/// Returns the cause for both families, from the cause for each.
fn first_cause(v4: CidrFault, v6: CidrFault) -> CidrFault
    ensures { result ≡ first_cause v4 v6 }
{
    match (v4, v6) {
        (CidrFault::Format, _) => CidrFault::Format,
        (CidrFault::Addr, CidrFault::Addr) => CidrFault::Addr,
        (_, _) => CidrFault::Prefix,
    }
}
