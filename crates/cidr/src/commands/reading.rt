//! Reads the network or address that a text names, as the definitions compute it.
ghost use Rattle.std.specs.Prelude.{◌≡◌};
ghost use Rattle.ipnetwork_addr.specs.Computed.Either.{ip_of};
ghost use Rattle.ipnetwork.specs.Computed.IpNetworkText.{ip_network_of};

use ipnetwork::{CidrFault, IpAddr, IpNetwork, laws};

/// Returns the network of either family that a text names.
#[inline(always)]
pub(crate) fn network_of(text: &[u8]) -> Result<IpNetwork, CidrFault>
    ensures { result ≡ ip_network_of text.now }
{
    // Does nothing: the proof of this body needs the law.
    laws::ip_network_reading_is_computed();
    IpNetwork::read_bytes(text)
}

/// Returns the address of either family that a text names.
#[inline(always)]
pub(crate) fn address_of(text: &[u8]) -> Option<IpAddr>
    ensures { result ≡ ip_of text.now }
{
    // Does nothing: the proof of this body needs the law.
    laws::ip_reading_is_computed();
    IpAddr::read_bytes(text).ok()
}
