//! Checks many addresses against one network in one call, a row for each.
ghost use Rattle.std.specs.Prelude.{◌≡◌};
ghost use Rattle.std.specs.Int.{from_bool};
ghost use Rattle.ipnetwork_family.specs.Computed.Network.{is_member};
ghost use Rattle.ipnetwork_c.specs.Columns.{WritesFlags};
ghost use Rattle.ipnetwork_c.specs.Held.{PrefixFits};

use crate::fault::{OK, PREFIX, SHORT_BUFFER};
use crate::numbered::Numbered;
use ipnetwork_blocks::AddressSpace;

/// For each address, writes 1 if it is in the network's set, else 0.
#[inline(always)]
pub(crate) fn contains_each<N: AddressSpace, H: Numbered<N>>(
    network: H,
    addresses: &[H::Octets],
    answers: &mut [u8],
) -> u32
    ensures { WritesFlags (PrefixFits N.WIDTH (H.held network))
        (λ octets. from_bool (is_member N.WIDTH (H.held network) (H.meant octets))) addresses.now
        answers.old answers.new result }
{
    if !network.fits() {
        return PREFIX;
    }
    if answers.len() < addresses.len() {
        return SHORT_BUFFER;
    }
    for (row, address) in addresses.iter().enumerate() {
        answers[row] = flag::<N, H>(network, address);
    }
    OK
}

// Returns 1 if the address is in the network's set, else 0.
#[inline(always)]
fn flag<N: AddressSpace, H: Numbered<N>>(network: H, address: &H::Octets) -> u8
    requires { H.holds network }
    ensures { result ≡ from_bool (is_member N.WIDTH (H.held network) (H.meant address.now)) }
{
    u8::from(network.held_network().contains(H::address_in(address)))
}
