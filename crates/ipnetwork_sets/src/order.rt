//! The order of networks and addresses.
ghost use Rattle.std.specs.Prelude.{◌≡◌, ◌↔◌, ◌+◌, ◌<◌, ◌≤◌, IsTrue};
ghost use Rattle.ipnetwork_family.specs.Network.{Overlap, high};
ghost use Rattle.ipnetwork_sets.specs.Private.Touching.{Touches};

use ipnetwork_blocks::AddressSpace;

/// Whether the first ends before the address of the second: by the bits that both addresses share,
/// since an intersection of IPv6 sets that makes the first's last address takes 1.25 times as long.
pub(crate) fn ends_before<N: AddressSpace>(first: N, second: N) -> bool
    ensures { IsTrue result ↔ (high N.WIDTH (N.pair first) < (N.pair second).address) }
{
    let own = first.ip();
    let begin = second.ip();
    let shared = N::shared_bits(own, begin);
    if first.prefix() <= shared {
        return false;
    }
    is_before::<N>(own, begin)
}

/// Whether some address is in both networks: whether they share the bits of the shorter prefix.
#[inline(always)]
pub(crate) fn share_address<N: AddressSpace>(first: N, second: N) -> bool
    ensures { IsTrue result ↔ Overlap N.WIDTH (N.pair first) (N.pair second) }
{
    let one = first.ip();
    let other = second.ip();
    let shared = N::shared_bits(one, other);
    let length = first.prefix();
    let other_length = second.prefix();
    if length <= shared {
        return true;
    }
    other_length <= shared
}

/// Whether the network ends at the address.
pub(crate) fn ends_at<N: AddressSpace>(network: N, last: N::Addr) -> bool
    ensures { IsTrue result ↔ (N.number last ≡ high N.WIDTH (N.pair network)) }
{
    last == network.broadcast()
}

/// Whether the first address comes before the second.
pub(crate) fn is_before<N: AddressSpace>(first: N::Addr, second: N::Addr) -> bool
    ensures { IsTrue result ↔ (N.number first < N.number second) }
{
    first < second
}

/// Whether the second begins right after the first.
pub(crate) fn touches<N: AddressSpace>(first: N, second: N) -> bool
    ensures { IsTrue result ↔ Touches N.WIDTH (N.pair first) (N.pair second) }
{
    begins_behind(first.broadcast(), second)
}

/// Whether the network begins right after the address.
fn begins_behind<N: AddressSpace>(last: N::Addr, network: N) -> bool
    ensures { IsTrue result ↔ (N.number last + 1 ≡ (N.pair network).address) }
{
    let begin = network.ip();
    match N::next_address(last) {
        Some(next) => next == begin,
        None => false,
    }
}

/// Whether the network begins at or before the address or right after it, so that no address lies
/// between them.
pub(crate) fn goes_on<N: AddressSpace>(last: N::Addr, network: N) -> bool
    ensures { IsTrue result ↔ ((N.pair network).address ≤ N.number last + 1) }
{
    network.ip() <= last || begins_behind(last, network)
}
