//! Queries on a set, each by one binary search for the last block that begins at or before an
//! address.
ghost use Rattle.std.specs.Prelude.{◌≡◌, ◌↔◌, ◌<◌, IsTrue, MatchOption, map, nat_le};
ghost use Rattle.std.specs.List.{AllPairs};
ghost use Rattle.ipnetwork_blocks.specs.Aggregate.{InUnion, LiesInUnion};
ghost use Rattle.ipnetwork_sets.specs.Sets.{IsAddressSet, MeetsUnion};
ghost use Rattle.ipnetwork_sets.specs.Private.Search.{NoneUpTo, IsLastUpTo, IsSplitAt};

use ipnetwork_blocks::{AddressSpace, laws};

/// Whether the address is in the set.
pub(crate) fn contains<N: AddressSpace>(blocks: &[N], addr: N::Addr) -> bool
    requires { IsAddressSet N.WIDTH (map N.pair blocks.now) }
    ensures { IsTrue result ↔ InUnion N.WIDTH (map N.pair blocks.now) (N.number addr) }
{
    laws::one_block();
    match last_up_to(blocks, addr) {
        Some(block) => block.contains(addr),
        None => false,
    }
}

/// Whether each address of the network is in the set.
pub(crate) fn covers<N: AddressSpace>(blocks: &[N], network: N) -> bool
    requires { IsAddressSet N.WIDTH (map N.pair blocks.now) }
    ensures { IsTrue result ↔ LiesInUnion N.WIDTH (N.pair network) (map N.pair blocks.now) }
{
    laws::one_block();
    // The clauses of this call say that `network` is a network of addresses of WIDTH bits.
    let _ = network.ip();
    match last_up_to(blocks, network.network()) {
        Some(block) => network.is_subnet_of(block),
        None => false,
    }
}

/// Whether some address of the network is in the set.
pub(crate) fn overlaps<N: AddressSpace>(blocks: &[N], network: N) -> bool
    requires { IsAddressSet N.WIDTH (map N.pair blocks.now) }
    ensures { IsTrue result ↔ MeetsUnion N.WIDTH (N.pair network) (map N.pair blocks.now) }
{
    laws::one_block();
    // The clauses of this call say that `network` is a network of addresses of WIDTH bits.
    let _ = network.ip();
    match last_up_to(blocks, network.broadcast()) {
        Some(block) => network.overlaps(block),
        None => false,
    }
}

// The last of the blocks that begin at or before the address.
fn last_up_to<N: AddressSpace>(blocks: &[N], addr: N::Addr) -> Option<N>
    requires { AllPairs (λ a b. a.address < b.address) (map N.pair blocks.now) }
    ensures { MatchOption result (NoneUpTo (map N.pair blocks.now) (N.number addr))
        (λ last. IsLastUpTo (map N.pair blocks.now) (N.number addr) (N.pair last)) }
{
    let count = count_up_to(blocks, addr);
    if count == 0 {
        return None;
    }
    Some(blocks[count - 1])
}

/// The number of blocks that begin at or before the address.
#[inline(always)]
pub(crate) fn count_up_to<N: AddressSpace>(blocks: &[N], addr: N::Addr) -> usize
    requires { AllPairs (λ a b. a.address < b.address) (map N.pair blocks.now) }
    ensures { IsSplitAt (map N.pair blocks.now) (N.number addr) result result }
{
    blocks.partition_point(
        |block: &N| -> bool
            ensures { result ≡ nat_le (N.pair block.now).address (N.number addr) }
        { begins_up_to(*block, addr) },
    )
}

// Whether the network's own address is at or before the address `addr`.
fn begins_up_to<N: AddressSpace>(network: N, addr: N::Addr) -> bool
    ensures { result ≡ nat_le (N.pair network).address (N.number addr) }
{
    network.ip() <= addr
}
