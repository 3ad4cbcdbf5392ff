//! Adding networks to a set and removing them, in place.
ghost use Rattle.std.specs.Prelude.{◌≡◌, ◌↔◌, ◌<◌, ◌≤◌, ◌++◌, ◌∷◌, [], IsTrue, IfOk, OnOk, OnErr, MatchOption, List, drop, length, map, take};
ghost use Rattle.ipnetwork_family.specs.Network.{Network};
ghost use Rattle.ipnetwork_blocks.specs.Aggregate.{IsAggregate, LiesInUnion};
ghost use Rattle.ipnetwork_blocks.specs.LeastList.{IsLeastList};
ghost use Rattle.ipnetwork_sets.specs.Sets.{IsAddressSet, MeetsUnion, InEither, InFirstAlone};

use crate::joining::join_around;
use crate::place::place_of;
use crate::replacing::{make_room, write_over};
use crate::search::covers;
use ipnetwork_blocks::{AddressSpace, aggregate_vec, exclude, laws};
use std::alloc::AllocError;

/// Adds the addresses of the network to the set with these blocks, and returns whether any of them
/// is new.
pub(crate) fn insert<N: AddressSpace>(blocks: &mut Vec<N>, network: N) -> Result<bool, AllocError>
    requires { IsAddressSet N.WIDTH (map N.pair blocks.old.items) }
    ensures set { OnOk result (IsLeastList N.WIDTH
        (InEither N.WIDTH (map N.pair blocks.old.items) (N.pair network ∷ []))
        (map N.pair blocks.new.items)) }
    ensures added { IfOk result (λ added. IsTrue added
        ↔ ¬ (LiesInUnion N.WIDTH (N.pair network) (map N.pair blocks.old.items))) }
    ensures room { (list : List Network)
        → IsLeastList N.WIDTH
        (InEither N.WIDTH (map N.pair blocks.old.items) (N.pair network ∷ [])) list
        → OnErr result (length (map N.pair blocks.old.items) < length list) }
    ensures unchanged { OnErr result (blocks.new.items ≡ blocks.old.items) }
    ensures blocks { IsAddressSet N.WIDTH (map N.pair blocks.new.items) }
{
    let Some(found) = block_to_add(blocks.as_slice(), network) else {
        return Ok(false);
    };
    make_room(blocks, found.0, found.1, 1)?;
    blocks[found.0] = found.2;
    Ok(true)
}

/// Adds the addresses of the networks to the set with these blocks.
pub(crate) fn insert_all<N: AddressSpace>(
    blocks: &mut Vec<N>,
    networks: &[N],
) -> Result<(), AllocError>
    requires { IsAddressSet N.WIDTH (map N.pair blocks.old.items) }
    ensures set { OnOk result (IsAggregate N.WIDTH
        (map N.pair blocks.old.items ++ map N.pair networks.now) (map N.pair blocks.new.items)) }
    ensures room { OnErr result (0 < length networks.now) }
    ensures unchanged { OnErr result (blocks.new.items ≡ blocks.old.items) }
    ensures blocks { IsAddressSet N.WIDTH (map N.pair blocks.new.items) }
{
    laws::same_union();
    blocks.extend_from_slice(networks)?;
    aggregate_vec(blocks);
    Ok(())
}

// The block that replaces the network and the blocks from the first index up to, but not including,
// the second; `None` if each address of the network is in the set.
fn block_to_add<N: AddressSpace>(blocks: &[N], network: N) -> Option<(usize, usize, N)>
    requires { IsAddressSet N.WIDTH (map N.pair blocks.now) }
    ensures { MatchOption result (LiesInUnion N.WIDTH (N.pair network) (map N.pair blocks.now))
        (λ r. (¬ (LiesInUnion N.WIDTH (N.pair network) (map N.pair blocks.now)))
        × (r.0 ≤ r.1) × (r.1 ≤ length blocks.now)
        × IsLeastList N.WIDTH
        (InEither N.WIDTH (map N.pair blocks.now) (N.pair network ∷ []))
        (take r.0 (map N.pair blocks.now) ++ N.pair r.2 ∷ drop r.1 (map N.pair blocks.now))) }
{
    if covers(blocks, network) {
        return None;
    }
    let (from, to) = place_of(blocks, network);
    Some(join_around(blocks, network, from, to))
}

/// Removes the addresses of the network from the set with these blocks, and returns whether any of
/// them was in it.
pub(crate) fn remove<N: AddressSpace>(blocks: &mut Vec<N>, network: N) -> Result<bool, AllocError>
    requires { IsAddressSet N.WIDTH (map N.pair blocks.old.items) }
    ensures set { OnOk result (IsLeastList N.WIDTH
        (InFirstAlone N.WIDTH (map N.pair blocks.old.items) (N.pair network ∷ []))
        (map N.pair blocks.new.items)) }
    ensures removed { IfOk result (λ removed. IsTrue removed
        ↔ MeetsUnion N.WIDTH (N.pair network) (map N.pair blocks.old.items)) }
    ensures room { (list : List Network)
        → IsLeastList N.WIDTH
        (InFirstAlone N.WIDTH (map N.pair blocks.old.items) (N.pair network ∷ [])) list
        → OnErr result (length (map N.pair blocks.old.items) < length list) }
    ensures unchanged { OnErr result (blocks.new.items ≡ blocks.old.items) }
    ensures blocks { IsAddressSet N.WIDTH (map N.pair blocks.new.items) }
{
    laws::one_block();
    // The clauses of this call say that `network` is a network of addresses of WIDTH bits.
    let _ = network.ip();
    let (from, to) = place_of(blocks.as_slice(), network);
    if from == to {
        return Ok(false);
    }
    let whole = blocks[from];
    let left = exclude(whole, network);
    let count = network.prefix().saturating_sub(whole.prefix());
    make_room(blocks, from, to, count)?;
    write_over(blocks.as_mut_slice(), from, left);
    Ok(true)
}
