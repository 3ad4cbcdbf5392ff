//! Joining a network that is added to a set with the blocks next to it.
ghost use Rattle.std.specs.Prelude.{◌≡◌, ◌≤◌, ◌++◌, ◌∷◌, [], MatchOption, drop, length, map, take};
ghost use Rattle.ipnetwork_blocks.specs.Aggregate.{LiesInUnion};
ghost use Rattle.ipnetwork_blocks.specs.LeastList.{IsLeastList};
ghost use Rattle.ipnetwork_blocks.specs.Private.Joining.{AreHalves};
ghost use Rattle.ipnetwork_blocks.specs.Supernets.{parent};
ghost use Rattle.ipnetwork_sets.specs.Sets.{IsAddressSet, InEither};
ghost use Rattle.ipnetwork_sets.specs.Private.Places.{IsPlace, NoHalfBefore, JoinsBefore, NoHalfBehind, JoinsBehind};

use crate::check::are_halves;
use ipnetwork_blocks::{AddressSpace, block, laws};

/// The block that replaces the network, which does not lie in the set, and the blocks from the
/// first index up to, but not including, the second: those that share an address with the network,
/// and those that are joined with it. Together with the other blocks, it makes up the set with the
/// network added.
pub(crate) fn join_around<N: AddressSpace>(
    blocks: &[N],
    network: N,
    from: usize,
    to: usize,
) -> (usize, usize, N)
    requires set { IsAddressSet N.WIDTH (map N.pair blocks.now) }
    requires new { ¬ (LiesInUnion N.WIDTH (N.pair network) (map N.pair blocks.now)) }
    requires place { IsPlace N.WIDTH (map N.pair blocks.now) (N.pair network) from to }
    ensures ordered { result.0 ≤ result.1 }
    ensures within { result.1 ≤ length blocks.now }
    ensures joined { IsLeastList N.WIDTH
        (InEither N.WIDTH (map N.pair blocks.now) (N.pair network ∷ []))
        (take result.0 (map N.pair blocks.now) ++ N.pair result.2
        ∷ drop result.1 (map N.pair blocks.now)) }
{
    laws::one_block();
    // The clauses of this call say that `network` is a network of addresses of WIDTH bits.
    let _ = network.ip();
    let mut first = from;
    let mut behind = to;
    let mut joined = block(network);
    loop {
        if let Some(wider) = join_before(blocks, first, joined) {
            first -= 1;
            joined = wider;
        } else if let Some(wider) = join_behind(blocks, joined, behind) {
            behind += 1;
            joined = wider;
        } else {
            return (first, behind, joined);
        }
    }
}

// The block before the index joined with this one, if they are the halves of one block.
fn join_before<N: AddressSpace>(blocks: &[N], first: usize, block: N) -> Option<N>
    requires { first ≤ length blocks.now }
    ensures { MatchOption result
        (NoHalfBefore N.WIDTH (map N.pair blocks.now) first (N.pair block))
        (λ wider. JoinsBefore N.WIDTH (map N.pair blocks.now) first (N.pair block)
        (N.pair wider)) }
{
    if first == 0 {
        return None;
    }
    join(blocks[first - 1], block)
}

// This block joined with the one at the index, if they are the halves of one block.
fn join_behind<N: AddressSpace>(blocks: &[N], block: N, behind: usize) -> Option<N>
    ensures { MatchOption result
        (NoHalfBehind N.WIDTH (map N.pair blocks.now) (N.pair block) behind)
        (λ wider. JoinsBehind N.WIDTH (map N.pair blocks.now) (N.pair block) behind
        (N.pair wider)) }
{
    if behind >= blocks.len() {
        return None;
    }
    join(block, blocks[behind])
}

// The block whose halves are these two blocks, which differ, if there is one.
fn join<N: AddressSpace>(first: N, second: N) -> Option<N>
    ensures { MatchOption result (¬ (AreHalves N.WIDTH (N.pair first) (N.pair second)))
        (λ wider. AreHalves N.WIDTH (N.pair first) (N.pair second)
        × (N.pair wider ≡ parent N.WIDTH (N.pair first))) }
{
    if !are_halves(first, second) {
        return None;
    }
    Some(N::block_at(first.ip(), first.prefix() - 1))
}
