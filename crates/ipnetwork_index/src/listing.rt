//! The blocks of a list of networks, in order.
ghost use Rattle.std.specs.Prelude.{◌≡◌, IfOk, map};
ghost use Rattle.std.specs.List.{All};
ghost use Rattle.ipnetwork_family.specs.Network.{IsCidrBlock, block_of};
ghost use Rattle.ipnetwork_table.specs.Table.{by_pair};
ghost use Rattle.ipnetwork_index.specs.Private.Listings.{AreListedBlocks};

use crate::indexed_network::IndexedNetwork;
use ipnetwork_blocks::block;
use std::alloc::{AllocError, Global};

/// The blocks of the networks in order, each once and with this value.
pub(crate) fn entries_of_list<N: IndexedNetwork, V: Copy>(
    alloc: Global,
    networks: &[N],
    value: V,
) -> Result<Vec<(N, V)>, AllocError>
    ensures { IfOk result (λ entries. AreListedBlocks N.WIDTH (map N.pair networks.now) value
        (by_pair N.pair entries.items)) }
{
    let mut blocks = blocks_of(alloc, networks)?;
    blocks.sort_unstable();
    blocks.dedup();
    let entries = with_value(alloc, blocks.as_slice(), value)?;
    Ok(entries)
}

// The block of each network.
fn blocks_of<N: IndexedNetwork>(alloc: Global, networks: &[N]) -> Result<Vec<N>, AllocError>
    ensures made { IfOk result
        (λ blocks. map N.pair blocks.items ≡ map (block_of N.WIDTH) (map N.pair networks.now)) }
    ensures blocks { IfOk result (λ blocks. All (IsCidrBlock N.WIDTH) (map N.pair blocks.items)) }
{
    let mut blocks = Vec::with_capacity(alloc, networks.len())?;
    for network in networks {
        blocks.push(block(*network))?;
    }
    Ok(blocks)
}

// The blocks, each with this value.
fn with_value<N: IndexedNetwork, V: Copy>(
    alloc: Global,
    blocks: &[N],
    value: V,
) -> Result<Vec<(N, V)>, AllocError>
    ensures { IfOk result (λ entries. by_pair N.pair entries.items
        ≡ map (λ n. (N.pair n, value)) blocks.now) }
{
    let mut entries = Vec::with_capacity(alloc, blocks.len())?;
    for block in blocks {
        entries.push((*block, value))?;
    }
    Ok(entries)
}
