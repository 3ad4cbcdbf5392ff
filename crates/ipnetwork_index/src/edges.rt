//! Where the blocks of a table begin and end, as the last addresses of ranges.
ghost use Rattle.std.specs.Prelude.{◌≡◌, IfOk, map};
ghost use Rattle.ipnetwork_table.specs.Table.{by_pair};
ghost use Rattle.ipnetwork_index.specs.Private.Edges.{edges_of, AreRangesOf};

use crate::cuts::closed;
use crate::indexed_network::IndexedNetwork;
use ipnetwork_table::laws;
use std::alloc::{AllocError, Global};

// The last addresses of ranges, each of which lies entirely inside or entirely outside each block
// of the table with these entries.
pub(crate) fn ranges_of<N: IndexedNetwork, V: Copy>(
    alloc: Global,
    entries: &[(N, V)],
) -> Result<Vec<N::Addr>, AllocError>
    ensures { IfOk result (λ lasts. AreRangesOf N.WIDTH (by_pair N.pair entries.now)
        (map N.number lasts.items)) }
{
    laws::listing::<V>();
    let mut edges = edges_of(alloc, entries)?;
    edges.sort_unstable();
    edges.dedup();
    let lasts = closed::<N>(edges)?;
    Ok(lasts)
}

// For each block, the last address before it, if any, and its own last address.
fn edges_of<N: IndexedNetwork, V: Copy>(
    alloc: Global,
    entries: &[(N, V)],
) -> Result<Vec<N::Addr>, AllocError>
    ensures { IfOk result
        (λ edges. map N.number edges.items ≡ edges_of N.WIDTH (by_pair N.pair entries.now)) }
{
    let mut edges = Vec::with_capacity(alloc, entries.len().saturating_mul(2).saturating_add(1))?;
    for entry in entries {
        let block = entry.0;
        if let Some(before) = N::previous_address(block.network()) {
            edges.push(before)?;
        }
        edges.push(block.broadcast())?;
    }
    Ok(edges)
}
