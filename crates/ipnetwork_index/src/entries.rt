//! The table of a list of entries.
ghost use Rattle.std.specs.Prelude.{IfOk};
ghost use Rattle.ipnetwork_table.specs.Table.{by_pair};
ghost use Rattle.ipnetwork_index.specs.Entries.{HasLastValues};

use crate::indexed_network::IndexedNetwork;
use ipnetwork_table::PrefixTable;
use std::alloc::{AllocError, Global};

/// The table of the blocks of the entries. Of several with the same block, the last one counts.
pub(crate) fn table_of<N: IndexedNetwork, V: Copy>(
    alloc: Global,
    entries: &[(N, V)],
) -> Result<PrefixTable<N, V>, AllocError>
    ensures { IfOk result (λ table. HasLastValues N.WIDTH (by_pair N.pair entries.now) table) }
{
    let mut table = PrefixTable::new(alloc);
    for entry in entries {
        table.insert(entry.0, entry.1)?;
    }
    Ok(table)
}
