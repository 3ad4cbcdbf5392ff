//! Replacing blocks of a list in place.
ghost use Rattle.std.specs.Prelude.{◌≡◌, ◌+◌, ◌<◌, ◌≤◌, ◌++◌, OnOk, OnErr, drop, length, map, take};
ghost use Rattle.ipnetwork_sets.specs.Private.Places.{HasRoom};

use ipnetwork_blocks::{AddressSpace, Exclusion};
use std::alloc::AllocError;

/// Makes room for `count` blocks in place of those at the indices `from..to`. The blocks after them
/// are moved once. `AllocError` means that the list had to grow and memory ran out; it is then
/// unchanged.
pub(crate) fn make_room<N: AddressSpace>(
    blocks: &mut Vec<N>,
    from: usize,
    to: usize,
    count: u8,
) -> Result<(), AllocError>
    requires ordered { from ≤ to }
    requires within { to ≤ length blocks.old.items }
    ensures made { OnOk result (HasRoom blocks.old.items from to count blocks.new.items) }
    ensures unchanged { OnErr result (blocks.new.items ≡ blocks.old.items) }
    ensures room { OnErr result (to < from + count) }
{
    let len = blocks.len();
    let end = from + usize::from(count);
    blocks.resize(len + end.saturating_sub(to), N::whole())?;
    blocks.copy_within(to..len, end);
    blocks.truncate(len - to + end);
    Ok(())
}

/// Writes the remaining blocks of `others` over those from the index `from` on.
pub(crate) fn write_over<N: AddressSpace>(blocks: &mut [N], from: usize, mut others: Exclusion<N>)
    requires { from + length others ≤ length blocks.old }
    ensures { map N.pair blocks.new ≡ take from (map N.pair blocks.old) ++ others
        ++ drop (from + length others) (map N.pair blocks.old) }
{
    let mut next = from;
    while let Some(block) = others.next() {
        blocks[next] = block;
        next += 1;
    }
}
