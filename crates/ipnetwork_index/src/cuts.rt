//! Where a set begins and ends, as the last addresses of ranges.
ghost use Rattle.std.specs.Prelude.{◌≡◌, IfOk, IsTrue, false, map};
ghost use Rattle.ipnetwork_blocks.specs.Aggregate.{InUnion};
ghost use Rattle.ipnetwork_index.specs.Private.Cuts.{AreCutsOf, Closes, EndsWhole, EndsBefore, Rises};

use crate::indexed_network::IndexedNetwork;
use ipnetwork_sets::AddressSet;
use std::alloc::{AllocError, Global};

// For each range of the set, the last address before it, if any, and its own last address.
pub(crate) fn cuts_of<N: IndexedNetwork>(
    alloc: Global,
    set: &AddressSet<N>,
) -> Result<Vec<N::Addr>, AllocError>
    ensures { IfOk result (λ cuts. AreCutsOf (InUnion N.WIDTH set.now) (map N.number cuts.items)) }
{
    let mut cuts = Vec::new(alloc);
    let mut ranges = set.ranges();
    'cutting: while let Some(range) = ranges.next() {
        if let Some(before) = N::previous_address(range.0) {
            cuts.push(before)?;
        }
        cuts.push(range.1)?;
    }
    Ok(cuts)
}

// The cuts and, unless they end with it, the last address of all.
pub(crate) fn closed<N: IndexedNetwork>(mut cuts: Vec<N::Addr>) -> Result<Vec<N::Addr>, AllocError>
    requires { Rises 0 (map N.number cuts.items) }
    ensures { IfOk result
        (λ lasts. Closes N.WIDTH (map N.number cuts.items) (map N.number lasts.items)) }
{
    if ends_whole::<N>(cuts.as_slice()) {
        return Ok(cuts);
    }
    cuts.push(N::whole().broadcast())?;
    Ok(cuts)
}

// Whether the last of the cuts is the last address of all.
fn ends_whole<N: IndexedNetwork>(cuts: &[N::Addr]) -> bool
    ensures whole { IsTrue result → EndsWhole N.WIDTH (map N.number cuts.now) }
    ensures not { (result ≡ false) → EndsBefore N.WIDTH (map N.number cuts.now) }
{
    let count = cuts.len();
    if count == 0 {
        return false;
    }
    match N::next_address(cuts[count - 1]) {
        None => true,
        Some(_) => false,
    }
}
