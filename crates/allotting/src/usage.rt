//! How many addresses of each block of a pool are used.
ghost use Rattle.std.specs.Prelude.{◌≡◌, IfOk, map};
ghost use Rattle.ipnetwork_sets.specs.Counts.{count_number};
ghost use Rattle.allotting.specs.Usage.{AreUsed};
ghost use Rattle.allotting.specs.Private.Counting.{TakesWithin, at_hand};

use ipnetwork_blocks::{AddressSpace, laws};
use ipnetwork_sets::{AddressCount, AddressSet, Intersection};
use std::alloc::{AllocError, Global};

/// The blocks of the pool, in ascending order, each with the number of its addresses that are used.
/// Goes over both sets once. `AllocError`: out of memory.
///
/// ```
/// let pool = AddressSet::from_networks(vec![in rt.alloc(); "10.0.0.0/24".parse::<Ipv4Network>()?]?);
/// let used = AddressSet::from_networks(vec![in rt.alloc(); "10.0.0.128/25".parse()?]?);
/// let usage = used_counts(rt.alloc(), &pool, &used)?;
/// assert_eq!(rt; usage[0], ("10.0.0.0/24".parse()?, AddressCount::from(128)));
/// ```
pub fn used_counts<N: AddressSpace>(
    alloc: Global,
    pool: &AddressSet<N>,
    used: &AddressSet<N>,
) -> Result<Vec<(N, AddressCount)>, AllocError>
    ensures { IfOk result (λ usage. AreUsed N.WIDTH pool.now used.now
        (map (λ one. (N.pair one.0, count_number one.1)) usage.items)) }
{
    laws::one_block();
    ipnetwork_sets::laws::shortest();
    let mut usage = Vec::new(alloc);
    let mut pieces = pool.intersection(used);
    let mut next = pieces.next();
    let blocks = pool.blocks();
    let mut at = 0;
    while at < blocks.len() {
        let block = blocks[at];
        let (count, left) = count_within(block, next, &mut pieces);
        usage.push((block, count))?;
        next = left;
        at += 1;
    }
    Ok(usage)
}

// The number of addresses of the pieces up to the first that is not within the block, and that one.
fn count_within<N: AddressSpace>(
    block: N,
    next: Option<N>,
    pieces: &mut Intersection<'_, N>,
) -> (AddressCount, Option<N>)
    ensures { TakesWithin N.WIDTH (N.pair block) (at_hand N.pair next pieces.old)
        (at_hand N.pair result.1 pieces.new) (count_number result.0) }
{
    let mut count = AddressCount::ZERO;
    let mut left = next;
    while let Some(piece) = left {
        if !piece.is_subnet_of(block) {
            return (count, Some(piece));
        }
        count = count.add_block(piece);
        let after = pieces.next();
        left = after;
    }
    (count, None)
}
