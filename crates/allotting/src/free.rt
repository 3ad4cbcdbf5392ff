//! The blocks of one prefix length that are free.
ghost use Rattle.std.specs.Iterator.{YieldsFirstBy, item_count};
ghost use Rattle.ipnetwork_sets.specs.Sets.{InFirstAlone};
ghost use Rattle.allotting.specs.FreeBlocks.{AreFreeBlocks};
ghost use Rattle.allotting.specs.Private.Pieces.{NextPieces};

use ipnetwork_blocks::{AddressSpace, SubnetIterator, laws, subnets};
use ipnetwork_sets::{AddressSet, Difference};
use std::marker::Model;

/// An iterator over the blocks of one prefix length that are free, in ascending order.
///
/// ```
/// let pool = AddressSet::from_networks(vec![in rt.alloc(); "10.0.0.0/31".parse::<Ipv4Network>()?]?);
/// let used = AddressSet::from_networks(vec![in rt.alloc(); "10.0.0.0/32".parse()?]?);
/// let mut blocks: FreeBlocks<'_, Ipv4Network> = free_blocks(&pool, &used, 32);
/// assert_eq!(rt; blocks.next(), Some("10.0.0.1/32".parse()?));
/// assert_eq!(rt; blocks.next(), None);
/// ```
#[derive(Drop)]
pub struct FreeBlocks<'a, N: AddressSpace> {
    pieces: Option<SubnetIterator<N>>,
    blocks: Difference<'a, N>,
    prefix: u8,
}

// A contract sees an iterator as the list of the blocks still to come.
impl<'a, N: AddressSpace> Model for FreeBlocks<'a, N> {
    ghost use Rattle.std.specs.Prelude.{List, ◌++◌};
    ghost use Rattle.ipnetwork_family.specs.Network.{Network};
    ghost use Rattle.allotting.specs.Private.Pieces.{at_hand, pieces_in};

    ghost Value = { List Network };

    ghost view = { λ f. at_hand f.pieces ++ pieces_in N.WIDTH f.prefix f.blocks };
}

/// The blocks of this prefix length that have only addresses of the pool, and none that is used.
/// Goes over both lists once, as the iterator advances.
///
/// ```
/// let pool = AddressSet::from_networks(vec![in rt.alloc(); "192.0.2.0/24".parse::<Ipv4Network>()?]?);
/// let used = AddressSet::from_networks(vec![in rt.alloc(); "192.0.2.0/25".parse()?]?);
/// let mut blocks = free_blocks(&pool, &used, 26);
/// assert_eq!(rt; blocks.next(), Some("192.0.2.128/26".parse()?));
/// ```
pub fn free_blocks<'a, N: AddressSpace>(
    pool: &'a AddressSet<N>,
    used: &'a AddressSet<N>,
    prefix: u8,
) -> FreeBlocks<'a, N>
    ensures { AreFreeBlocks N.WIDTH (InFirstAlone N.WIDTH pool.now used.now) prefix result }
{
    laws::one_block();
    ipnetwork_sets::laws::shortest();
    let blocks = pool.difference(used);
    FreeBlocks {
        pieces: None,
        blocks,
        prefix,
    }
}

impl<'a, N: AddressSpace> Iterator for FreeBlocks<'a, N> {
    type Item = N;

    ghost next_gives = { YieldsFirstBy N.pair (λ left. left) };

    ghost remaining = { item_count (λ left. left) };

    fn next(&mut self) -> Option<N> {
        if let Some(pieces) = &mut self.pieces {
            if let Some(block) = pieces.next() {
                return Some(block);
            }
        }
        let mut pieces = next_pieces(&mut self.blocks, self.prefix)?;
        let block = pieces.next();
        self.pieces = Some(pieces);
        block
    }
}

// The pieces of this prefix length of the next block that has any.
fn next_pieces<'a, N: AddressSpace>(
    blocks: &mut Difference<'a, N>,
    prefix: u8,
) -> Option<SubnetIterator<N>>
    ensures { NextPieces N.WIDTH prefix blocks.old blocks.new result }
{
    while let Some(block) = blocks.next() {
        if let Some(pieces) = subnets(block, prefix) {
            return Some(pieces);
        }
    }
    None
}
