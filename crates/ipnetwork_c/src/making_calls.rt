//! The calls that make tables of networks, and ranges of tables, in the caller's memory.
ghost use Rattle.ipnetwork_c.specs.Held.{v4_in, v6_in};
ghost use Rattle.ipnetwork_c.specs.Ranges.{MakesNumberedRanges, MakesRanges};
ghost use Rattle.ipnetwork_c.specs.Tables.{MakesTable};

use crate::structs::{Ipv4InC, Ipv6InC};
use crate::{range_making, table_making};
use ipnetwork::{Ipv4Network, Ipv6Network};

/// Makes a table of networks, in any order and with or without host bits: writes their blocks in
/// ascending order to the front of `blocks`, and for each block the index of its network to the
/// front of `places`. Equal blocks are in the order of their networks, so that
/// `ipnetwork_v4_index_find` finds the last of them. The rest of `blocks` and `places` is
/// unchanged. Returns `PREFIX` if the prefix length of a network is greater than 32, else
/// `SHORT_BUFFER` if there is room for fewer blocks or places than networks.
#[unsafe(no_mangle)]
pub extern "C" fn ipnetwork_v4_table_make(
    networks: &[Ipv4InC],
    blocks: &mut [Ipv4InC],
    places: &mut [usize],
) -> u32
    ensures { MakesTable 32 v4_in networks.now (blocks.old, places.old)
        (blocks.new, places.new) result }
{
    table_making::make::<Ipv4Network, Ipv4InC>(networks, blocks, places)
}

/// The same for IPv6, for prefix lengths up to 128.
#[unsafe(no_mangle)]
pub extern "C" fn ipnetwork_v6_table_make(
    networks: &[Ipv6InC],
    blocks: &mut [Ipv6InC],
    places: &mut [usize],
) -> u32
    ensures { MakesTable 128 v6_in networks.now (blocks.old, places.old)
        (blocks.new, places.new) result }
{
    table_making::make::<Ipv6Network, Ipv6InC>(networks, blocks, places)
}

/// Divides the addresses into ranges where the blocks of a table begin and after they end, so that
/// all addresses of a range have the same longest block. Writes the first address of each range, as
/// a network of only that address, in ascending order, to the front of `ranges`; the place of that
/// block, or `NO_PLACE` if there is none, to the front of `places`; and the number of ranges to
/// `count`. An address before all ranges has no block. The rest of `ranges` and `places` is
/// unchanged. `index` is the index of the blocks, or empty; one of another list only costs time.
/// Returns `PREFIX` if the prefix length of a struct is greater than 32, else `SHORT_BUFFER` if
/// there is room for fewer than two ranges or places for each block.
#[unsafe(no_mangle)]
pub extern "C" fn ipnetwork_v4_ranges_make(
    blocks: &[Ipv4InC],
    index: &[u32],
    ranges: &mut [Ipv4InC],
    places: &mut [usize],
    count: &mut usize,
) -> u32
    ensures { MakesRanges 32 v4_in blocks.now ((ranges.old, places.old), count.old)
        ((ranges.new, places.new), count.new) result }
{
    range_making::make::<Ipv4Network, Ipv4InC>(blocks, index, ranges, places, count)
}

/// The same for IPv6, for prefix lengths up to 128.
#[unsafe(no_mangle)]
pub extern "C" fn ipnetwork_v6_ranges_make(
    blocks: &[Ipv6InC],
    index: &[u32],
    ranges: &mut [Ipv6InC],
    places: &mut [usize],
    count: &mut usize,
) -> u32
    ensures { MakesRanges 128 v6_in blocks.now ((ranges.old, places.old), count.old)
        ((ranges.new, places.new), count.new) result }
{
    range_making::make::<Ipv6Network, Ipv6InC>(blocks, index, ranges, places, count)
}

/// Like `ipnetwork_v4_ranges_make`, but writes for each range, instead of the place of its longest
/// block, the number that `numbers` has at that place, such as the place of the block's network in
/// the caller's list. Returns `SHORT_BUFFER`, before any other fault, if there are fewer numbers
/// than blocks.
#[unsafe(no_mangle)]
pub extern "C" fn ipnetwork_v4_ranges_make_numbered(
    blocks: &[Ipv4InC],
    numbers: &[usize],
    index: &[u32],
    ranges: &mut [Ipv4InC],
    beside: &mut [usize],
    count: &mut usize,
) -> u32
    ensures { MakesNumberedRanges 32 v4_in blocks.now numbers.now
        ((ranges.old, beside.old), count.old) ((ranges.new, beside.new), count.new) result }
{
    range_making::make_numbered::<Ipv4Network, Ipv4InC>(
        blocks, numbers, index, ranges, beside, count,
    )
}

/// The same for IPv6, for prefix lengths up to 128.
#[unsafe(no_mangle)]
pub extern "C" fn ipnetwork_v6_ranges_make_numbered(
    blocks: &[Ipv6InC],
    numbers: &[usize],
    index: &[u32],
    ranges: &mut [Ipv6InC],
    beside: &mut [usize],
    count: &mut usize,
) -> u32
    ensures { MakesNumberedRanges 128 v6_in blocks.now numbers.now
        ((ranges.old, beside.old), count.old) ((ranges.new, beside.new), count.new) result }
{
    range_making::make_numbered::<Ipv6Network, Ipv6InC>(
        blocks, numbers, index, ranges, beside, count,
    )
}
