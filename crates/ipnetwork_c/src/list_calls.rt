//! The calls for lists of networks in the caller's memory: searches for an address, operations on
//! sets, and the blocks of a range of addresses.
ghost use Rattle.ipnetwork_sets.specs.Sets.{InEither, InBoth, InFirstAlone};
ghost use Rattle.ipnetwork_c.specs.Blocks.{RangeOperation};
ghost use Rattle.ipnetwork_c.specs.Held.{v4_in, v6_in, number_of_octets};
ghost use Rattle.ipnetwork_c.specs.Lists.{SetQuery};
ghost use Rattle.ipnetwork_c.specs.Ranges.{PlaceQuery, RangeQuery};
ghost use Rattle.ipnetwork_c.specs.Sets.{SetOperation};
ghost use Rattle.ipnetwork_c.specs.Tables.{TableQuery};

use crate::block_calls::range;
use crate::set_operations::{Operation, operate};
use crate::structs::{Ipv4InC, Ipv6InC, PlaceInC, address_of};
use crate::{ranges, sets, tables};
use ipnetwork::{Ipv4Addr, Ipv4Network, Ipv6Network};

/// Writes to `answer` 1 if an address is in the set of a list, else 0, for the list of a set, as
/// `ipnetwork_v4_aggregate` leaves it. For any other list, 1 is right too, but 0 says nothing. If
/// the structs ascend, the search ends at the last struct whose own address is at or before this
/// one. Returns `PREFIX` exactly if the prefix length of the struct at which the search ends is
/// greater than 32, which never occurs in the list of a set. `index` is the index of the blocks, as
/// `ipnetwork_v4_index_make` makes it, or empty. It only says where the search begins: an index of
/// another list makes the search slower, but the answer is the same if the blocks ascend.
#[unsafe(no_mangle)]
#[inline(always)]
pub extern "C" fn ipnetwork_v4_index_contains(
    blocks: &[Ipv4InC],
    index: &[u32],
    address: &[u8; 4],
    answer: &mut u8,
) -> u32
    ensures { SetQuery 32 v4_in blocks.now
        (number_of_octets address.now) answer.old answer.new result }
{
    sets::contains::<Ipv4Network, Ipv4InC>(blocks, index, address, answer)
}

/// The same for IPv6, for prefix lengths up to 128.
#[unsafe(no_mangle)]
#[inline(always)]
pub extern "C" fn ipnetwork_v6_index_contains(
    blocks: &[Ipv6InC],
    index: &[u32],
    address: &[u8; 16],
    answer: &mut u8,
) -> u32
    ensures { SetQuery 128 v6_in blocks.now
        (number_of_octets address.now) answer.old answer.new result }
{
    sets::contains::<Ipv6Network, Ipv6InC>(blocks, index, address, answer)
}

/// Writes to `place` the place of the longest block of a table that has the address. A table is
/// blocks without host bits in ascending order by `ipnetwork_v4_compare`, some of which may contain
/// others. Returns `NO_MEMBER` if no block has the address. For any other list, the block at the
/// place has the address too, but there may be a longer one, and `NO_MEMBER` says nothing. Returns
/// `PREFIX` at the first struct that the search reaches whose prefix length is greater than 32,
/// which never occurs in a table. `index` is the index of the blocks, as
/// `ipnetwork_v4_table_index_make` makes it, or empty. Whatever it holds, the result is the same if
/// the blocks ascend.
#[unsafe(no_mangle)]
#[inline(always)]
pub extern "C" fn ipnetwork_v4_index_find(
    blocks: &[Ipv4InC],
    index: &[u32],
    address: &[u8; 4],
    place: &mut usize,
) -> u32
    ensures { TableQuery 32 v4_in blocks.now
        (number_of_octets address.now) place.old place.new result }
{
    tables::find::<Ipv4Network, Ipv4InC>(blocks, index, Ipv4Addr::from(*address), place)
}

/// The same for IPv6, for prefix lengths up to 128.
#[unsafe(no_mangle)]
#[inline(always)]
pub extern "C" fn ipnetwork_v6_index_find(
    blocks: &[Ipv6InC],
    index: &[u32],
    address: &[u8; 16],
    place: &mut usize,
) -> u32
    ensures { TableQuery 128 v6_in blocks.now
        (number_of_octets address.now) place.old place.new result }
{
    tables::find::<Ipv6Network, Ipv6InC>(blocks, index, address_of(address), place)
}

/// Writes to `place` the place of the last range that begins at or before an address, by an index
/// of the ranges, as `ipnetwork_v4_table_index_make` makes it, or by none. For the ranges and places
/// of a table, as `ipnetwork_v4_ranges_make` makes them, it is the place that
/// `ipnetwork_v4_index_find` finds in the table. Returns `NO_MEMBER` if there is no such range, or if its place is missing or
/// `NO_PLACE`. Whatever the index holds, the result is the same if the ranges ascend.
#[unsafe(no_mangle)]
#[inline(always)]
pub extern "C" fn ipnetwork_v4_ranges_find(
    ranges: &[Ipv4InC],
    places: &[usize],
    index: &[u32],
    address: &[u8; 4],
    place: &mut usize,
) -> u32
    ensures { RangeQuery v4_in ranges.now places.now
        (number_of_octets address.now) place.old place.new result }
{
    ranges::find::<Ipv4Network, Ipv4InC>(address, ranges, places, index, place)
}

/// The same for IPv6, for what `ipnetwork_v6_ranges_make` makes.
#[unsafe(no_mangle)]
#[inline(always)]
pub extern "C" fn ipnetwork_v6_ranges_find(
    ranges: &[Ipv6InC],
    places: &[usize],
    index: &[u32],
    address: &[u8; 16],
    place: &mut usize,
) -> u32
    ensures { RangeQuery v6_in ranges.now places.now
        (number_of_octets address.now) place.old place.new result }
{
    ranges::find::<Ipv6Network, Ipv6InC>(address, ranges, places, index, place)
}

/// Returns what `ipnetwork_v4_ranges_find` writes: the place of the last range that begins at or
/// before an address, or `NO_PLACE`, 2^64 - 1, if it finds none.
#[unsafe(no_mangle)]
#[inline(always)]
pub extern "C" fn ipnetwork_v4_ranges_place(
    ranges: &[Ipv4InC],
    places: &[usize],
    index: &[u32],
    address: &[u8; 4],
) -> PlaceInC
    ensures { PlaceQuery v4_in ranges.now places.now (number_of_octets address.now) result.place }
{
    PlaceInC {
        place: ranges::place_of::<Ipv4Network, Ipv4InC>(address, ranges, places, index),
    }
}

/// The same for IPv6.
#[unsafe(no_mangle)]
#[inline(always)]
pub extern "C" fn ipnetwork_v6_ranges_place(
    ranges: &[Ipv6InC],
    places: &[usize],
    index: &[u32],
    address: &[u8; 16],
) -> PlaceInC
    ensures { PlaceQuery v6_in ranges.now places.now (number_of_octets address.now) result.place }
{
    PlaceInC {
        place: ranges::place_of::<Ipv6Network, Ipv6InC>(address, ranges, places, index),
    }
}

/// Writes to the front of `blocks` the blocks of the addresses that are in at least one of two
/// sets: the fewest possible, in ascending order. `count` is their number, at most that of both
/// lists together. Returns `PREFIX` if a prefix length is greater than 32, else `NO_SET` if one of
/// the lists is not the list of a set, as `ipnetwork_v4_aggregate` leaves it, else `SHORT_BUFFER`
/// if there is no room for the blocks, and then writes only `count`.
#[unsafe(no_mangle)]
pub extern "C" fn ipnetwork_v4_union(
    first: &[Ipv4InC],
    second: &[Ipv4InC],
    blocks: &mut [Ipv4InC],
    count: &mut usize,
) -> u32
    ensures { SetOperation 32 v4_in (InEither 32) first.now second.now (blocks.old, count.old)
        (blocks.new, count.new) result }
{
    operate::<Ipv4Network, Ipv4InC>(Operation::Union, first, second, blocks, count)
}

/// The same for IPv6, for prefix lengths up to 128.
#[unsafe(no_mangle)]
pub extern "C" fn ipnetwork_v6_union(
    first: &[Ipv6InC],
    second: &[Ipv6InC],
    blocks: &mut [Ipv6InC],
    count: &mut usize,
) -> u32
    ensures { SetOperation 128 v6_in (InEither 128) first.now second.now (blocks.old, count.old)
        (blocks.new, count.new) result }
{
    operate::<Ipv6Network, Ipv6InC>(Operation::Union, first, second, blocks, count)
}

/// Like `ipnetwork_v4_union`, but writes the blocks of the addresses that are in both sets.
#[unsafe(no_mangle)]
pub extern "C" fn ipnetwork_v4_intersection(
    first: &[Ipv4InC],
    second: &[Ipv4InC],
    blocks: &mut [Ipv4InC],
    count: &mut usize,
) -> u32
    ensures { SetOperation 32 v4_in (InBoth 32) first.now second.now (blocks.old, count.old)
        (blocks.new, count.new) result }
{
    operate::<Ipv4Network, Ipv4InC>(Operation::Intersection, first, second, blocks, count)
}

/// The same for IPv6, for prefix lengths up to 128.
#[unsafe(no_mangle)]
pub extern "C" fn ipnetwork_v6_intersection(
    first: &[Ipv6InC],
    second: &[Ipv6InC],
    blocks: &mut [Ipv6InC],
    count: &mut usize,
) -> u32
    ensures { SetOperation 128 v6_in (InBoth 128) first.now second.now (blocks.old, count.old)
        (blocks.new, count.new) result }
{
    operate::<Ipv6Network, Ipv6InC>(Operation::Intersection, first, second, blocks, count)
}

/// Like `ipnetwork_v4_union`, but writes the blocks of the addresses that are in the first set and
/// not in the second. There may be more of them than in both lists together.
#[unsafe(no_mangle)]
pub extern "C" fn ipnetwork_v4_difference(
    first: &[Ipv4InC],
    second: &[Ipv4InC],
    blocks: &mut [Ipv4InC],
    count: &mut usize,
) -> u32
    ensures { SetOperation 32 v4_in (InFirstAlone 32) first.now second.now (blocks.old, count.old)
        (blocks.new, count.new) result }
{
    operate::<Ipv4Network, Ipv4InC>(Operation::Difference, first, second, blocks, count)
}

/// The same for IPv6, for prefix lengths up to 128.
#[unsafe(no_mangle)]
pub extern "C" fn ipnetwork_v6_difference(
    first: &[Ipv6InC],
    second: &[Ipv6InC],
    blocks: &mut [Ipv6InC],
    count: &mut usize,
) -> u32
    ensures { SetOperation 128 v6_in (InFirstAlone 128) first.now second.now
        (blocks.old, count.old) (blocks.new, count.new) result }
{
    operate::<Ipv6Network, Ipv6InC>(Operation::Difference, first, second, blocks, count)
}

/// Writes to the front of `blocks` the blocks of the addresses from `first` to `last`, both
/// included: the fewest possible, in ascending order, and at most 62. `count` is their number.
/// Returns `SHORT_BUFFER` if there is no room for them, and then writes only `count`; `NO_RANGE` if
/// `first` comes after `last`.
#[unsafe(no_mangle)]
pub extern "C" fn ipnetwork_v4_range_to_blocks(
    first: &[u8; 4],
    last: &[u8; 4],
    blocks: &mut [Ipv4InC],
    count: &mut usize,
) -> u32
    ensures { RangeOperation 32 v4_in (number_of_octets first.now) (number_of_octets last.now)
        (blocks.old, count.old) (blocks.new, count.new) result }
{
    range::<Ipv4Network, Ipv4InC>(Ipv4Addr::from(*first), Ipv4Addr::from(*last), blocks, count)
}

/// The same for IPv6, with at most 254 blocks.
#[unsafe(no_mangle)]
pub extern "C" fn ipnetwork_v6_range_to_blocks(
    first: &[u8; 16],
    last: &[u8; 16],
    blocks: &mut [Ipv6InC],
    count: &mut usize,
) -> u32
    ensures { RangeOperation 128 v6_in (number_of_octets first.now) (number_of_octets last.now)
        (blocks.old, count.old) (blocks.new, count.new) result }
{
    range::<Ipv6Network, Ipv6InC>(address_of(first), address_of(last), blocks, count)
}
