//! The calls for many addresses, texts or networks at once, a row for each. Texts are in Arrow's
//! layout: the bytes of all texts, one after the other, and the offsets at which each text begins
//! and the last one ends.
ghost use Rattle.ipnetwork_c.specs.Columns.{AnswersRows};
ghost use Rattle.ipnetwork_c.specs.Either.{NoAddress, NoIpNetwork, ReadsAddress};
ghost use Rattle.ipnetwork_c.specs.Held.{v4_in, v6_in};
ghost use Rattle.ipnetwork_c.specs.Indexes.{SetRows};
ghost use Rattle.ipnetwork_c.specs.PrintedColumns.{PrintsColumn, v4_fits, v4_refused, v4_text, v6_fits, v6_refused, v6_text, ip_fits, ip_text, address_fits, address_text};
ghost use Rattle.ipnetwork_c.specs.Ranges.{RangeRows};
ghost use Rattle.ipnetwork_c.specs.Tables.{TableRows};
ghost use Rattle.ipnetwork_c.specs.TextColumns.{ReadsColumn, v4_reads, v6_reads, ip_reads, ip_reads_with_cause};

use crate::address::AddressInC;
use crate::fault::{OK, SHORT_BUFFER};
use crate::guesses::Guesses;
use crate::printed_columns::print_rows;
use crate::search_columns::{ranges_find_each, table_find_each, v4_contains, v6_contains};
use crate::structs::{IpInC, IpWithCauseInC, Ipv4InC, Ipv6InC};
use crate::text_columns::read_rows;
use crate::{columns, halves};
use ipnetwork::{Ipv4Network, Ipv6Network};

/// For each address, writes to `answers` at the same index 1 if the address is in the network, else
/// 0. The rest of `answers` is unchanged. Returns `PREFIX` if the prefix length is greater than 32,
/// else `SHORT_BUFFER` if there are fewer answers than addresses.
#[unsafe(no_mangle)]
pub extern "C" fn ipnetwork_v4_contains_column(
    network: &Ipv4InC,
    addresses: &[[u8; 4]],
    answers: &mut [u8],
) -> u32
    ensures { AnswersRows 32 (v4_in network.now) addresses.now answers.old answers.new result }
{
    columns::contains_each::<Ipv4Network, Ipv4InC>(*network, addresses, answers)
}

/// The same for IPv6, for prefix lengths up to 128.
#[unsafe(no_mangle)]
pub extern "C" fn ipnetwork_v6_contains_column(
    network: &Ipv6InC,
    addresses: &[[u8; 16]],
    answers: &mut [u8],
) -> u32
    ensures { AnswersRows 128 (v6_in network.now) addresses.now answers.old answers.new result }
{
    columns::contains_each::<Ipv6Network, Ipv6InC>(*network, addresses, answers)
}

/// For each address, finds whether it is in the set of a list, by an index of the list: answer i
/// and fault i are what `ipnetwork_v4_index_contains` leaves and returns for address i. A refused
/// address does not stop the call. In a list that is not in ascending order, the answer may come
/// from another block than in the call for one address. The rest of `answers` and `faults` is
/// unchanged. Returns `SHORT_BUFFER` if there are fewer answers or faults than addresses.
#[unsafe(no_mangle)]
pub extern "C" fn ipnetwork_v4_index_contains_column(
    blocks: &[Ipv4InC],
    index: &[u32],
    addresses: &[[u8; 4]],
    answers: &mut [u8],
    faults: &mut [u8],
) -> u32
    ensures { SetRows 32 v4_in blocks.now addresses.now (answers.old, faults.old)
        (answers.new, faults.new) result }
{
    if answers.len() < addresses.len() || faults.len() < addresses.len() {
        return SHORT_BUFFER;
    }
    let mut guesses = Guesses::new();
    for (row, address) in addresses.iter().enumerate() {
        let guess = guesses.of_row::<Ipv4Network, Ipv4InC>(blocks, index, addresses, row);
        faults[row] = v4_contains(blocks, index, address, guess, &mut answers[row]);
    }
    OK
}

/// The same for IPv6, by `ipnetwork_v6_index_contains`.
#[unsafe(no_mangle)]
pub extern "C" fn ipnetwork_v6_index_contains_column(
    blocks: &[Ipv6InC],
    index: &[u32],
    addresses: &[[u8; 16]],
    answers: &mut [u8],
    faults: &mut [u8],
) -> u32
    ensures { SetRows 128 v6_in blocks.now addresses.now (answers.old, faults.old)
        (answers.new, faults.new) result }
{
    if answers.len() < addresses.len() || faults.len() < addresses.len() {
        return SHORT_BUFFER;
    }
    let parts = halves::parts_of(blocks, index);
    for (row, address) in addresses.iter().enumerate() {
        faults[row] = v6_contains(blocks, index, parts, address, &mut answers[row]);
    }
    OK
}

/// For each address, finds the place of the longest block of a table that has it, by an index of
/// the table, or by none: place i and fault i are what `ipnetwork_v4_index_find` leaves and returns
/// for address i. An address without a block does not stop the call. The rest of `places` and `faults` is
/// unchanged. Returns `SHORT_BUFFER` if there are fewer places or faults than addresses.
#[unsafe(no_mangle)]
pub extern "C" fn ipnetwork_v4_index_find_column(
    blocks: &[Ipv4InC],
    index: &[u32],
    addresses: &[[u8; 4]],
    places: &mut [usize],
    faults: &mut [u8],
) -> u32
    ensures { TableRows 32 v4_in blocks.now addresses.now (places.old, faults.old)
        (places.new, faults.new) result }
{
    table_find_each::<Ipv4Network, Ipv4InC>(blocks, index, addresses, places, faults)
}

/// The same for IPv6, by `ipnetwork_v6_index_find`.
#[unsafe(no_mangle)]
pub extern "C" fn ipnetwork_v6_index_find_column(
    blocks: &[Ipv6InC],
    index: &[u32],
    addresses: &[[u8; 16]],
    places: &mut [usize],
    faults: &mut [u8],
) -> u32
    ensures { TableRows 128 v6_in blocks.now addresses.now (places.old, faults.old)
        (places.new, faults.new) result }
{
    table_find_each::<Ipv6Network, Ipv6InC>(blocks, index, addresses, places, faults)
}

/// For each address, finds its place by the ranges of a table: place i and fault i are what
/// `ipnetwork_v4_ranges_find` leaves and returns for address i. An address without a block does not
/// stop the call. The rest of `places` and `faults` is unchanged. Returns `SHORT_BUFFER` if there
/// are fewer places or faults than addresses.
#[unsafe(no_mangle)]
pub extern "C" fn ipnetwork_v4_ranges_find_column(
    ranges: &[Ipv4InC],
    range_places: &[usize],
    index: &[u32],
    addresses: &[[u8; 4]],
    places: &mut [usize],
    faults: &mut [u8],
) -> u32
    ensures { RangeRows v4_in ranges.now range_places.now addresses.now (places.old, faults.old)
        (places.new, faults.new) result }
{
    ranges_find_each::<Ipv4Network, Ipv4InC>(addresses, places, faults, ranges, range_places, index)
}

/// The same for IPv6, by `ipnetwork_v6_ranges_find`.
#[unsafe(no_mangle)]
pub extern "C" fn ipnetwork_v6_ranges_find_column(
    ranges: &[Ipv6InC],
    range_places: &[usize],
    index: &[u32],
    addresses: &[[u8; 16]],
    places: &mut [usize],
    faults: &mut [u8],
) -> u32
    ensures { RangeRows v6_in ranges.now range_places.now addresses.now (places.old, faults.old)
        (places.new, faults.new) result }
{
    ranges_find_each::<Ipv6Network, Ipv6InC>(addresses, places, faults, ranges, range_places, index)
}

/// Reads the IPv4 network of each text of a column: row i and fault i are what `ipnetwork_v4_read`
/// leaves and returns for text i. A text that names no network does not stop the call. There is one
/// text less than offsets: text i goes from offset i to offset i + 1. The rest of `networks` and
/// `faults` is unchanged. Returns `NO_OFFSETS` if an offset is less than the one before, or greater
/// than the length of the texts; else `SHORT_BUFFER` if there are fewer rows or faults than texts.
#[unsafe(no_mangle)]
pub extern "C" fn ipnetwork_v4_read_column(
    texts: &[u8],
    offsets: &[u32],
    networks: &mut [Ipv4InC],
    faults: &mut [u8],
) -> u32
    ensures { ReadsColumn v4_reads texts.now offsets.now (networks.old, faults.old)
        (networks.new, faults.new) result }
{
    read_rows(texts, offsets, networks, faults)
}

/// The same for IPv6 networks, by `ipnetwork_v6_read`.
#[unsafe(no_mangle)]
pub extern "C" fn ipnetwork_v6_read_column(
    texts: &[u8],
    offsets: &[u32],
    networks: &mut [Ipv6InC],
    faults: &mut [u8],
) -> u32
    ensures { ReadsColumn v6_reads texts.now offsets.now (networks.old, faults.old)
        (networks.new, faults.new) result }
{
    read_rows(texts, offsets, networks, faults)
}

/// The same for networks of either family, by `ipnetwork_read`.
#[unsafe(no_mangle)]
pub extern "C" fn ipnetwork_read_column(
    texts: &[u8],
    offsets: &[u32],
    networks: &mut [IpInC],
    faults: &mut [u8],
) -> u32
    ensures { ReadsColumn ip_reads texts.now offsets.now (networks.old, faults.old)
        (networks.new, faults.new) result }
{
    read_rows(texts, offsets, networks, faults)
}

/// The same for networks of either family, by `ipnetwork_read_with_cause`.
#[unsafe(no_mangle)]
pub extern "C" fn ipnetwork_read_with_cause_column(
    texts: &[u8],
    offsets: &[u32],
    networks: &mut [IpWithCauseInC],
    faults: &mut [u8],
) -> u32
    ensures { ReadsColumn ip_reads_with_cause texts.now offsets.now (networks.old, faults.old)
        (networks.new, faults.new) result }
{
    read_rows(texts, offsets, networks, faults)
}

/// The same for addresses of either family, by `ipnetwork_address_read`.
#[unsafe(no_mangle)]
pub extern "C" fn ipnetwork_address_read_column(
    texts: &[u8],
    offsets: &[u32],
    addresses: &mut [AddressInC],
    faults: &mut [u8],
) -> u32
    ensures { ReadsColumn ReadsAddress texts.now offsets.now (addresses.old, faults.old)
        (addresses.new, faults.new) result }
{
    read_rows(texts, offsets, addresses, faults)
}

/// Prints the IPv4 network of each row, as `ipnetwork_v4_canonical` does but without a zero byte,
/// to the front of `texts`, one text after the other, and writes their total length in bytes to
/// `length`. Text i goes from offset i to offset i + 1, so there is one offset more than rows.
/// Returns `PREFIX` if the prefix length of a row is greater than 32; `SHORT_BUFFER` if the texts
/// or the offsets have no room, or the texts have more than 2^31 - 1 bytes, and then writes only
/// the length.
#[unsafe(no_mangle)]
pub extern "C" fn ipnetwork_v4_print_column(
    networks: &[Ipv4InC],
    texts: &mut [u8],
    offsets: &mut [u32],
    length: &mut usize,
) -> u32
    ensures { PrintsColumn v4_fits v4_refused v4_text networks.now (
      (texts.old, offsets.old),
      length.old,
    ) ((texts.new, offsets.new), length.new) result }
{
    print_rows(networks, texts, offsets, length)
}

/// The same for IPv6 networks, for prefix lengths up to 128.
#[unsafe(no_mangle)]
pub extern "C" fn ipnetwork_v6_print_column(
    networks: &[Ipv6InC],
    texts: &mut [u8],
    offsets: &mut [u32],
    length: &mut usize,
) -> u32
    ensures { PrintsColumn v6_fits v6_refused v6_text networks.now (
      (texts.old, offsets.old),
      length.old,
    ) ((texts.new, offsets.new), length.new) result }
{
    print_rows(networks, texts, offsets, length)
}

/// The same for networks of either family, as `ipnetwork_canonical` prints them. If rows are
/// refused, the fault is that of the first: `NO_FAMILY` if its family is neither 4 nor 6, else
/// `PREFIX`.
#[unsafe(no_mangle)]
pub extern "C" fn ipnetwork_print_column(
    networks: &[IpInC],
    texts: &mut [u8],
    offsets: &mut [u32],
    length: &mut usize,
) -> u32
    ensures { PrintsColumn ip_fits NoIpNetwork ip_text networks.now (
      (texts.old, offsets.old),
      length.old,
    ) ((texts.new, offsets.new), length.new) result }
{
    print_rows(networks, texts, offsets, length)
}

/// The same for addresses of either family, as `ipnetwork_address_canonical` prints them. Returns
/// `NO_FAMILY` if the number of octets in a struct is neither 4 nor 16.
#[unsafe(no_mangle)]
pub extern "C" fn ipnetwork_address_print_column(
    addresses: &[AddressInC],
    texts: &mut [u8],
    offsets: &mut [u32],
    length: &mut usize,
) -> u32
    ensures { PrintsColumn address_fits NoAddress address_text addresses.now
        ((texts.old, offsets.old), length.old) ((texts.new, offsets.new), length.new) result }
{
    print_rows(addresses, texts, offsets, length)
}
