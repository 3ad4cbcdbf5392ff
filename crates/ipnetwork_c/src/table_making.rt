//! Makes tables of networks in any order.
ghost use Rattle.std.specs.Prelude.{◌≡◌, ℕ, ◌<◌, length, map, slice_index, slice_index_or};
ghost use Rattle.std.specs.List.{All, range_with_len};
ghost use Rattle.std.specs.List.Sorted.{IsPermutation, IsSorted};
ghost use Rattle.ipnetwork_family.specs.Network.{Network, IsCidrBlock};
ghost use Rattle.ipnetwork_c.specs.Tables.{MakesTable, row_block};
ghost use Rattle.ipnetwork_c.specs.Private.Tables.{place_cmp};

use crate::fault::{OK, PREFIX, SHORT_BUFFER};
use crate::listed::{Listed, all_fit};
use ipnetwork_blocks::AddressSpace;
use std::cmp::Ordering;

/// Sorts the places of the networks by their blocks, and puts the blocks in that order.
pub(crate) fn make<N: AddressSpace, H: Listed<N>>(
    networks: &[H],
    blocks: &mut [H],
    places: &mut [usize],
) -> u32
    ensures { MakesTable N.WIDTH H.held networks.now (blocks.old, places.old)
        (blocks.new, places.new) result }
{
    if !all_fit::<N, H>(networks) {
        return PREFIX;
    }
    let count = networks.len();
    if blocks.len() < count || places.len() < count {
        return SHORT_BUFFER;
    }
    put_places(&mut places[..count]);
    sort_places::<N, H>(networks, &mut places[..count]);
    put_rows::<N, H>(networks, &places[..count], &mut blocks[..count]);
    OK
}

// Sets each place to its own index.
fn put_places(places: &mut [usize])
    ensures { places.new ≡ range_with_len 0 (length places.old) }
{
    for place in 0..places.len() {
        places[place] = place;
    }
}

// Sorts places by the blocks of the networks at them.
fn sort_places<N: AddressSpace, H: Listed<N>>(networks: &[H], places: &mut [usize])
    requires { All H.holds networks.now }
    ensures permutation { IsPermutation places.old places.new }
    ensures sorted { IsSorted (place_cmp N.WIDTH (map H.held networks.now)) places.new }
{
    places.sort_unstable_by(|first, second| order_between::<N, H>(networks, *first, *second));
}

// Returns the order of two places: by the blocks of their networks, and then by the places.
fn order_between<N: AddressSpace, H: Listed<N>>(
    networks: &[H],
    first: usize,
    second: usize,
) -> Ordering
    requires { All H.holds networks.now }
    ensures { result ≡ place_cmp N.WIDTH (map H.held networks.now) first second }
{
    let one = block_in::<N, H>(networks, first);
    let other = block_in::<N, H>(networks, second);
    one.cmp(&other).then(first.cmp(&second))
}

// Returns the block of the network at a place; past the last place, the network of all addresses.
fn block_in<N: AddressSpace, H: Listed<N>>(networks: &[H], place: usize) -> N
    requires { All H.holds networks.now }
    ensures made { N.pair result ≡ row_block N.WIDTH (map H.held networks.now) place }
    ensures block { IsCidrBlock N.WIDTH (N.pair result) }
{
    let network = match networks.get(place) {
        Some(held) => (*held).held_network(),
        None => N::whole(),
    };
    N::block_at(network.ip(), network.prefix())
}

// Puts the blocks of the networks at these places into `blocks`, one after the other.
fn put_rows<N: AddressSpace, H: Listed<N>>(networks: &[H], places: &[usize], blocks: &mut [H])
    requires held { All H.holds networks.now }
    requires room { length blocks.old ≡ length places.now }
    ensures rows { length blocks.new ≡ length blocks.old }
    ensures put { (k : ℕ) (d : Network) → k < length places.now
        → slice_index_or (map H.held blocks.new) k d ≡ row_block N.WIDTH (map H.held networks.now)
        (slice_index places.now k) }
    ensures blocks { All (IsCidrBlock N.WIDTH) (map H.held blocks.new) }
{
    for row in 0..places.len() {
        blocks[row] = H::holding(block_in::<N, H>(networks, places[row]));
    }
}
