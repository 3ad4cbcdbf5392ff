//! The places of networks that are sought, by the numbers of their ends: those that an entry meets
//! are found without looking at the others.
ghost use Rattle.std.specs.Prelude.{◌≡◌, ◌≤◌, ◌<◌, ◌+◌, ◌++◌, IfOk, length, map, slice_index_or, take};
ghost use Rattle.cidr_merge.specs.Private.SoughtPlaces.{AreAscending, AreFound, AreOuters, Place};
ghost use Rattle.cidr_merge.specs.Private.SoughtPlaces.{ArePlacesOf, AreQuery, is_v6, number_of};
ghost use Rattle.cidr_merge.specs.Private.PlacesFound.{AreUpTo, EndBy, HaveReaching};

use crate::placed::ends_of;
use crate::query::Query;
use crate::sought::Sought;
use ipnetwork::IpAddr;
use lists::Entry;
use std::alloc::{AllocError, Global};

/// The numbers of the first and the last address of a network, and its place among those that are
/// sought.
pub(crate) type Place = (u128, u128, usize);

/// The places of the networks of a family.
#[derive(Drop)]
pub(crate) struct Places {
    /// The places, by ascending numbers.
    pub sorted: Vec<Place>,
    /// For each of them the index after the last place before it that ends later. Of networks, that
    /// is the least one that has all of its addresses and more.
    pub outers: Vec<usize>,
}

/// The places of the networks of a family, IPv6 or IPv4.
pub(crate) fn places_of(alloc: Global, sought: &[Sought], of_v6: bool) -> Result<Places, AllocError>
    ensures { IfOk result (λ places. ArePlacesOf of_v6 sought.now places) }
{
    let mut sorted = Vec::new(alloc);
    for place in 0..sought.len() {
        let network = &sought[place].network;
        let first = network.network();
        if is_v6(&first) != of_v6 {
            continue;
        }
        sorted.push((number_of(&first), number_of(&network.broadcast()), place))?;
    }
    sorted.sort_unstable();
    let outers = outers_of(alloc, sorted.as_slice())?;
    Ok(Places { sorted, outers })
}

// For each of places the index after the last place before it that ends later.
fn outers_of(alloc: Global, places: &[Place]) -> Result<Vec<usize>, AllocError>
    ensures many { IfOk result (λ outers. length outers.items ≡ length places.now) }
    ensures outers { IfOk result (λ outers. AreOuters places.now outers.items) }
{
    let mut outers = Vec::new(alloc);
    for at in 0..places.len() {
        let outer = outer_of(places, outers.as_slice(), at);
        outers.push(outer)?;
    }
    Ok(outers)
}

// The index after the last place before this one that ends later. Each step passes over all that
// the place passed over, so that all places together take few steps.
fn outer_of(places: &[Place], outers: &[usize], at: usize) -> usize
    requires within { at < length places.now }
    requires many { length outers.now ≡ at }
    requires outers { AreOuters places.now outers.now }
    ensures up_to { result ≤ at }
    ensures skips { (d : Place) → EndBy places.now result at (slice_index_or places.now at d).1 }
{
    let last = places[at].1;
    let mut outer = at;
    while outer > 0 && places[outer - 1].1 <= last {
        outer = outers[outer - 1];
    }
    outer
}

/// Puts the places of the networks that an entry meets into the front of a buffer, ascending, and
/// returns how many there are.
pub(crate) fn put_found(query: &Query, entry: &Entry, buffer: &mut [usize]) -> usize
    requires query { AreQuery query.now }
    requires room { length query.now.sought.items ≤ length buffer.old }
    ensures within { result ≤ length buffer.old }
    ensures found { AreFound entry.now query.now.sought.items (take result buffer.new) }
{
    let (first, last) = ends_of(entry);
    let places = places_in(query, is_v6(&first));
    let sorted = places.sorted.as_slice();
    let first = number_of(&first);
    let begin = first_from(sorted, first);
    let count = put_reaching(sorted, places.outers.as_slice(), begin, first, buffer);
    let found = up_to(&sorted[begin..], number_of(&last));
    let total = put_all(found, count, buffer);
    buffer[..total].sort_unstable();
    total
}

// The places of the networks of a family, IPv6 or IPv4.
fn places_in(query: &Query, of_v6: bool) -> &Places
    requires { AreQuery query.now }
    ensures { ArePlacesOf of_v6 query.now.sought.items result.now }
{
    if of_v6 { &query.v6 } else { &query.v4 }
}

// Puts the places before an index whose networks reach a number into the front of a buffer, and
// returns how many there are. Those that enclose one another are taken in turn, from the inmost.
fn put_reaching(
    places: &[Place],
    outers: &[usize],
    begin: usize,
    first: u128,
    buffer: &mut [usize],
) -> usize
    requires within { begin ≤ length places.now }
    requires many { length outers.now ≡ length places.now }
    requires outers { AreOuters places.now outers.now }
    requires room { begin ≤ length buffer.old }
    ensures few { result ≤ begin }
    ensures found { HaveReaching places.now 0 begin first (take result buffer.new) }
{
    let mut count = 0;
    let mut end = begin;
    while end > 0 {
        if places[end - 1].1 >= first {
            buffer[count] = places[end - 1].2;
            count += 1;
            end -= 1;
        } else {
            end = outers[end - 1];
        }
    }
    count
}

// Puts all of these places into a buffer, after the first `count`, and returns how many there are
// then.
fn put_all(found: &[Place], count: usize, buffer: &mut [usize]) -> usize
    requires { count + length found.now ≤ length buffer.old }
    ensures total { result ≡ count + length found.now }
    ensures put { take result buffer.new
        ≡ take count buffer.old ++ map (λ place. place.2) found.now }
{
    for at in 0..found.len() {
        buffer[count + at] = found[at].2;
    }
    count + found.len()
}

/// How many bits are half of those of a number.
const HALF: u32 = 64;

// The index of the first of places whose numbers are not below this one. The numbers of most
// entries end in zeros: it is enough to search by half of the bits, which takes a third of the time.
fn first_from(places: &[Place], first: u128) -> usize
    ensures { result ≤ length places.now }
{
    let high = first_by(places, first, HALF);
    if first % (1 << HALF) == 0 {
        high
    } else {
        high + first_by(&places[high..], first, 0)
    }
}

// The index of the first of places whose numbers are not below this one, if so many of the last
// bits are left out.
#[inline(always)]
fn first_by(places: &[Place], first: u128, bits: u32) -> usize
    requires { bits < 128 }
    ensures { result ≤ length places.now }
{
    let first = first >> bits;
    places.partition_point(
        |place: &Place| -> bool
            requires { bits < 128 }
        { place.0 >> bits < first },
    )
}

// The first of places, up to this number.
fn up_to(places: &[Place], last: u128) -> &[Place]
    requires { AreAscending places.now }
    ensures { AreUpTo places.now last result.now }
{
    let mut count = 0;
    while count < places.len() && places[count].0 <= last {
        count += 1;
    }
    &places[..count]
}

// Whether an address is an IPv6 address.
fn is_v6(address: &IpAddr) -> bool
    ensures { result ≡ is_v6 address.now }
{
    matches!(address, IpAddr::V6(_))
}

// The number of an address, with the bits of an IPv4 address first.
fn number_of(address: &IpAddr) -> u128
    ensures { result ≡ number_of address.now }
{
    match address {
        IpAddr::V4(address) => u128::from(u32::from(*address)) << 96,
        IpAddr::V6(address) => u128::from(*address),
    }
}
