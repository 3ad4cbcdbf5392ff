//! The union of two sets.
ghost use Rattle.std.specs.Prelude.{◌≡◌, ◌+◌, ◌<◌, ◌≤◌, ◌∷◌, [], MatchOption, length, map};
ghost use Rattle.std.specs.Iterator.{YieldsFirstBy, item_count};
ghost use Rattle.ipnetwork_family.specs.Network.{IsCidrBlock, low};
ghost use Rattle.ipnetwork_blocks.specs.LeastList.{IsLeastList};
ghost use Rattle.std.specs.List.{All};
ghost use Rattle.ipnetwork_sets.specs.Sets.{IsAddressSet, HoldSet, InEither};
ghost use Rattle.ipnetwork_sets.specs.Private.Together.{at_hand, IsRun, IsFirst, EndsAt, IsLater};

use crate::held::split_held;
use crate::order::{ends_at, goes_on};
use ipnetwork_blocks::{AddressSpace, HoldsNetwork, RangeBlocks, laws, range_to_blocks};
use std::marker::Model;

/// An iterator over the blocks of the union of two sets, in ascending order. `H` is the type of the
/// elements of the sets' lists: networks, or values that hold them.
///
/// ```
/// let set = AddressSet::from_networks(vec![in rt.alloc(); "192.0.2.0/25".parse::<Ipv4Network>()?]?);
/// let other = AddressSet::from_networks(vec![in rt.alloc(); "192.0.3.0/24".parse()?]?);
/// let blocks: Union<'_, Ipv4Network> = set.union_blocks(&other);
/// assert!(rt; blocks.eq(["192.0.2.0/25".parse()?, "192.0.3.0/24".parse()?]));
/// ```
#[derive(Drop)]
#[derive_where(Debug; N, N::Addr, H)]
pub struct Union<'a, N: AddressSpace, H: HoldsNetwork<N> = N> {
    run: Option<RangeBlocks<N>>,
    first: &'a [H],
    second: &'a [H],
}

// A contract sees an iterator as the list of the blocks still to come: those of the current run,
// and those of what is left of both sets after it.
impl<'a, N: AddressSpace, H: HoldsNetwork<N>> Model for Union<'a, N, H> {
    ghost use Rattle.std.specs.Prelude.{List, ◌++◌, map};
    ghost use Rattle.ipnetwork_family.specs.Network.{Network};
    ghost use Rattle.ipnetwork_sets.specs.Sets.{IsAddressSet, HoldSet};
    ghost use Rattle.ipnetwork_sets.specs.Private.LeastBlocks.{either_blocks};
    ghost use Rattle.ipnetwork_sets.specs.Private.Together.{at_hand};

    ghost Value = { List Network };

    ghost view = { λ u. at_hand u.run ++ either_blocks N.WIDTH (map H.held u.first.now)
        (map H.held u.second.now) };

    ghost invariant = { λ u. HoldSet N.WIDTH H.holds H.held u.first.now
        × HoldSet N.WIDTH H.holds H.held u.second.now
        × IsAddressSet N.WIDTH
        (at_hand u.run ++ either_blocks N.WIDTH (map H.held u.first.now)
        (map H.held u.second.now)) };
}

impl<'a, N: AddressSpace, H: HoldsNetwork<N>> Union<'a, N, H> {
    /// The blocks of the addresses that are in the set of one of the lists or of both.
    /// `is_address_set` must hold for both lists.
    ///
    /// ```
    /// let list: [Ipv4Network; 1] = ["192.0.2.0/25".parse()?];
    /// let others: [Ipv4Network; 1] = ["192.0.2.128/25".parse()?];
    /// let both = Union::<'_, Ipv4Network, Ipv4Network>::of(&list, &others);
    /// assert!(rt; both.eq(["192.0.2.0/24".parse()?]));
    /// ```
    pub fn of(first: &'a [H], second: &'a [H]) -> Self
        requires first { HoldSet N.WIDTH H.holds H.held first.now }
        requires second { HoldSet N.WIDTH H.holds H.held second.now }
        ensures { IsLeastList N.WIDTH
            (InEither N.WIDTH (map H.held first.now) (map H.held second.now)) result }
    {
        Union {
            run: None,
            first,
            second,
        }
    }

    // The blocks still to come are those of a set.
    pub(crate) fn law_are_sets(&self)
        ensures { IsAddressSet N.WIDTH self.now }
    {
        let _ = &self.run;
    }
}

impl<'a, N: AddressSpace, H: HoldsNetwork<N>> Iterator for Union<'a, N, H> {
    type Item = N;

    ghost next_gives = { YieldsFirstBy N.pair (λ left. left) };

    ghost remaining = { item_count (λ left. left) };

    fn next(&mut self) -> Option<N> {
        laws::one_block();
        laws::ranges_are_shortest();
        if let Some(block) = next_at_hand(&mut self.run) {
            return Some(block);
        }
        let Some(found) = next_run::<N, H>(self.first, self.second) else {
            return None;
        };
        self.first = found.2;
        self.second = found.3;
        if ends_at(found.0, found.1) {
            self.run = None;
            return Some(found.0);
        }
        self.run = range_to_blocks(found.0.network(), found.1);
        next_at_hand(&mut self.run)
    }
}

// The next block of the current run, if there is one.
fn next_at_hand<N: AddressSpace>(run: &mut Option<RangeBlocks<N>>) -> Option<N>
    ensures { MatchOption result ((at_hand run.old ≡ []) × (at_hand run.new ≡ []))
        (λ block. at_hand run.old ≡ N.pair block ∷ at_hand run.new) }
{
    match run {
        Some(blocks) => blocks.next(),
        None => None,
    }
}

// The first run of the union, up to the first gap: the block that it begins with, its last address,
// and what is left of both sets after it.
#[inline(always)]
fn next_run<'a, N: AddressSpace, H: HoldsNetwork<N>>(
    first: &'a [H],
    second: &'a [H],
) -> Option<(N, N::Addr, &'a [H], &'a [H])>
    requires first { HoldSet N.WIDTH H.holds H.held first.now }
    requires second { HoldSet N.WIDTH H.holds H.held second.now }
    ensures { MatchOption result ((map H.held first.now ≡ []) × (map H.held second.now ≡ []))
        (λ r. IsCidrBlock N.WIDTH (N.pair r.0)
        × IsRun N.WIDTH (map H.held first.now) (map H.held second.now) (low N.WIDTH (N.pair r.0))
        (N.number r.1) (map H.held r.2.now) (map H.held r.3.now)
        × All H.holds r.2.now × All H.holds r.3.now) }
{
    laws::one_block();
    let Some(taken) = take_first::<N, H>(first, second) else {
        return None;
    };
    let start = taken.0;
    let mut last = start.broadcast();
    let mut first_left = taken.1;
    let mut second_left = taken.2;
    loop {
        if let Some(next) = take_next::<N, H>(last, first_left) {
            last = later::<N>(last, next.0.broadcast());
            first_left = next.1;
        } else if let Some(next) = take_next::<N, H>(last, second_left) {
            last = later::<N>(last, next.0.broadcast());
            second_left = next.1;
        } else {
            return Some((start, last, first_left, second_left));
        }
    }
}

// The first of the blocks and the others, if there is no gap between the address `last` and that
// block.
#[inline(always)]
fn take_next<'a, N: AddressSpace, H: HoldsNetwork<N>>(
    last: N::Addr,
    blocks: &'a [H],
) -> Option<(N, &'a [H])>
    requires { All H.holds blocks.now }
    ensures { MatchOption result (EndsAt N.WIDTH (N.number last) (map H.held blocks.now))
        (λ r. (map H.held blocks.now ≡ N.pair r.0 ∷ map H.held r.1.now)
        × ((N.pair r.0).address ≤ N.number last + 1)
        × All H.holds r.1.now × (length r.1.now < length blocks.now)) }
{
    let Some((block, after)) = split_held::<N, H>(blocks) else {
        return None;
    };
    if goes_on(last, block) {
        Some((block, after))
    } else {
        None
    }
}

// Of the first blocks of both sets, the one that begins first, and the two lists without it.
fn take_first<'a, N: AddressSpace, H: HoldsNetwork<N>>(
    first: &'a [H],
    second: &'a [H],
) -> Option<(N, &'a [H], &'a [H])>
    requires first { All H.holds first.now }
    requires second { All H.holds second.now }
    ensures { MatchOption result ((map H.held first.now ≡ []) × (map H.held second.now ≡ []))
        (λ r. IsFirst (map H.held first.now) (map H.held second.now) (N.pair r.0)
        (map H.held r.1.now) (map H.held r.2.now)
        × All H.holds r.1.now × All H.holds r.2.now) }
{
    let Some(one) = split_held::<N, H>(first) else {
        let other = split_held::<N, H>(second)?;
        return Some((other.0, first, other.1));
    };
    let Some(other) = split_held::<N, H>(second) else {
        return Some((one.0, one.1, second));
    };
    if one.0.ip() <= other.0.ip() {
        Some((one.0, one.1, second))
    } else {
        Some((other.0, first, other.1))
    }
}

// The later of two addresses.
fn later<N: AddressSpace>(first: N::Addr, second: N::Addr) -> N::Addr
    ensures { IsLater (N.number first) (N.number second) (N.number result) }
{
    if first < second { second } else { first }
}
