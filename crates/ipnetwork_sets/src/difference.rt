//! The addresses that are in one set and not in another.
ghost use Rattle.std.specs.Prelude.{◌≡◌, ◌∷◌, ◌≤◌, [], MatchOption, map, option_map};
ghost use Rattle.std.specs.Iterator.{YieldsFirstBy, item_count};
ghost use Rattle.ipnetwork_family.specs.Network.{IsCidrBlock, high};
ghost use Rattle.ipnetwork_blocks.specs.LeastList.{IsLeastList};
ghost use Rattle.std.specs.List.{All};
ghost use Rattle.ipnetwork_sets.specs.Sets.{IsAddressSet, HoldSet, InFirstAlone, InNetworkAlone};
ghost use Rattle.ipnetwork_sets.specs.Private.LeastBlocks.{left_blocks};
ghost use Rattle.ipnetwork_sets.specs.Private.Remainder.{IsAtHand, TakesPart, HasNoPart, IsNextPart};

use crate::free_range::first_free_range;
use crate::held::split_held;
use crate::order::ends_at;
use ipnetwork_blocks::{AddressSpace, HoldsNetwork, block, laws, widest_block};
use std::marker::Model;

/// An iterator over the blocks of a difference of sets, in ascending order. `H` is the type of the
/// elements of the sets' lists: networks, or values that hold them.
///
/// ```
/// let set = AddressSet::from_networks(vec![in rt.alloc(); "192.0.2.0/25".parse::<Ipv4Network>()?]?);
/// let other = AddressSet::from_networks(vec![in rt.alloc(); "192.0.2.32/27".parse()?]?);
/// let left: Difference<'_, Ipv4Network> = set.difference(&other);
/// assert!(rt; left.eq(["192.0.2.0/27".parse()?, "192.0.2.64/26".parse()?]));
/// ```
#[derive(Debug, Drop)]
pub struct Difference<'a, N: AddressSpace, H: HoldsNetwork<N> = N> {
    at_hand: Option<Part<N>>,
    rest: &'a [H],
    cut: &'a [H],
}

/// A block, and a network whose own address is one of the block; the addresses before it are done.
#[derive(Clone, Copy, Debug)]
struct Part<N: AddressSpace> {
    whole: N,
    next: N,
}

// A contract sees an iterator as the list of the blocks still to come.
impl<'a, N: AddressSpace, H: HoldsNetwork<N>> Model for Difference<'a, N, H> {
    ghost use Rattle.std.specs.Prelude.{List, map, option_map};
    ghost use Rattle.std.specs.List.{All};
    ghost use Rattle.ipnetwork_family.specs.Network.{Network};
    ghost use Rattle.ipnetwork_sets.specs.Private.LeastBlocks.{left_blocks};
    ghost use Rattle.ipnetwork_sets.specs.Private.Remainder.{IsAtHand};

    ghost Value = { List Network };

    ghost view = { λ d. left_blocks N.WIDTH
        (option_map (λ p. (N.pair p.whole, (N.pair p.next).address)) d.at_hand)
        (map H.held d.rest.now)
        (map H.held d.cut.now) };

    ghost invariant = { λ d. All H.holds d.rest.now × All H.holds d.cut.now
        × IsAtHand N.WIDTH (option_map (λ p. (N.pair p.whole, (N.pair p.next).address)) d.at_hand)
        (map H.held d.rest.now) (map H.held d.cut.now) };
}

impl<'a, N: AddressSpace, H: HoldsNetwork<N>> Difference<'a, N, H> {
    /// The blocks of the addresses that are in the set of `first` and not in that of `cut`.
    /// `is_address_set` must hold for both lists.
    ///
    /// ```
    /// let list: [Ipv4Network; 1] = ["192.0.2.0/25".parse()?];
    /// let others: [Ipv4Network; 1] = ["192.0.2.64/26".parse()?];
    /// let left = Difference::<'_, Ipv4Network, Ipv4Network>::of(&list, &others);
    /// assert!(rt; left.eq(["192.0.2.0/26".parse()?]));
    /// ```
    pub fn of(first: &'a [H], cut: &'a [H]) -> Self
        requires first { HoldSet N.WIDTH H.holds H.held first.now }
        requires cut { HoldSet N.WIDTH H.holds H.held cut.now }
        ensures { IsLeastList N.WIDTH
            (InFirstAlone N.WIDTH (map H.held first.now) (map H.held cut.now)) result }
    {
        Difference {
            at_hand: None,
            rest: first,
            cut,
        }
    }

    /// The blocks of the addresses that are in the network and not in the cut set.
    pub(crate) fn within(network: N, cut: &'a [H]) -> Self
        requires { HoldSet N.WIDTH H.holds H.held cut.now }
        ensures { IsLeastList N.WIDTH
            (InNetworkAlone N.WIDTH (N.pair network) (map H.held cut.now)) result }
    {
        let whole = block(network);
        Difference {
            at_hand: Some(Part { whole, next: whole }),
            rest: &cut[..0],
            cut,
        }
    }

    // The blocks still to come are those of a set.
    pub(crate) fn law_are_sets(&self)
        ensures { IsAddressSet N.WIDTH self.now }
    {
        let _ = &self.rest;
    }
}

impl<'a, N: AddressSpace, H: HoldsNetwork<N>> Iterator for Difference<'a, N, H> {
    type Item = N;

    ghost next_gives = { YieldsFirstBy N.pair (λ left. left) };

    ghost remaining = { item_count (λ left. left) };

    fn next(&mut self) -> Option<N> {
        let (block, at_hand, rest, cut) = next_left::<N, H>(self.at_hand, self.rest, self.cut)?;
        self.at_hand = at_hand;
        self.rest = rest;
        self.cut = cut;
        Some(block)
    }
}

// The first block that is left, and the state after it.
fn next_left<'a, N: AddressSpace, H: HoldsNetwork<N>>(
    mut at_hand: Option<Part<N>>,
    mut rest: &'a [H],
    mut cut: &'a [H],
) -> Option<(N, Option<Part<N>>, &'a [H], &'a [H])>
    requires rest { All H.holds rest.now }
    requires cut { All H.holds cut.now }
    requires at_hand { IsAtHand N.WIDTH
        (option_map (λ p. (N.pair p.whole, (N.pair p.next).address)) at_hand) (map H.held rest.now)
        (map H.held cut.now) }
    ensures { MatchOption result
        (left_blocks N.WIDTH (option_map (λ p. (N.pair p.whole, (N.pair p.next).address)) at_hand)
        (map H.held rest.entry.now) (map H.held cut.entry.now) ≡ [])
        (λ r. All H.holds r.2.now × All H.holds r.3.now
        × IsAtHand N.WIDTH (option_map (λ p. (N.pair p.whole, (N.pair p.next).address)) r.1)
        (map H.held r.2.now) (map H.held r.3.now)
        × (left_blocks N.WIDTH (option_map (λ p. (N.pair p.whole, (N.pair p.next).address)) at_hand)
        (map H.held rest.entry.now) (map H.held cut.entry.now)
        ≡ N.pair r.0 ∷ left_blocks N.WIDTH
        (option_map (λ p. (N.pair p.whole, (N.pair p.next).address)) r.1)
        (map H.held r.2.now) (map H.held r.3.now))) }
{
    laws::one_block();
    loop {
        let Some((part, after)) = take_part::<N, H>(at_hand, rest) else {
            return None;
        };
        rest = after;
        let (free, left) = first_free_range::<N, H>(part.whole, part.next.ip(), cut);
        cut = left;
        if let Some(range) = free {
            let block = widest_block::<N>(range.0, range.1);
            let next = part_behind(part.whole, block);
            return Some((block, next, rest, cut));
        }
        at_hand = None;
    }
}

// The current part or, if there is none, the first of the remaining blocks as a whole; and the
// blocks that remain after it.
fn take_part<'a, N: AddressSpace, H: HoldsNetwork<N>>(
    at_hand: Option<Part<N>>,
    rest: &'a [H],
) -> Option<(Part<N>, &'a [H])>
    requires { All H.holds rest.now }
    ensures { MatchOption result
        (HasNoPart (option_map (λ p. (N.pair p.whole, (N.pair p.next).address)) at_hand)
        (map H.held rest.now))
        (λ r. All H.holds r.1.now
        × TakesPart (option_map (λ p. (N.pair p.whole, (N.pair p.next).address)) at_hand)
        (map H.held rest.now) (N.pair r.0.whole, (N.pair r.0.next).address) (map H.held r.1.now)) }
{
    match at_hand {
        Some(part) => Some((part, rest)),
        None => {
            let Some((whole, after)) = split_held::<N, H>(rest) else {
                return None;
            };
            let part = Part { whole, next: whole };
            Some((part, after))
        }
    }
}

// The part of the whole after the block; `None` if the whole ends with it.
fn part_behind<N: AddressSpace>(whole: N, block: N) -> Option<Part<N>>
    requires whole { IsCidrBlock N.WIDTH (N.pair whole) }
    requires within { high N.WIDTH (N.pair block) ≤ high N.WIDTH (N.pair whole) }
    ensures { IsNextPart N.WIDTH (N.pair whole) (N.pair block)
        (option_map (λ p. (N.pair p.whole, (N.pair p.next).address)) result) }
{
    let last = block.broadcast();
    if ends_at(whole, last) {
        return None;
    }
    let Some(next) = N::next_address(last) else {
        unreachable!()
    };
    Some(Part {
        whole,
        next: N::block_at(next, N::WIDTH),
    })
}
