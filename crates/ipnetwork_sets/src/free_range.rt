//! The ranges of a block that are not in a set.
ghost use Rattle.std.specs.Prelude.{◌+◌, ◌<◌, MatchOption, length, map};
ghost use Rattle.ipnetwork_family.specs.Network.{IsCidrBlock, Member, high};
ghost use Rattle.ipnetwork_sets.specs.Sets.{HoldSet};
ghost use Rattle.ipnetwork_sets.specs.Private.Remainder.{IsFreeRange, Skips};

use crate::held::split_held;
use crate::order::is_before;
use ipnetwork_blocks::{AddressSpace, HoldsNetwork, laws};

/// The first and the last address of the first range of the whole, from `from` on, that has no
/// address of the cut set, or `None` if there is none; and what is left of the cut set. The range is
/// as long as possible.
pub(crate) fn first_free_range<'a, N: AddressSpace, H: HoldsNetwork<N>>(
    whole: N,
    from: N::Addr,
    cut: &'a [H],
) -> (Option<(N::Addr, N::Addr)>, &'a [H])
    requires whole { IsCidrBlock N.WIDTH (N.pair whole) }
    requires from { Member N.WIDTH (N.pair whole) (N.number from) }
    requires set { HoldSet N.WIDTH H.holds H.held cut.now }
    ensures set { HoldSet N.WIDTH H.holds H.held result.1.now }
    ensures free { MatchOption result.0
        (Skips N.WIDTH (N.pair whole) (N.number from) (map H.held cut.now)
        (high N.WIDTH (N.pair whole) + 1) (map H.held result.1.now))
        (λ range. IsFreeRange N.WIDTH (N.pair whole) (N.number range.0) (N.number range.1)
        (map H.held result.1.now)
        × Skips N.WIDTH (N.pair whole) (N.number from) (map H.held cut.now)
        (N.number range.0) (map H.held result.1.now)) }
{
    laws::one_block();
    let last = whole.broadcast();
    let mut at = from;
    let mut left = cut;
    loop {
        let Some(taken) = split_held::<N, H>(left) else {
            return (Some((at, last)), left);
        };
        let begin = taken.0.ip();
        let end = taken.0.broadcast();
        if is_before::<N>(end, at) {
            left = taken.1;
        } else if is_before::<N>(last, begin) {
            return (Some((at, last)), left);
        } else if is_before::<N>(at, begin) {
            let Some(before) = N::previous_address(begin) else {
                unreachable!()
            };
            return (Some((at, before)), left);
        } else if is_before::<N>(end, last) {
            let Some(next) = N::next_address(end) else {
                unreachable!()
            };
            at = next;
            left = taken.1;
        } else {
            return (None, left);
        }
    }
}
