//! Lists of values that hold networks.
ghost use Rattle.std.specs.Prelude.{◌≡◌, ◌<◌, ◌∷◌, [], MatchOption, drop, length, map};
ghost use Rattle.std.specs.Int.{from_bool};
ghost use Rattle.std.specs.List.{All};

use ipnetwork_blocks::{AddressSpace, HoldsNetwork};

/// The network that the first value holds, and the other values; `None` if there are no values.
#[inline(always)]
pub(crate) fn split_held<'a, N: AddressSpace, H: HoldsNetwork<N>>(
    list: &'a [H],
) -> Option<(N, &'a [H])>
    requires { All H.holds list.now }
    ensures { MatchOption result (map H.held list.now ≡ [])
        (λ r. (map H.held list.now ≡ N.pair r.0 ∷ map H.held r.1.now) × All H.holds r.1.now
        × (length r.1.now < length list.now)) }
{
    let Some((first, others)) = list.split_first() else {
        return None;
    };
    Some(((*first).held_network(), others))
}

/// The values after the first if `skips` is true, else all of them. Without a branch, since nothing
/// predicts which of two lists is the next to be skipped in.
#[inline(always)]
pub(crate) fn skip_first_if<'a, H>(list: &'a [H], skips: bool) -> &'a [H]
    requires { 0 < length list.now }
    ensures { result.now ≡ drop (from_bool skips) list.now }
{
    &list[usize::from(skips)..]
}
