//! The number of leading bits that the addresses of two networks share.
ghost use Rattle.std.specs.Prelude.{ℕ, ◌≤◌};
ghost use Rattle.ipnetwork_family.specs.Network.{Member};
ghost use Rattle.ipnetwork_table.specs.Private.Nearest.{ShareAtMost};

use ipnetwork_family::CidrNetwork;

/// The number of leading bits that the addresses of two networks share, found by bisection.
#[tactic(auto, using(crate::proofs::Nearest::share_none))]
pub(crate) fn shared_length<N: CidrNetwork>(one: N, other: N) -> u8
    ensures within { result ≤ N.WIDTH }
    ensures shared { Member N.WIDTH (record { address = (N.pair one).address; prefix = result })
        (N.pair other).address }
    ensures no_more { ShareAtMost N.WIDTH (N.pair one).address (N.pair other).address result }
{
    let first = one.ip();
    let second = other.ip();
    let mut least = 0;
    let mut most = N::WIDTH;
    'halves: while least < most {
        let middle = most - (most - least) / 2;
        let Some(block) = N::block(first, middle) else {
            unreachable!()
        };
        if block.contains(second) {
            least = middle;
        } else {
            most = middle - 1;
        }
    }
    most
}
