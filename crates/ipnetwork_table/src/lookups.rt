//! Look-ups of the longest stored block that holds an address. Only `Values` can search, and each of
//! its searches adds one to a count that nothing here can begin.
ghost use Rattle.std.specs.Prelude.{◌≡◌, ◌+◌, ◌<◌, ◌≤◌, ◌^◌, MatchOption};
ghost use Rattle.ipnetwork_table.specs.Table.{HasOnlyBlocks, Finds};
ghost use Rattle.ipnetwork_table.specs.Private.Lengths.{CountsLengths, NoneUsedUpTo, IsLastUsedUpTo};

use crate::common_bits::shared_length;
use crate::table::{Searches, Values};
use ipnetwork_family::CidrNetwork;

/// The stored block with the greatest prefix length that holds the address, and its value, if any,
/// found with at most `WIDTH + 1` searches; `used[p]` is the number of stored blocks with prefix
/// length p.
///
/// Each search is for a block that holds the address, stored or not, and finds the last stored
/// block that does not come after it. If that holds the address, it is the longest that does, since
/// a longer one would come after it. Otherwise, a stored block that holds the address also holds
/// the one that was found, so its prefix has at most the bits that the addresses of both share. The
/// next search is for the block of the greatest prefix length in use that is not above their
/// number.
pub(crate) fn longest_holding<N: CidrNetwork, V: Copy>(
    values: &Values<N, V>,
    used: &[usize; 256],
    searches: &mut Searches,
    addr: N::Addr,
) -> Option<(N, V)>
    requires blocks { HasOnlyBlocks N.WIDTH values.now }
    requires lengths { CountsLengths values.now used.now }
    requires room { searches.old + 256 < 2 ^ 32 }
    ensures answer { Finds N.pair N.WIDTH values.now (N.number addr) result }
    ensures at_most { searches.new ≤ searches.old + N.WIDTH + 1 }
{
    let mut most = N::WIDTH;
    'shorter: loop {
        let Some(end) = N::block(addr, most) else {
            unreachable!()
        };
        let (near, value) = values.last_up_to(searches, end)?;
        if near.contains(addr) {
            return Some((near, value));
        }
        let length = last_used_up_to(used, shared_length(end, near))?;
        most = length;
    }
}

// The greatest prefix length in use that is not above `most`, if any.
fn last_used_up_to(used: &[usize; 256], most: u8) -> Option<u8>
    ensures { MatchOption result (NoneUsedUpTo used.now most)
        (λ length. IsLastUsedUpTo used.now most length) }
{
    let mut length = most;
    'shorter: loop {
        if used[length as usize] > 0 {
            return Some(length);
        }
        if length == 0 {
            return None;
        }
        length -= 1;
    }
}

/// What `longest_holding` finds, by a search for the block of each prefix length in turn, from
/// `WIDTH` down.
pub(crate) fn longest_in_turn<N: CidrNetwork, V: Copy>(
    values: &Values<N, V>,
    searches: &mut Searches,
    addr: N::Addr,
) -> Option<(N, V)>
    requires blocks { HasOnlyBlocks N.WIDTH values.now }
    requires room { searches.old + 256 < 2 ^ 32 }
    ensures answer { Finds N.pair N.WIDTH values.now (N.number addr) result }
    ensures counted { MatchOption result (searches.new ≡ searches.old + N.WIDTH + 1)
        (λ found. searches.new + (N.pair found.0).prefix ≡ searches.old + N.WIDTH + 1) }
{
    let mut prefix = N::WIDTH;
    'shorter: loop {
        let Some(block) = N::block(addr, prefix) else {
            unreachable!()
        };
        if let Some(value) = values.probe(searches, block) {
            return Some((block, value));
        }
        if prefix == 0 {
            return None;
        }
        prefix -= 1;
    }
}
