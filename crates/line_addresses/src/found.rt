//! The next address of a line.
ghost use Rattle.std.specs.Prelude.{◌≡◌, ◌≤◌, [], IfSome, MatchOption, length, drop};
ghost use Rattle.line_addresses.specs.Addresses.{addresses_of};
ghost use Rattle.line_addresses.specs.Found.{IsNextOf, StopsARun};

use crate::run::{address_in, run_end};
use ipnetwork_addr::IpAddr;

/// An address of a line, and the position of its text.
#[derive(Clone, Copy, Debug, PartialEq, Eq)]
pub struct Found {
    /// The address.
    pub address: IpAddr,
    /// The index of the first byte of its text.
    pub start: usize,
    /// The index after the last byte of its text.
    pub end: usize,
    /// The index from which to look for the next address.
    pub next: usize,
}

/// Returns the first address of a line from the index `from` on, or `None` if there is none. `from`
/// must be at most the length of the line. What precedes it is ignored: the rest is read as a line.
///
/// ```
/// let line = b"SRC=10.1.1.1 DST=[2001:db8::1]:443";
/// let first = next_address(line, 0);
/// assert_eq!(rt; first, Some(Found { address: "10.1.1.1".parse()?, start: 4, end: 12, next: 12 }));
/// let second = next_address(line, 12);
/// assert_eq!(rt; second, Some(Found { address: "2001:db8::1".parse()?, start: 18, end: 29, next: 29 }));
/// assert_eq!(rt; next_address(line, 29), None);
/// ```
pub fn next_address(line: &[u8], from: usize) -> Option<Found>
    requires { from ≤ length line.now }
    ensures first { MatchOption result (addresses_of (drop from line.now) ≡ [])
        (IsNextOf addresses_of line.now from) }
    ensures stops { IfSome result (StopsARun line.now) }
{
    let mut at = from;
    'runs: while at < line.len() {
        let end = run_end(line, at);
        if end == at {
            at += 1;
            continue 'runs;
        }
        if let Some(found) = address_in(&line[at..end]) {
            return Some(Found {
                address: found.address,
                start: at + found.start,
                end: at + found.end,
                next: end,
            });
        }
        // The run ends at the line's end or at a byte that is not a run byte.
        at = end + 1;
    }
    None
}
