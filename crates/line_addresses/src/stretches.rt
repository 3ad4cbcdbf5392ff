//! The next network or address of a line.
ghost use Rattle.std.specs.Prelude.{◌≡◌, ◌≤◌, ◌<◌, [], Bool, true, false, MatchOption, length, drop, not};
ghost use Rattle.std.specs.List.{All};
ghost use Rattle.line_addresses.specs.Found.{IsNextOf};
ghost use Rattle.line_addresses.specs.Networks.{found_of, is_stretch_byte, networks_in, networks_of};
ghost use Rattle.line_addresses.specs.Private.LineRuns.{IsStretchEnd};

use crate::byte_kind::is_run_byte;
use crate::found::{Found, next_address};
use crate::network::network_in;
use crate::run::{address_in, run_end};

/// Returns the first network or address of a line from the index `from` on, or `None` if there is
/// none. `from` must be at most the length of the line. A network is returned as its address, host
/// bits kept, and the position of its text. What precedes `from` is ignored: the rest is read as a
/// line.
///
/// ```
/// let line = b"from 10.1.2.3/16 to 10.1.1.1/x";
/// let first = next_network(line, 0);
/// assert_eq!(rt; first, Some(Found { address: "10.1.2.3".parse()?, start: 5, end: 16, next: 16 }));
/// let second = next_network(line, 16);
/// assert_eq!(rt; second, Some(Found { address: "10.1.1.1".parse()?, start: 20, end: 28, next: 28 }));
/// assert_eq!(rt; next_network(line, 28), None);
/// ```
pub fn next_network(line: &[u8], from: usize) -> Option<Found>
    requires { from ≤ length line.now }
    ensures { MatchOption result (networks_of (drop from line.now) ≡ [])
        (IsNextOf networks_of line.now from) }
{
    let mut at = from;
    'stretches: while at < line.len() {
        if line[at] == b'/' {
            // No network begins with `/`, so the rest of the stretch has only addresses.
            let run = run_end(line, at + 1);
            if let Some(found) = address_in(&line[at + 1..run]) {
                return Some(Found {
                    address: found.address,
                    start: at + 1 + found.start,
                    end: at + 1 + found.end,
                    next: run,
                });
            }
            at = run;
            continue 'stretches;
        }
        let end = stretch_end(line, at);
        if end == at {
            at += 1;
            continue 'stretches;
        }
        if let Some(found) = first_of(&line[at..end]) {
            return Some(Found {
                address: found.address,
                start: at + found.start,
                end: at + found.end,
                next: at + found.next,
            });
        }
        at = end;
    }
    None
}

/// Returns the first address of a line from the index `from` on, or, if `networks`, the first
/// network or address; `None` if there is none. `from` must be at most the length of the line.
///
/// ```
/// let line = b"10.1.0.0/16";
/// assert_eq!(rt; next_found(line, 0, false).map(|found| found.end), Some(8));
/// assert_eq!(rt; next_found(line, 0, true).map(|found| found.end), Some(11));
/// ```
#[inline(always)]
pub fn next_found(line: &[u8], from: usize, networks: bool) -> Option<Found>
    requires { from ≤ length line.now }
    ensures { MatchOption result (found_of networks (drop from line.now) ≡ [])
        (IsNextOf (found_of networks) line.now from) }
{
    if networks {
        next_network(line, from)
    } else {
        next_address(line, from)
    }
}

// Returns the first network or address of a stretch.
fn first_of(stretch: &[u8]) -> Option<Found>
    requires some { 0 < length stretch.now }
    requires whole { All (λ byte. not (is_stretch_byte byte) ≡ false) stretch.now }
    ensures { MatchOption result (networks_in stretch.now ≡ [])
        (IsNextOf networks_in stretch.now 0) }
{
    match network_in(stretch) {
        Some(found) => Some(Found {
            address: found.address,
            start: found.start,
            end: found.end,
            next: stretch.len(),
        }),
        None => next_address(stretch, 0),
    }
}

// Returns the index after the stretch bytes that begin at `start`.
fn stretch_end(line: &[u8], start: usize) -> usize
    requires { start ≤ length line.now }
    ensures { IsStretchEnd line.now start result }
{
    for at in start..line.len() {
        if !is_stretch_byte(line[at]) {
            return at;
        }
    }
    line.len()
}

// Returns whether a byte may occur in a stretch: a run byte or a `/`.
fn is_stretch_byte(byte: u8) -> bool
    ensures { result ≡ is_stretch_byte byte }
{
    is_run_byte(byte) || byte == b'/'
}
