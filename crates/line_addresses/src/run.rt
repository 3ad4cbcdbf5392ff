//! The address of a run.
ghost use Rattle.std.specs.Prelude.{◌≡◌, ◌≤◌, None, MatchOption, length, take};
ghost use Rattle.std.specs.List.{list_any};
ghost use Rattle.line_addresses.specs.Addresses.{address_of, ends_with_mark, address_in, before_port};
ghost use Rattle.line_addresses.specs.Addresses.{begun_by, is_mark};
ghost use Rattle.line_addresses.specs.Areas.{IsPicked};
ghost use Rattle.line_addresses.specs.Private.LineRuns.{IsRunEnd, Shows};

use crate::byte_kind::{is_address_byte, is_run_byte};
use crate::found::Found;
use crate::laws;
use crate::named::behind_word;
use crate::port::{digits_at_end, has_dot, is_port};
use ipnetwork_addr::IpAddr;
use ipnetwork_addr::laws::{v4_text_has_a_dot_first, v6_text_has_a_colon_first};

/// Returns the index after the run bytes that begin at `start`.
#[inline(always)]
pub(crate) fn run_end(line: &[u8], start: usize) -> usize
    requires { start ≤ length line.now }
    ensures { IsRunEnd line.now start result }
{
    for at in start..line.len() {
        if !is_run_byte(line[at]) {
            return at;
        }
    }
    line.len()
}

/// Returns the address of a run, and the position of its text in the run.
#[inline(always)]
pub(crate) fn address_in(run: &[u8]) -> Option<Found>
    ensures { MatchOption result (address_in run.now ≡ None)
        (IsPicked (address_in run.now) run.now) }
{
    laws::ends_no_address();
    if run.is_empty() {
        return None;
    }
    if !is_address_byte(run[run.len() - 1]) {
        return None;
    }
    address_if_marked(run)
}

// Returns the address of a run, and the position of its text in the run, whatever byte ends it. It
// is not inlined, since it would take registers from the loop over the bytes of a line.
#[inline(never)]
fn address_if_marked(run: &[u8]) -> Option<Found>
    ensures { MatchOption result (address_in run.now ≡ None)
        (IsPicked (address_in run.now) run.now) }
{
    laws::named_address();
    v4_text_has_a_dot_first();
    v6_text_has_a_colon_first();
    if !has_mark(run) {
        return None;
    }
    address_within(run)
}

// Returns the same as `address_if_marked`, without a look at the marks first.
#[inline(never)]
fn address_within(run: &[u8]) -> Option<Found>
    ensures { MatchOption result (address_in run.now ≡ None)
        (IsPicked (address_in run.now) run.now) }
{
    if let Some((address, size)) = begun_by(run) {
        return Some(Found {
            address,
            start: 0,
            end: size,
            next: run.len(),
        });
    }
    let start = behind_word(run);
    if start == run.len() {
        return None;
    }
    match begun_by(&run[start..]) {
        Some((address, size)) => Some(Found {
            address,
            start,
            end: start + size,
            next: run.len(),
        }),
        None => None,
    }
}

// Returns the address that begins a run, and the length of its text.
fn begun_by(run: &[u8]) -> Option<(IpAddr, usize)>
    ensures { MatchOption result (begun_by run.now ≡ None)
        (λ shown. Shows (begun_by run.now) run.now shown.0 shown.1) }
{
    laws::begins_no_address();
    if run.is_empty() {
        return None;
    }
    if !is_address_byte(run[0]) {
        return None;
    }
    if let Some(address) = address_of(run) {
        return Some((address, run.len()));
    }
    if !ends_with_mark(run) {
        return before_port(run);
    }
    let end = run.len() - 1;
    if let Some(address) = address_of(&run[..end]) {
        return Some((address, end));
    }
    before_port(&run[..end])
}

/// Returns the address that `IpAddr::read_bytes` reads from a text, or `None` if it refuses it.
///
/// ```
/// assert_eq!(rt; address_of(b"10.1.1.1"), Some("10.1.1.1".parse()?));
/// assert_eq!(rt; address_of(b"10.1.1.1."), None);
/// ```
#[inline(always)]
pub fn address_of(text: &[u8]) -> Option<IpAddr>
    ensures { result ≡ address_of text.now }
{
    laws::named_address();
    match IpAddr::read_bytes(text) {
        Ok(address) => Some(address),
        Err(_) => None,
    }
}

// Returns whether a text has a `.` or a `:`, as each address text has.
fn has_mark(text: &[u8]) -> bool
    ensures { result ≡ list_any (λ byte. is_mark byte) text.now }
{
    text.iter().any(|byte| *byte == b'.' || *byte == b':')
}

/// Returns whether a text ends with a `.` or a `:`.
pub(crate) fn ends_with_mark(text: &[u8]) -> bool
    ensures { result ≡ ends_with_mark text.now }
{
    if text.is_empty() {
        return false;
    }
    let last = text[text.len() - 1];
    last == b'.' || last == b':'
}

// Returns the address before a port that ends a run, and the length of its text, if it has a `.`.
fn before_port(run: &[u8]) -> Option<(IpAddr, usize)>
    ensures { MatchOption result (before_port run.now ≡ None)
        (λ shown. Shows (before_port run.now) run.now shown.0 shown.1) }
{
    let size = digits_at_end(run);
    if !is_port(size, run) {
        return None;
    }
    let end = run.len() - size - 1;
    if !has_dot(&run[..end]) {
        return None;
    }
    match address_of(&run[..end]) {
        Some(address) => Some((address, end)),
        None => None,
    }
}
