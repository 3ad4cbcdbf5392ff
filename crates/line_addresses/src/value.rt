//! The value after a text in a line.
ghost use Rattle.std.specs.Prelude.{◌≡◌, ◌≤◌, None, Some, MatchOption, length, drop, is_some};
ghost use Rattle.line_addresses.specs.Addresses.{address_in};
ghost use Rattle.line_addresses.specs.Following.{first_run, opened, opens, value_after};

use crate::first_position::following;
use crate::run::{address_in, run_end};

/// Returns what follows a text in a line, without the blanks, quotation marks and `[` that come
/// first, if it begins with an address, and otherwise `None`. Only the first occurrence of the text
/// counts, and none inside a name.
///
/// ```
/// let line = b"{\"peer_ip\":\"10.1.1.1\",\"ip\":\"10.1.1.2\",\"user\":null}";
/// assert_eq!(rt; value_after(line, b"ip\":"), Some(b"10.1.1.2\",\"user\":null}".as_slice()));
/// assert_eq!(rt; value_after(b"client_ip=- 10.1.1.1", b"client_ip="), None);
/// assert_eq!(rt; value_after(b"client_ip=\"\" 10.1.1.1", b"client_ip="), None);
/// ```
pub fn value_after<'a>(line: &'a [u8], text: &[u8]) -> Option<&'a [u8]>
    ensures { MatchOption result (value_after text.now line.now ≡ None)
        (λ value. value_after text.now line.now ≡ Some value.now) }
{
    let Some(rest) = following(line, text) else {
        return None;
    };
    let value = &rest[opened_at(rest)..];
    if begins_with_address(value) {
        Some(value)
    } else {
        None
    }
}

// Returns whether the first run of a text, which begins it, has an address.
fn begins_with_address(text: &[u8]) -> bool
    ensures { result ≡ is_some (address_in (first_run text.now)) }
{
    address_in(&text[..run_end(text, 0)]).is_some()
}

// Returns the index after the blanks, quotation marks and `[` that begin a text.
fn opened_at(text: &[u8]) -> usize
    ensures within { result ≤ length text.now }
    ensures rest { drop result text.now ≡ opened text.now }
{
    let mut at = 0;
    let mut before = 0;
    'bytes: while at < text.len() {
        if !opens(before, text[at]) {
            return at;
        }
        before = text[at];
        at += 1;
    }
    at
}

// Returns whether a byte is a blank or `[`, or a quotation mark other than the byte before it.
fn opens(before: u8, byte: u8) -> bool
    ensures { result ≡ opens before byte }
{
    match byte {
        b' ' | b'\t' | b'[' => true,
        b'"' | b'\'' => byte != before,
        _ => false,
    }
}
