//! What follows a text in a line.
ghost use Rattle.std.specs.Prelude.{◌≡◌, ◌<◌, ◌∷◌, None, Some, MatchOption, length, get_or};
ghost use Rattle.std.specs.Prelude.{slice_index};
ghost use Rattle.line_addresses.specs.Following.{begins_name, following, is_name_byte};

use byte_search::find_from;

/// Returns what follows the first occurrence of a text in a line, or `None` if there is none. One
/// that begins inside a name, of letters, digits, `-`, `.` and `_`, does not count. Each position
/// of the text's first byte is tried, so the time is at most proportional to the product of both
/// lengths.
///
/// ```
/// let line = b"DST=10.1.1.1 ORIG_SRC=x SRC=10.1.1.2 SRC=x";
/// assert_eq!(rt; following(line, b"SRC="), Some(b"10.1.1.2 SRC=x".as_slice()));
/// assert_eq!(rt; following(line, b"IN="), None);
/// ```
pub fn following<'a>(line: &'a [u8], text: &[u8]) -> Option<&'a [u8]>
    ensures { MatchOption result (following text.now line.now ≡ None)
        (λ rest. following text.now line.now ≡ Some rest.now) }
{
    if text.is_empty() {
        return Some(line);
    }
    let first = text[0];
    let mut at = 0;
    'positions: while let Some(position) = find_from(line, at, first) {
        at = position + 1;
        if !begins_name(line, position) {
            continue 'positions;
        }
        if let Some(rest) = line[position..].strip_prefix(text) {
            return Some(rest);
        }
    }
    None
}

// Returns whether no name continues from the byte before a position to the byte at it. A space
// counts as the byte before the line.
fn begins_name(line: &[u8], position: usize) -> bool
    requires { position < length line.now }
    ensures { result ≡
        begins_name (get_or (32 ∷ line.now) position 0) (slice_index line.now position) }
{
    position == 0 || !is_name_byte(line[position - 1]) || !is_name_byte(line[position])
}

// Returns whether a byte occurs in names: an ASCII letter or digit, `-`, `.` or `_`.
fn is_name_byte(byte: u8) -> bool
    ensures { result ≡ is_name_byte byte }
{
    byte.is_ascii_alphanumeric() || byte == b'-' || byte == b'.' || byte == b'_'
}
