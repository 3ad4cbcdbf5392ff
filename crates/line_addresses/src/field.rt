//! The fields of a line.
ghost use Rattle.std.specs.Prelude.{◌≡◌, ◌≤◌, length, drop, None, Some, MatchOption, slice_get};
ghost use Rattle.line_addresses.specs.Fields.{field_of, fields_of};

use byte_search::find_from;

/// Returns the field with this number, from 1 on, of a line that is split at each separator, or
/// `None` if the line has fewer fields. The number 0 counts as 1.
///
/// ```
/// assert_eq!(rt; field_of(b"a,,10.1.1.1", 3, b','), Some(b"10.1.1.1".as_slice()));
/// assert_eq!(rt; field_of(b"a,,10.1.1.1", 2, b','), Some(b"".as_slice()));
/// assert_eq!(rt; field_of(b"a,,10.1.1.1", 4, b','), None);
/// ```
#[inline(always)]
pub fn field_of(line: &[u8], number: u32, separator: u8) -> Option<&[u8]>
    ensures { MatchOption result (field_of number separator line.now ≡ None)
        (λ field. field_of number separator line.now ≡ Some field.now) }
{
    let mut start = 0;
    let mut more = number.saturating_sub(1);
    while more > 0 {
        let Some(end) = find_from(line, start, separator) else {
            return None;
        };
        start = end + 1;
        more -= 1;
    }
    Some(field_at(line, start, separator))
}

// Returns the field that begins at this index.
#[inline(always)]
fn field_at(line: &[u8], start: usize, separator: u8) -> &[u8]
    requires { start ≤ length line.now }
    ensures { slice_get (fields_of separator (drop start line.now)) 0 ≡ Some result.now }
{
    match find_from(line, start, separator) {
        Some(end) => &line[start..end],
        None => &line[start..],
    }
}
