//! Texts that look like an entry.
ghost use Rattle.std.specs.Prelude.{◌≡◌};
ghost use Rattle.std.specs.Char.{is_ascii_digit};
ghost use Rattle.std.specs.List.{list_all};
ghost use Rattle.lists.specs.Looks.{are_four_numbers, are_three_numbers, are_two_numbers, begins_colon, count_of, first_part, has_all_groups, has_gap, is_address_byte, is_entry_byte};
ghost use Rattle.lists.specs.Looks.{is_number, is_separator, looks_like_address, looks_like_any, looks_like_entry, looks_like_one};
ghost use Rattle.lists.specs.Looks.{looks_like_network, looks_like_some, other_parts};

use crate::cutting::{after, before};
use crate::trimming::{Blank, ByteKind, front_len, trim};

/// Returns whether a text looks like an entry, so that it is a mistake if it names none.
///
/// Before a `/` it is four numbers joined by dots, or hex digits, `.` and `:` with a `::` or with as
/// many `:` as an IPv6 address that is spelled in full; or both sides of a `-` are such texts. A
/// time, a date and a version of three numbers do not look so.
///
/// What separates entries is passed over at both ends: blanks, ends of lines and all else that is
/// not visible ASCII, as U+00A0 or a byte order mark, and commas and semicolons. A text looks like an
/// entry too if what comes before its first separator does, and all bytes from there on are
/// separators or may be in entries. So two addresses do, and a sentence does not.
///
/// ```
/// assert!(rt; lists::looks_like_entry(b"300.1.1.1") && lists::looks_like_entry(b"fe80::/129"));
/// assert!(rt; lists::looks_like_entry(b"10.0.0.1\n") && lists::looks_like_entry(b"10.0.0.1,10.0.0.2"));
/// assert!(rt; !lists::looks_like_entry(b"12:34:56") && !lists::looks_like_entry(b"1.2.3"));
/// assert!(rt; !lists::looks_like_entry(b"10.0.0.1 is down"));
/// ```
pub fn looks_like_entry(text: &[u8]) -> bool
    ensures { result ≡ looks_like_entry text.now }
{
    looks_like_any(trim::<Separator>(text))
}

// Whether a text looks like an entry or like entries.
fn looks_like_any(text: &[u8]) -> bool
    ensures { result ≡ looks_like_any text.now }
{
    if looks_like_one(text) {
        return true;
    }
    looks_like_some(text)
}

// Whether the first part of a text looks like an entry, and no other byte is in the others.
fn looks_like_some(text: &[u8]) -> bool
    ensures { result ≡ looks_like_some text.now }
{
    looks_like_one(first_part(text)) && are_entry_bytes(other_parts(text))
}

// Whether a text looks like a network, or both sides of its first `-` do.
fn looks_like_one(text: &[u8]) -> bool
    ensures { result ≡ looks_like_one text.now }
{
    if looks_like_network(text) {
        return true;
    }
    looks_like_network(before(text, b'-')) && looks_like_network(after(text, b'-'))
}

// Whether what comes before the first `/` of a text looks like an address.
fn looks_like_network(text: &[u8]) -> bool
    ensures { result ≡ looks_like_network text.now }
{
    looks_like_address(before(trim::<Blank>(text), b'/'))
}

// Whether a text looks like an address.
fn looks_like_address(text: &[u8]) -> bool
    ensures { result ≡ looks_like_address text.now }
{
    if are_four_numbers(text) {
        return true;
    }
    are_address_bytes(text) && (has_gap(text) || has_all_groups(text))
}

// Whether a text is four numbers joined by dots.
fn are_four_numbers(text: &[u8]) -> bool
    ensures { result ≡ are_four_numbers text.now }
{
    is_number(before(text, b'.')) && are_three_numbers(after(text, b'.'))
}

// Whether a text is three numbers joined by dots.
fn are_three_numbers(text: &[u8]) -> bool
    ensures { result ≡ are_three_numbers text.now }
{
    is_number(before(text, b'.')) && are_two_numbers(after(text, b'.'))
}

// Whether a text is two numbers joined by a dot.
fn are_two_numbers(text: &[u8]) -> bool
    ensures { result ≡ are_two_numbers text.now }
{
    is_number(before(text, b'.')) && is_number(after(text, b'.'))
}

// Whether a text is digits, one or more.
fn is_number(text: &[u8]) -> bool
    ensures { result ≡ is_number text.now }
{
    !text.is_empty() && are_digits(text)
}

// Whether each byte is a digit.
fn are_digits(text: &[u8]) -> bool
    ensures { result ≡ list_all is_ascii_digit text.now }
{
    for byte in text {
        if !byte.is_ascii_digit() {
            return false;
        }
    }
    true
}

// Whether each byte is a hex digit, `.` or `:`.
fn are_address_bytes(text: &[u8]) -> bool
    ensures { result ≡ list_all is_address_byte text.now }
{
    for byte in text {
        if !is_address_byte(*byte) {
            return false;
        }
    }
    true
}

// Whether a byte is a hex digit, `.` or `:`.
fn is_address_byte(byte: u8) -> bool
    ensures { result ≡ is_address_byte byte }
{
    byte.is_ascii_hexdigit() || byte == b'.' || byte == b':'
}

// Whether a text has a `:` directly after another.
fn has_gap(text: &[u8]) -> bool
    ensures { result ≡ has_gap text.now }
{
    let mut at = 0;
    'bytes: while at < text.len() {
        if text[at] == b':' && begins_colon(&text[at + 1..]) {
            return true;
        }
        at += 1;
    }
    false
}

// Whether a text begins with a `:`.
fn begins_colon(text: &[u8]) -> bool
    ensures { result ≡ begins_colon text.now }
{
    match text.first() {
        Some(byte) => *byte == b':',
        None => false,
    }
}

// Whether a text has the separators of an IPv6 address that is spelled in full.
fn has_all_groups(text: &[u8]) -> bool
    ensures { result ≡ has_all_groups text.now }
{
    let colons = count_of(text, b':');
    colons == 7 || (colons == 6 && count_of(text, b'.') == 3)
}

// Returns how often a byte is in a text.
fn count_of(text: &[u8], byte: u8) -> usize
    ensures { result ≡ count_of byte text.now }
{
    let mut count = 0;
    for other in text {
        if *other == byte {
            count += 1;
        }
    }
    count
}

// Returns what comes before the first separator of a text.
fn first_part(text: &[u8]) -> &[u8]
    ensures { result.now ≡ first_part text.now }
{
    &text[..front_len::<Joined>(text)]
}

// Returns what comes from the first separator of a text on.
fn other_parts(text: &[u8]) -> &[u8]
    ensures { result.now ≡ other_parts text.now }
{
    &text[front_len::<Joined>(text)..]
}

// Whether each byte may be in entries or separates them.
fn are_entry_bytes(text: &[u8]) -> bool
    ensures { result ≡ list_all is_entry_byte text.now }
{
    for byte in text {
        if !is_entry_byte(*byte) {
            return false;
        }
    }
    true
}

// Whether a byte may be in entries or separates them.
fn is_entry_byte(byte: u8) -> bool
    ensures { result ≡ is_entry_byte byte }
{
    is_address_byte(byte) || byte == b'/' || byte == b'-' || is_separator(byte)
}

// Whether a byte separates entries.
fn is_separator(byte: u8) -> bool
    ensures { result ≡ is_separator byte }
{
    byte < 33 || byte > 126 || byte == b',' || byte == b';'
}

/// Bytes that separate entries.
struct Separator;

impl ByteKind for Separator {
    ghost use Rattle.lists.specs.Looks.{is_separator};

    ghost is_one = { is_separator };

    fn has(byte: u8) -> bool {
        is_separator(byte)
    }
}

/// Bytes between separators.
struct Joined;

impl ByteKind for Joined {
    ghost use Rattle.lists.specs.Looks.{is_joined};

    ghost is_one = { is_joined };

    fn has(byte: u8) -> bool {
        !is_separator(byte)
    }
}
