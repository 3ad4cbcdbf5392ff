//! Cuts a text at the first byte of a value.
ghost use Rattle.std.specs.Prelude.{◌≡◌, ◌==◌};
ghost use Rattle.std.specs.List.{after_first, before_first};

use byte_search::find_from;

/// Returns what comes before the first byte of this value, or the whole text if it has none.
pub(crate) fn before(text: &[u8], byte: u8) -> &[u8]
    ensures { result.now ≡ before_first (λ other. other == byte) text.now }
{
    match find_from(text, 0, byte) {
        Some(end) => &text[..end],
        None => text,
    }
}

/// Returns what comes after the first byte of this value, or nothing if the text has none.
pub(crate) fn after(text: &[u8], byte: u8) -> &[u8]
    ensures { result.now ≡ after_first (λ other. other == byte) text.now }
{
    match find_from(text, 0, byte) {
        Some(end) => &text[end + 1..],
        None => &[],
    }
}
