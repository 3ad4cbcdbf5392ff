//! The word and the `:` before an address.
ghost use Rattle.std.specs.Prelude.{◌≡◌, ◌≤◌, length, drop};
ghost use Rattle.std.specs.List.{list_all};
ghost use Rattle.line_addresses.specs.Addresses.{behind_word, is_address_byte, is_word};
ghost use Rattle.line_addresses.specs.LineRuns.{is_run_byte};

use crate::byte_kind::{is_address_byte, is_run_byte};
use byte_search::find_from;

/// Returns the index after the word and the `:` that begin a text, or its length if none do.
#[inline(always)]
pub(crate) fn behind_word(text: &[u8]) -> usize
    ensures within { result ≤ length text.now }
    ensures rest { drop result text.now ≡ behind_word text.now }
{
    let Some(colon) = find_from(text, 0, b':') else {
        return text.len();
    };
    if is_word(&text[..colon]) {
        colon + 1
    } else {
        text.len()
    }
}

// Returns whether a text consists of run bytes, one of which occurs in no address text.
fn is_word(text: &[u8]) -> bool
    ensures { result ≡ is_word text.now }
{
    are_run_bytes(text) && !are_address_bytes(text)
}

// Returns whether each byte is a run byte.
fn are_run_bytes(text: &[u8]) -> bool
    ensures { result ≡ list_all is_run_byte text.now }
{
    text.iter().all(|byte| is_run_byte(*byte))
}

// Returns whether each byte occurs in address texts.
fn are_address_bytes(text: &[u8]) -> bool
    ensures { result ≡ list_all is_address_byte text.now }
{
    text.iter().all(|byte| is_address_byte(*byte))
}
