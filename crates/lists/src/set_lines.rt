//! Reads lines that fill sets of ipset and of nftables.
ghost use Rattle.std.specs.Prelude.{◌≡◌, option_map};
ghost use Rattle.lists.specs.LineForms.{ReadsAlone, ReadsIpset, ReadsNft, ReadsPart};
ghost use Rattle.lists.specs.LineForms.{fits, ipset_part, is_command, is_name_byte, is_nft_frame};
ghost use Rattle.lists.specs.LineForms.{creates, nft_part, without_comma};
ghost use Rattle.lists.specs.Masks.{after_word, first_word};

use crate::entry::{Entry, EntryFault, read_text};
use crate::forms::of_another_form;
use crate::masks::{after_word, first_word};
use crate::trimming::{ByteKind, front_len};

/// Reads a line of input for `ipset restore`.
pub(crate) fn read_ipset(line: &[u8]) -> Result<Option<Entry>, EntryFault>
    ensures { ReadsIpset line.now result }
{
    if is_command(first_word(line)) {
        return Ok(None);
    }
    read_part(line, ipset_part(line))
}

/// Reads a line of input for `nft -f`, as `cidr_merge` prints it.
pub(crate) fn read_nft(line: &[u8]) -> Result<Option<Entry>, EntryFault>
    ensures { ReadsNft line.now result }
{
    if is_nft_frame(line) {
        return Ok(None);
    }
    read_part(line, nft_part(line))
}

// Reads the part of a line that has to be an entry, if the line has one.
fn read_part(line: &[u8], part: Option<&[u8]>) -> Result<Option<Entry>, EntryFault>
    ensures { ReadsPart line.now (option_map (λ text. text.now) part.entry) result }
{
    let Some(text) = part else {
        return Err(of_another_form(line));
    };
    match read_text(text) {
        Ok(entry) => Ok(Some(entry)),
        Err(fault) => Err(fault),
    }
}

// Whether a word is a command that adds no element.
fn is_command(word: &[u8]) -> bool
    ensures { result ≡ is_command word.now }
{
    word == b"create".as_slice()
        || word == b"flush".as_slice()
        || word == b"swap".as_slice()
        || word == b"destroy".as_slice()
}

// Returns what follows the name of the set, if the line adds an element.
fn ipset_part(line: &[u8]) -> Option<&[u8]>
    ensures { option_map (λ text. text.now) result ≡ ipset_part line.now }
{
    if first_word(line) == b"add".as_slice() {
        Some(after_word(after_word(line)))
    } else {
        None
    }
}

// Whether a line is one of those that are printed before and after the elements of sets.
fn is_nft_frame(line: &[u8]) -> bool
    ensures { result ≡ is_nft_frame line.now }
{
    creates(line)
        || fits(b"flush set inet * *", line)
        || fits(b"add element inet * * {", line)
        || line == b"}".as_slice()
}

// Whether a line is one that creates a table or a set.
fn creates(line: &[u8]) -> bool
    ensures { result ≡ creates line.now }
{
    fits(b"add table inet *", line)
        || fits(
            b"add set inet * * { type ipv4_addr; flags interval; }",
            line,
        )
        || fits(
            b"add set inet * * { type ipv6_addr; flags interval; }",
            line,
        )
}

// Returns what follows the tab of an element, without a comma at its end.
fn nft_part(line: &[u8]) -> Option<&[u8]>
    ensures { option_map (λ text. text.now) result ≡ nft_part line.now }
{
    match line {
        [b'\t', text @ ..] => Some(without_comma(text)),
        _ => None,
    }
}

// Returns a text without one comma at its end.
fn without_comma(text: &[u8]) -> &[u8]
    ensures { result.now ≡ without_comma text.now }
{
    match text {
        [front @ .., b','] => front,
        _ => text,
    }
}

// Whether a text is a pattern, in which each `*` is a name.
fn fits(pattern: &[u8], text: &[u8]) -> bool
    ensures { result ≡ fits pattern.now text.now }
{
    match (pattern, text) {
        ([], []) => true,
        ([b'*', signs @ ..], [byte, ..]) if is_name_byte(*byte) => {
            fits(signs, &text[front_len::<NameByte>(text)..])
        }
        ([b'*', ..], _) => false,
        ([sign, signs @ ..], [byte, others @ ..]) if *sign == *byte => fits(signs, others),
        _ => false,
    }
}

// Whether a byte may be in the name of a set or of a table.
fn is_name_byte(byte: u8) -> bool
    ensures { result ≡ is_name_byte byte }
{
    byte.is_ascii_alphanumeric() || byte == b'_' || byte == b'-' || byte == b'.'
}

/// The bytes of names.
struct NameByte;

impl ByteKind for NameByte {
    ghost use Rattle.lists.specs.LineForms.{is_name_byte};

    ghost is_one = { is_name_byte };

    fn has(byte: u8) -> bool {
        is_name_byte(byte)
    }
}
