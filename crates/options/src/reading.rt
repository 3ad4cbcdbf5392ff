//! Reads the words of a command line, by the rows of a table of options.
ghost use Rattle.std.specs.Prelude.{◌≡◌, ◌≢◌, ℕ, ◌++◌, ◌∷◌, ◌<◌, List, [], true, None, drop, codes, OnOk, IfOk, IfSome, MatchOption};
ghost use Rattle.std.specs.String.{string_bytes};
ghost use Rattle.options.specs.Items.{begins, is_plain, behind_sign, value_items, opened, letters, letters_mode, name_items, joined_name, name_mode, free_items, free_mode, word_items, next_mode, end_items, items_of};
ghost use Rattle.options.specs.Table.{named};

use crate::items::{Item, Mode, Text};
use crate::table::{Row, joined, kind_at, lettered, named};
use std::alloc::{AllocError, Global};

/// Returns the items that the words say, in their order, by the rows of a table of options.
///
/// An error is returned if memory runs out.
///
/// ```
/// use options::items::Item;
/// use options::reading::items_of;
/// use options::table::{Kind, Row, letter};
///
/// let rows = [letter!(b'v', Flag, ""), letter!(b'k', Field, "not a field number")];
/// let mut words = Vec::new(rt.alloc());
/// words.push(String::from_str(rt.alloc(), "-vk7")?)?;
/// words.push(String::from_str(rt.alloc(), "log")?)?;
/// let items = items_of(rt.alloc(), &rows, words.as_slice())?;
/// assert!(rt; matches!(items.as_slice(), [Item::Flag(0), Item::Value(1, _), Item::File(_)]));
/// ```
pub fn items_of<'a>(
    alloc: Global,
    rows: &[Row],
    words: &'a [String],
) -> Result<Vec<Item<'a>>, AllocError>
    ensures { IfOk result (λ all. all.items ≡ items_of rows.now Mode.Free words.now) }
{
    let mut all = Vec::new(alloc);
    let mut mode = Mode::Free;
    let mut at = 0;
    while at < words.len() {
        mode = put_word(rows, mode, words[at].as_str(), &mut all)?;
        at += 1;
    }
    if let Mode::Value(row) = mode {
        all.push(Item::Lacks(row))?;
    }
    Ok(all)
}

// Appends the items of a word, and returns where the next word is.
fn put_word<'a>(
    rows: &[Row],
    mode: Mode,
    word: &'a str,
    all: &mut Vec<Item<'a>>,
) -> Result<Mode, AllocError>
    ensures items { OnOk result
        (all.new.items ≡ all.old.items ++ word_items rows.now mode word.now) }
    ensures mode { IfOk result (λ next. next ≡ next_mode rows.now mode word.now) }
{
    match mode {
        Mode::Free => put_free(rows, word, all),
        Mode::Value(row) => {
            all.push(Item::Value(row, Text::new(word)))?;
            Ok(Mode::Free)
        }
        Mode::Files => {
            all.push(Item::File(Text::new(word)))?;
            Ok(Mode::Files)
        }
    }
}

// Appends the items of a word where an option may be, and returns where the next word
// is.
fn put_free<'a>(rows: &[Row], word: &'a str, all: &mut Vec<Item<'a>>) -> Result<Mode, AllocError>
    ensures items { OnOk result
        (all.new.items ≡ all.old.items ++ free_items rows.now word.now) }
    ensures mode { IfOk result (λ next. next ≡ free_mode rows.now word.now) }
{
    if is_plain(word) {
        all.push(Item::File(Text::new(word)))?;
        Ok(Mode::Free)
    } else if word == "--" {
        Ok(Mode::Files)
    } else if begins_long(word) {
        put_name(rows, word, all)
    } else {
        put_letters(rows, word, all)
    }
}

/// Whether a word, where an option may be, is a FILE: it is `-`, or does not begin with `-`.
///
/// ```
/// assert!(rt; options::reading::is_plain("-") && !options::reading::is_plain("-v"));
/// ```
pub fn is_plain(word: &str) -> bool
    ensures { result ≡ is_plain word.now }
{
    word == "-" || !word.as_bytes().starts_with(b"-".as_slice())
}

// Whether the word begins with `--`.
fn begins_long(word: &str) -> bool
    ensures { result ≡ begins (codes "--") word.now }
{
    word.as_bytes().starts_with(b"--".as_slice())
}

// Appends the items of a word that begins with `--`, and returns the mode of the next word.
fn put_name<'a>(rows: &[Row], word: &'a str, all: &mut Vec<Item<'a>>) -> Result<Mode, AllocError>
    ensures items { OnOk result (all.new.items ≡ all.old.items
        ++ name_items rows.now word.now (named word.now rows.now) (joined_name rows.now word.now)) }
    ensures mode { IfOk result (λ next. next ≡ name_mode rows.now (named word.now rows.now)) }
{
    let Some(row) = named(rows, word) else {
        all.push(joined_item(rows, word))?;
        return Ok(Mode::Free);
    };
    if kind_at(rows, row).takes_value() {
        return Ok(Mode::Value(row));
    }
    all.push(Item::Flag(row))?;
    Ok(Mode::Free)
}

// Returns the item of a long name with a value after `=`, or of an unknown word.
fn joined_item<'a>(rows: &[Row], word: &'a str) -> Item<'a>
    ensures { result ∷ [] ≡ name_items rows.now word.now None (joined_name rows.now word.now) }
{
    let Some((name, value)) = word.split_once('=') else {
        return Item::Unknown(Text::new(word));
    };
    match joined(rows, name) {
        Some(row) => Item::Joined(row, Text::new(value), Text::new(word)),
        None => Item::Unknown(Text::new(word)),
    }
}

// Appends the items of the letters of a word, and returns the mode of the next word.
fn put_letters<'a>(rows: &[Row], word: &'a str, all: &mut Vec<Item<'a>>) -> Result<Mode, AllocError>
    requires { begins (codes "-") word.now ≡ true }
    ensures items { OnOk result (all.new.items
        ≡ all.old.items ++ letters rows.now true word.now (drop 1 word.now)) }
    ensures mode { IfOk result (λ next. next ≡ letters_mode rows.now (drop 1 word.now)) }
{
    let mut text = behind_dash(word);
    let mut first = true;
    'letters: while let Some((letter, rest)) = split_letter(text) {
        let Some(row) = lettered(rows, letter) else {
            all.push(Item::Unknown(Text::new(word)))?;
            return Ok(Mode::Free);
        };
        if kind_at(rows, row).takes_value() {
            return put_value(row, first, word, rest, all);
        }
        all.push(Item::Flag(row))?;
        text = rest;
        first = false;
    }
    if !text.is_empty() {
        all.push(Item::Unknown(Text::new(word)))?;
    }
    Ok(Mode::Free)
}

// Appends an option with its value, if that follows its letter, and returns the mode of the next
// word.
fn put_value<'a>(
    row: usize,
    first: bool,
    word: &'a str,
    value: &'a str,
    all: &mut Vec<Item<'a>>,
) -> Result<Mode, AllocError>
    ensures items { OnOk result
        (all.new.items ≡ all.old.items ++ value_items row first word.now value.now) }
    ensures mode { IfOk result (λ next. next ≡ opened row value.now) }
{
    if value.is_empty() {
        return Ok(Mode::Value(row));
    }
    let value = behind_sign(value);
    if first {
        all.push(Item::Joined(row, Text::new(value), Text::new(word)))?;
    } else {
        all.push(Item::Value(row, Text::new(value)))?;
    }
    Ok(Mode::Free)
}

// Returns the value without the `=` before it, if there is one and more follows.
fn behind_sign(value: &str) -> &str
    ensures { result.now ≡ behind_sign value.now }
{
    match value.strip_prefix('=') {
        Some(rest) => { if rest.is_empty() { value } else { rest } }
        None => value,
    }
}

// Returns what follows the `-` at the start of a word.
fn behind_dash(word: &str) -> &str
    requires { begins (codes "-") word.now ≡ true }
    ensures { result.now ≡ drop 1 word.now }
{
    match split_letter(word) {
        Some((_, rest)) => rest,
        None => "",
    }
}

// Splits a text into its first character, if that is ASCII, and what follows it.
fn split_letter(text: &str) -> Option<(u8, &str)>
    ensures text { MatchOption result
        ((letter : ℕ) (rest : List ℕ) → letter < 128 → text.now ≢ letter ∷ rest)
        (λ found. text.now ≡ found.0 ∷ found.1.now) }
    ensures ascii { IfSome result (λ found. found.0 < 128) }
{
    let Some((first, _)) = text.as_bytes().split_first() else {
        return None;
    };
    if *first >= 128 {
        return None;
    }
    match text.strip_prefix(char::from(*first)) {
        Some(rest) => Some((*first, rest)),
        None => None,
    }
}
