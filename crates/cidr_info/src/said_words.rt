//! What the words of a command line and the lines of standard input say.
ghost use Rattle.std.specs.Prelude.{◌≡◌, ◌++◌, IfOk, OnOk};
ghost use Rattle.std.specs.Str.Lines.{lines, strip_carriage_return};
ghost use Rattle.cidr_info.specs.Words.{is_input, is_skipped, line_said, lines_said, word_said, words_said, reads_input};

use crate::said::Said;
use byte_search::find_from;
use lists::{Blank, trim};
use options::items::Item;
use std::alloc::{AllocError, Global};

/// Whether one of the words is `-`, which stands for standard input.
pub(crate) fn reads_input(items: &[Item<'_>]) -> bool
    ensures { result ≡ reads_input items.now }
{
    items.iter().any(|item| is_input(item))
}

// Whether this is the word `-`.
fn is_input(item: &Item<'_>) -> bool
    ensures { result ≡ is_input item.now }
{
    match item {
        Item::File(name) => name.as_str() == "-",
        _ => false,
    }
}

/// Returns what the words say, in their order; `-` stands for the lines of `input`.
///
/// An error is returned if memory runs out.
pub(crate) fn words_said<'a>(
    alloc: Global,
    items: &[Item<'a>],
    input: &'a [u8],
) -> Result<Vec<Said<'a>>, AllocError>
    ensures { IfOk result (λ all. all.items ≡ words_said input.now items.now) }
{
    let mut all = Vec::new(alloc);
    let mut at = 0;
    while at < items.len() {
        put_word(&items[at], input, &mut all)?;
        at += 1;
    }
    Ok(all)
}

// Appends what a word says.
fn put_word<'a>(item: &Item<'a>, input: &'a [u8], all: &mut Vec<Said<'a>>) -> Result<(), AllocError>
    ensures { OnOk result (all.new.items ≡ all.old.items ++ word_said input.now item.now) }
{
    if is_input(item) {
        return put_lines(input, all);
    }
    if let Item::File(name) = item {
        let word = name.as_str();
        all.push(Said::new(0, word.as_bytes()))?;
    }
    Ok(())
}

// Appends what the lines of an input say.
fn put_lines<'a>(input: &'a [u8], all: &mut Vec<Said<'a>>) -> Result<(), AllocError>
    ensures { OnOk result (all.new.items ≡ all.old.items ++ lines_said (lines input.now)) }
{
    let mut line = 1u64;
    let mut at = 0;
    'lines: while let Some(end) = find_from(input, at, b'\n') {
        put_line(line, without_return(&input[at..end]), all)?;
        line = line.saturating_add(1);
        at = end + 1;
    }
    put_line(line, &input[at..], all)
}

// Returns a line that a line feed ended, without the one carriage return at its end, if any.
fn without_return(line: &[u8]) -> &[u8]
    ensures { result.now ≡ strip_carriage_return line.now }
{
    match line.split_last() {
        Some((byte, front)) if *byte == b'\r' => front,
        _ => line,
    }
}

// Appends what a line says, unless it is empty or a comment.
fn put_line<'a>(line: u64, bytes: &'a [u8], all: &mut Vec<Said<'a>>) -> Result<(), AllocError>
    ensures { OnOk result (all.new.items ≡ all.old.items ++ line_said bytes.now) }
{
    let text = trim::<Blank>(bytes);
    if !is_skipped(text) {
        all.push(Said::new(line, text))?;
    }
    Ok(())
}

// Whether a text without the blanks around it is empty or a comment.
fn is_skipped(text: &[u8]) -> bool
    ensures { result ≡ is_skipped text.now }
{
    match text.first() {
        Some(byte) => *byte == b'#',
        None => true,
    }
}
