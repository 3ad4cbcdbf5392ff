//! The words of a command line with `reduce N` spelled out.
ghost use Rattle.std.specs.Prelude.{◌≡◌, ◌++◌, OnOk, IfOk, map, true};
ghost use Rattle.std.specs.String.{string_bytes};
ghost use Rattle.cidr_merge.specs.Spelling.{is_short, spelled_out};

use crate::named_lists::add_name;
use options::values::number_in;
use program::command_line::is;
use std::alloc::{AllocError, Global};

/// Whether the words begin with `reduce` and a number, which stands for `--most` and the number.
pub(crate) fn is_short(words: &[String]) -> bool
    ensures { result ≡ is_short (map string_bytes words.now) }
{
    match words {
        [name, number, ..] => is(name, "reduce") && number_in(number.as_str()).is_some(),
        _ => false,
    }
}

/// The words, the first two of which are `reduce` and a number, with `--most` between those.
pub(crate) fn spelled_out(alloc: Global, words: &[String]) -> Result<Vec<String>, AllocError>
    requires { is_short (map string_bytes words.now) ≡ true }
    ensures { IfOk result (λ all. map string_bytes all.items
        ≡ spelled_out (map string_bytes words.now)) }
{
    let mut all = Vec::new(alloc);
    add_words(alloc, &words[..1], &mut all)?;
    add_name(alloc, "", "--most", &mut all)?;
    add_words(alloc, &words[1..], &mut all)?;
    Ok(all)
}

// Adds copies of words.
fn add_words(alloc: Global, words: &[String], all: &mut Vec<String>) -> Result<(), AllocError>
    ensures { OnOk result (map string_bytes all.new.items
        ≡ map string_bytes all.old.items ++ map string_bytes words.now) }
{
    let mut at = 0;
    while at < words.len() {
        add_name(alloc, "", words[at].as_str(), all)?;
        at += 1;
    }
    Ok(())
}
