//! The lists that a command line names: FILEs, and TEXTs of `-e`, which are among them.
ghost use Rattle.std.specs.Prelude.{◌≡◌, ◌≢◌, ◌<◌, ◌++◌, ◌∷◌, [], List, ℕ, map};
ghost use Rattle.std.specs.Prelude.{IfOk, None, OnOk, MatchOption};
ghost use Rattle.std.specs.String.{string_bytes};
ghost use Rattle.cidr_merge.specs.NamedLists.{file_name, list_in, lists_of};
ghost use Rattle.cidr_merge.specs.NamedLists.{text_in, text_name};

use crate::rows::TEXT;
use options::items::Item;
use std::alloc::{AllocError, Global};

/// The names of the lists, in their order. A TEXT is named `-e TEXT`, as no FILE is.
pub(crate) fn lists_of(alloc: Global, items: &[Item<'_>]) -> Result<Vec<String>, AllocError>
    ensures { IfOk result (λ lists. map string_bytes lists.items ≡ lists_of items.now) }
{
    let mut lists = Vec::new(alloc);
    let mut at = 0;
    while at < items.len() {
        add_list(alloc, &items[at], &mut lists)?;
        at += 1;
    }
    Ok(lists)
}

// Adds the list that an item names, if it names one.
fn add_list(alloc: Global, item: &Item<'_>, lists: &mut Vec<String>) -> Result<(), AllocError>
    ensures { OnOk result (map string_bytes lists.new.items
        ≡ map string_bytes lists.old.items ++ list_in item.now) }
{
    match item {
        Item::File(name) => add_name(alloc, "", name.as_str(), lists),
        Item::Value(TEXT, text) | Item::Joined(TEXT, text, _) => {
            add_name(alloc, "-e ", text.as_str(), lists)
        }
        _ => Ok(()),
    }
}

/// Adds a name, in two parts.
pub(crate) fn add_name(
    alloc: Global,
    first: &str,
    second: &str,
    lists: &mut Vec<String>,
) -> Result<(), AllocError>
    ensures { OnOk result (map string_bytes lists.new.items
        ≡ map string_bytes lists.old.items ++ (first.now ++ second.now) ∷ []) }
{
    let mut name = String::from_str(alloc, first)?;
    name.push_str(second)?;
    lists.push(name)?;
    Ok(())
}

/// Adds the name of a FILE that is the value of an option, which may be any text: no TEXT has it.
pub(crate) fn add_file(alloc: Global, name: &str, lists: &mut Vec<String>) -> Result<(), AllocError>
    ensures added { OnOk result (map string_bytes lists.new.items
        ≡ map string_bytes lists.old.items ++ file_name name.now ∷ []) }
    ensures no_text { text_in (file_name name.now) ≡ None }
{
    match text_in(name) {
        Some(_) => add_name(alloc, "./", name, lists),
        None => add_name(alloc, "", name, lists),
    }
}

/// The TEXT of a list of this name, if it is one.
pub(crate) fn text_in(name: &str) -> Option<&str>
    ensures { MatchOption result ((text : List ℕ) → name.now ≢ text_name text)
        (λ text. name.now ≡ text_name text.now) }
{
    match after(name, '-') {
        Some(rest) => match after(rest, 'e') {
            Some(rest) => after(rest, ' '),
            None => None,
        },
        None => None,
    }
}

// What follows a letter at the head of a text.
fn after(text: &str, letter: char) -> Option<&str>
    requires { letter < 128 }
    ensures { MatchOption result ((rest : List ℕ) → text.now ≢ letter ∷ rest)
        (λ rest. text.now ≡ letter ∷ rest.now) }
{
    text.strip_prefix(letter)
}
