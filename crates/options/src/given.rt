//! Which options are given, their values, and the FILEs.
ghost use Rattle.std.specs.Prelude.{◌≡◌, map, IfOk};
ghost use Rattle.std.specs.List.{list_any, count_by};
ghost use Rattle.std.specs.String.{string_bytes};
ghost use Rattle.options.specs.Given.{names, is_given, times, value_in, value_of, file_in, files_of, inputs_of};

use crate::items::Item;
use std::alloc::{AllocError, Global};

/// Whether the option of this row is given.
///
/// ```
/// use options::given::is_given;
/// use options::items::{Item, Text};
///
/// let items = [Item::Flag(0), Item::Value(3, Text::new("7"))];
/// assert!(rt; is_given(&items, 3));
/// assert!(rt; !is_given(&items, 1));
/// ```
pub fn is_given(items: &[Item<'_>], row: usize) -> bool
    ensures { result ≡ is_given items.now row }
{
    items.iter().any(|item| names(item, row))
}

/// Whether the item is the option of this row, even if it lacks its value.
///
/// ```
/// use options::given::names;
/// use options::items::Item;
///
/// assert!(rt; names(&Item::Lacks(1), 1) && !names(&Item::Flag(0), 1));
/// ```
pub fn names(item: &Item<'_>, row: usize) -> bool
    ensures { result ≡ names row item.now }
{
    match item {
        Item::Flag(one) | Item::Value(one, _) | Item::Joined(one, _, _) | Item::Lacks(one) => {
            *one == row
        }
        Item::File(_) | Item::Unknown(_) => false,
    }
}

/// Returns how often the option of this row is given.
pub(crate) fn times(items: &[Item<'_>], row: usize) -> usize
    ensures { result ≡ times items.now row }
{
    items.iter().filter(|item| names(item, row)).count()
}

/// Returns the last value that the option of this row is given, or an empty text if there is none.
///
/// ```
/// use options::given::value_of;
/// use options::items::{Item, Text};
///
/// let items = [Item::Value(3, Text::new("7")), Item::Value(3, Text::new("9"))];
/// assert_eq!(rt; value_of(&items, 3), "9");
/// assert_eq!(rt; value_of(&items, 0), "");
/// ```
pub fn value_of<'a>(items: &[Item<'a>], row: usize) -> &'a str
    ensures { result.now ≡ value_of items.now row }
{
    let mut value = "";
    let mut at = 0;
    while at < items.len() {
        value = value_in(&items[at], row, value);
        at += 1;
    }
    value
}

/// Returns the value that the item has if it is the option of this row with one, and else `value`.
///
/// ```
/// use options::given::value_in;
/// use options::items::{Item, Text};
///
/// assert_eq!(rt; value_in(&Item::Value(1, Text::new("7")), 1, ""), "7");
/// ```
pub fn value_in<'a>(item: &Item<'a>, row: usize, value: &'a str) -> &'a str
    ensures { result.now ≡ value_in row value.now item.now }
{
    match item {
        Item::Value(one, text) | Item::Joined(one, text, _) => {
            if *one == row { text.as_str() } else { value }
        }
        Item::Flag(_) | Item::File(_) | Item::Unknown(_) | Item::Lacks(_) => value,
    }
}

/// Returns the names of the FILEs, in their order.
///
/// An error is returned if memory runs out.
///
/// ```
/// use options::given::files_of;
/// use options::items::{Item, Text};
///
/// let items = [Item::File(Text::new("a")), Item::Flag(0), Item::File(Text::new("b"))];
/// let files = files_of(rt.alloc(), &items)?;
/// assert_eq!(rt; files.len(), 2);
/// assert_eq!(rt; files[1].as_str(), "b");
/// ```
pub fn files_of(alloc: Global, items: &[Item<'_>]) -> Result<Vec<String>, AllocError>
    ensures { IfOk result (λ files. map string_bytes files.items ≡ files_of items.now) }
{
    let mut files = Vec::new(alloc);
    let mut at = 0;
    while at < items.len() {
        if let Item::File(name) = &items[at] {
            files.push(String::from_str(alloc, name.as_str())?)?;
        }
        at += 1;
    }
    Ok(files)
}

/// Returns the names of the files to read: the FILEs, or `-`, which stands for standard input, if
/// there are none.
///
/// An error is returned if memory runs out.
///
/// ```
/// use options::given::inputs_of;
/// use options::items::{Item, Text};
///
/// assert_eq!(rt; inputs_of(rt.alloc(), &[Item::Flag(0)])?[0].as_str(), "-");
/// assert_eq!(rt; inputs_of(rt.alloc(), &[Item::File(Text::new("a"))])?[0].as_str(), "a");
/// ```
pub fn inputs_of(alloc: Global, items: &[Item<'_>]) -> Result<Vec<String>, AllocError>
    ensures { IfOk result (λ files. map string_bytes files.items ≡ inputs_of items.now) }
{
    let mut files = files_of(alloc, items)?;
    if files.is_empty() {
        files.push(String::from_str(alloc, "-")?)?;
    }
    Ok(files)
}
