//! Reads whole lists.
ghost use Rattle.std.specs.Prelude.{◌≡◌, ◌&&◌, ◌+◌, ◌^◌, ◌<◌, length, map, not, IfOk, IfErr, None};
ghost use Rattle.lists.specs.Stopped.{ends_with_feed};
ghost use Rattle.cidr_merge.specs.Texts.{AreTexts, FileStops, IsText, IsTextAs};
ghost use Rattle.cidr_merge.specs.Texts.{TextStops, TextsStop, whole};
ghost use Rattle.cidr_merge.specs.Private.ReadErrors.{not_read};

use crate::context::Context;
use crate::named_lists::text_in;
use lists::{BytesFault, OpenLists, ReadFault, Rules, ends_with_feed, read_bytes};

/// The names and the bytes of lists, and the rules by which their lines are read.
#[derive(Drop)]
pub(crate) struct WholeLists<'a> {
    /// The names of the lists.
    pub names: &'a [String],
    /// The bytes of each list, in the same order.
    pub texts: &'a [Vec<u8>],
    /// The rules by which the lines are read.
    pub rules: Rules,

    ghost as_many: { length texts.now ≡ length names.now },
}

/// Returns the bytes of the lists of these names; the first name is the word at the index `first`.
/// If lists have to be whole, a FILE that does not end with a line feed is a fault.
pub(crate) fn texts_of<L: OpenLists>(
    context: &Context<'_, L>,
    names: &[String],
    first: usize,
    is_whole: bool,
) -> Result<Vec<Vec<u8>>, ReadFault>
    requires { first + length names.now < 2 ^ 64 }
    ensures ok { IfOk result (λ texts. AreTexts (whole (L.known context.now.lists.now) is_whole)
        names.now (map (λ text. text.items) texts.items)) }
    ensures err { IfErr result
        (TextsStop (whole (L.known context.now.lists.now) is_whole) names.now) }
{
    let mut texts = Vec::new(context.alloc);
    for place in 0..names.len() {
        let text = match text_of(context, names[place].as_str(), first + place, is_whole) {
            Ok(text) => text,
            Err(fault) => return Err(fault),
        };
        let Ok(_) = texts.push(text) else {
            return Err(ReadFault::OutOfMemory);
        };
    }
    Ok(texts)
}

// Returns the bytes of the list of this name, which is the word at the index `place`.
fn text_of<L: OpenLists>(
    context: &Context<'_, L>,
    name: &str,
    place: usize,
    is_whole: bool,
) -> Result<Vec<u8>, ReadFault>
    ensures ok { IfOk result (λ text.
        IsText (whole (L.known context.now.lists.now) is_whole) name.now text.items) }
    ensures err { IfErr result
        (TextStops (whole (L.known context.now.lists.now) is_whole) name.now) }
{
    match text_in(name) {
        Some(text) => match Vec::from_slice(context.alloc, text.as_bytes()) {
            Ok(text) => Ok(text),
            Err(_) => Err(ReadFault::OutOfMemory),
        },
        None => file_of(context, name, place, is_whole),
    }
}

// The bytes of the FILE of this name.
fn file_of<L: OpenLists>(
    context: &Context<'_, L>,
    name: &str,
    place: usize,
    is_whole: bool,
) -> Result<Vec<u8>, ReadFault>
    ensures ok { IfOk result (λ text. IsTextAs None
        (whole (L.known context.now.lists.now) is_whole) name.now text.items) }
    ensures err { IfErr result
        (FileStops (whole (L.known context.now.lists.now) is_whole) name.now) }
{
    match read_bytes(context.alloc, context.lists, name, usize::MAX) {
        Ok(text) => {
            if is_cut(is_whole, text.as_slice()) {
                return Err(ReadFault::Cut(place));
            }
            Ok(text)
        }
        Err(fault) => Err(not_read(fault, place)),
    }
}

// Returns whether a list has to end with a line feed, and does not.
fn is_cut(is_whole: bool, text: &[u8]) -> bool
    ensures { result ≡ (is_whole && not (ends_with_feed text.now)) }
{
    is_whole && !ends_with_feed(text)
}

// Returns why the list that the word at this index names was not read. No list is too long.
fn not_read(fault: BytesFault, place: usize) -> ReadFault
    ensures { result ≡ not_read place fault }
{
    match fault {
        BytesFault::Open(cause) => ReadFault::Open(place, cause),
        BytesFault::Read => ReadFault::Read(place),
        BytesFault::Length | BytesFault::OutOfMemory => ReadFault::OutOfMemory,
    }
}
