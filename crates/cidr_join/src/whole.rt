//! Refuses lists that may have been cut, if they have to be whole.
ghost use Rattle.std.specs.Prelude.{◌≡◌, map};
ghost use Rattle.std.specs.List.{list_any};
ghost use Rattle.cidr_join.specs.Lists.{are_cut, lacks_feed, list_text};

use crate::help::PROGRAM;
use crate::reading::ReadList;
use crate::rows::WHOLE;
use lines::output::Output;
use lists::ends_with_feed;
use options::given::is_given;
use options::items::Item;
use program::log_fault::tell_fault_of;
use std::io::Write;

/// Reports the first list that does not end with a line feed, if the options ask for whole ones,
/// and returns whether there is one.
pub(crate) fn tell_cut_if_asked<E: Write>(
    items: &[Item<'_>],
    lists: &[ReadList<'_>],
    errors: &mut Output<'_, E>,
) -> bool
    ensures { result ≡ are_cut items.now (map list_text lists.now) }
{
    is_given(items, WHOLE) && tell_cut(lists, errors)
}

// Reports the first list that does not end with a line feed, and returns whether there is one.
fn tell_cut<E: Write>(lists: &[ReadList<'_>], errors: &mut Output<'_, E>) -> bool
    ensures { result ≡ list_any lacks_feed (map list_text lists.now) }
{
    for list in lists {
        if !ends_with_feed(list.text.as_slice()) {
            tell_fault_of(PROGRAM, list.name.as_str(), CUT, errors);
            return true;
        }
    }
    false
}

// What is reported about a list that does not end with a line feed, after its name.
const CUT: &str = ": no line feed at its end; it may have been cut off\n";
