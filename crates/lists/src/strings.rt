//! Takes the strings of a JSON value.
ghost use Rattle.serde_json.specs.View.{view, items_view, members_view};
ghost use Rattle.lists.specs.Documents.{strings_of, strings_of_items, strings_of_members};
ghost use Rattle.lists.specs.Documents.{TakesStrings};

use crate::list_reader::ListReader;
use serde_json::{Map, Value};

/// Takes the strings of a value. Those that name no entry are refused if the reading is strict.
#[cycle(take_value)]
pub(crate) fn take_value(lists: &mut ListReader, value: &Value, is_strict: bool)
    ensures { TakesStrings is_strict lists.old (strings_of (view value.now)) lists.new }
{
    match value {
        Value::Null => {}
        Value::Bool(_) => {}
        Value::Number(_) => {}
        Value::String(text) => lists.take_string(text.as_bytes(), is_strict),
        Value::Array(items) => take_items(lists, items, is_strict),
        Value::Object(members) => take_members(lists, members, is_strict),
    }
}

// Takes the strings of the elements of an array.
#[cycle(take_value)]
fn take_items(lists: &mut ListReader, items: &Vec<Value>, is_strict: bool)
    ensures { TakesStrings is_strict lists.old (strings_of_items (items_view items.now.items))
        lists.new }
{
    for item in items {
        take_value(lists, item, is_strict);
    }
}

// Takes the strings of the values of an object.
#[cycle(take_value)]
fn take_members(lists: &mut ListReader, members: &Map<String, Value>, is_strict: bool)
    ensures { TakesStrings is_strict lists.old
        (strings_of_members (members_view members.now.entries)) lists.new }
{
    for (_, member) in members.iter() {
        take_value(lists, member, is_strict);
    }
}
