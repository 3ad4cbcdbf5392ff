//! Takes the strings of fields of a JSON value.
ghost use Rattle.std.specs.Prelude.{◌≡◌, true};
ghost use Rattle.serde_json.specs.View.{view, items_view, members_view};
ghost use Rattle.lists.specs.Documents.{TakesStrings};
ghost use Rattle.lists.specs.Fields.{has_field, items_have_field, members_have_field};
ghost use Rattle.lists.specs.Fields.{if_within, texts_within, texts_of_items, texts_of_members};

use crate::chosen::FieldNames;
use crate::list_reader::ListReader;
use serde_json::{Map, Value};

/// Returns whether a member with this name is in a value, at any depth.
#[cycle(has_field)]
pub(crate) fn has_field(name: &str, value: &Value) -> bool
    ensures { result ≡ has_field name.now (view value.now) }
{
    match value {
        Value::Null => false,
        Value::Bool(_) => false,
        Value::Number(_) => false,
        Value::String(_) => false,
        Value::Array(items) => items_have_field(name, items),
        Value::Object(members) => members_have_field(name, members),
    }
}

// Returns whether such a member is in an element of an array.
#[cycle(has_field)]
fn items_have_field(name: &str, items: &Vec<Value>) -> bool
    ensures { result ≡ items_have_field name.now (items_view items.now.items) }
{
    for item in items {
        if has_field(name, item) {
            return true;
        }
    }
    false
}

// Returns whether such a member is in an object.
#[cycle(has_field)]
fn members_have_field(name: &str, members: &Map<String, Value>) -> bool
    ensures { result ≡ members_have_field name.now (members_view members.now.entries) }
{
    for (key, member) in members.iter() {
        if name == key.as_str() || has_field(name, member) {
            return true;
        }
    }
    false
}

/// Takes the strings of the fields of these names in a value, which is within such a field or not.
///
/// Within a field, a boolean and a number are refused, as words that name no entry.
#[cycle(take_fields)]
pub(crate) fn take_fields(
    lists: &mut ListReader,
    names: &FieldNames<'_>,
    value: &Value,
    is_within: bool,
)
    ensures { TakesStrings true lists.old (texts_within names.now is_within (view value.now))
        lists.new }
{
    match value {
        Value::Null => {}
        Value::Bool(_) => take_if(lists, "a boolean".as_bytes(), is_within),
        Value::Number(_) => take_if(lists, "a number".as_bytes(), is_within),
        Value::String(text) => take_if(lists, text.as_bytes(), is_within),
        Value::Array(items) => take_items(lists, names, items, is_within),
        Value::Object(members) => take_members(lists, names, members),
    }
}

// Takes a text that is within a field.
fn take_if(lists: &mut ListReader, text: &[u8], is_within: bool)
    ensures { TakesStrings true lists.old (if_within is_within text.now) lists.new }
{
    if is_within {
        lists.take_string(text, true);
    }
}

// Takes the strings of the elements of an array, which are within a field or not.
#[cycle(take_fields)]
fn take_items(lists: &mut ListReader, names: &FieldNames<'_>, items: &Vec<Value>, is_within: bool)
    ensures { TakesStrings true lists.old
        (texts_of_items names.now is_within (items_view items.now.items)) lists.new }
{
    for item in items {
        take_fields(lists, names, item, is_within);
    }
}

// Takes the strings of the values of an object, which are within a field if their key is a name.
#[cycle(take_fields)]
fn take_members(lists: &mut ListReader, names: &FieldNames<'_>, members: &Map<String, Value>)
    ensures { TakesStrings true lists.old
        (texts_of_members names.now (members_view members.now.entries)) lists.new }
{
    for (key, member) in members.iter() {
        let is_named = names.has(key.as_str());
        take_fields(lists, names, member, is_named);
    }
}
