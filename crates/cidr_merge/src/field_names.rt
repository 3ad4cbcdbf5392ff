//! The names of fields of JSON documents that a command line gives.
ghost use Rattle.std.specs.Prelude.{◌≡◌, ◌++◌, map, IfOk, OnOk};
ghost use Rattle.std.specs.String.{string_bytes};
ghost use Rattle.cidr_merge.specs.FieldNames.{field_in, fields_of};

use crate::named_lists::add_name;
use crate::rows::JSON_FIELD;
use options::items::Item;
use std::alloc::{AllocError, Global};

/// The NAMEs of `--json-field`, in their order.
pub(crate) fn fields_of(alloc: Global, items: &[Item<'_>]) -> Result<Vec<String>, AllocError>
    ensures { IfOk result (λ fields. map string_bytes fields.items ≡ fields_of items.now) }
{
    let mut fields = Vec::new(alloc);
    let mut at = 0;
    while at < items.len() {
        add_field(alloc, &items[at], &mut fields)?;
        at += 1;
    }
    Ok(fields)
}

// Adds the name that an item gives, if it gives one.
fn add_field(alloc: Global, item: &Item<'_>, fields: &mut Vec<String>) -> Result<(), AllocError>
    ensures { OnOk result (map string_bytes fields.new.items
        ≡ map string_bytes fields.old.items ++ field_in item.now) }
{
    match item {
        Item::Value(JSON_FIELD, name) | Item::Joined(JSON_FIELD, name, _) => {
            add_name(alloc, name.as_str(), "", fields)
        }
        _ => Ok(()),
    }
}
