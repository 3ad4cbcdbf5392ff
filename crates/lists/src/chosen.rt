//! Which strings of JSON documents are taken.
ghost use Rattle.std.specs.Prelude.{◌≡◌, map, not};
ghost use Rattle.std.specs.List.{position};
ghost use Rattle.std.specs.String.{string_bytes};
ghost use Rattle.serde_json.specs.View.{view};
ghost use Rattle.lists.specs.Fields.{first_lacking, have_field, is_named};

use crate::fields::has_field;
use serde_json::Value;
use std::marker::Model;

/// The names of fields: members of objects of JSON.
///
/// ```
/// let names = [String::from_str(rt.alloc(), "ip_prefix")?];
/// let fields = lists::FieldNames::new(&names);
/// assert!(rt; fields.has("ip_prefix") && !fields.has("ip_prefixes") && !fields.has("ip"));
/// ```
#[derive(Debug, Drop)]
pub struct FieldNames<'a> {
    names: &'a [String],
}

// Contracts see the bytes of each name.
impl<'a> Model for FieldNames<'a> {
    ghost use Rattle.std.specs.Prelude.{ℕ, List, map};
    ghost use Rattle.std.specs.String.{string_bytes};

    ghost Value = { List (List ℕ) };

    ghost view = { λ fields. map string_bytes fields.names.now };
}

impl<'a> FieldNames<'a> {
    /// Creates the names of fields from texts.
    ///
    /// ```
    /// let fields = lists::FieldNames::new(&[]);
    /// assert!(rt; !fields.has(""));
    /// ```
    pub fn new(names: &'a [String]) -> FieldNames<'a>
        ensures { result ≡ map string_bytes names.now }
    {
        FieldNames { names }
    }

    /// Returns whether a key is one of the names.
    ///
    /// ```
    /// let names = [String::from_str(rt.alloc(), "cidr")?];
    /// assert!(rt; !lists::FieldNames::new(&names).has("CIDR"));
    /// ```
    pub fn has(&self, key: &str) -> bool
        ensures { result ≡ is_named self.now key.now }
    {
        for name in self.names {
            if name.as_str() == key {
                return true;
            }
        }
        false
    }

    /// Returns the index of the first name of which documents have no member; of no names, 0.
    pub(crate) fn first_lacking(&self, documents: &[Value]) -> Option<usize>
        ensures { result ≡ first_lacking self.now (map view documents.now) }
    {
        if self.names.is_empty() {
            return Some(0);
        }
        first_without(self.names, documents)
    }
}

// Returns the index of the first of these names of which documents have no member.
fn first_without(names: &[String], documents: &[Value]) -> Option<usize>
    ensures { result ≡ position
        (λ name. not (have_field (map view documents.now) (string_bytes name))) names.now }
{
    names
        .iter()
        .position(|name| !have_field(documents, name.as_str()))
}

// Returns whether a member with this name is in one of the documents.
fn have_field(documents: &[Value], name: &str) -> bool
    ensures { result ≡ have_field (map view documents.now) name.now }
{
    for document in documents {
        if has_field(name, document) {
            return true;
        }
    }
    false
}

/// Which strings of JSON documents are taken, and which of them are refused if they are no entry.
///
/// ```
/// use lists::{FieldNames, Strings};
///
/// let names = [String::from_str(rt.alloc(), "ip_prefix")?];
/// let strings = Strings::OfFields(FieldNames::new(&names));
/// assert!(rt; matches!(strings, Strings::OfFields(_)));
/// ```
#[derive(Debug, Drop)]
pub enum Strings<'a> {
    /// All, of which those that look like an entry have to be one.
    LookingLikeEntries,
    /// All, each of which has to be an entry.
    All,
    /// Those of fields with one of these names, each of which has to be an entry.
    OfFields(FieldNames<'a>),
}
