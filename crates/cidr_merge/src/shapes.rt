//! The formats of lists, and how a list is read.
ghost use Rattle.std.specs.Prelude.{◌≡◌, false, map, OnOk, IfErr};
ghost use Rattle.std.specs.String.{string_bytes};
ghost use Rattle.cidr_merge.specs.Forms.{line_form_called};
ghost use Rattle.cidr_merge.specs.Shapes.{rules_of, source, strings_in};
ghost use Rattle.cidr_merge.specs.Shapes.{ReadsBy, ReadsOne, StopsBy, StopsOne};

use crate::context::Context;
use crate::named_lists::text_in;
use lists::{
    FieldNames, LineForm, ListReader, OpenLists, ReadFault, Rules, Strings, read_document,
    read_named, read_text,
};

/// The format of lists.
#[derive(Clone, Copy, Debug, PartialEq, Eq)]
pub enum Shape {
    /// Text with one entry on a line, by these rules.
    Lines(Rules),
    /// JSON documents; strings that name no entry are refused only if they look like one.
    Json,
    /// JSON documents; strings that name no entry are refused, and entries with host bits.
    StrictJson,
    /// JSON documents; only strings of fields are read, and those that name no entry are refused.
    Fields,
    /// Such documents; entries with host bits are refused too.
    StrictFields,
}

/// Returns the form of this name in which lines are read.
pub(crate) fn line_form_called(text: &str) -> Option<LineForm>
    ensures { result ≡ line_form_called text.now }
{
    match text {
        "csv" => Some(LineForm::Csv),
        "ipset" => Some(LineForm::Ipset),
        "nft" => Some(LineForm::Nft),
        _ => None,
    }
}

/// Returns the rules of lists of this format.
pub(crate) fn rules_of(shape: Shape) -> Rules
    ensures { result ≡ rules_of shape }
{
    match shape {
        Shape::Lines(rules) => rules,
        Shape::Json | Shape::Fields => Rules::lenient(),
        Shape::StrictJson | Shape::StrictFields => Rules {
            refuses_host_bits: true,
            ..Rules::lenient()
        },
    }
}

/// Reads the list of this name, which is the word at the index `place`, to the end.
pub(crate) fn read_one<L: OpenLists>(
    context: &Context<'_, L>,
    shape: Shape,
    name: &str,
    place: usize,
    reader: &mut ListReader,
) -> Result<(), ReadFault>
    ensures read { OnOk result (ReadsOne (source (L.known context.now.lists.now)
        context.now.sets.now.fields shape) place name.now reader.old reader.new) }
    ensures memory { OnOk result (reader.new.is_out_of_memory ≡ false) }
    ensures stopped { IfErr result (λ fault. StopsOne (source (L.known context.now.lists.now)
        context.now.sets.now.fields shape) place name.now reader.old fault reader.new.refused) }
{
    match text_in(name) {
        Some(text) => read_text(text, place, reader),
        None => read_file(context, shape, name, place, reader),
    }
}

// Returns the strings that are taken of JSON documents, if lists of this format are such documents.
fn strings_in(shape: Shape, fields: &[String]) -> Option<Strings<'_>>
    ensures { result ≡ strings_in shape (map string_bytes fields.now) }
{
    match shape {
        Shape::Lines(_) => None,
        Shape::Json => Some(Strings::LookingLikeEntries),
        Shape::StrictJson => Some(Strings::All),
        Shape::Fields | Shape::StrictFields => Some(Strings::OfFields(FieldNames::new(fields))),
    }
}

// Opens the FILE of this name, reads it to the end, and closes it.
fn read_file<L: OpenLists>(
    context: &Context<'_, L>,
    shape: Shape,
    name: &str,
    place: usize,
    reader: &mut ListReader,
) -> Result<(), ReadFault>
    ensures read { OnOk result (ReadsBy (source (L.known context.now.lists.now)
        context.now.sets.now.fields shape) place name.now reader.old reader.new) }
    ensures memory { OnOk result (reader.new.is_out_of_memory ≡ false) }
    ensures stopped { IfErr result (λ fault. StopsBy (source (L.known context.now.lists.now)
        context.now.sets.now.fields shape) place name.now reader.old fault reader.new.refused) }
{
    let lists = context.lists;
    match strings_in(shape, context.sets.field_names()) {
        None => read_named(lists, name, place, reader),
        Some(strings) => read_document(context.alloc, lists, name, place, &strings, reader),
    }
}
