//! Reads the lists of a side.
ghost use Rattle.std.specs.Prelude.{◌≡◌, ◌+◌, ◌^◌, ◌<◌, false, length, OnOk, IfErr};
ghost use Rattle.ipnetwork_blocks.specs.Aggregate.{IsAggregate};
ghost use Rattle.lists.specs.Lists.{nothing_read};
ghost use Rattle.cidr_merge.specs.Families.{looked_at};
ghost use Rattle.cidr_merge.specs.declared.exports.Version.TheVariants as versions;
ghost use Rattle.cidr_merge.specs.Reading.{ReadsLists, ReadsSide};
ghost use Rattle.cidr_merge.specs.Shapes.{rules_of, source};
ghost use Rattle.cidr_merge.specs.Stopping.{Stops};

use crate::context::Context;
use crate::exports::Version;
use crate::families::looked_at;
use crate::help::PROGRAM;
use crate::shapes::{Shape, read_one, rules_of};
use ipnetwork::{Ipv4Network, Ipv6Network};
use ipnetwork_sets::AddressSet;
use lines::output::Output;
use lists::{ListReader, OpenLists, ReadFault, Refusals};
use program::ending::FAILED;
use program::telling::tell_fault;
use std::io::Write;

/// The addresses of a side, by family.
#[derive(Debug, Drop)]
pub(crate) struct Sets {
    pub(crate) v4: AddressSet<Ipv4Network>,
    pub(crate) v6: AddressSet<Ipv6Network>,
}

/// Reads the lists of these names, in order; `first` is the index of the first of them. The sets
/// have the addresses of the families that are looked at.
///
/// The refused lines are added to `refusals`, even if the reading ends with a fault.
pub(crate) fn read_side<L: OpenLists>(
    context: &Context<'_, L>,
    shape: Shape,
    names: &[String],
    first: usize,
    refusals: Refusals,
) -> (Sets, Refusals, Result<(), ReadFault>)
    requires { first + length names.now < 2 ^ 64 }
    ensures read { OnOk result.2 (ReadsSide (source (L.known context.now.lists.now)
        context.now.sets.now.fields shape) context.now.sets.now.only first names.now
        refusals result.0 result.1) }
    ensures stopped { IfErr result.2 (Stops (source (L.known context.now.lists.now)
        context.now.sets.now.fields shape) first names.now
        (nothing_read (rules_of shape) refusals)) }
{
    let mut reader = ListReader::new(context.alloc, rules_of(shape), refusals);
    let end = read_all(context, shape, names, first, &mut reader);
    let sets = context.sets;
    let (v4, v6, refusals) = into_sets(sets.only, reader);
    (Sets { v4, v6 }, refusals, end)
}

// Returns the sets of the addresses that were read, of the families that are looked at, and the
// refused lines.
fn into_sets(
    only: Option<Version>,
    reader: ListReader,
) -> (AddressSet<Ipv4Network>, AddressSet<Ipv6Network>, Refusals)
    ensures v4 { IsAggregate 32 (looked_at only versions.V4 reader.v4) result.0 }
    ensures v6 { IsAggregate 128 (looked_at only versions.V6 reader.v6) result.1 }
    ensures refused { result.2 ≡ reader.refused }
{
    let (v4, v6, refusals) = reader.into_networks();
    (
        AddressSet::from_networks(looked_at(only, Version::V4, v4)),
        AddressSet::from_networks(looked_at(only, Version::V6, v6)),
        refusals,
    )
}

// Reads the lists of these names, in order.
fn read_all<L: OpenLists>(
    context: &Context<'_, L>,
    shape: Shape,
    names: &[String],
    first: usize,
    reader: &mut ListReader,
) -> Result<(), ReadFault>
    requires fits { first + length names.now < 2 ^ 64 }
    requires memory { reader.old.is_out_of_memory ≡ false }
    ensures read { OnOk result (ReadsLists (source (L.known context.now.lists.now)
        context.now.sets.now.fields shape) first names.now reader.old reader.new) }
    ensures memory { OnOk result (reader.new.is_out_of_memory ≡ false) }
    ensures stopped { IfErr result (Stops (source (L.known context.now.lists.now)
        context.now.sets.now.fields shape) first names.now reader.old) }
{
    for place in 0..names.len() {
        read_one(context, shape, names[place].as_str(), first + place, reader)?;
    }
    Ok(())
}

/// Reports why lists could not be read to their ends, and returns the exit status for that.
pub(crate) fn refuse_lists<L: OpenLists, E: Write>(
    context: &Context<'_, L>,
    fault: ReadFault,
    errors: &mut Output<'_, E>,
) -> u8
    ensures { result ≡ 2 }
{
    let fields = context.sets.field_names();
    tell_fault(PROGRAM, context.names, fields, fault, errors);
    FAILED
}
