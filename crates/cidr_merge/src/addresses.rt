//! Prints addresses.
ghost use Rattle.std.specs.List.{flat_map};
ghost use Rattle.program.specs.Putting.{PutsOrFails};
ghost use Rattle.cidr_merge.specs.Exports.{address_line};

use crate::set_names::{SetNames, put_line};
use ipnetwork::{Address, NetworkIterator};
use lines::fault::RunFault;
use lines::output::Output;
use std::io::Write;

/// Prints each address on a line of its own.
#[tactic(auto, using(crate::proofs::Printed::printing))]
pub(crate) fn print_addresses<A: Address, W: Write>(
    names: &SetNames<'_>,
    mut addresses: NetworkIterator<A>,
    output: &mut Output<'_, W>,
) -> Result<(), RunFault>
    ensures { PutsOrFails result output.old output.new
        (flat_map (address_line names.now A.family) addresses) }
{
    while let Some(address) = addresses.next() {
        put_address(names, address, output)?;
    }
    Ok(())
}

// Prints an address on a line.
fn put_address<A: Address, W: Write>(
    names: &SetNames<'_>,
    address: A,
    output: &mut Output<'_, W>,
) -> Result<(), RunFault>
    ensures { PutsOrFails result output.old output.new
        (address_line names.now A.family (A.number address)) }
{
    put_line(names, address.canonical().as_str(), output)
}
