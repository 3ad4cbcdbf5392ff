//! Splits networks into subnets of one prefix length.
ghost use Rattle.std.specs.List.{flat_map};
ghost use Rattle.program.specs.Putting.{PutsOrFails};
ghost use Rattle.cidr_merge.specs.Pieces.{network_line, pieces_text};

use crate::set_names::{SetNames, put_line};
use ipnetwork::{Address, CidrNetwork, Network};
use ipnetwork_blocks::subnets;
use ipnetwork_sets::AddressSet;
use lines::fault::RunFault;
use lines::output::Output;
use std::io::Write;

/// Prints the subnets of this prefix length of each block of a set, or the block if it has none.
#[tactic(auto, using(crate::proofs::Printed::printing))]
pub(crate) fn print_pieces<A: Address, W: Write>(
    names: &SetNames<'_>,
    length: u8,
    set: &AddressSet<Network<A>>,
    output: &mut Output<'_, W>,
) -> Result<(), RunFault>
    ensures { PutsOrFails result output.old output.new
        (flat_map (pieces_text names.now A.family length) set.now) }
{
    let mut blocks = set.iter();
    while let Some(block) = blocks.next() {
        print_block(names, length, block, output)?;
    }
    Ok(())
}

// Prints the pieces of a block, or the block itself if it has no subnets of this length.
#[tactic(auto, using(crate::proofs::Printed::printing))]
fn print_block<A: Address, W: Write>(
    names: &SetNames<'_>,
    length: u8,
    block: Network<A>,
    output: &mut Output<'_, W>,
) -> Result<(), RunFault>
    ensures { PutsOrFails result output.old output.new
        (pieces_text names.now A.family length block) }
{
    let Some(mut pieces) = subnets(block, length) else {
        return put_network(names, block, output);
    };
    while let Some(piece) = pieces.next() {
        put_network(names, piece, output)?;
    }
    Ok(())
}

/// Prints a network on a line of its own.
pub(crate) fn put_network<A: Address, W: Write>(
    names: &SetNames<'_>,
    network: Network<A>,
    output: &mut Output<'_, W>,
) -> Result<(), RunFault>
    ensures { PutsOrFails result output.old output.new (network_line names.now A.family network) }
{
    put_line(names, network.canonical().as_str(), output)
}
