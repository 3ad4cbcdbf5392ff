//! Prints an export.
ghost use Rattle.std.specs.Prelude.{◌≡◌, ◌++◌, ◌||◌, IfOk};
ghost use Rattle.std.specs.List.{flat_map};
ghost use Rattle.program.specs.Putting.{PutsOrFails};
ghost use Rattle.cidr_merge.specs.Exports.{element, following, is_any, listed, family_text};
ghost use Rattle.cidr_merge.specs.Exports.{export_text};
ghost use Rattle.cidr_merge.specs.Private.Sweeps.{blocks_left};

use crate::elements::print_element;
use crate::exports::{Export, Frame, Version, around_blocks, put_frame};
use crate::set_names::SetNames;
use crate::sweep::Sweep;
use ipnetwork::{Address, Ipv4Network, Ipv6Network, Network};
use ipnetwork_sets::SetBlocks;
use lines::fault::RunFault;
use lines::output::Output;
use std::io::Write;

/// Prints an export of the blocks of both families.
pub(crate) fn print_export<W: Write>(
    export: Export,
    names: &SetNames<'_>,
    v4: Sweep<'_, Ipv4Network>,
    v6: Sweep<'_, Ipv6Network>,
    output: &mut Output<'_, W>,
) -> Result<(), RunFault>
    ensures { PutsOrFails result output.old output.new
        (export_text names.now export (blocks_left v4.entry) (blocks_left v6.entry)) }
{
    put_frame(export, names, Frame::Head, output)?;
    let follows = print_family(export, names, Version::V4, false, v4, output)?;
    print_family(export, names, Version::V6, follows, v6, output)?;
    put_frame(export, names, Frame::Foot, output)
}

// Prints the blocks of a family, and returns whether any block was printed up to now. `follows`
// says whether blocks of the other family were printed before.
fn print_family<A: Address, W: Write>(
    export: Export,
    names: &SetNames<'_>,
    version: Version,
    follows: bool,
    blocks: Sweep<'_, Network<A>>,
    output: &mut Output<'_, W>,
) -> Result<bool, RunFault>
    ensures puts { PutsOrFails result output.old output.new
        (family_text names.now export version A.family follows (blocks_left blocks.entry)) }
    ensures any { IfOk result (λ any. any ≡ (follows || is_any (blocks_left blocks.entry))) }
{
    put_frame(export, names, Frame::FamilyHead(version), output)?;
    let any = print_listed(export, names, version, follows, blocks, output)?;
    put_frame(export, names, Frame::FamilyFoot(version), output)?;
    Ok(any)
}

// Prints the blocks of a family, and the texts around them if there are any.
fn print_listed<A: Address, W: Write>(
    export: Export,
    names: &SetNames<'_>,
    version: Version,
    follows: bool,
    mut blocks: Sweep<'_, Network<A>>,
    output: &mut Output<'_, W>,
) -> Result<bool, RunFault>
    ensures puts { PutsOrFails result output.old output.new
        (listed names.now export version A.family follows (blocks_left blocks.entry)) }
    ensures any { IfOk result (λ any. any ≡ (follows || is_any (blocks_left blocks.entry))) }
{
    let Some(block) = blocks.next_block() else {
        return Ok(follows);
    };
    put_frame(export, names, Frame::Opening(version, follows), output)?;
    print_element(export, names, version, block, output)?;
    print_following(export, names, version, blocks, output)?;
    let (_, closing) = around_blocks(export);
    output.put(closing.as_bytes())?;
    Ok(true)
}

// Prints the blocks after the first of a family.
#[tactic(auto, using(crate::proofs::Printed::printing))]
fn print_following<A: Address, W: Write>(
    export: Export,
    names: &SetNames<'_>,
    version: Version,
    mut blocks: Sweep<'_, Network<A>>,
    output: &mut Output<'_, W>,
) -> Result<(), RunFault>
    ensures { PutsOrFails result output.old output.new
        (flat_map (following names.now export version A.family) (blocks_left blocks.entry)) }
{
    let (separator, _) = around_blocks(export);
    while let Some(block) = blocks.next_block() {
        print_after(separator, export, names, version, block, output)?;
    }
    Ok(())
}

// Prints a text, and then a block.
fn print_after<A: Address, W: Write>(
    text: &str,
    export: Export,
    names: &SetNames<'_>,
    version: Version,
    block: Network<A>,
    output: &mut Output<'_, W>,
) -> Result<(), RunFault>
    ensures { PutsOrFails result output.old output.new
        (text.now ++ element names.now export version A.family block) }
{
    output.put(text.as_bytes())?;
    print_element(export, names, version, block, output)
}
