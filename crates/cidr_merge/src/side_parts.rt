//! The parts of one side that are in an operation's result: blocks, or ranges of addresses.
ghost use Rattle.std.specs.Prelude.{◌≡◌, ◌∷◌, ◌↔◌, ◌<◌, ℕ, List, [], IsTrue, MatchOption};
ghost use Rattle.std.specs.Prelude.{codes};
ghost use Rattle.ipnetwork_family.specs.Network.{Network};
ghost use Rattle.cidr_merge.specs.Answers.{Sided, sign_of, block_line, range_line};
ghost use Rattle.cidr_merge.specs.Private.Sweeps.{blocks_left, numbers};
ghost use Rattle.cidr_merge.specs.SetNames.{Names, line_of};
ghost use Rattle.program.specs.Putting.{PutsOrFails};
ghost use Rattle.cidr_merge.specs.declared.command_line.Operation.{Operation};

use crate::command_line::Operation;
use crate::cutting::put_network;
use crate::merge_join::Side;
use crate::set_names::SetNames;
use crate::sweep::Sweep;
use ipnetwork::{Address, CidrNetwork, Network};
use ipnetwork_sets::{Ranges, SetBlocks};
use lines::fault::RunFault;
use lines::output::Output;
use program::putting::put_all;
use std::io::Write;

/// An iterator over parts, in ascending order of their first addresses.
pub(crate) trait Parts: Drop {
    /// A part.
    type Part: Copy;

    // A part as contracts see it.
    ghost Seen: { Type 0 };

    ghost seen: { Self.Part → Seen };

    ghost begin: { Seen → ℕ };

    // The parts that are still to come.
    ghost left: { Self → List Seen };

    // The line that a part is printed as.
    ghost line: { Names → Operation → Sided Seen → List ℕ };

    /// Returns the next part.
    fn next_part(&mut self) -> Option<Self::Part>
        ensures { MatchOption result ((left self.old ≡ []) × (left self.new ≡ []))
            (λ part. left self.old ≡ seen part ∷ left self.new) };

    /// Returns whether the first part begins before the second.
    fn begins_before(first: Self::Part, second: Self::Part) -> bool
        ensures { IsTrue result ↔ (begin (seen first) < begin (seen second)) };

    /// Prints a part of a side on a line.
    fn put<W: Write>(
        names: &SetNames<'_>,
        operation: Operation,
        side: Side,
        part: Self::Part,
        output: &mut Output<'_, W>,
    ) -> Result<(), RunFault>
        ensures { PutsOrFails result output.old output.new
            (line names.now operation (record { side = side; part = seen part })) };
}

// Blocks as parts.
impl<'a, A: Address> Parts for Sweep<'a, Network<A>> {
    type Part = Network<A>;

    ghost Seen = { Network };

    ghost seen = { λ block. block };

    ghost begin = { λ block. block.address };

    ghost left = { blocks_left };

    ghost line = { λ names operation. block_line names operation A.family };

    fn next_part(&mut self) -> Option<Network<A>> {
        self.next_block()
    }

    fn begins_before(first: Network<A>, second: Network<A>) -> bool {
        first.ip() < second.ip()
    }

    fn put<W: Write>(
        names: &SetNames<'_>,
        operation: Operation,
        side: Side,
        block: Network<A>,
        output: &mut Output<'_, W>,
    ) -> Result<(), RunFault> {
        output.put(sign_of(operation, side).as_bytes())?;
        put_network(names, block, output)
    }
}

// Ranges as parts: the first and the last address of each.
impl<'a, A: Address> Parts for Ranges<Network<A>, Sweep<'a, Network<A>>> {
    type Part = (A, A);

    ghost Seen = { ℕ × ℕ };

    ghost seen = { numbers A.number };

    ghost begin = { λ range. range.0 };

    ghost left = { λ left. left };

    ghost line = { λ names operation. range_line names operation A.family };

    fn next_part(&mut self) -> Option<(A, A)> {
        self.next()
    }

    fn begins_before(first: (A, A), second: (A, A)) -> bool {
        first.0 < second.0
    }

    fn put<W: Write>(
        names: &SetNames<'_>,
        operation: Operation,
        side: Side,
        range: (A, A),
        output: &mut Output<'_, W>,
    ) -> Result<(), RunFault> {
        output.put(sign_of(operation, side).as_bytes())?;
        put_range(names, range, output)
    }
}

// Prints a range on a line.
fn put_range<A: Address, W: Write>(
    names: &SetNames<'_>,
    range: (A, A),
    output: &mut Output<'_, W>,
) -> Result<(), RunFault>
    ensures { PutsOrFails result output.old output.new (line_of names.now
        (A.family.canonical (A.number range.0) ∷ codes " - "
        ∷ A.family.canonical (A.number range.1) ∷ [])) }
{
    let (first, last) = (range.0.canonical(), range.1.canonical());
    put_all(
        &[
            names.before,
            first.as_str(),
            " - ",
            last.as_str(),
            names.after,
            "\n",
        ],
        output,
    )
}

/// Returns the text before a part of a side.
pub(crate) fn sign_of(operation: Operation, side: Side) -> &'static str
    ensures { result.now ≡ sign_of operation side }
{
    match operation {
        Operation::Differ => match side {
            Side::First => "< ",
            Side::Second => "> ",
        },
        _ => "",
    }
}
