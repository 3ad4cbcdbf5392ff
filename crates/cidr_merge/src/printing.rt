//! Prints the result of a merge.
ghost use Rattle.std.specs.Prelude.{◌≤◌, ◌++◌, codes};
ghost use Rattle.std.specs.List.{flat_map};
ghost use Rattle.ipnetwork_sets.specs.RangeLists.{IsRangeList};
ghost use Rattle.cidr_merge.specs.Answers.{count_line, merged_by};
ghost use Rattle.cidr_merge.specs.Answers.{AreCounts, IsAnswer, IsCount, IsLeft};
ghost use Rattle.cidr_merge.specs.Private.Printing.{PutsSome};
ghost use Rattle.cidr_merge.specs.Private.Sweeps.{left_of_second};
ghost use Rattle.cidr_merge.specs.declared.command_line.Form.TheVariants as forms;
ghost use Rattle.program.specs.Putting.{PutsOrFails};

use crate::command_line::{Form, Operation, Request};
use crate::counts::{CountText, Counts};
use crate::exporting::print_export;
use crate::merge_join::{MergeJoin, Side};
use crate::reading::Sets;
use crate::set_names::SetNames;
use crate::side_parts::{Parts, sign_of};
use crate::sweep::Sweep;
use ipnetwork::{Address, Network};
use ipnetwork_sets::{AddressSet, Ranges};
use lines::fault::RunFault;
use lines::output::Output;
use program::putting::put_all;
use std::io::Write;

/// A request, and the addresses read from the lists of its sides.
#[derive(Drop)]
pub(crate) struct Merging<'a> {
    /// The request.
    pub request: Request,
    /// The names of the sets of an export, and the texts around each line.
    pub sets: &'a SetNames<'a>,
    /// The addresses of the first side.
    pub first: &'a Sets,
    /// The addresses of the second side.
    pub second: &'a Sets,
}

/// Prints the result of the operation on the two sides.
pub(crate) fn print<W: Write>(
    merging: &Merging<'_>,
    output: &mut Output<'_, W>,
) -> Result<(), RunFault>
    ensures { let m = merging.now in PutsSome result
        (IsAnswer m.sets.now m.request.operation m.request.form m.first.now m.second.now)
        output.old output.new }
{
    match merging.request.form {
        Form::Blocks => print_blocks(merging, output),
        Form::Ranges => print_ranges(merging, output),
        Form::Counts => print_counts(merging, output),
        Form::Exported(export) => {
            let operation = merging.request.operation;
            let v4 = Sweep::of(operation, &merging.first.v4, &merging.second.v4);
            let v6 = Sweep::of(operation, &merging.first.v6, &merging.second.v6);
            print_export(export, merging.sets, v4, v6, output)
        }
    }
}

// Prints the result as blocks. All of it is known before the first is printed.
fn print_blocks<W: Write>(merging: &Merging<'_>, output: &mut Output<'_, W>) -> Result<(), RunFault>
    ensures { let m = merging.now in PutsSome result
        (IsAnswer m.sets.now m.request.operation forms.Blocks m.first.now m.second.now)
        output.old output.new }
{
    let operation = merging.request.operation;
    let first = merging.first;
    let second = merging.second;
    let v4 = Sweep::of(operation, &first.v4, &second.v4);
    let v4_others = Sweep::of(Operation::Minus, &second.v4, &first.v4);
    let v6 = Sweep::of(operation, &first.v6, &second.v6);
    let v6_others = Sweep::of(Operation::Minus, &second.v6, &first.v6);
    print_parts(merging.sets, operation, v4, v4_others, output)?;
    print_parts(merging.sets, operation, v6, v6_others, output)
}

// Prints the result as ranges.
fn print_ranges<W: Write>(merging: &Merging<'_>, output: &mut Output<'_, W>) -> Result<(), RunFault>
    ensures { let m = merging.now in PutsSome result
        (IsAnswer m.sets.now m.request.operation forms.Ranges m.first.now m.second.now)
        output.old output.new }
{
    let operation = merging.request.operation;
    let first = merging.first;
    let second = merging.second;
    let v4 = ranges_of(operation, &first.v4, &second.v4);
    let v4_others = ranges_of(Operation::Minus, &second.v4, &first.v4);
    let v6 = ranges_of(operation, &first.v6, &second.v6);
    let v6_others = ranges_of(Operation::Minus, &second.v6, &first.v6);
    print_parts(merging.sets, operation, v4, v4_others, output)?;
    print_parts(merging.sets, operation, v6, v6_others, output)
}

// The ranges of the first set's addresses in the result.
fn ranges_of<'a, A: Address>(
    operation: Operation,
    first: &'a AddressSet<Network<A>>,
    second: &'a AddressSet<Network<A>>,
) -> Ranges<Network<A>, Sweep<'a, Network<A>>>
    ensures { IsRangeList (IsLeft operation A.WIDTH first.now second.now) result }
{
    let blocks = Sweep::of(operation, first, second);
    Ranges::of(blocks)
}

// Prints the parts of the first side and, for `differ`, those of the second among them.
#[tactic(auto, using(crate::proofs::Printed::printing))]
fn print_parts<P: Parts, W: Write>(
    names: &SetNames<'_>,
    operation: Operation,
    firsts: P,
    seconds: P,
    output: &mut Output<'_, W>,
) -> Result<(), RunFault>
    ensures { PutsOrFails result output.old output.new
        (flat_map (P.line names.now operation)
        (merged_by P.begin (P.left firsts) (left_of_second operation (P.left seconds)))) }
{
    let mut parts = MergeJoin::of(operation, firsts, seconds);
    while let Some(next) = parts.next() {
        P::put(names, operation, next.0, next.1, output)?;
    }
    Ok(())
}

// Prints the counts of both families; for `differ`, those of each side.
fn print_counts<W: Write>(merging: &Merging<'_>, output: &mut Output<'_, W>) -> Result<(), RunFault>
    ensures { let m = merging.now in PutsSome result
        (AreCounts m.request.operation m.first.now m.second.now) output.old output.new }
{
    let operation = merging.request.operation;
    let first = merging.first;
    let second = merging.second;
    let sign = sign_of(operation, Side::First);
    let firsts = counts_of(operation, first, second);
    match operation {
        Operation::Differ => {
            let seconds = counts_of(operation, second, first);
            put_counts(sign, &firsts, output)?;
            put_counts(sign_of(operation, Side::Second), &seconds, output)
        }
        _ => put_counts(sign, &firsts, output),
    }
}

// The texts of the counts of the first side's addresses in the result, for both families.
fn counts_of(operation: Operation, first: &Sets, second: &Sets) -> (CountText, CountText)
    ensures v4 { IsCount 32 (IsLeft operation 32 first.now.v4 second.now.v4) result.0.bytes }
    ensures v6 { IsCount 128 (IsLeft operation 128 first.now.v6 second.now.v6) result.1.bytes }
{
    let v4 = count_of(operation, &first.v4, &second.v4);
    let v6 = count_of(operation, &first.v6, &second.v6);
    (v4, v6)
}

// The text of the counts of the first set's addresses in the result.
fn count_of<A: Address>(
    operation: Operation,
    first: &AddressSet<Network<A>>,
    second: &AddressSet<Network<A>>,
) -> CountText
    requires some { 1 ≤ A.WIDTH }
    requires bits { A.WIDTH ≤ 128 }
    ensures { IsCount A.WIDTH (IsLeft operation A.WIDTH first.now second.now) result.bytes }
{
    let blocks = Sweep::of(operation, first, second);
    let counts = Counts::of(blocks);
    counts.text()
}

// Prints the lines with the counts of both families, each after a sign.
fn put_counts<W: Write>(
    sign: &str,
    counts: &(CountText, CountText),
    output: &mut Output<'_, W>,
) -> Result<(), RunFault>
    ensures { PutsOrFails result output.old output.new
        (count_line (sign.now ++ codes "v4 ") counts.now.0.bytes
        ++ count_line (sign.now ++ codes "v6 ") counts.now.1.bytes) }
{
    put_all(
        &[
            sign,
            "v4 ",
            counts.0.as_str(),
            "\n",
            sign,
            "v6 ",
            counts.1.as_str(),
            "\n",
        ],
        output,
    )
}
