//! What follows from the laws of this crate. Nothing calls these functions: each needs one law, and
//! is not proved without it.
ghost use Rattle.std.specs.Prelude.{◌≡◌, ◌↔◌, ◌<◌, ◌≤◌, ℕ, List, ◌++◌, codes, length};
ghost use Rattle.std.specs.List.{AllByRecursion};
ghost use Rattle.std.specs.Str.Lines.{lines};
ghost use Rattle.cidr.specs.Computed.Output.{output_of};
ghost use Rattle.cidr.specs.Laws.Commands.{Read4Law, Read6Law, ReadLaw, EndsLaw, Has4Law, HasLaw, RelLaw, AddLaw, DropLaw, FindLaw, IsCommand, IsAnswered};
ghost use Rattle.cidr.specs.Laws.Outputs.{ComputedIsAllowed, IsFullOutput, IsPlainLine, OthersAreRouting, PlainLinesAskNothing, EndsALine, IsOutputInParts, AskingPartsRunAfterRoutes, plain_output, UnrefusedIsComputed, UnrefusedLinesAreComputed, PlainPartsRunAlone};
ghost use Rattle.cidr.specs.Laws.Routes.{AddsGet, DropsGet, FindsGet, FirstFindsNothing, FirstDropsNothing, FirstAddsNew};
ghost use Rattle.cidr.specs.Laws.Runs.{AfterOk, AfterReadFault, AfterWriteFault, AfterTooLong};
ghost use Rattle.cidr.specs.Laws.Sets.{Has4AnswersMembership, HasAnswersMembership, RelatesSets};
ghost use Rattle.cidr.specs.Output.{IsOutput, IsOutputFrom};
ghost use Rattle.cidr.specs.Routes.{Routes};
ghost use Rattle.cidr.specs.Words.{words};

use super::{
    a_run_begins_with_no_routes, after_a_read_fault, after_a_write_fault, after_ok,
    after_too_long_an_input, has_answers_membership, has4_answers_membership,
    lines_about_one_network, lines_about_routes, lines_about_sets, other_lines,
    output_without_refusals, plain_lines_ask_nothing, rel_answers_sets, routes_by_sets,
    split_at_line_ends,
};

fn a_network_is_read()
    ensures read4 { Read4Law }
    ensures read6 { Read6Law }
    ensures read { ReadLaw }
    ensures ends { EndsLaw }
{
    lines_about_one_network();
}

fn sets_are_asked()
    ensures has4 { Has4Law }
    ensures has { HasLaw }
    ensures rel { RelLaw }
{
    lines_about_sets();
}

fn routes_are_asked()
    ensures add { AddLaw }
    ensures drop { DropLaw }
    ensures find { FindLaw }
{
    lines_about_routes();
}

fn no_other_command_is_answered()
    ensures unknown { (line : List ℕ) → length line ≤ 1024 → ¬ (IsCommand (words line))
        → IsAnswered line (codes "unknown command") }
    ensures long { (line : List ℕ) → 1024 < length line → IsAnswered line (codes "line too long") }
{
    other_lines();
}

fn membership_of_v4_is_answered()
    ensures { Has4AnswersMembership }
{
    has4_answers_membership();
}

fn membership_is_answered()
    ensures { HasAnswersMembership }
{
    has_answers_membership();
}

fn sets_are_compared()
    ensures { RelatesSets }
{
    rel_answers_sets();
}

fn an_input_has_one_output()
    ensures one { (input output : List ℕ) → IsFullOutput input output ↔ (output ≡ output_of input) }
    ensures allowed { (input : List ℕ) → IsOutput input (output_of input) }
    ensures answers { UnrefusedIsComputed }
    ensures told { UnrefusedLinesAreComputed }
{
    output_without_refusals();
}

fn a_plain_input_has_one_output()
    ensures one { (input output : List ℕ) → AllByRecursion IsPlainLine (lines input)
        → IsOutput input output ↔ (output ≡ plain_output input) }
    ensures line { PlainLinesAskNothing }
    ensures others { OthersAreRouting }
{
    plain_lines_ask_nothing();
}

fn an_input_is_cut()
    ensures parts { (front back output : List ℕ) (before after : Routes) → EndsALine front
        → IsOutputFrom before (front ++ back) output after
        ↔ IsOutputInParts before front back output after }
    ensures alone { PlainPartsRunAlone }
    ensures asked { AskingPartsRunAfterRoutes }
{
    split_at_line_ends();
}

fn routes_go_by_sets()
    ensures add { AddsGet }
    ensures drop { DropsGet }
    ensures find { FindsGet }
{
    routes_by_sets();
}

fn a_first_line_finds_nothing()
    ensures find { FirstFindsNothing }
    ensures drop { FirstDropsNothing }
    ensures add { FirstAddsNew }
{
    a_run_begins_with_no_routes();
}

fn ok_has_an_output()
    ensures { AfterOk }
{
    after_ok();
}

fn a_read_fault_has_whole_lines()
    ensures { AfterReadFault }
{
    after_a_read_fault();
}

fn a_write_fault_has_a_beginning()
    ensures { AfterWriteFault }
{
    after_a_write_fault();
}

fn a_long_input_has_its_lines()
    ensures { AfterTooLong }
{
    after_too_long_an_input();
}
