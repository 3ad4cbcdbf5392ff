//! The laws of outputs.
ghost use Rattle.cidr.specs.Laws.Outputs.{FullIsComputed, ComputedIsAllowed, UnrefusedIsComputed, UnrefusedLinesAreComputed, OthersAreRouting, PlainLinesAskNothing, PlainInputsHaveOneOutput, SplitsAtLineEnds, PlainPartsRunAlone, AskingPartsRunAfterRoutes};

use ipnetwork_table::laws as table_laws;

/// If no `add` runs out of memory, an input has exactly one output, `output_of` of the input. Any
/// other allowed output has an answer, and so a line, that is `out of memory`.
pub fn output_without_refusals()
    ensures full { FullIsComputed }
    ensures computed { ComputedIsAllowed }
    ensures only { UnrefusedIsComputed }
    ensures lines { UnrefusedLinesAreComputed }
{
    table_laws::answer_is_computed::<u32>();
    table_laws::one_answer::<u32>();
    table_laws::keys_without_host_bits::<u32>();
}

/// A line of any command except `add`, `drop` and `find` has one answer, whatever the routes are,
/// and does not change them. Every other line begins with one of the three. An input of only such
/// lines therefore has one output: for each line, its answer and a line feed.
pub fn plain_lines_ask_nothing()
    ensures line { PlainLinesAskNothing }
    ensures others { OthersAreRouting }
    ensures output { PlainInputsHaveOneOutput }
{}

/// If an input is cut directly after a line feed, each of its outputs is one of the first part
/// followed by one of the second part, which starts with the routes that the first part leaves. If
/// no line of the first part begins with `add`, `drop` or `find`, each part may be run separately,
/// and the outputs joined. If the lines that add routes come first, and no line of the first of the
/// two parts after them begins with `add` or `drop`, each part may be run separately after these
/// routes.
pub fn split_at_line_ends()
    ensures parts { SplitsAtLineEnds }
    ensures alone { PlainPartsRunAlone }
    ensures asked { AskingPartsRunAfterRoutes }
{}
