//! What is wrong with the words of a command line.
ghost use Rattle.std.specs.Prelude.{◌≡◌, ◌≤◌, ◌+◌, length, map, not, is_some};
ghost use Rattle.std.specs.List.{list_any};
ghost use Rattle.std.specs.String.{string_bytes};
ghost use Rattle.cidr_merge.specs.RightWords.{takes, is_value, is_wrong, lacks_value};
ghost use Rattle.cidr_merge.specs.RightWords.{cannot_print, has_sets, has_table, has_limit};
ghost use Rattle.cidr_merge.specs.RightWords.{has_count, says_what, has_lines, are_misplaced, do_clash};
ghost use Rattle.cidr_merge.specs.RightWords.{are_wrong_sides, are_wrong_files, files_among};
ghost use Rattle.cidr_merge.specs.RightWords.{from_of, are_wrong};

use crate::bounds::bound_in;
use crate::command_line::{Form, Operation, form_called, form_of, most_in, prefix_in};
use crate::exports::Export;
use crate::hosts::are_hosts;
use crate::rows::{
    AFTER, AT_LEAST, BEFORE, FORMAT, FROM, HOSTS, IPV4, IPV6, JSON_FIELD, MAX_CHANGE, MAX_OTHERS,
    MAXELEM, MOST, PREFIX, READ, SET, TABLE, TEXT, USAGE, taken,
};
use crate::set_names::{is_limit, is_set_name};
use crate::shapes::line_form_called;
use crate::tasks::{ONE_SIDE, Task, is_two_sided, no_first, no_option};
use options::faults::{Fault, Subject, about, pair_fault, problem_at};
use options::given::is_given;
use options::items::{Item, Text};
use options::reading::is_plain;
use options::table::{Kind, Row, Table, kind_at, named};
use program::command_line::count_of;

/// The fault of a word, with the problem to report.
pub(crate) fn at<'a>(word: &'a str, problem: &'a str) -> Fault<'a> {
    about(Subject::Word(Text::new(word)), problem)
}

// The problem of an option in a wrong place: the usual one, or its own if it is only taken alone.
fn problem_of_row(rows: &[Row], row: usize, usual: &'static str) -> &'static str {
    match kind_at(rows, row) {
        Kind::Alone => problem_at(rows, row),
        _ => usual,
    }
}

/// The fault of a first word that names no task.
pub(crate) fn no_task_fault<'a>(rows: &[Row], word: &'a str) -> Fault<'a> {
    if is_plain(word) {
        return at(word, "not an operation");
    }
    let usual = "not an operation; options come after one";
    match named(rows, word) {
        Some(row) => at(word, problem_of_row(rows, row, usual)),
        None => at(word, usual),
    }
}

// Whether a task takes the option of a row.
fn takes(task: Task, row: usize) -> bool
    ensures { result ≡ takes task row }
{
    taken(task).iter().any(|one| *one == row)
}

// The fault if a task does not take the option of a row.
fn option_fault<'a>(rows: &[Row], task: Task, row: usize) -> Option<Fault<'a>>
    ensures { is_some result ≡ not (takes task row) }
{
    if takes(task, row) {
        return None;
    }
    let problem = problem_of_row(rows, row, no_option(task));
    Some(about(Subject::Option(row), problem))
}

// Whether a text is a value of the option of a row.
fn is_value(row: usize, text: &str) -> bool
    ensures { result ≡ is_value row text.now }
{
    match row {
        FORMAT => form_called(text).is_some(),
        PREFIX => prefix_in(text).is_some(),
        READ => line_form_called(text).is_some(),
        MOST | IPV4 | IPV6 | AT_LEAST => most_in(text).is_some(),
        MAX_OTHERS | MAX_CHANGE => bound_in(text).is_some(),
        SET | TABLE => is_set_name(text),
        MAXELEM => is_limit(text),
        HOSTS => are_hosts(text),
        FROM | TEXT | JSON_FIELD => !text.is_empty(),
        _ => true,
    }
}

// The fault if a text is not a valid value of the option of a row.
fn value_fault<'a>(rows: &[Row], row: usize, text: &'a str) -> Option<Fault<'a>>
    ensures { is_some result ≡ not (is_value row text.now) }
{
    if is_value(row, text) {
        return None;
    }
    let value = Subject::Value(row, Text::new(text));
    Some(about(value, problem_at(rows, row)))
}

// What is wrong with an option.
fn item_fault<'a>(rows: &[Row], task: Task, item: &Item<'a>) -> Option<Fault<'a>>
    ensures { is_some result ≡ is_wrong task item.now }
{
    match item {
        Item::Flag(row) => option_fault(rows, task, *row),
        Item::Value(row, text) | Item::Joined(row, text, _) => {
            option_fault(rows, task, *row).or(value_fault(rows, *row, text.as_str()))
        }
        Item::Lacks(row) => {
            let lacks = about(Subject::Option(*row), "no value after it");
            option_fault(rows, task, *row).or(Some(lacks))
        }
        Item::Unknown(word) => Some(at(word.as_str(), no_option(task))),
        Item::File(_) => None,
    }
}

// The fault of the first item that has one.
fn items_fault<'a>(rows: &[Row], task: Task, items: &[Item<'a>]) -> Option<Fault<'a>>
    ensures { is_some result ≡ list_any (is_wrong task) items.now }
{
    let mut at = 0;
    while at < items.len() {
        if let Some(fault) = item_fault(rows, task, &items[at]) {
            return Some(fault);
        }
        at += 1;
    }
    None
}

// Whether a number of networks is given.
fn has_count(items: &[Item<'_>]) -> bool
    ensures { result ≡ has_count items.now }
{
    is_given(items, MOST) || is_given(items, IPV4) || is_given(items, IPV6)
}

// Whether it is given what a `free` prints.
fn says_what(items: &[Item<'_>]) -> bool
    ensures { result ≡ says_what items.now }
{
    is_given(items, PREFIX) || is_given(items, HOSTS) || is_given(items, USAGE)
}

// The fault if a `split` has no prefix length, a `reduce` no number of networks, or a `free` no
// option that says what to print.
fn lacks_fault<'a>(task: Task, items: &[Item<'_>]) -> Option<Fault<'a>>
    ensures { is_some result ≡ lacks_value task items.now }
{
    match task {
        Task::Split if !is_given(items, PREFIX) => {
            Some(about(Subject::CommandLine, "split: no --prefix N"))
        }
        Task::Free if !says_what(items) => {
            Some(about(
                Subject::CommandLine,
                "free: no --prefix N, --hosts N,N,.. or --usage",
            ))
        }
        Task::Reduce if !has_count(items) => {
            Some(about(
                Subject::CommandLine,
                "reduce: no number of networks: write reduce N, --most N, --ipv4 N or --ipv6 N",
            ))
        }
        _ => None,
    }
}

// Whether a task cannot print in this form: exports cannot show the two sides of a `differ`.
fn cannot_print(task: Task, form: Form) -> bool
    ensures { result ≡ cannot_print task form }
{
    match (task, form) {
        (Task::Merge(Operation::Differ), Form::Exported(_)) => true,
        _ => false,
    }
}

/// Whether a form has sets.
pub(crate) fn has_sets(form: Form) -> bool
    ensures { result ≡ has_sets form }
{
    matches!(form, Form::Exported(Export::Nft | Export::Ipset))
}

// Whether a form has a table, and a limit for its sets.
fn has_table(form: Form) -> bool
    ensures { result ≡ has_table form }
{
    matches!(form, Form::Exported(Export::Nft))
}

fn has_limit(form: Form) -> bool
    ensures { result ≡ has_limit form }
{
    matches!(form, Form::Exported(Export::Ipset))
}

// Whether a form has lines with a text before and after each.
fn has_lines(form: Form) -> bool
    ensures { result ≡ has_lines form }
{
    !matches!(
        form,
        Form::Counts | Form::Exported(Export::Csv | Export::Nft | Export::Ipset | Export::Json)
    )
}

// The problem with a text around lines in another form.
const NO_LINES: &str = "not together with --count, nor with --format csv, nft, ipset or json";

// What is wrong with options that name sets, or texts around lines, in this form.
fn names_fault<'a>(items: &[Item<'a>], form: Form) -> Option<Fault<'a>>
    ensures { is_some result ≡ are_misplaced items.now form }
{
    if is_given(items, SET) && !has_sets(form) {
        return Some(about(
            Subject::Option(SET),
            "only together with --format nft or ipset",
        ));
    }
    if is_given(items, TABLE) && !has_table(form) {
        return Some(about(Subject::Option(TABLE), "only together with --format nft"));
    }
    if is_given(items, MAXELEM) && !has_limit(form) {
        return Some(about(
            Subject::Option(MAXELEM),
            "only together with --format ipset",
        ));
    }
    if is_given(items, BEFORE) && !has_lines(form) {
        return Some(about(Subject::Option(BEFORE), NO_LINES));
    }
    if is_given(items, AFTER) && !has_lines(form) {
        return Some(about(Subject::Option(AFTER), NO_LINES));
    }
    None
}

// What is wrong with options together.
fn together_fault<'a>(table: &Table<'_>, task: Task, items: &[Item<'a>]) -> Option<Fault<'a>>
    ensures { is_some result ≡ do_clash table.now task items.now }
{
    if let Some(fault) = pair_fault(items, table.pairs) {
        return Some(fault);
    }
    let form = form_of(Form::Blocks, items);
    if cannot_print(task, form) {
        let problem = "differ can be printed only as plain or range";
        return Some(about(Subject::Option(FORMAT), problem));
    }
    lacks_fault(task, items).or(names_fault(items, form))
}

// The fault of the sides, by the number of `--` and of FILEs on each. If the task has one side: a
// `--`, or no FILE. If it has two: no `--`, more than one, or nothing before or after it.
fn sides_fault<'a>(
    task: Task,
    name: &'a str,
    dashes: usize,
    first: usize,
    second: usize,
) -> Option<Fault<'a>>
    ensures { is_some result ≡ are_wrong_sides task dashes first second }
{
    if !is_two_sided(task) {
        if dashes > 0 {
            Some(at("--", ONE_SIDE))
        } else if first == 0 {
            Some(at(name, "no FILE; - is standard input"))
        } else {
            None
        }
    } else if dashes == 0 {
        Some(at(name, "no -- with a FILE after it"))
    } else if dashes > 1 {
        Some(at("--", "only one -- is taken"))
    } else if first == 0 {
        Some(at("--", no_first(task)))
    } else if second == 0 {
        Some(at("--", "no FILE after it"))
    } else {
        None
    }
}

// The fault of the names of lists: one is empty, or standard input is named twice.
fn files_fault<'a>(files: &[String]) -> Option<Fault<'a>>
    ensures { is_some result ≡ are_wrong_files (map string_bytes files.now) }
{
    if count_of(files, "") > 0 {
        Some(at("", "not a file name"))
    } else if count_of(files, "-") > 1 {
        Some(at("-", "standard input can be read only once"))
    } else {
        None
    }
}

// The names of lists: all names, except that those before the `--` of a `find` are addresses.
fn files_among(task: Task, middle: usize, names: &[String]) -> &[String]
    requires { middle ≤ length names.now }
    ensures { result.now ≡ files_among task middle names.now }
{
    match task {
        Task::Find => &names[middle..],
        _ => names,
    }
}

/// How many lists of addresses a `find` has: one if `--from` is given.
pub(crate) fn from_count(task: Task, items: &[Item<'_>]) -> usize
    ensures { result ≡ length (from_of task items.now) }
{
    if matches!(task, Task::Find) && is_given(items, FROM) {
        1
    } else {
        0
    }
}

/// The first fault of the words: that of the first wrong option, of options together, of the sides,
/// or of the names of lists.
pub(crate) fn fault_of<'a>(
    table: &Table<'_>,
    task: Task,
    name: &'a str,
    dashes: usize,
    items: &[Item<'a>],
    middle: usize,
    names: &[String],
) -> Option<Fault<'a>>
    requires { middle + length (from_of task items.now) ≤ length names.now }
    ensures { is_some result
        ≡ are_wrong table.now task dashes items.now middle (map string_bytes names.now) }
{
    let from = from_count(task, items);
    let second = names.len() - middle - from;
    items_fault(table.rows, task, items)
        .or(together_fault(table, task, items))
        .or(sides_fault(task, name, dashes, middle + from, second))
        .or(files_fault(files_among(task, middle, names)))
}
