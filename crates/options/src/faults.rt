//! Finds what is wrong with a command line.
ghost use Rattle.std.specs.Prelude.{◌≡◌};
ghost use Rattle.std.specs.List.{list_all};
ghost use Rattle.std.specs.Option.{is_none, is_some, option_copied};
ghost use Rattle.options.specs.Faults.{is_right_option, is_right_name, is_right_item, are_both, pair_fault, is_one_given, is_input, has_file, is_read_once, are_right};
ghost use Rattle.options.specs.Table.{kind_at};
ghost use Rattle.options.specs.Values.{is_right};

use crate::given::{is_given, times};
use crate::items::{Item, Text};
use crate::table::{Kind, Pair, Row, Table, kind_at};
use crate::values::is_right;

/// What a fault is about: the command line, one of its words, an option or a value.
///
/// ```
/// use options::faults::Subject;
///
/// let subject = Subject::Option(7);
/// assert!(rt; matches!(subject, Subject::Option(7)));
/// ```
#[derive(Debug, Drop)]
pub enum Subject<'a> {
    /// The command line as a whole.
    CommandLine,
    /// A word of the command line.
    Word(Text<'a>),
    /// The option of the row at this index.
    Option(usize),
    /// The value of the option of the row at this index.
    Value(usize, Text<'a>),
}

/// A fault of a command line.
///
/// ```
/// use options::faults::{Fault, Subject};
/// use options::items::Text;
///
/// let fault = Fault {
///     subject: Subject::Word(Text::new("-x")),
///     problem: Text::new("unknown option"),
/// };
/// assert_eq!(rt; fault.problem.as_str(), "unknown option");
/// ```
#[derive(Debug, Drop)]
pub struct Fault<'a> {
    /// What the fault is about.
    pub subject: Subject<'a>,
    /// What is wrong with it.
    pub problem: Text<'a>,
}

/// Creates a fault of this subject, with this problem.
///
/// ```
/// use options::faults::{Subject, about};
///
/// assert_eq!(rt; about(Subject::CommandLine, "no FILE").problem.as_str(), "no FILE");
/// ```
pub fn about<'a>(subject: Subject<'a>, problem: &'a str) -> Fault<'a> {
    let problem = Text::new(problem);
    Fault { subject, problem }
}

/// Returns what is reported about a wrong value of the option of the row at this index, or an empty
/// text if there is no such row.
///
/// ```
/// use options::faults::problem_at;
/// use options::table::{Kind, Row, letter};
///
/// assert_eq!(rt; problem_at(&[letter!(b'k', Field, "not a field number")], 0), "not a field number");
/// ```
pub fn problem_at(rows: &[Row], row: usize) -> &'static str {
    match rows.get(row) {
        Some(row) => row.problem,
        None => "",
    }
}

// Returns the fault of an option of this row whose value is not one of the row's kind.
fn value_fault<'a>(rows: &[Row], row: usize, value: &str, subject: Subject<'a>) -> Option<Fault<'a>>
    ensures { is_none result ≡ is_right (kind_at rows.now row) value.now }
{
    if is_right(kind_at(rows, row), value) {
        None
    } else {
        Some(about(subject, problem_at(rows, row)))
    }
}

// Returns what is wrong with an option.
fn option_fault<'a>(rows: &[Row], item: &Item<'a>) -> Option<Fault<'a>>
    ensures { is_none result ≡ is_right_option rows.now item.now }
{
    match item {
        Item::Flag(row) => value_fault(rows, *row, "", Subject::Option(*row)),
        Item::Value(row, value) => {
            let subject = Subject::Value(*row, Text::new(value.as_str()));
            value_fault(rows, *row, value.as_str(), subject)
        }
        Item::Joined(row, value, word) => {
            let subject = Subject::Word(Text::new(word.as_str()));
            value_fault(rows, *row, value.as_str(), subject)
        }
        Item::File(_) => None,
        Item::Unknown(word) => {
            let subject = Subject::Word(Text::new(word.as_str()));
            Some(about(subject, "unknown option"))
        }
        Item::Lacks(row) => Some(about(Subject::Option(*row), "has no value")),
    }
}

// Returns what is wrong with a FILE.
fn name_fault<'a>(item: &Item<'a>) -> Option<Fault<'a>>
    ensures { is_none result ≡ is_right_name item.now }
{
    match item {
        Item::File(name) => {
            if !name.as_str().is_empty() {
                return None;
            }
            let subject = Subject::Word(Text::new(name.as_str()));
            Some(about(subject, "not a file name"))
        }
        _ => None,
    }
}

// Returns what is wrong with an item: as a FILE if `of_files`, and else as an option.
fn item_fault<'a>(rows: &[Row], of_files: bool, item: &Item<'a>) -> Option<Fault<'a>>
    ensures { is_none result ≡ is_right_item rows.now of_files item.now }
{
    if of_files {
        name_fault(item)
    } else {
        option_fault(rows, item)
    }
}

// Returns the first fault of the FILEs if `of_files`, and else of the options.
pub(crate) fn first_fault<'a>(rows: &[Row], of_files: bool, items: &[Item<'a>]) -> Option<Fault<'a>>
    ensures { is_none result ≡ list_all (is_right_item rows.now of_files) items.now }
{
    let mut at = 0;
    while at < items.len() {
        if let Some(fault) = item_fault(rows, of_files, &items[at]) {
            return Some(fault);
        }
        at += 1;
    }
    None
}

// Whether the options of a pair are both given, or its one option more than once.
fn are_both(items: &[Item<'_>], pair: &Pair) -> bool
    ensures { result ≡ are_both items.now pair.now }
{
    if pair.first == pair.second {
        times(items, pair.first) > 1
    } else {
        is_given(items, pair.first) && is_given(items, pair.second)
    }
}

// Returns the first pair whose options are both given.
fn given_pair<'a>(items: &[Item<'_>], pairs: &'a [Pair]) -> Option<&'a Pair>
    ensures { option_copied result ≡ pair_fault items.now pairs.now }
{
    pairs.iter().find(|pair| are_both(items, pair))
}

/// Returns the fault of the first pair whose options are both given, or whose one option is given
/// more than once.
///
/// ```
/// use options::faults::pair_fault;
/// use options::items::Item;
/// use options::table::{Pair, pair};
///
/// let items = [Item::Flag(1), Item::Flag(1)];
/// assert!(rt; pair_fault(&items, &[pair!(1, 1, "-f is given twice")]).is_some());
/// ```
pub fn pair_fault<'a>(items: &[Item<'_>], pairs: &[Pair]) -> Option<Fault<'a>>
    ensures { is_some result ≡ is_some (pair_fault items.now pairs.now) }
{
    match given_pair(items, pairs) {
        Some(pair) => Some(about(Subject::CommandLine, pair.problem)),
        None => None,
    }
}

// Whether one of these options is given.
fn is_one_given(items: &[Item<'_>], needs: &[usize]) -> bool
    ensures { result ≡ is_one_given items.now needs.now }
{
    needs.iter().any(|row| is_given(items, *row))
}

// Whether the item names standard input.
fn is_input(rows: &[Row], item: &Item<'_>) -> bool
    ensures { result ≡ is_input rows.now item.now }
{
    match item {
        Item::File(name) => name.as_str() == "-",
        Item::Value(row, text) | Item::Joined(row, text, _) => kind_at(rows, *row) == Kind::File
            && text.as_str() == "-",
        Item::Flag(_) | Item::Unknown(_) | Item::Lacks(_) => false,
    }
}

// Whether there is a FILE.
pub(crate) fn has_file(items: &[Item<'_>]) -> bool
    ensures { result ≡ has_file items.now }
{
    items.iter().any(|item| matches!(item, Item::File(_)))
}

// Whether standard input is read at most once. It is also read if there is no FILE.
pub(crate) fn is_read_once(rows: &[Row], items: &[Item<'_>]) -> bool
    ensures { result ≡ is_read_once rows.now items.now }
{
    let inputs = items.iter().filter(|item| is_input(rows, item)).count();
    if has_file(items) {
        inputs <= 1
    } else {
        inputs == 0
    }
}

/// Returns the first fault of a command line that says these items, or `None` if it has none.
///
/// Faults are looked for in this order:
///
/// 1. an option that does not exist, has a wrong value or lacks its value;
/// 2. a FILE with an empty name;
/// 3. a pair of options that do not go together;
/// 4. that no option is given of those of which one is needed;
/// 5. that standard input is read twice.
///
/// ```
/// use options::faults::fault_of;
/// use options::items::{Item, Text};
/// use options::table::{Kind, Row, Table, letter};
///
/// let rows = [letter!(b'k', Field, "not a field number")];
/// let table = Table { rows: &rows, pairs: &[], needs: &[0], lacking: "-k is not given" };
/// let zero = fault_of(&table, &[Item::Value(0, Text::new("0"))]);
/// assert!(rt; zero.is_some_and(|fault| fault.problem.as_str() == "not a field number"));
/// let nothing = fault_of(&table, &[]);
/// assert!(rt; nothing.is_some_and(|fault| fault.problem.as_str() == "-k is not given"));
/// ```
pub fn fault_of<'a>(table: &Table<'_>, items: &[Item<'a>]) -> Option<Fault<'a>>
    ensures { is_none result ≡ are_right table.now items.now }
{
    if let Some(fault) = first_fault(table.rows, false, items) {
        return Some(fault);
    }
    if let Some(fault) = first_fault(table.rows, true, items) {
        return Some(fault);
    }
    if let Some(fault) = pair_fault(items, table.pairs) {
        return Some(fault);
    }
    if !is_one_given(items, table.needs) {
        return Some(about(Subject::CommandLine, table.lacking));
    }
    if is_read_once(table.rows, items) {
        return None;
    }
    Some(about(
        Subject::CommandLine,
        "-: standard input can be read only once",
    ))
}
