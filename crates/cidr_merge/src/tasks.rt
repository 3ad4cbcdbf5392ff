//! The tasks, and the messages for words that a task does not take.
ghost use Rattle.std.specs.Prelude.{◌≡◌};
ghost use Rattle.cidr_merge.specs.Tasks.{task_called, is_two_sided};

use crate::command_line::Operation;

/// The task that the first word names.
#[derive(Clone, Copy, Debug, PartialEq, Eq)]
pub enum Task {
    /// An operation, whose result is printed.
    Merge(Operation),
    /// The union, with each of its addresses printed.
    List,
    /// The union, in pieces of one length.
    Split,
    /// At most a given number of networks that have all addresses of the union.
    Reduce,
    /// Wrong entries are printed.
    Check,
    /// Wrong entries and those that overlap are printed.
    Overlaps,
    /// Entries that have addresses are printed.
    Find,
    /// Free networks of a pool are printed, or how much of it is used.
    Free,
}

/// The task that a word names.
pub(crate) fn task_called(text: &str) -> Option<Task>
    ensures { result ≡ task_called text.now }
{
    match text {
        "union" => Some(Task::Merge(Operation::Union)),
        "common" => Some(Task::Merge(Operation::Common)),
        "minus" => Some(Task::Merge(Operation::Minus)),
        "differ" => Some(Task::Merge(Operation::Differ)),
        "list" => Some(Task::List),
        "split" => Some(Task::Split),
        "reduce" => Some(Task::Reduce),
        "check" => Some(Task::Check),
        "overlaps" => Some(Task::Overlaps),
        "find" => Some(Task::Find),
        "free" => Some(Task::Free),
        _ => None,
    }
}

/// Whether a task has two sides, with a `--` between them.
pub(crate) fn is_two_sided(task: Task) -> bool
    ensures { result ≡ is_two_sided task }
{
    match task {
        Task::Merge(operation) => !matches!(operation, Operation::Union),
        Task::Find | Task::Free => true,
        Task::List | Task::Split | Task::Reduce | Task::Check | Task::Overlaps => false,
    }
}

/// The message for a word that begins with a `-` and is no option of a task.
pub(crate) fn no_option(task: Task) -> &'static str {
    match task {
        Task::Merge(Operation::Differ) => {
            "not an option of differ; it takes --max-change N and the options of union"
        }
        Task::Merge(_) | Task::List => {
            "not an option of union, common, minus or list; they take -e TEXT, --ranges, --count, \
             --format FORM, --set NAME, --table NAME, --maxelem N, --line-prefix TEXT, \
             --line-suffix TEXT, --allow-empty, --at-least N, --skip-bad, --json, \
             --json-field NAME, --strict, --whole, --masks, --read FORM, -4 and -6"
        }
        Task::Split => {
            "not an option of split; it takes -e TEXT, --prefix N, --line-prefix TEXT, \
             --line-suffix TEXT, --at-least N, --skip-bad, --json, --json-field NAME, --strict, \
             --whole, --masks, --read FORM, -4 and -6"
        }
        Task::Reduce => {
            "not an option of reduce; it takes --most N, --ipv4 N, --ipv6 N, --max-others N and \
             the options of union"
        }
        Task::Check => {
            "not an option of check; it takes -e TEXT, --strict, --whole, --masks and --read FORM"
        }
        Task::Overlaps => {
            "not an option of overlaps; it takes -e TEXT, --strict, --whole, --masks and \
             --read FORM"
        }
        Task::Find => {
            "not an option of find; it takes -e TEXT, --from FILE, --strict, --whole, --masks and \
             --read FORM"
        }
        Task::Free => {
            "not an option of free; it takes -e TEXT, --prefix N, --all, --hosts N,N,.., --usage, \
             --line-prefix TEXT, --line-suffix TEXT, --allow-empty, --skip-bad, --json, \
             --json-field NAME, --strict, --whole, --masks, --read FORM, -4 and -6"
        }
    }
}

/// The message for a `--` with nothing before it.
pub(crate) fn no_first(task: Task) -> &'static str {
    match task {
        Task::Find => "no NETWORK before it, and no --from FILE",
        _ if is_two_sided(task) => "no FILE before it",
        _ => ONE_SIDE,
    }
}

/// The message for a `--` of a task with one side.
pub(crate) const ONE_SIDE: &str = "only common, minus, differ, find and free take a --";
