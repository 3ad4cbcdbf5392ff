//! The rows of the options that all programs for logs share.
ghost use Rattle.std.specs.Prelude.{[], ◌∷◌, ◌++◌};
ghost use Rattle.log_programs.specs.Rows.{late_quiet, shared, together};
ghost use Rattle.options.specs.Table.{IsTable};

use options::table::{Kind, Pair, Row, Table, letter, long, pair};

/// The row of `-a`.
pub const ANYWHERE: usize = 0;

/// The row of `-w`.
pub const WORDS: usize = 1;

/// The row of `-k`.
pub const FIELD: usize = 2;

/// The row of `-d`.
pub const SEPARATOR: usize = 3;

/// The row of `--after`.
pub const AFTER: usize = 4;

/// The row of `--mapped`.
pub const MAPPED: usize = 5;

/// The row of `-f`.
pub const LIST: usize = 6;

/// The row of `--nth`.
pub const NTH: usize = 9;

/// The rows of the shared options, with `--help` and `--version`, then those of a program, and last
/// that of `--quiet`, which is taken off before the options are read if it is the first word.
///
/// ```
/// use log_programs::rows::{LIST, log_rows};
/// use options::table::{Kind, Row, letter, long};
///
/// const ROWS: [Row; 12] = log_rows![letter!(b'q', Flag, "")];
/// assert_eq!(rt; ROWS[LIST].letter, Some(b'f'));
/// assert_eq!(rt; ROWS[10].letter, Some(b'q'));
/// ```
#[macro_export]
macro_rules! log_rows {
    ($($row:expr),* $(,)?) => {
        [
            letter!(b'a', Flag, ""),
            letter!(b'w', Flag, ""),
            letter!(b'k', Field, "not a field number"),
            letter!(b'd', Separator, "not one ASCII byte other than LF, CR and NUL"),
            long!("--after", Text, true, "empty"),
            long!("--mapped", Flag, false, ""),
            letter!(b'f', File, "not a file name"),
            long!("--help", Alone, false, "not the only argument"),
            long!("--version", Alone, false, "not the only argument"),
            long!("--nth", Nth, true, "not first, last or a number from 1 up"),
            $($row,)*
            long!("--quiet", Alone, false, "taken only once, as the first word"),
        ]
    };
}

/// The pairs of shared options that exclude each other, after the first pairs of a program and
/// before its last.
///
/// ```
/// use log_programs::rows::{AFTER, ANYWHERE, FIELD, MAPPED, SEPARATOR, WORDS, log_pairs};
/// use options::table::{Pair, pair};
///
/// const PAIRS: [Pair; 6] = log_pairs![[pair!(MAPPED, WORDS, "--mapped does not go with -w")], []];
/// assert_eq!(rt; PAIRS[5].problem, "-w does not go with -d");
/// ```
#[macro_export]
macro_rules! log_pairs {
    ([$($first:expr),* $(,)?], [$($last:expr),* $(,)?] $(,)?) => {
        [
            $($first,)*
            pair!(AFTER, ANYWHERE, "--after goes with none of -a, -k, -d and -w"),
            pair!(AFTER, WORDS, "--after goes with none of -a, -k, -d and -w"),
            pair!(AFTER, FIELD, "--after goes with none of -a, -k, -d and -w"),
            pair!(AFTER, SEPARATOR, "--after goes with none of -a, -k, -d and -w"),
            pair!(WORDS, SEPARATOR, "-w does not go with -d"),
            $($last),*
        ]
    };
}

pub use log_pairs;
pub use log_rows;

// The rows of the shared options.
const ROWS: [Row; 11] = log_rows![];

// The pairs of them that exclude each other.
const PAIRS: [Pair; 5] = log_pairs![[], []];

/// Returns the table of only the shared options, none of which is required.
///
/// ```
/// use options::faults::fault_of;
/// use options::items::{Item, Text};
///
/// let table = log_programs::rows::shared();
/// let words_and_separator = [Item::Flag(1), Item::Value(3, Text::new(","))];
/// let fault = fault_of(&table, &words_and_separator);
/// assert!(rt; fault.is_some_and(|fault| fault.problem.as_str() == "-w does not go with -d"));
/// ```
pub fn shared() -> Table<'static>
    ensures { IsTable result (shared ++ late_quiet ∷ []) together [] }
{
    Table {
        rows: &ROWS,
        pairs: &PAIRS,
        needs: &[],
        lacking: "",
    }
}
