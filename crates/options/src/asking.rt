//! Reads what the words of a command line ask a program for.
ghost use Rattle.std.specs.Prelude.{◌≡◌, IfOk, IfErr};
ghost use Rattle.program.specs.Endings.{ending};
ghost use Rattle.options.specs.Runs.{AsksFor, EndsAtOnce};

use crate::faults::fault_of;
use crate::items::Item;
use crate::reading::items_of;
use crate::refusing::refuse;
use crate::table::Table;
use lines::output::Output;
use program::ending::print_text;
use program::memory::refuse_memory;
use program::start::text_asked;
use std::alloc::Global;
use std::io::Write;

/// The texts that a program prints about itself.
///
/// ```
/// use options::asking::About;
///
/// let about = About {
///     program: "sum",
///     help: "Adds.\n",
///     version: "sum 1\n",
///     usage: "usage: sum FILE\n",
/// };
/// assert_eq!(rt; about.program, "sum");
/// ```
#[derive(Debug, Drop)]
pub struct About<'a> {
    /// The program's name.
    pub program: &'a str,
    /// The text that `--help` prints.
    pub help: &'a str,
    /// The text that `--version` prints.
    pub version: &'a str,
    /// The usage, which is reported after what is wrong with a command line.
    pub usage: &'a str,
}

/// Returns what the words after the program's name say, by a table of options.
///
/// If the only word asks for the help or the version, that is printed and the exit status is
/// returned as the error. If something is wrong with the words, that and the usage are reported; if
/// memory runs out, that is reported; in both cases the error is the exit status 2. On success
/// nothing is printed or reported.
///
/// ```
/// use lines::output::Output;
/// use options::asking::{About, asked};
/// use options::table::{Kind, Row, Table, letter};
///
/// let about = About {
///     program: "sum",
///     help: "Adds.\n",
///     version: "sum 1\n",
///     usage: "usage: sum [-v] FILE..\n",
/// };
/// let rows = [letter!(b'v', Flag, "")];
/// let table = Table { rows: &rows, pairs: &[], needs: &[0], lacking: "-v is not given" };
/// let (mut slice, mut room) = ([0; 64], [b'.'; 64]);
/// let mut output = Output::new(room.as_mut_slice(), &mut slice);
/// let (mut slice, mut told) = ([0; 64], [b'.'; 64]);
/// let mut errors = Output::new(told.as_mut_slice(), &mut slice);
/// let words = Vec::new(rt.alloc());
/// let items = asked(rt.alloc(), &about, &table, words.as_slice(), &mut output, &mut errors);
/// assert!(rt; matches!(items, Err(2)));
/// assert_eq!(rt; errors.finish(), Ok(()));
/// drop(errors);
/// assert!(rt; told.starts_with(b"sum: -v is not given\nusage: sum [-v] FILE..\n."));
/// ```
pub fn asked<'a, W: Write, E: Write>(
    alloc: Global,
    about: &About<'_>,
    table: &Table<'_>,
    words: &'a [String],
    output: &mut Output<'_, W>,
    errors: &mut Output<'_, E>,
) -> Result<Vec<Item<'a>>, u8>
    ensures asks { IfOk result (λ items. AsksFor table.now about.now.help.now
        about.now.version.now words.now items.items) }
    ensures silent { IfOk result
        (λ _. (output.new ≡ output.old) × (errors.new ≡ errors.old)) }
    ensures ends { IfErr result (λ status. EndsAtOnce table.now about.now.program.now
        about.now.help.now about.now.version.now words.now
        (ending output.old output.new errors.old errors.new status)) }
{
    if let Some(text) = text_asked(about.help, about.version, words) {
        return Err(print_text(about.program, text, output, errors));
    }
    let Ok(items) = items_of(alloc, table.rows, words) else {
        return Err(refuse_memory(about.program, errors));
    };
    match fault_of(table, items.as_slice()) {
        Some(fault) => Err(refuse(about.program, about.usage, table.rows, &fault, errors)),
        None => Ok(items),
    }
}
