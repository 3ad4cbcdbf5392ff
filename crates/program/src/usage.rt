//! Reports a command line that the program does not accept or cannot read.
ghost use Rattle.std.specs.Prelude.{◌≡◌};
ghost use Rattle.program.specs.Messages.{Reports};
ghost use Rattle.program.specs.Usage.{shown};

use crate::arguments::{ArgumentsFault, is_stand_in};
use crate::ending::FAILED;
use crate::escapes::tell_escaped_word;
use crate::messages::{tell, tell_head, tell_of};
use lines::output::Output;
use std::io::Write;

/// Writes a word as messages show it: an empty word as `''`, any other with what
/// `tell_escaped_word` escapes, without the NUL of a word for which `is_stand_in` is true.
///
/// ```
/// let (mut slice, mut room) = ([0; 16], [0; 2]);
/// let mut errors = lines::output::Output::new(room.as_mut_slice(), &mut slice);
/// program::usage::tell_shown(b"", &mut errors);
/// assert_eq!(rt; errors.finish(), Ok(()));
/// drop(errors);
/// assert_eq!(rt; room, *b"''");
/// ```
pub fn tell_shown<E: Write>(word: &[u8], errors: &mut Output<'_, E>)
    ensures { Reports errors.old errors.new (shown word.now) }
{
    match word {
        [] => tell("''", errors),
        [0, rest @ ..] => tell_escaped_word(rest, errors),
        _ => tell_escaped_word(word, errors),
    }
}

/// Reports why the arguments cannot be read, with the usage if one of them is not UTF-8, and
/// returns the exit status 2.
///
/// ```
/// use program::arguments::ArgumentsFault;
/// use program::usage::refuse_arguments;
///
/// let mut slice = [0; 64];
/// let mut errors = lines::output::Output::new(Vec::new(rt.alloc()), &mut slice);
/// let fault = ArgumentsFault::OutOfMemory;
/// assert_eq!(rt; refuse_arguments(fault, "sum", "usage: sum FILE\n", &mut errors), 2);
/// ```
pub fn refuse_arguments<E: Write>(
    fault: ArgumentsFault,
    program: &str,
    usage: &str,
    errors: &mut Output<'_, E>,
) -> u8
    ensures { result ≡ 2 }
{
    match fault {
        ArgumentsFault::NotText => {
            tell_of(program, ": an argument is not UTF-8\n", errors);
            tell(usage, errors);
            FAILED
        }
        ArgumentsFault::OutOfMemory => {
            tell_of(program, ": out of memory\n", errors);
            FAILED
        }
    }
}

/// Reports each word that stands for another that is not UTF-8, and the usage, and returns the exit
/// status 2.
///
/// ```
/// use program::usage::refuse_stand_ins;
///
/// let (mut slice, mut room) = ([0; 64], [b'.'; 64]);
/// let mut errors = lines::output::Output::new(room.as_mut_slice(), &mut slice);
/// let words = [String::from_str(rt.alloc(), "\0log\\xff")?];
/// assert_eq!(rt; refuse_stand_ins("sum", &words, "usage: sum FILE\n", &mut errors), 2);
/// assert_eq!(rt; errors.finish(), Ok(()));
/// drop(errors);
/// assert!(rt; room.starts_with(b"sum: log\\xff: not UTF-8\nusage: sum FILE\n"));
/// ```
pub fn refuse_stand_ins<E: Write>(
    program: &str,
    words: &[String],
    usage: &str,
    errors: &mut Output<'_, E>,
) -> u8
    ensures { result ≡ 2 }
{
    for word in words {
        if is_stand_in(word.as_str()) {
            tell_head(program, word.as_str(), errors);
            tell(": not UTF-8\n", errors);
        }
    }
    tell(usage, errors);
    FAILED
}
