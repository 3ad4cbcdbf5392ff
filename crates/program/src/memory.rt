//! Reports that memory ran out.
ghost use Rattle.std.specs.Prelude.{◌≡◌, ◌++◌, codes};
ghost use Rattle.program.specs.Messages.{Reports};

use crate::ending::FAILED;
use crate::messages::tell_of;
use lines::output::Output;
use std::io::Write;

/// Reports in the name of a program that memory ran out, and returns the exit status for that, 2.
///
/// ```
/// let mut slice = [0; 64];
/// let mut errors = lines::output::Output::new(Vec::new(rt.alloc()), &mut slice);
/// assert_eq!(rt; program::memory::refuse_memory("sum", &mut errors), 2);
/// ```
pub fn refuse_memory<E: Write>(program: &str, errors: &mut Output<'_, E>) -> u8
    ensures status { result ≡ 2 }
    ensures told { Reports errors.old errors.new (program.now ++ codes ": out of memory\n") }
{
    tell_of(program, ": out of memory\n", errors);
    FAILED
}
