//! Which build of the library this is.
ghost use Rattle.ipnetwork_c.specs.Answers.{PutsText};

use crate::text;

/// The version of the library, and what it is: proved, or made of proved sources.
const BUILD: &str = "0.2.0-dev (proved)";

/// Writes the version of the library, a space and which build it is, in parentheses, and a zero
/// byte to `buffer`, for which 64 bytes are enough, and the length of the text, without the zero
/// byte, to `length`. Returns `SHORT_BUFFER` if the buffer has no room for both, and then writes
/// only the length.
#[unsafe(no_mangle)]
pub extern "C" fn ipnetwork_build(buffer: &mut [u8], length: &mut usize) -> u32
    ensures { PutsText BUILD.now (buffer.old, length.old) (buffer.new, length.new) result }
{
    text::tell(BUILD.as_bytes(), buffer, length)
}
