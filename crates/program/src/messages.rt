//! Messages on the error writer. If the write of one fails, nothing else changes.
ghost use Rattle.std.specs.Prelude.{◌≡◌, ◌++◌, codes, decimal};
ghost use Rattle.program.specs.Messages.{Reports};
ghost use Rattle.program.specs.Usage.{shown};

use crate::usage::tell_shown;
use arrayvec::ArrayString;
use ipnetwork_addr::decimal::push_number;
use lines::output::Output;
use std::io::Write;

/// Writes a text to the error writer. If that fails, now or earlier, the text is lost, and nothing
/// else happens.
///
/// ```
/// let mut slice = [0; 64];
/// let mut errors = lines::output::Output::new(Vec::new(rt.alloc()), &mut slice);
/// program::messages::tell("out of memory\n", &mut errors);
/// assert_eq!(rt; errors.finish(), Ok(()));
/// ```
pub fn tell<E: Write>(text: &str, errors: &mut Output<'_, E>)
    ensures { Reports errors.old errors.new text.now }
{
    tell_bytes(text.as_bytes(), errors);
}

/// Writes bytes to the error writer, as `tell` writes a text.
///
/// ```
/// let mut slice = [0; 64];
/// let mut errors = lines::output::Output::new(Vec::new(rt.alloc()), &mut slice);
/// program::messages::tell_bytes(b"10.0.0.0/8", &mut errors);
/// assert_eq!(rt; errors.finish(), Ok(()));
/// ```
pub fn tell_bytes<E: Write>(bytes: &[u8], errors: &mut Output<'_, E>)
    ensures { Reports errors.old errors.new bytes.now }
{
    let _ = errors.put(bytes);
}

/// Writes a name, followed by a text, to the error writer.
///
/// ```
/// let mut slice = [0; 64];
/// let mut errors = lines::output::Output::new(Vec::new(rt.alloc()), &mut slice);
/// program::messages::tell_of("sum", ": out of memory\n", &mut errors);
/// assert_eq!(rt; errors.finish(), Ok(()));
/// ```
pub fn tell_of<E: Write>(name: &str, text: &str, errors: &mut Output<'_, E>)
    ensures { Reports errors.old errors.new (name.now ++ text.now) }
{
    tell(name, errors);
    tell(text, errors);
}

/// Writes the beginning of a message to the error writer: the program's name, `: ` and the name of
/// what the message is about, as messages show words: an empty name as `''`, any other with
/// control characters escaped.
///
/// ```
/// let mut slice = [0; 64];
/// let mut errors = lines::output::Output::new(Vec::new(rt.alloc()), &mut slice);
/// program::messages::tell_head("sum", "log", &mut errors);
/// assert_eq!(rt; errors.finish(), Ok(()));
/// ```
pub fn tell_head<E: Write>(program: &str, name: &str, errors: &mut Output<'_, E>)
    ensures { Reports errors.old errors.new (program.now ++ codes ": " ++ shown name.now) }
{
    tell_of(program, ": ", errors);
    tell_shown(name.as_bytes(), errors);
}

/// Writes a number in decimal to the error writer.
///
/// ```
/// let mut slice = [0; 64];
/// let mut errors = lines::output::Output::new(Vec::new(rt.alloc()), &mut slice);
/// program::messages::tell_number(1024, &mut errors);
/// assert_eq!(rt; errors.finish(), Ok(()));
/// ```
pub fn tell_number<E: Write>(number: u64, errors: &mut Output<'_, E>)
    ensures { Reports errors.old errors.new (decimal number) }
{
    tell(number_text(number).as_str(), errors);
}

/// Returns a number in decimal.
///
/// ```
/// assert_eq!(rt; program::messages::number_text(1024).as_str(), "1024");
/// ```
pub fn number_text(number: u64) -> ArrayString<40>
    ensures { result.bytes ≡ decimal number }
{
    let mut text = ArrayString::new();
    push_number(&mut text, u128::from(number));
    text
}
