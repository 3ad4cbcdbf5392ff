//! Writes several texts, one after another.
ghost use Rattle.std.specs.Prelude.{◌++◌};
ghost use Rattle.std.specs.List.{flat_map};
ghost use Rattle.program.specs.Putting.{PutsOrFails};

use lines::fault::RunFault;
use lines::output::Output;
use std::io::Write;

/// Writes two texts, one after the other. The error is that a write failed.
///
/// ```
/// let (mut slice, mut room) = ([0; 8], [0; 3]);
/// let mut output = lines::output::Output::new(room.as_mut_slice(), &mut slice);
/// assert_eq!(rt; program::putting::put_both(b"12", b"\n", &mut output), Ok(()));
/// assert_eq!(rt; output.finish(), Ok(()));
/// drop(output);
/// assert_eq!(rt; room, *b"12\n");
/// ```
pub fn put_both<W: Write>(
    first: &[u8],
    second: &[u8],
    output: &mut Output<'_, W>,
) -> Result<(), RunFault>
    ensures { PutsOrFails result output.old output.new (first.now ++ second.now) }
{
    output.put(first)?;
    output.put(second)
}

/// Writes all of these texts, one after another. The error is that a write failed.
///
/// ```
/// let (mut slice, mut room) = ([0; 8], [0; 6]);
/// let mut output = lines::output::Output::new(room.as_mut_slice(), &mut slice);
/// assert_eq!(rt; program::putting::put_all(&["10", ".0", "/8"], &mut output), Ok(()));
/// assert_eq!(rt; output.finish(), Ok(()));
/// drop(output);
/// assert_eq!(rt; room, *b"10.0/8");
/// ```
pub fn put_all<W: Write>(texts: &[&str], output: &mut Output<'_, W>) -> Result<(), RunFault>
    ensures { PutsOrFails result output.old output.new (flat_map (λ text. text.now) texts.now) }
{
    for text in texts {
        output.put(text.as_bytes())?;
    }
    Ok(())
}
