//! Standard output, which may be a pipe that its reader closes.
use crate::progress::Progress;
use std::cell::Cell;
use std::io;
use std::io::{ErrorKind, Stdout, Write};

/// Standard output, which notes why a write failed, such as that nobody reads its pipe any more.
/// Before each write, it removes what is shown of a long reading.
///
/// ```
/// use program::progress::Progress;
/// use program::standard_output::StandardOutput;
/// use std::io::Write;
///
/// let (progress, failure) = (Progress::new(&rt, true), std::cell::Cell::new(None));
/// let mut output = StandardOutput::new(rt.stdout(), &progress, &failure);
/// assert!(rt; output.flush().is_ok());
/// assert!(rt; failure.get().is_none());
/// ```
#[derive(Drop)]
pub struct StandardOutput<'a> {
    output: Stdout,
    progress: &'a Progress<'a>,
    failure: &'a Cell<Option<ErrorKind>>,
}

impl<'a> StandardOutput<'a> {
    /// Creates a writer from the system's standard output, the progress that is shown on standard
    /// error, and the cell that notes the kind of the system's error when a write fails.
    ///
    /// ```
    /// use program::progress::Progress;
    /// use program::standard_output::StandardOutput;
    ///
    /// let (progress, failure) = (Progress::new(&rt, true), std::cell::Cell::new(None));
    /// let _ = StandardOutput::new(rt.stdout(), &progress, &failure);
    /// assert!(rt; failure.get().is_none());
    /// ```
    pub fn new(
        output: Stdout,
        progress: &'a Progress<'a>,
        failure: &'a Cell<Option<ErrorKind>>,
    ) -> StandardOutput<'a> {
        StandardOutput {
            output,
            progress,
            failure,
        }
    }
}

impl Write for StandardOutput<'_> {
    fn write(&mut self, buf: &[u8]) -> io::Result<usize> {
        self.progress.clear();
        let result = self.output.write(buf);
        if let Err(error) = &result {
            self.failure.set(Some(error.kind()));
        }
        result
    }

    fn flush(&mut self) -> io::Result<()> {
        self.output.flush()
    }
}
