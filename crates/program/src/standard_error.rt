//! Standard error, which also shows how much a long reading has read.
use crate::progress::Progress;
use std::io;
use std::io::{Stderr, Write};

/// Standard error. Before each write, it removes what is shown there of a long reading.
///
/// ```
/// use program::progress::Progress;
/// use program::standard_error::StandardError;
/// use std::io::Write;
///
/// let progress = Progress::new(&rt, true);
/// assert!(rt; StandardError::new(rt.stderr(), &progress).flush().is_ok());
/// ```
#[derive(Drop)]
pub struct StandardError<'a> {
    errors: Stderr,
    progress: &'a Progress<'a>,
}

impl<'a> StandardError<'a> {
    /// Creates a writer from the system's standard error and the progress that is shown there.
    ///
    /// ```
    /// use program::progress::Progress;
    /// use program::standard_error::StandardError;
    ///
    /// let progress = Progress::new(&rt, true);
    /// let _ = StandardError::new(rt.stderr(), &progress);
    /// ```
    pub fn new(errors: Stderr, progress: &'a Progress<'a>) -> StandardError<'a> {
        StandardError { errors, progress }
    }
}

impl Write for StandardError<'_> {
    fn write(&mut self, buf: &[u8]) -> io::Result<usize> {
        self.progress.clear();
        self.errors.write(buf)
    }

    fn flush(&mut self) -> io::Result<()> {
        self.errors.flush()
    }
}
