//! Why a run stops early.
ghost use Rattle.std.specs.Prelude.{◌≡◌};
ghost use Rattle.lines.specs.Faults.{run_fault_text};

/// Why a run stops before it has answered all of its input.
///
/// ```
/// let fault = lines::fault::RunFault::Write;
/// assert_eq!(rt; fault.text(), "write error");
/// ```
#[derive(Clone, Copy, Debug, PartialEq, Eq)]
pub enum RunFault {
    /// A read failed.
    Read,
    /// A write or the flush failed.
    Write,
    /// The input has more bytes than the limit.
    InputTooLong,
}

impl RunFault {
    /// Returns the text of the fault, for a program to print.
    ///
    /// ```
    /// let fault = lines::fault::RunFault::InputTooLong;
    /// assert_eq!(rt; fault.text(), "input too long");
    /// ```
    pub fn text(self) -> &'static str
        ensures { result.now ≡ run_fault_text self }
    {
        match self {
            RunFault::Read => "read error",
            RunFault::Write => "write error",
            RunFault::InputTooLong => "input too long",
        }
    }
}
