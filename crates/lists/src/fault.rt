//! Why a line of a list is refused.
ghost use Rattle.std.specs.Prelude.{◌≡◌};
ghost use Rattle.lists.specs.Faults.{line_fault_text};

use crate::EntryFault;

/// Why a line of a list is refused.
///
/// ```
/// let mut lists = ListReader::new(rt.alloc(), Rules::lenient(), Refusals::new());
/// read_list(&mut lists, 1, &mut lines::watched::Watched::new(b"10.0.0.0/33".as_slice()))?;
/// let (_, _, refusals) = lists.into_networks();
/// assert_eq!(rt; refusals.kept()[0].fault, LineFault::Entry(EntryFault::Prefix));
/// ```
#[derive(Clone, Copy, Debug, PartialEq, Eq)]
pub enum LineFault {
    /// The line names no addresses.
    Entry(EntryFault),
    /// The line has more than 1,024 bytes, not counting its line end.
    Length,
}

impl LineFault {
    /// Returns the fault in a word, `length` or that of the entry, or the name of the entry's
    /// encoding.
    ///
    /// ```
    /// assert_eq!(rt; LineFault::Entry(EntryFault::Prefix).text(), "prefix");
    /// assert_eq!(rt; LineFault::Length.text(), "length");
    /// ```
    pub fn text(self) -> &'static str
        ensures { result.now ≡ line_fault_text self }
    {
        match self {
            LineFault::Entry(fault) => fault.text(),
            LineFault::Length => "length",
        }
    }
}
