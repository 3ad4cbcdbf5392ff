//! Where lists come from.
ghost use Rattle.std.specs.Prelude.{◌≡◌, ℕ, IsTrue, List as Bytes, Some, IfOk, IfErr, is_ok};
ghost use Rattle.std.specs.IoError.{error_kind};
ghost use Rattle.lines.specs.Watched.{has_failed};
ghost use Rattle.lists.specs.KnownLists.{KnownLists, nothing_known};
ghost use Rattle.lists.specs.Opening.{cause_of};

use lines::watched::Watched;
use std::io;
use std::io::Read;

/// Opens lists by their names, and closes them.
///
/// ```
/// // Whether there is a list of this name.
/// fn is_there<L: lists::OpenLists>(lists: &L, name: &str) -> bool {
///     lists.open(name).is_ok()
/// }
///
/// assert!(rt; is_there(&program::system::System::new(&rt), "-"));
/// ```
pub trait OpenLists {
    /// A list that is open.
    type List: Read + Drop;

    // What is known about its lists.
    ghost known: { Self → KnownLists } = { λ _. nothing_known };

    /// Opens the list of this name. The error is the system's.
    ///
    /// An implementation may refuse a pipe that it opened before, since nothing would be left in it.
    ///
    /// ```
    /// use lists::OpenLists;
    ///
    /// let system = program::system::System::new(&rt);
    /// assert!(rt; system.open("-").is_ok());
    /// assert!(rt; system.open("no such file").is_err());
    /// ```
    fn open(&self, name: &str) -> io::Result<Self::List>
        ensures bytes { IfOk result (λ list. (bytes : Bytes ℕ)
            → (known self.now).bytes_of name.now ≡ Some bytes
            → Self.List.remaining list ≡ Some bytes) }
        ensures opened { (known self.now).may_open name.now (is_ok result) }
        ensures missed { IfErr result
            (λ error. (known self.now).may_miss name.now (cause_of (error_kind error))) };

    /// Opens the file of this name, to be read while its lines are written. The error is the
    /// system's.
    ///
    /// An implementation may refuse the file that is also being written, since reading it would
    /// never end. By default the file is opened as a list.
    ///
    /// ```
    /// use lists::OpenLists;
    ///
    /// let system = program::system::System::new(&rt);
    /// assert!(rt; system.open_input("-").is_ok());
    /// assert!(rt; system.open_input("no such file").is_err());
    /// ```
    fn open_input(&self, name: &str) -> io::Result<Self::List>
        ensures bytes { IfOk result (λ list. (bytes : Bytes ℕ)
            → (known self.now).bytes_of name.now ≡ Some bytes
            → Self.List.remaining list ≡ Some bytes) }
        ensures opened { (known self.now).may_open name.now (is_ok result) }
        ensures missed { IfErr result
            (λ error. (known self.now).may_miss name.now (cause_of (error_kind error))) }
    {
        self.open(name)
    }

    /// Closes the list of this name. The contract records whether a read of it failed.
    ///
    /// ```
    /// use lines::watched::Watched;
    /// use lists::OpenLists;
    ///
    /// let system = program::system::System::new(&rt);
    /// let list = Watched::new(system.open("-")?);
    /// assert!(rt; !list.failed());
    /// system.close("-", list);
    /// ```
    fn close(&self, name: &str, list: Watched<Self::List>)
        ensures failed { IsTrue (has_failed list) → (known self.now).may_fail name.now };
}
