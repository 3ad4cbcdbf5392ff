//! Opens files, and says why one cannot be opened.
ghost use Rattle.std.specs.Prelude.{◌≡◌, ℕ, List, Some, IfOk, IfErr, false, is_ok};
ghost use Rattle.lines.specs.Watched.{device_of, has_failed};
ghost use Rattle.lists.specs.Opening.{cause_of, open_fault_text};

use crate::open_lists::OpenLists;
use lines::watched::Watched;
use std::io::ErrorKind;

/// Why a file cannot be opened.
///
/// ```
/// use std::io::ErrorKind;
///
/// assert_eq!(rt; OpenFault::of(ErrorKind::NotFound), OpenFault::Missing);
/// assert_eq!(rt; OpenFault::of(ErrorKind::TimedOut), OpenFault::Other);
/// ```
#[derive(Clone, Copy, Debug, PartialEq, Eq)]
pub enum OpenFault {
    /// There is no file of this name.
    Missing,
    /// The program may not read it.
    Denied,
    /// It is a directory.
    Directory,
    /// It is also the output.
    Output,
    /// It is a pipe that was opened before.
    Spent,
    /// There is another cause.
    Other,
}

impl OpenFault {
    /// Returns the cause that the kind of the system's error stands for.
    ///
    /// ```
    /// use std::io::ErrorKind;
    ///
    /// assert_eq!(rt; OpenFault::of(ErrorKind::PermissionDenied), OpenFault::Denied);
    /// assert_eq!(rt; OpenFault::of(ErrorKind::Deadlock), OpenFault::Output);
    /// ```
    pub fn of(kind: ErrorKind) -> OpenFault
        ensures { result ≡ cause_of kind }
    {
        match kind {
            ErrorKind::NotFound => OpenFault::Missing,
            ErrorKind::PermissionDenied => OpenFault::Denied,
            ErrorKind::IsADirectory => OpenFault::Directory,
            ErrorKind::Deadlock => OpenFault::Output,
            ErrorKind::NotSeekable => OpenFault::Spent,
            _ => OpenFault::Other,
        }
    }

    /// Returns what is reported about the cause, after the name of the file.
    ///
    /// ```
    /// assert_eq!(rt; OpenFault::Missing.text(), ": cannot open: no such file\n");
    /// assert_eq!(rt; OpenFault::Other.text(), ": cannot open\n");
    /// ```
    pub fn text(self) -> &'static str
        ensures { result.now ≡ open_fault_text self }
    {
        match self {
            OpenFault::Missing => ": cannot open: no such file\n",
            OpenFault::Denied => ": cannot open: permission denied\n",
            OpenFault::Directory => ": cannot open: is a directory\n",
            OpenFault::Output => ": input file is also the output\n",
            OpenFault::Spent => ": a pipe can be read only once\n",
            OpenFault::Other => ": cannot open\n",
        }
    }
}

/// Opens the list of this name. Once a read of it has failed, it is not read again.
///
/// An error that says why is returned if it cannot be opened.
///
/// ```
/// let system = program::system::System::new(&rt);
/// assert!(rt; lists::open_list(&system, "-").is_ok());
/// assert!(rt; lists::open_list(&system, "no such file").is_err());
/// ```
pub fn open_list<L: OpenLists>(lists: &L, name: &str) -> Result<Watched<L::List>, OpenFault>
    ensures bytes { IfOk result (λ list. (bytes : List ℕ)
        → (L.known lists.now).bytes_of name.now ≡ Some bytes
        → L.List.remaining (device_of list) ≡ Some bytes) }
    ensures opened { (L.known lists.now).may_open name.now (is_ok result) }
    ensures missed { IfErr result (λ fault. (L.known lists.now).may_miss name.now fault) }
    ensures failed { IfOk result (λ list. has_failed list ≡ false) }
{
    match lists.open(name) {
        Ok(list) => Ok(Watched::new(list)),
        Err(error) => Err(OpenFault::of(error.kind())),
    }
}

/// Opens the file of this name, to be read while its lines are written, as `open_list` opens a
/// list. A file that is also the output may be refused.
///
/// An error that says why is returned if it cannot be opened.
///
/// ```
/// let system = program::system::System::new(&rt);
/// assert!(rt; lists::open_input(&system, "-").is_ok());
/// assert!(rt; lists::open_input(&system, "no such file").is_err());
/// ```
pub fn open_input<L: OpenLists>(lists: &L, name: &str) -> Result<Watched<L::List>, OpenFault>
    ensures bytes { IfOk result (λ list. (bytes : List ℕ)
        → (L.known lists.now).bytes_of name.now ≡ Some bytes
        → L.List.remaining (device_of list) ≡ Some bytes) }
    ensures opened { (L.known lists.now).may_open name.now (is_ok result) }
    ensures missed { IfErr result (λ fault. (L.known lists.now).may_miss name.now fault) }
    ensures failed { IfOk result (λ list. has_failed list ≡ false) }
{
    match lists.open_input(name) {
        Ok(list) => Ok(Watched::new(list)),
        Err(fault) => Err(OpenFault::of(fault.kind())),
    }
}
