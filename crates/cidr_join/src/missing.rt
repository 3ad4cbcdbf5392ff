//! Whether a log or a line was missed.
ghost use Rattle.std.specs.Prelude.{◌≡◌, ◌||◌, Some};
ghost use Rattle.cidr_join.specs.Runs.{status_by};

use program::ending::FAILED;

/// Returns whether one of the two is true.
pub(crate) fn either(first: bool, second: bool) -> bool
    ensures { result ≡ (first || second) }
{
    first || second
}

/// Returns the exit status; `missed` says whether a log or a line was missed.
pub(crate) fn status(missed: bool) -> u8
    ensures { result ≡ status_by (Some missed) }
{
    if missed { FAILED } else { 0 }
}
