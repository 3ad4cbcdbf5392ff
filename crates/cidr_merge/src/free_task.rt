//! What a `free` prints.
ghost use Rattle.std.specs.Prelude.{◌≡◌};
ghost use Rattle.cidr_merge.specs.CommandLines.{free_task_of};

use crate::rows::{HOSTS, USAGE};
use options::given::is_given;
use options::items::Item;

/// What is printed of pools.
#[derive(Clone, Copy, Debug, PartialEq, Eq)]
pub enum FreeTask {
    /// Free networks of one prefix length.
    Blocks,
    /// A free network for each of several numbers of hosts.
    Places,
    /// How much of each network is used.
    Usage,
}

/// Returns what a `free` prints by these options.
pub(crate) fn free_task_of(items: &[Item<'_>]) -> FreeTask
    ensures { result ≡ free_task_of items.now }
{
    if is_given(items, HOSTS) {
        FreeTask::Places
    } else if is_given(items, USAGE) {
        FreeTask::Usage
    } else {
        FreeTask::Blocks
    }
}
