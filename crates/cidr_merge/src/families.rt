//! The families whose networks are looked at: one, or both.
ghost use Rattle.std.specs.Prelude.{◌≡◌};
ghost use Rattle.cidr_merge.specs.Families.{looked_at, looks_at, only_of};

use crate::exports::Version;
use crate::rows::{ONLY_V4, ONLY_V6};
use options::given::is_given;
use options::items::Item;

/// Returns the family that is looked at alone: that of `-4` or `-6`.
pub(crate) fn only_of(items: &[Item<'_>]) -> Option<Version>
    ensures { result ≡ only_of items.now }
{
    if is_given(items, ONLY_V4) {
        Some(Version::V4)
    } else if is_given(items, ONLY_V6) {
        Some(Version::V6)
    } else {
        None
    }
}

/// Returns whether a family is looked at: it is, unless the other alone is.
pub(crate) fn looks_at(only: Option<Version>, version: Version) -> bool
    ensures { result ≡ looks_at only version }
{
    match (only, version) {
        (Some(Version::V4), Version::V6) => false,
        (Some(Version::V6), Version::V4) => false,
        _ => true,
    }
}

/// Returns the networks of a family that are looked at: all of them, or none.
pub(crate) fn looked_at<N: Drop>(
    only: Option<Version>,
    version: Version,
    mut networks: Vec<N>,
) -> Vec<N>
    ensures { result.items ≡ looked_at only version networks.items }
{
    if !looks_at(only, version) {
        networks.clear();
    }
    networks
}
