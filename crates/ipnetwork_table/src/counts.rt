//! The number of blocks with each prefix length.
ghost use Rattle.std.specs.Prelude.{◌≡◌, ◌+◌, ◌-◌, ◌<◌, ◌^◌, slice_index_or, slice_set};

/// Counts one more block with this prefix length.
pub(crate) fn count_one_more(counts: &mut [usize; 256], prefix: u8)
    requires { slice_index_or counts.old prefix 0 + 1 < 2 ^ 64 }
    ensures { counts.new ≡ slice_set counts.old prefix (slice_index_or counts.old prefix 0 + 1) }
{
    counts[prefix as usize] += 1;
}

/// Counts one block fewer with this prefix length.
pub(crate) fn count_one_less(counts: &mut [usize; 256], prefix: u8)
    requires { 0 < slice_index_or counts.old prefix 0 }
    ensures { counts.new ≡ slice_set counts.old prefix (slice_index_or counts.old prefix 0 - 1) }
{
    counts[prefix as usize] -= 1;
}
