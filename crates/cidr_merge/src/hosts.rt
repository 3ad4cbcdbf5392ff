//! Numbers of hosts in a text.
ghost use Rattle.std.specs.Prelude.{◌≡◌, IfOk};
ghost use Rattle.cidr_merge.specs.Hosts.{are_hosts, hosts_in, is_host_number};

use crate::bounds::large_number;
use line_addresses::is_number;
use std::alloc::{AllocError, Global};

/// Returns whether a text is numbers from 1, with commas between them.
pub(crate) fn are_hosts(text: &str) -> bool
    ensures { result ≡ are_hosts text.now }
{
    let mut left = text;
    while let Some((first, others)) = left.split_once(',') {
        if !is_host_number(first.as_bytes()) {
            return false;
        }
        left = others;
    }
    is_host_number(left.as_bytes())
}

// Returns whether a text is a number from 1 that is not greater than each number of hosts.
fn is_host_number(text: &[u8]) -> bool
    ensures { result ≡ is_host_number text.now }
{
    is_number(text) && large_number(text) > 0 && large_number(text) < u128::MAX
}

/// Returns the numbers in a text. `AllocError`: out of memory.
pub(crate) fn hosts_in(alloc: Global, text: &str) -> Result<Vec<u128>, AllocError>
    ensures { IfOk result (λ numbers. numbers.items ≡ hosts_in text.now) }
{
    let mut numbers = Vec::new(alloc);
    let mut left = text;
    while let Some((first, others)) = left.split_once(',') {
        numbers.push(large_number(first.as_bytes()))?;
        left = others;
    }
    numbers.push(large_number(left.as_bytes()))?;
    Ok(numbers)
}
