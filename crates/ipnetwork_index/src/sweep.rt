//! What a table finds in ranges, by one sweep over its blocks in order. The open blocks are on a
//! stack: those whose first address the sweep has reached and whose last address it has not passed.
//! Each lies in the one below it and is longer, so the top one is the longest, and there is at most
//! one of each prefix length.
ghost use Rattle.std.specs.Prelude.{◌≡◌, ◌+◌, ◌<◌, ◌≤◌, IfOk, length, map};
ghost use Rattle.ipnetwork_table.specs.Table.{by_pair};
ghost use Rattle.ipnetwork_index.specs.Private.Partitions.{IsPartition};
ghost use Rattle.ipnetwork_index.specs.Private.Sweeps.{AreListed, AreOpen, ArePlaces, AreSwept, IsInnermost, KeepsOpen, LastEndsFrom, NextIsAfter};

use crate::answers::{Answers, NO_BLOCK};
use crate::indexed_network::IndexedNetwork;
use crate::key::Key;
use arrayvec::ArrayVec;
use ipnetwork_table::laws;
use std::alloc::{AllocError, Global};

// The greatest number of open blocks: one of each prefix length from 0 to 128.
const MOST_OPEN: usize = 129;

/// What a table with these entries, at least one, finds for the last address of each range.
pub(crate) fn answers_by_sweep<N: IndexedNetwork, V: Copy>(
    alloc: Global,
    entries: &[(N, V)],
    lasts: &[N::Addr],
) -> Result<Answers<V>, AllocError>
    requires some { 1 ≤ length entries.now }
    requires listed { AreListed N.WIDTH (by_pair N.pair entries.now) }
    requires partition { IsPartition N.WIDTH (map N.number lasts.now) }
    ensures { IfOk result (λ answers. AreSwept N.WIDTH (by_pair N.pair entries.now)
        (map N.number lasts.now) answers.prefixes.items answers.values.items (length lasts.now)) }
{
    laws::listing::<V>();
    let mut prefixes = Vec::with_capacity(alloc, lasts.len())?;
    let mut values = Vec::with_capacity(alloc, lasts.len())?;
    let mut opened = ArrayVec::<usize, MOST_OPEN>::new();
    let mut count = 0;
    for last in lasts {
        count = open_up_to(entries, count, &mut opened, *last);
        close_before(entries, &mut opened, *last);
        let (prefix, value) = innermost(entries, opened.as_slice());
        prefixes.push(prefix)?;
        values.push(value)?;
    }
    Ok(Answers { prefixes, values })
}

// Opens the blocks after the first `count` that begin at the address or before it, each after
// closing those that end before it. Returns how many of the blocks have then been opened.
fn open_up_to<N: IndexedNetwork, V: Copy>(
    entries: &[(N, V)],
    count: usize,
    opened: &mut ArrayVec<usize, MOST_OPEN>,
    addr: N::Addr,
) -> usize
    requires listed { AreListed N.WIDTH (by_pair N.pair entries.now) }
    requires open { AreOpen N.WIDTH (by_pair N.pair entries.now) count (N.number addr)
        opened.old.items }
    ensures begun { AreOpen N.WIDTH (by_pair N.pair entries.now) result (N.number addr)
        opened.new.items }
    ensures all { NextIsAfter N.WIDTH (by_pair N.pair entries.now) result (N.number addr) }
    ensures few { length opened.new.items ≤ N.WIDTH + 1 }
{
    let mut at = count;
    'opening: while at < entries.len() {
        let first = entries[at].0.network();
        if N::number_of(addr).is_less(N::number_of(first)) {
            return at;
        }
        close_before(entries, opened, first);
        opened.push(at);
        at += 1;
    }
    at
}

// Closes blocks from the top of the stack while they end before the address.
fn close_before<N: IndexedNetwork, V: Copy>(
    entries: &[(N, V)],
    opened: &mut ArrayVec<usize, MOST_OPEN>,
    addr: N::Addr,
)
    requires { ArePlaces (by_pair N.pair entries.now) opened.old.items }
    ensures kept { KeepsOpen N.WIDTH (by_pair N.pair entries.now) (N.number addr) opened.old.items
        opened.new.items }
    ensures last { LastEndsFrom N.WIDTH (by_pair N.pair entries.now) (N.number addr)
        opened.new.items }
{
    'closing: while let Some(place) = opened.as_slice().last().copied() {
        let end = entries[place].0.broadcast();
        if !N::number_of(end).is_less(N::number_of(addr)) {
            return;
        }
        let _ = opened.pop();
    }
}

// The prefix length and the value of the last open block, or `NO_BLOCK` and any value.
fn innermost<N: IndexedNetwork, V: Copy>(entries: &[(N, V)], opened: &[usize]) -> (u8, V)
    requires some { 1 ≤ length entries.now }
    requires places { ArePlaces (by_pair N.pair entries.now) opened.now }
    ensures { IsInnermost (by_pair N.pair entries.now) opened.now result.0 result.1 }
{
    match opened.last().copied() {
        Some(place) => {
            let entry = entries[place];
            (entry.0.prefix(), entry.1)
        }
        None => (NO_BLOCK, entries[0].1),
    }
}
