//! Searches IPv6 sets for an address by the high halves of the numbers only, if these decide the
//! answer: most IPv6 prefixes end in the high half, and 128-bit numbers cost several times as much,
//! most of all in WebAssembly.
ghost use Rattle.std.specs.Prelude.{◌≡◌, ◌↔◌, ◌/◌, ◌%◌, ◌^◌, ◌≤◌, ℕ, IfSome, IsTrue, map, length};
ghost use Rattle.ipnetwork_family.specs.Network.{Member};
ghost use Rattle.ipnetwork_c.specs.Held.{v6_in, number_of_octets};
ghost use Rattle.ipnetwork_c.specs.Lists.{FindsIn};
ghost use Rattle.ipnetwork_c.specs.Private.Halves.{OfHalf, Tells};
ghost use Rattle.ipnetwork_c.specs.Private.Sets.{EndFits, NextAfter};

use crate::structs::{Ipv6InC, number_of};
use ipnetwork_blocks::laws;

/// How an index divides the high halves into parts: from `first` on, each part has 2^`shift` of
/// them.
#[derive(Clone, Copy)]
pub(crate) struct Parts {
    /// The high half of the first network's address.
    first: u64,
    /// The number of low bits in which the high halves of one part differ.
    shift: u32,
}

/// Returns the parts of an index of the list, if they are parts of high halves.
pub(crate) fn parts_of(list: &[Ipv6InC], index: &[u32]) -> Option<Parts> {
    if list.is_empty() || index.is_empty() || index[0] < 64 {
        return None;
    }
    Some(Parts {
        first: high_half(&list[0].address),
        shift: index[0] - 64,
    })
}

/// Returns 1 if an address is in the set of a list, else 0, if the high half decides it with one of
/// the two networks before the end of the address's part. As in `sets::contains`, the index only
/// says where to look, and an address may be missed if the list is not the list of a set.
#[inline(always)]
pub(crate) fn contains(
    list: &[Ipv6InC],
    index: &[u32],
    parts: Parts,
    address: &[u8; 16],
) -> Option<u8>
    ensures { IfSome result
        (λ answer. EndFits 128 (map v6_in list.now) (number_of_octets address.now)
        × FindsIn 128 (map v6_in list.now) (number_of_octets address.now) answer) }
{
    laws::one_block();
    let half = high_half(address);
    if half < parts.first && begins_after(list, 0, half) {
        return Some(0);
    }
    let end = end_of(index, parts, half, list.len());
    if end < 2 || end > list.len() || !begins_after(list, end, half) {
        return None;
    }
    if begins_after(list, end - 1, half) {
        return answer_of(&list[end - 2], half);
    }
    answer_of(&list[end - 1], half)
}

// Returns where the part of a number ends by the index. The last part ends with the list.
#[inline(always)]
fn end_of(index: &[u32], parts: Parts, half: u64, count: usize) -> usize {
    let part = half.saturating_sub(parts.first).wrapping_shr(parts.shift) as usize;
    if part >= index.len().saturating_sub(1) {
        return count;
    }
    index[part + 1] as usize
}

// Returns whether the network at `end` begins after the numbers of this high half, or there is
// none.
#[inline(always)]
fn begins_after(list: &[Ipv6InC], end: usize, half: u64) -> bool
    requires { end ≤ length list.now }
    ensures { IsTrue result → (x : ℕ) → OfHalf x half → NextAfter (map v6_in list.now) x end }
{
    end == list.len() || half < high_half(&list[end].address)
}

// Returns 1 if the numbers of this high half are in the network's set, else 0, if the network's
// address and prefix length make the answer the same for all of them.
#[inline(always)]
fn answer_of(held: &Ipv6InC, half: u64) -> Option<u8>
    ensures { IfSome result (λ answer. (x : ℕ) → OfHalf x half → Tells (v6_in held.now) x answer) }
{
    if held.prefix == 0 || held.prefix > 64 || !begins_up_to(held, half) {
        return None;
    }
    Some(u8::from(has(held, half)))
}

// Returns whether the high half shows that the network's address is at most each number with that
// half. No branch depends on the result.
#[inline(always)]
fn begins_up_to(held: &Ipv6InC, half: u64) -> bool
    ensures { IsTrue result → (x : ℕ) → OfHalf x half → (v6_in held.now).address ≤ x }
{
    let own = high_half(&held.address);
    (own < half) | ((own == half) & (low_half(&held.address) == 0))
}

// Returns whether the numbers of this high half are in the network's set, which has either all or
// none of them.
#[inline(always)]
fn has(held: &Ipv6InC, half: u64) -> bool
    requires some { 1 ≤ held.now.prefix }
    requires wide { held.now.prefix ≤ 64 }
    ensures { (x : ℕ) → OfHalf x half → IsTrue result ↔ Member 128 (v6_in held.now) x }
{
    let host_bits = u32::from(64 - held.prefix);
    high_half(&held.address) >> host_bits == half >> host_bits
}

// Returns the first 64 bits of the number of 16 octets.
#[inline(always)]
fn high_half(octets: &[u8; 16]) -> u64
    ensures { result ≡ number_of_octets octets.now / 2 ^ 64 }
{
    (number_of(octets) >> 64) as u64
}

// Returns the last 64 bits of the number of 16 octets.
#[inline(always)]
fn low_half(octets: &[u8; 16]) -> u64
    ensures { result ≡ number_of_octets octets.now % 2 ^ 64 }
{
    (number_of(octets) % (1 << 64)) as u64
}
