//! Reads an IPv6 text after finding all its colons and the values of all its digits.
ghost use Rattle.std.specs.Prelude.{◌≡◌, ◌≤◌, length, drop, IfSome};
ghost use Rattle.std.specs.Option.{option_map};
ghost use Rattle.ipnetwork_addr.specs.Ipv6Text.{NamesV6};
ghost use Rattle.ipnetwork_addr.specs.Private.DigitLanes.{ShowsValues, AreDigitsIn, group_in};
ghost use Rattle.ipnetwork_addr.specs.Private.GroupFront.{IsGroupUpTo, BeginsWithPart, BeginsWithLeft, EndsWithRight};

use crate::colons::shift;
use crate::digit_lanes::{MOST, put_values};
use crate::group::append;

/// Returns the number of the address that a text names. `None` means that the text must be read
/// from left to right instead.
///
/// There is no branch on the number of digits of a group: it would be mispredicted too often.
#[inline(always)]
pub(crate) fn read_at_once(text: &[u8]) -> Option<u128>
    ensures { IfSome result (NamesV6 text.now) }
{
    if text.len() < 16 || text.len() > MOST {
        return None;
    }
    let mut values = [0; 48];
    let ends = put_values(text, &mut values) | 1 << text.len();
    let (count, left, end) = read_left(text, &values, ends)?;
    let Some(behind_gap) = end else {
        return if count == 8 { Some(left) } else { None };
    };
    if count == 8 {
        return None;
    }
    let right = read_right(text, &values, ends, behind_gap, 7 - count)?;
    Some(shift(left, count) + right)
}

/// Reads the groups up to the end of the text or a `::`. Returns how many there are, the number
/// whose digits in base 2^16 they are, and the position after the `::`, if there is one.
#[inline(always)]
fn read_left(text: &[u8], values: &[u8; 48], ends: u64) -> Option<(usize, u128, Option<usize>)>
    requires short { length text.now ≤ 44 }
    requires shown { ShowsValues text.now values.now }
    ensures { IfSome result (λ found. BeginsWithLeft text.now found.0 found.1
        (option_map (λ at. drop at text.now) found.2)) }
{
    match text {
        [b':', b':', ..] => Some((0, 0, Some(2))),
        _ => read_part(text, values, ends, 0, 8),
    }
}

/// Returns the number of the groups that make up the text from `from` on, at most `room` of them.
#[inline(always)]
fn read_right(text: &[u8], values: &[u8; 48], ends: u64, from: usize, room: usize) -> Option<u128>
    requires short { length text.now ≤ 44 }
    requires shown { ShowsValues text.now values.now }
    requires few { room ≤ 8 }
    ensures { IfSome result (EndsWithRight room (drop from text.now)) }
{
    if text.len() <= from {
        return Some(0);
    }
    let ends_behind = ends >> (from % 64) << (from % 64);
    let (_, number, end) = read_part(text, values, ends_behind, from, room)?;
    match end {
        None => Some(number),
        Some(_) => None,
    }
}

/// Reads groups joined by colons from `from` on, up to the end of the text or a `::`, at most
/// `room` of them. Returns how many there are, the number whose digits in base 2^16 they are, and
/// the position after the `::`, if there is one. The lowest bit of `ends` is the likely end of the
/// first group.
#[inline(always)]
fn read_part(
    text: &[u8],
    values: &[u8; 48],
    ends: u64,
    from: usize,
    room: usize,
) -> Option<(usize, u128, Option<usize>)>
    requires short { length text.now ≤ 44 }
    requires shown { ShowsValues text.now values.now }
    requires few { room ≤ 8 }
    ensures { IfSome result (λ found. BeginsWithPart room (drop from text.now) found.0 found.1
        (option_map (λ at. drop at text.now) found.2)) }
{
    let mut ends_left = ends;
    let mut at = from;
    let mut number = 0u128;
    for count in 0..room {
        let end = ends_left.trailing_zeros() as usize;
        let group = read_group(text, values, at, end)?;
        number = append(number, group);
        if end == text.len() {
            return Some((count + 1, number, None));
        }
        at = end + 1;
        if at < text.len() && text[at] == b':' {
            return Some((count + 1, number, Some(at + 1)));
        }
        ends_left &= ends_left.wrapping_sub(1);
    }
    None
}

/// Returns the group from `at` to `end`, where there must be a colon or the end of the text.
#[inline(always)]
fn read_group(text: &[u8], values: &[u8; 48], at: usize, end: usize) -> Option<u16>
    requires short { length text.now ≤ 44 }
    requires shown { ShowsValues text.now values.now }
    ensures { IfSome result (IsGroupUpTo text.now at end) }
{
    if text.len() < end || end <= at || end - at > 4 {
        return None;
    }
    if end < text.len() && text[end] != b':' {
        return None;
    }
    let before = [
        values[end],
        values[end + 1],
        values[end + 2],
        values[end + 3],
    ];
    let digits = u32::from_be_bytes(before) & u32::MAX >> (32 - 8 * (end - at));
    if digits & 0xf0f0_f0f0 != 0 {
        return None;
    }
    Some(group_of(digits))
}

/// Returns the group with these four digits, one in each byte of a number.
#[inline(always)]
fn group_of(digits: u32) -> u16
    requires { AreDigitsIn digits }
    ensures { result ≡ group_in digits }
{
    let pairs = digits + digits / 16;
    (pairs / 0x1_0000 % 256 * 256 + pairs % 256) as u16
}
