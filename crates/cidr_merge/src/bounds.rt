//! How many other addresses a reduced list may have, and how many may differ from an old one.
ghost use Rattle.std.specs.Prelude.{◌≡◌, ◌+◌, ◌*◌, ◌/◌, ◌^◌, ◌<◌, ℕ, min, nat_le};
ghost use Rattle.std.specs.Prelude.{SomeIff};
ghost use Rattle.ipnetwork_sets.specs.Counts.{count_number};
ghost use Rattle.line_addresses.specs.Numbers.{number_of};
ghost use Rattle.cidr_merge.specs.Bounds.{allows, bound_in, large_number};

use ipnetwork_sets::AddressCount;
use line_addresses::is_number;

/// A bound on how many addresses of a family may be others, or differ.
#[derive(Clone, Copy, Debug, PartialEq, Eq)]
pub enum Bound {
    /// None.
    Any,
    /// So many addresses.
    Number(u128),
    /// So many percent of the addresses that the lists have of the family.
    Percent(u128),
}

/// The bound that a text names: `any`, a number, or a number and a `%`.
pub(crate) fn bound_in(text: &str) -> Option<Bound>
    ensures { result ≡ bound_in text.now }
{
    if text == "any" {
        return Some(Bound::Any);
    }
    let bytes = text.as_bytes();
    if is_number(bytes) {
        return Some(Bound::Number(large_number(bytes)));
    }
    let (digits, sign) = bytes.split_at(bytes.len().saturating_sub(1));
    if sign == b"%".as_slice() && is_number(digits) {
        return Some(Bound::Percent(large_number(digits)));
    }
    None
}

/// Returns the number that decimal digits name, or `u128::MAX` if it is greater.
pub(crate) fn large_number(digits: &[u8]) -> u128
    ensures { result ≡ large_number digits.now }
{
    let mut number = 0u128;
    for digit in digits {
        number = number
            .saturating_mul(10)
            .saturating_add(u128::from(digit.saturating_sub(b'0')));
    }
    number
}

/// The greatest number of other addresses that the bound allows for so many of the lists.
pub(crate) fn allowed(bound: Bound, addresses: AddressCount) -> u128
    ensures { (others : ℕ) → others < 2 ^ 128
        → allows bound (count_number addresses) others ≡ nat_le others result }
{
    match bound {
        Bound::Any => u128::MAX,
        Bound::Number(number) => number,
        Bound::Percent(percent) => match percent_of(percent, addresses) {
            Some(number) => number,
            None => u128::MAX,
        },
    }
}

/// Whether the bound allows so many other addresses for so many of the lists.
pub(crate) fn does_allow(bound: Bound, addresses: AddressCount, others: AddressCount) -> bool
    ensures { result ≡ allows bound (count_number addresses) (count_number others) }
{
    match others {
        AddressCount::Number(others) => others <= allowed(bound, addresses),
        AddressCount::AllOfIpv6 => allows_all(bound, addresses),
    }
}

// Whether the bound allows 2^128 other addresses for so many of the lists.
fn allows_all(bound: Bound, addresses: AddressCount) -> bool
    ensures { result ≡ allows bound (count_number addresses) (2 ^ 128) }
{
    match bound {
        Bound::Any => true,
        Bound::Number(_) => false,
        Bound::Percent(percent) => percent_of(percent, addresses).is_none(),
    }
}

// So many percent of a count, unless that is greater than `u128::MAX`.
fn percent_of(percent: u128, count: AddressCount) -> Option<u128>
    ensures { SomeIff result (percent * count_number count / 100 < 2 ^ 128)
        (percent * count_number count / 100) }
{
    let (hundreds, rest) = in_hundreds(count);
    let of_rest = percent / 100 * rest + percent % 100 * rest / 100;
    match percent.checked_mul(hundreds) {
        Some(of_hundreds) => of_hundreds.checked_add(of_rest),
        None => None,
    }
}

/// The sum of two counts, or 2^128 if that is less.
pub(crate) fn sum(one: AddressCount, other: AddressCount) -> AddressCount
    ensures { count_number result ≡ min (count_number one + count_number other) (2 ^ 128) }
{
    let (AddressCount::Number(one), AddressCount::Number(other)) = (one, other) else {
        return AddressCount::AllOfIpv6;
    };
    match one.checked_add(other) {
        Some(sum) => AddressCount::Number(sum),
        None => AddressCount::AllOfIpv6,
    }
}

// How many hundreds a count has, and what is left of it.
fn in_hundreds(count: AddressCount) -> (u128, u128)
    ensures all { count_number count ≡ result.0 * 100 + result.1 }
    ensures rest { result.1 < 100 }
{
    match count {
        AddressCount::Number(number) => (number / 100, number % 100),
        AddressCount::AllOfIpv6 => (u128::MAX / 100, u128::MAX % 100 + 1),
    }
}
