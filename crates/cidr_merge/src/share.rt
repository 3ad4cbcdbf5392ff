//! Which part of a network is used.
ghost use Rattle.std.specs.Prelude.{◌≡◌, ◌++◌, ◌*◌, ◌/◌, ◌^◌, ◌≤◌, ◌-◌, codes, decimal};
ghost use Rattle.ipnetwork_sets.specs.Counts.{count_number};
ghost use Rattle.cidr_merge.specs.Usages.{share};

use arrayvec::ArrayString;
use ipnetwork_addr::decimal::push_number;
use ipnetwork_sets::AddressCount;

/// A part of a whole as a text: percent, with one digit after the point.
pub(crate) type ShareText = ArrayString<80>;

/// Returns which part of a network with so many host bits is used: percent, with one digit after
/// the point, rounded down.
pub(crate) fn share(used: AddressCount, host_bits: u8) -> ShareText
    requires bits { host_bits ≤ 128 }
    requires within { count_number used ≤ 2 ^ host_bits }
    ensures { result.bytes ≡ share (count_number used) (2 ^ host_bits) }
{
    let tenths = thousandths(used, host_bits);
    let mut text = ArrayString::new();
    push_number(&mut text, tenths / 10);
    text.push('.');
    push_number(&mut text, tenths % 10);
    text
}

// Returns how many thousandths of a network with so many host bits are used, rounded down.
fn thousandths(used: AddressCount, host_bits: u8) -> u128
    requires bits { host_bits ≤ 128 }
    requires within { count_number used ≤ 2 ^ host_bits }
    ensures exactly { result ≡ count_number used * 1000 / 2 ^ host_bits }
    ensures most { result ≤ 1000 }
{
    let AddressCount::Number(number) = used else {
        return 1000;
    };
    if host_bits < 64 {
        return (number * 1000) >> host_bits;
    }
    let high = (number >> 64) * 1000 + (((number & 0xffff_ffff_ffff_ffff) * 1000) >> 64);
    high >> (host_bits - 64)
}
