//! Writes groups of an IPv6 address in hex at the end of a text.
ghost use Rattle.std.specs.Prelude.{◌≡◌, false, ◌+◌, ◌-◌, ◌*◌, ◌<◌, ◌≤◌, ◌++◌, length};
ghost use Rattle.std.specs.Fmt.{digit_glyph};
ghost use Rattle.ipnetwork_addr.specs.Ipv6Canonical.{hex, hex_groups};
ghost use Rattle.arrayvec.specs.ArrayString.{array_string_len};

use crate::ADDRESS_TEXT_CAPACITY;
use arrayvec::ArrayString;

/// Appends groups in shortest lower-case hex, joined by `:`.
pub(crate) fn push_groups(text: &mut ArrayString<ADDRESS_TEXT_CAPACITY>, groups: &[u16])
    requires { array_string_len text.old + (5 * length groups.now - 1) ≤ ADDRESS_TEXT_CAPACITY }
    ensures bytes { text.new.bytes ≡ text.old.bytes ++ hex_groups groups.now }
    ensures room { array_string_len text.new
        ≤ array_string_len text.old + (5 * length groups.now - 1) }
{
    if let [first, rest @ ..] = groups {
        push_hex(text, *first);
        for group in rest {
            text.push(':');
            push_hex(text, *group);
        }
    }
}

/// Appends the shortest lower-case hex form of a group: one to four bytes.
#[tactic(auto, using(crate::proofs::Decimals::pushing))]
#[inline(always)]
fn push_hex(text: &mut ArrayString<ADDRESS_TEXT_CAPACITY>, group: u16)
    requires { array_string_len text.old + 4 ≤ ADDRESS_TEXT_CAPACITY }
    ensures bytes { text.new.bytes ≡ text.old.bytes ++ hex group }
    ensures room { array_string_len text.new ≤ array_string_len text.old + 4 }
{
    if group >= 0x1000 {
        text.push(hex_digit(group / 0x1000));
        text.push(hex_digit(group / 0x100 % 16));
        text.push(hex_digit(group / 0x10 % 16));
        text.push(hex_digit(group % 16));
    } else if group >= 0x100 {
        text.push(hex_digit(group / 0x100));
        text.push(hex_digit(group / 0x10 % 16));
        text.push(hex_digit(group % 16));
    } else if group >= 0x10 {
        text.push(hex_digit(group / 0x10));
        text.push(hex_digit(group % 16));
    } else {
        text.push(hex_digit(group));
    }
}

fn hex_digit(value: u16) -> char
    requires { value < 16 }
    ensures value { result ≡ digit_glyph false value }
    ensures ascii { result < 128 }
{
    if value < 10 {
        char::from(b'0' + value as u8)
    } else {
        char::from(b'a' + (value - 10) as u8)
    }
}
