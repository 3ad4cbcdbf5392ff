//! Decimal and hexadecimal texts of numbers.
ghost use Rattle.std.specs.Prelude.{◌≡◌, ◌+◌, ◌<◌, ◌≤◌, ◌^◌, ◌++◌, decimal};
ghost use Rattle.arrayvec.specs.ArrayString.{array_string_len};
ghost use Rattle.cidr_info.specs.Numbers.{hex_text, hex_digits, hex_digit};

use crate::value::VALUE_MAX;
use arrayvec::ArrayString;
use ipnetwork_addr::decimal::push_number;

/// Returns two to the power of `bits`, in decimal.
pub(crate) fn power_text(bits: u8) -> ArrayString<VALUE_MAX>
    requires { bits ≤ 128 }
    ensures { result.bytes ≡ decimal (2 ^ bits) }
{
    if bits == 128 {
        let mut text = ArrayString::new();
        text.push_str("340282366920938463463374607431768211456");
        return text;
    }
    decimal_text(1 << bits)
}

/// Returns a number in decimal.
pub(crate) fn decimal_text(number: u128) -> ArrayString<VALUE_MAX>
    ensures { result.bytes ≡ decimal number }
{
    let mut text = ArrayString::new();
    push_number(&mut text, number);
    text
}

/// Returns `0x` and the last `count` hexadecimal digits of a number.
pub(crate) fn hex_text(number: u128, count: u8) -> ArrayString<VALUE_MAX>
    requires { count ≤ 32 }
    ensures { result.bytes ≡ hex_text count number }
{
    let mut text = ArrayString::new();
    text.push_str("0x");
    push_hex(&mut text, number, count);
    text
}

/// Appends the last `count` hexadecimal digits of a number.
pub(crate) fn push_hex(text: &mut ArrayString<VALUE_MAX>, number: u128, count: u8)
    requires { array_string_len text.old + count ≤ VALUE_MAX }
    ensures bytes { text.new.bytes ≡ text.old.bytes ++ hex_digits count number }
    ensures room { array_string_len text.new ≡ array_string_len text.old + count }
{
    if count > 0 {
        push_hex(text, number / 16, count - 1);
        text.push(hex_digit((number % 16) as u8));
    }
}

/// Returns the character of a hexadecimal digit.
pub(crate) fn hex_digit(digit: u8) -> char
    requires { digit < 16 }
    ensures value { result ≡ hex_digit digit }
    ensures ascii { result < 128 }
{
    if digit < 10 {
        char::from(b'0' + digit)
    } else {
        char::from(b'a' + (digit - 10))
    }
}
