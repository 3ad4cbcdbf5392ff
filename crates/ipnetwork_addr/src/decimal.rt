//! Writes numbers in decimal at the end of a text.
ghost use Rattle.std.specs.Prelude.{◌≡◌, ◌+◌, ◌^◌, ◌<◌, ◌≤◌, ◌++◌, length, decimal};
ghost use Rattle.arrayvec.specs.ArrayString.{array_string_len};
ghost use Rattle.ipnetwork_addr.specs.Private.Decimals.{padded_decimal};

use arrayvec::ArrayString;

/// Appends the shortest decimal form of a number to a text: one to three bytes. There must be room
/// for three.
///
/// ```
/// let mut text = arrayvec::ArrayString::<8>::new();
/// decimal::push_decimal(&mut text, 207);
/// assert_eq!(rt; text.as_str(), "207");
/// ```
#[tactic(auto, using(crate::proofs::Decimals::pushing))]
pub fn push_decimal<const N: usize>(text: &mut ArrayString<N>, number: u8)
    requires { array_string_len text.old + 3 ≤ N }
    ensures bytes { text.new.bytes ≡ text.old.bytes ++ decimal number }
    ensures room { array_string_len text.new ≤ array_string_len text.old + 3 }
{
    if number >= 100 {
        text.push(digit(number / 100));
        text.push(digit(number / 10 % 10));
        text.push(digit(number % 10));
    } else if number >= 10 {
        text.push(digit(number / 10));
        text.push(digit(number % 10));
    } else {
        text.push(digit(number));
    }
}

fn digit(value: u8) -> char
    requires { value < 10 }
    ensures { result ≡ 48 + value }
{
    char::from(b'0' + value)
}

/// Ten to the power of `CHUNK_DIGITS`: the greatest power of ten that fits in 64 bits.
const CHUNK: u128 = 10_000_000_000_000_000_000;

/// The number of digits of a large number that are written at a time.
const CHUNK_DIGITS: u8 = 19;

/// Appends the shortest decimal form of a number to a text: one to 39 bytes. There must be room for
/// 39.
///
/// ```
/// let mut text = arrayvec::ArrayString::<39>::new();
/// decimal::push_number(&mut text, 1 << 64);
/// assert_eq!(rt; text.as_str(), "18446744073709551616");
/// ```
#[inline(always)]
pub fn push_number<const N: usize>(text: &mut ArrayString<N>, number: u128)
    requires { array_string_len text.old + 39 ≤ N }
    ensures bytes { text.new.bytes ≡ text.old.bytes ++ decimal number }
    ensures room { array_string_len text.new ≤ array_string_len text.old + 39 }
{
    let high = number / CHUNK;
    let low = (number % CHUNK) as u64;
    if high == 0 {
        push_shortest(text, low);
    } else if high < CHUNK {
        push_shortest(text, high as u64);
        push_padded(text, low, CHUNK_DIGITS);
    } else {
        text.push(digit((high / CHUNK) as u8));
        push_padded(text, (high % CHUNK) as u64, CHUNK_DIGITS);
        push_padded(text, low, CHUNK_DIGITS);
    }
}

/// Appends the shortest decimal form of a number: one to 20 bytes.
fn push_shortest<const N: usize>(text: &mut ArrayString<N>, number: u64)
    requires { array_string_len text.old + 20 ≤ N }
    ensures bytes { text.new.bytes ≡ text.old.bytes ++ decimal number }
    ensures room { array_string_len text.new ≤ array_string_len text.old + 20 }
{
    push_padded(text, number, digit_count(number));
}

/// Returns the number of digits of a number's shortest decimal form.
fn digit_count(number: u64) -> u8
    ensures counted { result ≡ length (decimal number) }
    ensures few { result ≤ 20 }
{
    let mut count = 1;
    let mut rest = number;
    'digits: while rest >= 10 {
        count += 1;
        rest /= 10;
    }
    count
}

/// Appends the last `count` decimal digits of a number, with leading zeros.
#[tactic(auto, using(crate::proofs::Decimals::pushing))]
fn push_padded<const N: usize>(text: &mut ArrayString<N>, number: u64, count: u8)
    requires { array_string_len text.old + count ≤ N }
    ensures bytes { text.new.bytes ≡ text.old.bytes ++ padded_decimal count number }
    ensures room { array_string_len text.new ≡ array_string_len text.old + count }
{
    if count == 0 {
        return;
    }
    if count == 1 {
        text.push(digit((number % 10) as u8));
        return;
    }
    push_padded(text, number / 100, count - 2);
    let two = (number % 100) as u8;
    text.push(digit(two / 10));
    text.push(digit(two % 10));
}
