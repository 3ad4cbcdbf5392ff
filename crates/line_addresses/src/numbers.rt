//! Numbers as texts.
ghost use Rattle.std.specs.Prelude.{◌≡◌, ◌-◌, ◌^◌, min};
ghost use Rattle.std.specs.List.{list_all};
ghost use Rattle.std.specs.Char.{is_ascii_digit};
ghost use Rattle.line_addresses.specs.Numbers.{is_number, is_ordinal, number_of, ordinal_in};

/// Whether the text consists of digits, one or more.
///
/// ```
/// assert!(rt; !is_number(b"+1"));
/// ```
pub fn is_number(text: &[u8]) -> bool
    ensures { result ≡ is_number text.now }
{
    !text.is_empty() && are_digits(text)
}

// Whether every byte is a digit.
fn are_digits(text: &[u8]) -> bool
    ensures { result ≡ list_all is_ascii_digit text.now }
{
    text.iter().all(|byte| byte.is_ascii_digit())
}

/// Returns the number that decimal digits name, or `u64::MAX` if it is greater.
///
/// ```
/// assert_eq!(rt; number_of(b"012"), 12);
/// ```
pub fn number_of(digits: &[u8]) -> u64
    ensures { result ≡ min (number_of digits.now) (2 ^ 64 - 1) }
{
    let mut number = 0u64;
    for digit in digits {
        number = number
            .saturating_mul(10)
            .saturating_add(u64::from(digit.saturating_sub(b'0')));
    }
    number
}

/// Returns the number that a text is, or `None` if it is not a number from 1 to 4,294,967,295.
///
/// ```
/// assert_eq!(rt; ordinal_in(b"07"), Some(7));
/// assert_eq!(rt; ordinal_in(b"0"), None);
/// ```
pub fn ordinal_in(text: &[u8]) -> Option<u32>
    ensures { result ≡ ordinal_in text.now }
{
    if !is_ordinal(text) {
        return None;
    }
    match u32::try_from(number_of(text)) {
        Ok(number) => Some(number),
        Err(_) => None,
    }
}

// Whether the text is a number from 1 to 4,294,967,295.
fn is_ordinal(text: &[u8]) -> bool
    ensures { result ≡ is_ordinal text.now }
{
    if !is_number(text) {
        return false;
    }
    let number = number_of(text);
    number > 0 && number <= 4_294_967_295
}
