//! A 128-bit address as eight segments of 16 bits: their order, and the numbers and octets that
//! they make up.
ghost use Rattle.std.specs.Prelude.{◌≡◌, ℕ, ◌+◌, ◌*◌, ◌/◌, ◌%◌, ◌^◌, ◌<◌, reverse, [], ◌∷◌};
ghost use Rattle.std.specs.Hash.{le_bytes};
ghost use Rattle.ipnetwork_addr.specs.Digits.{digits_in, octets_of_v6, segments_of};
ghost use Rattle.ipnetwork_addr.specs.Segments.{number_of_segments};

/// Returns the segments in reverse order.
pub(crate) fn reversed(segments: &[u16; 8]) -> [u16; 8]
    ensures { result ≡ reverse segments.now }
{
    let [a, b, c, d, e, f, g, h] = *segments;
    [h, g, f, e, d, c, b, a]
}

/// Returns the high and the low half of an address, 64 bits each, from its segments, lowest first.
pub(crate) fn halves(low_first: &[u16; 8]) -> (u64, u64)
    ensures { number_of_segments (reverse low_first.now) ≡ result.0 * 2 ^ 64 + result.1 }
{
    let [h, g, f, e, d, c, b, a] = *low_first;
    (half(a, b, c, d), half(e, f, g, h))
}

/// Returns the number that four segments make up, highest first.
pub(crate) fn half(a: u16, b: u16, c: u16, d: u16) -> u64
    ensures { result ≡ number_of_segments (a ∷ b ∷ c ∷ d ∷ []) }
{
    let two = u64::from(a) * 0x1_0000 + u64::from(b);
    (two * 0x1_0000 + u64::from(c)) * 0x1_0000 + u64::from(d)
}

/// The factor of the high half in the number of an address.
const HALF: u128 = 0x1_0000_0000_0000_0000;

/// Returns the high half of a number and the low one.
#[inline(always)]
pub(crate) fn halves_of_number(number: u128) -> (u64, u64)
    ensures { number ≡ result.0 * 2 ^ 64 + result.1 }
{
    ((number / HALF) as u64, (number % HALF) as u64)
}

/// Returns the number with these halves.
pub(crate) fn number_of_halves(high: u64, low: u64) -> u128
    ensures { result ≡ high * 2 ^ 64 + low }
{
    u128::from(high) * HALF + u128::from(low)
}

/// Returns the segments of the address with these halves, lowest first.
pub(crate) fn low_first_of(high: u64, low: u64) -> [u16; 8]
    ensures { result ≡ reverse (segments_of (high * 2 ^ 64 + low)) }
{
    let [h, g, f, e] = half_low_first(low);
    let [d, c, b, a] = half_low_first(high);
    [h, g, f, e, d, c, b, a]
}

/// Returns the four segments of a half, lowest first.
fn half_low_first(half: u64) -> [u16; 4]
    ensures { result ≡ reverse (digits_in (2 ^ 16) 4 half) }
{
    [
        (half % 0x1_0000) as u16,
        (half / 0x1_0000 % 0x1_0000) as u16,
        (half / 0x1_0000_0000 % 0x1_0000) as u16,
        (half / 0x1_0000_0000_0000) as u16,
    ]
}

/// Returns the sixteen octets, lowest first, of the address with these segments, highest first.
pub(crate) fn octets_low_first(segments: &[u16; 8]) -> [u8; 16]
    ensures { result ≡ le_bytes 16 (number_of_segments segments.now) }
{
    let [a, b, c, d, e, f, g, h] = *segments;
    [
        low_octet(h),
        high_octet(h),
        low_octet(g),
        high_octet(g),
        low_octet(f),
        high_octet(f),
        low_octet(e),
        high_octet(e),
        low_octet(d),
        high_octet(d),
        low_octet(c),
        high_octet(c),
        low_octet(b),
        high_octet(b),
        low_octet(a),
        high_octet(a),
    ]
}

/// Returns the sixteen octets, highest first, of the address with these segments, highest first.
pub(crate) fn octets_high_first(segments: &[u16; 8]) -> [u8; 16]
    ensures { result ≡ octets_of_v6 (number_of_segments segments.now) }
{
    let [a, b, c, d, e, f, g, h] = *segments;
    [
        high_octet(a),
        low_octet(a),
        high_octet(b),
        low_octet(b),
        high_octet(c),
        low_octet(c),
        high_octet(d),
        low_octet(d),
        high_octet(e),
        low_octet(e),
        high_octet(f),
        low_octet(f),
        high_octet(g),
        low_octet(g),
        high_octet(h),
        low_octet(h),
    ]
}

/// Returns the octet of the low bits of a segment.
fn low_octet(segment: u16) -> u8
    ensures { result ≡ segment % 256 }
{
    (segment % 256) as u8
}

/// Returns the octet of the high bits of a segment.
fn high_octet(segment: u16) -> u8
    ensures { result ≡ segment / 256 }
{
    (segment / 256) as u8
}
