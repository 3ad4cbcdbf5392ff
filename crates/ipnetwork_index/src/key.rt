//! Plain numbers to search for.
ghost use Rattle.std.specs.Prelude.{◌↔◌, ℕ, ◌<◌, IsTrue};
ghost use Rattle.ipnetwork_index.specs.NumberParts.{IsPart};

/// A plain number that is searched for among others: `u32`, `u64` or `u128`. No call allocates.
///
/// ```
/// assert!(rt; 1u32.is_less(2));
/// ```
pub trait Key: Copy {
    // The number of bits.
    ghost BITS: { ℕ };

    // The number that the key represents.
    ghost value: { Self → ℕ };

    /// Whether this number is less than `other`.
    ///
    /// ```
    /// assert!(rt; !2u64.is_less(2));
    /// ```
    fn is_less(self, other: Self) -> bool
        ensures { IsTrue result ↔ (value self < value other) };

    /// The part in which this number lies, if the parts begin at `base` and have 2^`shift` numbers
    /// each: the first for the numbers before `base`, and the part `last` for those after it.
    /// `shift` must be less than the number of bits.
    ///
    /// ```
    /// assert_eq!(rt; 259u32.part_of(3, 6, 9), 4);
    /// assert_eq!(rt; 259u32.part_of(3, 6, 2), 2);
    /// ```
    fn part_of(self, base: Self, shift: u32, last: usize) -> usize
        requires { shift < BITS }
        ensures { IsPart (value self) (value base) shift last result };

    /// The size of parts, as a power of two, if about 2^`bits` of them extend from `base` to this
    /// number. The contract leaves the size open: another would cost time but change no result.
    ///
    /// ```
    /// assert_eq!(rt; 259u32.part_size(3, 4), 5);
    /// ```
    fn part_size(self, base: Self, bits: u32) -> u32
        ensures { result < BITS };
}

impl Key for u32 {
    ghost BITS = { 32 };

    ghost value = { λ n. n };

    #[inline]
    fn is_less(self, other: u32) -> bool {
        self < other
    }

    #[inline]
    fn part_of(self, base: u32, shift: u32, last: usize) -> usize {
        let part = (self.saturating_sub(base) >> shift) as usize;
        part.min(last)
    }

    fn part_size(self, base: u32, bits: u32) -> u32 {
        let width = 32 - self.saturating_sub(base).leading_zeros();
        width.saturating_sub(bits).min(31)
    }
}

impl Key for u64 {
    ghost BITS = { 64 };

    ghost value = { λ n. n };

    #[inline]
    fn is_less(self, other: u64) -> bool {
        self < other
    }

    #[inline]
    fn part_of(self, base: u64, shift: u32, last: usize) -> usize {
        let part = (self.saturating_sub(base) >> shift) as usize;
        part.min(last)
    }

    fn part_size(self, base: u64, bits: u32) -> u32 {
        let width = 64 - self.saturating_sub(base).leading_zeros();
        width.saturating_sub(bits).min(63)
    }
}

impl Key for u128 {
    ghost BITS = { 128 };

    ghost value = { λ n. n };

    #[inline]
    fn is_less(self, other: u128) -> bool {
        self < other
    }

    #[inline]
    fn part_of(self, base: u128, shift: u32, last: usize) -> usize {
        let part = self.saturating_sub(base) >> shift;
        part.min(last as u128) as usize
    }

    fn part_size(self, base: u128, bits: u32) -> u32 {
        let width = 128 - self.saturating_sub(base).leading_zeros();
        width.saturating_sub(bits).min(127)
    }
}
