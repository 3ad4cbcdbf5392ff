//! The addresses of the C structs as bare numbers, so that a search compares several without a
//! branch.
ghost use Rattle.std.specs.Prelude.{◌≡◌, ◌↔◌, ◌+◌, ◌-◌, ◌/◌, ◌^◌, ◌<◌, ◌≤◌, IsTrue, min};
ghost use Rattle.ipnetwork_family.specs.Network.{Member};

use crate::listed::Listed;
use ipnetwork_blocks::AddressSpace;

/// A C struct whose address is compared as a number.
pub(crate) trait Numbered<N: AddressSpace>: Listed<N> {
    ghost use Rattle.std.specs.Prelude.{ℕ};

    /// The number type of the family's addresses.
    type Number: Copy;

    /// The octets of an address, as C passes it.
    type Octets;

    // The value of a number.
    ghost value: { Self.Number → ℕ };

    // The number that octets represent.
    ghost meant: { Self.Octets → ℕ };

    // The octets that are read past the end of a list.
    ghost no_octets: { Self.Octets };

    /// Returns the number of the address, host bits kept, whatever the prefix length is.
    fn own_number(&self) -> Self::Number
        ensures number { value result ≡ (Self.held self.now).address }
        ensures width { value result < 2 ^ N.WIDTH };

    /// Returns the number of an address.
    fn number_of(addr: N::Addr) -> Self::Number
        ensures { value result ≡ N.number addr };

    /// Returns the number that octets represent.
    fn number_in(octets: &Self::Octets) -> Self::Number
        ensures { value result ≡ meant octets.now };

    /// Returns the address that octets represent.
    fn address_in(octets: &Self::Octets) -> N::Addr
        ensures { N.number result ≡ meant octets.now };

    /// Returns whether the first number is at most the second.
    fn is_up_to(first: Self::Number, second: Self::Number) -> bool
        ensures { IsTrue result ↔ (value first ≤ value second) };

    /// Returns whether the address of a number is in the network of a struct whose prefix length
    /// was checked.
    fn has(&self, number: Self::Number) -> bool
        requires { Self.holds self.now }
        ensures { IsTrue result ↔ Member N.WIDTH (Self.held self.now) (value number) };

    /// Returns the part in which a number lies, if from `base` on each part has 2^`shift` numbers:
    /// the first part if the number is less than `base`.
    fn part_of(number: Self::Number, base: Self::Number, shift: u32) -> usize
        requires { shift < N.WIDTH }
        ensures { result ≡ min ((value number - value base) / 2 ^ shift) (2 ^ 64 - 1) };

    /// Returns the binary logarithm of half the number of addresses.
    fn half() -> u32
        ensures { result + 1 ≡ N.WIDTH };
}
