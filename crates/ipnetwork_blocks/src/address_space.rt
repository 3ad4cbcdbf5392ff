//! Operations on addresses that blocks need beyond `CidrNetwork`.
ghost use Rattle.std.specs.Prelude.{◌≡◌, ◌+◌, ◌^◌, ◌<◌, ◌≤◌, MatchOption};
ghost use Rattle.ipnetwork_family.specs.Bits.{SharesBits, EndsInZeros};
ghost use Rattle.ipnetwork_family.specs.Network.{block_at};

use ipnetwork_family::{Address, CidrNetwork, Network};

/// The addresses of a family of networks, for code that steps from one address to the next or looks
/// at their bits. Every `Network<A>` implements it. No call allocates.
///
/// ```
/// let first = Ipv4Network::whole().network();
/// let next = Ipv4Network::next_address(first);
/// assert_eq!(rt; next, Some(Ipv4Addr::new(0, 0, 0, 1)));
/// ```
pub trait AddressSpace: CidrNetwork {
    /// Returns the network of all addresses: the address 0 with the prefix length 0.
    ///
    /// ```
    /// assert_eq!(rt; Ipv4Network::whole().canonical().as_str(), "0.0.0.0/0");
    /// ```
    fn whole() -> Self
        ensures { Self.pair result ≡ record { address = 0; prefix = 0 } };

    /// Returns the network without host bits that has this prefix length and contains the address.
    /// The prefix length must be at most `WIDTH`.
    ///
    /// ```
    /// let block = Ipv4Network::block_at(Ipv4Addr::new(192, 0, 2, 130), 25);
    /// assert_eq!(rt; block.canonical().as_str(), "192.0.2.128/25");
    /// ```
    fn block_at(addr: Self::Addr, prefix: u8) -> Self
        requires { prefix ≤ Self.WIDTH }
        ensures made { Self.pair result ≡ block_at Self.WIDTH (Self.number addr) prefix }
        ensures address { Self.number addr < 2 ^ Self.WIDTH };

    /// Returns the next address, or `None` if this is the last address of the family.
    ///
    /// ```
    /// let next = Ipv4Network::next_address(Ipv4Addr::new(10, 0, 0, 255));
    /// assert_eq!(rt; next, Some(Ipv4Addr::new(10, 0, 1, 0)));
    /// ```
    fn next_address(addr: Self::Addr) -> Option<Self::Addr>
        ensures { MatchOption result (Self.number addr + 1 ≡ 2 ^ Self.WIDTH)
            (λ next. (Self.number addr + 1 < 2 ^ Self.WIDTH)
            × (Self.number next ≡ Self.number addr + 1)) };

    /// Returns the previous address, or `None` if this is the first address of the family.
    ///
    /// ```
    /// let previous = Ipv4Network::previous_address(Ipv4Addr::new(10, 0, 1, 0));
    /// assert_eq!(rt; previous, Some(Ipv4Addr::new(10, 0, 0, 255)));
    /// ```
    fn previous_address(addr: Self::Addr) -> Option<Self::Addr>
        ensures { MatchOption result (Self.number addr ≡ 0)
            (λ previous. Self.number previous + 1 ≡ Self.number addr) };

    /// Returns the address `offset` addresses after this one. It must not be past the last address
    /// of the family.
    ///
    /// ```
    /// let addr = Ipv4Network::plus(Ipv4Addr::new(10, 0, 0, 255), 257);
    /// assert_eq!(rt; addr, Ipv4Addr::new(10, 0, 2, 0));
    /// ```
    fn plus(addr: Self::Addr, offset: u128) -> Self::Addr
        requires { Self.number addr + offset < 2 ^ Self.WIDTH }
        ensures { Self.number result ≡ Self.number addr + offset };

    /// Returns the number of leading bits that two addresses share: the greatest prefix length at
    /// which one block contains both.
    ///
    /// ```
    /// let addr = Ipv4Addr::new(10, 0, 0, 255);
    /// assert_eq!(rt; Ipv4Network::shared_bits(addr, Ipv4Addr::new(10, 0, 1, 0)), 23);
    /// ```
    fn shared_bits(addr: Self::Addr, other: Self::Addr) -> u8
        ensures { SharesBits Self.WIDTH (Self.number addr) (Self.number other) result };

    /// Returns the number of trailing zero bits of the address: `WIDTH` for the address 0.
    ///
    /// ```
    /// assert_eq!(rt; Ipv4Network::trailing_zeros(Ipv4Addr::new(10, 0, 1, 0)), 8);
    /// ```
    fn trailing_zeros(addr: Self::Addr) -> u8
        ensures { EndsInZeros Self.WIDTH (Self.number addr) result };

    // Addresses have at most 128 bits.
    ghost few_bits: { Self.WIDTH ≤ 128 };
}

impl<A: Address> AddressSpace for Network<A> {
    fn whole() -> Network<A> {
        Self::block_at(A::mask(0), 0)
    }

    fn block_at(addr: A, prefix: u8) -> Network<A> {
        let Some(block) = Network::block(addr, prefix) else {
            unreachable!()
        };
        block
    }

    fn next_address(addr: A) -> Option<A> {
        addr.law_of_width();
        if addr != A::mask(A::WIDTH) {
            return Some(addr.next());
        }
        None
    }

    fn previous_address(addr: A) -> Option<A> {
        if addr != A::mask(0) {
            return Some(addr.previous());
        }
        None
    }

    fn plus(addr: A, offset: u128) -> A {
        addr.plus(offset)
    }

    fn shared_bits(addr: A, other: A) -> u8 {
        addr.shared_bits(other)
    }

    fn trailing_zeros(addr: A) -> u8 {
        addr.trailing_zeros()
    }

    ghost few_bits = { A.few_bits };
}
