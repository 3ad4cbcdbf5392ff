//! What the networks of both families have in common.
ghost use Rattle.std.specs.Prelude.{◌≡◌, ◌↔◌, ℕ, ◌^◌, ◌<◌, ◌≤◌, IsTrue, MatchOption};
ghost use Rattle.std.specs.Ordering.{nat_cmp};
ghost use Rattle.ipnetwork_family.specs.Network.{Network as Pair, IsNetwork, Member, Subnet, Overlap, block_of, low, high, network_cmp};

use crate::{Address, Network};

/// A network of addresses of `WIDTH` bits, for code that is generic over both families.
///
/// An address represents a number of `WIDTH` bits and is ordered by it. A network is an address,
/// host bits included, and a prefix length, and is ordered by address, then by prefix length. No
/// call allocates.
///
/// ```
/// fn hosts_hidden<N: CidrNetwork>(network: N) -> bool {
///     network.ip() == network.network()
/// }
/// assert!(rt; hosts_hidden("10.0.0.0/8".parse::<Ipv4Network>()?));
/// ```
pub trait CidrNetwork: Copy + Ord {
    /// The addresses of the family.
    type Addr: Copy + Ord;

    /// The number of bits of an address, and the greatest prefix length.
    const WIDTH: u8;

    // The number of bits, as contracts see it.
    ghost WIDTH: { ℕ };

    // The number that an address represents.
    ghost number: { Self.Addr → ℕ };

    // The address and the prefix length of a network.
    ghost pair: { Self → Pair };

    /// The address as given, host bits included.
    ///
    /// ```
    /// let network: Ipv6Network = "2001:db8::7/126".parse()?;
    /// assert_eq!(rt; CidrNetwork::ip(&network).canonical().as_str(), "2001:db8::7");
    /// ```
    fn ip(&self) -> Self::Addr
        ensures made { number result ≡ (pair self.now).address }
        ensures network { IsNetwork WIDTH (pair self.now) };

    /// The prefix length, in bits.
    ///
    /// ```
    /// let network: Ipv6Network = "2001:db8::7/126".parse()?;
    /// assert_eq!(rt; CidrNetwork::prefix(&network), 126);
    /// ```
    fn prefix(&self) -> u8
        ensures made { result ≡ (pair self.now).prefix }
        ensures network { IsNetwork WIDTH (pair self.now) };

    /// The least member: the address with its host bits cleared.
    ///
    /// ```
    /// let network: Ipv6Network = "2001:db8::7/126".parse()?;
    /// assert_eq!(rt; CidrNetwork::network(&network).canonical().as_str(), "2001:db8::4");
    /// ```
    fn network(&self) -> Self::Addr
        ensures { number result ≡ low WIDTH (pair self.now) };

    /// The greatest member: the address with its host bits set.
    ///
    /// ```
    /// let network: Ipv6Network = "2001:db8::7/126".parse()?;
    /// assert_eq!(rt; CidrNetwork::broadcast(&network).canonical().as_str(), "2001:db8::7");
    /// ```
    fn broadcast(&self) -> Self::Addr
        ensures { number result ≡ high WIDTH (pair self.now) };

    /// Whether an address is in the network's set.
    ///
    /// ```
    /// let network: Ipv6Network = "2001:db8::7/126".parse()?;
    /// assert!(rt; CidrNetwork::contains(&network, "2001:db8::5".parse()?));
    /// ```
    fn contains(&self, ip: Self::Addr) -> bool
        ensures { IsTrue result ↔ Member WIDTH (pair self.now) (number ip) };

    /// Whether each member of this network is a member of `other`. Host bits are ignored.
    ///
    /// ```
    /// let network: Ipv6Network = "2001:db8::7/126".parse()?;
    /// assert!(rt; CidrNetwork::is_subnet_of(network, "2001:db8::/32".parse()?));
    /// ```
    fn is_subnet_of(self, other: Self) -> bool
        ensures { IsTrue result ↔ Subnet WIDTH (pair self) (pair other) };

    /// Whether some address is a member of both networks.
    ///
    /// ```
    /// let network: Ipv6Network = "2001:db8::7/126".parse()?;
    /// assert!(rt; !CidrNetwork::overlaps(network, "2001:db8::/126".parse()?));
    /// ```
    fn overlaps(self, other: Self) -> bool
        ensures { IsTrue result ↔ Overlap WIDTH (pair self) (pair other) };

    /// The network without host bits that has this prefix length and holds the address; `None` if
    /// the prefix length is greater than `WIDTH`.
    ///
    /// ```
    /// let block = <Ipv6Network as CidrNetwork>::block("2001:db8::7".parse()?, 126);
    /// assert_eq!(rt; block, "2001:db8::4/126".parse().ok());
    /// ```
    fn block(addr: Self::Addr, prefix: u8) -> Option<Self>
        ensures address { number addr < 2 ^ WIDTH }
        ensures cases { MatchOption result (WIDTH < prefix)
            (λ n. (prefix ≤ WIDTH)
            × (pair n ≡ block_of WIDTH (record { address = number addr; prefix = prefix }))) };

    // Addresses are ordered by their numbers.
    ghost address_order: { (x y : Self.Addr) → Self.Addr.cmp x y ≡ nat_cmp (number x) (number y) };

    // Networks are ordered by their address, then by their prefix length.
    ghost network_order: { (a b : Self) → Self.cmp a b ≡ network_cmp (pair a) (pair b) };
}

impl<A: Address> CidrNetwork for Network<A> {
    ghost use Rattle.std.proofs.Common.{ap, ap₂, ◌∙◌};
    ghost use Rattle.std.specs.Ordering.{nat_cmp, ordering_then};

    type Addr = A;

    const WIDTH: u8 = A::WIDTH;

    ghost WIDTH = { A.WIDTH };

    ghost number = { A.number };

    ghost pair = { λ network. network };

    fn ip(&self) -> A {
        Network::ip(self)
    }

    fn prefix(&self) -> u8 {
        Network::prefix(self)
    }

    fn network(&self) -> A {
        Network::network(self)
    }

    fn broadcast(&self) -> A {
        Network::broadcast(self)
    }

    fn contains(&self, ip: A) -> bool {
        Network::contains(self, ip)
    }

    fn is_subnet_of(self, other: Network<A>) -> bool {
        Network::is_subnet_of(self, other)
    }

    fn overlaps(self, other: Network<A>) -> bool {
        Network::overlaps(self, other)
    }

    fn block(addr: A, prefix: u8) -> Option<Network<A>> {
        Network::block(addr, prefix)
    }

    ghost address_order = { A.address_order };

    ghost network_order = { λ a b. ap (λ o. ordering_then o (nat_cmp a.prefix b.prefix))
        (A.address_order (A.of_number a.address) (A.of_number b.address) ∙ ap₂ nat_cmp
        (A.forth a.address) (A.forth b.address)) };
}
