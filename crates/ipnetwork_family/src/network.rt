//! Networks of the addresses of one family.
ghost use Rattle.std.specs.Prelude.{◌≡◌, ◌↔◌, ℕ, ◌+◌, ◌^◌, ◌<◌, ◌≤◌, IsTrue, Some, MatchOption, MatchResult, IfOk, Ok, string_bytes, length, IfSome, option_copied};
ghost use Rattle.std.specs.Option.{SomeIff};
ghost use Rattle.ipnetwork_family.specs.Family.{NamesNetworkOf, ReadsNetworkOf, ParsesNetworkOf, text_of, text_length_of};
ghost use Rattle.ipnetwork_family.specs.Masks.{GivesPrefixOfMask};
ghost use Rattle.ipnetwork_family.specs.Network.{Network as Pair, IsNetwork, Member, IsNoMask, mask_of, low, high, members, Subnet, Overlap, block_of};
ghost use Rattle.ipnetwork_family.specs.Private.Suffixes.{GivesPrefix, GivesNoPrefix};

use crate::parse::{slash_near_end, split};
use crate::{Address, CidrFault, IpNetworkError, NETWORK_TEXT_CAPACITY, NetworkIterator};
use arrayvec::ArrayString;
use ipnetwork_addr::decimal::push_decimal;
use std::alloc::{AllocError, Global};
use std::fmt;
use std::marker::Model;
use std::str::FromStr;

/// An address, host bits included, and a prefix length from 0 to `A::WIDTH`: 32 for IPv4, 128 for
/// IPv6. It represents the set of all addresses whose leading bits, as many as the prefix length,
/// are those of the address. Networks are ordered by address, then by prefix length.
///
/// ```
/// let network: Network<Ipv4Addr> = "192.0.2.77/26".parse()?;
/// assert_eq!(rt; network.network(), Ipv4Addr::new(192, 0, 2, 64));
/// ```
#[derive(Copy, Debug, PartialEq, Eq, PartialOrd, Ord, Hash)]
pub struct Network<A: Address> {
    address: A,
    prefix: u8,
}

// A contract sees a network as the pair of its address and its prefix length.
impl<A: Address> Model for Network<A> {
    ghost use Rattle.std.proofs.Common.{ap};
    ghost use Rattle.ipnetwork_family.specs.Network.{Network as Pair, IsNetwork};

    ghost Value = { Pair };

    ghost view = { λ n. record { address = A.number n.address; prefix = n.prefix } };

    ghost invariant = { λ n. IsNetwork A.WIDTH
        (record { address = A.number n.address; prefix = n.prefix }) };

    ghost inverse = { λ n. record { address = A.of_number n.address; prefix = n.prefix } };

    ghost inverse_ok = { λ n h.
        ap (λ a. record { address = a; prefix = n.prefix }) (A.back n.address) };
}

impl<A: Address> Clone for Network<A> {
    ghost is_clone = { λ network copy. copy ≡ network };

    ghost is_infallible = { λ _. Unit {0} };

    fn clone(&self) -> Result<Self, AllocError> {
        Ok(*self)
    }
}

// From the clause `network`, a proof in another crate knows that each network is valid: it cannot
// see the private fields. The calls that such proofs begin with have the clause.
impl<A: Address> Network<A> {
    /// The network with this address, host bits kept, and this prefix length; `None` if the prefix
    /// length is greater than `A::WIDTH`.
    ///
    /// ```
    /// let address = Ipv4Addr::new(10, 1, 9, 32);
    /// assert_eq!(rt; Ipv4Network::new_checked(address, 8), "10.1.9.32/8".parse().ok());
    /// assert_eq!(rt; Ipv4Network::new_checked(address, 33), None);
    /// ```
    pub fn new_checked(addr: A, prefix: u8) -> Option<Self>
        ensures { SomeIff result (prefix ≤ A.WIDTH)
            (record { address = A.number addr; prefix = prefix }) }
    {
        if prefix > A::WIDTH {
            return None;
        }
        addr.law_of_width();
        Some(Network {
            address: addr,
            prefix,
        })
    }

    /// The network without host bits that has this prefix length and holds the address; `None` if
    /// the prefix length is greater than `A::WIDTH`.
    ///
    /// ```
    /// let block = Ipv4Network::block(Ipv4Addr::new(10, 1, 9, 32), 8);
    /// assert_eq!(rt; block, "10.0.0.0/8".parse().ok());
    /// ```
    pub fn block(addr: A, prefix: u8) -> Option<Self>
        ensures address { A.number addr < 2 ^ A.WIDTH }
        ensures cases { MatchOption result (A.WIDTH < prefix)
            (λ n. (prefix ≤ A.WIDTH)
            × (n ≡ block_of A.WIDTH (record { address = A.number addr; prefix = prefix }))) }
    {
        addr.law_of_width();
        let network = Network::new_checked(addr, prefix)?;
        Network::new_checked(network.network(), prefix)
    }

    /// The network with this address, host bits kept, and this prefix length; `InvalidPrefix` if
    /// the prefix length is greater than `A::WIDTH`.
    ///
    /// ```
    /// let network = Ipv4Network::new(Ipv4Addr::new(10, 1, 9, 32), 8)?;
    /// assert_eq!(rt; network.canonical().as_str(), "10.1.9.32/8");
    /// ```
    pub fn new(addr: A, prefix: u8) -> Result<Self, IpNetworkError>
        ensures { MatchResult result
            (λ n. (n ≡ record { address = A.number addr; prefix = prefix }) × (prefix ≤ A.WIDTH))
            (λ fault. (fault ≡ IpNetworkError.InvalidPrefix) × (A.WIDTH < prefix)) }
    {
        match Network::new_checked(addr, prefix) {
            Some(network) => Ok(network),
            None => Err(IpNetworkError::InvalidPrefix),
        }
    }

    /// The network with this address, host bits kept, and the prefix length of this mask;
    /// `InvalidPrefix` if it is not one of the `A::WIDTH` + 1 masks.
    ///
    /// ```
    /// let mask = Ipv4Addr::new(255, 255, 240, 0);
    /// let network = Ipv4Network::with_netmask(Ipv4Addr::new(10, 1, 9, 32), mask)?;
    /// assert_eq!(rt; network.prefix(), 20);
    /// ```
    pub fn with_netmask(netaddr: A, netmask: A) -> Result<Self, IpNetworkError>
        ensures { MatchResult result
            (λ n. (n.address ≡ A.number netaddr) × (n.prefix ≤ A.WIDTH)
            × (A.number netmask ≡ mask_of A.WIDTH n.prefix))
            (λ fault. (fault ≡ IpNetworkError.InvalidPrefix)
            × IsNoMask A.WIDTH (A.number netmask)) }
    {
        match netmask.prefix_of_mask() {
            Some(prefix) => Network::new(netaddr, prefix),
            None => Err(IpNetworkError::InvalidPrefix),
        }
    }

    /// The address as given, host bits included.
    ///
    /// ```
    /// let network: Ipv4Network = "192.0.2.77/26".parse()?;
    /// assert_eq!(rt; network.ip(), Ipv4Addr::new(192, 0, 2, 77));
    /// ```
    pub fn ip(&self) -> A
        ensures made { A.number result ≡ self.now.address }
        ensures network { IsNetwork A.WIDTH self.now }
    {
        self.address
    }

    /// The prefix length, in bits.
    ///
    /// ```
    /// let network: Ipv4Network = "192.0.2.77/26".parse()?;
    /// assert_eq!(rt; network.prefix(), 26);
    /// ```
    pub fn prefix(&self) -> u8
        ensures made { result ≡ self.now.prefix }
        ensures network { IsNetwork A.WIDTH self.now }
    {
        self.prefix
    }

    /// The mask: as many leading ones as the prefix length, followed by zeros.
    ///
    /// ```
    /// let network: Ipv4Network = "192.0.2.77/26".parse()?;
    /// assert_eq!(rt; network.mask(), Ipv4Addr::new(255, 255, 255, 192));
    /// ```
    pub fn mask(&self) -> A
        ensures { A.number result ≡ mask_of A.WIDTH self.now.prefix }
    {
        A::mask(self.prefix)
    }

    /// The least member: the address with its host bits cleared.
    ///
    /// ```
    /// let network: Ipv4Network = "192.0.2.77/26".parse()?;
    /// assert_eq!(rt; network.network(), Ipv4Addr::new(192, 0, 2, 64));
    /// ```
    pub fn network(&self) -> A
        ensures least { A.number result ≡ low A.WIDTH self.now }
        ensures network { IsNetwork A.WIDTH self.now }
    {
        self.ip().least(self.prefix())
    }

    /// The greatest member: the address with its host bits set.
    ///
    /// ```
    /// let network: Ipv4Network = "192.0.2.77/26".parse()?;
    /// assert_eq!(rt; network.broadcast(), Ipv4Addr::new(192, 0, 2, 127));
    /// ```
    pub fn broadcast(&self) -> A
        ensures { A.number result ≡ high A.WIDTH self.now }
    {
        self.ip().greatest(self.prefix())
    }

    /// Whether an address is in the network's set.
    ///
    /// ```
    /// let network: Ipv4Network = "192.0.2.77/26".parse()?;
    /// assert!(rt; network.contains(Ipv4Addr::new(192, 0, 2, 127)));
    /// assert!(rt; !network.contains(Ipv4Addr::new(192, 0, 2, 128)));
    /// ```
    pub fn contains(&self, ip: A) -> bool
        ensures { IsTrue result ↔ Member A.WIDTH self.now (A.number ip) }
    {
        ip.law_of_width();
        ip.agrees(self.address, self.prefix)
    }

    /// Whether each member of this network is a member of `other`. Host bits are ignored.
    ///
    /// ```
    /// let network: Ipv4Network = "192.0.2.77/26".parse()?;
    /// assert!(rt; network.is_subnet_of("192.0.2.0/24".parse()?));
    /// ```
    pub fn is_subnet_of(self, other: Network<A>) -> bool
        ensures { IsTrue result ↔ Subnet A.WIDTH self other }
    {
        other.prefix() <= self.prefix() && other.contains(self.ip())
    }

    /// Whether each member of `other` is a member of this network. Host bits are ignored.
    ///
    /// ```
    /// let network: Ipv4Network = "192.0.2.77/26".parse()?;
    /// assert!(rt; network.is_supernet_of("192.0.2.127/32".parse()?));
    /// ```
    pub fn is_supernet_of(self, other: Network<A>) -> bool
        ensures { IsTrue result ↔ Subnet A.WIDTH other self }
    {
        other.is_subnet_of(self)
    }

    /// Whether some address is a member of both networks.
    ///
    /// ```
    /// let network: Ipv4Network = "192.0.2.77/26".parse()?;
    /// assert!(rt; network.overlaps("192.0.0.0/16".parse()?));
    /// assert!(rt; !network.overlaps("192.0.2.0/26".parse()?));
    /// ```
    pub fn overlaps(self, other: Network<A>) -> bool
        ensures { IsTrue result ↔ Overlap A.WIDTH self other }
    {
        self.contains(other.ip()) || other.contains(self.ip())
    }

    /// The members, each once, in ascending order.
    ///
    /// ```
    /// let network: Ipv4Network = "192.0.2.77/31".parse()?;
    /// let mut members = network.iter();
    /// assert_eq!(rt; members.next(), Some(Ipv4Addr::new(192, 0, 2, 76)));
    /// ```
    pub fn iter(&self) -> NetworkIterator<A>
        ensures { result ≡ members A.WIDTH self.now }
    {
        NetworkIterator::between(self.network(), self.broadcast())
    }

    /// The network that a text names: an address of the family, host bits kept, optionally followed
    /// by `/` and a suffix. The suffix is a prefix length of at most `A::WIDTH` or, for IPv4 only,
    /// one of the 33 masks as an IPv4 address; without a `/` the prefix length is `A::WIDTH`. Any
    /// other text is refused with its cause.
    ///
    /// ```
    /// let network = Ipv4Network::read_bytes(b"10.1.9.32/255.0.0.0")?;
    /// assert_eq!(rt; network.prefix(), 8);
    /// assert_eq!(rt; Ipv4Network::read_bytes(b"10.1.9.32/33"), Err(CidrFault::Prefix));
    /// ```
    #[inline(always)]
    pub fn read_bytes(text: &[u8]) -> Result<Self, CidrFault>
        ensures { ReadsNetworkOf A.family text.now result }
    {
        match read_suffixed::<A>(text) {
            Some(network) => Ok(network),
            None => read_parts(text),
        }
    }

    /// The network that a text names, as `read_bytes` reads it. If it names none, the error is the
    /// one that `IpNetworkError::from_fault` returns for the cause, the family's address error
    /// (`AddrParseError::Ipv4` or `Ipv6`) and the text. Allocates at most once, for an error that
    /// carries a text, and returns `OutOfMemory` only in place of such an error.
    ///
    /// ```
    /// let network = Ipv6Network::parse(rt.alloc(), "2001:db8::1/64")?;
    /// assert_eq!(rt; network.prefix(), 64);
    /// ```
    pub fn parse(alloc: Global, text: &str) -> Result<Self, IpNetworkError>
        ensures { ParsesNetworkOf A.family text.now result }
    {
        match Network::<A>::read_bytes(text.as_bytes()) {
            Ok(network) => Ok(network),
            Err(fault) => Err(IpNetworkError::from_fault(alloc, fault, A::refusal(), text)),
        }
    }

    /// The canonical text, at most 18 bytes for IPv4 and 43 for IPv6: the canonical address, `/`
    /// and the shortest decimal of the prefix length.
    ///
    /// ```
    /// let network: Ipv6Network = "2001:DB8:0:0:1:0:0:1/+064".parse()?;
    /// assert_eq!(rt; network.canonical().as_str(), "2001:db8::1:0:0:1/64");
    /// ```
    pub fn canonical(&self) -> ArrayString<NETWORK_TEXT_CAPACITY>
        ensures bytes { result.bytes ≡ text_of A.family self.now }
        ensures short { length result.bytes ≤ text_length_of A.family }
        ensures network { IsNetwork A.WIDTH self.now }
    {
        let mut text = ArrayString::new();
        text.push_str(self.ip().canonical().as_str());
        text.push('/');
        push_decimal(&mut text, self.prefix());
        text
    }

    /// The canonical text as a `String`. Allocates once; `AllocError` when out of memory.
    ///
    /// ```
    /// let network: Ipv4Network = "192.0.2.77/26".parse()?;
    /// assert_eq!(rt; network.to_text(rt.alloc())?.as_str(), "192.0.2.77/26");
    /// ```
    pub fn to_text(&self, alloc: Global) -> Result<String, AllocError>
        ensures { IfOk result (λ text. string_bytes text ≡ text_of A.family self.now) }
    {
        String::from_str(alloc, self.canonical().as_str())
    }
}

/// The network that a text names, read from the parts before and after its `/`, or the cause.
#[inline(never)]
fn read_parts<A: Address>(text: &[u8]) -> Result<Network<A>, CidrFault>
    ensures { ReadsNetworkOf A.family text.now result }
{
    // Does nothing. The proof needs the law: no address text and no suffix contains a `/`.
    A::law_texts();
    let (address, suffix) = split(text)?;
    let Ok(address) = A::read_bytes(address) else {
        return Err(CidrFault::Addr);
    };
    let Some(prefix) = prefix_length::<A>(suffix) else {
        return Err(CidrFault::Prefix);
    };
    address.law_of_width();
    Ok(Network { address, prefix })
}

/// The network that a text names, if its suffix has one to three bytes. `None` says nothing about
/// the text.
#[inline(always)]
fn read_suffixed<A: Address>(text: &[u8]) -> Option<Network<A>>
    ensures { IfSome result (NamesNetworkOf A.family text.now) }
{
    let at = slash_near_end(text)?;
    let Ok(address) = A::read_bytes(&text[..at]) else {
        return None;
    };
    let prefix = A::read_suffix(&text[at + 1..])?;
    address.law_of_width();
    Some(Network { address, prefix })
}

/// The prefix length that a suffix gives, if any, or `A::WIDTH` if there is no suffix.
fn prefix_length<A: Address>(suffix: Option<&[u8]>) -> Option<u8>
    ensures { MatchOption result
        (GivesNoPrefix A.WIDTH A.family.IsSuffix (option_copied suffix.entry))
        (λ p. (p ≤ A.WIDTH)
        × GivesPrefix A.WIDTH A.family.IsSuffix (option_copied suffix.entry) p) }
{
    match suffix {
        None => Some(A::WIDTH),
        Some(suffix) => A::read_suffix(suffix),
    }
}

/// The prefix length of a mask, or `InvalidPrefix` if the address is not a mask.
pub(crate) fn mask_to_prefix<A: Address>(mask: A) -> Result<u8, IpNetworkError>
    ensures { GivesPrefixOfMask A.WIDTH (A.number mask) result }
{
    match mask.prefix_of_mask() {
        Some(prefix) => Ok(prefix),
        None => Err(IpNetworkError::InvalidPrefix),
    }
}

impl<A: Address> From<A> for Network<A> {
    ghost from_gives = { λ address network.
        network ≡ record { address = A.number address; prefix = A.WIDTH } };

    /// The network of prefix length `A::WIDTH` whose only member is this address.
    fn from(addr: A) -> Self {
        addr.law_of_width();
        Network {
            address: addr,
            prefix: A::WIDTH,
        }
    }
}

impl<A: Address> IntoIterator for &Network<A> {
    type Item = A;

    type IntoIter = NetworkIterator<A>;

    ghost into_iter_gives = { λ network left. left ≡ members A.WIDTH network.now };

    /// The same as `iter`.
    fn into_iter(self) -> NetworkIterator<A> {
        self.iter()
    }
}

impl<A: Address> FromStr for Network<A> {
    type Err = CidrFault;

    ghost from_str_gives = { ReadsNetworkOf A.family };

    /// The same as `read_bytes`.
    fn from_str(text: &str) -> Result<Self, CidrFault> {
        Network::<A>::read_bytes(text.as_bytes())
    }
}

impl<A: Address> TryFrom<&str> for Network<A> {
    type Error = CidrFault;

    ghost try_from_gives = { λ text result. ReadsNetworkOf A.family text.now result };

    /// The same as `read_bytes`.
    fn try_from(text: &str) -> Result<Self, CidrFault> {
        Network::<A>::from_str(text)
    }
}

impl<A: Address> fmt::Display for Network<A> {
    ghost output = { λ network. Some (text_of A.family network) };

    ghost styled_output = { λ network _. Some (text_of A.family network) };

    fn fmt<W: fmt::Write>(&self, f: &mut fmt::Formatter<W>) -> fmt::Result {
        f.write_str(self.canonical().as_str())
    }
}
