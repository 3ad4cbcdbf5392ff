//! Networks of either family.
ghost use Rattle.std.specs.Prelude.{◌≡◌, ◌↔◌, Some, IsTrue, IfOk, string_bytes};

use crate::error::WrongFamily;
use crate::ip_iter::IpNetworkIterator;
use crate::ip_mask::ip_mask_to_prefix;
use crate::laws;
use crate::size::NetworkSize;
use arrayvec::ArrayString;
use ipnetwork_addr::first_mark::has_colon_first;
use ipnetwork_addr::{AddrParseError, IpAddr};
use ipnetwork_family::{
    CidrFault, IpNetworkError, Ipv4Network, Ipv6Network, NETWORK_TEXT_CAPACITY,
};
use std::alloc::{AllocError, Global};
use std::fmt;
use std::str::FromStr;

/// A network of either family. Its set contains only addresses of its family. Every IPv4 network is
/// ordered before every IPv6 network.
///
/// ```
/// let network: IpNetwork = "10.1.9.32/8".parse()?;
/// assert_eq!(rt; network, IpNetwork::V4("10.1.9.32/8".parse()?));
/// ```
#[derive(Clone, Copy, Debug, PartialEq, Eq, PartialOrd, Ord, Hash)]
pub enum IpNetwork {
    /// An IPv4 network.
    V4(Ipv4Network),
    /// An IPv6 network.
    V6(Ipv6Network),
}

// From the clause `network`, proofs in other crates know what holds for every network: they cannot
// see its fields, which are private.
impl IpNetwork {
    ghost use Rattle.ipnetwork.specs.IpNetworks.{IsIpNetwork, address_of, prefix_of, ip_mask_of, ip_low, ip_high, ip_size, ip_members, IpMember, IpSubnet, IpOverlap, Makes, MakesWithMask, IsV4, IsV6};
    ghost use Rattle.ipnetwork.specs.IpNetworkText.{ReadsIpNetwork, ParsesIpNetwork, ip_network_text};

    /// Creates a network from an address, whose host bits are kept, and a prefix length. Returns
    /// `InvalidPrefix` if that exceeds the number of bits of the address, 32 or 128.
    ///
    /// ```
    /// let network = IpNetwork::new("2001:db8::1".parse()?, 64)?;
    /// assert_eq!(rt; network.canonical().as_str(), "2001:db8::1/64");
    /// ```
    pub fn new(ip: IpAddr, prefix: u8) -> Result<Self, IpNetworkError>
        ensures { Makes ip prefix result }
    {
        match ip {
            IpAddr::V4(address) => Ok(IpNetwork::V4(Ipv4Network::new(address, prefix)?)),
            IpAddr::V6(address) => Ok(IpNetwork::V6(Ipv6Network::new(address, prefix)?)),
        }
    }

    /// Creates a network from an address, whose host bits are kept, and the prefix length of a
    /// mask. Returns `InvalidPrefix` if `netmask` is not a mask of its family, or its prefix length
    /// exceeds the number of bits of the address. The two may differ in family: the mask only gives
    /// a prefix length.
    ///
    /// ```
    /// let network = IpNetwork::with_netmask("10.1.9.32".parse()?, "255.0.0.0".parse()?)?;
    /// assert_eq!(rt; network.prefix(), 8);
    /// ```
    pub fn with_netmask(netaddr: IpAddr, netmask: IpAddr) -> Result<Self, IpNetworkError>
        ensures { MakesWithMask netaddr netmask result }
    {
        // This call does nothing, but its law is needed to prove this body.
        laws::masks();
        match ip_mask_to_prefix(netmask) {
            Ok(prefix) => IpNetwork::new(netaddr, prefix),
            Err(fault) => Err(fault),
        }
    }

    /// Returns the address as given, with host bits.
    ///
    /// ```
    /// let network: IpNetwork = "2001:db8::7/126".parse()?;
    /// assert_eq!(rt; network.ip().canonical().as_str(), "2001:db8::7");
    /// ```
    pub fn ip(&self) -> IpAddr
        ensures made { result ≡ address_of self.now }
        ensures network { IsIpNetwork self.now }
    {
        match self {
            IpNetwork::V4(network) => IpAddr::V4(network.ip()),
            IpNetwork::V6(network) => IpAddr::V6(network.ip()),
        }
    }

    /// Returns the prefix length, in bits.
    ///
    /// ```
    /// let network: IpNetwork = "2001:db8::7/126".parse()?;
    /// assert_eq!(rt; network.prefix(), 126);
    /// ```
    pub fn prefix(&self) -> u8
        ensures made { result ≡ prefix_of self.now }
        ensures network { IsIpNetwork self.now }
    {
        match self {
            IpNetwork::V4(network) => network.prefix(),
            IpNetwork::V6(network) => network.prefix(),
        }
    }

    /// Returns the mask of the prefix length, in the network's family.
    ///
    /// ```
    /// let network: IpNetwork = "2001:db8::7/126".parse()?;
    /// assert_eq!(rt; network.mask().canonical().as_str(), "ffff:ffff:ffff:ffff:ffff:ffff:ffff:fffc");
    /// ```
    pub fn mask(&self) -> IpAddr
        ensures { result ≡ ip_mask_of self.now }
    {
        match self {
            IpNetwork::V4(network) => IpAddr::V4(network.mask()),
            IpNetwork::V6(network) => IpAddr::V6(network.mask()),
        }
    }

    /// Returns the least member: the address with all host bits cleared.
    ///
    /// ```
    /// let network: IpNetwork = "2001:db8::7/126".parse()?;
    /// assert_eq!(rt; network.network().canonical().as_str(), "2001:db8::4");
    /// ```
    pub fn network(&self) -> IpAddr
        ensures { result ≡ ip_low self.now }
    {
        match self {
            IpNetwork::V4(network) => IpAddr::V4(network.network()),
            IpNetwork::V6(network) => IpAddr::V6(network.network()),
        }
    }

    /// Returns the greatest member: the address with all host bits set.
    ///
    /// ```
    /// let network: IpNetwork = "2001:db8::7/126".parse()?;
    /// assert_eq!(rt; network.broadcast().canonical().as_str(), "2001:db8::7");
    /// ```
    pub fn broadcast(&self) -> IpAddr
        ensures { result ≡ ip_high self.now }
    {
        match self {
            IpNetwork::V4(network) => IpAddr::V4(network.broadcast()),
            IpNetwork::V6(network) => IpAddr::V6(network.broadcast()),
        }
    }

    /// Returns whether the network is an IPv4 network.
    ///
    /// ```
    /// assert!(rt; "10.1.9.32/8".parse::<IpNetwork>()?.is_ipv4());
    /// ```
    pub fn is_ipv4(&self) -> bool
        ensures { IsTrue result ↔ IsV4 self.now }
    {
        match self {
            IpNetwork::V4(_) => true,
            IpNetwork::V6(_) => false,
        }
    }

    /// Returns whether the network is an IPv6 network.
    ///
    /// ```
    /// assert!(rt; "::ffff:10.1.9.32/104".parse::<IpNetwork>()?.is_ipv6());
    /// ```
    pub fn is_ipv6(&self) -> bool
        ensures { IsTrue result ↔ IsV6 self.now }
    {
        match self {
            IpNetwork::V4(_) => false,
            IpNetwork::V6(_) => true,
        }
    }

    /// Returns whether an address is in the network's set. No address of the other family is, not
    /// even an IPv4-mapped IPv6 address in an IPv4 network.
    ///
    /// ```
    /// let network: IpNetwork = "10.0.0.0/8".parse()?;
    /// assert!(rt; network.contains("10.1.9.32".parse()?));
    /// assert!(rt; !network.contains("::ffff:10.1.9.32".parse()?));
    /// ```
    pub fn contains(&self, ip: IpAddr) -> bool
        ensures { IsTrue result ↔ IpMember self.now ip }
    {
        match (self, ip) {
            (IpNetwork::V4(network), IpAddr::V4(address)) => network.contains(address),
            (IpNetwork::V6(network), IpAddr::V6(address)) => network.contains(address),
            _ => false,
        }
    }

    /// Returns the number of members, in the variant of the network's family. At prefix length 0
    /// the result is one less than that.
    ///
    /// ```
    /// let network: IpNetwork = "192.0.2.77/26".parse()?;
    /// assert_eq!(rt; network.size(), NetworkSize::V4(64));
    /// ```
    pub fn size(&self) -> NetworkSize
        ensures { result ≡ ip_size self.now }
    {
        match self {
            IpNetwork::V4(network) => NetworkSize::V4(network.size()),
            IpNetwork::V6(network) => NetworkSize::V6(network.size()),
        }
    }

    /// Returns the members, each once, in ascending order.
    ///
    /// ```
    /// let network: IpNetwork = "2001:db8::7/126".parse()?;
    /// assert_eq!(rt; network.iter().count(), 4);
    /// ```
    pub fn iter(&self) -> IpNetworkIterator
        ensures { result ≡ ip_members self.now }
    {
        match self {
            IpNetwork::V4(network) => IpNetworkIterator::of_v4(network.iter()),
            IpNetwork::V6(network) => IpNetworkIterator::of_v6(network.iter()),
        }
    }

    /// Returns whether each member of this network is a member of `other`. Host bits are ignored.
    /// The result is `false` if the two are of different families.
    ///
    /// ```
    /// let network: IpNetwork = "2001:db8::7/126".parse()?;
    /// assert!(rt; network.is_subnet_of("2001:db8::/32".parse()?));
    /// assert!(rt; !network.is_subnet_of("0.0.0.0/0".parse()?));
    /// ```
    pub fn is_subnet_of(self, other: IpNetwork) -> bool
        ensures { IsTrue result ↔ IpSubnet self other }
    {
        // The clause `network` of `ip` states that the address fits in its family, so that it is a
        // member and the set is not empty.
        let _ = self.ip();
        match self {
            IpNetwork::V4(inner) => match other {
                IpNetwork::V4(outer) => inner.is_subnet_of(outer),
                IpNetwork::V6(_) => false,
            },
            IpNetwork::V6(inner) => match other {
                IpNetwork::V4(_) => false,
                IpNetwork::V6(outer) => inner.is_subnet_of(outer),
            },
        }
    }

    /// Returns whether each member of `other` is a member of this network. Host bits are ignored.
    /// The result is `false` if the two are of different families.
    ///
    /// ```
    /// let network: IpNetwork = "10.0.0.0/8".parse()?;
    /// assert!(rt; network.is_supernet_of("10.1.9.32/16".parse()?));
    /// ```
    pub fn is_supernet_of(self, other: IpNetwork) -> bool
        ensures { IsTrue result ↔ IpSubnet other self }
    {
        other.is_subnet_of(self)
    }

    /// Returns whether the two networks have a member in common.
    ///
    /// ```
    /// let network: IpNetwork = "10.0.0.0/8".parse()?;
    /// assert!(rt; network.overlaps("8.0.0.0/6".parse()?));
    /// assert!(rt; !network.overlaps("::/0".parse()?));
    /// ```
    pub fn overlaps(self, other: IpNetwork) -> bool
        ensures { IsTrue result ↔ IpOverlap self other }
    {
        match self {
            IpNetwork::V4(one) => match other {
                IpNetwork::V4(other) => one.overlaps(other),
                IpNetwork::V6(_) => false,
            },
            IpNetwork::V6(one) => match other {
                IpNetwork::V4(_) => false,
                IpNetwork::V6(other) => one.overlaps(other),
            },
        }
    }

    /// Reads the network that a text names, with `Ipv4Network::read_bytes` or
    /// `Ipv6Network::read_bytes`; no text names a network of each family. For any other text the
    /// error is `CidrFault::Addr`, whatever is wrong with it.
    ///
    /// ```
    /// let network = IpNetwork::read_bytes(b"2001:db8::1/64")?;
    /// assert!(rt; network.is_ipv6());
    /// assert_eq!(rt; IpNetwork::read_bytes(b"10.0.0.0/33"), Err(CidrFault::Addr));
    /// ```
    pub fn read_bytes(text: &[u8]) -> Result<Self, CidrFault>
        ensures { ReadsIpNetwork text.now result }
    {
        // These calls do nothing, but their laws are needed to prove this body.
        laws::v4_text_has_a_dot_first();
        laws::v6_text_has_a_colon_first();
        if has_colon_first(text) {
            match Ipv6Network::read_bytes(text) {
                Ok(network) => Ok(IpNetwork::V6(network)),
                Err(_) => Err(CidrFault::Addr),
            }
        } else {
            match Ipv4Network::read_bytes(text) {
                Ok(network) => Ok(IpNetwork::V4(network)),
                Err(_) => Err(CidrFault::Addr),
            }
        }
    }

    /// Reads the network that a text names, as `read_bytes` does. For any other text the error is
    /// `InvalidAddr` with the whole text, or `OutOfMemory`. Allocates only for an error, once.
    ///
    /// ```
    /// let refused = IpNetwork::parse(rt.alloc(), "10.0.0.0/33");
    /// assert_eq!(rt; refused, Err(IpNetworkError::InvalidAddr("10.0.0.0/33".to_string(rt.alloc())?)));
    /// ```
    pub fn parse(alloc: Global, text: &str) -> Result<Self, IpNetworkError>
        ensures { ParsesIpNetwork text.now result }
    {
        match IpNetwork::read_bytes(text.as_bytes()) {
            Ok(network) => Ok(network),
            Err(fault) => Err(IpNetworkError::from_fault(alloc, fault, AddrParseError::Ip, text)),
        }
    }

    /// Returns the canonical text, at most 43 bytes: that of the network in its family.
    ///
    /// ```
    /// let network: IpNetwork = "2001:DB8::1".parse()?;
    /// assert_eq!(rt; network.canonical().as_str(), "2001:db8::1/128");
    /// ```
    pub fn canonical(&self) -> ArrayString<NETWORK_TEXT_CAPACITY>
        ensures bytes { result.bytes ≡ ip_network_text self.now }
        ensures network { IsIpNetwork self.now }
    {
        match self {
            IpNetwork::V4(network) => network.canonical(),
            IpNetwork::V6(network) => network.canonical(),
        }
    }

    /// Returns the canonical text as a `String`. Allocates once; returns `AllocError` if out of
    /// memory.
    ///
    /// ```
    /// let network: IpNetwork = "10.1.9.32/255.0.0.0".parse()?;
    /// assert_eq!(rt; network.to_text(rt.alloc())?.as_str(), "10.1.9.32/8");
    /// ```
    pub fn to_text(&self, alloc: Global) -> Result<String, AllocError>
        ensures { IfOk result (λ text. string_bytes text ≡ ip_network_text self.now) }
    {
        String::from_str(alloc, self.canonical().as_str())
    }
}

impl From<Ipv4Network> for IpNetwork {
    ghost use Rattle.ipnetwork.specs.declared.ip_network.IpNetwork.TheVariants as networks;

    ghost from_gives = { λ network either. either ≡ networks.V4 network };

    /// Returns the network in the variant `V4`.
    fn from(network: Ipv4Network) -> Self {
        IpNetwork::V4(network)
    }
}

impl From<Ipv6Network> for IpNetwork {
    ghost use Rattle.ipnetwork.specs.declared.ip_network.IpNetwork.TheVariants as networks;

    ghost from_gives = { λ network either. either ≡ networks.V6 network };

    /// Returns the network in the variant `V6`.
    fn from(network: Ipv6Network) -> Self {
        IpNetwork::V6(network)
    }
}

impl From<IpAddr> for IpNetwork {
    ghost use Rattle.ipnetwork.specs.IpNetworks.{made_of, width_of};

    ghost from_gives = { λ address network. network ≡ made_of address (width_of address) };

    /// Returns the network with only this address, of prefix length 32 or 128.
    fn from(address: IpAddr) -> Self {
        match address {
            IpAddr::V4(address) => IpNetwork::V4(Ipv4Network::from(address)),
            IpAddr::V6(address) => IpNetwork::V6(Ipv6Network::from(address)),
        }
    }
}

impl TryFrom<IpNetwork> for Ipv4Network {
    type Error = WrongFamily;

    ghost use Rattle.ipnetwork.specs.IpNetworks.{TakesV4};

    ghost try_from_gives = { TakesV4 };

    /// Returns the network itself, or `WrongFamily` if it is an IPv6 network.
    fn try_from(network: IpNetwork) -> Result<Self, WrongFamily> {
        match network {
            IpNetwork::V4(network) => Ok(network),
            IpNetwork::V6(_) => Err(WrongFamily),
        }
    }
}

impl TryFrom<IpNetwork> for Ipv6Network {
    type Error = WrongFamily;

    ghost use Rattle.ipnetwork.specs.IpNetworks.{TakesV6};

    ghost try_from_gives = { TakesV6 };

    /// Returns the network itself, or `WrongFamily` if it is an IPv4 network.
    fn try_from(network: IpNetwork) -> Result<Self, WrongFamily> {
        match network {
            IpNetwork::V4(_) => Err(WrongFamily),
            IpNetwork::V6(network) => Ok(network),
        }
    }
}

impl IntoIterator for &IpNetwork {
    type Item = IpAddr;

    type IntoIter = IpNetworkIterator;

    ghost use Rattle.ipnetwork.specs.IpNetworks.{ip_members};

    ghost into_iter_gives = { λ network left. left ≡ ip_members network.now };

    /// The same as `iter`.
    fn into_iter(self) -> IpNetworkIterator {
        self.iter()
    }
}

impl FromStr for IpNetwork {
    type Err = CidrFault;

    ghost use Rattle.ipnetwork.specs.IpNetworkText.{ReadsIpNetwork};

    ghost from_str_gives = { ReadsIpNetwork };

    /// The same as `read_bytes`.
    fn from_str(text: &str) -> Result<Self, CidrFault> {
        IpNetwork::read_bytes(text.as_bytes())
    }
}

impl TryFrom<&str> for IpNetwork {
    type Error = CidrFault;

    ghost use Rattle.ipnetwork.specs.IpNetworkText.{ReadsIpNetwork};

    ghost try_from_gives = { λ text result. ReadsIpNetwork text.now result };

    /// The same as `read_bytes`.
    fn try_from(text: &str) -> Result<Self, CidrFault> {
        IpNetwork::from_str(text)
    }
}

impl fmt::Display for IpNetwork {
    ghost use Rattle.ipnetwork.specs.IpNetworkText.{ip_network_text};

    ghost output = { λ network. Some (ip_network_text network) };

    ghost styled_output = { λ network _. Some (ip_network_text network) };

    fn fmt<W: fmt::Write>(&self, f: &mut fmt::Formatter<W>) -> fmt::Result {
        f.write_str(self.canonical().as_str())
    }
}
