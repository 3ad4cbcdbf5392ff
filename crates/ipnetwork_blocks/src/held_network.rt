//! Values that hold a network of one family. They let the same code aggregate a list of networks of
//! one family and the networks of one family in a list of both.
ghost use Rattle.std.specs.Prelude.{◌≡◌};
ghost use Rattle.ipnetwork_family.specs.Network.{Network, network_cmp};

use ipnetwork::{IpNetwork, Ipv4Network, Ipv6Network};
use ipnetwork_family::CidrNetwork;

/// A value that may hold a network of the family of `N`, so that lists of such values are
/// aggregated in place. Values that hold one are ordered as their networks are. A network holds
/// itself, and an `IpNetwork` holds a network of either family.
///
/// ```
/// let network: Ipv4Network = "10.0.0.0/8".parse()?;
/// let value = <IpNetwork as HoldsNetwork<Ipv4Network>>::holding(network);
/// assert_eq!(rt; value, "10.0.0.0/8".parse()?);
/// ```
pub trait HoldsNetwork<N: CidrNetwork>: Copy + Ord {
    // Whether the value holds a network of the family of `N`.
    ghost holds: { Self → Type 0 };

    // The address and the prefix length of the network that the value holds.
    ghost held: { Self → Network };

    /// Returns the network that the value holds. The value must hold one of the family of `N`.
    ///
    /// ```
    /// let value: Ipv6Network = "2001:db8::/32".parse()?;
    /// assert_eq!(rt; HoldsNetwork::<Ipv6Network>::held_network(value), value);
    /// ```
    fn held_network(self) -> N
        requires { holds self }
        ensures { N.pair result ≡ held self };

    /// Returns the value that holds the network.
    ///
    /// ```
    /// let network: Ipv6Network = "2001:db8::/32".parse()?;
    /// assert_eq!(rt; <IpNetwork as HoldsNetwork<Ipv6Network>>::holding(network), IpNetwork::V6(network));
    /// ```
    fn holding(network: N) -> Self
        ensures { holds result × (held result ≡ N.pair network) };

    // Values that hold networks are ordered as these networks are.
    ghost held_order: { (x y : Self) → holds x → holds y
        → Self.cmp x y ≡ network_cmp (held x) (held y) };
}

impl<N: CidrNetwork> HoldsNetwork<N> for N {
    ghost use Rattle.std.specs.Prelude.{⊤};

    ghost holds = { λ _. ⊤ };

    ghost held = { N.pair };

    fn held_network(self) -> N {
        self
    }

    fn holding(network: N) -> N {
        network
    }

    ghost held_order = { λ x y _ _. N.network_order x y };
}

impl HoldsNetwork<Ipv4Network> for IpNetwork {
    ghost use Rattle.std.specs.Prelude.{refl};
    ghost use Rattle.ipnetwork.specs.IpNetworks.{IsV4};
    ghost use Rattle.ipnetwork_blocks.specs.Private.Held.{the_network, v4_order};

    ghost holds = { IsV4 };

    ghost held = { the_network };

    fn held_network(self) -> Ipv4Network {
        match self {
            IpNetwork::V4(network) => network,
            IpNetwork::V6(_) => unreachable!(),
        }
    }

    fn holding(network: Ipv4Network) -> IpNetwork {
        IpNetwork::V4(network)
    }

    ghost held_order = { v4_order _ (λ a b. refl) };
}

impl HoldsNetwork<Ipv6Network> for IpNetwork {
    ghost use Rattle.std.specs.Prelude.{refl};
    ghost use Rattle.ipnetwork.specs.IpNetworks.{IsV6};
    ghost use Rattle.ipnetwork_blocks.specs.Private.Held.{the_network, v6_order};

    ghost holds = { IsV6 };

    ghost held = { the_network };

    fn held_network(self) -> Ipv6Network {
        match self {
            IpNetwork::V6(network) => network,
            IpNetwork::V4(_) => unreachable!(),
        }
    }

    fn holding(network: Ipv6Network) -> IpNetwork {
        IpNetwork::V6(network)
    }

    ghost held_order = { v6_order _ (λ a b. refl) };
}
