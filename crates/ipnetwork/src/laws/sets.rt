//! Laws on sets: membership, subnets and the list of members, for both families.
ghost use Rattle.std.specs.Prelude.{◌↔◌, IsTrue};
ghost use Rattle.ipnetwork.specs.IpNetworks.{IsIpNetwork, AreApart, IpMember, IpSubnet};
ghost use Rattle.ipnetwork.specs.Computed.IpNetworks.{is_ip_member, is_ip_subnet};
ghost use Rattle.ipnetwork.specs.Laws.{IpMembersAreListed, IpMembersAscend};
ghost use Rattle.ipnetwork_family.specs.Network.{Network, IsNetwork};
ghost use Rattle.ipnetwork.specs.declared.ip_network.IpNetwork.TheVariants as networks;

use crate::{IpAddr, IpNetwork};
use ipnetwork_family::laws as family_laws;

/// Networks of different families have no address in common, and neither is a subnet of the other.
pub fn families_are_apart()
    ensures { (a b : Network) → IsNetwork 32 a → IsNetwork 128 b
        → AreApart (networks.V4 a) (networks.V6 b) }
{}

/// An address is a member if and only if the computed test says so.
pub fn ip_membership_is_computed()
    ensures { (n : IpNetwork) (x : IpAddr) → IsTrue (is_ip_member n x) ↔ IpMember n x }
{
    family_laws::membership_is_computed();
}

/// A network is a subnet of another if and only if the computed test says so.
pub fn ip_subnet_is_computed()
    ensures { (a b : IpNetwork) → IsIpNetwork a → IsIpNetwork b
        → IsTrue (is_ip_subnet a b) ↔ IpSubnet a b }
{
    family_laws::subnet_is_computed();
}

/// The list of members contains exactly the addresses of the set, each once, in ascending order.
pub fn ip_listing()
    ensures members { IpMembersAreListed }
    ensures ascending { IpMembersAscend }
{
    family_laws::listing();
}
