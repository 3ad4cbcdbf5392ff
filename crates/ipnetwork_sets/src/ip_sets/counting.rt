//! The numbers of addresses and blocks in a set.
ghost use Rattle.std.specs.Prelude.{◌≡◌, length};
ghost use Rattle.ipnetwork_addr.specs.declared.ip.IpAddr.TheVariants as addresses;
ghost use Rattle.ipnetwork_blocks.specs.AggregateIpLaws.{InIpUnion};
ghost use Rattle.ipnetwork_sets.specs.Counts.{count_number, HasCount};

use crate::AddressCount;
use crate::ip_sets::ip_address_set::IpAddressSet;

impl IpAddressSet {
    /// The number of IPv4 addresses in the set, and the number of IPv6 addresses. Goes over the
    /// blocks once.
    ///
    /// ```
    /// let v6 = vec![in rt.alloc(); "::/0".parse::<Ipv6Network>()?]?;
    /// let set = IpAddressSet::from_lists(vec![in rt.alloc(); "192.0.2.0/25".parse::<Ipv4Network>()?]?, v6);
    /// let (v4, v6) = set.address_counts();
    /// assert_eq!(rt; v4, ipnetwork_sets::AddressCount::from(128));
    /// assert_eq!(rt; v6, ipnetwork_sets::AddressCount::AllOfIpv6);
    /// ```
    pub fn address_counts(&self) -> (AddressCount, AddressCount)
        ensures v4 { HasCount (λ x. InIpUnion self.now (addresses.V4 x)) (count_number result.0) }
        ensures v6 { HasCount (λ x. InIpUnion self.now (addresses.V6 x)) (count_number result.1) }
    {
        (self.v4().address_count(), self.v6().address_count())
    }

    /// The number of blocks in the set, of both families together.
    ///
    /// ```
    /// let v6 = vec![in rt.alloc(); "::/0".parse::<Ipv6Network>()?]?;
    /// let set = IpAddressSet::from_lists(vec![in rt.alloc(); "192.0.2.0/25".parse::<Ipv4Network>()?]?, v6);
    /// assert_eq!(rt; set.len(), 2);
    /// ```
    pub fn len(&self) -> usize
        ensures { result ≡ length self.now }
    {
        self.v4().blocks().len() + self.v6().blocks().len()
    }
}
