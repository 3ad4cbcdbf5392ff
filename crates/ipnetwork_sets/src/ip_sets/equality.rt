//! Equality of sets.
use crate::ip_sets::ip_address_set::IpAddressSet;

/// Two sets are equal exactly if they have the same addresses of both families (`laws::equality`).
/// This is tested by comparing their blocks.
impl PartialEq for IpAddressSet {
    ghost use Rattle.std.proofs.Common.{rules};
    ghost use Rattle.std.specs.Cmp.{and_per, on_per};
    ghost use Rattle.std.specs.Cmp.Rules.{comparing};
    ghost use Rattle.std.specs.Cmp.Lexicographic.{lists_per};
    ghost use Rattle.std.specs.List.{filter_map};
    ghost use Rattle.ipnetwork_blocks.specs.AggregateIp.{as_v4, as_v6};
    ghost use Rattle.ipnetwork_sets.specs.IpEquality.{same_ip_blocks};

    ghost eq = { same_ip_blocks };

    ghost laws = { and_per (on_per (filter_map as_v4) (lists_per (Prim.search (comparing, rules))))
        (on_per (filter_map as_v6) (lists_per (Prim.search (comparing, rules)))) };

    fn eq(&self, other: &IpAddressSet) -> bool {
        self.v4() == other.v4() && self.v6() == other.v6()
    }
}
