//! Equality of sets.
use crate::address_set::AddressSet;
use ipnetwork_blocks::AddressSpace;

/// Two sets are equal exactly if they have the same addresses (`laws::equality`). This is
/// tested by comparing their blocks.
impl<N: AddressSpace> PartialEq for AddressSet<N> {
    ghost use Rattle.std.proofs.Common.{rules};
    ghost use Rattle.std.specs.Cmp.Rules.{comparing};
    ghost use Rattle.std.specs.Cmp.Lexicographic.{lists_per};
    ghost use Rattle.ipnetwork_sets.specs.Equality.{same_blocks};

    ghost eq = { same_blocks };

    ghost laws = { lists_per (Prim.search (comparing, rules)) };

    fn eq(&self, other: &AddressSet<N>) -> bool {
        let first = self.blocks();
        let second = other.blocks();
        first == second
    }
}
