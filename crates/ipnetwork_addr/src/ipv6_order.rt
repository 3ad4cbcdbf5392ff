//! Compares and hashes IPv6 addresses by their numbers.
ghost use Rattle.std.specs.Hash as fed;
ghost use Rattle.std.specs.Cmp.{partial_order_from_own_ties};
ghost use Rattle.std.specs.Cmp.Rules.{comparing, hashing};
ghost use Rattle.std.specs.Ordering.{nat_cmp, as_partial_cmp, eq_by_cmp};
ghost use Rattle.std.proofs.Common.{rules};

use crate::Ipv6Addr;
use std::cmp::Ordering;
use std::hash::{Hash, Hasher};

impl PartialEq for Ipv6Addr {
    ghost eq = { eq_by_cmp nat_cmp };

    ghost laws = { Prim.search (comparing, rules) };

    fn eq(&self, other: &Ipv6Addr) -> bool {
        self.order(other).is_eq()
    }
}

impl Eq for Ipv6Addr {
    ghost laws = { Prim.search (comparing, rules) };
}

impl Ord for Ipv6Addr {
    ghost cmp = { nat_cmp };

    ghost total = { Prim.search (comparing, rules) };

    ghost matches_partial_cmp = { Prim.search (comparing, rules) };

    ghost matches_eq = { Prim.search (comparing, rules) };

    fn cmp(&self, other: &Ipv6Addr) -> Ordering {
        self.order(other)
    }
}

impl PartialOrd for Ipv6Addr {
    ghost partial_cmp = { as_partial_cmp nat_cmp };

    ghost laws = { partial_order_from_own_ties (Prim.search (comparing, rules))
        (Prim.search (comparing, rules)) };

    fn partial_cmp(&self, other: &Ipv6Addr) -> Option<Ordering> {
        Some(self.cmp(other))
    }
}

impl Hash for Ipv6Addr {
    ghost hash_input = { λ n. fed.u128 n };

    ghost respects_eq = { Prim.search (hashing, rules) };

    fn hash<H: Hasher>(&self, state: &mut H) {
        state.write(&self.octets_low_first());
    }
}
