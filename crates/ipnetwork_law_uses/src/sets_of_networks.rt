//! What follows from the laws of the sets that networks represent, for both widths.
ghost use Rattle.std.specs.Prelude.{◌≡◌, ◌≢◌, ◌↔◌, ◌⊎◌, ◌+◌, ◌<◌, ◌≤◌, ℕ, IsTrue, Result, Ok, Some, slice_get, Contains};
ghost use Rattle.std.specs.List.Sorted.{IsStrictlyIncreasing};
ghost use Rattle.ipnetwork_family.specs.Computed.Network.{is_member, is_subnet, prefix_of_mask};
ghost use Rattle.ipnetwork_family.specs.Masks.{GivesPrefixOfMask};
ghost use Rattle.ipnetwork_family.specs.Network.{Network, IsNetwork, HostBitsAreZero, Member, Subnet, Overlap, IsNetworkAtMost, block_of, block_size, low, high, members, mask_of};
ghost use Rattle.ipnetwork_law_uses.specs.Networks.{HasItsEnds, IsNestedWith, IsFoundByEnds, StandsBetween, ListsItsMembers};

use ipnetwork_family::{IpNetworkError, Ipv4Network, Ipv6Network, laws};

fn ends_are_members()
    ensures v4 { (n : Network) → IsNetwork 32 n → HasItsEnds 32 n }
    ensures v6 { (n : Network) → IsNetwork 128 n → HasItsEnds 128 n }
{
    laws::ends();
}

fn subnets_are_ordered()
    ensures own { (a : Network) → Subnet 32 a a × Subnet 128 a a }
    ensures v4 { (a b c : Network) → Subnet 32 a b → Subnet 32 b c → Subnet 32 a c }
    ensures v6 { (a b c : Network) → Subnet 128 a b → Subnet 128 b c → Subnet 128 a c }
{
    laws::subnets();
}

fn one_set_is_one_block()
    ensures v4 { (a b : Network) → IsNetwork 32 a → IsNetwork 32 b
        → (Subnet 32 a b × Subnet 32 b a) ↔ ((a.prefix ≡ b.prefix) × (low 32 a ≡ low 32 b)) }
    ensures v6 { (a b : Network) → IsNetwork 128 a → IsNetwork 128 b
        → (Subnet 128 a b × Subnet 128 b a) ↔ ((a.prefix ≡ b.prefix) × (low 128 a ≡ low 128 b)) }
{
    laws::subnets();
}

fn a_block_has_the_same_set()
    ensures v4 { (n : Network) (x : ℕ) → Member 32 (block_of 32 n) x ↔ Member 32 n x }
    ensures v6 { (n : Network) (x : ℕ) → Member 128 (block_of 128 n) x ↔ Member 128 n x }
    ensures clear { (n : Network) → HostBitsAreZero 32 (block_of 32 n)
        × HostBitsAreZero 128 (block_of 128 n) }
    ensures fits4 { (n : Network) → IsNetwork 32 n → IsNetwork 32 (block_of 32 n) }
    ensures fits6 { (n : Network) → IsNetwork 128 n → IsNetwork 128 (block_of 128 n) }
{
    laws::blocks();
}

fn members_pass_the_test()
    ensures v4 { (n : Network) (x : ℕ) → IsTrue (is_member 32 n x) ↔ Member 32 n x }
    ensures v6 { (n : Network) (x : ℕ) → IsTrue (is_member 128 n x) ↔ Member 128 n x }
{
    laws::membership_is_computed();
}

fn subnets_pass_the_test()
    ensures v4 { (a b : Network) → IsNetwork 32 a → IsNetwork 32 b
        → IsTrue (is_subnet 32 a b) ↔ Subnet 32 a b }
    ensures v6 { (a b : Network) → IsNetwork 128 a → IsNetwork 128 b
        → IsTrue (is_subnet 128 a b) ↔ Subnet 128 a b }
{
    laws::subnet_is_computed();
}

fn networks_that_overlap_are_nested()
    ensures v4 { (a b : Network) → IsNetwork 32 a → IsNetwork 32 b → IsNestedWith 32 a b }
    ensures v6 { (a b : Network) → IsNetwork 128 a → IsNetwork 128 b → IsNestedWith 128 a b }
    ensures back { (a b : Network) → (Overlap 32 a b → Overlap 32 b a)
        × (Overlap 128 a b → Overlap 128 b a) }
    ensures ends4 { (a b : Network) → IsNetwork 32 a → IsNetwork 32 b → IsFoundByEnds 32 a b }
    ensures ends6 { (a b : Network) → IsNetwork 128 a → IsNetwork 128 b → IsFoundByEnds 128 a b }
{
    laws::nesting();
}

fn blocks_are_in_order()
    ensures v4 { (a b c : Network) → StandsBetween 32 a b c }
    ensures v6 { (a b c : Network) → StandsBetween 128 a b c }
{
    laws::order();
}

fn members_are_listed()
    ensures v4 { (n : Network) → IsNetwork 32 n → ListsItsMembers 32 n }
    ensures v6 { (n : Network) → IsNetwork 128 n → ListsItsMembers 128 n }
{
    laws::listing();
}

fn each_prefix_has_its_mask()
    ensures v4 { (p q : ℕ) → p ≤ 32 → q ≤ 32 → p ≢ q → mask_of 32 p ≢ mask_of 32 q }
    ensures v6 { (p q : ℕ) → p ≤ 128 → q ≤ 128 → p ≢ q → mask_of 128 p ≢ mask_of 128 q }
{
    laws::masks();
}

fn each_mask_has_its_prefix()
    ensures v4 { (p : ℕ) → p ≤ 32 → prefix_of_mask 32 (mask_of 32 p) ≡ Some p }
    ensures v6 { (p : ℕ) → p ≤ 128 → prefix_of_mask 128 (mask_of 128 p) ≡ Some p }
    ensures given4 { (p : ℕ) (result : Result ℕ IpNetworkError) → p ≤ 32
        → GivesPrefixOfMask 32 (mask_of 32 p) result ↔ (result ≡ Ok p) }
    ensures given6 { (p : ℕ) (result : Result ℕ IpNetworkError) → p ≤ 128
        → GivesPrefixOfMask 128 (mask_of 128 p) result ↔ (result ≡ Ok p) }
{
    laws::mask_conversion();
}

fn v4_mask_gives_its_prefix(network: Ipv4Network) -> bool
    ensures { IsTrue result }
{
    match laws::v4_mask_converts_back(network) {
        Ok(prefix) => prefix == network.prefix(),
        Err(_) => false,
    }
}

fn v6_mask_gives_its_prefix(network: Ipv6Network) -> bool
    ensures { IsTrue result }
{
    match laws::v6_mask_converts_back(network) {
        Ok(prefix) => prefix == network.prefix(),
        Err(_) => false,
    }
}
