//! What follows from the laws of unions, least lists, sets and indexes, over both widths.
ghost use Rattle.std.specs.Prelude.{◌≡◌, ◌↔◌, ◌⊎◌, ◌^◌, ◌<◌, ◌≤◌, ℕ, IsTrue, List, [], ◌∷◌, length};
ghost use Rattle.std.specs.List.{All, AllPairs, Contains};
ghost use Rattle.ipnetwork.specs.IpNetworks.{IsIpNetwork, IpSubnet};
ghost use Rattle.ipnetwork.specs.declared.ip_network.IpNetwork.{IpNetwork};
ghost use Rattle.ipnetwork_blocks.specs.Aggregate.{InUnion, LiesInUnion, SameUnion, IsAggregate};
ghost use Rattle.ipnetwork_blocks.specs.AggregateIp.{IsIpAggregate};
ghost use Rattle.ipnetwork_blocks.specs.AggregateIpLaws.{LiesInIpUnion};
ghost use Rattle.ipnetwork_blocks.specs.LeastList.{IsLeastList};
ghost use Rattle.ipnetwork_blocks.specs.Ranges.{FromTo};
ghost use Rattle.ipnetwork_family.specs.Network.{Network, IsNetwork, Member, Subnet, high};
ghost use Rattle.ipnetwork_law_uses.specs.Sets.{IsTheLeast};
ghost use Rattle.ipnetwork_sets.specs.Counts.{HasCount, total};
ghost use Rattle.ipnetwork_sets.specs.Sets.{IsAddressSet, InBoth, InFirstAlone, InNetworkAlone, InEither};

use ipnetwork_addr::{Ipv4Addr, Ipv6Addr};
use ipnetwork_blocks::laws;
use ipnetwork_family::{Ipv4Network, Ipv6Network};
use ipnetwork_index::{AddressIndex, laws as index_laws};
use ipnetwork_sets::{AddressSet, laws as set_laws};

fn unions_go_by_their_lists()
    ensures none { (x : ℕ) → ¬ (InUnion 32 [] x) × ¬ (InUnion 128 [] x) }
    ensures v4 { (n : Network) (others : List Network) (x : ℕ)
        → InUnion 32 (n ∷ others) x ↔ (Member 32 n x ⊎ InUnion 32 others x) }
    ensures v6 { (n : Network) (others : List Network) (x : ℕ)
        → InUnion 128 (n ∷ others) x ↔ (Member 128 n x ⊎ InUnion 128 others x) }
{
    laws::unions();
}

fn an_aggregate_has_the_union()
    ensures v4 { (networks blocks : List Network) → IsAggregate 32 networks blocks
        → SameUnion 32 blocks networks }
    ensures v6 { (networks blocks : List Network) → IsAggregate 128 networks blocks
        → SameUnion 128 blocks networks }
{
    laws::same_union();
}

fn blocks_of_an_aggregate_are_apart()
    ensures v4 { (networks blocks : List Network) → IsAggregate 32 networks blocks
        → AllPairs (λ a b. high 32 a < b.address) blocks }
    ensures v6 { (networks blocks : List Network) → IsAggregate 128 networks blocks
        → AllPairs (λ a b. high 128 a < b.address) blocks }
{
    laws::one_block();
}

fn an_address_lies_in_one_block()
    ensures v4 { (networks blocks : List Network) (a b : Network) (x : ℕ)
        → IsAggregate 32 networks blocks → Contains blocks a → Contains blocks b
        → Member 32 a x → Member 32 b x → a ≡ b }
    ensures v6 { (networks blocks : List Network) (a b : Network) (x : ℕ)
        → IsAggregate 128 networks blocks → Contains blocks a → Contains blocks b
        → Member 128 a x → Member 128 b x → a ≡ b }
{
    laws::one_block();
}

fn a_network_lies_in_one_block()
    ensures v4 { (networks blocks : List Network) (n : Network) → IsAggregate 32 networks blocks
        → IsNetwork 32 n
        → LiesInUnion 32 n networks ↔ ((b : Network) × Contains blocks b × Subnet 32 n b) }
    ensures v6 { (networks blocks : List Network) (n : Network) → IsAggregate 128 networks blocks
        → IsNetwork 128 n
        → LiesInUnion 128 n networks ↔ ((b : Network) × Contains blocks b × Subnet 128 n b) }
{
    laws::one_block();
}

fn no_list_is_shorter()
    ensures v4 { (networks blocks others : List Network) → IsAggregate 32 networks blocks
        → All (IsNetwork 32) others → SameUnion 32 others networks → length blocks ≤ length others }
    ensures v6 { (networks blocks others : List Network) → IsAggregate 128 networks blocks
        → All (IsNetwork 128) others → SameUnion 128 others networks
        → length blocks ≤ length others }
    ensures needed4 { (networks blocks others : List Network) (b : Network)
        → IsAggregate 32 networks blocks → All (IsNetwork 32) others
        → SameUnion 32 others networks → Contains blocks b
        → (n : Network) × Contains others n × Subnet 32 n b }
    ensures needed6 { (networks blocks others : List Network) (b : Network)
        → IsAggregate 128 networks blocks → All (IsNetwork 128) others
        → SameUnion 128 others networks → Contains blocks b
        → (n : Network) × Contains others n × Subnet 128 n b }
{
    laws::least();
}

fn a_network_of_either_family_lies_in_one_block()
    ensures { (networks blocks : List IpNetwork) (n : IpNetwork) → IsIpAggregate networks blocks
        → IsIpNetwork n
        → LiesInIpUnion n networks ↔ ((b : IpNetwork) × Contains blocks b × IpSubnet n b) }
{
    laws::ip_one_block();
}

fn blocks_of_a_range_are_least()
    ensures v4 { (first last : ℕ) (blocks : List Network) → last < 2 ^ 32
        → IsLeastList 32 (FromTo first last) blocks → IsTheLeast 32 (FromTo first last) blocks }
    ensures v6 { (first last : ℕ) (blocks : List Network) → last < 2 ^ 128
        → IsLeastList 128 (FromTo first last) blocks → IsTheLeast 128 (FromTo first last) blocks }
{
    laws::ranges_are_shortest();
}

fn an_intersection_is_least()
    ensures v4 { (a b blocks : List Network) → IsLeastList 32 (InBoth 32 a b) blocks
        → IsTheLeast 32 (InBoth 32 a b) blocks }
    ensures v6 { (a b blocks : List Network) → IsLeastList 128 (InBoth 128 a b) blocks
        → IsTheLeast 128 (InBoth 128 a b) blocks }
{
    set_laws::shortest();
}

fn a_difference_is_least()
    ensures v4 { (a b blocks : List Network) → IsLeastList 32 (InFirstAlone 32 a b) blocks
        → IsTheLeast 32 (InFirstAlone 32 a b) blocks }
    ensures v6 { (a b blocks : List Network) → IsLeastList 128 (InFirstAlone 128 a b) blocks
        → IsTheLeast 128 (InFirstAlone 128 a b) blocks }
{
    set_laws::shortest();
}

fn what_is_left_of_a_network_is_least()
    ensures v4 { (n : Network) (a blocks : List Network)
        → IsLeastList 32 (InNetworkAlone 32 n a) blocks
        → IsTheLeast 32 (InNetworkAlone 32 n a) blocks }
    ensures v6 { (n : Network) (a blocks : List Network)
        → IsLeastList 128 (InNetworkAlone 128 n a) blocks
        → IsTheLeast 128 (InNetworkAlone 128 n a) blocks }
{
    set_laws::shortest();
}

fn a_union_is_least()
    ensures v4 { (a b blocks : List Network) → IsLeastList 32 (InEither 32 a b) blocks
        → IsTheLeast 32 (InEither 32 a b) blocks }
    ensures v6 { (a b blocks : List Network) → IsLeastList 128 (InEither 128 a b) blocks
        → IsTheLeast 128 (InEither 128 a b) blocks }
{
    set_laws::shortest();
}

fn sizes_add_up()
    ensures v4 { (blocks : List Network) → IsAddressSet 32 blocks
        → HasCount (InUnion 32 blocks) (total 32 blocks) × (total 32 blocks ≤ 2 ^ 32) }
    ensures v6 { (blocks : List Network) → IsAddressSet 128 blocks
        → HasCount (InUnion 128 blocks) (total 128 blocks) × (total 128 blocks ≤ 2 ^ 128) }
    ensures both4 { (a b blocks : List Network) → IsLeastList 32 (InBoth 32 a b) blocks
        → HasCount (InBoth 32 a b) (total 32 blocks) × (total 32 blocks ≤ 2 ^ 32) }
    ensures both6 { (a b blocks : List Network) → IsLeastList 128 (InBoth 128 a b) blocks
        → HasCount (InBoth 128 a b) (total 128 blocks) × (total 128 blocks ≤ 2 ^ 128) }
    ensures alone4 { (a b blocks : List Network) → IsLeastList 32 (InFirstAlone 32 a b) blocks
        → HasCount (InFirstAlone 32 a b) (total 32 blocks) × (total 32 blocks ≤ 2 ^ 32) }
    ensures alone6 { (a b blocks : List Network) → IsLeastList 128 (InFirstAlone 128 a b) blocks
        → HasCount (InFirstAlone 128 a b) (total 128 blocks) × (total 128 blocks ≤ 2 ^ 128) }
{
    set_laws::sums();
}

fn blocks_are_fewer_than_addresses()
    ensures v4 { (blocks : List Network) → IsAddressSet 32 blocks → length blocks < 2 ^ 32 }
    ensures v6 { (blocks : List Network) → IsAddressSet 128 blocks → length blocks < 2 ^ 128 }
{
    set_laws::fewer_blocks();
}

fn a_changed_set_has_these_addresses()
    ensures in4 { (a : List Network) (n : Network) (blocks : List Network) (x : ℕ)
        → IsLeastList 32 (InEither 32 a (n ∷ [])) blocks
        → InUnion 32 blocks x ↔ (InUnion 32 a x ⊎ Member 32 n x) }
    ensures in6 { (a : List Network) (n : Network) (blocks : List Network) (x : ℕ)
        → IsLeastList 128 (InEither 128 a (n ∷ [])) blocks
        → InUnion 128 blocks x ↔ (InUnion 128 a x ⊎ Member 128 n x) }
    ensures out4 { (a : List Network) (n : Network) (blocks : List Network) (x : ℕ)
        → IsLeastList 32 (InFirstAlone 32 a (n ∷ [])) blocks
        → InUnion 32 blocks x ↔ (InUnion 32 a x × ¬ (Member 32 n x)) }
    ensures out6 { (a : List Network) (n : Network) (blocks : List Network) (x : ℕ)
        → IsLeastList 128 (InFirstAlone 128 a (n ∷ [])) blocks
        → InUnion 128 blocks x ↔ (InUnion 128 a x × ¬ (Member 128 n x)) }
{
    set_laws::changes();
}

fn v4_index_finds_what_the_set_has(
    set: &AddressSet<Ipv4Network>,
    index: &AddressIndex<Ipv4Network>,
    addr: Ipv4Addr,
) -> bool
    requires { index.now ≡ set.now }
    ensures { IsTrue result ↔ InUnion 32 set.now addr }
{
    let (has, finds) = index_laws::set_and_index_agree(set, index, addr);
    has && finds
}

fn v6_index_finds_what_the_set_has(
    set: &AddressSet<Ipv6Network>,
    index: &AddressIndex<Ipv6Network>,
    addr: Ipv6Addr,
) -> bool
    requires { index.now ≡ set.now }
    ensures { IsTrue result ↔ InUnion 128 set.now addr }
{
    let (has, finds) = index_laws::set_and_index_agree(set, index, addr);
    has && finds
}
