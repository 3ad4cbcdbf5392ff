//! What follows from the laws of tables, over both widths.
ghost use Rattle.std.specs.Prelude.{◌≡◌, ◌≢◌, ◌<◌, ℕ, Option, None, Some, slice_get};
ghost use Rattle.std.specs.FinMap.{FinMap, empty, get, insert, remove, entries};
ghost use Rattle.ipnetwork_family.specs.Network.{Network, HostBitsAreZero, Member, Subnet, IsNetworkBefore, block_of, network_cmp};
ghost use Rattle.ipnetwork_table.specs.Computed.Longest.{longest_of};
ghost use Rattle.ipnetwork_table.specs.Table.{HasOnlyBlocks, HasNoHostBits, Answers, found_by_pair};

use ipnetwork_addr::{Ipv4Addr, Ipv6Addr};
use ipnetwork_family::{Ipv4Network, Ipv6Network};
use ipnetwork_table::{PrefixTable, laws};

fn blocks_as_long_that_meet()
    ensures v4 { (m n : Network) (x : ℕ) → HostBitsAreZero 32 m → HostBitsAreZero 32 n
        → m.prefix ≡ n.prefix → Member 32 m x → Member 32 n x → m ≡ n }
    ensures v6 { (m n : Network) (x : ℕ) → HostBitsAreZero 128 m → HostBitsAreZero 128 n
        → m.prefix ≡ n.prefix → Member 128 m x → Member 128 n x → m ≡ n }
{
    laws::blocks_of_any_width_that_meet();
}

fn a_look_up_has_one_result<V: Copy>()
    ensures v4 { (t : FinMap network_cmp V) (x : ℕ) (a b : Option (Network × V))
        → HasNoHostBits 32 t
        → Answers 32 t x a → Answers 32 t x b → a ≡ b }
    ensures v6 { (t : FinMap network_cmp V) (x : ℕ) (a b : Option (Network × V))
        → HasNoHostBits 128 t
        → Answers 128 t x a → Answers 128 t x b → a ≡ b }
    ensures some4 { (t : FinMap network_cmp V) (x : ℕ) → HasOnlyBlocks 32 t
        → (answer : Option (Network × V)) × Answers 32 t x answer }
    ensures some6 { (t : FinMap network_cmp V) (x : ℕ) → HasOnlyBlocks 128 t
        → (answer : Option (Network × V)) × Answers 128 t x answer }
{
    laws::one_answer::<V>();
}

fn the_longest_entry_is_the_result<V: Copy>()
    ensures v4 { (t : FinMap network_cmp V) (x : ℕ) → Answers 32 t x (longest_of 32 x (entries t)) }
    ensures v6 { (t : FinMap network_cmp V) (x : ℕ)
        → Answers 128 t x (longest_of 128 x (entries t)) }
{
    laws::answer_is_computed::<V>();
}

fn keys_are_clear<V: Copy>()
    ensures none { HasNoHostBits 32 (empty {X = V} {R = network_cmp})
        × HasNoHostBits 128 (empty {X = V} {R = network_cmp}) }
    ensures in4 { (t : FinMap network_cmp V) (n : Network) (v : V) → HasNoHostBits 32 t
        → HasNoHostBits 32 (insert t (block_of 32 n) v) }
    ensures in6 { (t : FinMap network_cmp V) (n : Network) (v : V) → HasNoHostBits 128 t
        → HasNoHostBits 128 (insert t (block_of 128 n) v) }
    ensures out4 { (t : FinMap network_cmp V) (n : Network) → HasNoHostBits 32 t
        → HasNoHostBits 32 (remove t n) }
    ensures out6 { (t : FinMap network_cmp V) (n : Network) → HasNoHostBits 128 t
        → HasNoHostBits 128 (remove t n) }
{
    laws::keys_without_host_bits::<V>();
}

fn others_are_kept<V: Copy>()
    ensures set { (t : FinMap network_cmp V) (n : Network) (v : V) → get (insert t n v) n ≡ Some v }
    ensures kept { (t : FinMap network_cmp V) (n m : Network) (v : V) → m ≢ n
        → get (insert t n v) m ≡ get t m }
    ensures taken { (t : FinMap network_cmp V) (n : Network) → get (remove t n) n ≡ None }
    ensures left { (t : FinMap network_cmp V) (n m : Network) → m ≢ n
        → get (remove t n) m ≡ get t m }
{
    laws::one_key_changes::<V>();
}

fn entries_are_in_order<V: Copy>()
    ensures stored { (t : FinMap network_cmp V) (i : ℕ) (n : Network) (v : V)
        → slice_get (entries t) i ≡ Some (n, v) → get t n ≡ Some v }
    ensures listed { (t : FinMap network_cmp V) (n : Network) (v : V) → get t n ≡ Some v
        → (i : ℕ) × (slice_get (entries t) i ≡ Some (n, v)) }
    ensures ascending { (t : FinMap network_cmp V) (i j : ℕ) (d e : Network × V)
        → slice_get (entries t) i ≡ Some d → slice_get (entries t) j ≡ Some e → i < j
        → IsNetworkBefore d.0 e.0 }
    ensures v4 { (t : FinMap network_cmp V) (i j : ℕ) (d e : Network × V) → HasOnlyBlocks 32 t
        → slice_get (entries t) i ≡ Some d → slice_get (entries t) j ≡ Some e → i < j
        → ¬ (Subnet 32 d.0 e.0) }
    ensures v6 { (t : FinMap network_cmp V) (i j : ℕ) (d e : Network × V) → HasOnlyBlocks 128 t
        → slice_get (entries t) i ≡ Some d → slice_get (entries t) j ≡ Some e → i < j
        → ¬ (Subnet 128 d.0 e.0) }
{
    laws::listing::<V>();
}

fn v4_look_ups_agree<V: Copy>(
    table: &PrefixTable<Ipv4Network, V>,
    addr: Ipv4Addr,
) -> (Option<(Ipv4Network, V)>, Option<(Ipv4Network, V)>)
    ensures { found_by_pair (λ n. n) result.0 ≡ found_by_pair (λ n. n) result.1 }
{
    laws::lookups_agree(table, addr)
}

fn v6_look_ups_agree<V: Copy>(
    table: &PrefixTable<Ipv6Network, V>,
    addr: Ipv6Addr,
) -> (Option<(Ipv6Network, V)>, Option<(Ipv6Network, V)>)
    ensures { found_by_pair (λ n. n) result.0 ≡ found_by_pair (λ n. n) result.1 }
{
    laws::lookups_agree(table, addr)
}
