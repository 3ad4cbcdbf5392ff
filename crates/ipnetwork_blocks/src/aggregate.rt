//! The least list of blocks with the same union as a list of networks.
ghost use Rattle.std.specs.Prelude.{◌≡◌, ◌<◌, ◌≤◌, ◌↔◌, IsTrue, MatchOption, length, take, ◌++◌, ◌∷◌, [], map, vec_capacity};
ghost use Rattle.std.specs.List.{All};
ghost use Rattle.ipnetwork_family.specs.Network.{IsCidrBlock, IsNetworkAtMost, Subnet, block_of, high};
ghost use Rattle.ipnetwork_blocks.specs.Aggregate.{SameUnion, IsAggregate};
ghost use Rattle.ipnetwork_blocks.specs.Supernets.{parent};
ghost use Rattle.ipnetwork_blocks.specs.Private.Joining.{AreJoined, AreHalves, AreInOrder, LiesInLast};

use crate::held_network::HoldsNetwork;
use crate::supernets::block;
use ipnetwork_family::CidrNetwork;

/// Replaces the networks, which may have host bits, with their aggregate at the front of the slice,
/// and returns the number of its blocks. The aggregate is the list, in ascending order, of the
/// blocks that lie in the networks' union but in no larger block of it. No list of networks with
/// the same union is shorter (`laws::least`). The rest of the slice holds unspecified networks.
///
/// Sorts the slice and makes one pass over it.
///
/// ```
/// let mut networks: [Ipv4Network; 2] = ["10.0.0.128/25".parse()?, "10.0.0.0/25".parse()?];
/// assert_eq!(rt; aggregate_in_place(&mut networks), 1);
/// assert_eq!(rt; networks[0].canonical().as_str(), "10.0.0.0/24");
/// ```
pub fn aggregate_in_place<N: CidrNetwork>(networks: &mut [N]) -> usize
    ensures within { result ≤ length networks.old }
    ensures aggregate { IsAggregate N.WIDTH (map N.pair networks.old)
        (map N.pair (take result networks.new)) }
{
    aggregate_held::<N, N>(networks)
}

/// Replaces the networks with their aggregate: the blocks that `aggregate_in_place` puts at the
/// front. Frees no memory: the capacity does not change.
///
/// ```
/// let mut networks = vec![in rt.alloc(); "10.128.0.0/9".parse::<Ipv4Network>()?, "10.0.0.0/9".parse()?]?;
/// aggregate_vec(&mut networks);
/// assert_eq!(rt; networks.as_slice(), ["10.0.0.0/8".parse()?].as_slice());
/// ```
pub fn aggregate_vec<N: CidrNetwork>(networks: &mut Vec<N>)
    ensures aggregate { IsAggregate N.WIDTH (map N.pair networks.old.items)
        (map N.pair networks.new.items) }
    ensures capacity { vec_capacity networks.new ≡ vec_capacity networks.old }
{
    let count = aggregate_in_place(networks.as_mut_slice());
    networks.truncate(count);
}

/// Like `aggregate_in_place`, but for values that hold networks: replaces them with values that
/// hold the aggregate, at the front of the slice, and returns the number of its blocks. Each value
/// must hold a network of the family of `N`. The rest of the slice holds unspecified networks.
///
/// Sorts the slice and makes one pass over it.
///
/// ```
/// let mut values: [Ipv6Network; 2] = ["2001:db8:8000::/33".parse()?, "2001:db8::/33".parse()?];
/// assert_eq!(rt; aggregate_held::<Ipv6Network, Ipv6Network>(&mut values), 1);
/// assert_eq!(rt; values[0].canonical().as_str(), "2001:db8::/32");
/// ```
pub fn aggregate_held<N: CidrNetwork, H: HoldsNetwork<N>>(values: &mut [H]) -> usize
    requires { All H.holds values.old }
    ensures within { result ≤ length values.old }
    ensures aggregate { IsAggregate N.WIDTH (map H.held values.old)
        (map H.held (take result values.new)) }
    ensures held { All H.holds values.new }
{
    clear_host_bits::<N, H>(values);
    values.sort_unstable();
    join_sorted::<N, H>(values)
}

// Replaces each network with its block.
fn clear_host_bits<N: CidrNetwork, H: HoldsNetwork<N>>(values: &mut [H])
    requires { All H.holds values.old }
    ensures cleared { map H.held values.new ≡ map (block_of N.WIDTH) (map H.held values.old) }
    ensures blocks { All (IsCidrBlock N.WIDTH) (map H.held values.new) }
    ensures held { All H.holds values.new }
{
    for value in values.iter_mut() {
        *value = H::holding(block(value.held_network()));
    }
}

// Aggregates sorted blocks. The aggregate of the blocks that were read is kept at the front. The
// next block either lies in the last of these, or is added after them and joined with those at
// their end.
fn join_sorted<N: CidrNetwork, H: HoldsNetwork<N>>(values: &mut [H]) -> usize
    requires held { All H.holds values.old }
    requires blocks { All (IsCidrBlock N.WIDTH) (map H.held values.old) }
    requires order { AreInOrder (map H.held values.old) }
    ensures within { result ≤ length values.old }
    ensures joined { AreJoined N.WIDTH (take result (map H.held values.new)) }
    ensures union { SameUnion N.WIDTH (take result (map H.held values.new))
        (map H.held values.old) }
    ensures held { All H.holds values.new }
{
    let mut kept = 0;
    for next in 0..values.len() {
        let block = values[next].held_network();
        if !lies_in_last(&values[..kept], block) {
            let (left, joined) = join_back(&values[..kept], block);
            values[left] = H::holding(joined);
            kept = left + 1;
        }
    }
    kept
}

// Returns whether the block lies in the last of the others.
fn lies_in_last<N: CidrNetwork, H: HoldsNetwork<N>>(front: &[H], block: N) -> bool
    requires { All H.holds front.now }
    ensures { IsTrue result ↔ LiesInLast N.WIDTH (map H.held front.now) (N.pair block) }
{
    match front.last() {
        Some(last) => lies_in(block, last.held_network()),
        None => false,
    }
}

// Returns whether the block lies in the network. Few blocks do, and nothing predicts which of two
// prefix lengths is the longer one: to compare these first takes 1.1 times as long, for the whole
// aggregate with the sort.
fn lies_in<N: CidrNetwork>(block: N, network: N) -> bool
    ensures { IsTrue result ↔ Subnet N.WIDTH (N.pair block) (N.pair network) }
{
    if !network.contains(block.ip()) {
        return false;
    }
    block.is_subnet_of(network)
}

// Joins the block with the last block in front, then the result with the one before that, and so on
// while the two are halves of one block. Returns how many blocks in front remain, and the block to
// put after them.
fn join_back<N: CidrNetwork, H: HoldsNetwork<N>>(front: &[H], block: N) -> (usize, N)
    requires held { All H.holds front.now }
    requires joined { AreJoined N.WIDTH (map H.held front.now) }
    requires block { IsCidrBlock N.WIDTH (N.pair block) }
    requires behind { All (λ a. high N.WIDTH a < (N.pair block).address) (map H.held front.now) }
    ensures left { result.0 ≤ length front.now }
    ensures joined { AreJoined N.WIDTH
        (take result.0 (map H.held front.now) ++ N.pair result.1 ∷ []) }
    ensures union { SameUnion N.WIDTH
        (take result.0 (map H.held front.now) ++ N.pair result.1 ∷ [])
        (map H.held front.now ++ N.pair block ∷ []) }
    ensures order { IsNetworkAtMost (N.pair result.1) (N.pair block) }
{
    let mut left = front.len();
    let mut joined = block;
    while left > 0 {
        match join(front[left - 1].held_network(), joined) {
            Some(whole) => {
                joined = whole;
                left -= 1;
            }
            None => return (left, joined),
        }
    }
    (left, joined)
}

// Returns the block whose halves are these two, if there is one. Their prefix lengths are compared
// last, as in `lies_in`.
fn join<N: CidrNetwork>(first: N, second: N) -> Option<N>
    ensures { MatchOption result (¬ (AreHalves N.WIDTH (N.pair first) (N.pair second)))
        (λ whole. AreHalves N.WIDTH (N.pair first) (N.pair second)
        × (N.pair whole ≡ parent N.WIDTH (N.pair first))) }
{
    let prefix = first.prefix();
    if prefix == 0 {
        return None;
    }
    let whole = N::block(first.ip(), prefix - 1)?;
    if !whole.contains(second.ip()) {
        return None;
    }
    if second.prefix() == prefix {
        Some(whole)
    } else {
        None
    }
}
