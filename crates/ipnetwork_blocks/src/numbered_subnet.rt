//! One of the blocks of a prefix length within a network, by its number.
ghost use Rattle.std.specs.Prelude.{◌≡◌, ◌-◌, ◌*◌, ◌^◌, ◌<◌, ◌≤◌, ◌⊎◌, ◌↔◌, IsTrue, MatchOption};
ghost use Rattle.ipnetwork_blocks.specs.Subnets.{subnet_number};

use crate::address_space::AddressSpace;

/// Returns block number `number` of this prefix length within the network: the one that
/// [`subnets`](crate::subnets) yields after `number` others. Returns `None` if `prefix` is shorter
/// than the network's own prefix length n or greater than `WIDTH`, or if `number` is not below
/// 2^(`prefix` - n). Takes a few steps, whatever the number.
///
/// ```
/// let network: Ipv4Network = "10.0.0.0/8".parse()?;
/// assert_eq!(rt; subnet_at(network, 16, 255), Some("10.255.0.0/16".parse()?));
/// assert_eq!(rt; subnet_at(network, 16, 256), None);
/// ```
pub fn subnet_at<N: AddressSpace>(network: N, prefix: u8, number: u128) -> Option<N>
    ensures { MatchOption result
        ((prefix < (N.pair network).prefix) ⊎ (N.WIDTH < prefix)
        ⊎ (2 ^ (prefix - (N.pair network).prefix) ≤ number))
        (λ block. ((N.pair network).prefix ≤ prefix) × (prefix ≤ N.WIDTH)
        × (number < 2 ^ (prefix - (N.pair network).prefix))
        × (N.pair block ≡ subnet_number N.WIDTH (N.pair network) prefix number)) }
{
    if prefix < network.prefix() || N::WIDTH < prefix {
        return None;
    }
    if !is_below_power(number, prefix - network.prefix()) {
        return None;
    }
    let offset = times_power(number, N::WIDTH - prefix);
    Some(N::block_at(N::plus(network.network(), offset), prefix))
}

// Returns whether the number is below 2^`exponent`.
fn is_below_power(number: u128, exponent: u8) -> bool
    ensures { IsTrue result ↔ (number < 2 ^ exponent) }
{
    exponent >= 128 || number >> exponent == 0
}

// Returns the number times 2^`exponent`, which must fit in 128 bits. Zero is tested first because
// 128 bits cannot be shifted by 128.
fn times_power(number: u128, exponent: u8) -> u128
    requires { number * 2 ^ exponent < 2 ^ 128 }
    ensures { result ≡ number * 2 ^ exponent }
{
    if number == 0 {
        return 0;
    }
    number << exponent
}
