//! Laws on networks as JSON values.
ghost use Rattle.std.specs.Prelude.{◌≡◌, ◌<◌, ◌↔◌, Some, Result, Ok, IfOk, IfErr, string_bytes};
ghost use Rattle.serde_json.specs.Data.{string};
ghost use Rattle.serde_json.specs.Errors.{IsMemory};
ghost use Rattle.serde_json.specs.Written.{compact_text};
ghost use Rattle.ipnetwork_family.specs.JsonValues.{ReadsValue, in_quotes};
ghost use Rattle.ipnetwork_family.specs.declared.json.JsonFault.{JsonFault};
ghost use Rattle.ipnetwork.specs.IpNetworks.{IsIpNetwork};
ghost use Rattle.ipnetwork.specs.IpNetworkText.{ParsesIpNetwork, ip_network_text};

use super::{canonical_ip_network_bytes, canonical_ip_network_names_it, ip_network_text_names_one};
use crate::{IpNetwork, JsonFault};
use serde_json::{Error, Value};
use std::alloc::Global;

/// The compact text of a network's value is the canonical text in quotes: JSON escapes no byte of
/// it.
pub fn ip_network_stands_in_quotes()
    ensures { (n : IpNetwork) → IsIpNetwork n
        → compact_text (string (ip_network_text n)) ≡ in_quotes (ip_network_text n) }
{
    canonical_ip_network_bytes();
}

/// Reading the value of a network can only return that network.
pub fn ip_network_value_reads_back()
    ensures { (n : IpNetwork) (result : Result IpNetwork JsonFault) → IsIpNetwork n
        → ReadsValue ParsesIpNetwork (Some (ip_network_text n)) result ↔ (result ≡ Ok n) }
{
    ip_network_text_names_one();
    canonical_ip_network_names_it();
}

/// The compact text of a network's value is the canonical text in quotes, and parsing it and
/// reading the resulting value returns the same network. It only fails if out of memory.
pub fn ip_network_through_json(
    alloc: Global,
    network: &IpNetwork,
) -> Result<(String, Result<IpNetwork, JsonFault>), Error>
    ensures text { IfOk result
        (λ answer. string_bytes answer.0 ≡ in_quotes (ip_network_text network.now)) }
    ensures back { IfOk result (λ answer. answer.1 ≡ Ok network.now) }
    ensures err { IfErr result IsMemory }
{
    ip_network_stands_in_quotes();
    ip_network_value_reads_back();
    let _prefix = network.prefix();
    let text = network.to_value(alloc)?.to_string(alloc)?;
    let value = Value::from_str(alloc, text.as_str())?;
    let answer = IpNetwork::from_value(alloc, &value);
    Ok((text, answer))
}
