//! Converts networks of either family to and from JSON values (RFC 8259): a network is the string
//! of its canonical text.
ghost use Rattle.std.specs.Prelude.{IfOk};
ghost use Rattle.serde_json.specs.Find.{as_str};
ghost use Rattle.serde_json.specs.View.{view};
ghost use Rattle.ipnetwork_family.specs.JsonValues.{IsStringOf, ReadsValue};
ghost use Rattle.ipnetwork.specs.IpNetworkText.{ParsesIpNetwork, ip_network_text};

use crate::IpNetwork;
use ipnetwork_family::JsonFault;
use serde_json::Value;
use std::alloc::{AllocError, Global};

impl IpNetwork {
    /// Returns the canonical text as a string value. Allocates once; returns `AllocError` if out of
    /// memory.
    ///
    /// ```
    /// let network: IpNetwork = "10.1.9.32/8".parse()?;
    /// let text = network.to_value(rt.alloc())?.to_string(rt.alloc())?;
    /// assert_eq!(rt; text.as_str(), "\"10.1.9.32/8\"");
    /// ```
    pub fn to_value(&self, alloc: Global) -> Result<Value, AllocError>
        ensures { IfOk result (IsStringOf (ip_network_text self.now)) }
    {
        Value::try_from_str(alloc, self.canonical().as_str())
    }

    /// Reads the network of either family that a string value names, as `parse` does. If `parse`
    /// returns an error, this returns `Refused` with it; for a value that is not a string it
    /// returns `NotAString`. Allocates at most once, only for an error that carries a text; if that
    /// allocation fails, the error is `Refused(IpNetworkError::OutOfMemory)`.
    ///
    /// ```
    /// let value = serde_json::Value::try_from_str(rt.alloc(), "10.1.9.32/8")?;
    /// let network = IpNetwork::from_value(rt.alloc(), &value)?;
    /// assert_eq!(rt; network.prefix(), 8);
    /// ```
    pub fn from_value(alloc: Global, value: &Value) -> Result<Self, JsonFault>
        ensures { ReadsValue ParsesIpNetwork (as_str (view value.now)) result }
    {
        match value.as_str() {
            Some(text) => match IpNetwork::parse(alloc, text) {
                Ok(network) => Ok(network),
                Err(error) => Err(JsonFault::Refused(error)),
            },
            None => Err(JsonFault::NotAString),
        }
    }
}
