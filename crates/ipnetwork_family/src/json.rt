//! Networks to and from JSON values (RFC 8259): a network is a string, its canonical text.
ghost use Rattle.std.specs.Prelude.{IfOk};
ghost use Rattle.serde_json.specs.Find.{as_str};
ghost use Rattle.serde_json.specs.View.{view};
ghost use Rattle.ipnetwork_family.specs.Family.{ParsesNetworkOf, text_of};
ghost use Rattle.ipnetwork_family.specs.JsonValues.{IsStringOf, ReadsValue};

use crate::{Address, IpNetworkError, Network};
use serde_json::Value;
use std::alloc::{AllocError, Global};

/// Why a JSON value is refused as a network.
///
/// ```
/// let value = serde_json::from_str::<serde_json::Value>(rt.alloc(), "8")?;
/// assert_eq!(rt; Ipv4Network::from_value(rt.alloc(), &value), Err(JsonFault::NotAString));
/// ```
#[derive(Debug, PartialEq, Eq, Drop)]
pub enum JsonFault {
    /// The value is not a string: null, a Boolean, a number, an array or an object.
    NotAString,
    /// The value is a string, which parsing refuses with this error.
    Refused(IpNetworkError),
}

impl<A: Address> Network<A> {
    /// The canonical text as a string value. Allocates once; `AllocError` when out of memory.
    ///
    /// ```
    /// let network: Ipv4Network = "10.1.9.32/8".parse()?;
    /// let text = network.to_value(rt.alloc())?.to_string(rt.alloc())?;
    /// assert_eq!(rt; text.as_str(), "\"10.1.9.32/8\"");
    /// ```
    pub fn to_value(&self, alloc: Global) -> Result<Value, AllocError>
        ensures { IfOk result (IsStringOf (text_of A.family self.now)) }
    {
        Value::try_from_str(alloc, self.canonical().as_str())
    }

    /// The network that a string value names, read as by `parse`. A string that `parse` refuses is
    /// `Refused` with its error, and any other value is `NotAString`. Allocates at most once, for
    /// an error that carries a text; without memory for it, the error is
    /// `Refused(IpNetworkError::OutOfMemory)`.
    ///
    /// ```
    /// let value = serde_json::Value::try_from_str(rt.alloc(), "10.1.9.32/8")?;
    /// let network = Ipv4Network::from_value(rt.alloc(), &value)?;
    /// assert_eq!(rt; network.prefix(), 8);
    /// ```
    pub fn from_value(alloc: Global, value: &Value) -> Result<Self, JsonFault>
        ensures { ReadsValue (ParsesNetworkOf A.family) (as_str (view value.now)) result }
    {
        match value.as_str() {
            Some(text) => match Network::<A>::parse(alloc, text) {
                Ok(network) => Ok(network),
                Err(error) => Err(JsonFault::Refused(error)),
            },
            None => Err(JsonFault::NotAString),
        }
    }
}
