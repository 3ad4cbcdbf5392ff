//! Networks in a JSON list: each is read and written back as its canonical text.

use ipnetwork::{IpNetwork, JsonFault};
use serde_json::Value;
use std::io;

pub fn run(rt: &HostRuntime) -> io::Result<()> {
    let list = "[\"10.1.9.32/255.255.0.0\", \"2001:DB8::/032\", \"10/8\", 10]";
    let Ok(Value::Array(values)) = Value::from_str(rt.alloc(), list) else {
        return println!(rt; "no list");
    };
    for value in values.iter() {
        match IpNetwork::from_value(rt.alloc(), value) {
            Ok(network) => {
                let value = network.to_value(rt.alloc())?;
                println!(rt; "{value}")?;
            }
            Err(JsonFault::NotAString) => println!(rt; "not a string")?,
            Err(JsonFault::Refused(error)) => println!(rt; "refused: {error}")?,
        }
    }
    Ok(())
}
