//! A text that is expected to name a network.
ghost use Rattle.std.specs.Prelude.{◌≡◌};
ghost use Rattle.cidr_info.specs.Words.{network_in};

use ipnetwork::{IpNetwork, laws};
use std::marker::Model;

/// A word of the command line or the text of a line, and the network that it names, if it names
/// one.
#[derive(Debug, Drop)]
pub struct Said<'a> {
    // The number of its line, counted from 1, or 0 for a word of the command line.
    line: u64,
    text: &'a [u8],
    network: Option<IpNetwork>,
}

// Contracts see the network alone: the line and the text are for what is reported.
impl<'a> Model for Said<'a> {
    ghost use Rattle.std.specs.Prelude.{Option};
    ghost use Rattle.ipnetwork.specs.declared.ip_network.IpNetwork.{IpNetwork};

    ghost Value = { Option IpNetwork };

    ghost view = { λ said. said.network };
}

impl<'a> Said<'a> {
    /// Creates a `Said` from the number of its line, which is 0 for a word of the command line, and
    /// its text.
    pub(crate) fn new(line: u64, text: &'a [u8]) -> Said<'a>
        ensures { result ≡ network_in text.now }
    {
        Said {
            line,
            text,
            network: network_in(text),
        }
    }

    /// Returns the number of its line, or 0 for a word of the command line.
    pub(crate) fn line(&self) -> u64 {
        self.line
    }

    /// Returns the text.
    pub(crate) fn text(&self) -> &'a [u8] {
        self.text
    }

    /// Returns the network that the text names, if it names one.
    pub(crate) fn network(&self) -> Option<IpNetwork>
        ensures { result ≡ self.now }
    {
        self.network
    }
}

/// Returns the network that a text names, if it names one.
pub(crate) fn network_in(text: &[u8]) -> Option<IpNetwork>
    ensures { result ≡ network_in text.now }
{
    // This call does nothing: the proof of this body needs its law.
    laws::ip_network_reading_is_computed();
    IpNetwork::read_bytes(text).ok()
}
