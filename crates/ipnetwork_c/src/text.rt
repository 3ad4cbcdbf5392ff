//! Puts texts into a C buffer.
ghost use Rattle.ipnetwork_c.specs.Answers.{PutsText};
ghost use Rattle.ipnetwork_c.specs.Private.Texts.{CopiesText};
ghost use Rattle.ipnetwork_addr.specs.Either.{canonical_ip};
ghost use Rattle.ipnetwork.specs.IpNetworkText.{ip_network_text};

use crate::fault::{OK, SHORT_BUFFER};
use ipnetwork::{IpAddr, IpNetwork};

/// Puts a text at the front of a buffer, with a zero byte after it. Nothing else changes. Returns
/// `false` if there is no room, and then nothing changes.
pub(crate) fn put(text: &[u8], buffer: &mut [u8]) -> bool
    ensures { CopiesText text.now buffer.old buffer.new result }
{
    let end = text.len();
    if end >= buffer.len() {
        return false;
    }
    buffer[..end].copy_from_slice(text);
    buffer[end] = 0;
    true
}

/// Puts a text into a buffer, and its length into `length`. Returns `SHORT_BUFFER` if there is no
/// room for the text, and then puts only the length.
pub(crate) fn tell(text: &[u8], buffer: &mut [u8], length: &mut usize) -> u32
    ensures { PutsText text.now (buffer.old, length.old) (buffer.new, length.new) result }
{
    *length = text.len();
    if put(text, buffer) { OK } else { SHORT_BUFFER }
}

/// Puts the canonical text of a network of either family, as `tell` does.
pub(crate) fn tell_network(network: &IpNetwork, buffer: &mut [u8], length: &mut usize) -> u32
    ensures { PutsText (ip_network_text network.now) (buffer.old, length.old)
        (buffer.new, length.new) result }
{
    tell(network.canonical().as_str().as_bytes(), buffer, length)
}

/// Puts the canonical text of an address of either family, as `tell` does.
pub(crate) fn tell_address(address: &IpAddr, buffer: &mut [u8], length: &mut usize) -> u32
    ensures { PutsText (canonical_ip address.now) (buffer.old, length.old)
        (buffer.new, length.new) result }
{
    tell(address.canonical().as_str().as_bytes(), buffer, length)
}
