//! What would do in place of a refused text.
use crate::cutting::{after, before};
use crate::entry::EntryFault;
use crate::excerpt::Excerpt;
use crate::fault::LineFault;
use crate::masks::read_with_masks;
use crate::trimming::{Blank, trim};
use ipnetwork::{IpAddr, IpNetwork, Ipv4Addr};

/// Returns the network that the text of a refused line probably means, or `None` if that is not
/// clear. It is for messages, so no clause says what it is.
///
/// It knows IPv4 networks with fewer than four numbers (`10/8`) or with `*` for the last numbers
/// (`10.1.2.*`), an address and a mask or wildcard after it, and networks with host bits.
///
/// ```
/// use lists::{EntryFault, LineFault, meant};
///
/// let fault = LineFault::Entry(EntryFault::Address);
/// assert_eq!(rt; meant(fault, b"10/8"), Some("10.0.0.0/8".parse()?));
/// assert_eq!(rt; meant(fault, b"10.1.2.*"), Some("10.1.2.0/24".parse()?));
/// assert_eq!(rt; meant(fault, b"10.0.0.0 0.0.0.255"), Some("10.0.0.0/24".parse()?));
/// assert_eq!(rt; meant(fault, b"localhost"), None);
/// ```
pub fn meant(fault: LineFault, text: &[u8]) -> Option<IpNetwork> {
    let text = trim::<Blank>(text);
    match fault {
        LineFault::Entry(EntryFault::HostBits) => block_of(text),
        LineFault::Entry(EntryFault::Address) => match shortened(text) {
            Some(network) => Some(network),
            None => masked(text),
        },
        _ => None,
    }
}

/// Returns the network that an IPv4 address and a mask or wildcard after it probably mean, or `None`
/// if the second address is neither, or both, as 0.0.0.0 is. It is for messages, so no clause says
/// what it is.
///
/// ```
/// use lists::meant_by_mask;
///
/// let meant = meant_by_mask("10.0.0.0".parse()?, "0.0.0.255".parse()?);
/// assert_eq!(rt; meant, Some("10.0.0.0/24".parse()?));
/// assert_eq!(rt; meant_by_mask("10.0.0.0".parse()?, "10.0.0.255".parse()?), None);
/// ```
pub fn meant_by_mask(address: IpAddr, mask: IpAddr) -> Option<IpNetwork> {
    match (address, mask) {
        (IpAddr::V4(_), IpAddr::V4(mask)) => {
            let mask = u32::from(mask);
            let prefix = prefix_of(mask).or(prefix_of(!mask))?;
            IpNetwork::new(address, prefix).ok()
        }
        _ => None,
    }
}

/// Returns whether a refused text would be taken with masks (`Rules::takes_masks`). It is for
/// messages, so no clause says when. Strings of documents and texts that are cut are no such texts.
///
/// ```
/// use lists::{EntryFault, Excerpt, LineFault, would_take_masks};
///
/// let fault = LineFault::Entry(EntryFault::Address);
/// assert!(rt; would_take_masks(fault, &Excerpt::of(b"10.0.0.0 0.0.0.255 # office")));
/// assert!(rt; !would_take_masks(fault, &Excerpt::of(b"10.0.0.0 10.0.0.255")));
/// assert!(rt; !would_take_masks(fault, &Excerpt::empty()));
/// ```
pub fn would_take_masks(fault: LineFault, text: &Excerpt) -> bool {
    if fault != LineFault::Entry(EntryFault::Address) || text.is_string() || text.is_cut() {
        return false;
    }
    matches!(read_with_masks(text.bytes()), Ok(Some(_)))
}

// Returns the network that a text names, without its host bits.
fn block_of(text: &[u8]) -> Option<IpNetwork> {
    let network = IpNetwork::read_bytes(text).ok()?;
    IpNetwork::new(network.network(), network.prefix()).ok()
}

// Returns the IPv4 network of fewer than four numbers, or with `*` for the last numbers.
fn shortened(text: &[u8]) -> Option<IpNetwork> {
    let mut octets = [0u8; 4];
    let mut rest = before(text, b'/');
    let mut count = 0;
    'octets: while count < 4 {
        let Some(octet) = number_of(before(rest, b'.'), 255) else {
            break 'octets;
        };
        octets[count] = octet;
        count += 1;
        rest = after(rest, b'.');
    }
    if count == 0 || count == 4 {
        return None;
    }
    let prefix = if rest.is_empty() {
        number_of(after(text, b'/'), 32)?
    } else {
        prefix_of_stars(rest, count)?
    };
    let [a, b, c, d] = octets;
    IpNetwork::new(IpAddr::V4(Ipv4Addr::new(a, b, c, d)), prefix).ok()
}

// Returns the prefix length of this many octets if only stars, joined by dots, follow them.
fn prefix_of_stars(stars: &[u8], count: usize) -> Option<u8> {
    for place in 0..stars.len() {
        let wanted = if place % 2 == 0 { b'*' } else { b'.' };
        if stars[place] != wanted {
            return None;
        }
    }
    match count {
        1 => Some(8),
        2 => Some(16),
        3 => Some(24),
        _ => None,
    }
}

// Returns the number of one to three digits that a text is, if it is at most `max`.
fn number_of(digits: &[u8], max: u32) -> Option<u8> {
    if digits.is_empty() || digits.len() > 3 {
        return None;
    }
    let mut number = 0u32;
    for digit in digits {
        if !digit.is_ascii_digit() {
            return None;
        }
        let value = u32::from(digit.saturating_sub(b'0'));
        number = number.saturating_mul(10).saturating_add(value);
    }
    if number > max {
        return None;
    }
    u8::try_from(number).ok()
}

// Returns the network of an address and a mask or wildcard after it.
fn masked(text: &[u8]) -> Option<IpNetwork> {
    let address = Ipv4Addr::read_bytes(before(text, b' ')).ok()?;
    let mask = Ipv4Addr::read_bytes(trim::<Blank>(after(text, b' '))).ok()?;
    meant_by_mask(IpAddr::V4(address), IpAddr::V4(mask))
}

// Returns the prefix length of a mask, unless it is of all bits or of none, which a wildcard is
// too.
fn prefix_of(mask: u32) -> Option<u8> {
    let count = mask.count_ones();
    if count == 0 || count == 32 || count != mask.leading_ones() {
        return None;
    }
    u8::try_from(count).ok()
}
