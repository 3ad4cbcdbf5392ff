//! The error for converting to the wrong family.

/// The network is of the other family.
///
/// ```
/// let network: IpNetwork = "2001:db8::/32".parse()?;
/// assert_eq!(rt; Ipv4Network::try_from(network), Err(WrongFamily));
/// ```
#[derive(Clone, Copy, Debug, PartialEq, Eq)]
pub struct WrongFamily;
