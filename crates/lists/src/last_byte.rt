//! The last byte of a list.
ghost use Rattle.std.specs.Prelude.{◌≡◌};
ghost use Rattle.lists.specs.Stopped.{ends_with_feed};

/// Returns whether the last byte of a list is a line feed; one without any byte has none.
///
/// ```
/// assert!(rt; lists::ends_with_feed(b"10.0.0.0/8\n"));
/// assert!(rt; !lists::ends_with_feed(b"192.168.100.0/2") && !lists::ends_with_feed(b""));
/// ```
pub fn ends_with_feed(list: &[u8]) -> bool
    ensures { result ≡ ends_with_feed list.now }
{
    !list.is_empty() && list[list.len() - 1] == b'\n'
}
