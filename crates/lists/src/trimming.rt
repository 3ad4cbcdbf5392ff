//! Trims texts.
ghost use Rattle.std.specs.Prelude.{◌≡◌, ◌≤◌, ℕ, Bool, length};
ghost use Rattle.std.specs.List.{prefix_len, suffix_len};
ghost use Rattle.lists.specs.Lines.{trimmed_by};

/// A kind of bytes: some of the 256.
///
/// ```
/// // The text after the bytes of a kind.
/// fn behind<K: lists::ByteKind>(text: &[u8]) -> &[u8] {
///     &text[lists::front_len::<K>(text)..]
/// }
///
/// assert_eq!(rt; behind::<lists::Blank>(b" # private"), b"# private".as_slice());
/// ```
pub trait ByteKind {
    // Whether a byte is of this kind, as contracts see it.
    ghost is_one: { ℕ → Bool };

    /// Whether a byte is of this kind.
    ///
    /// ```
    /// use lists::ByteKind;
    ///
    /// assert!(rt; lists::Blank::has(b' ') && !lists::Blank::has(b'#'));
    /// ```
    fn has(byte: u8) -> bool
        ensures { result ≡ is_one byte };
}

/// Spaces and tabs.
///
/// ```
/// assert_eq!(rt; lists::trim::<lists::Blank>(b"\t10.0.0.0/8 "), b"10.0.0.0/8".as_slice());
/// ```
pub struct Blank;

impl ByteKind for Blank {
    ghost use Rattle.lists.specs.Lines.{is_blank};

    ghost is_one = { is_blank };

    fn has(byte: u8) -> bool {
        byte == b' ' || byte == b'\t'
    }
}

/// Returns the text without the bytes of a kind around it.
///
/// ```
/// assert_eq!(rt; lists::trim::<lists::Blank>(b" 10.0.0.1 "), b"10.0.0.1".as_slice());
/// ```
pub fn trim<K: ByteKind>(text: &[u8]) -> &[u8]
    ensures { result.now ≡ trimmed_by K.is_one text.now }
{
    let rest = &text[front_len::<K>(text)..];
    &rest[..rest.len() - end_len::<K>(rest)]
}

/// Returns how many bytes of a kind the text begins with.
///
/// ```
/// assert_eq!(rt; lists::front_len::<lists::Blank>(b"  10.0.0.0/8"), 2);
/// ```
pub fn front_len<K: ByteKind>(text: &[u8]) -> usize
    ensures len { result ≡ prefix_len K.is_one text.now }
    ensures within { result ≤ length text.now }
{
    let mut count = 0;
    while count < text.len() && K::has(text[count]) {
        count += 1;
    }
    count
}

// Returns how many bytes of a kind the text ends with.
fn end_len<K: ByteKind>(text: &[u8]) -> usize
    ensures len { result ≡ suffix_len K.is_one text.now }
    ensures within { result ≤ length text.now }
{
    let mut end = text.len();
    while end > 0 && K::has(text[end - 1]) {
        end -= 1;
    }
    text.len() - end
}
