//! The beginning of a text, for messages.

/// The most bytes of an excerpt.
const EXCERPT_MAX: usize = 64;

/// The beginning of a text, for messages: at most 64 bytes.
///
/// ```
/// assert_eq!(rt; lists::Excerpt::of(b"10/8").bytes(), b"10/8".as_slice());
/// ```
#[derive(Clone, Copy, Debug)]
pub struct Excerpt {
    bytes: [u8; EXCERPT_MAX],
    len: usize,
    is_string: bool,
}

impl Excerpt {
    /// Returns the excerpt of an empty text.
    ///
    /// ```
    /// assert!(rt; lists::Excerpt::empty().bytes().is_empty());
    /// ```
    pub fn empty() -> Excerpt {
        Excerpt {
            bytes: [0; EXCERPT_MAX],
            len: 0,
            is_string: false,
        }
    }

    /// Returns the excerpt of a text.
    ///
    /// ```
    /// let text = [b'1'].repeat(rt.alloc(), 65)?;
    /// assert_eq!(rt; lists::Excerpt::of(&text).bytes().len(), 64);
    /// ```
    pub fn of(text: &[u8]) -> Excerpt {
        let mut excerpt = Excerpt::empty();
        let count = text.len().min(EXCERPT_MAX);
        excerpt.bytes[..count].copy_from_slice(&text[..count]);
        excerpt.len = text.len();
        excerpt
    }

    // Returns the excerpt of a string of a document.
    pub(crate) fn of_string(text: &[u8]) -> Excerpt {
        Excerpt {
            is_string: true,
            ..Excerpt::of(text)
        }
    }

    // Returns whether the text is a string of a document.
    pub(crate) fn is_string(&self) -> bool {
        self.is_string
    }

    /// Returns the bytes.
    ///
    /// ```
    /// assert_eq!(rt; lists::Excerpt::of(b"::1").bytes(), b"::1".as_slice());
    /// ```
    pub fn bytes(&self) -> &[u8] {
        &self.bytes[..self.len.min(EXCERPT_MAX)]
    }

    /// Returns whether the text is longer than the excerpt.
    ///
    /// ```
    /// assert!(rt; !lists::Excerpt::of(b"::1").is_cut());
    /// ```
    pub fn is_cut(&self) -> bool {
        self.len > EXCERPT_MAX
    }
}
