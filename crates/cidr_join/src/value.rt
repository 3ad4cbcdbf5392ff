//! The value of a network of a list.
ghost use Rattle.std.specs.Prelude.{◌≡◌};

/// The value of a network of a list: the text that follows it in its line.
#[derive(Clone, Copy, Debug)]
pub struct Value<'a> {
    bytes: &'a [u8],
}

impl<'a> Value<'a> {
    /// Creates a value of these bytes.
    pub(crate) fn new(bytes: &'a [u8]) -> Value<'a>
        ensures { result.bytes.now ≡ bytes.now }
    {
        Value { bytes }
    }

    /// Returns its bytes.
    pub(crate) fn bytes(self) -> &'a [u8]
        ensures { result.now ≡ self.entry.bytes.now }
    {
        self.bytes
    }
}
