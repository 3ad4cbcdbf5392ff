//! Bytes gathered in a slice that the caller lends.
ghost use Rattle.std.specs.Prelude.{◌≡◌, ◌+◌, ◌==◌, ◌≤◌, if◌then◌else◌, [], ◌∷◌, length};

use std::marker::Model;

/// Bytes that are gathered at the front of a lent slice: none at first, and at most as many as the
/// slice is long.
///
/// No call allocates.
///
/// ```
/// let mut slice = [0; 9];
/// let mut buffer = lines::buffer::Buffer::new(&mut slice);
/// buffer.push_bytes(b"too long");
/// buffer.push(b'\n');
/// assert_eq!(rt; buffer.as_slice(), b"too long\n".as_slice());
/// ```
#[derive(Drop)]
pub struct Buffer<'a> {
    slice: &'a mut [u8],
    count: usize,
}

impl<'a> Model for Buffer<'a> {
    ghost use Rattle.std.specs.Prelude.{◌≤◌, length, take};
    ghost use Rattle.lines.specs.Buffers.{Filled};

    ghost Value = { Filled };

    ghost view = { λ b. record {
      items = take b.count b.slice.now;
      capacity = length b.slice.now;
    } };

    ghost invariant = { λ b. b.count ≤ length b.slice.now };
}

impl<'a> Buffer<'a> {
    ghost use Rattle.lines.specs.Buffers.{HasRoom, Adds, IsCleared};

    /// Creates an empty buffer in the slice.
    ///
    /// ```
    /// let mut slice = [0; 9];
    /// let mut buffer = lines::buffer::Buffer::new(&mut slice);
    /// assert_eq!(rt; buffer.remaining(), 9);
    /// ```
    pub fn new(slice: &'a mut [u8]) -> Buffer<'a>
        ensures empty { result.items ≡ [] }
        ensures capacity { result.capacity ≡ length slice.old }
    {
        Buffer { slice, count: 0 }
    }

    /// Returns whether the buffer is empty.
    ///
    /// ```
    /// let mut slice = [0; 9];
    /// let mut buffer = lines::buffer::Buffer::new(&mut slice);
    /// assert!(rt; buffer.is_empty());
    /// buffer.push(b'1');
    /// assert!(rt; !buffer.is_empty());
    /// ```
    pub fn is_empty(&self) -> bool
        ensures { result ≡ (length self.now.items == 0) }
    {
        self.count == 0
    }

    /// Returns how many more bytes fit in the buffer.
    ///
    /// ```
    /// let mut slice = [0; 9];
    /// let mut buffer = lines::buffer::Buffer::new(&mut slice);
    /// buffer.push_bytes(b"10/8");
    /// assert_eq!(rt; buffer.remaining(), 5);
    /// ```
    pub fn remaining(&self) -> usize
        ensures { length self.now.items + result ≡ self.now.capacity }
    {
        self.slice.len() - self.count
    }

    /// Returns the bytes in the buffer.
    ///
    /// ```
    /// let mut slice = [0; 9];
    /// let mut buffer = lines::buffer::Buffer::new(&mut slice);
    /// buffer.push_bytes(b"10/8");
    /// assert_eq!(rt; buffer.as_slice(), b"10/8".as_slice());
    /// ```
    pub fn as_slice(&self) -> &[u8]
        ensures bytes { result.now ≡ self.now.items }
        ensures within { length result.now ≤ self.now.capacity }
    {
        &self.slice[..self.count]
    }

    /// Removes all bytes.
    ///
    /// ```
    /// let mut slice = [0; 9];
    /// let mut buffer = lines::buffer::Buffer::new(&mut slice);
    /// buffer.push_bytes(b"10/8");
    /// buffer.clear();
    /// assert_eq!(rt; (buffer.is_empty(), buffer.remaining()), (true, 9));
    /// ```
    pub fn clear(&mut self)
        ensures { IsCleared self.old self.new }
    {
        self.count = 0;
    }

    /// Adds these bytes at the end. There must be room for them.
    ///
    /// ```
    /// let mut slice = [0; 9];
    /// let mut buffer = lines::buffer::Buffer::new(&mut slice);
    /// buffer.push_bytes(b"10");
    /// buffer.push_bytes(b"/8");
    /// assert_eq!(rt; buffer.as_slice(), b"10/8".as_slice());
    /// ```
    #[inline(always)]
    pub fn push_bytes(&mut self, bytes: &[u8])
        requires { HasRoom self.old (length bytes.now) }
        ensures { Adds self.old self.new bytes.now }
    {
        let end = self.count + bytes.len();
        self.slice[self.count..end].copy_from_slice(bytes);
        self.count = end;
    }

    /// Adds these bytes at the end if `is_added` is true, or adds none; both take the same time.
    /// There must be room for the bytes either way.
    ///
    /// ```
    /// let mut slice = [0; 9];
    /// let mut buffer = lines::buffer::Buffer::new(&mut slice);
    /// buffer.push_bytes_if(b"10", true);
    /// buffer.push_bytes_if(b".1", false);
    /// buffer.push_bytes_if(b"/8", true);
    /// assert_eq!(rt; buffer.as_slice(), b"10/8".as_slice());
    /// ```
    #[inline(always)]
    pub fn push_bytes_if(&mut self, bytes: &[u8], is_added: bool)
        requires { HasRoom self.old (length bytes.now) }
        ensures { Adds self.old self.new (if is_added then bytes.now else []) }
    {
        let end = self.count + bytes.len();
        self.slice[self.count..end].copy_from_slice(bytes);
        self.count += if is_added { bytes.len() } else { 0 };
    }

    /// Adds this byte at the end. There must be room for it.
    ///
    /// ```
    /// let mut slice = [0; 9];
    /// let mut buffer = lines::buffer::Buffer::new(&mut slice);
    /// buffer.push(b'o');
    /// buffer.push(b'k');
    /// assert_eq!(rt; buffer.as_slice(), b"ok".as_slice());
    /// ```
    #[inline(always)]
    pub fn push(&mut self, byte: u8)
        requires { HasRoom self.old 1 }
        ensures { Adds self.old self.new (byte ∷ []) }
    {
        self.slice[self.count] = byte;
        self.count += 1;
    }
}
