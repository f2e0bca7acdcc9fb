//! Output into a buffer of the caller, as far as there is room.

ghost use Rattle.std.specs.Prelude.{◌∷◌, []};
ghost use Rattle.exported.specs.Output.{Puts};

/// A slice of bytes that the caller passes: a pointer and a length, in this order, as in `struct
/// iovec` of POSIX.
#[repr(C)]
#[derive(Clone, Copy, Drop)]
pub struct Bytes<'i> {
    /// The bytes. A null pointer is rejected, also if there are none.
    pub bytes: &'i [u8],
}

/// Writes bytes at an offset, if they fit, and returns the offset after them.
#[inline]
pub(crate) fn put_bytes(bytes: &[u8], at: usize, buffer: &mut [u8]) -> usize
    ensures { Puts bytes.now at buffer.old result buffer.new }
{
    let end = at.saturating_add(bytes.len());
    if end <= buffer.len() {
        buffer[at..end].copy_from_slice(bytes);
    }
    end
}

/// Writes a byte at an offset, if it fits, and returns the offset after it.
#[inline]
pub(crate) fn put_byte(byte: u8, at: usize, buffer: &mut [u8]) -> usize
    ensures { Puts (byte ∷ []) at buffer.old result buffer.new }
{
    if at < buffer.len() {
        buffer[at] = byte;
    }
    at.saturating_add(1)
}
