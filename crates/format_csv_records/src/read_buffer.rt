//! Bytes that were read and are not let go, in one buffer.

ghost use Rattle.std.specs.Prelude.{◌≡◌, ◌⊎◌, ◌≤◌, ◌<◌, ◌+◌, ◌*◌, ◌^◌, [], drop, length};
ghost use Rattle.std.specs.Prelude.{Err, MatchResult, max};
ghost use Rattle.std.specs.Io.KnownBytes.{IsAtEnd};
ghost use Rattle.format_csv_records.specs.Finds.{IsOfReader};
ghost use Rattle.format_csv_records.specs.Held.{GrewByReading, IsFull};

use crate::error::ReadError;
use crate::refill::{make_room, read_behind};
use std::alloc::Allocator;
use std::io::Read;
use std::marker::Model;

/// The bytes from `start` to `filled` are held. Those before were let go, and those after are room.
#[derive(Drop)]
pub(crate) struct Buffer<A: Allocator> {
    bytes: Vec<u8, A>,
    start: usize,
    filled: usize,
}

impl<A: Allocator> Model for Buffer<A> {
    ghost use Rattle.format_csv_records.specs.Held.{Held, IsHeld, held_of};

    ghost Value = { Held };

    ghost view = { held_of };

    ghost invariant = { IsHeld };
}

impl<A: Allocator> Buffer<A> {
    /// Returns an empty buffer, without allocating.
    pub(crate) fn new(alloc: A) -> Buffer<A>
        ensures { (result.bytes ≡ []) × (result.size ≡ 0) }
    {
        Buffer {
            bytes: Vec::new(alloc),
            start: 0,
            filled: 0,
        }
    }

    /// The bytes that are held.
    #[inline]
    pub(crate) fn held(&self) -> &[u8]
        ensures { result.now ≡ self.now.bytes }
    {
        &self.bytes.as_slice()[..self.filled][self.start..]
    }

    /// How many bytes there is room for in all.
    #[inline]
    pub(crate) fn size(&self) -> usize
        ensures { result ≡ self.now.size }
    {
        self.bytes.len()
    }

    /// Lets the first of them go.
    #[inline]
    pub(crate) fn consume(&mut self, count: usize)
        requires { count ≤ length self.old.bytes }
        ensures bytes { self.new.bytes ≡ drop count self.old.bytes }
        ensures size { self.new.size ≡ self.old.size }
    {
        self.start += count;
    }

    /// Reads once and returns the number of bytes read, which is 0 only at the end of the source.
    /// It allocates only if the bytes held are at least half of the buffer.
    pub(crate) fn fill<R: Read>(&mut self, source: &mut R) -> Result<usize, ReadError>
        ensures grew { GrewByReading self.old.bytes self.new.bytes (R.remaining source.old)
            (R.remaining source.new) }
        ensures told { MatchResult result
            (λ n. (length self.new.bytes ≡ length self.old.bytes + n)
            × (n ≡ 0 → IsAtEnd (R.remaining source.new)))
            (λ error. IsOfReader error × (self.new.bytes ≡ self.old.bytes)) }
        ensures few { length self.new.bytes < 2 ^ 63 }
        ensures size { (self.new.size ≡ self.old.size)
            ⊎ (self.new.size ≤ max 8192 (4 * length self.old.bytes)) }
        ensures full { result ≡ Err ReadError.OutOfMemory → IsFull self.new }
    {
        if make_room(&mut self.bytes, &mut self.start, &mut self.filled).is_err() {
            return Err(ReadError::OutOfMemory);
        }
        match read_behind(source, self.bytes.as_mut_slice(), self.filled) {
            Ok(count) => {
                self.filled += count;
                Ok(count)
            }
            Err(error) => Err(ReadError::Failed(error)),
        }
    }
}
