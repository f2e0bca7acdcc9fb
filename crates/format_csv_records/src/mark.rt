//! The search for a byte order mark at the start of a table.

ghost use Rattle.std.specs.Prelude.{◌≡◌, ◌⊎◌, ◌≤◌, length, Err, MatchResult};
ghost use Rattle.std.specs.Io.KnownBytes.{IsAtEnd};
ghost use Rattle.format_csv_records.specs.Finds.{IsOfReader};
ghost use Rattle.format_csv_records.specs.Held.{GrewByReading, IsFull};

use crate::error::ReadError;
use crate::read_buffer::Buffer;
use std::alloc::Allocator;
use std::io::Read;

/// Reads until the buffer holds the requested number of bytes, or the source ends.
#[tactic(none)]
pub(crate) fn fill_to<R: Read, A: Allocator>(
    source: &mut R,
    buffer: &mut Buffer<A>,
    count: usize,
) -> Result<(), ReadError>
    ensures grew { GrewByReading buffer.old.bytes buffer.new.bytes (R.remaining source.old)
        (R.remaining source.new) }
    ensures told { MatchResult result
        (λ _. (count ≤ length buffer.new.bytes) ⊎ IsAtEnd (R.remaining source.new))
        (λ error. IsOfReader error) }
    ensures full { result ≡ Err ReadError.OutOfMemory → IsFull buffer.new }
{
    loop {
        if buffer.held().len() >= count {
            return Ok(());
        }
        match buffer.fill(source) {
            Ok(more) => {
                if more == 0 {
                    return Ok(());
                }
            }
            Err(error) => return Err(error),
        }
    }
}
