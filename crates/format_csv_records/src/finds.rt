//! The search for a record at the start of bytes that arrive in chunks.

ghost use Rattle.std.specs.Prelude.{◌≡◌, ◌++◌, Err, List, ℕ, MatchOption, MatchResult};
ghost use Rattle.std.specs.Io.KnownBytes.{IsAtEnd};
ghost use Rattle.format_csv_records.specs.Extents.{IsExtentOf};
ghost use Rattle.format_csv_records.specs.Finds.{IsBoundedCapacity, IsFound, IsOfReader, WantsMore};
ghost use Rattle.format_csv_records.specs.Held.{GrewByReading, IsFull};

use crate::dialect::Dialect;
use crate::error::ReadError;
use crate::extent::RecordExtent;
use crate::read::InvalidRecord;
use crate::read_buffer::Buffer;
use std::alloc::Allocator;
use std::io::Read;

/// The result of the search in the bytes held.
pub(crate) enum Found {
    /// The bytes start with a record for any continuation, or no more bytes follow.
    Enough,
    /// No continuation of the bytes starts with a record.
    Never(InvalidRecord),
}

/// Returns the result for `held`, or `None` if more bytes are needed. Bytes that `extent` has
/// passed are not examined again.
#[tactic(none)]
fn look(dialect: Dialect, held: &[u8], extent: &mut RecordExtent) -> Option<Found>
    requires { IsExtentOf dialect extent.old held.now }
    ensures kept { (more : List ℕ) → IsExtentOf dialect extent.new (held.now ++ more) }
    ensures found { MatchOption result (WantsMore dialect held.now)
        (λ found. IsFound dialect held.now ⊥ found) }
{
    match extent.advance(dialect, held) {
        Ok(Some(_)) => Some(Found::Enough),
        Ok(None) => None,
        Err(fault) => Some(Found::Never(fault)),
    }
}

/// Reads until the bytes decide whether they start with a record.
#[tactic(none)]
pub(crate) fn find<R: Read, A: Allocator>(
    dialect: Dialect,
    source: &mut R,
    buffer: &mut Buffer<A>,
    extent: &mut RecordExtent,
) -> Result<Found, ReadError>
    requires { IsExtentOf dialect extent.old buffer.old.bytes }
    ensures of { IsExtentOf dialect extent.new buffer.new.bytes }
    ensures grew { GrewByReading buffer.old.bytes buffer.new.bytes (R.remaining source.old)
        (R.remaining source.new) }
    ensures found { MatchResult result
        (λ found. IsFound dialect buffer.new.bytes (IsAtEnd (R.remaining source.new)) found)
        (λ error. IsOfReader error × WantsMore dialect buffer.new.bytes) }
    ensures small { IsBoundedCapacity dialect buffer.old.size buffer.new.size buffer.new.bytes }
    ensures full { result ≡ Err ReadError.OutOfMemory → IsFull buffer.new }
{
    loop {
        match look(dialect, buffer.held(), extent) {
            Some(found) => return Ok(found),
            None => {}
        }
        match buffer.fill(source) {
            Ok(count) => {
                if count == 0 {
                    return Ok(Found::Enough);
                }
            }
            Err(error) => return Err(error),
        }
    }
}
