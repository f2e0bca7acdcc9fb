//! Whole reads and writes.
ghost use Rattle.std.specs.Prelude.{◌≡◌, ◌+◌, ◌≤◌, ◌<◌, ◌^◌, ◌++◌, [], List, ℕ, true, length, IfOk};
ghost use Rattle.std.specs.Prelude.{OnOk, IsTrue};
ghost use Rattle.std.specs.Io.KnownBytes.{Consumes, Appends, IsAtEnd};
ghost use Rattle.readers.specs.Program.{AppendsSome};

use std::alloc::Allocator;
use std::io::{ErrorKind, Read, Write};

/// Why the input was not read.
#[derive(Clone, Copy, Debug, PartialEq)]
pub(super) enum ReadFault {
    Unreadable,
    NoMemory,
}

/// The maximum number of bytes of one read.
const CHUNK: usize = 4096;

/// One read of at most `most` bytes after those of `bytes`. True at the end of the input.
fn read_some<A: Allocator, R: Read>(
    input: &mut R,
    bytes: &mut Vec<u8, A>,
    most: usize,
) -> Result<bool, ReadFault>
    requires positive { 0 < most }
    requires small { most ≤ CHUNK }
    ensures bytes { (read : List ℕ) × (bytes.new.items ≡ bytes.old.items ++ read)
        × (length read ≤ most)
        × Consumes (R.remaining input.old) (R.remaining input.new) read }
    ensures end { IfOk result (λ done. done ≡ true → IsAtEnd (R.remaining input.new)) }
{
    if bytes.reserve(most).is_err() {
        return Err(ReadFault::NoMemory);
    }
    let mut chunk = [0u8; CHUNK];
    match input.read(&mut chunk[..most]) {
        Ok(0) => Ok(true),
        Ok(n) => match bytes.extend_from_slice(&chunk[..n]) {
            Ok(()) => Ok(false),
            Err(_) => Err(ReadFault::NoMemory),
        },
        Err(e) if e.kind() == ErrorKind::Interrupted => Ok(false),
        Err(_) => Err(ReadFault::Unreadable),
    }
}

/// Reads to the end of the input, or until one byte more than `limit` is there.
pub(super) fn read_up_to<A: Allocator, R: Read>(
    input: &mut R,
    bytes: &mut Vec<u8, A>,
    limit: usize,
) -> Result<(), ReadFault>
    requires empty { bytes.old.items ≡ [] }
    requires small { limit < 2 ^ 32 }
    ensures bytes { Consumes (R.remaining input.old) (R.remaining input.new) bytes.new.items }
    ensures most { length bytes.new.items ≤ limit + 1 }
    ensures end { OnOk result (length bytes.new.items ≤ limit → IsAtEnd (R.remaining input.new)) }
{
    for _ in 0..u64::MAX {
        let room = limit + 1 - bytes.len();
        if room == 0 {
            return Ok(());
        }
        if read_some(input, bytes, room.min(CHUNK))? {
            return Ok(());
        }
    }
    Err(ReadFault::Unreadable)
}

/// Writes all of `bytes`, and answers whether it could.
pub(super) fn put<W: Write>(output: &mut W, bytes: &[u8]) -> bool
    ensures all { IsTrue result
        → Appends (W.contents output.old) (W.contents output.new) bytes.now }
    ensures some { AppendsSome (W.contents output.old) (W.contents output.new) bytes.now }
{
    let mut rest = bytes;
    for _ in 0..u64::MAX {
        if rest.is_empty() {
            return true;
        }
        match output.write(rest) {
            Ok(0) => return false,
            Ok(n) => {
                rest = &rest[n..];
                continue;
            }
            Err(e) => {
                if e.kind() != ErrorKind::Interrupted {
                    return false;
                }
            }
        }
    }
    false
}
