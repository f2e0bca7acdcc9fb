//! One read of bytes that are to come after others, and room for them.

ghost use Rattle.std.specs.Prelude.{◌≡◌, ◌⊎◌, ◌≤◌, ◌<◌, ◌+◌, ◌-◌, ◌*◌, ◌++◌, [], List, ℕ};
ghost use Rattle.std.specs.Prelude.{◌≢◌, drop};
ghost use Rattle.std.specs.Prelude.{IfErr, IfOk, MatchResult, OnErr, OnOk, length, max, take};
ghost use Rattle.std.specs.IoError.{error_kind};
ghost use Rattle.std.specs.Io.KnownBytes.{Consumes, IsAtEnd};

use std::alloc::{AllocError, Allocator};
use std::io::{self, ErrorKind, Read};

/// How many bytes a buffer has room for at first.
const FIRST_SIZE: usize = 8192;

/// Reads once into `bytes`, after the first `filled`, and returns the number of bytes read, which
/// is 0 only at the end of the source. Interrupted reads are retried; 2^64 of them are an error.
pub(crate) fn read_behind<R: Read>(
    source: &mut R,
    bytes: &mut [u8],
    filled: usize,
) -> io::Result<usize>
    requires { filled < length bytes.old }
    ensures size { length bytes.new ≡ length bytes.old }
    ensures fits { IfOk result (λ n. filled + n ≤ length bytes.new) }
    ensures read { (read : List ℕ)
        × (take (filled + length read) bytes.new ≡ take filled bytes.old ++ read)
        × Consumes (R.remaining source.old) (R.remaining source.new) read
        × MatchResult result (λ n. n ≡ length read) (λ _. read ≡ []) }
    ensures end { IfOk result (λ n. n ≡ 0 → IsAtEnd (R.remaining source.new)) }
    ensures retried { IfErr result (λ e. error_kind e ≢ ErrorKind.Interrupted) }
{
    let mut tries = 0u64;
    loop {
        match source.read(&mut bytes[filled..]) {
            Ok(count) => return Ok(count),
            Err(error) => {
                if error.kind() != ErrorKind::Interrupted {
                    return Err(error);
                }
                if tries == u64::MAX {
                    return Err(io::Error::other("interrupted too often"));
                }
                tries += 1;
            }
        }
    }
}

/// Moves the bytes from `start` to `filled` to the front if at least as many unused bytes precede
/// them. So all moves together cost no more than those unused bytes.
fn move_to_front<A: Allocator>(bytes: &mut Vec<u8, A>, start: &mut usize, filled: &mut usize)
    requires start { start.old ≤ filled.old }
    requires filled { filled.old ≤ length bytes.old.items }
    ensures start { start.new ≤ filled.new }
    ensures filled { filled.new ≤ length bytes.new.items }
    ensures same { drop start.new (take filled.new bytes.new.items)
        ≡ drop start.old (take filled.old bytes.old.items) }
    ensures few { start.new ≤ filled.new - start.new }
    ensures held { filled.new - start.new ≡ filled.old - start.old }
    ensures size { length bytes.new.items ≡ length bytes.old.items }
{
    let held = *filled - *start;
    if *start < held {
        return;
    }
    bytes.copy_within(*start..*filled, 0);
    *start = 0;
    *filled = held;
}

/// Sees to it that there is room after the bytes from `start` to `filled`, which stay, in order.
pub(crate) fn make_room<A: Allocator>(
    bytes: &mut Vec<u8, A>,
    start: &mut usize,
    filled: &mut usize,
) -> Result<(), AllocError>
    requires start { start.old ≤ filled.old }
    requires filled { filled.old ≤ length bytes.old.items }
    ensures start { start.new ≤ filled.new }
    ensures filled { filled.new ≤ length bytes.new.items }
    ensures same { drop start.new (take filled.new bytes.new.items)
        ≡ drop start.old (take filled.old bytes.old.items) }
    ensures room { OnOk result (filled.new < length bytes.new.items) }
    ensures size { (length bytes.new.items ≡ length bytes.old.items)
        ⊎ (length bytes.new.items ≤ max 8192 (4 * (filled.old - start.old))) }
    ensures full { OnErr result (length bytes.new.items ≤ 2 * (filled.new - start.new)) }
{
    move_to_front(bytes, start, filled);
    if *filled < bytes.len() {
        return Ok(());
    }
    let size = bytes.len().saturating_mul(2).max(FIRST_SIZE);
    bytes.resize(size, 0)
}
