//! Writing commands of Redis.

ghost use Rattle.std.specs.Prelude.{◌≡◌, ◌⊎◌, []};
ghost use Rattle.std.specs.Fmt.{decimal};
ghost use Rattle.exported.specs.Code.{buffer_too_small, done, invalid};
ghost use Rattle.exported.specs.Output.{Fills, IsTooLong, Puts, slices_of};
ghost use Rattle.format_resp.specs.Written.{command_of, data_of, marked};

use crate::code::{BUFFER_TOO_SMALL, DONE, INVALID};
use crate::output::{Bytes, put_byte, put_bytes};

/// Writes the digits of a number. It calls itself once for each digit but the last.
fn put_digits(number: usize, at: usize, buffer: &mut [u8]) -> usize
    ensures { Puts (decimal number) at buffer.old result buffer.new }
{
    if number < 10 {
        return put_byte(b'0' + number as u8, at, buffer);
    }
    let end = put_digits(number / 10, at, buffer);
    put_byte(b'0' + (number % 10) as u8, end, buffer)
}

/// Writes a line of a mark and a size.
fn put_size(mark: u8, size: usize, at: usize, buffer: &mut [u8]) -> usize
    ensures { Puts (marked mark (decimal size)) at buffer.old result buffer.new }
{
    let end = put_byte(mark, at, buffer);
    let end = put_digits(size, end, buffer);
    put_bytes(b"\r\n", end, buffer)
}

/// Writes a bulk string.
fn put_bulk(bytes: &[u8], at: usize, buffer: &mut [u8]) -> usize
    ensures { Puts (data_of 36 bytes.now) at buffer.old result buffer.new }
{
    let end = put_size(b'$', bytes.len(), at, buffer);
    let end = put_bytes(bytes, end, buffer);
    put_bytes(b"\r\n", end, buffer)
}

/// Writes a command, as far as there is room, and returns its length.
fn put_command(parts: &[Bytes], buffer: &mut [u8]) -> usize
    ensures { Puts (command_of (slices_of parts.now)) 0 buffer.old result buffer.new }
{
    let mut end = put_size(b'*', parts.len(), 0, buffer);
    for number in 0..parts.len() {
        end = put_bulk(parts[number].bytes, end, buffer);
    }
    end
}

/// Writes a Redis command as clients send it: an array of bulk strings, the first of which is its
/// name.
///
/// `DONE`: the command is written at the start of `buffer`, and its length into `out`. The other
/// bytes of the buffer are unchanged.
///
/// The function does not allocate. If the buffer is too small, nothing is written into it.
///
/// # Errors
///
/// `BUFFER_TOO_SMALL`: the command is longer than the buffer. Its length is written.
///
/// `INVALID`: there are no parts. 0 is written. A server does not respond to an empty array.
///
/// After an error the buffer is unchanged.
///
/// # Safety
///
/// `parts` must be valid for reads of `parts_length` entries, and the bytes of each entry for reads
/// of its length. They must not change during the call. `buffer` must be valid for writes of
/// `buffer_length` bytes, and `out` for writes of one length. These two must not overlap each other
/// or the others. The call needs 16 KiB of stack.
#[unsafe(no_mangle)]
pub extern "C" fn exported_resp_command(parts: &[Bytes], buffer: &mut [u8], out: &mut usize) -> u32
    ensures command { result ≡ done → Fills (command_of (slices_of parts.now)) buffer.old buffer.new
        out.new }
    ensures small { result ≡ buffer_too_small
        → IsTooLong (command_of (slices_of parts.now)) buffer.old out.new }
    ensures kept { (result ≡ done → ⊥) → buffer.new ≡ buffer.old }
    ensures refused { result ≡ invalid → (parts.now ≡ []) × (out.new ≡ 0) }
    ensures some { (result ≡ invalid → ⊥) → parts.now ≡ [] → ⊥ }
    ensures codes { (result ≡ done) ⊎ ((result ≡ buffer_too_small) ⊎ (result ≡ invalid)) }
{
    *out = 0;
    if parts.is_empty() {
        return INVALID;
    }
    let size = put_command(parts, &mut []);
    *out = size;
    if size > buffer.len() {
        return BUFFER_TOO_SMALL;
    }
    put_command(parts, buffer);
    DONE
}
