//! The parts of replies as bytes.
ghost use Rattle.format_resp.specs.Resp.{IsLineByte};
ghost use Rattle.format_resp.specs.Written.{IsPrefixOf, LacksRoom, data_of, marked};
ghost use Rattle.std.specs.Fmt.{decimal, signed_decimal};
ghost use Rattle.std.specs.List.{AllByRecursion};
ghost use Rattle.std.specs.Prelude.{◌≡◌, ◌≤◌, ◌++◌, ◌∷◌, [], MatchBool, OnErr, OnOk};
ghost use Rattle.std.specs.Prelude.{vec_capacity};

use memchr::memchr2;
use std::alloc::{AllocError, Allocator};

/// Appends a byte.
fn put<B: Allocator>(byte: u8, into: &mut Vec<u8, B>) -> Result<(), AllocError>
    ensures written { OnOk result (into.new.items ≡ into.old.items ++ byte ∷ []) }
    ensures kept { OnErr result (into.new.items ≡ into.old.items) }
    ensures capacity { vec_capacity into.old ≤ vec_capacity into.new }
    ensures full { OnErr result (LacksRoom into.old (byte ∷ [])) }
{
    match into.push(byte) {
        Ok(()) => Ok(()),
        Err(_) => Err(AllocError),
    }
}

/// Appends the first byte of a reply, the contents of its line, and the line ending. It does not
/// check that the contents are a line; use [`is_line`].
///
/// The only error is out of memory. Part of the output may have been appended then. This also holds
/// for each function here except [`write_reply`] and [`write_command`].
///
/// ```
/// use format_resp::parts::write_line;
///
/// let mut bytes = Vec::new(alloc);
/// assert!(rt; write_line(b'+', b"OK", &mut bytes).is_ok());
/// assert_eq!(rt; bytes.as_slice(), b"+OK\r\n".as_slice());
/// ```
pub fn write_line<B: Allocator>(
    mark: u8,
    line: &[u8],
    into: &mut Vec<u8, B>,
) -> Result<(), AllocError>
    ensures written { OnOk result (into.new.items ≡ into.old.items ++ marked mark line.now) }
    ensures kept { IsPrefixOf into.old.items into.new.items }
    ensures capacity { vec_capacity into.old ≤ vec_capacity into.new }
    ensures full { OnErr result (LacksRoom into.old (marked mark line.now)) }
{
    put(mark, into)?;
    into.extend_from_slice(line)?;
    into.extend_from_slice(b"\r\n")?;
    Ok(())
}

/// Appends the digits of a number. It calls itself once for each digit but the last.
fn write_digits<B: Allocator>(number: u64, into: &mut Vec<u8, B>) -> Result<(), AllocError>
    ensures written { OnOk result (into.new.items ≡ into.old.items ++ decimal number) }
    ensures kept { IsPrefixOf into.old.items into.new.items }
    ensures capacity { vec_capacity into.old ≤ vec_capacity into.new }
    ensures full { OnErr result (LacksRoom into.old (decimal number)) }
{
    if number < 10 {
        put(b'0' + number as u8, into)?;
        return Ok(());
    }
    write_digits(number / 10, into)?;
    put(b'0' + (number % 10) as u8, into)?;
    Ok(())
}

/// Appends a number, with a minus sign if it is negative.
fn write_signed<B: Allocator>(number: i64, into: &mut Vec<u8, B>) -> Result<(), AllocError>
    ensures written { OnOk result (into.new.items ≡ into.old.items ++ signed_decimal number) }
    ensures kept { IsPrefixOf into.old.items into.new.items }
    ensures capacity { vec_capacity into.old ≤ vec_capacity into.new }
    ensures full { OnErr result (LacksRoom into.old (signed_decimal number)) }
{
    if number >= 0 {
        return write_digits(number.unsigned_abs(), into);
    }
    put(b'-', into)?;
    write_digits(number.unsigned_abs(), into)
}

/// Appends a line of the first byte of a reply and a size.
///
/// ```
/// use format_resp::parts::write_size;
///
/// let mut bytes = Vec::new(alloc);
/// assert!(rt; write_size(b'*', 12, &mut bytes).is_ok());
/// assert_eq!(rt; bytes.as_slice(), b"*12\r\n".as_slice());
/// ```
pub fn write_size<B: Allocator>(
    mark: u8,
    size: usize,
    into: &mut Vec<u8, B>,
) -> Result<(), AllocError>
    ensures written { OnOk result (into.new.items ≡ into.old.items ++ marked mark (decimal size)) }
    ensures kept { IsPrefixOf into.old.items into.new.items }
    ensures capacity { vec_capacity into.old ≤ vec_capacity into.new }
    ensures full { OnErr result (LacksRoom into.old (marked mark (decimal size))) }
{
    put(mark, into)?;
    write_digits(size as u64, into)?;
    into.extend_from_slice(b"\r\n")?;
    Ok(())
}

/// Appends an integer.
///
/// ```
/// use format_resp::parts::write_integer;
///
/// let mut bytes = Vec::new(alloc);
/// assert!(rt; write_integer(-7, &mut bytes).is_ok());
/// assert_eq!(rt; bytes.as_slice(), b":-7\r\n".as_slice());
/// ```
pub fn write_integer<B: Allocator>(number: i64, into: &mut Vec<u8, B>) -> Result<(), AllocError>
    ensures written { OnOk result
        (into.new.items ≡ into.old.items ++ marked 58 (signed_decimal number)) }
    ensures kept { IsPrefixOf into.old.items into.new.items }
    ensures capacity { vec_capacity into.old ≤ vec_capacity into.new }
    ensures full { OnErr result (LacksRoom into.old (marked 58 (signed_decimal number))) }
{
    put(b':', into)?;
    write_signed(number, into)?;
    into.extend_from_slice(b"\r\n")?;
    Ok(())
}

/// Appends the first byte of a reply with the number of bytes on a line, and the bytes followed by
/// a line ending.
///
/// ```
/// use format_resp::parts::write_data;
///
/// let mut bytes = Vec::new(alloc);
/// assert!(rt; write_data(b'$', b"a\r\nb", &mut bytes).is_ok());
/// assert_eq!(rt; bytes.as_slice(), b"$4\r\na\r\nb\r\n".as_slice());
/// ```
pub fn write_data<B: Allocator>(
    mark: u8,
    bytes: &[u8],
    into: &mut Vec<u8, B>,
) -> Result<(), AllocError>
    ensures written { OnOk result (into.new.items ≡ into.old.items ++ data_of mark bytes.now) }
    ensures kept { IsPrefixOf into.old.items into.new.items }
    ensures capacity { vec_capacity into.old ≤ vec_capacity into.new }
    ensures full { OnErr result (LacksRoom into.old (data_of mark bytes.now)) }
{
    write_size(mark, bytes.len(), into)?;
    into.extend_from_slice(bytes)?;
    into.extend_from_slice(b"\r\n")?;
    Ok(())
}

/// Returns whether no byte is of a line ending: a carriage return or a line feed.
///
/// ```
/// use format_resp::parts::is_line;
///
/// assert!(rt; is_line(b"ERR unknown command") && !is_line(b"ERR\nno"));
/// ```
pub fn is_line(bytes: &[u8]) -> bool
    ensures { MatchBool result (AllByRecursion IsLineByte bytes.now)
        (AllByRecursion IsLineByte bytes.now → ⊥) }
{
    memchr2(b'\r', b'\n', bytes).is_none()
}
