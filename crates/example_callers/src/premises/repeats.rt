//! `fold`, `repeat_till`: the item backtracks and takes tokens, and the closures stay as they are.
ghost use Rattle.example_callers.specs.Premises.{Greatest, UpToMark};
ghost use Rattle.std.specs.Prelude.{◌≡◌, max};
ghost use Rattle.winnow.specs.Bytes.{bytes_input, bytes_reading};
ghost use Rattle.winnow.specs.Exact.{Reads};
ghost use Rattle.winnow.specs.Grammar.Inversion.{Byte};

use std::alloc::Allocator;
use winnow::Parser;
use winnow::combinator::{repeat, repeat_till};
use winnow::error::{EmptyError, HasKind};
use winnow::token::impls::Any;

/// The byte to begin with.
fn least() -> u8
    ensures { result ≡ 0 }
{
    0
}

/// The greater of two bytes.
fn greater(most: u8, byte: u8) -> u8
    ensures { result ≡ max most byte }
{
    most.max(byte)
}

/// The greatest of all bytes, and 0 where there are none, by `fold`. No input makes it
/// fail.
///
/// ```
/// use example_callers::premises::repeats::greatest_byte;
///
/// assert_eq!(rt; greatest_byte(alloc, &mut b"acb".as_slice()), Ok(b'c'));
/// assert_eq!(rt; greatest_byte(alloc, &mut b"".as_slice()), Ok(0));
/// ```
pub fn greatest_byte<'i, A: Allocator + Copy>(
    alloc: A,
    input: &mut &'i [u8],
) -> Result<u8, EmptyError>
    ensures { Reads bytes_reading ⟦<EmptyError as HasKind>⟧.kind Greatest
        (bytes_input input.old.now) result (bytes_input input.new.now) }
{
    repeat(alloc, 0.., Any).fold(least, greater).read(input)
}

/// Parses the bytes up to the first semicolon, and the semicolon, by `repeat_till`. Backtracks if
/// there is no semicolon. Otherwise an error is out of memory.
///
/// ```
/// use example_callers::premises::repeats::bytes_up_to_mark;
///
/// let mut input = b"ab;c".as_slice();
/// assert!(rt; bytes_up_to_mark(alloc, &mut input).is_ok());
/// assert_eq!(rt; input, b"c".as_slice());
/// ```
pub fn bytes_up_to_mark<'i, A: Allocator + Copy>(
    alloc: A,
    input: &mut &'i [u8],
) -> Result<(Vec<u8, A>, u8), EmptyError>
    ensures { Reads bytes_reading ⟦<EmptyError as HasKind>⟧.kind (UpToMark (Byte 59))
        (bytes_input input.old.now) result (bytes_input input.new.now) }
{
    repeat_till(alloc, 0.., Any, b';').read(input)
}
