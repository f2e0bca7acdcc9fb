//! `length_and_then`, `length_repeat`: the same tokens give the same length.
ghost use Rattle.example_callers.specs.Premises.{SizedBytes, SizedLetters};
ghost use Rattle.winnow.specs.Bytes.{bytes_input, bytes_reading};
ghost use Rattle.winnow.specs.Exact.{Reads};

use std::alloc::Allocator;
use winnow::Parser;
use winnow::ascii::impls::Alpha1;
use winnow::binary::impls::U8;
use winnow::binary::{length_and_then, length_repeat};
use winnow::error::{EmptyError, HasKind};
use winnow::token::impls::Any;

/// Parses a length `n` and `n` bytes, and returns the letters that these start with, by
/// `length_and_then`. Discards the rest of the `n` bytes. Backtracks if there are fewer bytes, or
/// if the first of them is not a letter.
///
/// ```
/// use example_callers::premises::lengths::letters_behind_length;
///
/// let mut input = b"\x02a1b".as_slice();
/// assert_eq!(rt; letters_behind_length(&mut input), Ok(b"a".as_slice()));
/// assert_eq!(rt; input, b"b".as_slice());
/// ```
pub fn letters_behind_length<'i>(input: &mut &'i [u8]) -> Result<&'i [u8], EmptyError>
    ensures { Reads bytes_reading ⟦<EmptyError as HasKind>⟧.kind SizedLetters
        (bytes_input input.old.now) result (bytes_input input.new.now) }
{
    length_and_then(U8, Alpha1).read(input)
}

/// Parses a length `n` and returns the `n` bytes after it, by `length_repeat`. Backtracks if there
/// are fewer bytes. Otherwise an error is out of memory.
///
/// ```
/// use example_callers::premises::lengths::bytes_behind_length;
///
/// let mut input = b"\x02abc".as_slice();
/// assert!(rt; bytes_behind_length(alloc, &mut input).is_ok());
/// assert_eq!(rt; input, b"c".as_slice());
/// ```
pub fn bytes_behind_length<'i, A: Allocator + Copy>(
    alloc: A,
    input: &mut &'i [u8],
) -> Result<Vec<u8, A>, EmptyError>
    ensures { Reads bytes_reading ⟦<EmptyError as HasKind>⟧.kind SizedBytes
        (bytes_input input.old.now) result (bytes_input input.new.now) }
{
    length_repeat(alloc, U8, Any).read(input)
}
