//! Numerals in use: what a number is written as.
#![tactic(auto)]

ghost use Rattle.winnow.specs.Bytes.{bytes_input, bytes_reading};
ghost use Rattle.winnow.specs.Exact.{Reads};
ghost use Rattle.example_callers.specs.Numerals.{IsOffset, IsPortNumber};

use winnow::Parser;
use winnow::ascii::impls::{DecInt, DecUint};
use winnow::error::{EmptyError, HasKind};

/// Parses a port number as `{}` writes it: all digits at the start of the input, or a single `0`.
/// Backtracks if the input does not start with a digit, or if the number is 65536 or more.
///
/// ```
/// use example_callers::numerals::port;
///
/// let mut input = b"8080/".as_slice();
/// assert_eq!(rt; port(&mut input), Ok(8080));
/// assert_eq!(rt; input, b"/".as_slice());
/// assert!(rt; port(&mut input).is_err());
/// ```
pub fn port<'i>(input: &mut &'i [u8]) -> Result<u16, EmptyError>
    ensures { Reads bytes_reading ⟦<EmptyError as HasKind>⟧.kind IsPortNumber
        (bytes_input input.old.now) result (bytes_input input.new.now) }
{
    DecUint.read(input)
}

/// Parses an offset as `{}` writes it, or with a `+` if it is positive: all digits there, or a
/// single `0`. Backtracks if the input does not start with such a number, or if it does not fit in
/// 16 bits.
///
/// ```
/// use example_callers::numerals::offset;
///
/// let mut input = b"-12;".as_slice();
/// assert_eq!(rt; offset(&mut input), Ok(-12));
/// assert_eq!(rt; offset(&mut b"+7".as_slice()), Ok(7));
/// assert!(rt; offset(&mut b"-0".as_slice()).is_err());
/// ```
pub fn offset<'i>(input: &mut &'i [u8]) -> Result<i16, EmptyError>
    ensures { Reads bytes_reading ⟦<EmptyError as HasKind>⟧.kind IsOffset
        (bytes_input input.old.now) result (bytes_input input.new.now) }
{
    DecInt.read(input)
}
