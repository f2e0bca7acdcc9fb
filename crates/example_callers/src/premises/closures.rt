//! `map`, `verify`, `try_map`: the closure is unchanged by calls, and rejects either all outputs of
//! the same tokens or none of them.
ghost use Rattle.example_callers.specs.Premises.{TokenAfterSpace, Digit, IsValue, One};
ghost use Rattle.std.specs.Prelude.{◌≡◌, ◌<◌, ◌↔◌, ℕ, IsTrue, MatchResult};
ghost use Rattle.winnow.specs.Bytes.{bytes_input, bytes_reading};
ghost use Rattle.winnow.specs.Exact.{Reads};
ghost use Rattle.winnow.specs.Grammar.Meaning.{Meaning};

use winnow::Parser;
use winnow::error::{EmptyError, HasKind};
use winnow::token::impls::Any;

/// A byte as a longer number.
fn number_of(byte: u8) -> u32
    ensures { result ≡ byte }
{
    u32::from(byte)
}

/// The number of the first byte, by `map`. It fails, by a backtrack, where there is none.
///
/// ```
/// use example_callers::premises::closures::mapped_byte;
///
/// let mut input = b"a1".as_slice();
/// assert_eq!(rt; mapped_byte(&mut input), Ok(97));
/// assert_eq!(rt; input, b"1".as_slice());
/// ```
pub fn mapped_byte<'i>(input: &mut &'i [u8]) -> Result<u32, EmptyError>
    ensures { Reads bytes_reading ⟦<EmptyError as HasKind>⟧.kind (Meaning (λ o u. u ≡ o) One)
        (bytes_input input.old.now) result (bytes_input input.new.now) }
{
    Any.map(number_of).read(input)
}

/// Whether a byte is above the space.
fn is_dark(byte: &u8) -> bool
    ensures { IsTrue result ↔ (32 < byte.now) }
{
    *byte > 32
}

/// Parses a byte greater than the space, by `verify`. Backtracks, without consuming input, if there
/// is no byte or another one.
///
/// ```
/// use example_callers::premises::closures::verified_byte;
///
/// let mut input = b" a".as_slice();
/// assert!(rt; verified_byte(&mut input).is_err());
/// assert_eq!(rt; verified_byte(&mut b"a".as_slice()), Ok(b'a'));
/// ```
pub fn verified_byte<'i>(input: &mut &'i [u8]) -> Result<u8, EmptyError>
    ensures { Reads bytes_reading ⟦<EmptyError as HasKind>⟧.kind TokenAfterSpace
        (bytes_input input.old.now)
        result (bytes_input input.new.now) }
{
    Any.verify(is_dark).read(input)
}

/// The value of a digit.
fn value_of(byte: u8) -> Result<u8, ()>
    ensures { MatchResult result (λ n. IsValue byte n) (λ _. (n : ℕ) → IsValue byte n → ⊥) }
{
    match byte {
        b'0'..=b'9' => Ok(byte - 48),
        _ => Err(()),
    }
}

/// Parses a decimal digit of bytes and returns its value, by `try_map`. Backtracks if the input
/// does not start with a digit.
///
/// ```
/// use example_callers::premises::closures::digit_of_bytes;
///
/// assert_eq!(rt; digit_of_bytes(&mut b"7a".as_slice()), Ok(7));
/// assert!(rt; digit_of_bytes(&mut b"a".as_slice()).is_err());
/// ```
pub fn digit_of_bytes<'i>(input: &mut &'i [u8]) -> Result<u8, EmptyError>
    ensures { Reads bytes_reading ⟦<EmptyError as HasKind>⟧.kind Digit (bytes_input input.old.now)
        result (bytes_input input.new.now) }
{
    Any.try_map(value_of).read(input)
}
