//! `map_err`, `map_err_kept`, `err_into`: each error becomes one of the same kind.
ghost use Rattle.example_callers.specs.Premises.{One};
ghost use Rattle.winnow.specs.Bytes.{bytes_input, bytes_reading};
ghost use Rattle.winnow.specs.Exact.{Reads};

use winnow::Parser;
use winnow::error::{EmptyError, ErrMode, HasKind};
use winnow::token::impls::Any;

/// The first byte; `map_err` gives the error a mode. It fails, by a backtrack, where there is none.
///
/// ```
/// use example_callers::premises::errors::mode_over_bytes;
///
/// assert_eq!(rt; mode_over_bytes(&mut b"a".as_slice()).ok(), Some(b'a'));
/// assert!(rt; mode_over_bytes(&mut b"".as_slice()).is_err());
/// ```
pub fn mode_over_bytes<'i>(input: &mut &'i [u8]) -> Result<u8, ErrMode<EmptyError>>
    ensures { Reads bytes_reading ⟦<ErrMode<EmptyError> as HasKind>⟧.kind One
        (bytes_input input.old.now) result (bytes_input input.new.now) }
{
    Any.map_err(|error: EmptyError| ErrMode::Backtrack(error))
        .read(input)
}

/// The first byte; `map_err_kept` leaves the error as it is. It fails, by a backtrack, where there
/// is none.
///
/// ```
/// use example_callers::premises::errors::kept_over_bytes;
///
/// assert_eq!(rt; kept_over_bytes(&mut b"a".as_slice()), Ok(b'a'));
/// assert!(rt; kept_over_bytes(&mut b"".as_slice()).is_err());
/// ```
pub fn kept_over_bytes<'i>(input: &mut &'i [u8]) -> Result<u8, EmptyError>
    ensures { Reads bytes_reading ⟦<EmptyError as HasKind>⟧.kind One
        (bytes_input input.old.now) result (bytes_input input.new.now) }
{
    Any.map_err_kept(|error: EmptyError| error).read(input)
}

/// The first byte; `err_into` makes the error one of its own type. It fails, by a backtrack, where
/// there is none.
///
/// ```
/// use example_callers::premises::errors::converted_over_bytes;
///
/// assert_eq!(rt; converted_over_bytes(&mut b"a".as_slice()), Ok(b'a'));
/// assert!(rt; converted_over_bytes(&mut b"".as_slice()).is_err());
/// ```
pub fn converted_over_bytes<'i>(input: &mut &'i [u8]) -> Result<u8, EmptyError>
    ensures { Reads bytes_reading ⟦<EmptyError as HasKind>⟧.kind One
        (bytes_input input.old.now) result (bytes_input input.new.now) }
{
    Parser::<_, _, EmptyError>::err_into::<EmptyError>(Any).read(input)
}
