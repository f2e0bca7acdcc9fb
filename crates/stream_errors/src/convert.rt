//! Errors that become errors of parsers over another input.
ghost use Rattle.std.specs.Prelude.{◌≡◌, refl};

use crate::context_error::ContextError;
use crate::control::ControlError;
use crate::empty::EmptyError;
use crate::has_kind::HasKind;
use crate::mode::ErrMode;
use std::alloc::Allocator;

/// An error that becomes one of another type, as of a parser over the bits of bytes. The kind
/// stays: it backtracks, cuts, is incomplete with the same need, or is out of memory, as before.
///
/// ```
/// let converted: ErrMode<InputError<Bits<&[u8]>>> =
///     ErrMode::Cut(InputError::at(b"a".as_slice())).convert();
/// assert_eq!(rt; converted, ErrMode::Cut(InputError::at(Bits(b"a".as_slice(), 0))));
/// ```
pub trait ErrorConvert<E: HasKind>: HasKind {
    /// The error as one of the other type, of the same kind.
    fn convert(self) -> E
        ensures kind { E.kind result ≡ Self.kind self };

    // Both types have the same kinds: they are plain, or have a mode.
    ghost one_form: { Self.form ≡ E.form };
}

/// An input of which another can be made, for an error that keeps it. Each input is one of itself.
///
/// ```
/// let same: &[u8] = b"ab".as_slice().convert_input();
/// assert_eq!(rt; same, b"ab".as_slice());
/// ```
pub trait ConvertInput<J> {
    // The possible results of converting an input.
    ghost converts: { Self → J → Type 0 };

    /// The other input.
    fn convert_input(self) -> J
        ensures { converts self result };
}

impl<I> ConvertInput<I> for I {
    ghost converts = { λ input other. other ≡ input };

    #[inline(always)]
    fn convert_input(self) -> I {
        self
    }
}

impl ErrorConvert<EmptyError> for EmptyError {
    #[inline(always)]
    fn convert(self) -> EmptyError {
        self
    }

    ghost one_form = { refl };
}

impl ErrorConvert<ControlError> for ControlError {
    #[inline(always)]
    fn convert(self) -> ControlError {
        self
    }

    ghost one_form = { refl };
}

impl<C, A: Allocator> ErrorConvert<ContextError<C, A>> for ContextError<C, A> {
    #[inline(always)]
    fn convert(self) -> ContextError<C, A> {
        self
    }

    ghost one_form = { refl };
}

impl<E: ErrorConvert<F>, F: HasKind> ErrorConvert<ErrMode<F>> for ErrMode<E> {
    #[inline]
    fn convert(self) -> ErrMode<F> {
        match self {
            ErrMode::Backtrack(error) => ErrMode::Backtrack(error.convert()),
            ErrMode::Cut(error) => ErrMode::Cut(error.convert()),
            ErrMode::Incomplete(needed) => ErrMode::Incomplete(needed),
        }
    }

    ghost one_form = { refl };
}
