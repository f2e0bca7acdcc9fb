//! Errors whose mode can be changed.
ghost use Rattle.std.specs.Prelude.{◌≡◌};
ghost use Rattle.stream_errors.specs.Mode.{cut_of, backtrack_of};

use crate::has_kind::HasKind;
use crate::mode::ErrMode;

/// An error that determines whether other branches may be tried, and can change that.
///
/// ```
/// let error = EmptyError::from_input(&"");
/// assert_eq!(rt; ErrMode::Backtrack(error).cut(), ErrMode::Cut(error));
/// assert_eq!(rt; ErrMode::Cut(error).backtrack(), ErrMode::Backtrack(error));
/// ```
pub trait ModalError: HasKind {
    /// Changes the error such that no other branch is tried. Incomplete and out of memory are
    /// unchanged.
    fn cut(self) -> Self
        ensures { Self.kind result ≡ cut_of (Self.kind self) };

    /// Changes the error such that another branch may be tried. Incomplete and out of memory are
    /// unchanged.
    fn backtrack(self) -> Self
        ensures { Self.kind result ≡ backtrack_of (Self.kind self) };
}

#[tactic(auto, using(crate::specs::Mode::modes_change))]
impl<E: HasKind> ModalError for ErrMode<E> {
    #[inline(always)]
    fn cut(self) -> ErrMode<E> {
        match self {
            ErrMode::Backtrack(error) => ErrMode::Cut(error),
            other => other,
        }
    }

    #[inline(always)]
    fn backtrack(self) -> ErrMode<E> {
        match self {
            ErrMode::Cut(error) => ErrMode::Backtrack(error),
            other => other,
        }
    }
}
