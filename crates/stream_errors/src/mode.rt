//! Errors with a mode.

ghost use Rattle.stream_errors.specs.Form.{modal, modal-not_plain};
ghost use Rattle.stream_errors.specs.Join.{inner_grows, inner_join_grows};
ghost use Rattle.stream_errors.specs.Mode.{mode_kind, as_inner, MapsMode};

use crate::empty::EmptyError;
use crate::has_kind::HasKind;
use crate::parser_error::ParserError;
use streams::needed::Needed;
use streams::stream::Stream;

/// An error with the way in which the parsers around it treat it.
///
/// Its kind is memory if the inner error is marked so. Otherwise it is that of the variant. `N` is
/// [`Needed`] wherever the error is used.
///
/// ```
/// let error: ErrMode<u8, Needed> = ErrMode::Backtrack(1);
/// assert_eq!(rt; error.map(|v: u8| v == 1), ErrMode::Backtrack(true));
/// ```
#[derive(Debug, PartialEq, Drop)]
pub enum ErrMode<E, N = Needed> {
    /// Another branch may be tried.
    Backtrack(E),
    /// No other branch is tried.
    Cut(E),
    /// More input may change the result.
    Incomplete(N),
}

/// The result of a parser whose errors have a mode. winnow's default error is `ContextError`.
///
/// ```
/// fn key<'i>(input: &mut &'i str) -> ModalResult<&'i str> {
///     terminated(Alpha1, '=').parse_next(input)
/// }
///
/// assert_eq!(rt; key(&mut "a=1"), Ok("a"));
/// ```
pub type ModalResult<O, E = EmptyError> = Result<O, ErrMode<E>>;

impl<E, N> ErrMode<E, N> {
    /// Applies `f` to the inner error, and keeps the mode. `f` is called once, and not for an
    /// incomplete error.
    #[inline(always)]
    pub fn map<F, G: FnOnce(E) -> F + Drop>(self, f: G) -> ErrMode<F, N>
        requires { G.IsAlwaysCallable f }
        ensures { MapsMode (G.post f) self result }
    {
        match self {
            ErrMode::Backtrack(error) => ErrMode::Backtrack(f(error)),
            ErrMode::Cut(error) => ErrMode::Cut(f(error)),
            ErrMode::Incomplete(needed) => ErrMode::Incomplete(needed),
        }
    }
}

impl<E: HasKind> HasKind for ErrMode<E> {
    ghost kind = { λ e. mode_kind E.kind e };

    ghost form = { modal };
}

impl<I: Stream, E: ParserError<I>> ParserError<I> for ErrMode<E> {
    type Inner = E;

    ghost inner_kind = { λ e. as_inner (E.kind e) };

    ghost or_grows = { inner_join_grows E.or_grows };

    ghost append_grows = { inner_grows E.append_grows };

    #[inline(always)]
    fn from_input(input: &I) -> ErrMode<E> {
        ErrMode::Backtrack(E::from_input(input))
    }

    #[inline(always)]
    fn assert(input: &I, _message: &'static str) -> ErrMode<E> {
        ErrMode::Cut(E::from_input(input))
    }

    #[inline(always)]
    fn incomplete(_input: &I, needed: Needed) -> ErrMode<E> {
        ErrMode::Incomplete(needed)
    }

    #[inline(always)]
    fn no_memory(input: &I) -> ErrMode<E> {
        ErrMode::Backtrack(E::no_memory(input))
    }

    #[inline]
    fn or(self, other: ErrMode<E>) -> ErrMode<E> {
        match self {
            ErrMode::Backtrack(first) => match other {
                ErrMode::Backtrack(second) => ErrMode::Backtrack(first.or(second)),
                other => {
                    if first.is_memory() {
                        ErrMode::Backtrack(first)
                    } else {
                        other
                    }
                }
            },
            ErrMode::Cut(first) => match other {
                ErrMode::Backtrack(second) | ErrMode::Cut(second) => {
                    if second.is_memory() {
                        ErrMode::Cut(second)
                    } else {
                        ErrMode::Cut(first)
                    }
                }
                ErrMode::Incomplete(needed) => {
                    if first.is_memory() {
                        ErrMode::Cut(first)
                    } else {
                        ErrMode::Incomplete(needed)
                    }
                }
            },
            ErrMode::Incomplete(needed) => {
                if ParserError::<I>::is_memory(&other) {
                    other
                } else {
                    ErrMode::Incomplete(needed)
                }
            }
        }
    }

    #[inline]
    fn append(self, input: &I, token_start: &I::Checkpoint) -> ErrMode<E> {
        match self {
            ErrMode::Backtrack(error) => ErrMode::Backtrack(error.append(input, token_start)),
            other => other,
        }
    }

    #[inline(always)]
    fn is_backtrack(&self) -> bool {
        match self {
            ErrMode::Backtrack(error) => !error.is_memory(),
            _ => false,
        }
    }

    #[inline(always)]
    fn is_incomplete(&self) -> bool {
        match self {
            ErrMode::Incomplete(_) => true,
            _ => false,
        }
    }

    #[inline(always)]
    fn is_memory(&self) -> bool {
        match self {
            ErrMode::Backtrack(error) => error.is_memory(),
            ErrMode::Cut(error) => error.is_memory(),
            ErrMode::Incomplete(_) => false,
        }
    }

    #[inline(always)]
    fn needed(&self) -> Option<Needed> {
        match self {
            ErrMode::Incomplete(needed) => Some(*needed),
            _ => None,
        }
    }

    #[inline(always)]
    fn into_inner(self) -> Result<E, ErrMode<E>> {
        match self {
            ErrMode::Backtrack(error) => Ok(error),
            ErrMode::Cut(error) => Ok(error),
            ErrMode::Incomplete(needed) => Err(ErrMode::Incomplete(needed)),
        }
    }

    ghost plain_kinds = { λ e. modal-not_plain e };
}
