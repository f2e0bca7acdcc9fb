//! Parsers of ASCII text, as winnow's documentation has them: those of escapes.
#![tactic(auto, using(streams::specs::Ends::ends_follow))]

ghost use Rattle.std.specs.Prelude.{◌≡◌};
ghost use Rattle.winnow_escapes.specs.Escaped.{escaped_control, escaped_escape, escaped_normal};
ghost use Rattle.winnow_escapes.specs.TakeEscaped.{take_escaped_control, take_escaped_escapable};
ghost use Rattle.winnow_escapes.specs.TakeEscaped.{take_escaped_normal};

pub mod impls;
mod turns;

use crate::ascii::impls::{Escaped, TakeEscaped};
use stream_errors::control::ControlError;
use stream_errors::parser_error::ParserError;
use streams::stream::StreamIsPartial;
use winnow_core::parser::Parser;

/// Takes text with escapes without unescaping it: turns of `normal`, or of `control` and then
/// `escapable`, while input remains. Returns the slice of all of them.
///
/// A turn is `normal`; if that backtracks, it is `control` and `escapable`, from the same offset.
/// If `control` does not match, the text ends with success, and the input that `control` consumed
/// stays consumed: it belongs to the slice. The same holds if `control` was cut off, since its
/// error cannot report that.
///
/// Another failure of `normal`, each failure of `escapable`, and out of memory of `control` are
/// returned unchanged, with the input where they left it. A turn that consumes no input is an
/// assert error. At the end of complete input it succeeds. At the end of partial input it is
/// incomplete with an unknown need, and the input stays at that end. Does not allocate.
///
/// ```
/// use winnow::ascii::take_escaped;
///
/// let mut string = take_escaped(Digit1, '\\', one_of(['"', 'n']));
/// assert_eq!(rt; string.parse_peek("12\\\"34;"), Ok::<_, EmptyError>((";", "12\\\"34")));
/// ```
#[inline(always)]
pub fn take_escaped<N, K, X, I, O, D, P, E>(
    normal: N,
    control: K,
    escapable: X,
) -> TakeEscaped<N, K, X, I, O, D, P, E>
where
    I: StreamIsPartial,
    O: Drop,
    D: Drop,
    P: Drop,
    E: ParserError<I>,
    N: Parser<I, O, E>,
    K: Parser<I, D, ControlError>,
    X: Parser<I, P, E>,
    ensures normal { take_escaped_normal result ≡ normal }
    ensures control { take_escaped_control result ≡ control }
    ensures escapable { take_escaped_escapable result ≡ escapable }
{
    TakeEscaped::new(normal, control, escapable)
}

/// Parses text with escapes, and accumulates its meaning: the outputs of `normal`, and those of
/// `escape` after a `control`.
///
/// A turn is `normal`; if that backtracks, it is `control` and `escape`, from the same offset.
/// Turns are read while input remains. If `control` does not match, the text ends with success, and
/// the input that `control` consumed stays consumed. The same holds if `control` was cut off, since
/// its error cannot report that.
///
/// Another failure of `normal`, each failure of `escape`, and out of memory of `control` are
/// returned unchanged, with the input where they left it. A turn that consumes no input is an
/// assert error. At the end of complete input it succeeds. At the end of partial input it is
/// incomplete with an unknown need, and the input stays at that end. Only the accumulator
/// allocates.
///
/// Known as `escaped_transform` in nom.
///
/// ```
/// use winnow::ascii::escaped;
///
/// let named = alt(("n".value("\n"), "\\".value("\\")));
/// let mut text = escaped(alloc, Alpha1, '\\', named);
/// let read: Result<String, EmptyError> = text.parse_next(&mut "ab\\ncd;");
/// assert!(rt; matches!(read, Ok(read) if read.as_str() == "ab\ncd"));
/// ```
#[inline(always)]
pub fn escaped<N, K, X, I, O, D, P, C, E, A>(
    alloc: A,
    normal: N,
    control: K,
    escape: X,
) -> Escaped<N, K, X, I, O, D, P, C, E, A>
    ensures normal { escaped_normal result ≡ normal }
    ensures control { escaped_control result ≡ control }
    ensures escape { escaped_escape result ≡ escape }
{
    Escaped::new(alloc, normal, control, escape)
}
