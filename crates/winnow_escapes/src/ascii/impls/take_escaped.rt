//! Text with escapes, as it stands.
ghost use Rattle.std.specs.Prelude.{◌≡◌};
ghost use Rattle.parser_definitions.specs.Escaped.{Settled};
ghost use Rattle.parser_definitions.specs.Spelled.{ShowSame};
ghost use Rattle.parser_definitions.specs.TakeEscaped.{TakeEscapedDoes, take_escaped_law};
ghost use Rattle.winnow_escapes.specs.TakeEscaped.{take_escaped_control, take_escaped_escapable};
ghost use Rattle.winnow_escapes.specs.TakeEscaped.{take_escaped_normal};
ghost use Rattle.parser_definitions.specs.Terms.{no_claim, nothing_claimed};

use crate::ascii::impls::Escaped;
use stream_errors::control::ControlError;
use stream_errors::parser_error::ParserError;
use streams::stream::StreamIsPartial;
use winnow_core::combinator::impls::Take;
use winnow_core::parser::Parser;

/// The parser that [`take_escaped`](crate::ascii::take_escaped) makes: the slice of what is read
/// into nothing.
///
/// ```
/// let mut parser = take_escaped(Digit1, '\\', Any);
/// assert_eq!(rt; parser.parse_peek("1\\n;"), Ok::<_, EmptyError>((";", "1\\n")));
/// ```
#[derive(Drop)]
pub struct TakeEscaped<N, K, X, I, O, D, P, E> {
    pub(crate) taken: Take<Escaped<N, K, X, I, O, D, P, (), E, ()>, I, (), E>,
}

impl<
    N: Parser<I, O, E>,
    K: Parser<I, D, ControlError>,
    X: Parser<I, P, E>,
    I: StreamIsPartial,
    O: Drop,
    D: Drop,
    P: Drop,
    E: ParserError<I>,
> TakeEscaped<N, K, X, I, O, D, P, E> {
    #[inline(always)]
    pub(crate) fn new(normal: N, control: K, escapable: X) -> TakeEscaped<N, K, X, I, O, D, P, E>
        ensures normal { take_escaped_normal result ≡ normal }
        ensures control { take_escaped_control result ≡ control }
        ensures escapable { take_escaped_escapable result ≡ escapable }
    {
        let turns: Escaped<N, K, X, I, O, D, P, (), E, ()> = Escaped::new(
            (),
            normal,
            control,
            escapable,
        );
        TakeEscaped {
            taken: Parser::<I, (), E>::take(turns),
        }
    }
}

impl<
    N: Parser<I, O, E>,
    K: Parser<I, D, ControlError>,
    X: Parser<I, P, E>,
    I: StreamIsPartial,
    O: Drop,
    D: Drop,
    P: Drop,
    E: ParserError<I>,
> Parser<I, I::Slice, E> for TakeEscaped<N, K, X, I, O, D, P, E> {
    ghost can_parse = { λ s. N.can_parse (take_escaped_normal s)
        × K.can_parse (take_escaped_control s) × X.can_parse (take_escaped_escapable s) };

    ghost State = { N.State × K.State × X.State };

    ghost state = { λ s. (
      N.state (take_escaped_normal s),
      K.state (take_escaped_control s),
      X.state (take_escaped_escapable s),
    ) };

    ghost does = { TakeEscapedDoes I.reading N.does K.does X.does };

    ghost terms = { record {
      premise = N.terms.premise × K.terms.premise × X.terms.premise;
      stable = N.terms.stable × (Settled K.does × X.terms.stable);
      alike = ShowSame I.reading;
      claim = λ _. no_claim;
    } };

    ghost lawful = { record {
      law = λ is. take_escaped_law I.reading (N.lawful.law is.0) (K.lawful.law is.1)
          (X.lawful.law is.2);
      claimed = λ _. nothing_claimed;
    } };

    #[inline]
    fn parse_next(&mut self, input: &mut I) -> Result<I::Slice, E> {
        self.taken.parse_next(input)
    }
}
