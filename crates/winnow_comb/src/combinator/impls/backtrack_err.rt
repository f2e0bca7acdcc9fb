//! A child whose errors backtrack.
ghost use Rattle.parser_definitions.specs.Terms.{no_claim, nothing_claimed};
ghost use Rattle.parser_definitions.specs.Peek.{BacktrackErrDoes, backtrack_err_law};

use std::marker::PhantomData;
use stream_errors::modal::ModalError;
use stream_errors::parser_error::ParserError;
use streams::stream::Stream;
use winnow_core::parser::Parser;

/// The parser that [`backtrack_err`](crate::combinator::backtrack_err) makes.
///
/// ```
/// let mut parser: BacktrackErr<_, _, _, _> = backtrack_err('a');
/// assert_eq!(rt; parser.parse_peek("ab"), Ok::<_, ErrMode<EmptyError>>(("b", 'a')));
/// ```
#[derive(Drop)]
pub struct BacktrackErr<P, I, O, E> {
    pub(crate) parser: P,
    pub(crate) marker: PhantomData<(I, O, E)>,
}

impl<P: Parser<I, O, E>, I: Stream, O, E: ParserError<I> + ModalError> Parser<I, O, E>
    for BacktrackErr<P, I, O, E> {
    ghost can_parse = { λ s. P.can_parse s.parser };

    ghost State = { P.State };

    ghost state = { λ s. P.state s.parser };

    ghost does = { BacktrackErrDoes P.does };

    ghost terms = { record {
      premise = P.terms.premise;
      stable = P.terms.stable;
      alike = P.terms.alike;
      claim = λ _. no_claim;
    } };

    ghost lawful = { record {
      law = λ is. backtrack_err_law (P.lawful.law is);
      claimed = λ _. nothing_claimed;
    } };

    #[inline(always)]
    fn parse_next(&mut self, input: &mut I) -> Result<O, E> {
        match self.parser.parse_next(input) {
            Ok(output) => Ok(output),
            Err(error) => Err(error.backtrack()),
        }
    }
}
