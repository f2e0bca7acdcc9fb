//! A child before one whose output is let go.
ghost use Rattle.parser_definitions.specs.Projects.Sequences.{both_claim, both_claimed};
ghost use Rattle.parser_definitions.specs.Sequence.{TerminatedDoes, terminated_law};

use std::marker::PhantomData;
use stream_errors::parser_error::ParserError;
use streams::stream::Stream;
use winnow_core::parser::Parser;

/// The parser that [`terminated`](crate::combinator::terminated) makes.
///
/// ```
/// let mut parser: Terminated<_, _, _, _, _, _> = terminated('a', ';');
/// assert_eq!(rt; parser.parse_peek("a;b"), Ok::<_, EmptyError>(("b", 'a')));
/// ```
#[derive(Drop)]
pub struct Terminated<P1, P2, I, O1, O2, E> {
    pub(crate) parser: P1,
    pub(crate) ignored: P2,
    pub(crate) marker: PhantomData<(I, O1, O2, E)>,
}

impl<
    P1: Parser<I, O1, E>,
    P2: Parser<I, O2, E>,
    I: Stream,
    O1: Drop,
    O2: Drop,
    E: ParserError<I>,
> Parser<I, O1, E> for Terminated<P1, P2, I, O1, O2, E> {
    ghost can_parse = { λ s. P1.can_parse s.parser × P2.can_parse s.ignored };

    ghost State = { P1.State × P2.State };

    ghost state = { λ s. (P1.state s.parser, P2.state s.ignored) };

    ghost does = { TerminatedDoes P1.does P2.does };

    ghost terms = { record {
      premise = P1.terms.premise × P2.terms.premise;
      stable = P1.terms.stable × P2.terms.stable;
      alike = P1.terms.alike;
      claim = λ s. both_claim (λ o1 o2. o1) (P1.terms.claim s.0) (P2.terms.claim s.1);
    } };

    ghost lawful = { record {
      law = λ is. terminated_law (P1.lawful.law is.0) (P2.lawful.law is.1);
      claimed = λ s. both_claimed (λ o1 o2. o1) (P1.lawful.claimed s.0) (P2.lawful.claimed s.1);
    } };

    #[inline(always)]
    fn parse_next(&mut self, input: &mut I) -> Result<O1, E> {
        let output = self.parser.parse_next(input)?;
        let _behind = self.ignored.parse_next(input)?;
        Ok(output)
    }
}
