//! A child after one whose output is let go.
ghost use Rattle.parser_definitions.specs.Projects.Sequences.{both_claim, both_claimed};
ghost use Rattle.parser_definitions.specs.Sequence.{PrecededDoes, preceded_law};

use std::marker::PhantomData;
use stream_errors::parser_error::ParserError;
use streams::stream::Stream;
use winnow_core::parser::Parser;

/// The parser that [`preceded`](crate::combinator::preceded) makes.
///
/// ```
/// let mut parser: Preceded<_, _, _, _, _, _> = preceded('(', 'a');
/// assert_eq!(rt; parser.parse_peek("(a"), Ok::<_, EmptyError>(("", 'a')));
/// ```
#[derive(Drop)]
pub struct Preceded<P1, P2, I, O1, O2, E> {
    pub(crate) ignored: P1,
    pub(crate) parser: P2,
    pub(crate) marker: PhantomData<(I, O1, O2, E)>,
}

impl<P1: Parser<I, O1, E>, P2: Parser<I, O2, E>, I: Stream, O1: Drop, O2, E: ParserError<I>> Parser<
    I,
    O2,
    E,
> for Preceded<P1, P2, I, O1, O2, E> {
    ghost can_parse = { λ s. P1.can_parse s.ignored × P2.can_parse s.parser };

    ghost State = { P1.State × P2.State };

    ghost state = { λ s. (P1.state s.ignored, P2.state s.parser) };

    ghost does = { PrecededDoes P1.does P2.does };

    ghost terms = { record {
      premise = P1.terms.premise × P2.terms.premise;
      stable = P1.terms.stable × P2.terms.stable;
      alike = P2.terms.alike;
      claim = λ s. both_claim (λ o1 o2. o2) (P1.terms.claim s.0) (P2.terms.claim s.1);
    } };

    ghost lawful = { record {
      law = λ is. preceded_law (P1.lawful.law is.0) (P2.lawful.law is.1);
      claimed = λ s. both_claimed (λ o1 o2. o2) (P1.lawful.claimed s.0) (P2.lawful.claimed s.1);
    } };

    #[inline(always)]
    fn parse_next(&mut self, input: &mut I) -> Result<O2, E> {
        let _before = self.ignored.parse_next(input)?;
        self.parser.parse_next(input)
    }
}
