//! A child between two whose outputs are let go.
ghost use Rattle.parser_definitions.specs.Projects.Sequences.{three_claim, three_claimed};
ghost use Rattle.parser_definitions.specs.Sequence.{DelimitedDoes, delimited_law};

use std::marker::PhantomData;
use stream_errors::parser_error::ParserError;
use streams::stream::Stream;
use winnow_core::parser::Parser;

/// The parser that [`delimited`](crate::combinator::delimited) makes.
///
/// ```
/// let mut parser: Delimited<_, _, _, _, _, _, _, _> = delimited('(', 'a', ')');
/// assert_eq!(rt; parser.parse_peek("(a)"), Ok::<_, EmptyError>(("", 'a')));
/// ```
#[derive(Drop)]
pub struct Delimited<P1, P2, P3, I, O1, O2, O3, E> {
    pub(crate) ignored1: P1,
    pub(crate) parser: P2,
    pub(crate) ignored2: P3,
    pub(crate) marker: PhantomData<(I, O1, O2, O3, E)>,
}

impl<
    P1: Parser<I, O1, E>,
    P2: Parser<I, O2, E>,
    P3: Parser<I, O3, E>,
    I: Stream,
    O1: Drop,
    O2: Drop,
    O3: Drop,
    E: ParserError<I>,
> Parser<I, O2, E> for Delimited<P1, P2, P3, I, O1, O2, O3, E> {
    ghost can_parse = { λ s. P1.can_parse s.ignored1 × P2.can_parse s.parser
        × P3.can_parse s.ignored2 };

    ghost State = { P1.State × P2.State × P3.State };

    ghost state = { λ s. (P1.state s.ignored1, P2.state s.parser, P3.state s.ignored2) };

    ghost does = { DelimitedDoes P1.does P2.does P3.does };

    ghost terms = { record {
      premise = P1.terms.premise × P2.terms.premise × P3.terms.premise;
      stable = P1.terms.stable × P2.terms.stable × P3.terms.stable;
      alike = P2.terms.alike;
      claim = λ s. three_claim (λ o1 o2 o3. o2) (P1.terms.claim s.0) (P2.terms.claim s.1)
          (P3.terms.claim s.2);
    } };

    ghost lawful = { record {
      law = λ is. delimited_law (P1.lawful.law is.0) (P2.lawful.law is.1) (P3.lawful.law is.2);
      claimed = λ s. three_claimed (λ o1 o2 o3. o2) (P1.lawful.claimed s.0) (P2.lawful.claimed s.1)
          (P3.lawful.claimed s.2);
    } };

    #[inline(always)]
    fn parse_next(&mut self, input: &mut I) -> Result<O2, E> {
        let _first = self.ignored1.parse_next(input)?;
        let output = self.parser.parse_next(input)?;
        let _last = self.ignored2.parse_next(input)?;
        Ok(output)
    }
}
