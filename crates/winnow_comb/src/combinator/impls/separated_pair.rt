//! Two children with one between them whose output is let go.
ghost use Rattle.parser_definitions.specs.Projects.Sequences.{three_claim, three_claimed};
ghost use Rattle.parser_definitions.specs.Equal.{AlikePairs};
ghost use Rattle.parser_definitions.specs.Sequence.{SeparatedPairDoes, separated_pair_law};

use std::marker::PhantomData;
use stream_errors::parser_error::ParserError;
use streams::stream::Stream;
use winnow_core::parser::Parser;

/// The parser that [`separated_pair`](crate::combinator::separated_pair) makes.
///
/// ```
/// let mut parser: SeparatedPair<_, _, _, _, _, _, _, _> = separated_pair('a', '=', 'b');
/// assert_eq!(rt; parser.parse_peek("a=b"), Ok::<_, EmptyError>(("", ('a', 'b'))));
/// ```
#[derive(Drop)]
pub struct SeparatedPair<P1, P2, P3, I, O1, O2, O3, E> {
    pub(crate) first: P1,
    pub(crate) separator: P2,
    pub(crate) second: P3,
    pub(crate) marker: PhantomData<(I, O1, O2, O3, E)>,
}

impl<
    P1: Parser<I, O1, E>,
    P2: Parser<I, O2, E>,
    P3: Parser<I, O3, E>,
    I: Stream,
    O1: Drop,
    O2: Drop,
    O3,
    E: ParserError<I>,
> Parser<I, (O1, O3), E> for SeparatedPair<P1, P2, P3, I, O1, O2, O3, E> {
    ghost can_parse = { λ s. P1.can_parse s.first × P2.can_parse s.separator
        × P3.can_parse s.second };

    ghost State = { P1.State × P2.State × P3.State };

    ghost state = { λ s. (P1.state s.first, P2.state s.separator, P3.state s.second) };

    ghost does = { SeparatedPairDoes P1.does P2.does P3.does };

    ghost terms = { record {
      premise = P1.terms.premise × P2.terms.premise × P3.terms.premise;
      stable = P1.terms.stable × P2.terms.stable × P3.terms.stable;
      alike = AlikePairs P1.terms.alike P3.terms.alike;
      claim = λ s. three_claim (λ o1 o2 o3. (o1, o3)) (P1.terms.claim s.0) (P2.terms.claim s.1)
          (P3.terms.claim s.2);
    } };

    ghost lawful = { record {
      law = λ is. separated_pair_law (P1.lawful.law is.0) (P2.lawful.law is.1)
          (P3.lawful.law is.2);
      claimed = λ s. three_claimed (λ o1 o2 o3. (o1, o3)) (P1.lawful.claimed s.0)
          (P2.lawful.claimed s.1)
          (P3.lawful.claimed s.2);
    } };

    #[inline(always)]
    fn parse_next(&mut self, input: &mut I) -> Result<(O1, O3), E> {
        let first = self.first.parse_next(input)?;
        let _separator = self.separator.parse_next(input)?;
        let second = self.second.parse_next(input)?;
        Ok((first, second))
    }
}
