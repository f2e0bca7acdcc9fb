//! The places between which a parser read.
ghost use Rattle.std.specs.Prelude.{◌≡◌};
ghost use Rattle.grammars.specs.Grammar.{Made};
ghost use Rattle.grammars.specs.Grammar.Unique.{made_of_takes};
ghost use Rattle.parser_definitions.specs.Outputs.{SpanDoes, span_law};
ghost use Rattle.parser_definitions.specs.Projects.Outputs.{AnyPlaces, span_projects};

use crate::parser::Parser;
use std::marker::PhantomData;
use std::ops::Range;
use stream_errors::parser_error::ParserError;
use streams::stream::Location;

/// The parser that [`Parser::span`](crate::parser::Parser::span) makes.
///
/// ```
/// let mut parser = ('a', 'b').span();
/// let answer = parser.parse_next(&mut LocatingSlice::new("abc"));
/// assert_eq!(rt; answer, Ok::<_, EmptyError>(0..2));
/// ```
#[derive(Drop)]
pub struct Span<F, I, O, E> {
    pub(crate) parser: F,
    pub(crate) marker: PhantomData<(I, O, E)>,
}

impl<F, I, O, E> Span<F, I, O, E> {
    #[inline(always)]
    pub(crate) fn new(parser: F) -> Span<F, I, O, E>
        ensures { result.parser ≡ parser }
    {
        Span {
            parser,
            marker: PhantomData,
        }
    }
}

impl<F: Parser<I, O, E>, I: Location, O: Drop, E: ParserError<I>> Parser<I, Range<usize>, E>
    for Span<F, I, O, E> {
    ghost can_parse = { λ s. F.can_parse s.parser };

    ghost State = { F.State };

    ghost state = { λ s. F.state s.parser };

    ghost does = { SpanDoes F.does };

    ghost terms = { record {
      premise = F.terms.premise;
      stable = F.terms.stable;
      alike = λ u v. u ≡ v;
      claim = λ s. record {
        premise = (F.terms.claim s).premise;
        backtracks = (F.terms.claim s).backtracks;
        spares_memory = (F.terms.claim s).spares_memory;
        consumes = (F.terms.claim s).consumes;
        grammar = Made AnyPlaces tt (F.terms.claim s).grammar;
      };
    } };

    ghost lawful = { record {
      law = λ is. span_law (F.lawful.law is);
      claimed = λ s. record {
        projects = λ at is. span_projects ((F.lawful.claimed s).projects at is);
        takes = λ is some. made_of_takes AnyPlaces tt ((F.lawful.claimed s).takes is some);
      };
    } };

    #[inline(always)]
    fn parse_next(&mut self, input: &mut I) -> Result<Range<usize>, E> {
        let start = input.current_token_start();
        let _output = self.parser.parse_next(input)?;
        let end = input.previous_token_end();
        Ok(start..end)
    }
}
