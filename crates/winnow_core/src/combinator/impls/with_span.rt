//! The implementation of `with_span`.
ghost use Rattle.std.specs.Prelude.{◌≡◌};
ghost use Rattle.grammars.specs.Grammar.{Made};
ghost use Rattle.grammars.specs.Grammar.Unique.{made_of_takes};
ghost use Rattle.parser_definitions.specs.Equal.{AlikePairs};
ghost use Rattle.parser_definitions.specs.Outputs.{WithSpanDoes, with_span_law};
ghost use Rattle.parser_definitions.specs.Projects.Outputs.{WithPlaces, with_span_projects};

use crate::parser::Parser;
use std::marker::PhantomData;
use std::ops::Range;
use stream_errors::parser_error::ParserError;
use streams::stream::Location;

/// The parser that [`Parser::with_span`](crate::parser::Parser::with_span) makes.
///
/// ```
/// let mut parser = ('a', 'b').with_span();
/// let answer = parser.parse_next(&mut LocatingSlice::new("abc"));
/// assert_eq!(rt; answer, Ok::<_, EmptyError>((('a', 'b'), 0..2)));
/// ```
#[derive(Drop)]
pub struct WithSpan<F, I, O, E> {
    pub(crate) parser: F,
    pub(crate) marker: PhantomData<(I, O, E)>,
}

impl<F, I, O, E> WithSpan<F, I, O, E> {
    #[inline(always)]
    pub(crate) fn new(parser: F) -> WithSpan<F, I, O, E>
        ensures { result.parser ≡ parser }
    {
        WithSpan {
            parser,
            marker: PhantomData,
        }
    }
}

impl<F: Parser<I, O, E>, I: Location, O, E: ParserError<I>> Parser<I, (O, Range<usize>), E>
    for WithSpan<F, I, O, E> {
    ghost can_parse = { λ s. F.can_parse s.parser };

    ghost State = { F.State };

    ghost state = { λ s. F.state s.parser };

    ghost does = { WithSpanDoes F.does };

    ghost terms = { record {
      premise = F.terms.premise;
      stable = F.terms.stable;
      alike = AlikePairs F.terms.alike (λ u v. u ≡ v);
      claim = λ s. record {
        premise = (F.terms.claim s).premise;
        backtracks = (F.terms.claim s).backtracks;
        spares_memory = (F.terms.claim s).spares_memory;
        consumes = (F.terms.claim s).consumes;
        grammar = Made WithPlaces tt (F.terms.claim s).grammar;
      };
    } };

    ghost lawful = { record {
      law = λ is. with_span_law (F.lawful.law is);
      claimed = λ s. record {
        projects = λ at is. with_span_projects ((F.lawful.claimed s).projects at is);
        takes = λ is some. made_of_takes WithPlaces tt ((F.lawful.claimed s).takes is some);
      };
    } };

    #[inline(always)]
    fn parse_next(&mut self, input: &mut I) -> Result<(O, Range<usize>), E> {
        let start = input.current_token_start();
        let output = self.parser.parse_next(input)?;
        let end = input.previous_token_end();
        Ok((output, start..end))
    }
}
