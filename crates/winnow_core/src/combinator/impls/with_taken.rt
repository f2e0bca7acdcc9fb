//! Outputs with the slices that were read.
ghost use Rattle.std.specs.Prelude.{◌≡◌};
ghost use Rattle.grammars.specs.Grammar.{AndTaken};
ghost use Rattle.grammars.specs.Grammar.Unique.{and_taken_takes};
ghost use Rattle.parser_definitions.specs.Equal.{AlikePairs};
ghost use Rattle.parser_definitions.specs.Outputs.{WithTakenDoes, with_taken_law};
ghost use Rattle.parser_definitions.specs.Projects.Outputs.{with_taken_projects};
ghost use Rattle.parser_definitions.specs.Spelled.{ShowSame};

use crate::combinator::impls::take::slice_from;
use crate::parser::Parser;
use std::marker::PhantomData;
use stream_errors::parser_error::ParserError;
use streams::stream::Stream;

/// The parser that [`Parser::with_taken`](crate::parser::Parser::with_taken) makes.
///
/// ```
/// let mut parser = ('a', 'b').with_taken();
/// assert_eq!(rt; parser.parse_peek("abc"), Ok::<_, EmptyError>(("c", (('a', 'b'), "ab"))));
/// ```
#[derive(Drop)]
pub struct WithTaken<F, I, O, E> {
    pub(crate) parser: F,
    pub(crate) marker: PhantomData<(I, O, E)>,
}

impl<F, I, O, E> WithTaken<F, I, O, E> {
    #[inline(always)]
    pub(crate) fn new(parser: F) -> WithTaken<F, I, O, E>
        ensures { result.parser ≡ parser }
    {
        WithTaken {
            parser,
            marker: PhantomData,
        }
    }
}

impl<F: Parser<I, O, E>, I: Stream, O, E: ParserError<I>> Parser<I, (O, I::Slice), E>
    for WithTaken<F, I, O, E> {
    ghost can_parse = { λ s. F.can_parse s.parser };

    ghost State = { F.State };

    ghost state = { λ s. F.state s.parser };

    ghost does = { WithTakenDoes I.reading F.does };

    ghost terms = { record {
      premise = F.terms.premise;
      stable = F.terms.stable;
      alike = AlikePairs F.terms.alike (ShowSame I.reading);
      claim = λ s. record {
        premise = (F.terms.claim s).premise;
        backtracks = (F.terms.claim s).backtracks;
        spares_memory = (F.terms.claim s).spares_memory;
        consumes = (F.terms.claim s).consumes;
        grammar = AndTaken I.reading (F.terms.claim s).grammar;
      };
    } };

    ghost lawful = { record {
      law = λ is. with_taken_law I.reading (F.lawful.law is);
      claimed = λ s. record {
        projects = λ at is. with_taken_projects ((F.lawful.claimed s).projects at is) I.reading;
        takes = λ is some. and_taken_takes I.reading ((F.lawful.claimed s).takes is some);
      };
    } };

    #[inline]
    fn parse_next(&mut self, input: &mut I) -> Result<(O, I::Slice), E> {
        let start = input.checkpoint();
        let output = self.parser.parse_next(input)?;
        Ok((output, slice_from(&start, input)))
    }
}
