//! The implementation of the adapter `take`.
ghost use Rattle.std.specs.Prelude.{◌≡◌, List, ◌++◌};
ghost use Rattle.streams.specs.Input.{Ends};
ghost use Rattle.grammars.specs.Grammar.{Taken};
ghost use Rattle.grammars.specs.Grammar.Unique.{taken_takes};
ghost use Rattle.parser_definitions.specs.Outputs.{TakeDoes, take_law};
ghost use Rattle.parser_definitions.specs.Projects.Outputs.{take_projects};
ghost use Rattle.parser_definitions.specs.Spelled.{ShowSame};
ghost use Rattle.winnow_core.specs.Take.{take_parser};

use crate::parser::Parser;
use std::marker::PhantomData;
use stream_errors::parser_error::ParserError;
use streams::stream::Stream;

/// The parser that [`Parser::take`](crate::parser::Parser::take) makes.
///
/// ```
/// let mut parser = ('a', 'b').take();
/// assert_eq!(rt; parser.parse_peek("abc"), Ok::<_, EmptyError>(("c", "ab")));
/// ```
#[derive(Drop)]
pub struct Take<F, I, O, E> {
    pub(crate) parser: F,
    pub(crate) marker: PhantomData<(I, O, E)>,
}

impl<F, I, O, E> Take<F, I, O, E> {
    #[inline(always)]
    pub(crate) fn new(parser: F) -> Take<F, I, O, E>
        ensures { take_parser result ≡ parser }
    {
        Take {
            parser,
            marker: PhantomData,
        }
    }
}

impl<F: Parser<I, O, E>, I: Stream, O: Drop, E: ParserError<I>> Parser<I, I::Slice, E>
    for Take<F, I, O, E> {
    ghost can_parse = { λ s. F.can_parse s.parser };

    ghost State = { F.State };

    ghost state = { λ s. F.state s.parser };

    ghost does = { TakeDoes I.reading F.does };

    ghost terms = { record {
      premise = F.terms.premise;
      stable = F.terms.stable;
      alike = ShowSame I.reading;
      claim = λ s. record {
        premise = (F.terms.claim s).premise;
        backtracks = (F.terms.claim s).backtracks;
        spares_memory = (F.terms.claim s).spares_memory;
        consumes = (F.terms.claim s).consumes;
        grammar = Taken I.reading (F.terms.claim s).grammar;
      };
    } };

    ghost lawful = { record {
      law = λ is. take_law I.reading (F.lawful.law is);
      claimed = λ s. record {
        projects = λ at is. take_projects ((F.lawful.claimed s).projects at is) I.reading;
        takes = λ is some. taken_takes I.reading ((F.lawful.claimed s).takes is some);
      };
    } };

    #[inline]
    fn parse_next(&mut self, input: &mut I) -> Result<I::Slice, E> {
        let start = input.checkpoint();
        let _output = self.parser.parse_next(input)?;
        Ok(slice_from(&start, input))
    }
}

/// Returns the slice from `start` to the position of the input, without moving the input.
#[inline(always)]
pub(crate) fn slice_from<I: Stream>(start: &I::Checkpoint, input: &mut I) -> I::Slice
    requires { Ends I.reading (I.view input.old).left (I.seen start.now) }
    ensures stays { I.view input.new ≡ I.view input.old }
    ensures slice { (front : List I.Seen)
        × ((I.seen start.now).tokens ≡ front ++ (I.view input.old).left.tokens)
        × I.reading.shows result front }
{
    let offset = input.offset_from(start);
    input.reset(start);
    input.next_slice(offset)
}
