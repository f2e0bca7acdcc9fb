//! Outputs that are read as text.
ghost use Rattle.std.specs.Prelude.{◌≡◌, Some};
ghost use Rattle.grammars.specs.Grammar.{Made};
ghost use Rattle.grammars.specs.Grammar.Outputs.{RejectsAll};
ghost use Rattle.grammars.specs.Grammar.Unique.{made_of_takes};
ghost use Rattle.parser_definitions.specs.Projects.Settled.{ReadsNone, ReadsSome};
ghost use Rattle.parser_definitions.specs.Projects.Settled.{parse_to_projects};
ghost use Rattle.parser_definitions.specs.Verify.{ParseToDoes, parse_to_law};
ghost use Rattle.winnow_core.specs.ParseTo.{AlikeRead, ReadsAlike};
ghost use Rattle.winnow_core.specs.ParseTo.{read_alike};

use crate::parser::Parser;
use std::marker::PhantomData;
use stream_errors::parser_error::ParserError;
use stream_sets::parse_slice::ParseSlice;
use streams::stream::Stream;

/// The parser that [`Parser::parse_to`](crate::parser::Parser::parse_to) makes.
///
/// ```
/// let mut parser = Digit1.parse_to::<u8>();
/// assert_eq!(rt; parser.parse_peek("12;"), Ok::<_, EmptyError>((";", 12)));
/// ```
#[derive(Drop)]
pub struct ParseTo<F, I, O, O2, E> {
    pub(crate) parser: F,
    pub(crate) marker: PhantomData<(I, O, O2, E)>,
}

impl<F, I, O, O2, E> ParseTo<F, I, O, O2, E> {
    #[inline(always)]
    pub(crate) fn new(parser: F) -> ParseTo<F, I, O, O2, E>
        ensures { result.parser ≡ parser }
    {
        ParseTo {
            parser,
            marker: PhantomData,
        }
    }
}

impl<F: Parser<I, O, E>, I: Stream, O: ParseSlice<O2> + Drop, O2, E: ParserError<I>> Parser<
    I,
    O2,
    E,
> for ParseTo<F, I, O, O2, E> {
    ghost can_parse = { λ s. F.can_parse s.parser };

    ghost State = { F.State };

    ghost state = { λ s. F.state s.parser };

    ghost does = { ParseToDoes O.reads F.does };

    ghost terms = { record {
      premise = F.terms.premise × ReadsAlike F.terms.alike O.reads;
      stable = F.terms.stable;
      alike = AlikeRead F.terms.alike O.reads;
      claim = λ s. record {
        premise = (F.terms.claim s).premise
            × RejectsAll (ReadsSome O.reads) (ReadsNone O.reads) tt (F.terms.claim s).grammar;
        backtracks = (F.terms.claim s).backtracks;
        spares_memory = (F.terms.claim s).spares_memory;
        consumes = (F.terms.claim s).consumes;
        grammar = Made (ReadsSome O.reads) tt (F.terms.claim s).grammar;
      };
    } };

    ghost lawful = { record {
      law = λ is. parse_to_law O.reads (read_alike O.reads is.1) (F.lawful.law is.0);
      claimed = λ s. record {
        projects = λ at is. parse_to_projects O.reads is.1 ((F.lawful.claimed s).projects at is.0);
        takes = λ is some. made_of_takes (ReadsSome O.reads) tt
            ((F.lawful.claimed s).takes is.0 some);
      };
    } };

    #[inline]
    fn parse_next(&mut self, input: &mut I) -> Result<O2, E> {
        let start = input.checkpoint();
        let output = self.parser.parse_next(input)?;
        match output.parse_slice() {
            Some(output) => Ok(output),
            None => {
                input.reset(&start);
                Err(E::from_input(input))
            }
        }
    }
}
