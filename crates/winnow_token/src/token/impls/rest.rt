//! The implementation of `rest`.
ghost use Rattle.std.specs.Prelude.{⊤};
ghost use Rattle.grammars.specs.Grammar.{AllTokens};
ghost use Rattle.parser_definitions.specs.Projects.Tokens.{rest_projects};
ghost use Rattle.parser_definitions.specs.Rest.{RestDoes, rest_law};
ghost use Rattle.parser_definitions.specs.Spelled.{ShowSame};

use crate::token::rest;
use stream_errors::parser_error::ParserError;
use streams::stream::Stream;
use winnow_core::parser::Parser;

/// The parser [`rest`](crate::token::rest).
///
/// ```
/// let mut input = "abc";
/// assert_eq!(rt; ('a', Rest).parse_next(&mut input), Ok::<_, EmptyError>(('a', "bc")));
/// ```
#[derive(Clone, Copy, Debug, PartialEq, Eq)]
pub struct Rest;

impl<I: Stream, E: ParserError<I>> Parser<I, I::Slice, E> for Rest {
    ghost State = { ⊤ };

    ghost state = { λ _. tt };

    ghost does = { RestDoes I.reading };

    ghost terms = { record {
      premise = ⊤;
      stable = ⊥;
      alike = ShowSame I.reading;
      claim = λ s. record {
        premise = ⊤;
        backtracks = ⊤;
        spares_memory = ⊤;
        consumes = ⊥;
        grammar = AllTokens I.reading;
      };
    } };

    ghost lawful = { record {
      law = λ _. rest_law I.reading;
      claimed = λ s. record {
        projects = λ at is. rest_projects I.reading;
        takes = λ is never. absurd never;
      };
    } };

    #[inline(always)]
    fn parse_next(&mut self, input: &mut I) -> Result<I::Slice, E> {
        rest(input)
    }
}
