//! The implementation of `empty`.
ghost use Rattle.std.specs.Prelude.{⊤, ◌<◌};
ghost use Rattle.grammars.specs.Grammar.{Nothing};
ghost use Rattle.parser_definitions.specs.Eof.{EmptyDoes, empty_law};
ghost use Rattle.parser_definitions.specs.Projects.Literals.{empty_projects};

use crate::combinator::basic::empty;
use stream_errors::parser_error::ParserError;
use streams::stream::Stream;
use winnow_core::parser::Parser;

/// The parser [`empty`](crate::combinator::empty).
///
/// ```
/// let mut input = "a";
/// assert_eq!(rt; ('a', Empty).parse_next(&mut input), Ok::<_, EmptyError>(('a', ())));
/// ```
#[derive(Clone, Copy, Debug, PartialEq, Eq)]
pub struct Empty;

impl<I: Stream, E: ParserError<I>> Parser<I, (), E> for Empty {
    ghost State = { ⊤ };

    ghost state = { λ _. tt };

    ghost does = { EmptyDoes };

    ghost terms = { record {
      premise = ⊤;
      stable = ⊤;
      alike = λ o p. ⊤;
      claim = λ s. record {
        premise = ⊤;
        backtracks = ⊤;
        spares_memory = ⊤;
        consumes = ⊥;
        grammar = Nothing tt;
      };
    } };

    ghost lawful = { record {
      law = λ is. empty_law;
      claimed = λ s. record {
        projects = λ at is. empty_projects;
        takes = λ is never. absurd never;
      };
    } };

    #[inline(always)]
    fn parse_next(&mut self, input: &mut I) -> Result<(), E> {
        empty(input)
    }
}
