//! The parser that fails.
ghost use Rattle.std.specs.Prelude.{⊤, ◌≡◌};
ghost use Rattle.grammars.specs.Grammar.{Never};
ghost use Rattle.parser_definitions.specs.Eof.{FailDoes, fail_law};
ghost use Rattle.parser_definitions.specs.Projects.Literals.{fail_projects, never_takes};

use crate::combinator::basic::fail;
use stream_errors::parser_error::ParserError;
use streams::stream::Stream;
use winnow_core::parser::Parser;

/// The parser [`fail`](crate::combinator::fail).
///
/// ```
/// let none: Option<(char, u8)> = None;
/// assert_eq!(rt; opt(('a', Fail)).parse_peek("a"), Ok::<_, EmptyError>(("a", none)));
/// ```
#[derive(Clone, Copy, Debug, PartialEq, Eq)]
pub struct Fail;

impl<I: Stream, O, E: ParserError<I>> Parser<I, O, E> for Fail {
    ghost State = { ⊤ };

    ghost state = { λ _. tt };

    ghost does = { FailDoes };

    ghost terms = { record {
      premise = ⊤;
      stable = ⊤;
      alike = λ o p. o ≡ p;
      claim = λ s. record {
        premise = ⊤;
        backtracks = ⊤;
        spares_memory = ⊤;
        consumes = ⊤;
        grammar = Never;
      };
    } };

    ghost lawful = { record {
      law = λ is. fail_law;
      claimed = λ s. record {
        projects = λ at is. fail_projects;
        takes = λ is some. never_takes;
      };
    } };

    #[inline(always)]
    fn parse_next(&mut self, input: &mut I) -> Result<O, E> {
        fail(input)
    }
}
