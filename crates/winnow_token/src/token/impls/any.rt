//! One token.
ghost use Rattle.std.specs.Prelude.{⊤};
ghost use Rattle.grammars.specs.Grammar.{Token};
ghost use Rattle.parser_definitions.specs.Any.{AnyDoes, any_law};
ghost use Rattle.parser_definitions.specs.Projects.Tokens.{any_projects, token_takes};
ghost use Rattle.parser_definitions.specs.Shown.{SeenSame};

use crate::token::any;
use stream_errors::parser_error::ParserError;
use streams::stream::StreamIsPartial;
use winnow_core::parser::Parser;

/// The parser [`any`](crate::token::any).
///
/// ```
/// let mut input = "ab";
/// assert_eq!(rt; (Any, 'b').parse_next(&mut input), Ok::<_, EmptyError>(('a', 'b')));
/// ```
#[derive(Clone, Copy, Debug, PartialEq, Eq)]
pub struct Any;

impl<I: StreamIsPartial, E: ParserError<I>> Parser<I, I::Token, E> for Any {
    ghost State = { ⊤ };

    ghost state = { λ _. tt };

    ghost does = { AnyDoes I.seen_as I.reading };

    ghost terms = { record {
      premise = ⊤;
      stable = ⊤;
      alike = SeenSame I.seen_as;
      claim = λ s. record {
        premise = ⊤;
        backtracks = ⊤;
        spares_memory = ⊤;
        consumes = ⊤;
        grammar = Token I.seen_as;
      };
    } };

    ghost lawful = { record {
      law = λ _. any_law I.seen_as I.reading;
      claimed = λ s. record {
        projects = λ at is. any_projects I.seen_as I.reading;
        takes = λ is some. token_takes I.seen_as;
      };
    } };

    #[inline(always)]
    fn parse_next(&mut self, input: &mut I) -> Result<I::Token, E> {
        any(input)
    }
}
