//! The implementation of `rest_len`.
ghost use Rattle.std.specs.Prelude.{⊤, ◌≡◌};
ghost use Rattle.grammars.specs.Grammar.{UnitsLeft};
ghost use Rattle.parser_definitions.specs.Projects.Tokens.{rest_len_projects};
ghost use Rattle.parser_definitions.specs.Rest.{RestLenDoes, rest_len_law};

use crate::token::rest_len;
use stream_errors::parser_error::ParserError;
use streams::stream::Stream;
use winnow_core::parser::Parser;

/// The parser [`rest_len`](crate::token::rest_len).
///
/// ```
/// let mut input = "abc";
/// assert_eq!(rt; ('a', RestLen).parse_next(&mut input), Ok::<_, EmptyError>(('a', 2)));
/// ```
#[derive(Clone, Copy, Debug, PartialEq, Eq)]
pub struct RestLen;

impl<I: Stream, E: ParserError<I>> Parser<I, usize, E> for RestLen {
    ghost State = { ⊤ };

    ghost state = { λ _. tt };

    ghost does = { RestLenDoes I.reading };

    ghost terms = { record {
      premise = ⊤;
      stable = ⊥;
      alike = λ m n. m ≡ n;
      claim = λ s. record {
        premise = ⊤;
        backtracks = ⊤;
        spares_memory = ⊤;
        consumes = ⊥;
        grammar = UnitsLeft I.reading;
      };
    } };

    ghost lawful = { record {
      law = λ _. rest_len_law I.reading;
      claimed = λ s. record {
        projects = λ at is. rest_len_projects I.reading;
        takes = λ is never. absurd never;
      };
    } };

    #[inline(always)]
    fn parse_next(&mut self, input: &mut I) -> Result<usize, E> {
        rest_len(input)
    }
}
