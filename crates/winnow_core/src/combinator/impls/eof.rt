//! The end of the input.
ghost use Rattle.std.specs.Prelude.{⊤, ◌<◌};
ghost use Rattle.grammars.specs.Grammar.{NoTokens};
ghost use Rattle.parser_definitions.specs.Eof.{EofDoes, eof_law};
ghost use Rattle.parser_definitions.specs.Projects.Literals.{eof_projects};
ghost use Rattle.parser_definitions.specs.Spelled.{ShowSame};

use crate::combinator::eof;
use crate::parser::Parser;
use stream_errors::parser_error::ParserError;
use streams::stream::Stream;

/// The parser [`eof`](crate::combinator::eof).
///
/// ```
/// let answer = (b'a', Eof).parse_next(&mut b"a".as_slice());
/// assert_eq!(rt; answer, Ok::<_, EmptyError>((b'a', b"".as_slice())));
/// ```
#[derive(Clone, Copy, Debug, PartialEq, Eq)]
pub struct Eof;

impl<I: Stream, E: ParserError<I>> Parser<I, I::Slice, E> for Eof {
    ghost State = { ⊤ };

    ghost state = { λ _. tt };

    ghost does = { EofDoes I.reading };

    ghost terms = { record {
      premise = ⊤;
      stable = ⊥;
      alike = ShowSame I.reading;
      claim = λ s. record {
        premise = ⊤;
        backtracks = ⊤;
        spares_memory = ⊤;
        consumes = ⊥;
        grammar = NoTokens I.reading;
      };
    } };

    ghost lawful = { record {
      law = λ is. eof_law I.reading;
      claimed = λ s. record {
        projects = λ at is. eof_projects I.reading;
        takes = λ is never. absurd never;
      };
    } };

    #[inline(always)]
    fn parse_next(&mut self, input: &mut I) -> Result<I::Slice, E> {
        eof(input)
    }
}
