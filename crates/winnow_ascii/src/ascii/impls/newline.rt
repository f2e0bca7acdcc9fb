//! A line feed.
ghost use Rattle.std.specs.Prelude.{⊤, [], ◌≡◌};
ghost use Rattle.grammars.specs.Grammar.{Literally};
ghost use Rattle.grammars.specs.Grammar.Unique.{literally_takes};
ghost use Rattle.parser_definitions.specs.LineEnding.{NewlineDoes, character_law};
ghost use Rattle.parser_definitions.specs.Projects.Literals.{literal_projects};

use crate::ascii::newline;
use stream_errors::parser_error::ParserError;
use stream_searches::compare::Compare;
use streams::stream::StreamIsPartial;
use winnow_core::parser::Parser;

/// The parser [`newline`](crate::ascii::newline).
///
/// ```
/// assert_eq!(rt; Newline.parse_peek("\na"), Ok::<_, EmptyError>(("a", '\n')));
/// ```
#[derive(Clone, Copy, Debug, PartialEq, Eq)]
pub struct Newline;

impl<I: StreamIsPartial + Compare<char>, E: ParserError<I>> Parser<I, char, E> for Newline {
    ghost State = { ⊤ };

    ghost state = { λ _. tt };

    ghost does = { NewlineDoes I.reading I.spells };

    ghost terms = { record {
      premise = ⊤;
      stable = ⊤;
      alike = λ m n. m ≡ n;
      claim = λ s. record {
        premise = ⊤;
        backtracks = ⊤;
        spares_memory = ⊤;
        consumes = I.spells 10 [] → ⊥;
        grammar = Literally I.reading I.spells (λ s _. s) 10;
      };
    } };

    ghost lawful = { record {
      law = λ _. character_law I.reading I.spells 10 (I.same_units 10);
      claimed = λ s. record {
        projects = λ at is. literal_projects I.reading I.spells (λ s _. s) (λ _. 10) tt
            (I.same_units 10);
        takes = λ is some. literally_takes I.reading I.spells (λ s _. s) 10 some;
      };
    } };

    #[inline(always)]
    fn parse_next(&mut self, input: &mut I) -> Result<char, E> {
        newline(input)
    }
}
