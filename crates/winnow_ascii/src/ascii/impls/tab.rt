//! A tab.
ghost use Rattle.std.specs.Prelude.{⊤, [], ◌≡◌};
ghost use Rattle.grammars.specs.Grammar.{Literally};
ghost use Rattle.grammars.specs.Grammar.Unique.{literally_takes};
ghost use Rattle.parser_definitions.specs.LineEnding.{TabDoes, character_law};
ghost use Rattle.parser_definitions.specs.Projects.Literals.{literal_projects};

use crate::ascii::tab;
use stream_errors::parser_error::ParserError;
use stream_searches::compare::Compare;
use streams::stream::StreamIsPartial;
use winnow_core::parser::Parser;

/// The parser [`tab`](crate::ascii::tab).
///
/// ```
/// assert_eq!(rt; Tab.parse_peek("\ta"), Ok::<_, EmptyError>(("a", '\t')));
/// ```
#[derive(Clone, Copy, Debug, PartialEq, Eq)]
pub struct Tab;

impl<I: StreamIsPartial + Compare<char>, E: ParserError<I>> Parser<I, char, E> for Tab {
    ghost State = { ⊤ };

    ghost state = { λ _. tt };

    ghost does = { TabDoes I.reading I.spells };

    ghost terms = { record {
      premise = ⊤;
      stable = ⊤;
      alike = λ m n. m ≡ n;
      claim = λ s. record {
        premise = ⊤;
        backtracks = ⊤;
        spares_memory = ⊤;
        consumes = I.spells 9 [] → ⊥;
        grammar = Literally I.reading I.spells (λ s _. s) 9;
      };
    } };

    ghost lawful = { record {
      law = λ _. character_law I.reading I.spells 9 (I.same_units 9);
      claimed = λ s. record {
        projects = λ at is. literal_projects I.reading I.spells (λ s _. s) (λ _. 9) tt
            (I.same_units 9);
        takes = λ is some. literally_takes I.reading I.spells (λ s _. s) 9 some;
      };
    } };

    #[inline(always)]
    fn parse_next(&mut self, input: &mut I) -> Result<char, E> {
        tab(input)
    }
}
