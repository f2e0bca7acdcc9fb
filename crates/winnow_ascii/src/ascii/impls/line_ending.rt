//! The implementation of `line_ending`.
ghost use Rattle.std.specs.Prelude.{⊤, ◌<◌, ◌∷◌, []};
ghost use Rattle.grammars.specs.Grammar.{SpelledBy};
ghost use Rattle.grammars.specs.Grammar.Searches.{LineEnd};
ghost use Rattle.grammars.specs.Grammar.Unique.{either_takes, literally_takes};
ghost use Rattle.parser_definitions.specs.LineEnding.{LineEndingDoes, SpellsByText};
ghost use Rattle.parser_definitions.specs.LineEnding.{line_ending_law};
ghost use Rattle.parser_definitions.specs.Projects.Lines.{line_ending_projects};
ghost use Rattle.parser_definitions.specs.Spelled.{ShowSame};

use crate::ascii::line_ending;
use stream_errors::parser_error::ParserError;
use stream_searches::compare::Compare;
use streams::stream::StreamIsPartial;
use winnow_core::parser::Parser;

/// The parser [`line_ending`](crate::ascii::line_ending).
///
/// ```
/// assert_eq!(rt; LineEnding.parse_peek("\na"), Ok::<_, EmptyError>(("a", "\n")));
/// ```
#[derive(Clone, Copy, Debug, PartialEq, Eq)]
pub struct LineEnding;

impl<I: StreamIsPartial + Compare<&'static str>, E: ParserError<I>> Parser<I, I::Slice, E>
    for LineEnding {
    ghost State = { ⊤ };

    ghost state = { λ _. tt };

    ghost does = { LineEndingDoes I.reading I.spells };

    ghost terms = { record {
      premise = SpellsByText I.spells;
      stable = ⊤;
      alike = ShowSame I.reading;
      claim = λ s. record {
        premise = SpellsByText I.spells;
        backtracks = ⊤;
        spares_memory = ⊤;
        consumes = (SpelledBy I.spells (10 ∷ []) [] → ⊥)
            × (SpelledBy I.spells (13 ∷ 10 ∷ []) [] → ⊥);
        grammar = LineEnd I.reading I.spells;
      };
    } };

    ghost lawful = { record {
      law = λ is. line_ending_law I.reading I.spells I.same_units is;
      claimed = λ s. record {
        projects = λ at is. line_ending_projects I.reading I.spells I.same_units is;
        takes = λ is some. either_takes
            (literally_takes I.reading (SpelledBy I.spells) (λ _ slice. slice) (10 ∷ [])
            some.0) (literally_takes I.reading (SpelledBy I.spells) (λ _ slice. slice)
            (13 ∷ 10 ∷ []) some.1);
      };
    } };

    #[inline(always)]
    fn parse_next(&mut self, input: &mut I) -> Result<I::Slice, E> {
        line_ending(input)
    }
}
