//! The implementation of `till_line_ending`.
ghost use Rattle.std.specs.Prelude.{⊤};
ghost use Rattle.grammars.specs.Grammar.Searches.{Line};
ghost use Rattle.parser_definitions.specs.LineEnding.{SpellsByText};
ghost use Rattle.parser_definitions.specs.Projects.Lines.{till_line_ending_projects};
ghost use Rattle.parser_definitions.specs.TillLineEnding.{SeeksSome, SpellsOne, TillLineEndingDoes};
ghost use Rattle.parser_definitions.specs.TillLineEnding.{till_line_ending_law};
ghost use Rattle.parser_definitions.specs.Spelled.{ShowSame};

use crate::ascii::till_line_ending;
use stream_errors::parser_error::ParserError;
use stream_searches::compare::Compare;
use stream_searches::find::FindSlice;
use streams::stream::StreamIsPartial;
use winnow_core::parser::Parser;

/// The parser [`till_line_ending`](crate::ascii::till_line_ending).
///
/// ```
/// assert_eq!(rt; TillLineEnding.parse_peek("ab\n"), Ok::<_, EmptyError>(("\n", "ab")));
/// ```
#[derive(Clone, Copy, Debug, PartialEq, Eq)]
pub struct TillLineEnding;

impl<
    I: StreamIsPartial + Compare<&'static str> + FindSlice<(char, char)>,
    E: ParserError<I>,
> Parser<I, I::Slice, E> for TillLineEnding {
    ghost State = { ⊤ };

    ghost state = { λ _. tt };

    ghost does = { TillLineEndingDoes I.reading I.spells I.sought };

    ghost terms = { record {
      premise = SpellsByText I.spells;
      stable = SeeksSome I.sought × SpellsOne I.spells;
      alike = ShowSame I.reading;
      claim = λ s. record {
        premise = SpellsByText I.spells;
        backtracks = ⊤;
        spares_memory = ⊤;
        consumes = ⊥;
        grammar = Line I.reading I.spells I.sought;
      };
    } };

    ghost lawful = { record {
      law = λ is. till_line_ending_law I.reading I.spells I.sought
          (I.stays_first (13, 10)) is;
      claimed = λ s. record {
        projects = λ at is. till_line_ending_projects I.reading I.spells I.sought is;
        takes = λ is never. absurd never;
      };
    } };

    #[inline(always)]
    fn parse_next(&mut self, input: &mut I) -> Result<I::Slice, E> {
        till_line_ending(input)
    }
}
