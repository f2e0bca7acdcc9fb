//! A carriage return and a line feed.
ghost use Rattle.std.specs.Prelude.{⊤, [], ◌∷◌};
ghost use Rattle.grammars.specs.Grammar.{SpelledBy};
ghost use Rattle.grammars.specs.Grammar.Searches.{LiterallyBytes};
ghost use Rattle.grammars.specs.Grammar.Unique.{literally_takes};
ghost use Rattle.parser_definitions.specs.LineEnding.{CrlfDoes, SpellsByText, crlf_law};
ghost use Rattle.parser_definitions.specs.Projects.Lines.{text_projects};
ghost use Rattle.parser_definitions.specs.Spelled.{ShowSame};

use crate::ascii::crlf;
use stream_errors::parser_error::ParserError;
use stream_searches::compare::Compare;
use streams::stream::StreamIsPartial;
use winnow_core::parser::Parser;

/// The parser [`crlf`](crate::ascii::crlf).
///
/// ```
/// assert_eq!(rt; Crlf.parse_peek("\r\na"), Ok::<_, EmptyError>(("a", "\r\n")));
/// ```
#[derive(Clone, Copy, Debug, PartialEq, Eq)]
pub struct Crlf;

impl<I: StreamIsPartial + Compare<&'static str>, E: ParserError<I>> Parser<I, I::Slice, E>
    for Crlf {
    ghost State = { ⊤ };

    ghost state = { λ _. tt };

    ghost does = { CrlfDoes I.reading I.spells };

    ghost terms = { record {
      premise = SpellsByText I.spells;
      stable = ⊤;
      alike = ShowSame I.reading;
      claim = λ s. record {
        premise = SpellsByText I.spells;
        backtracks = ⊤;
        spares_memory = ⊤;
        consumes = SpelledBy I.spells (13 ∷ 10 ∷ []) [] → ⊥;
        grammar = LiterallyBytes I.reading I.spells (13 ∷ 10 ∷ []);
      };
    } };

    ghost lawful = { record {
      law = λ is. crlf_law I.reading I.spells I.same_units is;
      claimed = λ s. record {
        projects = λ at is. text_projects I.reading I.spells I.same_units is (13 ∷ 10 ∷ []);
        takes = λ is some. literally_takes I.reading (SpelledBy I.spells) (λ _ slice. slice)
            (13 ∷ 10 ∷ []) some;
      };
    } };

    #[inline(always)]
    fn parse_next(&mut self, input: &mut I) -> Result<I::Slice, E> {
        crlf(input)
    }
}
