//! Decimal unsigned numbers.
ghost use Rattle.std.specs.Prelude.{⊤};
ghost use Rattle.parser_definitions.specs.HexUint.{OneNumber};
ghost use Rattle.parser_definitions.specs.Number.{DecUintDoes, number_law, unsigned_apart};
ghost use Rattle.parser_definitions.specs.Number.{unsigned_numbers};
ghost use Rattle.parser_definitions.specs.NumberGrammar.{Decimal};
ghost use Rattle.parser_definitions.specs.Projects.Decimals.{dec_uint_projects, decimal_takes};

use crate::ascii::{Uint, dec_uint};
use stream_errors::parser_error::ParserError;
use stream_sets::as_bstr::{AsBStr, SlicesAsBytes};
use stream_sets::as_char::AsChar;
use streams::stream::StreamIsPartial;
use winnow_core::parser::Parser;

/// The parser [`dec_uint`](crate::ascii::dec_uint), of each type of output.
///
/// ```
/// assert_eq!(rt; DecUint.parse_peek("12;"), Ok::<_, EmptyError>((";", 12_u8)));
/// ```
#[derive(Clone, Copy, Debug, PartialEq, Eq)]
pub struct DecUint;

impl<I: StreamIsPartial + SlicesAsBytes, O: Uint, E: ParserError<I>> Parser<I, O, E> for DecUint
where
    I::Token: AsChar,
    I::Slice: AsBStr,
{
    ghost State = { ⊤ };

    ghost state = { λ _. tt };

    ghost does = { DecUintDoes O.number O.bound I.seen_as I.Token.code I.reading };

    ghost terms = { record {
      premise = ⊤;
      stable = ⊤;
      alike = OneNumber O.number;
      claim = λ s. record {
        premise = ⊤;
        backtracks = ⊤;
        spares_memory = ⊤;
        consumes = ⊤;
        grammar = Decimal O.number O.bound I.seen_as I.Token.code;
      };
    } };

    ghost lawful = { record {
      law = λ _. number_law (unsigned_numbers O.number O.bound) I.seen_as I.Token.code
          I.reading I.one_code (unsigned_apart O.number O.bound);
      claimed = λ s. record {
        projects = λ at is. dec_uint_projects O.number O.bound I.seen_as I.Token.code I.reading
            I.one_code at s;
        takes = λ is some. decimal_takes O.number O.bound I.seen_as I.Token.code;
      };
    } };

    #[inline(always)]
    fn parse_next(&mut self, input: &mut I) -> Result<O, E> {
        dec_uint(input)
    }
}
