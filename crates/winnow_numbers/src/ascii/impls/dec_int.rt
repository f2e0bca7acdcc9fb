//! Decimal signed numbers.
ghost use Rattle.std.specs.Prelude.{⊤};
ghost use Rattle.parser_definitions.specs.HexUint.{OneNumber};
ghost use Rattle.parser_definitions.specs.Number.{DecIntDoes, number_law, signed_apart};
ghost use Rattle.parser_definitions.specs.Number.{signed_numbers};
ghost use Rattle.parser_definitions.specs.NumberGrammar.{SignedDecimal};
ghost use Rattle.parser_definitions.specs.Projects.Decimals.{dec_int_projects, signed_takes};

use crate::ascii::{Int, dec_int};
use stream_errors::parser_error::ParserError;
use stream_sets::as_bstr::{AsBStr, SlicesAsBytes};
use stream_sets::as_char::AsChar;
use streams::stream::StreamIsPartial;
use winnow_core::parser::Parser;

/// The parser [`dec_int`](crate::ascii::dec_int), of each type of output.
///
/// ```
/// assert_eq!(rt; DecInt.parse_peek("-12;"), Ok::<_, EmptyError>((";", -12_i8)));
/// ```
#[derive(Clone, Copy, Debug, PartialEq, Eq)]
pub struct DecInt;

impl<I: StreamIsPartial + SlicesAsBytes, O: Int, E: ParserError<I>> Parser<I, O, E> for DecInt
where
    I::Token: AsChar,
    I::Slice: AsBStr,
{
    ghost State = { ⊤ };

    ghost state = { λ _. tt };

    ghost does = { DecIntDoes O.number O.fits I.seen_as I.Token.code I.reading };

    ghost terms = { record {
      premise = ⊤;
      stable = ⊤;
      alike = OneNumber O.number;
      claim = λ s. record {
        premise = ⊤;
        backtracks = ⊤;
        spares_memory = ⊤;
        consumes = ⊤;
        grammar = SignedDecimal O.number O.fits I.seen_as I.Token.code;
      };
    } };

    ghost lawful = { record {
      law = λ _. number_law (signed_numbers O.number O.fits) I.seen_as I.Token.code
          I.reading I.one_code (signed_apart O.number O.fits);
      claimed = λ s. record {
        projects = λ at is. dec_int_projects O.number O.fits I.seen_as I.Token.code I.reading
            I.one_code at s;
        takes = λ is some. signed_takes O.number O.fits I.seen_as I.Token.code;
      };
    } };

    #[inline(always)]
    fn parse_next(&mut self, input: &mut I) -> Result<O, E> {
        dec_int(input)
    }
}
