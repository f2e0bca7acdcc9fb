//! One bit.
ghost use Rattle.std.specs.Prelude.{◌≡◌, ⊤};
ghost use Rattle.parser_definitions.specs.BitBool.{BitBoolDoes, bit_bool_law};
ghost use Rattle.stream_bits.specs.BitReading.{bits_reading};
ghost use Rattle.parser_definitions.specs.Terms.{no_claim, nothing_claimed};

use crate::bits;
use stream_bits::bits::Bits;
use stream_errors::parser_error::ParserError;
use streams::byte_stream::ByteStream;
use streams::stream::StreamIsPartial;
use winnow_core::parser::Parser;

/// The parser [`bool`](crate::bits::bool).
///
/// ```
/// use winnow::binary::bits::impls::{Bits, Bool};
///
/// let mut input = Bits(b"\x80".as_slice(), 0);
/// assert_eq!(rt; (Bool, Bool).parse_next(&mut input), Ok::<_, EmptyError>((true, false)));
/// ```
#[derive(Clone, Copy, Debug, PartialEq, Eq)]
pub struct Bool;

impl<I: ByteStream + StreamIsPartial, E: ParserError<Bits<I>>> Parser<Bits<I>, bool, E> for Bool {
    ghost State = { ⊤ };

    ghost state = { λ _. tt };

    ghost does = { BitBoolDoes (bits_reading I.reading) };

    ghost terms = { record {
      premise = ⊤;
      stable = ⊤;
      alike = λ o p. o ≡ p;
      claim = λ _. no_claim;
    } };

    ghost lawful = { record {
      law = λ is. bit_bool_law (bits_reading I.reading);
      claimed = λ _. nothing_claimed;
    } };

    #[inline(always)]
    fn parse_next(&mut self, input: &mut Bits<I>) -> Result<bool, E> {
        bits::bool(input)
    }
}
