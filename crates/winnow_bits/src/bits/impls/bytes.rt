//! A parser of bytes, run on bits.
ghost use Rattle.parser_definitions.specs.BytesOfBits.{BytesOfBitsDoes, bytes_of_bits_law};
ghost use Rattle.stream_bits.specs.BitReading.{bits_reading};
ghost use Rattle.parser_definitions.specs.Terms.{no_claim, nothing_claimed};

use crate::bits::whole::{in_bits, whole_bytes};
use std::marker::PhantomData;
use stream_bits::bits::Bits;
use stream_errors::convert::ErrorConvert;
use stream_errors::parser_error::ParserError;
use streams::byte_stream::ByteStream;
use winnow_core::parser::Parser;

/// The parser that [`bytes`](crate::bits::bytes) makes.
///
/// ```
/// use winnow::binary::bits::bytes;
/// use winnow::binary::bits::impls::{Bits, Bytes};
///
/// let mut parser: Bytes<_, _, _, EmptyError, _> = bytes(Rest);
/// let mut input = Bits(b"\xAB\xCD".as_slice(), 4);
/// assert_eq!(rt; parser.parse_next(&mut input), Ok::<_, EmptyError>(b"\xCD".as_slice()));
/// ```
#[derive(Drop)]
pub struct Bytes<P, I, O, E, F> {
    pub(crate) parser: P,
    pub(crate) marker: PhantomData<(I, O, E, F)>,
}

impl<
    P: Parser<I, O, E>,
    I: ByteStream + Copy,
    O,
    E: ParserError<I> + ErrorConvert<F>,
    F: ParserError<Bits<I>>,
> Parser<Bits<I>, O, F> for Bytes<P, I, O, E, F> {
    ghost can_parse = { λ s. P.can_parse s.parser };

    ghost State = { P.State };

    ghost state = { λ s. P.state s.parser };

    ghost does = { BytesOfBitsDoes (bits_reading I.reading) P.does };

    ghost terms = { record {
      premise = P.terms.premise;
      stable = ⊥;
      alike = P.terms.alike;
      claim = λ _. no_claim;
    } };

    ghost lawful = { record {
      law = λ is. bytes_of_bits_law (bits_reading I.reading) (P.lawful.law is);
      claimed = λ _. nothing_claimed;
    } };

    #[inline]
    fn parse_next(&mut self, input: &mut Bits<I>) -> Result<O, F> {
        if !input.is_possible() {
            return Err(F::assert(input, "bits that cannot be read"));
        }
        let mut bytes = whole_bytes(*input);
        match self.parser.parse_next(&mut bytes) {
            Ok(output) => {
                *input = Bits(bytes, 0);
                Ok(output)
            }
            Err(error) => Err(in_bits(input, error)),
        }
    }
}
