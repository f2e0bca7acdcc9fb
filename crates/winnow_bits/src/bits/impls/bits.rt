//! A parser of bits, run on bytes.
ghost use Rattle.parser_definitions.specs.BitsOfBytes.{BitsOfBytesDoes, bits_of_bytes_law};
ghost use Rattle.parser_definitions.specs.Terms.{no_claim, nothing_claimed};

use crate::bits::whole::{in_bytes, whole_bytes};
use std::marker::PhantomData;
pub use stream_bits::bits::Bits;
pub use stream_bits::offsets::BitOffsets;
use stream_errors::convert::ErrorConvert;
use stream_errors::parser_error::ParserError;
use streams::byte_stream::ByteStream;
use winnow_core::parser::Parser;

/// The parser that [`bits`](crate::bits::bits) makes.
///
/// ```
/// use winnow::binary::bits::bits;
/// use winnow::binary::bits::impls::{BitsParser, Bool};
///
/// let mut parser: BitsParser<_, _, bool, EmptyError, _> = bits(Bool);
/// let mut input = b"\x80\x01".as_slice();
/// assert_eq!(rt; parser.parse_next(&mut input), Ok::<_, EmptyError>(true));
/// ```
#[derive(Drop)]
pub struct BitsParser<P, I, O, E, F> {
    pub(crate) parser: P,
    pub(crate) marker: PhantomData<(I, O, E, F)>,
}

impl<
    I: ByteStream + Copy,
    P: Parser<Bits<I>, O, E>,
    O: Drop,
    E: ParserError<Bits<I>> + ErrorConvert<F>,
    F: ParserError<I>,
> Parser<I, O, F> for BitsParser<P, I, O, E, F> {
    ghost can_parse = { λ s. P.can_parse s.parser };

    ghost State = { P.State };

    ghost state = { λ s. P.state s.parser };

    ghost does = { BitsOfBytesDoes I.reading P.does };

    ghost terms = { record {
      premise = P.terms.premise;
      stable = ⊥;
      alike = P.terms.alike;
      claim = λ _. no_claim;
    } };

    ghost lawful = { record {
      law = λ is. bits_of_bytes_law I.reading (P.lawful.law is);
      claimed = λ _. nothing_claimed;
    } };

    #[inline]
    fn parse_next(&mut self, input: &mut I) -> Result<O, F> {
        input.shows_bytes();
        let mut inner = Bits(*input, 0);
        if !inner.is_possible() {
            return Err(F::assert(input, "more bytes than their bits can be counted"));
        }
        match self.parser.parse_next(&mut inner) {
            Ok(output) => {
                if !inner.is_possible() {
                    return Err(F::assert(input, "the parser left bits that cannot be read"));
                }
                *input = whole_bytes(inner);
                Ok(output)
            }
            Err(error) => Err(in_bytes(input, error)),
        }
    }
}
