//! Parsers of bits, as winnow's documentation has them.
#![tactic(auto, using(streams::specs::Ends::ends_follow))]

ghost use Rattle.parser_definitions.specs.BitBool.{BitBoolDoes};
ghost use Rattle.parser_definitions.specs.Does.{Ran};
ghost use Rattle.std.specs.Prelude.{◌≡◌};
ghost use Rattle.stream_bits.specs.BitReading.{bits_reading};
ghost use Rattle.stream_errors.specs.Form.{answer_by};
ghost use Rattle.winnow_bits.specs.BitTake.{bit_take_count};

mod fields;
pub mod impls;
mod output;
mod whole;

pub use crate::bits::impls::{BitOffsets, Bits};
use crate::bits::impls::{BitsParser, Bytes, Pattern, Take};
pub use crate::bits::output::BitOutput;
use std::marker::PhantomData;
use stream_errors::parser_error::ParserError;
use stream_sets::numbers::ToUsize;
use streams::byte_stream::ByteStream;
use streams::needed::Needed;
use streams::stream::{Stream, StreamIsPartial};
use winnow_core::short::short;

/// Parses `count` bits and returns them as a number, most significant bit first.
///
/// If there are fewer bits it fails without consuming input; on partial input the error is
/// `Incomplete` with a need of `count` bits. It returns an assert error if `count` exceeds the
/// width of the output, or if the offset of the input is invalid. If `count` is 0 it returns 0, at
/// any offset.
///
/// ```
/// use winnow::binary::bits::Bits;
/// use winnow::binary::bits::take;
///
/// let mut input = Bits(b"\xAB\xCD".as_slice(), 4);
/// assert_eq!(rt; take(8u8).parse_next(&mut input), Ok::<u8, EmptyError>(0xBC));
/// assert_eq!(rt; input, Bits(b"\xCD".as_slice(), 4));
/// ```
#[inline(always)]
pub fn take<Input, Output, Count, Error>(count: Count) -> Take<Input, Output, Error>
where
    Input: ByteStream + StreamIsPartial,
    Output: BitOutput,
    Count: ToUsize + Drop,
    Error: ParserError<Bits<Input>>,
    ensures { bit_take_count result ≡ Count.number count }
{
    Take {
        count: count.to_usize(),
        marker: PhantomData,
    }
}

/// Parses `count` bits that must be the number `pattern`, and returns it.
///
/// If they are another number it fails without consuming input. Its other errors are those of
/// [`take`](crate::bits::take).
///
/// Known as `literal`, `just` and `tag` elsewhere.
///
/// ```
/// use winnow::binary::bits::Bits;
/// use winnow::binary::bits::pattern;
///
/// let mut input = Bits(b"\xAB".as_slice(), 0);
/// assert_eq!(rt; pattern(5_u8, 3u8).parse_next(&mut input), Ok::<_, EmptyError>(5));
/// assert_eq!(rt; input, Bits(b"\xAB".as_slice(), 3));
/// ```
#[inline(always)]
pub fn pattern<Input, Output, Count, Error>(
    pattern: Output,
    count: Count,
) -> Pattern<Input, Output, Error>
where
    Input: ByteStream + StreamIsPartial,
    Output: BitOutput,
    Count: ToUsize + Drop,
    Error: ParserError<Bits<Input>>,
    ensures value { result.value ≡ pattern }
    ensures count { result.count ≡ Count.number count }
{
    Pattern {
        value: pattern,
        count: count.to_usize(),
        marker: PhantomData,
    }
}

/// Parses one bit and returns `true` if it is 1. Known as `any` elsewhere.
///
/// If no bit remains it fails; on partial input the error is `Incomplete` with a need of 1 bit. It
/// returns an assert error if the offset of the input is invalid.
///
/// ```
/// use winnow::binary::bits::bool;
/// use winnow::binary::bits::Bits;
///
/// let mut input = Bits(b"\x80".as_slice(), 0);
/// assert_eq!(rt; bool(&mut input), Ok::<_, EmptyError>(true));
/// assert_eq!(rt; input, Bits(b"\x80".as_slice(), 1));
/// ```
#[inline(always)]
pub fn bool<Input: ByteStream + StreamIsPartial, Error: ParserError<Bits<Input>>>(
    input: &mut Bits<Input>,
) -> Result<bool, Error>
    ensures { Ran (bits_reading Input.reading) (BitBoolDoes (bits_reading Input.reading))
        Error.form (tt {0}) (⟦<Bits<Input> as Stream>⟧.view input.old)
        (answer_by Error.kind result) (tt {0}) (⟦<Bits<Input> as Stream>⟧.view input.new) }
{
    if !input.is_possible() {
        return Err(Error::assert(input, "bits that cannot be read"));
    }
    match input.next_token() {
        Some(bit) => Ok(bit),
        None => Err(short(input, Needed::new(1))),
    }
}

/// Runs `parser` on the bits of the bytes.
///
/// The bytes after the last consumed bit remain; the rest of a partly consumed byte is discarded.
/// If `parser` fails, no input is consumed. Its need of `n` bits becomes a need of `n / 8 + 1`
/// bytes; an unknown need and the other kinds of errors are unchanged.
///
/// More than `usize::MAX / 8` bytes, and an invalid offset left by `parser`, are assert errors; if
/// the error type has no mode, they backtrack.
///
/// ```
/// use winnow::binary::bits::{bits, take};
///
/// let mut input = b"\x12\x34\x56".as_slice();
/// let mut fields = bits::<_, (u8, u8), EmptyError, EmptyError, _>((take(4u8), take(8u8)));
/// assert_eq!(rt; fields.parse_next(&mut input), Ok((1, 0x23)));
/// assert_eq!(rt; input, b"\x56".as_slice());
/// ```
#[inline(always)]
pub fn bits<Input, Output, BitError, ByteError, ParseNext>(
    parser: ParseNext,
) -> BitsParser<ParseNext, Input, Output, BitError, ByteError>
    ensures { result.parser ≡ parser }
{
    BitsParser {
        parser,
        marker: PhantomData,
    }
}

/// Runs `parser` on the remaining whole bytes.
///
/// The rest of a partly consumed byte is discarded. If `parser` fails, no input is consumed. Its
/// need of `n` bytes becomes a need of `8 * n` bits, or an unknown need if that overflows `usize`
/// or `n` is unknown; the other kinds of errors are unchanged.
///
/// An invalid offset of the input is an assert error; if the error type has no mode, it backtracks.
///
/// ```
/// use winnow::binary::bits::bytes;
/// use winnow::binary::bits::Bits;
///
/// let mut input = Bits(b"\xAB\xCD\xEF".as_slice(), 4);
/// let mut byte = bytes::<_, u8, EmptyError, EmptyError, _>(Any);
/// assert_eq!(rt; byte.parse_next(&mut input), Ok(0xCD));
/// assert_eq!(rt; input, Bits(b"\xEF".as_slice(), 0));
/// ```
#[inline(always)]
pub fn bytes<Input, Output, ByteError, BitError, ParseNext>(
    parser: ParseNext,
) -> Bytes<ParseNext, Input, Output, ByteError, BitError>
    ensures { result.parser ≡ parser }
{
    Bytes {
        parser,
        marker: PhantomData,
    }
}
