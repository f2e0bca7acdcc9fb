//! The header of a message of the Domain Name System (RFC 1035, section 4.1.1), over complete or
//! partial input. The two bytes of flags are parsed by bits, the other numbers by bytes.
#![tactic(auto)]

ghost use Rattle.std.specs.Prelude.{◌≡◌, ◌⊎◌, ◌≤◌, ◌<◌, ◌+◌, ◌*◌, length, IfErr, IfOk, IsOk, ℕ};
ghost use Rattle.winnow_bits.specs.BitTake.{bit_take_count};
ghost use Rattle.streams.specs.Bytes.{bytes_input, bytes_reading};
ghost use Rattle.streams.specs.Following.{most_bytes};
ghost use Rattle.streams.specs.Input.{IsEndOf};
ghost use Rattle.format_dns.specs.Header.{AreCounts, HasNoHeader, HasTooMany, IsHeader, IsHighByte};
ghost use Rattle.format_dns.specs.Header.{IsLowByte, IsTwoByteNumber, LacksPart};

use stream_errors::empty::EmptyError;
use stream_errors::has_kind::HasKind;
use stream_errors::mode::ErrMode;
use stream_errors::parser_error::ParserError;
use streams::byte_stream::ByteStream;
use streams::partial::Partial;
use streams::stream::{Stream, StreamIsPartial};
use winnow_bits::bits::impls::{Bits, Bool, Take};
use winnow_bits::bits::{bits, take};
use winnow_core::parser::Parser;
use winnow_integers::binary::impls::BeU16;

/// The header of a message.
#[derive(Clone, Copy, Debug, PartialEq, Eq)]
pub struct Header {
    /// The identifier of the question and its response.
    pub id: u16,
    /// Whether the message is a response, and no query.
    pub is_response: bool,
    /// The kind of query, a number of 4 bits.
    pub opcode: u8,
    /// Whether the server that responds is an authority for the name.
    pub is_authoritative: bool,
    /// Whether the message was cut off.
    pub is_truncated: bool,
    /// Whether the server is asked to pursue the query recursively.
    pub recursion_desired: bool,
    /// Whether the server that responds can do so, for any query.
    pub recursion_available: bool,
    /// The reserved bits, a number of 3 bits.
    pub reserved: u8,
    /// The response code, a number of 4 bits.
    pub response_code: u8,
    /// The number of entries in the question section.
    pub question_count: u16,
    /// The number of records in the answer section.
    pub answer_count: u16,
    /// The number of records in the authority section.
    pub authority_count: u16,
    /// The number of records in the additional section.
    pub additional_count: u16,
}

/// The parsers of the higher byte of flags.
type High<I, E> = (Bool, Take<I, u8, E>, (Bool, Bool, Bool));

/// The output of the parsers of the flags.
type HighFlags = (bool, u8, (bool, bool, bool));

/// The parsers of the lower byte of flags.
type Low<I, E> = (Bool, Take<I, u8, E>, Take<I, u8, E>);

/// The parser of the higher byte of flags.
fn high<I: ByteStream + StreamIsPartial, E: ParserError<Bits<I>>>() -> High<I, E>
    ensures opcode { bit_take_count result.1 ≡ 4 }
{
    (Bool, take(4_u8), (Bool, Bool, Bool))
}

/// The parser of the lower byte of flags.
fn low<I: ByteStream + StreamIsPartial, E: ParserError<Bits<I>>>() -> Low<I, E>
    ensures reserved { bit_take_count result.1 ≡ 3 }
    ensures response_code { bit_take_count result.2 ≡ 4 }
{
    (Bool, take(3_u8), take(4_u8))
}

/// The flags of the higher byte.
fn high_flags<I: ByteStream + StreamIsPartial + Copy>(
    input: &mut I,
) -> Result<HighFlags, ErrMode<EmptyError>>
    ensures flags { IfOk result (λ o. IsHighByte o.0 o.1 o.2.0 o.2.1 o.2.2
        (I.view input.old).left.tokens (I.view input.new).left.tokens) }
    ensures left { IfOk result (λ _. length (I.view input.old).left.tokens
        ≡ 1 + length (I.view input.new).left.tokens) }
    ensures accepts { 1 ≤ length (I.view input.old).left.tokens
        → length (I.view input.old).left.tokens ≤ most_bytes → IsOk result }
    ensures ends { IsEndOf I.reading (I.view input.new) (I.view input.old) }
    ensures fails { IfErr result (λ error. LacksPart 0 1 (I.view input.old)
        (⟦<ErrMode<EmptyError> as HasKind>⟧.kind error) (I.view input.new)
        ⊎ HasTooMany 0 (I.view input.old) (⟦<ErrMode<EmptyError> as HasKind>⟧.kind error)
        (I.view input.new)) }
{
    input.shows_bytes();
    match bits(high::<I, ErrMode<EmptyError>>()).parse_next(input) {
        Ok(flags) => Ok(flags),
        Err(error) => Err(error),
    }
}

/// The flags of the lower byte.
fn low_flags<I: ByteStream + StreamIsPartial + Copy>(
    input: &mut I,
) -> Result<(bool, u8, u8), ErrMode<EmptyError>>
    ensures flags { IfOk result (λ o. IsLowByte o.0 o.1 o.2
        (I.view input.old).left.tokens (I.view input.new).left.tokens) }
    ensures left { IfOk result (λ _. length (I.view input.old).left.tokens
        ≡ 1 + length (I.view input.new).left.tokens) }
    ensures accepts { 1 ≤ length (I.view input.old).left.tokens
        → length (I.view input.old).left.tokens ≤ most_bytes → IsOk result }
    ensures ends { IsEndOf I.reading (I.view input.new) (I.view input.old) }
    ensures fails { IfErr result (λ error. LacksPart 0 1 (I.view input.old)
        (⟦<ErrMode<EmptyError> as HasKind>⟧.kind error) (I.view input.new)
        ⊎ HasTooMany 0 (I.view input.old) (⟦<ErrMode<EmptyError> as HasKind>⟧.kind error)
        (I.view input.new)) }
{
    input.shows_bytes();
    match bits(low::<I, ErrMode<EmptyError>>()).parse_next(input) {
        Ok(flags) => Ok(flags),
        Err(error) => Err(error),
    }
}

/// A number of two bytes, the higher first.
pub(crate) fn number<I: ByteStream + StreamIsPartial>(
    input: &mut I,
) -> Result<u16, ErrMode<EmptyError>>
    ensures number { IfOk result (λ n. IsTwoByteNumber n
        (I.view input.old).left.tokens (I.view input.new).left.tokens) }
    ensures left { IfOk result (λ _. length (I.view input.old).left.tokens
        ≡ 2 + length (I.view input.new).left.tokens) }
    ensures accepts { 2 ≤ length (I.view input.old).left.tokens → IsOk result }
    ensures ends { IsEndOf I.reading (I.view input.new) (I.view input.old) }
    ensures fails { IfErr result (λ error. LacksPart 0 2 (I.view input.old)
        (⟦<ErrMode<EmptyError> as HasKind>⟧.kind error) (I.view input.new)) }
{
    match BeU16.parse_next(input) {
        Ok(number) => Ok(number),
        Err(error) => Err(error),
    }
}

/// The four counts.
fn counts<I: ByteStream + StreamIsPartial>(
    input: &mut I,
) -> Result<(u16, u16, u16, u16), ErrMode<EmptyError>>
    ensures counts { IfOk result (λ o. AreCounts o.0 o.1 o.2 o.3
        (I.view input.old).left.tokens (I.view input.new).left.tokens) }
    ensures accepts { 8 ≤ length (I.view input.old).left.tokens → IsOk result }
    ensures ends { IsEndOf I.reading (I.view input.new) (I.view input.old) }
    ensures fails { IfErr result (λ error. (half : ℕ) × (half < 4)
        × LacksPart (2 * half) 2 (I.view input.old)
        (⟦<ErrMode<EmptyError> as HasKind>⟧.kind error) (I.view input.new)) }
{
    let question_count = number(input)?;
    let answer_count = number(input)?;
    let authority_count = number(input)?;
    let additional_count = number(input)?;
    Ok((
        question_count,
        answer_count,
        authority_count,
        additional_count,
    ))
}

/// Parses the header of a message, from any stream of bytes: any twelve bytes are a header.
///
/// Fails on fewer bytes, and leaves the input before the incomplete part: a number of two bytes or
/// a byte of flags. On partial input it returns `Incomplete` with the number of bytes that the part
/// lacks.
pub fn header_of<I: ByteStream + StreamIsPartial + Copy>(
    input: &mut I,
) -> Result<Header, ErrMode<EmptyError>>
    ensures header { IfOk result (λ header. IsHeader header
        (I.view input.old).left.tokens (I.view input.new).left.tokens) }
    ensures accepts { 12 ≤ length (I.view input.old).left.tokens
        → length (I.view input.old).left.tokens ≤ most_bytes → IsOk result }
    ensures ends { IsEndOf I.reading (I.view input.new) (I.view input.old) }
    ensures fails { IfErr result (λ error. HasNoHeader (I.view input.old)
        (⟦<ErrMode<EmptyError> as HasKind>⟧.kind error) (I.view input.new)) }
{
    let id = number(input)?;
    let high = high_flags(input)?;
    let low = low_flags(input)?;
    let counts = counts(input)?;
    let (is_response, opcode, (is_authoritative, is_truncated, recursion_desired)) = high;
    let (recursion_available, reserved, response_code) = low;
    Ok(Header {
        id,
        is_response,
        opcode,
        is_authoritative,
        is_truncated,
        recursion_desired,
        recursion_available,
        reserved,
        response_code,
        question_count: counts.0,
        answer_count: counts.1,
        authority_count: counts.2,
        additional_count: counts.3,
    })
}

/// The header of a message, with which the bytes begin: twelve bytes, whatever they are. Of fewer
/// bytes there is none, and the input is left before the part that is not there. Only of fewer than
/// 2 to the 61 bytes the bits can be counted.
///
/// ```
/// use format_dns::header::read_header;
///
/// let mut input = b"\x12\x34\x81\x80\x00\x01\x00\x02\x00\x00\x00\x00rest".as_slice();
/// let header = read_header(&mut input);
/// assert!(rt; matches!(header, Ok(header) if header.id == 0x1234 && header.is_response));
/// assert!(rt; matches!(header, Ok(header) if header.answer_count == 2));
/// assert_eq!(rt; input, b"rest".as_slice());
/// assert!(rt; read_header(&mut b"\x12\x34\x81".as_slice()).is_err());
/// ```
pub fn read_header<'i>(input: &mut &'i [u8]) -> Result<Header, ErrMode<EmptyError>>
    ensures header { IfOk result (λ header. IsHeader header input.old.now input.new.now) }
    ensures accepts { 12 ≤ length input.old.now → length input.old.now ≤ most_bytes
        → IsOk result }
    ensures ends { IsEndOf bytes_reading (bytes_input input.new.now) (bytes_input input.old.now) }
    ensures fails { IfErr result (λ error. HasNoHeader (bytes_input input.old.now)
        (⟦<ErrMode<EmptyError> as HasKind>⟧.kind error) (bytes_input input.new.now)) }
{
    header_of(input)
}

/// Like [`read_header`], for partial input: succeeds as soon as there are twelve bytes, and
/// otherwise returns `Incomplete` with the number of bytes that a part lacks.
///
/// ```
/// use format_dns::header::read_header_in_pieces;
///
/// let mut input = Partial::new(b"\x12\x34\x01\x00\x00\x01\x00\x00\x00".as_slice());
/// assert!(rt; matches!(read_header_in_pieces(&mut input), Err(ErrMode::Incomplete(_))));
/// ```
pub fn read_header_in_pieces<'i>(
    input: &mut Partial<&'i [u8]>,
) -> Result<Header, ErrMode<EmptyError>>
    ensures header { IfOk result (λ header. IsHeader header
        (⟦<Partial<&'static [u8]> as Stream>⟧.view input.old).left.tokens
        (⟦<Partial<&'static [u8]> as Stream>⟧.view input.new).left.tokens) }
    ensures accepts { 12 ≤ length (⟦<Partial<&'static [u8]> as Stream>⟧.view input.old).left.tokens
        → length (⟦<Partial<&'static [u8]> as Stream>⟧.view input.old).left.tokens ≤ most_bytes
        → IsOk result }
    ensures ends { IsEndOf bytes_reading (⟦<Partial<&'static [u8]> as Stream>⟧.view input.new)
        (⟦<Partial<&'static [u8]> as Stream>⟧.view input.old) }
    ensures fails { IfErr result (λ error.
        HasNoHeader (⟦<Partial<&'static [u8]> as Stream>⟧.view input.old)
        (⟦<ErrMode<EmptyError> as HasKind>⟧.kind error)
        (⟦<Partial<&'static [u8]> as Stream>⟧.view input.new)) }
{
    header_of(input)
}
