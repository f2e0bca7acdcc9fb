//! The decoder of a chunked body (RFC 9112, section 7.1).
//!
//! ```
//! use format_http_chunked::decoder::{Decoder, SAFE_LIMITS, Step};
//!
//! let mut decoder = Decoder::new(SAFE_LIMITS);
//! let mut piece = b"4\r\nWi".as_slice();
//! assert!(rt; matches!(decoder.advance(&mut piece), Ok(Step::Data(b"Wi"))));
//! assert!(rt; matches!(decoder.advance(&mut piece), Ok(Step::More)));
//! let mut next = b"ki\r\n0\r\n\r\nHTTP".as_slice();
//! assert!(rt; matches!(decoder.advance(&mut next), Ok(Step::Data(b"ki"))));
//! assert!(rt; matches!(decoder.advance(&mut next), Ok(Step::End)));
//! assert_eq!(rt; next, b"HTTP".as_slice());
//! ```
#![tactic(auto)]

ghost use Rattle.format_http_chunked.specs.Decoded.{IsAnswer, IsAt};
ghost use Rattle.format_http_chunked.specs.Room.{IsSpent, PartSpends, Spends};
ghost use Rattle.format_http_chunked.specs.Outputs.{OutputBeforeRest, PartBeforeRest};
ghost use Rattle.format_http_chunked.specs.State.{decoder_of};
ghost use Rattle.format_http_chunked.specs.Steps.{IsPartResult, IsResult, IsTaken};
ghost use Rattle.format_http_chunked.specs.declared.places.Framing.TheVariants as framing;
ghost use Rattle.format_http_chunked.specs.declared.places.Place.TheVariants as place;
ghost use Rattle.std.specs.Prelude.{◌≡◌, ◌<◌, Ok, ℕ, List, []};

use crate::fields::{ends_there, field_behind, front, pass_fields};
use crate::framing::{pass_line, place_after, taken_of};
use crate::places::{Framing, InField, Place};
use crate::state::{ChunkedState, numbers_of, place_of};

/// The limits on bytes that a sender could repeat forever in a chunk: zeros, extensions, fields.
/// All extensions together have no limit, and data only that of a chunk, 2<sup>64</sup> - 1 bytes.
///
/// ```
/// use format_http_chunked::decoder::{Decoder, ChunkError, Limits};
///
/// let mut decoder = Decoder::new(Limits { size_line: 3, trailers: 0 });
/// assert!(rt; decoder.advance(&mut b"0;".as_slice()).is_ok());
/// let refused = decoder.advance(&mut b"ab".as_slice());
/// assert!(rt; matches!(refused, Err(ChunkError::SizeLineTooLong)));
/// ```
#[derive(Clone, Copy, Debug, PartialEq, Eq)]
pub struct Limits {
    /// The maximal number of bytes between data, before the first and after the last: a size line
    /// with its extensions, and the adjacent line endings.
    pub size_line: usize,
    /// Of the trailer section, without the line end after it.
    pub trailers: usize,
}

/// Limits for a server: 4,096 bytes between data, and 8,192 of the trailer section.
///
/// ```
/// use format_http_chunked::decoder::SAFE_LIMITS;
///
/// assert_eq!(rt; SAFE_LIMITS.size_line, 4096);
/// ```
pub const SAFE_LIMITS: Limits = Limits {
    size_line: 4096,
    trailers: 8192,
};

/// The reason why a byte is rejected. It is the first byte of the input after the call.
///
/// ```
/// use format_http_chunked::decoder::{Decoder, ChunkError, SAFE_LIMITS};
///
/// let mut input = b"1\r\nab".as_slice();
/// let mut decoder = Decoder::new(SAFE_LIMITS);
/// assert!(rt; decoder.advance(&mut input).is_ok());
/// assert!(rt; matches!(decoder.advance(&mut input), Err(ChunkError::DataEnd)));
/// assert_eq!(rt; input, b"b".as_slice());
/// ```
#[derive(Clone, Copy, Debug, PartialEq, Eq)]
pub enum ChunkError {
    /// A size line does not start with a hexadecimal digit.
    Size,
    /// No size line continues with the byte: it is not part of an extension or of a line ending.
    SizeLine,
    /// With this digit the size is 2<sup>64</sup> or more.
    SizeTooLarge,
    /// More than [`Limits::size_line`] bytes would precede the next data, or the end.
    SizeLineTooLong,
    /// The data of a chunk is not followed by a carriage return and a line feed.
    DataEnd,
    /// Neither a field line nor the line ending after the trailer section continues with the byte.
    Trailers,
    /// The trailer section would have more bytes than [`Limits::trailers`] lets.
    TrailersTooLong,
}

/// The part of a body that bytes belong to.
///
/// ```
/// use format_http_chunked::decoder::Step;
///
/// assert!(rt; Step::Data(b"Wiki") != Step::End);
/// ```
#[derive(Clone, Copy, Debug, PartialEq)]
pub enum Step<'i> {
    /// Data of a chunk, one byte or more.
    Data(&'i [u8]),
    /// One or more bytes of the trailer section. Concatenated, all of them are complete field
    /// lines, each with its line ending. They do not include the line ending after the section.
    Trailers(&'i [u8]),
    /// The body is complete. The remaining input follows it.
    End,
    /// All bytes are taken, and more are needed.
    More,
}

/// The state of decoding a chunked body. It is a few words, and holds none of the bytes: a copy of
/// it resumes from the same position.
///
/// ```
/// use format_http_chunked::decoder::{Decoder, SAFE_LIMITS, Step};
///
/// let mut decoder = Decoder::new(SAFE_LIMITS);
/// let mut input = b"0\r\n".as_slice();
/// assert!(rt; matches!(decoder.advance(&mut input), Ok(Step::More)));
/// let mut copy = decoder;
/// assert!(rt; matches!(copy.advance(&mut b"\r\n".as_slice()), Ok(Step::End)));
/// ```
#[derive(Clone, Copy, Debug, PartialEq, Eq)]
pub struct Decoder {
    /// The position of the next byte in the body.
    place: Place,
    /// The number of bytes allowed before the next data.
    room: usize,
    /// How many bytes more the trailer section may have.
    trailer_room: usize,
    /// How many they may have in all.
    limits: Limits,
}

impl Decoder {
    /// Nothing of the body is taken.
    ///
    /// ```
    /// use format_http_chunked::decoder::{Decoder, SAFE_LIMITS};
    ///
    /// assert!(rt; Decoder::new(SAFE_LIMITS) == Decoder::new(SAFE_LIMITS));
    /// ```
    pub fn new(limits: Limits) -> Decoder
        ensures told { IsAt result.place [] [] [] }
        ensures room { (result.limits ≡ limits) × (result.room ≡ limits.size_line)
            × (result.trailer_room ≡ limits.trailers) }
        ensures place { result.place ≡ place.Framing framing.Start }
    {
        Decoder {
            place: Place::Framing(Framing::Start),
            room: limits.size_line,
            trailer_room: limits.trailers,
            limits,
        }
    }

    /// The decoder as numbers.
    ///
    /// ```
    /// use format_http_chunked::decoder::{Decoder, SAFE_LIMITS};
    ///
    /// let decoder = Decoder::new(SAFE_LIMITS);
    /// assert!(rt; Decoder::of_state(decoder.state()) == decoder);
    /// ```
    pub fn state(self) -> ChunkedState
        ensures { decoder_of result ≡ self }
    {
        let (number, within, size) = numbers_of(self.place);
        ChunkedState {
            place: number + 1,
            within,
            size,
            room: self.room,
            trailer_room: self.trailer_room,
            size_line: self.limits.size_line,
            trailers: self.limits.trailers,
        }
    }

    /// Creates the decoder for these numbers, which may have any values. If `place` is 0, it is a
    /// new decoder with the limits for a server, regardless of the other numbers.
    ///
    /// ```
    /// use format_http_chunked::decoder::{Decoder, SAFE_LIMITS, Step};
    ///
    /// let mut decoder = Decoder::new(SAFE_LIMITS);
    /// assert!(rt; matches!(decoder.advance(&mut b"0\r\n".as_slice()), Ok(Step::More)));
    /// let mut again = Decoder::of_state(decoder.state());
    /// assert!(rt; matches!(again.advance(&mut b"\r\n".as_slice()), Ok(Step::End)));
    /// ```
    pub fn of_state(state: ChunkedState) -> Decoder
        ensures { result ≡ decoder_of state }
    {
        match state.place.checked_sub(1) {
            None => Decoder::new(SAFE_LIMITS),
            Some(number) => Decoder {
                place: place_of(number, state.within, state.size),
                room: state.room,
                trailer_room: state.trailer_room,
                limits: Limits {
                    size_line: state.size_line,
                    trailers: state.trailers,
                },
            },
        }
    }

    /// Consumes a byte that is not part of the output.
    #[inline(always)]
    fn pass_byte<'i>(
        &mut self,
        at: Framing,
        input: &mut &'i [u8],
    ) -> Result<Option<Step<'i>>, ChunkError>
        requires { self.old.place ≡ place.Framing at }
        ensures told { IsPartResult self.old self.new input.old.now input.new.now result }
        ensures spent { PartSpends self.old self.new input.old.now input.new.now result }
        ensures stands { PartBeforeRest input.old.now input.new.now result }
    {
        match input.split_first() {
            None => Ok(Some(Step::More)),
            Some((byte, rest)) => match place_after(at, *byte) {
                Err(fault) => Err(fault),
                Ok(next) => match self.room.checked_sub(1) {
                    None => Err(ChunkError::SizeLineTooLong),
                    Some(room) => {
                        self.place = next;
                        self.room = room;
                        *input = rest;
                        Ok(None)
                    }
                },
            },
        }
    }

    /// Consumes a size line without extensions, if the bytes start with one that the room allows.
    #[inline(always)]
    fn pass_size_line(&mut self, input: &mut &[u8])
        ensures told { IsTaken self.old.place self.new.place input.old.now input.new.now [] [] }
        ensures spent { IsSpent self.old self.new input.old.now input.new.now 0 }
    {
        match pass_line(self.place, input) {
            None => {}
            Some((next, rest)) => match self.room.checked_sub(input.len() - rest.len()) {
                None => {}
                Some(room) => {
                    self.place = next;
                    self.room = room;
                    *input = rest;
                }
            },
        }
    }

    /// Consumes data of a chunk. `size` is the number of bytes of data that remain.
    #[inline(always)]
    fn pass_data<'i>(&mut self, size: u64, input: &mut &'i [u8]) -> Step<'i>
        requires due { self.old.place ≡ place.Data size }
        requires some { 0 < size }
        ensures told { IsResult self.old self.new input.old.now input.new.now (Ok result) }
        ensures spent { Spends self.old self.new input.old.now input.new.now (Ok result) }
        ensures stands { OutputBeforeRest input.old.now input.new.now (Ok result) }
    {
        let all = *input;
        if all.is_empty() {
            return Step::More;
        }
        let here = taken_of(size, all.len());
        let (data, rest) = all.split_at(here);
        self.place = Place::Data(size - here as u64);
        self.room = self.limits.size_line;
        *input = rest;
        Step::Data(data)
    }

    /// Takes bytes of the trailer section.
    fn pass_trailers<'i>(
        &mut self,
        at: InField,
        input: &mut &'i [u8],
    ) -> Result<Option<Step<'i>>, ChunkError>
        requires { self.old.place ≡ place.Trailers at }
        ensures told { IsPartResult self.old self.new input.old.now input.new.now result }
        ensures spent { PartSpends self.old self.new input.old.now input.new.now result }
        ensures stands { PartBeforeRest input.old.now input.new.now result }
    {
        let all = *input;
        match all.split_first() {
            None => Ok(Some(Step::More)),
            Some((byte, behind)) => match field_behind(at, *byte) {
                Some(next) => match self.trailer_room.checked_sub(1) {
                    None => Err(ChunkError::TrailersTooLong),
                    Some(room) => {
                        let (last, less, rest) = pass_fields(next, room, behind);
                        self.place = Place::Trailers(last);
                        self.trailer_room = less;
                        *input = rest;
                        Ok(Some(Step::Trailers(front(all, all.len() - rest.len()))))
                    }
                },
                None => {
                    if !ends_there(at, *byte) {
                        return Err(ChunkError::Trailers);
                    }
                    match self.room.checked_sub(1) {
                        None => Err(ChunkError::SizeLineTooLong),
                        Some(room) => {
                            self.place = Place::Framing(Framing::LastReturn);
                            self.room = room;
                            *input = behind;
                            Ok(None)
                        }
                    }
                }
            },
        }
    }

    /// Takes some of the bytes that are there.
    #[inline(always)]
    fn part<'i>(&mut self, input: &mut &'i [u8]) -> Result<Option<Step<'i>>, ChunkError>
        ensures told { IsPartResult self.old self.new input.old.now input.new.now result }
        ensures spent { PartSpends self.old self.new input.old.now input.new.now result }
        ensures stands { PartBeforeRest input.old.now input.new.now result }
    {
        match self.place {
            Place::Done => Ok(Some(Step::End)),
            Place::Trailers(at) => self.pass_trailers(at, input),
            Place::Data(size) => {
                if size == 0 {
                    self.place = Place::Framing(Framing::DataEnd);
                    return self.pass_byte(Framing::DataEnd, input);
                }
                Ok(Some(self.pass_data(size, input)))
            }
            Place::Framing(at) => self.pass_byte(at, input),
        }
    }

    /// Consumes bytes up to the next result.
    #[inline(always)]
    fn run<'i>(&mut self, input: &mut &'i [u8]) -> Result<Step<'i>, ChunkError>
        ensures told { IsResult self.old self.new input.old.now input.new.now result }
        ensures spent { Spends self.old self.new input.old.now input.new.now result }
        ensures stands { OutputBeforeRest input.old.now input.new.now result }
    {
        self.pass_size_line(input);
        'bytes: loop {
            match self.part(input) {
                Err(fault) => return Err(fault),
                Ok(said) => match said {
                    Some(step) => return Ok(step),
                    None => {}
                },
            }
        }
    }

    /// Consumes the first bytes of the input and returns their kind: data, bytes of trailers, or
    /// the end. If more bytes are needed, it consumes all of them and returns [`Step::More`]. Each
    /// byte must be passed once: after [`Step::More`] the next input is the continuation of the
    /// last one. For the bytes consumed in all calls, the data are the content of the chunked body,
    /// in order, however the bytes are divided. It returns `End` when the body is complete, and
    /// `More` while it is incomplete and can be completed. An error is for the first byte that
    /// cannot continue a body. That byte is not consumed, so the input then starts with it, and the
    /// next call rejects it again.
    ///
    /// Bytes of size lines are examined at most twice, those of trailers once, and those of data
    /// not at all: the time is linear in the bytes, however they are divided. Extensions are
    /// skipped, and field lines are returned unchanged; `format_http::heads` reads them. Whitespace
    /// may surround the delimiters of an extension (RFC 9112, section 7.1.1). A single line feed is
    /// not a line ending.
    ///
    /// # Errors
    ///
    /// The [`ChunkError`] is the reason. [`ChunkError::SizeTooLarge`] is for a body of
    /// 2<sup>64</sup> bytes or more, which the standard allows. The two errors for excessive length
    /// are for the limits; some body continues with the byte. With any other error no body starts
    /// with the bytes up to that one, and the error names the part that is expected.
    ///
    /// ```
    /// use format_http_chunked::decoder::{Decoder, SAFE_LIMITS, Step};
    ///
    /// let mut decoder = Decoder::new(SAFE_LIMITS);
    /// let mut input = b"0;a=\"b\"\r\nName: value\r\n\r\n".as_slice();
    /// let fields = decoder.advance(&mut input);
    /// assert!(rt; matches!(fields, Ok(Step::Trailers(b"Name: value\r\n"))));
    /// assert!(rt; matches!(decoder.advance(&mut input), Ok(Step::End)));
    /// ```
    pub fn advance<'i>(&mut self, input: &mut &'i [u8]) -> Result<Step<'i>, ChunkError>
        ensures spent { Spends self.old self.new input.old.now input.new.now result }
        ensures stands { OutputBeforeRest input.old.now input.new.now result }
        ensures told { (front given fields : List ℕ) → IsAt self.old.place front given fields
            → IsAnswer self.new front given fields input.old.now input.new.now result }
    {
        self.run(input)
    }
}
