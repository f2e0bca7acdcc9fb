//! The errors of a whole parse.
ghost use Rattle.std.specs.Prelude.{◌≡◌, ◌+◌};
ghost use Rattle.streams.specs.Input.{Remains, back_at};

use crate::parser_error::ParserError;
use streams::needed::Needed;
use streams::stream::Stream;

/// The error of a whole parse, with its offset.
///
/// ```
/// match Parser::<_, &str, EmptyError>::parse(&mut Digit1, "12a") {
///     Err(ParseFault::Invalid(error)) => {
///         assert_eq!(rt; error.offset(), 2);
///         assert_eq!(rt; *error.input(), "12a");
///     }
///     _ => assert!(rt; false),
/// }
/// ```
#[derive(Debug, PartialEq, Drop)]
pub struct ParseError<I, E> {
    input: I,
    offset: usize,
    inner: E,
}

impl<I, E> ParseError<I, E> {
    ghost use Rattle.stream_errors.specs.Fault.{refused_input, refused_offset, refused_inner};

    /// Returns the error at the current offset of `input`, and resets the input to `start`. `start`
    /// must be an earlier position of this input.
    pub fn new(input: I, start: I::Checkpoint, inner: E) -> ParseError<I, E>
    where
        I: Stream,
        requires { Remains (I.view input).left (I.seen start) }
        ensures input { I.view (refused_input result) ≡ back_at (I.seen start) (I.view input) }
        ensures offset { refused_offset result + I.reading.units (I.view input).left.tokens
            ≡ I.reading.units (I.seen start).tokens }
        ensures inner { refused_inner result ≡ inner }
    {
        let mut input = input;
        let offset = input.offset_from(&start);
        input.reset(&start);
        ParseError {
            input,
            offset,
            inner,
        }
    }

    /// The input, at its start.
    #[inline(always)]
    pub fn input(&self) -> &I
        ensures { result.now ≡ refused_input self.now }
    {
        &self.input
    }

    /// Where the failing run left the input, in units from its start.
    #[inline(always)]
    pub fn offset(&self) -> usize
        ensures { result ≡ refused_offset self.now }
    {
        self.offset
    }

    /// The error of the failing run, without its mode.
    #[inline(always)]
    pub fn inner(&self) -> &E
        ensures { result.now ≡ refused_inner self.now }
    {
        &self.inner
    }

    /// The error of the failing run, without its mode.
    #[inline(always)]
    pub fn into_inner(self) -> E
    where
        I: Drop,
        ensures { result ≡ refused_inner self }
    {
        let ParseError {
            input: _input,
            offset: _offset,
            inner,
        } = self;
        inner
    }
}

/// Why a whole parse gives no output. `N` is [`Needed`] wherever it is used.
#[derive(Debug, PartialEq, Drop)]
pub enum ParseFault<I, E, N = Needed> {
    /// The input is invalid at an offset, or an allocation failed there.
    Invalid(ParseError<I, E>),
    /// A parser needed more input, although the input is complete.
    Incomplete(N),
}

impl<I, E> ParseFault<I, E> {
    ghost use Rattle.stream_errors.specs.Fault.{IsFaultAt};

    /// Returns the error of a whole parse for `error`, with or without a mode, at the current
    /// offset of `input`, and resets the input to `start`. `start` must be an earlier position of
    /// this input.
    ///
    /// ```
    /// let mut input = "12a";
    /// let start = input.checkpoint();
    /// let mut number = terminated(Digit1, ';');
    /// let read: Result<&str, ErrMode<EmptyError>> = number.parse_next(&mut input);
    /// let fault = read.map_err(|error| ParseFault::at(input, start, error));
    /// assert!(rt; matches!(fault, Err(ParseFault::Invalid(error)) if error.offset() == 2));
    /// ```
    pub fn at<F: ParserError<I, Inner = E>>(
        input: I,
        start: I::Checkpoint,
        error: F,
    ) -> ParseFault<I, E>
    where
        I: Stream,
        requires { Remains (I.view input).left (I.seen start) }
        ensures { IsFaultAt I.view I.reading.units F.inner_kind (I.seen start) (I.view input)
            (F.kind error) result }
    {
        match error.into_inner() {
            Ok(inner) => ParseFault::Invalid(ParseError::new(input, start, inner)),
            Err(error) => ParseFault::Incomplete(error.needed().unwrap_or(Needed::Unknown)),
        }
    }
}
