//! Parsers of data after its length.
ghost use Rattle.std.specs.Prelude.{◌≡◌};

use crate::binary::impls::{LengthAndThen, LengthRepeat, LengthTake};
use std::marker::PhantomData;

/// Parses a length with `count`, takes that number of tokens and returns their slice.
///
/// An error of `count` is returned unchanged. If there are fewer tokens, it fails and leaves the
/// input after the length. On partial input that error is `Incomplete`; its need is the number of
/// missing units, or unknown for text. It does not allocate.
///
/// Known as `length_data` in nom.
///
/// ```
/// let input = b"\x02abc".as_slice();
/// let answer = length_take(U8).parse_peek(input);
/// assert_eq!(rt; answer, Ok::<_, EmptyError>((b"c".as_slice(), b"ab".as_slice())));
/// ```
#[inline(always)]
pub fn length_take<Input, Count, Error, CountParser>(
    count: CountParser,
) -> LengthTake<CountParser, Input, Count, Error>
    ensures { result.count ≡ count }
{
    LengthTake {
        count,
        marker: PhantomData,
    }
}

/// Parses a length with `count`, and then that number of tokens with `parser`.
///
/// `parser` runs on these tokens as complete input, and the tokens that it does not consume are
/// discarded. The input is left after the tokens, whatever `parser` returns. If `parser` returns
/// `Incomplete`, this backtracks; other errors of `parser` are returned unchanged.
///
/// An error of `count` is returned unchanged. If there are fewer tokens, it fails and leaves the
/// input after the length. On partial input that error is `Incomplete`; its need is the number of
/// missing units, or unknown for text. It does not allocate.
///
/// Known as `length_value` in nom.
///
/// ```
/// let input = b"\x03ab;c".as_slice();
/// let answer = length_and_then(U8, Alpha1).parse_peek(input);
/// assert_eq!(rt; answer, Ok::<_, EmptyError>((b"c".as_slice(), b"ab".as_slice())));
/// ```
#[inline(always)]
pub fn length_and_then<Input, Output, Count, Error, CountParser, ParseNext>(
    count: CountParser,
    parser: ParseNext,
) -> LengthAndThen<CountParser, ParseNext, Input, Count, Output, Error>
    ensures count { result.count ≡ count }
    ensures parser { result.parser ≡ parser }
{
    LengthAndThen {
        count,
        parser,
        marker: PhantomData,
    }
}

/// Parses a length with `count`, and then that number of items with `parser`, and collects the
/// outputs in an accumulator.
///
/// The accumulator `()` discards the outputs, and `Vec` stores them in order. If the length is 0,
/// `parser` is not run.
///
/// Errors of `count` and of `parser` are returned unchanged. An item that consumes no input is an
/// assert error. Only the accumulator allocates; if it cannot grow, the error is out of memory. The
/// input is left where the last call left it.
///
/// Known as `length_count` in nom.
///
/// ```
/// let input = b"\x02\x00\x01\x00\x02;".as_slice();
/// let mut numbers = length_repeat(rt.alloc(), U8, BeU16);
/// let read: Result<(&[u8], usize), EmptyError> = numbers.parse_peek(input);
/// assert_eq!(rt; read, Ok((b";".as_slice(), 2)));
/// ```
#[inline(always)]
pub fn length_repeat<Input, Output, Accumulator, Count, Error, CountParser, ParseNext, A>(
    alloc: A,
    count: CountParser,
    parser: ParseNext,
) -> LengthRepeat<CountParser, ParseNext, Input, Count, Output, Accumulator, Error, A>
    ensures count { result.count ≡ count }
    ensures parser { result.parser ≡ parser }
{
    LengthRepeat {
        alloc,
        count,
        parser,
        marker: PhantomData,
    }
}
