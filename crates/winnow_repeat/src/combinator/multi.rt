//! Parsers run again and again.
ghost use Rattle.std.specs.Prelude.{◌≡◌};
ghost use Rattle.winnow_repeat.specs.Fill.{fill_buffer};
ghost use Rattle.winnow_repeat.specs.Iterator.{iterator_input, iterator_input_name};
ghost use Rattle.winnow_repeat.specs.Iterator.{iterator_parser, iterator_standing, running};
ghost use Rattle.winnow_repeat.specs.Repeat.{repeat_occurrences, repeat_parser};

use crate::combinator::impls::iterator::Progress;
use crate::combinator::impls::{Fill, ParserIterator, Repeat, RepeatTill};
use std::marker::PhantomData;
use stream_errors::parser_error::ParserError;
use stream_sets::range::Range;
use streams::stream::Stream;
use winnow_core::parser::Parser;

/// Creates an iterator over `input` whose items are the outputs of successive calls of `parser`.
///
/// Iterate by `&mut`, so that [`finish`](ParserIterator::finish) can be called afterwards. A call
/// that backtracks ends the iteration and resets the input to the start of the call. A call that
/// fails with another kind of error ends it too, as does a call that succeeds without consuming
/// input, which is an assert error; the input is left where that call left it. From then on the
/// iterator returns `None` without running `parser`. It does not allocate.
///
/// `finish` returns the error that ended the iteration. It returns `Ok(())` after a backtrack, or
/// if the iterator could yield more items.
///
/// ```
/// let mut input = "aab";
/// let mut items: ParserIterator<_, &str, char, EmptyError> = iterator(&mut input, 'a');
/// assert_eq!(rt; (&mut items).count(), 2);
/// assert_eq!(rt; items.finish(), Ok(()));
/// assert_eq!(rt; input, "b");
/// ```
#[inline(always)]
pub fn iterator<P, I, O, E>(input: &mut I, parser: P) -> ParserIterator<'_, P, I, O, E>
where
    I: Stream,
    E: ParserError<I>,
    P: Parser<I, O, E>,
    ensures parser { iterator_parser result ≡ parser }
    ensures input { iterator_input result ≡ input.old }
    ensures same_input { iterator_input_name result ≡ input.entry.ghost_name }
    ensures goes_on { iterator_standing E.kind result ≡ running }
{
    ParserIterator {
        parser,
        input,
        progress: Progress::Running,
        output: PhantomData,
    }
}

/// Runs `parser` repeatedly, as many times as `occurrences` allows, and collects the outputs in an
/// accumulator.
///
/// The accumulator `()` discards the outputs, a `usize` counts them, and a `Vec` stores them in
/// order. A `String` concatenates characters or texts, and a `BTreeMap` stores pairs by their keys.
///
/// It ends before an item that backtracks if there are enough items, or at the greatest count. The
/// error of an earlier item, or of another kind, is returned unchanged. An item that consumes no
/// input is an assert error, except for the first item in the form `1..`. If the greatest count is
/// below the least, it returns an assert error without running `parser`. Only the accumulator
/// allocates.
///
/// Known as `many0`, `many1`, `many_m_n` and `count` in nom.
///
/// ```
/// let mut parser = repeat(alloc, 0.., "ab");
/// let mut input = "ababa";
/// let slices: Result<Vec<&str>, EmptyError> = parser.parse_next(&mut input);
/// assert_eq!(rt; slices.map(|all| all.len()), Ok(2));
/// assert_eq!(rt; input, "a");
/// ```
#[inline(always)]
pub fn repeat<P, I, O, C, E, A, R>(alloc: A, occurrences: R, parser: P) -> Repeat<P, I, O, C, E, A>
where
    Range: From<R>,
    ensures occurrences { ⟦<Range as From<R>>⟧.from_gives occurrences
        (repeat_occurrences result) }
    ensures parser { repeat_parser result ≡ parser }
{
    Repeat {
        alloc,
        occurrences: Range::from(occurrences),
        parser,
        marker: PhantomData,
    }
}

/// Runs `parser` until `terminator` succeeds, as many times as `occurrences` allows, and collects
/// the outputs of `parser` in an accumulator.
///
/// It returns the accumulator and the output of `terminator`, which is consumed too. The
/// accumulator `()` discards the outputs, and a `Vec` stores them in order.
///
/// First it parses the least number of items without trying `terminator`; these items may consume
/// no input. Then it tries `terminator`. If that backtracks, it runs `parser` from the same
/// position, and repeats. An item that consumes no input is then an assert error.
///
/// After the greatest number of items, a backtrack of `terminator` is returned unchanged, with the
/// input where `terminator` left it. The same holds for its other errors, and for every error of
/// `parser`. If the greatest count is below the least, it returns an assert error and runs nothing.
/// Only the accumulator allocates.
///
/// Only the forms `0..` and `1..` have no greatest count; for `n..` with another `n` it is the
/// greatest `usize`.
///
/// Known as `many_till` in nom.
///
/// ```
/// let mut parser = repeat_till(alloc, 0.., Any, ';');
/// let mut input = "ab;c";
/// let answer: Result<(Vec<char>, char), EmptyError> = parser.parse_next(&mut input);
/// assert!(rt; matches!(answer, Ok((all, ';')) if all.as_slice() == ['a', 'b'].as_slice()));
/// assert_eq!(rt; input, "c");
/// ```
#[inline(always)]
pub fn repeat_till<P, G, I, O, D, C, E, A, R>(
    alloc: A,
    occurrences: R,
    parser: P,
    terminator: G,
) -> RepeatTill<P, G, I, O, D, C, E, A>
where
    Range: From<R>,
    ensures occurrences { ⟦<Range as From<R>>⟧.from_gives occurrences result.occurrences }
    ensures parser { result.parser ≡ parser }
    ensures terminator { result.terminator ≡ terminator }
{
    RepeatTill {
        alloc,
        occurrences: Range::from(occurrences),
        parser,
        terminator,
        marker: PhantomData,
    }
}

/// Overwrites the elements of `buffer` in order, each with the output of a call of `parser`, and
/// returns `()`.
///
/// The first error is returned unchanged, and the input is left where that call left it. The
/// elements before it stay overwritten; the others are unchanged. If `buffer` is empty, `parser` is
/// not run. An item may consume no input. It does not allocate.
///
/// ```
/// let mut letters = ['x', 'y', 'z'];
/// let mut input = "ab";
/// let answer = fill(Any, &mut letters).parse_next(&mut input);
/// assert_eq!(rt; answer, Err(EmptyError::from_input(&"")));
/// assert_eq!(rt; input, "");
/// assert_eq!(rt; letters, ['a', 'b', 'z']);
/// ```
#[inline(always)]
pub fn fill<P, I, O, E>(parser: P, buffer: &mut [O]) -> Fill<'_, P, I, O, E>
    ensures parser { result.parser ≡ parser }
    ensures buffer { (fill_buffer result).elements ≡ buffer.old }
    ensures same_buffer { (fill_buffer result).name ≡ buffer.entry.ghost_name }
{
    Fill {
        parser,
        buffer,
        marker: PhantomData,
    }
}
