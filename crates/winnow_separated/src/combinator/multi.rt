//! Elements and separators in turns.
ghost use Rattle.std.specs.Prelude.{◌≡◌};
ghost use Rattle.winnow_separated.specs.Separated.{separated_occurrences, separated_parser};
ghost use Rattle.winnow_separated.specs.Separated.{separated_separator};
ghost use Rattle.winnow_separated.specs.SeparatedFoldl1.{foldl1_parser};
ghost use Rattle.winnow_separated.specs.SeparatedFoldl1.{foldl1_separator};
ghost use Rattle.winnow_separated.specs.SeparatedFoldr1.{foldr1_parser};
ghost use Rattle.winnow_separated.specs.SeparatedFoldr1.{foldr1_separator};

use crate::combinator::impls::link::Link;
use crate::combinator::impls::{Separated, SeparatedFoldl1, SeparatedFoldr1};
use std::marker::PhantomData;
use stream_sets::range::Range;

/// Runs `parser` and `separator` alternately, for as many elements as `occurrences` allows, and
/// collects the outputs of `parser` in an accumulator, like
/// [`repeat`](winnow_repeat::combinator::repeat).
///
/// If there are enough elements, it ends before a separator that backtracks, or whose element
/// backtracks. If no element is required, it ends before a first element that backtracks. An
/// earlier error, or one of another kind, is returned unchanged.
///
/// A separator that consumes no input is an assert error. That error never ends the list, even if
/// assert errors backtrack. Elements may consume no input. If the greatest count is 0, nothing is
/// run. If the greatest count is below the least, it returns an assert error and runs nothing. Only
/// the accumulator allocates.
///
/// Known as `separated_list0` and `separated_list1` in nom.
///
/// ```
/// let mut parser = separated(alloc, 0.., Digit1, ',');
/// let mut input = "1,2,";
/// let slices: Result<Vec<&str>, EmptyError> = parser.parse_next(&mut input);
/// assert_eq!(rt; slices.map(|all| all.len()), Ok(2));
/// assert_eq!(rt; input, ",");
/// ```
#[inline(always)]
pub fn separated<P, S, I, O, D, C, E, A, R>(
    alloc: A,
    occurrences: R,
    parser: P,
    separator: S,
) -> Separated<P, S, I, O, D, C, E, A>
where
    Range: From<R>,
    ensures occurrences { ⟦<Range as From<R>>⟧.from_gives occurrences
        (separated_occurrences result) }
    ensures parser { separated_parser result ≡ parser }
    ensures separator { separated_separator result ≡ separator }
{
    Separated {
        alloc,
        occurrences: Range::from(occurrences),
        link: Link { parser, separator },
        marker: PhantomData,
    }
}

/// Runs `parser` and `separator` alternately, for one or more elements, and joins them with `op`,
/// nested to the left: `9-5-2` is `(9-5)-2`.
///
/// It ends before a separator that backtracks, or whose element backtracks. An error of the first
/// element, and other errors, are returned unchanged. A separator that consumes no input is an
/// assert error. That error never ends the list, even if assert errors backtrack. Elements may
/// consume no input. It does not allocate.
///
/// Known as `chainl1` elsewhere.
///
/// ```
/// let number = Digit1.parse_to::<u32>();
/// let mut parser = separated_foldl1(number, '-', |left: u32, _: char, right: u32| left - right);
/// assert_eq!(rt; parser.parse_peek("9-5-2;"), Ok::<_, EmptyError>((";", 2)));
/// ```
#[inline(always)]
pub fn separated_foldl1<P, S, H, I, O, D, E>(
    parser: P,
    separator: S,
    op: H,
) -> SeparatedFoldl1<P, S, H, I, O, D, E>
where
    H: FnMut(O, D, O) -> O,
    ensures parser { foldl1_parser result ≡ parser }
    ensures separator { foldl1_separator result ≡ separator }
    ensures op { result.op ≡ op }
{
    SeparatedFoldl1::new(parser, separator, op)
}

/// Runs `parser` and `separator` alternately, for one or more elements, and joins them with `op`,
/// nested to the right: `9-5-2` is `9-(5-2)`.
///
/// It ends before a separator that backtracks, or whose element backtracks. An error of the first
/// element, and other errors, are returned unchanged. It is an assert error if a separator and its
/// element together consume no input. The separators and elements after the first are stored in a
/// list, which allocates; `op` is called from the last separator to the first.
///
/// Known as `chainr1` elsewhere.
///
/// ```
/// let number = Digit1.parse_to::<u32>();
/// let take_off = |left: u32, _: char, right: u32| left - right;
/// let mut parser = separated_foldr1(alloc, number, '-', take_off);
/// assert_eq!(rt; parser.parse_peek("9-5-2;"), Ok::<_, EmptyError>((";", 6)));
/// ```
#[inline(always)]
pub fn separated_foldr1<P, S, H, I, O, D, E, A>(
    alloc: A,
    parser: P,
    separator: S,
    op: H,
) -> SeparatedFoldr1<P, S, H, I, O, D, E, A>
where
    H: FnMut(O, D, O) -> O,
    ensures parser { foldr1_parser result ≡ parser }
    ensures separator { foldr1_separator result ≡ separator }
    ensures op { result.op ≡ op }
{
    SeparatedFoldr1::new(alloc, parser, separator, op)
}
