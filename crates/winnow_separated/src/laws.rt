//! Laws of elements with separators, each proved by a function that does nothing.
ghost use Rattle.winnow_separated.specs.FoldLaws.{FoldTheSame, FoldTheSameIf};
ghost use Rattle.winnow_separated.specs.SeparatedLaws.{LeavesTheSeparator};

use crate::combinator::impls::{Separated, SeparatedFoldl1, SeparatedFoldr1};
use std::alloc::Allocator;
use stream_errors::parser_error::ParserError;
use stream_sets::accumulate::Accumulate;
use streams::stream::Stream;
use winnow_core::parser::Parser;

/// If [`separated`](crate::combinator::separated) with the range `0..` or `1..` succeeds, it
/// returns the first element and those of the consecutive links after it. It leaves the input
/// before the next link, which backtracked: a separator whose element backtracks is not consumed.
/// If there are no elements, the first element backtracked.
pub fn separated_leaves_a_separator_without_an_element<
    P: Parser<I, O, E>,
    S: Parser<I, D, E>,
    I: Stream,
    O: Drop,
    D: Drop,
    C: Accumulate<O, A>,
    E: ParserError<I>,
    A: Allocator + Copy,
>()
    ensures { LeavesTheSeparator P.does S.does C.accumulator
        ⟦<Separated<P, S, I, O, D, C, E, A> as Parser<I, C, E>>⟧.does }
{}

/// If state and input determine how elements and separators end, then
/// [`separated_foldl1`](crate::combinator::separated_foldl1) and
/// [`separated_foldr1`](crate::combinator::separated_foldr1) fold the same elements. From one state
/// and input, if both succeed, these are the outputs of one list of calls, and both leave the same
/// rest. The condition is only on the states that this element and this separator reach
/// (`of_runs`). Parsers whose definitions are lawful meet it (`of_outcomes`).
pub fn separated_folds_agree<
    P: Parser<I, O, E>,
    S: Parser<I, D, E>,
    H: FnMut(O, D, O) -> O,
    I: Stream,
    O: Drop,
    D: Drop,
    E: ParserError<I>,
    A: Allocator + Copy,
>()
    ensures of_runs { FoldTheSame H.step P.does S.does
        ⟦<SeparatedFoldl1<P, S, H, I, O, D, E> as Parser<I, O, E>>⟧.does
        ⟦<SeparatedFoldr1<P, S, H, I, O, D, E, A> as Parser<I, O, E>>⟧.does }
    ensures of_outcomes { FoldTheSameIf P.terms.premise S.terms.premise H.step P.does S.does
        ⟦<SeparatedFoldl1<P, S, H, I, O, D, E> as Parser<I, O, E>>⟧.does
        ⟦<SeparatedFoldr1<P, S, H, I, O, D, E, A> as Parser<I, O, E>>⟧.does }
{}
