//! Laws of repetition, each proved by a function that does nothing.
ghost use Rattle.winnow_repeat.specs.RepeatLaws.{RunsAtMostOnceAUnit};

use crate::combinator::impls::Repeat;
use std::alloc::Allocator;
use stream_errors::parser_error::ParserError;
use stream_sets::accumulate::Accumulate;
use streams::stream::Stream;
use winnow_core::parser::Parser;

/// The result and the rest of an unbounded [`repeat`](crate::combinator::repeat) are given by
/// consecutive items and the call that ended them. The number of these calls is at most one more
/// than the number of units in the input.
pub fn repeat_runs_at_most_once_a_unit<
    P: Parser<I, O, E>,
    I: Stream,
    O: Drop,
    C: Accumulate<O, A>,
    E: ParserError<I>,
    A: Allocator + Copy,
>()
    ensures { RunsAtMostOnceAUnit I.reading.units P.does C.accumulator
        ⟦<Repeat<P, I, O, C, E, A> as Parser<I, C, E>>⟧.does }
{}
