//! Items into an accumulator, as all repetitions read them.
ghost use Rattle.parser_definitions.specs.Consumes.{Item};
ghost use Rattle.parser_definitions.specs.Does.{Ran};
ghost use Rattle.parser_definitions.specs.Folding.{gathering};
ghost use Rattle.parser_definitions.specs.Items.{Items};
ghost use Rattle.parser_definitions.specs.Repeat.{Many};
ghost use Rattle.parser_definitions.specs.Then.Steps.{instead, same};
ghost use Rattle.std.specs.Prelude.{◌<◌, ◌≡◌, MatchBool, Some, ℕ};
ghost use Rattle.stream_errors.specs.Form.{answer_by};
ghost use Rattle.stream_sets.specs.Range.{IsWithin, from_to};

use std::alloc::Allocator;
use stream_errors::joining::append_position;
use stream_errors::parser_error::ParserError;
use stream_sets::accumulate::Accumulate;
use streams::stream::Stream;
use winnow_core::parser::Parser;

/// Returns whether the greatest count is below the least.
pub fn is_descending(least: usize, greatest: Option<usize>) -> bool
    ensures { MatchBool result ((most : ℕ) × (greatest ≡ Some most) × (most < least))
        (IsWithin greatest least) }
{
    match greatest {
        Some(most) => most < least,
        None => false,
    }
}

/// Runs a parser. Where it backtracks, `start` is added to its error, as winnow does for items that
/// a repetition needs.
#[inline(always)]
pub(crate) fn parse_item<P: Parser<I, O, E>, I: Stream, O, E: ParserError<I>>(
    parser: &mut P,
    input: &mut I,
    start: &I::Checkpoint,
) -> Result<O, E>
    requires { P.can_parse parser.old }
    ensures again { P.can_parse parser.new }
    ensures ran { Ran I.reading P.does E.form (P.state parser.old) (I.view input.old)
        (answer_by E.kind result) (P.state parser.new) (I.view input.new) }
{
    match parser.parse_next(input) {
        Ok(output) => Ok(output),
        Err(error) => Err(append_position(error, input, start)),
    }
}

/// Repeats from `least` times on, to `greatest` times if there is a bound.
pub fn repeat_many<
    P: Parser<I, O, E>,
    I: Stream,
    O: Drop,
    C: Accumulate<O, A>,
    E: ParserError<I>,
    A: Allocator + Copy,
>(alloc: A, least: usize, greatest: Option<usize>, parser: &mut P, input: &mut I) -> Result<C, E>
    requires { P.can_parse parser.old }
    ensures again { P.can_parse parser.new }
    ensures ran { Ran I.reading (Many same instead (gathering C.accumulator) P.does
        (from_to least greatest)) E.form (P.state parser.old) (I.view input.old)
        (answer_by E.kind result) (P.state parser.new) (I.view input.new) }
{
    if is_descending(least, greatest) {
        return Err(E::assert(input, "the greatest count is below the least"));
    }
    match C::initial(alloc, greatest.map(|_: usize| least)) {
        Ok(all) => repeat_items(all, least, greatest, parser, input),
        Err(_) => Err(E::no_memory(input)),
    }
}

/// Repeats into an accumulator, at least `missing` times and at most `room` times.
pub fn repeat_items<
    P: Parser<I, O, E>,
    I: Stream,
    O: Drop,
    C: Accumulate<O, A>,
    E: ParserError<I>,
    A: Allocator + Copy,
>(all: C, missing: usize, room: Option<usize>, parser: &mut P, input: &mut I) -> Result<C, E>
    requires { P.can_parse parser.old }
    ensures again { P.can_parse parser.new }
    ensures ran { Ran I.reading (Items same instead (gathering C.accumulator)
        (from_to missing room) (Item P.does) all) E.form (P.state parser.old) (I.view input.old)
        (answer_by E.kind result) (P.state parser.new) (I.view input.new) }
{
    let mut all = all;
    let mut missing = missing;
    let mut room = room;
    'items: loop {
        if room == Some(0) {
            return Ok(all);
        }
        let start = input.checkpoint();
        let left = input.eof_offset();
        match parser.parse_next(input) {
            Ok(output) => {
                if input.eof_offset() == left {
                    return Err(E::assert(input, "each item must consume"));
                }
                match all.accumulate(output) {
                    Ok(()) => {}
                    Err(_) => return Err(E::no_memory(input)),
                }
                missing = missing.saturating_sub(1);
                room = room.map(|n: usize| n.saturating_sub(1));
            }
            Err(error) => {
                if missing == 0 && error.is_backtrack() {
                    input.reset(&start);
                    return Ok(all);
                }
                return Err(append_position(error, input, &start));
            }
        }
    }
}
