//! Takes up to a literal.
ghost use Rattle.parser_definitions.specs.Does.{Ran};
ghost use Rattle.parser_definitions.specs.TakeUntil.{TakeUntilDoes};
ghost use Rattle.stream_errors.specs.Form.{answer_by};
ghost use Rattle.stream_sets.specs.Range.{bounds_of};
ghost use Rattle.stream_sets.specs.declared.range.Range.{Range};
ghost use Rattle.winnow_token.specs.Before.{SaysAtLeast, SaysAtMost};

use stream_errors::parser_error::ParserError;
use stream_searches::find::FindSlice;
use stream_sets::range::Range;
use streams::needed::Needed;
use streams::stream::{Stream, StreamIsPartial};
use winnow_core::short::short;

/// Takes the input up to the first match of `literal`.
#[inline(always)]
pub(crate) fn take_before<T: Copy, I: StreamIsPartial + FindSlice<T>, E: ParserError<I>>(
    input: &mut I,
    occurrences: Range,
    literal: T,
) -> Result<I::Slice, E>
    ensures ran { Ran {S = Range × T} I.reading
        (TakeUntilDoes I.reading (λ x. I.sought x.1) (λ x. bounds_of x.0)) E.form
        (occurrences, literal) (I.view input.old) (answer_by E.kind result)
        (occurrences, literal) (I.view input.new) }
{
    let least = occurrences.start_inclusive;
    let greatest = occurrences.greatest();
    if greatest.unwrap_or(least) < least {
        return Err(E::assert(input, "the greatest count is below the least"));
    }
    match input.find_slice(literal) {
        None => Err(short(input, Needed::Unknown)),
        Some(range) => match greatest {
            None => {
                if least > 0 && range.start == 0 {
                    Err(E::from_input(input))
                } else {
                    Ok(input.next_slice(range.start))
                }
            }
            Some(greatest) => {
                if !is_at_least(input, least, range.start) {
                    Err(short(input, Needed::Unknown))
                } else if !is_at_most(input, greatest, range.start) {
                    Err(E::from_input(input))
                } else {
                    Ok(input.next_slice(range.start))
                }
            }
        },
    }
}

/// Returns whether at least `count` tokens precede `offset`, which is in units.
#[inline(always)]
fn is_at_least<I: Stream>(input: &I, count: usize, offset: usize) -> bool
    ensures { SaysAtLeast I.reading.units (I.view input.now).left.tokens count offset result }
{
    match input.offset_at(count) {
        Ok(end) => end <= offset,
        Err(_) => false,
    }
}

/// Returns whether at most `count` tokens precede `offset`, which is in units.
#[inline(always)]
fn is_at_most<I: Stream>(input: &I, count: usize, offset: usize) -> bool
    ensures { SaysAtMost I.reading.units (I.view input.now).left.tokens count offset result }
{
    match input.offset_at(count) {
        Ok(end) => offset <= end,
        Err(_) => true,
    }
}
