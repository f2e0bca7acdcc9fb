//! Takes of the members of a set.
ghost use Rattle.std.specs.Prelude.{Some, not};
ghost use Rattle.parser_definitions.specs.Does.{Ran};
ghost use Rattle.parser_definitions.specs.TakeWhile.{TakeWhileDoes};
ghost use Rattle.stream_errors.specs.Form.{answer_by};
ghost use Rattle.stream_sets.specs.Range.{bounds_of};
ghost use Rattle.stream_sets.specs.declared.range.Range.{Range};
ghost use Rattle.streams.specs.Stream.{AnswersSeen};
ghost use Rattle.winnow_token.specs.Members.{CountsMembers, FindsMembers};

use stream_errors::parser_error::ParserError;
use stream_sets::range::Range;
use stream_sets::sets::ContainsToken;
use streams::needed::Needed;
use streams::stream::{Stream, StreamIsPartial};
use streams::token_test::TokenTest;

/// The tokens that are not in a set.
pub(crate) struct Others<'s, S>(pub(crate) &'s S);

impl<S> Drop for Others<'_, S> {
    fn drop(self) {
        let Others(_set) = self;
    }
}

impl<T, S: ContainsToken<T>> ContainsToken<T> for Others<'_, S> {
    ghost can_test = { λ s. S.can_test s.0.now };

    ghost tells = { λ s t b. S.tells s.0.now t (not b) };

    #[inline(always)]
    fn contains_token(&self, token: T) -> bool {
        !self.0.contains_token(token)
    }
}

/// The question whether a token is outside a set.
struct Outside<'s, S>(&'s S);

impl<S> Drop for Outside<'_, S> {
    fn drop(self) {
        let Outside(_set) = self;
    }
}

impl<T, S: ContainsToken<T>> TokenTest<T> for Outside<'_, S> {
    ghost can_test = { λ s. S.can_test s.0.now };

    ghost answers = { λ s t b. S.tells s.0.now t (not b) };

    #[inline(always)]
    fn test(&self, token: T) -> bool {
        !self.0.contains_token(token)
    }
}

/// The number of members at the start of the input, and the offset after them if more input cannot
/// extend them.
#[derive(Clone, Copy)]
struct Members {
    count: usize,
    end: Option<usize>,
}

/// Whether there are enough members at the start of the input, and the offset after them if more
/// input cannot extend them.
#[derive(Clone, Copy)]
struct Found {
    is_enough: bool,
    end: Option<usize>,
}

/// Takes the longest prefix of members of `set`.
#[inline(always)]
pub(crate) fn take_members<S: ContainsToken<I::Token>, I: StreamIsPartial, E: ParserError<I>>(
    input: &mut I,
    occurrences: Range,
    set: &S,
) -> Result<I::Slice, E>
    requires { S.can_test set.now }
    ensures ran { Ran {S = Range × S} I.reading (TakeWhileDoes I.reading
        (λ x. AnswersSeen I.seen_as (S.tells x.1)) (λ x. bounds_of x.0)) E.form
        (occurrences, set.now) (I.view input.old) (answer_by E.kind result) (occurrences, set.now)
        (I.view input.new) }
{
    let least = occurrences.start_inclusive;
    if occurrences.greatest().unwrap_or(least) < least {
        return Err(E::assert(input, "the greatest count is below the least"));
    }
    let found = find_members(input, occurrences, set);
    match found.end {
        Some(offset) => {
            if found.is_enough {
                Ok(input.next_slice(offset))
            } else {
                Err(E::from_input(input))
            }
        }
        None => {
            if input.is_partial() {
                let missing = least.saturating_sub(input.eof_offset()).max(1);
                Err(E::incomplete(input, Needed::new(missing)))
            } else if found.is_enough {
                Ok(input.finish())
            } else {
                Err(E::from_input(input))
            }
        }
    }
}

/// Finds the longest prefix of members.
#[inline(always)]
fn find_members<S: ContainsToken<I::Token>, I: Stream>(
    input: &I,
    occurrences: Range,
    set: &S,
) -> Found
    requires { S.can_test set.now }
    ensures { FindsMembers (AnswersSeen I.seen_as (S.tells set.now)) (bounds_of occurrences)
        I.reading.units (I.view input.now).left.tokens result.is_enough result.end }
{
    let least = occurrences.start_inclusive;
    match occurrences.greatest() {
        None => {
            let end = input.offset_for(Outside(set));
            let is_enough = least == 0 || end.unwrap_or(input.eof_offset()) > 0;
            Found { is_enough, end }
        }
        Some(greatest) => {
            let members = count_members(input, greatest, set);
            Found {
                is_enough: least <= members.count,
                end: members.end,
            }
        }
    }
}

/// Counts the members at the start of the input, up to `greatest`.
#[inline(always)]
fn count_members<S: ContainsToken<I::Token>, I: Stream>(
    input: &I,
    greatest: usize,
    set: &S,
) -> Members
    requires { S.can_test set.now }
    ensures { CountsMembers (AnswersSeen I.seen_as (S.tells set.now)) (Some greatest)
        I.reading.units (I.view input.now).left.tokens result.count result.end }
{
    let mut count = 0;
    for (offset, token) in input.iter_offsets() {
        if count == greatest {
            return Members {
                count,
                end: Some(offset),
            };
        }
        if !set.contains_token(token) {
            return Members {
                count,
                end: Some(offset),
            };
        }
        count += 1;
    }
    let end = if count == greatest {
        Some(input.eof_offset())
    } else {
        None
    };
    Members { count, end }
}
