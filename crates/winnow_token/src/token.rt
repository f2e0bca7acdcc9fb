//! Parsers that take tokens, as winnow's documentation has them.
#![tactic(auto, using(streams::specs::Ends::ends_follow))]

ghost use Rattle.std.specs.Prelude.{◌≡◌};
ghost use Rattle.parser_definitions.specs.Any.{AnyDoes};
ghost use Rattle.parser_definitions.specs.Does.{Ran};
ghost use Rattle.parser_definitions.specs.Rest.{RestDoes, RestLenDoes};
ghost use Rattle.stream_errors.specs.Form.{answer_by};
ghost use Rattle.winnow_token.specs.Literal.{literal_value};
ghost use Rattle.winnow_token.specs.NoneOf.{none_of_set};
ghost use Rattle.winnow_token.specs.OneOf.{one_of_set};
ghost use Rattle.winnow_token.specs.Take.{take_count};
ghost use Rattle.winnow_token.specs.TakeTill.{take_till_occurrences, take_till_set};
ghost use Rattle.winnow_token.specs.TakeUntil.{take_until_literal, take_until_occurrences};
ghost use Rattle.winnow_token.specs.TakeWhile.{take_while_occurrences, take_while_set};

pub mod impls;
mod members;
mod until;

use crate::token::impls::{Literal, NoneOf, OneOf, Take, TakeTill, TakeUntil, TakeWhile};
use std::marker::PhantomData;
use stream_errors::parser_error::ParserError;
use stream_searches::compare::Compare;
use stream_searches::find::FindSlice;
use stream_sets::numbers::ToUsize;
use stream_sets::range::Range;
use stream_sets::sets::ContainsToken;
use streams::needed::Needed;
use streams::stream::{Stream, StreamIsPartial};
use winnow_core::short::short;

/// Matches `literal` and returns its slice.
///
/// Fails without consuming input if the input does not start with the literal. On partial input
/// that is a proper prefix of it, returns `Incomplete` with an unknown need.
///
/// Known as `tag` in nom and in older winnow.
///
/// ```
/// assert_eq!(rt; literal("ab").parse_peek("abc"), Ok::<_, EmptyError>(("c", "ab")));
/// ```
#[inline(always)]
pub fn literal<T, Input, Error>(literal: T) -> Literal<T, Input, Error>
where
    T: Copy,
    Input: StreamIsPartial + Compare<T>,
    Error: ParserError<Input>,
    ensures { literal_value result ≡ literal }
{
    Literal {
        literal,
        marker: PhantomData,
    }
}

/// Takes the longest prefix of tokens in `set`, of as many tokens as `occurrences` allows, and
/// returns its slice.
///
/// Fails without consuming input if there are too few tokens. On partial input it returns
/// `Incomplete` if all remaining tokens are members and more are allowed; its need is the number
/// missing to the least count, and at least 1, in units. It returns an assert error if the greatest
/// count is below the least.
///
/// Known as `take_while`, `take_while1`, `take_while_m_n` and `is_a` in nom.
///
/// ```
/// let mut parser = take_while(1.., '0'..='9');
/// assert_eq!(rt; parser.parse_peek("12;"), Ok::<_, EmptyError>((";", "12")));
/// ```
#[inline(always)]
pub fn take_while<Set, Input, Error, R>(occurrences: R, set: Set) -> TakeWhile<Set, Input, Error>
where
    Range: From<R>,
    Input: StreamIsPartial,
    Set: ContainsToken<Input::Token>,
    Error: ParserError<Input>,
    ensures occurrences { ⟦<Range as From<R>>⟧.from_gives occurrences
        (take_while_occurrences result) }
    ensures set { take_while_set result ≡ set }
{
    TakeWhile {
        occurrences: Range::from(occurrences),
        set,
        marker: PhantomData,
    }
}

/// Takes the longest prefix of tokens that are not in `set`, of as many tokens as `occurrences`
/// allows, and returns its slice.
///
/// It is [`take_while`](crate::token::take_while) over the tokens outside the set, with the same
/// errors.
///
/// Known as `take_till`, `take_till1` and `is_not` in nom.
///
/// ```
/// let mut parser = take_till(0.., ';');
/// assert_eq!(rt; parser.parse_peek("ab;c"), Ok::<_, EmptyError>((";c", "ab")));
/// ```
#[inline(always)]
pub fn take_till<Set, Input, Error, R>(occurrences: R, set: Set) -> TakeTill<Set, Input, Error>
where
    Range: From<R>,
    Input: StreamIsPartial,
    Set: ContainsToken<Input::Token>,
    Error: ParserError<Input>,
    ensures occurrences { ⟦<Range as From<R>>⟧.from_gives occurrences
        (take_till_occurrences result) }
    ensures set { take_till_set result ≡ set }
{
    TakeTill {
        occurrences: Range::from(occurrences),
        set,
        marker: PhantomData,
    }
}

/// Takes one token and returns it.
///
/// Fails if no token remains. On empty partial input it returns `Incomplete` with a need of 1 unit.
///
/// Known as `anychar` in nom.
///
/// ```
/// let mut input = "ab";
/// assert_eq!(rt; any(&mut input), Ok::<_, EmptyError>('a'));
/// assert_eq!(rt; input, "b");
/// ```
#[inline(always)]
pub fn any<Input: StreamIsPartial, Error: ParserError<Input>>(
    input: &mut Input,
) -> Result<Input::Token, Error>
    ensures ran { Ran Input.reading (AnyDoes Input.seen_as Input.reading) Error.form (tt {0})
        (Input.view input.old) (answer_by Error.kind result) (tt {0}) (Input.view input.new) }
{
    match input.next_token() {
        Some(token) => Ok(token),
        None => Err(short(input, Needed::new(1))),
    }
}

/// Takes one token that is in `set` and returns it.
///
/// Fails without consuming input on another token and on empty input. On empty partial input it
/// returns `Incomplete` with a need of 1 unit.
///
/// Known as `satisfy`, `one_of` and `char` in nom.
///
/// ```
/// assert_eq!(rt; one_of(('+', '-')).parse_peek("-1"), Ok::<_, EmptyError>(("1", '-')));
/// ```
#[inline(always)]
pub fn one_of<Set, Input, Error>(set: Set) -> OneOf<Set, Input, Error>
where
    Input: StreamIsPartial,
    Input::Token: Copy,
    Set: ContainsToken<Input::Token>,
    Error: ParserError<Input>,
    ensures { one_of_set result ≡ set }
{
    OneOf {
        set,
        marker: PhantomData,
    }
}

/// Takes one token that is not in `set` and returns it.
///
/// Fails without consuming input on a token of the set and on empty input. On empty partial input
/// it returns `Incomplete` with a need of 1 unit.
///
/// ```
/// assert_eq!(rt; none_of(';').parse_peek("a;"), Ok::<_, EmptyError>((";", 'a')));
/// ```
#[inline(always)]
pub fn none_of<Set, Input, Error>(set: Set) -> NoneOf<Set, Input, Error>
where
    Input: StreamIsPartial,
    Input::Token: Copy,
    Set: ContainsToken<Input::Token>,
    Error: ParserError<Input>,
    ensures { none_of_set result ≡ set }
{
    NoneOf {
        set,
        marker: PhantomData,
    }
}

/// Takes `token_count` tokens and returns their slice.
///
/// Fails without consuming input if there are fewer. On partial input it returns `Incomplete`
/// instead; its need is the number of missing units. Over text, where a character takes one to four
/// units, the need is unknown.
///
/// ```
/// assert_eq!(rt; take(2u8).parse_peek("abc"), Ok::<_, EmptyError>(("c", "ab")));
/// ```
#[inline(always)]
pub fn take<UsizeLike, Input, Error>(token_count: UsizeLike) -> Take<Input, Error>
where
    UsizeLike: ToUsize + Drop,
    Input: StreamIsPartial,
    Error: ParserError<Input>,
    ensures { take_count result ≡ UsizeLike.number token_count }
{
    Take {
        count: token_count.to_usize(),
        marker: PhantomData,
    }
}

/// Takes the input up to the first match of `literal`, of as many tokens as `occurrences` allows,
/// and returns its slice. The match is not consumed.
///
/// A tuple of one to three bytes or characters matches each of them.
///
/// If there is no match it fails; on partial input it returns `Incomplete` with an unknown need.
/// The forms `0..` and `1..` have no greatest count, and in `1..` a match at the start fails. For
/// `n..` with another `n` the greatest count is the greatest `usize`. With a greatest count, a
/// first match after fewer tokens than the least counts as no match, and one after more tokens than
/// the greatest fails. It returns an assert error if the greatest count is below the least. After
/// any of these errors no input is consumed.
///
/// As in winnow, only the first match is considered. So on the partial input `ax`, the range `2..`
/// and the literal `x` return `Incomplete`, whatever is added; complete input fails.
///
/// Known as `take_until` and `take_until1` in nom.
///
/// ```
/// let mut parser = take_until(0.., "-->");
/// assert_eq!(rt; parser.parse_peek("ab-->c"), Ok::<_, EmptyError>(("-->c", "ab")));
/// ```
#[inline(always)]
pub fn take_until<Literal, Input, Error, R>(
    occurrences: R,
    literal: Literal,
) -> TakeUntil<Literal, Input, Error>
where
    Range: From<R>,
    Literal: Copy,
    Input: StreamIsPartial + FindSlice<Literal>,
    Error: ParserError<Input>,
    ensures occurrences { ⟦<Range as From<R>>⟧.from_gives occurrences
        (take_until_occurrences result) }
    ensures literal { take_until_literal result ≡ literal }
{
    TakeUntil {
        occurrences: Range::from(occurrences),
        literal,
        marker: PhantomData,
    }
}

/// Takes all remaining input, partial or complete, and returns its slice. It never fails, and never
/// returns `Incomplete`.
///
/// ```
/// let mut input = "ab";
/// assert_eq!(rt; rest(&mut input), Ok::<_, EmptyError>("ab"));
/// assert_eq!(rt; input, "");
/// ```
#[inline(always)]
pub fn rest<Input: Stream, Error: ParserError<Input>>(
    input: &mut Input,
) -> Result<Input::Slice, Error>
    ensures ran { Ran Input.reading (RestDoes Input.reading) Error.form (tt {0})
        (Input.view input.old) (answer_by Error.kind result) (tt {0}) (Input.view input.new) }
{
    Ok(input.finish())
}

/// Returns the number of remaining units, also of partial input, without consuming input. It never
/// fails.
///
/// ```
/// let mut input = "ab";
/// assert_eq!(rt; rest_len(&mut input), Ok::<_, EmptyError>(2));
/// assert_eq!(rt; input, "ab");
/// ```
#[inline(always)]
pub fn rest_len<Input: Stream, Error: ParserError<Input>>(input: &mut Input) -> Result<usize, Error>
    ensures ran { Ran Input.reading (RestLenDoes Input.reading) Error.form (tt {0})
        (Input.view input.old) (answer_by Error.kind result) (tt {0}) (Input.view input.new) }
{
    Ok(input.eof_offset())
}
