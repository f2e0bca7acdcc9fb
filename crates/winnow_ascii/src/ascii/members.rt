//! Takes of the members of a class.
ghost use Rattle.std.specs.Prelude.{None, ⊤};
ghost use Rattle.parser_definitions.specs.Does.{Ran};
ghost use Rattle.parser_definitions.specs.TakeWhile.{TakeWhileDoes};
ghost use Rattle.stream_errors.specs.Form.{answer_by};
ghost use Rattle.stream_sets.specs.Range.{from_to};
ghost use Rattle.streams.specs.Stream.{AnswersSeen};

use stream_errors::parser_error::ParserError;
use stream_sets::sets::ContainsToken;
use streams::stream::StreamIsPartial;
use winnow_core::parser::Parser;
use winnow_token::token::take_while;

/// Parses zero or more members of `set` and returns their slice.
#[inline(always)]
pub(crate) fn any_of<S: ContainsToken<I::Token> + Drop, I: StreamIsPartial, E: ParserError<I>>(
    input: &mut I,
    set: S,
) -> Result<I::Slice, E>
    requires { S.can_test set }
    ensures ran { Ran {S = ⊤} I.reading (TakeWhileDoes I.reading
        (λ _. AnswersSeen I.seen_as (S.tells set)) (λ _. from_to 0 None)) E.form tt
        (I.view input.old) (answer_by E.kind result) tt (I.view input.new) }
{
    take_while::<_, I, E, _>(0.., set).parse_next(input)
}

/// Parses one or more members of `set` and returns their slice.
#[inline(always)]
pub(crate) fn some_of<S: ContainsToken<I::Token> + Drop, I: StreamIsPartial, E: ParserError<I>>(
    input: &mut I,
    set: S,
) -> Result<I::Slice, E>
    requires { S.can_test set }
    ensures ran { Ran {S = ⊤} I.reading (TakeWhileDoes I.reading
        (λ _. AnswersSeen I.seen_as (S.tells set)) (λ _. from_to 1 None)) E.form tt
        (I.view input.old) (answer_by E.kind result) tt (I.view input.new) }
{
    take_while::<_, I, E, _>(1.., set).parse_next(input)
}
