//! Laws of text with escapes, each proved by a function that does nothing.
ghost use Rattle.parser_definitions.specs.Does.{Ran};
ghost use Rattle.std.specs.Prelude.{List};
ghost use Rattle.parser_definitions.specs.Escaped.{Settled};
ghost use Rattle.winnow_core.specs.Laws.{ShowsOne, TakesFromTheFront};
ghost use Rattle.winnow_escapes.specs.Controls.{NeverShort};

use crate::ascii::impls::TakeEscaped;
use stream_errors::control::ControlError;
use stream_errors::parser_error::ParserError;
use stream_searches::compare::Compare;
use stream_sets::sets::ContainsToken;
use streams::stream::{Stream, StreamIsPartial};
use winnow_core::parser::Parser;
use winnow_token::token::impls::{Any, NoneOf, OneOf};

/// States that the tokens of the slice of [`take_escaped`](crate::ascii::take_escaped) followed by
/// the rest are the original input. The stream must have a function that gives the tokens of each
/// slice.
pub fn the_escaped_slice_and_the_rest_are_the_input<
    N: Parser<I, O, E>,
    K: Parser<I, D, ControlError>,
    X: Parser<I, P, E>,
    I: StreamIsPartial,
    O: Drop,
    D: Drop,
    P: Drop,
    E: ParserError<I>,
>()
    ensures { (tokens_of : I.Slice → List I.Seen) → ShowsOne I.reading tokens_of
        → TakesFromTheFront tokens_of
        (Ran I.reading ⟦<TakeEscaped<N, K, X, I, O, D, P, E> as Parser<I, I::Slice, E>>⟧.does
        E.form) }
{}

/// States that the first token determines the outcome of a control that is one token:
/// [`Any`], [`OneOf`] or [`NoneOf`]. So text with escapes is stable for these.
///
/// The error of a control cannot be incomplete. One that is cut off does not match, and the text
/// would end there. A control of one token is never cut off, since a turn begins only if input
/// remains.
pub fn controls_of_one_token_are_settled<S: ContainsToken<I::Token>, I: StreamIsPartial>()
where
    I::Token: Copy,
    ensures any { Settled ⟦<Any as Parser<I, I::Token, ControlError>>⟧.does }
    ensures one_of { Settled
        ⟦<OneOf<S, I, ControlError> as Parser<I, I::Token, ControlError>>⟧.does }
    ensures none_of { Settled
        ⟦<NoneOf<S, I, ControlError> as Parser<I, I::Token, ControlError>>⟧.does }
{}

/// Likewise for a byte, if its spellings are one token each.
pub fn a_byte_control_is_settled<I: StreamIsPartial + Compare<u8>>()
    ensures { NeverShort I.spells → Settled ⟦<u8 as Parser<I, u8, ControlError>>⟧.does }
{}
