//! Laws of parsers that are not stable, each proved by a function that does nothing.
ghost use Rattle.parser_definitions.specs.Does.{Ran};
ghost use Rattle.std.specs.Prelude.{[], ◌∷◌};
ghost use Rattle.stream_errors.specs.Form.{modal};
ghost use Rattle.winnow_core.specs.Longer.{EachSameOnLonger};

use crate::token::impls::{Any, Rest};
use stream_errors::parser_error::ParserError;
use streams::stream::{Stream, StreamIsPartial};
use winnow_core::combinator::impls::CompleteErr;
use winnow_core::parser::Parser;

/// [`Rest`](crate::token::impls::Rest) is not stable: on longer input it takes more.
pub fn rest_is_not_stable<I: Stream, E: ParserError<I>>()
    ensures { (none one : I.Slice) (x : I.Seen) → I.reading.shows none []
        → I.reading.shows one (x ∷ [])
        → EachSameOnLonger (Ran I.reading ⟦<Rest as Parser<I, I::Slice, E>>⟧.does modal)
        ⟦<Rest as Parser<I, I::Slice, E>>⟧.terms.alike → ⊥ }
{}

/// Neither is [`CompleteErr`](winnow_core::combinator::impls::CompleteErr), even if its parser is.
/// Over [`Any`](crate::token::impls::Any) it backtracks at the end of partial input, but takes a
/// token if one follows.
pub fn complete_err_is_not_stable<I: StreamIsPartial, E: ParserError<I>>()
    ensures { I.Token
        → EachSameOnLonger
        (Ran I.reading ⟦<CompleteErr<Any, I, I::Token, E> as Parser<I, I::Token, E>>⟧.does modal)
        ⟦<CompleteErr<Any, I, I::Token, E> as Parser<I, I::Token, E>>⟧.terms.alike → ⊥ }
{}
