//! Laws of the parsers, for those that build on them.
ghost use Rattle.parser_definitions.specs.Does.{Ran};
ghost use Rattle.std.specs.Prelude.{List, []};
ghost use Rattle.stream_errors.specs.Form.{modal};
ghost use Rattle.winnow_core.specs.Laws.{ShowsOne, TakesFromTheFront};
ghost use Rattle.winnow_core.specs.Longer.{EachSameOnLonger};

use crate::combinator::impls::{Eof, Take, WithTaken};
use crate::parser::Parser;
use stream_errors::parser_error::ParserError;
use streams::stream::Stream;

/// Over a stream whose slices determine their tokens by a function, the tokens of the slice that
/// [`take`](crate::parser::Parser::take) returns, followed by the rest, are the original input.
pub fn the_slice_taken_and_the_rest_are_the_input<
    P: Parser<I, O, E>,
    I: Stream,
    O: Drop,
    E: ParserError<I>,
>()
    ensures { (tokens_of : I.Slice → List I.Seen) → ShowsOne I.reading tokens_of
        → TakesFromTheFront tokens_of
        (Ran I.reading ⟦<Take<P, I, O, E> as Parser<I, I::Slice, E>>⟧.does E.form) }
{}

/// Over such a stream, the tokens of the slice that
/// [`with_taken`](crate::parser::Parser::with_taken) returns with the output, followed by the rest,
/// are the original input.
pub fn the_slice_with_the_output_and_the_rest_are_the_input<
    P: Parser<I, O, E>,
    I: Stream,
    O,
    E: ParserError<I>,
>()
    ensures { (tokens_of : I.Slice → List I.Seen) → ShowsOne I.reading tokens_of
        → TakesFromTheFront (λ both. tokens_of both.1)
        (Ran I.reading ⟦<WithTaken<P, I, O, E> as Parser<I, (O, I::Slice), E>>⟧.does E.form) }
{}

/// [`Eof`](crate::combinator::impls::Eof) is not stable: it matches at the end of partial input,
/// but not if a token follows.
pub fn eof_is_not_stable<I: Stream, E: ParserError<I>>()
    ensures { (slice : I.Slice) (x : I.Seen) → I.reading.shows slice []
        → EachSameOnLonger (Ran I.reading ⟦<Eof as Parser<I, I::Slice, E>>⟧.does modal)
        ⟦<Eof as Parser<I, I::Slice, E>>⟧.terms.alike → ⊥ }
{}
