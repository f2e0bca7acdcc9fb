//! Numbers in use: a concrete parser on a complete partial stream.
#![tactic(auto)]

ghost use Rattle.winnow.specs.Does.{Ran};
ghost use Rattle.winnow.specs.Form.{answer_by};

use std::alloc::Allocator;
use winnow::Parser;
use winnow::ascii::impls::Digit1;
use winnow::combinator::impls::{Repeat, Terminated};
use winnow::error::ParserError;
use winnow::stream::{AsChar, Compare, Partial, Stream, StreamIsPartial};

/// Numbers, each with a separator of one byte after it.
pub type Numbers<I, E, A> = Repeat<
    Terminated<Digit1, u8, I, <I as Stream>::Slice, u8, E>,
    I,
    <I as Stream>::Slice,
    (),
    E,
    A,
>;

/// Runs a parser of numbers over a partial stream. Its result and the rest are those of a call of
/// the same parser over the plain stream.
pub fn parse_numbers<I, E, F, A>(
    numbers: &mut Numbers<Partial<I>, F, A>,
    input: &mut Partial<I>,
) -> Result<(), F>
where
    I: StreamIsPartial + Compare<u8>,
    I::Token: AsChar,
    E: ParserError<I>,
    F: ParserError<Partial<I>>,
    A: Allocator + Copy,
    ensures { (t : ⟦<Numbers<I, E, A> as Parser<I, (), E>>⟧.State)
        × Ran I.reading ⟦<Numbers<I, E, A> as Parser<I, (), E>>⟧.does F.form
        (⟦<Numbers<Partial<I>, F, A> as Parser<Partial<I>, (), F>>⟧.state numbers.old)
        (⟦<Partial<I> as Stream>⟧.view input.old) (answer_by F.kind result)
        t (⟦<Partial<I> as Stream>⟧.view input.new) }
{
    numbers.parse_next(input)
}
