//! A buffer that is filled.
ghost use Rattle.parser_definitions.specs.Does.{Ran};
ghost use Rattle.stream_errors.specs.Form.{answer_by};
ghost use Rattle.winnow_repeat.specs.Fill.{buffer_of, fill_buffer};
ghost use Rattle.parser_definitions.specs.Terms.{no_claim, nothing_claimed};
ghost use Rattle.std.specs.Prelude.{◌≡◌, ℕ};
ghost use Rattle.parser_definitions.specs.Fill.{Buffer, FillDoes, fill_law};

use crate::combinator::items::parse_item;
use std::marker::PhantomData;
use stream_errors::parser_error::ParserError;
use streams::stream::Stream;
use winnow_core::parser::Parser;

/// The parser that [`fill`](crate::combinator::fill) makes.
///
/// ```
/// let mut letters = ['x', 'y'];
/// assert_eq!(rt; fill(Any, &mut letters).parse_peek("abc"), Ok::<_, EmptyError>(("c", ())));
/// assert_eq!(rt; letters, ['a', 'b']);
/// ```
#[derive(Drop)]
pub struct Fill<'b, P, I, O, E> {
    pub(crate) parser: P,
    pub(crate) buffer: &'b mut [O],
    pub(crate) marker: PhantomData<(I, E)>,
}

impl<'b, P: Parser<I, O, E>, I: Stream, O: Drop, E: ParserError<I>> Parser<I, (), E>
    for Fill<'b, P, I, O, E> {
    ghost can_parse = { λ s. P.can_parse s.parser };

    ghost State = { P.State × Buffer O };

    ghost state = { λ s. (P.state s.parser, fill_buffer s) };

    ghost does = { FillDoes P.does };

    ghost terms = { record {
      premise = P.terms.premise × ((o p : O) → P.terms.alike o p → o ≡ p);
      stable = P.terms.stable;
      alike = λ o p. o ≡ p;
      claim = λ _. no_claim;
    } };

    ghost lawful = { record {
      law = λ is. fill_law (P.lawful.law is.0) is.1;
      claimed = λ _. nothing_claimed;
    } };

    fn parse_next(&mut self, input: &mut I) -> Result<(), E> {
        fill_each(&mut self.parser, self.buffer, input)
    }
}

/// Overwrites each element of a buffer with the output of a call.
fn fill_each<P: Parser<I, O, E>, I: Stream, O: Drop, E: ParserError<I>>(
    parser: &mut P,
    buffer: &mut [O],
    input: &mut I,
) -> Result<(), E>
    requires { P.can_parse parser.old }
    ensures again { P.can_parse parser.new }
    ensures ran { (name : ℕ) → Ran I.reading (FillDoes P.does) E.form
        (P.state parser.old, buffer_of name buffer.old) (I.view input.old) (answer_by E.kind result)
        (P.state parser.new, buffer_of name buffer.new) (I.view input.new) }
{
    for k in 0..buffer.len() {
        let start = input.checkpoint();
        match parse_item(parser, input, &start) {
            Ok(output) => buffer[k] = output,
            Err(error) => return Err(error),
        }
    }
    Ok(())
}
