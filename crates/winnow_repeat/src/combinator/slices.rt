//! Repetition into a slice of the caller, without allocating.

ghost use Rattle.parser_definitions.specs.Does.{Ran};
ghost use Rattle.std.specs.Prelude.{◌≡◌, false};
ghost use Rattle.stream_errors.specs.Form.{answer_by};
ghost use Rattle.parser_definitions.specs.Fill.{IntoSliceDoes};
ghost use Rattle.winnow_repeat.specs.IntoSlice.{StoresItems, TooManyKind};
ghost use Rattle.winnow_repeat.specs.IntoSlice.Exact.{ReadsIntoSlice};
ghost use Rattle.winnow_core.specs.Exact.{UnlessWanted};
ghost use Rattle.winnow_core.specs.Tells.{Tells};

use stream_errors::external::FromExternalError;
use stream_errors::parser_error::ParserError;
use streams::stream::Stream;
use winnow_core::parser::Parser;

/// The error for an output without an element of the slice, which has `limit` elements.
#[derive(Clone, Copy, PartialEq, Eq, Debug)]
pub struct TooMany {
    /// The number of elements.
    pub limit: usize,
}

/// Runs `parser` repeatedly, stores the outputs in the first elements of `slice`, and returns their
/// number.
///
/// It ends before an item that backtracks. Another error of an item is returned unchanged. An item
/// that consumes no input is an assert error.
///
/// If an item succeeds and no element is left, the error is made from [`TooMany`], as
/// [`FromExternalError`] specifies. It backtracks, and the input is left before that item.
///
/// After every result the outputs of the items before are in the first elements, in order. The
/// other elements are unchanged. It does not allocate.
///
/// ```
/// let mut letters = ['-', '-', '-'];
/// let mut input = "aab";
/// let answer: Result<usize, EmptyError> = repeat_into_slice(&mut input, &mut 'a', &mut letters);
/// assert_eq!(rt; answer, Ok(2));
/// assert_eq!(rt; input, "b");
/// assert_eq!(rt; letters, ['a', 'a', '-']);
/// ```
pub fn repeat_into_slice<P, I, O, E>(
    input: &mut I,
    parser: &mut P,
    slice: &mut [O],
) -> Result<usize, E>
where
    P: Parser<I, O, E>,
    I: Stream,
    O: Drop,
    E: ParserError<I> + FromExternalError<I, TooMany>,
    requires { P.can_parse parser.old }
    ensures again { P.can_parse parser.new }
    ensures ran { Ran I.reading (IntoSliceDoes (TooManyKind E.external_gives) P.does) E.form
        (P.state parser.old, slice.old) (I.view input.old) (answer_by E.kind result)
        (P.state parser.new, slice.new) (I.view input.new) }
    ensures stored { StoresItems I.reading P.does E.form slice.old (P.state parser.old)
        (I.view input.old) slice.new }
    ensures tells { P.terms.premise → ((o p : O) → P.terms.alike o p → o ≡ p)
        → Tells I.reading (λ n m. n ≡ m)
        (IntoSliceDoes (TooManyKind E.external_gives) P.does) E.form
        (P.state parser.old, slice.old) (I.view input.old) (answer_by E.kind result)
        (P.state parser.new, slice.new) (I.view input.new) }
    ensures reads { (P.terms.claim (P.state parser.old)).premise
        → (P.terms.claim (P.state parser.old)).backtracks
        → (P.terms.claim (P.state parser.old)).consumes
        → (I.view input.old).status.cut ≡ false
        → UnlessWanted E.kind result (P.state parser.new ≡ P.state parser.old)
        × ReadsIntoSlice (P.terms.claim (P.state parser.old)).grammar
        (P.terms.claim (P.state parser.old)).spares_memory (TooManyKind E.external_gives) slice.old
        (I.view input.old).left.tokens (answer_by E.kind result) slice.new
        (I.view input.new).left.tokens }
{
    write_items(input, parser, slice)
}

/// The loop of [`repeat_into_slice`].
fn write_items<P, I, O, E>(input: &mut I, parser: &mut P, slice: &mut [O]) -> Result<usize, E>
where
    P: Parser<I, O, E>,
    I: Stream,
    O: Drop,
    E: ParserError<I> + FromExternalError<I, TooMany>,
    requires { P.can_parse parser.old }
    ensures again { P.can_parse parser.new }
    ensures ran { Ran I.reading (IntoSliceDoes (TooManyKind E.external_gives) P.does) E.form
        (P.state parser.old, slice.old) (I.view input.old) (answer_by E.kind result)
        (P.state parser.new, slice.new) (I.view input.new) }
    ensures stored { StoresItems I.reading P.does E.form slice.old (P.state parser.old)
        (I.view input.old) slice.new }
    ensures reads { (P.terms.claim (P.state parser.old)).premise
        → (P.terms.claim (P.state parser.old)).backtracks
        → (P.terms.claim (P.state parser.old)).consumes
        → (I.view input.old).status.cut ≡ false
        → UnlessWanted E.kind result (P.state parser.new ≡ P.state parser.old)
        × ReadsIntoSlice (P.terms.claim (P.state parser.old)).grammar
        (P.terms.claim (P.state parser.old)).spares_memory (TooManyKind E.external_gives) slice.old
        (I.view input.old).left.tokens (answer_by E.kind result) slice.new
        (I.view input.new).left.tokens }
{
    let mut count = 0;
    'items: loop {
        let start = input.checkpoint();
        let left = input.eof_offset();
        match parser.parse_next(input) {
            Ok(output) => {
                if input.eof_offset() == left {
                    return Err(E::assert(input, "each item must consume"));
                }
                if count == slice.len() {
                    input.reset(&start);
                    let error = TooMany { limit: count };
                    return Err(E::from_external_error(input, error));
                }
                slice[count] = output;
                count += 1;
            }
            Err(error) => {
                if error.is_backtrack() {
                    input.reset(&start);
                    return Ok(count);
                }
                return Err(error);
            }
        }
    }
}
