//! The implementation of `length_and_then`.
ghost use Rattle.parser_definitions.specs.Does.{Ran};
ghost use Rattle.std.specs.Prelude.{⊤, true};
ghost use Rattle.grammars.specs.Grammar.Lengths.{Inside, SaysOne, Sized, sized_inside_takes};
ghost use Rattle.stream_errors.specs.Form.{answer_by, modal};
ghost use Rattle.parser_definitions.specs.Length.{LengthAndThenDoes, OneLength};
ghost use Rattle.parser_definitions.specs.Length.{TakenDo, length_and_then_law};
ghost use Rattle.parser_definitions.specs.MapErr.{CompleteErrDoes};
ghost use Rattle.parser_definitions.specs.Projects.{projects_as};
ghost use Rattle.parser_definitions.specs.Projects.Length.{length_and_then_projects};

use std::marker::PhantomData;
use stream_errors::parser_error::ParserError;
use stream_sets::numbers::ToUsize;
use streams::stream::{Stream, StreamIsPartial, UpdateSlice};
use winnow_core::parser::Parser;
use winnow_core::short::short;

/// The parser that [`length_and_then`](crate::binary::length_and_then) makes.
///
/// ```
/// let mut parser: LengthAndThen<_, _, _, _, _, _> = length_and_then(U8, Any);
/// let answer = parser.parse_peek(b"\x02abc".as_slice());
/// assert_eq!(rt; answer, Ok::<_, EmptyError>((b"c".as_slice(), b'a')));
/// ```
#[derive(Drop)]
pub struct LengthAndThen<P, G, I, N, O, E> {
    pub(crate) count: P,
    pub(crate) parser: G,
    pub(crate) marker: PhantomData<(I, N, O, E)>,
}

impl<
    P: Parser<I, N, E>,
    G: Parser<I, O, E>,
    I: StreamIsPartial + UpdateSlice + Copy,
    N: ToUsize + Drop,
    O,
    E: ParserError<I>,
> Parser<I, O, E> for LengthAndThen<P, G, I, N, O, E> {
    ghost can_parse = { λ s. P.can_parse s.count × G.can_parse s.parser };

    ghost State = { P.State × G.State };

    ghost state = { λ s. (P.state s.count, G.state s.parser) };

    ghost does = { LengthAndThenDoes I.reading N.number I.counts_missing P.does G.does };

    ghost terms = { record {
      premise = P.terms.premise × OneLength N.number P.terms.alike × G.terms.premise;
      stable = P.terms.stable × ⊤;
      alike = G.terms.alike;
      claim = λ s. record {
        premise = (P.terms.claim s.0).premise × SaysOne N.number (P.terms.claim s.0).grammar
            × (G.terms.claim s.1).premise;
        backtracks = (P.terms.claim s.0).backtracks × (G.terms.claim s.1).backtracks;
        spares_memory = (P.terms.claim s.0).spares_memory × (G.terms.claim s.1).spares_memory;
        consumes = (P.terms.claim s.0).consumes;
        grammar = Sized N.number (Inside (G.terms.claim s.1).grammar) (P.terms.claim s.0).grammar;
      };
    } };

    ghost lawful = { record {
      law = λ is. length_and_then_law I.reading N.number I.counts_missing is.1
          (P.lawful.law is.0) (G.lawful.law is.2);
      claimed = λ s. record {
        projects = λ at is. length_and_then_projects N.number I.reading I.counts_missing
            (projects_as (λ b. b.0) (λ m. m.0) ((P.lawful.claimed s.0).projects at is.0)) is.1
            (projects_as (λ b. b.1) (λ m. m.1) ((G.lawful.claimed s.1).projects at is.2));
        takes = λ is some. sized_inside_takes N.number (G.terms.claim s.1).grammar
            ((P.lawful.claimed s.0).projects (record { form = modal; possible = true }) is.0).unique
            ((P.lawful.claimed s.0).takes is.0 some);
      };
    } };

    #[inline]
    fn parse_next(&mut self, input: &mut I) -> Result<O, E> {
        let count = self.count.parse_next(input)?;
        parse_taken(count.to_usize(), &mut self.parser, input)
    }
}

/// Takes `count` tokens and runs `parser` on them as complete input.
#[inline]
fn parse_taken<P: Parser<I, O, E>, I: StreamIsPartial + UpdateSlice + Copy, O, E: ParserError<I>>(
    count: usize,
    parser: &mut P,
    input: &mut I,
) -> Result<O, E>
    requires { P.can_parse parser.old }
    ensures again { P.can_parse parser.new }
    ensures ran { Ran I.reading (TakenDo I.reading I.counts_missing P.does count) E.form
        (P.state parser.old) (I.view input.old) (answer_by E.kind result) (P.state parser.new)
        (I.view input.new) }
{
    match input.offset_at(count) {
        Ok(offset) => {
            let taken = input.next_slice(offset);
            let mut only = (*input).update_slice(taken);
            let _state = only.complete();
            parse_complete(parser, &mut only)
        }
        Err(needed) => Err(short(input, needed)),
    }
}

/// Runs `parser` and turns `Incomplete` into a backtrack.
#[inline(always)]
fn parse_complete<P: Parser<I, O, E>, I: Stream, O, E: ParserError<I>>(
    parser: &mut P,
    input: &mut I,
) -> Result<O, E>
    requires { P.can_parse parser.old }
    ensures again { P.can_parse parser.new }
    ensures ran { Ran I.reading (CompleteErrDoes P.does) E.form (P.state parser.old)
        (I.view input.old) (answer_by E.kind result) (P.state parser.new) (I.view input.new) }
{
    match parser.parse_next(input) {
        Ok(output) => Ok(output),
        Err(error) => {
            if error.is_incomplete() {
                Err(E::from_input(input))
            } else {
                Err(error)
            }
        }
    }
}
