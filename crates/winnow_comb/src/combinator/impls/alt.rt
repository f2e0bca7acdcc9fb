//! Choices: their branches, and their parser.
ghost use Rattle.std.specs.Prelude.{⊤, ◌≡◌, Err, MatchResult};
ghost use Rattle.stream_errors.specs.Form.{answer_by};
ghost use Rattle.streams.specs.Input.{Input, IsEndOf, back_at};
ghost use Rattle.streams.specs.Kind.{backtrack};
ghost use Rattle.parser_definitions.specs.Does.{Ran};
ghost use Rattle.parser_definitions.specs.Outcome.{Does};
ghost use Rattle.parser_definitions.specs.Terms.{MeetsTerms, Terms};

mod slices;
mod tuples;

use std::marker::PhantomData;
use stream_errors::joining::{append_position, join_branches};
use stream_errors::parser_error::ParserError;
use streams::stream::Stream;
use winnow_core::parser::Parser;

/// The branches of [`alt`](crate::combinator::alt): a tuple of one to nine parsers, or an array or
/// a mutable slice of parsers of one type.
///
/// ```
/// let mut input = "b";
/// assert_eq!(rt; ('a', 'b').choice(&mut input), Ok::<_, EmptyError>('b'));
/// assert_eq!(rt; input, "");
/// ```
pub trait Alt<I: Stream, O, E: ParserError<I>> {
    // The states in which the branches may be run: closures in them may be called.
    ghost can_choose: { Self → Type 0 } = { λ _. ⊤ };

    // The states of the branches.
    ghost State: { Type 0 };

    // The state that they are in.
    ghost state: { Self → State };

    // The definition of the choice.
    ghost does: { Does State I.Seen O };

    // When the definition is lawful, when it is stable, which outputs are equal, and its
    // specification by a grammar.
    ghost terms: { Terms State I.Seen O };

    /// Runs the branches in order, each from the start, and returns the first result that is not a
    /// backtrack.
    fn choice(&mut self, input: &mut I) -> Result<O, E>
        requires { can_choose self.old }
        ensures again { can_choose self.new }
        ensures ran { Ran I.reading does E.form (state self.old) (I.view input.old)
            (answer_by E.kind result) (state self.new) (I.view input.new) };

    // The laws of the definition.
    ghost lawful: { MeetsTerms terms does };
}

/// The parser that [`alt`](crate::combinator::alt) makes.
///
/// ```
/// let mut parser: AltParser<_, _, _, _> = alt(('a', 'b'));
/// assert_eq!(rt; parser.parse_peek("ba"), Ok::<_, EmptyError>(("a", 'b')));
/// ```
#[derive(Drop)]
pub struct AltParser<A, I, O, E> {
    pub(crate) alternatives: A,
    pub(crate) marker: PhantomData<(I, O, E)>,
}

impl<A: Alt<I, O, E>, I: Stream, O, E: ParserError<I>> Parser<I, O, E> for AltParser<A, I, O, E> {
    ghost can_parse = { λ s. A.can_choose s.alternatives };

    ghost State = { A.State };

    ghost state = { λ s. A.state s.alternatives };

    ghost does = { A.does };

    ghost terms = { A.terms };

    ghost lawful = { A.lawful };

    #[inline(always)]
    fn parse_next(&mut self, input: &mut I) -> Result<O, E> {
        self.alternatives.choice(input)
    }
}

/// Runs a branch that is not the last. Returns its result; or, if it backtracks, the joined errors
/// of the branches so far, and then the input is reset to `start`, its current position.
#[inline(always)]
pub(crate) fn attempt<I: Stream, O, E: ParserError<I>, P: Parser<I, O, E>>(
    branch: &mut P,
    input: &mut I,
    start: &I::Checkpoint,
    failed: Option<E>,
) -> Result<Result<O, E>, Option<E>>
    requires callable { P.can_parse branch.old }
    requires starts { I.seen start.now ≡ (I.view input.old).left }
    ensures again { P.can_parse branch.new }
    ensures ran { MatchResult result
        (λ answer. Ran I.reading P.does E.form (P.state branch.old) (I.view input.old)
        (answer_by E.kind answer) (P.state branch.new) (I.view input.new)
        × (answer_by E.kind answer ≡ Err backtrack → ⊥))
        (λ _. (end : Input I.Seen) × Ran I.reading P.does E.form (P.state branch.old)
        (I.view input.old) (Err backtrack) (P.state branch.new) end
        × (I.view input.new ≡ back_at (I.seen start.now) end)) }
    ensures ends { IsEndOf I.reading (I.view input.new) (I.view input.old) }
{
    match branch.parse_next(input) {
        Ok(output) => Ok(Ok(output)),
        Err(error) => {
            if error.is_backtrack() {
                input.reset(start);
                Err(Some(join_failed(failed, error, input)))
            } else {
                Ok(Err(error))
            }
        }
    }
}

/// Runs the last branch. If it backtracks, the error is that of all branches, with the position of
/// the choice.
#[inline(always)]
pub(crate) fn attempt_last<I: Stream, O, E: ParserError<I>, P: Parser<I, O, E>>(
    branch: &mut P,
    input: &mut I,
    start: &I::Checkpoint,
    failed: Option<E>,
) -> Result<O, E>
    requires { P.can_parse branch.old }
    ensures again { P.can_parse branch.new }
    ensures ran { Ran I.reading P.does E.form (P.state branch.old) (I.view input.old)
        (answer_by E.kind result) (P.state branch.new) (I.view input.new) }
{
    match branch.parse_next(input) {
        Ok(output) => Ok(output),
        Err(error) => {
            let joined = join_failed(failed, error, input);
            Err(append_position(joined, input, start))
        }
    }
}

/// Joins an error that backtracks to those of earlier branches. Another error is unchanged.
#[inline(always)]
fn join_failed<I: Stream, E: ParserError<I>>(failed: Option<E>, error: E, input: &I) -> E
    ensures { E.kind result ≡ E.kind error }
{
    match failed {
        Some(failed) if error.is_backtrack() => join_branches(failed, error, input),
        _ => error,
    }
}
