//! Turns of literal text and of escapes, into an accumulator.
ghost use Rattle.parser_definitions.specs.Does.{Ran};
ghost use Rattle.parser_definitions.specs.Escaped.{EscapeTurn, TextTurn, either_kept};
ghost use Rattle.parser_definitions.specs.Folding.{gathering};
ghost use Rattle.parser_definitions.specs.Loop.{Loop};
ghost use Rattle.std.specs.Prelude.{◌≡◌, [], MatchResult};
ghost use Rattle.stream_errors.specs.Form.{answer_by};
ghost use Rattle.winnow_escapes.specs.Escaped.{side, tried_side};

use std::alloc::AllocError;
use stream_errors::control::ControlError;
use stream_errors::parser_error::ParserError;
use stream_sets::accumulate::Accumulate;
use streams::needed::Needed;
use streams::stream::{Stream, StreamIsPartial};
use winnow_core::parser::Parser;

/// The output of a turn.
#[derive(Drop)]
pub enum Turn<O, P> {
    /// The output of literal text.
    Normal(O),
    /// The output of the input after a control.
    Escape(P),
}

/// Tries a turn, if input remains. There is no turn if the control does not match.
pub(crate) fn try_turn<
    N: Parser<I, O, E>,
    K: Parser<I, D, ControlError>,
    X: Parser<I, P, E>,
    I: Stream,
    O,
    D: Drop,
    P,
    E: ParserError<I>,
>(normal: &mut N, control: &mut K, escape: &mut X, input: &mut I) -> Result<Option<Turn<O, P>>, E>
    requires left { (I.view input.old).left.tokens ≡ [] → ⊥ }
    requires normal { N.can_parse normal.old }
    requires control { K.can_parse control.old }
    requires escape { X.can_parse escape.old }
    ensures again { N.can_parse normal.new × K.can_parse control.new × X.can_parse escape.new }
    ensures ran { Ran I.reading (EscapeTurn N.does K.does X.does) E.form
        (N.state normal.old, K.state control.old, X.state escape.old) (I.view input.old)
        (tried_side (answer_by E.kind result))
        (N.state normal.new, K.state control.new, X.state escape.new) (I.view input.new) }
{
    let start = input.checkpoint();
    match normal.parse_next(input) {
        Ok(output) => return Ok(Some(Turn::Normal(output))),
        Err(error) => {
            if !error.is_backtrack() {
                return Err(error);
            }
        }
    }
    input.reset(&start);
    match control.parse_next(input) {
        Ok(_control) => {
            let output = escape.parse_next(input)?;
            Ok(Some(Turn::Escape(output)))
        }
        Err(ControlError::Invalid) => Ok(None),
        Err(ControlError::NoMemory) => Err(E::no_memory(input)),
    }
}

/// Puts what a turn gave into an accumulator.
#[inline(always)]
fn keep<O, P, C: Accumulate<O, A> + Accumulate<P, A>, A>(
    all: &mut C,
    turn: Turn<O, P>,
) -> Result<(), AllocError>
    ensures { MatchResult result
        (λ _. (either_kept ⟦<C as Accumulate<O, A>>⟧.accumulator
        ⟦<C as Accumulate<P, A>>⟧.accumulator).takes all.old (side turn) all.new)
        (λ _. (either_kept ⟦<C as Accumulate<O, A>>⟧.accumulator
        ⟦<C as Accumulate<P, A>>⟧.accumulator).grows all.old (side turn)) }
{
    match turn {
        Turn::Normal(output) => <C as Accumulate<O, A>>::accumulate(all, output),
        Turn::Escape(output) => <C as Accumulate<P, A>>::accumulate(all, output),
    }
}

/// Reads turns while input remains.
pub(crate) fn read_turns<
    N: Parser<I, O, E>,
    K: Parser<I, D, ControlError>,
    X: Parser<I, P, E>,
    I: StreamIsPartial,
    O: Drop,
    D: Drop,
    P: Drop,
    C: Accumulate<O, A> + Accumulate<P, A>,
    E: ParserError<I>,
    A,
>(before: C, normal: &mut N, control: &mut K, escape: &mut X, input: &mut I) -> Result<C, E>
    requires normal { N.can_parse normal.old }
    requires control { K.can_parse control.old }
    requires escape { X.can_parse escape.old }
    ensures again { N.can_parse normal.new × K.can_parse control.new × X.can_parse escape.new }
    ensures ran { Ran I.reading (Loop (TextTurn (gathering (either_kept
        ⟦<C as Accumulate<O, A>>⟧.accumulator ⟦<C as Accumulate<P, A>>⟧.accumulator))
        (EscapeTurn N.does K.does X.does)) before) E.form
        (N.state normal.old, K.state control.old, X.state escape.old) (I.view input.old)
        (answer_by E.kind result)
        (N.state normal.new, K.state control.new, X.state escape.new) (I.view input.new) }
{
    let mut all = before;
    'turns: loop {
        let left = input.eof_offset();
        if left == 0 {
            if input.is_partial() {
                return Err(E::incomplete(input, Needed::Unknown));
            }
            return Ok(all);
        }
        match try_turn(normal, control, escape, input)? {
            Some(turn) => {
                if input.eof_offset() == left {
                    return Err(E::assert(input, "each turn must consume"));
                }
                match keep::<O, P, C, A>(&mut all, turn) {
                    Ok(()) => {}
                    Err(_) => return Err(E::no_memory(input)),
                }
            }
            None => return Ok(all),
        }
    }
}
