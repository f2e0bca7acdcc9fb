//! The machine: one loop over the open operators.
ghost use Rattle.parser_definitions.specs.Does.{Ran};
ghost use Rattle.std.specs.Prelude.{reverse};
ghost use Rattle.stream_errors.specs.Form.{answer_by, assert_kind};
ghost use Rattle.streams.specs.Input.{IsEndOf};
ghost use Rattle.winnow_expression.specs.Calls.{call_of, calls_of, opens_of};
ghost use Rattle.winnow_expression.specs.Covers.Trees.{first_from, next_from};
ghost use Rattle.winnow_expression.specs.Definition.{LeveledDo, OutputAs, operators};
ghost use Rattle.winnow_expression.specs.Grammar.{Closes, folding};
ghost use Rattle.winnow_expression.specs.Machine.{AllEnd, EndsToo, InfixTurn, OperandStep};
ghost use Rattle.winnow_expression.specs.Machine.{PostfixTurn, PrefixedOperand, TurnStep};

use crate::combinator::calls::{Call, Open, Operator, interrupt};
use crate::combinator::folds::{FoldBinary, FoldUnary};
use crate::combinator::operators::Infix;
use crate::combinator::places::{First, Next};
use std::alloc::Allocator;
use stream_errors::parser_error::ParserError;
use streams::stream::Stream;
use winnow_core::parser::Parser;

/// What happens at an operator's place.
#[derive(Drop)]
pub enum Turn<O> {
    /// The call ends with a value.
    Ends(O),
    /// Every open call ends.
    EndsAll(O),
    /// A postfix is folded.
    Goes(O),
    /// An infix is open: its right operand begins.
    Interrupted,
}

/// Folds an operator after its right operand, and checks that the turn of an infix consumed.
pub fn close<I: Stream, O: Drop, E: ParserError<I>, F: FoldUnary<I, O, E>, H: FoldBinary<I, O, E>>(
    operator: Operator<O, F, H>,
    turn: usize,
    right: O,
    input: &mut I,
) -> Result<O, E>
    ensures ran { Closes
        (folding (F.folds E.form) (H.folds E.form) I.reading.units (assert_kind E.form))
        operator turn (I.view input.old) right
        (answer_by E.kind result) (I.view input.new) }
    ensures ends { IsEndOf I.reading (I.view input.new) (I.view input.old) }
{
    match operator {
        Operator::Prefix(fold) => fold.apply(input, right),
        Operator::Infix(left, fold) => {
            let value = fold.apply(input, left, right)?;
            if input.eof_offset() == turn {
                return Err(E::assert(input, "each turn must consume"));
            }
            Ok(value)
        }
    }
}

/// Parses an operand, or a prefix, which is then open.
#[inline(always)]
pub fn operand_step<
    I: Stream,
    O: Drop,
    E: ParserError<I>,
    F: Drop,
    H: Drop,
    P: Parser<I, First<O, F>, E>,
    A: Allocator,
>(
    first: &mut P,
    call: &mut Call,
    operators: &mut Vec<Open<O, F, H>, A>,
    input: &mut I,
) -> Result<Option<O>, E>
    requires { P.can_parse first.old }
    ensures again { P.can_parse first.new }
    ensures ran { OperandStep I.reading.units (Ran I.reading P.does E.form) (assert_kind E.form)
        (calls_of call.old operators.old.items) (P.state first.old) (I.view input.old)
        (answer_by E.kind result) (calls_of call.new operators.new.items) (P.state first.new)
        (I.view input.new) }
    ensures ends { IsEndOf I.reading (I.view input.new) (I.view input.old) }
{
    let units = input.eof_offset();
    match first.parse_next(input)? {
        First::Operand(value) => Ok(Some(value)),
        First::Prefix(power, fold) => {
            let behind = input.eof_offset();
            if behind == units {
                return Err(E::assert(input, "a prefix must consume"));
            }
            let above = Open {
                operator: Operator::Prefix(fold),
                call: *call,
            };
            match interrupt(call, operators, above, Some(power), behind) {
                Ok(()) => Ok(None),
                Err(()) => Err(E::no_memory(input)),
            }
        }
    }
}

/// Parses an operand after any number of prefixes, which are then open.
#[inline(always)]
pub fn operand_with_prefixes<
    I: Stream,
    O: Drop,
    E: ParserError<I>,
    F: Drop,
    H: Drop,
    P: Parser<I, First<O, F>, E>,
    A: Allocator,
>(
    first: &mut P,
    call: &mut Call,
    operators: &mut Vec<Open<O, F, H>, A>,
    input: &mut I,
) -> Result<O, E>
    requires { P.can_parse first.old }
    ensures again { P.can_parse first.new }
    ensures ran { PrefixedOperand I.reading.units (Ran I.reading P.does E.form) (assert_kind E.form)
        (calls_of call.old operators.old.items) (P.state first.old) (I.view input.old)
        (answer_by E.kind result) (calls_of call.new operators.new.items) (P.state first.new)
        (I.view input.new) }
    ensures ends { IsEndOf I.reading (I.view input.new) (I.view input.old) }
{
    'prefixes: loop {
        match operand_step(first, call, operators, input)? {
            Some(value) => return Ok(value),
            None => continue 'prefixes,
        }
    }
}

/// Parses an operator, after a left operand.
pub fn turn_step<
    I: Stream,
    O: Drop,
    E: ParserError<I>,
    F: Drop,
    G: FoldUnary<I, O, E>,
    H: Drop,
    Q: Parser<I, Next<G, H>, E>,
    A: Allocator,
>(
    next: &mut Q,
    call: &mut Call,
    operators: &mut Vec<Open<O, F, H>, A>,
    left: O,
    input: &mut I,
) -> Result<Turn<O>, E>
    requires { Q.can_parse next.old }
    ensures again { Q.can_parse next.new }
    ensures ran { TurnStep I.reading.units (Ran I.reading Q.does E.form) (G.folds E.form)
        (assert_kind E.form) (calls_of call.old operators.old.items) left (Q.state next.old)
        (I.view input.old) (answer_by E.kind result) (calls_of call.new operators.new.items)
        (Q.state next.new) (I.view input.new) }
    ensures ends { IsEndOf I.reading (I.view input.new) (I.view input.old) }
{
    let start = input.checkpoint();
    let units = input.eof_offset();
    match next.parse_next(input)? {
        Next::Nothing => Ok(Turn::Ends(left)),
        Next::Postfix(power, fold) => postfix_turn(call, power, fold, &start, units, left, input),
        Next::Infix(operator) => {
            infix_turn(operator, &start, units, call, operators, left, input)
        }
    }
}

/// A postfix is read: it is folded, or put back where it is below the least power.
fn postfix_turn<I: Stream, O: Drop, E: ParserError<I>, G: FoldUnary<I, O, E>>(
    call: &Call,
    power: i64,
    fold: G,
    start: &I::Checkpoint,
    units: usize,
    left: O,
    input: &mut I,
) -> Result<Turn<O>, E>
    ensures ran { PostfixTurn I.reading.units (G.folds E.form) (assert_kind E.form)
        (call_of call.now).least power fold (I.seen start.now) units left (I.view input.old)
        (answer_by E.kind result) (I.view input.new) }
    ensures ends { EndsToo I.reading (I.seen start.now) (I.view input.old) (I.view input.new) }
{
    if call.is_above(power) {
        input.reset(start);
        return Ok(Turn::Ends(left));
    }
    let value = fold.apply(input, left)?;
    if input.eof_offset() == units {
        return Err(E::assert(input, "each turn must consume"));
    }
    Ok(Turn::Goes(value))
}

/// An infix is read: its right operand begins, or it is put back.
fn infix_turn<I: Stream, O: Drop, E: ParserError<I>, F: Drop, H: Drop, A: Allocator>(
    operator: Infix<H>,
    start: &I::Checkpoint,
    units: usize,
    call: &mut Call,
    operators: &mut Vec<Open<O, F, H>, A>,
    left: O,
    input: &mut I,
) -> Result<Turn<O>, E>
    ensures ran { InfixTurn I.reading.units (assert_kind E.form) operator (I.seen start.now)
        units (calls_of call.old operators.old.items) left (I.view input.old)
        (answer_by E.kind result) (calls_of call.new operators.new.items) (I.view input.new) }
    ensures ends { EndsToo I.reading (I.seen start.now) (I.view input.old) (I.view input.new) }
{
    let binding = operator.binding();
    if call.is_above(binding.left) {
        input.reset(start);
        return Ok(Turn::Ends(left));
    }
    if call.has_neither(binding.left) {
        input.reset(start);
        return Ok(Turn::EndsAll(left));
    }
    let behind = input.eof_offset();
    if behind == call.began {
        return Err(E::assert(input, "a call must consume before an infix"));
    }
    let above = Open {
        operator: Operator::Infix(left, binding.fold),
        call: call.behind(units, binding.neither),
    };
    match interrupt(call, operators, above, binding.right, behind) {
        Ok(()) => Ok(Turn::Interrupted),
        Err(()) => Err(E::no_memory(input)),
    }
}

/// Folds all open operators, from the innermost out.
fn end_all<
    I: Stream,
    O: Drop,
    E: ParserError<I>,
    F: FoldUnary<I, O, E>,
    H: FoldBinary<I, O, E>,
    A: Allocator,
>(operators: Vec<Open<O, F, H>, A>, value: O, input: &mut I) -> Result<O, E>
    ensures ran { AllEnd
        (folding (F.folds E.form) (H.folds E.form) I.reading.units (assert_kind E.form))
        (reverse (opens_of operators.items)) value (I.view input.old)
        (answer_by E.kind result) (I.view input.new) }
    ensures ends { IsEndOf I.reading (I.view input.new) (I.view input.old) }
{
    let mut open = operators;
    let mut value = value;
    'operators: while let Some(above) = open.pop() {
        value = close(above.operator, above.call.turn, value, input)?;
    }
    Ok(value)
}

/// Parses an expression of operators that are at least as strong as `level`.
pub fn expression_from<
    I: Stream,
    O: Drop,
    E: ParserError<I>,
    F: FoldUnary<I, O, E>,
    G: FoldUnary<I, O, E>,
    H: FoldBinary<I, O, E>,
    P: Parser<I, First<O, F>, E>,
    Q: Parser<I, Next<G, H>, E>,
    A: Allocator + Copy,
>(alloc: A, level: i64, first: &mut P, next: &mut Q, input: &mut I) -> Result<O, E>
    requires first { P.can_parse first.old }
    requires next { Q.can_parse next.old }
    ensures again { P.can_parse first.new × Q.can_parse next.new }
    ensures ran { Ran I.reading (LeveledDo
        (operators I.reading.units F.folds G.folds H.folds)
        (OutputAs first_from P.does) (OutputAs next_from Q.does)) E.form
        (P.state first.old, Q.state next.old, level) (I.view input.old) (answer_by E.kind result)
        (P.state first.new, Q.state next.new, level) (I.view input.new) }
    ensures ends { IsEndOf I.reading (I.view input.new) (I.view input.old) }
{
    let units = input.eof_offset();
    let mut call = Call::new(Some(level), units);
    let mut operators = Vec::new(alloc);
    let mut left = operand_with_prefixes(first, &mut call, &mut operators, input)?;
    'turns: loop {
        match turn_step(next, &mut call, &mut operators, left, input)? {
            Turn::Goes(value) => {
                left = value;
                continue 'turns;
            }
            Turn::Interrupted => {
                left = operand_with_prefixes(first, &mut call, &mut operators, input)?;
                continue 'turns;
            }
            Turn::Ends(value) => match operators.pop() {
                Some(above) => {
                    call = above.call;
                    left = close(above.operator, above.call.turn, value, input)?;
                    continue 'turns;
                }
                None => return Ok(value),
            },
            Turn::EndsAll(value) => return end_all(operators, value, input),
        }
    }
}
