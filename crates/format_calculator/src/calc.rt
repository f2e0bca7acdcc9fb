//! The calculator: formulas of whole numbers.
#![tactic(auto, using(streams::specs::Ends::ends_follow))]

ghost use Rattle.std.specs.Prelude.{◌≡◌, pos, IfErr, IfOk};
ghost use Rattle.stream_errors.specs.Form.{answer_by};
ghost use Rattle.streams.specs.Input.{IsEndOf};
ghost use Rattle.streams.specs.Text.{text_input, text_reading};
ghost use Rattle.winnow_expression_trees.specs.Items.{ReadsItems};
ghost use Rattle.format_calculator.specs.Calculator.{CharItem, IsFormulaFault, IsValue, NumberItem};
ghost use Rattle.format_calculator.specs.Calculator.{mark_at, mark_value, pair_at, pair_value};
ghost use Rattle.format_calculator.specs.Calculator.{sign_at, sign_value};

mod items;
mod numbers;
mod operators;
mod parts;

use crate::calc::items::white;
use crate::calc::operators::{Mark, Pair, Sign};
use crate::calc::parts::{BeforeIt, BehindIt, BetweenThem, Number};
use crate::fault::ReadError;
use std::alloc::Allocator;
use stream_errors::empty::EmptyError;
use stream_errors::has_kind::HasKind;
use stream_errors::parser_error::ParserError;
use streams::stream::Stream;
use winnow_core::parser::Parser;
use winnow_expression::combinator::expression;
use winnow_expression_trees::laws::{Likeness, expression_is_unambiguous};

/// Equality of numbers.
struct Equal;

impl Likeness<i64> for Equal {
    ghost alike = { λ v w. v ≡ w };
}

/// Reads a formula that comes first.
fn formula<'i, A: Allocator + Copy>(alloc: A, input: &mut &'i str) -> Result<i64, EmptyError>
    ensures reads { ReadsItems NumberItem (CharItem sign_at) (CharItem mark_at) (CharItem pair_at)
        sign_value mark_value pair_value (pos 0) (text_input input.old.now)
        (answer_by ⟦<EmptyError as HasKind>⟧.kind result) (text_input input.new.now) }
    ensures ends { IsEndOf text_reading (text_input input.new.now) (text_input input.old.now) }
{
    expression_is_unambiguous::<
        &'i str,
        i64,
        Number,
        BeforeIt,
        BehindIt,
        BetweenThem,
        Sign,
        Mark,
        Pair,
        EmptyError,
        Equal,
    >();
    let mut parser = expression(alloc, Number)
        .prefix(BeforeIt)
        .postfix(BehindIt)
        .infix(BetweenThem);
    parser.parse_next(input)
}

/// Returns the value of a text that is a formula of whole numbers.
///
/// Whitespace (spaces, tabs, line feeds and carriage returns) may precede the formula and follow
/// each number and operator. The operators, by decreasing precedence, are:
///
/// - `!` after a number, its factorial, of power 13;
/// - `+` and `-` before a number, of power 12;
/// - `^`, exponentiation, of power 9, right-associative;
/// - `*`, `/` and `%` of power 7, left-associative;
/// - `+` and `-` of power 5, left-associative;
/// - `=` of power 3, not associative, which is 1 if both sides are equal and 0 otherwise.
///
/// `/` rounds toward 0, and `%` has the sign of its left side. `0^0` is 1.
///
/// Other texts are rejected, and so is a number or a result outside `i64`, a divisor of 0, a
/// negative exponent and the factorial of a negative number. The offset of an error is in bytes
/// from the start, never inside a character. If an operator fails, it is the end of the input that
/// was read. A formula with an operator before an operand or between two allocates; if that fails,
/// the error is `NoMemory`.
///
/// ```
/// use format_calculator::calc;
/// use format_calculator::fault::ReadError;
///
/// assert_eq!(rt; calc::value(alloc, " 2 + 3 * 4 "), Ok(14));
/// assert_eq!(rt; calc::value(alloc, "1/0"), Err(ReadError::Invalid(3)));
/// ```
pub fn value<A: Allocator + Copy>(alloc: A, text: &str) -> Result<i64, ReadError>
    ensures ok { IfOk result (λ v. IsValue text.now v) }
    ensures refused { IfErr result (λ f. IsFormulaFault text.now f) }
{
    let mut input = text;
    white(&mut input);
    match formula(alloc, &mut input) {
        Ok(value) => {
            let left = input.eof_offset();
            if left == 0 {
                Ok(value)
            } else {
                Err(ReadError::Invalid(text.eof_offset().saturating_sub(left)))
            }
        }
        Err(error) => {
            if ParserError::<&str>::is_memory(&error) {
                Err(ReadError::NoMemory)
            } else {
                Err(ReadError::Invalid(text.eof_offset().saturating_sub(input.eof_offset())))
            }
        }
    }
}
