//! The operators, and their effect on operands.
ghost use Rattle.std.specs.Prelude.{◌≡◌};
ghost use Rattle.winnow_expression_trees.specs.Items.{FoldGives};
ghost use Rattle.winnow_expression_trees.specs.Items.Premises.{gives_ends};
ghost use Rattle.format_calculator.specs.Calculator.{mark_at, mark_value, pair_at, pair_value};
ghost use Rattle.format_calculator.specs.Calculator.{sign_at};
ghost use Rattle.format_calculator.specs.Calculator.{sign_value};

use crate::calc::numbers::{factorial_of, joined, signed};
use stream_errors::parser_error::ParserError;
use streams::stream::Stream;
use winnow_expression::combinator::{FoldBinary, FoldUnary, Infix, Postfix, Prefix};

/// The operators before an operand.
#[derive(Clone, Copy, Drop)]
pub enum Sign {
    Positive,
    Negative,
}

/// The operator after an operand.
#[derive(Clone, Copy, Drop)]
pub enum Mark {
    Factorial,
}

/// The operators between two operands.
#[derive(Clone, Copy, Drop)]
pub enum Pair {
    Plus,
    Minus,
    Times,
    Over,
    Rest,
    Power,
    Equals,
}

/// The operator that a character is, before an operand.
pub(super) fn sign_of(c: char) -> Option<Prefix<Sign>>
    ensures { result ≡ sign_at c }
{
    match c {
        '+' => Some(Prefix(12, Sign::Positive)),
        '-' => Some(Prefix(12, Sign::Negative)),
        _ => None,
    }
}

/// The operator that a character is, after an operand.
pub(super) fn mark_of(c: char) -> Option<Postfix<Mark>>
    ensures { result ≡ mark_at c }
{
    match c {
        '!' => Some(Postfix(13, Mark::Factorial)),
        _ => None,
    }
}

/// The operator that a character is, between two operands.
pub(super) fn pair_of(c: char) -> Option<Infix<Pair>>
    ensures { result ≡ pair_at c }
{
    match c {
        '+' => Some(Infix::Left(5, Pair::Plus)),
        '-' => Some(Infix::Left(5, Pair::Minus)),
        '*' => Some(Infix::Left(7, Pair::Times)),
        '/' => Some(Infix::Left(7, Pair::Over)),
        '%' => Some(Infix::Left(7, Pair::Rest)),
        '^' => Some(Infix::Right(9, Pair::Power)),
        '=' => Some(Infix::Neither(3, Pair::Equals)),
        _ => None,
    }
}

impl<I: Stream, E: ParserError<I>> FoldUnary<I, i64, E> for Sign {
    ghost folds = { λ form f i v a j. FoldGives (sign_value f v) i a j };

    ghost leaves_ends = { λ form f i v a j r. gives_ends I.reading (sign_value f v) i j a r };

    fn apply(&self, input: &mut I, operand: i64) -> Result<i64, E> {
        match signed(*self, operand) {
            Some(value) => Ok(value),
            None => Err(E::from_input(input)),
        }
    }
}

impl<I: Stream, E: ParserError<I>> FoldUnary<I, i64, E> for Mark {
    ghost folds = { λ form f i v a j. FoldGives (mark_value f v) i a j };

    ghost leaves_ends = { λ form f i v a j r. gives_ends I.reading (mark_value f v) i j a r };

    fn apply(&self, input: &mut I, operand: i64) -> Result<i64, E> {
        match self {
            Mark::Factorial => match factorial_of(operand) {
                Some(value) => Ok(value),
                None => Err(E::from_input(input)),
            },
        }
    }
}

impl<I: Stream, E: ParserError<I>> FoldBinary<I, i64, E> for Pair {
    ghost folds = { λ form f i v w a j. FoldGives (pair_value f v w) i a j };

    ghost leaves_ends = { λ form f i v w a j r. gives_ends I.reading (pair_value f v w) i j a r };

    fn apply(&self, input: &mut I, left: i64, right: i64) -> Result<i64, E> {
        match joined(*self, left, right) {
            Some(value) => Ok(value),
            None => Err(E::from_input(input)),
        }
    }
}
