//! The parsers of numbers and operators.
ghost use Rattle.parser_definitions.specs.Terms.{meets_no_terms, no_terms};
ghost use Rattle.std.specs.Prelude.{⊤};
ghost use Rattle.winnow_expression_trees.specs.Items.{ItemDoes};
ghost use Rattle.format_calculator.specs.Calculator.{CharItem, NumberItem, mark_at, pair_at};
ghost use Rattle.format_calculator.specs.Calculator.{sign_at};

use crate::calc::items::{read_mark, read_number, read_pair, read_sign};
use crate::calc::operators::{Mark, Pair, Sign};
use stream_errors::empty::EmptyError;
use stream_errors::parser_error::ParserError;
use winnow_core::parser::Parser;
use winnow_expression::combinator::{Infix, Postfix, Prefix};

/// The parser of a number.
#[derive(Drop)]
pub(super) struct Number;

impl<'i> Parser<&'i str, i64, EmptyError> for Number {
    ghost State = { ⊤ };

    ghost state = { λ _. tt };

    ghost does = { ItemDoes NumberItem };

    ghost terms = { no_terms };

    ghost lawful = { meets_no_terms };

    fn parse_next(&mut self, input: &mut &'i str) -> Result<i64, EmptyError> {
        match read_number(input) {
            Some(item) => Ok(item),
            None => Err(EmptyError::from_input(input)),
        }
    }
}

/// The parser of an operator before an operand.
#[derive(Drop)]
pub(super) struct BeforeIt;

impl<'i> Parser<&'i str, Prefix<Sign>, EmptyError> for BeforeIt {
    ghost State = { ⊤ };

    ghost state = { λ _. tt };

    ghost does = { ItemDoes (CharItem sign_at) };

    ghost terms = { no_terms };

    ghost lawful = { meets_no_terms };

    fn parse_next(&mut self, input: &mut &'i str) -> Result<Prefix<Sign>, EmptyError> {
        match read_sign(input) {
            Some(item) => Ok(item),
            None => Err(EmptyError::from_input(input)),
        }
    }
}

/// The parser of an operator after an operand.
#[derive(Drop)]
pub(super) struct BehindIt;

impl<'i> Parser<&'i str, Postfix<Mark>, EmptyError> for BehindIt {
    ghost State = { ⊤ };

    ghost state = { λ _. tt };

    ghost does = { ItemDoes (CharItem mark_at) };

    ghost terms = { no_terms };

    ghost lawful = { meets_no_terms };

    fn parse_next(&mut self, input: &mut &'i str) -> Result<Postfix<Mark>, EmptyError> {
        match read_mark(input) {
            Some(item) => Ok(item),
            None => Err(EmptyError::from_input(input)),
        }
    }
}

/// The parser of an operator between two operands.
#[derive(Drop)]
pub(super) struct BetweenThem;

impl<'i> Parser<&'i str, Infix<Pair>, EmptyError> for BetweenThem {
    ghost State = { ⊤ };

    ghost state = { λ _. tt };

    ghost does = { ItemDoes (CharItem pair_at) };

    ghost terms = { no_terms };

    ghost lawful = { meets_no_terms };

    fn parse_next(&mut self, input: &mut &'i str) -> Result<Infix<Pair>, EmptyError> {
        match read_pair(input) {
            Some(item) => Ok(item),
            None => Err(EmptyError::from_input(input)),
        }
    }
}
