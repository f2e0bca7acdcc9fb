//! The places of operands and of operators.
ghost use Rattle.parser_definitions.specs.Equal.{AlikeOptions};
ghost use Rattle.parser_definitions.specs.Escaped.{AlikeSides};
ghost use Rattle.parser_definitions.specs.Places.{FirstDoes, NextDoes, first_law, next_law};
ghost use Rattle.winnow_expression.specs.Covers.Parts.{as_law};
ghost use Rattle.winnow_expression.specs.Definition.{OutputAs, first_side, next_side};
ghost use Rattle.winnow_expression.specs.Ending.{Ending, ending_law};
ghost use Rattle.parser_definitions.specs.Terms.{no_claim, nothing_claimed};

use crate::combinator::operators::{Infix, Postfix, Prefix};
use stream_errors::parser_error::ParserError;
use streams::stream::Stream;
use winnow_core::parser::Parser;

/// The item that is read where an operand is expected.
#[derive(Drop)]
pub enum First<O, F> {
    Operand(O),
    Prefix(i64, F),
}

/// The item that is read where an operator is expected.
#[derive(Drop)]
pub enum Next<G, H> {
    Nothing,
    Postfix(i64, G),
    Infix(Infix<H>),
}

/// A parser of an operand, or of a prefix where that backtracks.
#[derive(Drop)]
pub struct OperandPlace<P, R> {
    pub operand: P,
    pub prefix: R,
}

/// A parser of a postfix, or of an infix where that backtracks, or of nothing.
#[derive(Drop)]
pub struct OperatorPlace<P, R> {
    pub postfix: P,
    pub infix: R,
}

impl<I: Stream, O, E: ParserError<I>, F, P: Parser<I, O, E>, R: Parser<I, Prefix<F>, E>> Parser<
    I,
    First<O, F>,
    E,
> for OperandPlace<P, R> {
    ghost can_parse = { λ s. P.can_parse s.operand × R.can_parse s.prefix };

    ghost State = { P.State × R.State };

    ghost state = { λ s. (P.state s.operand, R.state s.prefix) };

    ghost does = { OutputAs first_side
        (FirstDoes (Ending I.reading P.does) (Ending I.reading R.does)) };

    ghost terms = { record {
      premise = P.terms.premise × R.terms.premise;
      stable = P.terms.stable × R.terms.stable;
      alike = λ x y. AlikeSides P.terms.alike R.terms.alike (first_side x) (first_side y);
      claim = λ _. no_claim;
    } };

    ghost lawful = { record {
      law = λ is. as_law first_side (AlikeSides P.terms.alike R.terms.alike)
          (first_law (ending_law I.reading (P.lawful.law is.0))
          (ending_law I.reading (R.lawful.law is.1)));
      claimed = λ _. nothing_claimed;
    } };

    #[inline(always)]
    fn parse_next(&mut self, input: &mut I) -> Result<First<O, F>, E> {
        let start = input.checkpoint();
        match self.operand.parse_next(input) {
            Ok(value) => Ok(First::Operand(value)),
            Err(error) => {
                if !error.is_backtrack() {
                    return Err(error);
                }
                input.reset(&start);
                let Prefix(power, fold) = self.prefix.parse_next(input)?;
                Ok(First::Prefix(power, fold))
            }
        }
    }
}

impl<
    I: Stream,
    E: ParserError<I>,
    G,
    H,
    P: Parser<I, Postfix<G>, E>,
    R: Parser<I, Infix<H>, E>,
> Parser<I, Next<G, H>, E> for OperatorPlace<P, R> {
    ghost can_parse = { λ s. P.can_parse s.postfix × R.can_parse s.«infix» };

    ghost State = { P.State × R.State };

    ghost state = { λ s. (P.state s.postfix, R.state s.«infix») };

    ghost does = { OutputAs next_side
        (NextDoes I.reading.units (Ending I.reading P.does) (Ending I.reading R.does)) };

    ghost terms = { record {
      premise = P.terms.premise × R.terms.premise;
      stable = ⊥;
      alike = λ x y. AlikeOptions (AlikeSides P.terms.alike R.terms.alike) (next_side x)
          (next_side y);
      claim = λ _. no_claim;
    } };

    ghost lawful = { record {
      law = λ is. as_law next_side
          (AlikeOptions (AlikeSides P.terms.alike R.terms.alike))
          (next_law I.reading.units (ending_law I.reading (P.lawful.law is.0))
          (ending_law I.reading (R.lawful.law is.1)));
      claimed = λ _. nothing_claimed;
    } };

    #[inline(always)]
    fn parse_next(&mut self, input: &mut I) -> Result<Next<G, H>, E> {
        if input.eof_offset() == 0 {
            return Ok(Next::Nothing);
        }
        let start = input.checkpoint();
        match self.postfix.parse_next(input) {
            Ok(Postfix(power, fold)) => return Ok(Next::Postfix(power, fold)),
            Err(error) => {
                if !error.is_backtrack() {
                    return Err(error);
                }
            }
        }
        input.reset(&start);
        match self.infix.parse_next(input) {
            Ok(operator) => Ok(Next::Infix(operator)),
            Err(error) => {
                if !error.is_backtrack() {
                    return Err(error);
                }
                input.reset(&start);
                Ok(Next::Nothing)
            }
        }
    }
}
