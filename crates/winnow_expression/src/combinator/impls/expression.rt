//! Operator expressions.
ghost use Rattle.std.specs.Prelude.{◌≡◌, ℤ, pos};
ghost use Rattle.parser_definitions.specs.Expression.Laws.{OperatorsWhole, expression_law};
ghost use Rattle.parser_definitions.specs.Expression.One.{OperatorsOne};
ghost use Rattle.winnow_expression.specs.Definition.{operators};
ghost use Rattle.winnow_expression.specs.Ending.{ending_law};
ghost use Rattle.winnow_expression.specs.Expression.{infix_of, level_of, operand_of};
ghost use Rattle.winnow_expression.specs.Expression.{postfix_of, prefix_of};
ghost use Rattle.winnow_expression.specs.Parts.{PartsDo};
ghost use Rattle.parser_definitions.specs.Terms.{no_claim, nothing_claimed};

use crate::combinator::folds::{FoldBinary, FoldUnary};
use crate::combinator::machine::expression_from;
use crate::combinator::operators::{Infix, Postfix, Prefix};
use crate::combinator::places::{OperandPlace, OperatorPlace};
use std::alloc::Allocator;
use std::marker::PhantomData;
use stream_errors::parser_error::ParserError;
use streams::stream::Stream;
use winnow_core::parser::Parser;

/// The parser that [`expression`](crate::combinator::expression) makes.
///
/// ```
/// let mut number = expression(alloc, Digit1.parse_to::<u32>()).current_precedence_level(5);
/// assert_eq!(rt; number.parse_peek("12;"), Ok::<_, EmptyError>((";", 12)));
/// ```
#[derive(Drop)]
pub struct Expression<I, O, P, Pre, Post, Pix, F, G, H, E, A> {
    pub(crate) alloc: A,
    pub(crate) level: i64,
    pub(crate) first: OperandPlace<P, Pre>,
    pub(crate) next: OperatorPlace<Post, Pix>,
    pub(crate) marker: PhantomData<(I, O, F, G, H, E)>,
}

impl<I, O, P, Pre, Post, Pix, F, G, H, E, A> Expression<I, O, P, Pre, Post, Pix, F, G, H, E, A> {
    #[inline(always)]
    pub(crate) fn new(
        alloc: A,
        operand: P,
        prefix: Pre,
        postfix: Post,
        infix: Pix,
    ) -> Expression<I, O, P, Pre, Post, Pix, F, G, H, E, A>
        ensures operand { operand_of result ≡ operand }
        ensures prefix { prefix_of result ≡ prefix }
        ensures postfix { postfix_of result ≡ postfix }
        ensures infixes { infix_of result ≡ «infix» }
        ensures level { level_of result ≡ pos 0 }
    {
        Expression {
            alloc,
            level: 0,
            first: OperandPlace { operand, prefix },
            next: OperatorPlace { postfix, infix },
            marker: PhantomData,
        }
    }
}

impl<
    I: Stream,
    O: Drop,
    P: Drop,
    Pre: Drop,
    Post: Drop,
    Pix: Drop,
    F,
    G,
    H,
    E: ParserError<I>,
    A: Allocator + Copy,
> Expression<I, O, P, Pre, Post, Pix, F, G, H, E, A> {
    /// Sets the parser of prefix operators. It is run where the parser of operands backtracks, and
    /// must consume.
    #[inline(always)]
    pub fn prefix<Other: Parser<I, Prefix<K>, E>, K: FoldUnary<I, O, E>>(
        self,
        parser: Other,
    ) -> Expression<I, O, P, Other, Post, Pix, K, G, H, E, A>
        ensures operand { operand_of result ≡ operand_of self }
        ensures prefix { prefix_of result ≡ parser }
        ensures postfix { postfix_of result ≡ postfix_of self }
        ensures infixes { infix_of result ≡ infix_of self }
        ensures level { level_of result ≡ level_of self }
    {
        let Expression {
            alloc,
            level,
            first,
            next,
            marker: _,
        } = self;
        let OperandPlace { operand, prefix: _ } = first;
        let first = OperandPlace {
            operand,
            prefix: parser,
        };
        Expression {
            alloc,
            level,
            first,
            next,
            marker: PhantomData,
        }
    }

    /// Sets the parser of postfix operators. It is run after each operand.
    #[inline(always)]
    pub fn postfix<Other: Parser<I, Postfix<K>, E>, K: FoldUnary<I, O, E>>(
        self,
        parser: Other,
    ) -> Expression<I, O, P, Pre, Other, Pix, F, K, H, E, A>
        ensures operand { operand_of result ≡ operand_of self }
        ensures prefix { prefix_of result ≡ prefix_of self }
        ensures postfix { postfix_of result ≡ parser }
        ensures infixes { infix_of result ≡ infix_of self }
        ensures level { level_of result ≡ level_of self }
    {
        let Expression {
            alloc,
            level,
            first,
            next,
            marker: _,
        } = self;
        let OperatorPlace { postfix: _, infix } = next;
        let next = OperatorPlace {
            postfix: parser,
            infix,
        };
        Expression {
            alloc,
            level,
            first,
            next,
            marker: PhantomData,
        }
    }

    /// Sets the parser of infix operators. It is run after each operand where that of postfix
    /// operators backtracks.
    #[inline(always)]
    pub fn infix<Other: Parser<I, Infix<K>, E>, K: FoldBinary<I, O, E>>(
        self,
        parser: Other,
    ) -> Expression<I, O, P, Pre, Post, Other, F, G, K, E, A>
        ensures operand { operand_of result ≡ operand_of self }
        ensures prefix { prefix_of result ≡ prefix_of self }
        ensures postfix { postfix_of result ≡ postfix_of self }
        ensures infixes { infix_of result ≡ parser }
        ensures level { level_of result ≡ level_of self }
    {
        let Expression {
            alloc,
            level,
            first,
            next,
            marker: _,
        } = self;
        let OperatorPlace { postfix, infix: _ } = next;
        let next = OperatorPlace {
            postfix,
            infix: parser,
        };
        Expression {
            alloc,
            level,
            first,
            next,
            marker: PhantomData,
        }
    }

    /// Sets the least power of operators; it is 0 where none is set. A weaker operator ends the
    /// expression, and is left unread.
    #[inline(always)]
    pub fn current_precedence_level(self, level: i64) -> Self
        ensures operand { operand_of result ≡ operand_of self }
        ensures prefix { prefix_of result ≡ prefix_of self }
        ensures postfix { postfix_of result ≡ postfix_of self }
        ensures infixes { infix_of result ≡ infix_of self }
        ensures level { level_of result ≡ level }
    {
        Expression { level, ..self }
    }
}

impl<
    I: Stream,
    O: Drop,
    P: Parser<I, O, E>,
    Pre: Parser<I, Prefix<F>, E>,
    Post: Parser<I, Postfix<G>, E>,
    Pix: Parser<I, Infix<H>, E>,
    F: FoldUnary<I, O, E>,
    G: FoldUnary<I, O, E>,
    H: FoldBinary<I, O, E>,
    E: ParserError<I>,
    A: Allocator + Copy,
> Parser<I, O, E> for Expression<I, O, P, Pre, Post, Pix, F, G, H, E, A> {
    ghost can_parse = { λ s. (P.can_parse s.first.operand × Pre.can_parse s.first.prefix)
        × (Post.can_parse s.next.postfix × Pix.can_parse s.next.«infix») };

    ghost State = { (P.State × Pre.State) × (Post.State × Pix.State) × ℤ };

    ghost state = { λ s. (
      (P.state s.first.operand, Pre.state s.first.prefix),
      (Post.state s.next.postfix, Pix.state s.next.«infix»),
      s.level,
    ) };

    ghost does = { PartsDo I.reading P.does Pre.does Post.does Pix.does F.folds G.folds H.folds };

    // Equal operators have equal powers and folds with equal outcomes, and no fold is incomplete
    // on complete input. An expression is not stable, since an operator may follow.
    ghost terms = { record {
      premise = (P.terms.premise × Pre.terms.premise × Post.terms.premise × Pix.terms.premise)
          × OperatorsOne (operators I.reading.units F.folds G.folds H.folds) P.terms.alike
          Pre.terms.alike Post.terms.alike Pix.terms.alike
          × OperatorsWhole (operators I.reading.units F.folds G.folds H.folds);
      stable = ⊥;
      alike = P.terms.alike;
      claim = λ _. no_claim;
    } };

    ghost lawful = { record {
      law = λ is. expression_law (operators I.reading.units F.folds G.folds H.folds) is.1
          is.2 (ending_law I.reading (P.lawful.law is.0.0))
          (ending_law I.reading (Pre.lawful.law is.0.1))
          (ending_law I.reading (Post.lawful.law is.0.2))
          (ending_law I.reading (Pix.lawful.law is.0.3));
      claimed = λ _. nothing_claimed;
    } };

    #[inline(always)]
    fn parse_next(&mut self, input: &mut I) -> Result<O, E> {
        expression_from(
            self.alloc,
            self.level,
            &mut self.first,
            &mut self.next,
            input,
        )
    }
}
