//! Operator expressions.
ghost use Rattle.std.specs.Prelude.{◌≡◌, pos};
ghost use Rattle.winnow_expression.specs.Expression.{level_of, operand_of};

use crate::combinator::folds::NoFold;
use crate::combinator::impls::Expression;
use winnow_comb::combinator::impls::Fail;

/// Parses operands with prefix, postfix and infix operators between them, joined by the powers of
/// the operators.
///
/// It has no operators until [`prefix`], [`postfix`] and [`infix`] set parsers of them, and joins
/// all of power 0 and more until [`current_precedence_level`] sets another least power. An operator
/// is applied to its operands by its fold, a value with [`FoldUnary`] or [`FoldBinary`].
///
/// An operator that is weaker than the open operator requires is put back and ends that one's right
/// operand, whose fold is applied. One that is weaker than the level ends the expression, and is
/// left unread. A postfix that was put back is not tried as an infix. An infix of the power of a
/// `Neither` that was joined before it, with nothing but postfixes between them, ends all open
/// operators: the folds are applied from the innermost out, and the infix is left unread.
///
/// If the operand backtracks, a prefix is run, whose error is returned unchanged. So a context of
/// the operand is lost, as in winnow: give it to the prefix, `minus.context(alloc, "a number")`, or
/// without a prefix to the whole expression. Other errors of the parts, and those of folds, are
/// returned unchanged, with the input where the part or the fold left it. It is an assert error if
/// a prefix consumes nothing, if an infix comes and nothing was consumed since the current operand
/// began, including the infix, or if an operator with its operand consumed nothing. An open
/// operator is stored in a list of `alloc`. If that cannot grow, the error is out of memory, and
/// the input is left after the operator.
///
/// Known as Pratt's method, or precedence climbing.
///
/// ```
/// ghost use Rattle.streams.specs.Input.{IsEndOf};
///
/// #[derive(Clone, Copy, Drop)]
/// struct Minus;
///
/// impl<I: Stream, E: ParserError<I>> FoldBinary<I, u32, E> for Minus {
///     ghost folds = { λ _ _ i _ _ _ j. IsEndOf I.reading j i };
///
///     ghost leaves_ends = { λ _ _ _ _ _ _ _ ends. ends };
///
///     fn apply(&self, input: &mut I, left: u32, right: u32) -> Result<u32, E> {
///         match left.checked_sub(right) {
///             Some(value) => Ok(value),
///             None => Err(E::from_input(input)),
///         }
///     }
/// }
///
/// let number = Digit1.parse_to::<u32>();
/// let mut differences = expression(alloc, number).infix('-'.value(Infix::Left(5, Minus)));
/// assert_eq!(rt; differences.parse_peek("5-2-1;"), Ok::<_, EmptyError>((";", 2)));
/// ```
///
/// [`prefix`]: crate::combinator::impls::Expression::prefix
/// [`postfix`]: crate::combinator::impls::Expression::postfix
/// [`infix`]: crate::combinator::impls::Expression::infix
/// [`current_precedence_level`]: crate::combinator::impls::Expression::current_precedence_level
/// [`FoldUnary`]: crate::combinator::FoldUnary
/// [`FoldBinary`]: crate::combinator::FoldBinary
#[inline(always)]
pub fn expression<Input, Operand, Output, Error, A>(
    alloc: A,
    operand: Operand,
) -> Expression<Input, Output, Operand, Fail, Fail, Fail, NoFold, NoFold, NoFold, Error, A>
    ensures operand { operand_of result ≡ operand }
    ensures level { level_of result ≡ pos 0 }
{
    Expression::new(alloc, operand, Fail, Fail, Fail)
}
