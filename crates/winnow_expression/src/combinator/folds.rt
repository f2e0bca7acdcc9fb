//! The effects of operators on their operands.
ghost use Rattle.streams.specs.Input.{Input, IsEndOf};
ghost use Rattle.stream_errors.specs.Form.{Answer, ErrorForm, answer_by};
ghost use Rattle.winnow_core.specs.Ends.{same_ends};
ghost use Rattle.winnow_expression.specs.Folds.{RefusesBinary, RefusesUnary};

use stream_errors::parser_error::ParserError;
use streams::stream::Stream;

/// The fold of a prefix or a postfix operator, which is applied to its operand.
///
/// The operand has been read, and `input` is the rest after it. A fold may fail, as for a sum that
/// is too large: its error is that of the expression, and the input is left where the fold left it.
///
/// ```
/// ghost use Rattle.streams.specs.Input.{IsEndOf};
///
/// #[derive(Drop)]
/// struct Not;
///
/// impl<I: Stream, E: ParserError<I>> FoldUnary<I, bool, E> for Not {
///     ghost folds = { λ _ _ i _ _ j. IsEndOf I.reading j i };
///
///     ghost leaves_ends = { λ _ _ _ _ _ _ ends. ends };
///
///     fn apply(&self, _input: &mut I, operand: bool) -> Result<bool, E> {
///         Ok(!operand)
///     }
/// }
///
/// assert_eq!(rt; Not.apply(&mut "", true), Ok::<_, EmptyError>(false));
/// ```
pub trait FoldUnary<I: Stream, O, E: ParserError<I>>: Drop {
    // The result, and the input that it leaves, by the form of the errors.
    ghost folds: { ErrorForm → Self → Input I.Seen → O → Answer O → Input I.Seen → Type 0 };

    /// Applies the operator.
    fn apply(&self, input: &mut I, operand: O) -> Result<O, E>
        ensures folded { folds E.form self.now (I.view input.old) operand
            (answer_by E.kind result) (I.view input.new) }
        ensures ends { IsEndOf I.reading (I.view input.new) (I.view input.old) };

    // In every case it leaves a suffix of the input.
    ghost leaves_ends: { (form : ErrorForm) (f : Self) (i : Input I.Seen) (v : O) (a : Answer O)
        (j : Input I.Seen) → folds form f i v a j → IsEndOf I.reading j i };
}

/// The fold of an infix operator, which is applied to its operands.
///
/// The operands have been read, and `input` is the rest after the right one. A fold may fail, as
/// for a sum that is too large: its error is that of the expression, and the input is left where
/// the fold left it.
///
/// ```
/// ghost use Rattle.streams.specs.Input.{IsEndOf};
///
/// #[derive(Drop)]
/// struct And;
///
/// impl<I: Stream, E: ParserError<I>> FoldBinary<I, bool, E> for And {
///     ghost folds = { λ _ _ i _ _ _ j. IsEndOf I.reading j i };
///
///     ghost leaves_ends = { λ _ _ _ _ _ _ _ ends. ends };
///
///     fn apply(&self, _input: &mut I, left: bool, right: bool) -> Result<bool, E> {
///         Ok(left && right)
///     }
/// }
///
/// assert_eq!(rt; And.apply(&mut "", true, false), Ok::<_, EmptyError>(false));
/// ```
pub trait FoldBinary<I: Stream, O, E: ParserError<I>>: Drop {
    // The result, and the input that it leaves, by the form of the errors.
    ghost folds: { ErrorForm → Self → Input I.Seen → O → O → Answer O → Input I.Seen → Type 0 };

    /// Applies the operator.
    fn apply(&self, input: &mut I, left: O, right: O) -> Result<O, E>
        ensures folded { folds E.form self.now (I.view input.old) left right
            (answer_by E.kind result) (I.view input.new) }
        ensures ends { IsEndOf I.reading (I.view input.new) (I.view input.old) };

    // In every case it leaves a suffix of the input.
    ghost leaves_ends: { (form : ErrorForm) (f : Self) (i : Input I.Seen) (v w : O) (a : Answer O)
        (j : Input I.Seen) → folds form f i v w a j → IsEndOf I.reading j i };
}

/// The fold of an expression that has no such operators: it is never applied.
///
/// ```
/// // This one has `NoFold` three times.
/// let mut number = expression(alloc, Digit1.parse_to::<u32>());
/// assert_eq!(rt; number.parse_peek("12;"), Ok::<_, EmptyError>((";", 12)));
/// ```
#[derive(Clone, Copy, Debug, PartialEq, Eq)]
pub struct NoFold;

impl<I: Stream, O: Drop, E: ParserError<I>> FoldUnary<I, O, E> for NoFold {
    ghost folds = { λ form f i v a j. RefusesUnary form i v a j };

    ghost leaves_ends = { λ form f i v a j r. same_ends I.reading i j r.1 };

    fn apply(&self, input: &mut I, operand: O) -> Result<O, E> {
        Err(E::assert(input, "no operator was set"))
    }
}

impl<I: Stream, O: Drop, E: ParserError<I>> FoldBinary<I, O, E> for NoFold {
    ghost folds = { λ form f i v w a j. RefusesBinary form i v w a j };

    ghost leaves_ends = { λ form f i v w a j r. same_ends I.reading i j r.1 };

    fn apply(&self, input: &mut I, left: O, right: O) -> Result<O, E> {
        Err(E::assert(input, "no operator was set"))
    }
}
