//! Operators, as their parsers answer them.
ghost use Rattle.parser_definitions.specs.Operators.{ClonesOfOne, OperatorDoes, operator_law};
ghost use Rattle.std.specs.Prelude.{◌≡◌, ◌+ℤ◌, ⊤, pos, MatchOption};
ghost use Rattle.winnow_expression.specs.Calls.{asked};
ghost use Rattle.winnow_expression.specs.Operators.{IsInfixClone, IsPostfixClone, IsPrefixClone};
ghost use Rattle.winnow_expression.specs.Operators.{fold_of, left_power};
ghost use Rattle.winnow_expression.specs.Operators.{neither_power, right_power};
ghost use Rattle.parser_definitions.specs.Terms.{no_claim, nothing_claimed};

use stream_errors::parser_error::ParserError;
use streams::stream::Stream;
use winnow_core::parser::Parser;

/// A prefix operator: its power and its fold.
///
/// The operand includes all operators that are at least as strong as the power.
///
/// ```
/// let mut minus = '-'.value(Prefix(12, "negated"));
/// let answer: Result<Prefix<&str>, EmptyError> = minus.parse_next(&mut "-3");
/// assert!(rt; matches!(answer, Ok(Prefix(12, "negated"))));
/// ```
#[derive(Clone, Drop)]
pub struct Prefix<F>(pub i64, pub F);

/// A postfix operator: its power and its fold.
///
/// ```
/// let mut mark = '!'.value(Postfix(13, "factorial"));
/// let answer: Result<Postfix<&str>, EmptyError> = mark.parse_next(&mut "!");
/// assert!(rt; matches!(answer, Ok(Postfix(13, "factorial"))));
/// ```
#[derive(Clone, Drop)]
pub struct Postfix<F>(pub i64, pub F);

/// An infix operator: its power and its fold.
///
/// Consecutive operators of one power are joined from the left if they are `Left`, and from the
/// right if they are `Right`. After a `Neither`, another infix of its power ends the expression.
///
/// ```
/// let mut operator = alt(('+'.value(Infix::Left(5, "sum")), '^'.value(Infix::Right(9, "power"))));
/// let answer: Result<Infix<&str>, EmptyError> = operator.parse_next(&mut "^2");
/// assert!(rt; matches!(answer, Ok(Infix::Right(9, "power"))));
/// ```
#[derive(Clone, Drop)]
pub enum Infix<F> {
    /// Joined from the left.
    Left(i64, F),
    /// Joined from the right.
    Right(i64, F),
    /// Not joined with another of its power.
    Neither(i64, F),
}

/// How strong an infix operator binds to its sides, and its fold.
#[derive(Drop)]
pub struct Binding<F> {
    pub left: i64,
    /// The least power in the right operand, if any is.
    pub right: Option<i64>,
    pub neither: Option<i64>,
    pub fold: F,
}

/// The least power above this one, if there is one.
#[inline(always)]
fn above(power: i64) -> Option<i64>
    ensures { asked result ≡ power +ℤ pos 1 }
{
    if power < i64::MAX {
        Some(power + 1)
    } else {
        None
    }
}

impl<F> Infix<F> {
    /// The powers and the fold.
    ///
    /// ```
    /// let binding = Infix::Left(5, "sum").binding();
    /// assert_eq!(rt; (binding.left, binding.right), (5, Some(6)));
    /// assert_eq!(rt; Infix::Left(i64::MAX, "sum").binding().right, None);
    /// ```
    #[inline(always)]
    pub fn binding(self) -> Binding<F>
        ensures left { result.left ≡ left_power self }
        ensures right { asked result.right ≡ right_power self }
        ensures neither { result.neither ≡ neither_power self }
        ensures fold { result.fold ≡ fold_of self }
    {
        match self {
            Infix::Left(power, fold) => Binding {
                left: power,
                right: above(power),
                neither: None,
                fold,
            },
            Infix::Right(power, fold) => Binding {
                left: power,
                right: Some(power),
                neither: None,
                fold,
            },
            Infix::Neither(power, fold) => Binding {
                left: power,
                right: above(power),
                neither: Some(power),
                fold,
            },
        }
    }
}

impl<I: Stream, F: Clone, E: ParserError<I>> Parser<I, Prefix<F>, E> for Prefix<F> {
    ghost State = { Self };

    ghost state = { λ s. s };

    ghost does = { OperatorDoes (IsPrefixClone F.is_clone) (λ s. F.is_infallible s.1) };

    ghost terms = { record {
      premise = ⊤;
      stable = ⊤;
      alike = ClonesOfOne (IsPrefixClone F.is_clone);
      claim = λ _. no_claim;
    } };

    ghost lawful = { record {
      law = λ is. operator_law (IsPrefixClone F.is_clone) (λ s. F.is_infallible s.1);
      claimed = λ _. nothing_claimed;
    } };

    #[inline(always)]
    fn parse_next(&mut self, input: &mut I) -> Result<Prefix<F>, E> {
        match self.1.clone() {
            Ok(fold) => Ok(Prefix(self.0, fold)),
            Err(_) => Err(E::no_memory(input)),
        }
    }
}

impl<I: Stream, F: Clone, E: ParserError<I>> Parser<I, Postfix<F>, E> for Postfix<F> {
    ghost State = { Self };

    ghost state = { λ s. s };

    ghost does = { OperatorDoes (IsPostfixClone F.is_clone) (λ s. F.is_infallible s.1) };

    ghost terms = { record {
      premise = ⊤;
      stable = ⊤;
      alike = ClonesOfOne (IsPostfixClone F.is_clone);
      claim = λ _. no_claim;
    } };

    ghost lawful = { record {
      law = λ is. operator_law (IsPostfixClone F.is_clone) (λ s. F.is_infallible s.1);
      claimed = λ _. nothing_claimed;
    } };

    #[inline(always)]
    fn parse_next(&mut self, input: &mut I) -> Result<Postfix<F>, E> {
        match self.1.clone() {
            Ok(fold) => Ok(Postfix(self.0, fold)),
            Err(_) => Err(E::no_memory(input)),
        }
    }
}

impl<I: Stream, F: Clone, E: ParserError<I>> Parser<I, Infix<F>, E> for Infix<F> {
    ghost State = { Self };

    ghost state = { λ s. s };

    ghost does = { OperatorDoes (IsInfixClone F.is_clone) (λ s. F.is_infallible (fold_of s)) };

    ghost terms = { record {
      premise = ⊤;
      stable = ⊤;
      alike = ClonesOfOne (IsInfixClone F.is_clone);
      claim = λ _. no_claim;
    } };

    ghost lawful = { record {
      law = λ is. operator_law (IsInfixClone F.is_clone)
          (λ s. F.is_infallible (fold_of s));
      claimed = λ _. nothing_claimed;
    } };

    #[inline(always)]
    fn parse_next(&mut self, input: &mut I) -> Result<Infix<F>, E> {
        match infix_clone(self) {
            Some(operator) => Ok(operator),
            None => Err(E::no_memory(input)),
        }
    }
}

/// Clones an operator. Returns `None` if cloning its fold fails to allocate.
fn infix_clone<F: Clone>(operator: &Infix<F>) -> Option<Infix<F>>
    ensures { MatchOption result (¬ (F.is_infallible (fold_of operator.now)))
        (λ o. IsInfixClone F.is_clone operator.now o) }
{
    match operator {
        Infix::Left(power, fold) => match fold.clone() {
            Ok(fold) => Some(Infix::Left(*power, fold)),
            Err(_) => None,
        },
        Infix::Right(power, fold) => match fold.clone() {
            Ok(fold) => Some(Infix::Right(*power, fold)),
            Err(_) => None,
        },
        Infix::Neither(power, fold) => match fold.clone() {
            Ok(fold) => Some(Infix::Neither(*power, fold)),
            Err(_) => None,
        },
    }
}
