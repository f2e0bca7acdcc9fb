//! Sizes: numbers with units, sums and products.
#![tactic(auto, using(winnow::specs::Rules::ends_follow))]

ghost use Rattle.std.specs.Prelude.{◌≡◌, MatchOption, pos, ℕ};
ghost use Rattle.winnow.specs.Form.{answer_by, plain};
ghost use Rattle.winnow.specs.Bytes.{bytes_input, bytes_reading};
ghost use Rattle.winnow.specs.Input.{IsEndOf};
ghost use Rattle.example_formulas.specs.Sizes.{HasOneTree, SizeStates, marks_of, sign_marks};
ghost use Rattle.example_formulas.specs.Sizes.{sign_value, size_states, unit_marks, unit_value};
ghost use Rattle.winnow.specs.Does.{Ran};
ghost use Rattle.winnow.specs.Parts.{did_grammar};
ghost use Rattle.winnow.specs.Items.{FoldGives};
ghost use Rattle.winnow.specs.Items.Premises.{gives_ends};
ghost use Rattle.winnow.specs.OneTree.{IsTheOneTree};
ghost use Rattle.winnow.specs.Premises.Decided.{KeepsState};

use std::alloc::Allocator;
use winnow::Parser;
use winnow::ascii::Uint;
use winnow::ascii::impls::DecUint;
use winnow::combinator::impls::{AltParser, Fail, Value};
use winnow::combinator::{FoldBinary, FoldUnary, Infix, NoFold, Postfix, Prefix, alt, expression};
use winnow::error::{EmptyError, HasKind, ParserError};
use winnow::laws::{
    Likeness, a_byte_consumes, a_choice_consumes, a_value_consumes,
    deterministic_parts_are_stateless, expression_is_unambiguous, tree_is_unique,
};
use winnow::stream::Stream;

/// A unit after a size.
#[derive(Clone, Copy, Debug, PartialEq, Eq)]
pub enum Scale {
    /// `k`, 1024 bytes.
    Kilo,
    /// `m`, 1024 times as many.
    Mega,
}

/// A sign between two sizes.
#[derive(Clone, Copy, Debug, PartialEq, Eq)]
pub enum Sign {
    /// `+`, their sum.
    Plus,
    /// `*`, their product.
    Times,
}

/// Equality.
struct Equal;

impl<O> Likeness<O> for Equal {
    ghost alike = { λ v w. v ≡ w };
}

/// Returns `size` in `unit` as a number of bytes, or `None` if that does not fit.
fn scaled(unit: Scale, size: u32) -> Option<u32>
    ensures { MatchOption result ((x : ℕ) → unit_value unit size x → ⊥)
        (λ x. unit_value unit size x) }
{
    match unit {
        Scale::Kilo => size.checked_mul(1024),
        Scale::Mega => size.checked_mul(1_048_576),
    }
}

/// Applies `sign` to two sizes. Returns `None` if the result does not fit.
fn joined(sign: Sign, left: u32, right: u32) -> Option<u32>
    ensures { MatchOption result ((x : ℕ) → sign_value sign left right x → ⊥)
        (λ x. sign_value sign left right x) }
{
    match sign {
        Sign::Plus => left.checked_add(right),
        Sign::Times => left.checked_mul(right),
    }
}

impl<I: Stream, E: ParserError<I>> FoldUnary<I, u32, E> for Scale {
    ghost folds = { λ form f i v a j. FoldGives (unit_value f v) i a j };

    ghost leaves_ends = { λ form f i v a j r. gives_ends I.reading (unit_value f v) i j a r };

    fn apply(&self, input: &mut I, operand: u32) -> Result<u32, E> {
        match scaled(*self, operand) {
            Some(value) => Ok(value),
            None => Err(E::from_input(input)),
        }
    }
}

impl<I: Stream, E: ParserError<I>> FoldBinary<I, u32, E> for Sign {
    ghost folds = { λ form f i v w a j. FoldGives (sign_value f v w) i a j };

    ghost leaves_ends = { λ form f i v w a j r. gives_ends I.reading (sign_value f v w) i j a r };

    fn apply(&self, input: &mut I, left: u32, right: u32) -> Result<u32, E> {
        match joined(*self, left, right) {
            Some(value) => Ok(value),
            None => Err(E::from_input(input)),
        }
    }
}

/// The stream of bytes, as clauses name it.
type Bytes = &'static [u8];

/// A byte that stands for an operator.
type Mark<I, O> = Value<u8, I, u8, O, EmptyError>;

/// A choice of two such bytes.
type Marks<I, O> = AltParser<(Mark<I, O>, Mark<I, O>), I, O, EmptyError>;

/// States that a clone of a unit, as its parser returns it, is equal to it.
fn unit_clones_are_equal()
    ensures { (u : Postfix Scale) (o : Postfix Scale)
        → ⟦<Postfix<Scale> as Clone>⟧.is_clone u o → u ≡ o }
{}

/// States that a clone of a sign, as its parser returns it, is equal to it.
fn sign_clones_are_equal()
    ensures { (u : Infix Sign) (o : Infix Sign) → ⟦<Infix<Sign> as Clone>⟧.is_clone u o → u ≡ o }
{}

/// States that a call of the parser of a number keeps its state and the input's status.
fn a_number_stays<O: Uint>()
    ensures { KeepsState (Ran bytes_reading ⟦<DecUint as Parser<Bytes, O, EmptyError>>⟧.does plain)
        tt }
{}

/// States that a call of two marks keeps its state and the input's status, unless it is out of
/// memory.
fn marks_stay<O: Clone>()
    ensures { (x : ℕ) (y : ℕ) (u : O) (v : O)
        → KeepsState
        (Ran bytes_reading ⟦<Marks<Bytes, O> as Parser<Bytes, O, EmptyError>>⟧.does plain)
        ((x, u), (y, v)) }
{}

/// The parser of units.
fn units<'i>() -> Marks<&'i [u8], Postfix<Scale>>
    ensures { marks_of result ≡ unit_marks }
{
    alt((
        b'k'.value(Postfix(5, Scale::Kilo)),
        b'm'.value(Postfix(5, Scale::Mega)),
    ))
}

/// The parser of signs.
fn signs<'i>() -> Marks<&'i [u8], Infix<Sign>>
    ensures { marks_of result ≡ sign_marks }
{
    alt((
        b'+'.value(Infix::Left(1, Sign::Plus)),
        b'*'.value(Infix::Left(3, Sign::Times)),
    ))
}

/// Parses a size: a number, postfix `k` and `m` of power 5, and between two sizes `*` of power 3
/// and `+` of power 1, both left-associative.
///
/// Returns the value of the only tree of the parts that respects precedence, and leaves the rest.
/// It fails if there is no such tree, if a number does not fit in 32 bits, or with out of memory.
///
/// ```
/// use example_formulas::sizes::read_size;
///
/// let mut input = b"2k+3*4;".as_slice();
/// assert_eq!(rt; read_size(alloc, &mut input), Ok(2060));
/// assert_eq!(rt; input, b";".as_slice());
/// ```
pub fn read_size<'i, A: Allocator + Copy>(alloc: A, input: &mut &'i [u8]) -> Result<u32, EmptyError>
    ensures reads { (t : SizeStates) × IsTheOneTree (did_grammar bytes_reading plain
        ⟦<DecUint as Parser<Bytes, u32, EmptyError>>⟧.does
        ⟦<Fail as Parser<Bytes, Prefix<NoFold>, EmptyError>>⟧.does
        ⟦<Marks<Bytes, Postfix<Scale>> as Parser<Bytes, Postfix<Scale>, EmptyError>>⟧.does
        ⟦<Marks<Bytes, Infix<Sign>> as Parser<Bytes, Infix<Sign>, EmptyError>>⟧.does
        ⟦<NoFold as FoldUnary<Bytes, u32, EmptyError>>⟧.folds
        ⟦<Scale as FoldUnary<Bytes, u32, EmptyError>>⟧.folds
        ⟦<Sign as FoldBinary<Bytes, u32, EmptyError>>⟧.folds) (λ v w. v ≡ w) size_states
        (pos 0) (bytes_input input.old.now) (answer_by ⟦<EmptyError as HasKind>⟧.kind result) t
        (bytes_input input.new.now) }
    ensures ends { IsEndOf bytes_reading (bytes_input input.new.now) (bytes_input input.old.now) }
{
    unit_clones_are_equal();
    sign_clones_are_equal();
    a_number_stays::<u32>();
    marks_stay::<Postfix<Scale>>();
    marks_stay::<Infix<Sign>>();
    deterministic_parts_are_stateless::<DecUint, &'i [u8], u32, EmptyError>();
    deterministic_parts_are_stateless::<
        Marks<&'i [u8], Postfix<Scale>>,
        &'i [u8],
        Postfix<Scale>,
        EmptyError,
    >();
    deterministic_parts_are_stateless::<
        Marks<&'i [u8], Infix<Sign>>,
        &'i [u8],
        Infix<Sign>,
        EmptyError,
    >();
    a_byte_consumes::<EmptyError>();
    a_value_consumes::<&'i [u8], u8, Infix<Sign>, u8, EmptyError>();
    a_choice_consumes::<
        &'i [u8],
        Infix<Sign>,
        Mark<&'i [u8], Infix<Sign>>,
        Mark<&'i [u8], Infix<Sign>>,
        EmptyError,
    >();
    expression_is_unambiguous::<
        &'i [u8],
        u32,
        DecUint,
        Fail,
        Marks<&'i [u8], Postfix<Scale>>,
        Marks<&'i [u8], Infix<Sign>>,
        NoFold,
        Scale,
        Sign,
        EmptyError,
        Equal,
    >();
    let mut parser = expression(alloc, DecUint).postfix(units()).infix(signs());
    parser.parse_next(input)
}

/// States that sizes are unambiguous: at most one tree of the numbers, units and signs at the
/// start of the input respects precedence at a given least power, and it ends at one position.
/// This holds also if the value does not fit in 32 bits.
pub fn a_size_has_one_tree()
    ensures one { HasOneTree (did_grammar bytes_reading plain
        ⟦<DecUint as Parser<Bytes, u32, EmptyError>>⟧.does
        ⟦<Fail as Parser<Bytes, Prefix<NoFold>, EmptyError>>⟧.does
        ⟦<Marks<Bytes, Postfix<Scale>> as Parser<Bytes, Postfix<Scale>, EmptyError>>⟧.does
        ⟦<Marks<Bytes, Infix<Sign>> as Parser<Bytes, Infix<Sign>, EmptyError>>⟧.does
        ⟦<NoFold as FoldUnary<Bytes, u32, EmptyError>>⟧.folds
        ⟦<Scale as FoldUnary<Bytes, u32, EmptyError>>⟧.folds
        ⟦<Sign as FoldBinary<Bytes, u32, EmptyError>>⟧.folds) size_states }
{
    unit_clones_are_equal();
    sign_clones_are_equal();
    a_number_stays::<u32>();
    marks_stay::<Postfix<Scale>>();
    marks_stay::<Infix<Sign>>();
    deterministic_parts_are_stateless::<DecUint, Bytes, u32, EmptyError>();
    deterministic_parts_are_stateless::<
        Marks<Bytes, Postfix<Scale>>,
        Bytes,
        Postfix<Scale>,
        EmptyError,
    >();
    deterministic_parts_are_stateless::<
        Marks<Bytes, Infix<Sign>>,
        Bytes,
        Infix<Sign>,
        EmptyError,
    >();
    tree_is_unique::<
        Bytes,
        u32,
        DecUint,
        Fail,
        Marks<Bytes, Postfix<Scale>>,
        Marks<Bytes, Infix<Sign>>,
        NoFold,
        Scale,
        Sign,
        EmptyError,
        Equal,
        Equal,
        Equal,
        Equal,
    >();
}
