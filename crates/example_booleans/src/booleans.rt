//! Boolean formulas, as `!t&(f|t')=f` without the brackets: an expression language with its exact
//! contract.
#![tactic(auto, using(streams::specs::Ends::ends_follow))]

ghost use Rattle.parser_definitions.specs.Terms.{meets_no_terms, no_terms};
ghost use Rattle.std.specs.Prelude.{⊤, ◌≡◌, ◌⊎◌, IfErr, pos};
ghost use Rattle.streams.specs.Bytes.{bytes_input, bytes_reading};
ghost use Rattle.streams.specs.Input.{IsEndOf};
ghost use Rattle.streams.specs.Kind.{backtrack, memory};
ghost use Rattle.stream_errors.specs.Form.{answer_by};
ghost use Rattle.winnow_expression_trees.specs.Items.{FoldGives, ItemDoes, ReadsItems};
ghost use Rattle.winnow_expression_trees.specs.Items.Premises.{gives_ends};
ghost use Rattle.example_booleans.specs.Booleans.{ByteItem, LacksOperand, infix_at, logic_value};
ghost use Rattle.example_booleans.specs.Booleans.{not_value, operand_at, postfix_at, prefix_at};

use std::alloc::Allocator;
use stream_errors::empty::EmptyError;
use stream_errors::has_kind::HasKind;
use stream_errors::parser_error::ParserError;
use streams::stream::Stream;
use winnow_core::parser::Parser;
use winnow_expression::combinator::{FoldBinary, FoldUnary, Infix, Postfix, Prefix, expression};
use winnow_expression_trees::laws::{Likeness, expression_is_unambiguous};
use winnow_token::token::impls::Any;

/// Equality of truth values.
struct Equal;

impl Likeness<bool> for Equal {
    ghost alike = { λ v w. v ≡ w };
}

/// The operator `!` before an operand, and `'` after one.
#[derive(Clone, Copy, Drop)]
enum Not {
    Not,
}

/// The operators between two operands.
#[derive(Clone, Copy, Drop)]
enum Logic {
    And,
    Or,
    Same,
}

impl<I: Stream, E: ParserError<I>> FoldUnary<I, bool, E> for Not {
    ghost folds = { λ form f i v a j. FoldGives (not_value f v) i a j };

    ghost leaves_ends = { λ form f i v a j r. gives_ends I.reading (not_value f v) i j a r };

    fn apply(&self, input: &mut I, operand: bool) -> Result<bool, E> {
        Ok(!operand)
    }
}

impl<I: Stream, E: ParserError<I>> FoldBinary<I, bool, E> for Logic {
    ghost folds = { λ form f i v w a j. FoldGives (logic_value f v w) i a j };

    ghost leaves_ends = { λ form f i v w a j r. gives_ends I.reading (logic_value f v w) i j a r };

    fn apply(&self, input: &mut I, left: bool, right: bool) -> Result<bool, E> {
        match self {
            Logic::And => Ok(left && right),
            Logic::Or => Ok(left || right),
            Logic::Same => Ok(left == right),
        }
    }
}

/// The operand that a byte is.
fn operand_of(byte: u8) -> Option<bool>
    ensures { result ≡ operand_at byte }
{
    match byte {
        b't' => Some(true),
        b'f' => Some(false),
        _ => None,
    }
}

/// The prefix that a byte is.
fn prefix_of(byte: u8) -> Option<Prefix<Not>>
    ensures { result ≡ prefix_at byte }
{
    if byte == b'!' {
        Some(Prefix(7, Not::Not))
    } else {
        None
    }
}

/// The postfix that a byte is.
fn postfix_of(byte: u8) -> Option<Postfix<Not>>
    ensures { result ≡ postfix_at byte }
{
    if byte == b'\'' {
        Some(Postfix(9, Not::Not))
    } else {
        None
    }
}

/// The infix that a byte is.
fn infix_of(byte: u8) -> Option<Infix<Logic>>
    ensures { result ≡ infix_at byte }
{
    match byte {
        b'&' => Some(Infix::Left(5, Logic::And)),
        b'|' => Some(Infix::Left(3, Logic::Or)),
        b'=' => Some(Infix::Neither(1, Logic::Same)),
        _ => None,
    }
}

/// The parsers of one byte that is an operand or an operator.
#[derive(Drop)]
struct Part;

impl<'i> Parser<&'i [u8], bool, EmptyError> for Part {
    ghost State = { ⊤ };

    ghost state = { λ _. tt };

    ghost does = { ItemDoes (ByteItem operand_at) };

    ghost terms = { no_terms };

    ghost lawful = { meets_no_terms };

    fn parse_next(&mut self, input: &mut &'i [u8]) -> Result<bool, EmptyError> {
        let start = *input;
        match Any.parse_next(input) {
            Ok(byte) => match operand_of(byte) {
                Some(item) => Ok(item),
                None => {
                    *input = start;
                    Err(EmptyError::from_input(&start))
                }
            },
            Err(error) => Err(error),
        }
    }
}

impl<'i> Parser<&'i [u8], Prefix<Not>, EmptyError> for Part {
    ghost State = { ⊤ };

    ghost state = { λ _. tt };

    ghost does = { ItemDoes (ByteItem prefix_at) };

    ghost terms = { no_terms };

    ghost lawful = { meets_no_terms };

    fn parse_next(&mut self, input: &mut &'i [u8]) -> Result<Prefix<Not>, EmptyError> {
        let start = *input;
        match Any.parse_next(input) {
            Ok(byte) => match prefix_of(byte) {
                Some(item) => Ok(item),
                None => {
                    *input = start;
                    Err(EmptyError::from_input(&start))
                }
            },
            Err(error) => Err(error),
        }
    }
}

impl<'i> Parser<&'i [u8], Postfix<Not>, EmptyError> for Part {
    ghost State = { ⊤ };

    ghost state = { λ _. tt };

    ghost does = { ItemDoes (ByteItem postfix_at) };

    ghost terms = { no_terms };

    ghost lawful = { meets_no_terms };

    fn parse_next(&mut self, input: &mut &'i [u8]) -> Result<Postfix<Not>, EmptyError> {
        let start = *input;
        match Any.parse_next(input) {
            Ok(byte) => match postfix_of(byte) {
                Some(item) => Ok(item),
                None => {
                    *input = start;
                    Err(EmptyError::from_input(&start))
                }
            },
            Err(error) => Err(error),
        }
    }
}

impl<'i> Parser<&'i [u8], Infix<Logic>, EmptyError> for Part {
    ghost State = { ⊤ };

    ghost state = { λ _. tt };

    ghost does = { ItemDoes (ByteItem infix_at) };

    ghost terms = { no_terms };

    ghost lawful = { meets_no_terms };

    fn parse_next(&mut self, input: &mut &'i [u8]) -> Result<Infix<Logic>, EmptyError> {
        let start = *input;
        match Any.parse_next(input) {
            Ok(byte) => match infix_of(byte) {
                Some(item) => Ok(item),
                None => {
                    *input = start;
                    Err(EmptyError::from_input(&start))
                }
            },
            Err(error) => Err(error),
        }
    }
}

/// Parses a formula and returns its truth value. Operands are `t` and `f`. Operators are prefix `!`
/// of power 7, postfix `'` of power 9, `&` of power 5 and `|` of power 3, both left-associative,
/// and `=` of power 1, which is not associative.
///
/// Returns the value of the only tree of the bytes that respects precedence, and leaves the rest.
/// It fails if there is no such tree, or with out of memory. In the first case it leaves the input
/// at an offset where an operand is expected, and neither an operand nor a prefix operator begins.
///
/// ```
/// use example_booleans::booleans::truth;
///
/// let mut input = b"!t|t&f'=t;".as_slice();
/// assert_eq!(rt; truth(alloc, &mut input), Ok(true));
/// assert_eq!(rt; input, b";".as_slice());
/// ```
pub fn truth<'i, A: Allocator + Copy>(alloc: A, input: &mut &'i [u8]) -> Result<bool, EmptyError>
    ensures reads { ReadsItems (ByteItem operand_at) (ByteItem prefix_at) (ByteItem postfix_at)
        (ByteItem infix_at) not_value not_value logic_value (pos 0) (bytes_input input.old.now)
        (answer_by ⟦<EmptyError as HasKind>⟧.kind result) (bytes_input input.new.now) }
    ensures ends { IsEndOf bytes_reading (bytes_input input.new.now) (bytes_input input.old.now) }
    ensures fails { IfErr result (λ error. (⟦<EmptyError as HasKind>⟧.kind error ≡ memory)
        ⊎ ((⟦<EmptyError as HasKind>⟧.kind error ≡ backtrack)
        × LacksOperand input.old.now input.new.now)) }
{
    expression_is_unambiguous::<
        &'i [u8],
        bool,
        Part,
        Part,
        Part,
        Part,
        Not,
        Not,
        Logic,
        EmptyError,
        Equal,
    >();
    let mut parser = expression(alloc, Part)
        .prefix(Part)
        .postfix(Part)
        .infix(Part);
    parser.parse_next(input)
}
