//! Formulas in a larger grammar: an expression is a rule, and parsers are made of it.
ghost use Rattle.std.specs.Fn.{CalledAtMut};
ghost use Rattle.std.specs.Prelude.{⊤};
ghost use Rattle.grammars.specs.Grammar.Inversion.{Byte};
ghost use Rattle.streams.specs.Bytes.{bytes_input, bytes_reading};
ghost use Rattle.winnow_core.specs.Exact.{Reads};
ghost use Rattle.winnow_grammar.specs.Rule.{CallsRead};
ghost use Rattle.example_booleans.specs.Booleans.{IsEnded, IsFormula, empty_kind};
ghost use Rattle.example_booleans.specs.Booleans.Laws.{formula_takes, formula_unique};

use crate::booleans::truth;
use std::alloc::Allocator;
use stream_errors::empty::EmptyError;
use stream_errors::has_kind::HasKind;
use stream_errors::parser_error::ParserError;
use streams::stream::Stream;
use winnow_comb::combinator::terminated;
use winnow_core::parser::Parser;
use winnow_grammar::rule::Rule;

/// The name of what [`formula`] reads.
#[derive(Clone, Copy, Drop)]
struct AnyFormula;

impl<'i> Rule<&'i [u8], bool> for AnyFormula {
    ghost grammar = { λ _. IsFormula };

    ghost consumes = { λ _. ⊤ };

    fn name() {}

    ghost unique = { λ _. formula_unique };

    ghost takes = { λ _ _. formula_takes };
}

/// The truth value of the formula that the bytes begin with, as [`truth`](crate::booleans::truth)
/// reads it, by a grammar: so a parser of a larger grammar is made of it.
pub fn formula<'i, A: Allocator + Copy>(alloc: A, input: &mut &'i [u8]) -> Result<bool, EmptyError>
    ensures { Reads bytes_reading ⟦<EmptyError as HasKind>⟧.kind IsFormula
        (bytes_input input.old.now) result (bytes_input input.new.now) }
{
    truth(alloc, input)
}

/// Parses by a rule, and then one token, over any stream.
fn ended<I, E, R, F, B>(rule: R, run: F, end: B, input: &mut I) -> Result<bool, E>
where
    I: Stream,
    E: ParserError<I>,
    R: Rule<I, bool> + Drop,
    F: FnMut(&mut I) -> Result<bool, E> + Drop,
    B: Parser<I, u8, E> + Drop,
    requires callable { F.IsAlwaysCallable run }
    requires reads { CallsRead I.reading I.view E.kind (CalledAtMut F.FnMut) (R.grammar rule) run }
    requires end { B.can_parse end × (B.terms.claim (B.state end)).premise
        × (B.terms.claim (B.state end)).backtracks }
    ensures { Reads I.reading E.kind
        (IsEnded (R.grammar rule) (B.terms.claim (B.state end)).grammar)
        (I.view input.old) result (I.view input.new) }
{
    terminated(rule.by(run), end).read(input)
}

/// The truth value of the formula that the bytes begin with, after which a semicolon is.
///
/// ```
/// use example_booleans::statements::statement;
///
/// let mut input = b"!t|t;f".as_slice();
/// assert_eq!(rt; statement(alloc, &mut input), Ok(true));
/// assert_eq!(rt; input, b"f".as_slice());
/// assert!(rt; statement(alloc, &mut b"t=t=f;".as_slice()).is_err());
/// ```
pub fn statement<'i, A: Allocator + Copy>(
    alloc: A,
    input: &mut &'i [u8],
) -> Result<bool, EmptyError>
    ensures { Reads bytes_reading ⟦<EmptyError as HasKind>⟧.kind (IsEnded IsFormula (Byte 59))
        (bytes_input input.old.now) result (bytes_input input.new.now) }
{
    let run = |input: &mut &[u8]|
        ensures { Reads bytes_reading empty_kind IsFormula (bytes_input input.old.now) result
            (bytes_input input.new.now) }
    { formula(alloc, input) };
    ended(AnyFormula, run, b';', input)
}
