//! Parsers as parts of an expression: which of them meet the requirements of the laws of trees.
ghost use Rattle.std.specs.Prelude.{◌≡◌, ℕ};
ghost use Rattle.streams.specs.Bytes.{bytes_reading};
ghost use Rattle.parser_definitions.specs.Does.{Ran};
ghost use Rattle.winnow_expression_trees.specs.Premises.{IsStateless};
ghost use Rattle.winnow_expression_trees.specs.Premises.Decided.{ConsumesInput, KeepsState};
ghost use Rattle.winnow_expression_trees.specs.Premises.Laws.{AlikeWithSpan};

use crate::laws::Likeness;
use std::ops::Range;
use stream_errors::parser_error::ParserError;
use streams::stream::{Location, Stream};
use winnow_comb::combinator::impls::AltParser;
use winnow_core::combinator::impls::{Span, Value, WithSpan};
use winnow_core::parser::Parser;

/// The stream of bytes.
type Bytes = &'static [u8];

/// States that a parser with a lawful definition, in a state that its calls keep, meets the
/// requirements of the laws of trees, up to equivalent outputs. Its calls must record no errors.
///
/// ```
/// use winnow_expression_trees::laws::parts::deterministic_parts_are_stateless;
///
/// // Of `Digit1`.
/// deterministic_parts_are_stateless::<Digit1, &[u8], &[u8], EmptyError>();
/// ```
pub fn deterministic_parts_are_stateless<P: Parser<I, O, E>, I: Stream, O, E: ParserError<I>>()
    ensures { (s : P.State) → P.terms.premise → KeepsState (Ran I.reading P.does E.form) s
        → IsStateless P.terms.alike (Ran I.reading P.does E.form) s }
{}

/// States that the span of a stateless part is stateless, alone and with the output: calls on one
/// input have equal spans.
///
/// ```
/// use winnow_expression_trees::laws::Likeness;
/// use winnow_expression_trees::laws::parts::spans_are_stateless;
///
/// struct Equal;
///
/// impl Likeness<u8> for Equal {
///     ghost alike = { λ v w. v ≡ w };
/// }
///
/// // Of `b'x'.span()` and `b'x'.with_span()`.
/// spans_are_stateless::<u8, LocatingSlice<&[u8]>, u8, EmptyError, Equal>();
/// ```
pub fn spans_are_stateless<
    P: Parser<I, O, E>,
    I: Location,
    O: Drop,
    E: ParserError<I>,
    A: Likeness<O>,
>()
    ensures span { (s : P.State) → IsStateless A.alike (Ran I.reading P.does E.form) s
        → IsStateless (λ u v. u ≡ v)
        (Ran I.reading ⟦<Span<P, I, O, E> as Parser<I, Range<usize>, E>>⟧.does E.form) s }
    ensures with_span { (s : P.State) → IsStateless A.alike (Ran I.reading P.does E.form) s
        → IsStateless (AlikeWithSpan A.alike)
        (Ran I.reading ⟦<WithSpan<P, I, O, E> as Parser<I, (O, Range<usize>), E>>⟧.does E.form) s }
{}

/// States that a byte consumes input if it is returned.
///
/// ```
/// use winnow_expression_trees::laws::parts::a_byte_consumes;
///
/// a_byte_consumes::<EmptyError>();
/// ```
pub fn a_byte_consumes<E: ParserError<Bytes>>()
    ensures { (b : ℕ) → ConsumesInput bytes_reading.units
        (Ran bytes_reading ⟦<u8 as Parser<Bytes, u8, E>>⟧.does E.form) b }
{}

/// States that a parser whose output is replaced with a value consumes input if the original one
/// does.
///
/// ```
/// use winnow_expression_trees::laws::parts::a_value_consumes;
///
/// // Of `b'-'.value("minus")`.
/// a_value_consumes::<&[u8], u8, &str, u8, EmptyError>();
/// ```
pub fn a_value_consumes<I: Stream, O: Drop, U: Clone, P: Parser<I, O, E>, E: ParserError<I>>()
    ensures { (s : P.State) (x : U) → ConsumesInput I.reading.units (Ran I.reading P.does E.form) s
        → ConsumesInput I.reading.units
        (Ran I.reading ⟦<Value<P, I, O, U, E> as Parser<I, U, E>>⟧.does E.form)
        (s, x) }
{}

/// A choice between two parsers that consume does.
///
/// ```
/// use winnow_expression_trees::laws::parts::a_choice_consumes;
///
/// // Of `alt((b'+', b'-'))`.
/// a_choice_consumes::<&[u8], u8, u8, u8, EmptyError>();
/// ```
pub fn a_choice_consumes<
    I: Stream,
    O,
    P1: Parser<I, O, E>,
    P2: Parser<I, O, E>,
    E: ParserError<I>,
>()
    ensures { (s : P1.State) (u : P2.State)
        → ConsumesInput I.reading.units (Ran I.reading P1.does E.form) s
        → ConsumesInput I.reading.units (Ran I.reading P2.does E.form) u
        → ConsumesInput I.reading.units
        (Ran I.reading ⟦<AltParser<(P1, P2), I, O, E> as Parser<I, O, E>>⟧.does E.form) (s, u) }
{}
