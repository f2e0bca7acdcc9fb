//! Iterators in use: what is known of the items of a loop, and of the input after it.
#![tactic(auto)]

ghost use Rattle.winnow.specs.Does.{Ran};
ghost use Rattle.std.specs.Prelude.{◌≡◌, false, List, [], IfErr, IfOk};
ghost use Rattle.winnow.specs.Form.{assert_kind};
ghost use Rattle.winnow.specs.Input.{Input, IsEndOf};
ghost use Rattle.winnow.specs.Fault.{IsFaultAt};
ghost use Rattle.winnow.specs.ParseIter.Inversion.{IsErrorAfterItems};
ghost use Rattle.example_callers.specs.Items.{EndsAfterChain, FailsAfterChain, IsLastOf, Items};

use winnow::Parser;
use winnow::combinator::impls::ParseIter;
use winnow::combinator::{ParserIterator, iterator};
use winnow::error::{ParseFault, ParserError};
use winnow::stream::{Stream, StreamIsPartial};

/// Calls `parser` until it backtracks, and returns the last output. The input is left where the
/// call that backtracks began. If a call fails otherwise, or consumes no input, returns that error,
/// regardless of earlier outputs.
pub fn last_item<P: Parser<I, O, E> + Drop, I: Stream, O: Drop, E: ParserError<I>>(
    input: &mut I,
    parser: P,
) -> Result<Option<O>, E>
    requires { P.can_parse parser }
    ensures last { IfOk result (λ last. (outputs : List O)
        × EndsAfterChain (Ran I.reading P.does E.form) (P.state parser) (I.view input.old) outputs
        (I.view input.new)
        × IsLastOf outputs last) }
    ensures fails { IfErr result (λ error. (outputs : List O)
        × FailsAfterChain (Ran I.reading P.does E.form) (assert_kind E.form) (P.state parser)
        (I.view input.old) outputs (E.kind error) (I.view input.new)) }
    ensures ends { IsEndOf I.reading (I.view input.new) (I.view input.old) }
{
    let mut items: ParserIterator<'_, P, I, O, E> = iterator(input, parser);
    let mut last = None;
    while let Some(item) = items.next() {
        last = Some(item);
    }
    match items.finish() {
        Ok(()) => Ok(last),
        Err(error) => Err(error),
    }
}

/// Returns the last item of an input that consists of items. Otherwise returns the error after the
/// last item.
pub fn last_of_all<P: Parser<I, O, E>, I: StreamIsPartial, O: Drop, E: ParserError<I>>(
    parser: &mut P,
    input: I,
) -> Result<Option<O>, ParseFault<I, E::Inner>>
    requires callable { P.can_parse parser.old }
    requires whole { I.supports_partial ≡ false }
    ensures last { IfOk result (λ last. (outputs : List O) × (u : P.State) × (m : Input I.Seen)
        × Items (Ran I.reading P.does E.form) (P.state parser.old) (I.view input) outputs u m
        × (m.left.tokens ≡ []) × IsLastOf outputs last) }
    ensures refused { IfErr result (λ fault. (outputs : List O)
        × IsErrorAfterItems (Ran I.reading P.does E.form) (assert_kind E.form)
        (IsFaultAt I.view I.reading.units E.inner_kind) (P.state parser.old) (I.view input)
        outputs fault) }
{
    let mut items: ParseIter<'_, P, I, O, E> = parser.parse_iter(input);
    let mut last = None;
    while let Some(item) = items.next() {
        match item {
            Ok(output) => last = Some(output),
            Err(fault) => return Err(fault),
        }
    }
    Ok(last)
}
