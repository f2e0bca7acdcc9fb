//! Rules made of parts: they are specified by the grammars of the parts, for any parsers and over
//! any stream.
ghost use Rattle.format_parts.specs.Marks.{FirstItem, Items};
ghost use Rattle.format_parts.specs.Words.{former, latter};
ghost use Rattle.format_json_values.specs.Pairs.{Pair};
ghost use Rattle.std.specs.Fn.{CalledAtMut};
ghost use Rattle.std.specs.Prelude.{◌≡◌, false};
ghost use Rattle.parser_definitions.specs.Terms.{CanRead};
ghost use Rattle.winnow_core.specs.Exact.{IsSpared, Reads};
ghost use Rattle.winnow_core.specs.Exact.Whole.{ReadsAll};
ghost use Rattle.grammars.specs.Grammar.{Both, NoMatch};
ghost use Rattle.winnow_grammar.specs.Rule.{CallsRead, CallsSpared};

use format_parts::marks::{Marks, read_items};
use std::alloc::Allocator;
use stream_errors::fault::ParseFault;
use stream_errors::parser_error::ParserError;
use streams::stream::{Stream, StreamIsPartial};
use winnow_comb::combinator::{preceded, separated_pair, terminated};
use winnow_core::parser::Parser;
use winnow_grammar::rule::Rule;

/// Reads members between marks, each a name, a mark and a value, with whitespace after each of
/// them. A function reads a name by a rule, and another a value. It is out of memory where
/// [`read_items`] is.
pub fn read_object_of<I, E, K, O, M, W, A, S, H, R, F, B, G>(
    alloc: A,
    names: S,
    name: H,
    colon: B,
    rule: R,
    value: F,
    marks: Marks<B, G>,
    input: &mut I,
) -> Result<Vec<(K, O), A>, E>
where
    I: Stream,
    E: ParserError<I>,
    K: Drop,
    O: Drop,
    M: Drop,
    W: Drop,
    A: Allocator + Copy,
    S: Rule<I, K> + Drop,
    H: FnMut(&mut I) -> Result<K, E> + Drop,
    R: Rule<I, O> + Drop,
    F: FnMut(&mut I) -> Result<O, E> + Drop,
    B: Parser<I, M, E> + Copy + Drop,
    G: Parser<I, W, E> + Copy + Drop,
    requires name_callable { H.IsAlwaysCallable name }
    requires name_reads { CallsRead I.reading I.view E.kind (CalledAtMut H.FnMut)
        (S.grammar names) name }
    requires callable { F.IsAlwaysCallable value }
    requires reads { CallsRead I.reading I.view E.kind (CalledAtMut F.FnMut) (R.grammar rule)
        value }
    requires colon { CanRead (B.can_parse colon) (B.terms.claim (B.state colon)) }
    requires opening { CanRead (B.can_parse marks.opening) (B.terms.claim (B.state marks.opening)) }
    requires comma { CanRead (B.can_parse marks.comma) (B.terms.claim (B.state marks.comma))
        × (B.terms.claim (B.state marks.comma)).consumes }
    requires closing { CanRead (B.can_parse marks.closing) (B.terms.claim (B.state marks.closing)) }
    requires gap { CanRead (G.can_parse marks.gap) (G.terms.claim (G.state marks.gap)) }
    ensures reads { Reads I.reading E.kind
        (Items (Pair (S.grammar names) (B.terms.claim (B.state colon)).grammar (R.grammar rule)
        (G.terms.claim (G.state marks.gap)).grammar) (B.terms.claim (B.state marks.opening)).grammar
        (B.terms.claim (B.state marks.comma)).grammar
        (B.terms.claim (B.state marks.closing)).grammar
        (G.terms.claim (G.state marks.gap)).grammar) (I.view input.old) result
        (I.view input.new) }
    ensures spared { CallsSpared I.view E.kind (CalledAtMut H.FnMut) name
        → CallsSpared I.view E.kind (CalledAtMut F.FnMut) value
        → (B.terms.claim (B.state colon)).spares_memory
        → (B.terms.claim (B.state marks.opening)).spares_memory
        → (B.terms.claim (B.state marks.closing)).spares_memory
        → (G.terms.claim (G.state marks.gap)).spares_memory
        → NoMatch (FirstItem (Pair (S.grammar names) (B.terms.claim (B.state colon)).grammar
        (R.grammar rule) (G.terms.claim (G.state marks.gap)).grammar)
        (B.terms.claim (B.state marks.opening)).grammar (G.terms.claim (G.state marks.gap)).grammar)
        (I.view input.old).left.tokens → IsSpared E.kind (I.view input.old) result }
{
    let name = terminated(names.by(name), marks.gap);
    let value = terminated(rule.by(value), marks.gap);
    let member = separated_pair(name, (colon, marks.gap), value);
    read_items(alloc, member, marks, input)
}

/// Reads all of an input as a value, with whitespace before it and after it.
pub fn parse_spaced<I, E, O, W, R, F, G>(
    rule: R,
    value: F,
    gap: G,
    input: I,
) -> Result<O, ParseFault<I, E::Inner>>
where
    I: StreamIsPartial,
    E: ParserError<I>,
    O: Drop,
    W: Drop,
    R: Rule<I, O> + Drop,
    F: FnMut(&mut I) -> Result<O, E> + Drop,
    G: Parser<I, W, E> + Copy + Drop,
    requires callable { F.IsAlwaysCallable value }
    requires reads { CallsRead I.reading I.view E.kind (CalledAtMut F.FnMut) (R.grammar rule)
        value }
    requires gap { G.can_parse gap × (G.terms.claim (G.state gap)).premise }
    requires whole { I.supports_partial ≡ false }
    ensures { ReadsAll E.inner_kind
        (Both latter (G.terms.claim (G.state gap)).grammar
        (Both former (R.grammar rule) (G.terms.claim (G.state gap)).grammar))
        (I.view input).left.tokens result }
{
    preceded(gap, terminated(rule.by(value), gap)).read_all(input)
}
