//! Items between marks, as the values of an array. The contracts are in terms of the grammars of
//! the parts, for any parsers and over any stream.
ghost use Rattle.format_parts.specs.Marks.{FirstItem, Items, ItemsRan};
ghost use Rattle.format_parts.specs.Words.{former};
ghost use Rattle.std.specs.Fn.{CalledAtMut};
ghost use Rattle.stream_errors.specs.Form.{answer_by};
ghost use Rattle.parser_definitions.specs.Terms.{CanRead};
ghost use Rattle.parser_definitions.specs.Does.{Ran};
ghost use Rattle.parser_definitions.specs.Func.{ByDoes};
ghost use Rattle.parser_definitions.specs.Sequence.{DelimitedDoes, TerminatedDoes};
ghost use Rattle.winnow_core.specs.Exact.{IsSpared, Reads};
ghost use Rattle.grammars.specs.Grammar.{Both, NoMatch, Three};
ghost use Rattle.winnow_grammar.specs.Rule.{CallsRead, CallsSpared};

use std::alloc::Allocator;
use stream_errors::parser_error::ParserError;
use streams::stream::Stream;
use winnow_comb::combinator::{delimited, terminated};
use winnow_core::parser::Parser;
use winnow_grammar::rule::Rule;
use winnow_separated::combinator::impls::Separated;
use winnow_separated::combinator::separated;

/// Parses three parts in sequence and returns the output of the second one. It is out of memory
/// only if one of them is.
pub fn read_between<I, O1, O2, O3, E, P, Q, R>(
    first: P,
    second: Q,
    third: R,
    input: &mut I,
) -> Result<O2, E>
where
    I: Stream,
    O1: Drop,
    O2: Drop,
    O3: Drop,
    E: ParserError<I>,
    P: Parser<I, O1, E> + Drop,
    Q: Parser<I, O2, E> + Drop,
    R: Parser<I, O3, E> + Drop,
    requires first { CanRead (P.can_parse first) (P.terms.claim (P.state first)) }
    requires second { CanRead (Q.can_parse second) (Q.terms.claim (Q.state second)) }
    requires third { CanRead (R.can_parse third) (R.terms.claim (R.state third)) }
    ensures ran { (t : P.State × Q.State × R.State)
        × Ran I.reading (DelimitedDoes P.does Q.does R.does) E.form
        (P.state first, Q.state second, R.state third) (I.view input.old)
        (answer_by E.kind result) t (I.view input.new) }
    ensures reads { Reads I.reading E.kind
        (Three (λ _ o _. o) (P.terms.claim (P.state first)).grammar
        (Q.terms.claim (Q.state second)).grammar (R.terms.claim (R.state third)).grammar)
        (I.view input.old) result (I.view input.new) }
    ensures spared { (P.terms.claim (P.state first)).spares_memory
        → (Q.terms.claim (Q.state second)).spares_memory
        → (R.terms.claim (R.state third)).spares_memory
        → IsSpared E.kind (I.view input.old) result }
{
    delimited(first, second, third).read(input)
}

/// The marks of an array or an object, and whitespace.
#[derive(Clone, Copy, Drop)]
pub struct Marks<B, G> {
    /// The mark before the items.
    pub opening: B,
    /// The mark between two items.
    pub comma: B,
    /// The mark after the items.
    pub closing: B,
    /// The gap after the other two, and after each name and value.
    pub gap: G,
}

/// Reads items between two marks, with a third between each two items, and whitespace after the
/// first mark and after each of those between items. It is out of memory only if a part is, or the
/// input starts with the first mark and an item.
pub fn read_items<I, E, O, M, W, A, P, B, G>(
    alloc: A,
    item: P,
    marks: Marks<B, G>,
    input: &mut I,
) -> Result<Vec<O, A>, E>
where
    I: Stream,
    E: ParserError<I>,
    O: Drop,
    M: Drop,
    W: Drop,
    A: Allocator + Copy,
    P: Parser<I, O, E> + Drop,
    B: Parser<I, M, E> + Copy + Drop,
    G: Parser<I, W, E> + Copy + Drop,
    requires item { CanRead (P.can_parse item) (P.terms.claim (P.state item)) }
    requires opening { CanRead (B.can_parse marks.opening) (B.terms.claim (B.state marks.opening)) }
    requires comma { CanRead (B.can_parse marks.comma) (B.terms.claim (B.state marks.comma))
        × (B.terms.claim (B.state marks.comma)).consumes }
    requires closing { CanRead (B.can_parse marks.closing) (B.terms.claim (B.state marks.closing)) }
    requires gap { CanRead (G.can_parse marks.gap) (G.terms.claim (G.state marks.gap)) }
    ensures ran { ItemsRan I.reading E.form P.does B.does G.does (
      P.state item,
      B.state marks.opening,
      B.state marks.comma,
      B.state marks.closing,
      G.state marks.gap,
    ) (I.view input.old) (answer_by E.kind result) (I.view input.new) }
    ensures reads { Reads I.reading E.kind
        (Items (P.terms.claim (P.state item)).grammar
        (B.terms.claim (B.state marks.opening)).grammar
        (B.terms.claim (B.state marks.comma)).grammar
        (B.terms.claim (B.state marks.closing)).grammar
        (G.terms.claim (G.state marks.gap)).grammar) (I.view input.old) result
        (I.view input.new) }
    ensures spared { (P.terms.claim (P.state item)).spares_memory
        → (B.terms.claim (B.state marks.opening)).spares_memory
        → (B.terms.claim (B.state marks.closing)).spares_memory
        → (G.terms.claim (G.state marks.gap)).spares_memory
        → NoMatch (FirstItem (P.terms.claim (P.state item)).grammar
        (B.terms.claim (B.state marks.opening)).grammar (G.terms.claim (G.state marks.gap)).grammar)
        (I.view input.old).left.tokens → IsSpared E.kind (I.view input.old) result }
{
    let items: Separated<P, (B, G), I, O, (M, W), Vec<O, A>, E, A> = separated(
        alloc,
        0..,
        item,
        (marks.comma, marks.gap),
    );
    delimited((marks.opening, marks.gap), items, marks.closing).read(input)
}

/// Parses values between marks. A function parses a value by a rule, and whitespace follows it. It
/// is out of memory where [`read_items`] is.
pub fn read_array_of<I, E, O, M, W, A, R, F, B, G>(
    alloc: A,
    rule: R,
    value: F,
    marks: Marks<B, G>,
    input: &mut I,
) -> Result<Vec<O, A>, E>
where
    I: Stream,
    E: ParserError<I>,
    O: Drop,
    M: Drop,
    W: Drop,
    A: Allocator + Copy,
    R: Rule<I, O> + Drop,
    F: FnMut(&mut I) -> Result<O, E> + Drop,
    B: Parser<I, M, E> + Copy + Drop,
    G: Parser<I, W, E> + Copy + Drop,
    requires callable { F.IsAlwaysCallable value }
    requires reads { CallsRead I.reading I.view E.kind (CalledAtMut F.FnMut) (R.grammar rule)
        value }
    requires opening { CanRead (B.can_parse marks.opening) (B.terms.claim (B.state marks.opening)) }
    requires comma { CanRead (B.can_parse marks.comma) (B.terms.claim (B.state marks.comma))
        × (B.terms.claim (B.state marks.comma)).consumes }
    requires closing { CanRead (B.can_parse marks.closing) (B.terms.claim (B.state marks.closing)) }
    requires gap { CanRead (G.can_parse marks.gap) (G.terms.claim (G.state marks.gap)) }
    ensures ran { ItemsRan I.reading E.form
        (TerminatedDoes (ByDoes I.view E.kind (CalledAtMut F.FnMut)) G.does) B.does G.does (
          ((rule, value), G.state marks.gap),
          B.state marks.opening,
          B.state marks.comma,
          B.state marks.closing,
          G.state marks.gap,
        )
        (I.view input.old) (answer_by E.kind result) (I.view input.new) }
    ensures reads { Reads I.reading E.kind
        (Items (Both former (R.grammar rule) (G.terms.claim (G.state marks.gap)).grammar)
        (B.terms.claim (B.state marks.opening)).grammar
        (B.terms.claim (B.state marks.comma)).grammar
        (B.terms.claim (B.state marks.closing)).grammar (G.terms.claim (G.state marks.gap)).grammar)
        (I.view input.old) result (I.view input.new) }
    ensures spared { CallsSpared I.view E.kind (CalledAtMut F.FnMut) value
        → (B.terms.claim (B.state marks.opening)).spares_memory
        → (B.terms.claim (B.state marks.closing)).spares_memory
        → (G.terms.claim (G.state marks.gap)).spares_memory
        → NoMatch
        (FirstItem (Both former (R.grammar rule) (G.terms.claim (G.state marks.gap)).grammar)
        (B.terms.claim (B.state marks.opening)).grammar (G.terms.claim (G.state marks.gap)).grammar)
        (I.view input.old).left.tokens → IsSpared E.kind (I.view input.old) result }
{
    let item = terminated(rule.by(value), marks.gap);
    read_items(alloc, item, marks, input)
}
