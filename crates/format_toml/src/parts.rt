//! Rules made of parts: they are specified by the grammars of the parts, for any parsers and over
//! any stream.
ghost use Rattle.format_toml.specs.Grammars.{Listing};
ghost use Rattle.format_toml.specs.Statements.{stated};
ghost use Rattle.format_parts.specs.Words.{former, latter, pair};
ghost use Rattle.std.specs.Fn.{CalledAtMut};
ghost use Rattle.std.specs.Prelude.{◌≡◌, ⊤, false, None};
ghost use Rattle.parser_definitions.specs.Terms.{CanRead};
ghost use Rattle.stream_sets.specs.Range.{from_to};
ghost use Rattle.winnow_core.specs.Exact.{Reads};
ghost use Rattle.winnow_core.specs.Exact.Whole.{ReadsAll};
ghost use Rattle.grammars.specs.Grammar.{Both, Either, Gathered, Many, Optional, Parted, Taken};
ghost use Rattle.grammars.specs.Grammar.{Three};
ghost use Rattle.winnow_grammar.specs.Rule.{CallsRead};

use crate::statements::{Statements, exact};
use format_parts::marks::Marks;
use std::alloc::Allocator;
use stream_errors::fault::ParseFault;
use stream_errors::parser_error::ParserError;
use streams::stream::{Stream, StreamIsPartial};
use winnow_comb::combinator::{alt, delimited, opt, preceded, separated_pair, terminated};
use winnow_core::parser::Parser;
use winnow_grammar::rule::Rule;
use winnow_repeat::combinator::repeat;
use winnow_separated::combinator::impls::Separated;
use winnow_separated::combinator::separated;

/// Reads elements, one at least, with a mark between each two of them, and whitespace after each
/// element and each mark.
pub fn read_joined<I, E, O, M, W, A, P, B, G>(
    alloc: A,
    element: P,
    mark: B,
    gap: G,
    input: &mut I,
) -> Result<Vec<O, A>, E>
where
    I: Stream,
    E: ParserError<I>,
    O: Drop,
    M: Drop,
    W: Drop,
    A: Allocator + Copy,
    P: Parser<I, O, E> + Drop,
    B: Parser<I, M, E> + Drop,
    G: Parser<I, W, E> + Copy + Drop,
    requires element { CanRead (P.can_parse element) (P.terms.claim (P.state element)) }
    requires mark { CanRead (B.can_parse mark) (B.terms.claim (B.state mark))
        × (B.terms.claim (B.state mark)).consumes }
    requires gap { CanRead (G.can_parse gap) (G.terms.claim (G.state gap)) }
    ensures { Reads I.reading E.kind
        (Gathered (λ list os. list.items ≡ os)
        (Parted (Both former (P.terms.claim (P.state element)).grammar
        (G.terms.claim (G.state gap)).grammar)
        (Both pair (B.terms.claim (B.state mark)).grammar (G.terms.claim (G.state gap)).grammar)
        (from_to 1 None))) (I.view input.old) result (I.view input.new) }
{
    match separated(alloc, 1.., terminated(element, gap), (mark, gap)).read(input) {
        Ok(list) => Ok(exact(list)),
        Err(error) => Err(error),
    }
}

/// Parses the input between two others, or nothing between them.
fn read_or_none<I, O1, O2, O3, E, P, Q, R>(
    first: P,
    second: Q,
    third: R,
    input: &mut I,
) -> Result<Option<O2>, E>
where
    I: Stream,
    O1: Drop,
    O2: Drop,
    O3: Drop,
    E: ParserError<I>,
    P: Parser<I, O1, E> + Drop,
    Q: Parser<I, O2, E> + Drop,
    R: Parser<I, O3, E> + Drop,
    requires first { CanRead (P.can_parse first) (P.terms.claim (P.state first)) }
    requires second { CanRead (Q.can_parse second) (Q.terms.claim (Q.state second)) }
    requires third { CanRead (R.can_parse third) (R.terms.claim (R.state third)) }
    ensures { Reads I.reading E.kind
        (Three (λ o1 o2 o3. o2) (P.terms.claim (P.state first)).grammar
        (Optional (Q.terms.claim (Q.state second)).grammar) (R.terms.claim (R.state third)).grammar)
        (I.view input.old) result (I.view input.new) }
{
    delimited(first, opt(second), third).read(input)
}

/// Reads elements between two marks, with a third between each two of them and perhaps after the
/// last, or nothing between these marks; and whitespace after the first mark and after each of
/// those between elements.
pub fn read_list<I, E, O, M, W, A, P, B, G>(
    alloc: A,
    element: P,
    marks: Marks<B, G>,
    input: &mut I,
) -> Result<Option<Vec<O, A>>, E>
where
    I: Stream,
    E: ParserError<I>,
    O: Drop,
    M: Drop,
    W: Drop,
    A: Allocator + Copy,
    P: Parser<I, O, E> + Drop,
    B: Parser<I, M, E> + Copy + Drop,
    G: Parser<I, W, E> + Copy + Drop,
    requires element { CanRead (P.can_parse element) (P.terms.claim (P.state element)) }
    requires opening { CanRead (B.can_parse marks.opening) (B.terms.claim (B.state marks.opening)) }
    requires comma { CanRead (B.can_parse marks.comma) (B.terms.claim (B.state marks.comma))
        × (B.terms.claim (B.state marks.comma)).consumes }
    requires closing { CanRead (B.can_parse marks.closing) (B.terms.claim (B.state marks.closing)) }
    requires gap { CanRead (G.can_parse marks.gap) (G.terms.claim (G.state marks.gap)) }
    ensures { Reads I.reading E.kind
        (Listing (P.terms.claim (P.state element)).grammar
        (B.terms.claim (B.state marks.opening)).grammar
        (B.terms.claim (B.state marks.comma)).grammar
        (B.terms.claim (B.state marks.closing)).grammar
        (G.terms.claim (G.state marks.gap)).grammar) (I.view input.old) result
        (I.view input.new) }
{
    let elements: Separated<P, (B, G), I, O, (M, W), Vec<O, A>, E, A> = separated(
        alloc,
        1..,
        element,
        (marks.comma, marks.gap),
    );
    let all = terminated(elements, opt((marks.comma, marks.gap)));
    match read_or_none((marks.opening, marks.gap), all, marks.closing, input) {
        Ok(Some(list)) => Ok(Some(exact(list))),
        Ok(None) => Ok(None),
        Err(error) => Err(error),
    }
}

/// Parses values between marks, as [`read_list`]. A function parses a value by a rule, and
/// whitespace follows it.
pub fn read_list_of<I, E, O, M, W, A, R, F, B, G>(
    alloc: A,
    rule: R,
    value: F,
    marks: Marks<B, G>,
    input: &mut I,
) -> Result<Option<Vec<O, A>>, E>
where
    I: Stream,
    E: ParserError<I>,
    O: Drop,
    M: Drop,
    W: Drop,
    A: Allocator + Copy,
    R: Rule<I, O> + Drop,
    F: FnMut(&mut I) -> Result<O, E> + Drop,
    B: Parser<I, M, E> + Copy + Drop,
    G: Parser<I, W, E> + Copy + Drop,
    requires callable { F.IsAlwaysCallable value }
    requires reads { CallsRead I.reading I.view E.kind (CalledAtMut F.FnMut) (R.grammar rule)
        value }
    requires opening { CanRead (B.can_parse marks.opening) (B.terms.claim (B.state marks.opening)) }
    requires comma { CanRead (B.can_parse marks.comma) (B.terms.claim (B.state marks.comma))
        × (B.terms.claim (B.state marks.comma)).consumes }
    requires closing { CanRead (B.can_parse marks.closing) (B.terms.claim (B.state marks.closing)) }
    requires gap { CanRead (G.can_parse marks.gap) (G.terms.claim (G.state marks.gap)) }
    ensures { Reads I.reading E.kind
        (Listing (Both former (R.grammar rule) (G.terms.claim (G.state marks.gap)).grammar)
        (B.terms.claim (B.state marks.opening)).grammar
        (B.terms.claim (B.state marks.comma)).grammar
        (B.terms.claim (B.state marks.closing)).grammar (G.terms.claim (G.state marks.gap)).grammar)
        (I.view input.old) result (I.view input.new) }
{
    let element = terminated(rule.by(value), marks.gap);
    read_list(alloc, element, marks, input)
}

/// Reads a key and a value with a mark between them. A function reads the value by a rule.
pub fn read_pair_of<I, E, K, M, O, P, Q, R, F>(
    key: P,
    mark: Q,
    rule: R,
    value: F,
    input: &mut I,
) -> Result<(K, O), E>
where
    I: Stream,
    E: ParserError<I>,
    K: Drop,
    M: Drop,
    O: Drop,
    P: Parser<I, K, E> + Drop,
    Q: Parser<I, M, E> + Drop,
    R: Rule<I, O> + Drop,
    F: FnMut(&mut I) -> Result<O, E> + Drop,
    requires callable { F.IsAlwaysCallable value }
    requires reads { CallsRead I.reading I.view E.kind (CalledAtMut F.FnMut) (R.grammar rule)
        value }
    requires key { CanRead (P.can_parse key) (P.terms.claim (P.state key)) }
    requires mark { CanRead (Q.can_parse mark) (Q.terms.claim (Q.state mark)) }
    ensures { Reads I.reading E.kind
        (Three (λ k s v. (k, v)) (P.terms.claim (P.state key)).grammar
        (Q.terms.claim (Q.state mark)).grammar (R.grammar rule))
        (I.view input.old) result (I.view input.new) }
{
    read_pair(key, mark, rule.by(value), input)
}

/// Reads whitespace over lines: characters of whitespace, and line ends with a comment before
/// them or none.
pub fn read_gap_of<I, E, O, C, A, P, Q, N>(
    alloc: A,
    white: P,
    comment: Q,
    newline: N,
    input: &mut I,
) -> Result<(), E>
where
    I: Stream,
    E: ParserError<I>,
    O: Drop,
    C: Drop,
    A: Allocator + Copy,
    P: Parser<I, O, E> + Drop,
    Q: Parser<I, C, E> + Drop,
    N: Parser<I, O, E> + Drop,
    requires white { CanRead (P.can_parse white) (P.terms.claim (P.state white))
        × (P.terms.claim (P.state white)).consumes }
    requires comment { CanRead (Q.can_parse comment) (Q.terms.claim (Q.state comment)) }
    requires newline { CanRead (N.can_parse newline) (N.terms.claim (N.state newline))
        × (N.terms.claim (N.state newline)).consumes }
    ensures { Reads I.reading E.kind
        (Gathered (λ all parts. ⊤) (Many (Either (P.terms.claim (P.state white)).grammar
        (Both latter (Optional (Q.terms.claim (Q.state comment)).grammar)
        (N.terms.claim (N.state newline)).grammar)) (from_to 0 None)))
        (I.view input.old) result (I.view input.new) }
{
    let part = alt((white, preceded(opt(comment), newline)));
    repeat(alloc, 0.., part).read(input)
}

/// Reads two with a third between them.
pub fn read_pair<I, O1, O2, O3, E, P, Q, R>(
    first: P,
    second: Q,
    third: R,
    input: &mut I,
) -> Result<(O1, O3), E>
where
    I: Stream,
    O1: Drop,
    O2: Drop,
    O3: Drop,
    E: ParserError<I>,
    P: Parser<I, O1, E> + Drop,
    Q: Parser<I, O2, E> + Drop,
    R: Parser<I, O3, E> + Drop,
    requires first { CanRead (P.can_parse first) (P.terms.claim (P.state first)) }
    requires second { CanRead (Q.can_parse second) (Q.terms.claim (Q.state second)) }
    requires third { CanRead (R.can_parse third) (R.terms.claim (R.state third)) }
    ensures { Reads I.reading E.kind
        (Three (λ k s v. (k, v)) (P.terms.claim (P.state first)).grammar
        (Q.terms.claim (Q.state second)).grammar (R.terms.claim (R.state third)).grammar)
        (I.view input.old) result (I.view input.new) }
{
    separated_pair(first, second, third).read(input)
}

/// Reads an item or none, with whitespace round it, and a comment after it or none.
pub fn read_line_of<I, E, O, C, W, P, Q, G>(
    item: P,
    comment: Q,
    gap: G,
    input: &mut I,
) -> Result<Option<O>, E>
where
    I: Stream,
    E: ParserError<I>,
    O: Drop,
    C: Drop,
    W: Drop,
    P: Parser<I, O, E> + Drop,
    Q: Parser<I, C, E> + Drop,
    G: Parser<I, W, E> + Copy + Drop,
    requires item { CanRead (P.can_parse item) (P.terms.claim (P.state item)) }
    requires comment { CanRead (Q.can_parse comment) (Q.terms.claim (Q.state comment)) }
    requires gap { CanRead (G.can_parse gap) (G.terms.claim (G.state gap)) }
    ensures { Reads I.reading E.kind
        (Three (λ o1 o2 o3. o2) (G.terms.claim (G.state gap)).grammar
        (Optional (Both former (P.terms.claim (P.state item)).grammar
        (G.terms.claim (G.state gap)).grammar))
        (Optional (Q.terms.claim (Q.state comment)).grammar))
        (I.view input.old) result (I.view input.new) }
{
    delimited(gap, opt(terminated(item, gap)), opt(comment)).read(input)
}

/// Parses all of an input as lines, with a line ending between each two, and returns the statements
/// of those that have one.
pub fn parse_lines_of<I, E, O, N, A, P, R>(
    alloc: A,
    line: P,
    newline: R,
    input: I,
) -> Result<Vec<O, A>, ParseFault<I, E::Inner>>
where
    I: StreamIsPartial,
    E: ParserError<I>,
    O: Drop,
    N: Drop,
    A: Allocator + Copy,
    P: Parser<I, Option<O>, E> + Drop,
    R: Parser<I, N, E> + Drop,
    requires line { CanRead (P.can_parse line) (P.terms.claim (P.state line)) }
    requires newline { CanRead (R.can_parse newline) (R.terms.claim (R.state newline))
        × (R.terms.claim (R.state newline)).consumes }
    requires whole { I.supports_partial ≡ false }
    ensures { ReadsAll E.inner_kind
        (Gathered (λ list lines. list.items ≡ stated lines)
        (Parted (P.terms.claim (P.state line)).grammar (R.terms.claim (R.state newline)).grammar
        (from_to 1 None))) (I.view input).left.tokens result }
{
    let mut lines: Separated<P, R, I, Option<O>, N, Statements<O, A>, E, A> = separated(
        alloc,
        1..,
        line,
        newline,
    );
    match lines.read_all(input) {
        Ok(all) => Ok(exact(all.list)),
        Err(fault) => Err(fault),
    }
}

/// Reads one, and another after it or none, for all that they read.
pub fn read_both_taken<I, E, O1, O2, P, Q>(
    first: P,
    second: Q,
    input: &mut I,
) -> Result<I::Slice, E>
where
    I: Stream,
    E: ParserError<I>,
    O1: Drop,
    O2: Drop,
    P: Parser<I, O1, E> + Drop,
    Q: Parser<I, O2, E> + Drop,
    requires first { CanRead (P.can_parse first) (P.terms.claim (P.state first)) }
    requires second { CanRead (Q.can_parse second) (Q.terms.claim (Q.state second)) }
    ensures { Reads I.reading E.kind
        (Taken I.reading (Both pair (P.terms.claim (P.state first)).grammar
        (Optional (Q.terms.claim (Q.state second)).grammar)))
        (I.view input.old) result (I.view input.new) }
{
    (first, opt(second)).take().read(input)
}
