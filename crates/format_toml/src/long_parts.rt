//! Multi-line strings made of parts: they are specified by the grammars of the parts, for any
//! parsers and over any stream.
ghost use Rattle.format_parts.specs.Words.{latter};
ghost use Rattle.format_toml.specs.LongGrammars.{LongOf, QuoteOf};
ghost use Rattle.std.specs.Prelude.{⊤, None};
ghost use Rattle.parser_definitions.specs.Terms.{CanRead};
ghost use Rattle.winnow_core.specs.Exact.{Reads};
ghost use Rattle.grammars.specs.Grammar.{Both, Either, Gathered, Many};
ghost use Rattle.stream_sets.specs.Range.{from_to};

use std::alloc::Allocator;
use stream_errors::parser_error::ParserError;
use streams::stream::Stream;
use winnow_comb::combinator::{alt, delimited, not, opt, peek, preceded, terminated};
use winnow_core::parser::Parser;
use winnow_repeat::combinator::repeat;

/// Parses a quotation mark that belongs to a multi-line string. After it, and after the next three
/// if there are three, no two follow. So one or two quotation marks belong to the string, and three
/// do not. Of four or five, those before the three that close the string belong to it.
pub fn read_quote_of<I, O, E, P>(quote: P, input: &mut I) -> Result<O, E>
where
    I: Stream,
    O: Drop,
    E: ParserError<I>,
    P: Parser<I, O, E> + Copy + Drop,
    requires quote { CanRead (P.can_parse quote) (P.terms.claim (P.state quote)) }
    ensures { Reads I.reading E.kind (QuoteOf (P.terms.claim (P.state quote)).grammar)
        (I.view input.old) result (I.view input.new) }
{
    let three = (quote, quote, quote);
    let two = (quote, quote);
    terminated(quote, peek((opt(three), not(two)))).read(input)
}

/// Parses the text of a character, or a quotation mark, after skipped input.
pub fn read_part_of<I, O, W, E, S, P, Q>(
    skips: S,
    content: P,
    quote: Q,
    input: &mut I,
) -> Result<O, E>
where
    I: Stream,
    O: Drop,
    W: Drop,
    E: ParserError<I>,
    S: Parser<I, W, E> + Drop,
    P: Parser<I, O, E> + Drop,
    Q: Parser<I, O, E> + Drop,
    requires skips { CanRead (S.can_parse skips) (S.terms.claim (S.state skips)) }
    requires content { CanRead (P.can_parse content) (P.terms.claim (P.state content)) }
    requires quote { CanRead (Q.can_parse quote) (Q.terms.claim (Q.state quote)) }
    ensures { Reads I.reading E.kind
        (Both latter (S.terms.claim (S.state skips)).grammar
        (Either (P.terms.claim (P.state content)).grammar (Q.terms.claim (Q.state quote)).grammar))
        (I.view input.old) result (I.view input.new) }
{
    preceded(skips, alt((content, quote))).read(input)
}

/// Parses the first, or the second if the first does not match.
pub fn read_either_of<I, O, E, P, Q>(first: P, second: Q, input: &mut I) -> Result<O, E>
where
    I: Stream,
    O: Drop,
    E: ParserError<I>,
    P: Parser<I, O, E> + Drop,
    Q: Parser<I, O, E> + Drop,
    requires first { CanRead (P.can_parse first) (P.terms.claim (P.state first)) }
    requires second { CanRead (Q.can_parse second) (Q.terms.claim (Q.state second)) }
    ensures { Reads I.reading E.kind
        (Either (P.terms.claim (P.state first)).grammar (Q.terms.claim (Q.state second)).grammar)
        (I.view input.old) result (I.view input.new) }
{
    alt((first, second)).read(input)
}

/// Parses an escaped line ending: a backslash, whitespace, a line ending, and all blanks after it.
pub fn read_escaped_of<I, M, W, E, A, B, G, N, P>(
    alloc: A,
    backslash: B,
    white: G,
    newline: N,
    blank: P,
    input: &mut I,
) -> Result<(), E>
where
    I: Stream,
    M: Drop,
    W: Drop,
    E: ParserError<I>,
    A: Allocator + Copy,
    B: Parser<I, M, E> + Drop,
    G: Parser<I, W, E> + Drop,
    N: Parser<I, M, E> + Drop,
    P: Parser<I, M, E> + Drop,
    requires backslash { CanRead (B.can_parse backslash) (B.terms.claim (B.state backslash)) }
    requires white { CanRead (G.can_parse white) (G.terms.claim (G.state white)) }
    requires newline { CanRead (N.can_parse newline) (N.terms.claim (N.state newline)) }
    requires blank { CanRead (P.can_parse blank) (P.terms.claim (P.state blank))
        × (P.terms.claim (P.state blank)).consumes }
    ensures { Reads I.reading E.kind
        (Both latter (B.terms.claim (B.state backslash)).grammar
        (Both latter (G.terms.claim (G.state white)).grammar
        (Both latter (N.terms.claim (N.state newline)).grammar
        (Gathered (λ (all : ⊤) parts. ⊤) (Many (P.terms.claim (P.state blank)).grammar
        (from_to 0 None))))))
        (I.view input.old) result (I.view input.new) }
{
    let blanks = repeat(alloc, 0.., blank);
    preceded(backslash, preceded(white, preceded(newline, blanks))).read(input)
}

/// Parses a multi-line string: three quotation marks, an optional line ending, parts with skipped
/// input after them, and three quotation marks.
pub fn read_long_of<I, M, E, A, Q, P, S, N>(
    alloc: A,
    quote: Q,
    part: P,
    skips: S,
    newline: N,
    input: &mut I,
) -> Result<String<A>, E>
where
    I: Stream,
    M: Drop,
    E: ParserError<I>,
    A: Allocator + Copy,
    Q: Parser<I, M, E> + Copy + Drop,
    P: Parser<I, char, E> + Drop,
    S: Parser<I, (), E> + Drop,
    N: Parser<I, M, E> + Drop,
    requires quote { CanRead (Q.can_parse quote) (Q.terms.claim (Q.state quote)) }
    requires part { CanRead (P.can_parse part) (P.terms.claim (P.state part))
        × (P.terms.claim (P.state part)).consumes }
    requires skips { CanRead (S.can_parse skips) (S.terms.claim (S.state skips)) }
    requires newline { CanRead (N.can_parse newline) (N.terms.claim (N.state newline)) }
    ensures { Reads I.reading E.kind
        (LongOf (Q.terms.claim (Q.state quote)).grammar (P.terms.claim (P.state part)).grammar
        (S.terms.claim (S.state skips)).grammar (N.terms.claim (N.state newline)).grammar)
        (I.view input.old) result (I.view input.new) }
{
    let three = (quote, quote, quote);
    let parts = repeat(alloc, 0.., part);
    let body = preceded(opt(newline), terminated(parts, skips));
    delimited(three, body, three).read(input)
}
