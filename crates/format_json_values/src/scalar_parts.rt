//! Rules made of parts: they are specified by the grammars of the parts, for any parsers. They are
//! out of memory only if a part is.
ghost use Rattle.format_parts.specs.Words.{latter, pair};
ghost use Rattle.parser_definitions.specs.Terms.{CanRead};
ghost use Rattle.winnow_core.specs.Exact.{IsSpared, Reads};
ghost use Rattle.grammars.specs.Grammar.{Both, Either};

use stream_errors::parser_error::ParserError;
use streams::stream::Stream;
use winnow_comb::combinator::{alt, preceded};
use winnow_core::parser::Parser;

/// Parses the first, or the second if the first does not match.
pub fn read_either<I, O, E, P, Q>(first: P, second: Q, input: &mut I) -> Result<O, E>
where
    I: Stream,
    E: ParserError<I>,
    P: Parser<I, O, E> + Drop,
    Q: Parser<I, O, E> + Drop,
    requires first { CanRead (P.can_parse first) (P.terms.claim (P.state first)) }
    requires second { CanRead (Q.can_parse second) (Q.terms.claim (Q.state second)) }
    ensures reads { Reads I.reading E.kind
        (Either (P.terms.claim (P.state first)).grammar (Q.terms.claim (Q.state second)).grammar)
        (I.view input.old) result (I.view input.new) }
    ensures spared { (P.terms.claim (P.state first)).spares_memory
        → (Q.terms.claim (Q.state second)).spares_memory → IsSpared E.kind (I.view input.old) result }
{
    alt((first, second)).read(input)
}

/// Reads a backslash, and after it what is short, or a letter and a unit.
pub fn read_escape_of<I, O1, O2, O3, E, P, Q, R, S>(
    backslash: P,
    short: Q,
    letter: R,
    unicode: S,
    input: &mut I,
) -> Result<O2, E>
where
    I: Stream,
    O1: Drop,
    O3: Drop,
    E: ParserError<I>,
    P: Parser<I, O1, E> + Drop,
    Q: Parser<I, O2, E> + Drop,
    R: Parser<I, O3, E> + Drop,
    S: Parser<I, O2, E> + Drop,
    requires backslash { CanRead (P.can_parse backslash) (P.terms.claim (P.state backslash)) }
    requires short { CanRead (Q.can_parse short) (Q.terms.claim (Q.state short)) }
    requires letter { CanRead (R.can_parse letter) (R.terms.claim (R.state letter)) }
    requires unicode { CanRead (S.can_parse unicode) (S.terms.claim (S.state unicode)) }
    ensures reads { Reads I.reading E.kind
        (Both latter (P.terms.claim (P.state backslash)).grammar
        (Either (Q.terms.claim (Q.state short)).grammar
        (Both latter (R.terms.claim (R.state letter)).grammar
        (S.terms.claim (S.state unicode)).grammar))) (I.view input.old) result
        (I.view input.new) }
    ensures spared { (P.terms.claim (P.state backslash)).spares_memory
        → (Q.terms.claim (Q.state short)).spares_memory
        → (R.terms.claim (R.state letter)).spares_memory
        → (S.terms.claim (S.state unicode)).spares_memory → IsSpared E.kind (I.view input.old)
        result }
{
    preceded(backslash, alt((short, preceded(letter, unicode)))).read(input)
}

/// Reads a unit, a backslash and a letter after it, and another unit.
pub fn read_units_of<I, O1, O2, O3, O4, E, P, Q, R, S>(
    first: P,
    backslash: Q,
    letter: R,
    second: S,
    input: &mut I,
) -> Result<(O1, O4), E>
where
    I: Stream,
    O1: Drop,
    O2: Drop,
    O3: Drop,
    E: ParserError<I>,
    P: Parser<I, O1, E> + Drop,
    Q: Parser<I, O2, E> + Drop,
    R: Parser<I, O3, E> + Drop,
    S: Parser<I, O4, E> + Drop,
    requires first { CanRead (P.can_parse first) (P.terms.claim (P.state first)) }
    requires backslash { CanRead (Q.can_parse backslash) (Q.terms.claim (Q.state backslash)) }
    requires letter { CanRead (R.can_parse letter) (R.terms.claim (R.state letter)) }
    requires second { CanRead (S.can_parse second) (S.terms.claim (S.state second)) }
    ensures reads { Reads I.reading E.kind
        (Both pair (P.terms.claim (P.state first)).grammar
        (Both latter (Both pair (Q.terms.claim (Q.state backslash)).grammar
        (R.terms.claim (R.state letter)).grammar) (S.terms.claim (S.state second)).grammar))
        (I.view input.old) result (I.view input.new) }
    ensures spared { (P.terms.claim (P.state first)).spares_memory
        → (Q.terms.claim (Q.state backslash)).spares_memory
        → (R.terms.claim (R.state letter)).spares_memory
        → (S.terms.claim (S.state second)).spares_memory → IsSpared E.kind (I.view input.old) result }
{
    (first, preceded((backslash, letter), second)).read(input)
}
