//! Parsers in sequence. The contracts are in terms of the grammars of the parts, for any parsers
//! and over any stream.
ghost use Rattle.format_parts.specs.Words.{pair};
ghost use Rattle.parser_definitions.specs.Both.{BothDo};
ghost use Rattle.parser_definitions.specs.Terms.{CanRead};
ghost use Rattle.parser_definitions.specs.Does.{Ran};
ghost use Rattle.parser_definitions.specs.Tuples.{SequenceDoes4};
ghost use Rattle.winnow_core.specs.Exact.{IsSpared, Reads};
ghost use Rattle.grammars.specs.Grammar.{Both};
ghost use Rattle.grammars.specs.Grammar.Tuples.{Four};
ghost use Rattle.stream_errors.specs.Form.{answer_by};

use stream_errors::parser_error::ParserError;
use streams::stream::Stream;
use winnow_core::parser::Parser;

/// Runs two parsers in sequence and returns both outputs. It is out of memory only if one of them
/// is.
pub fn read_two_of<I, O1, O2, E, P, Q>(first: P, second: Q, input: &mut I) -> Result<(O1, O2), E>
where
    I: Stream,
    O1: Drop,
    E: ParserError<I>,
    P: Parser<I, O1, E> + Drop,
    Q: Parser<I, O2, E> + Drop,
    requires first { CanRead (P.can_parse first) (P.terms.claim (P.state first)) }
    requires second { CanRead (Q.can_parse second) (Q.terms.claim (Q.state second)) }
    ensures ran { (t : P.State × Q.State) × Ran I.reading (BothDo pair P.does Q.does) E.form
        (P.state first, Q.state second) (I.view input.old) (answer_by E.kind result) t
        (I.view input.new) }
    ensures reads { Reads I.reading E.kind
        (Both pair (P.terms.claim (P.state first)).grammar (Q.terms.claim (Q.state second)).grammar)
        (I.view input.old) result (I.view input.new) }
    ensures spared { (P.terms.claim (P.state first)).spares_memory
        → (Q.terms.claim (Q.state second)).spares_memory → IsSpared E.kind (I.view input.old) result }
{
    (first, second).read(input)
}

/// Runs four parsers in sequence and returns all outputs. It is out of memory only if one of them
/// is.
pub fn read_four_of<I, O1, O2, O3, O4, E, P, Q, R, S>(
    first: P,
    second: Q,
    third: R,
    fourth: S,
    input: &mut I,
) -> Result<(O1, O2, O3, O4), E>
where
    I: Stream,
    O1: Drop,
    O2: Drop,
    O3: Drop,
    E: ParserError<I>,
    P: Parser<I, O1, E> + Drop,
    Q: Parser<I, O2, E> + Drop,
    R: Parser<I, O3, E> + Drop,
    S: Parser<I, O4, E> + Drop,
    requires first { CanRead (P.can_parse first) (P.terms.claim (P.state first)) }
    requires second { CanRead (Q.can_parse second) (Q.terms.claim (Q.state second)) }
    requires third { CanRead (R.can_parse third) (R.terms.claim (R.state third)) }
    requires fourth { CanRead (S.can_parse fourth) (S.terms.claim (S.state fourth)) }
    ensures ran { (t : P.State × Q.State × R.State × S.State)
        × Ran I.reading (SequenceDoes4 P.does Q.does R.does S.does) E.form
        (P.state first, Q.state second, R.state third, S.state fourth) (I.view input.old)
        (answer_by E.kind result) t (I.view input.new) }
    ensures reads { Reads I.reading E.kind
        (Four (P.terms.claim (P.state first)).grammar (Q.terms.claim (Q.state second)).grammar
        (R.terms.claim (R.state third)).grammar (S.terms.claim (S.state fourth)).grammar)
        (I.view input.old) result (I.view input.new) }
    ensures spared { (P.terms.claim (P.state first)).spares_memory
        → (Q.terms.claim (Q.state second)).spares_memory
        → (R.terms.claim (R.state third)).spares_memory
        → (S.terms.claim (S.state fourth)).spares_memory → IsSpared E.kind (I.view input.old) result }
{
    (first, second, third, fourth).read(input)
}
