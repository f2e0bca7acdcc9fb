//! Examples of choices: among borrowed branches, and by a grammar.
#![tactic(auto)]

ghost use Rattle.winnow.specs.Does.{Ran};
ghost use Rattle.std.specs.Prelude.{◌≡◌, List, [], map};
ghost use Rattle.std.specs.List.{All};
ghost use Rattle.example_callers.specs.Words.{Sign};
ghost use Rattle.winnow.specs.Bytes.{bytes_input, bytes_reading};
ghost use Rattle.winnow.specs.Form.{answer_by};
ghost use Rattle.winnow.specs.AltMany.{ChoiceDoes};
ghost use Rattle.winnow.specs.Exact.{Reads};
ghost use Rattle.winnow.specs.Grammar.FirstOf.{FirstOf};

use winnow::Parser;
use winnow::combinator::alt;
use winnow::error::{EmptyError, HasKind, ParserError};
use winnow::stream::Stream;

/// Chooses among branches that stay with their owner. The outcome is that of a choice among their
/// states.
pub fn choose_among<P: Parser<I, O, E>, I: Stream, O, E: ParserError<I>>(
    branches: &mut [P],
    input: &mut I,
) -> Result<O, E>
    requires { All P.can_parse branches.old }
    ensures { (t : List P.State) × Ran I.reading (ChoiceDoes P.does) E.form
        (map P.state branches.old) (I.view input.old) (answer_by E.kind result) t
        (I.view input.new) }
{
    alt(&mut *branches).parse_next(input)
}

/// Runs the first of `branches` whose grammar the input starts with. Backtracks if there is no such
/// branch. Otherwise an error is out of memory.
pub fn read_among<P: Parser<I, O, E>, I: Stream, O, E: ParserError<I>>(
    branches: &mut [P],
    input: &mut I,
) -> Result<O, E>
    requires callable { All P.can_parse branches.old }
    requires known { All (λ s. (P.terms.claim s).premise × (P.terms.claim s).backtracks)
        (map P.state branches.old) }
    requires some { map P.state branches.old ≡ [] → ⊥ }
    ensures { Reads I.reading E.kind (FirstOf (λ s. (P.terms.claim s).grammar)
        (map P.state branches.old)) (I.view input.old) result (I.view input.new) }
{
    alt(&mut *branches).read(input)
}

/// Parses a sign, `+` or `-`. Backtracks if the input starts with neither.
///
/// ```
/// use example_callers::choices::sign;
///
/// let mut input = b"-7".as_slice();
/// assert_eq!(rt; sign(&mut input), Ok(b'-'));
/// assert_eq!(rt; input, b"7".as_slice());
/// assert!(rt; sign(&mut input).is_err());
/// ```
pub fn sign<'i>(input: &mut &'i [u8]) -> Result<u8, EmptyError>
    ensures { Reads bytes_reading ⟦<EmptyError as HasKind>⟧.kind Sign (bytes_input input.old.now)
        result (bytes_input input.new.now) }
{
    alt([b'+', b'-']).read(input)
}
