//! The parser of a rule with a function that parses incremental input.
ghost use Rattle.parser_definitions.specs.Does.{Lawful};
ghost use Rattle.parser_definitions.specs.Outcome.{Does};
ghost use Rattle.parser_definitions.specs.Projects.{Complete, Reads};
ghost use Rattle.std.specs.Fn.{CalledAtMut};
ghost use Rattle.std.specs.Prelude.{◌≡◌, ⊤};
ghost use Rattle.winnow_grammar.specs.RulePieces.{CallsTell};

use crate::rule::Rule;
use stream_errors::parser_error::ParserError;
use streams::stream::Stream;
use winnow_core::parser::Parser;

/// A rule whose function also parses incremental input: its calls have the outcomes of the rule's
/// definition.
pub trait RuleInPieces<I: Stream, O>: Rule<I, O> {
    // The outcomes of a call, from the rule, which stays.
    ghost does: { Does Self I.Seen O };

    // Which outputs are equal.
    ghost alike: { O → O → Type 0 };

    /// Does nothing.
    #[doc(hidden)]
    #[inline(always)]
    fn pieces() {}

    // The tokens determine the outcome, and a final outcome stays where more tokens follow.
    ghost lawful: { Lawful ⊤ alike does };

    // On complete input an outcome agrees with the grammar, and is no cut.
    ghost reads: { (at : Complete) → (r : Self) → Reads ⊤ ⊥ does at r (Self.grammar r) };
}

/// The parser that [`Rule::by_pieces`] makes.
#[derive(Clone, Copy, Drop)]
pub struct ByPieces<N, F> {
    rule: N,
    run: F,
}

impl<N, F> ByPieces<N, F> {
    #[inline(always)]
    pub(crate) fn new(rule: N, run: F) -> Self
        ensures rule { result.rule ≡ rule }
        ensures run { result.run ≡ run }
    {
        ByPieces { rule, run }
    }
}

// Its definition is that of the rule, and not the calls of the function: no contract says that
// a longer input could be handed to it, and the rule's definition is about each.
impl<
    N: RuleInPieces<I, O>,
    F: FnMut(&mut I) -> Result<O, E>,
    I: Stream,
    O,
    E: ParserError<I>,
> Parser<I, O, E> for ByPieces<N, F> {
    ghost can_parse = { λ s. F.IsAlwaysCallable s.run
        × CallsTell I.reading I.view E.kind E.form (CalledAtMut F.FnMut) N.does s.rule s.run };

    ghost State = { N };

    ghost state = { λ s. s.rule };

    ghost does = { N.does };

    ghost terms = { record {
      premise = ⊤;
      stable = ⊤;
      alike = N.alike;
      claim = λ s. record {
        premise = ⊤;
        backtracks = ⊤;
        spares_memory = ⊥;
        consumes = N.consumes s;
        grammar = N.grammar s;
      };
    } };

    ghost lawful = { record {
      law = λ is. N.lawful;
      claimed = λ s. record {
        projects = λ at is. record { reads = N.reads at s; unique = N.unique s };
        takes = λ is some. N.takes s some;
      };
    } };

    #[inline(always)]
    fn parse_next(&mut self, input: &mut I) -> Result<O, E> {
        (self.run)(input)
    }
}
