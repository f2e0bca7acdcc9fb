//! Arrays and slices as branches.
ghost use Rattle.parser_definitions.specs.Does.{Ran};
ghost use Rattle.grammars.specs.Grammar.FirstOf.{FirstOf};
ghost use Rattle.parser_definitions.specs.AltMany.{ChoiceDoes, choice_law};
ghost use Rattle.parser_definitions.specs.ByRef.{ByRefDoes, by_ref_law};
ghost use Rattle.parser_definitions.specs.Projects.Functions.{by_ref_projects};
ghost use Rattle.parser_definitions.specs.Projects.Items.{choice_claimed};
ghost use Rattle.std.specs.List.{All};
ghost use Rattle.std.specs.Prelude.{◌≡◌, List, map, ℕ, []};
ghost use Rattle.stream_errors.specs.Form.{answer_by};

use crate::combinator::impls::alt::{Alt, attempt, attempt_last};
use stream_errors::parser_error::ParserError;
use streams::stream::Stream;
use winnow_core::parser::Parser;

impl<const N: usize, I: Stream, O, E: ParserError<I>, P: Parser<I, O, E>> Alt<I, O, E> for [P; N] {
    ghost can_choose = { All P.can_parse };

    ghost State = { List P.State };

    ghost state = { λ s. map P.state s };

    ghost does = { ChoiceDoes P.does };

    ghost terms = { record {
      premise = P.terms.premise;
      stable = P.terms.stable;
      alike = P.terms.alike;
      claim = λ s. record {
        premise = All (λ x. (P.terms.claim x).premise × (P.terms.claim x).backtracks) s;
        backtracks = s ≡ [] → ⊥;
        spares_memory = All (λ x. (P.terms.claim x).spares_memory) s;
        consumes = All (λ x. (P.terms.claim x).consumes) s;
        grammar = FirstOf (λ x. (P.terms.claim x).grammar) s;
      };
    } };

    ghost lawful = { record {
      law = λ is. choice_law (P.lawful.law is);
      claimed = choice_claimed P.terms.claim P.lawful.claimed;
    } };

    #[inline(always)]
    fn choice(&mut self, input: &mut I) -> Result<O, E> {
        choose(self, input)
    }
}

impl<'a, I: Stream, O, E: ParserError<I>, P: Parser<I, O, E>> Alt<I, O, E> for &'a mut [P] {
    ghost can_choose = { λ s. All P.can_parse s.now };

    ghost State = { List P.State × ℕ };

    ghost state = { λ s. (map P.state s.now, s.ghost_name) };

    ghost does = { ByRefDoes (ChoiceDoes P.does) };

    ghost terms = { record {
      premise = P.terms.premise;
      stable = P.terms.stable;
      alike = P.terms.alike;
      claim = λ s. record {
        premise = All (λ x. (P.terms.claim x).premise × (P.terms.claim x).backtracks) s.0;
        backtracks = s.0 ≡ [] → ⊥;
        spares_memory = All (λ x. (P.terms.claim x).spares_memory) s.0;
        consumes = All (λ x. (P.terms.claim x).consumes) s.0;
        grammar = FirstOf (λ x. (P.terms.claim x).grammar) s.0;
      };
    } };

    ghost lawful = { record {
      law = λ is. by_ref_law (choice_law (P.lawful.law is));
      claimed = λ s. record {
        projects = λ at is. by_ref_projects
            ((choice_claimed P.terms.claim P.lawful.claimed s.0).projects at is);
        takes = (choice_claimed P.terms.claim P.lawful.claimed s.0).takes;
      };
    } };

    #[inline(always)]
    fn choice(&mut self, input: &mut I) -> Result<O, E> {
        choose(self, input)
    }
}

/// Runs the branches of a slice in order, each from the start.
#[inline(always)]
fn choose<I: Stream, O, E: ParserError<I>, P: Parser<I, O, E>>(
    branches: &mut [P],
    input: &mut I,
) -> Result<O, E>
    requires { All P.can_parse branches.old }
    ensures again { All P.can_parse branches.new }
    ensures ran { Ran I.reading (ChoiceDoes P.does) E.form (map P.state branches.old)
        (I.view input.old) (answer_by E.kind result) (map P.state branches.new)
        (I.view input.new) }
{
    if branches.is_empty() {
        return Err(E::assert(input, "a choice needs at least one branch"));
    }
    let start = input.checkpoint();
    let last = branches.len() - 1;
    let mut failed = None;
    for k in 0..last {
        failed = match attempt(&mut branches[k], input, &start, failed) {
            Ok(answer) => return answer,
            Err(failed) => failed,
        };
    }
    attempt_last(&mut branches[last], input, &start, failed)
}
