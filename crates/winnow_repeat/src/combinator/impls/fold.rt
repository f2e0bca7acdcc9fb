//! Repetition whose outputs a closure folds into a value.
ghost use Rattle.parser_definitions.specs.Does.{Ran};
ghost use Rattle.std.specs.Prelude.{◌≡◌, ⊤, ◌<◌, true};
ghost use Rattle.streams.specs.Kind.{backtrack};
ghost use Rattle.stream_sets.specs.Range.{IsWithin, bounds_of};
ghost use Rattle.stream_sets.specs.declared.range.Range.{Range};
ghost use Rattle.grammars.specs.Grammar.Folded.{FoldOf, Folded, StaysFolding, StaysMaking};
ghost use Rattle.grammars.specs.Grammar.Unique.{repeated_take};
ghost use Rattle.stream_errors.specs.Form.{answer_by, modal};
ghost use Rattle.winnow_repeat.specs.Fold.{fold_closure};
ghost use Rattle.parser_definitions.specs.Closures.{folding, folding_in};
ghost use Rattle.parser_definitions.specs.Fold.{FoldDoes, FoldsAlike, MakesOne, closures, fold_law};
ghost use Rattle.parser_definitions.specs.Fold.{with_closures};
ghost use Rattle.parser_definitions.specs.Repeat.{OneOrMore};
ghost use Rattle.parser_definitions.specs.Then.Steps.{first, with_first};
ghost use Rattle.parser_definitions.specs.Folding.{Built};
ghost use Rattle.parser_definitions.specs.Projects.Gathers.{fold_projects};

use crate::combinator::folding::{Folding, fold_items, fold_range};
use crate::combinator::items::parse_item;
use std::marker::PhantomData;
use stream_errors::parser_error::ParserError;
use stream_sets::range::Range;
use streams::stream::Stream;
use winnow_core::parser::Parser;

/// A closure that folds each output into a value.
#[derive(Drop)]
pub(crate) struct Always<H> {
    pub(crate) closure: H,
}

impl<H: FnMut(R, O) -> R, I: Stream, O, R, E: ParserError<I>> Folding<I, O, R, E> for Always<H> {
    type Reason = ();

    ghost can_fold = { λ s. H.IsAlwaysCallable s.closure };

    ghost State = { H };

    ghost state = { λ s. s.closure };

    ghost takes = { H.step };

    ghost rejects = { λ h r o k. ⊥ };

    ghost grows = { λ h r o. ⊥ };

    ghost refuses = { λ _ k. k ≡ backtrack };

    #[inline(always)]
    fn fold(&mut self, value: R, output: O) -> Result<R, ()> {
        Ok((self.closure)(value, output))
    }

    #[inline(always)]
    fn error(_refusal: (), input: &I) -> E {
        E::from_input(input)
    }
}

/// The parser that [`Repeat::fold`](crate::combinator::impls::Repeat::fold) makes.
///
/// ```
/// let letters = repeat(alloc, 0.., 'a');
/// let mut count = letters.fold(|| 0_u32, |sum: u32, _: char| sum + 1);
/// assert_eq!(rt; count.parse_peek("aab"), Ok::<_, EmptyError>(("b", 2)));
/// ```
#[derive(Drop)]
pub struct RepeatFold<P, G, H, I, O, R, E> {
    pub(crate) occurrences: Range,
    pub(crate) parser: P,
    pub(crate) init: G,
    pub(crate) op: Always<H>,
    pub(crate) marker: PhantomData<(I, O, R, E)>,
}

impl<P, G, H, I, O, R, E> RepeatFold<P, G, H, I, O, R, E> {
    #[inline(always)]
    pub(crate) fn new(
        occurrences: Range,
        parser: P,
        init: G,
        op: H,
    ) -> RepeatFold<P, G, H, I, O, R, E>
        ensures occurrences { result.occurrences ≡ occurrences }
        ensures parser { result.parser ≡ parser }
        ensures init { result.init ≡ init }
        ensures op { fold_closure result ≡ op }
    {
        RepeatFold {
            occurrences,
            parser,
            init,
            op: Always { closure: op },
            marker: PhantomData,
        }
    }
}

impl<
    P: Parser<I, O, E>,
    G: FnMut() -> R,
    H: FnMut(R, O) -> R,
    I: Stream,
    O: Drop,
    R: Drop,
    E: ParserError<I>,
> Parser<I, R, E> for RepeatFold<P, G, H, I, O, R, E> {
    ghost can_parse = { λ s. P.can_parse s.parser × G.IsAlwaysCallable s.init
        × H.IsAlwaysCallable s.op.closure };

    ghost State = { P.State × (Range × (G × H)) };

    ghost state = { λ s. (P.state s.parser, (s.occurrences, (s.init, s.op.closure))) };

    ghost does = { FoldDoes G.step H.step P.does };

    ghost terms = { record {
      premise = P.terms.premise × MakesOne G.step
          × FoldsAlike (λ _ _. ⊤) (Built (folding G.step H.step) P.terms.alike) P.terms.alike
          H.step;
      stable = P.terms.stable;
      alike = Built (folding G.step H.step) P.terms.alike;
      claim = λ s. record {
        premise = (P.terms.claim s.0).premise × (P.terms.claim s.0).backtracks
            × (P.terms.claim s.0).consumes
            × IsWithin (bounds_of s.1.0).greatest (bounds_of s.1.0).least
            × StaysMaking G.step s.1.1.0 × StaysFolding H.step s.1.1.1;
        backtracks = ⊤;
        spares_memory = (P.terms.claim s.0).spares_memory;
        consumes = 0 < (bounds_of s.1.0).least;
        grammar = Folded G.step s.1.1.0 H.step s.1.1.1 s.1.0 (P.terms.claim s.0).grammar;
      };
    } };

    ghost lawful = { record {
      law = λ is. fold_law G.step H.step is.1 is.2 (P.lawful.law is.0);
      claimed = λ s. record {
        projects = λ at is. fold_projects G.step H.step ((P.lawful.claimed s.0).projects at is.0)
            is.1
            ((P.lawful.claimed s.0).takes is.0 is.2) is.3 is.4 is.5;
        takes = λ is some. repeated_take (FoldOf G.step s.1.1.0 H.step s.1.1.1) s.1.0
            ((P.lawful.claimed s.0).projects (record { form = modal; possible = true }) is.0).unique
            ((P.lawful.claimed s.0).takes is.0 is.2) some;
      };
    } };

    #[inline(always)]
    fn parse_next(&mut self, input: &mut I) -> Result<R, E> {
        if self.occurrences.start_inclusive == 1 && self.occurrences.greatest().is_none() {
            fold_one(&mut self.parser, &mut self.init, &mut self.op, input)
        } else {
            fold_range(
                self.occurrences,
                &mut self.parser,
                &mut self.init,
                &mut self.op,
                input,
            )
        }
    }
}

/// Folds one or more items: the value is created after the first.
#[inline(always)]
fn fold_one<
    P: Parser<I, O, E>,
    G: FnMut() -> R,
    H: FnMut(R, O) -> R,
    I: Stream,
    O: Drop,
    R: Drop,
    E: ParserError<I>,
>(parser: &mut P, init: &mut G, op: &mut Always<H>, input: &mut I) -> Result<R, E>
    requires parser { P.can_parse parser.old }
    requires init { G.IsAlwaysCallable init.old }
    requires op { H.IsAlwaysCallable op.old.closure }
    ensures again { P.can_parse parser.new × G.IsAlwaysCallable init.new
        × H.IsAlwaysCallable op.new.closure }
    ensures ran { (range : Range) → Ran I.reading (OneOrMore first with_first
        (folding_in closures with_closures (folding G.step H.step)) P.does) E.form
        (P.state parser.old, (range, (init.old, op.old.closure))) (I.view input.old)
        (answer_by E.kind result) (P.state parser.new, (range, (init.new, op.new.closure)))
        (I.view input.new) }
{
    let start = input.checkpoint();
    let first = parse_item(parser, input, &start)?;
    let value = init();
    let value = (op.closure)(value, first);
    fold_items(value, 0, None, parser, op, input)
}
