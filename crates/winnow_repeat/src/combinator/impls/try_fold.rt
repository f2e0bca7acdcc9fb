//! Repetition whose outputs are folded into a value by a closure that may fail.
ghost use Rattle.std.specs.Prelude.{◌≡◌, Err, IsTrue, Ok};
ghost use Rattle.stream_errors.specs.Given.{Keeping, KindGiven};
ghost use Rattle.stream_sets.specs.declared.range.Range.{Range};
ghost use Rattle.streams.specs.Kind.{backtrack};
ghost use Rattle.winnow_repeat.specs.TryFold.{try_fold_closure};
ghost use Rattle.parser_definitions.specs.Terms.{no_claim, nothing_claimed};
ghost use Rattle.parser_definitions.specs.Closures.{trying};
ghost use Rattle.parser_definitions.specs.Fold.{BothOrFail, FoldsAlike, MakesOne, TryFoldDoes};
ghost use Rattle.parser_definitions.specs.Fold.{try_fold_law};
ghost use Rattle.parser_definitions.specs.Folding.{Built};

use crate::combinator::folding::{Folding, fold_range};
use std::marker::PhantomData;
use stream_errors::external::FromExternalError;
use stream_errors::parser_error::ParserError;
use stream_sets::range::Range;
use streams::stream::Stream;
use winnow_core::parser::Parser;

/// A closure that folds each output into a value, or fails.
#[derive(Drop)]
pub(crate) struct Tried<H, X> {
    pub(crate) closure: H,
    pub(crate) error: PhantomData<X>,
}

impl<
    H: FnMut(R, O) -> Result<R, X>,
    I: Stream,
    O,
    R,
    E: ParserError<I> + FromExternalError<I, X>,
    X,
> Folding<I, O, R, E> for Tried<H, X> {
    type Reason = X;

    ghost can_fold = { λ s. H.IsAlwaysCallable s.closure };

    ghost State = { H × (X → Keeping) };

    ghost state = { λ s. (s.closure, E.external_gives) };

    ghost takes = { λ h r o d k. H.step h.0 r o (Ok d) k.0 × (k.1 ≡ h.1) };

    ghost rejects = { λ h r o k. (x : X) × H.step h.0 r o (Err x) k.0 × IsTrue (h.1 x).kept
        × (k.1 ≡ h.1) };

    ghost grows = { λ h r o. (x : X) × (k : H) × H.step h.0 r o (Err x) k
        × IsTrue (h.1 x).refused };

    ghost refuses = { λ refusal k. KindGiven (E.external_gives refusal) backtrack k };

    #[inline(always)]
    fn fold(&mut self, value: R, output: O) -> Result<R, X> {
        (self.closure)(value, output)
    }

    #[inline(always)]
    fn error(refusal: X, input: &I) -> E {
        E::from_external_error(input, refusal)
    }
}

/// The parser that [`Repeat::try_fold`](crate::combinator::impls::Repeat::try_fold) makes.
///
/// ```
/// let letters = repeat(alloc, 0.., 'a');
/// let mut count = letters.try_fold(|| 0_u32, |sum: u32, _: char| match sum {
///     2 => Err("too many"),
///     _ => Ok(sum + 1),
/// });
/// assert_eq!(rt; count.parse_peek("aab"), Ok::<_, EmptyError>(("b", 2)));
/// ```
#[derive(Drop)]
pub struct RepeatTryFold<P, G, H, I, O, R, E, X> {
    pub(crate) occurrences: Range,
    pub(crate) parser: P,
    pub(crate) init: G,
    pub(crate) op: Tried<H, X>,
    pub(crate) marker: PhantomData<(I, O, R, E)>,
}

impl<P, G, H, I, O, R, E, X> RepeatTryFold<P, G, H, I, O, R, E, X> {
    #[inline(always)]
    pub(crate) fn new(
        occurrences: Range,
        parser: P,
        init: G,
        op: H,
    ) -> RepeatTryFold<P, G, H, I, O, R, E, X>
        ensures occurrences { result.occurrences ≡ occurrences }
        ensures parser { result.parser ≡ parser }
        ensures init { result.init ≡ init }
        ensures op { try_fold_closure result ≡ op }
    {
        RepeatTryFold {
            occurrences,
            parser,
            init,
            op: Tried {
                closure: op,
                error: PhantomData,
            },
            marker: PhantomData,
        }
    }
}

impl<
    P: Parser<I, O, E>,
    G: FnMut() -> R,
    H: FnMut(R, O) -> Result<R, X>,
    I: Stream,
    O: Drop,
    R: Drop,
    E: ParserError<I> + FromExternalError<I, X>,
    X,
> Parser<I, R, E> for RepeatTryFold<P, G, H, I, O, R, E, X> {
    ghost can_parse = { λ s. P.can_parse s.parser × G.IsAlwaysCallable s.init
        × H.IsAlwaysCallable s.op.closure };

    ghost State = { P.State × (Range × (G × (H × (X → Keeping)))) };

    ghost state = { λ s.
        (P.state s.parser, (s.occurrences, (s.init, (s.op.closure, E.external_gives)))) };

    ghost does = { TryFoldDoes G.step H.step P.does };

    ghost terms = { record {
      premise = P.terms.premise × MakesOne G.step
          × FoldsAlike BothOrFail (Built (trying G.step H.step) P.terms.alike)
          P.terms.alike H.step;
      stable = P.terms.stable;
      alike = Built (trying G.step H.step) P.terms.alike;
      claim = λ _. no_claim;
    } };

    ghost lawful = { record {
      law = λ is. try_fold_law G.step H.step is.1 is.2 (P.lawful.law is.0);
      claimed = λ _. nothing_claimed;
    } };

    fn parse_next(&mut self, input: &mut I) -> Result<R, E> {
        fold_range(
            self.occurrences,
            &mut self.parser,
            &mut self.init,
            &mut self.op,
            input,
        )
    }
}
