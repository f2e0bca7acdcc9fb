//! The implementation of `verify_fold`.
ghost use Rattle.std.specs.Prelude.{◌≡◌, None, Some};
ghost use Rattle.stream_sets.specs.declared.range.Range.{Range};
ghost use Rattle.streams.specs.Kind.{backtrack};
ghost use Rattle.winnow_repeat.specs.VerifyFold.{verify_fold_closure};
ghost use Rattle.parser_definitions.specs.Terms.{no_claim, nothing_claimed};
ghost use Rattle.parser_definitions.specs.Closures.{verifying};
ghost use Rattle.parser_definitions.specs.Fold.{BothOrNone, FoldsAlike, MakesOne, VerifyFoldDoes};
ghost use Rattle.parser_definitions.specs.Fold.{verify_fold_law};
ghost use Rattle.parser_definitions.specs.Folding.{Built};

use crate::combinator::folding::{Folding, fold_range};
use std::marker::PhantomData;
use stream_errors::parser_error::ParserError;
use stream_sets::range::Range;
use streams::stream::Stream;
use winnow_core::parser::Parser;

/// A closure that folds each output into a value, or rejects it.
#[derive(Drop)]
pub(crate) struct Verified<H> {
    pub(crate) closure: H,
}

impl<H: FnMut(R, O) -> Option<R>, I: Stream, O, R, E: ParserError<I>> Folding<I, O, R, E>
    for Verified<H> {
    type Reason = ();

    ghost can_fold = { λ s. H.IsAlwaysCallable s.closure };

    ghost State = { H };

    ghost state = { λ s. s.closure };

    ghost takes = { λ h r o d k. H.step h r o (Some d) k };

    ghost rejects = { λ h r o k. H.step h r o None k };

    ghost grows = { λ h r o. ⊥ };

    ghost refuses = { λ _ k. k ≡ backtrack };

    #[inline(always)]
    fn fold(&mut self, value: R, output: O) -> Result<R, ()> {
        match (self.closure)(value, output) {
            Some(more) => Ok(more),
            None => Err(()),
        }
    }

    #[inline(always)]
    fn error(_refusal: (), input: &I) -> E {
        E::from_input(input)
    }
}

/// The parser that [`Repeat::verify_fold`](crate::combinator::impls::Repeat::verify_fold) makes.
///
/// ```
/// let letters = repeat(alloc, 0.., 'a');
/// let mut count = letters.verify_fold(|| 0_u32, |sum: u32, _: char| sum.checked_add(1));
/// assert_eq!(rt; count.parse_peek("aab"), Ok::<_, EmptyError>(("b", 2)));
/// ```
#[derive(Drop)]
pub struct RepeatVerifyFold<P, G, H, I, O, R, E> {
    pub(crate) occurrences: Range,
    pub(crate) parser: P,
    pub(crate) init: G,
    pub(crate) op: Verified<H>,
    pub(crate) marker: PhantomData<(I, O, R, E)>,
}

impl<P, G, H, I, O, R, E> RepeatVerifyFold<P, G, H, I, O, R, E> {
    #[inline(always)]
    pub(crate) fn new(
        occurrences: Range,
        parser: P,
        init: G,
        op: H,
    ) -> RepeatVerifyFold<P, G, H, I, O, R, E>
        ensures occurrences { result.occurrences ≡ occurrences }
        ensures parser { result.parser ≡ parser }
        ensures init { result.init ≡ init }
        ensures op { verify_fold_closure result ≡ op }
    {
        RepeatVerifyFold {
            occurrences,
            parser,
            init,
            op: Verified { closure: op },
            marker: PhantomData,
        }
    }
}

impl<
    P: Parser<I, O, E>,
    G: FnMut() -> R,
    H: FnMut(R, O) -> Option<R>,
    I: Stream,
    O: Drop,
    R: Drop,
    E: ParserError<I>,
> Parser<I, R, E> for RepeatVerifyFold<P, G, H, I, O, R, E> {
    ghost can_parse = { λ s. P.can_parse s.parser × G.IsAlwaysCallable s.init
        × H.IsAlwaysCallable s.op.closure };

    ghost State = { P.State × (Range × (G × H)) };

    ghost state = { λ s. (P.state s.parser, (s.occurrences, (s.init, s.op.closure))) };

    ghost does = { VerifyFoldDoes G.step H.step P.does };

    ghost terms = { record {
      premise = P.terms.premise × MakesOne G.step
          × FoldsAlike BothOrNone (Built (verifying G.step H.step) P.terms.alike)
          P.terms.alike H.step;
      stable = P.terms.stable;
      alike = Built (verifying G.step H.step) P.terms.alike;
      claim = λ _. no_claim;
    } };

    ghost lawful = { record {
      law = λ is. verify_fold_law G.step H.step is.1 is.2 (P.lawful.law is.0);
      claimed = λ _. nothing_claimed;
    } };

    fn parse_next(&mut self, input: &mut I) -> Result<R, E> {
        fold_range(
            self.occurrences,
            &mut self.parser,
            &mut self.init,
            &mut self.op,
            input,
        )
    }
}
