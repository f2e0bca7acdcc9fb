//! Parsers that resume after an error.
#![tactic(auto, using(streams::specs::Ends::ends_follow))]

ghost use Rattle.std.specs.Prelude.{◌≡◌, true};
ghost use Rattle.stream_errors.specs.Form.{answer_by};
ghost use Rattle.winnow_recovery.specs.Recovery.{recovery_of};
ghost use Rattle.winnow_recovery.specs.ResumeAfter.{resume_after_parser, resume_after_recover};
ghost use Rattle.parser_definitions.specs.Terms.{no_claim, nothing_claimed};
ghost use Rattle.std.proofs.Common.{refl};
ghost use Rattle.parser_definitions.specs.Does.{Ran, wider_law};
ghost use Rattle.parser_definitions.specs.Equal.{AlikeOptions};
ghost use Rattle.parser_definitions.specs.Recover.{NeverAsks, Recovery};
ghost use Rattle.parser_definitions.specs.Resume.{ResumeAfterDoes, ResumeDoes, resume_after_law};

use crate::combinator::{can_recover, recover_from};
use std::marker::PhantomData;
use stream_errors::parser_error::ParserError;
use stream_errors::recover::Recover;
use stream_errors::recoverable::FromRecoverableError;
use winnow_core::parser::Parser;

/// The parser that
/// [`RecoveringParser::resume_after`](crate::parser::RecoveringParser::resume_after) returns.
///
/// Over a stream that records errors it runs its parser once, and returns its output in `Some`. An
/// error that backtracks or cuts leaves the input where it arose, and the recovering parser is run
/// there. If that succeeds, whether it consumes or not, the error is recorded, and the output is
/// `None`.
///
/// If it fails, the input is reset to where the error arose, and that error is returned. If it, or
/// the list of errors, fails to allocate, the input is reset too, and the error is out of memory.
/// If the parser itself fails with incomplete or out of memory, that error is returned unchanged.
///
/// Over another stream only the parser is run, and its output is returned in `Some`.
///
/// ```
/// let mut input: Recoverable<&str, EmptyError> = Recoverable::new(alloc, "x,2");
/// let number = Digit1.resume_after(take_till(0.., ',').void());
/// let mut numbers = (number, ',', Digit1);
/// assert_eq!(rt; numbers.parse_next(&mut input), Ok::<_, EmptyError>((None, ',', "2")));
/// let (_, errors) = input.into_parts();
/// assert_eq!(rt; errors.len(), 1);
/// ```
#[derive(Drop)]
pub struct ResumeAfter<P, R, I, O, E> {
    pub(crate) parser: P,
    pub(crate) recover: R,
    pub(crate) marker: PhantomData<(I, O, E)>,
}

impl<P, R, I, O, E> ResumeAfter<P, R, I, O, E> {
    #[inline(always)]
    pub(crate) fn new(parser: P, recover: R) -> ResumeAfter<P, R, I, O, E>
        ensures parser { resume_after_parser result ≡ parser }
        ensures recover { resume_after_recover result ≡ recover }
    {
        ResumeAfter {
            parser,
            recover,
            marker: PhantomData,
        }
    }
}

impl<
    P: Parser<I, O, E>,
    R: Parser<I, (), E>,
    I: Recover<E>,
    O,
    E: ParserError<I> + FromRecoverableError<I, E>,
> Parser<I, Option<O>, E> for ResumeAfter<P, R, I, O, E> {
    ghost can_parse = { λ s. P.can_parse s.parser × R.can_parse s.recover };

    ghost State = { P.State × R.State × Recovery };

    ghost state = { λ s. (
      P.state s.parser,
      R.state s.recover,
      recovery_of I.supports_recovery E.recoverable_grows,
    ) };

    ghost does = { ResumeAfterDoes P.does R.does };

    ghost terms = { record {
      premise = P.terms.premise × R.terms.premise;
      stable = P.terms.stable × (R.terms.stable × NeverAsks R.does);
      alike = AlikeOptions P.terms.alike;
      claim = λ _. no_claim;
    } };

    ghost lawful = { record {
      law = λ is. resume_after_law (P.lawful.law is.0)
          (wider_law (λ o p like. refl) (R.lawful.law is.1));
      claimed = λ _. nothing_claimed;
    } };

    #[inline]
    fn parse_next(&mut self, input: &mut I) -> Result<Option<O>, E> {
        if I::is_recovery_supported() {
            resume(&mut self.parser, &mut self.recover, input)
        } else {
            match self.parser.parse_next(input) {
                Ok(output) => Ok(Some(output)),
                Err(error) => Err(error),
            }
        }
    }
}

/// Runs a parser, and the one that recovers where that fails.
fn resume<
    P: Parser<I, O, E>,
    R: Parser<I, (), E>,
    I: Recover<E>,
    O,
    E: ParserError<I> + FromRecoverableError<I, E>,
>(parser: &mut P, recover: &mut R, input: &mut I) -> Result<Option<O>, E>
    requires parser { P.can_parse parser.old }
    requires recover { R.can_parse recover.old }
    requires records { I.supports_recovery ≡ true }
    ensures again { P.can_parse parser.new × R.can_parse recover.new }
    ensures ran { Ran I.reading (ResumeDoes E.recoverable_grows P.does R.does) E.form
        (P.state parser.old, R.state recover.old) (I.view input.old)
        (answer_by E.kind result) (P.state parser.new, R.state recover.new) (I.view input.new) }
{
    let start = input.checkpoint();
    match parser.parse_next(input) {
        Ok(output) => Ok(Some(output)),
        Err(error) => {
            if !can_recover::<I, E>(&error) {
                return Err(error);
            }
            match recover_from(recover, false, &start, error, input) {
                Ok(()) => Ok(None),
                Err(refused) => Err(refused),
            }
        }
    }
}
