//! Parsers that are tried again after what could not be parsed.
#![tactic(auto, using(streams::specs::Ends::ends_follow))]

ghost use Rattle.std.specs.Prelude.{◌≡◌, true};
ghost use Rattle.stream_errors.specs.Form.{answer_by};
ghost use Rattle.winnow_recovery.specs.Recovery.{recovery_of};
ghost use Rattle.winnow_recovery.specs.RetryAfter.{retry_after_parser, retry_after_recover};
ghost use Rattle.parser_definitions.specs.Terms.{no_claim, nothing_claimed};
ghost use Rattle.std.proofs.Common.{refl};
ghost use Rattle.parser_definitions.specs.Does.{Ran, wider_law};
ghost use Rattle.parser_definitions.specs.Recover.{NeverAsks, Recovery};
ghost use Rattle.parser_definitions.specs.Retry.{RetryAfterDoes, RetryDoes, retry_after_law};

use crate::combinator::{can_recover, recover_from};
use std::marker::PhantomData;
use stream_errors::parser_error::ParserError;
use stream_errors::recover::Recover;
use stream_errors::recoverable::FromRecoverableError;
use winnow_core::parser::Parser;

/// The parser that [`RecoveringParser::retry_after`](crate::parser::RecoveringParser::retry_after)
/// returns.
///
/// Over a stream that records errors it tries its parser until that succeeds. A try that backtracks
/// or cuts leaves the input where it failed, and the recovering parser is run there. If that
/// succeeds and consumes input, the error is recorded and the parser is tried again.
///
/// If it fails, or consumes nothing, the input is reset to where the error arose, and that error is
/// returned. If it, or the list of errors, fails to allocate, the input is reset too, and the error
/// is out of memory. If the parser itself fails with incomplete or out of memory, that error is
/// returned unchanged.
///
/// Over another stream only the parser is run.
///
/// ```
/// let mut input: Recoverable<&str, EmptyError> = Recoverable::new(alloc, "ab,12");
/// let mut number = Digit1.retry_after((take_till(0.., ','), ',').void());
/// assert_eq!(rt; number.parse_next(&mut input), Ok::<_, EmptyError>("12"));
/// let (_, errors) = input.into_parts();
/// assert_eq!(rt; errors.len(), 1);
/// ```
#[derive(Drop)]
pub struct RetryAfter<P, R, I, O, E> {
    pub(crate) parser: P,
    pub(crate) recover: R,
    pub(crate) marker: PhantomData<(I, O, E)>,
}

impl<P, R, I, O, E> RetryAfter<P, R, I, O, E> {
    #[inline(always)]
    pub(crate) fn new(parser: P, recover: R) -> RetryAfter<P, R, I, O, E>
        ensures parser { retry_after_parser result ≡ parser }
        ensures recover { retry_after_recover result ≡ recover }
    {
        RetryAfter {
            parser,
            recover,
            marker: PhantomData,
        }
    }
}

impl<
    P: Parser<I, O, E>,
    R: Parser<I, (), E>,
    I: Recover<E>,
    O,
    E: ParserError<I> + FromRecoverableError<I, E>,
> Parser<I, O, E> for RetryAfter<P, R, I, O, E> {
    ghost can_parse = { λ s. P.can_parse s.parser × R.can_parse s.recover };

    ghost State = { P.State × R.State × Recovery };

    ghost state = { λ s. (
      P.state s.parser,
      R.state s.recover,
      recovery_of I.supports_recovery E.recoverable_grows,
    ) };

    ghost does = { RetryAfterDoes P.does R.does };

    ghost terms = { record {
      premise = P.terms.premise × R.terms.premise;
      stable = P.terms.stable × (R.terms.stable × NeverAsks R.does);
      alike = P.terms.alike;
      claim = λ _. no_claim;
    } };

    ghost lawful = { record {
      law = λ is. retry_after_law (P.lawful.law is.0)
          (wider_law (λ o p like. refl) (R.lawful.law is.1));
      claimed = λ _. nothing_claimed;
    } };

    #[inline]
    fn parse_next(&mut self, input: &mut I) -> Result<O, E> {
        if I::is_recovery_supported() {
            retry(&mut self.parser, &mut self.recover, input)
        } else {
            self.parser.parse_next(input)
        }
    }
}

/// Tries a parser until it succeeds, or does not recover.
fn retry<
    P: Parser<I, O, E>,
    R: Parser<I, (), E>,
    I: Recover<E>,
    O,
    E: ParserError<I> + FromRecoverableError<I, E>,
>(parser: &mut P, recover: &mut R, input: &mut I) -> Result<O, E>
    requires parser { P.can_parse parser.old }
    requires recover { R.can_parse recover.old }
    requires records { I.supports_recovery ≡ true }
    ensures again { P.can_parse parser.new × R.can_parse recover.new }
    ensures ran { Ran I.reading
        (λ at. RetryDoes E.recoverable_grows P.does R.does at) E.form
        (P.state parser.old, R.state recover.old) (I.view input.old)
        (answer_by E.kind result) (P.state parser.new, R.state recover.new) (I.view input.new) }
{
    'tries: loop {
        let start = input.checkpoint();
        match parser.parse_next(input) {
            Ok(output) => return Ok(output),
            Err(error) => {
                if !can_recover::<I, E>(&error) {
                    return Err(error);
                }
                match recover_from(recover, true, &start, error, input) {
                    Ok(()) => {}
                    Err(refused) => return Err(refused),
                }
            }
        }
    }
}
