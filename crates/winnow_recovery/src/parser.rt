//! Parsers that recover from errors, and whole parses with them.
#![tactic(auto, using(streams::specs::Ends::ends_follow))]

ghost use Rattle.parser_definitions.specs.Does.{Ran};
ghost use Rattle.std.specs.Prelude.{◌≡◌, MatchResult, false};
ghost use Rattle.streams.specs.Input.{back_at};
ghost use Rattle.streams.specs.Kind.{memory};
ghost use Rattle.winnow_recovery.specs.RecoverableParse.{ResetsWithErrors, ComesBackWith, IsBack};
ghost use Rattle.winnow_recovery.specs.RecoverableParse.{RecoverableParses, no_memory_input};
ghost use Rattle.winnow_recovery.specs.ResumeAfter.{resume_after_parser, resume_after_recover};
ghost use Rattle.winnow_recovery.specs.RetryAfter.{retry_after_parser, retry_after_recover};

use crate::combinator::impls::{ResumeAfter, RetryAfter};
use std::alloc::Allocator;
use stream_errors::parser_error::ParserError;
use stream_errors::recover::Recover;
use stream_errors::recoverable::FromRecoverableError;
use stream_recovery::recoverable::Recoverable;
use streams::stream::{Stream, StreamIsPartial};
use winnow_core::parser::Parser;

/// A parser to which recovery from its errors can be added: each [`Parser`] over a stream that
/// declares whether it records errors is one.
///
/// In the crate winnow these are methods of `Parser`. Here that trait is in a crate below the
/// streams that record errors, and it can name neither them nor the structs of this crate.
///
/// ```
/// let mut input: Recoverable<&str, EmptyError> = Recoverable::new(alloc, "a,b,12");
/// // It tries again behind each comma, until there are digits.
/// let mut number = Digit1.retry_after((take_till(0.., ','), ',').void());
/// assert_eq!(rt; number.parse_next(&mut input), Ok::<_, EmptyError>("12"));
/// let (_, errors) = input.into_parts();
/// assert_eq!(rt; errors.len(), 2);
/// ```
pub trait RecoveringParser<
    I: Recover<E>,
    O,
    E: ParserError<I> + FromRecoverableError<I, E>,
>: Parser<I, O, E> {
    /// Tries the parser until it succeeds, and returns the output of that try.
    ///
    /// After a try that backtracks or cuts, `recover` is run. If it succeeds and consumes input,
    /// the error is recorded and the parser is tried again. If it fails, or consumes nothing, the
    /// error is returned, and the input is reset to where it arose. Over a stream that records no
    /// errors only the parser is run.
    #[inline(always)]
    final fn retry_after<R: Parser<I, (), E>>(self, recover: R) -> RetryAfter<Self, R, I, O, E>
        ensures parser { retry_after_parser result ≡ self }
        ensures recover { retry_after_recover result ≡ recover }
    {
        RetryAfter::new(self, recover)
    }

    /// Returns the output in `Some`, or `None` after recovering from an error.
    ///
    /// If the parser backtracks or cuts, `recover` is run. If it succeeds, the error is recorded,
    /// and the output is `None`. If it fails, the error is returned, and the input is reset to
    /// where it arose. Over a stream that records no errors only the parser is run.
    ///
    /// After a recovery there is an output, so no other branch of a choice around the parser is
    /// tried.
    #[inline(always)]
    final fn resume_after<R: Parser<I, (), E>>(self, recover: R) -> ResumeAfter<Self, R, I, O, E>
        ensures parser { resume_after_parser result ≡ self }
        ensures recover { resume_after_recover result ≡ recover }
    {
        ResumeAfter::new(self, recover)
    }
}

impl<
    P: Parser<I, O, E>,
    I: Recover<E>,
    O,
    E: ParserError<I> + FromRecoverableError<I, E>,
> RecoveringParser<I, O, E> for P {}

/// Memory was refused to a whole parse that records errors: the stream, back at its start.
#[derive(Clone, Copy, Debug, PartialEq, Eq, Drop)]
pub struct NoMemory<I>(pub I);

/// A parser that can parse all of an input and return all errors: each [`Parser`] over
/// [`Recoverable`](stream_recovery::recoverable::Recoverable) is one.
///
/// ```
/// type Input<'i> = Recoverable<&'i str, EmptyError>;
/// let mut digits = Digit1.map_err(|error: EmptyError| error);
/// match RecoverableParser::<&str, &str, EmptyError, EmptyError, _>::recoverable_parse(
///     &mut digits,
///     alloc,
///     "12ab",
/// ) {
///     Ok((input, output, errors)) => {
///         assert_eq!(rt; (input, output), ("12ab", Some("12")));
///         assert_eq!(rt; errors.len(), 1);
///     }
///     Err(NoMemory(_)) => assert!(rt; false),
/// }
/// ```
pub trait RecoverableParser<
    I: StreamIsPartial,
    O,
    R: ParserError<Recoverable<I, R, A>> + FromRecoverableError<Recoverable<I, R, A>, E>,
    E: ParserError<Recoverable<I, R, A>>,
    A: Allocator,
>: Parser<Recoverable<I, R, A>, O, E> {
    /// Parses all of `input`: runs the parser, after which no input may remain.
    ///
    /// Returns the input, back at its start, the output if there is one, and all errors that were
    /// recorded, in order. The last is the one that ended the parse, if one did: that of the
    /// parser, or one that backtracks if input remained. If the parser needs more input, which is
    /// complete, its error backtracks instead.
    ///
    /// If an allocation of the parser or of the list of errors fails, only the input is returned.
    /// The stream type must not be partial.
    final fn recoverable_parse(
        &mut self,
        alloc: A,
        input: I,
    ) -> Result<(I, Option<O>, Vec<R, A>), NoMemory<I>>
    where
        O: Drop,
        requires callable { Self.can_parse self.old }
        requires whole { I.supports_partial ≡ false }
        ensures again { Self.can_parse self.new }
        ensures ran { RecoverableParses I.view R.kind (I.view input)
            (λ answer j. Ran I.reading Self.does E.form (Self.state self.old) (I.view input) answer
            (Self.state self.new) j) result }
    {
        let start = input.checkpoint();
        let mut input = Recoverable::new(alloc, input);
        match self.parse_next(&mut input) {
            Ok(output) => {
                if input.eof_offset() == 0 {
                    let (back, errors) = parts_at_start(input, &start);
                    return Ok((back, Some(output), errors));
                }
                let place = input.checkpoint();
                let error = E::from_input(&input);
                ended_by(input, &start, &place, Some(output), error)
            }
            Err(error) => {
                if error.is_incomplete() {
                    let error = E::from_input(&input);
                    return ended_by(input, &start, &start, None, error);
                }
                ended_by(input, &start, &start, None, error)
            }
        }
    }
}

impl<
    P: Parser<Recoverable<I, R, A>, O, E>,
    I: StreamIsPartial,
    O,
    R: ParserError<Recoverable<I, R, A>> + FromRecoverableError<Recoverable<I, R, A>, E>,
    E: ParserError<Recoverable<I, R, A>>,
    A: Allocator,
> RecoverableParser<I, O, R, E, A> for P {}

/// The stream inside, back at its start, and the errors that were recorded.
fn parts_at_start<I: Stream, R: ParserError<Recoverable<I, R, A>>, A: Allocator>(
    input: Recoverable<I, R, A>,
    start: &I::Checkpoint,
) -> (I, Vec<R, A>)
    ensures { ResetsWithErrors I.view R.kind
        (back_at (I.seen start.now) (⟦<Recoverable<I, R, A> as Stream>⟧.view input))
        (⟦<Recoverable<I, R, A> as Stream>⟧.view input) result.0 result.1.items }
{
    let (mut back, errors) = input.into_parts();
    back.reset(start);
    (back, errors)
}

/// Returns the result for an error that ended the parse, which follows the recorded ones.
fn ended_by<
    I: Stream,
    O: Drop,
    R: ParserError<Recoverable<I, R, A>> + FromRecoverableError<Recoverable<I, R, A>, E>,
    E: ParserError<Recoverable<I, R, A>>,
    A: Allocator,
>(
    input: Recoverable<I, R, A>,
    start: &I::Checkpoint,
    token_start: &I::Checkpoint,
    output: Option<O>,
    error: E,
) -> Result<(I, Option<O>, Vec<R, A>), NoMemory<I>>
    ensures { MatchResult result
        (λ all. (all.1 ≡ output) × (E.kind error ≡ memory → ⊥)
        × ComesBackWith I.view R.kind
        (back_at (I.seen start.now) (⟦<Recoverable<I, R, A> as Stream>⟧.view input))
        (⟦<Recoverable<I, R, A> as Stream>⟧.view input) (E.kind error) all.0 all.2.items)
        (λ refused. IsBack I.view
        (back_at (I.seen start.now) (⟦<Recoverable<I, R, A> as Stream>⟧.view input))
        (no_memory_input refused)) }
{
    let place = input.checkpoint();
    let made = R::from_recoverable_error(token_start, &place, &input, error);
    let wants_memory = made.is_memory();
    let (back, errors) = parts_at_start(input, start);
    if wants_memory {
        return Err(NoMemory(back));
    }
    let mut errors = errors;
    match errors.push(made) {
        Ok(()) => Ok((back, output, errors)),
        Err(_) => Err(NoMemory(back)),
    }
}
