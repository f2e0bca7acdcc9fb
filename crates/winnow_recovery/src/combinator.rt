//! The common part of both adapters.
#![tactic(auto, using(streams::specs::Ends::ends_follow))]

ghost use Rattle.parser_definitions.specs.Does.{Ran};
ghost use Rattle.std.specs.Prelude.{◌≡◌, MatchBool, MatchResult, true};
ghost use Rattle.streams.specs.Input.{IsEndOf};
ghost use Rattle.parser_definitions.specs.Recover.{CanRecover};
ghost use Rattle.winnow_recovery.specs.Recovery.{IsNotRecovered, IsRecovered};

pub mod impls;

use stream_errors::parser_error::ParserError;
use stream_errors::recover::Recover;
use stream_errors::recoverable::FromRecoverableError;
use streams::stream::Stream;
use winnow_core::parser::Parser;

/// Whether a parser may recover from an error: it backtracks or cuts.
pub(crate) fn can_recover<I: Stream, E: ParserError<I>>(error: &E) -> bool
    ensures { MatchBool result (CanRecover (E.kind error.now))
        (CanRecover (E.kind error.now) → ⊥) }
{
    !error.is_incomplete() && !error.is_memory()
}

/// Recovers from an error of a parser that began at `token_start` and failed at the current
/// position of `input`: runs `recover`, and records the error. Otherwise resets the input to that
/// position, and returns an error with the reason.
pub(crate) fn recover_from<
    R: Parser<I, (), E>,
    I: Recover<E>,
    E: ParserError<I> + FromRecoverableError<I, E>,
>(
    recover: &mut R,
    must_consume: bool,
    token_start: &I::Checkpoint,
    error: E,
    input: &mut I,
) -> Result<(), E>
    requires callable { R.can_parse recover.old }
    requires records { I.supports_recovery ≡ true }
    ensures again { R.can_parse recover.new }
    ensures ran { MatchResult result
        (λ _. IsRecovered must_consume (Ran I.reading R.does E.form) (E.kind error)
        (R.state recover.old)
        (I.view input.old) (R.state recover.new) (I.view input.new))
        (λ refused. IsNotRecovered must_consume E.recoverable_grows (Ran I.reading R.does E.form)
        (E.kind error) (R.state recover.old) (I.view input.old) (E.kind refused)
        (R.state recover.new) (I.view input.new)) }
    ensures ends { IsEndOf I.reading (I.view input.new) (I.view input.old) }
{
    let err_start = input.checkpoint();
    let left = input.eof_offset();
    match recover.parse_next(input) {
        Ok(()) => {
            if must_consume && input.eof_offset() == left {
                input.reset(&err_start);
                return Err(E::from_recoverable_error(token_start, &err_start, input, error));
            }
            match input.record_err(token_start, &err_start, error) {
                Ok(()) => Ok(()),
                Err(refused) => {
                    input.reset(&err_start);
                    Err(refused)
                }
            }
        }
        Err(failure) => {
            input.reset(&err_start);
            if failure.is_memory() {
                return Err(failure);
            }
            Err(E::from_recoverable_error(token_start, &err_start, input, error))
        }
    }
}
