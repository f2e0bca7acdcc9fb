//! Laws of recovery, each proved by a function that does nothing.
ghost use Rattle.parser_definitions.specs.Does.{Ran};
ghost use Rattle.winnow_recovery.specs.RecoveryLaws.{NoErrorIsAWholeParse};

use std::alloc::Allocator;
use stream_errors::parser_error::ParserError;
use stream_errors::recoverable::FromRecoverableError;
use stream_recovery::recoverable::Recoverable;
use streams::stream::StreamIsPartial;
use winnow_core::parser::Parser;

/// States that if [`recoverable_parse`](crate::parser::RecoverableParser::recoverable_parse)
/// returns no error, it returns an output, and all of the input was consumed.
pub fn no_errors_mean_success<
    P: Parser<Recoverable<I, R, A>, O, E>,
    I: StreamIsPartial,
    O,
    R: ParserError<Recoverable<I, R, A>> + FromRecoverableError<Recoverable<I, R, A>, E>,
    E: ParserError<Recoverable<I, R, A>>,
    A: Allocator,
>()
    ensures { NoErrorIsAWholeParse A I.view R.kind (Ran I.reading P.does E.form) }
{}
