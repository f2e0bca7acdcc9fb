//! Recording errors.
ghost use Rattle.std.specs.Prelude.{◌≡◌, true};

use crate::recoverable::Recoverable;
use std::alloc::Allocator;
use stream_errors::parser_error::ParserError;
use stream_errors::recover::Recover;
use stream_errors::recoverable::FromRecoverableError;
use streams::stream::Stream;

/// The recorded value is made from the error by
/// [`from_recoverable_error`](stream_errors::recoverable::FromRecoverableError). If that, or the
/// list of errors, fails to allocate, nothing is recorded, and the error is out of memory.
impl<I, R, A, E> Recover<E> for Recoverable<I, R, A>
where
    I: Stream,
    R: ParserError<Recoverable<I, R, A>> + FromRecoverableError<Recoverable<I, R, A>, E>,
    A: Allocator,
    E: ParserError<Recoverable<I, R, A>>,
{
    ghost supports_recovery = { true };

    #[inline]
    fn record_err(
        &mut self,
        token_start: &I::Checkpoint,
        err_start: &I::Checkpoint,
        err: E,
    ) -> Result<(), E> {
        if err.is_memory() {
            return Err(err);
        }
        let made = R::from_recoverable_error(token_start, err_start, self, err);
        if made.is_memory() {
            return Err(E::no_memory(self));
        }
        match self.push_err(made) {
            Ok(()) => Ok(()),
            Err(_) => Err(E::no_memory(self)),
        }
    }

    #[inline(always)]
    fn is_recovery_supported() -> bool
        ensures { result ≡ true }
    {
        true
    }
}
