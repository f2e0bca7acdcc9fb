//! Streams that may record the errors from which parsers recover.
ghost use Rattle.std.specs.Prelude.{◌≡◌, Bool, false};
ghost use Rattle.stream_errors.specs.Recover.{Records};

use crate::has_kind::HasKind;
use streams::locating::{LocatedCheckpoint, LocatingSlice};
use streams::partial::Partial;
use streams::stream::Stream;
use streams::token_slice::TokenSlice;

/// A stream that may record the errors from which parsers recover.
///
/// ```
/// assert!(rt; !<&[u8] as Recover<EmptyError>>::is_recovery_supported());
/// ```
pub trait Recover<E: HasKind>: Stream {
    // Whether errors are recorded.
    ghost supports_recovery: { Bool };

    /// Records an error of a parser that began at `token_start` and failed at `err_start`, after
    /// those recorded before. Nothing else of the stream changes. If an allocation for that fails,
    /// the error is out of memory. A stream without recovery returns `err`. Both leave the stream
    /// unchanged.
    fn record_err(
        &mut self,
        token_start: &Self::Checkpoint,
        err_start: &Self::Checkpoint,
        err: E,
    ) -> Result<(), E>
        ensures { Records supports_recovery E.kind err (Self.view self.old) result
            (Self.view self.new) };

    /// Whether errors are recorded.
    fn is_recovery_supported() -> bool
        ensures { result ≡ supports_recovery };
}

impl<'a, E: HasKind> Recover<E> for &'a [u8] {
    ghost supports_recovery = { false };

    #[inline(always)]
    fn record_err(
        &mut self,
        _token_start: &&'a [u8],
        _err_start: &&'a [u8],
        err: E,
    ) -> Result<(), E> {
        Err(err)
    }

    #[inline(always)]
    fn is_recovery_supported() -> bool
        ensures { result ≡ false }
    {
        false
    }
}

impl<'a, E: HasKind> Recover<E> for &'a str {
    ghost supports_recovery = { false };

    #[inline(always)]
    fn record_err(
        &mut self,
        _token_start: &&'a str,
        _err_start: &&'a str,
        err: E,
    ) -> Result<(), E> {
        Err(err)
    }

    #[inline(always)]
    fn is_recovery_supported() -> bool
        ensures { result ≡ false }
    {
        false
    }
}

impl<'t, T, E: HasKind> Recover<E> for TokenSlice<'t, T> {
    ghost supports_recovery = { false };

    #[inline(always)]
    fn record_err(
        &mut self,
        _token_start: &&'t [T],
        _err_start: &&'t [T],
        err: E,
    ) -> Result<(), E> {
        Err(err)
    }

    #[inline(always)]
    fn is_recovery_supported() -> bool
        ensures { result ≡ false }
    {
        false
    }
}

impl<I: Stream, E: HasKind> Recover<E> for Partial<I> {
    ghost supports_recovery = { false };

    #[inline(always)]
    fn record_err(
        &mut self,
        _token_start: &I::Checkpoint,
        _err_start: &I::Checkpoint,
        err: E,
    ) -> Result<(), E> {
        Err(err)
    }

    #[inline(always)]
    fn is_recovery_supported() -> bool
        ensures { result ≡ false }
    {
        false
    }
}

impl<I: Stream, E: HasKind> Recover<E> for LocatingSlice<I> {
    ghost supports_recovery = { false };

    #[inline(always)]
    fn record_err(
        &mut self,
        _token_start: &LocatedCheckpoint<I>,
        _err_start: &LocatedCheckpoint<I>,
        err: E,
    ) -> Result<(), E> {
        Err(err)
    }

    #[inline(always)]
    fn is_recovery_supported() -> bool
        ensures { result ≡ false }
    {
        false
    }
}
