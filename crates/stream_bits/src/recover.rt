//! Bits record no errors of parsers that recover.
ghost use Rattle.std.specs.Prelude.{◌≡◌, false};

use crate::bits::{Bits, BitsCheckpoint};
use stream_errors::has_kind::HasKind;
use stream_errors::recover::Recover;
use streams::byte_stream::ByteStream;

impl<I: ByteStream, E: HasKind> Recover<E> for Bits<I> {
    ghost supports_recovery = { false };

    #[inline(always)]
    fn record_err(
        &mut self,
        _token_start: &BitsCheckpoint<I>,
        _err_start: &BitsCheckpoint<I>,
        err: E,
    ) -> Result<(), E> {
        Err(err)
    }

    #[inline(always)]
    fn is_recovery_supported() -> bool
        ensures { result ≡ false }
    {
        false
    }
}
