//! Errors of whole parses.
ghost use Rattle.std.specs.Prelude.{◌↔◌, IsTrue};
ghost use Rattle.winnow_core.specs.Exact.Whole.{IsWant};

use stream_errors::empty::EmptyError;
use stream_errors::fault::ParseFault;
use stream_errors::mode::ErrMode;
use stream_errors::parser_error::ParserError;
use streams::stream::Stream;

/// Returns whether the error of a whole parse is out of memory.
pub fn is_out_of_memory<I: Stream>(fault: &ParseFault<I, EmptyError>) -> bool
    ensures { IsWant ⟦<ErrMode<EmptyError> as ParserError<I>>⟧.inner_kind fault.now
        ↔ IsTrue result }
{
    match fault {
        ParseFault::Invalid(error) => ParserError::<I>::is_memory(error.inner()),
        ParseFault::Incomplete(_) => false,
    }
}
