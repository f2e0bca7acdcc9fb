//! Inputs that are too short.
ghost use Rattle.streams.specs.Needed.{need_of};
ghost use Rattle.winnow_core.specs.Short.{ShortKind};

use stream_errors::parser_error::ParserError;
use streams::needed::Needed;
use streams::stream::StreamIsPartial;

/// Returns the error for missing tokens: `Incomplete` with the need on partial input, and a
/// backtrack on complete input.
#[inline(always)]
pub fn short<I: StreamIsPartial, E: ParserError<I>>(input: &I, needed: Needed) -> E
    ensures { ShortKind E.form (need_of needed) (I.view input.now) (E.kind result) }
{
    if input.is_partial() {
        E::incomplete(input, needed)
    } else {
        E::from_input(input)
    }
}
