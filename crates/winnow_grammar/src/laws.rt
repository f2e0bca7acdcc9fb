//! Laws of stable parsers.
ghost use Rattle.parser_definitions.specs.Does.{Ran};
ghost use Rattle.std.specs.Prelude.{◌≡◌};
ghost use Rattle.stream_errors.specs.Form.{modal};
ghost use Rattle.winnow_core.specs.Longer.{EachSameOnLonger};

use stream_errors::parser_error::ParserError;
use streams::stream::Stream;
use winnow_core::parser::Parser;

/// A final result of a stable parser on partial input is also the result on every longer input,
/// partial or complete, unless out of memory: an equal output or an error of the same kind, the
/// same new state, and the rest followed by the added tokens. So the result does not depend on how
/// the input is divided into chunks.
pub fn longer_inputs_get_partial_results<P: Parser<I, O, E>, I: Stream, O, E: ParserError<I>>()
    ensures { E.form ≡ modal → P.terms.premise → P.terms.stable
        → EachSameOnLonger (Ran I.reading P.does E.form) P.terms.alike }
{}
