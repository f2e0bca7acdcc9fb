//! The trait of parsers that are specified by a grammar and return spans.
ghost use Rattle.parser_definitions.specs.Does.{Ran};
ghost use Rattle.std.specs.Prelude.{◌≡◌, false};
ghost use Rattle.stream_errors.specs.Form.{answer_by};
ghost use Rattle.winnow_core.specs.Exact.{IsSpared, Reads, UnlessWanted};
ghost use Rattle.winnow_grammar.specs.Spans.{IsBetween, output_alone};

use std::ops::Range;
use stream_errors::parser_error::ParserError;
use streams::stream::Location;
use winnow_core::parser::Parser;

/// A parser over a stream with offsets that is specified by a grammar and returns spans. Every
/// parser over such a stream implements it.
///
/// A grammar knows tokens and no offsets, so the grammar of `p.with_span()` allows any span with an
/// output. Here a clause of the call specifies the span.
///
/// ```
/// use stream_errors::empty::EmptyError;
/// use streams::locating::LocatingSlice;
/// use winnow_grammar::spans::ReadsSpanned;
///
/// let mut input = LocatingSlice::new(b"ab;".as_slice());
/// assert_eq!(rt; b'a'.read_spanned(&mut input), Ok::<_, EmptyError>((b'a', 0..1)));
/// assert_eq!(rt; b'b'.read_spanned(&mut input), Ok::<_, EmptyError>((b'b', 1..2)));
/// ```
pub trait ReadsSpanned<I: Location, O, E: ParserError<I>>: Parser<I, O, E> {
    /// Like [`read`](winnow_core::parser::Parser::read), and also returns the span: the offsets of
    /// the input before and after the call, from the start of the stream, in bytes for bytes and
    /// text and in tokens otherwise. The requirements are those of `read`.
    #[inline(always)]
    final fn read_spanned(&mut self, input: &mut I) -> Result<(O, Range<usize>), E>
        requires callable { Self.can_parse self.old }
        requires premise { (Self.terms.claim (Self.state self.old)).premise }
        requires backtracks { (Self.terms.claim (Self.state self.old)).backtracks }
        ensures again { Self.can_parse self.new }
        ensures ran { Ran I.reading Self.does E.form (Self.state self.old) (I.view input.old)
            (answer_by E.kind (output_alone result)) (Self.state self.new) (I.view input.new) }
        ensures kept { (I.view input.old).status.cut ≡ false
            → UnlessWanted E.kind result (Self.state self.new ≡ Self.state self.old) }
        ensures reads { Reads I.reading E.kind (Self.terms.claim (Self.state self.old)).grammar
            (I.view input.old) (output_alone result) (I.view input.new) }
        ensures between { IsBetween (I.view input.old) result (I.view input.new) }
        ensures spared { (Self.terms.claim (Self.state self.old)).spares_memory
            → IsSpared E.kind (I.view input.old) result }
    {
        let start = input.current_token_start();
        match self.read(input) {
            Ok(output) => {
                let end = input.previous_token_end();
                Ok((output, start..end))
            }
            Err(error) => Err(error),
        }
    }
}

impl<P: Parser<I, O, E>, I: Location, O, E: ParserError<I>> ReadsSpanned<I, O, E> for P {}
