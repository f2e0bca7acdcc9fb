//! A separator and the element after it.
ghost use Rattle.parser_definitions.specs.Does.{Ran};
ghost use Rattle.std.specs.Prelude.{◌<◌, IfOk, IfSome, length};
ghost use Rattle.stream_errors.specs.Form.{answer_by};
ghost use Rattle.winnow_separated.specs.Link.{LinkDoes};

use stream_errors::parser_error::ParserError;
use streams::stream::Stream;
use winnow_core::parser::Parser;

/// The parsers of elements and of the separators between them.
#[derive(Drop)]
pub(crate) struct Link<P, S> {
    pub(crate) parser: P,
    pub(crate) separator: S,
}

impl<P, S> Link<P, S> {
    /// Runs the separator and, if it consumed input, the parser of elements. Returns both outputs,
    /// or `None` if the separator consumed no input.
    #[inline]
    pub(crate) fn run<I, O, D, E>(&mut self, input: &mut I) -> Result<Option<(D, O)>, E>
    where
        P: Parser<I, O, E>,
        S: Parser<I, D, E>,
        I: Stream,
        D: Drop,
        E: ParserError<I>,
        requires parser { P.can_parse self.old.parser }
        requires separator { S.can_parse self.old.separator }
        ensures again { P.can_parse self.new.parser × S.can_parse self.new.separator }
        ensures ran { Ran I.reading (LinkDoes P.does S.does) E.form
            (P.state self.old.parser, S.state self.old.separator) (I.view input.old)
            (answer_by E.kind result) (P.state self.new.parser, S.state self.new.separator)
            (I.view input.new) }
        ensures consumes { IfOk result (λ link. IfSome link (λ _.
            length (I.view input.new).left.tokens < length (I.view input.old).left.tokens)) }
    {
        let left = input.eof_offset();
        let separator = self.separator.parse_next(input)?;
        if input.eof_offset() == left {
            return Ok(None);
        }
        let element = self.parser.parse_next(input)?;
        Ok(Some((separator, element)))
    }
}
