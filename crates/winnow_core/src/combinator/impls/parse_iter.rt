//! The runs of a parser over all of an input, one by one, as an iterator.
ghost use Rattle.parser_definitions.specs.Does.{Ran};
ghost use Rattle.std.specs.Iterator.{at_most};
ghost use Rattle.std.specs.Prelude.{◌≡◌};
ghost use Rattle.stream_errors.specs.Fault.{IsFaultAt};
ghost use Rattle.stream_errors.specs.Form.{assert_kind};
ghost use Rattle.winnow_core.specs.ParseIter.{ParseIterNext, parse_iter_name, parse_iter_parser};
ghost use Rattle.winnow_core.specs.ParseIter.{parse_iter_state, parse_iter_standing, IsReached};
ghost use Rattle.winnow_core.specs.ParseIter.{reads, tokens_to_read};

use crate::parser::Parser;
use std::marker::PhantomData;
use stream_errors::fault::ParseFault;
use stream_errors::parser_error::ParserError;
use streams::stream::Stream;

/// The remaining input, and its start.
#[derive(Drop)]
pub(crate) struct Unread<I, C> {
    input: I,
    start: C,
}

/// The iterator that [`Parser::parse_iter`](crate::parser::Parser::parse_iter) makes.
///
/// ```
/// let mut letters = b'a';
/// let items: ParseIter<_, &[u8], u8, EmptyError> = letters.parse_iter(b"aa".as_slice());
/// assert_eq!(rt; items.count(), 2);
/// ```
#[derive(Drop)]
pub struct ParseIter<'p, P, I: Stream, O, E> {
    parser: &'p mut P,
    unread: Option<Unread<I, I::Checkpoint>>,
    marker: PhantomData<(O, E)>,
}

impl<'p, P: Parser<I, O, E>, I: Stream, O, E: ParserError<I>> ParseIter<'p, P, I, O, E> {
    #[inline(always)]
    pub(crate) fn new(parser: &'p mut P, input: I) -> ParseIter<'p, P, I, O, E>
        ensures parser { parse_iter_parser result ≡ parser.old }
        ensures behind { parse_iter_name result ≡ parser.entry.ghost_name }
        ensures reads { parse_iter_standing I.view I.seen result
            ≡ reads (I.view input).left (I.view input) }
        ensures reached { IsReached I.reading (parse_iter_standing I.view I.seen result) }
    {
        let start = input.checkpoint();
        ParseIter {
            parser,
            unread: Some(Unread { input, start }),
            marker: PhantomData,
        }
    }
}

impl<'p, P: Parser<I, O, E>, I: Stream, O: Drop, E: ParserError<I>> ParseIter<'p, P, I, O, E> {
    /// Returns the next item from one call of the parser, if any input is unread.
    fn run(&mut self) -> Option<Result<O, ParseFault<I, E::Inner>>>
        requires callable { P.can_parse (parse_iter_parser self.old) }
        requires reached { IsReached I.reading (parse_iter_standing I.view I.seen self.old) }
        ensures again { P.can_parse (parse_iter_parser self.new) }
        ensures reached { IsReached I.reading (parse_iter_standing I.view I.seen self.new) }
        ensures ran { ParseIterNext (Ran I.reading P.does E.form) (assert_kind E.form)
            (IsFaultAt I.view I.reading.units E.inner_kind)
            (parse_iter_state P.state I.view I.seen self.old) result
            (parse_iter_state P.state I.view I.seen self.new) }
        ensures behind { parse_iter_name self.new ≡ parse_iter_name self.old }
    {
        let Some(Unread { input, start }) = self.unread.take() else {
            return None;
        };
        let mut input = input;
        let left = input.eof_offset();
        if left == 0 {
            return None;
        }
        match self.parser.parse_next(&mut input) {
            Ok(output) => {
                if input.eof_offset() == left {
                    let error = E::assert(&input, "each item must consume");
                    return Some(Err(ParseFault::at(input, start, error)));
                }
                self.unread = Some(Unread { input, start });
                Some(Ok(output))
            }
            Err(error) => Some(Err(ParseFault::at(input, start, error))),
        }
    }
}

impl<'p, P: Parser<I, O, E>, I: Stream, O: Drop, E: ParserError<I>> Iterator
    for ParseIter<'p, P, I, O, E> {
    type Item = Result<O, ParseFault<I, E::Inner>>;

    ghost can_next = { λ s. P.can_parse s.parser.now
        × IsReached I.reading (parse_iter_standing I.view I.seen s) };

    ghost next_gives = { λ s item t. ParseIterNext (Ran I.reading P.does E.form)
        (assert_kind E.form)
        (IsFaultAt I.view I.reading.units E.inner_kind)
        (parse_iter_state P.state I.view I.seen s) item (parse_iter_state P.state I.view I.seen t)
        × P.can_parse t.parser.now
        × IsReached I.reading (parse_iter_standing I.view I.seen t)
        × (t.parser.ghost_name ≡ s.parser.ghost_name) };

    ghost remaining = { λ s. at_most (tokens_to_read (parse_iter_standing I.view I.seen s)) };

    fn next(&mut self) -> Option<Result<O, ParseFault<I, E::Inner>>> {
        self.run()
    }
}
