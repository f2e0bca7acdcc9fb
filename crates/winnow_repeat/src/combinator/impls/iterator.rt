//! The runs of a parser, one by one, as an iterator.
ghost use Rattle.parser_definitions.specs.Does.{Ran};
ghost use Rattle.std.specs.Iterator.{at_most};
ghost use Rattle.std.specs.Prelude.{◌≡◌, length};
ghost use Rattle.stream_errors.specs.Form.{answer_by, assert_kind};
ghost use Rattle.streams.specs.Input.{IsEndOf};
ghost use Rattle.winnow_repeat.specs.Iterator.{IteratorNext, finish_answer, iterator_input};
ghost use Rattle.winnow_repeat.specs.Iterator.{iterator_input_name, iterator_parser};
ghost use Rattle.winnow_repeat.specs.Iterator.{iterator_state, iterator_standing};

use std::marker::PhantomData;
use stream_errors::parser_error::ParserError;
use streams::stream::Stream;
use winnow_core::parser::Parser;

/// Whether an iterator gives more items.
#[derive(Drop)]
pub(crate) enum Progress<E> {
    /// Its parser is run for each item.
    Running,
    /// Its parser backtracked.
    Done,
    /// This error stopped it.
    Stopped(E),
}

/// The iterator that [`iterator`](crate::combinator::iterator) makes, iterated by `&mut`.
///
/// ```
/// let mut input = "ab";
/// let mut items: ParserIterator<_, &str, char, EmptyError> = iterator(&mut input, Any);
/// assert_eq!(rt; items.next(), Some('a'));
/// ```
#[derive(Drop)]
pub struct ParserIterator<'i, P, I, O, E> {
    pub(crate) parser: P,
    pub(crate) input: &'i mut I,
    pub(crate) progress: Progress<E>,
    pub(crate) output: PhantomData<O>,
}

impl<'i, P: Parser<I, O, E>, I: Stream, O: Drop, E: ParserError<I>> ParserIterator<'i, P, I, O, E> {
    /// Returns the next item from one call of the parser, unless the iterator has stopped.
    fn run(&mut self) -> Option<O>
        requires { P.can_parse (iterator_parser self.old) }
        ensures again { P.can_parse (iterator_parser self.new) }
        ensures ran { IteratorNext (Ran I.reading P.does E.form) (assert_kind E.form)
            (iterator_state P.state I.view E.kind self.old) result
            (iterator_state P.state I.view E.kind self.new) }
        ensures ends { IsEndOf I.reading (I.view (iterator_input self.new))
            (I.view (iterator_input self.old)) }
        ensures same_input { iterator_input_name self.new ≡ iterator_input_name self.old }
    {
        match self.progress {
            Progress::Running => {}
            _ => return None,
        }
        let start = self.input.checkpoint();
        let left = self.input.eof_offset();
        match self.parser.parse_next(self.input) {
            Ok(output) => {
                if self.input.eof_offset() == left {
                    let error = E::assert(self.input, "each item must consume");
                    self.progress = Progress::Stopped(error);
                    return None;
                }
                Some(output)
            }
            Err(error) => {
                if error.is_backtrack() {
                    self.input.reset(&start);
                    self.progress = Progress::Done;
                } else {
                    self.progress = Progress::Stopped(error);
                }
                None
            }
        }
    }
}

impl<'i, P: Parser<I, O, E> + Drop, I: Stream, O, E: ParserError<I>> ParserIterator<
    'i,
    P,
    I,
    O,
    E,
> {
    /// Returns the error that stopped the iterator, if there is one.
    ///
    /// Otherwise it returns `Ok`, also if the iterator could yield more items. The input is left
    /// where the last call left it.
    pub fn finish(self) -> Result<(), E>
        ensures answer { answer_by E.kind result
            ≡ finish_answer (iterator_standing E.kind self.entry) }
        ensures place { self.exit.1.0.now ≡ iterator_input self.entry }
    {
        let ParserIterator {
            parser: _parser,
            input: _input,
            progress,
            output: _output,
        } = self;
        match progress {
            Progress::Stopped(error) => Err(error),
            _ => Ok(()),
        }
    }
}

impl<'i, P: Parser<I, O, E> + Drop, I: Stream, O: Drop, E: ParserError<I>> Iterator
    for ParserIterator<'i, P, I, O, E> {
    type Item = O;

    ghost can_next = { λ s. P.can_parse s.parser };

    ghost next_gives = { λ s item t. IteratorNext (Ran I.reading P.does E.form) (assert_kind E.form)
        (iterator_state P.state I.view E.kind s) item (iterator_state P.state I.view E.kind t)
        × P.can_parse t.parser
        × IsEndOf I.reading (I.view t.input.now) (I.view s.input.now)
        × (t.input.ghost_name ≡ s.input.ghost_name) };

    ghost remaining = { λ s. at_most (length (I.view s.input.now).left.tokens) };

    fn next(&mut self) -> Option<O> {
        self.run()
    }
}
