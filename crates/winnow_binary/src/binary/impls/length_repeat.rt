//! The implementation of `length_repeat`.
ghost use Rattle.std.specs.Prelude.{true};
ghost use Rattle.grammars.specs.Grammar.Lengths.{SaysOne, Sized, Times, sized_times_takes};
ghost use Rattle.stream_errors.specs.Form.{modal};
ghost use Rattle.parser_definitions.specs.Folding.{Built, gathering};
ghost use Rattle.parser_definitions.specs.Length.{OneLength};
ghost use Rattle.parser_definitions.specs.LengthRepeat.{LengthRepeatDoes, length_repeat_law};
ghost use Rattle.parser_definitions.specs.Projects.{projects_as};
ghost use Rattle.parser_definitions.specs.Projects.LengthRepeat.{length_repeat_projects};

use std::alloc::Allocator;
use std::marker::PhantomData;
use stream_errors::parser_error::ParserError;
use stream_sets::accumulate::Accumulate;
use stream_sets::numbers::ToUsize;
use streams::stream::Stream;
use winnow_core::parser::Parser;
use winnow_repeat::combinator::items::repeat_many;

/// The parser that [`length_repeat`](crate::binary::length_repeat) makes.
///
/// ```
/// let mut parser = length_repeat(rt.alloc(), U8, Any);
/// let read: Result<(&[u8], usize), EmptyError> = parser.parse_peek(b"\x01ab".as_slice());
/// assert_eq!(rt; read, Ok((b"b".as_slice(), 1)));
/// ```
#[derive(Drop)]
pub struct LengthRepeat<P, G, I, N, O, C, E, A> {
    pub(crate) alloc: A,
    pub(crate) count: P,
    pub(crate) parser: G,
    pub(crate) marker: PhantomData<(I, N, O, C, E)>,
}

impl<
    P: Parser<I, N, E>,
    G: Parser<I, O, E>,
    I: Stream,
    N: ToUsize + Drop,
    O: Drop,
    C: Accumulate<O, A>,
    E: ParserError<I>,
    A: Allocator + Copy,
> Parser<I, C, E> for LengthRepeat<P, G, I, N, O, C, E, A> {
    ghost can_parse = { λ s. P.can_parse s.count × G.can_parse s.parser };

    ghost State = { P.State × G.State };

    ghost state = { λ s. (P.state s.count, G.state s.parser) };

    ghost does = { LengthRepeatDoes N.number C.accumulator P.does G.does };

    ghost terms = { record {
      premise = P.terms.premise × OneLength N.number P.terms.alike × G.terms.premise;
      stable = P.terms.stable × G.terms.stable;
      alike = Built (gathering {Q = P.State × G.State} C.accumulator) G.terms.alike;
      claim = λ s. record {
        premise = (P.terms.claim s.0).premise × SaysOne N.number (P.terms.claim s.0).grammar
            × (G.terms.claim s.1).premise × (G.terms.claim s.1).backtracks
            × (G.terms.claim s.1).consumes;
        backtracks = (P.terms.claim s.0).backtracks;
        spares_memory =
            (P.terms.claim s.0).spares_memory × (G.terms.claim s.1).spares_memory × C.spares_memory;
        consumes = (P.terms.claim s.0).consumes;
        grammar = Sized N.number (Times C.holds (G.terms.claim s.1).grammar)
            (P.terms.claim s.0).grammar;
      };
    } };

    ghost lawful = { record {
      law = λ is. length_repeat_law N.number C.accumulator is.1 (P.lawful.law is.0)
          (G.lawful.law is.2);
      claimed = λ s. record {
        projects = λ at is. length_repeat_projects N.number C.accumulator C.gathers
            (λ m. C.never_wants m.2)
            (projects_as (λ b. b) (λ m. m.0) ((P.lawful.claimed s.0).projects at is.0)) is.1
            (projects_as (λ b. b) (λ m. m.1) ((G.lawful.claimed s.1).projects at is.2)) is.3
            ((G.lawful.claimed s.1).takes is.2 is.4);
        takes = λ is some. sized_times_takes N.number C.holds
            ((G.lawful.claimed s.1).projects (record { form = modal; possible = true }) is.2).unique
            ((P.lawful.claimed s.0).projects (record { form = modal; possible = true }) is.0).unique
            ((P.lawful.claimed s.0).takes is.0 some);
      };
    } };

    fn parse_next(&mut self, input: &mut I) -> Result<C, E> {
        let count = self.count.parse_next(input)?.to_usize();
        repeat_many(self.alloc, count, Some(count), &mut self.parser, input)
    }
}
