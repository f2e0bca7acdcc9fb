//! Repetition until a terminator.
ghost use Rattle.parser_definitions.specs.Does.{Ran};
ghost use Rattle.std.specs.Prelude.{◌<◌, ⊤, Some, true};
ghost use Rattle.stream_sets.specs.Range.{IsWithin, bounds_of, from_to};
ghost use Rattle.stream_sets.specs.declared.range.Range.{Range};
ghost use Rattle.grammars.specs.Grammar.Till.{Till, till_takes};
ghost use Rattle.stream_errors.specs.Form.{answer_by, modal};
ghost use Rattle.parser_definitions.specs.Equal.{AlikePairs};
ghost use Rattle.parser_definitions.specs.Folding.{Built, gathering};
ghost use Rattle.parser_definitions.specs.Items.{Items};
ghost use Rattle.parser_definitions.specs.Loop.{Loop};
ghost use Rattle.parser_definitions.specs.Projects.{projects_as};
ghost use Rattle.parser_definitions.specs.Projects.Tills.{repeat_till_projects};
ghost use Rattle.parser_definitions.specs.RepeatTill.{Every, RepeatTillDoes, TillTurn};
ghost use Rattle.parser_definitions.specs.RepeatTill.{repeat_till_law};
ghost use Rattle.parser_definitions.specs.Then.Steps.{instead, same};
ghost use Rattle.parser_definitions.specs.Threes.{one_of, two_of, with_one, with_two};

use crate::combinator::items::{is_descending, parse_item};
use std::alloc::Allocator;
use std::marker::PhantomData;
use stream_errors::parser_error::ParserError;
use stream_sets::accumulate::Accumulate;
use stream_sets::range::Range;
use streams::stream::Stream;
use winnow_core::parser::Parser;

/// The parser that [`repeat_till`](crate::combinator::repeat_till) makes.
///
/// ```
/// let mut letters = repeat_till(alloc, 0.., Any.void(), ';');
/// assert_eq!(rt; letters.parse_peek("ab;c"), Ok::<_, EmptyError>(("c", ((), ';'))));
/// ```
#[derive(Drop)]
pub struct RepeatTill<P, G, I, O, D, C, E, A> {
    pub(crate) alloc: A,
    pub(crate) occurrences: Range,
    pub(crate) parser: P,
    pub(crate) terminator: G,
    pub(crate) marker: PhantomData<(I, O, D, C, E)>,
}

impl<
    P: Parser<I, O, E>,
    G: Parser<I, D, E>,
    I: Stream,
    O: Drop,
    D,
    C: Accumulate<O, A>,
    E: ParserError<I>,
    A: Allocator + Copy,
> Parser<I, (C, D), E> for RepeatTill<P, G, I, O, D, C, E, A> {
    ghost can_parse = { λ s. P.can_parse s.parser × G.can_parse s.terminator };

    ghost State = { P.State × G.State × Range };

    ghost state = { λ s. (P.state s.parser, G.state s.terminator, s.occurrences) };

    ghost does = { RepeatTillDoes C.accumulator P.does G.does };

    ghost terms = { record {
      premise = P.terms.premise × G.terms.premise;
      stable = P.terms.stable × G.terms.stable;
      alike = AlikePairs
          (Built (gathering {Q = P.State × G.State × Range} C.accumulator) P.terms.alike)
          G.terms.alike;
      claim = λ s. record {
        premise = (P.terms.claim s.0).premise × (P.terms.claim s.0).backtracks
            × (P.terms.claim s.0).consumes
            × (G.terms.claim s.1).premise × (G.terms.claim s.1).backtracks
            × IsWithin (bounds_of s.2).greatest (bounds_of s.2).least;
        backtracks = ⊤;
        spares_memory =
            (P.terms.claim s.0).spares_memory × (G.terms.claim s.1).spares_memory × C.spares_memory;
        consumes = (G.terms.claim s.1).consumes;
        grammar = Till C.holds s.2 (P.terms.claim s.0).grammar (G.terms.claim s.1).grammar;
      };
    } };

    ghost lawful = { record {
      law = λ is. repeat_till_law C.accumulator (P.lawful.law is.0) (G.lawful.law is.1);
      claimed = λ s. record {
        projects = λ at is. repeat_till_projects C.accumulator C.gathers
            (λ m. C.never_wants m.2)
            (projects_as (λ b. b) (λ m. m.0) ((P.lawful.claimed s.0).projects at is.0)) is.1
            ((P.lawful.claimed s.0).takes is.0 is.2)
            (projects_as (λ b. b) (λ m. m.1) ((G.lawful.claimed s.1).projects at is.3)) is.4 is.5;
        takes = λ is some. till_takes (P.terms.claim s.0).grammar (G.terms.claim s.1).grammar
            ((P.lawful.claimed s.0).projects (record { form = modal; possible = true }) is.0).unique
            C.holds s.2 ((G.lawful.claimed s.1).takes is.3 some);
      };
    } };

    fn parse_next(&mut self, input: &mut I) -> Result<(C, D), E> {
        let least = self.occurrences.start_inclusive;
        let greatest = self.occurrences.greatest();
        if is_descending(least, greatest) {
            return Err(E::assert(input, "the greatest count is below the least"));
        }
        match C::initial(self.alloc, greatest.map(|_: usize| least)) {
            Ok(empty) => {
                let all = least_items(empty, least, &mut self.parser, input)?;
                let room = greatest.map(|most: usize| most.saturating_sub(least));
                turns(all, room, &mut self.parser, &mut self.terminator, input)
            }
            Err(_) => Err(E::no_memory(input)),
        }
    }
}

/// Parses `least` items into an accumulator. They may consume no input.
fn least_items<
    P: Parser<I, O, E>,
    I: Stream,
    O: Drop,
    C: Accumulate<O, A>,
    E: ParserError<I>,
    A: Allocator + Copy,
>(empty: C, least: usize, parser: &mut P, input: &mut I) -> Result<C, E>
    requires { P.can_parse parser.old }
    ensures again { P.can_parse parser.new }
    ensures ran { Ran I.reading (Items same instead (gathering C.accumulator)
        (from_to least (Some least)) (Every P.does) empty) E.form (P.state parser.old)
        (I.view input.old) (answer_by E.kind result) (P.state parser.new) (I.view input.new) }
{
    let mut all = empty;
    let mut missing = least;
    let start = input.checkpoint();
    'items: while missing > 0 {
        let output = parse_item(parser, input, &start)?;
        match all.accumulate(output) {
            Ok(()) => missing -= 1,
            Err(_) => return Err(E::no_memory(input)),
        }
    }
    Ok(all)
}

/// Tries the terminator, and parses an item if that backtracks, repeatedly: at most `room` items,
/// into an accumulator.
fn turns<
    P: Parser<I, O, E>,
    G: Parser<I, D, E>,
    I: Stream,
    O: Drop,
    D,
    C: Accumulate<O, A>,
    E: ParserError<I>,
    A: Allocator + Copy,
>(
    before: C,
    room: Option<usize>,
    parser: &mut P,
    terminator: &mut G,
    input: &mut I,
) -> Result<(C, D), E>
    requires parser { P.can_parse parser.old }
    requires terminator { G.can_parse terminator.old }
    ensures again { P.can_parse parser.new × G.can_parse terminator.new }
    ensures ran { (range : Range) → Ran I.reading (Loop (TillTurn one_of with_one two_of with_two
        (gathering C.accumulator) P.does G.does room) (before, 0)) E.form
        (P.state parser.old, G.state terminator.old, range) (I.view input.old)
        (answer_by E.kind result) (P.state parser.new, G.state terminator.new, range)
        (I.view input.new) }
{
    let mut all = before;
    let mut room = room;
    'turns: loop {
        let start = input.checkpoint();
        let left = input.eof_offset();
        match terminator.parse_next(input) {
            Ok(end) => return Ok((all, end)),
            Err(error) => {
                if room == Some(0) || !error.is_backtrack() {
                    return Err(error);
                }
            }
        }
        input.reset(&start);
        let output = parse_item(parser, input, &start)?;
        if input.eof_offset() == left {
            return Err(E::assert(input, "each item must consume"));
        }
        match all.accumulate(output) {
            Ok(()) => room = room.map(|n: usize| n.saturating_sub(1)),
            Err(_) => return Err(E::no_memory(input)),
        }
    }
}
