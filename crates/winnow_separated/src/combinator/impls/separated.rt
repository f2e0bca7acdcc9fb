//! Elements with separators between them.
ghost use Rattle.grammars.specs.Grammar.{SeparatedBy};
ghost use Rattle.parser_definitions.specs.Does.{Ran};
ghost use Rattle.parser_definitions.specs.Folding.{Built, gathering};
ghost use Rattle.parser_definitions.specs.Items.{Items};
ghost use Rattle.parser_definitions.specs.Projects.Separates.{separated_projects, separated_takes};
ghost use Rattle.parser_definitions.specs.Projects.{Complete};
ghost use Rattle.parser_definitions.specs.Separated.{Elements, SeparatedDoes, separated_law};
ghost use Rattle.parser_definitions.specs.Threes.{one_of, pair_of, with_one, with_pair};
ghost use Rattle.std.specs.Prelude.{◌<◌, ⊤, true};
ghost use Rattle.stream_errors.specs.Form.{answer_by, modal};
ghost use Rattle.stream_sets.specs.Range.{IsWithin, from_to, bounds_of};
ghost use Rattle.stream_sets.specs.declared.range.Range.{Range};
ghost use Rattle.winnow_separated.specs.Separated.{OnlyElements};

use crate::combinator::impls::link::Link;
use std::alloc::Allocator;
use std::marker::PhantomData;
use stream_errors::joining::append_position;
use stream_errors::parser_error::ParserError;
use stream_sets::accumulate::Accumulate;
use stream_sets::range::Range;
use streams::stream::Stream;
use winnow_core::parser::Parser;
use winnow_repeat::combinator::items::is_descending;

/// The parser that [`separated`](crate::combinator::separated) makes.
///
/// ```
/// let mut parser = separated(alloc, 0.., Digit1.void(), ',');
/// assert_eq!(rt; parser.parse_peek("1,2;"), Ok::<_, EmptyError>((";", ())));
/// ```
#[derive(Drop)]
pub struct Separated<P, S, I, O, D, C, E, A> {
    pub(crate) alloc: A,
    pub(crate) occurrences: Range,
    pub(crate) link: Link<P, S>,
    pub(crate) marker: PhantomData<(I, O, D, C, E)>,
}

impl<
    P: Parser<I, O, E>,
    S: Parser<I, D, E>,
    I: Stream,
    O: Drop,
    D: Drop,
    C: Accumulate<O, A>,
    E: ParserError<I>,
    A: Allocator + Copy,
> Parser<I, C, E> for Separated<P, S, I, O, D, C, E, A> {
    ghost can_parse = { λ s. P.can_parse s.link.parser × S.can_parse s.link.separator };

    ghost State = { P.State × S.State × Range };

    ghost state = { λ s. (P.state s.link.parser, S.state s.link.separator, s.occurrences) };

    ghost does = { SeparatedDoes C.accumulator P.does S.does };

    ghost terms = { record {
      premise = P.terms.premise × S.terms.premise;
      stable = P.terms.stable × S.terms.stable;
      alike = Built (gathering {Q = P.State × S.State × Range} C.accumulator) P.terms.alike;
      claim = λ s. record {
        premise = (P.terms.claim s.0).premise × (P.terms.claim s.0).backtracks
            × (S.terms.claim s.1).premise
            × (S.terms.claim s.1).backtracks × (S.terms.claim s.1).consumes
            × IsWithin (bounds_of s.2).greatest (bounds_of s.2).least;
        backtracks = ⊤;
        spares_memory =
            (P.terms.claim s.0).spares_memory × (S.terms.claim s.1).spares_memory × C.spares_memory;
        consumes = (P.terms.claim s.0).consumes × (0 < (bounds_of s.2).least);
        grammar = SeparatedBy C.holds s.2 (P.terms.claim s.0).grammar (S.terms.claim s.1).grammar;
      };
    } };

    ghost lawful = { record {
      law = λ is. separated_law C.accumulator (P.lawful.law is.0) (S.lawful.law is.1);
      claimed = λ s. record {
        projects = λ at is. separated_projects C.accumulator s C.gathers (λ m. C.never_wants m.2)
            ((P.lawful.claimed s.0).projects at is.0) is.1 (λ m. m.0)
            ((S.lawful.claimed s.1).projects at is.2) is.3
            (λ m. m.1) ((S.lawful.claimed s.1).takes is.2 is.4) is.5;
        takes = λ is some.
            let at : Complete = record { form = modal; possible = true } in
            separated_takes C.holds s.2 ((P.lawful.claimed s.0).projects at is.0).unique
            ((S.lawful.claimed s.1).projects at is.2).unique
            ((P.lawful.claimed s.0).takes is.0 some.0) some.1;
      };
    } };

    fn parse_next(&mut self, input: &mut I) -> Result<C, E> {
        let least = self.occurrences.start_inclusive;
        let greatest = self.occurrences.greatest();
        if is_descending(least, greatest) {
            return Err(E::assert(input, "the greatest count is below the least"));
        }
        match C::initial(self.alloc, greatest.map(|_: usize| least)) {
            Ok(all) => separated_elements(all, least, greatest, &mut self.link, input),
            Err(_) => Err(E::no_memory(input)),
        }
    }
}

// The range is in the state of the whole, and the functions below leave it as it is.

/// Parses the first element and links after it into an accumulator, at least `least` and at most
/// `greatest` elements.
fn separated_elements<
    P: Parser<I, O, E>,
    S: Parser<I, D, E>,
    I: Stream,
    O: Drop,
    D: Drop,
    C: Accumulate<O, A>,
    E: ParserError<I>,
    A: Allocator + Copy,
>(
    all: C,
    least: usize,
    greatest: Option<usize>,
    link: &mut Link<P, S>,
    input: &mut I,
) -> Result<C, E>
    requires parser { P.can_parse link.old.parser }
    requires separator { S.can_parse link.old.separator }
    ensures again { P.can_parse link.new.parser × S.can_parse link.new.separator }
    ensures ran { (range : Range) → Ran I.reading (Elements one_of with_one pair_of with_pair
        (gathering C.accumulator) P.does S.does (from_to least greatest) all) E.form
        (P.state link.old.parser, S.state link.old.separator, range) (I.view input.old)
        (answer_by E.kind result) (P.state link.new.parser, S.state link.new.separator, range)
        (I.view input.new) }
{
    if greatest == Some(0) {
        return Ok(all);
    }
    let start = input.checkpoint();
    match link.parser.parse_next(input) {
        Ok(output) => {
            let mut all = all;
            match all.accumulate(output) {
                Ok(()) => {
                    let room = greatest.map(|n: usize| n.saturating_sub(1));
                    separated_links(all, least.saturating_sub(1), room, link, input)
                }
                Err(_) => Err(E::no_memory(input)),
            }
        }
        Err(error) => {
            if least == 0 && error.is_backtrack() {
                input.reset(&start);
                return Ok(all);
            }
            Err(append_position(error, input, &start))
        }
    }
}

/// Parses links into an accumulator, at least `missing` and at most `room`.
fn separated_links<
    P: Parser<I, O, E>,
    S: Parser<I, D, E>,
    I: Stream,
    O: Drop,
    D: Drop,
    C: Accumulate<O, A>,
    E: ParserError<I>,
    A: Allocator + Copy,
>(all: C, missing: usize, room: Option<usize>, link: &mut Link<P, S>, input: &mut I) -> Result<C, E>
    requires parser { P.can_parse link.old.parser }
    requires separator { S.can_parse link.old.separator }
    ensures again { P.can_parse link.new.parser × S.can_parse link.new.separator }
    ensures ran { (range : Range) → Ran I.reading (Items pair_of with_pair (gathering C.accumulator)
        (from_to missing room) (OnlyElements P.does S.does) all) E.form
        (P.state link.old.parser, S.state link.old.separator, range) (I.view input.old)
        (answer_by E.kind result) (P.state link.new.parser, S.state link.new.separator, range)
        (I.view input.new) }
{
    let mut all = all;
    let mut missing = missing;
    let mut room = room;
    'links: loop {
        if room == Some(0) {
            return Ok(all);
        }
        let start = input.checkpoint();
        match link.run(input) {
            Ok(Some((_separator, output))) => {
                match all.accumulate(output) {
                    Ok(()) => {}
                    Err(_) => return Err(E::no_memory(input)),
                }
                missing = missing.saturating_sub(1);
                room = room.map(|n: usize| n.saturating_sub(1));
            }
            Ok(None) => return Err(E::assert(input, "each separator must consume")),
            Err(error) => {
                if missing == 0 && error.is_backtrack() {
                    input.reset(&start);
                    return Ok(all);
                }
                return Err(append_position(error, input, &start));
            }
        }
    }
}
