//! Parsers that outputs decide.
ghost use Rattle.std.specs.Prelude.{◌≡◌, ◌⊎◌, true};
ghost use Rattle.grammars.specs.Grammar.Decided.{EachMade, FlatMapped, MadeAlike};
ghost use Rattle.grammars.specs.Grammar.Decided.{flat_mapped_takes};
ghost use Rattle.stream_errors.specs.Form.{modal};
ghost use Rattle.parser_definitions.specs.FlatMap.{FlatMapDoes, MakesOne, flat_map_law};
ghost use Rattle.parser_definitions.specs.Projects.{projects_as};
ghost use Rattle.parser_definitions.specs.Projects.Functions.{flat_map_projects};
ghost use Rattle.parser_definitions.specs.Projects.Sequences.{either_way};
ghost use Rattle.parser_definitions.specs.Stays.{Gives, Stays};
ghost use Rattle.winnow_core.specs.FlatMap.{MakesParsers};

use crate::parser::Parser;
use std::marker::PhantomData;
use stream_errors::parser_error::ParserError;
use streams::stream::Stream;

/// The parser that [`Parser::flat_map`](crate::parser::Parser::flat_map) makes.
///
/// ```
/// let mut parser = Any.flat_map(|count: u8| take(count));
/// assert_eq!(rt; parser.parse_peek(b"\x02abc".as_slice()),
///     Ok::<_, EmptyError>((b"c".as_slice(), b"ab".as_slice())));
/// ```
#[derive(Drop)]
pub struct FlatMap<F, G, H, I, O, O2, E> {
    pub(crate) parser: F,
    pub(crate) map: G,
    pub(crate) marker: PhantomData<(H, I, O, O2, E)>,
}

impl<F, G, H, I, O, O2, E> FlatMap<F, G, H, I, O, O2, E> {
    #[inline(always)]
    pub(crate) fn new(parser: F, map: G) -> FlatMap<F, G, H, I, O, O2, E>
        ensures parser { result.parser ≡ parser }
        ensures map { result.map ≡ map }
    {
        FlatMap {
            parser,
            map,
            marker: PhantomData,
        }
    }
}

impl<
    F: Parser<I, O, E>,
    G: FnMut(O) -> H,
    H: Parser<I, O2, E> + Drop,
    I: Stream,
    O,
    O2,
    E: ParserError<I>,
> Parser<I, O2, E> for FlatMap<F, G, H, I, O, O2, E> {
    ghost can_parse = { λ s. F.can_parse s.parser × G.IsAlwaysCallable s.map
        × MakesParsers G.step H.can_parse };

    ghost State = { F.State × G };

    ghost state = { λ s. (F.state s.parser, s.map) };

    ghost does = { FlatMapDoes G.step H.state F.does H.does };

    ghost terms = { record {
      premise = F.terms.premise × H.terms.premise × MakesOne F.terms.alike G.step H.state;
      stable = F.terms.stable × H.terms.stable;
      alike = H.terms.alike;
      claim = λ s. record {
        premise = (F.terms.claim s.0).premise × Stays G.step s.1
            × EachMade (Gives G.step) s.1 (λ m. (H.terms.claim (H.state m)).premise)
            × MadeAlike (Gives G.step) s.1 (λ m. (H.terms.claim (H.state m)).grammar)
            (F.terms.claim s.0).grammar;
        backtracks =
            (F.terms.claim s.0).backtracks
            × EachMade (Gives G.step) s.1 (λ m. (H.terms.claim (H.state m)).backtracks);
        spares_memory =
            (F.terms.claim s.0).spares_memory
            × EachMade (Gives G.step) s.1 (λ m. (H.terms.claim (H.state m)).spares_memory);
        consumes = (F.terms.claim s.0).consumes
            ⊎ EachMade (Gives G.step) s.1 (λ m. (H.terms.claim (H.state m)).consumes);
        grammar = FlatMapped (Gives G.step) s.1 (λ m. (H.terms.claim (H.state m)).grammar)
            (F.terms.claim s.0).grammar;
      };
    } };

    ghost lawful = { record {
      law = λ is. flat_map_law G.step H.state is.2 (F.lawful.law is.0)
          (H.lawful.law is.1);
      claimed = λ s. record {
        projects = λ at is. flat_map_projects G.step H.state
            (λ m. (H.terms.claim (H.state m)).grammar)
            is.1 is.3 (projects_as (λ b. b.0) (λ m. m.0) ((F.lawful.claimed s.0).projects at is.0))
            (λ o made m. projects_as (λ b. b.1 o made m) (λ x. x.1 o made m)
            ((H.lawful.claimed (H.state made)).projects at (is.2 o made m)));
        takes = λ is some. flat_mapped_takes (Gives G.step) s.1
            (λ m. (H.terms.claim (H.state m)).grammar)
            ((F.lawful.claimed s.0).projects (record { form = modal; possible = true }) is.0).unique
            (λ o made m. ((H.lawful.claimed (H.state made)).projects
            (record { form = modal; possible = true }) (is.2 o made m)).unique)
            (either_way ((F.lawful.claimed s.0).takes is.0)
            (λ each o made m. (H.lawful.claimed (H.state made)).takes (is.2 o made m)
            (each o made m)) some);
      };
    } };

    #[inline]
    fn parse_next(&mut self, input: &mut I) -> Result<O2, E> {
        let output = self.parser.parse_next(input)?;
        let mut second = (self.map)(output);
        second.parse_next(input)
    }
}
