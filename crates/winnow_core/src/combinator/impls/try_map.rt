//! Outputs made of outputs by a closure that may fail.
ghost use Rattle.std.specs.Prelude.{◌≡◌, Ok};
ghost use Rattle.grammars.specs.Grammar.{Made};
ghost use Rattle.grammars.specs.Grammar.Outputs.{RejectsAll};
ghost use Rattle.grammars.specs.Grammar.Unique.{made_of_takes};
ghost use Rattle.stream_errors.specs.Given.{Keeping};
ghost use Rattle.parser_definitions.specs.Equal.{MadeAlike};
ghost use Rattle.parser_definitions.specs.Projects.{projects_as};
ghost use Rattle.parser_definitions.specs.Projects.Within.{ErrorsKept, GivesErr, GivesOk};
ghost use Rattle.parser_definitions.specs.Projects.Within.{try_map_projects};
ghost use Rattle.parser_definitions.specs.Stays.{Stays};
ghost use Rattle.parser_definitions.specs.TryMap.{TriesAlike, TryMapDoes, try_map_law};

use crate::parser::Parser;
use std::marker::PhantomData;
use stream_errors::external::FromExternalError;
use stream_errors::parser_error::ParserError;
use streams::stream::Stream;

/// The parser that [`Parser::try_map`](crate::parser::Parser::try_map) makes.
///
/// ```
/// let mut parser = Digit1.try_map(|digits: &str| digits.parse::<u8>());
/// assert_eq!(rt; parser.parse_peek("12;"), Ok::<_, EmptyError>((";", 12)));
/// ```
#[derive(Drop)]
pub struct TryMap<F, G, I, O, O2, E, E2> {
    pub(crate) parser: F,
    pub(crate) map: G,
    pub(crate) marker: PhantomData<(I, O, O2, E, E2)>,
}

impl<F, G, I, O, O2, E, E2> TryMap<F, G, I, O, O2, E, E2> {
    #[inline(always)]
    pub(crate) fn new(parser: F, map: G) -> TryMap<F, G, I, O, O2, E, E2>
        ensures parser { result.parser ≡ parser }
        ensures map { result.map ≡ map }
    {
        TryMap {
            parser,
            map,
            marker: PhantomData,
        }
    }
}

impl<
    F: Parser<I, O, E>,
    G: FnMut(O) -> Result<O2, E2>,
    I: Stream,
    O,
    O2,
    E: ParserError<I> + FromExternalError<I, E2>,
    E2,
> Parser<I, O2, E> for TryMap<F, G, I, O, O2, E, E2> {
    ghost can_parse = { λ s. F.can_parse s.parser × G.IsAlwaysCallable s.map };

    ghost State = { F.State × (G × (E2 → Keeping)) };

    ghost state = { λ s. (F.state s.parser, (s.map, E.external_gives)) };

    ghost does = { TryMapDoes G.step F.does };

    ghost terms = { record {
      premise = F.terms.premise × TriesAlike F.terms.alike G.step;
      stable = F.terms.stable;
      alike = MadeAlike F.terms.alike (λ f o u g. G.step f o (Ok u) g);
      claim = λ s. record {
        premise = (F.terms.claim s.0).premise × Stays G.step s.1.0
            × RejectsAll (GivesOk G.step) (GivesErr G.step) s.1.0 (F.terms.claim s.0).grammar;
        backtracks = (F.terms.claim s.0).backtracks;
        spares_memory = (F.terms.claim s.0).spares_memory × ErrorsKept s.1.1;
        consumes = (F.terms.claim s.0).consumes;
        grammar = Made (GivesOk G.step) s.1.0 (F.terms.claim s.0).grammar;
      };
    } };

    ghost lawful = { record {
      law = λ is. try_map_law F.terms.alike G.step is.1 (F.lawful.law is.0);
      claimed = λ s. record {
        projects = λ at is. try_map_projects G.step is.1 (λ m. m.1) is.2
            (projects_as (λ b. b) (λ m. m.0) ((F.lawful.claimed s.0).projects at is.0));
        takes = λ is some. made_of_takes (GivesOk G.step) s.1.0
            ((F.lawful.claimed s.0).takes is.0 some);
      };
    } };

    #[inline]
    fn parse_next(&mut self, input: &mut I) -> Result<O2, E> {
        let start = input.checkpoint();
        let output = self.parser.parse_next(input)?;
        match (self.map)(output) {
            Ok(output) => Ok(output),
            Err(error) => {
                input.reset(&start);
                Err(E::from_external_error(input, error))
            }
        }
    }
}
