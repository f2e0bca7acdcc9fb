//! Outputs made of outputs by a closure.
ghost use Rattle.std.specs.Prelude.{◌≡◌};
ghost use Rattle.grammars.specs.Grammar.{Made};
ghost use Rattle.grammars.specs.Grammar.Unique.{made_of_takes};
ghost use Rattle.parser_definitions.specs.Equal.{MadeAlike, StepsAlike};
ghost use Rattle.parser_definitions.specs.Map.{MapDoes, map_law};
ghost use Rattle.parser_definitions.specs.Projects.Outputs.{map_projects};
ghost use Rattle.parser_definitions.specs.Stays.{Gives, Stays};

use crate::parser::Parser;
use std::marker::PhantomData;
use stream_errors::parser_error::ParserError;
use streams::stream::Stream;

/// The parser that [`Parser::map`](crate::parser::Parser::map) makes.
///
/// ```
/// let mut parser = Digit1.map(|digits: &str| digits.len());
/// assert_eq!(rt; parser.parse_peek("12;"), Ok::<_, EmptyError>((";", 2)));
/// ```
#[derive(Drop)]
pub struct Map<F, G, I, O, O2, E> {
    pub(crate) parser: F,
    pub(crate) map: G,
    pub(crate) marker: PhantomData<(I, O, O2, E)>,
}

impl<F, G, I, O, O2, E> Map<F, G, I, O, O2, E> {
    #[inline(always)]
    pub(crate) fn new(parser: F, map: G) -> Map<F, G, I, O, O2, E>
        ensures parser { result.parser ≡ parser }
        ensures map { result.map ≡ map }
    {
        Map {
            parser,
            map,
            marker: PhantomData,
        }
    }
}

impl<F: Parser<I, O, E>, G: FnMut(O) -> O2, I: Stream, O, O2, E: ParserError<I>> Parser<I, O2, E>
    for Map<F, G, I, O, O2, E> {
    ghost can_parse = { λ s. F.can_parse s.parser × G.IsAlwaysCallable s.map };

    ghost State = { F.State × G };

    ghost state = { λ s. (F.state s.parser, s.map) };

    ghost does = { MapDoes G.step F.does };

    ghost terms = { record {
      premise = F.terms.premise × StepsAlike F.terms.alike G.step;
      stable = F.terms.stable;
      alike = MadeAlike F.terms.alike G.step;
      claim = λ s. record {
        premise = (F.terms.claim s.0).premise × Stays G.step s.1;
        backtracks = (F.terms.claim s.0).backtracks;
        spares_memory = (F.terms.claim s.0).spares_memory;
        consumes = (F.terms.claim s.0).consumes;
        grammar = Made (Gives G.step) s.1 (F.terms.claim s.0).grammar;
      };
    } };

    ghost lawful = { record {
      law = λ is. map_law G.step is.1 (F.lawful.law is.0);
      claimed = λ s. record {
        projects = λ at is. map_projects G.step is.1 ((F.lawful.claimed s.0).projects at is.0);
        takes = λ is some. made_of_takes (Gives G.step) s.1
            ((F.lawful.claimed s.0).takes is.0 some);
      };
    } };

    #[inline(always)]
    fn parse_next(&mut self, input: &mut I) -> Result<O2, E> {
        let output = self.parser.parse_next(input)?;
        Ok((self.map)(output))
    }
}
