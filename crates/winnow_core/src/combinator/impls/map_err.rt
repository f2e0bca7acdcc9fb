//! Errors made of errors by a closure.
ghost use Rattle.std.specs.Prelude.{◌≡◌};
ghost use Rattle.stream_errors.specs.Form.{modal};
ghost use Rattle.parser_definitions.specs.MapErr.{InForm, KeepsEachKind, KeepsMemory, MapErrDoes};
ghost use Rattle.parser_definitions.specs.MapErr.{MapsErrors, form_law, map_err_law};
ghost use Rattle.parser_definitions.specs.Projects.Errors.{formed, map_err_projects};
ghost use Rattle.parser_definitions.specs.Stays.{Stays};

use crate::parser::Parser;
use std::marker::PhantomData;
use stream_errors::parser_error::ParserError;
use streams::stream::Stream;

/// The parser that [`Parser::map_err`](crate::parser::Parser::map_err) makes.
///
/// ```
/// let mut parser = Digit1.map_err(|error: EmptyError| ErrMode::Cut(error));
/// let answer: Result<&str, ErrMode<EmptyError>> = parser.parse_next(&mut "a");
/// assert_eq!(rt; answer, Err(ErrMode::Cut(EmptyError::from_input(&"a"))));
/// ```
#[derive(Drop)]
pub struct MapErr<F, G, I, O, E, E2> {
    pub(crate) parser: F,
    pub(crate) map: G,
    pub(crate) marker: PhantomData<(I, O, E, E2)>,
}

impl<F, G, I, O, E, E2> MapErr<F, G, I, O, E, E2> {
    #[inline(always)]
    pub(crate) fn new(parser: F, map: G) -> MapErr<F, G, I, O, E, E2>
        ensures parser { result.parser ≡ parser }
        ensures map { result.map ≡ map }
    {
        MapErr {
            parser,
            map,
            marker: PhantomData,
        }
    }
}

impl<
    F: Parser<I, O, E>,
    G: FnMut(E) -> E2,
    I: Stream,
    O,
    E: ParserError<I>,
    E2: ParserError<I>,
> Parser<I, O, E2> for MapErr<F, G, I, O, E, E2> {
    ghost can_parse = { λ s. F.can_parse s.parser × G.IsAlwaysCallable s.map };

    ghost State = { F.State × G };

    ghost state = { λ s. (F.state s.parser, s.map) };

    ghost does = { MapErrDoes E.kind E2.kind G.step (InForm E.form F.does) };

    ghost terms = { record {
      premise = F.terms.premise × MapsErrors E.kind E2.kind G.step
          × KeepsMemory E.kind E2.kind G.step;
      stable = F.terms.stable × (E.form ≡ modal);
      alike = F.terms.alike;
      claim = λ s. record {
        premise = (F.terms.claim s.0).premise × Stays G.step s.1 × KeepsEachKind E.kind E2.kind
            G.step;
        backtracks = (F.terms.claim s.0).backtracks;
        spares_memory = (F.terms.claim s.0).spares_memory;
        consumes = (F.terms.claim s.0).consumes;
        grammar = (F.terms.claim s.0).grammar;
      };
    } };

    ghost lawful = { record {
      law = λ is. map_err_law E.kind E2.kind G.step is.1 is.2
          (form_law E.form (F.lawful.law is.0));
      claimed = λ s. record {
        projects = λ at is. map_err_projects E.kind E2.kind G.step is.1 E.form is.2
            ((F.lawful.claimed s.0).projects (formed E.form at) is.0);
        takes = λ is some. (F.lawful.claimed s.0).takes is.0 some;
      };
    } };

    #[inline]
    fn parse_next(&mut self, input: &mut I) -> Result<O, E2> {
        match self.parser.parse_next(input) {
            Ok(output) => Ok(output),
            Err(error) => Err((self.map)(error)),
        }
    }
}
