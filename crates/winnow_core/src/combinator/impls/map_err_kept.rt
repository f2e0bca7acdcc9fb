//! Errors made of errors of their kind by a closure.
ghost use Rattle.std.specs.Prelude.{◌≡◌};
ghost use Rattle.parser_definitions.specs.MapErr.{KeepsEachKind, MapErrKeptDoes, OneNext};
ghost use Rattle.parser_definitions.specs.MapErr.{map_err_kept_law};
ghost use Rattle.parser_definitions.specs.Projects.Errors.{map_err_kept_projects};
ghost use Rattle.parser_definitions.specs.Stays.{Stays};

use crate::parser::Parser;
use std::marker::PhantomData;
use stream_errors::parser_error::ParserError;
use streams::stream::Stream;

/// The parser that [`Parser::map_err_kept`](crate::parser::Parser::map_err_kept) makes.
///
/// It is stable if its child is. [`MapErr`](crate::combinator::impls::MapErr) is so only if its
/// closure keeps `Incomplete`.
///
/// ```
/// let mut digits = Digit1.map_err_kept(|error: ErrMode<EmptyError>| error);
/// let answer: Result<&str, ErrMode<EmptyError>> = digits.parse_next(&mut Partial::new("12"));
/// assert_eq!(rt; answer, Err(ErrMode::Incomplete(Needed::new(1))));
/// ```
#[derive(Drop)]
pub struct MapErrKept<F, G, I, O, E, E2> {
    pub(crate) parser: F,
    pub(crate) map: G,
    pub(crate) marker: PhantomData<(I, O, E, E2)>,
}

impl<F, G, I, O, E, E2> MapErrKept<F, G, I, O, E, E2> {
    #[inline(always)]
    pub(crate) fn new(parser: F, map: G) -> MapErrKept<F, G, I, O, E, E2>
        ensures parser { result.parser ≡ parser }
        ensures map { result.map ≡ map }
    {
        MapErrKept {
            parser,
            map,
            marker: PhantomData,
        }
    }
}

impl<
    F: Parser<I, O, E>,
    G: FnMut(E) -> E2,
    I: Stream,
    O,
    E: ParserError<I>,
    E2: ParserError<I>,
> Parser<I, O, E2> for MapErrKept<F, G, I, O, E, E2> {
    ghost can_parse = { λ s. F.can_parse s.parser × G.IsAlwaysCallable s.map
        × KeepsEachKind E.kind E2.kind G.step × (E.form ≡ E2.form) };

    ghost State = { F.State × G };

    ghost state = { λ s. (F.state s.parser, s.map) };

    ghost does = { MapErrKeptDoes E.kind E2.kind G.step F.does };

    ghost terms = { record {
      premise = F.terms.premise × OneNext E.kind G.step;
      stable = F.terms.stable;
      alike = F.terms.alike;
      claim = λ s. record {
        premise = (F.terms.claim s.0).premise × Stays G.step s.1;
        backtracks = (F.terms.claim s.0).backtracks;
        spares_memory = (F.terms.claim s.0).spares_memory;
        consumes = (F.terms.claim s.0).consumes;
        grammar = (F.terms.claim s.0).grammar;
      };
    } };

    ghost lawful = { record {
      law = λ is. map_err_kept_law E.kind E2.kind G.step is.1 (F.lawful.law is.0);
      claimed = λ s. record {
        projects = λ at is. map_err_kept_projects E.kind E2.kind G.step is.1
            ((F.lawful.claimed s.0).projects at is.0);
        takes = λ is some. (F.lawful.claimed s.0).takes is.0 some;
      };
    } };

    #[inline]
    fn parse_next(&mut self, input: &mut I) -> Result<O, E2> {
        match self.parser.parse_next(input) {
            Ok(output) => Ok(output),
            Err(error) => Err((self.map)(error)),
        }
    }
}
