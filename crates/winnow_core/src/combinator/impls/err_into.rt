//! Errors that are converted.
ghost use Rattle.std.specs.Prelude.{◌≡◌};
ghost use Rattle.stream_errors.specs.Form.{modal};
ghost use Rattle.parser_definitions.specs.MapErr.{ConvertsKinds, ConvertsSparing, ErrIntoDoes};
ghost use Rattle.parser_definitions.specs.MapErr.{SameKinds, err_into_law};
ghost use Rattle.parser_definitions.specs.Projects.{projects_as};
ghost use Rattle.parser_definitions.specs.Projects.Errors.{err_into_projects, formed};

use crate::parser::Parser;
use std::marker::PhantomData;
use stream_errors::parser_error::ParserError;
use streams::stream::Stream;

/// The parser that [`Parser::err_into`](crate::parser::Parser::err_into) makes.
///
/// ```
/// let mut parser = Digit1.map_err(|error: EmptyError| error).err_into::<EmptyError>();
/// assert_eq!(rt; parser.parse_peek("12;"), Ok((";", "12")));
/// ```
#[derive(Drop)]
pub struct ErrInto<F, I, O, E, E2> {
    pub(crate) parser: F,
    pub(crate) marker: PhantomData<(I, O, E, E2)>,
}

impl<F, I, O, E, E2> ErrInto<F, I, O, E, E2> {
    #[inline(always)]
    pub(crate) fn new(parser: F) -> ErrInto<F, I, O, E, E2>
        ensures { result.parser ≡ parser }
    {
        ErrInto {
            parser,
            marker: PhantomData,
        }
    }
}

impl<F: Parser<I, O, E>, I: Stream, O, E: ParserError<I> + Into<E2>, E2: ParserError<I>> Parser<
    I,
    O,
    E2,
> for ErrInto<F, I, O, E, E2> {
    ghost can_parse = { λ s. F.can_parse s.parser };

    ghost State = { F.State };

    ghost state = { λ s. F.state s.parser };

    ghost does = { ErrIntoDoes E.form E.kind E2.kind E.converts F.does };

    ghost terms = { record {
      premise = F.terms.premise × ConvertsKinds E.kind E2.kind E.converts;
      stable = F.terms.stable × (E.form ≡ modal);
      alike = F.terms.alike;
      claim = λ s. record {
        premise = (F.terms.claim s).premise × SameKinds E.kind E2.kind E.converts;
        backtracks = (F.terms.claim s).backtracks;
        spares_memory =
            (F.terms.claim s).spares_memory × ConvertsSparing E.kind E2.kind E.converts;
        consumes = (F.terms.claim s).consumes;
        grammar = (F.terms.claim s).grammar;
      };
    } };

    ghost lawful = { record {
      law = λ is. err_into_law E.form E.kind E2.kind E.converts is.1
          (F.lawful.law is.0);
      claimed = λ s. record {
        projects = λ at is. err_into_projects E.form E.kind E2.kind E.converts is.1 (λ m. m.1)
            (projects_as (λ b. b) (λ m. m.0)
            ((F.lawful.claimed s).projects (formed E.form at) is.0));
        takes = λ is some. (F.lawful.claimed s).takes is.0 some;
      };
    } };

    #[inline]
    fn parse_next(&mut self, input: &mut I) -> Result<O, E2> {
        match self.parser.parse_next(input) {
            Ok(output) => Ok(output),
            Err(error) => Err(error.into()),
        }
    }
}
