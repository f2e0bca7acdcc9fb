//! Errors that do not ask for more input.
ghost use Rattle.std.specs.Prelude.{◌≡◌};
ghost use Rattle.parser_definitions.specs.MapErr.{CompleteErrDoes, complete_err_law};
ghost use Rattle.parser_definitions.specs.Projects.Errors.{complete_err_projects};

use crate::parser::Parser;
use std::marker::PhantomData;
use stream_errors::parser_error::ParserError;
use streams::stream::Stream;

/// The parser that [`Parser::complete_err`](crate::parser::Parser::complete_err) makes.
///
/// ```
/// let answer: Result<&str, ErrMode<EmptyError>> =
///     Digit1.complete_err().parse_next(&mut Partial::new("12"));
/// assert_eq!(rt; answer, Err(ErrMode::Backtrack(EmptyError::from_input(&""))));
/// ```
#[derive(Drop)]
pub struct CompleteErr<F, I, O, E> {
    pub(crate) parser: F,
    pub(crate) marker: PhantomData<(I, O, E)>,
}

impl<F, I, O, E> CompleteErr<F, I, O, E> {
    #[inline(always)]
    pub(crate) fn new(parser: F) -> CompleteErr<F, I, O, E>
        ensures { result.parser ≡ parser }
    {
        CompleteErr {
            parser,
            marker: PhantomData,
        }
    }
}

impl<F: Parser<I, O, E>, I: Stream, O, E: ParserError<I>> Parser<I, O, E>
    for CompleteErr<F, I, O, E> {
    ghost can_parse = { λ s. F.can_parse s.parser };

    ghost State = { F.State };

    ghost state = { λ s. F.state s.parser };

    ghost does = { CompleteErrDoes F.does };

    ghost terms = { record {
      premise = F.terms.premise;
      stable = ⊥;
      alike = F.terms.alike;
      claim = λ s. record {
        premise = (F.terms.claim s).premise;
        backtracks = (F.terms.claim s).backtracks;
        spares_memory = (F.terms.claim s).spares_memory;
        consumes = (F.terms.claim s).consumes;
        grammar = (F.terms.claim s).grammar;
      };
    } };

    ghost lawful = { record {
      law = λ is. complete_err_law (F.lawful.law is);
      claimed = λ s. record {
        projects = λ at is. complete_err_projects ((F.lawful.claimed s).projects at is);
        takes = λ is some. (F.lawful.claimed s).takes is some;
      };
    } };

    #[inline]
    fn parse_next(&mut self, input: &mut I) -> Result<O, E> {
        match self.parser.parse_next(input) {
            Ok(output) => Ok(output),
            Err(error) => {
                if error.is_incomplete() {
                    Err(E::from_input(input))
                } else {
                    Err(error)
                }
            }
        }
    }
}
