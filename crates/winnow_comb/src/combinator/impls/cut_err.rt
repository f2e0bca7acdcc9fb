//! A child whose errors cut.
ghost use Rattle.parser_definitions.specs.Peek.{CutErrDoes, cut_err_law};
ghost use Rattle.parser_definitions.specs.Projects.Choices.{cut_err_projects};

use std::marker::PhantomData;
use stream_errors::modal::ModalError;
use stream_errors::parser_error::ParserError;
use streams::stream::Stream;
use winnow_core::parser::Parser;

/// The parser that [`cut_err`](crate::combinator::cut_err) makes.
///
/// ```
/// let mut parser: CutErr<_, _, _, _> = cut_err('a');
/// assert_eq!(rt; parser.parse_peek("ab"), Ok::<_, ErrMode<EmptyError>>(("b", 'a')));
/// ```
#[derive(Drop)]
pub struct CutErr<P, I, O, E> {
    pub(crate) parser: P,
    pub(crate) marker: PhantomData<(I, O, E)>,
}

impl<P: Parser<I, O, E>, I: Stream, O, E: ParserError<I> + ModalError> Parser<I, O, E>
    for CutErr<P, I, O, E> {
    ghost can_parse = { λ s. P.can_parse s.parser };

    ghost State = { P.State };

    ghost state = { λ s. P.state s.parser };

    ghost does = { CutErrDoes P.does };

    ghost terms = { record {
      premise = P.terms.premise;
      stable = P.terms.stable;
      alike = P.terms.alike;
      claim = λ s. record {
        premise = (P.terms.claim s).premise;
        backtracks = ⊥;
        spares_memory = (P.terms.claim s).spares_memory;
        consumes = (P.terms.claim s).consumes;
        grammar = (P.terms.claim s).grammar;
      };
    } };

    ghost lawful = { record {
      law = λ is. cut_err_law (P.lawful.law is);
      claimed = λ s. record {
        projects = λ at is. cut_err_projects ((P.lawful.claimed s).projects at is);
        takes = λ is some. (P.lawful.claimed s).takes is some;
      };
    } };

    #[inline(always)]
    fn parse_next(&mut self, input: &mut I) -> Result<O, E> {
        match self.parser.parse_next(input) {
            Ok(output) => Ok(output),
            Err(error) => Err(error.cut()),
        }
    }
}
