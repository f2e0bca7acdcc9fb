//! A child that is not to succeed.
ghost use Rattle.grammars.specs.Grammar.{NotAhead};
ghost use Rattle.parser_definitions.specs.Peek.{NotDoes, not_law};
ghost use Rattle.parser_definitions.specs.Projects.Choices.{not_projects};
ghost use Rattle.std.specs.Prelude.{⊤};

use std::marker::PhantomData;
use stream_errors::parser_error::ParserError;
use streams::stream::Stream;
use winnow_core::parser::Parser;

/// The parser that [`not`](crate::combinator::not) makes.
///
/// ```
/// let mut parser: Not<_, _, _, _> = not('a');
/// assert_eq!(rt; parser.parse_peek("b"), Ok::<_, EmptyError>(("b", ())));
/// ```
#[derive(Drop)]
pub struct Not<P, I, O, E> {
    pub(crate) parser: P,
    pub(crate) marker: PhantomData<(I, O, E)>,
}

impl<P: Parser<I, O, E>, I: Stream, O: Drop, E: ParserError<I>> Parser<I, (), E>
    for Not<P, I, O, E> {
    ghost can_parse = { λ s. P.can_parse s.parser };

    ghost State = { P.State };

    ghost state = { λ s. P.state s.parser };

    ghost does = { NotDoes P.does };

    ghost terms = { record {
      premise = P.terms.premise;
      stable = P.terms.stable;
      alike = λ o p. ⊤;
      claim = λ s. record {
        premise = (P.terms.claim s).premise × (P.terms.claim s).backtracks;
        backtracks = ⊤;
        spares_memory = (P.terms.claim s).spares_memory;
        consumes = ⊥;
        grammar = NotAhead (P.terms.claim s).grammar;
      };
    } };

    ghost lawful = { record {
      law = λ is. not_law (P.lawful.law is);
      claimed = λ s. record {
        projects = λ at is. not_projects ((P.lawful.claimed s).projects at is.0) is.1;
        takes = λ is never. absurd never;
      };
    } };

    #[inline(always)]
    fn parse_next(&mut self, input: &mut I) -> Result<(), E> {
        let start = input.checkpoint();
        let answer = self.parser.parse_next(input);
        input.reset(&start);
        match answer {
            Ok(_output) => Err(E::from_input(input)),
            Err(error) => {
                if error.is_backtrack() {
                    Ok(())
                } else {
                    Err(error)
                }
            }
        }
    }
}
