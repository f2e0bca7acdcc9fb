//! A child whose run consumes nothing.
ghost use Rattle.grammars.specs.Grammar.{Ahead};
ghost use Rattle.parser_definitions.specs.Peek.{PeekDoes, peek_law};
ghost use Rattle.parser_definitions.specs.Projects.Choices.{peek_projects};

use std::marker::PhantomData;
use stream_errors::parser_error::ParserError;
use streams::stream::Stream;
use winnow_core::parser::Parser;

/// The parser that [`peek`](crate::combinator::peek) makes.
///
/// ```
/// let mut parser: Peek<_, _, _, _> = peek('a');
/// assert_eq!(rt; parser.parse_peek("ab"), Ok::<_, EmptyError>(("ab", 'a')));
/// ```
#[derive(Drop)]
pub struct Peek<P, I, O, E> {
    pub(crate) parser: P,
    pub(crate) marker: PhantomData<(I, O, E)>,
}

impl<P: Parser<I, O, E>, I: Stream, O, E: ParserError<I>> Parser<I, O, E> for Peek<P, I, O, E> {
    ghost can_parse = { λ s. P.can_parse s.parser };

    ghost State = { P.State };

    ghost state = { λ s. P.state s.parser };

    ghost does = { PeekDoes P.does };

    ghost terms = { record {
      premise = P.terms.premise;
      stable = P.terms.stable;
      alike = P.terms.alike;
      claim = λ s. record {
        premise = (P.terms.claim s).premise;
        backtracks = (P.terms.claim s).backtracks;
        spares_memory = (P.terms.claim s).spares_memory;
        consumes = ⊥;
        grammar = Ahead (P.terms.claim s).grammar;
      };
    } };

    ghost lawful = { record {
      law = λ is. peek_law (P.lawful.law is);
      claimed = λ s. record {
        projects = λ at is. peek_projects ((P.lawful.claimed s).projects at is);
        takes = λ is never. absurd never;
      };
    } };

    #[inline(always)]
    fn parse_next(&mut self, input: &mut I) -> Result<O, E> {
        let start = input.checkpoint();
        let seen = self.parser.parse_next(input);
        input.reset(&start);
        seen
    }
}
