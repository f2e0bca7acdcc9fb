//! The parser after a reference.
ghost use Rattle.std.specs.Prelude.{ℕ};
ghost use Rattle.parser_definitions.specs.ByRef.{ByRefDoes, by_ref_law};
ghost use Rattle.parser_definitions.specs.Projects.Functions.{by_ref_projects};

use crate::parser::Parser;
use std::marker::PhantomData;
use stream_errors::parser_error::ParserError;
use streams::stream::Stream;

/// The parser that [`Parser::by_ref`](crate::parser::Parser::by_ref) makes.
///
/// ```
/// let mut digits = take_while(1.., '0'..='9');
/// assert_eq!(rt; digits.by_ref().parse_peek("12;"), Ok::<_, EmptyError>((";", "12")));
/// assert_eq!(rt; digits.parse_peek("3"), Ok::<_, EmptyError>(("", "3")));
/// ```
#[derive(Drop)]
pub struct ByRef<'p, P, I, O, E> {
    pub(crate) parser: &'p mut P,
    pub(crate) marker: PhantomData<(I, O, E)>,
}

impl<'p, P: Parser<I, O, E>, I: Stream, O, E: ParserError<I>> Parser<I, O, E>
    for ByRef<'p, P, I, O, E> {
    ghost can_parse = { λ s. P.can_parse s.parser.now };

    ghost State = { P.State × ℕ };

    ghost state = { λ s. (P.state s.parser.now, s.parser.ghost_name) };

    ghost does = { ByRefDoes P.does };

    ghost terms = { record {
      premise = P.terms.premise;
      stable = P.terms.stable;
      alike = P.terms.alike;
      claim = λ s. record {
        premise = (P.terms.claim s.0).premise;
        backtracks = (P.terms.claim s.0).backtracks;
        spares_memory = (P.terms.claim s.0).spares_memory;
        consumes = (P.terms.claim s.0).consumes;
        grammar = (P.terms.claim s.0).grammar;
      };
    } };

    ghost lawful = { record {
      law = λ is. by_ref_law (P.lawful.law is);
      claimed = λ s. record {
        projects = λ at is. by_ref_projects ((P.lawful.claimed s.0).projects at is);
        takes = λ is some. (P.lawful.claimed s.0).takes is some;
      };
    } };

    #[inline(always)]
    fn parse_next(&mut self, input: &mut I) -> Result<O, E> {
        self.parser.parse_next(input)
    }
}
