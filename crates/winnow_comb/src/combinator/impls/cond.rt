//! A child that is run on a condition.
ghost use Rattle.grammars.specs.Grammar.{When};
ghost use Rattle.parser_definitions.specs.Equal.{AlikeOptions};
ghost use Rattle.parser_definitions.specs.Peek.{CondDoes, cond_law};
ghost use Rattle.parser_definitions.specs.Projects.Choices.{cond_projects};
ghost use Rattle.std.specs.Prelude.{Bool};

use std::marker::PhantomData;
use stream_errors::parser_error::ParserError;
use streams::stream::Stream;
use winnow_core::parser::Parser;

/// The parser that [`cond`](crate::combinator::cond) makes.
///
/// ```
/// let mut parser: Cond<_, _, _, _> = cond(true, 'a');
/// assert_eq!(rt; parser.parse_peek("ab"), Ok::<_, EmptyError>(("b", Some('a'))));
/// ```
#[derive(Drop)]
pub struct Cond<P, I, O, E> {
    pub(crate) condition: bool,
    pub(crate) parser: P,
    pub(crate) marker: PhantomData<(I, O, E)>,
}

impl<P: Parser<I, O, E>, I: Stream, O, E: ParserError<I>> Parser<I, Option<O>, E>
    for Cond<P, I, O, E> {
    ghost can_parse = { λ s. P.can_parse s.parser };

    ghost State = { P.State × Bool };

    ghost state = { λ s. (P.state s.parser, s.condition) };

    ghost does = { CondDoes P.does };

    ghost terms = { record {
      premise = P.terms.premise;
      stable = P.terms.stable;
      alike = AlikeOptions P.terms.alike;
      claim = λ s. record {
        premise = (P.terms.claim s.0).premise;
        backtracks = (P.terms.claim s.0).backtracks;
        spares_memory = (P.terms.claim s.0).spares_memory;
        consumes = ⊥;
        grammar = When s.1 (P.terms.claim s.0).grammar;
      };
    } };

    ghost lawful = { record {
      law = λ is. cond_law (P.lawful.law is);
      claimed = λ s. record {
        projects = λ at is. cond_projects ((P.lawful.claimed s.0).projects at is);
        takes = λ is never. absurd never;
      };
    } };

    #[inline(always)]
    fn parse_next(&mut self, input: &mut I) -> Result<Option<O>, E> {
        if self.condition {
            let output = self.parser.parse_next(input)?;
            Ok(Some(output))
        } else {
            Ok(None)
        }
    }
}
