//! The implementation of `value`.
ghost use Rattle.std.specs.Prelude.{◌≡◌};
ghost use Rattle.grammars.specs.Grammar.{Made};
ghost use Rattle.grammars.specs.Grammar.Unique.{made_of_takes};
ghost use Rattle.parser_definitions.specs.Projects.{projects_as};
ghost use Rattle.parser_definitions.specs.Projects.Settled.{value_projects};
ghost use Rattle.parser_definitions.specs.TryMap.{ValueDoes, value_law};
ghost use Rattle.winnow_core.specs.Value.{AlikeClones, value_kept, value_parser};

use crate::parser::Parser;
use std::marker::PhantomData;
use stream_errors::parser_error::ParserError;
use streams::stream::Stream;

/// The parser that [`Parser::value`](crate::parser::Parser::value) makes.
///
/// ```
/// assert_eq!(rt; 't'.value(true).parse_peek("t;"), Ok::<_, EmptyError>((";", true)));
/// ```
#[derive(Drop)]
pub struct Value<F, I, O, O2, E> {
    pub(crate) parser: F,
    pub(crate) value: O2,
    pub(crate) marker: PhantomData<(I, O, E)>,
}

impl<F, I, O, O2, E> Value<F, I, O, O2, E> {
    #[inline(always)]
    pub(crate) fn new(parser: F, value: O2) -> Value<F, I, O, O2, E>
        ensures parser { value_parser result ≡ parser }
        ensures value { value_kept result ≡ value }
    {
        Value {
            parser,
            value,
            marker: PhantomData,
        }
    }
}

impl<F: Parser<I, O, E>, I: Stream, O: Drop, O2: Clone, E: ParserError<I>> Parser<I, O2, E>
    for Value<F, I, O, O2, E> {
    ghost can_parse = { λ s. F.can_parse s.parser };

    ghost State = { F.State × O2 };

    ghost state = { λ s. (F.state s.parser, s.value) };

    ghost does = { ValueDoes O2.is_clone O2.is_infallible F.does };

    ghost terms = { record {
      premise = F.terms.premise;
      stable = F.terms.stable;
      alike = AlikeClones O2.is_clone;
      claim = λ s. record {
        premise = (F.terms.claim s.0).premise;
        backtracks = (F.terms.claim s.0).backtracks;
        spares_memory = (F.terms.claim s.0).spares_memory × O2.is_infallible s.1;
        consumes = (F.terms.claim s.0).consumes;
        grammar = Made (λ v o u. O2.is_clone v u) s.1 (F.terms.claim s.0).grammar;
      };
    } };

    ghost lawful = { record {
      law = λ is. value_law O2.is_clone O2.is_infallible (λ value u v x y. (value, x, y))
          (F.lawful.law is);
      claimed = λ s. record {
        projects = λ at is. value_projects O2.is_clone O2.is_infallible (λ m. m.1)
            (projects_as (λ b. b) (λ m. m.0) ((F.lawful.claimed s.0).projects at is));
        takes = λ is some. made_of_takes (λ v o u. O2.is_clone v u) s.1
            ((F.lawful.claimed s.0).takes is some);
      };
    } };

    #[inline]
    fn parse_next(&mut self, input: &mut I) -> Result<O2, E> {
        let _output = self.parser.parse_next(input)?;
        match self.value.clone() {
            Ok(value) => Ok(value),
            Err(_) => Err(E::no_memory(input)),
        }
    }
}
