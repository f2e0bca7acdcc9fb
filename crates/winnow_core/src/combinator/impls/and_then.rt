//! Outputs that another parser reads.
ghost use Rattle.std.specs.Prelude.{◌≡◌};
ghost use Rattle.grammars.specs.Grammar.{Made};
ghost use Rattle.grammars.specs.Grammar.Outputs.{RejectsAll};
ghost use Rattle.grammars.specs.Grammar.Unique.{made_of_takes};
ghost use Rattle.parser_definitions.specs.Projects.{projects_as};
ghost use Rattle.parser_definitions.specs.Projects.Within.{NoneWithin, ReadsWithin};
ghost use Rattle.parser_definitions.specs.Projects.Within.{and_then_projects};
ghost use Rattle.parser_definitions.specs.TryMap.{AndThenDoes, and_then_law};
ghost use Rattle.winnow_core.specs.AndThen.{OneInput};

use crate::parser::Parser;
use std::marker::PhantomData;
use stream_errors::parser_error::ParserError;
use streams::stream::{Stream, StreamIsPartial};

/// The parser that [`Parser::and_then`](crate::parser::Parser::and_then) makes.
///
/// ```
/// let mut parser = take(3_u8).and_then(Digit1);
/// assert_eq!(rt; parser.parse_peek("12;3"), Ok::<_, EmptyError>(("3", "12")));
/// ```
#[derive(Drop)]
pub struct AndThen<F, G, I, O, O2, E> {
    pub(crate) outer: F,
    pub(crate) inner: G,
    pub(crate) marker: PhantomData<(I, O, O2, E)>,
}

impl<F, G, I, O, O2, E> AndThen<F, G, I, O, O2, E> {
    #[inline(always)]
    pub(crate) fn new(outer: F, inner: G) -> AndThen<F, G, I, O, O2, E>
        ensures outer { result.outer ≡ outer }
        ensures inner { result.inner ≡ inner }
    {
        AndThen {
            outer,
            inner,
            marker: PhantomData,
        }
    }
}

impl<
    F: Parser<I, O, E>,
    G: Parser<O, O2, E>,
    I: Stream,
    O: StreamIsPartial + Drop,
    O2,
    E: ParserError<I> + ParserError<O>,
> Parser<I, O2, E> for AndThen<F, G, I, O, O2, E> {
    ghost can_parse = { λ s. F.can_parse s.outer × G.can_parse s.inner };

    ghost State = { F.State × G.State };

    ghost state = { λ s. (F.state s.outer, G.state s.inner) };

    ghost does = { AndThenDoes O.view F.does G.does };

    ghost terms = { record {
      premise = F.terms.premise × G.terms.premise × OneInput O.view F.terms.alike;
      stable = F.terms.stable;
      alike = G.terms.alike;
      claim = λ s. record {
        premise = (F.terms.claim s.0).premise × (G.terms.claim s.1).premise
            × (G.terms.claim s.1).backtracks
            × RejectsAll (ReadsWithin O.view (G.terms.claim s.1).grammar)
            (NoneWithin O.view (G.terms.claim s.1).grammar) tt (F.terms.claim s.0).grammar;
        backtracks = (F.terms.claim s.0).backtracks;
        spares_memory = (F.terms.claim s.0).spares_memory × (G.terms.claim s.1).spares_memory;
        consumes = (F.terms.claim s.0).consumes;
        grammar = Made (ReadsWithin O.view (G.terms.claim s.1).grammar) tt
            (F.terms.claim s.0).grammar;
      };
    } };

    ghost lawful = { record {
      law = λ is. and_then_law O.view is.2 (F.lawful.law is.0) (G.lawful.law is.1);
      claimed = λ s. record {
        projects = λ at is. and_then_projects O.view is.2 is.3
            (projects_as (λ b. b) (λ m. m.0) ((F.lawful.claimed s.0).projects at is.0))
            (λ within. projects_as (λ b. b) (λ m. m.1)
            ((G.lawful.claimed s.1).projects within is.1));
        takes = λ is some. made_of_takes (ReadsWithin O.view (G.terms.claim s.1).grammar) tt
            ((F.lawful.claimed s.0).takes is.0 some);
      };
    } };

    #[inline]
    fn parse_next(&mut self, input: &mut I) -> Result<O2, E> {
        let start = input.checkpoint();
        let mut output = self.outer.parse_next(input)?;
        let _state = output.complete();
        match self.inner.parse_next(&mut output) {
            Ok(output) => Ok(output),
            Err(error) => {
                input.reset(&start);
                Err(error)
            }
        }
    }
}
