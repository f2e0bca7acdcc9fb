//! Outputs that are dropped.
ghost use Rattle.std.specs.Prelude.{◌≡◌, ⊤};
ghost use Rattle.grammars.specs.Grammar.{Made};
ghost use Rattle.grammars.specs.Grammar.Unique.{made_of_takes};
ghost use Rattle.parser_definitions.specs.Outputs.{VoidDoes, void_law};
ghost use Rattle.parser_definitions.specs.Projects.Outputs.{void_projects};

use crate::parser::Parser;
use std::marker::PhantomData;
use stream_errors::parser_error::ParserError;
use streams::stream::Stream;

/// The parser that [`Parser::void`](crate::parser::Parser::void) makes.
///
/// ```
/// assert_eq!(rt; "key".void().parse_peek("key="), Ok::<_, EmptyError>(("=", ())));
/// ```
#[derive(Drop)]
pub struct Void<F, I, O, E> {
    pub(crate) parser: F,
    pub(crate) marker: PhantomData<(I, O, E)>,
}

impl<F, I, O, E> Void<F, I, O, E> {
    #[inline(always)]
    pub(crate) fn new(parser: F) -> Void<F, I, O, E>
        ensures { result.parser ≡ parser }
    {
        Void {
            parser,
            marker: PhantomData,
        }
    }
}

impl<F: Parser<I, O, E>, I: Stream, O: Drop, E: ParserError<I>> Parser<I, (), E>
    for Void<F, I, O, E> {
    ghost can_parse = { λ s. F.can_parse s.parser };

    ghost State = { F.State };

    ghost state = { λ s. F.state s.parser };

    ghost does = { VoidDoes F.does };

    ghost terms = { record {
      premise = F.terms.premise;
      stable = F.terms.stable;
      alike = λ u v. u ≡ v;
      claim = λ s. record {
        premise = (F.terms.claim s).premise;
        backtracks = (F.terms.claim s).backtracks;
        spares_memory = (F.terms.claim s).spares_memory;
        consumes = (F.terms.claim s).consumes;
        grammar = Made (λ (_ : Unit {0}) o (u : Unit {0}). ⊤) tt (F.terms.claim s).grammar;
      };
    } };

    ghost lawful = { record {
      law = λ is. void_law (F.lawful.law is);
      claimed = λ s. record {
        projects = λ at is. void_projects ((F.lawful.claimed s).projects at is);
        takes = λ is some. made_of_takes (λ (_ : Unit {0}) o (u : Unit {0}). ⊤) tt
            ((F.lawful.claimed s).takes is some);
      };
    } };

    #[inline(always)]
    fn parse_next(&mut self, input: &mut I) -> Result<(), E> {
        let _output = self.parser.parse_next(input)?;
        Ok(())
    }
}
