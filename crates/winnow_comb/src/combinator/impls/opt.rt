//! A child that may be left out.
ghost use Rattle.grammars.specs.Grammar.{Optional};
ghost use Rattle.parser_definitions.specs.Equal.{AlikeOptions};
ghost use Rattle.parser_definitions.specs.Opt.{OptDoes, opt_law};
ghost use Rattle.parser_definitions.specs.Projects.Choices.{opt_projects};
ghost use Rattle.std.specs.Prelude.{⊤};

use std::marker::PhantomData;
use stream_errors::parser_error::ParserError;
use streams::stream::Stream;
use winnow_core::parser::Parser;

/// The parser that [`opt`](crate::combinator::opt) makes.
///
/// ```
/// let mut parser: Opt<_, _, _, _> = opt('a');
/// assert_eq!(rt; parser.parse_peek("b"), Ok::<_, EmptyError>(("b", None)));
/// ```
#[derive(Drop)]
pub struct Opt<P, I, O, E> {
    pub(crate) parser: P,
    pub(crate) marker: PhantomData<(I, O, E)>,
}

impl<P: Parser<I, O, E>, I: Stream, O, E: ParserError<I>> Parser<I, Option<O>, E>
    for Opt<P, I, O, E> {
    ghost can_parse = { λ s. P.can_parse s.parser };

    ghost State = { P.State };

    ghost state = { λ s. P.state s.parser };

    ghost does = { OptDoes P.does };

    ghost terms = { record {
      premise = P.terms.premise;
      stable = P.terms.stable;
      alike = AlikeOptions P.terms.alike;
      claim = λ s. record {
        premise = (P.terms.claim s).premise × (P.terms.claim s).backtracks;
        backtracks = ⊤;
        spares_memory = (P.terms.claim s).spares_memory;
        consumes = ⊥;
        grammar = Optional (P.terms.claim s).grammar;
      };
    } };

    ghost lawful = { record {
      law = λ is. opt_law (P.lawful.law is);
      claimed = λ s. record {
        projects = λ at is. opt_projects ((P.lawful.claimed s).projects at is.0) is.1;
        takes = λ is never. absurd never;
      };
    } };

    #[inline(always)]
    fn parse_next(&mut self, input: &mut I) -> Result<Option<O>, E> {
        let start = input.checkpoint();
        match self.parser.parse_next(input) {
            Ok(output) => Ok(Some(output)),
            Err(error) => {
                if error.is_backtrack() {
                    input.reset(&start);
                    Ok(None)
                } else {
                    Err(error)
                }
            }
        }
    }
}
