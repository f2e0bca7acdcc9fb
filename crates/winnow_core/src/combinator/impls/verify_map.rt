//! The implementation of `verify_map`.
ghost use Rattle.std.specs.Prelude.{◌≡◌, Some};
ghost use Rattle.grammars.specs.Grammar.{Made};
ghost use Rattle.grammars.specs.Grammar.Outputs.{RejectsAll};
ghost use Rattle.grammars.specs.Grammar.Unique.{made_of_takes};
ghost use Rattle.parser_definitions.specs.Equal.{MadeAlike};
ghost use Rattle.parser_definitions.specs.Projects.Settled.{verify_map_projects};
ghost use Rattle.parser_definitions.specs.Stays.{GivesNone, GivesSome, Stays};
ghost use Rattle.parser_definitions.specs.Verify.{RejectsAlike, VerifyMapDoes, verify_map_law};

use crate::parser::Parser;
use std::marker::PhantomData;
use stream_errors::parser_error::ParserError;
use streams::stream::Stream;

/// The parser that [`Parser::verify_map`](crate::parser::Parser::verify_map) makes.
///
/// ```
/// let mut parser = Any.verify_map(|letter: char| letter.to_digit(10));
/// assert_eq!(rt; parser.parse_peek("7;"), Ok::<_, EmptyError>((";", 7)));
/// ```
#[derive(Drop)]
pub struct VerifyMap<F, G, I, O, O2, E> {
    pub(crate) parser: F,
    pub(crate) filter: G,
    pub(crate) marker: PhantomData<(I, O, O2, E)>,
}

impl<F, G, I, O, O2, E> VerifyMap<F, G, I, O, O2, E> {
    #[inline(always)]
    pub(crate) fn new(parser: F, filter: G) -> VerifyMap<F, G, I, O, O2, E>
        ensures parser { result.parser ≡ parser }
        ensures filter { result.filter ≡ filter }
    {
        VerifyMap {
            parser,
            filter,
            marker: PhantomData,
        }
    }
}

impl<F: Parser<I, O, E>, G: FnMut(O) -> Option<O2>, I: Stream, O, O2, E: ParserError<I>> Parser<
    I,
    O2,
    E,
> for VerifyMap<F, G, I, O, O2, E> {
    ghost can_parse = { λ s. F.can_parse s.parser × G.IsAlwaysCallable s.filter };

    ghost State = { F.State × G };

    ghost state = { λ s. (F.state s.parser, s.filter) };

    ghost does = { VerifyMapDoes G.step F.does };

    ghost terms = { record {
      premise = F.terms.premise × RejectsAlike F.terms.alike G.step;
      stable = F.terms.stable;
      alike = MadeAlike F.terms.alike (λ f o u g. G.step f o (Some u) g);
      claim = λ s. record {
        premise = (F.terms.claim s.0).premise × Stays G.step s.1
            × RejectsAll (GivesSome G.step) (GivesNone G.step) s.1 (F.terms.claim s.0).grammar;
        backtracks = (F.terms.claim s.0).backtracks;
        spares_memory = (F.terms.claim s.0).spares_memory;
        consumes = (F.terms.claim s.0).consumes;
        grammar = Made (GivesSome G.step) s.1 (F.terms.claim s.0).grammar;
      };
    } };

    ghost lawful = { record {
      law = λ is. verify_map_law G.step is.1 (F.lawful.law is.0);
      claimed = λ s. record {
        projects = λ at is. verify_map_projects G.step is.1 is.2
            ((F.lawful.claimed s.0).projects at is.0);
        takes = λ is some. made_of_takes (GivesSome G.step) s.1
            ((F.lawful.claimed s.0).takes is.0 some);
      };
    } };

    #[inline]
    fn parse_next(&mut self, input: &mut I) -> Result<O2, E> {
        let start = input.checkpoint();
        let output = self.parser.parse_next(input)?;
        match (self.filter)(output) {
            Some(output) => Ok(output),
            None => {
                input.reset(&start);
                Err(E::from_input(input))
            }
        }
    }
}
