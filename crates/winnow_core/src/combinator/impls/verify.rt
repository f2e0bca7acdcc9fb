//! Outputs that a closure tests.
ghost use Rattle.std.specs.Fn.{CalledAt};
ghost use Rattle.std.specs.Prelude.{◌≡◌};
ghost use Rattle.grammars.specs.Grammar.{Made};
ghost use Rattle.grammars.specs.Grammar.Outputs.{RejectsAll};
ghost use Rattle.grammars.specs.Grammar.Unique.{made_of_takes};
ghost use Rattle.parser_definitions.specs.Projects.Settled.{verify_projects};
ghost use Rattle.parser_definitions.specs.Stays.{Finds, Misses, Stays};
ghost use Rattle.parser_definitions.specs.Verify.{FindsAlike, VerifyDoes, verify_law};

use crate::parser::Parser;
use std::marker::PhantomData;
use stream_errors::parser_error::ParserError;
use streams::stream::Stream;

/// The parser that [`Parser::verify`](crate::parser::Parser::verify) makes.
///
/// ```
/// let mut parser = Any.verify(|letter: &char| *letter == 'a');
/// assert_eq!(rt; parser.parse_peek("ab"), Ok::<_, EmptyError>(("b", 'a')));
/// ```
#[derive(Drop)]
pub struct Verify<F, G, I, O, E> {
    pub(crate) parser: F,
    pub(crate) filter: G,
    pub(crate) marker: PhantomData<(I, O, E)>,
}

impl<F, G, I, O, E> Verify<F, G, I, O, E> {
    #[inline(always)]
    pub(crate) fn new(parser: F, filter: G) -> Verify<F, G, I, O, E>
        ensures parser { result.parser ≡ parser }
        ensures filter { result.filter ≡ filter }
    {
        Verify {
            parser,
            filter,
            marker: PhantomData,
        }
    }
}

impl<F: Parser<I, O, E>, G: FnMut(&O) -> bool, I: Stream, O: Drop, E: ParserError<I>> Parser<
    I,
    O,
    E,
> for Verify<F, G, I, O, E> {
    ghost can_parse = { λ s. F.can_parse s.parser × G.IsAlwaysCallable s.filter };

    ghost State = { F.State × G };

    ghost state = { λ s. (F.state s.parser, s.filter) };

    ghost does = { VerifyDoes (CalledAt G.FnMut) F.does };

    ghost terms = { record {
      premise = F.terms.premise × FindsAlike F.terms.alike (CalledAt G.FnMut);
      stable = F.terms.stable;
      alike = F.terms.alike;
      claim = λ s. record {
        premise = (F.terms.claim s.0).premise × Stays (CalledAt G.FnMut) s.1
            × RejectsAll (Finds (CalledAt G.FnMut)) (Misses (CalledAt G.FnMut)) s.1
            (F.terms.claim s.0).grammar;
        backtracks = (F.terms.claim s.0).backtracks;
        spares_memory = (F.terms.claim s.0).spares_memory;
        consumes = (F.terms.claim s.0).consumes;
        grammar = Made (Finds (CalledAt G.FnMut)) s.1 (F.terms.claim s.0).grammar;
      };
    } };

    ghost lawful = { record {
      law = λ is. verify_law (CalledAt G.FnMut) is.1 (F.lawful.law is.0);
      claimed = λ s. record {
        projects = λ at is. verify_projects (CalledAt G.FnMut) is.1 is.2
            ((F.lawful.claimed s.0).projects at is.0);
        takes = λ is some. made_of_takes (Finds (CalledAt G.FnMut)) s.1
            ((F.lawful.claimed s.0).takes is.0 some);
      };
    } };

    #[inline]
    fn parse_next(&mut self, input: &mut I) -> Result<O, E> {
        let start = input.checkpoint();
        let output = self.parser.parse_next(input)?;
        if (self.filter)(&output) {
            Ok(output)
        } else {
            input.reset(&start);
            Err(E::from_input(input))
        }
    }
}
