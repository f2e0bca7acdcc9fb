//! The implementation of `context`.
ghost use Rattle.std.specs.Prelude.{◌≡◌};
ghost use Rattle.stream_errors.specs.Given.{Keeping};
ghost use Rattle.parser_definitions.specs.MapErr.{ContextDoes, NeverRefused, context_law};
ghost use Rattle.parser_definitions.specs.Projects.{projects_as};
ghost use Rattle.parser_definitions.specs.Projects.Errors.{context_projects};

use crate::parser::Parser;
use std::alloc::Allocator;
use std::marker::PhantomData;
use stream_errors::context::AddContext;
use stream_errors::parser_error::ParserError;
use streams::stream::Stream;

/// The parser that [`Parser::context`](crate::parser::Parser::context) makes.
///
/// ```
/// let answer: Result<&str, ContextError<&str>> =
///     Digit1.context(alloc, "number").parse_next(&mut "a");
/// match answer {
///     Err(error) => assert_eq!(rt; error.context(), ["number"].as_slice()),
///     Ok(_) => assert!(rt; false),
/// }
/// ```
#[derive(Drop)]
pub struct Context<F, I, O, E, C, A> {
    pub(crate) parser: F,
    pub(crate) context: C,
    pub(crate) alloc: A,
    pub(crate) marker: PhantomData<(I, O, E)>,
}

impl<F, I, O, E, C, A> Context<F, I, O, E, C, A> {
    #[inline(always)]
    pub(crate) fn new(parser: F, context: C, alloc: A) -> Context<F, I, O, E, C, A>
        ensures parser { result.parser ≡ parser }
        ensures context { result.context ≡ context }
    {
        Context {
            parser,
            context,
            alloc,
            marker: PhantomData,
        }
    }
}

impl<
    F: Parser<I, O, E>,
    I: Stream,
    O,
    E: ParserError<I> + AddContext<I, C, A>,
    C: Clone,
    A: Allocator + Copy,
> Parser<I, O, E> for Context<F, I, O, E, C, A> {
    ghost can_parse = { λ s. F.can_parse s.parser };

    ghost State = { F.State × (C × (C → Keeping)) };

    ghost state = { λ s. (F.state s.parser, (s.context, E.context_gives)) };

    ghost does = { ContextDoes C.is_clone C.is_infallible F.does };

    ghost terms = { record {
      premise = F.terms.premise;
      stable = F.terms.stable;
      alike = F.terms.alike;
      claim = λ s. record {
        premise = (F.terms.claim s.0).premise;
        backtracks = (F.terms.claim s.0).backtracks;
        spares_memory =
            (F.terms.claim s.0).spares_memory × C.is_infallible s.1.0 × NeverRefused C.is_clone s.1;
        consumes = (F.terms.claim s.0).consumes;
        grammar = (F.terms.claim s.0).grammar;
      };
    } };

    ghost lawful = { record {
      law = λ is. context_law C.is_clone C.is_infallible (F.lawful.law is);
      claimed = λ s. record {
        projects = λ at is. context_projects C.is_clone C.is_infallible (λ m. (m.1, m.2))
            (projects_as (λ b. b) (λ m. m.0) ((F.lawful.claimed s.0).projects at is));
        takes = λ is some. (F.lawful.claimed s.0).takes is some;
      };
    } };

    #[inline]
    fn parse_next(&mut self, input: &mut I) -> Result<O, E> {
        let start = input.checkpoint();
        match self.parser.parse_next(input) {
            Ok(output) => Ok(output),
            Err(error) => {
                // An incomplete error keeps no context, so nothing is cloned for it.
                if error.is_incomplete() {
                    return Err(error);
                }
                match self.context.clone() {
                    Ok(context) => Err(error.add_context(self.alloc, input, &start, context)),
                    Err(_) => Err(E::no_memory(input)),
                }
            }
        }
    }
}
