//! The implementation of `context_with`.
ghost use Rattle.std.specs.Iterator.{IsFinite};
ghost use Rattle.std.specs.Prelude.{◌≡◌};
ghost use Rattle.stream_errors.specs.Given.{Keeping};
ghost use Rattle.parser_definitions.specs.MapErr.{ContextWithDoes, context_with_law};
ghost use Rattle.parser_definitions.specs.Terms.{no_claim, nothing_claimed};

use crate::parser::Parser;
use std::alloc::Allocator;
use std::marker::PhantomData;
use stream_errors::context::AddContext;
use stream_errors::parser_error::ParserError;
use streams::stream::Stream;

/// The parser that [`Parser::context_with`](crate::parser::Parser::context_with) makes.
///
/// ```
/// let mut parser = Digit1.context_with(alloc, || ["digit", "number"].into_iter());
/// let answer: Result<&str, ContextError<&str>> = parser.parse_next(&mut "a");
/// match answer {
///     Err(error) => assert_eq!(rt; error.context(), ["digit", "number"].as_slice()),
///     Ok(_) => assert!(rt; false),
/// }
/// ```
#[derive(Drop)]
pub struct ContextWith<P, I, O, E, F, C, FI, A> {
    pub(crate) parser: P,
    pub(crate) context: F,
    pub(crate) alloc: A,
    pub(crate) marker: PhantomData<(I, O, E, C, FI)>,
}

impl<P, I, O, E, F, C, FI, A> ContextWith<P, I, O, E, F, C, FI, A> {
    #[inline(always)]
    pub(crate) fn new(parser: P, context: F, alloc: A) -> ContextWith<P, I, O, E, F, C, FI, A>
        ensures parser { result.parser ≡ parser }
        ensures context { result.context ≡ context }
    {
        ContextWith {
            parser,
            context,
            alloc,
            marker: PhantomData,
        }
    }
}

impl<
    P: Parser<I, O, E>,
    I: Stream,
    O,
    E: ParserError<I> + AddContext<I, C, A>,
    F: Fn() -> FI,
    C,
    FI: Iterator<Item = C>,
    A: Allocator + Copy,
> Parser<I, O, E> for ContextWith<P, I, O, E, F, C, FI, A> {
    ghost can_parse = { λ s. P.can_parse s.parser × F.IsAlwaysCallable s.context
        × ((items : FI) → F.post s.context items
        → FI.can_next items × IsFinite (FI.remaining items)) };

    ghost State = { P.State × (F × (C → Keeping)) };

    ghost state = { λ s. (P.state s.parser, (s.context, E.context_gives)) };

    ghost does = { ContextWithDoes F.post FI.next_gives P.does };

    ghost terms = { record {
      premise = P.terms.premise;
      stable = P.terms.stable;
      alike = P.terms.alike;
      claim = λ _. no_claim;
    } };

    ghost lawful = { record {
      law = λ is. context_with_law F.post FI.next_gives (P.lawful.law is);
      claimed = λ _. nothing_claimed;
    } };

    #[inline]
    fn parse_next(&mut self, input: &mut I) -> Result<O, E> {
        let start = input.checkpoint();
        match self.parser.parse_next(input) {
            Ok(output) => Ok(output),
            Err(error) => {
                let mut error = error;
                for context in (self.context)() {
                    error = error.add_context(self.alloc, input, &start, context);
                }
                Err(error)
            }
        }
    }
}
