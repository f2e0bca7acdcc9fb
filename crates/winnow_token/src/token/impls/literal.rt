//! A literal.
ghost use Rattle.parser_definitions.specs.Literal.{LiteralDoes};
ghost use Rattle.parser_definitions.specs.Projects.Literals.{literal_meets, literal_terms};
ghost use Rattle.parser_definitions.specs.Spelled.{ShowSame};

use std::marker::PhantomData;
use stream_errors::parser_error::ParserError;
use stream_searches::compare::Compare;
use streams::stream::StreamIsPartial;
use winnow_core::literal::take_literal;
use winnow_core::parser::Parser;

/// The parser that [`literal`](crate::token::literal) makes.
///
/// ```
/// let mut parser: Literal<_, _, _> = literal('a');
/// assert_eq!(rt; parser.parse_peek("ab"), Ok::<_, EmptyError>(("b", "a")));
/// ```
#[derive(Drop)]
pub struct Literal<T, I, E> {
    pub(crate) literal: T,
    pub(crate) marker: PhantomData<(I, E)>,
}

impl<T: Copy, I: StreamIsPartial + Compare<T>, E: ParserError<I>> Parser<I, I::Slice, E>
    for Literal<T, I, E> {
    ghost State = { T };

    ghost state = { λ s. s.literal };

    ghost does = { LiteralDoes I.reading I.spells (λ _ slice. slice) };

    ghost terms = { literal_terms I.reading I.spells (λ _ slice. slice) (ShowSame I.reading) };

    ghost lawful = { literal_meets I.reading I.spells (λ _ slice. slice) (ShowSame I.reading)
        I.same_units (λ s v w x. x) };

    #[inline(always)]
    fn parse_next(&mut self, input: &mut I) -> Result<I::Slice, E> {
        take_literal(input, self.literal)
    }
}
