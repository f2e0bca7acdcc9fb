//! Values that are parsers of themselves.
ghost use Rattle.std.specs.Prelude.{◌≡◌, ⊤};
ghost use Rattle.std.proofs.Common.{refl};
ghost use Rattle.parser_definitions.specs.Literal.{LiteralDoes};
ghost use Rattle.parser_definitions.specs.Projects.Literals.{literal_meets, literal_terms};
ghost use Rattle.parser_definitions.specs.Spelled.{ShowSame};

use crate::literal::take_literal;
use crate::parser::Parser;
use stream_errors::parser_error::ParserError;
use stream_searches::caseless::Caseless;
use stream_searches::compare::Compare;
use streams::stream::StreamIsPartial;

/// Matches the byte, and returns it.
///
/// Fails without consuming input if the input does not start with the byte. On empty partial input
/// it returns `Incomplete` with an unknown need.
impl<I: StreamIsPartial + Compare<u8>, E: ParserError<I>> Parser<I, u8, E> for u8 {
    ghost State = { Self };

    ghost state = { λ s. s };

    ghost does = { LiteralDoes I.reading I.spells (λ s _. s) };

    ghost terms = { literal_terms I.reading I.spells (λ s _. s) (λ o p. o ≡ p) };

    ghost lawful = { literal_meets I.reading I.spells (λ s _. s) (λ o p. o ≡ p)
        I.same_units (λ s v w x. refl) };

    #[inline(always)]
    fn parse_next(&mut self, input: &mut I) -> Result<u8, E> {
        match take_literal(input, *self) {
            Ok(_) => Ok(*self),
            Err(error) => Err(error),
        }
    }
}

/// Matches the bytes, and returns the slice of the input.
impl<'t, I: StreamIsPartial + Compare<&'t [u8]>, E: ParserError<I>> Parser<I, I::Slice, E>
    for &'t [u8] {
    ghost State = { Self };

    ghost state = { λ s. s };

    ghost does = { LiteralDoes I.reading I.spells (λ _ slice. slice) };

    ghost terms = { literal_terms I.reading I.spells (λ _ slice. slice) (ShowSame I.reading) };

    ghost lawful = { literal_meets I.reading I.spells (λ _ slice. slice) (ShowSame I.reading)
        I.same_units (λ s v w x. x) };

    #[inline(always)]
    fn parse_next(&mut self, input: &mut I) -> Result<I::Slice, E> {
        take_literal(input, *self)
    }
}

/// Matches the bytes, and returns the slice of the input.
impl<'t, const N: usize, I: StreamIsPartial + Compare<&'t [u8; N]>, E: ParserError<I>> Parser<
    I,
    I::Slice,
    E,
> for &'t [u8; N] {
    ghost State = { Self };

    ghost state = { λ s. s };

    ghost does = { LiteralDoes I.reading I.spells (λ _ slice. slice) };

    ghost terms = { literal_terms I.reading I.spells (λ _ slice. slice) (ShowSame I.reading) };

    ghost lawful = { literal_meets I.reading I.spells (λ _ slice. slice) (ShowSame I.reading)
        I.same_units (λ s v w x. x) };

    #[inline(always)]
    fn parse_next(&mut self, input: &mut I) -> Result<I::Slice, E> {
        take_literal(input, *self)
    }
}

/// Matches the character, and returns it.
///
/// Fails without consuming input if the input does not start with the character. On partial input
/// that is too short to decide it returns `Incomplete` with an unknown need.
impl<I: StreamIsPartial + Compare<char>, E: ParserError<I>> Parser<I, char, E> for char {
    ghost State = { Self };

    ghost state = { λ s. s };

    ghost does = { LiteralDoes I.reading I.spells (λ s _. s) };

    ghost terms = { literal_terms I.reading I.spells (λ s _. s) (λ o p. o ≡ p) };

    ghost lawful = { literal_meets I.reading I.spells (λ s _. s) (λ o p. o ≡ p)
        I.same_units (λ s v w x. refl) };

    #[inline(always)]
    fn parse_next(&mut self, input: &mut I) -> Result<char, E> {
        match take_literal(input, *self) {
            Ok(_) => Ok(*self),
            Err(error) => Err(error),
        }
    }
}

/// Matches the text, and returns the slice of the input.
impl<'t, I: StreamIsPartial + Compare<&'t str>, E: ParserError<I>> Parser<I, I::Slice, E>
    for &'t str {
    ghost State = { Self };

    ghost state = { λ s. s };

    ghost does = { LiteralDoes I.reading I.spells (λ _ slice. slice) };

    ghost terms = { literal_terms I.reading I.spells (λ _ slice. slice) (ShowSame I.reading) };

    ghost lawful = { literal_meets I.reading I.spells (λ _ slice. slice) (ShowSame I.reading)
        I.same_units (λ s v w x. x) };

    #[inline(always)]
    fn parse_next(&mut self, input: &mut I) -> Result<I::Slice, E> {
        take_literal(input, *self)
    }
}

/// Matches the bytes regardless of ASCII case, and returns the slice of the input.
impl<'t, I: StreamIsPartial + Compare<Caseless<&'t [u8]>>, E: ParserError<I>> Parser<I, I::Slice, E>
    for Caseless<&'t [u8]> {
    ghost State = { Self };

    ghost state = { λ s. s };

    ghost does = { LiteralDoes I.reading I.spells (λ _ slice. slice) };

    ghost terms = { literal_terms I.reading I.spells (λ _ slice. slice) (ShowSame I.reading) };

    ghost lawful = { literal_meets I.reading I.spells (λ _ slice. slice) (ShowSame I.reading)
        I.same_units (λ s v w x. x) };

    #[inline(always)]
    fn parse_next(&mut self, input: &mut I) -> Result<I::Slice, E> {
        take_literal(input, *self)
    }
}

/// Matches the bytes regardless of ASCII case, and returns the slice of the input.
impl<
    't,
    const N: usize,
    I: StreamIsPartial + Compare<Caseless<&'t [u8; N]>>,
    E: ParserError<I>,
> Parser<I, I::Slice, E> for Caseless<&'t [u8; N]> {
    ghost State = { Self };

    ghost state = { λ s. s };

    ghost does = { LiteralDoes I.reading I.spells (λ _ slice. slice) };

    ghost terms = { literal_terms I.reading I.spells (λ _ slice. slice) (ShowSame I.reading) };

    ghost lawful = { literal_meets I.reading I.spells (λ _ slice. slice) (ShowSame I.reading)
        I.same_units (λ s v w x. x) };

    #[inline(always)]
    fn parse_next(&mut self, input: &mut I) -> Result<I::Slice, E> {
        take_literal(input, *self)
    }
}

/// Matches the text regardless of ASCII case, and returns the slice of the input.
impl<'t, I: StreamIsPartial + Compare<Caseless<&'t str>>, E: ParserError<I>> Parser<I, I::Slice, E>
    for Caseless<&'t str> {
    ghost State = { Self };

    ghost state = { λ s. s };

    ghost does = { LiteralDoes I.reading I.spells (λ _ slice. slice) };

    ghost terms = { literal_terms I.reading I.spells (λ _ slice. slice) (ShowSame I.reading) };

    ghost lawful = { literal_meets I.reading I.spells (λ _ slice. slice) (ShowSame I.reading)
        I.same_units (λ s v w x. x) };

    #[inline(always)]
    fn parse_next(&mut self, input: &mut I) -> Result<I::Slice, E> {
        take_literal(input, *self)
    }
}
