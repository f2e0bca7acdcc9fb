//! Multi-line strings (TOML 1.0: String): between three quotation marks. A line ending directly
//! after the first three is dropped. Each other line ending, also of two characters, is a line
//! feed.
ghost use Rattle.std.specs.Prelude.{⊤};
ghost use Rattle.streams.specs.Text.{text_input, text_reading};
ghost use Rattle.format_toml.specs.Grammars.{AnyBasic, AnyLiteral, BasicPart, BasicString};
ghost use Rattle.format_toml.specs.Grammars.{EscapedLine, LiteralPart, LiteralString, LongBasic};
ghost use Rattle.format_toml.specs.Grammars.{LongLiteral, Skips};
ghost use Rattle.format_toml.specs.LongGrammars.{Quote};
ghost use Rattle.format_toml.specs.Unique.{basic_unique, literal_unique};
ghost use Rattle.format_toml.specs.Unique.{basic_part_takes, basic_part_unique};
ghost use Rattle.format_toml.specs.Unique.{escaped_line_takes, escaped_line_unique};
ghost use Rattle.format_toml.specs.Unique.{literal_part_takes, literal_part_unique};
ghost use Rattle.format_toml.specs.Unique.{long_basic_unique, long_literal_unique};
ghost use Rattle.format_toml.specs.Unique.{quote_takes, quote_unique, skips_unique};
ghost use Rattle.winnow_core.specs.Exact.{Reads};

use crate::characters::Characters;
use crate::escapes::{AnyCharacter, read_character};
use crate::long_parts::{
    read_either_of, read_escaped_of, read_long_of, read_part_of, read_quote_of,
};
use crate::strings::{read_basic, read_literal};
use std::alloc::Allocator;
use stream_errors::empty::EmptyError;
use stream_errors::has_kind::HasKind;
use stream_errors::mode::ErrMode;
use winnow_ascii::ascii::impls::Space0;
use winnow_comb::combinator::impls::Empty;
use winnow_comb::combinator::{alt, preceded};
use winnow_core::parser::Parser;
use winnow_grammar::rule::Rule;
use winnow_repeat::combinator::repeat;
use winnow_token::token::one_of;

/// The name of what [`read_quote`] reads.
#[derive(Clone, Copy, Drop)]
struct LoneQuote(char);

impl<'i> Rule<&'i str, char> for LoneQuote {
    ghost grammar = { λ r. Quote r.0 };

    ghost consumes = { λ _. ⊤ };

    fn name() {}

    ghost unique = { λ r. quote_unique r.0 };

    ghost takes = { λ r _. quote_takes r.0 };
}

/// A quotation mark that belongs to the string.
fn read_quote<'i>(quote: char, input: &mut &'i str) -> Result<char, ErrMode<EmptyError>>
    ensures { Reads text_reading ⟦<ErrMode<EmptyError> as HasKind>⟧.kind (Quote quote)
        (text_input input.old.now) result (text_input input.new.now) }
{
    read_quote_of(quote, input)
}

// ---- literal strings

/// The name of what [`read_literal_part`] reads.
#[derive(Clone, Copy, Drop)]
struct LiteralParts;

impl<'i> Rule<&'i str, char> for LiteralParts {
    ghost grammar = { λ _. LiteralPart };

    ghost consumes = { λ _. ⊤ };

    fn name() {}

    ghost unique = { λ _. literal_part_unique };

    ghost takes = { λ _ _. literal_part_takes };
}

/// Parses a character of a literal string, a line ending or a quotation mark.
fn read_literal_part<'i>(input: &mut &'i str) -> Result<char, ErrMode<EmptyError>>
    ensures { Reads text_reading ⟦<ErrMode<EmptyError> as HasKind>⟧.kind LiteralPart
        (text_input input.old.now) result (text_input input.new.now) }
{
    let newline = alt(('\n', preceded('\r', '\n')));
    let content = alt((one_of(Characters::Literal), newline));
    let quote = LoneQuote('\'').by(|input: &mut &str| read_quote('\'', input));
    read_part_of(Empty, content, quote, input)
}

/// The name of what [`read_long_literal`] reads.
#[derive(Clone, Copy, Drop)]
struct LongLiterals<A>(A);

impl<'i, A: Allocator> Rule<&'i str, String<A>> for LongLiterals<A> {
    ghost grammar = { λ _. LongLiteral };

    ghost consumes = { λ _. ⊥ };

    fn name() {}

    ghost unique = { λ _. long_literal_unique };

    ghost takes = { λ _ never. absurd never };
}

/// A literal string over lines.
fn read_long_literal<'i, A: Allocator + Copy>(
    alloc: A,
    input: &mut &'i str,
) -> Result<String<A>, ErrMode<EmptyError>>
    ensures { Reads text_reading ⟦<ErrMode<EmptyError> as HasKind>⟧.kind LongLiteral
        (text_input input.old.now) result (text_input input.new.now) }
{
    let newline = alt(('\n', preceded('\r', '\n')));
    let part = LiteralParts.by(read_literal_part);
    read_long_of(alloc, '\'', part, Empty, newline, input)
}

/// The name of what [`read_literal`] reads.
#[derive(Clone, Copy, Drop)]
struct ShortLiterals<A>(A);

impl<'i, A: Allocator> Rule<&'i str, String<A>> for ShortLiterals<A> {
    ghost grammar = { λ _. LiteralString };

    ghost consumes = { λ _. ⊥ };

    fn name() {}

    ghost unique = { λ _. literal_unique };

    ghost takes = { λ _ never. absurd never };
}

/// A literal string, over lines or on one.
pub fn read_any_literal<'i, A: Allocator + Copy>(
    alloc: A,
    input: &mut &'i str,
) -> Result<String<A>, ErrMode<EmptyError>>
    ensures { Reads text_reading ⟦<ErrMode<EmptyError> as HasKind>⟧.kind AnyLiteral
        (text_input input.old.now) result (text_input input.new.now) }
{
    let long = LongLiterals(alloc).by(|input: &mut &str| read_long_literal(alloc, input));
    let short = ShortLiterals(alloc).by(|input: &mut &str| read_literal(alloc, input));
    read_either_of(long, short, input)
}

// ---- basic strings

/// The name of what [`read_escaped_line`] reads.
#[derive(Clone, Copy, Drop)]
struct EscapedLines<A>(A);

impl<'i, A: Allocator> Rule<&'i str, ()> for EscapedLines<A> {
    ghost grammar = { λ _. EscapedLine };

    ghost consumes = { λ _. ⊤ };

    fn name() {}

    ghost unique = { λ _. escaped_line_unique };

    ghost takes = { λ _ _. escaped_line_takes };
}

/// Parses an escaped line ending, and the blanks after it. Does not allocate.
fn read_escaped_line<'i, A: Allocator + Copy>(
    alloc: A,
    input: &mut &'i str,
) -> Result<(), ErrMode<EmptyError>>
    ensures { Reads text_reading ⟦<ErrMode<EmptyError> as HasKind>⟧.kind EscapedLine
        (text_input input.old.now) result (text_input input.new.now) }
{
    let newline = alt(('\n', preceded('\r', '\n')));
    let end = alt(('\n', preceded('\r', '\n')));
    let blank = alt((one_of(Characters::White), end));
    read_escaped_of(alloc, '\\', Space0, newline, blank, input)
}

/// The name of what [`read_skips`] reads.
#[derive(Clone, Copy, Drop)]
struct AnySkips<A>(A);

impl<'i, A: Allocator> Rule<&'i str, ()> for AnySkips<A> {
    ghost grammar = { λ _. Skips };

    ghost consumes = { λ _. ⊥ };

    fn name() {}

    ghost unique = { λ _. skips_unique };

    ghost takes = { λ _ never. absurd never };
}

/// Parses zero or more escaped line endings. Does not allocate.
fn read_skips<'i, A: Allocator + Copy>(
    alloc: A,
    input: &mut &'i str,
) -> Result<(), ErrMode<EmptyError>>
    ensures { Reads text_reading ⟦<ErrMode<EmptyError> as HasKind>⟧.kind Skips
        (text_input input.old.now) result (text_input input.new.now) }
{
    let line = EscapedLines(alloc).by(|input: &mut &str| read_escaped_line(alloc, input));
    repeat(alloc, 0.., line).read(input)
}

/// The name of what [`read_basic_part`] reads.
#[derive(Clone, Copy, Drop)]
struct BasicParts<A>(A);

impl<'i, A: Allocator> Rule<&'i str, char> for BasicParts<A> {
    ghost grammar = { λ _. BasicPart };

    ghost consumes = { λ _. ⊤ };

    fn name() {}

    ghost unique = { λ _. basic_part_unique };

    ghost takes = { λ _ _. basic_part_takes };
}

/// Parses a character of a basic string, a line ending or a quotation mark, after escaped line
/// endings.
fn read_basic_part<'i, A: Allocator + Copy>(
    alloc: A,
    input: &mut &'i str,
) -> Result<char, ErrMode<EmptyError>>
    ensures { Reads text_reading ⟦<ErrMode<EmptyError> as HasKind>⟧.kind BasicPart
        (text_input input.old.now) result (text_input input.new.now) }
{
    let newline = alt(('\n', preceded('\r', '\n')));
    let content = alt((AnyCharacter.by(read_character), newline));
    let quote = LoneQuote('"').by(|input: &mut &str| read_quote('"', input));
    let skips = AnySkips(alloc).by(|input: &mut &str| read_skips(alloc, input));
    read_part_of(skips, content, quote, input)
}

/// The name of what [`read_long_basic`] reads.
#[derive(Clone, Copy, Drop)]
struct LongBasics<A>(A);

impl<'i, A: Allocator> Rule<&'i str, String<A>> for LongBasics<A> {
    ghost grammar = { λ _. LongBasic };

    ghost consumes = { λ _. ⊥ };

    fn name() {}

    ghost unique = { λ _. long_basic_unique };

    ghost takes = { λ _ never. absurd never };
}

/// A basic string over lines, its escapes undone.
fn read_long_basic<'i, A: Allocator + Copy>(
    alloc: A,
    input: &mut &'i str,
) -> Result<String<A>, ErrMode<EmptyError>>
    ensures { Reads text_reading ⟦<ErrMode<EmptyError> as HasKind>⟧.kind LongBasic
        (text_input input.old.now) result (text_input input.new.now) }
{
    let newline = alt(('\n', preceded('\r', '\n')));
    let part = BasicParts(alloc).by(|input: &mut &str| read_basic_part(alloc, input));
    let skips = AnySkips(alloc).by(|input: &mut &str| read_skips(alloc, input));
    read_long_of(alloc, '"', part, skips, newline, input)
}

/// The name of what [`read_basic`] reads.
#[derive(Clone, Copy, Drop)]
struct ShortBasics<A>(A);

impl<'i, A: Allocator> Rule<&'i str, String<A>> for ShortBasics<A> {
    ghost grammar = { λ _. BasicString };

    ghost consumes = { λ _. ⊥ };

    fn name() {}

    ghost unique = { λ _. basic_unique };

    ghost takes = { λ _ never. absurd never };
}

/// A basic string, over lines or on one, its escapes undone.
pub fn read_any_basic<'i, A: Allocator + Copy>(
    alloc: A,
    input: &mut &'i str,
) -> Result<String<A>, ErrMode<EmptyError>>
    ensures { Reads text_reading ⟦<ErrMode<EmptyError> as HasKind>⟧.kind AnyBasic
        (text_input input.old.now) result (text_input input.new.now) }
{
    let long = LongBasics(alloc).by(|input: &mut &str| read_long_basic(alloc, input));
    let short = ShortBasics(alloc).by(|input: &mut &str| read_basic(alloc, input));
    read_either_of(long, short, input)
}
