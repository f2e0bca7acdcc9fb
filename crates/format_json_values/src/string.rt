//! Strings of JSON (RFC 8259, section 7), with their escapes undone.
ghost use Rattle.format_json_values.specs.Escapes.{characters_unique};
ghost use Rattle.format_json_values.specs.Runs.{Characters, PlainRun};
ghost use Rattle.format_json_texts.specs.Strings.{Quoted, StringText};
ghost use Rattle.streams.specs.Text.{text_input, text_reading};
ghost use Rattle.winnow_core.specs.Exact.{Reads};
ghost use Rattle.stream_sets.specs.Accumulator.Holds.{HasCharacters};
ghost use Rattle.grammars.specs.Texts.{Anything};
ghost use Rattle.winnow_grammar.specs.Told.{ReadsText};

use crate::escapes::read_escape;
use format_parts::marks::read_between;
use std::alloc::Allocator;
use stream_errors::empty::EmptyError;
use stream_errors::has_kind::HasKind;
use stream_errors::mode::ErrMode;
use stream_errors::parser_error::ParserError;
use winnow_core::parser::Parser;
use winnow_grammar::rule::Rule;
use winnow_token::token::take_while;

/// Parses the longest run of unescaped characters.
fn read_plain<'i>(input: &mut &'i str) -> Result<&'i str, ErrMode<EmptyError>>
    ensures { Reads text_reading ⟦<ErrMode<EmptyError> as HasKind>⟧.kind PlainRun
        (text_input input.old.now) result (text_input input.new.now) }
{
    let plain = (' '..='!', '#'..='[', ']'..='\u{10FFFF}');
    take_while(0.., plain).read(input)
}

/// The name of what [`read_characters`] reads.
#[derive(Clone, Copy, Drop)]
struct AnyCharacters<A>(A);

impl<'i, A: Allocator> Rule<&'i str, String<A>> for AnyCharacters<A> {
    ghost grammar = { λ _. Characters };

    ghost consumes = { λ _. ⊥ };

    fn name() {}

    ghost unique = { λ _. characters_unique };

    ghost takes = { λ _ never. absurd never };
}

/// The characters of a string, their escapes undone: runs of those that stand for themselves, with
/// an escape between two.
fn read_characters<'i, A: Allocator + Copy>(
    alloc: A,
    input: &mut &'i str,
) -> Result<String<A>, ErrMode<EmptyError>>
    ensures { Reads text_reading ⟦<ErrMode<EmptyError> as HasKind>⟧.kind Characters
        (text_input input.old.now) result (text_input input.new.now) }
{
    let mut text = String::new(alloc);
    'runs: loop {
        match read_plain(input) {
            Ok(plain) => match text.push_str(plain) {
                Ok(()) => (),
                Err(_) => return Err(ParserError::<&'i str>::no_memory(input)),
            },
            Err(error) => return Err(error),
        }
        let here = *input;
        match read_escape(input) {
            Ok(c) => match text.push(c) {
                Ok(()) => (),
                Err(_) => return Err(ParserError::<&'i str>::no_memory(input)),
            },
            // Escapes are never out of memory, so the characters end here.
            Err(_) => {
                *input = here;
                return Ok(text);
            }
        }
    }
}

/// Parses a string and returns it with its escapes undone.
///
/// An escaped surrogate denotes no character unless it is one of a pair. A string with an unpaired
/// one is rejected here, although the grammar of the standard accepts it (section 8.2).
///
/// ```
/// use format_json_values::string::read_string;
///
/// let mut input = "\"a\\u00e9\\n\": 1";
/// let text = read_string(alloc, &mut input);
/// assert!(rt; matches!(text, Ok(text) if text.as_str() == "a\u{e9}\n"));
/// assert_eq!(rt; input, ": 1");
/// ```
pub fn read_string<'i, A: Allocator + Copy>(
    alloc: A,
    input: &mut &'i str,
) -> Result<String<A>, ErrMode<EmptyError>>
    ensures grammar { Reads text_reading ⟦<ErrMode<EmptyError> as HasKind>⟧.kind
        (Quoted HasCharacters) (text_input input.old.now) result (text_input input.new.now) }
    ensures text { ReadsText text_reading ⟦<ErrMode<EmptyError> as HasKind>⟧.kind
        (StringText HasCharacters) Anything (text_input input.old.now) result
        (text_input input.new.now) }
{
    let characters = AnyCharacters(alloc).by(|input: &mut &str| read_characters(alloc, input));
    read_between('"', characters, '"', input)
}
