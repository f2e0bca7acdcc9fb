//! Functions in use: plain functions as parsers.
#![tactic(auto)]

ghost use Rattle.std.specs.Prelude.{⊤, ◌≡◌, ◌<◌, ◌∷◌, ◌++◌, length, IfOk};
ghost use Rattle.std.specs.List.{All};
ghost use Rattle.example_callers.specs.Words.{Tag, TwoTags, tag_takes, tag_unique};
ghost use Rattle.winnow.specs.AsChar.{IsAlpha};
ghost use Rattle.winnow.specs.Bytes.{bytes_input, bytes_reading};
ghost use Rattle.winnow.specs.Exact.{Reads};
ghost use Rattle.winnow.specs.Input.{IsEndOf};

use winnow::ascii::alpha1;
use winnow::ascii::impls::Alpha1;
use winnow::combinator::{preceded, separated_pair};
use winnow::error::{EmptyError, HasKind};
use winnow::exact::Rule;
use winnow::{Func, Parser};

/// A word of letters, over bytes: the word and then what is left are the input.
fn word<'i>(input: &mut &'i [u8]) -> Result<&'i [u8], EmptyError>
    ensures some { IfOk result (λ word. 0 < length word.now) }
    ensures letters { IfOk result (λ word. All IsAlpha word.now) }
    ensures splits { IfOk result (λ word. input.old.now ≡ word.now ++ input.new.now) }
    ensures ends { IsEndOf bytes_reading (bytes_input input.new.now) (bytes_input input.old.now) }
{
    alpha1(input)
}

/// Parses two words with a space between them. Each word has at least one letter. The outputs
/// followed by the rest are the original input.
pub fn two_words<'i>(input: &mut &'i [u8]) -> Result<(&'i [u8], u8, &'i [u8]), EmptyError>
    ensures some { IfOk result (λ words. (0 < length words.0.now) × (0 < length words.2.now)) }
    ensures letters { IfOk result (λ words.
        All IsAlpha words.0.now × All IsAlpha words.2.now) }
    ensures splits { IfOk result (λ words. (words.1 ≡ 32)
        × (input.old.now ≡ words.0.now ++ 32 ∷ (words.2.now ++ input.new.now))) }
{
    (Func(word), b' ', Func(word)).parse_next(input)
}

/// A mark and a word, by name.
#[derive(Clone, Copy, Drop)]
struct TagOf(u8);

impl<'i> Rule<&'i [u8], &'i [u8]> for TagOf {
    ghost grammar = { λ r. Tag r.0 };

    ghost consumes = { λ _. ⊤ };

    fn name() {}

    ghost unique = { λ r. tag_unique r.0 };

    ghost takes = { λ r _. tag_takes r.0 };
}

/// A mark and a word: the word, as a slice of the input.
fn read_tag<'i>(mark: u8, input: &mut &'i [u8]) -> Result<&'i [u8], EmptyError>
    ensures { Reads bytes_reading ⟦<EmptyError as HasKind>⟧.kind (Tag mark)
        (bytes_input input.old.now) result (bytes_input input.new.now) }
{
    preceded(mark, Alpha1).read(input)
}

/// Parses a name and a topic, as `@ann #rust`, and returns both words as slices of the input.
/// Backtracks if the input does not start with these.
///
/// ```
/// use example_callers::functions::name_and_topic;
///
/// let mut input = b"@ann #rust!".as_slice();
/// let words = (b"ann".as_slice(), b"rust".as_slice());
/// assert_eq!(rt; name_and_topic(&mut input), Ok(words));
/// assert_eq!(rt; input, b"!".as_slice());
/// ```
pub fn name_and_topic<'i>(input: &mut &'i [u8]) -> Result<(&'i [u8], &'i [u8]), EmptyError>
    ensures { Reads bytes_reading ⟦<EmptyError as HasKind>⟧.kind TwoTags
        (bytes_input input.old.now) result (bytes_input input.new.now) }
{
    let name = TagOf(b'@').by_with(b'@', read_tag);
    let topic = TagOf(b'#').by_with(b'#', read_tag);
    separated_pair(name, b' ', topic).read(input)
}
