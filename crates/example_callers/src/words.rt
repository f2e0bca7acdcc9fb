//! Examples of words: contracts by the grammars of the parsers.
#![tactic(auto)]

ghost use Rattle.example_callers.specs.Words.{Assignment, Mark, MarkedWord, Word};
ghost use Rattle.winnow.specs.Bytes.{bytes_input, bytes_reading};
ghost use Rattle.winnow.specs.Exact.{IsSpared, Reads};

use winnow::Parser;
use winnow::ascii::impls::Alpha1;
use winnow::combinator::preceded;
use winnow::error::{EmptyError, HasKind};

/// Parses a word: the longest prefix of letters, at least one. Backtracks if the input does not
/// start with a letter.
///
/// ```
/// use example_callers::words::front_word;
///
/// let mut input = b"ab1".as_slice();
/// assert_eq!(rt; front_word(&mut input), Ok(b"ab".as_slice()));
/// assert_eq!(rt; input, b"1".as_slice());
/// assert!(rt; front_word(&mut input).is_err());
/// ```
pub fn front_word<'i>(input: &mut &'i [u8]) -> Result<&'i [u8], EmptyError>
    ensures reads { Reads bytes_reading ⟦<EmptyError as HasKind>⟧.kind Word
        (bytes_input input.old.now) result (bytes_input input.new.now) }
    ensures spared { IsSpared ⟦<EmptyError as HasKind>⟧.kind (bytes_input input.old.now) result }
{
    Alpha1.read(input)
}

/// Parses the mark `=`. Backtracks if the input does not start with it.
pub fn mark<'i>(input: &mut &'i [u8]) -> Result<u8, EmptyError>
    ensures reads { Reads bytes_reading ⟦<EmptyError as HasKind>⟧.kind Mark
        (bytes_input input.old.now) result (bytes_input input.new.now) }
    ensures spared { IsSpared ⟦<EmptyError as HasKind>⟧.kind (bytes_input input.old.now) result }
{
    b'='.read(input)
}

/// Parses a word, `=` and a word. Backtracks if the input does not start with these.
pub fn assignment<'i>(input: &mut &'i [u8]) -> Result<(&'i [u8], u8, &'i [u8]), EmptyError>
    ensures reads { Reads bytes_reading ⟦<EmptyError as HasKind>⟧.kind Assignment
        (bytes_input input.old.now) result (bytes_input input.new.now) }
    ensures spared { IsSpared ⟦<EmptyError as HasKind>⟧.kind (bytes_input input.old.now) result }
{
    (Alpha1, b'=', Alpha1).read(input)
}

/// Parses `=` and a word, and returns the word. Backtracks if the input does not start with these.
pub fn marked_word<'i>(input: &mut &'i [u8]) -> Result<&'i [u8], EmptyError>
    ensures reads { Reads bytes_reading ⟦<EmptyError as HasKind>⟧.kind MarkedWord
        (bytes_input input.old.now) result (bytes_input input.new.now) }
    ensures spared { IsSpared ⟦<EmptyError as HasKind>⟧.kind (bytes_input input.old.now) result }
{
    preceded(b'=', Alpha1).read(input)
}
