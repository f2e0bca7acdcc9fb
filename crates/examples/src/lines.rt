//! Lines that are each a `y` or an `n`, by a grammar of their own.
//!
//! A reader is composed of parsers, and its contract gives its grammar. On complete input it
//! returns the match of the grammar at the start of the input, and leaves the rest. It fails only
//! if there is no match, or with out of memory.
ghost use Rattle.std.specs.Prelude.{⊤, ℕ};
ghost use Rattle.std.specs.declared.vec.Vec.{Vec};
ghost use Rattle.winnow.specs.Bytes.{bytes_input, bytes_reading};
ghost use Rattle.examples.specs.Lines.InWords.{IsLetter, LetterLines, SameLetters};
ghost use Rattle.examples.specs.Lines.Lines.{AreLines, IsLine, line_takes, unique_line};
ghost use Rattle.winnow.specs.Exact.{Reads};
ghost use Rattle.winnow.specs.Form.{answer_by};
ghost use Rattle.winnow.specs.Given.{always_kept};
ghost use Rattle.winnow.specs.IntoSlice.{TooManyKind};
ghost use Rattle.winnow.specs.IntoSlice.Exact.{ReadsIntoSlice};
ghost use Rattle.winnow.specs.Exact.Whole.{ReadsAll};
ghost use Rattle.winnow.specs.Texts.{NotFirst};
ghost use Rattle.winnow.specs.Back.{ReadsBack};
ghost use Rattle.winnow.specs.Told.{IsTextOf, ReadsText};

use std::alloc::Allocator;
use winnow::Parser;
use winnow::combinator::{alt, repeat, repeat_into_slice, terminated};
use winnow::error::{EmptyError, ErrMode, HasKind, ParseFault, ParserError};
use winnow::exact::Rule;

/// Parses a line, a `y` or an `n` followed by a line feed, and returns the letter.
///
/// ```
/// use examples::lines::read_line;
///
/// let mut input = b"y\nn\n".as_slice();
/// assert_eq!(rt; read_line(&mut input), Ok(b'y'));
/// assert_eq!(rt; input, b"n\n".as_slice());
/// ```
pub fn read_line<'i>(input: &mut &'i [u8]) -> Result<u8, ErrMode<EmptyError>>
    ensures { Reads bytes_reading ⟦<ErrMode<EmptyError> as HasKind>⟧.kind IsLine
        (bytes_input input.old.now) result (bytes_input input.new.now) }
{
    terminated(alt((b'y', b'n')), b'\n').read(input)
}

/// The name of what [`read_line`] reads.
#[derive(Clone, Copy, Drop)]
pub struct Line;

impl<'i> Rule<&'i [u8], u8> for Line {
    ghost grammar = { λ _. IsLine };

    ghost consumes = { λ _. ⊤ };

    fn name() {}

    ghost unique = { λ _. unique_line };

    ghost takes = { λ _ _. line_takes };
}

/// Parses as many consecutive lines as match, and returns their letters, in order.
///
/// ```
/// use examples::lines::read_lines;
///
/// let mut input = b"y\nn\n-".as_slice();
/// let letters = read_lines(alloc, &mut input);
/// assert!(rt; matches!(letters, Ok(letters) if letters.as_slice() == b"yn".as_slice()));
/// assert_eq!(rt; input, b"-".as_slice());
/// ```
pub fn read_lines<'i, A: Allocator + Copy>(
    alloc: A,
    input: &mut &'i [u8],
) -> Result<Vec<u8, A>, ErrMode<EmptyError>>
    ensures grammar { Reads bytes_reading ⟦<ErrMode<EmptyError> as HasKind>⟧.kind AreLines
        (bytes_input input.old.now) result (bytes_input input.new.now) }
    ensures text { ReadsText bytes_reading ⟦<ErrMode<EmptyError> as HasKind>⟧.kind LetterLines
        (NotFirst IsLetter) (bytes_input input.old.now) result (bytes_input input.new.now) }
{
    repeat(alloc, 0.., Line.by(read_line)).read(input)
}

/// Parses as many consecutive lines as match, stores their letters in the first elements of
/// `letters`, and returns their number. It does not allocate.
///
/// If there are more lines than elements, it backtracks, and the input is left before the first
/// line that has no element.
///
/// ```
/// use examples::lines::store_lines;
///
/// let mut letters = *b"--";
/// let mut input = b"y\n-".as_slice();
/// assert_eq!(rt; store_lines(&mut input, &mut letters), Ok(1));
/// assert_eq!(rt; letters, *b"y-");
/// let mut input = b"y\nn\ny\n".as_slice();
/// assert!(rt; store_lines(&mut input, &mut letters).is_err());
/// assert_eq!(rt; input, b"y\n".as_slice());
/// ```
pub fn store_lines<'i>(
    input: &mut &'i [u8],
    letters: &mut [u8],
) -> Result<usize, ErrMode<EmptyError>>
    ensures { ReadsIntoSlice IsLine ⊥ (TooManyKind (λ _. always_kept)) letters.old input.old.now
        (answer_by ⟦<ErrMode<EmptyError> as HasKind>⟧.kind result) letters.new input.new.now }
{
    repeat_into_slice(input, &mut Line.by(read_line), letters)
}

/// Parses all of the bytes as lines, and returns their letters, in order. Otherwise the error holds
/// the offset at which the lines ended, or is out of memory. The lines that are written for some
/// letters are therefore parsed as these letters, unless an allocation fails.
///
/// ```
/// use examples::lines::parse_lines;
///
/// let letters = parse_lines(alloc, b"y\nn\n".as_slice());
/// assert!(rt; matches!(letters, Ok(letters) if letters.as_slice() == b"yn".as_slice()));
/// assert!(rt; parse_lines(alloc, b"y\nn".as_slice()).is_err());
/// ```
pub fn parse_lines<'i, A: Allocator + Copy>(
    alloc: A,
    input: &'i [u8],
) -> Result<Vec<u8, A>, ParseFault<&'i [u8], EmptyError>>
    ensures grammar { ReadsAll ⟦<ErrMode<EmptyError> as ParserError<&'i [u8]>>⟧.inner_kind
        AreLines input.now result }
    ensures text { IsTextOf ⟦<ErrMode<EmptyError> as ParserError<&'i [u8]>>⟧.inner_kind
        LetterLines input.now result }
    ensures back { (letters : Vec ℕ A) → LetterLines letters input.now
        → ReadsBack ⟦<ErrMode<EmptyError> as ParserError<&'i [u8]>>⟧.inner_kind SameLetters
        letters result }
{
    repeat(alloc, 0.., Line.by(read_line)).read_all(input)
}
