//! `parse_to`, `and_then`, `flat_map`: parsing of an output, or of the input after it.
ghost use Rattle.example_callers.specs.Premises.{LettersOfTwo, Twice};
ghost use Rattle.std.specs.Prelude.{◌≡◌, Some};
ghost use Rattle.winnow.specs.Bytes.{bytes_input, bytes_reading};
ghost use Rattle.winnow.specs.Counted.{counted_reading};
ghost use Rattle.winnow.specs.Exact.{Reads};
ghost use Rattle.winnow.specs.Grammar.{Counted};
ghost use Rattle.winnow.specs.Grammar.Inversion.{Byte};
ghost use Rattle.winnow.specs.Grammar.Meaning.{Meaning};

use winnow::Parser;
use winnow::ascii::impls::Alpha1;
use winnow::error::{EmptyError, HasKind};
use winnow::stream::ParseSlice;
use winnow::token::impls::Any;
use winnow::token::take;

/// Parses three bytes as a number by `FromStr`, with `parse_to`. Backtracks if there are fewer
/// bytes, or if they are not a number.
///
/// ```
/// use example_callers::premises::outputs::number_of_three;
///
/// assert_eq!(rt; number_of_three(&mut b"0423".as_slice()), Ok(42));
/// assert!(rt; number_of_three(&mut b"4a2".as_slice()).is_err());
/// ```
pub fn number_of_three<'i>(input: &mut &'i [u8]) -> Result<u16, EmptyError>
    ensures { Reads bytes_reading ⟦<EmptyError as HasKind>⟧.kind
        (Meaning (λ three n. ⟦<&'i [u8] as ParseSlice<u16>>⟧.reads three (Some n))
        (Counted counted_reading 3)) (bytes_input input.old.now) result
        (bytes_input input.new.now) }
{
    take(3usize).parse_to::<u16>().read(input)
}

/// Parses two bytes and returns the letters that they start with, by `and_then`. Discards the rest
/// of the two. Backtracks if there are fewer bytes, or if the first is not a letter.
///
/// ```
/// use example_callers::premises::outputs::letters_of_two;
///
/// let mut input = b"a1bc".as_slice();
/// assert_eq!(rt; letters_of_two(&mut input), Ok(b"a".as_slice()));
/// assert_eq!(rt; input, b"bc".as_slice());
/// ```
pub fn letters_of_two<'i>(input: &mut &'i [u8]) -> Result<&'i [u8], EmptyError>
    ensures { Reads bytes_reading ⟦<EmptyError as HasKind>⟧.kind LettersOfTwo
        (bytes_input input.old.now) result (bytes_input input.new.now) }
{
    take(2usize).and_then(Alpha1).read(input)
}

/// The parser of a byte: the byte itself.
fn itself(byte: u8) -> u8
    ensures { result ≡ byte }
{
    byte
}

/// Parses a byte that occurs twice in a row, by `flat_map`: the parser of the second byte is made
/// from the first one. Backtracks if the first byte does not occur twice.
///
/// ```
/// use example_callers::premises::outputs::byte_twice;
///
/// let mut input = b"aab".as_slice();
/// assert_eq!(rt; byte_twice(&mut input), Ok(b'a'));
/// assert!(rt; byte_twice(&mut b"ab".as_slice()).is_err());
/// ```
pub fn byte_twice<'i>(input: &mut &'i [u8]) -> Result<u8, EmptyError>
    ensures { Reads bytes_reading ⟦<EmptyError as HasKind>⟧.kind (Twice Byte)
        (bytes_input input.old.now) result (bytes_input input.new.now) }
{
    Any.flat_map(itself).read(input)
}
