//! Slices of partial input. Each call is a run of its parser, which determines the slice. The slice
//! followed by the rest is the input.
#![tactic(auto)]

ghost use Rattle.winnow.specs.Does.{Ran};
ghost use Rattle.std.specs.Prelude.{⊤, ◌≡◌, ◌++◌, ℕ, IfOk};
ghost use Rattle.std.specs.Str.{chars};
ghost use Rattle.winnow.specs.Form.{answer_by, modal};

use winnow::Parser;
use winnow::ascii::impls::{Alpha1, DecUint, Digit1, TakeEscaped};
use winnow::ascii::take_escaped;
use winnow::combinator::impls::{Take, WithTaken};
use winnow::error::{EmptyError, ErrMode, HasKind};
use winnow::laws::{
    the_escaped_slice_and_the_rest_are_the_input, the_slice_taken_and_the_rest_are_the_input,
    the_slice_with_the_output_and_the_rest_are_the_input,
};
use winnow::stream::{Partial, Stream};
use winnow::token::impls::Any;

/// Partial bytes, as clauses name them.
type Bytes = Partial<&'static [u8]>;

/// Partial text, as clauses name it.
type Text = Partial<&'static str>;

/// Slices of bytes, as clauses name them.
type Slice = &'static [u8];

/// The errors of the parsers.
type Error = ErrMode<EmptyError>;

/// The parser of a time, as clauses name it.
type TimeSlice = Take<(Digit1, u8, Digit1), Bytes, (Slice, u8, Slice), Error>;

/// The parser of a number with its text, as clauses name it.
type NumberAndText = WithTaken<DecUint, Text, u32, Error>;

/// The parser of letters with escapes, as clauses name it.
type EscapedLetters = TakeEscaped<Alpha1, u8, Any, Bytes, Slice, u8, u8, Error>;

/// Parses a time such as `12:30` and returns its bytes. The call is a run of the parser: digits, a
/// colon and digits. The bytes followed by the rest are the input.
///
/// ```
/// use example_callers::slices::bytes_of_time;
///
/// let mut input = Partial::new(b"12:30;".as_slice());
/// assert_eq!(rt; bytes_of_time(&mut input), Ok(b"12:30".as_slice()));
/// ```
pub fn bytes_of_time<'i>(input: &mut Partial<&'i [u8]>) -> Result<&'i [u8], ErrMode<EmptyError>>
    ensures ran { (t : ⊤ × ℕ × ⊤) × Ran ⟦<Bytes as Stream>⟧.reading
        ⟦<TimeSlice as Parser<Bytes, Slice, Error>>⟧.does modal (tt, 58, tt)
        (⟦<Bytes as Stream>⟧.view input.old)
        (answer_by ⟦<Error as HasKind>⟧.kind result) t (⟦<Bytes as Stream>⟧.view input.new) }
    ensures splits { IfOk result (λ time. (⟦<Bytes as Stream>⟧.view input.old).left.tokens
        ≡ time.now ++ (⟦<Bytes as Stream>⟧.view input.new).left.tokens) }
{
    the_slice_taken_and_the_rest_are_the_input::<
        (Digit1, u8, Digit1),
        Partial<&'i [u8]>,
        (&'i [u8], u8, &'i [u8]),
        ErrMode<EmptyError>,
    >();
    (Digit1, b':', Digit1).take().parse_next(input)
}

/// Parses a number and returns it with its text, for instance to report how it was written. The
/// call is a run of the parser. The text followed by the rest is the input.
///
/// ```
/// use example_callers::slices::number_and_text;
///
/// let mut input = Partial::new("42;");
/// assert_eq!(rt; number_and_text(&mut input), Ok((42, "42")));
/// ```
pub fn number_and_text<'i>(
    input: &mut Partial<&'i str>,
) -> Result<(u32, &'i str), ErrMode<EmptyError>>
    ensures ran { Ran ⟦<Text as Stream>⟧.reading
        ⟦<NumberAndText as Parser<Text, (u32, &'static str), Error>>⟧.does modal tt
        (⟦<Text as Stream>⟧.view input.old) (answer_by ⟦<Error as HasKind>⟧.kind result) tt
        (⟦<Text as Stream>⟧.view input.new) }
    ensures splits { IfOk result (λ both. (⟦<Text as Stream>⟧.view input.old).left.tokens
        ≡ chars both.1.now ++ (⟦<Text as Stream>⟧.view input.new).left.tokens) }
{
    the_slice_with_the_output_and_the_rest_are_the_input::<
        DecUint,
        Partial<&'i str>,
        u32,
        ErrMode<EmptyError>,
    >();
    DecUint.with_taken().parse_next(input)
}

/// Parses letters, and bytes after a backslash, and returns all of them with the backslashes. The
/// call is a run of the parser. These bytes followed by the rest are the input.
///
/// ```
/// use example_callers::slices::escaped_letters;
///
/// let mut input = Partial::new(b"a\\;b;".as_slice());
/// assert_eq!(rt; escaped_letters(&mut input), Ok(b"a\\;b".as_slice()));
/// ```
pub fn escaped_letters<'i>(input: &mut Partial<&'i [u8]>) -> Result<&'i [u8], ErrMode<EmptyError>>
    ensures ran { (t : ⊤ × ℕ × ⊤)
        × Ran ⟦<Bytes as Stream>⟧.reading
        ⟦<EscapedLetters as Parser<Bytes, Slice, Error>>⟧.does modal (tt, 92, tt)
        (⟦<Bytes as Stream>⟧.view input.old)
        (answer_by ⟦<Error as HasKind>⟧.kind result) t (⟦<Bytes as Stream>⟧.view input.new) }
    ensures splits { IfOk result (λ letters. (⟦<Bytes as Stream>⟧.view input.old).left.tokens
        ≡ letters.now ++ (⟦<Bytes as Stream>⟧.view input.new).left.tokens) }
{
    the_escaped_slice_and_the_rest_are_the_input::<
        Alpha1,
        u8,
        Any,
        Partial<&'i [u8]>,
        &'i [u8],
        u8,
        u8,
        ErrMode<EmptyError>,
    >();
    take_escaped(Alpha1, b'\\', Any).parse_next(input)
}
