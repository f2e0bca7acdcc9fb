//! The input that is expected at an offset of a JSON text, by name.
ghost use Rattle.format_json_pieces.specs.Place.{wanted, wanted_after, wanted_in_number};
ghost use Rattle.format_json_pieces.specs.Place.{wanted_in_string, wanted_item};
ghost use Rattle.std.specs.Prelude.{◌≡◌};

use crate::begun::{Bracket, Mode};
use crate::inside::{Figure, Letters, Part, expected};
use std::fmt;
use std::fmt::{Display, Formatter};

/// The input that is expected at an offset of a JSON text. Whitespace is accepted too, except in a
/// string, a number or a word.
///
/// ```
/// use format_json_pieces::expected::Expected;
///
/// let said = format!(in alloc; "{}", Expected::CommaOrBracket);
/// assert!(rt; matches!(said, Ok(said) if said.as_str() == "a comma or `]`"));
/// ```
#[derive(Clone, Copy, Debug, PartialEq, Eq, Drop)]
pub enum Expected {
    /// A value.
    Value,
    /// A value, or the bracket that closes the array.
    ValueOrBracket,
    /// The name of a member: a string.
    Name,
    /// The name of a member, or the brace that closes the object.
    NameOrBrace,
    /// The colon after the name of a member.
    Colon,
    /// A comma, or the bracket that closes the array. After a number, the number may also continue.
    CommaOrBracket,
    /// A comma, or the brace that closes the object. After a number, the number may also continue.
    CommaOrBrace,
    /// The end of the text. After a number, the number may also continue.
    End,
    /// A character of a string that is not a control character, or the quote that closes it.
    Character,
    /// The part of an escape after the backslash: a quote, a backslash, `/`, `b`, `f`, `n`, `r`,
    /// `t`, or `u` and four hexadecimal digits.
    Escape,
    /// A hexadecimal digit.
    HexDigit,
    /// A hexadecimal digit that does not make the second half of a surrogate pair, with no first
    /// half before it.
    FirstHalf,
    /// The escape of the second half of a surrogate pair: a backslash, `u`, and DC00 to DFFF.
    SecondHalf,
    /// A byte that goes on with the UTF-8 of a character.
    Utf8,
    /// A digit.
    Digit,
    /// A digit, or the sign of an exponent.
    DigitOrSign,
    /// This letter of `null`, `true` or `false`.
    Letter(u8),
    /// No opening bracket or brace: the maximum number is open.
    NoDeeper,
}

impl Display for Expected {
    fn fmt<W: fmt::Write>(&self, f: &mut Formatter<W>) -> fmt::Result {
        f.write_str(match *self {
            Expected::Value => "a value",
            Expected::ValueOrBracket => "a value or `]`",
            Expected::Name => "a string",
            Expected::NameOrBrace => "a string or `}`",
            Expected::Colon => "a colon",
            Expected::CommaOrBracket => "a comma or `]`",
            Expected::CommaOrBrace => "a comma or `}`",
            Expected::End => "the end of the text",
            Expected::Character => "a character of a string or its closing quote",
            Expected::Escape => "an escape",
            Expected::HexDigit => "a hexadecimal digit",
            Expected::FirstHalf => "the first half of a surrogate pair",
            Expected::SecondHalf => "the second half of a surrogate pair",
            Expected::Utf8 => "UTF-8",
            Expected::Digit => "a digit",
            Expected::DigitOrSign => "a digit or a sign",
            Expected::Letter(letter) => {
                return write!(f, "the letter `{}`", char::from(letter));
            }
            Expected::NoDeeper => "no deeper array or object",
        })
    }
}

/// Where an item is to come, or the end of what it is in.
fn wanted_item(mode: Mode, held: Option<Bracket>) -> Expected
    ensures { result ≡ wanted_item mode held }
{
    match (mode, held) {
        (Mode::First, Some(Bracket::Array)) => Expected::ValueOrBracket,
        (Mode::First, Some(Bracket::Object)) => Expected::NameOrBrace,
        (_, Some(Bracket::Object)) => Expected::Name,
        _ => Expected::Value,
    }
}

/// After an item.
fn wanted_after(held: Option<Bracket>) -> Expected
    ensures { result ≡ wanted_after held }
{
    match held {
        Some(Bracket::Array) => Expected::CommaOrBracket,
        Some(Bracket::Object) => Expected::CommaOrBrace,
        _ => Expected::End,
    }
}

/// In a string.
fn wanted_in_string(part: Part) -> Expected
    ensures { result ≡ wanted_in_string part }
{
    match part {
        Part::Plain => Expected::Character,
        Part::Escape => Expected::Escape,
        Part::AfterSurrogateD => Expected::FirstHalf,
        Part::Backslash | Part::LetterU | Part::LowD | Part::LowSecond => Expected::SecondHalf,
        Part::Unit | Part::Three | Part::Two | Part::One | Part::HighTwo | Part::HighOne => {
            Expected::HexDigit
        }
        _ => Expected::Utf8,
    }
}

/// In a number.
fn wanted_in_number(figure: Figure, held: Option<Bracket>) -> Expected
    ensures { result ≡ wanted_in_number figure held }
{
    match figure {
        Figure::Minus | Figure::Point | Figure::Sign => Expected::Digit,
        Figure::Exponent => Expected::DigitOrSign,
        _ => wanted_after(held),
    }
}

/// Returns the input that is expected in `mode`, in the bracket `held`, the last that was opened.
pub fn wanted(mode: Mode, held: Option<Bracket>) -> Expected
    ensures { result ≡ wanted mode held }
{
    match mode {
        Mode::First | Mode::Item => wanted_item(mode, held),
        Mode::Colon => Expected::Colon,
        Mode::Value => Expected::Value,
        Mode::After => wanted_after(held),
        Mode::Name(part) | Mode::Text(part) => wanted_in_string(part),
        Mode::Number(figure) => wanted_in_number(figure, held),
        Mode::Word(letters) => Expected::Letter(expected(letters)),
    }
}
