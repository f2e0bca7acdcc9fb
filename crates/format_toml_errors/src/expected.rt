//! The input that is expected at an offset of a TOML document, by name.
ghost use Rattle.format_toml_errors.specs.Expected.{is_digit_of, wanted, wanted_at};
ghost use Rattle.format_toml_errors.specs.declared.figures.Figure.TheVariants as figures;
ghost use Rattle.format_toml_errors.specs.declared.modes.Mode.TheVariants as modes;
ghost use Rattle.std.specs.Prelude.{◌≡◌, None};

use crate::escapes::{Escape, is_hex};
use crate::figures::{Base, Figure, fits};
use crate::modes::{Bracket, Mark, Mode, Owner};
use crate::moments::Moment;
use crate::steps::letter_of;
use std::fmt;
use std::fmt::{Display, Formatter};

/// The input that is expected at an offset of a TOML document. Whitespace is accepted too, except
/// in a string, a number, a word or a line ending.
///
/// ```
/// use format_toml_errors::expected::Expected;
///
/// let said = format!(in alloc; "{}", Expected::CommaOrBracket);
/// assert!(rt; matches!(said, Ok(said) if said.as_str() == "a comma or `]`"));
/// ```
#[derive(Clone, Copy, Debug, PartialEq, Eq, Drop)]
pub enum Expected {
    /// A key or a table, or an empty line.
    KeyOrTable,
    /// A key, or a part of one.
    Key,
    /// A key, or the brace that closes an inline table.
    KeyOrBrace,
    /// The name of a table.
    TableName,
    /// The equals sign after a key, or a point before another part of the key.
    EqualsSign,
    /// The bracket after the name of a table, or a point before another part of the name.
    ClosingBracket,
    /// The second bracket after the name of an array of tables.
    SecondBracket,
    /// A value.
    Value,
    /// A value, or the bracket that closes an array.
    ValueOrBracket,
    /// A comma, or the bracket that closes an array.
    CommaOrBracket,
    /// A comma, or the brace that closes an inline table.
    CommaOrBrace,
    /// The end of the line, or a comment.
    LineEnd,
    /// The line feed after a carriage return.
    LineFeed,
    /// A character of a comment that is not a control character, or the end of the line.
    CommentCharacter,
    /// A character of a string on one line other than a control character, or its closing quotation
    /// mark, which is this one.
    Character(Mark),
    /// The same for a multi-line string, which three quotation marks close.
    LongCharacter(Mark),
    /// The character after a backslash: `b`, `t`, `n`, `f`, `r`, `"`, `\`, `u` or `U`.
    Escape,
    /// The same, or a line ending, with whitespace before it.
    LongEscape,
    /// The end of the line after a backslash and whitespace.
    EscapedLineEnd,
    /// A hexadecimal digit.
    HexDigit,
    /// A hexadecimal digit with which the number of a character can begin: at most 10FFFF, and no
    /// surrogate.
    ScalarDigit,
    /// This letter of `true`, `false`, `inf` or `nan`.
    Letter(char),
    /// A digit, `inf` or `nan`.
    DigitOrWord,
    /// A digit.
    Digit,
    /// A digit, or the sign of an exponent.
    DigitOrSign,
    /// A digit of this base.
    BaseDigit(Base),
    /// An integer of 64 bits. This one is too large.
    Smaller,
    /// A year or an hour. A number has no leading zero.
    YearOrHour,
    /// A month.
    Month,
    /// A day of a month that has this number of days.
    Day(u64),
    /// An hour.
    Hour,
    /// A minute.
    Minute,
    /// A second.
    Second,
    /// A hyphen in a date.
    Hyphen,
    /// A colon in a time or an offset.
    Colon,
    /// No opening bracket or brace: the maximum number is open.
    NoDeeper,
    /// No byte order mark.
    NoByteOrderMark,
}

impl Expected {
    /// Writes what is expected in a string.
    fn write_text<W: fmt::Write>(&self, f: &mut Formatter<W>) -> fmt::Result {
        f.write_str(match *self {
            Expected::LineFeed => "a line feed",
            Expected::CommentCharacter => "a character of a comment or the end of the line",
            Expected::Character(Mark::Basic) => "a character of a string or `\"`",
            Expected::Character(Mark::Literal) => "a character of a string or `'`",
            Expected::LongCharacter(Mark::Basic) => "a character of a string or `\"\"\"`",
            Expected::LongCharacter(Mark::Literal) => "a character of a string or `'''`",
            Expected::Escape => "`b`, `t`, `n`, `f`, `r`, `\"`, `\\`, `u` or `U` after `\\`",
            Expected::LongEscape => {
                "`b`, `t`, `n`, `f`, `r`, `\"`, `\\`, `u`, `U` or a line ending after `\\`"
            }
            Expected::EscapedLineEnd => "a line ending after `\\` and whitespace",
            Expected::HexDigit => "a hexadecimal digit",
            Expected::ScalarDigit => "a hexadecimal digit of a Unicode scalar value",
            _ => "",
        })
    }

    /// Writes what is expected in a number, a date or a time.
    fn write_number<W: fmt::Write>(&self, f: &mut Formatter<W>) -> fmt::Result {
        f.write_str(match *self {
            Expected::Letter(letter) => return write!(f, "the letter `{letter}`"),
            Expected::DigitOrWord => "a digit, `inf` or `nan`",
            Expected::Digit => "a digit",
            Expected::DigitOrSign => "a digit or a sign",
            Expected::BaseDigit(Base::Hex) => "a hexadecimal digit",
            Expected::BaseDigit(Base::Octal) => "a digit from 0 to 7",
            Expected::BaseDigit(Base::Binary) => "a digit from 0 to 1",
            Expected::Smaller => "an integer of 64 bits",
            Expected::YearOrHour => "a year or an hour, or a number without leading zeros",
            Expected::Month => "a month from 01 to 12",
            Expected::Day(days) => return write!(f, "a day from 01 to {days}"),
            Expected::Hour => "an hour from 00 to 23",
            Expected::Minute => "a minute from 00 to 59",
            Expected::Second => "a second from 00 to 60",
            Expected::Hyphen => "`-`",
            Expected::Colon => "`:`",
            _ => return self.write_text(f),
        })
    }
}

impl Display for Expected {
    fn fmt<W: fmt::Write>(&self, f: &mut Formatter<W>) -> fmt::Result {
        f.write_str(match *self {
            Expected::KeyOrTable => "a key or a table",
            Expected::Key => "a key",
            Expected::KeyOrBrace => "a key or `}`",
            Expected::TableName => "the name of a table",
            Expected::EqualsSign => "`.` or `=`",
            Expected::ClosingBracket => "`.` or `]`",
            Expected::SecondBracket => "`]`",
            Expected::Value => "a value",
            Expected::ValueOrBracket => "a value or `]`",
            Expected::CommaOrBracket => "a comma or `]`",
            Expected::CommaOrBrace => "a comma or `}`",
            Expected::LineEnd => "the end of the line",
            Expected::NoDeeper => "no deeper array or inline table",
            Expected::NoByteOrderMark => "no byte order mark",
            _ => return self.write_number(f),
        })
    }
}

/// Returns what is expected after a value in this bracket.
fn wanted_after(held: Option<Bracket>) -> Expected
    ensures { result ≡ wanted modes.After held }
{
    match held {
        None => Expected::LineEnd,
        Some(Bracket::Array) => Expected::CommaOrBracket,
        Some(Bracket::Table) => Expected::CommaOrBrace,
    }
}

/// Returns what is expected in a date or a time.
fn wanted_in_moment(moment: Moment, held: Option<Bracket>) -> Expected
    ensures { result ≡ wanted (modes.Number (figures.Moment moment)) held }
{
    match moment {
        Moment::Month { .. } | Moment::MonthEnd { .. } => Expected::Month,
        Moment::DayMark(_) => Expected::Hyphen,
        Moment::Day(days) => Expected::Day(days),
        Moment::DayEnd { days, .. } => Expected::Day(days),
        Moment::Hour | Moment::HourEnd { .. } | Moment::OffsetHour | Moment::OffsetHourEnd { .. } =>
            Expected::Hour,
        Moment::MinuteMark | Moment::SecondMark { .. } | Moment::OffsetMark => Expected::Colon,
        Moment::Minute { .. }
        | Moment::MinuteEnd { .. }
        | Moment::OffsetMinute
        | Moment::OffsetMinuteEnd => Expected::Minute,
        Moment::Second { .. } | Moment::SecondEnd { .. } => Expected::Second,
        Moment::Point { .. } => Expected::Digit,
        _ => wanted_after(held),
    }
}

/// Returns what is expected in a number, a date or a time, or after one.
fn wanted_in_number(figure: Figure, held: Option<Bracket>) -> Expected
    ensures { result ≡ wanted (modes.Number figure) held }
{
    match figure {
        Figure::Moment(moment) => wanted_in_moment(moment, held),
        Figure::Prefix(base) => Expected::BaseDigit(base),
        Figure::BasedMark(base, _) => Expected::BaseDigit(base),
        Figure::Whole(whole) if !fits(whole) => Expected::Smaller,
        Figure::Point | Figure::FractionMark | Figure::Power | Figure::WholeMark(_) => {
            Expected::Digit
        }
        Figure::Exponent => Expected::DigitOrSign,
        Figure::Lead(digits, _) if digits == 4 => Expected::Hyphen,
        Figure::Lead(_, _) => Expected::YearOrHour,
        _ => wanted_after(held),
    }
}

/// Returns what is expected in an escape of a multi-line string.
fn wanted_in_escape(escape: Escape) -> Expected
    ensures { result ≡ wanted (modes.LongEscape escape) None }
{
    match escape {
        Escape::Letter => Expected::LongEscape,
        Escape::Unit | Escape::Four | Escape::Three | Escape::Two | Escape::One => {
            Expected::HexDigit
        }
        _ => Expected::ScalarDigit,
    }
}

/// Returns what is expected in `mode`, in the bracket `held`, the last that was opened.
pub fn wanted(mode: Mode, held: Option<Bracket>) -> Expected
    ensures { result ≡ wanted mode held }
{
    match mode {
        Mode::Line => Expected::KeyOrTable,
        Mode::Comment(_) => Expected::CommentCharacter,
        Mode::Return(_) | Mode::LongReturn(_) => Expected::LineFeed,
        Mode::Name(Owner::Entry | Owner::Member) => Expected::Key,
        Mode::Name(_) | Mode::Header => Expected::TableName,
        Mode::Closing => Expected::SecondBracket,
        Mode::FirstName => Expected::KeyOrBrace,
        Mode::Bare(Owner::Entry | Owner::Member) => Expected::EqualsSign,
        Mode::Behind(Owner::Entry | Owner::Member) => Expected::EqualsSign,
        Mode::Bare(_) | Mode::Behind(_) => Expected::ClosingBracket,
        Mode::Value => Expected::Value,
        Mode::Item => Expected::ValueOrBracket,
        Mode::Basic(_) => Expected::Character(Mark::Basic),
        Mode::Literal(_) => Expected::Character(Mark::Literal),
        Mode::Quote(mark) => Expected::Character(mark),
        Mode::Long(mark, quotes) if quotes < 3 => Expected::LongCharacter(mark),
        Mode::Escaped(_, Escape::Letter) => Expected::Escape,
        Mode::Escaped(_, escape) => wanted_in_escape(escape),
        Mode::LongEscape(escape) => wanted_in_escape(escape),
        Mode::LongBlank => Expected::EscapedLineEnd,
        Mode::Word(letters) => Expected::Letter(letter_of(letters)),
        Mode::Sign(_) => Expected::DigitOrWord,
        Mode::Number(figure) => wanted_in_number(figure, held),
        Mode::After | Mode::Quotes(_) | Mode::Long(_, _) => wanted_after(held),
    }
}

/// Returns whether it is a digit of the base.
fn is_digit_of(base: Base, c: char) -> bool
    ensures { result ≡ is_digit_of base c }
{
    match base {
        Base::Hex => is_hex(c),
        Base::Octal => '0' <= c && c <= '7',
        Base::Binary => '0' <= c && c <= '1',
    }
}

/// Returns what is expected in `mode`, in the bracket `held`, instead of this character.
pub fn wanted_at(mode: Mode, held: Option<Bracket>, c: char) -> Expected
    ensures { result ≡ wanted_at mode held c }
{
    match mode {
        Mode::Line if c == '\u{feff}' => Expected::NoByteOrderMark,
        Mode::Number(Figure::Based(base, _)) if is_digit_of(base, c) => Expected::Smaller,
        Mode::Number(Figure::BasedMark(base, _)) if is_digit_of(base, c) => Expected::Smaller,
        Mode::Number(figure) => wanted_in_number(figure, held),
        other => wanted(other, held),
    }
}
