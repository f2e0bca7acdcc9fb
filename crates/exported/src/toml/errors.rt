//! The numbers of the errors of TOML documents.
ghost use Rattle.exported.specs.TomlErrors.{expected_of, number_in_number, number_in_text};
ghost use Rattle.exported.specs.TomlErrors.{reason_of};
ghost use Rattle.std.specs.Prelude.{◌≡◌};

use format_toml_document::{Base, Expected, Mark, Reason};

/// No error.
pub const TOML_ERROR_NONE: u32 = 0;

/// Expected a key or a table.
pub const TOML_ERROR_KEY_OR_TABLE: u32 = 1;

/// Expected a key.
pub const TOML_ERROR_KEY: u32 = 2;

/// Expected a key, or the brace that closes an inline table.
pub const TOML_ERROR_KEY_OR_BRACE: u32 = 3;

/// Expected the name of a table.
pub const TOML_ERROR_TABLE_NAME: u32 = 4;

/// Expected an equals sign, or a point in the key.
pub const TOML_ERROR_EQUALS_SIGN: u32 = 5;

/// Expected a closing bracket, or a point in the name of the table.
pub const TOML_ERROR_CLOSING_BRACKET: u32 = 6;

/// Expected a second closing bracket.
pub const TOML_ERROR_SECOND_BRACKET: u32 = 7;

/// Expected a value.
pub const TOML_ERROR_VALUE: u32 = 8;

/// Expected a value, or the bracket that closes an array.
pub const TOML_ERROR_VALUE_OR_BRACKET: u32 = 9;

/// Expected a comma, or the bracket that closes an array.
pub const TOML_ERROR_COMMA_OR_BRACKET: u32 = 10;

/// Expected a comma, or the brace that closes an inline table.
pub const TOML_ERROR_COMMA_OR_BRACE: u32 = 11;

/// Expected the end of the line.
pub const TOML_ERROR_LINE_END: u32 = 12;

/// Expected a line feed.
pub const TOML_ERROR_LINE_FEED: u32 = 13;

/// Expected a character of a comment, or the end of the line.
pub const TOML_ERROR_COMMENT: u32 = 14;

/// Expected a character of a string, or a double quotation mark.
pub const TOML_ERROR_BASIC_STRING: u32 = 15;

/// Expected a character of a string, or a single quotation mark.
pub const TOML_ERROR_LITERAL_STRING: u32 = 16;

/// Expected a character of a string, or three double quotation marks.
pub const TOML_ERROR_LONG_BASIC_STRING: u32 = 17;

/// Expected a character of a string, or three single quotation marks.
pub const TOML_ERROR_LONG_LITERAL_STRING: u32 = 18;

/// Expected the character of an escape.
pub const TOML_ERROR_ESCAPE: u32 = 19;

/// Expected the character of an escape, or the end of the line.
pub const TOML_ERROR_LONG_ESCAPE: u32 = 20;

/// Expected the end of the line after the backslash.
pub const TOML_ERROR_ESCAPED_LINE_END: u32 = 21;

/// Expected a hexadecimal digit.
pub const TOML_ERROR_HEX_DIGIT: u32 = 22;

/// Expected a hexadecimal digit of a Unicode scalar value.
pub const TOML_ERROR_SCALAR_DIGIT: u32 = 23;

/// Expected the next letter of true, false, inf or nan.
pub const TOML_ERROR_WORD: u32 = 24;

/// Expected a digit, inf or nan.
pub const TOML_ERROR_DIGIT_OR_WORD: u32 = 25;

/// Expected a digit.
pub const TOML_ERROR_DIGIT: u32 = 26;

/// Expected a digit or a sign.
pub const TOML_ERROR_DIGIT_OR_SIGN: u32 = 27;

/// Expected a digit from 0 to 7.
pub const TOML_ERROR_OCTAL_DIGIT: u32 = 28;

/// Expected a digit from 0 to 1.
pub const TOML_ERROR_BINARY_DIGIT: u32 = 29;

/// Integer does not have 64 bits.
pub const TOML_ERROR_INTEGER_TOO_LARGE: u32 = 30;

/// Expected a year or an hour, or a number without leading zeros.
pub const TOML_ERROR_YEAR_OR_HOUR: u32 = 31;

/// Expected a month from 01 to 12.
pub const TOML_ERROR_MONTH: u32 = 32;

/// Expected a day of the month.
pub const TOML_ERROR_DAY: u32 = 33;

/// Expected an hour from 00 to 23.
pub const TOML_ERROR_HOUR: u32 = 34;

/// Expected a minute from 00 to 59.
pub const TOML_ERROR_MINUTE: u32 = 35;

/// Expected a second from 00 to 60.
pub const TOML_ERROR_SECOND: u32 = 36;

/// Expected a hyphen in the date.
pub const TOML_ERROR_HYPHEN: u32 = 37;

/// Expected a colon in the time.
pub const TOML_ERROR_COLON: u32 = 38;

/// Array or inline table nested deeper than the depth limit.
pub const TOML_ERROR_TOO_DEEP: u32 = 39;

/// Byte order mark is not allowed.
pub const TOML_ERROR_BYTE_ORDER_MARK: u32 = 40;

/// Key is already defined.
pub const TOML_ERROR_DEFINED: u32 = 41;

/// Key is not a table.
pub const TOML_ERROR_NOT_A_TABLE: u32 = 42;

/// Table cannot be extended. It is an inline table, or the line extends the table of a header by
/// dotted keys.
pub const TOML_ERROR_CLOSED: u32 = 43;

/// Key is not an array of tables.
pub const TOML_ERROR_NOT_AN_ARRAY_OF_TABLES: u32 = 44;

/// Table or array is nested deeper than the depth limit. The line makes it.
pub const TOML_ERROR_LINE_TOO_DEEP: u32 = 45;

/// Returns the number of an expected character of a string or a comment.
fn number_in_text(expected: Expected) -> u32
    ensures { result ≡ number_in_text expected }
{
    match expected {
        Expected::LineFeed => TOML_ERROR_LINE_FEED,
        Expected::CommentCharacter => TOML_ERROR_COMMENT,
        Expected::Character(Mark::Basic) => TOML_ERROR_BASIC_STRING,
        Expected::Character(Mark::Literal) => TOML_ERROR_LITERAL_STRING,
        Expected::LongCharacter(Mark::Basic) => TOML_ERROR_LONG_BASIC_STRING,
        Expected::LongCharacter(Mark::Literal) => TOML_ERROR_LONG_LITERAL_STRING,
        Expected::Escape => TOML_ERROR_ESCAPE,
        Expected::LongEscape => TOML_ERROR_LONG_ESCAPE,
        Expected::EscapedLineEnd => TOML_ERROR_ESCAPED_LINE_END,
        Expected::HexDigit | Expected::BaseDigit(Base::Hex) => TOML_ERROR_HEX_DIGIT,
        Expected::ScalarDigit => TOML_ERROR_SCALAR_DIGIT,
        _ => TOML_ERROR_NONE,
    }
}

/// Returns the number of an expected character of a number or a date.
fn number_in_number(expected: Expected) -> u32
    ensures { result ≡ number_in_number expected }
{
    match expected {
        Expected::Letter(_) => TOML_ERROR_WORD,
        Expected::DigitOrWord => TOML_ERROR_DIGIT_OR_WORD,
        Expected::Digit => TOML_ERROR_DIGIT,
        Expected::DigitOrSign => TOML_ERROR_DIGIT_OR_SIGN,
        Expected::BaseDigit(Base::Octal) => TOML_ERROR_OCTAL_DIGIT,
        Expected::BaseDigit(Base::Binary) => TOML_ERROR_BINARY_DIGIT,
        Expected::Smaller => TOML_ERROR_INTEGER_TOO_LARGE,
        Expected::YearOrHour => TOML_ERROR_YEAR_OR_HOUR,
        Expected::Month => TOML_ERROR_MONTH,
        Expected::Day(_) => TOML_ERROR_DAY,
        Expected::Hour => TOML_ERROR_HOUR,
        Expected::Minute => TOML_ERROR_MINUTE,
        Expected::Second => TOML_ERROR_SECOND,
        Expected::Hyphen => TOML_ERROR_HYPHEN,
        Expected::Colon => TOML_ERROR_COLON,
        other => number_in_text(other),
    }
}

/// Returns the number of an expected element.
pub fn number_of_expected(expected: Expected) -> u32
    ensures { result ≡ expected_of expected }
{
    match expected {
        Expected::KeyOrTable => TOML_ERROR_KEY_OR_TABLE,
        Expected::Key => TOML_ERROR_KEY,
        Expected::KeyOrBrace => TOML_ERROR_KEY_OR_BRACE,
        Expected::TableName => TOML_ERROR_TABLE_NAME,
        Expected::EqualsSign => TOML_ERROR_EQUALS_SIGN,
        Expected::ClosingBracket => TOML_ERROR_CLOSING_BRACKET,
        Expected::SecondBracket => TOML_ERROR_SECOND_BRACKET,
        Expected::Value => TOML_ERROR_VALUE,
        Expected::ValueOrBracket => TOML_ERROR_VALUE_OR_BRACKET,
        Expected::CommaOrBracket => TOML_ERROR_COMMA_OR_BRACKET,
        Expected::CommaOrBrace => TOML_ERROR_COMMA_OR_BRACE,
        Expected::LineEnd => TOML_ERROR_LINE_END,
        Expected::NoDeeper => TOML_ERROR_TOO_DEEP,
        Expected::NoByteOrderMark => TOML_ERROR_BYTE_ORDER_MARK,
        other => number_in_number(other),
    }
}

/// Returns the number of the reason why a line is rejected.
pub fn number_of_reason(why: Reason) -> u32
    ensures { result ≡ reason_of why }
{
    match why {
        Reason::Defined => TOML_ERROR_DEFINED,
        Reason::NoTable => TOML_ERROR_NOT_A_TABLE,
        Reason::Closed => TOML_ERROR_CLOSED,
        Reason::NoTables => TOML_ERROR_NOT_AN_ARRAY_OF_TABLES,
        Reason::TooDeep => TOML_ERROR_LINE_TOO_DEEP,
    }
}
