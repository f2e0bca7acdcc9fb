//! Strings of JSON (RFC 8259, section 7), with the escapes that RFC 8785 (section 3.2.2.2) has for
//! them.
ghost use Rattle.format_json_texts.specs.Strings.{StringText};
ghost use Rattle.format_json_writer.specs.Added.{Appends, IsPrefixOf};
ghost use Rattle.format_json_writer.specs.Strings.{CanonicalCharacter, CanonicalString, Escapes};
ghost use Rattle.format_json_writer.specs.Strings.{IsLowercaseHexDigit};
ghost use Rattle.std.specs.Prelude.{◌≡◌, ◌<◌, ℕ, MatchOption, OnOk, string_bytes};
ghost use Rattle.std.specs.Str.{chars};
ghost use Rattle.std.specs.declared.string.String.{String};
ghost use Rattle.stream_sets.specs.Accumulator.Holds.{HasCharacters};

use std::alloc::{AllocError, Allocator};

/// The character that escapes this one after a backslash, where one does.
fn escape_of(c: char) -> Option<char>
    ensures { MatchOption result ((k : ℕ) → Escapes k c → ⊥) (λ k. Escapes k c) }
{
    match c {
        '"' | '\\' => Some(c),
        '\u{8}' => Some('b'),
        '\u{c}' => Some('f'),
        '\n' => Some('n'),
        '\r' => Some('r'),
        '\t' => Some('t'),
        _ => None,
    }
}

/// The hexadecimal digit of a value, a small letter from ten on.
fn hex_digit(value: u32) -> char
    requires { value < 16 }
    ensures { IsLowercaseHexDigit result value }
{
    match char::from_digit(value, 16) {
        Some(digit) => digit,
        None => '0',
    }
}

/// A backslash, the letter u and the number of a control character.
fn write_number<A: Allocator>(c: char, into: &mut String<A>) -> Result<(), AllocError>
    requires control { c < 32 }
    requires bare { (k : ℕ) → Escapes k c → ⊥ }
    ensures written { OnOk result (Appends CanonicalCharacter c (string_bytes into.old)
        (string_bytes into.new)) }
    ensures kept { IsPrefixOf (string_bytes into.old) (string_bytes into.new) }
{
    let number = c as u32;
    into.push_str("\\u00")?;
    into.push(hex_digit(number / 16))?;
    into.push(hex_digit(number % 16))
}

/// A character, as it is or escaped.
fn write_character<A: Allocator>(c: char, into: &mut String<A>) -> Result<(), AllocError>
    ensures written { OnOk result (Appends CanonicalCharacter c (string_bytes into.old)
        (string_bytes into.new)) }
    ensures kept { IsPrefixOf (string_bytes into.old) (string_bytes into.new) }
{
    if let Some(escape) = escape_of(c) {
        into.push('\\')?;
        return into.push(escape);
    }
    if c < ' ' {
        return write_number(c, into);
    }
    into.push(c)
}

/// Appends a JSON string: quotes, and between them the characters of a text, escaped where they
/// must be.
///
/// Of the texts that RFC 8259 permits for a string, it is that of RFC 8785 (section 3.2.2.2). A
/// quote and a backslash are escaped with a backslash. Of control characters a backspace is `\b`, a
/// tab `\t`, a line feed `\n`, a form feed `\f` and a carriage return `\r`; each other is `\u` and
/// four hexadecimal digits in lower case. All other characters are unchanged.
///
/// Fails if memory allocation fails. Then the previous contents of `into` remain, and more may
/// follow them.
///
/// ```
/// use format_json_writer::string::write_string;
///
/// let mut into = String::new(alloc);
/// assert!(rt; write_string("\"a\" \\ /\n\u{1b}\u{e9}", &mut into).is_ok());
/// assert_eq!(rt; into.as_str(), "\"\\\"a\\\" \\\\ /\\n\\u001b\u{e9}\"");
/// ```
pub fn write_string<A: Allocator>(text: &str, into: &mut String<A>) -> Result<(), AllocError>
    ensures written { OnOk result (Appends CanonicalString (chars text.now) (string_bytes into.old)
        (string_bytes into.new)) }
    ensures text { OnOk result ((string : String A) → string_bytes string ≡ text.now
        → Appends (StringText HasCharacters) string (string_bytes into.old)
        (string_bytes into.new)) }
    ensures kept { IsPrefixOf (string_bytes into.old) (string_bytes into.new) }
{
    into.push('"')?;
    for c in text.chars() {
        write_character(c, into)?;
    }
    into.push('"')
}
