//! Integers (TOML 1.0: Integer), as the numbers that they are.
ghost use Rattle.std.specs.Char.{digit_value};
ghost use Rattle.std.specs.Prelude.{◌≡◌, ◌≤◌, ◌↔◌, IsTrue};
ghost use Rattle.format_toml.specs.Numbers.{AfterZero, IsIntegerOf, IsLone, IsNumber, NumberText};
ghost use Rattle.format_toml.specs.Numbers.{UnsignedText};

/// Returns the value of a digit or a letter, from 0 for '0' to 35 for 'Z' and 'z'; 36 for any other
/// byte.
fn value_of(byte: u8) -> u64
    ensures { result ≡ digit_value byte }
{
    match char::from(byte).to_digit(36) {
        Some(value) => u64::from(value),
        None => 36,
    }
}

/// Returns the number that digits denote, with optional underscores between them. Returns `None` if
/// the text is not such digits, or if the number does not fit 64 bits.
fn number_in(base: u64, text: &[u8]) -> Option<u64>
    requires some { 2 ≤ base }
    requires most { base ≤ 16 }
    ensures { IsNumber (NumberText base) text.now result }
{
    let mut number = 0_u64;
    let mut due = true;
    for byte in text {
        if *byte == b'_' {
            if due {
                return None;
            }
            due = true;
        } else {
            let digit = value_of(*byte);
            if digit >= base {
                return None;
            }
            number = number.checked_mul(base)?.checked_add(digit)?;
            due = false;
        }
    }
    if due { None } else { Some(number) }
}

/// Whether a leading zero is the only digit, or there is none.
pub(crate) fn is_lone(text: &[u8]) -> bool
    ensures { IsTrue result ↔ IsLone text.now }
{
    text.len() <= 1 || text[0] != b'0'
}

/// Returns the number that decimal digits denote, where a leading zero must be the only digit.
fn unsigned(text: &[u8]) -> Option<u64>
    ensures { IsNumber UnsignedText text.now result }
{
    if is_lone(text) {
        number_in(10, text)
    } else {
        None
    }
}

/// Returns the number for the text after a leading zero: a letter, and digits of its base.
fn after_zero(text: &[u8]) -> Option<u64>
    ensures { IsNumber AfterZero text.now result }
{
    let (letter, digits) = text.split_first()?;
    let letter = *letter;
    if letter == b'x' {
        return number_in(16, digits);
    }
    if letter == b'o' {
        return number_in(8, digits);
    }
    if letter == b'b' {
        return number_in(2, digits);
    }
    None
}

/// The integer that a text is; nothing where it is none, or does not fit in 64 bits.
pub(crate) fn integer(text: &[u8]) -> Option<i64>
    ensures { IsIntegerOf text.now result }
{
    let (first, rest) = text.split_first()?;
    let first = *first;
    if first == b'+' {
        return 0_i64.checked_add_unsigned(unsigned(rest)?);
    }
    if first == b'-' {
        return 0_i64.checked_sub_unsigned(unsigned(rest)?);
    }
    if first == b'0' && text.len() > 1 {
        return 0_i64.checked_add_unsigned(after_zero(rest)?);
    }
    0_i64.checked_add_unsigned(unsigned(text)?)
}
