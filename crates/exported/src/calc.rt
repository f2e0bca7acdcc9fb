//! Formulas of whole numbers.

ghost use Rattle.std.specs.Prelude.{◌≡◌, ◌⊎◌, pos};
ghost use Rattle.std.specs.Str.{IsUtf8};
ghost use Rattle.format_calculator.specs.Calculator.{IsFormulaFault, IsValue};
ghost use Rattle.format_calculator.specs.declared.fault.ReadError.TheVariants.{Invalid};
ghost use Rattle.exported.specs.Code.{done, invalid, invalid_utf8, no_memory};

use crate::code::{DONE, INVALID, INVALID_UTF8, NO_MEMORY};
use format_calculator::calc;
use format_calculator::fault::ReadError;
use std::alloc::Global;

/// The value of a formula, or the offset of an error.
#[repr(C)]
#[derive(Clone, Copy, Drop)]
pub struct Number {
    /// The value, or 0 where there is none.
    pub value: i64,
    /// The offset of the error in bytes; 0 otherwise.
    pub error_offset: usize,
}

/// No value.
const NONE: Number = Number {
    value: 0,
    error_offset: 0,
};

/// Parses `text`, and writes its value or the offset of the error.
fn read(alloc: Global, text: &str, out: &mut Number) -> u32
    ensures value { result ≡ done → IsValue text.now out.new.value }
    ensures refused { result ≡ invalid → IsFormulaFault text.now (Invalid out.new.error_offset) }
    ensures none { (result ≡ done → ⊥) → out.new.value ≡ pos 0 }
    ensures nowhere { (result ≡ invalid → ⊥) → out.new.error_offset ≡ 0 }
    ensures codes { (result ≡ done) ⊎ ((result ≡ invalid) ⊎ (result ≡ no_memory)) }
{
    match calc::value(alloc, text) {
        Ok(value) => {
            *out = Number {
                value,
                error_offset: 0,
            };
            DONE
        }
        Err(ReadError::Invalid(place)) => {
            *out = Number {
                value: 0,
                error_offset: place,
            };
            INVALID
        }
        Err(ReadError::NoMemory) => {
            *out = NONE;
            NO_MEMORY
        }
    }
}

/// Evaluates a formula of integers, such as `-2 * 3! ^ 2`.
///
/// Whitespace may precede the formula, and may follow each number and operator. The operators, from
/// the highest precedence to the lowest, are: `!` after a number, its factorial; `+` and `-` before
/// a number; `^`, a power, right-associative; `*`, `/` and `%`, left-associative; `+` and `-`,
/// left-associative; and `=`, which gives 1 if both sides are equal and 0 otherwise. `/` rounds
/// towards 0, and the result of `%` has the sign of its left operand.
///
/// `DONE`: the value is written.
///
/// A call holds up to 100 bytes of memory for each byte of the text.
///
/// # Errors
///
/// `INVALID`: the text is not a formula, a number or a result does not fit a signed 64-bit integer,
/// a divisor is 0, an exponent is negative, or the operand of a factorial is negative. `%` also
/// fails if the quotient does not fit, as in `-2 ^ 63 % -1`. The offset of the error is written. It
/// is the start or the end of the text, or lies between two of its characters. It is tested, but
/// not proved, that the formula was parsed up to there.
///
/// `INVALID_UTF8`, `NO_MEMORY`.
///
/// # Safety
///
/// `text` must be valid for reads of `text_length` bytes, which must not change during the call,
/// and `out` must be valid for writes of one number. They must not overlap. The call needs 16 KiB
/// of stack.
#[unsafe(no_mangle)]
pub extern "C" fn exported_calc_value(alloc: Global, text: &[u8], out: &mut Number) -> u32
    ensures value { result ≡ done → IsUtf8 text.now × IsValue text.now out.new.value }
    ensures refused { result ≡ invalid
        → IsUtf8 text.now × IsFormulaFault text.now (Invalid out.new.error_offset) }
    ensures none { (result ≡ done → ⊥) → out.new.value ≡ pos 0 }
    ensures nowhere { (result ≡ invalid → ⊥) → out.new.error_offset ≡ 0 }
    ensures text { result ≡ invalid_utf8 → IsUtf8 text.now → ⊥ }
    ensures codes { (result ≡ done) ⊎ ((result ≡ invalid) ⊎ ((result ≡ invalid_utf8)
        ⊎ (result ≡ no_memory))) }
{
    match str::from_utf8(text) {
        Ok(chars) => read(alloc, chars, out),
        Err(_) => {
            *out = NONE;
            INVALID_UTF8
        }
    }
}
