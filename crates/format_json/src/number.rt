//! Numbers of values as decimals: a sign, digits and a power of ten.
ghost use Rattle.std.specs.Prelude.{string_bytes};
ghost use Rattle.format_json_texts.specs.Decimals.{Answers};
ghost use Rattle.format_json_texts.specs.NumberParts.{IsWritten, Number};
ghost use Rattle.format_json_texts.specs.Kinds.{Has};
ghost use Rattle.format_json_texts.specs.declared.value.Value as values;

use format_json_texts::decimal::{self, Decimal, DecimalError};
use format_json_texts::value::Value;
use std::alloc::Allocator;

/// Returns the exact decimal value of a number, or why it does not fit; `None` if the value is not
/// a number. The result is unspecified if the number was made with a text that is not a JSON
/// number. Does not allocate.
///
/// ```
/// use format_json::{Decimal, as_decimal, from_text};
///
/// let Ok(price) = from_text(alloc, 0, "19.950") else {
///     return;
/// };
/// let found = Decimal { negative: false, digits: 1995, exponent: -2 };
/// assert!(rt; matches!(as_decimal(&price), Some(Ok(decimal)) if decimal == found));
/// ```
pub fn as_decimal<A: Allocator>(value: &Value<A>) -> Option<Result<Decimal, DecimalError>>
    ensures { Has values.Number (λ text result. (n : Number) → IsWritten (string_bytes text) n
        → Answers n result) value.now result }
{
    match value {
        Value::Number(text) => Some(decimal::as_decimal(text.as_str().as_bytes())),
        _ => None,
    }
}
