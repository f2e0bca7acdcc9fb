//! Numbers as integers.
ghost use Rattle.format_json_values.specs.Integer.{HasInteger};

use format_json_texts::value::Value;
use std::alloc::Allocator;

/// Returns the integer that a number is written as, in digits with or without a sign: the sign of a
/// JSON number is a minus. Returns `None` if the value is not a number, if its text has a point or
/// an exponent, or if the integer does not fit 64 bits.
///
/// ```
/// use format_json_values::integer::as_i64;
/// use format_json_values::value::parse_value;
///
/// let value = parse_value(alloc, 0, " -12 ");
/// assert!(rt; matches!(value, Ok(value) if as_i64(&value) == Some(-12)));
/// let value = parse_value(alloc, 0, "12.0");
/// assert!(rt; matches!(value, Ok(value) if as_i64(&value) == None));
/// ```
pub fn as_i64<A: Allocator>(value: &Value<A>) -> Option<i64>
    ensures { HasInteger value.now result }
{
    match value {
        Value::Number(text) => text.as_str().parse::<i64>().ok(),
        _ => None,
    }
}
