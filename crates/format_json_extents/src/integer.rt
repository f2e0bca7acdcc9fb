//! Numbers of JSON as integers.

ghost use Rattle.format_json_extents.specs.Integer.{IsInteger, IsNatural};
ghost use Rattle.format_json_extents.specs.Number.{IsNumber};

/// Returns the integer that a JSON number is written as, if it fits 64 bits with a sign. Returns
/// `None` if it does not fit, or if the number has a decimal point or an exponent, as `1.0` and
/// `1e2` have. `-0` is 0. The result is that of `as_i64` on a value of `format_json_texts`. It is
/// unspecified if the bytes are not a JSON number.
///
/// ```
/// use format_json_extents::integer::as_i64;
///
/// assert_eq!(rt; as_i64(b"-12".as_slice()), Some(-12));
/// assert_eq!(rt; as_i64(b"1e2".as_slice()), None);
/// assert_eq!(rt; as_i64(b"9223372036854775808".as_slice()), None);
/// ```
pub fn as_i64(number: &[u8]) -> Option<i64>
    ensures { IsNumber number.now → IsInteger number.now result }
{
    match str::from_utf8(number) {
        Ok(text) => text.parse::<i64>().ok(),
        Err(_) => None,
    }
}

/// Like [`as_i64`], for 64 bits without a sign: returns `None` for a number with a minus sign,
/// including `-0`.
///
/// ```
/// use format_json_extents::integer::as_u64;
///
/// assert_eq!(rt; as_u64(b"18446744073709551615".as_slice()), Some(u64::MAX));
/// assert_eq!(rt; as_u64(b"-0".as_slice()), None);
/// ```
pub fn as_u64(number: &[u8]) -> Option<u64>
    ensures { IsNumber number.now → IsNatural number.now result }
{
    match str::from_utf8(number) {
        Ok(text) => text.parse::<u64>().ok(),
        Err(_) => None,
    }
}
