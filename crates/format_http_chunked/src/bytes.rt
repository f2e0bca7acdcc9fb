//! The bytes of which size lines and field lines are made.
#![tactic(auto)]

ghost use Rattle.format_http_chunked.specs.Bodies.{IsHexDigit, IsQuotedByte, IsTokenByte};
ghost use Rattle.format_http_chunked.specs.Bodies.{IsValueByte};
ghost use Rattle.std.specs.Char.{digit_value};
ghost use Rattle.std.specs.Prelude.{◌≡◌, ◌↔◌, ◌<◌, IfSome, IsTrue, None};

/// Whether a token may have this byte.
#[inline]
pub(crate) fn is_token(byte: u8) -> bool
    ensures { IsTrue result ↔ IsTokenByte byte }
{
    byte.is_ascii_digit()
        || byte.is_ascii_uppercase()
        || (b'^' <= byte && byte <= b'z')
        || byte == b'!'
        || (b'#' <= byte && byte <= b'\'')
        || (b'*' <= byte && byte <= b'+')
        || (b'-' <= byte && byte <= b'.')
        || byte == b'|'
        || byte == b'~'
}

/// Whether a value, or a quoted pair, may have this byte.
#[inline]
pub(crate) fn is_value(byte: u8) -> bool
    ensures { IsTrue result ↔ IsValueByte byte }
{
    (b' ' <= byte && byte != 127) || byte == b'\t'
}

/// Whether this byte stands for itself in quotes.
#[inline]
pub(crate) fn is_quoted(byte: u8) -> bool
    ensures { IsTrue result ↔ IsQuotedByte byte }
{
    byte == b'\t'
        || byte == b' '
        || byte == b'!'
        || (b'#' <= byte && byte <= b'[')
        || (b']' <= byte && byte <= b'~')
        || byte >= 128
}

/// Returns the value of a hexadecimal digit.
#[inline(always)]
pub(crate) fn digit_of(byte: u8) -> Option<u64>
    ensures some { IfSome result (λ value. IsHexDigit byte × (value ≡ digit_value byte)
        × (value < 16)) }
    ensures none { result ≡ None → IsHexDigit byte → ⊥ }
{
    match byte {
        b'0'..=b'9' => Some(u64::from(byte - b'0')),
        b'A'..=b'F' => Some(u64::from(byte - b'A') + 10),
        b'a'..=b'f' => Some(u64::from(byte - b'a') + 10),
        _ => None,
    }
}
