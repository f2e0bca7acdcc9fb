//! Values that have no others in them: strings, numbers and words.

ghost use Rattle.std.specs.Prelude.{MatchOption};
ghost use Rattle.format_json_extents.specs.Texts.{NoByte, NoMatchAtStart, RestAfter};
ghost use Rattle.format_json_extents.specs.Value.{Exactly, ExtendsNumberOf, IsScalar, IsWord};

use crate::number::skip_number;
use crate::string::skip_string_tail;

/// Skips `word`.
fn skip_this<'i>(word: &[u8], bytes: &'i [u8]) -> Option<&'i [u8]>
    ensures { MatchOption result (NoMatchAtStart (Exactly word.now) bytes.now)
        (λ rest. RestAfter (Exactly word.now) NoByte bytes.now rest.now) }
{
    bytes.strip_prefix(word)
}

/// Skips `null`, `true` or `false`.
fn skip_word<'i>(bytes: &'i [u8]) -> Option<&'i [u8]>
    ensures { MatchOption result (NoMatchAtStart IsWord bytes.now)
        (λ rest. RestAfter IsWord NoByte bytes.now rest.now) }
{
    match skip_this(b"null".as_slice(), bytes) {
        Some(rest) => Some(rest),
        None => match skip_this(b"true".as_slice(), bytes) {
            Some(rest) => Some(rest),
            None => skip_this(b"false".as_slice(), bytes),
        },
    }
}

/// Skips a value that is not an array or an object, and returns the remaining bytes.
#[inline(always)]
pub fn skip_scalar<'i>(bytes: &'i [u8]) -> Option<&'i [u8]>
    ensures { MatchOption result (NoMatchAtStart IsScalar bytes.now)
        (λ rest. RestAfter IsScalar (ExtendsNumberOf bytes.now) bytes.now rest.now) }
{
    let (first, inside) = bytes.split_first()?;
    if *first == b'"' {
        return skip_string_tail(inside);
    }
    // Numbers begin with a minus or a digit, words with a letter.
    if *first <= b'9' {
        skip_number(bytes)
    } else {
        skip_word(bytes)
    }
}
