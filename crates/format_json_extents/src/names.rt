//! Strings of JSON compared with a text, without writing their text anywhere.

ghost use Rattle.std.specs.Prelude.{◌≡◌, ◌∷◌, ◌++◌, [], List, ℕ, MatchOption};
ghost use Rattle.std.specs.Char.{encode_utf8};
ghost use Rattle.format_json_extents.specs.Names.{IsCompared, IsEqualIf, IsTailCompared, Remains};
ghost use Rattle.format_json_extents.specs.Names.{name_text};
ghost use Rattle.format_json_extents.specs.Strings.{IsEscape, IsString, IsStringTail};
ghost use Rattle.format_json_extents.specs.Texts.{NoMatchAtStart};
ghost use Rattle.format_json_texts.specs.Strings.{EscapeText};

use crate::string::skip_escape;
use crate::tokens::{skip_byte, skip_unescaped};
use crate::unescape::character;

/// Returns the first byte of a name, and the rest of it. In a reference token (`token`) of a JSON
/// pointer, `~0` is a tilde and `~1` a slash.
fn next_byte<'n>(token: bool, name: &'n [u8]) -> Option<(u8, &'n [u8])>
    ensures { MatchOption result (name_text token name.now ≡ [])
        (λ r. name_text token name.now ≡ r.0 ∷ name_text token r.1.now) }
{
    let (first, more) = name.split_first()?;
    if !token || *first != b'~' {
        return Some((*first, more));
    }
    match more.split_first() {
        Some((second, rest)) => Some((if *second == b'1' { b'/' } else { b'~' }, rest)),
        None => Some((b'~', more)),
    }
}

/// Removes bytes from the start of the rest of a name, if it was the same so far. Returns whether
/// it still is, and the rest.
fn strip<'n>(token: bool, same: bool, name: &'n [u8], text: &[u8]) -> (bool, &'n [u8])
    ensures { (whole meant : List ℕ) → Remains token whole meant same name.now
        → Remains token whole (meant ++ text.now) result.0 result.1.now }
{
    let mut left = name;
    let mut wanted = text;
    if !same {
        return (false, name);
    }
    'bytes: loop {
        match wanted.split_first() {
            Some((first, others)) => match next_byte(token, left) {
                Some((next, more)) => {
                    if next != *first {
                        return (false, left);
                    }
                    left = more;
                    wanted = others;
                }
                None => return (false, left),
            },
            None => return (true, left),
        }
    }
}

/// Removes the character of an escape, as [`strip`] does.
#[inline(never)]
fn strip_escape<'n>(token: bool, same: bool, name: &'n [u8], escape: &[u8]) -> (bool, &'n [u8])
    requires { IsEscape escape.now }
    ensures { (char : ℕ) × EscapeText char (92 ∷ escape.now)
        × ((whole meant : List ℕ) → Remains token whole meant same name.now
        → Remains token whole (meant ++ encode_utf8 char) result.0 result.1.now) }
{
    let mut bytes = [0; 4];
    let text = character(escape).encode_utf8(&mut bytes).as_bytes();
    strip(token, same, name, text)
}

/// Whether a name was the same up to its end.
fn is_whole(token: bool, same: bool, left: &[u8]) -> bool
    ensures { (whole meant : List ℕ) → Remains token whole meant same left.now
        → IsEqualIf result whole meant }
{
    match next_byte(token, left) {
        Some(_) => false,
        None => same,
    }
}

/// Compares the text of a string with a name from after the first quote. Returns whether they are
/// equal, and the bytes after the last quote.
fn compare_tail<'i>(token: bool, bytes: &'i [u8], name: &[u8]) -> Option<(bool, &'i [u8])>
    ensures { MatchOption result (NoMatchAtStart IsStringTail bytes.now)
        (λ r. IsTailCompared r.0 (name_text token name.now) bytes.now r.1.now) }
{
    let mut rest = bytes;
    let mut left = name;
    let mut same = true;
    'pieces: loop {
        let ahead = skip_unescaped(rest);
        let plain = strip(token, same, left, &rest[..rest.len() - ahead.len()]);
        match skip_byte(b'"', ahead) {
            Some(end) => return Some((is_whole(token, plain.0, plain.1), end)),
            None => {
                let escape = skip_byte(b'\\', ahead)?;
                rest = skip_escape(escape)?;
                let between = &escape[..escape.len() - rest.len()];
                let after = strip_escape(token, plain.0, plain.1, between);
                same = after.0;
                left = after.1;
            }
        }
    }
}

/// Compares the text of the string that the bytes start with, its escapes decoded, with a name.
/// Returns whether they are equal, and the bytes after the string; `None` if and only if the bytes
/// do not start with a string.
///
/// If `token` is true, the name is a reference token of a JSON pointer (RFC 6901): `~0` is a tilde
/// and `~1` a slash.
///
/// ```
/// use format_json_extents::names::compare;
///
/// let string = b"\"r\\u006fle\": 1".as_slice();
/// assert!(rt; matches!(compare(false, string, b"role"), Some((true, rest)) if rest.len() == 3));
/// assert!(rt; matches!(compare(false, string, b"rol"), Some((false, _))));
/// assert!(rt; compare(false, b"role", b"role").is_none());
/// ```
pub fn compare<'i>(token: bool, bytes: &'i [u8], name: &[u8]) -> Option<(bool, &'i [u8])>
    ensures { MatchOption result (NoMatchAtStart IsString bytes.now)
        (λ r. IsCompared r.0 (name_text token name.now) bytes.now r.1.now) }
{
    compare_tail(token, skip_byte(b'"', bytes)?, name)
}
