//! Lists in the values of fields (RFC 9110, section 5.6.1): elements with commas between them.
#![tactic(auto)]

ghost use Rattle.format_http.specs.Bodies.Lists.{IsElement, after, parts_in, parts_of};
ghost use Rattle.format_http.specs.Bodies.Lists.{quoted_parts_in, quoted_parts_of, separates};
ghost use Rattle.std.specs.Prelude.{◌≡◌, ◌==◌, ◌↔◌, ◌∷◌, List, position, ℕ};

use crate::heads::field_line::trimmed;

/// The place of the first comma.
fn comma_in(list: &[u8]) -> Option<usize>
    ensures { result ≡ position (λ b. b == 44) list.now }
{
    list.iter().position(|b| *b == b',')
}

/// Returns the part before the first comma of a list, and the rest after that comma, if there is
/// one.
pub(crate) fn next_part<'i>(list: &'i [u8]) -> (&'i [u8], Option<&'i [u8]>)
    ensures { parts_of list.now ≡ result.0.now ∷ parts_in result.1 }
{
    match comma_in(list) {
        Some(at) => (&list[..at], Some(&list[at + 1..])),
        None => (list, None),
    }
}

/// A state in a list, before the next byte.
#[derive(Clone, Copy, Drop)]
pub(crate) enum Quoting {
    /// Outside quoted strings.
    Outside,
    /// In a quoted string.
    Inside,
    /// In a quoted string, after a backslash.
    Escaped,
}

/// Returns the state after a byte.
fn quoting_after(quoting: Quoting, byte: u8) -> Quoting
    ensures { result ≡ after quoting byte }
{
    match quoting {
        Quoting::Outside => {
            if byte == b'"' {
                Quoting::Inside
            } else {
                Quoting::Outside
            }
        }
        Quoting::Inside => {
            if byte == b'"' {
                Quoting::Outside
            } else if byte == b'\\' {
                Quoting::Escaped
            } else {
                Quoting::Inside
            }
        }
        Quoting::Escaped => Quoting::Inside,
    }
}

/// Whether a byte is a comma outside quoted strings.
fn is_separator(quoting: Quoting, byte: u8) -> bool
    ensures { result ≡ separates quoting byte }
{
    match quoting {
        Quoting::Outside => byte == b',',
        Quoting::Inside | Quoting::Escaped => false,
    }
}

/// Returns the part before the first comma of a list that is in no quoted string, and the rest
/// after that comma, if there is one.
pub(crate) fn next_quoted_part<'i>(list: &'i [u8]) -> (&'i [u8], Option<&'i [u8]>)
    ensures { quoted_parts_of list.now ≡ result.0.now ∷ quoted_parts_in result.1 }
{
    let mut quoting = Quoting::Outside;
    let mut passed = 0;
    for byte in list {
        if is_separator(quoting, *byte) {
            return (&list[..passed], Some(&list[passed + 1..]));
        }
        quoting = quoting_after(quoting, *byte);
        passed += 1;
    }
    (list, None)
}

/// Returns the element in a part of a list, without the surrounding whitespace. It may be empty.
pub(crate) fn element_of<'i>(part: &'i [u8]) -> &'i [u8]
    ensures { (element : List ℕ) → IsElement element part.now ↔ result.now ≡ element }
{
    let mut left = part;
    'white: while let Some((first, more)) = left.split_first() {
        if *first != b' ' && *first != b'\t' {
            return trimmed(left);
        }
        left = more;
    }
    left
}
