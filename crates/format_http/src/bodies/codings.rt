//! The transfer codings of a message (RFC 9112, section 6.1): only the last may be `chunked`.
#![tactic(auto)]

ghost use Rattle.format_http.specs.Bodies.Codings.{ChunkedIsFollowed, EndChunked, EndsName};
ghost use Rattle.format_http.specs.Bodies.Codings.{EndsSo, FollowsSo, HasChunked, NamesChunked};
ghost use Rattle.format_http.specs.Bodies.Lists.{quoted_parts_of};
ghost use Rattle.format_http.specs.Heads.Named.{IsNamed};
ghost use Rattle.std.specs.Prelude.{◌≡◌, ◌↔◌, ◌⊎◌, IfSome, IsTrue, None, codes};

use crate::bodies::lists::{element_of, next_quoted_part};
use crate::heads::fields::Fields;

/// The last of the codings so far.
#[derive(Clone, Copy, Drop)]
struct Codings {
    /// It is `chunked`, with or without parameters.
    chunked: bool,
    /// It is `chunked` without parameters.
    plain: bool,
}

/// Whether the name of a coding ends before these bytes.
fn ends_name(rest: &[u8]) -> bool
    ensures { IsTrue result ↔ EndsName rest.now }
{
    match rest.split_first() {
        Some((first, _)) => *first == b';' || *first == b' ' || *first == b'\t',
        None => true,
    }
}

/// Whether a coding is `chunked`, with or without parameters.
fn names_chunked(coding: &[u8]) -> bool
    ensures { IsTrue result ↔ NamesChunked coding.now }
{
    if coding.len() < 7 {
        return false;
    }
    let (word, rest) = coding.split_at(7);
    is_chunked(word) && ends_name(rest)
}

/// Whether a coding is `chunked` without parameters.
fn is_chunked(coding: &[u8]) -> bool
    ensures { IsTrue result ↔ IsNamed (codes "chunked") coding.now }
{
    coding.eq_ignore_ascii_case(b"chunked".as_slice())
}

/// Returns the last of the codings so far and of those in this list, or `None` if a coding of the
/// list comes after `chunked`. `before` is the last of those so far.
fn codings_so_far(before: Codings, list: &[u8]) -> Option<Codings>
    ensures followed { result ≡ None → FollowsSo before.chunked (quoted_parts_of list.now) }
    ensures last { IfSome result (λ now. (FollowsSo before.chunked (quoted_parts_of list.now) → ⊥)
        × (IsTrue now.chunked ↔ (IsTrue before.chunked ⊎ HasChunked (quoted_parts_of list.now)))
        × (IsTrue now.plain ↔ EndsSo before.plain (quoted_parts_of list.now))) }
{
    let mut now = before;
    let mut left = Some(list);
    'parts: while let Some(here) = left {
        let (part, more) = next_quoted_part(here);
        let coding = element_of(part);
        if !coding.is_empty() {
            if now.chunked {
                return None;
            }
            now = Codings {
                chunked: names_chunked(coding),
                plain: is_chunked(coding),
            };
        }
        left = more;
    }
    Some(now)
}

/// Returns whether the last transfer coding of all fields is `chunked`, without parameters, or
/// `None` if a coding comes after `chunked`. All Transfer-Encoding fields are one list.
pub(crate) fn end_chunked<'i, F: Fields<'i>>(fields: F) -> Option<bool>
    ensures followed { result ≡ None → ChunkedIsFollowed (F.pairs fields) }
    ensures last { IfSome result (λ plain. (ChunkedIsFollowed (F.pairs fields) → ⊥)
        × (IsTrue plain ↔ EndChunked (F.pairs fields))) }
{
    let mut now = Codings {
        chunked: false,
        plain: false,
    };
    let mut left = fields;
    'passed: while let Some(field) = left.next() {
        if field
            .name
            .eq_ignore_ascii_case(b"transfer-encoding".as_slice())
        {
            match codings_so_far(now, field.value) {
                Some(more) => now = more,
                None => return None,
            }
        }
    }
    Some(now.plain)
}
