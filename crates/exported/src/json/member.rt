//! Members of objects of JSON by their name.

ghost use Rattle.std.specs.Prelude.{◌≡◌, ◌<◌, ◌+◌, ◌⊎◌, ◌↔◌, List, ℕ, length};
ghost use Rattle.format_json_extents.specs.Members.{IsSearchOf};
ghost use Rattle.format_json_extents.specs.Names.{name_text};
ghost use Rattle.format_json_extents.specs.declared.members.Search.TheVariants as search;
ghost use Rattle.exported.specs.Code.{done, end, invalid, max_depth_too_large, supported_depth};
ghost use Rattle.exported.specs.JsonMember.{Searches, is_set};

use crate::code::{DONE, END, INVALID, MAX_DEPTH_TOO_LARGE};
use crate::json::MAX_DEPTH;
use format_json_extents::members::{Search, find_member};

/// Returns whether a flag is set.
pub(crate) fn is_set(flag: u32) -> bool
    ensures { result ≡ is_set flag }
{
    flag != 0
}

/// Finds the first member of a name in the object (RFC 8259) that `bytes` starts with, after
/// whitespace, at most one comma or colon, and whitespace. Names are compared with their escapes
/// decoded: `{"\u0061": 1}` has a member `a`.
///
/// If `is_token` is not 0, `name` is a reference token of a JSON pointer (RFC 6901), without its
/// slash: `~0` is a tilde and `~1` a slash. A tilde before anything else is not valid there, and is
/// not checked.
///
/// The offset that is written is that of the bytes after the name. Call `exported_json_next` there
/// for the value, or this function again for a member of the value. Each byte before the offset is
/// scanned once, so a walk along names to a value at any depth takes time linear in the text.
///
/// If the bytes were not checked as a text, more is accepted than JSON allows. Before each name and
/// each value there is whitespace, at most one comma or colon, and whitespace: in `{"a":1 "b":2}`
/// and in `{"a",1,"b",2}` both names are found. An object ends before a closing bracket of either
/// kind, or with the input: in `{"a":1` there is no member `b`. Bytes after the name that is found
/// are not read, so there may be no value.
///
/// `DONE`: the offset is written.
///
/// `END`: the object ends, and no member has the name. 0 is written.
///
/// # Errors
///
/// `INVALID`: there is no opening brace. Or, before the first member of the name and before the
/// object ends, a name or a value is missing, or a value is nested deeper than `max_depth`. 0 is
/// written.
///
/// `MAX_DEPTH_TOO_LARGE`: `max_depth` is above 512. 0 is written.
///
/// # Safety
///
/// `bytes` must be valid for reads of `bytes_length` bytes and `name` for reads of `name_length`
/// bytes, which must not change during the call. `out` must be valid for writes of one length, and
/// must not overlap the others. The call needs 512 KiB of stack.
#[unsafe(no_mangle)]
pub extern "C" fn exported_json_member(
    bytes: &[u8],
    max_depth: usize,
    name: &[u8],
    is_token: u32,
    out: &mut usize,
) -> u32
    ensures found { result ≡ done → (rest : List ℕ) × (out.new + length rest ≡ length bytes.now)
        × IsSearchOf search.Found max_depth (name_text (is_set is_token) name.now) bytes.now rest }
    ensures missing { result ≡ end
        → Searches search.Missing max_depth (name_text (is_set is_token) name.now) bytes.now }
    ensures refused { result ≡ invalid
        → Searches search.Invalid max_depth (name_text (is_set is_token) name.now) bytes.now }
    ensures none { (result ≡ done → ⊥) → out.new ≡ 0 }
    ensures deep { (result ≡ max_depth_too_large) ↔ (supported_depth < max_depth) }
    ensures codes { (result ≡ done) ⊎ ((result ≡ end) ⊎ ((result ≡ invalid)
        ⊎ (result ≡ max_depth_too_large))) }
{
    *out = 0;
    if max_depth > MAX_DEPTH {
        return MAX_DEPTH_TOO_LARGE;
    }
    let found = find_member(max_depth, is_set(is_token), bytes, name);
    match found.0 {
        Search::Found => {
            *out = bytes.len() - found.1.len();
            DONE
        }
        Search::Missing => END,
        Search::Invalid => INVALID,
    }
}
