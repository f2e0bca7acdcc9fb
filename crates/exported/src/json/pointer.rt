//! Values by JSON pointers.

ghost use Rattle.std.specs.Prelude.{◌≡◌, ◌≤◌, ◌<◌, ◌⊎◌, ◌↔◌};
ghost use Rattle.format_json_extents.specs.Pointer.{IsPointer};
ghost use Rattle.format_json_extents.specs.Value.{IsText};
ghost use Rattle.exported.specs.Code.{done, end, invalid, invalid_pointer, max_depth_too_large};
ghost use Rattle.exported.specs.Code.{supported_depth};
ghost use Rattle.exported.specs.Json.{no_item};
ghost use Rattle.exported.specs.JsonPointer.{ShowsLookup, code_of_lookup};

use crate::code::{DONE, END, INVALID, INVALID_POINTER, MAX_DEPTH_TOO_LARGE};
use crate::json::{JsonItem, MAX_DEPTH, NO_ITEM, number_of};
use crate::span::Span;
use format_json_extents::pointer::{Lookup, find_value, is_pointer};
use format_json_extents::walk::kind_of;

/// Returns the code of the result of a search.
fn code_of_lookup(lookup: Lookup) -> u32
    ensures { result ≡ code_of_lookup lookup }
{
    match lookup {
        Lookup::Found => DONE,
        Lookup::NoMember => END,
        Lookup::NoElement => END,
        Lookup::NotAContainer => END,
    }
}

/// Finds the value that a JSON pointer (RFC 6901) identifies in a JSON text (RFC 8259) whose arrays
/// and objects are nested at most `max_depth` deep: `/a~1b/0` is the first element of the member
/// `a/b`, and the empty pointer is the value of the text. If names are repeated, the first is
/// found.
///
/// `~1` is a slash and `~0` a tilde. Names are compared with their escapes decoded. An index is
/// digits without a leading zero; `-`, the index after the last element, has no value.
///
/// Each byte is scanned once, and once more for each token of the pointer whose value contains it.
/// Bytes after the value of the text are not scanned, and bytes of 128 and above are not checked:
/// so a result is that of the text if `exported_json_check` accepts it.
///
/// `DONE`: the kind of the value and its span are written.
///
/// `END`: there is no such value. The kind and the span of the innermost value that the pointer
/// reaches are written: an object without the next name, an array without the next index, or a
/// value that is neither.
///
/// # Errors
///
/// `INVALID_POINTER`: `pointer` is not a JSON pointer. It is empty or starts with a slash, and `0`
/// or `1` follows each tilde. Zeros are written.
///
/// `INVALID`: `text` is not such a JSON text, also if it is incomplete. Zeros are written.
/// `exported_json_diagnose` reports where and why.
///
/// `MAX_DEPTH_TOO_LARGE`: `max_depth` is above 512. Zeros are written.
///
/// # Safety
///
/// `text` must be valid for reads of `text_length` bytes and `pointer` for reads of
/// `pointer_length` bytes, which must not change during the call. `out` must be valid for writes of
/// one item, and must not overlap the others. The call needs 512 KiB of stack.
#[unsafe(no_mangle)]
pub extern "C" fn exported_json_pointer(
    text: &[u8],
    max_depth: usize,
    pointer: &[u8],
    out: &mut JsonItem,
) -> u32
    ensures looked { (result ≡ done) ⊎ (result ≡ end)
        → ShowsLookup max_depth text.now pointer.now result out.new }
    ensures refused { result ≡ invalid → IsText max_depth text.now → ⊥ }
    ensures pointer { (result ≡ invalid_pointer)
        ↔ ((max_depth ≤ supported_depth) × (IsPointer pointer.now → ⊥)) }
    ensures none { (result ≡ done → ⊥) → (result ≡ end → ⊥) → out.new ≡ no_item }
    ensures deep { (result ≡ max_depth_too_large) ↔ (supported_depth < max_depth) }
    ensures codes { (result ≡ done) ⊎ ((result ≡ end) ⊎ ((result ≡ invalid)
        ⊎ ((result ≡ invalid_pointer) ⊎ (result ≡ max_depth_too_large)))) }
{
    *out = NO_ITEM;
    if max_depth > MAX_DEPTH {
        return MAX_DEPTH_TOO_LARGE;
    }
    if !is_pointer(pointer) {
        return INVALID_POINTER;
    }
    match find_value(max_depth, text, pointer) {
        Some((lookup, here, rest)) => {
            let value = &here[..here.len() - rest.len()];
            let place = Span {
                offset: text.len() - here.len(),
                length: value.len(),
            };
            *out = JsonItem {
                kind: number_of(kind_of(value)),
                span: place,
            };
            code_of_lookup(lookup)
        }
        None => INVALID,
    }
}
