//! The fields of a name.

ghost use Rattle.std.specs.Prelude.{◌≡◌, ◌⊎◌, ◌↔◌, IfSome, IsTrue, None};
ghost use Rattle.exported.specs.Code.{done, end};
ghost use Rattle.exported.specs.HttpField.{HasNo, IsFirst, NameAt};

use crate::code::{DONE, END};
pub use format_http_places::places::{Field, Span};

/// Returns whether the span in the bytes has this name, in letters of either case.
fn is_named(bytes: &[u8], place: Span, name: &[u8]) -> bool
    ensures { IsTrue result ↔ NameAt bytes.now name.now place }
{
    match bytes.get(place.offset..) {
        None => false,
        Some(rest) => match rest.get(..place.length) {
            None => false,
            Some(text) => text.eq_ignore_ascii_case(name),
        },
    }
}

/// Returns the index of the first field of this name.
fn find(bytes: &[u8], fields: &[Field], name: &[u8]) -> Option<usize>
    ensures some { IfSome result (λ index. IsFirst bytes.now name.now fields.now index) }
    ensures none { result ≡ None → HasNo bytes.now name.now fields.now }
{
    let mut passed = 0;
    for field in fields {
        if is_named(bytes, field.name, name) {
            return Some(passed);
        }
        passed += 1;
    }
    None
}

/// Finds the first field of a name among the fields that `exported_http_head` or
/// `exported_http_response_head` wrote for these bytes. Names are compared ignoring ASCII case.
///
/// `DONE`: the index of the field is written. To find further fields of the name, pass the fields
/// after it.
///
/// `END`: no field has the name. 0 is written.
///
/// A field that is not within the bytes has no name.
///
/// # Safety
///
/// `bytes` must be valid for reads of `bytes_length` bytes, `fields` for reads of `fields_length`
/// entries and `name` for reads of `name_length` bytes, which must not change during the call.
/// `out` must be valid for writes of one index, and must not overlap the others. The call needs 16
/// KiB of stack.
#[unsafe(no_mangle)]
pub extern "C" fn exported_http_field(
    bytes: &[u8],
    fields: &[Field],
    name: &[u8],
    out: &mut usize,
) -> u32
    ensures found { result ≡ done → IsFirst bytes.now name.now fields.now out.new }
    ensures none { result ≡ end → HasNo bytes.now name.now fields.now × (out.new ≡ 0) }
    ensures codes { (result ≡ done) ⊎ (result ≡ end) }
{
    match find(bytes, fields, name) {
        Some(index) => {
            *out = index;
            DONE
        }
        None => {
            *out = 0;
            END
        }
    }
}
