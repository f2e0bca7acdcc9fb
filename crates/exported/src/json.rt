//! Texts of JSON.

ghost use Rattle.std.specs.Prelude.{◌≡◌, ◌≤◌, ◌<◌, ◌⊎◌, ◌↔◌, ◌++◌, List, ℕ, drop, length};
ghost use Rattle.std.specs.Prelude.{take};
ghost use Rattle.std.specs.Str.{IsUtf8};
ghost use Rattle.format_json_extents.specs.Standard.{IsTextByStandard, IsValueByStandard};
ghost use Rattle.format_json_extents.specs.Texts.{IsLongest, NoMatchAtStart, Then};
ghost use Rattle.format_json_extents.specs.Value.{IsText, IsValue};
ghost use Rattle.format_json_extents.specs.Walk.{EndsItems, IsSeparator};
ghost use Rattle.exported.specs.Code.{done, end, invalid, invalid_utf8, max_depth_too_large};
ghost use Rattle.exported.specs.Code.{supported_depth};
ghost use Rattle.exported.specs.Json.{ShowsItem, no_item, number_of};

pub mod decimal;
pub mod diagnostic;
pub mod extent;
pub mod integer;
pub mod lookup;
pub mod member;
pub mod nodes;
pub mod pointer;
pub mod step;
pub mod string;
pub mod write;

use crate::code::{DONE, END, INVALID, INVALID_UTF8, MAX_DEPTH_TOO_LARGE};
use crate::span::{NOWHERE, Span};
use format_json_extents::walk::Kind;
use format_json_extents::{value, walk};

/// The largest supported depth limit for nested arrays and objects. Each level takes some stack.
pub const MAX_DEPTH: usize = 512;

/// The word null.
pub const JSON_NULL: u32 = 0;

/// The word false.
pub const JSON_FALSE: u32 = 1;

/// The word true.
pub const JSON_TRUE: u32 = 2;

/// A number.
pub const JSON_NUMBER: u32 = 3;

/// A string: its place has the quotes round it, and escapes as they are written.
pub const JSON_STRING: u32 = 4;

/// An array: its place has the brackets round it.
pub const JSON_ARRAY: u32 = 5;

/// An object: its place has the brackets round it.
pub const JSON_OBJECT: u32 = 6;

/// A value, a name in an object, or a bracket. Only `exported_json_step` returns brackets.
#[repr(C)]
#[derive(Clone, Copy, Drop)]
pub struct JsonItem {
    /// The kind of the item: one of the constants from `JSON_NULL` to `JSON_END_OBJECT`. Only
    /// `exported_json_step` returns those after `JSON_OBJECT`; `exported_json_next` returns a name
    /// as a string.
    pub kind: u32,
    /// Its bytes.
    pub span: Span,
}

/// Nothing.
pub(crate) const NO_ITEM: JsonItem = JsonItem {
    kind: JSON_NULL,
    span: NOWHERE,
};

/// Returns the number of a type of values.
pub(crate) fn number_of(kind: Kind) -> u32
    ensures { result ≡ number_of kind }
{
    match kind {
        Kind::Null => JSON_NULL,
        Kind::False => JSON_FALSE,
        Kind::True => JSON_TRUE,
        Kind::Number => JSON_NUMBER,
        Kind::String => JSON_STRING,
        Kind::Array => JSON_ARRAY,
        Kind::Object => JSON_OBJECT,
    }
}

/// Checks that a text is a JSON text (RFC 8259): a value, with optional whitespace around it, whose
/// arrays and objects are nested at most `max_depth` deep.
///
/// A text with an unpaired surrogate escape such as `\ud800` is rejected, because it denotes no
/// character, although the grammar of the standard allows it.
///
/// `exported_json_diagnose` also reports where and why a text is rejected. `exported_json_step`
/// walks through a text that was checked, in time linear in the text.
///
/// `DONE`: the text is a JSON text.
///
/// # Errors
///
/// `INVALID`: the text is not a JSON text.
///
/// `INVALID_UTF8`: the text is not UTF-8.
///
/// `MAX_DEPTH_TOO_LARGE`: `max_depth` is above 512.
///
/// # Safety
///
/// `text` must be valid for reads of `text_length` bytes, which must not change during the call.
/// The call needs 512 KiB of stack.
#[unsafe(no_mangle)]
pub extern "C" fn exported_json_check(text: &[u8], max_depth: usize) -> u32
    ensures is { result ≡ done → IsUtf8 text.now × IsText max_depth text.now }
    ensures refused { result ≡ invalid → IsUtf8 text.now × (IsText max_depth text.now → ⊥) }
    ensures standard { max_depth ≤ supported_depth
        → (result ≡ done) ↔ IsTextByStandard max_depth text.now }
    ensures text { result ≡ invalid_utf8 → IsUtf8 text.now → ⊥ }
    ensures deep { (result ≡ max_depth_too_large) ↔ (supported_depth < max_depth) }
    ensures codes { (result ≡ done) ⊎ ((result ≡ invalid) ⊎ ((result ≡ invalid_utf8)
        ⊎ (result ≡ max_depth_too_large))) }
{
    if max_depth > MAX_DEPTH {
        return MAX_DEPTH_TOO_LARGE;
    }
    if str::from_utf8(text).is_err() {
        return INVALID_UTF8;
    }
    if value::is_text(max_depth, text) {
        DONE
    } else {
        INVALID
    }
}

/// Finds the longest JSON value (RFC 8259) at the start of `bytes` whose arrays and objects are
/// nested at most `max_depth` deep.
///
/// Whitespace before the value is not skipped. Bytes of 128 and above are not checked: the value is
/// JSON if it is UTF-8. Values are those of `exported_json_check`.
///
/// `DONE`: the length of the value in bytes is written.
///
/// # Errors
///
/// `INVALID`: `bytes` does not start with a value. 0 is written.
///
/// `MAX_DEPTH_TOO_LARGE`: `max_depth` is above 512. 0 is written.
///
/// # Safety
///
/// `bytes` must be valid for reads of `bytes_length` bytes, which must not change during the call,
/// and `out` must be valid for writes of one length. They must not overlap. The call needs 512 KiB
/// of stack.
#[unsafe(no_mangle)]
pub extern "C" fn exported_json_value(bytes: &[u8], max_depth: usize, out: &mut usize) -> u32
    ensures found { result ≡ done → IsLongest (IsValue max_depth) (take out.new bytes.now) bytes.now
        (drop out.new bytes.now) × (out.new ≤ length bytes.now) }
    ensures refused { result ≡ invalid → NoMatchAtStart (IsValue max_depth) bytes.now }
    ensures standard { result ≡ done → IsUtf8 (take out.new bytes.now)
        → IsValueByStandard max_depth (take out.new bytes.now) }
    ensures longest { max_depth ≤ supported_depth → (value rest : List ℕ)
        → IsValueByStandard max_depth value → bytes.now ≡ value ++ rest
        → (result ≡ done) × (length value ≤ out.new) }
    ensures none { (result ≡ done → ⊥) → out.new ≡ 0 }
    ensures deep { (result ≡ max_depth_too_large) ↔ (supported_depth < max_depth) }
    ensures codes { (result ≡ done) ⊎ ((result ≡ invalid) ⊎ (result ≡ max_depth_too_large)) }
{
    *out = 0;
    if max_depth > MAX_DEPTH {
        return MAX_DEPTH_TOO_LARGE;
    }
    let mut left = bytes;
    match value::read_value(max_depth, &mut left) {
        Some(found) => {
            *out = found.len();
            DONE
        }
        None => INVALID,
    }
}

/// Finds the next JSON value (RFC 8259) of a walk through a text that was checked. It is the
/// longest value after whitespace, at most one comma or colon, and whitespace, whose arrays and
/// objects are nested at most `max_depth` deep.
///
/// At the start of the text this is the value of the text. To walk through an array, start after
/// its first byte, and call the function for each element with the bytes after the span of the
/// previous one. An object gives its names and values alternately. For the values in an array or
/// object, pass one level less.
///
/// A walk through all levels scans each byte once for each level that contains it. A walk by
/// `exported_json_step` scans each byte once, at any depth, in time linear in the text. If the
/// bytes were not checked as a text, more is accepted than JSON allows, such as a comma before the
/// first value.
///
/// `DONE`: the kind of the value and its span are written.
///
/// `END`: whitespace is followed by a closing bracket or the end of the input. Zeros are written.
///
/// # Errors
///
/// `INVALID`: there is neither a value nor an end. Zeros are written.
///
/// `MAX_DEPTH_TOO_LARGE`: `max_depth` is above 512. Zeros are written.
///
/// # Safety
///
/// `bytes` must be valid for reads of `bytes_length` bytes, which must not change during the call,
/// and `out` must be valid for writes of one item. They must not overlap. The call needs 512 KiB of
/// stack.
#[unsafe(no_mangle)]
pub extern "C" fn exported_json_next(bytes: &[u8], max_depth: usize, out: &mut JsonItem) -> u32
    ensures item { result ≡ done → ShowsItem max_depth bytes.now out.new }
    ensures end { result ≡ end → EndsItems bytes.now }
    ensures refused { result ≡ invalid
        → NoMatchAtStart (Then IsSeparator (IsValue max_depth)) bytes.now
        × (EndsItems bytes.now → ⊥) }
    ensures none { (result ≡ done → ⊥) → out.new ≡ no_item }
    ensures deep { (result ≡ max_depth_too_large) ↔ (supported_depth < max_depth) }
    ensures codes { (result ≡ done) ⊎ ((result ≡ end) ⊎ ((result ≡ invalid)
        ⊎ (result ≡ max_depth_too_large))) }
{
    *out = NO_ITEM;
    if max_depth > MAX_DEPTH {
        return MAX_DEPTH_TOO_LARGE;
    }
    if walk::is_end(bytes) {
        return END;
    }
    let mut left = bytes;
    match walk::read_next(max_depth, &mut left) {
        Some(text) => {
            let place = Span {
                offset: bytes.len() - left.len() - text.len(),
                length: text.len(),
            };
            *out = JsonItem {
                kind: number_of(walk::kind_of(text)),
                span: place,
            };
            DONE
        }
        None => INVALID,
    }
}
