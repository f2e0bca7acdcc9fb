//! A walk through a JSON text from its start to its end.

ghost use Rattle.std.specs.Prelude.{◌≡◌, ◌⊎◌};
ghost use Rattle.format_json_extents.specs.Steps.{IsToken};
ghost use Rattle.format_json_extents.specs.Texts.{NoMatchAtStart, Then};
ghost use Rattle.format_json_extents.specs.Value.{IsWhitespace};
ghost use Rattle.format_json_extents.specs.Walk.{IsSeparator};
ghost use Rattle.exported.specs.Code.{done, end, invalid};
ghost use Rattle.exported.specs.Json.{no_item};
ghost use Rattle.exported.specs.JsonStep.{ShowsStep, number_of_step};

use crate::code::{DONE, END, INVALID};
use crate::json::{JSON_FALSE, JSON_NULL, JSON_NUMBER, JSON_STRING, JSON_TRUE, JsonItem, NO_ITEM};
use crate::span::Span;
use format_json_extents::steps;
use format_json_extents::steps::Step;

/// The name of a member, which is a string: its place has the quotes round it.
pub const JSON_NAME: u32 = 7;

/// The opening bracket of an array.
pub const JSON_BEGIN_ARRAY: u32 = 8;

/// The bracket after it.
pub const JSON_END_ARRAY: u32 = 9;

/// The opening bracket of an object.
pub const JSON_BEGIN_OBJECT: u32 = 10;

/// The bracket after it.
pub const JSON_END_OBJECT: u32 = 11;

/// Returns the number of a kind of steps.
fn number_of_step(step: Step) -> u32
    ensures { result ≡ number_of_step step }
{
    match step {
        Step::Null => JSON_NULL,
        Step::False => JSON_FALSE,
        Step::True => JSON_TRUE,
        Step::Number => JSON_NUMBER,
        Step::String => JSON_STRING,
        Step::Name => JSON_NAME,
        Step::BeginArray => JSON_BEGIN_ARRAY,
        Step::EndArray => JSON_END_ARRAY,
        Step::BeginObject => JSON_BEGIN_OBJECT,
        Step::EndObject => JSON_END_OBJECT,
    }
}

/// Finds the next step of a walk through a JSON text (RFC 8259) that was checked, from its start to
/// its end and through all levels. A step is a bracket, a name, or a value that contains no others.
/// It follows whitespace, at most one comma or colon, and whitespace.
///
/// Call the function with the bytes after the span of the previous step. So each byte of the text
/// is scanned once, at any depth. The caller must count the open brackets. If the bytes were not
/// checked as a text, more is accepted than JSON allows, such as a comma before the first value.
///
/// `DONE`: the kind of the step and its span are written. The kind is never `JSON_ARRAY` or
/// `JSON_OBJECT`: it is a word, a number, a string, a name or a bracket.
///
/// `END`: only whitespace remains. Zeros are written.
///
/// # Errors
///
/// `INVALID`: there is neither a step nor the end. Zeros are written.
///
/// # Safety
///
/// `bytes` must be valid for reads of `bytes_length` bytes, which must not change during the call,
/// and `out` must be valid for writes of one item. They must not overlap. The call needs 16 KiB of
/// stack.
#[unsafe(no_mangle)]
pub extern "C" fn exported_json_step(bytes: &[u8], out: &mut JsonItem) -> u32
    ensures step { result ≡ done → ShowsStep bytes.now out.new }
    ensures end { result ≡ end → IsWhitespace bytes.now }
    ensures refused { result ≡ invalid → NoMatchAtStart (Then IsSeparator IsToken) bytes.now
        × (IsWhitespace bytes.now → ⊥) }
    ensures none { (result ≡ done → ⊥) → out.new ≡ no_item }
    ensures codes { (result ≡ done) ⊎ ((result ≡ end) ⊎ (result ≡ invalid)) }
{
    *out = NO_ITEM;
    let mut left = bytes;
    match steps::read_step(&mut left) {
        Some((step, text)) => {
            let place = Span {
                offset: bytes.len() - left.len() - text.len(),
                length: text.len(),
            };
            *out = JsonItem {
                kind: number_of_step(step),
                span: place,
            };
            DONE
        }
        None => { if steps::is_over(bytes) { END } else { INVALID } }
    }
}
