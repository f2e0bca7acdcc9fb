//! The values of the Content-Length fields of a message (RFC 9112, section 6.3).
#![tactic(auto)]

ghost use Rattle.format_http.specs.Bodies.Framing.{IsDeclaredLength, IsTextLength};
ghost use Rattle.format_http.specs.Bodies.Lengths.{HasLength};
ghost use Rattle.format_http.specs.Bodies.Lists.{HasElement, IsThe, parts_of};
ghost use Rattle.format_http.specs.declared.bodies.framing.FramingError.TheVariants.{LengthsDiffer};
ghost use Rattle.std.specs.Prelude.{◌≡◌, ◌↔◌, ◌⊎◌, IfErr, IfOk, List, ℕ};

use crate::bodies::fields::{is_number, is_same};
use crate::bodies::framing::{BodyLength, FramingError};
use crate::bodies::lists::{element_of, next_part};
use crate::bodies::numbers::number_in;
use crate::heads::fields::Fields;

/// Returns the second text if the first is the same or missing.
fn one_of<'i>(found: Option<&'i [u8]>, other: &'i [u8]) -> Result<Option<&'i [u8]>, FramingError>
    ensures one { IfOk result (λ one. (text : List ℕ)
        → (IsThe found.entry text ⊎ other.now ≡ text) ↔ IsThe one text) }
    ensures many { IfErr result (λ fault. (fault ≡ LengthsDiffer)
        × (text : List ℕ) × IsThe found.entry text × (text ≡ other.now → ⊥)) }
{
    match found {
        Some(text) => {
            if is_same(text, other) {
                Ok(found)
            } else {
                Err(FramingError::LengthsDiffer)
            }
        }
        None => Ok(Some(other)),
    }
}

/// The one element of a list and what was found before it, which must all be the same.
fn one_element<'i>(
    found: Option<&'i [u8]>,
    list: &'i [u8],
) -> Result<Option<&'i [u8]>, FramingError>
    ensures one { IfOk result (λ one. (text : List ℕ)
        → (IsThe found.entry text ⊎ HasElement text (parts_of list.now)) ↔ IsThe one text) }
    ensures many { IfErr result (λ fault. (fault ≡ LengthsDiffer)
        × (text : List ℕ) × (more : List ℕ)
        × (IsThe found.entry text ⊎ HasElement text (parts_of list.now))
        × (IsThe found.entry more ⊎ HasElement more (parts_of list.now)) × (text ≡ more → ⊥)) }
{
    let mut one = found;
    let mut left = Some(list);
    'parts: while let Some(here) = left {
        let (part, more) = next_part(here);
        match one_of(one, element_of(part)) {
            Ok(text) => one = text,
            Err(fault) => return Err(fault),
        }
        left = more;
    }
    Ok(one)
}

/// The one element of all Content-Length fields, if they have one.
fn one_length<'i, F: Fields<'i>>(fields: F) -> Result<Option<&'i [u8]>, FramingError>
    ensures one { IfOk result (λ one. (text : List ℕ)
        → HasLength text (F.pairs fields) ↔ IsThe one text) }
    ensures many { IfErr result (λ fault. (fault ≡ LengthsDiffer)
        × (text : List ℕ) × (more : List ℕ) × HasLength text (F.pairs fields)
        × HasLength more (F.pairs fields) × (text ≡ more → ⊥)) }
{
    let mut one = None;
    let mut left = fields;
    'passed: while let Some(field) = left.next() {
        if field
            .name
            .eq_ignore_ascii_case(b"content-length".as_slice())
        {
            match one_element(one, field.value) {
                Ok(text) => one = text,
                Err(fault) => return Err(fault),
            }
        }
    }
    Ok(one)
}

/// The length that this text says.
fn length_of(text: &[u8]) -> Result<BodyLength, FramingError>
    ensures { IsTextLength text.now result }
{
    if !is_number(text) {
        return Err(FramingError::LengthIsNoNumber);
    }
    match number_in(10, text) {
        Some(number) => Ok(BodyLength::Length(number)),
        None => Err(FramingError::LengthTooLarge),
    }
}

/// The length that the Content-Length fields say, where there are any and no coding.
pub(crate) fn declared_length<'i, F: Fields<'i>>(fields: F) -> Result<BodyLength, FramingError>
    ensures { IsDeclaredLength (F.pairs fields) result }
{
    match one_length(fields) {
        Ok(Some(text)) => length_of(text),
        Ok(None) => Err(FramingError::LengthIsNoNumber),
        Err(fault) => Err(fault),
    }
}
