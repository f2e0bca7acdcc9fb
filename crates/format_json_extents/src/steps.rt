//! The parts of a JSON text from its start to its end: brackets, names, and values that are not
//! arrays or objects. So each byte is read once, however deeply it is nested.

ghost use Rattle.std.specs.Prelude.{◌≡◌, ◌↔◌, List, ℕ, IfNone, IfSome, IsTrue, MatchOption};
ghost use Rattle.format_json_extents.specs.Number.{ExtendsNumber};
ghost use Rattle.format_json_extents.specs.Steps.{IsBeforeColon, IsBracket, IsNextStep, IsOfStep};
ghost use Rattle.format_json_extents.specs.Steps.{IsToken};
ghost use Rattle.format_json_extents.specs.Strings.{IsString};
ghost use Rattle.format_json_extents.specs.Texts.{NoMatchAtStart, RestAfter, Then};
ghost use Rattle.format_json_extents.specs.Value.{IsWhitespace};
ghost use Rattle.format_json_extents.specs.Walk.{IsSeparator};

use crate::scalar::skip_scalar;
use crate::tokens::{skip_byte, skip_whitespace};
use crate::walk::skip_separator;

/// The kind of the next part of a text.
#[derive(Clone, Copy, Debug, PartialEq, Eq)]
pub enum Step {
    /// The word null.
    Null,
    /// The word false.
    False,
    /// The word true.
    True,
    /// A number.
    Number,
    /// A string that is a value.
    String,
    /// A string that is the name of a member: a colon follows it.
    Name,
    /// The opening bracket of an array.
    BeginArray,
    /// The bracket after it.
    EndArray,
    /// The opening bracket of an object.
    BeginObject,
    /// The bracket after it.
    EndObject,
}

/// Whether a byte is a bracket.
#[inline(always)]
fn is_bracket(byte: u8) -> bool
    ensures { IsTrue result ↔ IsBracket byte }
{
    (byte == b'[' || byte == b'{') || (byte == b']' || byte == b'}')
}

/// Skips a bracket, or a value that is not an array or an object.
#[inline(always)]
fn skip_token<'i>(bytes: &'i [u8]) -> Option<&'i [u8]>
    ensures { MatchOption result (NoMatchAtStart IsToken bytes.now)
        (λ rest. RestAfter IsToken ExtendsNumber bytes.now rest.now) }
{
    let (first, more) = bytes.split_first()?;
    if is_bracket(*first) {
        Some(more)
    } else {
        skip_scalar(bytes)
    }
}

/// Returns whether the bytes start with whitespace and a colon.
#[inline(always)]
fn is_before_colon(bytes: &[u8]) -> bool
    ensures { IsTrue result ↔ IsBeforeColon bytes.now }
{
    match skip_byte(b':', skip_whitespace(bytes)) {
        Some(_) => true,
        None => false,
    }
}

/// Which step a string is.
#[inline(always)]
fn of_string(rest: &[u8]) -> Step
    ensures { (text : List ℕ) → IsString text → IsOfStep result text rest.now }
{
    if is_before_colon(rest) {
        Step::Name
    } else {
        Step::String
    }
}

/// Which step a text is, by its first byte.
#[inline(always)]
fn of_text(text: &[u8], rest: &[u8]) -> Step
    ensures { IsToken text.now → IsOfStep result text.now rest.now }
{
    match text.split_first() {
        Some((b'"', _)) => of_string(rest),
        Some((b'[', _)) => Step::BeginArray,
        Some((b']', _)) => Step::EndArray,
        Some((b'{', _)) => Step::BeginObject,
        Some((b'}', _)) => Step::EndObject,
        Some((b'n', _)) => Step::Null,
        Some((b'f', _)) => Step::False,
        Some((b't', _)) => Step::True,
        _ => Step::Number,
    }
}

/// Returns the next step and its text: skips whitespace, at most one comma or colon, and
/// whitespace, and consumes the step. So a text that [`crate::value::is_text`] accepts is read from
/// its start to its end, each byte once. The caller counts the open brackets. In bytes that were
/// not checked, more than JSON is accepted, for instance a comma before the first value.
///
/// Returns `None` if and only if no bracket and no value follows; then no input is consumed. At the
/// end of a text [`is_over`] is true.
///
/// ```
/// use format_json_extents::steps::{Step, is_over, read_step};
///
/// let mut input = b"{\"a\": [1]}".as_slice();
/// let begin = b"{".as_slice();
/// assert!(rt; read_step(&mut input).is_some_and(|it| it == (Step::BeginObject, begin)));
/// let name = b"\"a\"".as_slice();
/// assert!(rt; read_step(&mut input).is_some_and(|it| it == (Step::Name, name)));
/// assert!(rt; read_step(&mut input).is_some_and(|it| it.0 == Step::BeginArray));
/// assert!(rt; read_step(&mut input).is_some_and(|it| it.0 == Step::Number));
/// assert!(rt; read_step(&mut input).is_some_and(|it| it.0 == Step::EndArray));
/// assert!(rt; read_step(&mut input).is_some_and(|it| it.0 == Step::EndObject));
/// assert!(rt; is_over(input));
/// ```
pub fn read_step<'i>(input: &mut &'i [u8]) -> Option<(Step, &'i [u8])>
    ensures found { IfSome result (λ it.
        IsNextStep it.0 it.1.now input.old.now input.new.now) }
    ensures none { IfNone result (NoMatchAtStart (Then IsSeparator IsToken) input.old.now) }
    ensures kept { IfNone result (input.new.now ≡ input.old.now) }
{
    let start = skip_separator(*input);
    let rest = skip_token(start)?;
    let text = &start[..start.len() - rest.len()];
    *input = rest;
    Some((of_text(text, rest), text))
}

/// Returns whether only whitespace remains.
///
/// ```
/// use format_json_extents::steps::is_over;
///
/// assert!(rt; is_over(b" \n".as_slice()) && is_over(b"".as_slice()));
/// assert!(rt; !is_over(b" ]".as_slice()));
/// ```
pub fn is_over(bytes: &[u8]) -> bool
    ensures { IsTrue result ↔ IsWhitespace bytes.now }
{
    skip_whitespace(bytes).is_empty()
}
