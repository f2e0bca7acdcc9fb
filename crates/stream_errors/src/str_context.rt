//! Contexts of errors that are text.
ghost use Rattle.std.specs.Prelude.{◌≡◌};
ghost use Rattle.stream_errors.specs.declared.str_context.StrContextValue.TheVariants.{CharLiteral, StringLiteral};

use std::fmt;
use std::fmt::{Debug, Display};

/// A context for [`ContextError`](crate::context_error::ContextError): what is parsed, or what was
/// expected there.
///
/// It prints as a noun, since an error prints its contexts as `expected a digit in a date`.
///
/// ```
/// let mut error = ContextError::new();
/// error.push(alloc, StrContext::Expected(StrContextValue::Description("a digit")));
/// error.push(alloc, StrContext::Label("a date"));
/// let said = format!(in alloc; "{error}");
/// assert!(rt; matches!(said, Ok(said) if said.as_str() == "expected a digit in a date"));
/// ```
#[derive(Clone, Copy, Debug, PartialEq, Eq)]
pub enum StrContext {
    /// The name of what is parsed.
    Label(&'static str),
    /// An item that was expected.
    Expected(StrContextValue),
}

/// An item that a parser expected.
///
/// ```
/// assert_eq!(rt; StrContextValue::from('='), StrContextValue::CharLiteral('='));
/// assert_eq!(rt; StrContextValue::from("on"), StrContextValue::StringLiteral("on"));
/// ```
#[derive(Clone, Copy, Debug, PartialEq, Eq)]
pub enum StrContextValue {
    /// This character.
    CharLiteral(char),
    /// This text.
    StringLiteral(&'static str),
    /// Something with this name.
    Description(&'static str),
}

impl From<char> for StrContextValue {
    ghost from_gives = { λ c r. r ≡ CharLiteral c };

    #[inline(always)]
    fn from(literal: char) -> StrContextValue {
        StrContextValue::CharLiteral(literal)
    }
}

impl From<&'static str> for StrContextValue {
    ghost from_gives = { λ t r. r ≡ StringLiteral t };

    #[inline(always)]
    fn from(literal: &'static str) -> StrContextValue {
        StrContextValue::StringLiteral(literal)
    }
}

impl Display for StrContext {
    fn fmt<W: fmt::Write>(&self, f: &mut fmt::Formatter<W>) -> fmt::Result {
        match self {
            StrContext::Label(name) => f.write_str(name),
            StrContext::Expected(value) => Display::fmt(value, f),
        }
    }
}

/// A character or a text is in backquotes. A line feed is the word `newline`, and another control
/// character is escaped.
impl Display for StrContextValue {
    fn fmt<W: fmt::Write>(&self, f: &mut fmt::Formatter<W>) -> fmt::Result {
        match self {
            StrContextValue::CharLiteral('\n') => f.write_str("newline"),
            StrContextValue::CharLiteral('`') => f.write_str("'`'"),
            StrContextValue::CharLiteral(literal) => {
                if literal.is_ascii_control() {
                    return Debug::fmt(literal, f);
                }
                f.write_str("`")?;
                Display::fmt(literal, f)?;
                f.write_str("`")
            }
            StrContextValue::StringLiteral(literal) => {
                f.write_str("`")?;
                f.write_str(literal)?;
                f.write_str("`")
            }
            StrContextValue::Description(name) => f.write_str(name),
        }
    }
}
