//! Errors as people read them. Which bytes are written no contract says; tests do.
use crate::context_error::ContextError;
use crate::control::ControlError;
use crate::empty::EmptyError;
use crate::fault::{ParseError, ParseFault};
use crate::input_error::InputError;
use crate::mode::ErrMode;
use std::alloc::Allocator;
use std::error::Error;
use std::fmt;
use std::fmt::{Debug, Display};
use streams::locating::LocatingSlice;
use streams::needed::Needed;
use streams::partial::Partial;
use streams::stream::Stream;
use text_positions::excerpt::Excerpt;

/// An input whose line can be shown: bytes, text, and a stream around them. winnow requires
/// `AsBStr` there.
///
/// ```
/// assert_eq!(rt; "größe".shown_bytes(), "größe".as_bytes());
/// ```
pub trait ShownBytes {
    /// Returns the remaining bytes of the input.
    fn shown_bytes(&self) -> &[u8];
}

impl<'i> ShownBytes for &'i [u8] {
    fn shown_bytes(&self) -> &[u8] {
        *self
    }
}

impl<'i> ShownBytes for &'i str {
    fn shown_bytes(&self) -> &[u8] {
        self.as_bytes()
    }
}

impl<I: Stream + ShownBytes> ShownBytes for LocatingSlice<I> {
    fn shown_bytes(&self) -> &[u8] {
        self.as_inner().shown_bytes()
    }
}

impl<I: Stream + ShownBytes> ShownBytes for Partial<I> {
    fn shown_bytes(&self) -> &[u8] {
        self.as_inner().shown_bytes()
    }
}

/// The line of the error with a caret under its position, and below that the inner error.
impl<I: ShownBytes, E: Display> Display for ParseError<I, E> {
    fn fmt<W: fmt::Write>(&self, f: &mut fmt::Formatter<W>) -> fmt::Result {
        let excerpt = Excerpt::new(self.input().shown_bytes(), self.offset());
        Display::fmt(&excerpt, f)?;
        f.write_str("\n")?;
        Display::fmt(self.inner(), f)
    }
}

impl<I: ShownBytes, E: Display> Display for ParseFault<I, E> {
    fn fmt<W: fmt::Write>(&self, f: &mut fmt::Formatter<W>) -> fmt::Result {
        match self {
            ParseFault::Invalid(error) => Display::fmt(error, f),
            ParseFault::Incomplete(needed) => write_need(f, needed),
        }
    }
}

/// The innermost context as the expected item, and then the outer ones, as `expected a number in a
/// setting`. Without a context it prints what [`EmptyError`] does.
impl<C: Display, A: Allocator> Display for ContextError<C, A> {
    fn fmt<W: fmt::Write>(&self, f: &mut fmt::Formatter<W>) -> fmt::Result {
        if self.wants_memory() {
            return f.write_str("out of memory");
        }
        if self.context().is_empty() {
            return f.write_str("failed to parse");
        }
        let mut word = "expected ";
        for context in self.context() {
            f.write_str(word)?;
            Display::fmt(context, f)?;
            word = " in ";
        }
        Ok(())
    }
}

impl Display for EmptyError {
    fn fmt<W: fmt::Write>(&self, f: &mut fmt::Formatter<W>) -> fmt::Result {
        f.write_str(if self.wants_memory() {
            "out of memory"
        } else {
            "failed to parse"
        })
    }
}

impl Display for ControlError {
    fn fmt<W: fmt::Write>(&self, f: &mut fmt::Formatter<W>) -> fmt::Result {
        f.write_str(match self {
            ControlError::Invalid => "failed to parse",
            ControlError::NoMemory => "out of memory",
        })
    }
}

impl<I: Display> Display for InputError<I> {
    fn fmt<W: fmt::Write>(&self, f: &mut fmt::Formatter<W>) -> fmt::Result {
        if self.wants_memory() {
            return f.write_str("out of memory");
        }
        f.write_str("failed to parse starting at: ")?;
        Display::fmt(&self.input, f)
    }
}

impl<E: Display> Display for ErrMode<E> {
    fn fmt<W: fmt::Write>(&self, f: &mut fmt::Formatter<W>) -> fmt::Result {
        match self {
            ErrMode::Backtrack(error) | ErrMode::Cut(error) => Display::fmt(error, f),
            ErrMode::Incomplete(needed) => write_need(f, needed),
        }
    }
}

/// Says how much is missing.
fn write_need<W: fmt::Write>(f: &mut fmt::Formatter<W>, needed: &Needed) -> fmt::Result {
    match needed {
        Needed::Size(size) => write!(f, "parsing requires {} more data", size.get()),
        Needed::Unknown => f.write_str("parsing requires more data"),
    }
}

impl<I: ShownBytes + Debug + Drop, E: Display + Debug + Drop> Error for ParseError<I, E> {}

impl<I: ShownBytes + Debug + Drop, E: Display + Debug + Drop> Error for ParseFault<I, E> {}

impl<C: Display + Debug + Drop, A: Allocator + Debug> Error for ContextError<C, A> {}

impl Error for EmptyError {}

impl<E: Display + Debug + Drop> Error for ErrMode<E> {}
