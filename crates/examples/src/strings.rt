//! Words with escapes, raw and unescaped.

use std::alloc::Global;
use winnow::Parser;
use winnow::ascii::impls::Alpha1;
use winnow::ascii::{escaped, take_escaped};
use winnow::error::{EmptyError, ErrMode};
use winnow::token::one_of;

/// Letters, and quotes and backslashes after a backslash, as in the text.
pub fn as_it_stands<'i>(input: &mut &'i str) -> Result<&'i str, ErrMode<EmptyError>> {
    take_escaped(Alpha1, '\\', one_of(('"', '\\'))).parse_next(input)
}

/// The same, without the backslashes in front.
pub fn unescaped<'i>(alloc: Global, input: &mut &'i str) -> Result<String, ErrMode<EmptyError>> {
    escaped(alloc, Alpha1, '\\', one_of(('"', '\\'))).parse_next(input)
}
