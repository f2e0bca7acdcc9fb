//! INI files as they occur in practice: `.ini`, `.cfg`, `.desktop`, `.conf`.
//!
//! A [`Dialect`](dialect::Dialect) defines which characters end a key, which begin a comment, and
//! whether a line may continue a value. A line feed ends a line. Whitespace is that of ASCII: tab,
//! form feed, carriage return, space; so a carriage return before a line feed is skipped.
//!
//! - A line that is empty, or that begins with a comment mark, has no meaning.
//! - `[name]` begins a section. The name has one or more characters other than `]`. In a dialect
//!   with loose sections the name ends at the last `]`, and text after that is ignored.
//! - Any other line is a pair. The key ends at the first delimiter, and the value extends to the
//!   end of the line. Neither has whitespace at its ends. Quotes are kept. Only with loose sections
//!   can a key begin with `[`.
//!
//! Keys and sections may occur twice; the caller decides what that means. With
//! [`python`](dialect::Dialect::python), texts have the same meaning as in Python's `configparser`
//! (3.11, a `RawConfigParser` that is not strict), except for these:
//!
//! | Text | Here | In Python |
//! |---|---|---|
//! | whitespace of Python only: 11, 28 to 31, past ASCII | characters | whitespace |
//! | a line that continues a key without a value | a line of its own | an exception |
//! | two marks of inline comments in a line | the first counts | at times a later one |
//! | a key in capitals | as it is written | in small letters, by `optionxform` |
//! | a byte order mark at the start | skipped | kept, except by `utf-8-sig` |
//! | `[DEFAULT]` | a section | defaults of all sections |
#![tactic(auto)]

pub mod dialect;
pub mod documents;
mod front;
pub mod laws;
pub mod lines;
pub mod lookup;
pub mod places;
mod shown;
