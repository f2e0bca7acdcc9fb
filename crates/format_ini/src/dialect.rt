//! Dialects: what ends a key, what begins a comment, and what continues a value.

ghost use Rattle.std.specs.Prelude.{◌≡◌, MatchBool, false, true};
ghost use Rattle.format_ini.specs.Marks.{IsDelimiter, IsMark};

/// The delimiter that ends a key: the first one in its line.
#[derive(Clone, Copy, Debug, PartialEq, Eq)]
pub enum Delimiters {
    /// Only `=`; a colon is part of a key.
    Equals,
    /// Only `:`; an equals sign is part of a key.
    Colon,
    /// One or the other.
    Either,
}

/// The character that starts a comment.
#[derive(Clone, Copy, Debug, PartialEq, Eq)]
pub enum Marks {
    /// Nothing: there are no such comments.
    Neither,
    /// Only `#`.
    NumberSign,
    /// Only `;`.
    Semicolon,
    /// One or the other.
    Either,
}

/// The meaning of a line that is indented deeper than the pair before it.
#[derive(Clone, Copy, Debug, PartialEq, Eq)]
pub enum Continued {
    /// It is a line of its own.
    Never,
    /// It continues the value of that pair. An empty line or a comment ends the value.
    UntilEmpty,
    /// It continues the value of that pair, and empty lines within are part of the value. Comments
    /// within are skipped.
    PastEmpty,
}

/// How lines are read.
///
/// ```
/// use format_ini::dialect::{Dialect, Delimiters};
///
/// let only_equals = Dialect {
///     delimiters: Delimiters::Equals,
///     ..Dialect::python()
/// };
/// assert!(rt; only_equals.delimiters == Delimiters::Equals);
/// ```
#[derive(Clone, Copy, Debug, PartialEq, Eq)]
pub struct Dialect {
    /// The delimiters that end a key.
    pub delimiters: Delimiters,
    /// The characters that start a comment if they are the first in a line, after whitespace.
    pub comments: Marks,
    /// The characters that start a comment at the start of a line, or after whitespace in it.
    pub inline_comments: Marks,
    /// The meaning of a line that is indented deeper than the pair before it.
    pub continued: Continued,
    /// Whether a line without a delimiter is a key without a value; otherwise it is an error.
    pub valueless: bool,
    /// Whether pairs may precede the first section; otherwise they are an error.
    pub before_sections: bool,
    /// Whether the name of a section ends at the last `]` of its line, and text after that is
    /// ignored. Then a line that starts with `[` and has no such name is a pair. Otherwise the name
    /// ends at the first `]`, and such lines are errors.
    pub loose_sections: bool,
}

impl Dialect {
    /// The default dialect of Python's `configparser`: `=` and `:`, `#` and `;` at the start of
    /// lines, continued lines with empty lines within, loose sections.
    ///
    /// ```
    /// use format_ini::dialect::{Dialect, Marks};
    ///
    /// assert!(rt; Dialect::python().inline_comments == Marks::Neither);
    /// ```
    pub fn python() -> Dialect
        ensures { (result.delimiters ≡ Delimiters.Either) × (result.comments ≡ Marks.Either)
            × (result.inline_comments ≡ Marks.Neither)
            × (result.continued ≡ Continued.PastEmpty)
            × (result.valueless ≡ false) × (result.before_sections ≡ false)
            × (result.loose_sections ≡ true) }
    {
        Dialect {
            delimiters: Delimiters::Either,
            comments: Marks::Either,
            inline_comments: Marks::Neither,
            continued: Continued::PastEmpty,
            valueless: false,
            before_sections: false,
            loose_sections: true,
        }
    }

    /// The dialect of desktop entries (Desktop Entry Specification, "Basic format of the file"):
    /// `=`, `#` at the start of lines, a line for each pair.
    ///
    /// ```
    /// use format_ini::dialect::{Delimiters, Dialect};
    ///
    /// assert!(rt; Dialect::desktop().delimiters == Delimiters::Equals);
    /// ```
    pub fn desktop() -> Dialect
        ensures { (result.delimiters ≡ Delimiters.Equals) × (result.comments ≡ Marks.NumberSign)
            × (result.inline_comments ≡ Marks.Neither) × (result.continued ≡ Continued.Never)
            × (result.valueless ≡ false) × (result.before_sections ≡ false)
            × (result.loose_sections ≡ false) }
    {
        Dialect {
            delimiters: Delimiters::Equals,
            comments: Marks::NumberSign,
            inline_comments: Marks::Neither,
            continued: Continued::Never,
            valueless: false,
            before_sections: false,
            loose_sections: false,
        }
    }

    /// The dialect that reads most: `=` and `:`, comments after whitespace too, keys without
    /// values, pairs before the first section, loose sections, a line for each pair.
    ///
    /// ```
    /// use format_ini::dialect::Dialect;
    ///
    /// assert!(rt; Dialect::lenient().valueless);
    /// ```
    pub fn lenient() -> Dialect
        ensures { (result.delimiters ≡ Delimiters.Either) × (result.comments ≡ Marks.Either)
            × (result.inline_comments ≡ Marks.Either) × (result.continued ≡ Continued.Never)
            × (result.valueless ≡ true) × (result.before_sections ≡ true)
            × (result.loose_sections ≡ true) }
    {
        Dialect {
            delimiters: Delimiters::Either,
            comments: Marks::Either,
            inline_comments: Marks::Either,
            continued: Continued::Never,
            valueless: true,
            before_sections: true,
            loose_sections: true,
        }
    }
}

pub(crate) fn is_delimiter(delimiters: Delimiters, byte: u8) -> bool
    ensures { MatchBool result (IsDelimiter delimiters byte) (IsDelimiter delimiters byte → ⊥) }
{
    match delimiters {
        Delimiters::Equals => byte == b'=',
        Delimiters::Colon => byte == b':',
        Delimiters::Either => byte == b'=' || byte == b':',
    }
}

pub(crate) fn is_mark(marks: Marks, byte: u8) -> bool
    ensures { MatchBool result (IsMark marks byte) (IsMark marks byte → ⊥) }
{
    match marks {
        Marks::Neither => false,
        Marks::NumberSign => byte == b'#',
        Marks::Semicolon => byte == b';',
        Marks::Either => byte == b'#' || byte == b';',
    }
}
