//! Dialects of INI as callers give them: flags, and their sum.
ghost use Rattle.std.specs.Prelude.{◌≡◌, ◌<◌};
ghost use Rattle.exported.specs.Ini.{continued_of, delimiters_of, dialect_of, has, marks_of};

use format_ini::dialect::{Continued, Delimiters, Dialect, Marks};

/// `=` ends a key. If neither this flag nor the next one is set, both end a key.
pub const INI_DIALECT_EQUALS: usize = 1;

/// `:` ends a key.
pub const INI_DIALECT_COLON: usize = 2;

/// `#` starts a comment if it is first in a line, after optional whitespace.
pub const INI_DIALECT_NUMBER_SIGN: usize = 4;

/// `;` starts a comment if it is first in a line, after optional whitespace.
pub const INI_DIALECT_SEMICOLON: usize = 8;

/// `#` starts a comment at the start of a line, or after whitespace in it.
pub const INI_DIALECT_INLINE_NUMBER_SIGN: usize = 16;

/// `;` starts a comment at the start of a line, or after whitespace in it.
pub const INI_DIALECT_INLINE_SEMICOLON: usize = 32;

/// A line that is indented deeper than the pair before it continues the value of that pair. An
/// empty line or a comment ends the value.
pub const INI_DIALECT_UNTIL_EMPTY: usize = 64;

/// Such a line continues the value, and empty lines within are part of it; comments within are
/// skipped. If this flag is set, the previous one has no effect.
pub const INI_DIALECT_PAST_EMPTY: usize = 128;

/// A line without a delimiter is a key without a value; otherwise it is an error.
pub const INI_DIALECT_VALUELESS: usize = 256;

/// Pairs may precede the first section; otherwise they are an error.
pub const INI_DIALECT_BEFORE_SECTIONS: usize = 512;

/// The name of a section ends at the last `]` of its line, and text after that is ignored. A line
/// that starts with `[` and has no such name is a pair. Otherwise the name ends at the first `]`,
/// and such lines are errors.
pub const INI_DIALECT_LOOSE_SECTIONS: usize = 1024;

/// The default dialect of Python's `configparser`: `=` and `:`, `#` and `;` at the start of lines,
/// continued lines with empty lines within, loose sections.
pub const INI_DIALECT_PYTHON: usize = 1167;

/// The dialect of desktop entries: `=`, `#` at the start of lines, a line for each pair.
pub const INI_DIALECT_DESKTOP: usize = 5;

/// The dialect that reads most: `=` and `:`, comments after whitespace too, keys without values,
/// pairs before the first section, loose sections, a line for each pair.
pub const INI_DIALECT_LENIENT: usize = 1855;

fn has(dialect: usize, flag: usize) -> bool
    requires { 0 < flag }
    ensures { result ≡ has dialect flag }
{
    dialect / flag % 2 == 1
}

fn delimiters_of(equals: bool, colon: bool) -> Delimiters
    ensures { result ≡ delimiters_of equals colon }
{
    match (equals, colon) {
        (true, false) => Delimiters::Equals,
        (false, true) => Delimiters::Colon,
        _ => Delimiters::Either,
    }
}

fn marks_of(number_sign: bool, semicolon: bool) -> Marks
    ensures { result ≡ marks_of number_sign semicolon }
{
    match (number_sign, semicolon) {
        (false, false) => Marks::Neither,
        (true, false) => Marks::NumberSign,
        (false, true) => Marks::Semicolon,
        (true, true) => Marks::Either,
    }
}

fn continued_of(until_empty: bool, past_empty: bool) -> Continued
    ensures { result ≡ continued_of until_empty past_empty }
{
    match (until_empty, past_empty) {
        (_, true) => Continued::PastEmpty,
        (true, false) => Continued::UntilEmpty,
        (false, false) => Continued::Never,
    }
}

/// The dialect with these flags.
pub(crate) fn dialect_of(flags: usize) -> Dialect
    ensures { result ≡ dialect_of flags }
{
    Dialect {
        delimiters: delimiters_of(
            has(flags, INI_DIALECT_EQUALS),
            has(flags, INI_DIALECT_COLON),
        ),
        comments: marks_of(
            has(flags, INI_DIALECT_NUMBER_SIGN),
            has(flags, INI_DIALECT_SEMICOLON),
        ),
        inline_comments: marks_of(
            has(flags, INI_DIALECT_INLINE_NUMBER_SIGN),
            has(flags, INI_DIALECT_INLINE_SEMICOLON),
        ),
        continued: continued_of(
            has(flags, INI_DIALECT_UNTIL_EMPTY),
            has(flags, INI_DIALECT_PAST_EMPTY),
        ),
        valueless: has(flags, INI_DIALECT_VALUELESS),
        before_sections: has(flags, INI_DIALECT_BEFORE_SECTIONS),
        loose_sections: has(flags, INI_DIALECT_LOOSE_SECTIONS),
    }
}
