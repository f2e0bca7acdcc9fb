//! The positions in a chunked body.
#![tactic(auto)]

/// Where in a size line, after its digits.
#[derive(Clone, Copy, Debug, PartialEq, Eq)]
pub(crate) enum InLine {
    /// After the size, or after a value in quotes.
    AfterSize,
    /// After whitespace there.
    White,
    /// After a semicolon, and whitespace.
    Semicolon,
    /// In a name.
    Name,
    /// After whitespace that follows a name.
    NameWhite,
    /// After an equals sign, and whitespace.
    Equals,
    /// In a value that is a token.
    Token,
    /// In quotes.
    Quotes,
    /// After a backslash in quotes.
    Escape,
    /// After the carriage return.
    Return,
}

/// Where in the trailer section.
#[derive(Clone, Copy, Debug, PartialEq, Eq)]
pub(crate) enum InField {
    /// Where a field line or the end of the body begins.
    Start,
    /// In a name.
    Name,
    /// In a value, or in whitespace around it.
    Value,
    /// After the carriage return.
    Return,
}

/// Where between what is given out.
#[derive(Clone, Copy, Debug, PartialEq, Eq)]
pub(crate) enum Framing {
    /// Where a size line begins.
    Start,
    /// In the digits of a size, which make this number so far.
    Digits(u64),
    /// In the size line of a chunk of this size.
    Line(InLine, u64),
    /// Where the line ending of data begins.
    DataEnd,
    /// After the carriage return there.
    DataReturn,
    /// After the last carriage return.
    LastReturn,
}

/// Where in a body.
#[derive(Clone, Copy, Debug, PartialEq, Eq)]
pub(crate) enum Place {
    /// Between what is given out.
    Framing(Framing),
    /// In data, with the number of bytes of data that remain.
    Data(u64),
    /// In the trailer section.
    Trailers(InField),
    /// After the body.
    Done,
}
