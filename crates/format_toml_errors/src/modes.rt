//! The input that may be expected next in a document.
use crate::escapes::Escape;
use crate::figures::Figure;

/// A bracket or a brace that is open.
#[derive(Clone, Copy, Drop)]
pub enum Bracket {
    /// That of an array.
    Array,
    /// That of an inline table.
    Table,
}

/// Where a line may end.
#[derive(Clone, Copy, Drop)]
pub enum Gap {
    /// In no value.
    Line,
    /// Before an element of an array.
    Item,
    /// After an element of an array.
    After,
}

/// The owner of a key.
#[derive(Clone, Copy, Drop)]
pub enum Owner {
    /// A line.
    Entry,
    /// An inline table.
    Member,
    /// The header of a table.
    Header,
    /// The header of an array of tables.
    Headers,
}

/// The role of a string on one line.
#[derive(Clone, Copy, Drop)]
pub enum Role {
    /// It is a part of a key.
    Name(Owner),
    /// It is a value.
    Value,
}

/// A kind of quotation marks.
#[derive(Clone, Copy, Debug, PartialEq, Eq, Drop)]
pub enum Mark {
    /// Those of basic strings.
    Basic,
    /// Those of literal strings.
    Literal,
}

/// The rest of a word.
#[derive(Clone, Copy, Drop)]
pub enum Letters {
    /// Of `true`.
    Rue,
    /// Of `true`.
    Ue,
    /// Of `true` or `false`.
    E,
    /// Of `false`.
    Alse,
    /// Of `false`.
    Lse,
    /// Of `false`.
    Se,
    /// Of `inf`.
    Nf,
    /// Of `inf`.
    F,
    /// Of `nan`.
    An,
    /// Of `nan`.
    N,
}

/// The input that is expected next.
#[derive(Clone, Copy, Drop)]
pub enum Mode {
    /// A line.
    Line,
    /// More of a comment, or the end of its line.
    Comment(Gap),
    /// The line feed after a carriage return.
    Return(Gap),
    /// The name of a table or a second bracket, after the bracket of a header.
    Header,
    /// The second closing bracket of a header.
    Closing,
    /// A name of a key.
    Name(Owner),
    /// A name of a key, or the end of an inline table.
    FirstName,
    /// More of a bare key, or what follows one.
    Bare(Owner),
    /// The input after a name of a key.
    Behind(Owner),
    /// The value after an equals sign.
    Value,
    /// An element of an array, or its end.
    Item,
    /// The input after a value or a header.
    After,
    /// More of a basic string.
    Basic(Role),
    /// More of an escape of one.
    Escaped(Role, Escape),
    /// More of a literal string.
    Literal(Role),
    /// More of a string after its first quotation mark.
    Quote(Mark),
    /// The input after two quotation marks: a third, or the input after an empty string.
    Quotes(Mark),
    /// More of a multi-line string, after this many quotation marks.
    Long(Mark, u64),
    /// The line feed after a carriage return in one.
    LongReturn(Mark),
    /// More of an escape in one.
    LongEscape(Escape),
    /// The end of the line after a backslash in one.
    LongBlank,
    /// More of a word.
    Word(Letters),
    /// A number after a sign, which is a minus or not.
    Sign(bool),
    /// More of a number, a date or a time.
    Number(Figure),
}

/// The effect of a character.
#[derive(Clone, Copy, Drop)]
pub enum Step {
    /// No document has it there.
    Invalid,
    /// This is expected after it.
    Goes(Mode),
    /// It opens a bracket.
    Opens(Bracket),
    /// It closes the bracket that was opened last.
    Closes,
    /// It ends a line.
    Ends,
}
