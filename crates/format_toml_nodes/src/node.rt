//! Nodes, and their contents.

/// A span of the text: `length` bytes from `offset` on.
///
/// ```
/// use format_toml_nodes::node::Span;
///
/// let span = Span { offset: 4, length: 1 };
/// assert_eq!(rt; span.offset + span.length, 5);
/// ```
#[repr(C)]
#[derive(Clone, Copy, Debug, PartialEq, Eq, Drop)]
pub struct Span {
    /// The number of bytes before it.
    pub offset: usize,
    /// How many bytes it has.
    pub length: usize,
}

/// A table, of headers, of dotted keys or inline.
pub const TOML_TABLE: u32 = 0;

/// An array, of values or of tables.
pub const TOML_ARRAY: u32 = 1;

/// A string.
pub const TOML_STRING: u32 = 2;

/// An integer.
pub const TOML_INTEGER: u32 = 3;

/// A float.
pub const TOML_FLOAT: u32 = 4;

/// The word `true` or `false`.
pub const TOML_BOOLEAN: u32 = 5;

/// A date and a time at an offset from UTC.
pub const TOML_OFFSET_DATE_TIME: u32 = 6;

/// A date and a time with no offset.
pub const TOML_LOCAL_DATE_TIME: u32 = 7;

/// A date without a time.
pub const TOML_LOCAL_DATE: u32 = 8;

/// A time without a date.
pub const TOML_LOCAL_TIME: u32 = 9;

/// The value of a node. Fields that its kind does not use are 0.
///
/// ```
/// use format_toml_nodes::node::{NO_NODE, TOML_TABLE};
///
/// assert_eq!(rt; NO_NODE.value.kind, TOML_TABLE);
/// ```
#[repr(C)]
#[derive(Clone, Copy, Debug, PartialEq, Eq, Drop)]
pub struct TomlValue {
    /// The kind: one of the numbers `TOML_TABLE` to `TOML_LOCAL_TIME`.
    pub kind: u32,
    /// The year of a date, from 0 to 9999.
    pub year: u16,
    /// The month of a date, from 1 to 12.
    pub month: u8,
    /// The day of a date, from 1 to the last of its month.
    pub day: u8,
    /// The hour of a time, from 0 to 23.
    pub hour: u8,
    /// The minute of a time, from 0 to 59.
    pub minute: u8,
    /// The second of a time, from 0 to 60, which is a leap second.
    pub second: u8,
    /// How many minutes a time is ahead of UTC, below zero to the west.
    pub offset: i16,
    /// The integer, or 1 for `true` and 0 for `false`.
    pub integer: i64,
    /// The span of its own bytes in the text: those of a string, with its escapes undone; of a
    /// float, without underscores, as `-1.5e+3`, `inf` and `nan`; or the digits of the fraction of
    /// a second. Other values have no bytes. The offset of no bytes is 0.
    pub text: Span,
}

/// A node: what there is at a path of a document. The first is the root table, which is in none.
///
/// ```
/// use format_toml_nodes::node::NO_NODE;
///
/// assert_eq!(rt; NO_NODE.next, 0);
/// ```
#[repr(C)]
#[derive(Clone, Copy, Debug, PartialEq, Eq, Drop)]
pub struct TomlNode {
    /// The number of the table or array that it is in; 0 of the first node.
    pub parent: usize,
    /// The number of the first node in it, or 0 where there is none.
    pub first: usize,
    /// The number of the next node in the same table or array, or 0 where there is none.
    pub next: usize,
    /// The number of elements before it in its array; 0 in a table.
    pub index: usize,
    /// The span of its name in its table, with quotes and escapes undone. Elements of an array and
    /// the first node have no bytes here. The offset of no bytes is 0.
    pub name: Span,
    /// The value of a node.
    pub value: TomlValue,
    /// Whether it is an element of an array. Otherwise it is an entry of a table, or the first
    /// node.
    pub is_element: bool,
}

/// The place of no bytes.
pub(crate) const NOWHERE: Span = Span {
    offset: 0,
    length: 0,
};

/// A node of nothing, which callers have room with.
pub const NO_NODE: TomlNode = TomlNode {
    parent: 0,
    first: 0,
    next: 0,
    index: 0,
    name: NOWHERE,
    value: TomlValue {
        kind: TOML_TABLE,
        year: 0,
        month: 0,
        day: 0,
        hour: 0,
        minute: 0,
        second: 0,
        offset: 0,
        integer: 0,
        text: NOWHERE,
    },
    is_element: false,
};
