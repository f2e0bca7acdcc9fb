//! Nodes of replies, and their kinds.

/// A simple string: bytes among which is neither a carriage return nor a line feed.
pub const RESP_SIMPLE: u32 = 0;

/// An error: such bytes.
pub const RESP_ERROR: u32 = 1;

/// An integer.
pub const RESP_INTEGER: u32 = 2;

/// A bulk string: any bytes.
pub const RESP_BULK: u32 = 3;

/// The null bulk string.
pub const RESP_NULL_BULK: u32 = 4;

/// An array.
pub const RESP_ARRAY: u32 = 5;

/// The null array.
pub const RESP_NULL_ARRAY: u32 = 6;

/// The null of RESP3.
pub const RESP_NULL: u32 = 7;

/// A boolean.
pub const RESP_BOOLEAN: u32 = 8;

/// A double, as its text.
pub const RESP_DOUBLE: u32 = 9;

/// A big number, as its text.
pub const RESP_BIG_NUMBER: u32 = 10;

/// A bulk error: any bytes.
pub const RESP_BULK_ERROR: u32 = 11;

/// A verbatim string: a format of three bytes, a colon, and any bytes.
pub const RESP_VERBATIM: u32 = 12;

/// A map: its keys, each followed by its value.
pub const RESP_MAP: u32 = 13;

/// A set.
pub const RESP_SET: u32 = 14;

/// A push.
pub const RESP_PUSH: u32 = 15;

/// Attributes: their names, each followed by its value, and the reply that they belong to.
pub const RESP_ATTRIBUTES: u32 = 16;

/// A reply, which may be in another. Offsets are in bytes from the start of the input.
///
/// ```
/// use format_resp::node::{NO_NODE, RESP_SIMPLE};
///
/// assert_eq!(rt; NO_NODE.kind, RESP_SIMPLE);
/// ```
#[repr(C)]
#[derive(Clone, Copy, Debug, PartialEq, Eq, Drop)]
pub struct RespNode {
    /// The kind of the reply: one of the constants from `RESP_SIMPLE` to `RESP_ATTRIBUTES`.
    pub kind: u32,
    /// The number of an integer; 1 for true; 0 otherwise.
    pub number: i64,
    /// The number of elements of an array, a set or a push; of a map or attributes the number of
    /// all replies in them, but not of those in these; 0 otherwise.
    pub elements: usize,
    /// The offset of the bytes of a string, an error, a double or a big number, or of the first
    /// element; 0 otherwise.
    pub start: usize,
    /// The offset after these bytes, or after the last element; 0 otherwise.
    pub end: usize,
    /// The index of the node after it and everything in it. It is the number of nodes if no node
    /// follows.
    pub next: usize,
}

/// A node of nothing, to fill a buffer with.
pub const NO_NODE: RespNode = RespNode {
    kind: RESP_SIMPLE,
    number: 0,
    elements: 0,
    start: 0,
    end: 0,
    next: 0,
};
