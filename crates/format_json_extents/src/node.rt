//! Nodes, and their kinds.

/// The word `null`.
pub const JSON_NULL: u32 = 0;

/// The word `false`.
pub const JSON_FALSE: u32 = 1;

/// The word `true`.
pub const JSON_TRUE: u32 = 2;

/// A number.
pub const JSON_NUMBER: u32 = 3;

/// A string that is a value.
pub const JSON_STRING: u32 = 4;

/// An array.
pub const JSON_ARRAY: u32 = 5;

/// An object.
pub const JSON_OBJECT: u32 = 6;

/// The name of a member, a string. The next node is its value.
pub const JSON_NAME: u32 = 7;

/// A value of a JSON text, or the name of a member. Offsets are in bytes from the start of the
/// text.
///
/// ```
/// use format_json_extents::node::{JSON_NULL, NO_NODE};
///
/// assert_eq!(rt; NO_NODE.kind, JSON_NULL);
/// ```
#[repr(C)]
#[derive(Clone, Copy, Debug, PartialEq, Eq, Drop)]
pub struct JsonNode {
    /// The kind: one of the numbers `JSON_NULL` to `JSON_NAME`.
    pub kind: u32,
    /// The offset of its first byte. Strings and names include their quotes, arrays and objects
    /// their brackets.
    pub start: usize,
    /// The offset after its last byte.
    pub end: usize,
    /// The index of the node after it and everything in it. That of an array or an object is also
    /// the index after its last element or value. It is the number of nodes if no node follows.
    pub next: usize,
}

/// A node of nothing, to fill a buffer with.
pub const NO_NODE: JsonNode = JsonNode {
    kind: JSON_NULL,
    start: 0,
    end: 0,
    next: 0,
};
