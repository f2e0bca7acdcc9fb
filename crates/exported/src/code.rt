//! How a call ended.

/// Success. The result is written.
pub const DONE: u32 = 0;

/// Invalid input. If the function documents it, the offset of the error is written.
pub const INVALID: u32 = 1;

/// Incomplete input: more bytes are needed.
pub const INCOMPLETE: u32 = 2;

/// Memory allocation failed.
pub const NO_MEMORY: u32 = 3;

/// Input is not valid UTF-8.
pub const INVALID_UTF8: u32 = 4;

/// Buffer too small. The required sizes are written, and the buffer is unchanged unless the
/// function documents otherwise.
pub const BUFFER_TOO_SMALL: u32 = 5;

/// Depth limit too large: at most 512 levels are supported. That number is `MAX_DEPTH`.
pub const MAX_DEPTH_TOO_LARGE: u32 = 6;

/// Null pointer. Memory would be read or written through it.
pub const NULL: u32 = 7;

/// Length too large: at most `PTRDIFF_MAX` bytes are supported.
pub const TOO_LONG: u32 = 8;

/// No more items. Each function documents the end that it reports.
pub const END: u32 = 9;

/// Number is not an integer or out of range. The function determines the range.
pub const NOT_AN_INTEGER: u32 = 10;

/// Nested too deep: deeper than the depth limit.
pub const TOO_DEEP: u32 = 11;

/// Number out of range. The function determines the range.
pub const OUT_OF_RANGE: u32 = 12;

/// Impossible dialect: delimiter, quote, carriage return and line feed must be four different
/// bytes, and the line ending one of the constants.
pub const INVALID_DIALECT: u32 = 13;

/// Invalid JSON pointer (RFC 6901).
pub const INVALID_POINTER: u32 = 14;
