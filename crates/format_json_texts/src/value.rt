//! Values of JSON (RFC 8259, sections 2 to 5).

use std::alloc::Allocator;

/// A value. An object keeps its members in order, including those with the same name.
///
/// Two values are equal if they are of one kind and have the same text, or equal elements or
/// members in the same order. So the numbers `1` and `1.0` are not equal, and neither are objects
/// whose members are in a different order. [`clone`](Clone::clone) allocates, which may fail.
/// Comparing, copying, showing and dropping a value recurse once for each nested array and object,
/// as parsing does.
///
/// ```
/// use format_json_texts::value::Value;
/// use std::alloc::{AllocError, Global};
///
/// let value: Value<Global> = Value::Text(String::from_str(alloc, "a").unwrap());
/// let copy: Result<Value<Global>, AllocError> = value.clone();
/// assert!(rt; matches!(copy, Ok(copy) if copy == value));
/// assert!(rt; value != Value::Null);
/// ```
#[derive(Drop)]
#[derive_where(Debug, PartialEq)]
pub enum Value<A: Allocator> {
    /// The word `null`.
    Null,
    /// The word `true` or `false`.
    Boolean(bool),
    /// A number, as it is written.
    Number(String<A>),
    /// A string, its escapes undone.
    Text(String<A>),
    /// The elements of an array.
    Array(Vec<Value<A>, A>),
    /// The members of an object, each a name and a value.
    Object(Vec<(String<A>, Value<A>), A>),
}
