//! Functions that write into a buffer, as far as there is room.
ghost use Rattle.std.specs.Prelude.{◌≡◌, set};
ghost use Rattle.format_toml_nodes.specs.Laying.{ChangesAt, Fits, IsAbove, IsBefore, IsPlacedAs};
ghost use Rattle.format_toml_nodes.specs.Laying.{Puts};

use crate::node::{NOWHERE, Span, TomlNode};

/// Writes bytes at an offset of the text, if they fit, and returns the offset after them.
#[inline]
pub(crate) fn put_bytes(bytes: &[u8], at: usize, text: &mut [u8]) -> usize
    ensures { Puts bytes.now at text.old result text.new }
{
    let end = at.saturating_add(bytes.len());
    if end <= text.len() {
        text[at..end].copy_from_slice(bytes);
    }
    end
}

/// Returns the span of bytes that are written at an offset of the text. Without bytes it is
/// `NOWHERE`.
#[inline]
pub(crate) fn span_of(bytes: &[u8], at: usize) -> Span
    ensures { Fits bytes.now at result }
{
    match bytes {
        [] => NOWHERE,
        _ => Span {
            offset: at,
            length: bytes.len(),
        },
    }
}

/// Puts a node at its number, if there is room for it.
#[inline]
pub(crate) fn put_node(node: TomlNode, number: usize, nodes: &mut [TomlNode])
    ensures { nodes.new ≡ set nodes.old number node }
{
    if number < nodes.len() {
        nodes[number] = node;
    }
}

/// Sets the parent, the name and the index of a node, if it exists, to those of `at`.
#[inline]
pub(crate) fn put_position(number: usize, at: TomlNode, nodes: &mut [TomlNode])
    ensures { ChangesAt (IsPlacedAs at) number nodes.old nodes.new }
{
    if number < nodes.len() {
        nodes[number] = TomlNode {
            parent: at.parent,
            name: at.name,
            index: at.index,
            is_element: at.is_element,
            ..nodes[number]
        };
    }
}

/// Sets the next sibling of a node, if it exists.
#[inline]
pub(crate) fn put_next(number: usize, next: usize, nodes: &mut [TomlNode])
    ensures { ChangesAt (IsBefore next) number nodes.old nodes.new }
{
    if number < nodes.len() {
        nodes[number] = TomlNode {
            next,
            ..nodes[number]
        };
    }
}

/// Says of a node, if it is there, which is first in it.
#[inline]
pub(crate) fn put_first(number: usize, first: usize, nodes: &mut [TomlNode])
    ensures { ChangesAt (IsAbove first) number nodes.old nodes.new }
{
    if number < nodes.len() {
        nodes[number] = TomlNode {
            first,
            ..nodes[number]
        };
    }
}
