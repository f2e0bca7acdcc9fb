//! The nodes of the slots of a tree, and their positions.
ghost use Rattle.std.specs.Prelude.{◌≡◌, ◌<◌, length};
ghost use Rattle.format_toml_nodes.specs.Laying.{PutsElements, PutsEntries, PutsLinks, PutsValues};
ghost use Rattle.format_toml_nodes.specs.Laying.{alone};

use crate::node::{NO_NODE, Span, TomlNode, TomlValue};
use crate::put::{put_bytes, put_node, put_position, span_of};
use crate::values::{text, value_of};
use format_toml_tree::tree::Slot;
use std::alloc::Allocator;

/// Returns the node of a value with its bytes, without a position or links.
fn alone(value: TomlValue, text: Span) -> TomlNode
    ensures { result ≡ alone (record value { text = text }) }
{
    TomlNode {
        value: TomlValue { text, ..value },
        ..NO_NODE
    }
}

/// Writes the value of each slot with its bytes, and returns the offset after these.
pub(crate) fn put_values<'t, A: Allocator + Copy>(
    slots: &[Slot<'t, A>],
    buffer: &mut [u8],
    nodes: &mut [TomlNode],
) -> usize
    ensures { PutsValues slots.now buffer.old nodes.old result buffer.new nodes.new }
{
    let mut end = 0;
    for place in 0..slots.len() {
        let kind = slots[place].kind();
        let bytes = text(kind).as_bytes();
        put_node(alone(value_of(kind), span_of(bytes, end)), place, nodes);
        end = put_bytes(bytes, end, buffer);
    }
    end
}

/// Writes the positions of a slot's entries, with their names, and returns the offset after these.
fn put_entries<'t, A: Allocator + Copy>(
    slots: &[Slot<'t, A>],
    parent: usize,
    at: usize,
    buffer: &mut [u8],
    nodes: &mut [TomlNode],
) -> usize
    requires { parent < length slots.now }
    ensures { PutsEntries slots.now parent at buffer.old nodes.old result buffer.new nodes.new }
{
    let mut end = at;
    for (name, place) in slots[parent].places() {
        let bytes = name.as_bytes();
        let at = TomlNode {
            parent,
            name: span_of(bytes, end),
            ..NO_NODE
        };
        put_position(*place, at, nodes);
        end = put_bytes(bytes, end, buffer);
    }
    end
}

/// Writes the positions of a slot's elements.
fn put_elements<'t, A: Allocator + Copy>(
    slots: &[Slot<'t, A>],
    parent: usize,
    nodes: &mut [TomlNode],
)
    requires { parent < length slots.now }
    ensures { PutsElements slots.now parent nodes.old nodes.new }
{
    let elements = slots[parent].elements();
    for index in 0..elements.len() {
        let at = TomlNode {
            parent,
            index,
            is_element: true,
            ..NO_NODE
        };
        put_position(elements[index], at, nodes);
    }
}

/// Writes the positions of everything below each slot, and returns the offset after the names.
pub(crate) fn put_links<'t, A: Allocator + Copy>(
    slots: &[Slot<'t, A>],
    at: usize,
    buffer: &mut [u8],
    nodes: &mut [TomlNode],
) -> usize
    ensures { PutsLinks slots.now at buffer.old nodes.old result buffer.new nodes.new }
{
    let mut end = at;
    for parent in 0..slots.len() {
        end = put_entries(slots, parent, end, buffer, nodes);
        put_elements(slots, parent, nodes);
    }
    end
}
