//! The nodes of a tree.
ghost use Rattle.std.specs.Prelude.{◌≡◌, ◌⊎◌, ◌<◌, ◌≤◌, drop, length, take, true};
ghost use Rattle.std.specs.Prelude.{MatchBool};
ghost use Rattle.format_toml_nodes.specs.Laying.{IsSizeOf, PutsAll};
ghost use Rattle.format_toml_nodes.specs.Nodes.{AreNodesOf};
ghost use Rattle.format_toml_tree.specs.Holds.{HoldsTree};
ghost use Rattle.format_toml_tree.specs.Runs.{Tree as Given};

use crate::join::join;
use crate::links::{put_links, put_values};
use crate::node::TomlNode;
use format_toml_tree::tree::{Slot, Tree};
use std::alloc::Allocator;

/// How much room the nodes of a tree want.
///
/// ```
/// use format_toml_nodes::nodes::Size;
///
/// let size = Size { nodes: 1, text: 0 };
/// assert!(rt; size.nodes > size.text);
/// ```
#[derive(Clone, Copy, Debug, PartialEq, Eq, Drop)]
pub struct Size {
    /// How many nodes there are: one at least.
    pub nodes: usize,
    /// How many bytes their names and texts have together.
    pub text: usize,
}

/// Puts the nodes of places, as far as there is room, and answers how many bytes their texts have.
fn put_all<'t, A: Allocator + Copy>(
    slots: &[Slot<'t, A>],
    text: &mut [u8],
    nodes: &mut [TomlNode],
) -> usize
    ensures { PutsAll slots.now text.old nodes.old result text.new nodes.new }
{
    let end = put_values(slots, text, nodes);
    put_links(slots, end, text, nodes)
}

/// How much room the nodes of a tree want. It takes as long as they take to write.
///
/// ```
/// use format_toml_nodes::nodes::size_of;
/// use format_toml_tree::build::build;
///
/// // A document of no lines is a table with nothing in it.
/// if let Ok(tree) = build(alloc, 0, &[]) {
///     let size = size_of(&tree);
///     assert!(rt; size.nodes == 1 && size.text == 0);
/// }
/// ```
pub fn size_of<'t, A: Allocator + Copy>(tree: &Tree<'t, A>) -> Size
    ensures { IsSizeOf tree.now result }
{
    let slots = tree.slots();
    let text = put_all(slots, &mut [], &mut []);
    Size {
        nodes: slots.len(),
        text,
    }
}

/// Writes the nodes of a tree into the first entries of `nodes`, and the bytes of their names and
/// texts into the first of `text`. The size of the tree gives the number of both; what is behind
/// these stays. Returns `false` if one of them is too small; both are then unchanged.
///
/// Does not allocate. The time is by the number of nodes and bytes.
///
/// ```
/// use format_toml_nodes::node::{NO_NODE, TOML_INTEGER};
/// use format_toml_nodes::nodes::{size_of, write_nodes};
/// use format_toml_tree::build::build;
/// use format_toml_tree::value::{Item, Key, Value};
///
/// // What `port = 80` says.
/// let mut names = Vec::new(alloc);
/// if let Ok(name) = String::from_str(alloc, "port") {
///     let _ = names.push(name);
/// }
/// let lines = [Item::Entry(Key { names }, Value::Integer(80))];
/// let mut text = [0; 4];
/// let mut nodes = [NO_NODE; 2];
/// if let Ok(tree) = build(alloc, 0, &lines) {
///     let size = size_of(&tree);
///     assert!(rt; write_nodes(&tree, size, text.as_mut_slice(), nodes.as_mut_slice()));
/// }
/// assert_eq!(rt; nodes[0].first, 1);
/// assert!(rt; nodes[1].value.kind == TOML_INTEGER && nodes[1].value.integer == 80);
/// assert_eq!(rt; &text[nodes[1].name.offset..][..nodes[1].name.length], b"port".as_slice());
/// ```
pub fn write_nodes<'t, A: Allocator + Copy>(
    tree: &Tree<'t, A>,
    size: Size,
    text: &mut [u8],
    nodes: &mut [TomlNode],
) -> bool
    requires { IsSizeOf tree.now size }
    ensures written { MatchBool result
        ((given : Given A) → HoldsTree tree.now.slots.items given
        → AreNodesOf given (take size.text text.new) (take size.nodes nodes.new))
        (((length text.old < size.text) ⊎ (length nodes.old < size.nodes))
        × (text.new ≡ text.old) × (nodes.new ≡ nodes.old)) }
    ensures room { result ≡ true → (size.text ≤ length text.old)
        × (size.nodes ≤ length nodes.old) }
    ensures behind { (drop size.text text.new ≡ drop size.text text.old)
        × (drop size.nodes nodes.new ≡ drop size.nodes nodes.old) }
    ensures sizes { (length text.new ≡ length text.old)
        × (length nodes.new ≡ length nodes.old) }
{
    if text.len() < size.text || nodes.len() < size.nodes {
        return false;
    }
    let nodes = &mut nodes[..size.nodes];
    put_all(tree.slots(), &mut text[..size.text], nodes);
    join(nodes);
    true
}
