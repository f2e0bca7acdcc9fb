//! The node of a name in a table.
ghost use Rattle.std.specs.Prelude.{◌≡◌, ◌<◌, ◌≤◌, ◌↔◌, IfSome, IsTrue, None, length};
ghost use Rattle.format_toml_nodes.specs.Find.{FindsEntry, HasAt};

use crate::node::{Span, TomlNode};

/// Returns whether a span of the text is that of these bytes.
fn is_at(text: &[u8], place: Span, bytes: &[u8]) -> bool
    ensures { IsTrue result ↔ HasAt text.now place bytes.now }
{
    match text.get(place.offset..) {
        None => false,
        Some(rest) => match rest.get(..place.length) {
            None => false,
            Some(found) => found == bytes,
        },
    }
}

/// Returns the number of the entry of this name, in the nodes that
/// [`write_nodes`](crate::nodes::write_nodes) wrote with this text. The entry is looked for in the
/// node of number `table`. Returns `None` if that is not a table, or has no such entry.
///
/// It looks at each entry before it. In other nodes the entry may be missed, or be another node.
///
/// ```
/// use format_toml_nodes::find::find_entry;
/// use format_toml_nodes::node::NO_NODE;
///
/// // The table of a document without lines has no entries.
/// assert_eq!(rt; find_entry(b"", &[NO_NODE], 0, b"port"), None);
/// ```
pub fn find_entry(text: &[u8], nodes: &[TomlNode], table: usize, name: &[u8]) -> Option<usize>
    ensures found { FindsEntry text.now nodes.now table name.now result }
    ensures within { IfSome result (λ at. at < length nodes.now) }
    ensures outside { length nodes.now ≤ table → result ≡ None }
{
    if table >= nodes.len() {
        return None;
    }
    let mut at = nodes[table].first;
    let mut last = 0;
    while last < at && at < nodes.len() {
        let node = nodes[at];
        if !node.is_element && is_at(text, node.name, name) {
            return Some(at);
        }
        last = at;
        at = node.next;
    }
    None
}
