//! Members and elements among the nodes of a JSON text.

ghost use Rattle.std.specs.Prelude.{⊤, ◌≡◌, ◌≤◌, ◌<◌, ◌+◌, ◌⊎◌, List, ℕ, IfNone, IfSome};
ghost use Rattle.std.specs.Prelude.{MatchOption, None, Some, length};
ghost use Rattle.format_json_extents.specs.Names.{name_text};
ghost use Rattle.exported.specs.Code.{done, end, invalid};
ghost use Rattle.exported.specs.JsonMember.{is_set};
ghost use Rattle.exported.specs.JsonNodes.{BreaksElement, BreaksMember, FindsElement, FindsMember};
ghost use Rattle.exported.specs.JsonNodes.{HasInside, IsNameOf, IsNoName, LacksElement};
ghost use Rattle.exported.specs.JsonNodes.{LacksMember};

use crate::code::{DONE, END, INVALID};
use crate::json::member::is_set;
use format_json_extents::names::compare;
use format_json_extents::node::{JSON_ARRAY, JSON_NAME, JSON_OBJECT, JsonNode};

/// Returns the index after the nodes in a node of this kind; `None` if there is no such node.
fn end_of(nodes: &[JsonNode], index: usize, kind: u32) -> Option<usize>
    ensures { MatchOption result ((after : ℕ) → HasInside kind nodes.now index after → ⊥)
        (λ after. HasInside kind nodes.now index after) }
{
    match nodes.get(index) {
        Some(node) => {
            if node.kind == kind && node.next <= nodes.len() {
                Some(node.next)
            } else {
                None
            }
        }
        None => None,
    }
}

/// Returns whether a node is a name, and the one that is sought; `None` if it is not in the text.
fn is_name(text: &[u8], node: JsonNode, token: bool, name: &[u8]) -> Option<bool>
    ensures none { IfNone result (IsNoName text.now node) }
    ensures some { IfSome result (λ same. IsNameOf same (name_text token name.now) text.now node) }
{
    if node.kind != JSON_NAME {
        return Some(false);
    }
    match text.get(node.start..) {
        Some(bytes) => match compare(token, bytes, name) {
            Some((same, _)) => Some(same),
            None => None,
        },
        None => None,
    }
}

/// Finds a name in the object at an index, and returns the index after it; `None` if the nodes are
/// not those of a text.
fn find_member(
    text: &[u8],
    nodes: &[JsonNode],
    index: usize,
    token: bool,
    name: &[u8],
) -> Option<Option<usize>>
    ensures none { IfNone result (BreaksMember (name_text token name.now) text.now nodes.now index) }
    ensures some { IfSome result (λ found. MatchOption found
        (LacksMember (name_text token name.now) text.now nodes.now index)
        (FindsMember (name_text token name.now) text.now nodes.now index)) }
{
    let after = end_of(nodes, index, JSON_OBJECT)?;
    let mut at = index + 1;
    'members: loop {
        if at >= after {
            return Some(None);
        }
        let node = nodes[at];
        if node.next <= at {
            return None;
        }
        if is_name(text, node, token, name)? {
            return if node.next < after {
                Some(Some(node.next))
            } else {
                None
            };
        }
        at = node.next;
    }
}

/// Finds an element of the array at an index; `None` if the nodes are not those of a text.
fn find_element(nodes: &[JsonNode], index: usize, position: usize) -> Option<Option<usize>>
    ensures none { IfNone result (BreaksElement nodes.now index position) }
    ensures some { IfSome result (λ found. MatchOption found
        (LacksElement nodes.now index position) (FindsElement nodes.now index position)) }
{
    let after = end_of(nodes, index, JSON_ARRAY)?;
    let mut at = index + 1;
    let mut passed = 0;
    'elements: loop {
        if at >= after {
            return Some(None);
        }
        if passed >= position {
            return Some(Some(at));
        }
        let next = nodes[at].next;
        if next <= at {
            return None;
        }
        at = next;
        passed += 1;
    }
}

/// Finds the first member of a name in an object among the nodes that `exported_json_nodes` wrote
/// for the text. Names are compared with their escapes decoded, as `exported_json_member` does;
/// also `is_token` is as there.
///
/// The nodes of the members themselves are visited, whatever these contain, and only names of the
/// text are read.
///
/// `DONE`: the index of the node of the member's value is written.
///
/// `END`: no member has the name. 0 is written.
///
/// # Errors
///
/// `INVALID`: the node at `index` is not an object, or there is none. Or, for nodes of another
/// text, a node precedes the one before it, or a name is not a string in the text. 0 is written.
///
/// # Safety
///
/// `text` must be valid for reads of `text_length` bytes, `nodes` for reads of `nodes_length`
/// entries and `name` for reads of `name_length` bytes, which must not change during the call.
/// `out` must be valid for writes of one index, and must not overlap the others. The call needs 16
/// KiB of stack.
#[unsafe(no_mangle)]
pub extern "C" fn exported_json_node_member(
    text: &[u8],
    nodes: &[JsonNode],
    index: usize,
    name: &[u8],
    is_token: u32,
    out: &mut usize,
) -> u32
    ensures found { result ≡ done
        → FindsMember (name_text (is_set is_token) name.now) text.now nodes.now index out.new }
    ensures missing { result ≡ end
        → LacksMember (name_text (is_set is_token) name.now) text.now nodes.now index }
    ensures refused { result ≡ invalid
        → BreaksMember (name_text (is_set is_token) name.now) text.now nodes.now index }
    ensures none { (result ≡ done → ⊥) → out.new ≡ 0 }
    ensures codes { (result ≡ done) ⊎ ((result ≡ end) ⊎ (result ≡ invalid)) }
{
    *out = 0;
    match find_member(text, nodes, index, is_set(is_token), name) {
        Some(Some(found)) => {
            *out = found;
            DONE
        }
        Some(None) => END,
        None => INVALID,
    }
}

/// Finds an element of an array, by its position from 0 on, among the nodes that
/// `exported_json_nodes` wrote. The nodes of the elements before it are visited, whatever these
/// contain.
///
/// `DONE`: the index of the node of the element is written.
///
/// `END`: the array has no more elements than `position`. 0 is written.
///
/// # Errors
///
/// `INVALID`: the node at `index` is not an array, or there is none. Or, for nodes of no text, a
/// node precedes the one before it. 0 is written.
///
/// # Safety
///
/// `nodes` must be valid for reads of `nodes_length` entries, which must not change during the
/// call. `out` must be valid for writes of one index, and must not overlap them. The call needs 16
/// KiB of stack.
#[unsafe(no_mangle)]
pub extern "C" fn exported_json_node_element(
    nodes: &[JsonNode],
    index: usize,
    position: usize,
    out: &mut usize,
) -> u32
    ensures found { result ≡ done → FindsElement nodes.now index position out.new }
    ensures missing { result ≡ end → LacksElement nodes.now index position }
    ensures refused { result ≡ invalid → BreaksElement nodes.now index position }
    ensures none { (result ≡ done → ⊥) → out.new ≡ 0 }
    ensures codes { (result ≡ done) ⊎ ((result ≡ end) ⊎ (result ≡ invalid)) }
{
    *out = 0;
    match find_element(nodes, index, position) {
        Some(Some(found)) => {
            *out = found;
            DONE
        }
        Some(None) => END,
        None => INVALID,
    }
}
