//! The nodes of a JSON text.

ghost use Rattle.std.specs.Prelude.{◌≡◌, ◌≤◌, ◌+◌, ◌++◌, List, ℕ, IfSome, MatchOption, length, set};
ghost use Rattle.std.specs.Str.{IsUtf8};
ghost use Rattle.format_json_extents.specs.Standard.{IsTextByStandard};
ghost use Rattle.format_json_extents.specs.Texts.{NoByte, NoMatchAtStart, RestAfter};
ghost use Rattle.format_json_extents.specs.Value.{ExtendsNumberOf, IsItemsTail, IsName};
ghost use Rattle.format_json_extents.specs.Value.{IsNestedTail, IsScalar, IsText, IsValue};
ghost use Rattle.format_json_extents.specs.Nodes.{HasNodes, IsScalarOf, ScalarNodes, ValueNodes};
ghost use Rattle.format_json_extents.specs.Nodes.{nested_kind};
ghost use Rattle.format_json_extents.specs.NodeWriting.{ItemsNodes, TailNodes, WritesKey};
ghost use Rattle.format_json_extents.specs.NodeWriting.{WritesNodes};

use crate::node::{
    JSON_ARRAY, JSON_FALSE, JSON_NAME, JSON_NULL, JSON_NUMBER, JSON_OBJECT, JSON_STRING, JSON_TRUE,
    JsonNode,
};
use crate::scalar::skip_scalar;
use crate::string::skip_string;
use crate::tokens::{skip_byte, skip_whitespace};
use crate::value::{skip_closing, skip_empty, skip_opening};

/// Writes a node at an index, if there is room.
#[inline(always)]
fn put(node: JsonNode, index: usize, nodes: &mut [JsonNode])
    ensures { nodes.new ≡ set nodes.old index node }
{
    if index < nodes.len() {
        nodes[index] = node;
    }
}

/// Returns the kind of an array or an object.
#[inline(always)]
fn kind_of_nested(keyed: bool) -> u32
    ensures { result ≡ nested_kind keyed }
{
    if keyed { JSON_OBJECT } else { JSON_ARRAY }
}

/// Returns the kind of the scalar that the input starts with, by its first byte.
#[inline(always)]
fn kind_of_scalar(bytes: &[u8]) -> u32
    ensures { (text rest : List ℕ) → IsScalar text → bytes.now ≡ text ++ rest
        → IsScalarOf result text }
{
    match bytes.split_first() {
        Some((b'"', _)) => JSON_STRING,
        Some((b'n', _)) => JSON_NULL,
        Some((b'f', _)) => JSON_FALSE,
        Some((b't', _)) => JSON_TRUE,
        _ => JSON_NUMBER,
    }
}

/// Skips a value without nested values, and writes its node.
#[inline(always)]
fn put_scalar<'i>(
    size: usize,
    index: usize,
    bytes: &'i [u8],
    nodes: &mut [JsonNode],
) -> Option<(usize, &'i [u8])>
    requires { index + length bytes.now ≤ size }
    ensures rest { MatchOption result (NoMatchAtStart IsScalar bytes.now)
        (λ r. RestAfter IsScalar (ExtendsNumberOf bytes.now) bytes.now r.1.now) }
    ensures nodes { IfSome result (λ r. WritesNodes ScalarNodes size index bytes.now r.1.now r.0
        nodes.old nodes.new) }
{
    let rest = skip_scalar(bytes)?;
    let next = index + 1;
    let node = JsonNode {
        kind: kind_of_scalar(bytes),
        start: size - bytes.len(),
        end: size - rest.len(),
        next,
    };
    put(node, index, nodes);
    Some((next, rest))
}

/// Skips a name and its colon, and writes the node of the name. Of an array it skips nothing.
#[inline(always)]
fn put_name<'i>(
    keyed: bool,
    size: usize,
    index: usize,
    bytes: &'i [u8],
    nodes: &mut [JsonNode],
) -> Option<(usize, &'i [u8])>
    requires { index + length bytes.now ≤ size }
    ensures rest { MatchOption result (NoMatchAtStart (IsName keyed) bytes.now)
        (λ r. RestAfter (IsName keyed) NoByte bytes.now r.1.now) }
    ensures nodes { IfSome result (λ r. WritesKey keyed size index bytes.now r.1.now r.0
        nodes.old nodes.new) }
{
    if keyed {
        let start = skip_whitespace(bytes);
        let end = skip_string(start)?;
        let rest = skip_byte(b':', skip_whitespace(end))?;
        let next = index + 1;
        let node = JsonNode {
            kind: JSON_NAME,
            start: size - start.len(),
            end: size - end.len(),
            next,
        };
        put(node, index, nodes);
        Some((next, rest))
    } else {
        Some((index, bytes))
    }
}

/// Skips the items and the closing bracket, from before the first item, and writes their nodes.
#[cycle(nesting)]
#[inline(never)]
fn put_items<'i>(
    keyed: bool,
    level: usize,
    size: usize,
    index: usize,
    bytes: &'i [u8],
    nodes: &mut [JsonNode],
) -> Option<(usize, &'i [u8])>
    requires { index + length bytes.now ≤ size }
    ensures rest { MatchOption result (NoMatchAtStart (IsItemsTail keyed (IsValue level)) bytes.now)
        (λ r. RestAfter (IsItemsTail keyed (IsValue level)) NoByte bytes.now r.1.now) }
    ensures nodes { IfSome result (λ r. WritesNodes (ItemsNodes keyed (ValueNodes level)) size index
        bytes.now r.1.now r.0 nodes.old nodes.new) }
{
    let mut rest = bytes;
    let mut count = index;
    'items: loop {
        let (first, named) = put_name(keyed, size, count, rest, nodes)?;
        let (next, item) = put_value(level, size, first, skip_whitespace(named), nodes)?;
        let ahead = skip_whitespace(item);
        match skip_closing(keyed, ahead) {
            Some(end) => return Some((next, end)),
            None => {
                rest = skip_byte(b',', ahead)?;
                count = next;
            }
        }
    }
}

/// Skips everything after an opening bracket, and writes its nodes.
#[cycle(nesting)]
#[inline(always)]
fn put_inside<'i>(
    keyed: bool,
    level: usize,
    size: usize,
    index: usize,
    bytes: &'i [u8],
    nodes: &mut [JsonNode],
) -> Option<(usize, &'i [u8])>
    requires { index + length bytes.now ≤ size }
    ensures rest { MatchOption result
        (NoMatchAtStart (IsNestedTail keyed (IsValue level)) bytes.now)
        (λ r. RestAfter (IsNestedTail keyed (IsValue level)) NoByte bytes.now r.1.now) }
    ensures nodes { IfSome result (λ r. WritesNodes (TailNodes keyed (ValueNodes level)) size index
        bytes.now r.1.now r.0 nodes.old nodes.new) }
{
    match skip_empty(keyed, bytes) {
        Some(rest) => Some((index, rest)),
        None => put_items(keyed, level, size, index, bytes, nodes),
    }
}

/// Skips the longest value, and writes its nodes.
#[cycle(nesting)]
#[inline(always)]
fn put_value<'i>(
    level: usize,
    size: usize,
    index: usize,
    bytes: &'i [u8],
    nodes: &mut [JsonNode],
) -> Option<(usize, &'i [u8])>
    requires { index + length bytes.now ≤ size }
    ensures rest { MatchOption result (NoMatchAtStart (IsValue level) bytes.now)
        (λ r. RestAfter (IsValue level) (ExtendsNumberOf bytes.now) bytes.now r.1.now) }
    ensures nodes { IfSome result
        (λ r. WritesNodes (ValueNodes level) size index bytes.now r.1.now r.0
        nodes.old nodes.new) }
{
    match skip_opening(bytes) {
        Some((keyed, inside)) => {
            if level == 0 {
                return None;
            }
            let (next, rest) = put_inside(keyed, level - 1, size, index + 1, inside, nodes)?;
            let node = JsonNode {
                kind: kind_of_nested(keyed),
                start: size - bytes.len(),
                end: size - rest.len(),
                next,
            };
            put(node, index, nodes);
            Some((next, rest))
        }
        None => put_scalar(size, index, bytes, nodes),
    }
}

/// Writes the nodes of a JSON text whose arrays and objects are nested at most `level` deep into
/// the first entries of `nodes`, and returns how many there are. If there are more than entries,
/// the first of them are written. Other entries are unchanged. So a result of at most
/// `nodes.len()` means that all nodes are there, and a larger one is the required size.
///
/// Reads each byte once, except for whitespace. Does not allocate. Each level uses frames of the
/// stack, so `level` must not exceed what the stack has room for. Bytes of 128 and above are not
/// examined: the text is JSON if it is UTF-8.
///
/// Returns `None` if and only if `text` is not such a text; then the contents of `nodes` are
/// unspecified.
///
/// ```
/// use format_json_extents::node::{JSON_ARRAY, JSON_NAME, JSON_OBJECT, NO_NODE};
/// use format_json_extents::nodes::write_nodes;
///
/// let text = b"{\"a\": [1, 2], \"b\": null}".as_slice();
/// let mut nodes = [NO_NODE; 8];
/// assert_eq!(rt; write_nodes(2, text, &mut nodes), Some(7));
/// assert!(rt; nodes[0].kind == JSON_OBJECT && nodes[0].next == 7);
/// assert!(rt; nodes[1].kind == JSON_NAME && nodes[1].start == 1 && nodes[1].end == 4);
/// // The array has two nodes in it, and the name `b` follows.
/// assert!(rt; nodes[2].kind == JSON_ARRAY && nodes[2].next == 5);
/// assert_eq!(rt; write_nodes(2, text, &mut []), Some(7));
/// assert_eq!(rt; write_nodes(1, text, &mut nodes), None);
/// ```
pub fn write_nodes(level: usize, text: &[u8], nodes: &mut [JsonNode]) -> Option<usize>
    ensures text { MatchOption result (IsText level text.now → ⊥) (λ count. IsText level text.now) }
    ensures nodes { IfSome result (λ count. HasNodes level text.now count nodes.old nodes.new) }
    ensures size { length nodes.new ≡ length nodes.old }
    ensures standard { IsUtf8 text.now → MatchOption result (IsTextByStandard level text.now → ⊥)
        (λ count. IsTextByStandard level text.now) }
{
    let start = skip_whitespace(text);
    let (count, rest) = put_value(level, text.len(), 0, start, nodes)?;
    if skip_whitespace(rest).is_empty() {
        Some(count)
    } else {
        None
    }
}
