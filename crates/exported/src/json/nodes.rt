//! All values of a JSON text.

ghost use Rattle.std.specs.Prelude.{◌≡◌, ◌≤◌, ◌<◌, ◌⊎◌, ◌↔◌, length};
ghost use Rattle.std.specs.Str.{IsUtf8};
ghost use Rattle.format_json_extents.specs.Standard.{IsTextByStandard};
ghost use Rattle.format_json_extents.specs.Value.{IsText};
ghost use Rattle.format_json_extents.specs.Nodes.{HasNodes};
ghost use Rattle.exported.specs.Code.{buffer_too_small, done, invalid, invalid_utf8};
ghost use Rattle.exported.specs.Code.{max_depth_too_large, supported_depth};

use crate::code::{BUFFER_TOO_SMALL, DONE, INVALID, INVALID_UTF8, MAX_DEPTH_TOO_LARGE};
use crate::json::MAX_DEPTH;
pub use format_json_extents::node::JsonNode;
use format_json_extents::nodes::write_nodes;

/// Checks a text as `exported_json_check` does, and writes all its values as nodes, in one pass and
/// without allocating.
///
/// There is a node for each value and for each name of a member, in the order of the text. An array
/// or an object is followed by its contents, and a name by its value. Each node has the index after
/// everything in it, so that a loop can skip an array or an object in one step.
///
/// `DONE`: the nodes are written, and their number. Other entries of `nodes` are unchanged.
///
/// # Errors
///
/// `BUFFER_TOO_SMALL`: the text has more nodes than `nodes` has entries. The first are written, and
/// the number of all. So a call without entries returns the required number. One entry for each
/// comma, colon, opening bracket and opening brace of the text, and one more, are always enough.
///
/// `INVALID`: the text is not a JSON text. 0 is written, and the contents of `nodes` are
/// unspecified. `exported_json_diagnose` reports where and why.
///
/// `INVALID_UTF8`: the text is not UTF-8. 0 is written, and `nodes` is unchanged.
///
/// `MAX_DEPTH_TOO_LARGE`: `max_depth` is above 512. 0 is written, and `nodes` is unchanged.
///
/// # Safety
///
/// `text` must be valid for reads of `text_length` bytes, which must not change during the call.
/// `nodes` must be valid for writes of `nodes_length` entries, and `out` for writes of one number.
/// None of these may overlap. The call needs 512 KiB of stack.
#[unsafe(no_mangle)]
pub extern "C" fn exported_json_nodes(
    text: &[u8],
    max_depth: usize,
    nodes: &mut [JsonNode],
    out: &mut usize,
) -> u32
    ensures nodes { result ≡ done → HasNodes max_depth text.now out.new nodes.old nodes.new
        × (out.new ≤ length nodes.old) }
    ensures small { result ≡ buffer_too_small → HasNodes max_depth text.now out.new nodes.old
        nodes.new × (length nodes.old < out.new) }
    ensures refused { result ≡ invalid → IsUtf8 text.now × (IsText max_depth text.now → ⊥) }
    ensures standard { max_depth ≤ supported_depth
        → ((result ≡ done) ⊎ (result ≡ buffer_too_small)) ↔ IsTextByStandard max_depth text.now }
    ensures text { result ≡ invalid_utf8 → IsUtf8 text.now → ⊥ }
    ensures kept { (result ≡ invalid_utf8) ⊎ (result ≡ max_depth_too_large)
        → nodes.new ≡ nodes.old }
    ensures none { (result ≡ invalid) ⊎ ((result ≡ invalid_utf8) ⊎ (result ≡ max_depth_too_large))
        → out.new ≡ 0 }
    ensures deep { (result ≡ max_depth_too_large) ↔ (supported_depth < max_depth) }
    ensures codes { (result ≡ done) ⊎ ((result ≡ buffer_too_small) ⊎ ((result ≡ invalid)
        ⊎ ((result ≡ invalid_utf8) ⊎ (result ≡ max_depth_too_large)))) }
{
    *out = 0;
    if max_depth > MAX_DEPTH {
        return MAX_DEPTH_TOO_LARGE;
    }
    if str::from_utf8(text).is_err() {
        return INVALID_UTF8;
    }
    match write_nodes(max_depth, text, nodes) {
        Some(count) => {
            *out = count;
            if count <= nodes.len() {
                DONE
            } else {
                BUFFER_TOO_SMALL
            }
        }
        None => INVALID,
    }
}
