//! All replies in a reply.

ghost use Rattle.std.specs.Prelude.{◌≡◌, ◌≤◌, ◌<◌, ◌⊎◌, ◌↔◌, length};
ghost use Rattle.format_resp.specs.Nodes.{HasNodes};
ghost use Rattle.format_resp.specs.declared.extent.Reason.TheVariants as reasons;
ghost use Rattle.exported.specs.Code.{buffer_too_small, done, incomplete, invalid};
ghost use Rattle.exported.specs.Code.{max_depth_too_large, out_of_range, supported_depth, too_deep};
ghost use Rattle.exported.specs.Resp.{IsIncomplete, Rejects, no_nodes, protocol_of, size_of};

use crate::code::{BUFFER_TOO_SMALL, DONE, INCOMPLETE, MAX_DEPTH_TOO_LARGE};
use crate::json::MAX_DEPTH;
use crate::resp::{code_of, version};
pub use format_resp::node::RespNode;
use format_resp::nodes::write_nodes;

/// The size of a reply as nodes.
#[repr(C)]
#[derive(Clone, Copy, Drop)]
pub struct RespNodesSize {
    /// How many nodes there are.
    pub count: usize,
    /// How many bytes the reply has.
    pub length: usize,
    /// The offset of the error in bytes; 0 otherwise.
    pub error_offset: usize,
}

/// No nodes, and the offset of an error.
fn none_at(error_offset: usize) -> RespNodesSize
    ensures { result ≡ no_nodes error_offset }
{
    RespNodesSize {
        count: 0,
        length: 0,
        error_offset,
    }
}

/// Finds the Redis reply at the start of `bytes`, as `exported_resp_reply_partial` does, and writes
/// all replies in it as nodes, in one pass and without allocating. `protocol` and `max_depth` are
/// as there.
///
/// The first node is that of the reply. The node of an aggregate is followed by those of its
/// elements, in the order of the bytes, each with all nodes in it. Each node has the index after
/// everything in it, so that a loop can skip an aggregate in one step.
///
/// `DONE`: the nodes are written, and their number and the length of the reply. Other entries of
/// `nodes` are unchanged.
///
/// `INCOMPLETE`: `bytes` does not start with a reply yet: its last line has not ended, or bytes of
/// a string are missing. Zeros are written, and the contents of `nodes` are unspecified.
///
/// Each call starts at the first byte; `exported_resp_extent` finds the end of a reply that arrives
/// in chunks. The time is linear in the bytes, at any depth.
///
/// # Errors
///
/// `BUFFER_TOO_SMALL`: the reply has more nodes than `nodes` has entries. The first are written,
/// and the number of all, with the length. So a call without entries returns the required number.
///
/// After the next three, `bytes` does not start with a reply, regardless of what follows. The
/// offset of the first part that is rejected is written, as by `exported_resp_reply`: a line, or
/// the bytes of a string. The contents of `nodes` are unspecified.
///
/// `INVALID`: that part is malformed.
///
/// `OUT_OF_RANGE`: that line has an integer or a size that does not fit a signed 64-bit integer, or
/// an aggregate has too many parts.
///
/// `TOO_DEEP`: that line is the one of an aggregate that is nested deeper than `max_depth`.
///
/// `MAX_DEPTH_TOO_LARGE`: `max_depth` is above 512. Zeros are written, and `nodes` is unchanged.
///
/// # Safety
///
/// `bytes` must be valid for reads of `bytes_length` bytes, which must not change during the call.
/// `nodes` must be valid for writes of `nodes_length` entries, and `out` for writes of one entry.
/// None of these may overlap. The call needs 512 KiB of stack.
#[unsafe(no_mangle)]
pub extern "C" fn exported_resp_nodes(
    bytes: &[u8],
    protocol: u32,
    max_depth: usize,
    nodes: &mut [RespNode],
    out: &mut RespNodesSize,
) -> u32
    ensures nodes { result ≡ done → HasNodes (protocol_of protocol) max_depth bytes.now
        (size_of out.new) nodes.old nodes.new × (out.new.count ≤ length nodes.old) }
    ensures small { result ≡ buffer_too_small → HasNodes (protocol_of protocol) max_depth bytes.now
        (size_of out.new) nodes.old nodes.new × (length nodes.old < out.new.count) }
    ensures incomplete { result ≡ incomplete
        → IsIncomplete (protocol_of protocol) max_depth bytes.now }
    ensures refused { result ≡ invalid → Rejects (protocol_of protocol) max_depth bytes.now
        reasons.Malformed out.new.error_offset }
    ensures large { result ≡ out_of_range → Rejects (protocol_of protocol) max_depth bytes.now
        reasons.TooLarge out.new.error_offset }
    ensures nested { result ≡ too_deep → Rejects (protocol_of protocol) max_depth bytes.now
        reasons.TooDeep out.new.error_offset }
    ensures kept { result ≡ max_depth_too_large → nodes.new ≡ nodes.old }
    ensures none { (result ≡ done → ⊥) → (result ≡ buffer_too_small → ⊥)
        → out.new ≡ no_nodes out.new.error_offset }
    ensures nowhere { (result ≡ done) ⊎ ((result ≡ buffer_too_small) ⊎ ((result ≡ incomplete)
        ⊎ (result ≡ max_depth_too_large))) → out.new.error_offset ≡ 0 }
    ensures deep { (result ≡ max_depth_too_large) ↔ (supported_depth < max_depth) }
    ensures codes { (result ≡ done) ⊎ ((result ≡ buffer_too_small) ⊎ ((result ≡ incomplete)
        ⊎ ((result ≡ invalid) ⊎ ((result ≡ out_of_range) ⊎ ((result ≡ too_deep)
        ⊎ (result ≡ max_depth_too_large)))))) }
{
    *out = none_at(0);
    if max_depth > MAX_DEPTH {
        return MAX_DEPTH_TOO_LARGE;
    }
    match write_nodes(version(protocol), max_depth, bytes, nodes) {
        Ok(Some(size)) => {
            *out = RespNodesSize {
                count: size.count,
                length: size.length,
                error_offset: 0,
            };
            if size.count <= nodes.len() {
                DONE
            } else {
                BUFFER_TOO_SMALL
            }
        }
        Ok(None) => INCOMPLETE,
        Err(refused) => {
            *out = none_at(refused.offset);
            code_of(refused.reason)
        }
    }
}
