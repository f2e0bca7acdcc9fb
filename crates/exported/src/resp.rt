//! Replies of Redis.

ghost use Rattle.std.specs.Prelude.{◌≡◌, ◌≤◌, ◌<◌, ◌⊎◌, ◌↔◌, length};
ghost use Rattle.format_resp.specs.Extents.{IsExtentOf};
ghost use Rattle.format_resp.specs.declared.extent.Reason.TheVariants as reasons;
ghost use Rattle.exported.specs.Code.{done, incomplete, invalid, max_depth_too_large, no_memory};
ghost use Rattle.exported.specs.Code.{out_of_range, supported_depth, too_deep};
ghost use Rattle.exported.specs.Extent.{TellsEnd, extent_of};
ghost use Rattle.exported.specs.Resp.{IsCodeOf, IsIncomplete, Rejects, ShowsReply, TellsReply};
ghost use Rattle.exported.specs.Resp.{no_reply, protocol_of};

pub mod command;
pub mod extent;
pub mod nodes;
pub mod places;

use crate::code::{
    DONE, INCOMPLETE, INVALID, MAX_DEPTH_TOO_LARGE, NO_MEMORY, OUT_OF_RANGE, TOO_DEEP,
};
use crate::json::MAX_DEPTH;
use crate::resp::extent::{extent_at, state_at};
use crate::resp::places::reply_at;
use crate::span::{NOWHERE, Span};
use format_resp::bounded::bounded_length;
use format_resp::extent::Reason;
pub use format_resp::node::{
    RESP_ARRAY, RESP_ATTRIBUTES, RESP_BIG_NUMBER, RESP_BOOLEAN, RESP_BULK, RESP_BULK_ERROR,
    RESP_DOUBLE, RESP_ERROR, RESP_INTEGER, RESP_MAP, RESP_NULL, RESP_NULL_ARRAY, RESP_NULL_BULK,
    RESP_PUSH, RESP_SET, RESP_SIMPLE, RESP_VERBATIM,
};
use format_resp::read::read_reply;
use format_resp::reply::Protocol;
use std::alloc::Global;
use winnow::error::ParserError;
use winnow::stream::{Partial, StreamIsPartial};

/// A reply.
#[repr(C)]
#[derive(Clone, Copy, Drop)]
pub struct RespValue {
    /// The kind of the reply: one of the constants from `RESP_SIMPLE` to `RESP_ATTRIBUTES`.
    pub kind: u32,
    /// The number of an integer; 1 for true; 0 otherwise.
    pub number: i64,
    /// The number of elements of an array, a set or a push; of a map or attributes the number of
    /// all replies in them; 0 otherwise.
    pub elements: usize,
    /// The bytes of a string, an error, a double or a big number, or those of the elements, which
    /// are consecutive replies; zeros otherwise.
    pub span: Span,
    /// How many bytes the reply has.
    pub length: usize,
    /// The offset of the error in bytes; 0 otherwise.
    pub error_offset: usize,
}

/// The state of a search for the end of a reply in input that arrives in chunks. Only the functions
/// of this library may interpret its fields. All zeros is the initial state; start from it for each
/// reply.
#[repr(C)]
#[derive(Clone, Copy, Drop)]
pub struct RespReplyState {
    /// The part that is expected next: 0 in the initial state, 1 for a line, 2 for the bytes of a
    /// string, 3 for those of a verbatim string.
    pub due: usize,
    /// How many bytes were passed.
    pub passed: usize,
    /// The number of bytes after the next one that are not part of a line ending.
    pub sought: usize,
    /// How many bytes the string has.
    pub bulk: usize,
    /// The number of expected replies, its lower 64 bits.
    pub low: usize,
    /// The upper 64 bits of that number.
    pub high: usize,
}

/// The reply of nothing.
pub(crate) const NONE: RespValue = RespValue {
    kind: RESP_SIMPLE,
    number: 0,
    elements: 0,
    span: NOWHERE,
    length: 0,
    error_offset: 0,
};

/// Returns the version of the protocol: 3 stands for RESP3, another number for RESP2.
pub(crate) fn version(protocol: u32) -> Protocol
    ensures { result ≡ protocol_of protocol }
{
    if protocol == 3 {
        Protocol::Resp3
    } else {
        Protocol::Resp2
    }
}

/// Returns the code of a reason.
pub(crate) fn code_of(reason: Reason) -> u32
    ensures { IsCodeOf reason result }
{
    match reason {
        Reason::Malformed => INVALID,
        Reason::TooLarge => OUT_OF_RANGE,
        Reason::TooDeep => TOO_DEEP,
    }
}

/// Parses the reply, or writes the offset at which it is rejected.
fn read(alloc: Global, protocol: u32, bytes: &[u8], max_depth: usize, out: &mut RespValue) -> u32
    ensures { TellsReply (protocol_of protocol) max_depth bytes.now result out.new }
{
    *out = NONE;
    if max_depth > MAX_DEPTH {
        return MAX_DEPTH_TOO_LARGE;
    }
    let protocol = version(protocol);
    let mut whole = Partial::new(bytes);
    whole.complete();
    match read_reply(alloc, protocol, max_depth, &mut whole) {
        Ok(found) => {
            *out = reply_at(bytes, &found, whole.into_inner().len());
            DONE
        }
        Err(error) => {
            if ParserError::<Partial<&[u8]>>::is_memory(&error) {
                return NO_MEMORY;
            }
            match bounded_length(protocol, max_depth, bytes) {
                Err(invalid) => {
                    *out = RespValue {
                        error_offset: invalid.offset,
                        ..NONE
                    };
                    code_of(invalid.reason)
                }
                Ok(None) => INCOMPLETE,
                Ok(Some(_length)) => unreachable!(),
            }
        }
    }
}

/// Parses the Redis reply at the start of `bytes`, whose aggregates are nested at most `max_depth`
/// deep. `protocol` is 3 for RESP3, the third version of the protocol; with any other number it is
/// RESP2, the second, which has only the kinds up to `RESP_NULL_ARRAY`.
///
/// To parse the elements of an aggregate, call the function with the bytes in its span, and then
/// with those after each element. So a walk through all levels reads each byte once for each level
/// that contains it; `exported_resp_nodes` writes all levels in one pass.
///
/// An integer may have a sign and leading zeros, a size leading zeros. `-1` is the size of a null.
/// Streamed strings and aggregates are invalid.
///
/// `DONE`: the reply is written.
///
/// A call holds up to 32 bytes of memory for each byte of the reply, and 2 KiB for each level of
/// aggregates that has started.
///
/// # Errors
///
/// `bytes` does not start with a reply. After these errors only the offset is written: that of the
/// first part of the reply that is rejected, which is the line of a nested reply, or the bytes of a
/// string with their line ending.
///
/// `INVALID`: that part is malformed. Or the reply is incomplete; then the offset is the length of
/// `bytes`.
///
/// `OUT_OF_RANGE`: that line has an integer or a size that does not fit a signed 64-bit integer, or
/// an aggregate has too many parts.
///
/// `TOO_DEEP`: that line is the one of an aggregate that is nested deeper than `max_depth`.
///
/// After these errors only zeros are written:
///
/// `MAX_DEPTH_TOO_LARGE`: `max_depth` is above 512.
///
/// `NO_MEMORY`.
///
/// # Safety
///
/// `bytes` must be valid for reads of `bytes_length` bytes, which must not change during the call,
/// and `out` must be valid for writes of one reply. They must not overlap. The call needs 512 KiB
/// of stack.
#[unsafe(no_mangle)]
pub extern "C" fn exported_resp_reply(
    alloc: Global,
    bytes: &[u8],
    protocol: u32,
    max_depth: usize,
    out: &mut RespValue,
) -> u32
    ensures reply { result ≡ done → ShowsReply (protocol_of protocol) max_depth bytes.now out.new }
    ensures refused { result ≡ invalid → Rejects (protocol_of protocol) max_depth bytes.now
        reasons.Malformed out.new.error_offset
        ⊎ (IsIncomplete (protocol_of protocol) max_depth bytes.now
        × (out.new.error_offset ≡ length bytes.now)) }
    ensures large { result ≡ out_of_range → Rejects (protocol_of protocol) max_depth bytes.now
        reasons.TooLarge out.new.error_offset }
    ensures nested { result ≡ too_deep → Rejects (protocol_of protocol) max_depth bytes.now
        reasons.TooDeep out.new.error_offset }
    ensures deep { (result ≡ max_depth_too_large) ↔ (supported_depth < max_depth) }
    ensures none { (result ≡ done → ⊥) → out.new ≡ no_reply out.new.error_offset }
    ensures nowhere { (result ≡ max_depth_too_large) ⊎ (result ≡ no_memory)
        → out.new.error_offset ≡ 0 }
    ensures codes { (result ≡ done) ⊎ ((result ≡ invalid) ⊎ ((result ≡ out_of_range)
        ⊎ ((result ≡ too_deep) ⊎ ((result ≡ max_depth_too_large) ⊎ (result ≡ no_memory))))) }
{
    let code = read(alloc, protocol, bytes, max_depth, out);
    if code == INCOMPLETE {
        *out = RespValue {
            error_offset: bytes.len(),
            ..NONE
        };
        return INVALID;
    }
    code
}

/// Parses the same reply from partial input. Its result is also that of every continuation.
///
/// `DONE`: as for complete input.
///
/// `INCOMPLETE`: `bytes` does not start with a reply yet: its last line has not ended, or bytes of
/// a string are missing. Zeros are written.
///
/// Each call parses from the first byte, and holds as much memory as a call for a complete reply.
///
/// # Errors
///
/// `INVALID`, `OUT_OF_RANGE`, `TOO_DEEP`: as for complete input, regardless of what follows. An
/// invalid line is rejected at its end.
///
/// `MAX_DEPTH_TOO_LARGE`, `NO_MEMORY`: as for complete input.
///
/// # Safety
///
/// `bytes` must be valid for reads of `bytes_length` bytes, which must not change during the call,
/// and `out` must be valid for writes of one reply. They must not overlap. The call needs 512 KiB
/// of stack.
#[unsafe(no_mangle)]
pub extern "C" fn exported_resp_reply_partial(
    alloc: Global,
    bytes: &[u8],
    protocol: u32,
    max_depth: usize,
    out: &mut RespValue,
) -> u32
    ensures reply { result ≡ done → ShowsReply (protocol_of protocol) max_depth bytes.now out.new }
    ensures refused { result ≡ invalid → Rejects (protocol_of protocol) max_depth bytes.now
        reasons.Malformed out.new.error_offset }
    ensures large { result ≡ out_of_range → Rejects (protocol_of protocol) max_depth bytes.now
        reasons.TooLarge out.new.error_offset }
    ensures nested { result ≡ too_deep → Rejects (protocol_of protocol) max_depth bytes.now
        reasons.TooDeep out.new.error_offset }
    ensures incomplete { result ≡ incomplete
        → IsIncomplete (protocol_of protocol) max_depth bytes.now }
    ensures deep { (result ≡ max_depth_too_large) ↔ (supported_depth < max_depth) }
    ensures none { (result ≡ done → ⊥) → out.new ≡ no_reply out.new.error_offset }
    ensures nowhere { (result ≡ incomplete) ⊎ ((result ≡ max_depth_too_large)
        ⊎ (result ≡ no_memory)) → out.new.error_offset ≡ 0 }
    ensures codes { (result ≡ done) ⊎ ((result ≡ invalid) ⊎ ((result ≡ out_of_range)
        ⊎ ((result ≡ too_deep) ⊎ ((result ≡ max_depth_too_large)
        ⊎ ((result ≡ incomplete) ⊎ (result ≡ no_memory)))))) }
{
    read(alloc, protocol, bytes, max_depth, out)
}

/// Finds the end of a Redis reply in input that arrives in chunks. `protocol` is as for
/// `exported_resp_reply`, and the same in all calls for a reply.
///
/// No call looks again at bytes that an earlier call scanned, so all calls for a reply take time
/// linear in its length. The function does not allocate. To obtain the reply, pass its bytes to
/// `exported_resp_reply`, which also checks the nesting depth; here it is not checked.
///
/// For the first call, `state` must be all zeros. Each further call for the same reply must have
/// the state that the previous call left, and the bytes of the previous call followed by more
/// bytes.
///
/// `DONE`: `bytes` starts with a reply, whose length is written. It starts with no other reply,
/// regardless of what follows. Reset the state to zeros for the next reply.
///
/// `INCOMPLETE`: `bytes` does not start with a reply yet: its last line has not ended, or bytes of
/// a string are missing. 0 is written.
///
/// If `state` belongs to other bytes or was modified, the result may be wrong, but nothing outside
/// `bytes` is read, and the length or the offset that is written is at most the number of bytes.
///
/// # Errors
///
/// `bytes` does not start with a reply, regardless of what follows. An invalid line is rejected at
/// its end. The offset of the first part that is rejected is written, as by `exported_resp_reply`.
/// The state is unspecified.
///
/// `INVALID`: that part is malformed.
///
/// `OUT_OF_RANGE`: that line has a number that is too large.
///
/// # Safety
///
/// `state` must be valid for reads and writes of one state, and `out` for writes of one length.
/// `bytes` must be valid for reads of `bytes_length` bytes, which must not change during the call.
/// None of these may overlap. The call needs 16 KiB of stack.
#[unsafe(no_mangle)]
pub extern "C" fn exported_resp_extent(
    state: &mut RespReplyState,
    bytes: &[u8],
    protocol: u32,
    out: &mut usize,
) -> u32
    ensures told { IsExtentOf (protocol_of protocol) (extent_of state.old) bytes.now
        → TellsEnd (protocol_of protocol) bytes.now result out.new state.new }
    ensures none { result ≡ incomplete → out.new ≡ 0 }
    ensures within { out.new ≤ length bytes.now }
    ensures codes { (result ≡ done) ⊎ ((result ≡ incomplete) ⊎ ((result ≡ invalid)
        ⊎ (result ≡ out_of_range))) }
{
    *out = 0;
    let mut extent = extent_at(*state);
    let answer = extent.advance(version(protocol), bytes);
    *state = state_at(extent);
    match answer {
        Ok(Some(length)) => {
            *out = length;
            DONE
        }
        Ok(None) => INCOMPLETE,
        Err(invalid) => {
            *out = invalid.offset;
            match invalid.reason {
                Reason::TooLarge => OUT_OF_RANGE,
                _ => INVALID,
            }
        }
    }
}
