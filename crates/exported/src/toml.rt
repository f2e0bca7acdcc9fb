//! Documents of TOML.

ghost use Rattle.std.specs.Prelude.{◌≡◌, ◌<◌, ◌≤◌, ◌⊎◌, ◌↔◌, drop, length, take};
ghost use Rattle.exported.specs.Code.{done, invalid, invalid_utf8, max_depth_too_large, no_memory};
ghost use Rattle.exported.specs.Code.{supported_depth};
ghost use Rattle.exported.specs.Code.{buffer_too_small};
ghost use Rattle.exported.specs.Toml.{HasNoError, HasNoSizes, IsNoText, IsRefusedDocument};
ghost use Rattle.exported.specs.Toml.{ShowsDocument, ShowsTree, WantsDocument, WantsTree, code_of};
ghost use Rattle.exported.specs.Toml.{fault_of, place_of, start_or, unclosed_of};

pub mod date_times;
pub mod errors;
pub mod find;

use crate::code::{BUFFER_TOO_SMALL, DONE, INVALID, INVALID_UTF8, MAX_DEPTH_TOO_LARGE, NO_MEMORY};
use crate::json::MAX_DEPTH;
use errors::{TOML_ERROR_NONE, number_of_expected, number_of_reason};
use format_toml_document::{Document, Location, TomlError, Tree, from_bytes};
pub use format_toml_nodes::node::{
    Span, TOML_ARRAY, TOML_BOOLEAN, TOML_FLOAT, TOML_INTEGER, TOML_LOCAL_DATE,
    TOML_LOCAL_DATE_TIME, TOML_LOCAL_TIME, TOML_OFFSET_DATE_TIME, TOML_STRING, TOML_TABLE,
    TomlNode, TomlValue,
};
use format_toml_nodes::nodes::{size_of, write_nodes};
use std::alloc::Global;

/// The sizes of a document, or an error.
#[repr(C)]
#[derive(Clone, Copy, Drop)]
pub struct TomlResult {
    /// How many nodes there are.
    pub nodes: usize,
    /// How many bytes their names and texts have together.
    pub text: usize,
    /// The offset of the error in bytes; 0 otherwise.
    pub error_offset: usize,
    /// The offset of the innermost string, array or inline table that is not closed before the
    /// error. It is `error_offset` if there is none.
    pub unclosed_offset: usize,
    /// The error; `TOML_ERROR_NONE` if there is none.
    pub error: u32,
}

/// The document of nothing.
const NONE: TomlResult = TomlResult {
    nodes: 0,
    text: 0,
    error_offset: 0,
    unclosed_offset: 0,
    error: TOML_ERROR_NONE,
};

/// Returns the offset of the unclosed string or bracket, or that of the error.
fn start_or(at: Location, unclosed: Option<Location>) -> usize
    ensures { result ≡ start_or at unclosed }
{
    match unclosed {
        Some(start) => start.offset,
        None => at.offset,
    }
}

/// Writes an error and its offsets.
fn write_fault(fault: TomlError, out: &mut TomlResult) -> u32
    ensures code { result ≡ code_of fault }
    ensures place { out.new.error_offset ≡ place_of fault }
    ensures unclosed { out.new.unclosed_offset ≡ unclosed_of fault }
    ensures fault { out.new.error ≡ fault_of fault }
    ensures nowhere { result ≡ no_memory → HasNoError out.new }
    ensures sizes { HasNoSizes out.new }
{
    let (place, start, number, code) = match fault {
        TomlError::Unexpected {
            at,
            expected,
            unclosed,
        } => (
            at.offset,
            start_or(at, unclosed),
            number_of_expected(expected),
            INVALID,
        ),
        TomlError::Invalid { at, why } => (at.offset, at.offset, number_of_reason(why), INVALID),
        TomlError::NotUtf8 { at } => (at.offset, at.offset, TOML_ERROR_NONE, INVALID_UTF8),
        TomlError::OutOfMemory => (0, 0, TOML_ERROR_NONE, NO_MEMORY),
    };
    *out = TomlResult {
        error_offset: place,
        unclosed_offset: start,
        error: number,
        ..NONE
    };
    code
}

/// Writes the nodes of a tree, where there is room.
fn write_tree<'t>(
    tree: &Tree<'t, Global>,
    text: &mut [u8],
    nodes: &mut [TomlNode],
    out: &mut TomlResult,
) -> u32
    ensures nowhere { HasNoError out.new }
    ensures sized { WantsTree tree.now out.new }
    ensures tree { result ≡ done → ShowsTree tree.now (take out.new.text text.new)
        (take out.new.nodes nodes.new) }
    ensures small { result ≡ buffer_too_small
        → (length nodes.old < out.new.nodes) ⊎ (length text.old < out.new.text) }
    ensures kept { result ≡ buffer_too_small → (nodes.new ≡ nodes.old) × (text.new ≡ text.old) }
    ensures room { result ≡ done → (out.new.nodes ≤ length nodes.old)
        × (out.new.text ≤ length text.old) }
    ensures behind { (drop out.new.text text.new ≡ drop out.new.text text.old)
        × (drop out.new.nodes nodes.new ≡ drop out.new.nodes nodes.old) }
    ensures codes { (result ≡ done) ⊎ (result ≡ buffer_too_small) }
{
    let size = size_of(tree);
    *out = TomlResult {
        nodes: size.nodes,
        text: size.text,
        ..NONE
    };
    if write_nodes(tree, size, text, nodes) {
        DONE
    } else {
        BUFFER_TOO_SMALL
    }
}

/// Parses a document of TOML 1.0 (toml.io/en/v1.0.0) whose tables and arrays are nested at most
/// `max_depth` deep. `[a]` and `a.b = 1` nest a table in the root table, one level deep.
///
/// Where the standard leaves a choice, this follows most parsers: integers have 64 bits, and floats
/// are returned as text.
///
/// `DONE`: the nodes of the document are written into `nodes`, and the bytes of their names and
/// texts into `text`; the others are unchanged. A node is a table, an array or another value. Nodes
/// are in the order in which the document first mentions them. The first is the root table, and a
/// table or an array precedes its contents. Each node has the index of its parent, of its first
/// child and of its next sibling, so that a loop can walk them.
///
/// A call holds up to 600 bytes of memory for each byte of the document.
///
/// # Errors
///
/// `INVALID`: `bytes` is not a document. The reason and the offset are written. For a syntax error,
/// this is the first offset at which no document continues, or the end of the input, and the start
/// of the innermost string, array or inline table that is not closed is written. Syntax errors come
/// first. For a line that the standard forbids because of earlier lines, or that makes a table or
/// an array that is nested too deep, it is the start of that line. A byte order mark is an error.
///
/// `INVALID_UTF8`: `bytes` is not UTF-8. The length of the longest prefix that is UTF-8 is written.
///
/// `BUFFER_TOO_SMALL`: the document needs more nodes or more bytes than the buffers have. The
/// required numbers of both are written.
///
/// `MAX_DEPTH_TOO_LARGE`: `max_depth` is above 512.
///
/// `NO_MEMORY`.
///
/// After an error the buffers are unchanged, and all else is 0.
///
/// # Safety
///
/// `bytes` must be valid for reads of `bytes_length` bytes, which must not change during the call.
/// `text` must be valid for writes of `text_length` bytes, `nodes` for writes of `nodes_length`
/// entries, and `out` for writes of one document. None of these may overlap. The call needs 1 MiB
/// of stack.
#[unsafe(no_mangle)]
pub extern "C" fn exported_toml_document(
    alloc: Global,
    bytes: &[u8],
    max_depth: usize,
    text: &mut [u8],
    nodes: &mut [TomlNode],
    out: &mut TomlResult,
) -> u32
    ensures document { result ≡ done → ShowsDocument max_depth bytes.now
        (take out.new.text text.new) (take out.new.nodes nodes.new) }
    ensures small { result ≡ buffer_too_small → WantsDocument max_depth bytes.now out.new
        × ((length nodes.old < out.new.nodes) ⊎ (length text.old < out.new.text)) }
    ensures sized { result ≡ done → WantsDocument max_depth bytes.now out.new }
    ensures room { result ≡ done → (out.new.nodes ≤ length nodes.old)
        × (out.new.text ≤ length text.old) }
    ensures behind { result ≡ done → (drop out.new.text text.new ≡ drop out.new.text text.old)
        × (drop out.new.nodes nodes.new ≡ drop out.new.nodes nodes.old) }
    ensures kept { (result ≡ done → ⊥) → (nodes.new ≡ nodes.old) × (text.new ≡ text.old) }
    ensures nowhere { (result ≡ invalid → ⊥) → (result ≡ invalid_utf8 → ⊥)
        → HasNoError out.new }
    ensures sizes { (result ≡ done → ⊥) → (result ≡ buffer_too_small → ⊥) → HasNoSizes out.new }
    ensures refused { result ≡ invalid → IsRefusedDocument max_depth bytes.now out.new }
    ensures text { result ≡ invalid_utf8 → IsNoText max_depth bytes.now out.new }
    ensures deep { (result ≡ max_depth_too_large) ↔ (supported_depth < max_depth) }
    ensures codes { (result ≡ done) ⊎ ((result ≡ buffer_too_small) ⊎ ((result ≡ invalid)
        ⊎ ((result ≡ invalid_utf8) ⊎ ((result ≡ no_memory) ⊎ (result ≡ max_depth_too_large))))) }
{
    *out = NONE;
    if max_depth > MAX_DEPTH {
        return MAX_DEPTH_TOO_LARGE;
    }
    let mut document = Document::new(alloc);
    match from_bytes(alloc, max_depth, bytes, &mut document) {
        Ok(tree) => write_tree(&tree, text, nodes, out),
        Err(fault) => write_fault(fault, out),
    }
}
