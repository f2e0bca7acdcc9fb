//! Documents from text and from bytes.
ghost use Rattle.std.specs.Prelude.{◌≡◌, [], IfErr, IfOk};
ghost use Rattle.std.specs.Str.{IsUtf8};
ghost use Rattle.format_toml_document.specs.Fault.{IsBroken, IsDocument, IsErrorOf};

use crate::fault::{TomlError, fault_of_build, fault_of_bytes, fault_of_text};
use format_parts::faults::is_out_of_memory;
use format_toml::lines::parse_lines;
use format_toml_tree::build::build;
use format_toml_tree::tree::Tree;
use format_toml_tree::value::Item;
use std::alloc::Allocator;
use std::str;

/// A place for the statements of the lines of a text, from which their [`Tree`] borrows. Lines that
/// are blank or have only a comment take no memory.
///
/// ```
/// use format_toml_document::{Document, from_text};
///
/// let mut document = Document::new(alloc);
/// assert!(rt; from_text(alloc, 1, "a = 1", &mut document).is_ok());
/// assert!(rt; from_text(alloc, 1, "a = 2", &mut document).is_ok());
/// ```
#[derive(Drop)]
pub struct Document<A: Allocator> {
    lines: Vec<Item<A>, A>,
}

impl<A: Allocator + Copy> Document<A> {
    /// Returns an empty document, without allocating.
    pub fn new(alloc: A) -> Document<A>
        ensures { result.lines.items ≡ [] }
    {
        Document {
            lines: Vec::new(alloc),
        }
    }
}

/// Parses a TOML document and returns its tree, which borrows from the lines that are put into
/// `document`. Its tables and arrays are nested at most `level` deep: `[a]`, `a.b = 1` and `a = {}`
/// make a table at depth 1, `[[a]]` an array at depth 1 and its tables at depth 2, and `a.b.c = []`
/// an array at depth 3. Each level uses some of the stack: up to
/// [`SAFE_DEPTH`](crate::SAFE_DEPTH) two megabytes suffice.
///
/// If the syntax is invalid, the [`TomlError`] gives the first position at which no document
/// continues, the input that is expected there, and what is not closed. This error comes first:
/// only if the syntax of the whole text is valid, the [`TomlError`] gives the first line that the
/// standard rejects because of those before it, or that makes a table or an array that is nested
/// too deep, and why. Or memory allocation failed. A second pass
/// over the text finds the position. A byte order mark is an error, at the start too.
///
/// ```
/// use format_toml_document::{Document, Expected, TomlError, from_text};
///
/// let mut document = Document::new(alloc);
/// assert!(rt; matches!(
///     from_text(alloc, 1, "[a]\nb = 2\n", &mut document),
///     Ok(tree) if tree.root().len() == 1));
/// let fault = from_text(alloc, 1, "[a]\nb 2\n", &mut document);
/// assert!(rt; matches!(fault, Err(TomlError::Unexpected { at, expected, .. })
///     if at.line == 2 && at.column == 3 && expected == Expected::EqualsSign));
/// ```
pub fn from_text<'l, A: Allocator + Copy>(
    alloc: A,
    level: usize,
    text: &str,
    document: &'l mut Document<A>,
) -> Result<Tree<'l, A>, TomlError>
    ensures tree { IfOk result (λ tree. IsDocument A level text.now tree) }
    ensures fault { IfErr result (λ fault. IsErrorOf A level text.now fault) }
{
    match parse_lines(alloc, level, text) {
        Ok(lines) => document.lines = lines,
        Err(fault) => {
            if is_out_of_memory(&fault) {
                return Err(TomlError::OutOfMemory);
            }
            return Err(fault_of_text(alloc, level, text));
        }
    }
    match build(alloc, level, document.lines.as_slice()) {
        Ok(tree) => Ok(tree),
        Err(fault) => Err(fault_of_build(alloc, level, text, fault)),
    }
}

/// Like [`from_text`], for bytes, which must be UTF-8. If they are not UTF-8, the [`TomlError`]
/// gives the end of the longest prefix that is.
///
/// ```
/// use format_toml_document::{Document, TomlError, from_bytes};
///
/// let mut document = Document::new(alloc);
/// assert!(rt; from_bytes(alloc, 1, b"a = '\xc3\xa9'\n", &mut document).is_ok());
/// let fault = from_bytes(alloc, 1, b"\na = '\xe9'\n", &mut document);
/// assert!(rt; matches!(fault, Err(TomlError::NotUtf8 { at }) if at.line == 2 && at.column == 6));
/// ```
pub fn from_bytes<'l, A: Allocator + Copy>(
    alloc: A,
    level: usize,
    bytes: &[u8],
    document: &'l mut Document<A>,
) -> Result<Tree<'l, A>, TomlError>
    ensures tree { IfOk result (λ tree. IsUtf8 bytes.now × IsDocument A level bytes.now tree) }
    ensures fault { IfErr result (λ fault. IsErrorOf A level bytes.now fault) }
    ensures broken { (IsUtf8 bytes.now → ⊥) → IfErr result (λ fault. IsBroken bytes.now fault) }
{
    match str::from_utf8(bytes) {
        Ok(text) => from_text(alloc, level, text, document),
        Err(error) => Err(fault_of_bytes(bytes, error.valid_up_to())),
    }
}
