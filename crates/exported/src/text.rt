//! Lines and columns.

ghost use Rattle.std.specs.Prelude.{◌≡◌, take};
ghost use Rattle.std.specs.Str.{IsUtf8, chars};
ghost use Rattle.winnow.specs.Position.{IsPosition};
ghost use Rattle.exported.specs.Code.{done};

pub mod double;

use crate::code::DONE;
use winnow::stream::position_in;

/// A place in a text, as a reader of the text would say it.
#[repr(C)]
#[derive(Clone, Copy, Drop)]
pub struct Position {
    /// The number of the line, from 1 on.
    pub line: usize,
    /// The number of the column, from 1 on; a column is a character.
    pub column: usize,
}

/// Returns the first `offset` bytes, or all.
fn before(bytes: &[u8], offset: usize) -> &[u8]
    ensures { result.now ≡ take offset bytes.now }
{
    bytes.get(..offset).unwrap_or(bytes)
}

/// Computes the line and the column of the position after the first `offset` bytes. Bytes after it
/// are not read.
///
/// This is proved if those bytes are UTF-8, and otherwise only tested. Bytes that are not UTF-8
/// count as the replacement characters that are printed for them, and an offset after the end
/// counts as the end.
///
/// # Safety
///
/// `bytes` must be valid for reads of `bytes_length` bytes, which must not change during the call,
/// and `out` must be valid for writes of one position. They must not overlap. The call needs 16 KiB
/// of stack.
#[unsafe(no_mangle)]
pub extern "C" fn exported_text_position(bytes: &[u8], offset: usize, out: &mut Position) -> u32
    ensures place { IsUtf8 (take offset bytes.now)
        → IsPosition (chars (take offset bytes.now)) out.new.line out.new.column }
    ensures codes { result ≡ done }
{
    let read = before(bytes, offset);
    let found = position_in(read, read.len());
    *out = Position {
        line: found.line,
        column: found.column,
    };
    DONE
}
