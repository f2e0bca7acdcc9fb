//! Sets of bytes as tables, which are made once for a text.
ghost use Rattle.std.specs.Prelude.{◌≡◌, ◌≢◌};
ghost use Rattle.winnow.specs.ByteSet.{has_byte};
ghost use Rattle.readers.specs.Document.{IsNameByte};
ghost use Rattle.readers.specs.Pair.{IsKeyByte};
ghost use Rattle.readers.specs.Tables.{HasExactly};

use winnow::stream::ByteSet;

/// The bytes of a pair's key: ASCII letters and digits.
pub(super) fn key_bytes() -> ByteSet
    ensures { HasExactly IsKeyByte (has_byte result) }
{
    ByteSet::from_set(&(b'0'..=b'9', b'A'..=b'Z', b'a'..=b'z'))
}

/// The line feed.
pub(super) fn line_feed() -> ByteSet
    ensures { HasExactly (λ b. b ≡ 10) (has_byte result) }
{
    ByteSet::from_set(&b'\n')
}

/// Returns all bytes except those of `line_feed`, which has only the line feed.
pub(super) fn bytes_of_line(line_feed: ByteSet) -> ByteSet
    requires { HasExactly (λ b. b ≡ 10) (has_byte line_feed) }
    ensures { HasExactly (λ b. b ≢ 10) (has_byte result) }
{
    line_feed.complement()
}

/// The bytes of a section's name: all but `]` and a line feed.
fn name_bytes() -> ByteSet
    ensures { HasExactly IsNameByte (has_byte result) }
{
    ByteSet::from_set(&(b']', b'\n')).complement()
}

/// The bytes of sections' names, made once for all of a document's.
#[derive(Clone, Copy)]
pub(super) struct NameBytes {
    pub(super) set: ByteSet,
    ghost exact: { HasExactly IsNameByte (has_byte set) },
}

impl NameBytes {
    /// Asks for each of the 256 bytes.
    pub(super) fn new() -> NameBytes {
        NameBytes { set: name_bytes() }
    }
}
