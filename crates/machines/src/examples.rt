//! Machines in use: frames with a length, lines with quotes, and lists with brackets.
ghost use Rattle.std.specs.Prelude.{ℕ, Bool};
ghost use Rattle.machines.specs.Examples.{FrameText, LineText, ListText, not_quote, plain};
ghost use Rattle.machines.specs.Examples.{some_not_quote, some_plain};
ghost use Rattle.machines.specs.Grammar.{Scanned};

use crate::alt::Alt;
use crate::counted::Counted;
use crate::digits::{Decimal, Numeral};
use crate::extent::{advance, begin};
use crate::nested::{Nested, Pair};
use crate::seq::Seq;
use crate::sets::{Byte, ByteSet, OneOf, Run};
use crate::star::Star;
use crate::text::Text;

/// Returns the length in bytes of the frame at the start of `bytes`: the length of its data in
/// decimal digits, at most 4096, a colon, the data, and a comma. Returns `Ok(None)` if more bytes
/// are needed.
///
/// # Errors
///
/// The offset of the first byte with which no frame starts.
///
/// ```
/// use machines::examples::frame_len;
///
/// assert_eq!(rt; frame_len(b"5:hello,2:no,".as_slice()), Ok(Some(8)));
/// assert_eq!(rt; frame_len(b"5:hel".as_slice()), Ok(None));
/// assert_eq!(rt; frame_len(b"5:hello.".as_slice()), Err(7));
/// ```
pub fn frame_len(bytes: &[u8]) -> Result<Option<usize>, usize>
    ensures { Scanned FrameText bytes.now result }
{
    let length = Numeral {
        radix: Decimal,
        limit: 4096,
        mark: Byte(b':'),
    };
    let machine = Seq(Counted(length), Byte(b','));
    let mut extent = begin(&machine);
    advance(&machine, &mut extent, bytes)
}

/// The bytes of a line outside of quotes: all except quotes and newlines.
#[derive(Clone, Copy)]
pub struct Plain;

impl ByteSet for Plain {
    ghost within = { λ _. plain };

    ghost nonempty = { λ _. some_plain };

    #[inline(always)]
    fn has(&self, byte: u8) -> bool {
        byte != b'"' && byte != b'\n'
    }
}

/// The bytes in quotes: all except quotes.
#[derive(Clone, Copy)]
pub struct NotQuote;

impl ByteSet for NotQuote {
    ghost within = { λ _. not_quote };

    ghost nonempty = { λ _. some_not_quote };

    #[inline(always)]
    fn has(&self, byte: u8) -> bool {
        byte != b'"'
    }
}

/// Returns the length in bytes of the line at the start of `bytes`, with its newline. Newlines in
/// quotes do not end it. Returns `Ok(None)` if more bytes are needed.
///
/// # Errors
///
/// None: every byte continues some line.
///
/// ```
/// use machines::examples::line_len;
///
/// assert_eq!(rt; line_len(b"a,\"b\nc\"\nd\n".as_slice()), Ok(Some(8)));
/// assert_eq!(rt; line_len(b"a,\"b\n".as_slice()), Ok(None));
/// ```
pub fn line_len(bytes: &[u8]) -> Result<Option<usize>, usize>
    ensures { Scanned LineText bytes.now result }
{
    let quoted = Seq(Byte(b'"'), Seq(Run(NotQuote), Byte(b'"')));
    let machine = Seq(Star(Alt(OneOf(Plain), quoted)), Byte(b'\n'));
    let mut extent = begin(&machine);
    advance(&machine, &mut extent, bytes)
}

/// Returns the length in bytes of the list at the start of `bytes`: the word `list`, and brackets
/// that are balanced and nested at most 8 times, with dots between them. Returns `Ok(None)` if more
/// bytes are needed.
///
/// # Errors
///
/// The offset of the first byte with which no list starts.
///
/// ```
/// use machines::examples::list_len;
///
/// assert_eq!(rt; list_len(b"list(.[.].).".as_slice()), Ok(Some(11)));
/// assert_eq!(rt; list_len(b"list([".as_slice()), Ok(None));
/// assert_eq!(rt; list_len(b"list([)".as_slice()), Err(6));
/// ```
pub fn list_len(bytes: &[u8]) -> Result<Option<usize>, usize>
    ensures { Scanned ListText bytes.now result }
{
    let round = Pair {
        opener: b'(',
        closer: b')',
    };
    let square = Pair {
        opener: b'[',
        closer: b']',
    };
    let items = Nested {
        word: Byte(b'.'),
        first: round,
        second: Some(square),
        limit: 7,
    };
    let machine = Seq(Text(*b"list"), Seq(Byte(b'('), Seq(items, Byte(b')'))));
    let mut extent = begin(&machine);
    advance(&machine, &mut extent, bytes)
}
