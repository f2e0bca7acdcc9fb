//! An incremental scanner for the end of a JSON value in bytes that arrive in chunks.
//!
//! Each call resumes after the bytes that earlier calls passed. So the time to find a value is
//! linear in its bytes, for any number of chunks, and no memory is allocated. One call of
//! [`read_next_in_pieces`](crate::value::read_next_in_pieces) then reads it.
ghost use Rattle.format_json_extents.specs.Texts.{MatchesAtStart};
ghost use Rattle.format_json_pieces.specs.Begun.{last_open};
ghost use Rattle.format_json_pieces.specs.Extents.{ExtentResult, IsClosed, IsExtentOf, IsNew};
ghost use Rattle.format_json_pieces.specs.Extents.{IsOpened, IsPlain, IsTurn, SkipsIn, SkipsPlain};
ghost use Rattle.format_json_pieces.specs.Extents.{Walked, WholeResult, Within, bracket_at};
ghost use Rattle.format_json_pieces.specs.Extents.{brackets_in, byte_of};
ghost use Rattle.std.specs.List.{All};
ghost use Rattle.std.specs.Prelude.{◌≡◌, ◌≤◌, ◌++◌, ℕ, List, None, Ok, [], length};

use crate::begun::{Bracket, Mode, Step, next_step};
use crate::inside::Part;
use format_json_extents::tokens::skip_whitespace;

/// Why bytes do not start with a value, regardless of what follows.
///
/// ```
/// use format_json_pieces::extent::{Reason, ValueExtent};
///
/// let deep = ValueExtent::new().advance(&mut [0; 1], b"[[");
/// assert!(rt; matches!(deep, Err(invalid) if invalid.reason == Reason::TooDeep));
/// ```
#[derive(Clone, Copy, Debug, PartialEq, Eq)]
pub enum Reason {
    /// No value continues with the byte.
    Malformed,
    /// The byte opens a bracket that is nested deeper than the limit.
    TooDeep,
    /// The input ends in the value.
    Unfinished,
}

/// The offset at which bytes are rejected, and the reason.
///
/// ```
/// use format_json_pieces::extent::{Reason, ValueExtent};
///
/// let invalid = ValueExtent::new().advance(&mut [0; 2], b"[1, 2,]");
/// assert!(rt; matches!(invalid,
///     Err(invalid) if invalid.reason == Reason::Malformed && invalid.offset == 6));
/// ```
#[derive(Clone, Copy, Debug, PartialEq, Eq)]
pub struct Invalid {
    /// The reason.
    pub reason: Reason,
    /// The number of bytes before the first with which no value continues.
    pub offset: usize,
}

/// The state of the search for the end of a value. Its fields can be stored anywhere, and an extent
/// can be made of them again.
///
/// ```
/// use format_json_pieces::extent::ValueExtent;
///
/// let (mut extent, mut brackets) = (ValueExtent::new(), [0; 8]);
/// assert!(rt; matches!(extent.advance(&mut brackets, b"[{\"a"), Ok(None)));
/// assert!(rt; extent.passed == 4 && extent.depth == 2);
/// assert!(rt; brackets[0] == b'[' && brackets[1] == b'{');
/// ```
#[derive(Clone, Copy, Drop)]
pub struct ValueExtent {
    /// How many bytes were passed.
    pub passed: usize,
    /// How many brackets are open.
    pub depth: usize,
    /// The input that is expected next.
    pub mode: Mode,
}

/// The effect of a byte on an extent.
#[derive(Clone, Copy, Drop)]
enum Turn {
    /// The value continues.
    Goes,
    /// The value ended before the byte.
    Ended,
    /// The value ends with the byte.
    Ends,
    /// No value continues with the byte.
    Never(Reason),
}

/// Returns the bracket that a byte opens.
fn bracket_of(byte: u8) -> Bracket
    ensures { result ≡ bracket_at byte }
{
    match byte {
        b'[' => Bracket::Array,
        b'{' => Bracket::Object,
        _ => Bracket::Whole,
    }
}

/// Returns the byte that opens a bracket.
fn byte_of(bracket: Bracket) -> u8
    ensures { result ≡ byte_of bracket }
{
    match bracket {
        Bracket::Array => b'[',
        Bracket::Object => b'{',
        Bracket::Whole => 0,
    }
}

/// Skips the ASCII bytes of a string that stand for themselves.
fn skip_plain<'i>(bytes: &'i [u8]) -> &'i [u8]
    ensures { MatchesAtStart (All IsPlain) bytes.now result.now }
{
    let mut rest = bytes;
    'plain: while let Some((first, more)) = rest.split_first() {
        if *first < 32 || *first >= 128 || *first == b'"' || *first == b'\\' {
            return rest;
        }
        rest = more;
    }
    rest
}

/// The same where `part` is expected, if it is any character.
fn skip_in<'i>(part: Part, bytes: &'i [u8]) -> &'i [u8]
    ensures { SkipsIn part bytes.now result.now }
{
    match part {
        Part::Plain => skip_plain(bytes),
        _ => bytes,
    }
}

impl ValueExtent {
    /// Nothing is passed.
    ///
    /// ```
    /// use format_json_pieces::extent::ValueExtent;
    ///
    /// assert!(rt; ValueExtent::new().passed == 0);
    /// ```
    pub fn new() -> ValueExtent
        ensures of { (brackets bytes : List ℕ) → IsExtentOf result brackets bytes }
        ensures is_new { IsNew result }
    {
        ValueExtent {
            passed: 0,
            depth: 0,
            mode: Mode::Value,
        }
    }

    /// Returns the bracket that was opened last.
    fn last(&self, brackets: &[u8]) -> Option<Bracket>
        ensures { self.now.depth ≤ length brackets.now
            → result ≡ last_open (brackets_in brackets.now self.now.depth) }
    {
        match self.depth.checked_sub(1) {
            None => None,
            Some(index) => match brackets.get(index) {
                None => None,
                Some(byte) => Some(bracket_of(*byte)),
            },
        }
    }

    /// Opens a bracket, unless as many are open as `brackets` has bytes.
    fn opens(&mut self, brackets: &mut [u8], bracket: Bracket) -> Turn
        ensures { IsOpened self.old brackets.old bracket self.new brackets.new result }
    {
        if self.depth < brackets.len() {
            brackets[self.depth] = byte_of(bracket);
            self.depth += 1;
            self.mode = Mode::First;
            Turn::Goes
        } else {
            Turn::Never(Reason::TooDeep)
        }
    }

    /// A value ended: it is the whole value, if no bracket is open.
    fn closes(&mut self) -> Turn
        ensures { IsClosed self.old.depth self.new result }
    {
        if self.depth == 0 {
            Turn::Ends
        } else {
            self.mode = Mode::After;
            Turn::Goes
        }
    }

    /// Passes a byte.
    fn turn(&mut self, brackets: &mut [u8], byte: u8) -> Turn
        ensures { self.old.depth ≤ length brackets.old
            → IsTurn self.old brackets.old byte self.new brackets.new result }
    {
        match next_step(self.mode, self.last(brackets), byte) {
            Step::Invalid => Turn::Never(Reason::Malformed),
            Step::Ended => Turn::Ended,
            Step::Goes(mode) => {
                self.mode = mode;
                Turn::Goes
            }
            Step::Opens(bracket) => self.opens(brackets, bracket),
            Step::Closes => {
                self.depth = self.depth.saturating_sub(1);
                self.closes()
            }
            Step::Ends => self.closes(),
        }
    }

    /// Skips bytes of a string that leave the state unchanged, and returns the rest.
    fn skip<'i>(&self, bytes: &'i [u8]) -> &'i [u8]
        ensures { SkipsPlain self.now.mode bytes.now result.now }
    {
        match self.mode {
            Mode::Text(part) => skip_in(part, bytes),
            Mode::Name(part) => skip_in(part, bytes),
            _ => bytes,
        }
    }

    /// Continues with `from`, the rest after the bytes passed.
    fn walk(
        &mut self,
        brackets: &mut [u8],
        bytes: &[u8],
        from: &[u8],
    ) -> Result<Option<usize>, Invalid>
        requires { length from.now ≤ length bytes.now }
        ensures told { Walked self.old brackets.old bytes.now from.now
            → ExtentResult (length brackets.old) bytes.now result }
        ensures kept { Walked self.old brackets.old bytes.now from.now
            → (more : List ℕ) → IsExtentOf self.new brackets.new (bytes.now ++ more) }
        ensures all { result ≡ Ok None → self.new.passed ≡ length bytes.now }
        ensures again { (result ≡ Ok None → ⊥) → IsNew self.new }
        ensures within { Within (length bytes.now) result }
    {
        let mut left = from;
        'bytes: loop {
            let rest = self.skip(left);
            match rest.split_first() {
                None => {
                    self.passed = bytes.len();
                    return Ok(None);
                }
                Some((byte, more)) => match self.turn(brackets, *byte) {
                    Turn::Goes => left = more,
                    Turn::Ended => {
                        *self = ValueExtent::new();
                        return Ok(Some(bytes.len() - rest.len()));
                    }
                    Turn::Ends => {
                        *self = ValueExtent::new();
                        return Ok(Some(bytes.len() - more.len()));
                    }
                    Turn::Never(reason) => {
                        *self = ValueExtent::new();
                        return Err(Invalid {
                            reason,
                            offset: bytes.len() - rest.len(),
                        });
                    }
                },
            }
        }
    }

    /// Searches for the end of the JSON value (RFC 8259) at the start of `bytes`, perhaps after
    /// whitespace, and returns the length of both in bytes. The arrays and objects of the value may
    /// be nested at most as deep as `brackets` has bytes. It receives the brackets and braces that
    /// are open, the outermost first; its contents are not used before.
    ///
    /// `bytes` must be those of the previous call, possibly followed by more, and `brackets` as the
    /// previous call left it. Bytes that were passed are not examined again, so the time of all
    /// calls together is linear in the bytes. No memory is allocated.
    ///
    /// It returns `None` if the bytes can continue to a value, and have no end of one. Then
    /// [`ValueExtent::passed`] is the number of all bytes. A number ends at the next byte, which
    /// cannot continue it; at the end of the input call [`ValueExtent::finish`].
    ///
    /// After a value or an error the extent is as [`ValueExtent::new`] makes it. So the next call,
    /// with the bytes after the value, finds the next value.
    ///
    /// The bytes of the value must be UTF-8. Each value is found, all that is found is a value, and
    /// no value ends elsewhere ([`laws`](crate::laws)). The result is specified only if the extent
    /// and `brackets` are of these bytes: if they were used for others, the result may be wrong,
    /// but it is an offset in the bytes.
    ///
    /// # Errors
    ///
    /// [`Invalid`]: the offset of the first byte with which no value continues, regardless of what
    /// follows, and the reason, which is never `Unfinished`. The bytes before it can continue to a
    /// value.
    ///
    /// ```
    /// use format_json_pieces::extent::ValueExtent;
    ///
    /// let bytes = b"[1, {\"a\": null}] 2".as_slice();
    /// let (mut extent, mut brackets) = (ValueExtent::new(), [0; 2]);
    /// assert!(rt; matches!(extent.advance(&mut brackets, &bytes[..9]), Ok(None)));
    /// assert!(rt; matches!(extent.advance(&mut brackets, bytes), Ok(Some(16))));
    /// assert!(rt; matches!(extent.advance(&mut brackets, &bytes[16..]), Ok(None)));
    /// assert!(rt; matches!(extent.finish(&mut brackets, &bytes[16..]), Ok(Some(2))));
    /// ```
    pub fn advance(&mut self, brackets: &mut [u8], bytes: &[u8]) -> Result<Option<usize>, Invalid>
        ensures told { IsExtentOf self.old brackets.old bytes.now
            → ExtentResult (length brackets.old) bytes.now result }
        ensures kept { IsExtentOf self.old brackets.old bytes.now
            → (more : List ℕ) → IsExtentOf self.new brackets.new (bytes.now ++ more) }
        ensures all { IsExtentOf self.old brackets.old bytes.now → result ≡ Ok None
            → self.new.passed ≡ length bytes.now }
        ensures again { (result ≡ Ok None → ⊥) → IsNew self.new }
        ensures within { Within (length bytes.now) result }
    {
        match bytes.get(self.passed..) {
            None => Ok(None),
            Some(rest) => self.walk(brackets, bytes, rest),
        }
    }

    /// Returns the same as [`ValueExtent::advance`] for all of the input, without examining the
    /// bytes again that were passed: call it at the end of the input. A number may then end there.
    /// It returns `None` if the input is only whitespace. Then the extent is as
    /// [`ValueExtent::new`] makes it.
    ///
    /// # Errors
    ///
    /// [`Invalid`]: as [`ValueExtent::advance`]. Or the input ends in a value; then the reason is
    /// `Unfinished`, and the offset is the length of the input.
    ///
    /// ```
    /// use format_json_pieces::extent::{Reason, ValueExtent};
    ///
    /// let mut extent = ValueExtent::new();
    /// assert!(rt; matches!(extent.advance(&mut [], b" 12"), Ok(None)));
    /// assert!(rt; matches!(extent.finish(&mut [], b" 12"), Ok(Some(3))));
    /// assert!(rt; matches!(extent.finish(&mut [], b" \n"), Ok(None)));
    /// assert!(rt; matches!(extent.finish(&mut [], b"1."),
    ///     Err(invalid) if invalid.reason == Reason::Unfinished));
    /// ```
    pub fn finish(&mut self, brackets: &mut [u8], bytes: &[u8]) -> Result<Option<usize>, Invalid>
        ensures told { IsExtentOf self.old brackets.old bytes.now
            → WholeResult (length brackets.old) bytes.now result }
        ensures again { IsNew self.new }
        ensures within { Within (length bytes.now) result }
    {
        match self.advance(brackets, bytes)? {
            Some(length) => Ok(Some(length)),
            None => {
                let ended = self.end(brackets, bytes);
                *self = ValueExtent::new();
                ended
            }
        }
    }

    /// Returns the result at the end of the input, if all bytes were passed and the value had not
    /// ended.
    fn end(&self, brackets: &[u8], bytes: &[u8]) -> Result<Option<usize>, Invalid>
        ensures told { Walked self.now brackets.now bytes.now []
            → WholeResult (length brackets.now) bytes.now result }
        ensures within { Within (length bytes.now) result }
    {
        if skip_whitespace(bytes).is_empty() {
            return Ok(None);
        }
        match next_step(self.mode, self.last(brackets), b' ') {
            Step::Ended => Ok(Some(bytes.len())),
            _ => Err(Invalid {
                reason: Reason::Unfinished,
                offset: bytes.len(),
            }),
        }
    }
}
