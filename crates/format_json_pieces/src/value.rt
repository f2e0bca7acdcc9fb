//! JSON values (RFC 8259) at the start of bytes, and JSON texts in bytes.
ghost use Rattle.format_json_pieces.specs.Begun.{IsViablePrefix};
ghost use Rattle.format_json_pieces.specs.Results.{Allows, FailsWithMore, IsFinal, MatchesWithMore};
ghost use Rattle.format_json_pieces.specs.Results.{NoneIsFinal};
ghost use Rattle.format_json_extents.specs.Number.{IsByteOfNumber};
ghost use Rattle.format_json_extents.specs.Value.{IsNotContinued};
ghost use Rattle.format_json_pieces.specs.Value.{AreNumerals, HasInner, InUtf8, IsNextOrNone};
ghost use Rattle.format_json_pieces.specs.Value.{IsRefusedAt, IsValueIn};
ghost use Rattle.format_json_pieces.specs.declared.begun.Mode.TheVariants as modes;
ghost use Rattle.format_json_texts.specs.Number.{ContinuesNumber};
ghost use Rattle.format_json_texts.specs.Values.{JsonText, ValueText};
ghost use Rattle.format_json_texts.specs.Values.Texts.{BeginsNumber};
ghost use Rattle.std.specs.List.{All};
ghost use Rattle.std.specs.Prelude.{◌≡◌, ◌≤◌, ◌↔◌, ◌++◌, ℕ, List, length, false, true, IfErr};
ghost use Rattle.std.specs.Prelude.{IfNone, IfOk, IfSome, IsTrue, Some, []};
ghost use Rattle.std.specs.Str.{IsUtf8};
ghost use Rattle.std.specs.Str.Lossy.{utf8_valid_len};
ghost use Rattle.streams.specs.Bytes.{bytes_follow, bytes_reading};
ghost use Rattle.winnow_grammar.specs.Cut.{Asks, ReadsOrAsks};
ghost use Rattle.winnow_core.specs.Exact.Whole.{IsNotIncomplete, IsWant};
ghost use Rattle.grammars.specs.Grammar.{IsUnique};
ghost use Rattle.stream_sets.specs.Accumulator.Holds.{HasCharacters};
ghost use Rattle.stream_sets.specs.AsChar.{IsMultispace};
ghost use Rattle.grammars.specs.Texts.{StartsWith, IsGrammarOf, NotFirst};
ghost use Rattle.winnow_grammar.specs.Told.{IsTextOf};

use crate::begun::lacking;
use crate::inside::goes_on;
use format_json_extents::tokens::skip_whitespace;
use format_json_extents::value as extents;
use format_json_texts::value::Value;
use format_json_values::value::{parse_value, read_value};
use std::alloc::Allocator;
use std::str;
use stream_errors::empty::EmptyError;
use stream_errors::fault::{ParseError, ParseFault};
use stream_errors::has_kind::HasKind;
use stream_errors::mode::ErrMode;
use stream_errors::parser_error::ParserError;
use streams::needed::Needed;
use streams::partial::Partial;
use streams::stream::{Stream, StreamIsPartial};

/// Returns whether the value `text` ends before `left`, for any continuation: a number ends where
/// neither a digit, a point nor an E follows, which is not known at the end of partial input
/// (`cut`).
fn is_ended(text: &[u8], left: &[u8], cut: bool) -> bool
    ensures yes { IsTrue result → (more : List ℕ) → Allows cut more
        → IsNotContinued text.now (left.now ++ more) }
    ensures no { result ≡ false → IsNotContinued text.now left.now
        → (cut ≡ true) × (left.now ≡ []) × StartsWith BeginsNumber text.now }
{
    match text.split_first() {
        Some((first, _)) if *first == b'-' || first.is_ascii_digit() => match left.split_first() {
            Some((next, _)) => !goes_on(*next),
            None => !cut,
        },
        _ => true,
    }
}

/// Returns the text of the value that the bytes start with, and the remaining bytes, if it is the
/// same for any continuation.
fn text_in<'i>(level: usize, bytes: &'i [u8], cut: bool) -> Option<(&'i str, &'i [u8])>
    ensures found { IfSome result (λ r. IsFinal level cut bytes.now r.0.now r.1.now) }
    ensures none { IfNone result (NoneIsFinal level cut bytes.now) }
{
    let mut left = bytes;
    let text = extents::read_value(level, &mut left)?;
    if !is_ended(text, left, cut) {
        return None;
    }
    match str::from_utf8(text) {
        Ok(text) => Some((text, left)),
        Err(_) => None,
    }
}

/// Returns whether the bytes start with whitespace.
fn has_gap(bytes: &[u8]) -> bool
    ensures { IsTrue result ↔ StartsWith IsMultispace bytes.now }
{
    match bytes.split_first() {
        Some((first, _)) => matches!(*first, b' ' | b'\t' | b'\n' | b'\r'),
        None => false,
    }
}

/// Returns the value that the bytes start with, and the remaining bytes. On partial input (`cut`)
/// more may follow.
fn value_in<'i, A: Allocator + Copy>(
    alloc: A,
    level: usize,
    bytes: &'i [u8],
    cut: bool,
) -> Result<(Value<A>, &'i [u8]), ErrMode<EmptyError>>
    ensures value { IfOk result (λ r. MatchesWithMore (IsValueIn level) cut bytes.now r.0 r.1.now) }
    ensures none { IfErr result (λ e. FailsWithMore (IsValueIn {A = A} level) cut bytes.now
        (⟦<ErrMode<EmptyError> as HasKind>⟧.kind e)) }
    ensures asks { IfErr result (λ e. Asks (⟦<ErrMode<EmptyError> as HasKind>⟧.kind e)
        → (v : Value A) (rest : List ℕ) → IsValueIn level bytes.now v rest
        → (rest ≡ []) × All IsByteOfNumber bytes.now) }
    ensures begun { IfErr result (λ e. Asks (⟦<ErrMode<EmptyError> as HasKind>⟧.kind e)
        → IsViablePrefix level modes.Value [] bytes.now) }
    ensures gap { IfErr result (λ e. Asks (⟦<ErrMode<EmptyError> as HasKind>⟧.kind e)
        → NotFirst IsMultispace bytes.now) }
{
    match text_in(level, bytes, cut) {
        Some((text, left)) => {
            let mut text = text;
            match read_value(alloc, level, &mut text) {
                Ok(value) => Ok((value, left)),
                Err(error) => Err(error),
            }
        }
        None => {
            if !cut || has_gap(bytes) {
                return Err(ErrMode::from_input(&bytes));
            }
            Err(lacking(alloc, level, bytes))
        }
    }
}

/// As [`value_in`], after whitespace; none where whitespace is all there is.
fn next_in<'i, A: Allocator + Copy>(
    alloc: A,
    level: usize,
    bytes: &'i [u8],
    cut: bool,
) -> Result<(Option<Value<A>>, &'i [u8]), ErrMode<EmptyError>>
    ensures value { IfOk result
        (λ r. MatchesWithMore (IsNextOrNone level) cut bytes.now r.0 r.1.now) }
    ensures none { IfErr result (λ e. FailsWithMore (IsNextOrNone {A = A} level) cut bytes.now
        (⟦<ErrMode<EmptyError> as HasKind>⟧.kind e)) }
    ensures asks { IfErr result (λ e. Asks (⟦<ErrMode<EmptyError> as HasKind>⟧.kind e)
        → (v : Value A) (rest : List ℕ) → IsNextOrNone level bytes.now (Some v) rest
        → (rest ≡ []) × AreNumerals bytes.now) }
    ensures begun { IfErr result (λ e. Asks (⟦<ErrMode<EmptyError> as HasKind>⟧.kind e)
        → IsViablePrefix level modes.Value [] bytes.now) }
{
    let start = skip_whitespace(bytes);
    if start.is_empty() {
        return if cut {
            Err(ErrMode::Incomplete(Needed::Unknown))
        } else {
            Ok((None, start))
        };
    }
    match value_in(alloc, level, start, cut) {
        Ok((value, left)) => Ok((Some(value), left)),
        Err(error) => Err(error),
    }
}

/// Parses a value whose arrays and objects are nested at most `level` deep, from partial input. The
/// value is returned once it is the same for every longer input. That is with the last byte of an
/// array, an object, a string or a word, and with the byte after a number, also in `0-`. The bytes
/// of the value are consumed. Whitespace before the value is not skipped.
///
/// The bytes of the value must be UTF-8; those after it are not examined. A number must not be
/// followed by a digit, a point, an `e` or an `E`; otherwise there is no value.
///
/// Fails with `Incomplete` if more input may follow, and the bytes (possibly none) begin the text
/// of a value of the level, which may continue after them. Then there is no value of the level in
/// them, or they are a number. A walk over the bytes with the open brackets checks that each byte
/// may occur there (clause `begun`, by `IsViablePrefix`), so `[x`, `[1,,` and `01` are not
/// `Incomplete`. (That bytes which pass the walk always begin some value is tested, not proved.)
/// The caller must bound the bytes that it holds: a text that never closes is `Incomplete` again
/// and again, and each call reads it anew.
///
/// Backtracks if no value of the level is at the start, regardless of what follows the bytes. Fails
/// with out of memory if an allocation fails. All errors leave the input unchanged. Each level uses
/// some of the stack: up to [`SAFE_DEPTH`](format_json_values::value::SAFE_DEPTH) two megabytes
/// suffice.
///
/// ```
/// use format_json_pieces::value::read_value_in_pieces;
/// use format_json_texts::value::Value;
/// use winnow::error::ErrMode;
/// use winnow::stream::Partial;
///
/// let mut piece = Partial::new(b"[1, \"a]".as_slice());
/// let asks = read_value_in_pieces(alloc, 1, &mut piece);
/// assert!(rt; matches!(asks, Err(ErrMode::Incomplete(_))));
/// let mut never = Partial::new(b"[1,,".as_slice());
/// let refused = read_value_in_pieces(alloc, 1, &mut never);
/// assert!(rt; matches!(refused, Err(ErrMode::Backtrack(_))));
/// let mut more = Partial::new(b"[1, \"a]\"]{".as_slice());
/// let value = read_value_in_pieces(alloc, 1, &mut more);
/// assert!(rt; matches!(value, Ok(Value::Array(items)) if items.len() == 2));
/// assert_eq!(rt; *more.as_inner(), b"{".as_slice());
/// ```
pub fn read_value_in_pieces<'i, A: Allocator + Copy>(
    alloc: A,
    level: usize,
    input: &mut Partial<&'i [u8]>,
) -> Result<Value<A>, ErrMode<EmptyError>>
    ensures told { ReadsOrAsks bytes_reading bytes_follow ⟦<ErrMode<EmptyError> as HasKind>⟧.kind
        (IsValueIn level) (⟦<Partial<&'static [u8]> as Stream>⟧.view input.old) result
        (⟦<Partial<&'static [u8]> as Stream>⟧.view input.new) }
    ensures asks { IfErr result (λ e. Asks (⟦<ErrMode<EmptyError> as HasKind>⟧.kind e)
        → (v : Value A) (rest : List ℕ) → IsValueIn level
        (⟦<Partial<&'static [u8]> as Stream>⟧.view input.old).left.tokens v rest → (rest ≡ [])
        × All IsByteOfNumber (⟦<Partial<&'static [u8]> as Stream>⟧.view input.old).left.tokens) }
    ensures begun { IfErr result (λ e. Asks (⟦<ErrMode<EmptyError> as HasKind>⟧.kind e)
        → IsViablePrefix level modes.Value []
        (⟦<Partial<&'static [u8]> as Stream>⟧.view input.old).left.tokens) }
    ensures gap { IfErr result (λ e. Asks (⟦<ErrMode<EmptyError> as HasKind>⟧.kind e)
        → NotFirst IsMultispace
        (⟦<Partial<&'static [u8]> as Stream>⟧.view input.old).left.tokens) }
    ensures kept { IfErr result (λ e. ⟦<Partial<&'static [u8]> as Stream>⟧.view input.new
        ≡ ⟦<Partial<&'static [u8]> as Stream>⟧.view input.old) }
{
    let cut = input.is_partial();
    match value_in(alloc, level, *input.as_inner(), cut) {
        Ok((value, left)) => {
            *input = Partial::new(left);
            input.restore_partial(cut);
            Ok(value)
        }
        Err(error) => Err(error),
    }
}

/// Parses the next value of a stream of JSON texts, which are separated by whitespace: like
/// [`read_value_in_pieces`], after whitespace. Returns `None` if a complete input has only
/// whitespace; then all of it is consumed.
///
/// A value may follow another directly, as in `[1][2]`. A number may follow a number directly only
/// if it has a minus sign, as in `1-2`.
///
/// The level and errors are those of [`read_value_in_pieces`]; errors leave the input unchanged,
/// including the whitespace. Partial input of only whitespace is `Incomplete`.
///
/// ```
/// use format_json_pieces::value::read_next_in_pieces;
/// use format_json_texts::value::Value;
/// use winnow::stream::{Partial, StreamIsPartial};
///
/// let mut input = Partial::new(b"true\n[] \n".as_slice());
/// let first = read_next_in_pieces(alloc, 1, &mut input);
/// assert!(rt; matches!(first, Ok(Some(Value::Boolean(true)))));
/// let second = read_next_in_pieces(alloc, 1, &mut input);
/// assert!(rt; matches!(second, Ok(Some(Value::Array(items))) if items.len() == 0));
/// assert!(rt; read_next_in_pieces(alloc, 1, &mut input).is_err());
/// input.complete();
/// assert!(rt; matches!(read_next_in_pieces(alloc, 1, &mut input), Ok(None)));
/// ```
pub fn read_next_in_pieces<'i, A: Allocator + Copy>(
    alloc: A,
    level: usize,
    input: &mut Partial<&'i [u8]>,
) -> Result<Option<Value<A>>, ErrMode<EmptyError>>
    ensures told { ReadsOrAsks bytes_reading bytes_follow ⟦<ErrMode<EmptyError> as HasKind>⟧.kind
        (IsNextOrNone level) (⟦<Partial<&'static [u8]> as Stream>⟧.view input.old) result
        (⟦<Partial<&'static [u8]> as Stream>⟧.view input.new) }
    ensures asks { IfErr result (λ e. Asks (⟦<ErrMode<EmptyError> as HasKind>⟧.kind e)
        → (v : Value A) (rest : List ℕ) → IsNextOrNone level
        (⟦<Partial<&'static [u8]> as Stream>⟧.view input.old).left.tokens (Some v) rest
        → (rest ≡ [])
        × AreNumerals (⟦<Partial<&'static [u8]> as Stream>⟧.view input.old).left.tokens) }
    ensures begun { IfErr result (λ e. Asks (⟦<ErrMode<EmptyError> as HasKind>⟧.kind e)
        → IsViablePrefix level modes.Value []
        (⟦<Partial<&'static [u8]> as Stream>⟧.view input.old).left.tokens) }
    ensures kept { IfErr result (λ e. ⟦<Partial<&'static [u8]> as Stream>⟧.view input.new
        ≡ ⟦<Partial<&'static [u8]> as Stream>⟧.view input.old) }
{
    let cut = input.is_partial();
    match next_in(alloc, level, *input.as_inner(), cut) {
        Ok((value, left)) => {
            *input = Partial::new(left);
            input.restore_partial(cut);
            Ok(value)
        }
        Err(error) => Err(error),
    }
}

/// Returns an error at a byte.
fn refused<'i>(
    bytes: &'i [u8],
    offset: usize,
    inner: EmptyError,
) -> ParseFault<&'i [u8], EmptyError>
    ensures inner { HasInner inner result }
    ensures place { offset ≤ length bytes.now → IsRefusedAt offset result }
    ensures whole { IsNotIncomplete result }
{
    let (_, left) = bytes.split_at(offset.min(bytes.len()));
    ParseFault::Invalid(ParseError::new(left, bytes.checkpoint(), inner))
}

/// Converts an error of a text to one of its bytes.
fn in_bytes<'i>(
    bytes: &'i [u8],
    fault: ParseFault<&'i str, EmptyError>,
) -> ParseFault<&'i [u8], EmptyError>
    ensures wants { IsWant ⟦<ErrMode<EmptyError> as ParserError<&'i str>>⟧.inner_kind fault.entry
        → IsWant ⟦<ErrMode<EmptyError> as ParserError<&'i [u8]>>⟧.inner_kind result }
    ensures whole { IsNotIncomplete fault.entry → IsNotIncomplete result }
{
    match fault {
        ParseFault::Invalid(error) => {
            let offset = error.offset();
            refused(bytes, offset, error.into_inner())
        }
        ParseFault::Incomplete(needed) => ParseFault::Incomplete(needed),
    }
}

/// Parses a JSON text, all of the bytes, which must be UTF-8. The text is a value with whitespace
/// around it, whose arrays and objects are nested at most `level` deep. Each level uses some of the
/// stack, as in [`read_value_in_pieces`].
///
/// The error has a byte offset: the length of the longest UTF-8 prefix if the bytes are not UTF-8,
/// otherwise where `format_json_values::value::parse_value` stops. Or it is out of memory.
///
/// ```
/// use format_json_pieces::value::parse_value_of_bytes;
/// use format_json_texts::value::Value;
/// use winnow::error::ParseFault;
///
/// let value = parse_value_of_bytes(alloc, 1, b" [1, null] ".as_slice());
/// assert!(rt; matches!(value, Ok(Value::Array(items)) if items.len() == 2));
/// match parse_value_of_bytes(alloc, 1, b"\"ab\xff\"".as_slice()) {
///     Err(ParseFault::Invalid(error)) => assert_eq!(rt; error.offset(), 3),
///     _ => assert!(rt; false),
/// }
/// ```
pub fn parse_value_of_bytes<'i, A: Allocator + Copy>(
    alloc: A,
    level: usize,
    bytes: &'i [u8],
) -> Result<Value<A>, ParseFault<&'i [u8], EmptyError>>
    ensures text { IsTextOf ⟦<ErrMode<EmptyError> as ParserError<&'i [u8]>>⟧.inner_kind
        (InUtf8 (JsonText HasCharacters level)) bytes.now result }
    ensures place { (IsUtf8 bytes.now → ⊥)
        → IfErr result (λ fault. IsRefusedAt (utf8_valid_len bytes.now) fault) }
{
    let text = match str::from_utf8(bytes) {
        Ok(text) => text,
        Err(error) => {
            let inner = ParserError::<&[u8]>::from_input(&bytes);
            return Err(refused(bytes, error.valid_up_to(), inner));
        }
    };
    match parse_value(alloc, level, text) {
        Ok(value) => Ok(value),
        Err(fault) => Err(in_bytes(bytes, fault)),
    }
}

/// A match of a value in bytes is an encoding of the value by RFC 8259, of the level and in UTF-8.
/// Each such encoding matches wherever neither a digit, nor a point, nor an `e` or `E` follows it.
///
/// ```
/// use format_json_pieces::value::values_are_those_of_the_standard;
/// use std::alloc::Allocator;
///
/// fn of_an_allocator<A: Allocator>() {
///     values_are_those_of_the_standard::<A>();
/// }
/// ```
pub fn values_are_those_of_the_standard<A: Allocator>()
    ensures { (level : ℕ) → IsGrammarOf (IsValueIn {A = A} level)
        (InUtf8 (ValueText HasCharacters level)) (NotFirst ContinuesNumber) }
{}

/// A value at the start of bytes ends at one offset: the rest is the same suffix of the bytes for
/// every value.
///
/// ```
/// use format_json_pieces::value::a_value_ends_at_one_place;
/// use std::alloc::Allocator;
///
/// fn of_an_allocator<A: Allocator>() {
///     a_value_ends_at_one_place::<A>();
/// }
/// ```
pub fn a_value_ends_at_one_place<A: Allocator>()
    ensures { (level : ℕ) → IsUnique (IsValueIn {A = A} level) }
{}
