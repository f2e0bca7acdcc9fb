//! The effect of a byte that is not part of the output.
#![tactic(auto)]

ghost use Rattle.format_http_chunked.specs.Bodies.{ChunksAfterSize};
ghost use Rattle.format_http_chunked.specs.Dues.{IsDue, IsFramingDue};
ghost use Rattle.format_http_chunked.specs.Steps.{IsFault, IsTaken};
ghost use Rattle.format_http_chunked.specs.declared.places.Framing.TheVariants as framing;
ghost use Rattle.format_http_chunked.specs.declared.places.Place.TheVariants as place;
ghost use Rattle.std.specs.Prelude.{◌≡◌, ◌↔◌, ◌≤◌, ◌+◌, ◌*◌, ◌<◌, ◌∷◌, ◌^◌, ℕ, List};
ghost use Rattle.std.specs.Prelude.{IfErr};
ghost use Rattle.std.specs.Prelude.{IfOk, IfSome, None, [], length};

use crate::bytes::digit_of;
use crate::decoder::ChunkError;
use crate::lines::{Turn, turn_at};
use crate::places::{Framing, InField, InLine, Place};

/// Returns the position after the size line of a chunk of this size.
#[inline(always)]
fn place_behind(size: u64) -> Place
    ensures { (content trailers bytes : List ℕ)
        → ((n : ℕ) × ChunksAfterSize n content trailers size bytes)
        ↔ IsDue result content trailers bytes }
{
    match size.checked_sub(1) {
        None => Place::Trailers(InField::Start),
        Some(_) => Place::Data(size),
    }
}

/// Returns the position after this byte in a size line, or `None` if no line continues with it.
#[inline(always)]
fn after_in_line(at: InLine, size: u64, byte: u8) -> Option<Place>
    ensures some { IfSome result (λ next. (content trailers bytes : List ℕ)
        → IsFramingDue (framing.Line at size) content trailers (byte ∷ bytes)
        ↔ IsDue next content trailers bytes) }
    ensures none { result ≡ None → (content trailers bytes : List ℕ)
        → IsFramingDue (framing.Line at size) content trailers (byte ∷ bytes) → ⊥ }
{
    match turn_at(at, byte) {
        Turn::Goes(next) => Some(Place::Framing(Framing::Line(next, size))),
        Turn::Ends => Some(place_behind(size)),
        Turn::Never => None,
    }
}

/// A number with one hexadecimal digit more; none where it is past 64 bits.
#[inline(always)]
fn number_after(number: u64, digit: u64) -> Option<u64>
    requires { digit < 16 }
    ensures some { IfSome result (λ sum. sum ≡ number * 16 + digit) }
    ensures none { result ≡ None → 2 ^ 64 ≤ number * 16 + digit }
{
    number.checked_mul(16)?.checked_add(digit)
}

/// Returns the position after this byte in the digits of a size.
#[inline(always)]
fn after_digit(number: u64, byte: u8) -> Result<Place, ChunkError>
    ensures ok { IfOk result (λ next. (content trailers bytes : List ℕ)
        → IsFramingDue (framing.Digits number) content trailers (byte ∷ bytes)
        ↔ IsDue next content trailers bytes) }
    ensures err { IfErr result (λ fault. (room left : ℕ)
        → IsFault (place.Framing (framing.Digits number)) room left byte fault) }
{
    match digit_of(byte) {
        None => match after_in_line(InLine::AfterSize, number, byte) {
            Some(next) => Ok(next),
            None => Err(ChunkError::SizeLine),
        },
        Some(digit) => match number_after(number, digit) {
            Some(sum) => Ok(Place::Framing(Framing::Digits(sum))),
            None => Err(ChunkError::SizeTooLarge),
        },
    }
}

/// Returns the position after this byte, which is not part of the output.
#[inline(always)]
pub(crate) fn place_after(at: Framing, byte: u8) -> Result<Place, ChunkError>
    ensures ok { IfOk result (λ next. (content trailers bytes : List ℕ)
        → IsFramingDue at content trailers (byte ∷ bytes)
        ↔ IsDue next content trailers bytes) }
    ensures err { IfErr result (λ fault. (room left : ℕ)
        → IsFault (place.Framing at) room left byte fault) }
{
    match at {
        Framing::Start => match digit_of(byte) {
            Some(digit) => Ok(Place::Framing(Framing::Digits(digit))),
            None => Err(ChunkError::Size),
        },
        Framing::Digits(number) => after_digit(number, byte),
        Framing::Line(line, size) => match after_in_line(line, size, byte) {
            Some(next) => Ok(next),
            None => Err(ChunkError::SizeLine),
        },
        Framing::DataEnd => match byte {
            b'\r' => Ok(Place::Framing(Framing::DataReturn)),
            _ => Err(ChunkError::DataEnd),
        },
        Framing::DataReturn => match byte {
            b'\n' => Ok(Place::Framing(Framing::Start)),
            _ => Err(ChunkError::DataEnd),
        },
        Framing::LastReturn => match byte {
            b'\n' => Ok(Place::Done),
            _ => Err(ChunkError::Trailers),
        },
    }
}

/// Returns how many of `there` bytes are data, if `size` bytes of data remain.
#[inline(always)]
pub(crate) fn taken_of(size: u64, there: usize) -> usize
    requires some { 0 < size }
    requires there { 0 < there }
    ensures { (result ≤ size) × (result ≤ there) × (0 < result) }
{
    match usize::try_from(size) {
        Ok(due) => due.min(there),
        Err(_) => there,
    }
}

/// Returns the bytes after the line ending at the start, or `None` if there is none.
#[inline(always)]
fn behind_line_end(bytes: &[u8]) -> Option<&[u8]>
    ensures { IfSome result (λ rest. bytes.now ≡ 13 ∷ 10 ∷ rest.now) }
{
    let (first, others) = bytes.split_first()?;
    let (second, rest) = others.split_first()?;
    if *first == b'\r' && *second == b'\n' {
        Some(rest)
    } else {
        None
    }
}

/// Consumes the digits that continue this number, as far as it fits 64 bits. Returns the number and
/// the rest.
#[inline(always)]
fn pass_digits(number: u64, bytes: &[u8]) -> (u64, &[u8])
    ensures { IsTaken (place.Framing (framing.Digits number))
        (place.Framing (framing.Digits result.0)) bytes.now result.1.now [] [] }
{
    let mut size = number;
    let mut rest = bytes;
    'digits: while let Some((byte, others)) = rest.split_first() {
        match digit_of(*byte) {
            None => return (size, rest),
            Some(digit) => match number_after(size, digit) {
                None => return (size, rest),
                Some(sum) => {
                    size = sum;
                    rest = others;
                }
            },
        }
    }
    (size, rest)
}

/// Returns the bytes from the size line on: after the line ending of data if one is expected, or
/// `None` if no size line is expected next.
#[inline(always)]
fn line_at(at: Place, bytes: &[u8]) -> Option<&[u8]>
    ensures { IfSome result (λ line.
        IsTaken at (place.Framing framing.Start) bytes.now line.now [] []) }
{
    match at {
        Place::Framing(framing) => match framing {
            Framing::Start => Some(bytes),
            Framing::DataEnd => Some(behind_line_end(bytes)?),
            _ => None,
        },
        Place::Data(size) => if size == 0 {
            Some(behind_line_end(bytes)?)
        } else {
            None
        },
        _ => None,
    }
}

/// Consumes a whole size line without extensions, and before it the line ending of data if one is
/// expected. Returns the position after it and the rest, or `None` if the bytes do not start with
/// one.
#[inline(always)]
pub(crate) fn pass_line(at: Place, bytes: &[u8]) -> Option<(Place, &[u8])>
    ensures { IfSome result (λ passed. (length passed.1.now < length bytes.now)
        × IsTaken at passed.0 bytes.now passed.1.now [] []) }
{
    let line = line_at(at, bytes)?;
    let (first, others) = line.split_first()?;
    let digit = digit_of(*first)?;
    let (size, behind) = pass_digits(digit, others);
    let rest = behind_line_end(behind)?;
    Some((place_behind(size), rest))
}
