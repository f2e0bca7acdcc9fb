//! The effect of one byte on a record, by the state of the scanner.

ghost use Rattle.std.specs.Prelude.{◌≡◌, ◌≤◌, ◌<◌, ◌+◌, ◌^◌, ◌∷◌, ℕ, List, length, take};
ghost use Rattle.format_csv_records.specs.Extents.{IsBehind, IsRun, IsTurn};
ghost use Rattle.format_csv_records.specs.Parts.{NoEndReason};

use crate::dialect::Dialect;
use crate::extent::RecordPlace;
use crate::read::{Reason, by_both, by_line_feed, is_plain, plain_len, unquoted_len};

/// The state for the next byte, and the numbers of bytes and fields that were added.
#[derive(Clone, Copy)]
pub(crate) struct Step {
    pub place: RecordPlace,
    pub text: usize,
    pub fields: usize,
}

/// The effect of a byte in a state.
#[derive(Clone, Copy)]
pub(crate) enum Turn {
    /// It is of the record.
    Goes(Step),
    /// The record was at its end.
    Ends,
    /// No record continues with the byte, and the reason.
    Never(Reason),
}

/// Returns the state `place` with `text` more bytes of text and no more fields.
#[inline(always)]
fn step_to(place: RecordPlace, text: usize) -> Step
    ensures { (result.place ≡ place) × (result.text ≡ text) × (result.fields ≡ 0) }
{
    Step {
        place,
        text,
        fields: 0,
    }
}

/// Returns the effect of a byte after a complete field, if it is a delimiter or starts a line
/// ending.
#[inline(always)]
fn step_behind(dialect: Dialect, byte: u8) -> Option<Step>
    ensures { IsBehind dialect byte result }
{
    if byte == dialect.delimiter {
        return Some(Step {
            place: RecordPlace::Field,
            text: 0,
            fields: 1,
        });
    }
    match byte {
        b'\r' => {
            if by_both(dialect.ends) {
                Some(step_to(RecordPlace::Return, 0))
            } else {
                None
            }
        }
        b'\n' => {
            if by_line_feed(dialect.ends) {
                Some(step_to(RecordPlace::Done, 0))
            } else {
                None
            }
        }
        _ => None,
    }
}

/// Returns the reason why a record neither ends nor continues with the byte.
#[inline(always)]
fn why_byte(quote: u8, byte: u8) -> Reason
    ensures { (more : List ℕ) → NoEndReason quote (byte ∷ more) result }
{
    if byte == quote {
        return Reason::QuoteInField;
    }
    match byte {
        b'\r' | b'\n' => Reason::WrongLineEnd,
        _ => Reason::ByteBehindQuote,
    }
}

/// Returns the effect of a byte at the start of a field.
#[inline(always)]
fn turn_field(dialect: Dialect, byte: u8) -> Turn
    ensures { IsTurn dialect RecordPlace.Field byte result }
{
    if byte == dialect.quote {
        return Turn::Goes(step_to(RecordPlace::Quoted, 0));
    }
    if is_plain(dialect, byte) {
        return Turn::Goes(step_to(RecordPlace::Plain, 1));
    }
    match step_behind(dialect, byte) {
        Some(step) => Turn::Goes(step),
        None => Turn::Never(why_byte(dialect.quote, byte)),
    }
}

/// Returns the effect of a byte in a field without quotes.
#[inline(always)]
fn turn_plain(dialect: Dialect, byte: u8) -> Turn
    ensures { IsTurn dialect RecordPlace.Plain byte result }
{
    if is_plain(dialect, byte) {
        return Turn::Goes(step_to(RecordPlace::Plain, 1));
    }
    match step_behind(dialect, byte) {
        Some(step) => Turn::Goes(step),
        None => Turn::Never(why_byte(dialect.quote, byte)),
    }
}

/// Returns the effect of a byte between quotes.
#[inline(always)]
fn turn_quoted(dialect: Dialect, byte: u8) -> Turn
    ensures { IsTurn dialect RecordPlace.Quoted byte result }
{
    if byte == dialect.quote {
        return Turn::Goes(step_to(RecordPlace::Quote, 0));
    }
    Turn::Goes(step_to(RecordPlace::Quoted, 1))
}

/// Returns the effect of a byte after a quote within quotes.
#[inline(always)]
fn turn_quote(dialect: Dialect, byte: u8) -> Turn
    ensures { IsTurn dialect RecordPlace.Quote byte result }
{
    if byte == dialect.quote {
        return Turn::Goes(step_to(RecordPlace::Quoted, 1));
    }
    match step_behind(dialect, byte) {
        Some(step) => Turn::Goes(step),
        None => Turn::Never(why_byte(dialect.quote, byte)),
    }
}

/// Returns the effect of a byte after the carriage return of a line ending.
#[inline(always)]
fn turn_return(dialect: Dialect, byte: u8) -> Turn
    ensures { IsTurn dialect RecordPlace.Return byte result }
{
    if byte == b'\n' {
        return Turn::Goes(step_to(RecordPlace::Done, 0));
    }
    Turn::Never(Reason::WrongLineEnd)
}

/// The effect of a byte in a state.
#[inline(always)]
pub(crate) fn turn_at(dialect: Dialect, place: RecordPlace, byte: u8) -> Turn
    ensures { IsTurn dialect place byte result }
{
    match place {
        RecordPlace::Field => turn_field(dialect, byte),
        RecordPlace::Plain => turn_plain(dialect, byte),
        RecordPlace::Quoted => turn_quoted(dialect, byte),
        RecordPlace::Quote => turn_quote(dialect, byte),
        RecordPlace::Return => turn_return(dialect, byte),
        RecordPlace::Done => Turn::Ends,
    }
}

/// Returns the length of the longest prefix of bytes that belong to the field and leave the state
/// unchanged.
#[inline(always)]
pub(crate) fn run_len(dialect: Dialect, place: RecordPlace, bytes: &[u8]) -> usize
    ensures few { result ≤ length bytes.now }
    ensures kept { IsRun dialect place (take result bytes.now) result }
{
    match place {
        RecordPlace::Plain => plain_len(dialect, bytes),
        RecordPlace::Quoted => unquoted_len(dialect.quote, bytes),
        _ => 0,
    }
}

/// Returns the sum of two consecutive steps.
#[inline(always)]
pub(crate) fn after(one: Step, other: Step) -> Step
    requires text { one.text + other.text < 2 ^ 64 }
    requires fields { one.fields + other.fields < 2 ^ 64 }
    ensures { (result.place ≡ other.place) × (result.text ≡ one.text + other.text)
        × (result.fields ≡ one.fields + other.fields) }
{
    Step {
        place: other.place,
        text: one.text + other.text,
        fields: one.fields + other.fields,
    }
}
