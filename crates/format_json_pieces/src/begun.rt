//! Whether partial input can continue to the text of a value: by a walk over the bytes, one at a
//! time, with the brackets that are open.
ghost use Rattle.format_json_pieces.specs.Begun.{IsLacking, after_step, figure_step, item_step};
ghost use Rattle.format_json_pieces.specs.Begun.{name_step, is_whitespace, letters_step};
ghost use Rattle.format_json_pieces.specs.Begun.{name_part_step, next_step, text_step, value_step};
ghost use Rattle.std.specs.Prelude.{◌≡◌};

use crate::inside::{
    Figure, Inner, Letters, Part, expected, figure_behind, goes_on, is_final, letters_behind,
    part_behind,
};
use crate::place::place_in;
use std::alloc::Allocator;
use stream_errors::empty::EmptyError;
use stream_errors::has_kind::HasKind;
use stream_errors::mode::ErrMode;
use stream_errors::parser_error::ParserError;
use streams::needed::Needed;

/// A bracket that is open.
#[derive(Clone, Copy, Drop)]
pub enum Bracket {
    /// That of an array.
    Array,
    /// That of an object.
    Object,
    /// None: all of the text round its value, which nothing closes.
    Whole,
}

/// The input that is expected next.
#[derive(Clone, Copy, Drop)]
pub enum Mode {
    /// The first item of an array or an object, or its end.
    First,
    /// An item: a value, or the name of a member.
    Item,
    /// A colon.
    Colon,
    /// The value of a member, or the value that is read.
    Value,
    /// A comma, or the end of an array or an object.
    After,
    /// The rest of a name.
    Name(Part),
    /// The rest of a string that is a value.
    Text(Part),
    /// The rest of a number, after this.
    Number(Figure),
    /// The rest of a word.
    Word(Letters),
}

/// The effect of a byte.
#[derive(Clone, Copy, Drop)]
pub(crate) enum Step {
    /// The byte cannot continue the text of a value.
    Invalid,
    /// The value ended before it.
    Ended,
    /// The current value continues.
    Goes(Mode),
    /// It opens a bracket.
    Opens(Bracket),
    /// It closes the bracket that was opened last.
    Closes,
    /// A value with no bracket ends with it.
    Ends,
}

/// Whether the byte is whitespace.
fn is_gap(byte: u8) -> bool
    ensures { result ≡ is_whitespace byte }
{
    byte == b' ' || byte == b'\t' || byte == b'\n' || byte == b'\r'
}

/// Where a value is to come, perhaps after whitespace.
fn value_step(mode: Mode, byte: u8) -> Step
    ensures { result ≡ value_step mode byte }
{
    if is_gap(byte) {
        Step::Goes(mode)
    } else if byte == b'"' {
        Step::Goes(Mode::Text(Part::Plain))
    } else if byte == b'[' {
        Step::Opens(Bracket::Array)
    } else if byte == b'{' {
        Step::Opens(Bracket::Object)
    } else if byte == b'f' {
        Step::Goes(Mode::Word(Letters::Alse))
    } else if byte == b'n' {
        Step::Goes(Mode::Word(Letters::Ull))
    } else if byte == b't' {
        Step::Goes(Mode::Word(Letters::Rue))
    } else if byte == b'-' {
        Step::Goes(Mode::Number(Figure::Minus))
    } else if byte == b'0' {
        Step::Goes(Mode::Number(Figure::Zero))
    } else if b'1' <= byte && byte <= b'9' {
        Step::Goes(Mode::Number(Figure::Whole))
    } else {
        Step::Invalid
    }
}

/// Where a name is to come.
fn name_step(mode: Mode, byte: u8) -> Step
    ensures { result ≡ name_step mode byte }
{
    if is_gap(byte) {
        Step::Goes(mode)
    } else if byte == b'"' {
        Step::Goes(Mode::Name(Part::Plain))
    } else {
        Step::Invalid
    }
}

/// Where an item is to come.
fn item_step(mode: Mode, held: Option<Bracket>, byte: u8) -> Step
    ensures { result ≡ item_step mode held byte }
{
    match held {
        Some(Bracket::Object) => name_step(mode, byte),
        _ => value_step(mode, byte),
    }
}

/// After an item.
fn after_step(held: Bracket, byte: u8) -> Step
    ensures { result ≡ after_step held byte }
{
    if is_gap(byte) {
        return Step::Goes(Mode::After);
    }
    match held {
        Bracket::Whole => Step::Invalid,
        _ if byte == b',' => Step::Goes(Mode::Item),
        Bracket::Array if byte == b']' => Step::Closes,
        Bracket::Object if byte == b'}' => Step::Closes,
        _ => Step::Invalid,
    }
}

/// In a string that is a value.
fn text_step(part: Part, byte: u8) -> Step
    ensures { result ≡ text_step part byte }
{
    match part_behind(part, byte) {
        Inner::Broken => Step::Invalid,
        Inner::Quote => Step::Ends,
        Inner::Part(next) => Step::Goes(Mode::Text(next)),
    }
}

/// In a name.
fn name_part_step(part: Part, byte: u8) -> Step
    ensures { result ≡ name_part_step part byte }
{
    match part_behind(part, byte) {
        Inner::Broken => Step::Invalid,
        Inner::Quote => Step::Goes(Mode::Colon),
        Inner::Part(next) => Step::Goes(Mode::Name(next)),
    }
}

/// In a number.
fn figure_step(figure: Figure, held: Option<Bracket>, byte: u8) -> Step
    ensures { result ≡ figure_step figure held byte }
{
    if let Some(next) = figure_behind(figure, byte) {
        return Step::Goes(Mode::Number(next));
    }
    if !is_final(figure) || goes_on(byte) {
        return Step::Invalid;
    }
    match held {
        Some(bracket) => after_step(bracket, byte),
        None => Step::Ended,
    }
}

/// In a word.
fn letters_step(letters: Letters, byte: u8) -> Step
    ensures { result ≡ letters_step letters byte }
{
    if byte != expected(letters) {
        return Step::Invalid;
    }
    match letters_behind(letters) {
        Some(next) => Step::Goes(Mode::Word(next)),
        None => Step::Ends,
    }
}

/// Returns the effect of a byte, if `mode` is expected in the bracket `held`, the last that was
/// opened.
pub(crate) fn next_step(mode: Mode, held: Option<Bracket>, byte: u8) -> Step
    ensures { result ≡ next_step mode held byte }
{
    match mode {
        Mode::First => match held {
            Some(Bracket::Array) if byte == b']' => Step::Closes,
            Some(Bracket::Object) if byte == b'}' => Step::Closes,
            _ => item_step(Mode::First, held, byte),
        },
        Mode::Item => item_step(Mode::Item, held, byte),
        Mode::Value => value_step(Mode::Value, byte),
        Mode::Colon if is_gap(byte) => Step::Goes(Mode::Colon),
        Mode::Colon if byte == b':' => Step::Goes(Mode::Value),
        Mode::Colon => Step::Invalid,
        Mode::After => match held {
            Some(bracket) => after_step(bracket, byte),
            None => Step::Ended,
        },
        Mode::Name(part) => name_part_step(part, byte),
        Mode::Text(part) => text_step(part, byte),
        Mode::Number(figure) => figure_step(figure, held, byte),
        Mode::Word(letters) => letters_step(letters, byte),
    }
}

/// Returns the error for bytes that lack the rest of a value's text, if more may follow. It is
/// `Incomplete` if the bytes can continue to such a text, and otherwise a backtrack; or it is out
/// of memory.
pub(crate) fn lacking<A: Allocator>(alloc: A, level: usize, bytes: &[u8]) -> ErrMode<EmptyError>
    ensures { IsLacking level bytes.now (⟦<ErrMode<EmptyError> as HasKind>⟧.kind result) }
{
    match place_in(alloc, None, level, bytes) {
        Ok(place) if place.offset == bytes.len() => ErrMode::Incomplete(Needed::Unknown),
        Ok(_) => ErrMode::from_input(&bytes),
        Err(_) => ParserError::<&[u8]>::no_memory(&bytes),
    }
}
