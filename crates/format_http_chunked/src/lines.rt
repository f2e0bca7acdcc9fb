//! The position of the next byte in a size line.
#![tactic(auto)]

ghost use Rattle.format_http_chunked.specs.Steps.{IsTurn};
ghost use Rattle.format_http_chunked.specs.declared.places.InLine.TheVariants as line;
ghost use Rattle.format_http_chunked.specs.declared.places.Framing.TheVariants as framing;
ghost use Rattle.std.specs.Prelude.{ℕ};

use crate::bytes::{is_quoted, is_token, is_value};
use crate::places::InLine;

/// The effect of a byte on a size line.
pub(crate) enum Turn {
    /// After it the line continues here.
    Goes(InLine),
    /// It ends the line.
    Ends,
    /// No line continues with it.
    Never,
}

/// Returns the effect of a byte after a size or a value.
#[inline]
fn turn_behind(byte: u8) -> Turn
    ensures { (size : ℕ) → IsTurn (framing.Line line.AfterSize size) size byte result }
{
    match byte {
        b'\r' => Turn::Goes(InLine::Return),
        b';' => Turn::Goes(InLine::Semicolon),
        b' ' | b'\t' => Turn::Goes(InLine::White),
        _ => Turn::Never,
    }
}

/// Returns the effect of a byte after a size or a value and whitespace.
fn turn_white(byte: u8) -> Turn
    ensures { (size : ℕ) → IsTurn (framing.Line line.White size) size byte result }
{
    match byte {
        b';' => Turn::Goes(InLine::Semicolon),
        b' ' | b'\t' => Turn::Goes(InLine::White),
        _ => Turn::Never,
    }
}

/// Returns the effect of a byte after a semicolon.
fn turn_semicolon(byte: u8) -> Turn
    ensures { (size : ℕ) → IsTurn (framing.Line line.Semicolon size) size byte result }
{
    if byte == b' ' || byte == b'\t' {
        return Turn::Goes(InLine::Semicolon);
    }
    if is_token(byte) {
        return Turn::Goes(InLine::Name);
    }
    Turn::Never
}

/// Returns the effect of a byte after a name and whitespace.
fn turn_name_white(byte: u8) -> Turn
    ensures { (size : ℕ) → IsTurn (framing.Line line.NameWhite size) size byte result }
{
    match byte {
        b'=' => Turn::Goes(InLine::Equals),
        b';' => Turn::Goes(InLine::Semicolon),
        b' ' | b'\t' => Turn::Goes(InLine::NameWhite),
        _ => Turn::Never,
    }
}

/// Returns the effect of a byte in a name.
fn turn_name(byte: u8) -> Turn
    ensures { (size : ℕ) → IsTurn (framing.Line line.Name size) size byte result }
{
    if is_token(byte) {
        return Turn::Goes(InLine::Name);
    }
    if byte == b'\r' {
        return Turn::Goes(InLine::Return);
    }
    turn_name_white(byte)
}

/// Returns the effect of a byte after an equals sign.
fn turn_equals(byte: u8) -> Turn
    ensures { (size : ℕ) → IsTurn (framing.Line line.Equals size) size byte result }
{
    if byte == b' ' || byte == b'\t' {
        return Turn::Goes(InLine::Equals);
    }
    if byte == b'"' {
        return Turn::Goes(InLine::Quotes);
    }
    if is_token(byte) {
        return Turn::Goes(InLine::Token);
    }
    Turn::Never
}

/// Returns the effect of a byte in a value that is a token.
fn turn_token(byte: u8) -> Turn
    ensures { (size : ℕ) → IsTurn (framing.Line line.Token size) size byte result }
{
    if is_token(byte) {
        return Turn::Goes(InLine::Token);
    }
    turn_behind(byte)
}

/// Returns the effect of a byte in quotes.
fn turn_quotes(byte: u8) -> Turn
    ensures { (size : ℕ) → IsTurn (framing.Line line.Quotes size) size byte result }
{
    if is_quoted(byte) {
        return Turn::Goes(InLine::Quotes);
    }
    match byte {
        b'"' => Turn::Goes(InLine::AfterSize),
        b'\\' => Turn::Goes(InLine::Escape),
        _ => Turn::Never,
    }
}

/// Returns the effect of a byte after a backslash in quotes.
fn turn_escape(byte: u8) -> Turn
    ensures { (size : ℕ) → IsTurn (framing.Line line.Escape size) size byte result }
{
    if is_value(byte) {
        return Turn::Goes(InLine::Quotes);
    }
    Turn::Never
}

/// Returns the effect of a byte after the carriage return.
fn turn_return(byte: u8) -> Turn
    ensures { (size : ℕ) → IsTurn (framing.Line line.Return size) size byte result }
{
    if byte == b'\n' {
        return Turn::Ends;
    }
    Turn::Never
}

/// Returns the effect of a byte at a position of a size line.
pub(crate) fn turn_at(at: InLine, byte: u8) -> Turn
    ensures { (size : ℕ) → IsTurn (framing.Line at size) size byte result }
{
    match at {
        InLine::AfterSize => turn_behind(byte),
        InLine::White => turn_white(byte),
        InLine::Semicolon => turn_semicolon(byte),
        InLine::Name => turn_name(byte),
        InLine::NameWhite => turn_name_white(byte),
        InLine::Equals => turn_equals(byte),
        InLine::Token => turn_token(byte),
        InLine::Quotes => turn_quotes(byte),
        InLine::Escape => turn_escape(byte),
        InLine::Return => turn_return(byte),
    }
}
