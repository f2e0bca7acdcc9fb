//! Runs of bytes of one class at the start of the input.

ghost use Rattle.std.specs.Prelude.{◌↔◌, IsTrue};
ghost use Rattle.format_http.specs.Heads.Bytes.{IsTokenByte, IsValueByte, IsVisible, IsWhite};
ghost use Rattle.format_http_places.specs.Places.{IsBare};
ghost use Rattle.format_http_places.specs.Runs.{SoMany};

use crate::lanes::{LANES, name_run, target_run, value_run};
use crate::places::Span;
use crate::stop::behind;

// Each byte of a token at its own index, and a comma at every other index.
static TOKENS: [u8; 256] = *b"\
    ,,,,,,,,,,,,,,,,,,,,,,,,,,,,,,,,\
    ,!,#$%&',,*+,-.,0123456789,,,,,,\
    ,ABCDEFGHIJKLMNOPQRSTUVWXYZ,,,^_\
    `abcdefghijklmnopqrstuvwxyz,|,~,\
    ,,,,,,,,,,,,,,,,,,,,,,,,,,,,,,,,\
    ,,,,,,,,,,,,,,,,,,,,,,,,,,,,,,,,\
    ,,,,,,,,,,,,,,,,,,,,,,,,,,,,,,,,\
    ,,,,,,,,,,,,,,,,,,,,,,,,,,,,,,,,";

#[inline(always)]
pub(crate) fn is_token(byte: u8) -> bool
    ensures { IsTrue result ↔ IsTokenByte byte }
{
    TOKENS[byte as usize] != b','
}

#[inline(always)]
pub(crate) fn is_visible(byte: u8) -> bool
    ensures { IsTrue result ↔ IsVisible byte }
{
    b'!' <= byte && byte <= b'~'
}

#[inline(always)]
pub(crate) fn is_value(byte: u8) -> bool
    ensures { IsTrue result ↔ IsValueByte byte }
{
    (byte >= b' ' && byte != 0x7f) || byte == b'\t'
}

#[inline(always)]
fn is_white(byte: u8) -> bool
    ensures { IsTrue result ↔ IsWhite byte }
{
    byte == b' ' || byte == b'\t'
}

/// How many bytes of a token.
#[inline(always)]
pub(crate) fn token_len(bytes: &[u8]) -> usize
    ensures { SoMany IsTokenByte bytes.now result }
{
    let mut at = 0;
    if bytes.len() >= LANES {
        at = name_run(bytes);
    }
    while at < bytes.len() && is_token(bytes[at]) {
        at += 1;
    }
    at
}

/// How many bytes of a target.
#[inline(always)]
pub(crate) fn target_len(bytes: &[u8]) -> usize
    ensures { SoMany IsVisible bytes.now result }
{
    let mut at = 0;
    'lanes: while bytes.len() - at >= LANES {
        let run = target_run(behind(bytes, at));
        if run < LANES {
            return at + run;
        }
        at += LANES;
    }
    while at < bytes.len() && is_visible(bytes[at]) {
        at += 1;
    }
    at
}

/// How many bytes of a value.
#[inline(always)]
pub(crate) fn value_len(bytes: &[u8]) -> usize
    ensures { SoMany IsValueByte bytes.now result }
{
    let mut at = 0;
    'lanes: while bytes.len() - at >= LANES {
        let run = value_run(behind(bytes, at));
        if run < LANES {
            return at + run;
        }
        at += LANES;
    }
    while at < bytes.len() && is_value(bytes[at]) {
        at += 1;
    }
    at
}

/// How many bytes of whitespace.
#[inline(always)]
fn white_len(bytes: &[u8]) -> usize
    ensures { SoMany IsWhite bytes.now result }
{
    let mut at = 0;
    while at < bytes.len() && is_white(bytes[at]) {
        at += 1;
    }
    at
}

/// Returns the position of a text without the whitespace at both ends.
#[inline(always)]
pub(crate) fn bare(text: &[u8]) -> Span
    ensures { IsBare text.now result }
{
    let offset = white_len(text);
    let mut end = text.len();
    while end > offset && is_white(text[end - 1]) {
        end -= 1;
    }
    Span {
        offset,
        length: end - offset,
    }
}
