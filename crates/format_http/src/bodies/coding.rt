//! A transfer coding (RFC 9110, section 10.1.4): a token, and parameters after semicolons.
#![tactic(auto)]

ghost use Rattle.format_http.specs.Bodies.Codings.{IsCoding};
ghost use Rattle.format_http.specs.Bodies.Dues.{IsDue, IsStep};
ghost use Rattle.format_http.specs.Heads.Bytes.{IsTokenByte};
ghost use Rattle.format_http.specs.declared.bodies.coding.Place.TheVariants as place;
ghost use Rattle.format_http_chunked.specs.Bodies.{IsQuotedByte, IsValueByte};
ghost use Rattle.std.specs.Prelude.{◌↔◌, [], IsTrue};

/// A state in a coding, before the next byte.
#[derive(Clone, Copy, Drop)]
pub(crate) enum Place {
    /// At its start.
    Start,
    /// In its name, or in a value that is a token.
    Token,
    /// After a quoted string.
    Closed,
    /// After whitespace that follows a name or a value.
    White,
    /// After a semicolon, and whitespace.
    Semicolon,
    /// In the name of a parameter.
    Name,
    /// After whitespace that follows the name of a parameter.
    NameWhite,
    /// After an equals sign, and whitespace.
    Equals,
    /// In a quoted string.
    Quotes,
    /// After a backslash in a quoted string.
    Escape,
}

/// Whether a byte is one of a token.
fn is_token(byte: u8) -> bool
    ensures { IsTrue result ↔ IsTokenByte byte }
{
    byte.is_ascii_digit()
        || byte.is_ascii_uppercase()
        || (b'^' <= byte && byte <= b'z')
        || byte == b'!'
        || (b'#' <= byte && byte <= b'\'')
        || (b'*' <= byte && byte <= b'+')
        || (b'-' <= byte && byte <= b'.')
        || byte == b'|'
        || byte == b'~'
}

/// Whether a byte stands for itself in a quoted string.
fn is_quoted(byte: u8) -> bool
    ensures { IsTrue result ↔ IsQuotedByte byte }
{
    byte == b'\t'
        || byte == b' '
        || byte == b'!'
        || (b'#' <= byte && byte <= b'[')
        || (b']' <= byte && byte <= b'~')
        || byte >= 128
}

/// Whether a byte may follow a backslash.
fn is_value(byte: u8) -> bool
    ensures { IsTrue result ↔ IsValueByte byte }
{
    (b' ' <= byte && byte != 127) || byte == b'\t'
}

/// Returns the state after a byte at the start of a coding.
fn step_start(byte: u8) -> Option<Place>
    ensures { IsStep place.Start byte result }
{
    if is_token(byte) {
        return Some(Place::Token);
    }
    None
}

/// Returns the state after a byte that follows a quoted string.
fn step_closed(byte: u8) -> Option<Place>
    ensures { IsStep place.Closed byte result }
{
    match byte {
        b';' => Some(Place::Semicolon),
        b' ' | b'\t' => Some(Place::White),
        _ => None,
    }
}

/// Returns the state after a byte in a token.
fn step_token(byte: u8) -> Option<Place>
    ensures { IsStep place.Token byte result }
{
    if is_token(byte) {
        return Some(Place::Token);
    }
    step_closed(byte)
}

/// Returns the state after a byte that follows a name or a value and whitespace.
fn step_white(byte: u8) -> Option<Place>
    ensures { IsStep place.White byte result }
{
    match byte {
        b';' => Some(Place::Semicolon),
        b' ' | b'\t' => Some(Place::White),
        _ => None,
    }
}

/// Returns the state after a byte that follows a semicolon.
fn step_semicolon(byte: u8) -> Option<Place>
    ensures { IsStep place.Semicolon byte result }
{
    if byte == b' ' || byte == b'\t' {
        return Some(Place::Semicolon);
    }
    if is_token(byte) {
        return Some(Place::Name);
    }
    None
}

/// Returns the state after a byte that follows the name of a parameter and whitespace.
fn step_name_white(byte: u8) -> Option<Place>
    ensures { IsStep place.NameWhite byte result }
{
    match byte {
        b'=' => Some(Place::Equals),
        b' ' | b'\t' => Some(Place::NameWhite),
        _ => None,
    }
}

/// Returns the state after a byte in the name of a parameter.
fn step_name(byte: u8) -> Option<Place>
    ensures { IsStep place.Name byte result }
{
    if is_token(byte) {
        return Some(Place::Name);
    }
    step_name_white(byte)
}

/// Returns the state after a byte that follows an equals sign.
fn step_equals(byte: u8) -> Option<Place>
    ensures { IsStep place.Equals byte result }
{
    if byte == b' ' || byte == b'\t' {
        return Some(Place::Equals);
    }
    if byte == b'"' {
        return Some(Place::Quotes);
    }
    if is_token(byte) {
        return Some(Place::Token);
    }
    None
}

/// Returns the state after a byte in a quoted string.
fn step_quotes(byte: u8) -> Option<Place>
    ensures { IsStep place.Quotes byte result }
{
    if is_quoted(byte) {
        return Some(Place::Quotes);
    }
    match byte {
        b'"' => Some(Place::Closed),
        b'\\' => Some(Place::Escape),
        _ => None,
    }
}

/// Returns the state after a byte that follows a backslash in a quoted string.
fn step_escape(byte: u8) -> Option<Place>
    ensures { IsStep place.Escape byte result }
{
    if is_value(byte) {
        return Some(Place::Quotes);
    }
    None
}

/// Returns the state after a byte of a coding, or `None` if no coding continues with it.
fn step_at(at: Place, byte: u8) -> Option<Place>
    ensures { IsStep at byte result }
{
    match at {
        Place::Start => step_start(byte),
        Place::Token => step_token(byte),
        Place::Closed => step_closed(byte),
        Place::White => step_white(byte),
        Place::Semicolon => step_semicolon(byte),
        Place::Name => step_name(byte),
        Place::NameWhite => step_name_white(byte),
        Place::Equals => step_equals(byte),
        Place::Quotes => step_quotes(byte),
        Place::Escape => step_escape(byte),
    }
}

/// Whether a coding may end in a state.
fn may_end(at: Place) -> bool
    ensures { IsTrue result ↔ IsDue at [] }
{
    match at {
        Place::Token | Place::Closed => true,
        Place::Start | Place::White | Place::Semicolon | Place::Name => false,
        Place::NameWhite | Place::Equals | Place::Escape => false,
        Place::Quotes => false,
    }
}

/// Whether bytes are a transfer coding.
pub(crate) fn is_coding(coding: &[u8]) -> bool
    ensures { IsTrue result ↔ IsCoding coding.now }
{
    let mut at = Place::Start;
    for byte in coding {
        match step_at(at, *byte) {
            Some(next) => at = next,
            None => return false,
        }
    }
    may_end(at)
}
