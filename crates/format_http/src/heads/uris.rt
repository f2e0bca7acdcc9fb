//! Hosts and request targets (RFC 3986, and RFC 9112, section 3.2), byte by byte.
#![tactic(auto)]

ghost use Rattle.format_http.specs.Heads.Bytes.{IsDigit};
ghost use Rattle.format_http.specs.Heads.Targets.{IsAbsoluteForm, IsAuthorityForm};
ghost use Rattle.format_http.specs.Heads.UriDues.{AfterHost, IsDue, IsStep, StartsPath};
ghost use Rattle.format_http.specs.Heads.Uris.{IsAddressByte, IsHost, IsLetter, IsNameByte};
ghost use Rattle.format_http.specs.Heads.Uris.{IsPathByte, IsSchemeByte, Path};
ghost use Rattle.format_http.specs.declared.heads.uris.Place.TheVariants as place;
ghost use Rattle.format_http_chunked.specs.Bodies.{IsHexDigit};
ghost use Rattle.std.specs.Prelude.{◌↔◌, [], IsTrue};

/// A grammar of bytes.
#[derive(Clone, Copy, Drop)]
pub(crate) enum Kind {
    /// A host, and a port if there is one.
    Host,
    /// A host and a port.
    Authority,
    /// A URI.
    Absolute,
}

/// A state in these bytes, before the next one.
#[derive(Clone, Copy, Drop)]
pub(crate) enum Place {
    /// At the start of a host.
    Start,
    /// In a host that is a name.
    Name,
    /// After a percent sign in a name.
    NameHigh,
    /// After the first digit that follows a percent sign in a name.
    NameLow,
    /// After an opening bracket.
    Bracket,
    /// In an address in brackets.
    Address,
    /// After a closing bracket.
    AfterHost,
    /// In a port.
    Port,
    /// At the start of a scheme.
    SchemeStart,
    /// In a scheme.
    Scheme,
    /// After the colon that follows a scheme.
    Colon,
    /// After a slash that follows this colon.
    Slash,
    /// In a path or a query.
    Path,
    /// After a percent sign in a path or a query.
    PathHigh,
    /// After the first digit that follows a percent sign in a path or a query.
    PathLow,
}

/// Whether a byte is a letter.
fn is_letter(byte: u8) -> bool
    ensures { IsTrue result ↔ IsLetter byte }
{
    byte.is_ascii_uppercase() || byte.is_ascii_lowercase()
}

/// Whether a byte is a digit.
fn is_digit(byte: u8) -> bool
    ensures { IsTrue result ↔ IsDigit byte }
{
    byte.is_ascii_digit()
}

/// Whether a byte is one of a scheme.
fn is_scheme(byte: u8) -> bool
    ensures { IsTrue result ↔ IsSchemeByte byte }
{
    is_letter(byte) || byte.is_ascii_digit() || byte == b'+' || (b'-' <= byte && byte <= b'.')
}

/// Whether a byte is one of a host that is a name.
fn is_name(byte: u8) -> bool
    ensures { IsTrue result ↔ IsNameByte byte }
{
    is_letter(byte)
        || byte.is_ascii_digit()
        || (b'-' <= byte && byte <= b'.')
        || byte == b'_'
        || byte == b'~'
        || byte == b'!'
        || byte == b'$'
        || (b'&' <= byte && byte <= b',')
        || byte == b';'
        || byte == b'='
}

/// Whether a byte is one of an address in brackets.
fn is_address(byte: u8) -> bool
    ensures { IsTrue result ↔ IsAddressByte byte }
{
    is_name(byte) || byte == b':'
}

/// Whether a byte is one of a path or a query.
fn is_path(byte: u8) -> bool
    ensures { IsTrue result ↔ IsPathByte byte }
{
    is_name(byte) || (b'?' <= byte && byte <= b'@') || byte == b':' || byte == b'/'
}

/// Whether a byte is a hexadecimal digit.
fn is_hex(byte: u8) -> bool
    ensures { IsTrue result ↔ IsHexDigit byte }
{
    byte.is_ascii_digit() || (b'A' <= byte && byte <= b'F') || (b'a' <= byte && byte <= b'f')
}

/// Returns the state after a byte in a path or a query.
fn step_path(of: Kind, byte: u8) -> Option<Place>
    ensures { IsStep of place.Path byte result }
{
    if is_path(byte) {
        return Some(Place::Path);
    }
    if byte == b'%' {
        return Some(Place::PathHigh);
    }
    None
}

/// Returns the state after a byte that follows a percent sign in a path or a query.
fn step_path_high(of: Kind, byte: u8) -> Option<Place>
    ensures { IsStep of place.PathHigh byte result }
{
    if is_hex(byte) {
        return Some(Place::PathLow);
    }
    None
}

/// Returns the state after a byte that follows the first digit after a percent sign in a path.
fn step_path_low(of: Kind, byte: u8) -> Option<Place>
    ensures { IsStep of place.PathLow byte result }
{
    if is_hex(byte) {
        return Some(Place::Path);
    }
    None
}

/// Whether a byte may start a path after a host.
fn is_start(of: Kind, byte: u8) -> bool
    ensures { IsTrue result ↔ StartsPath of byte }
{
    match of {
        Kind::Host | Kind::Authority => false,
        Kind::Absolute => byte == b'/' || byte == b'?',
    }
}

/// Returns the state after a byte in a port.
fn step_port(of: Kind, byte: u8) -> Option<Place>
    ensures { IsStep of place.Port byte result }
{
    if is_digit(byte) {
        return Some(Place::Port);
    }
    if is_start(of, byte) {
        return Some(Place::Path);
    }
    None
}

/// Returns the state after a byte that follows a host.
fn step_after_host(of: Kind, byte: u8) -> Option<Place>
    ensures { IsStep of place.AfterHost byte result }
{
    if byte == b':' {
        return Some(Place::Port);
    }
    if is_start(of, byte) {
        return Some(Place::Path);
    }
    None
}

/// Returns the state after a byte in a host that is a name.
fn step_name(of: Kind, byte: u8) -> Option<Place>
    ensures { IsStep of place.Name byte result }
{
    if is_name(byte) {
        return Some(Place::Name);
    }
    if byte == b'%' {
        return Some(Place::NameHigh);
    }
    step_after_host(of, byte)
}

/// Returns the state after a byte that follows a percent sign in a name.
fn step_name_high(of: Kind, byte: u8) -> Option<Place>
    ensures { IsStep of place.NameHigh byte result }
{
    if is_hex(byte) {
        return Some(Place::NameLow);
    }
    None
}

/// Returns the state after a byte that follows the first digit after a percent sign in a name.
fn step_name_low(of: Kind, byte: u8) -> Option<Place>
    ensures { IsStep of place.NameLow byte result }
{
    if is_hex(byte) {
        return Some(Place::Name);
    }
    None
}

/// Returns the state after a byte at the start of a host.
fn step_start(of: Kind, byte: u8) -> Option<Place>
    ensures { IsStep of place.Start byte result }
{
    if byte == b'[' {
        return Some(Place::Bracket);
    }
    step_name(of, byte)
}

/// Returns the state after a byte that follows an opening bracket.
fn step_bracket(of: Kind, byte: u8) -> Option<Place>
    ensures { IsStep of place.Bracket byte result }
{
    if is_address(byte) {
        return Some(Place::Address);
    }
    None
}

/// Returns the state after a byte in an address in brackets.
fn step_address(of: Kind, byte: u8) -> Option<Place>
    ensures { IsStep of place.Address byte result }
{
    if is_address(byte) {
        return Some(Place::Address);
    }
    if byte == b']' {
        return Some(Place::AfterHost);
    }
    None
}

/// Returns the state after a byte at the start of a scheme.
fn step_scheme_start(of: Kind, byte: u8) -> Option<Place>
    ensures { IsStep of place.SchemeStart byte result }
{
    if is_letter(byte) {
        return Some(Place::Scheme);
    }
    None
}

/// Returns the state after a byte in a scheme.
fn step_scheme(of: Kind, byte: u8) -> Option<Place>
    ensures { IsStep of place.Scheme byte result }
{
    if is_scheme(byte) {
        return Some(Place::Scheme);
    }
    if byte == b':' {
        return Some(Place::Colon);
    }
    None
}

/// Returns the state after a byte that follows a scheme and its colon.
fn step_colon(of: Kind, byte: u8) -> Option<Place>
    ensures { IsStep of place.Colon byte result }
{
    if byte == b'/' {
        return Some(Place::Slash);
    }
    step_path(of, byte)
}

/// Returns the state after a byte that follows a scheme, its colon and a slash.
fn step_slash(of: Kind, byte: u8) -> Option<Place>
    ensures { IsStep of place.Slash byte result }
{
    if byte == b'/' {
        return Some(Place::Start);
    }
    step_path(of, byte)
}

/// Returns the state after a byte, or `None` if nothing continues with it.
fn step_at(of: Kind, at: Place, byte: u8) -> Option<Place>
    ensures { IsStep of at byte result }
{
    match at {
        Place::Start => step_start(of, byte),
        Place::Name => step_name(of, byte),
        Place::NameHigh => step_name_high(of, byte),
        Place::NameLow => step_name_low(of, byte),
        Place::Bracket => step_bracket(of, byte),
        Place::Address => step_address(of, byte),
        Place::AfterHost => step_after_host(of, byte),
        Place::Port => step_port(of, byte),
        Place::SchemeStart => step_scheme_start(of, byte),
        Place::Scheme => step_scheme(of, byte),
        Place::Colon => step_colon(of, byte),
        Place::Slash => step_slash(of, byte),
        Place::Path => step_path(of, byte),
        Place::PathHigh => step_path_high(of, byte),
        Place::PathLow => step_path_low(of, byte),
    }
}

/// Whether bytes may end after a host without a port.
fn may_lack_port(of: Kind) -> bool
    ensures { IsTrue result ↔ AfterHost of [] }
{
    match of {
        Kind::Host | Kind::Absolute => true,
        Kind::Authority => false,
    }
}

/// Whether bytes may end in a state.
fn may_end(of: Kind, at: Place) -> bool
    ensures { IsTrue result ↔ IsDue of at [] }
{
    match at {
        Place::Start => may_lack_port(of),
        Place::Name => may_lack_port(of),
        Place::AfterHost => may_lack_port(of),
        Place::Port | Place::Colon | Place::Slash | Place::Path => true,
        Place::NameHigh | Place::NameLow | Place::Bracket | Place::Address => false,
        Place::SchemeStart | Place::Scheme | Place::PathHigh | Place::PathLow => false,
    }
}

/// Whether bytes are what is expected in a state.
fn is_due(of: Kind, start: Place, text: &[u8]) -> bool
    ensures { IsTrue result ↔ IsDue of start text.now }
{
    let mut at = start;
    for byte in text {
        match step_at(of, at, *byte) {
            Some(next) => at = next,
            None => return false,
        }
    }
    may_end(of, at)
}

/// Whether bytes are a host, and a port if there is one.
pub(crate) fn is_host(text: &[u8]) -> bool
    ensures { IsTrue result ↔ IsHost text.now }
{
    is_due(Kind::Host, Place::Start, text)
}

/// Whether bytes are a host and a port.
pub(crate) fn is_authority_form(text: &[u8]) -> bool
    ensures { IsTrue result ↔ IsAuthorityForm text.now }
{
    is_due(Kind::Authority, Place::Start, text)
}

/// Whether bytes are a URI.
pub(crate) fn is_absolute_form(text: &[u8]) -> bool
    ensures { IsTrue result ↔ IsAbsoluteForm text.now }
{
    is_due(Kind::Absolute, Place::SchemeStart, text)
}

/// Whether bytes are the rest of a path, and a query if there is one.
pub(crate) fn is_path_rest(text: &[u8]) -> bool
    ensures { IsTrue result ↔ Path text.now }
{
    is_due(Kind::Host, Place::Path, text)
}
