//! The offset at which a head cannot continue.

ghost use Rattle.std.specs.Prelude.{◌≡◌, ◌≤◌, ◌∷◌, ◌++◌, MatchResult, drop, length, take};
ghost use Rattle.format_http_places.specs.Grammar.{Differs};
ghost use Rattle.format_http_places.specs.Runs.{NotFirst};
/// The number of bytes that remain, starting with the one that cannot continue a head; or 0, if
/// more bytes are needed.
#[derive(Clone, Copy, Drop)]
pub(crate) struct Stop {
    pub left: usize,
}

/// The bytes after the first ones.
#[inline(always)]
pub(crate) fn behind(bytes: &[u8], size: usize) -> &[u8]
    requires { size ≤ length bytes.now }
    ensures { result.now ≡ drop size bytes.now }
{
    &bytes[size..]
}

/// The first bytes.
#[inline(always)]
pub(crate) fn front(bytes: &[u8], size: usize) -> &[u8]
    requires { size ≤ length bytes.now }
    ensures { result.now ≡ take size bytes.now }
{
    &bytes[..size]
}

/// Skips `byte` and returns the rest.
#[inline(always)]
pub(crate) fn read_byte(bytes: &[u8], byte: u8) -> Result<&[u8], Stop>
    ensures { MatchResult result (λ rest. bytes.now ≡ byte ∷ rest.now)
        (λ stop. NotFirst (λ b. b ≡ byte) bytes.now × (stop.left ≡ length bytes.now)) }
{
    match bytes.first() {
        Some(first) if *first == byte => Ok(behind(bytes, 1)),
        _ => Err(Stop { left: bytes.len() }),
    }
}

/// Skips `text` and returns the rest.
pub(crate) fn read_text<'i>(bytes: &'i [u8], text: &[u8]) -> Result<&'i [u8], Stop>
    ensures { MatchResult result (λ rest. bytes.now ≡ text.now ++ rest.now)
        (λ stop. Differs text.now bytes.now stop.left) }
{
    let mut rest = bytes;
    for byte in text {
        rest = read_byte(rest, *byte)?;
    }
    Ok(rest)
}
