//! That many bytes.
#![tactic(auto, using(streams::specs::Ends::ends_follow))]

ghost use Rattle.std.specs.Prelude.{⊤, ◌≡◌, ◌≤◌, length};
ghost use Rattle.stream_errors.specs.Form.{answer_by};
ghost use Rattle.streams.specs.Input.{Passes};
ghost use Rattle.parser_definitions.specs.Does.{Ran};
ghost use Rattle.parser_definitions.specs.Integer.{IntegerDoes};
ghost use Rattle.winnow_integers.specs.Integer.{signed_of};

use stream_errors::parser_error::ParserError;
use streams::byte_stream::ByteStream;
use streams::needed::Needed;
use streams::stream::StreamIsPartial;
use winnow_core::short::short;

/// Takes `N` bytes.
#[inline(always)]
pub(crate) fn take_bytes<const N: usize, I: StreamIsPartial + ByteStream, E: ParserError<I>>(
    input: &mut I,
) -> Result<[u8; N], E>
    ensures ran { Ran I.reading (IntegerDoes N (λ (_ : ⊤) bytes. bytes) I.reading) E.form tt
        (I.view input.old) (answer_by E.kind result) tt (I.view input.new) }
{
    let left = input.eof_offset();
    if left < N {
        return Err(short(input, Needed::new(N - left)));
    }
    Ok(next_bytes(input))
}

/// Consumes the next `N` bytes and returns them. At least `N` bytes must remain.
#[inline(always)]
fn next_bytes<const N: usize, I: ByteStream>(input: &mut I) -> [u8; N]
    requires { N ≤ length (I.view input.old).left.tokens }
    ensures { Passes I.reading result (I.view input.old) (I.view input.new) }
{
    let mut bytes = [0; N];
    for place in 0..N {
        if let Some(byte) = input.next_token() {
            bytes[place] = byte;
        }
    }
    bytes
}

/// Returns the number of 24 bits in two's complement, most significant byte first.
#[inline(always)]
pub(crate) fn signed_24(bytes: [u8; 3]) -> i32
    ensures { result ≡ signed_of bytes }
{
    let number = u32::from_be_bytes([0, bytes[0], bytes[1], bytes[2]]);
    if number < 0x80_00_00 {
        number.cast_signed()
    } else {
        number.cast_signed() - 0x1_00_00_00
    }
}
