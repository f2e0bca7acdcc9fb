//! Chunked bodies from partial input.

ghost use Rattle.std.specs.Prelude.{◌≡◌, ◌+◌, ◌⊎◌, ◌++◌, List, length, ℕ};
ghost use Rattle.format_http_chunked.specs.Decoded.{IsAt};
ghost use Rattle.format_http_chunked.specs.Outputs.{OutputBeforeRest};
ghost use Rattle.format_http_chunked.specs.State.{decoder_of};
ghost use Rattle.exported.specs.Chunked.{Call, CallsInTurn, IsFirst, TellsStep, Writes};
ghost use Rattle.exported.specs.Chunked.{fault_number};
ghost use Rattle.exported.specs.Span.{StandsAt};
ghost use Rattle.exported.specs.Code.{done, end, incomplete, invalid};
ghost use Rattle.format_http_chunked.specs.declared.state.ChunkedState.{ChunkedState};

use crate::code::{DONE, END, INCOMPLETE, INVALID};
use crate::span::{NOWHERE, Span};
use format_http_chunked::decoder::{ChunkError, Decoder, Step};
pub use format_http_chunked::state::ChunkedState;

/// Data of a chunk, one byte or more.
pub const CHUNKED_DATA: u32 = 0;

/// Bytes of the trailer section, one or more. All of them together are complete field lines, each
/// with its line ending.
pub const CHUNKED_TRAILERS: u32 = 1;

/// No error.
pub const CHUNKED_ERROR_NONE: u32 = 0;

/// Expected a chunk size. A size line does not start with a hexadecimal digit.
pub const CHUNKED_ERROR_SIZE: u32 = 1;

/// Invalid byte in a chunk size line. It can continue neither an extension nor a line ending.
pub const CHUNKED_ERROR_SIZE_LINE: u32 = 2;

/// Chunk size too large. With this digit it is 2^64 or more.
pub const CHUNKED_ERROR_SIZE_TOO_LARGE: u32 = 3;

/// Chunk size line too long. The limit counts the bytes before the next data, or before the end.
pub const CHUNKED_ERROR_SIZE_LINE_TOO_LONG: u32 = 4;

/// Expected CRLF after chunk data.
pub const CHUNKED_ERROR_DATA_END: u32 = 5;

/// Invalid byte in the trailer section. It can continue neither a field line nor the line ending
/// after the section.
pub const CHUNKED_ERROR_TRAILERS: u32 = 6;

/// Trailer section too long.
pub const CHUNKED_ERROR_TRAILERS_TOO_LONG: u32 = 7;

/// The result of a call for a chunked body.
#[repr(C)]
#[derive(Clone, Copy, Drop)]
pub struct ChunkedStep {
    /// The kind of the output.
    pub kind: u32,
    /// The span of the output in the input; zeros if there is no output.
    pub span: Span,
    /// How many bytes were taken. Those after them are the first of the next call.
    pub taken: usize,
    /// The error of the byte after the consumed bytes; `CHUNKED_ERROR_NONE` otherwise.
    pub error: u32,
}

/// Returns the number of an error.
fn number_of(fault: ChunkError) -> u32
    ensures { result ≡ fault_number fault }
{
    match fault {
        ChunkError::Size => CHUNKED_ERROR_SIZE,
        ChunkError::SizeLine => CHUNKED_ERROR_SIZE_LINE,
        ChunkError::SizeTooLarge => CHUNKED_ERROR_SIZE_TOO_LARGE,
        ChunkError::SizeLineTooLong => CHUNKED_ERROR_SIZE_LINE_TOO_LONG,
        ChunkError::DataEnd => CHUNKED_ERROR_DATA_END,
        ChunkError::Trailers => CHUNKED_ERROR_TRAILERS,
        ChunkError::TrailersTooLong => CHUNKED_ERROR_TRAILERS_TOO_LONG,
    }
}

/// How many of the bytes are before the rest, with which they end.
fn taken_of(bytes: &[u8], rest: &[u8]) -> usize
    requires { (before : List ℕ) × (bytes.now ≡ before ++ rest.now) }
    ensures { length bytes.now ≡ result + length rest.now }
{
    let behind = rest.len();
    bytes.len() - behind
}

/// Returns the span of `text`, which ends directly before `rest`.
fn place_of(bytes: &[u8], text: &[u8], rest: &[u8]) -> Span
    requires { (before : List ℕ) × (bytes.now ≡ before ++ (text.now ++ rest.now)) }
    ensures { StandsAt bytes.now result text.now rest.now }
{
    Span {
        offset: bytes.len() - rest.len() - text.len(),
        length: text.len(),
    }
}

/// Returns the code and the output for the decoder's result `said`, after which `rest` remains.
fn step_of(bytes: &[u8], rest: &[u8], said: Result<Step<'_>, ChunkError>) -> (u32, ChunkedStep)
    requires { OutputBeforeRest bytes.now rest.now said }
    ensures writes { Writes bytes.now rest.now said.entry result.0 result.1 }
    ensures taken { length bytes.now ≡ result.1.taken + length rest.now }
{
    let nothing = ChunkedStep {
        kind: 0,
        span: NOWHERE,
        taken: taken_of(bytes, rest),
        error: CHUNKED_ERROR_NONE,
    };
    match said {
        Ok(Step::Data(data)) => {
            let place = place_of(bytes, data, rest);
            (
                DONE,
                ChunkedStep {
                    kind: CHUNKED_DATA,
                    span: place,
                    ..nothing
                },
            )
        }
        Ok(Step::Trailers(fields)) => {
            let place = place_of(bytes, fields, rest);
            (
                DONE,
                ChunkedStep {
                    kind: CHUNKED_TRAILERS,
                    span: place,
                    ..nothing
                },
            )
        }
        Ok(Step::End) => (END, nothing),
        Ok(Step::More) => (INCOMPLETE, nothing),
        Err(fault) => (
            INVALID,
            ChunkedStep {
                error: number_of(fault),
                ..nothing
            },
        ),
    }
}

/// Decodes the next part of a chunked body of HTTP/1.1 (RFC 9112, section 7.1) in input that
/// arrives in chunks of any size: data, bytes of trailers, or the end.
///
/// No call looks again at bytes that an earlier call consumed, so all calls for a body take time
/// linear in its length.
///
/// For the first call, `state` must be all zeros, or an initial state with other limits. Each
/// further call for the same body must have the state that the previous call left, and bytes that
/// follow the consumed ones.
///
/// `DONE`: the kind and the span of the output are written. The data of all calls together are the
/// content of the body. The bytes of trailers together are its trailer section, without the line
/// ending after it.
///
/// `END`: the body is complete, and the bytes after the consumed ones follow it. A further call
/// with the same state returns the same. Reset the state to its initial value for the next body.
///
/// `INCOMPLETE`: all bytes are consumed. They are not a complete body, but more bytes can complete
/// one.
///
/// Only `DONE` writes a kind and a span. Extensions of size lines are skipped, and bytes of data
/// are not checked. If the state was modified or the bytes do not follow, the result may be wrong,
/// but nothing outside `bytes` is read.
///
/// # Errors
///
/// `INVALID`: no body can continue with the byte after the consumed ones, or only one of 2^64 bytes
/// or more, or a limit is exceeded.
///
/// # Safety
///
/// `state` must be valid for reads and writes of one state, and `out` for writes of one step.
/// `bytes` must be valid for reads of `bytes_length` bytes, which must not change during the call.
/// None of these may overlap. The call needs 16 KiB of stack.
#[unsafe(no_mangle)]
pub extern "C" fn exported_http_chunked(
    state: &mut ChunkedState,
    bytes: &[u8],
    out: &mut ChunkedStep,
) -> u32
    ensures told { TellsStep state.old state.new bytes.now result out.new }
    ensures codes { (result ≡ done) ⊎ ((result ≡ end) ⊎ ((result ≡ incomplete)
        ⊎ (result ≡ invalid))) }
{
    let mut decoder = Decoder::of_state(*state);
    let mut rest = bytes;
    let said = decoder.advance(&mut rest);
    *state = decoder.state();
    let (code, step) = step_of(bytes, rest, said);
    *out = step;
    code
}

/// States that successive calls of `exported_http_chunked` decode one body. The first call starts
/// with an initial state, such as zeros, and each further call has the state that the previous one
/// left. Their output is that of the body that starts with all bytes that they consumed, in order.
/// So the result of the next call holds for all of these bytes and its own.
pub fn calls_in_turn_are_of_one_body()
    ensures { (first : ChunkedState) → IsFirst first
        → (calls : List Call) (state : ChunkedState) (taken content trailers : List ℕ)
        → CallsInTurn first calls state taken content trailers
        → IsAt (decoder_of state).place taken content trailers }
{}

/// A state of zeros is one of which nothing was taken, and so is one with other limits.
pub fn a_state_begins_at_zeros_and_at_one()
    ensures zeros { (state : ChunkedState) → state.place ≡ 0 → IsFirst state }
    ensures limits { (state : ChunkedState) → state.place ≡ 1 → IsFirst state }
{}
