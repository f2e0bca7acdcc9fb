//! The ends of heads in partial input.

ghost use Rattle.std.specs.Prelude.{◌≡◌, ◌≤◌, ◌⊎◌, ◌++◌, [], List, length, ℕ};
ghost use Rattle.format_http_places.specs.Extents.{IsOf};
ghost use Rattle.exported.specs.Code.{done, incomplete, invalid};
ghost use Rattle.exported.specs.HttpExtent.{HeadCalls, TellsHead, head_extent_of, nothing};
ghost use Rattle.exported.specs.HttpExtent.{place_at};
ghost use Rattle.exported.specs.Turns.{all_of};
ghost use Rattle.exported.specs.declared.http.extent.HttpHeadState.{HttpHeadState};

use crate::code::{DONE, INCOMPLETE, INVALID};
use format_http_places::extent::HeadExtent;
use format_http_places::parts::HeadKind;
use format_http_places::state::{FirstLine, HeadPlace};

/// The state of a search for the end of the head of a request or a response, or of field lines.
/// Only the functions of this library may interpret its fields. All zeros is the initial state;
/// start from it for each head.
#[repr(C)]
#[derive(Clone, Copy, Drop)]
pub struct HttpHeadState {
    /// How many bytes were passed.
    pub passed: usize,
    /// The part of the head that is expected next; 0 at its start.
    pub place: usize,
}

/// Returns the state of a head of this kind that a number represents.
fn place_of(kind: HeadKind, number: usize) -> HeadPlace
    ensures { result ≡ place_at kind number }
{
    match number {
        0 => HeadPlace::start(kind),
        1 => HeadPlace::Start,
        2 => HeadPlace::Method,
        3 => HeadPlace::TargetStart,
        4 => HeadPlace::Target,
        5 => HeadPlace::Version(FirstLine::Request),
        6 => HeadPlace::AfterH(FirstLine::Request),
        7 => HeadPlace::AfterT(FirstLine::Request),
        8 => HeadPlace::AfterTT(FirstLine::Request),
        9 => HeadPlace::AfterP(FirstLine::Request),
        10 => HeadPlace::Major(FirstLine::Request),
        11 => HeadPlace::Point(FirstLine::Request),
        12 => HeadPlace::Minor(FirstLine::Request),
        13 => HeadPlace::Version(FirstLine::Response),
        14 => HeadPlace::AfterH(FirstLine::Response),
        15 => HeadPlace::AfterT(FirstLine::Response),
        16 => HeadPlace::AfterTT(FirstLine::Response),
        17 => HeadPlace::AfterP(FirstLine::Response),
        18 => HeadPlace::Major(FirstLine::Response),
        19 => HeadPlace::Point(FirstLine::Response),
        20 => HeadPlace::Minor(FirstLine::Response),
        21 => HeadPlace::Return,
        22 => HeadPlace::Space,
        23 => HeadPlace::Hundreds,
        24 => HeadPlace::Tens,
        25 => HeadPlace::Ones,
        26 => HeadPlace::AfterCode,
        27 => HeadPlace::LineFeed,
        28 => HeadPlace::Fields,
        29 => HeadPlace::Name,
        30 => HeadPlace::Value,
        31 => HeadPlace::LastLineFeed,
        _ => HeadPlace::Done,
    }
}

/// Returns the number of a state.
fn number_of(place: HeadPlace) -> usize
    ensures { (kind : HeadKind) → place_at kind result ≡ place }
{
    match place {
        HeadPlace::Start => 1,
        HeadPlace::Method => 2,
        HeadPlace::TargetStart => 3,
        HeadPlace::Target => 4,
        HeadPlace::Version(FirstLine::Request) => 5,
        HeadPlace::AfterH(FirstLine::Request) => 6,
        HeadPlace::AfterT(FirstLine::Request) => 7,
        HeadPlace::AfterTT(FirstLine::Request) => 8,
        HeadPlace::AfterP(FirstLine::Request) => 9,
        HeadPlace::Major(FirstLine::Request) => 10,
        HeadPlace::Point(FirstLine::Request) => 11,
        HeadPlace::Minor(FirstLine::Request) => 12,
        HeadPlace::Version(FirstLine::Response) => 13,
        HeadPlace::AfterH(FirstLine::Response) => 14,
        HeadPlace::AfterT(FirstLine::Response) => 15,
        HeadPlace::AfterTT(FirstLine::Response) => 16,
        HeadPlace::AfterP(FirstLine::Response) => 17,
        HeadPlace::Major(FirstLine::Response) => 18,
        HeadPlace::Point(FirstLine::Response) => 19,
        HeadPlace::Minor(FirstLine::Response) => 20,
        HeadPlace::Return => 21,
        HeadPlace::Space => 22,
        HeadPlace::Hundreds => 23,
        HeadPlace::Tens => 24,
        HeadPlace::Ones => 25,
        HeadPlace::AfterCode => 26,
        HeadPlace::LineFeed => 27,
        HeadPlace::Fields => 28,
        HeadPlace::Name => 29,
        HeadPlace::Value => 30,
        HeadPlace::LastLineFeed => 31,
        HeadPlace::Done => 32,
    }
}

/// Returns the extent that `state` represents.
fn extent_at(kind: HeadKind, state: HttpHeadState) -> HeadExtent
    ensures { result ≡ head_extent_of kind state }
{
    HeadExtent {
        passed: state.passed,
        place: place_of(kind, state.place),
    }
}

/// Returns the corresponding state.
fn state_at(extent: HeadExtent) -> HttpHeadState
    ensures { (kind : HeadKind) → head_extent_of kind result ≡ extent }
{
    HttpHeadState {
        passed: extent.passed,
        place: number_of(extent.place),
    }
}

/// Finds the end of a head of this kind.
fn find_end(kind: HeadKind, state: &mut HttpHeadState, bytes: &[u8], out: &mut usize) -> u32
    ensures told { IsOf kind (head_extent_of kind state.old) bytes.now
        → TellsHead kind bytes.now result out.new state.new }
    ensures none { result ≡ incomplete → out.new ≡ 0 }
    ensures within { out.new ≤ length bytes.now }
    ensures codes { (result ≡ done) ⊎ ((result ≡ incomplete) ⊎ (result ≡ invalid)) }
{
    let mut extent = extent_at(kind, *state);
    let answer = extent.advance(bytes);
    *state = state_at(extent);
    match answer {
        Ok(Some(length)) => {
            *out = length;
            DONE
        }
        Ok(None) => {
            *out = 0;
            INCOMPLETE
        }
        Err(refused) => {
            *out = refused.place;
            INVALID
        }
    }
}

/// Finds the end of the head of an HTTP/1.1 request (RFC 9112) in input that arrives in chunks.
///
/// No call looks again at bytes that an earlier call scanned, so all calls for a head take time
/// linear in its length. To obtain the parts of the head, pass its bytes to `exported_http_head`;
/// to obtain the reason of an error, pass all bytes to `exported_http_head_partial`.
///
/// For the first call, `state` must be all zeros. Each further call for the same head must have the
/// state that the previous call left, and the bytes of the previous call followed by more bytes.
///
/// `DONE`: `bytes` starts with a head, whose length is written. Reset the state to zeros for the
/// next head.
///
/// `INCOMPLETE`: `bytes` does not start with a head, but more bytes can complete one. 0 is written.
///
/// If `state` belongs to other bytes or was modified, the result may be wrong, but nothing outside
/// `bytes` is read.
///
/// # Errors
///
/// `INVALID`: `bytes` does not start with a head, regardless of what follows. The first offset at
/// which no head can continue is written.
///
/// # Safety
///
/// `state` must be valid for reads and writes of one state, and `out` for writes of one length.
/// `bytes` must be valid for reads of `bytes_length` bytes, which must not change during the call.
/// None of these may overlap. The call needs 16 KiB of stack.
#[unsafe(no_mangle)]
pub extern "C" fn exported_http_head_extent(
    state: &mut HttpHeadState,
    bytes: &[u8],
    out: &mut usize,
) -> u32
    ensures told { IsOf HeadKind.Request (head_extent_of HeadKind.Request state.old) bytes.now
        → TellsHead HeadKind.Request bytes.now result out.new state.new }
    ensures none { result ≡ incomplete → out.new ≡ 0 }
    ensures within { out.new ≤ length bytes.now }
    ensures codes { (result ≡ done) ⊎ ((result ≡ incomplete) ⊎ (result ≡ invalid)) }
{
    find_end(HeadKind::Request, state, bytes, out)
}

/// Finds the end of the head of an HTTP/1.1 response (RFC 9112) in input that arrives in chunks, as
/// `exported_http_head_extent` does for requests, with a state of its own. To obtain the parts of
/// the head, pass its bytes to `exported_http_response_head`; to obtain the reason of an error,
/// pass all bytes to `exported_http_response_head_partial`.
///
/// For the first call, `state` must be all zeros. Each further call for the same head must have the
/// state that the previous call left, and the bytes of the previous call followed by more bytes.
///
/// `DONE`: `bytes` starts with a head, whose length is written. Reset the state to zeros for the
/// next head.
///
/// `INCOMPLETE`: `bytes` does not start with a head, but more bytes can complete one. 0 is written.
///
/// If `state` belongs to other bytes or was modified, the result may be wrong, but nothing outside
/// `bytes` is read.
///
/// # Errors
///
/// `INVALID`: `bytes` does not start with a head, regardless of what follows. The first offset at
/// which no head can continue is written.
///
/// # Safety
///
/// `state` must be valid for reads and writes of one state, and `out` for writes of one length.
/// `bytes` must be valid for reads of `bytes_length` bytes, which must not change during the call.
/// None of these may overlap. The call needs 16 KiB of stack.
#[unsafe(no_mangle)]
pub extern "C" fn exported_http_response_head_extent(
    state: &mut HttpHeadState,
    bytes: &[u8],
    out: &mut usize,
) -> u32
    ensures told { IsOf HeadKind.Response (head_extent_of HeadKind.Response state.old) bytes.now
        → TellsHead HeadKind.Response bytes.now result out.new state.new }
    ensures none { result ≡ incomplete → out.new ≡ 0 }
    ensures within { out.new ≤ length bytes.now }
    ensures codes { (result ≡ done) ⊎ ((result ≡ incomplete) ⊎ (result ≡ invalid)) }
{
    find_end(HeadKind::Response, state, bytes, out)
}

/// Finds the end of field lines and the empty line after them, such as a trailer section (RFC 9112,
/// section 7.1.2), in input that arrives in chunks, as `exported_http_head_extent` does for heads,
/// with a state of its own. To obtain the fields, or the reason of an error, pass all bytes to
/// `exported_http_field_lines`.
///
/// For the first call, `state` must be all zeros. Each further call for the same field lines must
/// have the state that the previous call left, and the bytes of the previous call followed by more
/// bytes.
///
/// `DONE`: `bytes` starts with field lines and an empty line, whose length is written. Reset the
/// state to zeros for the next ones.
///
/// `INCOMPLETE`: the empty line is not there yet, but more bytes can complete it. 0 is written.
///
/// If `state` belongs to other bytes or was modified, the result may be wrong, but nothing outside
/// `bytes` is read.
///
/// # Errors
///
/// `INVALID`: `bytes` does not start with field lines and an empty line, regardless of what
/// follows. The first offset at which they cannot continue is written.
///
/// # Safety
///
/// `state` must be valid for reads and writes of one state, and `out` for writes of one length.
/// `bytes` must be valid for reads of `bytes_length` bytes, which must not change during the call.
/// None of these may overlap. The call needs 16 KiB of stack.
#[unsafe(no_mangle)]
pub extern "C" fn exported_http_field_lines_extent(
    state: &mut HttpHeadState,
    bytes: &[u8],
    out: &mut usize,
) -> u32
    ensures told { IsOf HeadKind.Trailers (head_extent_of HeadKind.Trailers state.old) bytes.now
        → TellsHead HeadKind.Trailers bytes.now result out.new state.new }
    ensures none { result ≡ incomplete → out.new ≡ 0 }
    ensures within { out.new ≤ length bytes.now }
    ensures codes { (result ≡ done) ⊎ ((result ≡ incomplete) ⊎ (result ≡ invalid)) }
{
    find_end(HeadKind::Trailers, state, bytes, out)
}

/// States that successive calls of one of these functions give the result of one call. The first
/// call starts with zeros, and each further call has the state that the previous one left, and its
/// bytes followed by another chunk. If all calls return `INCOMPLETE`, the last state is a state of
/// these bytes, regardless of what follows. So the next call returns the result that a call with
/// zeros returns for all of its bytes.
pub fn calls_in_turn_are_of_their_bytes()
    ensures { (kind : HeadKind) (pieces : List (List ℕ)) (state : HttpHeadState)
        → HeadCalls kind nothing [] pieces state
        → (more : List ℕ) → IsOf kind (head_extent_of kind state) (all_of pieces ++ more) }
{}
