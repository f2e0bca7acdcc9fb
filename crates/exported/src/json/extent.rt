//! The ends of JSON values in input that arrives in chunks.

ghost use Rattle.std.specs.Prelude.{◌≡◌, ◌≤◌, ◌⊎◌, ◌++◌, ℕ, List, [], length};
ghost use Rattle.format_json_pieces.specs.Extents.{ExtentResult, IsExtentOf, IsNew, WholeResult};
ghost use Rattle.format_json_pieces.specs.declared.begun.Mode.TheVariants as modes;
ghost use Rattle.exported.specs.Code.{done, end, incomplete, invalid, too_deep};
ghost use Rattle.exported.specs.JsonExtent.{IsToldBy, TellsBy, ValueCalls, figure_at};
ghost use Rattle.exported.specs.JsonExtent.{letters_at, mode_at, nothing, part_at};
ghost use Rattle.exported.specs.JsonExtent.{value_extent_of};
ghost use Rattle.exported.specs.Turns.{all_of};
ghost use Rattle.exported.specs.declared.json.extent.JsonValueState.{JsonValueState};

use crate::code::{DONE, END, INCOMPLETE, INVALID, TOO_DEEP};
use format_json_pieces::begun::Mode;
use format_json_pieces::extent::{Invalid, Reason, ValueExtent};
use format_json_pieces::inside::{Figure, Letters, Part};

/// The state of a search for the end of a JSON value in input that arrives in chunks. Only the
/// functions of this library may interpret its fields. All zeros is the initial state, and also the
/// state after a value or an error.
#[repr(C)]
#[derive(Clone, Copy, Drop)]
pub struct JsonValueState {
    /// How many bytes were passed.
    pub passed: usize,
    /// How many brackets are open.
    pub depth: usize,
    /// The kind of the input that is expected next; 0 before a value.
    pub mode: usize,
    /// The part of a string, a number or a word that is expected next.
    pub part: usize,
}

/// Returns the part of a string that a number represents.
fn part_of(number: usize) -> Part
    ensures { result ≡ part_at number }
{
    match number {
        0 => Part::Plain,
        1 => Part::Escape,
        2 => Part::Unit,
        3 => Part::AfterSurrogateD,
        4 => Part::Three,
        5 => Part::Two,
        6 => Part::One,
        7 => Part::HighTwo,
        8 => Part::HighOne,
        9 => Part::Backslash,
        10 => Part::LetterU,
        11 => Part::LowD,
        12 => Part::LowSecond,
        13 => Part::TailOne,
        14 => Part::TailTwo,
        15 => Part::TailThree,
        16 => Part::TailLong,
        17 => Part::TailScalar,
        18 => Part::TailLonger,
        _ => Part::TailLast,
    }
}

/// Returns the number of a part of a string.
fn number_of_part(part: Part) -> usize
    ensures { part_at result ≡ part }
{
    match part {
        Part::Plain => 0,
        Part::Escape => 1,
        Part::Unit => 2,
        Part::AfterSurrogateD => 3,
        Part::Three => 4,
        Part::Two => 5,
        Part::One => 6,
        Part::HighTwo => 7,
        Part::HighOne => 8,
        Part::Backslash => 9,
        Part::LetterU => 10,
        Part::LowD => 11,
        Part::LowSecond => 12,
        Part::TailOne => 13,
        Part::TailTwo => 14,
        Part::TailThree => 15,
        Part::TailLong => 16,
        Part::TailScalar => 17,
        Part::TailLonger => 18,
        Part::TailLast => 19,
    }
}

/// Returns the part of a number that a number represents.
fn figure_of(number: usize) -> Figure
    ensures { result ≡ figure_at number }
{
    match number {
        0 => Figure::Minus,
        1 => Figure::Zero,
        2 => Figure::Whole,
        3 => Figure::Point,
        4 => Figure::Fraction,
        5 => Figure::Exponent,
        6 => Figure::Sign,
        _ => Figure::Power,
    }
}

/// Returns the number of a part of a number.
fn number_of_figure(figure: Figure) -> usize
    ensures { figure_at result ≡ figure }
{
    match figure {
        Figure::Minus => 0,
        Figure::Zero => 1,
        Figure::Whole => 2,
        Figure::Point => 3,
        Figure::Fraction => 4,
        Figure::Exponent => 5,
        Figure::Sign => 6,
        Figure::Power => 7,
    }
}

/// Returns the letters of a word that a number represents.
fn letters_of(number: usize) -> Letters
    ensures { result ≡ letters_at number }
{
    match number {
        0 => Letters::Ull,
        1 => Letters::Ll,
        2 => Letters::L,
        3 => Letters::Rue,
        4 => Letters::Ue,
        5 => Letters::E,
        6 => Letters::Alse,
        7 => Letters::Lse,
        _ => Letters::Se,
    }
}

/// Returns the number of letters of a word.
fn number_of_letters(letters: Letters) -> usize
    ensures { letters_at result ≡ letters }
{
    match letters {
        Letters::Ull => 0,
        Letters::Ll => 1,
        Letters::L => 2,
        Letters::Rue => 3,
        Letters::Ue => 4,
        Letters::E => 5,
        Letters::Alse => 6,
        Letters::Lse => 7,
        Letters::Se => 8,
    }
}

/// Returns the expected input that two numbers represent.
fn mode_of(mode: usize, part: usize) -> Mode
    ensures { result ≡ mode_at mode part }
{
    match mode {
        0 => Mode::Value,
        1 => Mode::First,
        2 => Mode::Item,
        3 => Mode::Colon,
        4 => Mode::After,
        5 => Mode::Name(part_of(part)),
        6 => Mode::Text(part_of(part)),
        7 => Mode::Number(figure_of(part)),
        _ => Mode::Word(letters_of(part)),
    }
}

/// Returns the numbers of the expected input.
fn numbers_of(mode: Mode) -> (usize, usize)
    ensures is { mode_at result.0 result.1 ≡ mode }
    ensures zero { mode ≡ modes.Value → (result.0 ≡ 0) × (result.1 ≡ 0) }
{
    match mode {
        Mode::Value => (0, 0),
        Mode::First => (1, 0),
        Mode::Item => (2, 0),
        Mode::Colon => (3, 0),
        Mode::After => (4, 0),
        Mode::Name(part) => (5, number_of_part(part)),
        Mode::Text(part) => (6, number_of_part(part)),
        Mode::Number(figure) => (7, number_of_figure(figure)),
        Mode::Word(letters) => (8, number_of_letters(letters)),
    }
}

/// Returns the extent that `state` represents.
fn extent_at(state: JsonValueState) -> ValueExtent
    ensures { result ≡ value_extent_of state }
{
    ValueExtent {
        passed: state.passed,
        depth: state.depth,
        mode: mode_of(state.mode, state.part),
    }
}

/// Returns the corresponding state.
fn state_at(extent: ValueExtent) -> JsonValueState
    ensures is { value_extent_of result ≡ extent }
    ensures zero { IsNew extent → result ≡ nothing }
{
    let (mode, part) = numbers_of(extent.mode);
    JsonValueState {
        passed: extent.passed,
        depth: extent.depth,
        mode,
        part,
    }
}

/// Writes the result of a search, and returns its code. `none` is the code of no value.
fn tell(answer: Result<Option<usize>, Invalid>, none: u32, out: &mut usize) -> u32
    ensures { IsToldBy none answer result out.new }
{
    match answer {
        Ok(Some(length)) => {
            *out = length;
            DONE
        }
        Ok(None) => {
            *out = 0;
            none
        }
        Err(rejected) => {
            *out = rejected.offset;
            match rejected.reason {
                Reason::TooDeep => TOO_DEEP,
                _ => INVALID,
            }
        }
    }
}

/// Finds the end of a JSON value (RFC 8259) in input that arrives in chunks. Whitespace before the
/// value is skipped, and counts as part of it.
///
/// No call looks again at bytes that an earlier call scanned, so all calls for a value take time
/// linear in its length. The function does not allocate. Values are those of `exported_json_check`,
/// in UTF-8: pass the bytes of a value to a function for complete texts.
///
/// `is_complete` is 0 if more bytes may follow, and otherwise `bytes` is complete input. Arrays and
/// objects may be nested as deep as `brackets` has bytes: it receives the open brackets.
///
/// For the first call, `state` must be all zeros; the contents of `brackets` are not used. Each
/// further call for the same value must have the state and the brackets that the previous call
/// left, and the bytes of the previous call followed by more bytes.
///
/// `DONE`: `bytes` starts with a value, whose length is written; it ends there regardless of what
/// follows. A number ends at the next byte, or at the end of complete input. The state is all zeros
/// again: for the next value, pass the bytes after this one.
///
/// `INCOMPLETE`: more bytes may follow, and `bytes` does not have the end of a value yet. 0 is
/// written. The caller must limit how many bytes are buffered.
///
/// `END`: complete input is only whitespace. 0 is written.
///
/// If `state` or `brackets` belong to other bytes or were modified, the result may be wrong, but
/// nothing outside `bytes` is read, and what is written is at most `bytes_length`.
///
/// # Errors
///
/// `bytes` does not start with a value, regardless of what follows. The offset of the first byte
/// with which no value continues is written, and the state is all zeros again.
///
/// `INVALID`: no depth limit permits that byte. Or complete input ends in a value; then the offset
/// is `bytes_length`.
///
/// `TOO_DEEP`: that byte opens a bracket that is nested deeper than `brackets` has bytes.
///
/// # Safety
///
/// `state` must be valid for reads and writes of one state, `brackets` for reads and writes of
/// `brackets_length` bytes, and `out` for writes of one length. `bytes` must be valid for reads of
/// `bytes_length` bytes, which must not change during the call. None of these may overlap. The call
/// needs 16 KiB of stack.
#[unsafe(no_mangle)]
pub extern "C" fn exported_json_extent(
    state: &mut JsonValueState,
    bytes: &[u8],
    is_complete: u32,
    brackets: &mut [u8],
    out: &mut usize,
) -> u32
    ensures told { is_complete ≡ 0 → IsExtentOf (value_extent_of state.old) brackets.old bytes.now
        → TellsBy (ExtentResult (length brackets.old) bytes.now) incomplete result out.new }
    ensures whole { (is_complete ≡ 0 → ⊥)
        → IsExtentOf (value_extent_of state.old) brackets.old bytes.now
        → TellsBy (WholeResult (length brackets.old) bytes.now) end result out.new }
    ensures kept { IsExtentOf (value_extent_of state.old) brackets.old bytes.now → (more : List ℕ)
        → IsExtentOf (value_extent_of state.new) brackets.new (bytes.now ++ more) }
    ensures again { (result ≡ incomplete → ⊥) → state.new ≡ nothing }
    ensures none { (result ≡ incomplete) ⊎ (result ≡ end) → out.new ≡ 0 }
    ensures within { out.new ≤ length bytes.now }
    ensures which { (result ≡ incomplete → is_complete ≡ 0)
        × (result ≡ end → is_complete ≡ 0 → ⊥) }
    ensures codes { (result ≡ done) ⊎ ((result ≡ incomplete) ⊎ ((result ≡ end)
        ⊎ ((result ≡ invalid) ⊎ (result ≡ too_deep)))) }
{
    let mut extent = extent_at(*state);
    if is_complete == 0 {
        let answer = extent.advance(brackets, bytes);
        *state = state_at(extent);
        tell(answer, INCOMPLETE, out)
    } else {
        let answer = extent.finish(brackets, bytes);
        *state = state_at(extent);
        tell(answer, END, out)
    }
}

/// States that successive calls of `exported_json_extent` give the result of one call. The first
/// call starts with zeros, and each further call has the state and the brackets that the previous
/// one left, and its bytes followed by another chunk. If all calls return `INCOMPLETE`, the last
/// state is a state of these bytes, regardless of what follows. So the next call returns the result
/// that a call with zeros returns for all of its bytes.
pub fn calls_in_turn_are_of_their_bytes()
    ensures { (brackets last : List ℕ) (pieces : List (List ℕ)) (state : JsonValueState)
        → ValueCalls (length brackets) (nothing, brackets) [] pieces (state, last)
        → (more : List ℕ) → IsExtentOf (value_extent_of state) last (all_of pieces ++ more) }
{}
