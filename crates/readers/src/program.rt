//! The program over any reader and two writers.
#![tactic(auto, using(crate::proofs::Bytes::known_bytes))]

ghost use Rattle.std.specs.Prelude.{◌≡◌, Bool, ◌≤◌, ◌↔◌, IsTrue, length, IfOk, IfSome};
ghost use Rattle.std.specs.Prelude.{MatchOption, MatchResult, ◌+◌};
ghost use Rattle.std.specs.Io.KnownBytes.{Keeps};
ghost use Rattle.readers.specs.Program.{ConsumesAtMost, AppendsSome, Appended, IsAnswerText};
ghost use Rattle.readers.specs.Program.{StopsAnswer, WritesAnswer, RunOwes, stop_text};
ghost use Rattle.readers.specs.Program.{refused_line, format_word, IsWord, most_bytes, most_of};

mod arguments;
mod bytes_io;
mod lines;

use crate::fault::ReadError;
pub use crate::program::arguments::serve;
use crate::program::bytes_io::{ReadFault, put, read_up_to};
use crate::program::lines::{line_of_number, line_of_pair, line_of_refusal, lines_of_sections};
use crate::{calc, ini};
use std::alloc::{AllocError, Allocator};
use std::io::{Read, Write};
use std::str;

/// The greatest length of an input, in bytes.
const LIMIT: usize = 1_048_576;

/// That of a formula.
const FORMULA_LIMIT: usize = 4_096;

/// The outcome of a run of the program.
///
/// ```
/// use readers::program::{Outcome, run_and_tell};
///
/// let (mut output, mut errors): (Vec<u8>, [u8; 4]) = (Vec::new(alloc), [0; 4]);
/// let mut short = errors.as_mut_slice();
/// let told = run_and_tell(alloc, &["pair"], &mut b"=".as_slice(), &mut output, &mut short);
/// // It is refused, but no room is left for where.
/// assert_eq!(rt; told, Outcome { status: 1, is_told: false });
/// ```
#[derive(Clone, Copy, Debug, PartialEq)]
pub struct Outcome {
    /// The exit status: 0, 1 or 2.
    pub status: u8,
    /// Whether the message is complete on the writer of errors. With status 0 there is no message,
    /// and this is true.
    pub is_told: bool,
}

/// The reason why there is no output. Each ends the program with status 2.
///
/// ```
/// use readers::program::run;
///
/// let (mut output, mut errors): (Vec<u8>, Vec<u8>) = (Vec::new(alloc), Vec::new(alloc));
/// let long = [b'1'; 4_097];
/// let status = run(alloc, &["calc"], &mut long.as_slice(), &mut output, &mut errors);
/// assert_eq!(rt; (status, errors.as_slice()), (2, b"input too long\n".as_slice()));
/// ```
#[derive(Clone, Copy, Debug, PartialEq)]
pub enum Stop {
    /// The words are not one of the readers' names.
    Usage,
    /// Standard input could not be read.
    Unreadable,
    /// Standard output could not be written.
    Unwritable,
    /// The input has more bytes than the limit of its format.
    TooLong,
    /// Memory allocation failed.
    NoMemory,
}

impl Stop {
    /// The text on standard error, which takes no memory.
    fn text(self) -> &'static [u8]
        ensures { result.now ≡ stop_text self }
    {
        match self {
            Stop::Usage => b"usage: readers pair|ini|calc\n",
            Stop::Unreadable => b"cannot read standard input\n",
            Stop::Unwritable => b"cannot write standard output\n",
            Stop::TooLong => b"input too long\n",
            Stop::NoMemory => b"out of memory\n",
        }
    }
}

/// The format that an input is read as.
///
/// ```
/// use readers::program::run;
///
/// let (mut output, mut errors): (Vec<u8>, Vec<u8>) = (Vec::new(alloc), Vec::new(alloc));
/// let status = run(alloc, &["ini"], &mut b"[a]".as_slice(), &mut output, &mut errors);
/// assert_eq!(rt; (status, output.as_slice()), (0, b"section a\n".as_slice()));
/// ```
#[derive(Clone, Copy, Debug, PartialEq)]
pub enum Format {
    /// One line of a key and a value, by the word `pair`.
    Pair,
    /// A document of sections and pairs, by the word `ini`.
    Ini,
    /// A formula of whole numbers, by the word `calc`.
    Calc,
}

/// Whether an input is in its format.
#[derive(Clone, Copy, Debug, PartialEq)]
enum Verdict {
    Accepted,
    Invalid,
}

/// The whole answer to an input: the text, and whether it goes to standard output or to standard
/// error.
#[derive(Drop)]
struct Answer<A: Allocator> {
    verdict: Verdict,
    text: Vec<u8, A>,
}

/// Runs the program over any reader and two writers, and returns the exit status. `words` are the
/// arguments after the program's name.
///
/// The words are checked first, and nothing is read if they are not one reader's name, `pair`,
/// `ini` or `calc`. At most one byte more than the limit is read, which is 4,096 for a formula and
/// 1,048,576 for the others. The whole output is computed before anything is written:
///
/// - status 0: `output` has the lines of the output: for a pair `KEY: VALUE`, for a document each
///   section as `section NAME` and then its pairs, for a formula its value;
/// - status 1: `errors` has `refused at N`, N in bytes from the start, and `output` has nothing; if
///   a formula is not UTF-8, N is the offset of the first invalid byte;
/// - status 2: `errors` has the reason why there is no output.
///
/// An error of `errors` changes no status, and leaves a prefix of the message there;
/// [`run_and_tell`] also returns whether the message is complete. Neither writer is flushed.
///
/// ```
/// use readers::program::run;
///
/// let mut output = [0_u8; 16];
/// let mut errors = [0_u8; 16];
/// let mut writer = output.as_mut_slice();
/// let mut teller = errors.as_mut_slice();
/// let status = run(alloc, &["pair"], &mut b"key=value".as_slice(), &mut writer, &mut teller);
/// assert_eq!(rt; status, 0);
/// assert!(rt; output.starts_with(b"key: value\n"));
/// ```
pub fn run<A: Allocator + Copy, R: Read, W: Write, E: Write>(
    alloc: A,
    words: &[&str],
    input: &mut R,
    output: &mut W,
    errors: &mut E,
) -> u8
    ensures status { result ≤ 2 }
    ensures most { ConsumesAtMost (R.remaining input.old) (R.remaining input.new) (most_bytes + 1) }
    ensures limit { (format : Format) → IsWord words.now (format_word format)
        → ConsumesAtMost (R.remaining input.old) (R.remaining input.new) (most_of format + 1) }
    ensures usage { ((format : Format) → IsWord words.now (format_word format) → ⊥) → (result ≡ 2)
        × Keeps (R.remaining input.old) (R.remaining input.new)
        × Keeps (W.contents output.old) (W.contents output.new)
        × AppendsSome (E.contents errors.old) (E.contents errors.new) (stop_text Stop.Usage) }
    ensures answered { (format : Format) → IsWord words.now (format_word format) → (told : Bool)
        × IfSome (R.remaining input.old) (λ bytes. RunOwes format bytes result told
        (W.contents output.old) (W.contents output.new)
        (E.contents errors.old) (E.contents errors.new)) }
{
    run_and_tell(alloc, words, input, output, errors).status
}

/// Like [`run`], and also returns whether the message on `errors` is complete: the line for
/// rejected bytes, the usage line, or the reason why there is no output.
///
/// ```
/// use readers::program::{Outcome, run_and_tell};
///
/// let (mut output, mut errors): (Vec<u8>, Vec<u8>) = (Vec::new(alloc), Vec::new(alloc));
/// let told = run_and_tell(alloc, &["pair"], &mut b"key".as_slice(), &mut output, &mut errors);
/// assert_eq!(rt; told, Outcome { status: 1, is_told: true });
/// assert_eq!(rt; errors.as_slice(), b"refused at 3\n".as_slice());
/// ```
pub fn run_and_tell<A: Allocator + Copy, R: Read, W: Write, E: Write>(
    alloc: A,
    words: &[&str],
    input: &mut R,
    output: &mut W,
    errors: &mut E,
) -> Outcome
    ensures status { result.status ≤ 2 }
    ensures most { ConsumesAtMost (R.remaining input.old) (R.remaining input.new) (most_bytes + 1) }
    ensures limit { (format : Format) → IsWord words.now (format_word format)
        → ConsumesAtMost (R.remaining input.old) (R.remaining input.new) (most_of format + 1) }
    ensures usage { ((format : Format) → IsWord words.now (format_word format) → ⊥)
        → (result.status ≡ 2)
        × Keeps (R.remaining input.old) (R.remaining input.new)
        × Keeps (W.contents output.old) (W.contents output.new)
        × Appended result.is_told (E.contents errors.old) (E.contents errors.new)
        (stop_text Stop.Usage) }
    ensures answered { (format : Format) → IsWord words.now (format_word format)
        → IfSome (R.remaining input.old) (λ bytes. RunOwes format bytes result.status result.is_told
        (W.contents output.old) (W.contents output.new)
        (E.contents errors.old) (E.contents errors.new)) }
{
    let Some(format) = format_of(words) else {
        return stopped(Stop::Usage, errors);
    };
    match make_answer(alloc, format, input) {
        Ok(answer) => write_answer(&answer, output, errors),
        Err(stop) => stopped(stop, errors),
    }
}

/// Writes the reason why there is no output.
fn stopped<E: Write>(stop: Stop, errors: &mut E) -> Outcome
    ensures status { result.status ≡ 2 }
    ensures told { Appended result.is_told (E.contents errors.old) (E.contents errors.new)
        (stop_text stop) }
{
    let is_told = put(errors, stop.text());
    Outcome { status: 2, is_told }
}

/// The format whose word the words are.
fn format_of(words: &[&str]) -> Option<Format>
    ensures { MatchOption result ((format : Format) → IsWord words.now (format_word format) → ⊥)
        (λ format. (other : Format)
        → IsWord words.now (format_word other) ↔ (other ≡ format)) }
{
    if is_word(words, "pair") {
        Some(Format::Pair)
    } else if is_word(words, "ini") {
        Some(Format::Ini)
    } else if is_word(words, "calc") {
        Some(Format::Calc)
    } else {
        None
    }
}

/// Whether the words are the one word.
fn is_word(words: &[&str], word: &str) -> bool
    ensures { IsTrue result ↔ IsWord words.now word.now }
{
    match words {
        [only] => *only == word,
        _ => false,
    }
}

/// The greatest length of an input in a format, in bytes.
fn limit_of(format: Format) -> usize
    ensures limit { result ≡ most_of format }
    ensures most { result ≤ most_bytes }
{
    match format {
        Format::Pair => LIMIT,
        Format::Ini => LIMIT,
        Format::Calc => FORMULA_LIMIT,
    }
}

/// Reads the input, and computes the whole answer to it.
fn make_answer<A: Allocator + Copy, R: Read>(
    alloc: A,
    format: Format,
    input: &mut R,
) -> Result<Answer<A>, Stop>
    ensures most { ConsumesAtMost (R.remaining input.old) (R.remaining input.new) (most_bytes + 1) }
    ensures limit { ConsumesAtMost (R.remaining input.old) (R.remaining input.new)
        (most_of format + 1) }
    ensures bytes { IfSome (R.remaining input.old) (λ bytes. MatchResult result
        (λ a. (length bytes ≤ most_of format) × IsAnswerText format bytes a.verdict a.text.items)
        (λ stop. StopsAnswer format bytes stop)) }
{
    let limit = limit_of(format);
    let mut bytes = Vec::new(alloc);
    match read_up_to(input, &mut bytes, limit) {
        Ok(()) => {}
        Err(ReadFault::Unreadable) => return Err(Stop::Unreadable),
        Err(ReadFault::NoMemory) => return Err(Stop::NoMemory),
    }
    if bytes.len() > limit {
        return Err(Stop::TooLong);
    }
    answer_bytes(alloc, format, bytes.as_slice()).map_err(|_| Stop::NoMemory)
}

/// The answer to the bytes in a format.
fn answer_bytes<A: Allocator + Copy>(
    alloc: A,
    format: Format,
    bytes: &[u8],
) -> Result<Answer<A>, AllocError>
    ensures { IfOk result (λ a. IsAnswerText format bytes.now a.verdict a.text.items) }
{
    match format {
        Format::Pair => answer_pair(alloc, bytes),
        Format::Ini => answer_document(alloc, bytes),
        Format::Calc => answer_formula(alloc, bytes),
    }
}

/// The answer to the bytes of a pair.
#[tactic(auto, unfolding(crate::specs::Program::IsAnswerText))]
fn answer_pair<A: Allocator + Copy>(alloc: A, bytes: &[u8]) -> Result<Answer<A>, AllocError>
    ensures { IfOk result (λ a. IsAnswerText Format.Pair bytes.now a.verdict a.text.items) }
{
    match ini::pair(bytes) {
        Ok((key, value)) => {
            let text = line_of_pair(alloc, key, value)?;
            Ok(Answer {
                verdict: Verdict::Accepted,
                text,
            })
        }
        Err(ReadError::Invalid(at)) => refusal(alloc, at),
        Err(ReadError::NoMemory) => Err(AllocError),
    }
}

/// The answer to the bytes of a document.
#[tactic(auto, unfolding(crate::specs::Program::IsAnswerText))]
fn answer_document<A: Allocator + Copy>(alloc: A, bytes: &[u8]) -> Result<Answer<A>, AllocError>
    ensures { IfOk result (λ a. IsAnswerText Format.Ini bytes.now a.verdict a.text.items) }
{
    match ini::document(alloc, bytes) {
        Ok(sections) => {
            let text = lines_of_sections(alloc, sections.as_slice())?;
            Ok(Answer {
                verdict: Verdict::Accepted,
                text,
            })
        }
        Err(ReadError::Invalid(at)) => refusal(alloc, at),
        Err(ReadError::NoMemory) => Err(AllocError),
    }
}

/// The answer to the bytes of a formula.
#[tactic(auto, unfolding(crate::specs::Program::IsAnswerText))]
fn answer_formula<A: Allocator + Copy>(alloc: A, bytes: &[u8]) -> Result<Answer<A>, AllocError>
    ensures { IfOk result (λ a. IsAnswerText Format.Calc bytes.now a.verdict a.text.items) }
{
    match str::from_utf8(bytes) {
        Ok(text) => match calc::value(alloc, text) {
            Ok(value) => {
                let text = line_of_number(alloc, value)?;
                Ok(Answer {
                    verdict: Verdict::Accepted,
                    text,
                })
            }
            Err(ReadError::Invalid(at)) => refusal(alloc, at),
            Err(ReadError::NoMemory) => Err(AllocError),
        },
        Err(error) => refusal(alloc, error.valid_up_to()),
    }
}

/// Returns the verdict and the line for rejected bytes.
fn refusal<A: Allocator>(alloc: A, at: usize) -> Result<Answer<A>, AllocError>
    ensures { IfOk result (λ a. (a.verdict ≡ Verdict.Invalid) × (a.text.items ≡ refused_line at)) }
{
    let text = line_of_refusal(alloc, at)?;
    Ok(Answer {
        verdict: Verdict::Invalid,
        text,
    })
}

/// Writes the text of a verdict to its writer.
fn write_answer<A: Allocator, W: Write, E: Write>(
    answer: &Answer<A>,
    output: &mut W,
    errors: &mut E,
) -> Outcome
    ensures { WritesAnswer answer.now.verdict answer.now.text.items result.status result.is_told
        (W.contents output.old) (W.contents output.new) (E.contents errors.old)
        (E.contents errors.new) }
{
    match answer.verdict {
        Verdict::Accepted => {
            if put(output, answer.text.as_slice()) {
                return Outcome {
                    status: 0,
                    is_told: true,
                };
            }
            stopped(Stop::Unwritable, errors)
        }
        Verdict::Invalid => {
            let is_told = put(errors, answer.text.as_slice());
            Outcome { status: 1, is_told }
        }
    }
}
