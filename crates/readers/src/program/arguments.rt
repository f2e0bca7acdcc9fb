//! The program over the arguments that it was started with.
ghost use Rattle.std.specs.Prelude.{◌≡◌, ◌≤◌, ◌+◌};
ghost use Rattle.std.specs.Process.{exit_status};
ghost use Rattle.readers.specs.Program.{ConsumesAtMost, most_bytes};

use crate::program::{Stop, run, stopped};
use std::alloc::{AllocError, Allocator};
use std::env;
use std::env::Env;
use std::io::{Error, ErrorKind, Read, Write};
use std::process::ExitCode;

/// Runs the program: [`run`] with the words after its name, which the runtime gives, and with its
/// status as the exit code.
///
/// Words that are not UTF-8 are not a reader's name: they give the usage line. If there is no
/// memory for the words, `errors` has `out of memory`. Both have the exit code 2, and nothing is
/// read.
///
/// ```
/// use readers::program::serve;
/// use std::process::ExitCode;
///
/// // No word stands behind the name of an example: the usage line is told.
/// let mut output = [0_u8; 4];
/// let mut errors = [0_u8; 32];
/// let mut writer = output.as_mut_slice();
/// let mut teller = errors.as_mut_slice();
/// let code = serve(&rt, &mut b"key=value".as_slice(), &mut writer, &mut teller);
/// assert_eq!(rt; code, ExitCode::from(2));
/// assert!(rt; errors.starts_with(b"usage: "));
/// ```
pub fn serve<A: Allocator + Copy, R: Env + Alloc<A = A>, I: Read, W: Write, E: Write>(
    rt: &R,
    input: &mut I,
    output: &mut W,
    errors: &mut E,
) -> ExitCode
    ensures status { exit_status result ≤ 2 }
    ensures most { ConsumesAtMost (I.remaining input.old) (I.remaining input.new) (most_bytes + 1) }
{
    exit_code(status_over(rt, input, output, errors))
}

/// The exit code of a status.
fn exit_code(status: u8) -> ExitCode
    ensures { exit_status result ≡ status }
{
    ExitCode::from(status)
}

/// The status of a run over the words that the runtime gives.
fn status_over<A: Allocator + Copy, R: Env + Alloc<A = A>, I: Read, W: Write, E: Write>(
    rt: &R,
    input: &mut I,
    output: &mut W,
    errors: &mut E,
) -> u8
    ensures status { result ≤ 2 }
    ensures most { ConsumesAtMost (I.remaining input.old) (I.remaining input.new) (most_bytes + 1) }
{
    let words = match words(rt) {
        Ok(words) => words,
        Err(stop) => return stopped(stop, errors).status,
    };
    match texts(rt.alloc(), words.as_slice()) {
        Ok(texts) => run(rt.alloc(), texts.as_slice(), input, output, errors),
        Err(_) => stopped(Stop::NoMemory, errors).status,
    }
}

/// The words after the program's name, or why there are none.
fn words<A: Allocator + Copy, R: Env + Alloc<A = A>>(rt: &R) -> Result<Vec<String<A>, A>, Stop> {
    let mut words = Vec::new(rt.alloc());
    for word in env::args(rt).map_err(stop_of)?.skip(1) {
        if words.push(word).is_err() {
            return Err(Stop::NoMemory);
        }
    }
    Ok(words)
}

/// The words as text.
fn texts<'w, A: Allocator + Copy>(
    alloc: A,
    words: &'w [String<A>],
) -> Result<Vec<&'w str, A>, AllocError> {
    let mut texts = Vec::new(alloc);
    for word in words {
        texts.push(word.as_str())?;
    }
    Ok(texts)
}

/// Why there are no words: one is not text, or there is no memory for them.
fn stop_of(error: Error) -> Stop {
    if error.kind() == ErrorKind::OutOfMemory {
        Stop::NoMemory
    } else {
        Stop::Usage
    }
}
