//! Laws about parsing values that were written.
ghost use Rattle.std.specs.Prelude.{◌≡◌, ◌⊎◌, ◌<◌, ◌++◌, [], ℕ, IfErr, IfOk, List};
ghost use Rattle.winnow_grammar.specs.InTurn.{First};
ghost use Rattle.format_resp.specs.Alike.{AreAlike, IsCommand};
ghost use Rattle.format_resp.specs.Resp.{Replies, ReplyText};
ghost use Rattle.format_resp.specs.Written.{IsRefused};
ghost use Rattle.format_resp.specs.declared.write.WriteError.{WriteError};
ghost use Rattle.format_resp.specs.declared.reply.Protocol.{Protocol};
ghost use Rattle.format_resp.specs.declared.write.WriteError.TheVariants.{Level, NoParts};
ghost use Rattle.format_resp.specs.declared.write.WriteError.TheVariants.{OutOfMemory};

use crate::read::read_reply;
use crate::reply::{Protocol, Reply};
use crate::write::{WriteError, write_command, write_reply};
use std::alloc::Allocator;
use stream_errors::parser_error::ParserError;
use streams::partial::Partial;
use streams::stream::StreamIsPartial;

/// Reads the reply at the start of the bytes, which is known to be there, and returns the rest.
fn read_whole<'i, A: Allocator + Copy>(
    alloc: A,
    protocol: Protocol,
    level: usize,
    bytes: &'i [u8],
) -> Result<(Reply<&'i [u8], A>, &'i [u8]), WriteError>
    requires stands { (reply : Replies A) × (rest : List ℕ)
        × First (ReplyText protocol level) bytes.now reply rest }
    ensures reads { IfOk result
        (λ both. First (ReplyText protocol level) bytes.now both.0 both.1.now) }
    ensures memory { IfErr result (λ e. e ≡ OutOfMemory) }
{
    let mut whole = Partial::new(bytes);
    whole.complete();
    match read_reply(alloc, protocol, level, &mut whole) {
        Ok(reply) => Ok((reply, whole.into_inner())),
        Err(error) => {
            if ParserError::<Partial<&[u8]>>::is_memory(&error) {
                return Err(WriteError::OutOfMemory);
            }
            unreachable!()
        }
    }
}

/// Writes a reply followed by `more`, and reads it back. Returns an equivalent reply, of the same
/// kinds, bytes, numbers and elements, and the rest, which is `more`. The buffer is cleared first.
/// The only errors are the reason why the reply cannot be written, and out of memory.
///
/// ```
/// use format_resp::back::reads_back;
/// use format_resp::reply::{Protocol, Reply};
///
/// let reply = Reply::Double(b"1.5".as_slice());
/// let mut bytes = Vec::new(alloc);
/// let both = reads_back(alloc, Protocol::Resp3, 0, &reply, b"_\r\n".as_slice(), &mut bytes);
/// assert!(rt; matches!(both, Ok((Reply::Double(text), rest))
///     if text == b"1.5".as_slice() && rest == b"_\r\n".as_slice()));
/// ```
pub fn reads_back<'i, A: Allocator + Copy, B: Allocator>(
    alloc: A,
    protocol: Protocol,
    level: usize,
    reply: &Reply<&[u8], A>,
    more: &[u8],
    into: &'i mut Vec<u8, B>,
) -> Result<(Reply<&'i [u8], A>, &'i [u8]), WriteError>
    ensures alike { IfOk result (λ both. AreAlike level reply.now both.0
        × (both.1.now ≡ more.now)) }
    ensures refused { IfErr result (IsRefused protocol level reply.now) }
{
    into.clear();
    write_reply(protocol, level, reply, into)?;
    into.extend_from_slice(more)?;
    read_whole(alloc, protocol, level, into.as_slice())
}

/// Writes a command followed by `more`, and reads it back. Returns an array of bulk strings of the
/// same bytes, and the rest, which is `more`. The buffer is cleared first. An error means that the
/// command has no parts, or that memory allocation failed.
///
/// ```
/// use format_resp::back::command_reads_back;
/// use format_resp::reply::Reply;
///
/// let parts = [b"LLEN".as_slice(), b"mylist".as_slice()];
/// let mut bytes = Vec::new(alloc);
/// let both = command_reads_back(alloc, parts.as_slice(), b"*".as_slice(), &mut bytes);
/// assert!(rt; matches!(both, Ok((Reply::Array(list), rest))
///     if list.len() == 2 && rest == b"*".as_slice()));
/// ```
pub fn command_reads_back<'i, A: Allocator + Copy, B: Allocator>(
    alloc: A,
    parts: &[&[u8]],
    more: &[u8],
    into: &'i mut Vec<u8, B>,
) -> Result<(Reply<&'i [u8], A>, &'i [u8]), WriteError>
    ensures same { IfOk result (λ both. IsCommand parts.now both.0 × (both.1.now ≡ more.now)) }
    ensures refused { IfErr result (λ e. (e ≡ OutOfMemory)
        ⊎ ((e ≡ NoParts) × (parts.now ≡ []))) }
{
    into.clear();
    write_command(parts, into)?;
    into.extend_from_slice(more)?;
    read_whole(alloc, Protocol::Resp2, 1, into.as_slice())
}

/// Proves that reading the encoding of a reply, followed by anything, returns an equivalent reply
/// and leaves the bytes after it: so no bytes are encodings of two different replies. By its clause
/// `text`, [`write_reply`](crate::write::write_reply) writes such an encoding; by its contract,
/// [`read_reply`](crate::read::read_reply) returns a reply that is at the start of the input.
/// [`reads_back`] calls both.
///
/// ```
/// use format_resp::back::what_is_written_reads_back;
/// use std::alloc::Allocator;
///
/// fn of_an_allocator<A: Allocator>() {
///     what_is_written_reads_back::<A>();
/// }
/// ```
pub fn what_is_written_reads_back<A: Allocator>()
    ensures { (protocol : Protocol) (level : ℕ) (written read : Replies A) (text more rest : List ℕ)
        → ReplyText protocol level written text
        → First (ReplyText protocol level) (text ++ more) read rest
        → AreAlike level written read × (rest ≡ more) }
{}

/// Proves that a reply that cannot be written has no encoding. Each error except `OutOfMemory`
/// means that the reply has no encoding at any depth, and `Level` that it has none at this depth or
/// a smaller one.
///
/// ```
/// use format_resp::back::what_is_refused_has_no_text;
/// use std::alloc::Allocator;
///
/// fn of_an_allocator<A: Allocator>() {
///     what_is_refused_has_no_text::<A>();
/// }
/// ```
pub fn what_is_refused_has_no_text<A: Allocator>()
    ensures { (protocol : Protocol) (level above : ℕ) (reply : Replies A) (error : WriteError)
        (text : List ℕ)
        → IsRefused protocol level reply error → ReplyText protocol above reply text
        → (error ≡ OutOfMemory) ⊎ ((error ≡ Level) × (level < above)) }
{}
