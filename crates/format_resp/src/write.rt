//! Replies and commands as bytes.
ghost use Rattle.std.specs.List.{AllByRecursion};
ghost use Rattle.std.specs.Prelude.{◌≡◌, ◌≤◌, ◌⊎◌, ◌++◌, [], IfErr, MatchBool, OnErr, OnOk};
ghost use Rattle.std.specs.Prelude.{vec_capacity};
ghost use Rattle.grammars.specs.Texts.{EachText};
ghost use Rattle.format_resp.specs.Numbers.{IsBigNumber, IsDouble};
ghost use Rattle.format_resp.specs.Resp.{BooleanText, IsInProtocol, IsLineByte, IsVerbatim};
ghost use Rattle.format_resp.specs.Resp.{ReplyText, WrittenText, first_mark, gathered};
ghost use Rattle.format_resp.specs.Written.{Appends, IsForeign, OutOfMemoryOnlyIfFull};
ghost use Rattle.format_resp.specs.Written.{OutOfMemoryOnlyIfFullForEach, OutOfMemoryOnlyWith};
ghost use Rattle.format_resp.specs.Written.{IsRefused, IsRefusedAmong, IsRefusedAs, LacksRoom};
ghost use Rattle.format_resp.specs.Written.{IsPrefixOf, bulks_of, command_of, data_of, marked};
ghost use Rattle.format_resp.specs.declared.marks.Mark.TheVariants.{Aggregate};
ghost use Rattle.format_resp.specs.declared.write.WriteError.TheVariants as errors;

use crate::kinds::size_of;
use crate::marks::{AggregateMark, DataMark, LineMark, Mark, is_in};
use crate::numbers::{is_big_number, is_double};
use crate::parts::{is_line, write_data, write_integer, write_line, write_size};
use crate::reply::{Protocol, Reply, is_verbatim};
use std::alloc::{AllocError, Allocator};

/// Why a reply or a command was not written.
///
/// ```
/// use format_resp::reply::{Protocol, Reply};
/// use format_resp::write::{WriteError, write_reply};
/// use std::alloc::Global;
///
/// let reply: Reply<&[u8], Global> = Reply::Double(b"1,5".as_slice());
/// let mut bytes = Vec::new(alloc);
/// let written = write_reply(Protocol::Resp3, 0, &reply, &mut bytes);
/// assert!(rt; matches!(written, Err(WriteError::Double)));
/// ```
#[derive(Clone, Copy, Debug, PartialEq, Eq)]
pub enum WriteError {
    /// A carriage return or a line feed is in a simple string or in an error.
    LineBreak,
    /// The text of a double is invalid.
    Double,
    /// The text of a big number is invalid.
    BigNumber,
    /// A verbatim string does not begin with a format of three bytes and a colon.
    Format,
    /// A key in a map has no value, or attributes have no reply after their names and values.
    Pairs,
    /// A reply is of a kind that the version of the protocol does not have.
    Foreign,
    /// Aggregates are nested deeper than the limit.
    Level,
    /// A command has no parts: the first is its name.
    NoParts,
    /// Memory allocation failed.
    OutOfMemory,
}

impl From<AllocError> for WriteError {
    ghost from_gives = { λ _ e. e ≡ errors.OutOfMemory };

    fn from(_error: AllocError) -> WriteError {
        WriteError::OutOfMemory
    }
}

/// Appends a simple string or an error.
fn write_text<B: Allocator>(mark: u8, text: &[u8], into: &mut Vec<u8, B>) -> Result<(), WriteError>
    ensures written { OnOk result (AllByRecursion IsLineByte text.now
        × (into.new.items ≡ into.old.items ++ marked mark text.now)) }
    ensures refused { IfErr result (IsRefusedAs errors.LineBreak
        (AllByRecursion IsLineByte text.now)) }
    ensures kept { IsPrefixOf into.old.items into.new.items }
    ensures capacity { vec_capacity into.old ≤ vec_capacity into.new }
    ensures full { IfErr result (OutOfMemoryOnlyWith (AllByRecursion IsLineByte text.now) into.old
        (marked mark text.now)) }
{
    if !is_line(text) {
        return Err(WriteError::LineBreak);
    }
    write_line(mark, text, into)?;
    Ok(())
}

/// The text of a boolean.
fn boolean_text(boolean: bool) -> &'static [u8]
    ensures { BooleanText boolean result.now }
{
    if boolean { b"t" } else { b"f" }
}

/// Appends a double.
fn write_double<B: Allocator>(text: &[u8], into: &mut Vec<u8, B>) -> Result<(), WriteError>
    ensures written { OnOk result (IsDouble text.now
        × (into.new.items ≡ into.old.items ++ marked 44 text.now)) }
    ensures refused { IfErr result (IsRefusedAs errors.Double (IsDouble text.now)) }
    ensures kept { IsPrefixOf into.old.items into.new.items }
    ensures capacity { vec_capacity into.old ≤ vec_capacity into.new }
    ensures full { IfErr result
        (OutOfMemoryOnlyWith (IsDouble text.now) into.old (marked 44 text.now)) }
{
    if !is_double(text) {
        return Err(WriteError::Double);
    }
    write_line(b',', text, into)?;
    Ok(())
}

/// Appends a big number.
fn write_big_number<B: Allocator>(text: &[u8], into: &mut Vec<u8, B>) -> Result<(), WriteError>
    ensures written { OnOk result (IsBigNumber text.now
        × (into.new.items ≡ into.old.items ++ marked 40 text.now)) }
    ensures refused { IfErr result (IsRefusedAs errors.BigNumber (IsBigNumber text.now)) }
    ensures kept { IsPrefixOf into.old.items into.new.items }
    ensures capacity { vec_capacity into.old ≤ vec_capacity into.new }
    ensures full { IfErr result
        (OutOfMemoryOnlyWith (IsBigNumber text.now) into.old (marked 40 text.now)) }
{
    if !is_big_number(text) {
        return Err(WriteError::BigNumber);
    }
    write_line(b'(', text, into)?;
    Ok(())
}

/// Appends a verbatim string.
fn write_verbatim<B: Allocator>(bytes: &[u8], into: &mut Vec<u8, B>) -> Result<(), WriteError>
    ensures written { OnOk result (IsVerbatim bytes.now
        × (into.new.items ≡ into.old.items ++ data_of 61 bytes.now)) }
    ensures refused { IfErr result (IsRefusedAs errors.Format (IsVerbatim bytes.now)) }
    ensures kept { IsPrefixOf into.old.items into.new.items }
    ensures capacity { vec_capacity into.old ≤ vec_capacity into.new }
    ensures full { IfErr result
        (OutOfMemoryOnlyWith (IsVerbatim bytes.now) into.old (data_of 61 bytes.now)) }
{
    if !is_verbatim(bytes) {
        return Err(WriteError::Format);
    }
    write_data(b'=', bytes, into)?;
    Ok(())
}

/// Returns the mark that encodings of a reply start with.
fn begins<A: Allocator>(reply: &Reply<&[u8], A>) -> Mark
    ensures { result ≡ first_mark reply.now }
{
    match reply {
        Reply::Simple(_) => Mark::Line(LineMark::Plus),
        Reply::Error(_) => Mark::Line(LineMark::Minus),
        Reply::Integer(_) => Mark::Line(LineMark::Colon),
        Reply::Bulk(_) => Mark::Data(DataMark::Dollar),
        Reply::NullBulk => Mark::Data(DataMark::Dollar),
        Reply::Array(_) => Mark::Aggregate(AggregateMark::Star),
        Reply::NullArray => Mark::Aggregate(AggregateMark::Star),
        Reply::Null => Mark::Line(LineMark::Underscore),
        Reply::Boolean(_) => Mark::Line(LineMark::Hash),
        Reply::Double(_) => Mark::Line(LineMark::Comma),
        Reply::BigNumber(_) => Mark::Line(LineMark::Parenthesis),
        Reply::BulkError(_) => Mark::Data(DataMark::Exclamation),
        Reply::Verbatim(_) => Mark::Data(DataMark::Equals),
        Reply::Map(_) => Mark::Aggregate(AggregateMark::Percent),
        Reply::Set(_) => Mark::Aggregate(AggregateMark::Tilde),
        Reply::Push(_) => Mark::Aggregate(AggregateMark::Greater),
        Reply::Attributed(_) => Mark::Aggregate(AggregateMark::Bar),
    }
}

/// Whether a reply is of a kind that the version of the protocol does not have.
fn is_foreign<A: Allocator>(protocol: Protocol, reply: &Reply<&[u8], A>) -> bool
    ensures { MatchBool result (IsForeign protocol reply.now)
        (IsInProtocol protocol (first_mark reply.now)) }
{
    if is_in(protocol, begins(reply)) {
        false
    } else {
        true
    }
}

/// Appends replies.
#[cycle(write)]
fn write_elements<A: Allocator, B: Allocator>(
    protocol: Protocol,
    level: usize,
    replies: &[Reply<&[u8], A>],
    into: &mut Vec<u8, B>,
) -> Result<(), WriteError>
    ensures written { OnOk result
        (Appends (EachText (WrittenText protocol level)) replies.now into.old.items
        into.new.items) }
    ensures refused { IfErr result (IsRefusedAmong protocol level replies.now) }
    ensures kept { IsPrefixOf into.old.items into.new.items }
    ensures capacity { vec_capacity into.old ≤ vec_capacity into.new }
    ensures full { IfErr result
        (OutOfMemoryOnlyIfFullForEach (EachText (WrittenText protocol level)) replies.now
        into.old) }
{
    for reply in replies {
        write_nested(protocol, level, reply, into)?;
    }
    Ok(())
}

/// Appends an aggregate.
#[cycle(write)]
fn write_list<A: Allocator, B: Allocator>(
    protocol: Protocol,
    level: usize,
    mark: AggregateMark,
    replies: &Vec<Reply<&[u8], A>, A>,
    into: &mut Vec<u8, B>,
) -> Result<(), WriteError>
    ensures written { OnOk result (IsInProtocol protocol (Aggregate mark)
        → Appends (WrittenText protocol level) (gathered mark replies.now)
        into.old.items into.new.items) }
    ensures refused { IfErr result (IsRefused protocol level (gathered mark replies.now)) }
    ensures kept { IsPrefixOf into.old.items into.new.items }
    ensures capacity { vec_capacity into.old ≤ vec_capacity into.new }
    ensures full { IfErr result (OutOfMemoryOnlyIfFullForEach (WrittenText protocol level)
        (gathered mark replies.now) into.old) }
{
    if level == 0 {
        return Err(WriteError::Level);
    }
    match size_of(mark, replies.len()) {
        Some(size) => {
            write_size(mark.byte(), size, into)?;
            write_elements(protocol, level - 1, replies.as_slice(), into)
        }
        None => Err(WriteError::Pairs),
    }
}

/// Appends a reply.
#[cycle(write)]
fn write_nested<A: Allocator, B: Allocator>(
    protocol: Protocol,
    level: usize,
    reply: &Reply<&[u8], A>,
    into: &mut Vec<u8, B>,
) -> Result<(), WriteError>
    ensures written { OnOk result (Appends (WrittenText protocol level) reply.now into.old.items
        into.new.items) }
    ensures refused { IfErr result (IsRefused protocol level reply.now) }
    ensures kept { IsPrefixOf into.old.items into.new.items }
    ensures capacity { vec_capacity into.old ≤ vec_capacity into.new }
    ensures full { IfErr result
        (OutOfMemoryOnlyIfFullForEach (WrittenText protocol level) reply.now into.old) }
{
    if is_foreign(protocol, reply) {
        return Err(WriteError::Foreign);
    }
    match reply {
        Reply::Simple(text) => write_text(b'+', text, into),
        Reply::Error(text) => write_text(b'-', text, into),
        Reply::Integer(number) => Ok(write_integer(*number, into)?),
        Reply::Null => Ok(write_line(b'_', b"", into)?),
        Reply::Boolean(boolean) => Ok(write_line(b'#', boolean_text(*boolean), into)?),
        Reply::Double(text) => write_double(text, into),
        Reply::BigNumber(text) => write_big_number(text, into),
        Reply::Bulk(bytes) => Ok(write_data(b'$', bytes, into)?),
        Reply::NullBulk => Ok(write_line(b'$', b"-1", into)?),
        Reply::BulkError(bytes) => Ok(write_data(b'!', bytes, into)?),
        Reply::Verbatim(bytes) => write_verbatim(bytes, into),
        Reply::Array(replies) => write_list(protocol, level, AggregateMark::Star, replies, into),
        Reply::NullArray => Ok(write_line(b'*', b"-1", into)?),
        Reply::Map(replies) => write_list(protocol, level, AggregateMark::Percent, replies, into),
        Reply::Set(replies) => write_list(protocol, level, AggregateMark::Tilde, replies, into),
        Reply::Push(replies) => write_list(protocol, level, AggregateMark::Greater, replies, into),
        Reply::Attributed(replies) => write_list(
            protocol,
            level,
            AggregateMark::Bar,
            replies,
            into,
        ),
    }
}

/// Appends the encoding of a reply in this version of the protocol. Its aggregates must be nested
/// at most `level` deep.
///
/// Numbers have no plus sign and no leading zeros, but the texts of doubles and big numbers are
/// written unchanged, so the encoding of each reply is unique. It reads back as this reply, for any
/// continuation: see [`reads_back`](crate::back::reads_back). Writing calls itself once for each
/// nested aggregate, as [`read_reply`](crate::read::read_reply) does; up to
/// [`SAFE_DEPTH`](crate::read::SAFE_DEPTH) two megabytes of stack suffice.
///
/// # Errors
///
/// After an error the buffer is unchanged. If several errors apply, it may be any of them.
///
/// - `Level`: the aggregates are nested deeper than `level`.
/// - `OutOfMemory`: the buffer has no room for the encoding, and could not grow. If the reply has
///   no encoding, this may be returned in any case.
/// - Any other error is caused by a reply in it, which has no encoding in this version at any
///   depth.
///
/// ```
/// use format_resp::reply::{Protocol, Reply};
/// use format_resp::write::write_reply;
///
/// let mut both = Vec::new(alloc);
/// assert!(rt; both.push(Reply::Simple(b"ttl".as_slice())).is_ok());
/// assert!(rt; both.push(Reply::Double(b"1.5".as_slice())).is_ok());
/// let reply = Reply::Map(both);
/// let mut bytes = Vec::new(alloc);
/// assert!(rt; write_reply(Protocol::Resp3, 1, &reply, &mut bytes).is_ok());
/// assert_eq!(rt; bytes.as_slice(), b"%1\r\n+ttl\r\n,1.5\r\n".as_slice());
/// assert!(rt; write_reply(Protocol::Resp3, 0, &reply, &mut bytes).is_err());
/// assert!(rt; write_reply(Protocol::Resp2, 1, &reply, &mut bytes).is_err());
/// ```
pub fn write_reply<A: Allocator, B: Allocator>(
    protocol: Protocol,
    level: usize,
    reply: &Reply<&[u8], A>,
    into: &mut Vec<u8, B>,
) -> Result<(), WriteError>
    ensures written { OnOk result (Appends (WrittenText protocol level) reply.now into.old.items
        into.new.items) }
    ensures text { OnOk result
        (Appends (ReplyText protocol level) reply.now into.old.items into.new.items) }
    ensures refused { IfErr result (IsRefused protocol level reply.now) }
    ensures kept { OnErr result (into.new.items ≡ into.old.items) }
    ensures full { IfErr result
        (OutOfMemoryOnlyIfFullForEach (WrittenText protocol level) reply.now into.old) }
{
    let before = into.len();
    match write_nested(protocol, level, reply, into) {
        Ok(()) => Ok(()),
        Err(error) => {
            into.truncate(before);
            Err(error)
        }
    }
}

/// Appends bulk strings.
fn write_bulks<B: Allocator>(parts: &[&[u8]], into: &mut Vec<u8, B>) -> Result<(), AllocError>
    ensures written { OnOk result (into.new.items ≡ into.old.items ++ bulks_of parts.now) }
    ensures kept { IsPrefixOf into.old.items into.new.items }
    ensures capacity { vec_capacity into.old ≤ vec_capacity into.new }
    ensures full { OnErr result (LacksRoom into.old (bulks_of parts.now)) }
{
    for part in parts {
        write_data(b'$', part, into)?;
    }
    Ok(())
}

/// Appends the size of an array and its bulk strings.
fn write_parts<B: Allocator>(parts: &[&[u8]], into: &mut Vec<u8, B>) -> Result<(), AllocError>
    ensures written { OnOk result (into.new.items ≡ into.old.items ++ command_of parts.now) }
    ensures kept { IsPrefixOf into.old.items into.new.items }
    ensures capacity { vec_capacity into.old ≤ vec_capacity into.new }
    ensures full { OnErr result (LacksRoom into.old (command_of parts.now)) }
{
    write_size(b'*', parts.len(), into)?;
    write_bulks(parts, into)
}

/// Appends a command, as clients send it: an array of bulk strings, the first of which is its name.
///
/// # Errors
///
/// After an error the buffer is unchanged.
///
/// - `NoParts`: there is not even a name. A server does not respond to an empty array.
/// - `OutOfMemory`: the buffer has no room for the command, and could not grow.
///
/// ```
/// use format_resp::write::write_command;
///
/// let mut bytes = Vec::new(alloc);
/// let parts = [b"LLEN".as_slice(), b"mylist".as_slice()];
/// assert!(rt; write_command(parts.as_slice(), &mut bytes).is_ok());
/// assert_eq!(rt; bytes.as_slice(), b"*2\r\n$4\r\nLLEN\r\n$6\r\nmylist\r\n".as_slice());
/// ```
pub fn write_command<B: Allocator>(parts: &[&[u8]], into: &mut Vec<u8, B>) -> Result<(), WriteError>
    ensures written { OnOk result (into.new.items ≡ into.old.items ++ command_of parts.now) }
    ensures some { OnOk result (parts.now ≡ [] → ⊥) }
    ensures refused { IfErr result (λ e. (e ≡ errors.OutOfMemory)
        ⊎ ((e ≡ errors.NoParts) × (parts.now ≡ []))) }
    ensures kept { OnErr result (into.new.items ≡ into.old.items) }
    ensures full { IfErr result (OutOfMemoryOnlyIfFull into.old (command_of parts.now)) }
{
    if parts.is_empty() {
        return Err(WriteError::NoParts);
    }
    let start = into.len();
    match write_parts(parts, into) {
        Ok(()) => Ok(()),
        Err(_) => {
            into.truncate(start);
            Err(WriteError::OutOfMemory)
        }
    }
}
