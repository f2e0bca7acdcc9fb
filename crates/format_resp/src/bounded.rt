//! The end of a reply whose nesting depth is limited, and the reason why there is none.
ghost use Rattle.format_resp.specs.Bounded.{BoundedResult};
ghost use Rattle.format_resp.specs.Resp.{Replies, ReplyText};
ghost use Rattle.format_resp.specs.declared.reply.Protocol.{Protocol};
ghost use Rattle.std.specs.Prelude.{ℕ, List};
ghost use Rattle.winnow_grammar.specs.InTurn.{First};

use crate::extent::Invalid;
use crate::nodes::pass_nodes;
use crate::reply::Protocol;
use std::alloc::Allocator;

/// Searches for the end of the reply at the start of `bytes`, whose aggregates are nested at most
/// `level` deep, and returns the reply's length in bytes. Does not allocate.
///
/// It returns `None` if the reply is incomplete: a line has no end, or bytes of a string are
/// missing. Each call examines the bytes from the start;
/// [`Extent::advance`](crate::extent::Extent::advance) resumes, but does not check the depth. It
/// calls itself once for each nested aggregate: up to [`SAFE_DEPTH`](crate::read::SAFE_DEPTH) two
/// megabytes of stack suffice.
///
/// # Errors
///
/// No continuation starts with such a reply. It is rejected at the first part that is invalid: the
/// bytes before the offset are the same in a reply, and the reason and the offset are the same for
/// any continuation.
///
/// - `TooDeep`: the line at the offset is that of an aggregate, which is nested too deep.
/// - `TooLarge`: the line at the offset has a number that is too large.
/// - `Malformed`: the line at the offset is not the first line of a reply, for another reason, or
///   the data of a string at the offset are not valid.
///
/// ```
/// use format_resp::bounded::bounded_length;
/// use format_resp::extent::Reason;
/// use format_resp::reply::Protocol;
///
/// let bytes = b"*2\r\n+OK\r\n*1\r\n:1\r\n+".as_slice();
/// assert!(rt; matches!(bounded_length(Protocol::Resp2, 2, bytes), Ok(Some(17))));
/// assert!(rt; matches!(bounded_length(Protocol::Resp2, 2, &bytes[..15]), Ok(None)));
/// assert!(rt; matches!(bounded_length(Protocol::Resp2, 1, bytes),
///     Err(invalid) if invalid.reason == Reason::TooDeep && invalid.offset == 9));
/// ```
pub fn bounded_length(
    protocol: Protocol,
    level: usize,
    bytes: &[u8],
) -> Result<Option<usize>, Invalid>
    ensures { BoundedResult protocol level bytes.now result }
{
    let mut count = 0;
    pass_nodes(protocol, level, bytes, &mut count, &mut [])
}

/// Proves that the contract of [`bounded_length`] holds for the replies that
/// [`read_reply`](crate::read::read_reply) reads at this depth, with any allocator, and that a
/// reply at the start of the bytes is one for each allocator that there is.
///
/// ```
/// use format_resp::bounded::any_allocator_does;
/// use std::alloc::Allocator;
///
/// fn of_allocators<A: Allocator, B: Allocator>() {
///     any_allocator_does::<A, B>();
/// }
/// ```
pub fn any_allocator_does<A: Allocator, B: Allocator>()
    ensures { (protocol : Protocol) (level : ℕ) (alloc : B) (reply : Replies A)
        (tokens rest : List ℕ)
        → First (ReplyText protocol level) tokens reply rest
        → (other : Replies B) × First (ReplyText protocol level) tokens other rest }
{}
