//! Replies.

ghost use Rattle.std.specs.Prelude.{◌≡◌, ◌++◌, ◌∷◌, IfSome, MatchBool, None, length};
ghost use Rattle.format_resp.specs.Resp.{IsVerbatim};

use std::alloc::Allocator;

/// The version of the protocol that replies are of. Each reply of RESP2 is one of RESP3 too.
#[derive(Clone, Copy, Debug, PartialEq, Eq)]
pub enum Protocol {
    /// The second: simple strings, errors, integers, bulk strings and arrays, and the nulls that
    /// stand for one of the last two.
    Resp2,
    /// The third: each kind of reply.
    Resp3,
}

/// A reply. Its bytes are slices `B` of the input. RESP2 has only the kinds from `Simple` to
/// `NullArray`.
///
/// ```
/// use format_resp::reply::Reply;
/// use std::alloc::Allocator;
///
/// fn is_null<B, A: Allocator>(reply: &Reply<B, A>) -> bool {
///     matches!(reply, Reply::Null | Reply::NullBulk | Reply::NullArray)
/// }
/// ```
#[derive(Drop)]
pub enum Reply<B, A: Allocator> {
    /// A simple string, `+OK\r\n`: bytes among which is neither a carriage return nor a line feed.
    Simple(B),
    /// An error, `-ERR unknown command\r\n`: such bytes.
    Error(B),
    /// An integer, `:1000\r\n`.
    Integer(i64),
    /// A bulk string, `$6\r\nfoobar\r\n`: any bytes.
    Bulk(B),
    /// The null bulk string of RESP2, `$-1\r\n`.
    NullBulk,
    /// The elements of an array, `*2\r\n:1\r\n:2\r\n`.
    Array(Vec<Reply<B, A>, A>),
    /// The null array of RESP2, `*-1\r\n`.
    NullArray,
    /// The null, `_\r\n`.
    Null,
    /// A boolean, `#t\r\n` or `#f\r\n`.
    Boolean(bool),
    /// A double, `,1.25e-3\r\n`, as its text: what [`is_double`](crate::numbers::is_double) says.
    Double(B),
    /// A big number, `(3492890328409238509324850943850943825024385\r\n`, as its text: what
    /// [`is_big_number`](crate::numbers::is_big_number) says.
    BigNumber(B),
    /// A bulk error, `!5\r\nERR x\r\n`: any bytes.
    BulkError(B),
    /// A verbatim string, `=8\r\ntxt:some\r\n`: its bytes, of which
    /// [`split_verbatim`] gives the format and the text.
    Verbatim(B),
    /// The keys of a map, `%1\r\n+key\r\n:1\r\n`, each followed by its value.
    Map(Vec<Reply<B, A>, A>),
    /// The elements of a set, `~2\r\n:1\r\n:2\r\n`.
    Set(Vec<Reply<B, A>, A>),
    /// The parts of a push, `>2\r\n+message\r\n:1\r\n`, which is not a reply to a command.
    Push(Vec<Reply<B, A>, A>),
    /// The names of attributes, `|1\r\n+ttl\r\n:60\r\n+reply\r\n`, each followed by its value, and
    /// at the end the reply that they belong to.
    Attributed(Vec<Reply<B, A>, A>),
}

/// Splits the bytes of a verbatim string into its format, which has three bytes, and its text after
/// the colon. Returns `None` if the bytes are not valid.
///
/// ```
/// use format_resp::reply::split_verbatim;
///
/// assert!(rt; matches!(split_verbatim(b"txt:some"), Some((format, text))
///     if format == b"txt".as_slice() && text == b"some".as_slice()));
/// assert!(rt; split_verbatim(b"some").is_none());
/// ```
pub fn split_verbatim<'i>(bytes: &'i [u8]) -> Option<(&'i [u8], &'i [u8])>
    ensures some { IfSome result (λ both. (length both.0.now ≡ 3)
        × (bytes.now ≡ both.0.now ++ 58 ∷ both.1.now)) }
    ensures none { result ≡ None → IsVerbatim bytes.now → ⊥ }
{
    let (format, behind) = bytes.split_at_checked(3)?;
    let (colon, text) = behind.split_first()?;
    if *colon == b':' {
        Some((format, text))
    } else {
        None
    }
}

/// Whether the bytes are a verbatim string.
pub(crate) fn is_verbatim(bytes: &[u8]) -> bool
    ensures { MatchBool result (IsVerbatim bytes.now) (IsVerbatim bytes.now → ⊥) }
{
    match split_verbatim(bytes) {
        Some(_) => true,
        None => false,
    }
}
