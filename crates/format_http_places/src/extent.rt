//! An incremental scanner for the end of a head in bytes that arrive in chunks.
//!
//! Each call resumes after the bytes that earlier calls passed. So the time to find a head is
//! linear in its bytes, for any number of chunks. One call of
//! [`read_head_into`](crate::read::read_head_into) or
//! [`read_response_head_into`](crate::response::read_response_head_into) then reads it.

ghost use Rattle.std.specs.Prelude.{◌≡◌, ◌≤◌, ◌<◌, ◌++◌, [], ℕ, List, None, Ok, drop, length};
ghost use Rattle.format_http_places.specs.Extents.{HeadResult, IsLed, IsOf, Says, Walks};
ghost use Rattle.format_http_places.specs.States.{IsIn, TextOf};

use crate::parts::{HeadKind, HeadPart, Invalid};
use crate::state::{HeadPlace, place_after, run_len};
use crate::stop::behind;

/// The state of the search for the end of a head. Its fields can be stored anywhere, and an extent
/// can be made of them again.
///
/// ```
/// use format_http_places::extent::HeadExtent;
/// use format_http_places::parts::HeadKind;
///
/// let mut extent = HeadExtent::new(HeadKind::Request);
/// assert!(rt; matches!(extent.advance(b"GET / HTTP/1.1\r\nHost"), Ok(None)));
/// assert!(rt; extent.passed == 20);
/// let whole = b"GET / HTTP/1.1\r\nHost: a\r\n\r\n";
/// assert!(rt; matches!(extent.advance(whole), Ok(Some(27))));
/// ```
#[derive(Clone, Copy, Debug, PartialEq, Eq)]
pub struct HeadExtent {
    /// How many bytes were passed.
    pub passed: usize,
    /// The position of the next byte in the head.
    pub place: HeadPlace,
}

/// Passes the longest possible prefix of the bytes, and returns the new state and the rest.
#[inline(always)]
fn walk<'i>(from: HeadPlace, fresh: &'i [u8]) -> (HeadPlace, &'i [u8])
    ensures { Walks from fresh.now result.0 result.1.now }
{
    let mut place = from;
    let mut rest = fresh;
    'runs: loop {
        let run = run_len(place, rest);
        let left = behind(rest, run);
        match left.split_first() {
            None => return (place, left),
            Some((byte, more)) => match place_after(place, *byte) {
                None => return (place, left),
                Some(next) => {
                    place = next;
                    rest = more;
                }
            },
        }
    }
}

/// Returns the part of a head that the byte after these is in.
pub(crate) fn part_after(kind: HeadKind, before: &[u8]) -> HeadPart
    requires { (more : List ℕ) × TextOf kind (before.now ++ more) [] }
    ensures { IsIn kind before.now result }
{
    let (place, _) = walk(HeadPlace::start(kind), before);
    place.part()
}

impl HeadExtent {
    /// Nothing is passed of a head of this kind.
    ///
    /// ```
    /// use format_http_places::extent::HeadExtent;
    /// use format_http_places::parts::HeadKind;
    ///
    /// assert!(rt; HeadExtent::new(HeadKind::Response).passed == 0);
    /// ```
    pub fn new(kind: HeadKind) -> HeadExtent
        ensures { (bytes : List ℕ) → IsOf kind result bytes }
    {
        HeadExtent {
            passed: 0,
            place: HeadPlace::start(kind),
        }
    }

    /// Searches for the end of the head of an HTTP/1.1 request or response (RFC 9112, section 2.1)
    /// at the start of `bytes`, and returns the head's length in bytes. [`HeadExtent::new`] chooses
    /// the kind of head.
    ///
    /// `bytes` must be those of the previous call, possibly followed by more. Bytes that were
    /// passed are not examined again, so the time of all calls together is linear in the bytes. In
    /// all calls together a byte is examined at most 18 times: twice by itself, and once in each
    /// group of sixteen bytes that contains it.
    ///
    /// It returns `None` if the bytes do not start with a head, and some continuation does.
    /// [`HeadExtent::passed`] is then the number of all bytes; at an error it is the offset of the
    /// error, and for a complete head its length. The next call resumes from there. The result is
    /// specified only if the extent is of these bytes: if it was used for others, the result may be
    /// wrong.
    ///
    /// # Errors
    ///
    /// [`Invalid`]: the same as the error of [`read_head_into`](crate::read::read_head_into) or
    /// [`read_response_head_into`](crate::response::read_response_head_into) for these bytes.
    ///
    /// ```
    /// use format_http_places::extent::HeadExtent;
    /// use format_http_places::parts::HeadKind;
    /// use format_http_places::places::{Field, Span};
    /// use format_http_places::read::read_head_into;
    ///
    /// let bytes = b"GET / HTTP/1.1\r\nHost: a\r\n\r\nrest".as_slice();
    /// let mut extent = HeadExtent::new(HeadKind::Request);
    /// assert!(rt; matches!(extent.advance(&bytes[..7]), Ok(None)));
    /// assert!(rt; matches!(extent.advance(bytes), Ok(Some(27))));
    /// let nowhere = Span { offset: 0, length: 0 };
    /// let mut fields = [Field { name: nowhere, value: nowhere }; 1];
    /// assert!(rt; read_head_into(&bytes[..27], &mut fields).is_ok());
    /// ```
    pub fn advance(&mut self, bytes: &[u8]) -> Result<Option<usize>, Invalid>
        ensures told { (kind : HeadKind) → IsOf kind self.old bytes.now
            → HeadResult kind bytes.now result }
        ensures kept { (kind : HeadKind) → IsOf kind self.old bytes.now
            → (more : List ℕ) → IsOf kind self.new (bytes.now ++ more) }
        ensures fresh { self.old.passed ≤ length bytes.now
            → IsLed self.old (drop self.old.passed bytes.now) self.new result }
        ensures short { length bytes.now < self.old.passed
            → (result ≡ Ok None) × (self.new ≡ self.old) }
    {
        match bytes.get(self.passed..) {
            None => Ok(None),
            Some(fresh) => {
                let (place, left) = walk(self.place, fresh);
                *self = HeadExtent {
                    passed: bytes.len() - left.len(),
                    place,
                };
                self.say(left)
            }
        }
    }

    /// Returns the result for the passed bytes, if `left` remains.
    #[inline(always)]
    fn say(&self, left: &[u8]) -> Result<Option<usize>, Invalid>
        ensures { Says self.now left.now result }
    {
        match self.place {
            HeadPlace::Done => Ok(Some(self.passed)),
            _ => {
                if left.is_empty() {
                    Ok(None)
                } else {
                    Err(Invalid {
                        place: self.passed,
                        part: self.place.part(),
                    })
                }
            }
        }
    }
}
