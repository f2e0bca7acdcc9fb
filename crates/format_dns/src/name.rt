//! Names.
ghost use Rattle.format_dns.specs.Names.{EndingResult, IsLabel, NameResult, NameWithin};
ghost use Rattle.grammars.specs.Grammar.{NoMatch};

use crate::fault::PartError;
use crate::labels::read_labels;
use std::alloc::Allocator;

/// A name in a message `'m`.
#[derive(Drop)]
pub struct Name<'m, A: Allocator> {
    /// Its labels, from the first to that of the highest domain.
    pub labels: Vec<&'m [u8], A>,
    /// The place in the message, in bytes, after what is written for it where it begins.
    pub behind: usize,
}

/// The ending of a sequence of labels.
enum Ending {
    /// The root, which ends the name.
    Root,
    /// A pointer to the offset where the name continues.
    Pointer(usize),
}

/// Reads the ending at offset `place`, where no label follows.
fn read_ending(rest: &[u8], place: usize) -> Result<Ending, PartError>
    requires { NoMatch IsLabel rest.now }
    ensures { EndingResult rest.now place result }
{
    let Some((first, behind)) = rest.split_first() else {
        return Err(PartError::Ends(place));
    };
    match *first {
        0 => Ok(Ending::Root),
        1..=63 => Err(PartError::Ends(place)),
        64..=191 => Err(PartError::Reserved(place)),
        high => match behind.split_first() {
            Some((low, _)) => {
                let to = usize::from(high - 192) * 256 + usize::from(*low);
                Ok(Ending::Pointer(to))
            }
            None => Err(PartError::Ends(place)),
        },
    }
}

/// Reads the name at an offset, following at most `pointers` pointers. Its labels may have at most
/// `room` octets.
fn read_within<'m, A: Allocator + Copy>(
    alloc: A,
    pointers: usize,
    room: usize,
    message: &'m [u8],
    place: usize,
) -> Result<Name<'m, A>, PartError>
    ensures { NameWithin message.now pointers room place result }
{
    let Some(mut rest) = message.get(place..) else {
        return Err(PartError::Ends(place));
    };
    let Ok(mut labels) = read_labels(alloc, room / 2 + 1, &mut rest) else {
        return Err(PartError::NoMemory);
    };
    let end = message.len() - rest.len();
    let Some(left) = room.checked_sub(end - place) else {
        return Err(PartError::TooLong(place));
    };
    match read_ending(rest, end)? {
        Ending::Root => Ok(Name {
            labels,
            behind: end + 1,
        }),
        Ending::Pointer(to) => {
            if to >= place {
                return Err(PartError::NotPrior(end));
            }
            let Some(below) = pointers.checked_sub(1) else {
                return Err(PartError::TooMany(end));
            };
            let further = read_within(alloc, below, left, message, to)?;
            if labels.extend_from_slice(&further.labels).is_err() {
                return Err(PartError::NoMemory);
            }
            Ok(Name {
                labels,
                behind: end + 2,
            })
        }
    }
}

/// Reads the name at offset `place` of a message, in bytes from its start. A name has at most 255
/// octets, including those of the lengths and of the root (RFC 1035, sections 2.3.4 and 4.1.4). At
/// most `pointers` pointers are followed in sequence; 127 suffice if each leads to a label.
///
/// At most 128 labels are examined, for any message. Each label in the result is copied, as a
/// slice, once for each pointer that led to it. So the time is that of 128 labels times `pointers +
/// 1`.
///
/// An error holds the reason why there is no such name and the first offset where it fails, or is
/// out of memory.
///
/// ```
/// use format_dns::name::read_name;
///
/// let message = b"\x03com\x00\x07example\xc0\x00".as_slice();
/// let name = read_name(alloc, 1, message, 5);
/// assert!(rt; matches!(name, Ok(name) if name.labels.len() == 2 && name.behind == 15));
/// assert!(rt; read_name(alloc, 0, message, 5).is_err());
/// ```
pub fn read_name<'m, A: Allocator + Copy>(
    alloc: A,
    pointers: usize,
    message: &'m [u8],
    place: usize,
) -> Result<Name<'m, A>, PartError>
    ensures { NameResult message.now pointers place result }
{
    read_within(alloc, pointers, 254, message, place)
}
