//! Names as text, and equality of names up to the case of letters.
ghost use Rattle.format_dns.specs.Alike.{AreSame};
ghost use Rattle.std.specs.Prelude.{◌↔◌, IsTrue};

use crate::name::Name;
use std::alloc::Allocator;
use std::fmt::{self, Display, Formatter};

/// Whether labels are the same but for the case of letters of ASCII.
fn are_same(labels: &[&[u8]], others: &[&[u8]]) -> bool
    ensures { IsTrue result ↔ AreSame labels.now others.now }
{
    let Some((label, below)) = labels.split_first() else {
        return others.is_empty();
    };
    let Some((other, others_below)) = others.split_first() else {
        return false;
    };
    label.eq_ignore_ascii_case(other) && are_same(below, others_below)
}

impl<'m, A: Allocator> Name<'m, A> {
    /// Returns whether the names are equal label by label, ignoring the case of ASCII letters (RFC
    /// 1035, section 2.3.3; RFC 4343). Their offsets do not matter.
    ///
    /// ```
    /// use format_dns::name::read_name;
    ///
    /// let message = b"\x03com\x00\x03COM\x00\x03c-m\x00".as_slice();
    /// let lower = read_name(alloc, 0, message, 0).unwrap();
    /// let upper = read_name(alloc, 0, message, 5).unwrap();
    /// let other = read_name(alloc, 0, message, 10).unwrap();
    /// assert!(rt; lower.eq_ignore_ascii_case(&upper));
    /// assert!(rt; !lower.eq_ignore_ascii_case(&other));
    /// ```
    pub fn eq_ignore_ascii_case(&self, other: &Name<'m, A>) -> bool
        ensures { IsTrue result ↔ AreSame self.now.labels.items other.now.labels.items }
    {
        are_same(&self.labels, &other.labels)
    }
}

/// Writes a byte of a label as in master files (RFC 1035, section 5.1).
fn write_byte<W: fmt::Write>(f: &mut Formatter<W>, byte: u8) -> fmt::Result {
    match byte {
        b'"' | b'$' | b'(' | b')' | b'.' | b';' | b'@' | b'\\' => {
            write!(f, "\\{}", char::from(byte))
        }
        b'!'..=b'~' => write!(f, "{}", char::from(byte)),
        _ => write!(f, "\\{:03}", byte),
    }
}

/// Writes a name as in master files (RFC 1035, section 5.1): a dot after each label, and a dot for
/// the root. A byte with a special meaning is preceded by a backslash. A byte that is not a visible
/// ASCII character is a backslash and its number in three digits.
///
/// ```
/// use format_dns::name::read_name;
///
/// let name = read_name(alloc, 0, b"\x03a.b\x02c\x00\x00".as_slice(), 0).unwrap();
/// let said = format!(in alloc; "{name}");
/// assert!(rt; matches!(said, Ok(said) if said.as_str() == "a\\.b.c\\000."));
/// ```
impl<A: Allocator> Display for Name<'_, A> {
    fn fmt<W: fmt::Write>(&self, f: &mut Formatter<W>) -> fmt::Result {
        if self.labels.is_empty() {
            return f.write_str(".");
        }
        for label in self.labels.iter() {
            for byte in label.iter() {
                write_byte(f, *byte)?;
            }
            f.write_str(".")?;
        }
        Ok(())
    }
}
