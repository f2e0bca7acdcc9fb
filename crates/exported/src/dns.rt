//! Messages of the Domain Name System (RFC 1035): names and their errors.

ghost use Rattle.std.specs.Prelude.{◌≡◌, ◌≤◌, ◌⊎◌};
ghost use Rattle.format_dns.specs.Names.{octets};
ghost use Rattle.exported.specs.Code.{buffer_too_small, done, invalid, no_memory};
ghost use Rattle.exported.specs.Dns.{RefusesName, WantsName, WritesName, code_of, fault_of};
ghost use Rattle.exported.specs.Dns.{no_name, wire};
ghost use Rattle.exported.specs.Output.{Puts};

pub mod entries;
pub mod header;

use crate::code::{BUFFER_TOO_SMALL, DONE, INVALID, NO_MEMORY};
use crate::output::{put_byte, put_bytes};
use format_dns::fault::PartError;
use format_dns::name::read_name;
use std::alloc::Global;

/// The maximum length of a name in bytes, without compression. A buffer of this size suffices for
/// any name.
pub const DNS_MAX_NAME: usize = 255;

/// How many compression pointers are followed in sequence. They suffice for any name if each leads
/// to a label.
pub const DNS_MAX_POINTERS: usize = 127;

/// No error.
pub const DNS_ERROR_NONE: u32 = 0;

/// Incomplete element. The message, or a record's data by their length, ends within it: a label, a
/// pointer, the end of a name, fields of a fixed length, a character string, or data.
pub const DNS_ERROR_INCOMPLETE: u32 = 1;

/// Unexpected trailing data. A record's data have bytes after the contents of their type.
pub const DNS_ERROR_TRAILING: u32 = 2;

/// Reserved label type. Exactly one of the two highest bits of the byte is set.
pub const DNS_ERROR_RESERVED: u32 = 3;

/// Compression pointer without a prior target. Its target is not before the labels that precede it.
pub const DNS_ERROR_NOT_PRIOR: u32 = 4;

/// Too many compression pointers. It is one more than are followed.
pub const DNS_ERROR_TOO_MANY: u32 = 5;

/// Name too long. With the labels from the offset on it has more than 255 bytes.
pub const DNS_ERROR_TOO_LONG: u32 = 6;

/// Why a part of a message is invalid.
#[repr(C)]
#[derive(Clone, Copy, Drop)]
pub struct DnsFault {
    /// The reason; `DNS_ERROR_NONE` if there is none.
    pub error: u32,
    /// The offset in the message of what is invalid; 0 if there is no reason.
    pub offset: usize,
}

/// A name.
#[repr(C)]
#[derive(Clone, Copy, Drop)]
pub struct DnsName {
    /// How many bytes the name has without compression, from 1 to `DNS_MAX_NAME`.
    pub length: usize,
    /// The offset in the message after the labels and the pointer or root that start at the offset
    /// of the name.
    pub end: usize,
    /// Why there is no name.
    pub fault: DnsFault,
}

/// No error.
pub(crate) const NO_FAULT: DnsFault = DnsFault {
    error: DNS_ERROR_NONE,
    offset: 0,
};

/// The output without a name.
const NO_NAME: DnsName = DnsName {
    length: 0,
    end: 0,
    fault: NO_FAULT,
};

/// Returns the error of an output.
pub(crate) fn fault_in(why: PartError) -> DnsFault
    ensures { result ≡ fault_of why }
{
    let (error, offset) = match why {
        PartError::Ends(place) => (DNS_ERROR_INCOMPLETE, place),
        PartError::Trailing(place) => (DNS_ERROR_TRAILING, place),
        PartError::Reserved(place) => (DNS_ERROR_RESERVED, place),
        PartError::NotPrior(place) => (DNS_ERROR_NOT_PRIOR, place),
        PartError::TooMany(place) => (DNS_ERROR_TOO_MANY, place),
        PartError::TooLong(place) => (DNS_ERROR_TOO_LONG, place),
        PartError::NoMemory => (DNS_ERROR_NONE, 0),
    };
    DnsFault { error, offset }
}

/// Returns the code of an error.
pub(crate) fn code_for(why: PartError) -> u32
    ensures { result ≡ code_of why }
{
    match why {
        PartError::NoMemory => NO_MEMORY,
        _ => INVALID,
    }
}

/// Writes a name without compression, as far as there is room, and returns the offset after it:
/// each label after its length, and the length 0 of the root. It calls itself once for each label.
fn put_labels(labels: &[&[u8]], at: usize, buffer: &mut [u8]) -> usize
    requires { octets labels.now ≤ 254 }
    ensures { Puts (wire labels.now) at buffer.old result buffer.new }
{
    let Some((label, below)) = labels.split_first() else {
        return put_byte(0, at, buffer);
    };
    let end = put_byte(label.len() as u8, at, buffer);
    let end = put_bytes(label, end, buffer);
    put_labels(below, end, buffer)
}

/// Decompresses the name at an offset of a DNS message (RFC 1035, sections 3.1 and 4.1.4): of each
/// label a byte with its length, from 1 to 63, and its bytes, which may be any, and a zero for the
/// root.
///
/// Names are those of questions, of records, and in the data of records: of NS, CNAME and PTR at
/// their start, of MX after two bytes, of SRV after six, and of SOA two at their start.
///
/// Each pointer must lead to an offset before the labels that precede it, so pointers never form a
/// cycle. At most `DNS_MAX_POINTERS` are followed in sequence.
///
/// `DONE`: the name is written at the start of `buffer`, and its length and its end into `out`. The
/// other bytes of the buffer are unchanged.
///
/// A call holds up to 16 KiB of memory.
///
/// # Errors
///
/// `BUFFER_TOO_SMALL`: the name is longer than the buffer. Its length and its end are written.
///
/// `INVALID`: there is no name of at most `DNS_MAX_NAME` bytes. The reason is written, and zeros.
///
/// `NO_MEMORY`. Zeros are written.
///
/// After an error the buffer is unchanged.
///
/// # Safety
///
/// `message` must be valid for reads of `message_length` bytes, which must not change during the
/// call, `buffer` for writes of `buffer_length` bytes, and `out` for writes of one name. None of
/// these may overlap. The call needs 64 KiB of stack.
#[unsafe(no_mangle)]
pub extern "C" fn exported_dns_name_at(
    alloc: Global,
    message: &[u8],
    offset: usize,
    buffer: &mut [u8],
    out: &mut DnsName,
) -> u32
    ensures name { result ≡ done → WritesName message.now offset buffer.old buffer.new out.new }
    ensures small { result ≡ buffer_too_small → WantsName message.now offset buffer.old out.new }
    ensures kept { (result ≡ done → ⊥) → buffer.new ≡ buffer.old }
    ensures refused { result ≡ invalid → RefusesName message.now offset out.new }
    ensures memory { result ≡ no_memory → out.new ≡ no_name }
    ensures codes { (result ≡ done) ⊎ ((result ≡ buffer_too_small) ⊎ ((result ≡ invalid)
        ⊎ (result ≡ no_memory))) }
{
    match read_name(alloc, DNS_MAX_POINTERS, message, offset) {
        Ok(name) => {
            let length = put_labels(&name.labels, 0, &mut []);
            *out = DnsName {
                length,
                end: name.behind,
                ..NO_NAME
            };
            if length > buffer.len() {
                return BUFFER_TOO_SMALL;
            }
            put_labels(&name.labels, 0, buffer);
            DONE
        }
        Err(why) => {
            *out = DnsName {
                fault: fault_in(why),
                ..NO_NAME
            };
            code_for(why)
        }
    }
}
