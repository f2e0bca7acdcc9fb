//! Questions and records of messages of the Domain Name System (RFC 1035, section 4.1).

ghost use Rattle.std.specs.Prelude.{◌≡◌, ◌⊎◌};
ghost use Rattle.exported.specs.Code.{done, invalid, no_memory};
ghost use Rattle.exported.specs.Dns.{RefusesQuestion, RefusesRecord, ShowsQuestion, ShowsRecord};
ghost use Rattle.exported.specs.Dns.{no_question, no_record};

use crate::code::DONE;
use crate::dns::{DNS_MAX_POINTERS, DnsFault, NO_FAULT, code_for, fault_in};
use crate::span::{NOWHERE, Span};
use format_dns::question::read_question;
use format_dns::record::read_record;
use std::alloc::Global;

/// A question.
#[repr(C)]
#[derive(Clone, Copy, Drop)]
pub struct DnsQuestion {
    /// The offset in the message after its name.
    pub name_end: usize,
    /// The number of the type of the requested records; 255 means all.
    pub record_type: u16,
    /// The number of their class; 1 is the Internet, 255 any.
    pub record_class: u16,
    /// The offset in the message after the question.
    pub end: usize,
    /// Why there is no question.
    pub fault: DnsFault,
}

/// A resource record.
#[repr(C)]
#[derive(Clone, Copy, Drop)]
pub struct DnsRecord {
    /// The offset in the message after its name.
    pub name_end: usize,
    /// The number of its type.
    pub record_type: u16,
    /// The number of its class; 1 is the Internet.
    pub record_class: u16,
    /// For how many seconds it may be cached. A number above 2^31 - 1 is to be taken as 0.
    pub time_to_live: u32,
    /// The span of its data in the message.
    pub span: Span,
    /// The offset in the message after the record, which is that after its data.
    pub end: usize,
    /// Why there is no record.
    pub fault: DnsFault,
}

/// The output without a question.
const NO_QUESTION: DnsQuestion = DnsQuestion {
    name_end: 0,
    record_type: 0,
    record_class: 0,
    end: 0,
    fault: NO_FAULT,
};

/// The output without a record.
const NO_RECORD: DnsRecord = DnsRecord {
    name_end: 0,
    record_type: 0,
    record_class: 0,
    time_to_live: 0,
    span: NOWHERE,
    end: 0,
    fault: NO_FAULT,
};

/// Parses the question at an offset of a DNS message (RFC 1035, section 4.1.2): a name, as by
/// `exported_dns_name_at`, a type and a class. The first question is at offset 12, each further one
/// at the end of the one before; the header has their number.
///
/// `DONE`: the question is written. Its name is at the same offset.
///
/// A call holds up to 16 KiB of memory.
///
/// # Errors
///
/// `INVALID`: there is no question. The reason is written, and zeros.
///
/// `NO_MEMORY`. Zeros are written.
///
/// # Safety
///
/// `message` must be valid for reads of `message_length` bytes, which must not change during the
/// call, and `out` for writes of one question. They must not overlap. The call needs 64 KiB of
/// stack.
#[unsafe(no_mangle)]
pub extern "C" fn exported_dns_question_at(
    alloc: Global,
    message: &[u8],
    offset: usize,
    out: &mut DnsQuestion,
) -> u32
    ensures question { result ≡ done → ShowsQuestion message.now offset out.new }
    ensures refused { result ≡ invalid → RefusesQuestion message.now offset out.new }
    ensures memory { result ≡ no_memory → out.new ≡ no_question }
    ensures codes { (result ≡ done) ⊎ ((result ≡ invalid) ⊎ (result ≡ no_memory)) }
{
    match read_question(alloc, DNS_MAX_POINTERS, message, offset) {
        Ok(question) => {
            *out = DnsQuestion {
                name_end: question.name.behind,
                record_type: question.kind,
                record_class: question.class,
                end: question.behind,
                fault: NO_FAULT,
            };
            DONE
        }
        Err(why) => {
            *out = DnsQuestion {
                fault: fault_in(why),
                ..NO_QUESTION
            };
            code_for(why)
        }
    }
}

/// Parses the resource record at an offset of a DNS message (RFC 1035, section 4.1.3): a name, as
/// by `exported_dns_name_at`, a type, a class, a time to live, and data of a given length. The
/// records start where the last question ends, each at the end of the one before; the header has
/// their number in each section.
///
/// The data must be exactly the contents of their type: a name (NS, CNAME, PTR), a preference and a
/// name (MX), character strings (TXT), two names and five numbers (SOA); in the class of the
/// Internet an address (A, AAAA), or three numbers and a name (SRV). Data of other types and
/// classes may be any bytes. In the classes 254 and 255 the data of any type may be empty (RFC
/// 2136).
///
/// `DONE`: the record is written. Its name is at the same offset. Numbers in its data have their
/// highest byte first; names in them may be compressed, so pass their offsets to
/// `exported_dns_name_at`.
///
/// A call holds up to 32 KiB of memory, and 64 bytes for each byte of the data.
///
/// # Errors
///
/// `INVALID`: there is no record. The reason is written, and zeros.
///
/// `NO_MEMORY`. Zeros are written.
///
/// # Safety
///
/// `message` must be valid for reads of `message_length` bytes, which must not change during the
/// call, and `out` for writes of one record. They must not overlap. The call needs 64 KiB of stack.
#[unsafe(no_mangle)]
pub extern "C" fn exported_dns_record_at(
    alloc: Global,
    message: &[u8],
    offset: usize,
    out: &mut DnsRecord,
) -> u32
    ensures record { result ≡ done → ShowsRecord message.now offset out.new }
    ensures refused { result ≡ invalid → RefusesRecord message.now offset out.new }
    ensures memory { result ≡ no_memory → out.new ≡ no_record }
    ensures codes { (result ≡ done) ⊎ ((result ≡ invalid) ⊎ (result ≡ no_memory)) }
{
    match read_record(alloc, DNS_MAX_POINTERS, message, offset) {
        Ok(record) => {
            let start = record.name.behind + 10;
            let length = record.behind - start;
            *out = DnsRecord {
                name_end: record.name.behind,
                record_type: record.kind,
                record_class: record.class,
                time_to_live: record.time_to_live,
                span: Span {
                    offset: start,
                    length,
                },
                end: record.behind,
                fault: NO_FAULT,
            };
            DONE
        }
        Err(why) => {
            *out = DnsRecord {
                fault: fault_in(why),
                ..NO_RECORD
            };
            code_for(why)
        }
    }
}
