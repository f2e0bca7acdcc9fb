//! Headers of messages of the Domain Name System (RFC 1035, section 4.1.1).

ghost use Rattle.std.specs.Prelude.{◌≡◌, ◌<◌, ◌⊎◌, length};
ghost use Rattle.format_dns.specs.Messages.{StartsWithHeader};
ghost use Rattle.exported.specs.Code.{done, invalid};
ghost use Rattle.exported.specs.Dns.{header_of, no_header};

use crate::code::{DONE, INVALID};
use format_dns::header::read_header;

/// The header of a message.
#[repr(C)]
#[derive(Clone, Copy, Drop)]
pub struct DnsHeader {
    /// The identifier of the query and its response.
    pub id: u16,
    /// The kind of query, a number of 4 bits; 0 is a standard query.
    pub opcode: u8,
    /// The response code, a number of 4 bits; 0 is no error.
    pub response_code: u8,
    /// The reserved bits, a number of 3 bits.
    pub reserved: u8,
    /// Whether the message is a response, and not a query.
    pub is_response: bool,
    /// Whether the responding server is an authority for the name.
    pub is_authoritative: bool,
    /// Whether the message was truncated.
    pub is_truncated: bool,
    /// Whether the server is asked to pursue the query recursively.
    pub recursion_desired: bool,
    /// Whether the responding server can do so.
    pub recursion_available: bool,
    /// The number of questions.
    pub question_count: u16,
    /// The number of records in the answer section.
    pub answer_count: u16,
    /// The number of records in the authority section.
    pub authority_count: u16,
    /// The number of records in the additional section.
    pub additional_count: u16,
}

/// The output without a header.
const NO_HEADER: DnsHeader = DnsHeader {
    id: 0,
    opcode: 0,
    response_code: 0,
    reserved: 0,
    is_response: false,
    is_authoritative: false,
    is_truncated: false,
    recursion_desired: false,
    recursion_available: false,
    question_count: 0,
    answer_count: 0,
    authority_count: 0,
    additional_count: 0,
};

/// Parses the header of a DNS message: its first twelve bytes, whatever they are. The questions
/// start after it, at offset 12, and the records after them, section by section.
///
/// `DONE`: the header is written.
///
/// The function does not allocate.
///
/// # Errors
///
/// `INVALID`: the message has fewer than twelve bytes. Zeros are written.
///
/// # Safety
///
/// `message` must be valid for reads of `message_length` bytes, which must not change during the
/// call, and `out` for writes of one header. They must not overlap. The call needs 16 KiB of stack.
#[unsafe(no_mangle)]
pub extern "C" fn exported_dns_message_header(message: &[u8], out: &mut DnsHeader) -> u32
    ensures header { result ≡ done → StartsWithHeader message.now (header_of out.new) }
    ensures refused { result ≡ invalid → (length message.now < 12) × (out.new ≡ no_header) }
    ensures codes { (result ≡ done) ⊎ (result ≡ invalid) }
{
    *out = NO_HEADER;
    let Some(mut first) = message.get(..12) else {
        return INVALID;
    };
    let Ok(header) = read_header(&mut first) else {
        return INVALID;
    };
    *out = DnsHeader {
        id: header.id,
        opcode: header.opcode,
        response_code: header.response_code,
        reserved: header.reserved,
        is_response: header.is_response,
        is_authoritative: header.is_authoritative,
        is_truncated: header.is_truncated,
        recursion_desired: header.recursion_desired,
        recursion_available: header.recursion_available,
        question_count: header.question_count,
        answer_count: header.answer_count,
        authority_count: header.authority_count,
        additional_count: header.additional_count,
    };
    DONE
}
