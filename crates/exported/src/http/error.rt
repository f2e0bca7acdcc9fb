//! Why a byte of a head is invalid: the part of the head that it is in.

ghost use Rattle.std.specs.Prelude.{◌≡◌};
ghost use Rattle.exported.specs.Http.{part_number};

use format_http_places::parts::HeadPart;

/// No error.
pub const HTTP_HEAD_ERROR_NONE: u32 = 0;

/// Expected a method and a space.
pub const HTTP_HEAD_ERROR_METHOD: u32 = 1;

/// Expected a request target and a space.
pub const HTTP_HEAD_ERROR_TARGET: u32 = 2;

/// Expected an HTTP version. It is `HTTP/`, a digit, a point and a digit.
pub const HTTP_HEAD_ERROR_VERSION: u32 = 3;

/// Expected a status code of three digits. A space or the line ending follows it.
pub const HTTP_HEAD_ERROR_STATUS_CODE: u32 = 4;

/// Expected a field name or an empty line. A field line may not start with whitespace.
pub const HTTP_HEAD_ERROR_FIELD_NAME: u32 = 5;

/// Expected a colon after the field name. No whitespace precedes it.
pub const HTTP_HEAD_ERROR_COLON: u32 = 6;

/// Invalid byte in a field value or reason phrase. A tab is the only valid control character.
pub const HTTP_HEAD_ERROR_VALUE: u32 = 7;

/// Expected CRLF. A line feed without a carriage return is invalid.
pub const HTTP_HEAD_ERROR_LINE_ENDING: u32 = 8;

/// Incomplete head. The bytes end within it.
pub const HTTP_HEAD_ERROR_INCOMPLETE: u32 = 9;

/// Returns the number of a part of a head.
pub(crate) fn number_of(part: HeadPart) -> u32
    ensures { result ≡ part_number part }
{
    match part {
        HeadPart::Method => HTTP_HEAD_ERROR_METHOD,
        HeadPart::Target => HTTP_HEAD_ERROR_TARGET,
        HeadPart::Version => HTTP_HEAD_ERROR_VERSION,
        HeadPart::StatusCode => HTTP_HEAD_ERROR_STATUS_CODE,
        HeadPart::FieldName => HTTP_HEAD_ERROR_FIELD_NAME,
        HeadPart::Colon => HTTP_HEAD_ERROR_COLON,
        HeadPart::Value => HTTP_HEAD_ERROR_VALUE,
        HeadPart::LineEnding => HTTP_HEAD_ERROR_LINE_ENDING,
    }
}
