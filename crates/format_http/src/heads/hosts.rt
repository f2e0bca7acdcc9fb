//! The Host fields of a request (RFC 9112, section 3.2).
#![tactic(auto)]

ghost use Rattle.format_http.specs.Heads.Head.{request};
ghost use Rattle.format_http.specs.Heads.Hosts.{AreCounted, HasHostError, HasInvalidHost};
ghost use Rattle.format_http.specs.Heads.Hosts.{IsHostError};
ghost use Rattle.std.specs.Prelude.{◌↔◌, IsTrue};

use crate::heads::fields::Fields;
use crate::heads::request_line::RequestLine;
use crate::heads::uris::is_host;

/// Why a server must reject a request because of its Host fields.
///
/// ```
/// use format_http::heads::hosts::HostError;
///
/// assert!(rt; HostError::Missing != HostError::Many);
/// ```
#[derive(Clone, Copy, Debug, PartialEq, Eq, Drop)]
pub enum HostError {
    /// A request of HTTP/1.1 has no Host field.
    Missing,
    /// A request has more than one Host field.
    Many,
    /// The value of the Host field is not a host with an optional port (RFC 9110, section 7.2).
    Invalid,
}

/// Returns how many fields are named Host; 2 stands for two or more.
fn hosts_in<'i, F: Fields<'i>>(fields: F) -> usize
    ensures { AreCounted (F.pairs fields) result }
{
    let mut hosts = 0;
    let mut left = fields;
    'passed: while let Some(field) = left.next() {
        if field.name.eq_ignore_ascii_case(b"host".as_slice()) && hosts < 2 {
            hosts += 1;
        }
    }
    hosts
}

/// Whether a Host field has an invalid value.
fn has_invalid_host<'i, F: Fields<'i>>(fields: F) -> bool
    ensures { IsTrue result ↔ HasInvalidHost (F.pairs fields) }
{
    let mut left = fields;
    'passed: while let Some(field) = left.next() {
        if field.name.eq_ignore_ascii_case(b"host".as_slice()) && !is_host(field.value) {
            return true;
        }
    }
    false
}

/// Returns the error of this number of Host fields in a request of this line, one of which has an
/// invalid value or not.
fn error_of(line: &RequestLine<'_>, hosts: usize, invalid: bool) -> Option<HostError>
    ensures { IsHostError (request line.now) hosts (IsTrue invalid) result }
{
    if hosts > 1 {
        return Some(HostError::Many);
    }
    if hosts == 0 && line.major == 1 && line.minor >= 1 {
        return Some(HostError::Missing);
    }
    if invalid {
        return Some(HostError::Invalid);
    }
    None
}

/// Returns why a server must respond to the request of this line with status 400 because of its
/// Host fields, or `None`: it has more than one, or none although its version is 1.1 or a later
/// 1.x, or one with an invalid value (RFC 9112, section 3.2).
///
/// A value is a host and an optional port (RFC 9110, section 7.2). The host may be empty, and
/// whether the bytes of a host in brackets are an address is not examined. It does not allocate.
///
/// ```
/// use format_http::heads::field_line::Field;
/// use format_http::heads::hosts::{HostError, host_error};
/// use format_http::heads::request_line::RequestLine;
///
/// let line = RequestLine { method: b"GET", target: b"/", major: 1, minor: 1 };
/// let host = Field { name: b"Host", value: b"a:80" };
/// assert!(rt; host_error(&line, [host].as_slice()) == None);
/// assert!(rt; host_error(&line, [].as_slice()) == Some(HostError::Missing));
/// assert!(rt; host_error(&line, [host, host].as_slice()) == Some(HostError::Many));
/// let two = Field { value: b"a, b", ..host };
/// assert!(rt; host_error(&line, [two].as_slice()) == Some(HostError::Invalid));
/// ```
pub fn host_error<'i, F: Fields<'i>>(line: &RequestLine<'_>, fields: F) -> Option<HostError>
    ensures { HasHostError (request line.now) (F.pairs fields) result }
{
    let hosts = hosts_in(fields);
    let invalid = has_invalid_host(fields);
    error_of(line, hosts, invalid)
}
