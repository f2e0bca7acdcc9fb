//! The forms of a request target (RFC 9112, section 3.2).
#![tactic(auto)]

ghost use Rattle.format_http.specs.Heads.Targets.{IsAsteriskForm, IsOriginForm, IsTargetOf};
ghost use Rattle.std.specs.Prelude.{◌↔◌, IsTrue};

use crate::heads::request_line::RequestLine;
use crate::heads::uris::{is_absolute_form, is_authority_form, is_path_rest};

/// Whether a target is in origin-form.
fn is_origin_form(target: &[u8]) -> bool
    ensures { IsTrue result ↔ IsOriginForm target.now }
{
    match target.split_first() {
        Some((first, rest)) => *first == b'/' && is_path_rest(rest),
        None => false,
    }
}

/// Whether a target is in asterisk-form.
fn is_asterisk_form(target: &[u8]) -> bool
    ensures { IsTrue result ↔ IsAsteriskForm target.now }
{
    target == b"*".as_slice()
}

/// Whether the target of a request line is of a form that its method may have. The forms are:
///
/// - origin-form: a path that starts with a slash, and an optional query
/// - absolute-form: a URI without a fragment
/// - authority-form, with CONNECT, which has no other form: a host and a port
/// - asterisk-form, with OPTIONS: `*`
///
/// Their bytes are those of the grammar of URIs (RFC 3986), with two digits after each percent
/// sign. A URI with user information in its authority is not accepted: a recipient should treat it
/// as an error (RFC 9110, section 4.2.4). It does not allocate.
///
/// Whether the bytes of a host in brackets are an address is not examined. A host and a port may be
/// empty, as the grammar allows: a server must itself reject an `http` URI without a host, and an
/// empty port with CONNECT (RFC 9110, sections 4.2.1 and 9.3.6).
///
/// ```
/// use format_http::heads::request_line::RequestLine;
/// use format_http::heads::targets::has_valid_target;
///
/// let line = RequestLine { method: b"GET", target: b"/a?b=%20", major: 1, minor: 1 };
/// assert!(rt; has_valid_target(&line));
/// assert!(rt; has_valid_target(&RequestLine { target: b"http://a:80/b", ..line }));
/// assert!(rt; !has_valid_target(&RequestLine { target: b"/a#b", ..line }));
/// assert!(rt; !has_valid_target(&RequestLine { target: b"a", ..line }));
/// assert!(rt; !has_valid_target(&RequestLine { target: b"*", ..line }));
/// ```
pub fn has_valid_target(line: &RequestLine<'_>) -> bool
    ensures { IsTrue result ↔ IsTargetOf line.now.method.now line.now.target.now }
{
    if line.method == b"CONNECT".as_slice() {
        return is_authority_form(line.target);
    }
    is_origin_form(line.target)
        || is_absolute_form(line.target)
        || (line.method == b"OPTIONS".as_slice() && is_asterisk_form(line.target))
}
