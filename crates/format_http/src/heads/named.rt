//! The fields of a name, in letters of either case (RFC 9110, section 5.1).
#![tactic(auto)]

ghost use Rattle.format_http.specs.Heads.Named.{HasNo, IsNext};
ghost use Rattle.format_http.specs.declared.heads.field_line.Field.{Field};
ghost use Rattle.std.specs.Prelude.{◌≡◌, IfSome, List, None};

use crate::heads::field_line::Field;

/// Returns the first field of this name, and the fields after it. A loop that continues with those
/// yields all fields of the name, in order, as the lines of a list field (RFC 9110, section 5.3).
///
/// Names are compared ignoring ASCII case. It does not allocate.
///
/// ```
/// use format_http::heads::field_line::Field;
/// use format_http::heads::named::next_field;
///
/// let one = Field { name: b"Via", value: b"1.0 fred" };
/// let other = Field { name: b"via", value: b"1.1 p.example.com" };
/// let fields = [one, Field { name: b"Host", value: b"a" }, other];
/// let found = next_field(fields.as_slice(), b"VIA".as_slice());
/// assert!(rt; matches!(found, Some((field, behind)) if field == one && behind.len() == 2));
/// let more = next_field(&fields[1..], b"VIA".as_slice());
/// assert!(rt; matches!(more, Some((field, behind)) if field == other && behind.is_empty()));
/// ```
pub fn next_field<'f, 'i>(
    fields: &'f [Field<'i>],
    name: &[u8],
) -> Option<(Field<'i>, &'f [Field<'i>])>
    ensures some { IfSome result (λ found. IsNext name.now fields.now found.0 found.1.now) }
    ensures none { result ≡ None → HasNo name.now fields.now }
{
    let mut passed = 0;
    for field in fields {
        passed += 1;
        if field.name.eq_ignore_ascii_case(name) {
            return Some((*field, &fields[passed..]));
        }
    }
    None
}

/// Returns the first field of this name. Names are compared ignoring ASCII case. It does not
/// allocate.
///
/// ```
/// use format_http::heads::field_line::Field;
/// use format_http::heads::named::field;
///
/// let fields = [Field { name: b"Host", value: b"a" }, Field { name: b"HOST", value: b"b" }];
/// let found = field(fields.as_slice(), b"host".as_slice());
/// assert!(rt; matches!(found, Some(host) if host.value == b"a".as_slice()));
/// assert!(rt; field(fields.as_slice(), b"hosts".as_slice()) == None);
/// ```
pub fn field<'i>(fields: &[Field<'i>], name: &[u8]) -> Option<Field<'i>>
    ensures some { IfSome result (λ field. (behind : List Field)
        × IsNext name.now fields.now field behind) }
    ensures none { result ≡ None → HasNo name.now fields.now }
{
    match next_field(fields, name) {
        Some((field, _)) => Some(field),
        None => None,
    }
}
