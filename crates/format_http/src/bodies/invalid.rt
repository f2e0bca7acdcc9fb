//! Transfer-Encoding fields that are not lists of transfer codings (RFC 9110, section 10.1.4).
#![tactic(auto)]

ghost use Rattle.format_http.specs.Bodies.Codings.{HasInvalid, HaveInvalid};
ghost use Rattle.format_http.specs.Bodies.Lists.{quoted_parts_of};
ghost use Rattle.std.specs.Prelude.{◌↔◌, IsTrue};

use crate::bodies::coding::is_coding;
use crate::bodies::lists::{element_of, next_quoted_part};
use crate::heads::fields::Fields;

/// Whether an element of a list is neither empty nor a transfer coding.
fn has_invalid(list: &[u8]) -> bool
    ensures { IsTrue result ↔ HasInvalid (quoted_parts_of list.now) }
{
    let mut left = Some(list);
    'parts: while let Some(here) = left {
        let (part, more) = next_quoted_part(here);
        let coding = element_of(part);
        if !coding.is_empty() && !is_coding(coding) {
            return true;
        }
        left = more;
    }
    false
}

/// Whether an element of the Transfer-Encoding fields is neither empty nor a transfer coding.
pub(crate) fn have_invalid<'i, F: Fields<'i>>(fields: F) -> bool
    ensures { IsTrue result ↔ HaveInvalid (F.pairs fields) }
{
    let mut left = fields;
    'passed: while let Some(field) = left.next() {
        if field
            .name
            .eq_ignore_ascii_case(b"transfer-encoding".as_slice())
            && has_invalid(field.value)
        {
            return true;
        }
    }
    false
}
