//! The fields of a head, of a request and of a response.

ghost use Rattle.std.specs.Prelude.{◌≡◌, ◌≤◌, ◌<◌, ◌+◌, IfOk, MatchResult, drop, length};
ghost use Rattle.std.specs.Prelude.{slice_set};
ghost use Rattle.format_http_places.specs.Grammar.{FieldsText, Stops};
ghost use Rattle.format_http_places.specs.Places.{ShowsFields};

use crate::line::read_field_line;
use crate::places::Field;
use crate::stop::{Stop, read_byte};

/// The number of fields, and the rest after the empty line that ends them.
#[derive(Clone, Copy)]
pub(crate) struct Fields<'i> {
    pub count: usize,
    pub rest: &'i [u8],
}

/// Writes an entry, if there is one of this number.
#[inline(always)]
fn write(fields: &mut [Field], number: usize, field: Field)
    ensures put { number < length fields.old → fields.new ≡ slice_set fields.old number field }
    ensures same { length fields.new ≡ length fields.old }
    ensures behind { drop (number + 1) fields.new ≡ drop (number + 1) fields.old }
{
    if number < fields.len() {
        fields[number] = field;
    }
}

/// The fields and the empty line with which these bytes begin, the last ones of an input of such a
/// length. They are written as far as there is room.
#[inline(always)]
pub(crate) fn read_fields<'i>(
    whole: usize,
    bytes: &'i [u8],
    fields: &mut [Field],
) -> Result<Fields<'i>, Stop>
    requires { length bytes.now ≤ whole }
    ensures found { MatchResult result
        (λ found. ShowsFields whole bytes.now found.count fields.new found.rest.now)
        (λ stop. Stops FieldsText bytes.now stop.left) }
    ensures behind { IfOk result
        (λ found. drop found.count fields.new ≡ drop found.count fields.old) }
{
    let mut rest = bytes;
    let mut count = 0;
    'fields: loop {
        if let Ok(end) = read_byte(rest, b'\r') {
            let left = read_byte(end, b'\n')?;
            return Ok(Fields { count, rest: left });
        }
        let found = read_field_line(whole, rest)?;
        write(fields, count, found.field);
        count += 1;
        rest = found.rest;
    }
}
