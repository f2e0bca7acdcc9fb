//! Doubles of decimal numbers.

ghost use Rattle.std.specs.Float.{binary64, float_zero};
ghost use Rattle.std.specs.Prelude.{◌≡◌, ◌⊎◌, None, Some};
ghost use Rattle.std.specs.Float.Parse.{parse_float};
ghost use Rattle.exported.specs.Code.{done, invalid};

use crate::code::{DONE, INVALID};
use core::dec2flt::parse;

/// Converts the text of a decimal number to the nearest double; of two, the one whose last bit is
/// 0. This includes floats of TOML as a node has them, numbers of JSON, and doubles of Redis. It
/// does not depend on the locale.
///
/// The text is a sign or none, and digits with a point before, between or after them or none, and
/// an exponent or none: `e` or `E`, a sign or none, and digits. Or it is `inf`, `infinity` or `nan`
/// after a sign or none, in letters of either case.
///
/// `DONE`: the double is written. A number that is too large gives an infinity, and one that is
/// nearer to 0 than to other doubles a zero with its sign.
///
/// # Errors
///
/// `INVALID`: the bytes are not such a text. 0 is written.
///
/// # Safety
///
/// `bytes` must be valid for reads of `bytes_length` bytes, which must not change during the call,
/// and `out` must be valid for writes of one double. They must not overlap. The call needs 16 KiB
/// of stack.
#[unsafe(no_mangle)]
pub extern "C" fn exported_text_double(bytes: &[u8], out: &mut f64) -> u32
    ensures double { result ≡ done → parse_float binary64 bytes.now ≡ Some out.new }
    ensures refused { result ≡ invalid → (parse_float binary64 bytes.now ≡ None)
        × (out.new ≡ float_zero) }
    ensures codes { (result ≡ done) ⊎ (result ≡ invalid) }
{
    *out = 0.0;
    match parse::<f64>(bytes) {
        Some(found) => {
            *out = found;
            DONE
        }
        None => INVALID,
    }
}
