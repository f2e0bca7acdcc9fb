//! The fields of a head in order: a slice of them, or another source that makes them one by one.
#![tactic(auto)]

ghost use Rattle.format_http.specs.Heads.Head.{Pair, pair};
ghost use Rattle.std.specs.Prelude.{◌≡◌, ◌∷◌, [], List, MatchOption, map};

use crate::heads::field_line::Field;

/// Consecutive fields, which the functions that look for fields of a name read in order.
///
/// A slice of fields is one. Another makes each field when it is read, so that a head whose fields
/// are held in another form need not be copied.
///
/// ```
/// use format_http::heads::field_line::Field;
/// use format_http::heads::fields::Fields;
///
/// let fields = [Field { name: b"Host", value: b"a" }, Field { name: b"Via", value: b"b" }];
/// let mut left = fields.as_slice();
/// assert!(rt; left.next() == Some(fields[0]));
/// assert!(rt; left == &fields[1..]);
/// ```
pub trait Fields<'i>: Copy + Drop {
    // The names and values.
    ghost pairs: { Self → List Pair };

    /// Takes the first field, or returns `None` if there is none.
    fn next(&mut self) -> Option<Field<'i>>
        ensures { MatchOption result (pairs self.old ≡ [])
            (λ field. pairs self.old ≡ pair field ∷ pairs self.new) };
}

impl<'f, 'i> Fields<'i> for &'f [Field<'i>] {
    ghost pairs = { λ fields. map pair fields.now };

    #[inline(always)]
    fn next(&mut self) -> Option<Field<'i>> {
        let all = *self;
        match all {
            [] => None,
            [first, rest @ ..] => {
                *self = rest;
                Some(*first)
            }
        }
    }
}
