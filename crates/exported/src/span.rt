//! Places in the caller's bytes.

ghost use Rattle.std.specs.Prelude.{◌≡◌, ◌++◌, List, length, ℕ};
ghost use Rattle.exported.specs.Span.{EndsWith, StandsAt};

use format_csv_records::buffers::FieldPlace;

/// A span of the caller's bytes: an offset and a length.
#[repr(C)]
#[derive(Clone, Copy, Drop)]
pub struct Span {
    /// The offset in bytes.
    pub offset: usize,
    /// How many bytes it has.
    pub length: usize,
}

impl FieldPlace for Span {
    ghost use Rattle.exported.specs.Span.{span_of};

    ghost made = { span_of };

    #[inline(always)]
    fn of(offset: usize, length: usize) -> Span {
        Span { offset, length }
    }
}

/// The place of nothing.
pub(crate) const NOWHERE: Span = Span {
    offset: 0,
    length: 0,
};

/// Returns the span of the first `count` bytes of `rest`, a suffix of `input`.
pub fn first_of(input: &[u8], rest: &[u8], count: usize) -> Span
    requires ends { EndsWith input.now rest.now }
    ensures { (text behind : List ℕ) → rest.now ≡ text ++ behind → length text ≡ count
        → StandsAt input.now result text behind }
{
    Span {
        offset: input.len() - rest.len(),
        length: count,
    }
}
