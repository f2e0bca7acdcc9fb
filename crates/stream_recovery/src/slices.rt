//! Slices of streams that record errors: those of the stream inside.
use crate::recoverable::Recoverable;
use std::alloc::Allocator;
use stream_errors::has_kind::HasKind;
use stream_searches::slice_len::{SliceLen, SlicesWithLength};
use stream_sets::as_bstr::{AsBStr, SlicesAsBytes};
use stream_sets::as_char::AsChar;

impl<I: SlicesAsBytes, R: HasKind + Drop, A: Allocator> SlicesAsBytes for Recoverable<I, R, A>
where
    I::Token: AsChar,
    I::Slice: AsBStr,
{
    ghost bytes_of = { I.bytes_of };

    ghost has_bytes = { I.has_bytes };

    ghost bytes_add = { I.bytes_add };

    ghost ascii_byte = { I.ascii_byte };

    ghost first_byte = { I.first_byte };

    ghost units_bytes = { I.units_bytes };

    ghost one_code = { I.one_code };
}

impl<I: SlicesWithLength, R: HasKind + Drop, A: Allocator> SlicesWithLength for Recoverable<I, R, A>
where
    I::Slice: SliceLen,
{
    ghost has_units = { I.has_units };
}
