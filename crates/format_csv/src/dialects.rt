//! Records here and records of a dialect: these are those of commas and double quotes.

ghost use Rattle.std.specs.Prelude.{◌≡◌, ◌<◌, ◌↔◌, List, length, ℕ};
ghost use Rattle.std.specs.declared.vec.Vec.{Vec};
ghost use Rattle.format_csv.specs.Csv.{IsRecord, bytes_of, commas};
ghost use Rattle.format_csv_records.specs.Dialects.{AreFields};

use crate::LineEnd;
use format_csv_records::dialect::{Dialect, LineEnds};
use std::alloc::Allocator;

/// Proves that records of [`read_record`](crate::read_record) are records of `format_csv_records`
/// in the dialect of commas, double quotes and the same line ending, with the same fields and the
/// same rest.
pub fn a_record_is_one_of_commas<A: Allocator>(end: LineEnd)
    ensures { (bytes : List ℕ) (fields : Vec (Vec ℕ A) A) (rest : List ℕ)
        → IsRecord end bytes fields rest
        ↔ ((0 < length bytes) × AreFields (commas end) bytes (bytes_of fields.items) rest) }
{}

/// The dialect whose records are those that end so here.
pub(crate) fn dialect_of(end: LineEnd) -> Dialect
    ensures { result ≡ commas end }
{
    let mut dialect = Dialect::standard();
    if end == LineEnd::Lf {
        dialect.ends = LineEnds::Lf;
    }
    dialect
}
