//! Laws about the definitions in the contracts.

ghost use Rattle.std.specs.Prelude.{◌≡◌, ◌++◌, List, ℕ};
ghost use Rattle.format_csv_records.specs.Dialects.{IsRecord};
ghost use Rattle.format_csv_records.specs.Refused.{IsRefused};
ghost use Rattle.format_csv_records.specs.declared.read.InvalidRecord.{InvalidRecord};
ghost use Rattle.format_csv_records.specs.Calls.{Calls, Texts};

use crate::dialect::Dialect;

/// Proves that bytes start with at most one record: its fields and the rest are unique. So the
/// record that is read is the only one.
pub fn bytes_begin_with_one_record(dialect: Dialect)
    ensures { (bytes : List ℕ) (fields others : List (List ℕ)) (rest left : List ℕ)
        → IsRecord dialect bytes fields rest → IsRecord dialect bytes others left
        → (fields ≡ others) × (rest ≡ left) }
{}

/// Proves that bytes with an error do not start with a record.
pub fn refused_bytes_begin_with_none(dialect: Dialect)
    ensures { (bytes : List ℕ) (fault : InvalidRecord) (fields : List (List ℕ)) (rest : List ℕ)
        → IsRefused dialect bytes fault → IsRecord dialect bytes fields rest → ⊥ }
{}

/// States that the bytes that calls read in sequence are the records that they return, followed by
/// the bytes that are held afterwards. None is lost, and none is read twice.
pub fn calls_return_what_they_read(dialect: Dialect)
    ensures { (held read left : List ℕ) (records : List (List (List ℕ)))
        → Calls dialect held read records left → Texts dialect (held ++ read) records left }
{}
