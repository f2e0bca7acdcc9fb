//! Records whose fields share one buffer, which is reused for the next record.

ghost use Rattle.std.specs.Prelude.{◌≡◌, ◌++◌, ◌∷◌, [], ◌<◌, ◌≤◌, ◌^◌, ◌+◌, ◌-◌, ◌↔◌};
ghost use Rattle.std.specs.Prelude.{List, ℕ, length};
ghost use Rattle.std.specs.Prelude.{IfSome, IsTrue, OnOk, option_map, slice_index};
ghost use Rattle.std.specs.Iterator.{at_most};
ghost use Rattle.format_csv_records.specs.Records.{begun_of, field_at, fields_of, start_of};

use std::alloc::{AllocError, Allocator};
use std::marker::Model;

/// What takes the fields of a record from [`read_fields`](crate::read::read_fields), in order.
pub trait FieldSink {
    // The complete fields.
    ghost fields: { Self → List (List ℕ) };

    // The bytes of the field after them.
    ghost begun: { Self → List ℕ };

    /// Appends bytes to the field after the complete ones.
    fn add(&mut self, bytes: &[u8]) -> Result<(), AllocError>
        ensures fields { fields self.new ≡ fields self.old }
        ensures begun { OnOk result (begun self.new ≡ begun self.old ++ bytes.now) };

    /// Completes this field.
    fn end_field(&mut self) -> Result<(), AllocError>
        ensures fields { OnOk result (fields self.new ≡ fields self.old ++ begun self.old ∷ []) }
        ensures begun { OnOk result (begun self.new ≡ []) };
}

/// The fields of a record: their concatenated bytes, and the end of each. It is created once and
/// reused, so its memory is that of the longest record.
///
/// ```
/// use format_csv_records::dialect::Dialect;
/// use format_csv_records::read::read_record_into;
/// use format_csv_records::record::ByteRecord;
///
/// let mut fields = ByteRecord::new(alloc);
/// let mut input = b"a,b\r\n".as_slice();
/// assert!(rt; read_record_into(Dialect::standard(), &mut fields, &mut input) == Ok(true));
/// assert_eq!(rt; fields.len(), 2);
/// ```
#[derive(Drop)]
pub struct ByteRecord<A: Allocator> {
    bytes: Vec<u8, A>,
    ends: Vec<usize, A>,
}

impl<A: Allocator> Model for ByteRecord<A> {
    ghost use Rattle.format_csv_records.specs.Records.{HasAscendingEnds, Row, row_of};

    ghost Value = { Row };

    ghost view = { row_of };

    ghost invariant = { λ it. HasAscendingEnds (row_of it) };
}

// Returns the start and the end of the field at index `place`.
fn bounds<A: Allocator>(ends: &Vec<usize, A>, place: usize) -> (usize, usize)
    requires { place < length ends.now.items }
    ensures start { result.0 ≡ start_of 0 ends.now.items place }
    ensures end { result.1 ≡ slice_index ends.now.items place }
{
    let start = if place == 0 { 0 } else { ends[place - 1] };
    (start, ends[place])
}

impl<A: Allocator> ByteRecord<A> {
    /// Creates a record without fields. Does not allocate.
    pub fn new(alloc: A) -> ByteRecord<A>
    where
        A: Copy,
        ensures fields { fields_of result ≡ [] }
        ensures begun { begun_of result ≡ [] }
    {
        let bytes = Vec::new(alloc);
        let ends = Vec::new(alloc);
        ByteRecord { bytes, ends }
    }

    /// How many fields there are.
    pub fn len(&self) -> usize
        ensures { result ≡ length (fields_of self.now) }
    {
        self.ends.len()
    }

    /// Whether there are no fields, as before the first record is read and at an error.
    pub fn is_empty(&self) -> bool
        ensures { IsTrue result ↔ (length (fields_of self.now) ≡ 0) }
    {
        self.len() == 0
    }

    /// The fields, in order.
    ///
    /// ```
    /// use format_csv_records::dialect::Dialect;
    /// use format_csv_records::read::read_record_into;
    /// use format_csv_records::record::ByteRecord;
    ///
    /// let mut fields = ByteRecord::new(alloc);
    /// let mut input = b"a,bc\r\n".as_slice();
    /// assert!(rt; read_record_into(Dialect::standard(), &mut fields, &mut input) == Ok(true));
    /// let mut size = 0;
    /// for field in fields.iter() {
    ///     size += field.len();
    /// }
    /// assert_eq!(rt; size, 3);
    /// ```
    pub fn iter(&self) -> Fields<'_, A>
        ensures fields { result.fields.now ≡ self.now }
        ensures place { result.place ≡ 0 }
    {
        Fields {
            fields: self,
            place: 0,
        }
    }

    /// Takes all fields away, and keeps the room for them.
    pub fn clear(&mut self)
        ensures fields { fields_of self.new ≡ [] }
        ensures begun { begun_of self.new ≡ [] }
    {
        self.bytes.clear();
        self.ends.clear();
    }

    /// Returns the field at index `place`, counted from 0.
    pub fn get(&self, place: usize) -> Option<&[u8]>
        ensures place { IfSome result (λ f. (place < length (fields_of self.now))
            × (place + 1 ≤ 2 ^ 64 - 1)) }
        ensures value { option_map (λ s. s.now) result ≡ field_at (fields_of self.now) place }
    {
        if place >= self.ends.len() {
            return None;
        }
        let (start, end) = bounds(&self.ends, place);
        Some(&self.bytes.as_slice()[start..end])
    }
}

impl<A: Allocator> FieldSink for ByteRecord<A> {
    ghost fields = { fields_of };

    ghost begun = { begun_of };

    fn add(&mut self, bytes: &[u8]) -> Result<(), AllocError> {
        self.bytes.extend_from_slice(bytes)
    }

    fn end_field(&mut self) -> Result<(), AllocError> {
        let end = self.bytes.len();
        match self.ends.push(end) {
            Ok(()) => Ok(()),
            Err(_) => Err(AllocError),
        }
    }
}

/// An iterator over the fields of a record.
#[derive(Clone, Copy)]
pub struct Fields<'f, A: Allocator> {
    fields: &'f ByteRecord<A>,
    place: usize,
}

impl<'f, A: Allocator> Iterator for Fields<'f, A> {
    type Item = &'f [u8];

    ghost remaining = { λ s. at_most (length (fields_of s.fields.now) - s.place) };

    ghost next_gives = { λ a r b. (b.fields ≡ a.fields)
        × (option_map (λ s. s.now) r ≡ field_at (fields_of a.fields.now) a.place)
        × IfSome r (λ _. b.place ≡ a.place + 1) };

    fn next(&mut self) -> Option<&'f [u8]> {
        let field = self.fields.get(self.place)?;
        self.place = self.place.saturating_add(1);
        Some(field)
    }
}
