//! Fields in lists of their own.

ghost use Rattle.std.specs.Prelude.{◌≡◌, []};
ghost use Rattle.format_csv.specs.Csv.{bytes_of};

use crate::Record;
use format_csv_records::record::FieldSink;
use std::alloc::{AllocError, Allocator};
use std::mem;

// The fields of a record that is being read, and the bytes of the next.
#[derive(Drop)]
pub(crate) struct FieldLists<A: Allocator> {
    alloc: A,
    pub fields: Record<A>,
    begun: Vec<u8, A>,
}

impl<A: Allocator + Copy> FieldLists<A> {
    pub(crate) fn new(alloc: A) -> FieldLists<A>
        ensures { (result.fields.items ≡ []) × (result.begun.items ≡ []) }
    {
        FieldLists {
            alloc,
            fields: Vec::new(alloc),
            begun: Vec::new(alloc),
        }
    }
}

impl<A: Allocator + Copy> FieldSink for FieldLists<A> {
    ghost fields = { λ s. bytes_of s.fields.items };

    ghost begun = { λ s. s.begun.items };

    fn add(&mut self, bytes: &[u8]) -> Result<(), AllocError> {
        self.begun.extend_from_slice(bytes)
    }

    fn end_field(&mut self) -> Result<(), AllocError> {
        let field = mem::replace(&mut self.begun, Vec::new(self.alloc));
        match self.fields.push(field) {
            Ok(()) => Ok(()),
            Err(_) => Err(AllocError),
        }
    }
}
