//! An incremental scanner for the end of a record in bytes that arrive in chunks.
//!
//! Each call resumes after the bytes that earlier calls passed. So the time to find a record is
//! linear in its bytes, for any number of chunks. One call of
//! [`write_fields`](crate::buffers::write_fields) then writes its fields.

ghost use Rattle.std.specs.Prelude.{◌≡◌, ◌≤◌, ◌<◌, ◌+◌, ◌^◌, ◌++◌, ℕ, List, None, Ok, drop};
ghost use Rattle.std.specs.Prelude.{length};
ghost use Rattle.format_csv_records.specs.Buffers.{SizesRecord};
ghost use Rattle.format_csv_records.specs.Extents.{IsExtentOf, IsFieldPrefix, IsLed};
ghost use Rattle.format_csv_records.specs.Extents.{IsWithinPassed, Passed, RecordResult};
ghost use Rattle.format_csv_records.specs.Extents.{ReportsResult, Walks};
ghost use Rattle.format_csv_records.specs.declared.dialect.Dialect.{Dialect};

use crate::buffers::{RecordSize, is_some};
use crate::dialect::Dialect;
use crate::read::{InvalidRecord, Reason, behind};
use crate::turns::{Step, Turn, after, run_len, turn_at};

/// The position of the next byte in a record.
///
/// ```
/// use format_csv_records::dialect::Dialect;
/// use format_csv_records::extent::{RecordExtent, RecordPlace};
///
/// let mut extent = RecordExtent::new();
/// assert!(rt; matches!(extent.advance(Dialect::standard(), b"a,\"b"), Ok(None)));
/// assert!(rt; extent.place == RecordPlace::Quoted);
/// ```
#[derive(Clone, Copy, Debug, PartialEq, Eq)]
pub enum RecordPlace {
    /// Where a field begins.
    Field,
    /// In a field without quotes.
    Plain,
    /// Between quotes.
    Quoted,
    /// After a quote between quotes: the closing one, or the first of two.
    Quote,
    /// After the carriage return of a line ending.
    Return,
    /// After the record.
    Done,
}

/// The state of the search for the end of a record. Its fields can be stored anywhere, and an
/// extent can be made of them again.
///
/// ```
/// use format_csv_records::dialect::Dialect;
/// use format_csv_records::extent::RecordExtent;
///
/// let mut extent = RecordExtent::new();
/// assert!(rt; matches!(extent.advance(Dialect::standard(), b"a,\"b\"\"c"), Ok(None)));
/// assert!(rt; extent.passed == 7 && extent.fields == 1 && extent.text == 4);
/// ```
#[derive(Clone, Copy, Debug, PartialEq, Eq)]
pub struct RecordExtent {
    /// How many bytes were passed.
    pub passed: usize,
    /// How many bytes the fields have that were passed, as they are meant.
    pub text: usize,
    /// How many fields were passed with the delimiter after them.
    pub fields: usize,
    /// The position of the next byte in the record.
    pub place: RecordPlace,
}

/// How far bytes were passed.
#[derive(Clone, Copy)]
struct Walked<'i> {
    at: Step,
    /// The remaining bytes.
    left: &'i [u8],
    /// The reason why no record continues with the first of these, if none does.
    why: Option<Reason>,
}

/// Proves that a byte is below 256, as the contracts of its callers require.
#[inline(always)]
fn is_byte(byte: u8)
    ensures { byte < 256 }
{}

/// Passes bytes from a step on, as many as the record has.
#[inline(always)]
fn walk<'i>(dialect: Dialect, from: Step, fresh: &'i [u8]) -> Walked<'i>
    requires text { from.text + length fresh.now < 2 ^ 64 }
    requires fields { from.fields + length fresh.now < 2 ^ 64 }
    ensures { Walks dialect from fresh.now result }
{
    let mut at = from;
    let mut rest = fresh;
    'runs: loop {
        let run = run_len(dialect, at.place, rest);
        at.text += run;
        let left = behind(rest, run);
        match left.split_first() {
            None => return Walked {
                at,
                left,
                why: None,
            },
            Some((byte, more)) => match turn_at(dialect, at.place, *byte) {
                Turn::Goes(step) => {
                    at = after(at, step);
                    rest = more;
                }
                Turn::Ends => return Walked {
                    at,
                    left,
                    why: None,
                },
                Turn::Never(why) => {
                    return Walked {
                        at,
                        left,
                        why: Some(why),
                    };
                }
            },
        }
    }
}

impl RecordExtent {
    /// Nothing is passed.
    ///
    /// ```
    /// use format_csv_records::extent::RecordExtent;
    ///
    /// assert!(rt; RecordExtent::new().passed == 0);
    /// ```
    pub fn new() -> RecordExtent
        ensures { (d : Dialect) (bytes : List ℕ) → IsExtentOf d result bytes }
    {
        RecordExtent {
            passed: 0,
            text: 0,
            fields: 0,
            place: RecordPlace::Field,
        }
    }

    /// Returns the size of the record at the start of `bytes`, once its line ending is there; it is
    /// then the record for any continuation. `bytes` must be those of the previous call, possibly
    /// followed by more, and the dialect must be the same. Bytes that were passed are not examined
    /// again, so the time of all calls together is linear in the bytes. In all calls together a
    /// byte is examined at most twice.
    ///
    /// It returns `None` if the bytes do not start with such a record, and some continuation does;
    /// at the end of the input [`RecordExtent::finish`] returns the result.
    /// [`RecordExtent::passed`] is then the number of all bytes; for a complete record it is its
    /// length, and at an error the offset of the error. The next call resumes from there. The
    /// result is specified only if the extent is of these bytes: if it was used for others, or in
    /// another dialect, the result may be wrong.
    ///
    /// # Errors
    ///
    /// A [`InvalidRecord`] holds the offset of the first byte at which no record can continue, for
    /// any continuation, and the reason. It is never [`Reason::OpenQuote`], since more bytes may
    /// close the quote.
    ///
    /// ```
    /// use format_csv_records::buffers::write_fields;
    /// use format_csv_records::dialect::Dialect;
    /// use format_csv_records::extent::RecordExtent;
    ///
    /// let bytes = b"a,\"b \"\"c\"\"\"\r\nd".as_slice();
    /// let (dialect, mut extent) = (Dialect::standard(), RecordExtent::new());
    /// assert!(rt; matches!(extent.advance(dialect, &bytes[..7]), Ok(None)));
    /// let (mut text, mut places) = ([0; 6], [(0, 0); 2]);
    /// match extent.advance(dialect, bytes) {
    ///     Ok(Some(size)) => {
    ///         let (all, fields) = (text.as_mut_slice(), places.as_mut_slice());
    ///         assert!(rt; write_fields(dialect, bytes, size, all, fields));
    ///     }
    ///     _ => assert!(rt; false),
    /// }
    /// assert_eq!(rt; text, *b"ab \"c\"");
    /// ```
    pub fn advance(
        &mut self,
        dialect: Dialect,
        bytes: &[u8],
    ) -> Result<Option<RecordSize>, InvalidRecord>
        ensures told { IsExtentOf dialect self.old bytes.now → RecordResult dialect bytes.now result }
        ensures kept { IsExtentOf dialect self.old bytes.now
            → (more : List ℕ) → IsExtentOf dialect self.new (bytes.now ++ more) }
        ensures fresh { self.old.passed ≤ length bytes.now → IsWithinPassed self.old
            → IsLed dialect self.old (drop self.old.passed bytes.now) self.new result }
        ensures short { length bytes.now < self.old.passed
            → (result ≡ Ok None) × (self.new ≡ self.old) }
        ensures many { (IsWithinPassed self.old → ⊥) → (result ≡ Ok None) × (self.new ≡ self.old) }
    {
        match bytes.get(self.passed..) {
            None => Ok(None),
            Some(fresh) => {
                if self.text > self.passed || self.fields > self.passed {
                    return Ok(None);
                }
                is_byte(dialect.quote);
                let walked = walk(dialect, self.begun(), fresh);
                *self = RecordExtent {
                    passed: bytes.len() - walked.left.len(),
                    text: walked.at.text,
                    fields: walked.at.fields,
                    place: walked.at.place,
                };
                self.say(walked.why)
            }
        }
    }

    /// Returns the state: the position of the next byte, and the numbers of bytes and fields
    /// passed.
    #[inline(always)]
    fn begun(&self) -> Step
        ensures { (result.place ≡ self.now.place) × (result.text ≡ self.now.text)
            × (result.fields ≡ self.now.fields) }
    {
        Step {
            place: self.place,
            text: self.text,
            fields: self.fields,
        }
    }

    /// Returns the result for the passed bytes. `why` is the reason if no record can continue.
    #[inline(always)]
    fn say(&self, why: Option<Reason>) -> Result<Option<RecordSize>, InvalidRecord>
        requires { self.now.fields < 2 ^ 63 }
        ensures { ReportsResult self.now why result }
    {
        if let Some(why) = why {
            return Err(InvalidRecord {
                offset: self.passed,
                why,
            });
        }
        match self.place {
            RecordPlace::Done => Ok(Some(self.size(true))),
            _ => Ok(None),
        }
    }

    /// The size of the bytes that were passed.
    #[inline(always)]
    fn size(&self, ended: bool) -> RecordSize
        requires { self.now.fields < 2 ^ 63 }
        ensures { (result.fields ≡ self.now.fields + 1) × (result.text ≡ self.now.text)
            × (result.length ≡ self.now.passed) × (result.ended ≡ ended) }
    {
        RecordSize {
            fields: self.fields + 1,
            text: self.text,
            length: self.passed,
            ended,
        }
    }

    /// Returns the same as [`record_size`](crate::buffers::record_size) for the bytes, without
    /// examining the passed ones again: call it at the end of the input. A record may then end
    /// without a line ending, and empty input has no record. It leaves the extent as
    /// [`RecordExtent::advance`] does, which may still be called with more bytes.
    ///
    /// # Errors
    ///
    /// A [`InvalidRecord`] holds the offset of the first byte at which no record can continue, or
    /// of the end of the bytes if a byte is missing there, and the reason.
    ///
    /// ```
    /// use format_csv_records::dialect::Dialect;
    /// use format_csv_records::extent::RecordExtent;
    ///
    /// let (dialect, bytes) = (Dialect::standard(), b"a,\"b\"".as_slice());
    /// let mut extent = RecordExtent::new();
    /// assert!(rt; matches!(extent.advance(dialect, bytes), Ok(None)));
    /// match extent.finish(dialect, bytes) {
    ///     Ok(Some(size)) => assert!(rt; size.fields == 2 && !size.ended),
    ///     _ => assert!(rt; false),
    /// }
    /// assert!(rt; RecordExtent::new().finish(dialect, &bytes[..4]).is_err());
    /// ```
    pub fn finish(
        &mut self,
        dialect: Dialect,
        bytes: &[u8],
    ) -> Result<Option<RecordSize>, InvalidRecord>
        ensures told { IsExtentOf dialect self.old bytes.now → SizesRecord dialect bytes.now result }
        ensures kept { IsExtentOf dialect self.old bytes.now
            → (more : List ℕ) → IsExtentOf dialect self.new (bytes.now ++ more) }
    {
        match self.advance(dialect, bytes)? {
            Some(size) => Ok(Some(size)),
            None => self.end(bytes),
        }
    }

    /// Returns the result at the end of the input, if all bytes were passed and the record was not
    /// complete.
    fn end(&self, bytes: &[u8]) -> Result<Option<RecordSize>, InvalidRecord>
        ensures { (d : Dialect) → (self.now.place ≡ RecordPlace.Done → ⊥)
            → Passed d (IsFieldPrefix d self.now.place) self.now.text self.now.fields bytes.now
            → self.now.passed ≡ length bytes.now → SizesRecord d bytes.now result }
    {
        if !is_some(bytes) {
            return Ok(None);
        }
        if self.fields > bytes.len() {
            return Ok(None);
        }
        match self.place {
            RecordPlace::Quoted => Err(InvalidRecord {
                offset: bytes.len(),
                why: Reason::OpenQuote,
            }),
            RecordPlace::Return => Err(InvalidRecord {
                offset: bytes.len(),
                why: Reason::WrongLineEnd,
            }),
            _ => Ok(Some(self.size(false))),
        }
    }
}
