//! Numbers of fixed widths in records (RFC 1035, sections 3.3.9, 3.3.13 and 4.1.3; RFC 2782).
ghost use Rattle.format_dns.specs.Fields.{AreRecordFields, AreServiceFields, AreZoneFields};
ghost use Rattle.format_dns.specs.Fields.{IsField};
ghost use Rattle.format_dns.specs.Questions.{FieldsResult};
ghost use Rattle.std.specs.Prelude.{◌≤◌, length, IfOk, IsOk};

use crate::fault::PartError;
use crate::header::number;
use stream_errors::empty::EmptyError;
use stream_errors::mode::ErrMode;
use winnow_core::parser::Parser;
use winnow_integers::binary::impls::BeU32;

/// The fields of a record between its name and its data.
#[derive(Clone, Copy)]
pub(crate) struct RecordFields {
    pub(crate) kind: u16,
    pub(crate) class: u16,
    pub(crate) time_to_live: u32,
    pub(crate) length: u16,
}

/// The numbers of a service.
#[derive(Clone, Copy)]
pub(crate) struct OfService {
    pub(crate) priority: u16,
    pub(crate) weight: u16,
    pub(crate) port: u16,
}

/// The numbers of a zone.
#[derive(Clone, Copy)]
pub(crate) struct OfZone {
    pub(crate) serial: u32,
    pub(crate) refresh: u32,
    pub(crate) retry: u32,
    pub(crate) expire: u32,
    pub(crate) minimum: u32,
}

/// A number of two bytes, the higher first.
fn short<'m>(input: &mut &'m [u8]) -> Result<u16, ErrMode<EmptyError>>
    ensures number { IfOk result (λ n. IsField 2 n input.old.now input.new.now) }
    ensures accepts { 2 ≤ length input.old.now → IsOk result }
{
    number(input)
}

/// A number of four bytes, the highest first.
fn long<'m>(input: &mut &'m [u8]) -> Result<u32, ErrMode<EmptyError>>
    ensures number { IfOk result (λ n. IsField 4 n input.old.now input.new.now) }
    ensures accepts { 4 ≤ length input.old.now → IsOk result }
{
    match BeU32.parse_next(input) {
        Ok(number) => Ok(number),
        Err(error) => Err(error),
    }
}

/// The fields of a record with which bytes begin.
fn read_record_fields<'m>(input: &mut &'m [u8]) -> Result<RecordFields, ErrMode<EmptyError>>
    ensures fields { IfOk result (λ f. AreRecordFields f.kind f.class f.time_to_live f.length
        input.old.now input.new.now) }
    ensures accepts { 10 ≤ length input.old.now → IsOk result }
{
    let kind = short(input)?;
    let class = short(input)?;
    let time_to_live = long(input)?;
    let length = short(input)?;
    Ok(RecordFields {
        kind,
        class,
        time_to_live,
        length,
    })
}

/// The numbers of a service with which bytes begin.
fn read_of_service<'m>(input: &mut &'m [u8]) -> Result<OfService, ErrMode<EmptyError>>
    ensures fields { IfOk result (λ s. AreServiceFields s.priority s.weight s.port input.old.now
        input.new.now) }
    ensures accepts { 6 ≤ length input.old.now → IsOk result }
{
    let priority = short(input)?;
    let weight = short(input)?;
    let port = short(input)?;
    Ok(OfService {
        priority,
        weight,
        port,
    })
}

/// The numbers of a zone with which bytes begin.
fn read_of_zone<'m>(input: &mut &'m [u8]) -> Result<OfZone, ErrMode<EmptyError>>
    ensures fields { IfOk result (λ z. AreZoneFields z.serial z.refresh z.retry z.expire z.minimum
        input.old.now input.new.now) }
    ensures accepts { 20 ≤ length input.old.now → IsOk result }
{
    let serial = long(input)?;
    let refresh = long(input)?;
    let retry = long(input)?;
    let expire = long(input)?;
    let minimum = long(input)?;
    Ok(OfZone {
        serial,
        refresh,
        retry,
        expire,
        minimum,
    })
}

/// Reads the fields of a record at offset `place`.
pub(crate) fn record_fields_at(message: &[u8], place: usize) -> Result<RecordFields, PartError>
    ensures { FieldsResult message.now 10
        (λ f. AreRecordFields f.kind f.class f.time_to_live f.length) place result }
{
    let Some(mut rest) = message.get(place..) else {
        return Err(PartError::Ends(place));
    };
    match read_record_fields(&mut rest) {
        Ok(fields) => Ok(fields),
        Err(_) => Err(PartError::Ends(place)),
    }
}

/// Reads a number of two bytes at offset `place`.
pub(crate) fn short_at(message: &[u8], place: usize) -> Result<u16, PartError>
    ensures { FieldsResult message.now 2 (λ n. IsField 2 n) place result }
{
    let Some(mut rest) = message.get(place..) else {
        return Err(PartError::Ends(place));
    };
    match short(&mut rest) {
        Ok(number) => Ok(number),
        Err(_) => Err(PartError::Ends(place)),
    }
}

/// Reads the numbers of a service at offset `place`.
pub(crate) fn of_service_at(message: &[u8], place: usize) -> Result<OfService, PartError>
    ensures { FieldsResult message.now 6 (λ s. AreServiceFields s.priority s.weight s.port) place
        result }
{
    let Some(mut rest) = message.get(place..) else {
        return Err(PartError::Ends(place));
    };
    match read_of_service(&mut rest) {
        Ok(fields) => Ok(fields),
        Err(_) => Err(PartError::Ends(place)),
    }
}

/// Reads the numbers of a zone at offset `place`.
pub(crate) fn of_zone_at(message: &[u8], place: usize) -> Result<OfZone, PartError>
    ensures { FieldsResult message.now 20
        (λ z. AreZoneFields z.serial z.refresh z.retry z.expire z.minimum) place result }
{
    let Some(mut rest) = message.get(place..) else {
        return Err(PartError::Ends(place));
    };
    match read_of_zone(&mut rest) {
        Ok(fields) => Ok(fields),
        Err(_) => Err(PartError::Ends(place)),
    }
}
