//! The data of records, by their types (RFC 1035, sections 3.3 and 3.4; RFC 3596; RFC 2782).
ghost use Rattle.format_dns.specs.Data.{AreStrings, HasMail, HasOtherSize, HasService, HasZone};
ghost use Rattle.format_dns.specs.Data.{IsIpv4, IsIpv6, IsLastName, IsDataOfForm, NoDataOfForm};
ghost use Rattle.format_dns.specs.Data.{NoLastName, NoMail, NoService, NoStrings, NoZone, form_for};
ghost use Rattle.format_dns.specs.Data.{empty_form, form_in, internet_form};
ghost use Rattle.format_dns.specs.Names.{SuffixAt};
ghost use Rattle.format_dns.specs.Questions.{PartResult};
ghost use Rattle.std.specs.Prelude.{◌≡◌, length};

use crate::fault::PartError;
use crate::fields::{of_service_at, of_zone_at, short_at};
use crate::labels::read_strings;
use crate::name::{Name, read_name};
use std::alloc::Allocator;
use std::net::{Ipv4Addr, Ipv6Addr};

/// The data of a record of a message `'m`. Addresses and services occur only in the class of the
/// Internet (1).
#[derive(Drop)]
pub enum Data<'m, A: Allocator> {
    /// Of the type 1 (A): a host's address (RFC 1035, section 3.4.1).
    Ipv4(Ipv4Addr),
    /// Of the type 28 (AAAA): a host's address (RFC 3596, section 2.2).
    Ipv6(Ipv6Addr),
    /// Of the type 2 (NS) a name server, of 5 (CNAME) the canonical name, of 12 (PTR) the name that
    /// is pointed to (RFC 1035, sections 3.3.11, 3.3.1 and 3.3.12).
    Name(Name<'m, A>),
    /// Of the type 15 (MX).
    MailExchange(MailExchange<'m, A>),
    /// Of the type 16 (TXT): one character string or more (RFC 1035, section 3.3.14).
    Text(Vec<&'m [u8], A>),
    /// Of the type 6 (SOA).
    StartOfAuthority(StartOfAuthority<'m, A>),
    /// Of the type 33 (SRV).
    Service(Service<'m, A>),
    /// Of any other type, or of a host's address or a service in any other class: as they are. Or
    /// none, of any type in the classes 254 (NONE) and 255 (ANY) (RFC 2136, sections 2.4 and 2.5).
    Other(&'m [u8]),
}

/// A mail exchange (RFC 1035, section 3.3.9).
#[derive(Drop)]
pub struct MailExchange<'m, A: Allocator> {
    /// The lower, the more it is preferred.
    pub preference: u16,
    /// The host.
    pub exchange: Name<'m, A>,
}

/// The start of a zone of authority (RFC 1035, section 3.3.13). Times are in seconds.
#[derive(Drop)]
pub struct StartOfAuthority<'m, A: Allocator> {
    /// The server that was the original source of data for the zone.
    pub primary: Name<'m, A>,
    /// The mailbox of the person responsible for the zone.
    pub mailbox: Name<'m, A>,
    /// The version of the zone.
    pub serial: u32,
    /// When the zone is to be refreshed.
    pub refresh: u32,
    /// When a refresh that failed is to be tried again.
    pub retry: u32,
    /// When the zone is no longer authoritative.
    pub expire: u32,
    /// The least time to live that is exported with a record of the zone.
    pub minimum: u32,
}

/// The place of a service (RFC 2782).
#[derive(Drop)]
pub struct Service<'m, A: Allocator> {
    /// The lower, the sooner it is tried.
    pub priority: u16,
    /// The larger it is, the more likely the record is chosen from those of the same priority.
    pub weight: u16,
    /// The port of the host.
    pub port: u16,
    /// The host; the root, if the service is not there.
    pub target: Name<'m, A>,
}

/// The contents of the data of a type and a class.
pub(crate) enum Form {
    /// An address of four octets.
    Four,
    /// An address of sixteen octets.
    Sixteen,
    /// A name.
    OneName,
    /// A mail exchange.
    Mail,
    /// Character strings.
    Strings,
    /// The start of a zone.
    Zone,
    /// A service.
    Host,
    /// Any octets.
    Any,
}

/// Returns the form of the data of a type that exists only in the class of the Internet.
fn internet_form_of(kind: u16) -> Form
    ensures { result ≡ internet_form kind }
{
    match kind {
        1 => Form::Four,
        28 => Form::Sixteen,
        33 => Form::Host,
        _ => Form::Any,
    }
}

/// The contents of the data of a type and a class.
fn form_of(kind: u16, class: u16) -> Form
    ensures { result ≡ form_for kind class }
{
    match kind {
        2 | 5 | 12 => Form::OneName,
        6 => Form::Zone,
        15 => Form::Mail,
        16 => Form::Strings,
        _ => {
            if class == 1 {
                internet_form_of(kind)
            } else {
                Form::Any
            }
        }
    }
}

/// Returns the form of data without octets. In a message that updates a zone, records may have no
/// data.
fn empty_form_of(kind: u16, class: u16) -> Form
    ensures { result ≡ empty_form kind class }
{
    match class {
        254 | 255 => Form::Any,
        _ => form_of(kind, class),
    }
}

/// Returns the form of data of `length` octets, by their type and class.
pub(crate) fn form_in(kind: u16, class: u16, length: u16) -> Form
    ensures { result ≡ form_in kind class length }
{
    if length == 0 {
        empty_form_of(kind, class)
    } else {
        form_of(kind, class)
    }
}

/// The octets from an offset to the end, `size` of them.
fn octets_to_end<'m>(message: &'m [u8], place: usize, size: usize) -> Result<&'m [u8], PartError>
    ensures { PartResult
        (λ octets. SuffixAt message.now place octets.now × (length octets.now ≡ size))
        (HasOtherSize message.now place size) result }
{
    let Some(octets) = message.get(place..) else {
        return Err(PartError::Ends(place));
    };
    if octets.len() < size {
        return Err(PartError::Ends(place));
    }
    if octets.len() > size {
        return Err(PartError::Trailing(place + size));
    }
    Ok(octets)
}

/// The name from an offset to the end.
fn name_to_end<'m, A: Allocator + Copy>(
    alloc: A,
    pointers: usize,
    message: &'m [u8],
    place: usize,
) -> Result<Name<'m, A>, PartError>
    ensures { PartResult (IsLastName message.now pointers place)
        (NoLastName message.now pointers place)
        result }
{
    let name = read_name(alloc, pointers, message, place)?;
    if name.behind != message.len() {
        return Err(PartError::Trailing(name.behind));
    }
    Ok(name)
}

/// The character strings from an offset to the end.
fn strings_to_end<'m, A: Allocator + Copy>(
    alloc: A,
    message: &'m [u8],
    place: usize,
) -> Result<Vec<&'m [u8], A>, PartError>
    ensures { PartResult (λ strings. AreStrings message.now place strings.items)
        (NoStrings message.now place) result }
{
    let Some(mut rest) = message.get(place..) else {
        return Err(PartError::Ends(place));
    };
    let Ok(strings) = read_strings(alloc, rest.len(), &mut rest) else {
        return Err(PartError::NoMemory);
    };
    if strings.is_empty() || !rest.is_empty() {
        return Err(PartError::Ends(message.len() - rest.len()));
    }
    Ok(strings)
}

/// The mail exchange from an offset to the end.
fn mail_to_end<'m, A: Allocator + Copy>(
    alloc: A,
    pointers: usize,
    message: &'m [u8],
    place: usize,
) -> Result<MailExchange<'m, A>, PartError>
    ensures { PartResult (HasMail message.now pointers place) (NoMail message.now pointers place)
        result }
{
    let preference = short_at(message, place)?;
    let exchange = name_to_end(alloc, pointers, message, place + 2)?;
    Ok(MailExchange {
        preference,
        exchange,
    })
}

/// The start of a zone from an offset to the end.
fn zone_to_end<'m, A: Allocator + Copy>(
    alloc: A,
    pointers: usize,
    message: &'m [u8],
    place: usize,
) -> Result<StartOfAuthority<'m, A>, PartError>
    ensures { PartResult (HasZone message.now pointers place) (NoZone message.now pointers place)
        result }
{
    let primary = read_name(alloc, pointers, message, place)?;
    let mailbox = read_name(alloc, pointers, message, primary.behind)?;
    let zone = of_zone_at(message, mailbox.behind)?;
    let end = mailbox.behind + 20;
    if end != message.len() {
        return Err(PartError::Trailing(end));
    }
    Ok(StartOfAuthority {
        primary,
        mailbox,
        serial: zone.serial,
        refresh: zone.refresh,
        retry: zone.retry,
        expire: zone.expire,
        minimum: zone.minimum,
    })
}

/// The service from an offset to the end.
fn service_to_end<'m, A: Allocator + Copy>(
    alloc: A,
    pointers: usize,
    message: &'m [u8],
    place: usize,
) -> Result<Service<'m, A>, PartError>
    ensures { PartResult (HasService message.now pointers place)
        (NoService message.now pointers place)
        result }
{
    let service = of_service_at(message, place)?;
    let target = name_to_end(alloc, pointers, message, place + 6)?;
    Ok(Service {
        priority: service.priority,
        weight: service.weight,
        port: service.port,
        target,
    })
}

/// The address of four octets from an offset to the end.
fn ipv4_to_end(message: &[u8], place: usize) -> Result<Ipv4Addr, PartError>
    ensures { PartResult (IsIpv4 message.now place)
        (HasOtherSize message.now place 4) result }
{
    let mut octets = [0; 4];
    octets.copy_from_slice(octets_to_end(message, place, 4)?);
    Ok(Ipv4Addr::from_octets(octets))
}

/// The address of sixteen octets from an offset to the end.
fn ipv6_to_end(message: &[u8], place: usize) -> Result<Ipv6Addr, PartError>
    ensures { PartResult (IsIpv6 message.now place) (HasOtherSize message.now place 16) result }
{
    let mut octets = [0; 16];
    octets.copy_from_slice(octets_to_end(message, place, 16)?);
    Ok(Ipv6Addr::from_octets(octets))
}

/// The data of a form, from an offset to the end.
pub(crate) fn read_data<'m, A: Allocator + Copy>(
    alloc: A,
    pointers: usize,
    form: Form,
    message: &'m [u8],
    place: usize,
) -> Result<Data<'m, A>, PartError>
    ensures { PartResult (IsDataOfForm message.now pointers place form)
        (NoDataOfForm message.now pointers place form) result }
{
    match form {
        Form::Four => {
            let address = ipv4_to_end(message, place)?;
            Ok(Data::Ipv4(address))
        }
        Form::Sixteen => {
            let address = ipv6_to_end(message, place)?;
            Ok(Data::Ipv6(address))
        }
        Form::OneName => {
            let name = name_to_end(alloc, pointers, message, place)?;
            Ok(Data::Name(name))
        }
        Form::Mail => {
            let mail = mail_to_end(alloc, pointers, message, place)?;
            Ok(Data::MailExchange(mail))
        }
        Form::Strings => {
            let strings = strings_to_end(alloc, message, place)?;
            Ok(Data::Text(strings))
        }
        Form::Zone => {
            let zone = zone_to_end(alloc, pointers, message, place)?;
            Ok(Data::StartOfAuthority(zone))
        }
        Form::Host => {
            let service = service_to_end(alloc, pointers, message, place)?;
            Ok(Data::Service(service))
        }
        Form::Any => match message.get(place..) {
            Some(octets) => Ok(Data::Other(octets)),
            None => Err(PartError::Ends(place)),
        },
    }
}
