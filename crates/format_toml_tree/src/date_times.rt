//! Dates, times and both (TOML 1.0: Offset Date-Time, Local Date-Time, Local Date, Local Time),
//! from their bytes.
ghost use Rattle.std.specs.List.{All};
ghost use Rattle.std.specs.Prelude.{◌≡◌, [], IfOk, OnErr, string_bytes};
ghost use Rattle.format_toml_tree.specs.Dates.{IsAlone, IsBehind, IsDateTime, IsDigit};
ghost use Rattle.format_toml_tree.specs.Dates.{FoundResult, HasPoint, IsTimeOf};

use crate::dates::date;
use crate::times::parts;
use crate::value::{Date, DateTime, Time};
use std::alloc::{AllocError, Allocator};

/// The text of some digits.
fn text_of<A: Allocator>(alloc: A, digits: &[u8]) -> Result<String<A>, AllocError>
    requires { All IsDigit digits.now }
    ensures bytes { IfOk result (λ s. string_bytes s ≡ digits.now) }
    ensures full { OnErr result (digits.now ≡ [] → ⊥) }
{
    let mut text = String::new(alloc);
    for digit in digits {
        text.push(char::from(*digit))?;
    }
    Ok(text)
}

/// The time of some parts.
fn time_of<A: Allocator>(
    alloc: A,
    clock: (u8, u8, u8),
    digits: &[u8],
) -> Result<Time<A>, AllocError>
    requires { All IsDigit digits.now }
    ensures time { IfOk result (λ t. IsTimeOf t clock digits.now) }
    ensures full { OnErr result (digits.now ≡ [] → ⊥) }
{
    let (hour, minute, second) = clock;
    let fraction = text_of(alloc, digits)?;
    Ok(Time {
        hour,
        minute,
        second,
        fraction,
    })
}

/// Parses the rest of a date: nothing, or a delimiter and a time.
fn after_date<A: Allocator>(
    alloc: A,
    date: Date,
    text: &[u8],
) -> Result<Option<DateTime<A>>, AllocError>
    ensures found { IfOk result (λ o. FoundResult (λ d. IsBehind date d text.now) o) }
    ensures full { OnErr result (HasPoint text.now) }
{
    let Some((delimiter, rest)) = text.split_first() else {
        return Ok(Some(DateTime::Date(date)));
    };
    let delimiter = *delimiter;
    if delimiter != b'T' && delimiter != b't' && delimiter != b' ' {
        return Ok(None);
    }
    let Some((clock, digits, offset)) = parts(rest) else {
        return Ok(None);
    };
    let time = time_of(alloc, clock, digits)?;
    match offset {
        Some(offset) => Ok(Some(DateTime::Offset(date, time, offset))),
        None => Ok(Some(DateTime::Local(date, time))),
    }
}

/// The time with no date that a text is.
fn time_alone<A: Allocator>(alloc: A, text: &[u8]) -> Result<Option<DateTime<A>>, AllocError>
    ensures found { IfOk result (λ o. FoundResult (λ d. IsAlone d text.now) o) }
    ensures full { OnErr result (HasPoint text.now) }
{
    let Some((clock, digits, offset)) = parts(text) else {
        return Ok(None);
    };
    match offset {
        Some(_offset) => Ok(None),
        None => {
            let time = time_of(alloc, clock, digits)?;
            Ok(Some(DateTime::Time(time)))
        }
    }
}

/// Returns the parts of a date, a time, or both; `None` if the text is none of them.
///
/// The grammar is that of TOML 1.0, which is that of RFC 3339 (section 5.6) with an optional time
/// or offset, and with a space for the letter `T`. A month has the days that it has in its year. A
/// second of 60 is accepted in each minute: leap seconds are announced half a year before, so no
/// grammar can specify them. An offset of `-00:00` is that of `+00:00`.
///
/// Fails with out of memory if the digits of a fraction cannot be allocated. A text without a full
/// stop needs no memory.
///
/// ```
/// use format_toml_tree::date_times::date_time;
/// use format_toml_tree::value::{Date, DateTime};
///
/// let wanted = Date { year: 1979, month: 5, day: 27 };
/// let found = date_time(alloc, b"1979-05-27");
/// assert!(rt; matches!(found, Ok(Some(DateTime::Date(date))) if date == wanted));
/// assert!(rt; matches!(date_time(alloc, b"1979-02-29"), Ok(None)));
/// let both = date_time(alloc, b"1979-05-27T07:32:00.5Z");
/// assert!(rt; matches!(both, Ok(Some(DateTime::Offset(_, time, _))) if time.hour == 7));
/// ```
pub fn date_time<A: Allocator>(alloc: A, text: &[u8]) -> Result<Option<DateTime<A>>, AllocError>
    ensures found { IfOk result (λ o. FoundResult (λ d. IsDateTime d text.now) o) }
    ensures full { OnErr result (HasPoint text.now) }
{
    match date(text) {
        Some((date, rest)) => after_date(alloc, date, rest),
        None => time_alone(alloc, text),
    }
}
