//! Values of slots of a tree, in the form of nodes.
ghost use Rattle.std.specs.Prelude.{◌≡◌, ℕ};
ghost use Rattle.format_toml_nodes.specs.Nodes.{date_time_of, fraction_of, minutes_of, numbers_of};
ghost use Rattle.format_toml_nodes.specs.Nodes.{of_kind, text_of, value_of, with_date, with_time};
ghost use Rattle.format_toml_tree.specs.Holds.{node_of};

use crate::node::{
    NO_NODE, TOML_ARRAY, TOML_BOOLEAN, TOML_FLOAT, TOML_INTEGER, TOML_LOCAL_DATE,
    TOML_LOCAL_DATE_TIME, TOML_LOCAL_TIME, TOML_OFFSET_DATE_TIME, TOML_STRING, TOML_TABLE,
    TomlValue,
};
use format_toml_tree::tree::Kind;
use format_toml_tree::value::{Date, DateTime, Offset, Time, Value};
use std::alloc::Allocator;

/// Returns the digits of the fraction of a second.
pub(crate) fn fraction<A: Allocator>(date_time: &DateTime<A>) -> &str
    ensures { result.now ≡ fraction_of date_time.now }
{
    match date_time {
        DateTime::Offset(_, time, _) => time.fraction.as_str(),
        DateTime::Local(_, time) => time.fraction.as_str(),
        DateTime::Date(_) => "",
        DateTime::Time(time) => time.fraction.as_str(),
    }
}

/// Returns the bytes of a slot's value: those of a string, of a float, or of a fraction.
pub(crate) fn text<'t, A: Allocator>(kind: Kind<'t, A>) -> &'t str
    ensures { (n : ℕ) → result.now ≡ text_of (node_of kind.entry n) }
{
    match kind {
        Kind::Value(value) => match value {
            Value::Text(text) => text.as_str(),
            Value::Float(float) => float.text.as_str(),
            Value::DateTime(date_time) => fraction(date_time),
            _ => "",
        },
        _ => "",
    }
}

/// A value of a kind, of which all else is 0.
fn of_kind(kind: u32) -> TomlValue
    ensures { result ≡ of_kind kind }
{
    TomlValue {
        kind,
        ..NO_NODE.value
    }
}

/// The value with a date.
fn with_date(value: TomlValue, date: &Date) -> TomlValue
    ensures { result ≡ with_date date.now value }
{
    TomlValue {
        year: date.year,
        month: date.month,
        day: date.day,
        ..value
    }
}

/// The value with a time.
fn with_time<A: Allocator>(value: TomlValue, time: &Time<A>) -> TomlValue
    ensures { result ≡ with_time time.now value }
{
    TomlValue {
        hour: time.hour,
        minute: time.minute,
        second: time.second,
        ..value
    }
}

/// How many minutes a time is ahead of UTC.
fn minutes(offset: Offset) -> i16
    ensures { result ≡ minutes_of offset }
{
    match offset {
        Offset::Zulu => 0,
        Offset::Minutes(minutes) => minutes,
    }
}

/// Returns the value of a date, a time or both.
pub(crate) fn date_time_value<A: Allocator>(date_time: &DateTime<A>) -> TomlValue
    ensures { result ≡ date_time_of date_time.now }
{
    match date_time {
        DateTime::Offset(date, time, offset) => TomlValue {
            offset: minutes(*offset),
            ..with_time(with_date(of_kind(TOML_OFFSET_DATE_TIME), date), time)
        },
        DateTime::Local(date, time) => {
            with_time(with_date(of_kind(TOML_LOCAL_DATE_TIME), date), time)
        }
        DateTime::Date(date) => with_date(of_kind(TOML_LOCAL_DATE), date),
        DateTime::Time(time) => with_time(of_kind(TOML_LOCAL_TIME), time),
    }
}

/// The kind and the numbers of a value that a key gave.
fn given_value<A: Allocator>(value: &Value<A>) -> TomlValue
    ensures { result ≡ numbers_of value.now }
{
    match value {
        Value::Text(_) => of_kind(TOML_STRING),
        Value::Integer(number) => TomlValue {
            integer: *number,
            ..of_kind(TOML_INTEGER)
        },
        Value::Float(_) => of_kind(TOML_FLOAT),
        Value::Boolean(word) => TomlValue {
            integer: if *word { 1 } else { 0 },
            ..of_kind(TOML_BOOLEAN)
        },
        Value::DateTime(date_time) => date_time_value(date_time),
        Value::Array(_) => of_kind(TOML_ARRAY),
        Value::Table(_) => of_kind(TOML_TABLE),
    }
}

/// Returns the kind and the numbers of a slot's value.
pub(crate) fn value_of<'t, A: Allocator>(kind: Kind<'t, A>) -> TomlValue
    ensures { (n : ℕ) → result ≡ value_of (node_of kind.entry n) }
{
    match kind {
        Kind::Value(value) => given_value(value),
        Kind::Super | Kind::Header | Kind::Dotted => of_kind(TOML_TABLE),
        Kind::Tables => of_kind(TOML_ARRAY),
    }
}
