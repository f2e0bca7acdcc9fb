//! The statements of the lines of a document.

use std::alloc::Allocator;

/// A key: one name, or several joined by dots, their quotes and escapes undone. Never empty.
#[derive(Debug, Drop, PartialEq)]
pub struct Key<A: Allocator> {
    /// The names, in the order in which they are written.
    pub names: Vec<String<A>, A>,
}

/// A float as its text without underscores, e.g. `-1.5e+3`, `inf`, `nan`.
#[derive(Debug, Drop, PartialEq)]
pub struct Float<A: Allocator> {
    /// The text.
    pub text: String<A>,
}

/// A day of the calendar.
#[derive(Debug, Clone, Copy, PartialEq, Eq)]
pub struct Date {
    /// The year, from 0 to 9999.
    pub year: u16,
    /// The month, from 1 to 12.
    pub month: u8,
    /// The day of the month, from 1 to its last.
    pub day: u8,
}

/// A time of day.
#[derive(Debug, Drop, PartialEq)]
pub struct Time<A: Allocator> {
    /// The hour, from 0 to 23.
    pub hour: u8,
    /// The minute, from 0 to 59.
    pub minute: u8,
    /// The second, from 0 to 60, which is a leap second.
    pub second: u8,
    /// The digits of the fraction of the second, as written; none where there is no fraction.
    pub fraction: String<A>,
}

/// How far a time is ahead of UTC.
#[derive(Debug, Clone, Copy, PartialEq, Eq)]
pub enum Offset {
    /// The letter `Z`.
    Zulu,
    /// That many minutes, below zero to the west.
    Minutes(i16),
}

/// A date, a time, or both.
#[derive(Debug, Drop, PartialEq)]
pub enum DateTime<A: Allocator> {
    /// A date and a time at an offset from UTC.
    Offset(Date, Time<A>, Offset),
    /// A date and a time with no offset.
    Local(Date, Time<A>),
    /// A date without a time.
    Date(Date),
    /// A time without a date.
    Time(Time<A>),
}

/// A value.
#[derive(Debug, Drop, PartialEq)]
pub enum Value<A: Allocator> {
    /// A string.
    Text(String<A>),
    /// An integer.
    Integer(i64),
    /// A float.
    Float(Float<A>),
    /// The word `true` or `false`.
    Boolean(bool),
    /// A date, a time, or both.
    DateTime(DateTime<A>),
    /// The values of an array, in order.
    Array(Vec<Value<A>, A>),
    /// The keys and values of an inline table, as written.
    Table(Vec<(Key<A>, Value<A>), A>),
}

/// The statement of a line that is not blank: `[key]`, `[[key]]`, `key = value`.
#[derive(Debug, Drop, PartialEq)]
pub enum Item<A: Allocator> {
    /// A table, whose entries the next lines say.
    Table(Key<A>),
    /// One more table of an array of tables, whose entries the next lines say.
    Tables(Key<A>),
    /// A key and its value.
    Entry(Key<A>, Value<A>),
}
