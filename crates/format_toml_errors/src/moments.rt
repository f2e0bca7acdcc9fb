//! The characters of a date or a time, one by one.
ghost use Rattle.format_toml_errors.specs.Moments.{clock_step, date_step, day_fits, days_of, digit};
ghost use Rattle.format_toml_errors.specs.Moments.{ends_moment, is_digit, is_leap, moment_if};
ghost use Rattle.format_toml_errors.specs.Moments.{moment_step, offset_start, offset_step, tens_of};
ghost use Rattle.std.specs.Prelude.{◌≡◌};

/// The input that is expected next in a date or a time, after the year, or the hour of a time
/// without a date. `dated` is whether a date precedes the time.
#[derive(Clone, Copy, Drop)]
pub enum Moment {
    /// A month.
    Month {
        /// Whether February has a leap day.
        leap: bool,
    },
    /// Its second digit.
    MonthEnd {
        /// Whether February has a leap day.
        leap: bool,
        /// Whether the first digit is a one.
        one: bool,
    },
    /// The hyphen before the day of a month that has this number of days.
    DayMark(u64),
    /// The day.
    Day(u64),
    /// Its second digit.
    DayEnd {
        /// The number of days of the month.
        days: u64,
        /// Ten times the first digit.
        tens: u64,
    },
    /// A time, or the end of a date.
    Date,
    /// A time after a space, or anything that may follow a date.
    Space,
    /// An hour.
    Hour,
    /// Its second digit.
    HourEnd {
        /// Whether the first digit is a two.
        two: bool,
    },
    /// The colon before the minute.
    MinuteMark,
    /// The minute.
    Minute {
        /// Whether there is a date.
        dated: bool,
    },
    /// Its second digit.
    MinuteEnd {
        /// Whether there is a date.
        dated: bool,
    },
    /// The colon before the second.
    SecondMark {
        /// Whether there is a date.
        dated: bool,
    },
    /// The second.
    Second {
        /// Whether there is a date.
        dated: bool,
    },
    /// Its second digit.
    SecondEnd {
        /// Whether there is a date.
        dated: bool,
        /// Whether the first digit is a six.
        six: bool,
    },
    /// A fraction or an offset, or the end of a time.
    Time {
        /// Whether there is a date.
        dated: bool,
    },
    /// The first digit of a fraction.
    Point {
        /// Whether there is a date.
        dated: bool,
    },
    /// More digits of a fraction.
    Fraction {
        /// Whether there is a date.
        dated: bool,
    },
    /// The hour of an offset.
    OffsetHour,
    /// Its second digit.
    OffsetHourEnd {
        /// Whether the first digit is a two.
        two: bool,
    },
    /// The colon before the minute of an offset.
    OffsetMark,
    /// The minute of an offset.
    OffsetMinute,
    /// Its second digit.
    OffsetMinuteEnd,
    /// The end of a time with an offset.
    Whole,
}

/// Returns whether it is a digit.
pub fn is_digit(c: char) -> bool
    ensures { result ≡ is_digit c }
{
    '0' <= c && c <= '9'
}

/// Returns the number of a digit.
pub fn digit(c: char) -> u64
    ensures { result ≡ digit c }
{
    u64::from(u32::from(c)).saturating_sub(48)
}

/// Returns whether a year has a leap day.
pub fn is_leap(year: u64) -> bool
    ensures { result ≡ is_leap year }
{
    year % 4 == 0 && (year % 100 != 0 || year % 400 == 0)
}

/// Returns the number of days of a month, by its digits.
fn days_of(leap: bool, one: bool, c: char) -> u64
    ensures { result ≡ days_of leap one c }
{
    if one {
        if c == '1' { 30 } else { 31 }
    } else if c == '2' {
        if leap { 29 } else { 28 }
    } else if c == '4' || c == '6' || c == '9' {
        30
    } else {
        31
    }
}

/// The moment if the test holds.
fn moment_if(test: bool, moment: Moment) -> Option<Moment>
    ensures { result ≡ moment_if test moment }
{
    if test { Some(moment) } else { None }
}

/// Returns ten times the number of the first digit of a day.
fn tens_of(c: char) -> u64
    ensures { result ≡ tens_of c }
{
    if c == '1' {
        10
    } else if c == '2' {
        20
    } else if c == '3' {
        30
    } else {
        0
    }
}

/// Returns whether a day is one of the month.
fn day_fits(days: u64, tens: u64, c: char) -> bool
    ensures { result ≡ day_fits days tens c }
{
    is_digit(c) && (c != '0' || 0 < tens) && digit(c) <= days.saturating_sub(tens)
}

/// Returns what is expected after a character of a date.
fn date_step(moment: Moment, c: char) -> Option<Moment>
    ensures { result ≡ date_step moment c }
{
    match moment {
        Moment::DayMark(days) => moment_if(c == '-', Moment::Day(days)),
        Moment::Day(days) => moment_if(
            ('0' <= c && c <= '2') || (c == '3' && 30 <= days),
            Moment::DayEnd {
                days,
                tens: tens_of(c),
            },
        ),
        Moment::DayEnd { days, tens } => moment_if(day_fits(days, tens, c), Moment::Date),
        Moment::Date if c == ' ' => Some(Moment::Space),
        Moment::Date => moment_if(c == 'T' || c == 't', Moment::Hour),
        Moment::Space | Moment::Hour => {
            moment_if('0' <= c && c <= '2', Moment::HourEnd { two: c == '2' })
        }
        Moment::Month { leap } => moment_if(
            c == '0' || c == '1',
            Moment::MonthEnd {
                leap,
                one: c == '1',
            },
        ),
        Moment::MonthEnd { leap, one: true } => moment_if(
            '0' <= c && c <= '2',
            Moment::DayMark(days_of(leap, true, c)),
        ),
        Moment::MonthEnd { leap, .. } => moment_if(
            '1' <= c && c <= '9',
            Moment::DayMark(days_of(leap, false, c)),
        ),
        _ => None,
    }
}

/// Returns what is expected after a character of an hour, a minute or a second.
fn clock_step(moment: Moment, c: char) -> Option<Moment>
    ensures { result ≡ clock_step moment c }
{
    match moment {
        Moment::HourEnd { two: true } => moment_if('0' <= c && c <= '3', Moment::MinuteMark),
        Moment::HourEnd { .. } => moment_if(is_digit(c), Moment::MinuteMark),
        Moment::MinuteMark => moment_if(c == ':', Moment::Minute { dated: true }),
        Moment::Minute { dated } => moment_if('0' <= c && c <= '5', Moment::MinuteEnd { dated }),
        Moment::MinuteEnd { dated } => moment_if(is_digit(c), Moment::SecondMark { dated }),
        Moment::SecondMark { dated } => moment_if(c == ':', Moment::Second { dated }),
        Moment::Second { dated } => moment_if(
            '0' <= c && c <= '6',
            Moment::SecondEnd {
                dated,
                six: c == '6',
            },
        ),
        Moment::SecondEnd { dated, six: true } => moment_if(c == '0', Moment::Time { dated }),
        Moment::SecondEnd { dated, .. } => moment_if(is_digit(c), Moment::Time { dated }),
        _ => None,
    }
}

/// Returns what is expected after the character that may begin an offset.
fn offset_start(dated: bool, c: char) -> Option<Moment>
    ensures { result ≡ offset_start dated c }
{
    if !dated {
        None
    } else if c == 'Z' || c == 'z' {
        Some(Moment::Whole)
    } else {
        moment_if(c == '+' || c == '-', Moment::OffsetHour)
    }
}

/// Returns what is expected after a character after the second.
fn offset_step(moment: Moment, c: char) -> Option<Moment>
    ensures { result ≡ offset_step moment c }
{
    match moment {
        Moment::OffsetHour => {
            moment_if(
                '0' <= c && c <= '2',
                Moment::OffsetHourEnd { two: c == '2' },
            )
        }
        Moment::OffsetHourEnd { two: true } => moment_if('0' <= c && c <= '3', Moment::OffsetMark),
        Moment::OffsetHourEnd { .. } => moment_if(is_digit(c), Moment::OffsetMark),
        Moment::OffsetMark => moment_if(c == ':', Moment::OffsetMinute),
        Moment::OffsetMinute => moment_if('0' <= c && c <= '5', Moment::OffsetMinuteEnd),
        Moment::OffsetMinuteEnd => moment_if(is_digit(c), Moment::Whole),
        Moment::Time { dated } if c == '.' => Some(Moment::Point { dated }),
        Moment::Time { dated } => offset_start(dated, c),
        Moment::Point { dated } => moment_if(is_digit(c), Moment::Fraction { dated }),
        Moment::Fraction { dated } if is_digit(c) => Some(Moment::Fraction { dated }),
        Moment::Fraction { dated } => offset_start(dated, c),
        _ => None,
    }
}

/// Returns what is expected after a character of a date or a time, or `None` if it cannot continue
/// it.
pub fn moment_step(moment: Moment, c: char) -> Option<Moment>
    ensures { result ≡ moment_step moment c }
{
    if let Some(next) = date_step(moment, c) {
        return Some(next);
    }
    if let Some(next) = clock_step(moment, c) {
        return Some(next);
    }
    offset_step(moment, c)
}

/// Returns whether a date or a time may end there.
pub fn ends_moment(moment: Moment) -> bool
    ensures { result ≡ ends_moment moment }
{
    matches!(
        moment,
        Moment::Date | Moment::Space | Moment::Time { .. } | Moment::Fraction { .. } | Moment::Whole
    )
}
