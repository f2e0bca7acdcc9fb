//! The characters of a number, one by one, and of a date or a time that begins like one.
ghost use Rattle.format_toml_errors.specs.Figures.{adding, base_step, based_digit, ends_figure};
ghost use Rattle.format_toml_errors.specs.Figures.{figure_if, figure_step, fits, is_e, lead_step};
ghost use Rattle.format_toml_errors.specs.Figures.{limit_of, next_digit, real_step};
ghost use Rattle.format_toml_errors.specs.declared.figures.Figure.TheVariants as figures;
ghost use Rattle.std.specs.Prelude.{◌≡◌};

use crate::escapes::is_hex;
use crate::moments::{Moment, digit, ends_moment, is_digit, is_leap, moment_step};

/// The base of an integer.
#[derive(Clone, Copy, Debug, PartialEq, Eq, Drop)]
pub enum Base {
    /// 16, after `0x`.
    Hex,
    /// 8, after `0o`.
    Octal,
    /// 2, after `0b`.
    Binary,
}

/// The digits of a decimal integer, or of a float, a date or a time that begins like one.
#[derive(Clone, Copy, Drop)]
pub struct Whole {
    /// How many digits there are, if a date or a time may begin with them; otherwise more than 4.
    pub digits: u64,
    /// Whether there is a minus.
    pub negative: bool,
    /// Their number, or more than 2⁶³ if it is larger.
    pub value: u64,
}

/// The input that is expected next in a number.
#[derive(Clone, Copy, Drop)]
pub enum Figure {
    /// Anything after a leading zero without a sign.
    Zero,
    /// A point or an exponent after a leading zero with a sign.
    SignedZero,
    /// Anything after these digits.
    Whole(Whole),
    /// A digit after an underscore after these.
    WholeMark(Whole),
    /// More digits of a year, or a colon, after this many digits of this number, with a leading
    /// zero.
    Lead(u64, u64),
    /// The first digit of a fraction.
    Point,
    /// More of a fraction, or an exponent.
    Fraction,
    /// A digit of a fraction after an underscore.
    FractionMark,
    /// A sign or a digit of an exponent.
    Exponent,
    /// A digit of an exponent.
    Power,
    /// More digits of an exponent.
    Digits,
    /// The first digit of an integer in this base.
    Prefix(Base),
    /// More digits of it, after this number.
    Based(Base, u64),
    /// A digit of it after an underscore.
    BasedMark(Base, u64),
    /// More of a date or a time.
    Moment(Moment),
}

/// The largest number that can be followed by another decimal digit and fit.
const TENTH: u64 = 922_337_203_685_477_580;

/// A number that is too large.
const TOO_LARGE: u64 = 9_223_372_036_854_775_810;

/// Returns the number of digits after one more.
fn next_digit(value: u64, c: char) -> u64
    ensures { result ≡ next_digit value c }
{
    if value <= TENTH && is_digit(c) {
        value * 10 + digit(c)
    } else {
        TOO_LARGE
    }
}

/// The digits with one more.
fn adding(whole: Whole, c: char) -> Whole
    ensures { result ≡ adding whole c }
{
    Whole {
        digits: if whole.digits < 4 {
            whole.digits + 1
        } else {
            5
        },
        negative: whole.negative,
        value: next_digit(whole.value, c),
    }
}

/// Returns whether an integer has 64 bits.
pub fn fits(whole: Whole) -> bool
    ensures { result ≡ fits whole }
{
    whole.value < 9_223_372_036_854_775_808
        || (whole.negative && whole.value == 9_223_372_036_854_775_808)
}

/// Returns whether it begins an exponent.
fn is_e(c: char) -> bool
    ensures { result ≡ is_e c }
{
    c == 'e' || c == 'E'
}

/// The figure if the test holds.
fn figure_if(test: bool, figure: Figure) -> Option<Figure>
    ensures { result ≡ figure_if test figure }
{
    if test { Some(figure) } else { None }
}

/// Returns what is expected after the character after an integer that makes it a float.
fn real_step(c: char) -> Option<Figure>
    ensures { result ≡ real_step c }
{
    if c == '.' {
        Some(Figure::Point)
    } else {
        figure_if(is_e(c), Figure::Exponent)
    }
}

/// Returns what is expected after the character after a leading zero.
fn zero_step(c: char) -> Option<Figure>
    ensures { result ≡ figure_step figures.Zero c }
{
    if c == 'x' {
        Some(Figure::Prefix(Base::Hex))
    } else if c == 'o' {
        Some(Figure::Prefix(Base::Octal))
    } else if c == 'b' {
        Some(Figure::Prefix(Base::Binary))
    } else if is_digit(c) {
        Some(Figure::Lead(2, digit(c)))
    } else {
        real_step(c)
    }
}

/// Returns what is expected after a character after decimal digits.
fn whole_step(whole: Whole, c: char) -> Option<Figure>
    ensures { result ≡ figure_step (figures.Whole whole) c }
{
    if is_digit(c) {
        Some(Figure::Whole(adding(whole, c)))
    } else if c == '_' {
        Some(Figure::WholeMark(Whole {
            digits: 5,
            negative: whole.negative,
            value: whole.value,
        }))
    } else if c == '-' && whole.digits == 4 {
        Some(Figure::Moment(Moment::Month {
            leap: is_leap(whole.value),
        }))
    } else if c == ':' && whole.digits == 2 && whole.value < 24 {
        Some(Figure::Moment(Moment::Minute { dated: false }))
    } else {
        real_step(c)
    }
}

/// Returns what is expected after a character after digits with a leading zero.
fn lead_step(digits: u64, value: u64, c: char) -> Option<Figure>
    ensures { result ≡ lead_step digits value c }
{
    if digits < 4 && is_digit(c) {
        Some(Figure::Lead(digits + 1, next_digit(value, c)))
    } else if digits == 2 && c == ':' {
        Some(Figure::Moment(Moment::Minute { dated: false }))
    } else {
        figure_if(
            digits == 4 && c == '-',
            Figure::Moment(Moment::Month {
                leap: is_leap(value),
            }),
        )
    }
}

/// Returns the least integer of a base that another digit makes too large.
fn limit_of(base: Base) -> u64
    ensures { result ≡ limit_of base }
{
    match base {
        Base::Hex => 576_460_752_303_423_488,
        Base::Octal => 1_152_921_504_606_846_976,
        Base::Binary => 4_611_686_018_427_387_904,
    }
}

/// Returns the number of a digit of a base with digits of this number before it, or `None` if it is
/// no digit of the base, or the number is too large.
fn based_digit(base: Base, value: u64, c: char) -> Option<u64>
    ensures { result ≡ based_digit base value c }
{
    match base {
        Base::Hex if value < 576_460_752_303_423_488 && is_hex(c) => {
            Some(value * 16 + u64::from(c.to_digit(16).unwrap_or(0)))
        }
        Base::Octal if value < 1_152_921_504_606_846_976 && '0' <= c && c <= '7' => {
            Some(value * 8 + digit(c))
        }
        Base::Binary if value < 4_611_686_018_427_387_904 && '0' <= c && c <= '1' => {
            Some(value * 2 + digit(c))
        }
        _ => None,
    }
}

/// Returns what is expected after a digit of a base.
fn base_step(base: Base, value: u64, c: char) -> Option<Figure>
    ensures { result ≡ base_step base value c }
{
    Some(Figure::Based(base, based_digit(base, value, c)?))
}

/// Returns what is expected after a character of a number, a date or a time, or `None` if it cannot
/// continue it.
pub fn figure_step(figure: Figure, c: char) -> Option<Figure>
    ensures { result ≡ figure_step figure c }
{
    match figure {
        Figure::Zero => zero_step(c),
        Figure::SignedZero => real_step(c),
        Figure::Whole(whole) => whole_step(whole, c),
        Figure::WholeMark(whole) => figure_if(is_digit(c), Figure::Whole(adding(whole, c))),
        Figure::Lead(digits, value) => lead_step(digits, value, c),
        Figure::Point | Figure::FractionMark => figure_if(is_digit(c), Figure::Fraction),
        Figure::Fraction if is_digit(c) => Some(Figure::Fraction),
        Figure::Fraction if c == '_' => Some(Figure::FractionMark),
        Figure::Fraction => figure_if(is_e(c), Figure::Exponent),
        Figure::Exponent if c == '+' || c == '-' => Some(Figure::Power),
        Figure::Digits if c == '_' => Some(Figure::Power),
        Figure::Exponent | Figure::Power | Figure::Digits => figure_if(is_digit(c), Figure::Digits),
        Figure::Prefix(base) => base_step(base, 0, c),
        Figure::Based(base, value) if c == '_' => {
            figure_if(value < limit_of(base), Figure::BasedMark(base, value))
        }
        Figure::Based(base, value) => base_step(base, value, c),
        Figure::BasedMark(base, value) => base_step(base, value, c),
        Figure::Moment(moment) => Some(Figure::Moment(moment_step(moment, c)?)),
    }
}

/// Returns whether a number, a date or a time may end there.
pub fn ends_figure(figure: Figure) -> bool
    ensures { result ≡ ends_figure figure }
{
    match figure {
        Figure::Zero
        | Figure::SignedZero
        | Figure::Fraction
        | Figure::Digits
        | Figure::Based(_, _) => true,
        Figure::Whole(whole) => fits(whole),
        Figure::Moment(moment) => ends_moment(moment),
        _ => false,
    }
}
