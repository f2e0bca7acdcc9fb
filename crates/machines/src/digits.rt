//! Numerals of digits, with a mark after them.
ghost use Rattle.std.specs.Prelude.{◌≡◌, ℕ, false};
ghost use Rattle.machines.specs.Digits.{AreDigits, DigitSet, HasNoDigit, IsDigitOf, IsNumberWith};
ghost use Rattle.machines.specs.Digits.{ReadsDigits, digit_numerals};
ghost use Rattle.machines.specs.Marks.{digit_lawful};
ghost use Rattle.machines.specs.Grammar.{AreDisjoint};
ghost use Rattle.machines.specs.Numbers.{Reads};
ghost use Rattle.machines.specs.declared.digits.Stage.TheVariants.{Digits};
ghost use Rattle.machines.specs.Radixes.{are_decimal, are_hexadecimal, decimal, hexadecimal};

use crate::machine::Machine;
use crate::number::Number;

/// The digits of a radix.
pub trait Radix {
    // The bytes that are digits, and their values.
    ghost digits: { Self → DigitSet };

    /// Returns the radix, as 10.
    fn radix(&self) -> usize
        ensures { result ≡ (digits self.now).radix };

    /// Returns the value of a digit, or `None` if `byte` is not one.
    fn digit(&self, byte: u8) -> Option<usize>
        ensures { IsDigitOf (digits self.now) byte result };

    ghost are_digits: { (s : Self) → AreDigits (digits s) };
}

/// The digits `0` to `9`.
#[derive(Clone, Copy)]
pub struct Decimal;

impl Radix for Decimal {
    ghost digits = { λ _. decimal };

    ghost are_digits = { λ _. are_decimal };

    #[inline(always)]
    fn radix(&self) -> usize {
        10
    }

    #[inline(always)]
    fn digit(&self, byte: u8) -> Option<usize> {
        if b'0' <= byte && byte <= b'9' {
            Some((byte - b'0') as usize)
        } else {
            None
        }
    }
}

/// The digits `0` to `9`, and `a` to `f` in either case.
#[derive(Clone, Copy)]
pub struct Hexadecimal;

impl Radix for Hexadecimal {
    ghost digits = { λ _. hexadecimal };

    ghost are_digits = { λ _. are_hexadecimal };

    #[inline(always)]
    fn radix(&self) -> usize {
        16
    }

    #[inline(always)]
    fn digit(&self, byte: u8) -> Option<usize> {
        match byte {
            b'0'..=b'9' => Some((byte - b'0') as usize),
            b'A'..=b'F' => Some((byte - b'A') as usize + 10),
            b'a'..=b'f' => Some((byte - b'a') as usize + 10),
            _ => None,
        }
    }
}

/// A state of [`Numeral`]: before the digits, after some with their number, or in the mark.
#[derive(Clone, Copy)]
pub enum Stage<S> {
    Start,
    Digits(usize),
    Mark(usize, S),
}

/// One or more digits whose number is at most `limit`, and then a word of `mark`.
///
/// Leading zeros are allowed. No word of `mark` may be empty, start with a digit, or be a prefix of
/// another.
///
/// ```
/// use machines::counted::Counted;
/// use machines::digits::{Hexadecimal, Numeral};
/// use machines::extent::{advance, begin};
/// use machines::text::Text;
///
/// let size = Numeral { radix: Hexadecimal, limit: 0xff, mark: Text(*b"\r\n") };
/// let machine = Counted(size);
/// assert_eq!(rt; advance(&machine, &mut begin(&machine), b"2\r\nab".as_slice()), Ok(Some(5)));
/// assert_eq!(rt; advance(&machine, &mut begin(&machine), b"100\r\n".as_slice()), Err(2));
/// ```
#[derive(Clone, Copy)]
pub struct Numeral<R, T> {
    pub radix: R,
    pub limit: usize,
    pub mark: T,
}

impl<R: Radix, T: Machine> Numeral<R, T> {
    #[inline(always)]
    fn with_digit(&self, from: usize, byte: u8) -> Option<usize>
        ensures { IsNumberWith (R.digits self.now.radix) self.now.limit from byte result }
    {
        let limit = self.limit;
        match self.radix.digit(byte) {
            None => None,
            Some(digit) => match from.checked_mul(self.radix.radix()) {
                None => None,
                Some(product) => match product.checked_add(digit) {
                    None => None,
                    Some(sum) => if sum <= limit { Some(sum) } else { None },
                },
            },
        }
    }

    #[inline(always)]
    fn pass_digits<'i>(&self, from: usize, bytes: &'i [u8]) -> (usize, &'i [u8])
        requires sound { T.sound self.now.mark }
        requires filled { (T.grammar self.now.mark).nullable ≡ false }
        requires disjoint { AreDisjoint (R.digits self.now.radix).has
            (T.grammar self.now.mark).firsts }
        ensures { ReadsDigits (R.digits self.now.radix) self.now.limit (T.grammar self.now.mark)
            from bytes.now result.0 result.1.now }
    {
        let mut number = from;
        let mut rest = bytes;
        'digits: loop {
            match rest.split_first() {
                None => return (number, rest),
                Some((byte, others)) => match self.with_digit(number, *byte) {
                    None => return (number, rest),
                    Some(more) => {
                        number = more;
                        rest = others;
                    }
                },
            }
        }
    }

    #[inline(always)]
    fn pass_mark<'i>(&self, number: usize, bytes: &'i [u8]) -> (Stage<T::State>, &'i [u8])
        requires sound { T.sound self.now.mark }
        requires filled { (T.grammar self.now.mark).nullable ≡ false }
        requires disjoint { AreDisjoint (R.digits self.now.radix).has
            (T.grammar self.now.mark).firsts }
        requires none { HasNoDigit (R.digits self.now.radix) self.now.limit number bytes.now }
        ensures { Reads (digit_numerals (R.digits self.now.radix) self.now.limit
            (T.grammar self.now.mark)) (Digits number) bytes.now result.0 result.1.now }
    {
        let (to, left) = self.mark.pass(self.mark.start(), bytes);
        if left.len() == bytes.len() {
            return (Stage::Digits(number), bytes);
        }
        (Stage::Mark(number, to), left)
    }

    #[inline(always)]
    fn pass_number<'i>(&self, from: usize, bytes: &'i [u8]) -> (Stage<T::State>, &'i [u8])
        requires sound { T.sound self.now.mark }
        requires filled { (T.grammar self.now.mark).nullable ≡ false }
        requires disjoint { AreDisjoint (R.digits self.now.radix).has
            (T.grammar self.now.mark).firsts }
        ensures { Reads (digit_numerals (R.digits self.now.radix) self.now.limit
            (T.grammar self.now.mark)) (Digits from) bytes.now result.0 result.1.now }
    {
        let (number, left) = self.pass_digits(from, bytes);
        self.pass_mark(number, left)
    }
}

impl<R: Radix, T: Machine> Number for Numeral<R, T> {
    type State = Stage<T::State>;

    ghost numerals = { λ m. digit_numerals (R.digits m.radix) m.limit (T.grammar m.mark) };

    ghost sound = { λ m. T.sound m.mark × ((T.grammar m.mark).nullable ≡ false)
        × AreDisjoint (R.digits m.radix).has (T.grammar m.mark).firsts
        × ((b : ℕ) → (T.grammar m.mark).nexts b ≡ false) };

    ghost lawful = { λ m is. digit_lawful (R.digits m.radix) m.limit (T.grammar m.mark)
        (R.are_digits m.radix) (T.lawful m.mark is.0) is.1 is.2 is.3 };

    #[inline(always)]
    fn start(&self) -> Stage<T::State> {
        Stage::Start
    }

    #[inline(always)]
    fn pass<'i>(&self, at: Stage<T::State>, bytes: &'i [u8]) -> (Stage<T::State>, &'i [u8]) {
        match at {
            Stage::Mark(number, from) => {
                let (to, left) = self.mark.pass(from, bytes);
                (Stage::Mark(number, to), left)
            }
            Stage::Digits(from) => self.pass_number(from, bytes),
            Stage::Start => match bytes.split_first() {
                None => (at, bytes),
                Some((byte, rest)) => match self.with_digit(0, *byte) {
                    None => (at, bytes),
                    Some(number) => self.pass_number(number, rest),
                },
            },
        }
    }

    #[inline(always)]
    fn value(&self, at: Stage<T::State>) -> Option<usize> {
        match at {
            Stage::Mark(number, inner) => {
                if self.mark.is_done(inner) {
                    Some(number)
                } else {
                    None
                }
            }
            Stage::Digits(_) => None,
            Stage::Start => None,
        }
    }
}
