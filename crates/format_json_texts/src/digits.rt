//! Digits, read from the left.

ghost use Rattle.format_json_texts.specs.Digits.{ContinuesDigits, IsReduced, IsTooLong};
ghost use Rattle.std.specs.Prelude.{◌≡◌, ◌+◌, ◌*◌, ◌<◌, ◌≤◌, ◌^◌, ℕ, List, IfSome, MatchOption};
ghost use Rattle.std.specs.Prelude.{length};

/// Digits that were read, without the zeros at their end, and how many these are.
#[derive(Clone, Copy)]
pub(crate) struct Significand {
    pub(crate) digits: u64,
    pub(crate) zeros: u64,
}

/// The same with one digit more; none where they no longer fit.
#[inline]
fn push(read: Significand, digit: u64) -> Option<Significand>
    requires digit { digit < 10 }
    requires room { read.zeros + 1 < 2 ^ 64 }
    ensures reduced { MatchOption result
        ((n : ℕ) → IsReduced n read.digits read.zeros → IsTooLong (n * 10 + digit))
        (λ after. (n : ℕ) → IsReduced n read.digits read.zeros
        → IsReduced (n * 10 + digit) after.digits after.zeros) }
    ensures longer { IfSome result (λ after. after.zeros ≤ read.zeros + 1) }
{
    if digit == 0 {
        let zeros = if read.digits == 0 { 0 } else { read.zeros + 1 };
        return Some(Significand {
            digits: read.digits,
            zeros,
        });
    }
    let mut digits = read.digits;
    let mut places = 0;
    'places: while places <= read.zeros {
        digits = digits.checked_mul(10)?;
        places += 1;
    }
    Some(Significand {
        digits: digits.checked_add(digit)?,
        zeros: 0,
    })
}

/// Appends all digits at the start of `bytes`, and returns the bytes after them.
#[inline]
pub(crate) fn push_digits<'i>(read: Significand, bytes: &'i [u8]) -> Option<(Significand, &'i [u8])>
    requires { read.zeros + length bytes.now < 2 ^ 64 }
    ensures reduced { (n total : ℕ) (rest : List ℕ) → IsReduced n read.digits read.zeros
        → ContinuesDigits n bytes.now total rest
        → MatchOption result (IsTooLong total)
        (λ (after, behind). (behind.now ≡ rest) × IsReduced total after.digits after.zeros) }
    ensures longer { IfSome result (λ (after, behind).
        (after.zeros + length behind.now ≤ read.zeros + length bytes.now)
        × (length behind.now ≤ length bytes.now)) }
{
    let mut read = read;
    let mut left = bytes;
    'digits: loop {
        match left.split_first() {
            Some((first, more)) => {
                if *first < b'0' || *first > b'9' {
                    return Some((read, left));
                }
                read = push(read, u64::from(*first - b'0'))?;
                left = more;
            }
            None => return Some((read, left)),
        }
    }
}
