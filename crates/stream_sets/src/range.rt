//! Ranges of counts.
ghost use Rattle.std.specs.Prelude.{◌≡◌, ◌≤◌, ◌-◌, Some, None};
ghost use Rattle.std.specs.Range.{range_inclusive_start, range_inclusive_end};

use std::fmt::{Debug, Display};
use std::{fmt, ops};

/// A range of counts, made by `From` of a number or of a range of numbers.
///
/// ```
/// let thrice = Range::from(3);
/// let once_or_more = Range::from(1..);
/// assert_eq!(rt; Range::from(2..=4), Range::from(2..5));
/// ```
///
/// Of `a..b` and `..b` the greatest count is `b - 1`, and 0 where `b` is 0. It prints as `2..=4`,
/// as `1..` without a greatest count, and as `3` if both are equal.
#[derive(Clone, Copy, PartialEq, Eq)]
pub struct Range {
    /// The least count.
    pub start_inclusive: usize,
    /// The greatest count, if there is one. It may be below the least: such a range is rejected
    /// where it is used.
    pub end_inclusive: Option<usize>,
}

impl Range {
    ghost use Rattle.stream_sets.specs.Range.{greatest_of};

    /// The greatest count that is looked at: none in the forms `0..` and `1..`, and the greatest
    /// `usize` of another range with no end.
    ///
    /// ```
    /// assert_eq!(rt; Range::from(1..).greatest(), None);
    /// assert_eq!(rt; Range::from(1..4).greatest(), Some(3));
    /// ```
    #[inline(always)]
    #[tactic(auto, using(crate::specs::Range::greatest_by_least))]
    pub fn greatest(self) -> Option<usize>
        ensures value { result ≡ greatest_of self.start_inclusive self.end_inclusive }
        ensures none { result ≡ None → self.start_inclusive ≤ 1 }
    {
        match self.end_inclusive {
            Some(last) => Some(last),
            None => {
                if self.start_inclusive <= 1 {
                    None
                } else {
                    Some(usize::MAX)
                }
            }
        }
    }
}

impl From<usize> for Range {
    ghost from_gives = { λ n r. r ≡ record { start_inclusive = n; end_inclusive = Some n } };

    #[inline(always)]
    fn from(count: usize) -> Range {
        Range {
            start_inclusive: count,
            end_inclusive: Some(count),
        }
    }
}

impl From<ops::RangeFull> for Range {
    ghost from_gives = { λ _ r. r ≡ record { start_inclusive = 0; end_inclusive = None } };

    #[inline(always)]
    fn from(_range: ops::RangeFull) -> Range {
        Range {
            start_inclusive: 0,
            end_inclusive: None,
        }
    }
}

impl From<ops::RangeFrom<usize>> for Range {
    ghost from_gives = { λ x r. r ≡ record { start_inclusive = x.start; end_inclusive = None } };

    #[inline(always)]
    fn from(range: ops::RangeFrom<usize>) -> Range {
        Range {
            start_inclusive: range.start,
            end_inclusive: None,
        }
    }
}

impl From<ops::RangeTo<usize>> for Range {
    ghost from_gives = { λ x r. r
        ≡ record { start_inclusive = 0; end_inclusive = Some (x.end - 1) } };

    #[inline(always)]
    fn from(range: ops::RangeTo<usize>) -> Range {
        Range {
            start_inclusive: 0,
            end_inclusive: Some(range.end.saturating_sub(1)),
        }
    }
}

impl From<ops::RangeToInclusive<usize>> for Range {
    ghost from_gives = { λ x r. r ≡ record { start_inclusive = 0; end_inclusive = Some x.end } };

    #[inline(always)]
    fn from(range: ops::RangeToInclusive<usize>) -> Range {
        Range {
            start_inclusive: 0,
            end_inclusive: Some(range.end),
        }
    }
}

impl From<ops::Range<usize>> for Range {
    ghost from_gives = { λ x r. r
        ≡ record { start_inclusive = x.start; end_inclusive = Some (x.end - 1) } };

    #[inline(always)]
    fn from(range: ops::Range<usize>) -> Range {
        Range {
            start_inclusive: range.start,
            end_inclusive: Some(range.end.saturating_sub(1)),
        }
    }
}

impl From<ops::RangeInclusive<usize>> for Range {
    ghost from_gives = { λ x r. r
        ≡ record {
          start_inclusive = range_inclusive_start x;
          end_inclusive = Some (range_inclusive_end x);
        } };

    #[inline(always)]
    fn from(range: ops::RangeInclusive<usize>) -> Range {
        let (start, end) = range.into_inner();
        Range {
            start_inclusive: start,
            end_inclusive: Some(end),
        }
    }
}

impl Display for Range {
    fn fmt<W: fmt::Write>(&self, f: &mut fmt::Formatter<W>) -> fmt::Result {
        Display::fmt(&self.start_inclusive, f)?;
        match self.end_inclusive {
            None => f.write_str(".."),
            Some(last) => {
                if last == self.start_inclusive {
                    return Ok(());
                }
                f.write_str("..=")?;
                Display::fmt(&last, f)
            }
        }
    }
}

impl Debug for Range {
    fn fmt<W: fmt::Write>(&self, f: &mut fmt::Formatter<W>) -> fmt::Result {
        Display::fmt(self, f)
    }
}
