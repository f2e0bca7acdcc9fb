//! The first offset at which bytes occur in bytes.
ghost use Rattle.std.specs.Prelude.{◌≤◌, ◌<◌, length, MatchBool};
ghost use Rattle.memchr.specs.Find.{FindsNeedle, IsFirst, OccursAt, Passes, is_byte};

use memchr::{memchr, memmem};

// The greatest length at which a search by `memmem` is set up in little time.
const SHORT: usize = 32;

// The number of offsets of the first byte that are tried before a search that must be set up.
// Trying them takes about the time of that setup. Since their number is bounded, a search is linear
// in the text.
const SHORT_TRIES: usize = 3;

// The same for a literal of more bytes.
const LONG_TRIES: usize = 8;

/// Returns the first offset at which the literal occurs. Tries the first few offsets of its first
/// byte, one by one.
#[inline(always)]
pub(crate) fn first_place(all: &[u8], literal: &[u8]) -> Option<usize>
    ensures { FindsNeedle all.now literal.now 0 result }
{
    if literal.len() == 0 {
        return Some(0);
    }
    if literal.len() == 1 {
        return next_byte(all, 0, literal[0]);
    }
    let tries = if literal.len() > SHORT {
        LONG_TRIES
    } else {
        SHORT_TRIES
    };
    let mut start = 0;
    for _ in 0..tries {
        match next_byte(all, start, literal[0]) {
            None => return None,
            Some(at) => {
                if stands_at(all, at, literal) {
                    return Some(at);
                }
                start = at + 1;
            }
        }
    }
    further_place(all, start, literal)
}

/// The first place from `start` on, after tries that failed.
#[inline(never)]
fn further_place(all: &[u8], start: usize, literal: &[u8]) -> Option<usize>
    requires { start ≤ length all.now }
    ensures { FindsNeedle all.now literal.now start result }
{
    if literal.len() > SHORT {
        long_place(all, start, literal)
    } else {
        next_place(all, start, literal)
    }
}

/// The same for a long literal: from one place of its first bytes to the next, for the first few
/// of them.
fn long_place(all: &[u8], start: usize, literal: &[u8]) -> Option<usize>
    requires within { start ≤ length all.now }
    requires long { 32 < length literal.now }
    ensures { FindsNeedle all.now literal.now start result }
{
    let mut from = start;
    for _ in 0..SHORT_TRIES {
        match next_place(all, from, &literal[..SHORT]) {
            None => return None,
            Some(at) => {
                if stands_at(all, at, literal) {
                    return Some(at);
                }
                from = at + 1;
            }
        }
    }
    next_place(all, from, literal)
}

/// Returns the first offset from `start` on at which the byte occurs.
#[inline(always)]
fn next_byte(all: &[u8], start: usize, byte: u8) -> Option<usize>
    requires { start ≤ length all.now }
    ensures { IsFirst (Passes (is_byte byte) all.now) start (length all.now) result }
{
    match memchr(byte, &all[start..]) {
        None => None,
        Some(at) => Some(start + at),
    }
}

/// Returns the first offset from `start` on at which the literal occurs, by `memmem`.
#[inline(always)]
fn next_place(all: &[u8], start: usize, literal: &[u8]) -> Option<usize>
    requires { start ≤ length all.now }
    ensures { FindsNeedle all.now literal.now start result }
{
    match memmem::find(&all[start..], literal) {
        None => None,
        Some(at) => Some(start + at),
    }
}

/// Returns whether the literal occurs at the offset `at`.
#[inline(always)]
fn stands_at(all: &[u8], at: usize, literal: &[u8]) -> bool
    requires { at ≤ length all.now }
    ensures { MatchBool result (OccursAt all.now literal.now at)
        (OccursAt all.now literal.now at → ⊥) }
{
    all[at..].starts_with(literal)
}
