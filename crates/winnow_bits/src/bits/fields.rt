//! Helper functions of `take` and `pattern`.
#![tactic(auto, using(streams::specs::Ends::ends_follow))]

ghost use Rattle.parser_definitions.specs.BitTake.{BitTakeDoes};
ghost use Rattle.parser_definitions.specs.Does.{Ran};
ghost use Rattle.std.specs.Prelude.{◌≡◌, ◌<◌, ◌≤◌, ◌+◌, length, true};
ghost use Rattle.stream_bits.specs.BitReading.{bits_reading};
ghost use Rattle.stream_bits.specs.Within.{ReadsNumber};
ghost use Rattle.stream_errors.specs.Form.{answer_by};

use crate::bits::output::BitOutput;
use stream_bits::bits::Bits;
use stream_errors::parser_error::ParserError;
use streams::byte_stream::ByteStream;
use streams::needed::Needed;
use streams::stream::{Stream, StreamIsPartial};
use winnow_core::short::short;

/// Takes the next `count` bits, which are in one byte, as a number.
#[inline(always)]
fn take_within_byte<I: ByteStream, O: BitOutput>(input: &mut Bits<I>, count: usize) -> O
    requires possible { (⟦<Bits<I> as Stream>⟧.view input.old).left.possible ≡ true }
    requires there { count ≤ length (⟦<Bits<I> as Stream>⟧.view input.old).left.tokens }
    requires fits { count ≤ O.WIDTH }
    requires some { 0 < count }
    requires within { input.old.1 + count ≤ 8 }
    ensures { ReadsNumber (bits_reading I.reading) count (⟦<Bits<I> as Stream>⟧.view input.old)
        (O.number result) (⟦<Bits<I> as Stream>⟧.view input.new) }
{
    let number = O::default();
    match input.next_of_byte(count) {
        Some(bits) => number.push_bits(bits, count),
        None => number,
    }
}

/// Takes the next `count` bits, which start in one byte and end in the next, as a number.
#[inline(always)]
fn take_of_two_bytes<I: ByteStream, O: BitOutput>(input: &mut Bits<I>, count: usize) -> O
    requires possible { (⟦<Bits<I> as Stream>⟧.view input.old).left.possible ≡ true }
    requires there { count ≤ length (⟦<Bits<I> as Stream>⟧.view input.old).left.tokens }
    requires fits { count ≤ O.WIDTH }
    requires across { 8 < input.old.1 + count }
    requires within { input.old.1 + count ≤ 16 }
    ensures { ReadsNumber (bits_reading I.reading) count (⟦<Bits<I> as Stream>⟧.view input.old)
        (O.number result) (⟦<Bits<I> as Stream>⟧.view input.new) }
{
    let here = 8 - input.1;
    let missing = count - here;
    let number: O = take_within_byte(input, here);
    match input.next_of_byte(missing) {
        Some(bits) => number.push_bits(bits, missing),
        None => number,
    }
}

/// Takes the next `count` bits, which start in one byte and end in a later one, as a number: the
/// rest of the first byte, whole bytes, and the bits of the last byte. Every iteration of the loop
/// takes the same number of bits, so that the compiler folds constant counts and unrolls the loop.
#[inline(always)]
fn take_across_bytes<I: ByteStream, O: BitOutput>(input: &mut Bits<I>, count: usize) -> O
    requires possible { (⟦<Bits<I> as Stream>⟧.view input.old).left.possible ≡ true }
    requires there { count ≤ length (⟦<Bits<I> as Stream>⟧.view input.old).left.tokens }
    requires fits { count ≤ O.WIDTH }
    requires across { 8 < input.old.1 + count }
    ensures { ReadsNumber (bits_reading I.reading) count (⟦<Bits<I> as Stream>⟧.view input.old)
        (O.number result) (⟦<Bits<I> as Stream>⟧.view input.new) }
{
    let here = 8 - input.1;
    let mut number: O = take_within_byte(input, here);
    let mut missing = count - here;
    while 8 <= missing {
        match input.next_of_byte(8) {
            Some(bits) => {
                number = number.push_bits(bits, 8);
                missing -= 8;
            }
            None => {
                return number;
            }
        }
    }
    if missing == 0 {
        return number;
    }
    match input.next_of_byte(missing) {
        Some(bits) => number.push_bits(bits, missing),
        None => number,
    }
}

/// Takes the next `count` bits as a number. Bits of one or two bytes need no loop, so that the
/// compiler folds constant counts.
#[inline(always)]
fn take_number<I: ByteStream, O: BitOutput>(input: &mut Bits<I>, count: usize) -> O
    requires possible { (⟦<Bits<I> as Stream>⟧.view input.old).left.possible ≡ true }
    requires there { count ≤ length (⟦<Bits<I> as Stream>⟧.view input.old).left.tokens }
    requires fits { count ≤ O.WIDTH }
    requires some { 0 < count }
    ensures { ReadsNumber (bits_reading I.reading) count (⟦<Bits<I> as Stream>⟧.view input.old)
        (O.number result) (⟦<Bits<I> as Stream>⟧.view input.new) }
{
    let here = 8 - input.1;
    if count <= here {
        take_within_byte(input, count)
    } else if count <= here + 8 {
        take_of_two_bytes(input, count)
    } else {
        take_across_bytes(input, count)
    }
}

/// Takes `count` bits, as a number.
#[inline(always)]
pub(crate) fn take_counted<I: ByteStream + StreamIsPartial, O: BitOutput, E: ParserError<Bits<I>>>(
    input: &mut Bits<I>,
    count: usize,
) -> Result<O, E>
    ensures { Ran (bits_reading I.reading) (BitTakeDoes O.number O.WIDTH (bits_reading I.reading))
        E.form count (⟦<Bits<I> as Stream>⟧.view input.old) (answer_by E.kind result) count
        (⟦<Bits<I> as Stream>⟧.view input.new) }
{
    if count == 0 {
        return Ok(O::default());
    }
    if O::WIDTH < count {
        return Err(E::assert(input, "the output holds fewer bits"));
    }
    if input.has(count) {
        return Ok(take_number(input, count));
    }
    if !input.is_possible() {
        return Err(E::assert(input, "bits that cannot be read"));
    }
    Err(short(input, Needed::new(count)))
}
