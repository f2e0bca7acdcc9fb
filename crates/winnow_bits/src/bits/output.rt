//! Numbers that bits are taken as.
ghost use Rattle.std.specs.Prelude.{◌≡◌, ◌+◌, ◌*◌, ◌^◌, ◌<◌, ◌≤◌, ◌↔◌, ℕ, true};
ghost use Rattle.std.proofs.Common.{eqb-true, eq-eqb};
ghost use Rattle.stream_bits.specs.BitList.{bit_number};

/// The unsigned numbers that [`take`](crate::bits::take) and [`pattern`](crate::bits::pattern)
/// return.
///
/// ```
/// use winnow::binary::bits::BitOutput;
///
/// assert_eq!(rt; 2_u8.push_bit(true), 5);
/// assert_eq!(rt; 2_u8.push_bits(3, 4), 35);
/// ```
pub trait BitOutput: Copy + Default + PartialEq {
    // The number of a value.
    ghost number: { Self → ℕ };

    // How many bits a value holds.
    ghost WIDTH: { ℕ };

    /// How many bits a value holds.
    const WIDTH: usize;

    /// Returns twice the number, plus the bit. The result must fit.
    fn push_bit(self, bit: bool) -> Self
        requires fits { 2 * number self + bit_number bit < 2 ^ WIDTH }
        ensures { number result ≡ 2 * number self + bit_number bit };

    /// Appends `count` bits to the number, like `count` calls of `push_bit`. `count` must be at
    /// most 8, `bits` must have at most `count` bits, and the result must fit.
    fn push_bits(self, bits: u8, count: usize) -> Self
        requires few { count ≤ 8 }
        requires below { bits < 2 ^ count }
        requires fits { number self * 2 ^ count + bits < 2 ^ WIDTH }
        ensures { number result ≡ number self * 2 ^ count + bits };

    // The default is 0.
    ghost starts_at_zero: { (n : Self) → Self.is_default n → number n ≡ 0 };

    // Values are equal where their numbers are.
    ghost same_number: { (m n : Self) → (Self.eq m n ≡ true) ↔ (number m ≡ number n) };
}

impl BitOutput for u8 {
    ghost number = { λ n. n };

    ghost WIDTH = { 8 };

    const WIDTH: usize = 8;

    #[inline(always)]
    fn push_bit(self, bit: bool) -> u8 {
        2 * self + bit as u8
    }

    #[inline(always)]
    fn push_bits(self, bits: u8, count: usize) -> u8 {
        (((self as u16) << count) + bits as u16) as u8
    }

    ghost starts_at_zero = { λ n zero. zero };

    ghost same_number = { λ m n. (eqb-true m n, eq-eqb m n) };
}

impl BitOutput for u16 {
    ghost number = { λ n. n };

    ghost WIDTH = { 16 };

    const WIDTH: usize = 16;

    #[inline(always)]
    fn push_bit(self, bit: bool) -> u16 {
        2 * self + bit as u16
    }

    #[inline(always)]
    fn push_bits(self, bits: u8, count: usize) -> u16 {
        (self << count) + bits as u16
    }

    ghost starts_at_zero = { λ n zero. zero };

    ghost same_number = { λ m n. (eqb-true m n, eq-eqb m n) };
}

impl BitOutput for u32 {
    ghost number = { λ n. n };

    ghost WIDTH = { 32 };

    const WIDTH: usize = 32;

    #[inline(always)]
    fn push_bit(self, bit: bool) -> u32 {
        2 * self + bit as u32
    }

    #[inline(always)]
    fn push_bits(self, bits: u8, count: usize) -> u32 {
        (self << count) + bits as u32
    }

    ghost starts_at_zero = { λ n zero. zero };

    ghost same_number = { λ m n. (eqb-true m n, eq-eqb m n) };
}

impl BitOutput for u64 {
    ghost number = { λ n. n };

    ghost WIDTH = { 64 };

    const WIDTH: usize = 64;

    #[inline(always)]
    fn push_bit(self, bit: bool) -> u64 {
        2 * self + bit as u64
    }

    #[inline(always)]
    fn push_bits(self, bits: u8, count: usize) -> u64 {
        (self << count) + bits as u64
    }

    ghost starts_at_zero = { λ n zero. zero };

    ghost same_number = { λ m n. (eqb-true m n, eq-eqb m n) };
}

impl BitOutput for u128 {
    ghost number = { λ n. n };

    ghost WIDTH = { 128 };

    const WIDTH: usize = 128;

    #[inline(always)]
    fn push_bit(self, bit: bool) -> u128 {
        2 * self + bit as u128
    }

    #[inline(always)]
    fn push_bits(self, bits: u8, count: usize) -> u128 {
        (self << count) + bits as u128
    }

    ghost starts_at_zero = { λ n zero. zero };

    ghost same_number = { λ m n. (eqb-true m n, eq-eqb m n) };
}

impl BitOutput for usize {
    ghost number = { λ n. n };

    ghost WIDTH = { 64 };

    const WIDTH: usize = 64;

    #[inline(always)]
    fn push_bit(self, bit: bool) -> usize {
        2 * self + bit as usize
    }

    #[inline(always)]
    fn push_bits(self, bits: u8, count: usize) -> usize {
        (self << count) + bits as usize
    }

    ghost starts_at_zero = { λ n zero. zero };

    ghost same_number = { λ m n. (eqb-true m n, eq-eqb m n) };
}
