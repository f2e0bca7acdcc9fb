//! Numerals, whose numbers a machine keeps in its state.
ghost use Rattle.std.specs.Prelude.{◌≡◌};
ghost use Rattle.machines.specs.Numbers.{AreNumerals, HasValue, Numerals, Reads};

/// Recognizes numerals in bytes that arrive in chunks. Its state has the number.
///
/// No numeral may be a proper prefix of another.
pub trait Number {
    /// The state after some bytes.
    type State: Copy;

    // The numerals of each number, by their residual languages.
    ghost numerals: { Self → Numerals Self.State };

    // The premise of each call: the next byte decides each choice.
    ghost sound: { Self → Type 0 };

    /// Returns the state before the first byte.
    fn start(&self) -> Self::State
        ensures { result ≡ (numerals self.now).start };

    /// Passes the longest prefix of `bytes` that some numeral continues, and returns the new state
    /// and the remaining bytes.
    fn pass<'i>(&self, at: Self::State, bytes: &'i [u8]) -> (Self::State, &'i [u8])
        requires { sound self.now }
        ensures { Reads (numerals self.now) at bytes.now result.0 result.1.now };

    /// Returns the number if the passed bytes are a numeral, and `None` otherwise.
    fn value(&self, at: Self::State) -> Option<usize>
        requires { sound self.now }
        ensures { HasValue (numerals self.now) at result };

    ghost lawful: { (m : Self) → sound m → AreNumerals (numerals m) };
}
