//! The trait of all machines.
ghost use Rattle.std.specs.Prelude.{◌≡◌, ◌↔◌, [], IsTrue};
ghost use Rattle.machines.specs.Grammar.{Grammar, HasEnded, Lawful, Passes};

/// A machine that recognizes the words of a language, in bytes that arrive in chunks.
///
/// A state stands for the bytes before it: its residual language has the words that complete them.
pub trait Machine {
    /// The state after some bytes.
    type State: Copy;

    // The language, by the residual language of each state.
    ghost grammar: { Self → Grammar Self.State };

    // The premise of each call: the next byte decides each choice.
    ghost sound: { Self → Type 0 };

    /// Returns the state before the first byte.
    fn start(&self) -> Self::State
        ensures { result ≡ (grammar self.now).start };

    /// Passes the longest prefix of `bytes` that some word continues, and returns the new state and
    /// the remaining bytes.
    fn pass<'i>(&self, at: Self::State, bytes: &'i [u8]) -> (Self::State, &'i [u8])
        requires { sound self.now }
        ensures { Passes (grammar self.now) at bytes.now result.0 result.1.now };

    /// Returns whether the passed bytes are a word.
    fn is_done(&self, at: Self::State) -> bool
        requires { sound self.now }
        ensures { IsTrue result ↔ (grammar self.now).residual at [] };

    /// Returns whether no longer word starts with the passed bytes.
    fn is_over(&self, at: Self::State) -> bool
        requires { sound self.now }
        ensures { HasEnded (grammar self.now) at result };

    ghost lawful: { (m : Self) → sound m → Lawful (grammar m) };
}
