//! Questions on tokens.
ghost use Rattle.std.specs.Prelude.{Bool};

/// A predicate on tokens, such as a closure.
///
/// It is used instead of a bound `Fn(Token) -> bool`.
pub trait TokenTest<T> {
    // The states in which it may be called for any token.
    ghost can_test: { Self → Type 0 };

    // The results that it may give.
    ghost answers: { Self → T → Bool → Type 0 };

    /// Returns whether the predicate is true for `token`.
    fn test(&self, token: T) -> bool
        requires { can_test self.now }
        ensures { answers self.now token result };
}

impl<T, F: Fn(T) -> bool> TokenTest<T> for F {
    ghost can_test = { F.IsAlwaysCallable };

    ghost answers = { λ f t b. F.post f t b };

    fn test(&self, token: T) -> bool {
        self(token)
    }
}
