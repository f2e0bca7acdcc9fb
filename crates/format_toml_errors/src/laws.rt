//! A law that follows from the definitions.
ghost use Rattle.format_toml_errors.specs.Stop.{IsCompletable, MayBegin};
ghost use Rattle.std.specs.Prelude.{ℕ, List};

/// Characters that the walk of [`first_stop`](crate::walk::first_stop) accepts at a level begin a
/// text that it accepts at this level. So the walk never gets to where nothing leads to an end.
///
/// ```
/// use format_toml_errors::laws::each_prefix_is_completable;
///
/// each_prefix_is_completable();
/// ```
pub fn each_prefix_is_completable()
    ensures { (level : ℕ) (front : List ℕ) → MayBegin level front → IsCompletable level front }
{}
