//! Laws that follow from the contracts.
ghost use Rattle.std.specs.Prelude.{◌≡◌, ℕ, List, Option, Result};
ghost use Rattle.machines.specs.Grammar.{Scanned};

use crate::machine::Machine;

/// For given bytes, at most one result of [`advance`](crate::extent::advance) satisfies its clause:
/// a length, or that more bytes are needed, or an offset. This holds for every machine.
///
/// ```
/// use machines::laws::results_exclude_each_other;
/// use machines::sets::Byte;
///
/// results_exclude_each_other::<Byte>();
/// ```
pub fn results_exclude_each_other<M: Machine>()
    ensures { (m : M) (bytes : List ℕ) (one other : Result (Option ℕ) ℕ)
        → let g = M.grammar m in Scanned (g.residual g.start) bytes one
        → Scanned (g.residual g.start) bytes other → one ≡ other }
{}
