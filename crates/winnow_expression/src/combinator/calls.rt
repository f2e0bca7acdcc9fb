//! Calls of an expression, and the operators that interrupt them.
ghost use Rattle.std.specs.Prelude.{◌≡◌, ◌≤◌, ◌≤ℤ◌, ◌<ℤ◌, ◌↔◌, IsTrue, IsFalse, OnErr, OnOk};
ghost use Rattle.std.specs.Prelude.{Some};
ghost use Rattle.std.specs.Prelude.{vec_capacity, vec_len};
ghost use Rattle.winnow_expression.specs.Calls.{Interrupts, call_of, calls_of, open_of};
ghost use Rattle.parser_definitions.specs.Expression.{call_at};
ghost use Rattle.winnow_expression.specs.Calls.{asked, greatest, with_infix};

use std::alloc::Allocator;

/// The operators that a call rejects, of those that are not below its `least`.
#[derive(Clone, Copy)]
pub enum Refuses {
    /// None of them.
    Nothing,
    /// An infix of this power: the last infix was a `Neither` of it.
    Neither(i64),
    /// All of them: the least power that it takes is one above the greatest.
    All,
}

/// A call: an expression, or the right operand of an operator.
///
/// It is copied with each operator that interrupts it, so it is kept small: the least power may be
/// one above the greatest `i64`, and what tells that has no field of its own.
#[derive(Clone, Copy)]
pub struct Call {
    /// The least power of its operators, if it takes any.
    pub least: i64,
    /// The number of units that remained where it began.
    pub began: usize,
    /// The number of units that remained where its present turn began.
    pub turn: usize,
    pub refuses: Refuses,
}

impl Call {
    /// A call that begins; it takes no operators where there is no least power.
    #[inline(always)]
    pub fn new(least: Option<i64>, units: usize) -> Call
        ensures { call_of result ≡ call_at (asked least) units }
    {
        match least {
            Some(least) => Call {
                least,
                began: units,
                turn: units,
                refuses: Refuses::Nothing,
            },
            None => Call {
                least: i64::MAX,
                began: units,
                turn: units,
                refuses: Refuses::All,
            },
        }
    }

    /// Whether operators of this power are too weak.
    #[inline(always)]
    pub fn is_above(&self, power: i64) -> bool
        ensures above { IsTrue result → power <ℤ (call_of self.now).least }
        ensures reached { IsFalse result → (call_of self.now).least ≤ℤ power }
    {
        if power < self.least {
            return true;
        }
        match self.refuses {
            Refuses::Nothing => false,
            Refuses::Neither(_) => false,
            Refuses::All => true,
        }
    }

    /// Whether the last infix was a `Neither` of this power.
    #[inline(always)]
    pub fn has_neither(&self, power: i64) -> bool
        ensures { IsTrue result ↔ ((call_of self.now).neither ≡ Some power) }
    {
        match self.refuses {
            Refuses::Nothing => false,
            Refuses::Neither(other) => other == power,
            Refuses::All => false,
        }
    }

    /// Returns the call after an infix that it took. The infix's turn began where `units` units
    /// remained. The call stores the power of an infix that is a `Neither`.
    #[inline(always)]
    pub fn behind(&self, units: usize, neither: Option<i64>) -> Call
        requires { (call_of self.now).least ≤ℤ greatest }
        ensures { call_of result ≡ with_infix (call_of self.now) units neither }
    {
        Call {
            turn: units,
            refuses: match neither {
                Some(power) => Refuses::Neither(power),
                None => Refuses::Nothing,
            },
            ..*self
        }
    }
}

/// An operator whose right operand is read next, with the left operand of an infix.
#[derive(Drop)]
pub enum Operator<O, F, H> {
    Prefix(F),
    Infix(O, H),
}

/// An operator whose right operand is read next, and the call that it interrupts.
#[derive(Drop)]
pub struct Open<O, F, H> {
    pub operator: Operator<O, F, H>,
    pub call: Call,
}

/// Opens an operator: a call of this least power begins for its right operand. It fails only where
/// the list of open operators is full and could not grow.
///
/// The call is not in one struct with the list, so that the compiler can keep it in registers.
#[inline(always)]
pub fn interrupt<O: Drop, F: Drop, H: Drop, A: Allocator>(
    call: &mut Call,
    operators: &mut Vec<Open<O, F, H>, A>,
    above: Open<O, F, H>,
    least: Option<i64>,
    units: usize,
) -> Result<(), ()>
    ensures opened { OnOk result
        (Interrupts (calls_of call.old operators.old.items) (open_of above) (asked least) units
        (calls_of call.new operators.new.items)) }
    ensures full { OnErr result (vec_capacity operators.old ≤ vec_len operators.old) }
{
    match operators.push(above) {
        Ok(()) => {
            *call = Call::new(least, units);
            Ok(())
        }
        Err(_) => Err(()),
    }
}
