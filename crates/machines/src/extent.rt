//! The driver: how far a machine passes the bytes that have arrived.
ghost use Rattle.std.specs.Prelude.{◌++◌, ℕ, List};
ghost use Rattle.machines.specs.Grammar.{Scanned};
ghost use Rattle.machines.specs.Extents.{IsExtentOf, Reports};

use crate::machine::Machine;

/// The number of bytes that a machine has passed, and its state after them.
#[derive(Clone, Copy)]
pub struct Extent<S> {
    pub passed: usize,
    pub state: S,
}

#[inline(always)]
fn report<M: Machine>(
    machine: &M,
    state: M::State,
    passed: usize,
    left: &[u8],
) -> Result<Option<usize>, usize>
    requires { M.sound machine.now }
    ensures { Reports (M.grammar machine.now) state passed left.now result }
{
    if left.is_empty() {
        if machine.is_over(state) {
            return Ok(Some(passed));
        }
        return Ok(None);
    }
    if machine.is_done(state) {
        return Ok(Some(passed));
    }
    Err(passed)
}

/// Returns the extent before the first byte. It is one of all bytes.
#[inline(always)]
pub fn begin<M: Machine>(machine: &M) -> Extent<M::State>
    ensures { (bytes : List ℕ) → IsExtentOf (M.grammar machine.now) result bytes }
{
    Extent {
        passed: 0,
        state: machine.start(),
    }
}

/// Passes the bytes that have arrived since the last call, and returns the length in bytes of the
/// longest word at the start of `bytes`. Returns `Ok(None)` if more bytes are needed: some longer
/// input is a word.
///
/// `bytes` must be all bytes from the first on: those of the last call, and maybe more.
///
/// # Errors
///
/// The offset of the first byte with which no word starts. The bytes before it are not a word, and
/// some word starts with them.
///
/// ```
/// use machines::extent::{advance, begin};
/// use machines::seq::Seq;
/// use machines::sets::Byte;
///
/// let machine = Seq(Byte(b'\r'), Byte(b'\n'));
/// let mut extent = begin(&machine);
/// assert_eq!(rt; advance(&machine, &mut extent, b"\r".as_slice()), Ok(None));
/// assert_eq!(rt; advance(&machine, &mut extent, b"\r\nGET".as_slice()), Ok(Some(2)));
/// ```
#[inline(always)]
pub fn advance<M: Machine>(
    machine: &M,
    extent: &mut Extent<M::State>,
    bytes: &[u8],
) -> Result<Option<usize>, usize>
    requires { M.sound machine.now }
    ensures scanned { let g = M.grammar machine.now in IsExtentOf g extent.old bytes.now
        → Scanned (g.residual g.start) bytes.now result }
    ensures kept { IsExtentOf (M.grammar machine.now) extent.old bytes.now
        → (more : List ℕ) → IsExtentOf (M.grammar machine.now) extent.new (bytes.now ++ more) }
{
    match bytes.get(extent.passed..) {
        None => Ok(None),
        Some(fresh) => {
            let (state, left) = machine.pass(extent.state, fresh);
            let passed = bytes.len() - left.len();
            *extent = Extent { passed, state };
            report(machine, state, passed, left)
        }
    }
}
