//! How far bytes were searched for the end of a reply, as numbers that a caller keeps.

ghost use Rattle.std.specs.Prelude.{◌≡◌, ◌++◌, [], List, ℕ};
ghost use Rattle.exported.specs.Extent.{CallsInTurn, extent_of, nothing};
ghost use Rattle.exported.specs.Turns.{all_of};
ghost use Rattle.exported.specs.declared.resp.RespReplyState.{RespReplyState};
ghost use Rattle.format_resp.specs.Extents.{IsExtentOf};
ghost use Rattle.format_resp.specs.declared.reply.Protocol.{Protocol};

use crate::resp::RespReplyState;
use format_resp::extent::{Bulk, Extent};

/// How many numbers a word has.
const WORD: u128 = 18446744073709551616;

/// Returns the extent that `state` represents; `state` may be all zeros.
pub(crate) fn extent_at(state: RespReplyState) -> Extent
    ensures { result ≡ extent_of state }
{
    let bulk = match state.due {
        0 => {
            return Extent {
                passed: 0,
                sought: 0,
                bulk: None,
                replies: 1,
            };
        }
        1 => None,
        2 => Some(Bulk {
            size: state.bulk,
            verbatim: false,
        }),
        _ => Some(Bulk {
            size: state.bulk,
            verbatim: true,
        }),
    };
    Extent {
        passed: state.passed,
        sought: state.sought,
        bulk,
        replies: state.low as u128 + WORD * state.high as u128,
    }
}

/// Returns the corresponding state.
pub(crate) fn state_at(extent: Extent) -> RespReplyState
    ensures { extent_of result ≡ extent }
{
    let (due, bulk) = match extent.bulk {
        None => (1, 0),
        Some(bulk) => (if bulk.verbatim { 3 } else { 2 }, bulk.size),
    };
    RespReplyState {
        due,
        passed: extent.passed,
        sought: extent.sought,
        bulk,
        low: (extent.replies % WORD) as usize,
        high: (extent.replies / WORD) as usize,
    }
}

/// States that successive calls of `exported_resp_extent` give the result of one call. The first
/// call starts with zeros, and each further call has the state that the previous one left, and its
/// bytes followed by another chunk. If all calls return `INCOMPLETE`, the last state is a state of
/// these bytes, regardless of what follows. So the next call returns the result that a call with
/// zeros returns for all of its bytes.
pub fn calls_in_turn_are_of_their_bytes()
    ensures { (protocol : Protocol) (pieces : List (List ℕ)) (state : RespReplyState)
        → CallsInTurn protocol nothing [] pieces state
        → (more : List ℕ) → IsExtentOf protocol (extent_of state) (all_of pieces ++ more) }
{}
