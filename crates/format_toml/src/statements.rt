//! The statements of lines, and lists without spare room.
ghost use Rattle.std.specs.Prelude.{◌≡◌, [], MatchResult};
ghost use Rattle.format_toml.specs.Statements.{has_statements, statements_kept, stated};

use std::alloc::{AllocError, Allocator};
use stream_sets::accumulate::Accumulate;

/// An accumulator of lines: it keeps the statements, and nothing of a line without one.
#[derive(Drop)]
pub struct Statements<O, A: Allocator> {
    /// The statements, in order.
    pub list: Vec<O, A>,
}

impl<O: Drop, A: Allocator> Accumulate<Option<O>, A> for Statements<O, A> {
    ghost accumulator = { statements_kept };

    ghost holds = { λ all lines. all.list.items ≡ stated lines };

    ghost gathers = { has_statements };

    ghost spares_memory = { ⊥ };

    ghost never_wants = { λ never. absurd never };

    #[inline(always)]
    fn initial(alloc: A, _capacity: Option<usize>) -> Result<Statements<O, A>, AllocError>
        ensures { MatchResult result (λ all. all.list.items ≡ []) (λ _. ⊥) }
    {
        Ok(Statements {
            list: Vec::new(alloc),
        })
    }

    #[inline(always)]
    fn accumulate(&mut self, output: Option<O>) -> Result<(), AllocError> {
        if let Some(statement) = output {
            self.list.push(statement)?;
        }
        Ok(())
    }
}

/// Returns a list without its spare room, if the allocator can shrink it.
pub fn exact<O, A: Allocator>(list: Vec<O, A>) -> Vec<O, A>
    ensures { result.items ≡ list.items }
{
    let mut list = list;
    list.shrink_to_fit();
    list
}
