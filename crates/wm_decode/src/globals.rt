//! The section of globals (Core 1.0, section 5.5.9).
ghost use Rattle.wm_decode.specs.Implements.{Implements};
ghost use Rattle.wm_decode.specs.ReadingVectors.{vector_at};
ghost use Rattle.wm_decode.specs.ReadingParts.{mutability_at, global_at};

use crate::fault::{FaultKind, ItemFault};
use crate::initial_values::initial;
use crate::section::Content;
use crate::vectors::{Item, vector};
use std::alloc::Global;
use wm_ast::{Global as GlobalEntry, Mutability, ValType};
use wm_list::List;

/// Reads whether a global may be set.
#[tactic(auto, unfolding(crate::specs::ReadingParts::mutability_at))]
fn mutability(bytes: &[u8]) -> Result<(Mutability, &[u8]), ItemFault>
    ensures { Implements (λ x. (x.0, x.1.now)) result (mutability_at bytes.now) }
{
    match bytes {
        [] => Err(ItemFault::WithLeft(FaultKind::Truncated, 0)),
        [0x00, rest @ ..] => Ok((Mutability::Constant, rest)),
        [0x01, rest @ ..] => Ok((Mutability::Variable, rest)),
        [_, ..] => Err(ItemFault::WithLeft(FaultKind::BadNumber, bytes.len())),
    }
}

impl Item for GlobalEntry {
    ghost item_at = { global_at };

    #[tactic(auto, unfolding(crate::specs::ReadingParts::global_at))]
    fn read(alloc: Global, bytes: &[u8]) -> Result<(GlobalEntry, &[u8]), ItemFault> {
        let (ty, rest) = ValType::read(alloc, bytes)?;
        let (mutability, rest) = mutability(rest)?;
        let (init, rest) = initial(rest)?;
        let global = GlobalEntry {
            ty,
            mutability,
            init,
        };
        Ok((global, rest))
    }
}

/// Globals.
#[derive(Drop)]
pub(crate) struct Globals;

impl Content for Globals {
    type Value = List<GlobalEntry>;

    ghost content_at = { λ _. vector_at global_at };

    fn read<'a>(
        &self,
        alloc: Global,
        bytes: &'a [u8],
    ) -> Result<(List<GlobalEntry>, &'a [u8]), ItemFault> {
        vector(alloc, bytes)
    }
}
