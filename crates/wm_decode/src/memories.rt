//! The section of memories (Core 1.0, section 5.5.8).
ghost use Rattle.wm_decode.specs.Bounds.{profile};
ghost use Rattle.wm_decode.specs.Implements.{Implements};
ghost use Rattle.wm_decode.specs.ReadingParts.{memories_at};

use crate::fault::{FaultKind, Feature, ItemFault};
use crate::number::unsigned_32;
use crate::section::Content;
use crate::types::limits;
use std::alloc::Global;
use wm_ast::Limits;

/// At most one memory, and none if one was imported.
#[derive(Drop)]
pub(crate) struct Memories {
    pub(crate) imported: bool,
}

impl Content for Memories {
    type Value = Option<Limits>;

    ghost content_at = { λ context. memories_at profile context.imported };

    fn read<'a>(
        &self,
        _alloc: Global,
        bytes: &'a [u8],
    ) -> Result<(Option<Limits>, &'a [u8]), ItemFault> {
        at_most_one_memory(self.imported, bytes)
    }
}

/// Reads at most one memory, and none if one was imported.
#[tactic(auto, unfolding(crate::specs::ReadingParts::memories_at))]
fn at_most_one_memory(imported: bool, bytes: &[u8]) -> Result<(Option<Limits>, &[u8]), ItemFault>
    ensures { Implements (λ x. (x.0, x.1.now)) result (memories_at profile imported bytes.now) }
{
    let (count, rest) = unsigned_32(bytes)?;
    if count == 0 {
        return Ok((None, rest));
    }
    if imported || count != 1 {
        return Err(ItemFault::WithLeft(
            FaultKind::Unsupported(Feature::SeveralMemories),
            bytes.len(),
        ));
    }
    let (limits, rest) = limits(rest)?;
    Ok((Some(limits), rest))
}
