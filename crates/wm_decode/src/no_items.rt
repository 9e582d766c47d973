//! The sections of tables and of elements, which are read without items (Core 1.0, sections 5.5.7 and 5.5.12).
ghost use Rattle.wm_decode.specs.Implements.{Implements};
ghost use Rattle.wm_decode.specs.ReadingParts.{no_items_at};

use crate::fault::{FaultKind, Feature, ItemFault};
use crate::number::unsigned_32;
use crate::section::Content;
use std::alloc::Global;

/// A vector with no items, of tables or of elements.
#[derive(Drop)]
pub(crate) struct NoItems;

impl Content for NoItems {
    type Value = u32;

    ghost content_at = { λ _. no_items_at };

    fn read<'a>(&self, _alloc: Global, bytes: &'a [u8]) -> Result<(u32, &'a [u8]), ItemFault> {
        no_items(bytes)
    }
}

/// Reads a count, which has to be 0.
#[tactic(auto, unfolding(crate::specs::ReadingParts::no_items_at))]
fn no_items(bytes: &[u8]) -> Result<(u32, &[u8]), ItemFault>
    ensures { Implements (λ x. (x.0, x.1.now)) result (no_items_at bytes.now) }
{
    let (count, rest) = unsigned_32(bytes)?;
    if count != 0 {
        return Err(ItemFault::WithLeft(FaultKind::Unsupported(Feature::Table), bytes.len()));
    }
    Ok((count, rest))
}
