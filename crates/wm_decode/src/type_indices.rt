//! The section of functions: the index of the type of each (Core 1.0, section 5.5.6).
ghost use Rattle.wm_decode.specs.Bounds.{profile};
ghost use Rattle.wm_decode.specs.Implements.{Implements};
ghost use Rattle.wm_decode.specs.ReadingParts.{indices_at};

use crate::bounds::MAX_FUNCTIONS;
use crate::fault::{FaultKind, ItemFault, Limit};
use crate::number::unsigned_32;
use crate::section::Content;
use crate::vectors::items;
use std::alloc::Global;
use wm_list::List;

/// The type indices of functions.
#[derive(Drop)]
pub(crate) struct TypeIndices;

impl Content for TypeIndices {
    type Value = List<u32>;

    ghost content_at = { λ _. indices_at profile };

    fn read<'a>(&self, alloc: Global, bytes: &'a [u8]) -> Result<(List<u32>, &'a [u8]), ItemFault> {
        indices(alloc, bytes)
    }
}

/// Reads no more type indices than functions are allowed.
#[tactic(auto, unfolding(crate::specs::ReadingParts::indices_at))]
fn indices(alloc: Global, bytes: &[u8]) -> Result<(List<u32>, &[u8]), ItemFault>
    ensures { Implements (λ x. (x.0, x.1.now)) result (indices_at profile bytes.now) }
{
    let (count, rest) = unsigned_32(bytes)?;
    if count > MAX_FUNCTIONS {
        return Err(ItemFault::WithLeft(FaultKind::Limit(Limit::Functions), bytes.len()));
    }
    items(alloc, count, rest)
}
