//! Vectors and names (Core 1.0, sections 5.1.3 and 5.2.4).
ghost use Rattle.wm_decode.specs.Implements.{Implements};
ghost use Rattle.wm_decode.specs.ReadingVectors.{vector_at, items_at, byte_vector_at, name_at};

use crate::fault::{FaultKind, ItemFault};
use crate::number::unsigned_32;
use std::alloc::Global;
use std::str::from_utf8;
use wm_list::{List, Text};

/// The items of a vector.
pub(crate) trait Item: Drop {
    ghost use Rattle.std.specs.Prelude.{List, ℕ, Result};
    ghost use Rattle.wm_decode.specs.Stop.{Stop};

    // The item at the front of the bytes, and the bytes after it.
    ghost item_at: { List ℕ → Result (Self × List ℕ) Stop };

    /// Reads the item at the front.
    fn read(alloc: Global, bytes: &[u8]) -> Result<(Self, &[u8]), ItemFault>
        ensures { Implements (λ x. (x.0, x.1.now)) result (item_at bytes.now) };
}

impl Item for u32 {
    ghost use Rattle.wm_decode.specs.ReadingVectors.{u32_at};

    ghost item_at = { u32_at };

    fn read(_alloc: Global, bytes: &[u8]) -> Result<(u32, &[u8]), ItemFault> {
        unsigned_32(bytes)
    }
}

/// Reads this number of items.
pub(crate) fn items<T: Item>(
    alloc: Global,
    count: u32,
    bytes: &[u8],
) -> Result<(List<T>, &[u8]), ItemFault>
    ensures { Implements (λ x. (x.0, x.1.now)) result (items_at T.item_at count bytes.now) }
{
    let mut found = List::new(alloc);
    let mut rest = bytes;
    for _ in 0..count {
        let (item, after) = T::read(alloc, rest)?;
        found.push(item)?;
        rest = after;
    }
    Ok((found, rest))
}

/// Reads a vector.
#[tactic(auto, unfolding(crate::specs::ReadingVectors::vector_at))]
pub(crate) fn vector<T: Item>(alloc: Global, bytes: &[u8]) -> Result<(List<T>, &[u8]), ItemFault>
    ensures { Implements (λ x. (x.0, x.1.now)) result (vector_at T.item_at bytes.now) }
{
    let (count, rest) = unsigned_32(bytes)?;
    items(alloc, count, rest)
}

/// Reads a vector of bytes. If bytes are missing, the fault is at the first missing one.
#[tactic(auto, unfolding(crate::specs::ReadingVectors::own_bytes_at))]
pub(crate) fn byte_vector(bytes: &[u8]) -> Result<(&[u8], &[u8]), ItemFault>
    ensures { Implements (λ x. (x.0.now, x.1.now)) result (byte_vector_at bytes.now) }
{
    let (count, rest) = unsigned_32(bytes)?;
    let count = count as usize;
    if rest.len() < count {
        return Err(ItemFault::WithLeft(FaultKind::Truncated, 0));
    }
    Ok(rest.split_at(count))
}

/// Reads a name. A fault of the name is at its length.
#[tactic(auto, unfolding(crate::specs::ReadingVectors::name_at))]
pub(crate) fn name(bytes: &[u8]) -> Result<(&str, &[u8]), ItemFault>
    ensures { Implements (λ x. (x.0.now, x.1.now)) result (name_at bytes.now) }
{
    let (text, rest) = match byte_vector(bytes) {
        Ok(found) => found,
        Err(fault) => return Err(fault.at(bytes.len())),
    };
    match from_utf8(text) {
        Ok(text) => Ok((text, rest)),
        Err(_) => Err(ItemFault::WithLeft(FaultKind::BadName, bytes.len())),
    }
}

/// Reads a name and copies it.
pub(crate) fn owned_name(alloc: Global, bytes: &[u8]) -> Result<(Text, &[u8]), ItemFault>
    ensures { Implements (λ x. (x.0, x.1.now)) result (name_at bytes.now) }
{
    let (name, rest) = name(bytes)?;
    Ok((Text::from_string(String::from_str(alloc, name)?), rest))
}
