//! The section of imports (Core 1.0, section 5.5.5): at most one, which is the memory.
ghost use Rattle.std.specs.Prelude.{◌≡◌};
ghost use Rattle.wm_decode.specs.Faults.{import_kind_fault};
ghost use Rattle.wm_decode.specs.Bounds.{profile};
ghost use Rattle.wm_decode.specs.Implements.{Fails, Implements};
ghost use Rattle.wm_decode.specs.ReadingParts.{import_at, imports_at, second_import_at};

use crate::fault::{FaultKind, Feature, ItemFault};
use crate::number::unsigned_32;
use crate::section::Content;
use crate::types::limits;
use crate::vectors::{name, owned_name};
use std::alloc::Global;
use wm_ast::{ImportName, Memory};

/// Why a byte is not a supported kind of import.
fn import_kind_fault(byte: u8) -> FaultKind
    ensures { result ≡ import_kind_fault byte }
{
    match byte {
        0x00 | 0x01 | 0x03 => FaultKind::Unsupported(Feature::Import),
        _ => FaultKind::BadNumber,
    }
}

/// Reads an import, which is a memory.
#[tactic(auto, unfolding(crate::specs::ReadingParts::import_at))]
fn import(alloc: Global, bytes: &[u8]) -> Result<(Memory, &[u8]), ItemFault>
    ensures { Implements (λ x. (x.0, x.1.now)) result (import_at profile bytes.now) }
{
    let (module, rest) = owned_name(alloc, bytes)?;
    let (name, rest) = owned_name(alloc, rest)?;
    let rest = match rest {
        [] => return Err(ItemFault::WithLeft(FaultKind::Truncated, 0)),
        [0x02, after @ ..] => after,
        [byte, ..] => return Err(ItemFault::WithLeft(import_kind_fault(*byte), rest.len())),
    };
    let (limits, rest) = limits(rest)?;
    let import = Some(ImportName { module, name });
    Ok((Memory { limits, import }, rest))
}

/// Why an import after a memory can't be read: a second memory is one too many.
#[tactic(auto, unfolding(crate::specs::ReadingParts::second_import_at))]
fn second_import_fault(bytes: &[u8]) -> ItemFault
    ensures { Fails result (second_import_at bytes.now) }
{
    let rest = match name(bytes) {
        Ok((_, rest)) => rest,
        Err(fault) => return fault,
    };
    let left = match name(rest) {
        Ok((_, left)) => left,
        Err(fault) => return fault,
    };
    match left {
        [] => ItemFault::WithLeft(FaultKind::Truncated, 0),
        [0x02, ..] => ItemFault::WithLeft(
            FaultKind::Unsupported(Feature::SeveralMemories),
            left.len(),
        ),
        [byte, ..] => ItemFault::WithLeft(import_kind_fault(*byte), left.len()),
    }
}

/// At most one import.
#[derive(Drop)]
pub(crate) struct Imports;

impl Content for Imports {
    type Value = Option<Memory>;

    ghost content_at = { λ _. imports_at profile };

    fn read<'a>(
        &self,
        alloc: Global,
        bytes: &'a [u8],
    ) -> Result<(Option<Memory>, &'a [u8]), ItemFault> {
        at_most_one_import(alloc, bytes)
    }
}

/// Reads at most one import.
#[tactic(auto, unfolding(crate::specs::ReadingParts::imports_at))]
fn at_most_one_import(alloc: Global, bytes: &[u8]) -> Result<(Option<Memory>, &[u8]), ItemFault>
    ensures { Implements (λ x. (x.0, x.1.now)) result (imports_at profile bytes.now) }
{
    let (count, rest) = unsigned_32(bytes)?;
    if count == 0 {
        return Ok((None, rest));
    }
    let (memory, rest) = import(alloc, rest)?;
    if count != 1 {
        return Err(second_import_fault(rest));
    }
    Ok((Some(memory), rest))
}
