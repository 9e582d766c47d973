//! The section of exports (Core 1.0, section 5.5.10).
ghost use Rattle.std.specs.Prelude.{◌≡◌, [], None, IfOk};
ghost use Rattle.wm_ast.specs.Exports.{export_at};
ghost use Rattle.wm_decode.specs.Implements.{Implements};
ghost use Rattle.wm_decode.specs.ReadingVectors.{more_at};
ghost use Rattle.wm_decode.specs.ReadingParts.{export_kind_at, export_entry_at, exports_at, export_step};

use crate::fault::{FaultKind, Feature, ItemFault};
use crate::number::unsigned_32;
use crate::section::Content;
use crate::vectors::name;
use std::alloc::Global;
use wm_ast::{Export, ExportKind, Exports};

/// Reads what an export names.
#[tactic(auto, unfolding(crate::specs::ReadingParts::export_kind_at))]
fn export_kind(bytes: &[u8]) -> Result<(ExportKind, &[u8]), ItemFault>
    ensures { Implements (λ x. (x.0, x.1.now)) result (export_kind_at bytes.now) }
{
    match bytes {
        [] => Err(ItemFault::WithLeft(FaultKind::Truncated, 0)),
        [0x00, rest @ ..] => Ok((ExportKind::Func, rest)),
        [0x02, rest @ ..] => Ok((ExportKind::Memory, rest)),
        [0x03, rest @ ..] => Ok((ExportKind::Global, rest)),
        [0x01, ..] => Err(ItemFault::WithLeft(FaultKind::Unsupported(Feature::Table), bytes.len())),
        [_, ..] => Err(ItemFault::WithLeft(FaultKind::BadNumber, bytes.len())),
    }
}

/// Reads an export whose name differs from all earlier ones.
#[tactic(auto, unfolding(crate::specs::ReadingParts::export_entry_at))]
fn export_entry<'a>(
    earlier: &Exports,
    bytes: &'a [u8],
) -> Result<(&'a str, Export, &'a [u8]), ItemFault>
    ensures read { Implements (λ x. ((x.0.now, x.1), x.2.now)) result (export_entry_at earlier.now bytes.now) }
    ensures is_new { IfOk result (λ x. export_at x.0.now earlier.now ≡ None) }
{
    let (name, rest) = name(bytes)?;
    if earlier.get(name).is_some() {
        return Err(ItemFault::WithLeft(FaultKind::DuplicateExport, bytes.len()));
    }
    let (kind, rest) = export_kind(rest)?;
    let (index, rest) = unsigned_32(rest)?;
    Ok((name, Export { kind, index }, rest))
}

/// Exports by name.
#[derive(Drop)]
pub(crate) struct ExportNames;

impl Content for ExportNames {
    type Value = Exports;

    ghost content_at = { λ _. exports_at };

    fn read<'a>(&self, alloc: Global, bytes: &'a [u8]) -> Result<(Exports, &'a [u8]), ItemFault> {
        export_vector(alloc, bytes)
    }
}

/// Reads a vector of exports.
#[tactic(auto, unfolding(crate::specs::ReadingParts::exports_at))]
fn export_vector(alloc: Global, bytes: &[u8]) -> Result<(Exports, &[u8]), ItemFault>
    ensures { Implements (λ x. (x.0, x.1.now)) result (exports_at bytes.now) }
{
    let (count, rest) = unsigned_32(bytes)?;
    more_exports(alloc, count, rest)
}

/// Reads this number of exports.
fn more_exports(alloc: Global, count: u32, bytes: &[u8]) -> Result<(Exports, &[u8]), ItemFault>
    ensures { Implements (λ x. (x.0, x.1.now)) result (more_at export_step count [] bytes.now) }
{
    let mut found = Exports::new(alloc);
    let mut rest = bytes;
    for _ in 0..count {
        let (name, export, after) = export_entry(&found, rest)?;
        found.push(String::from_str(alloc, name)?, export)?;
        rest = after;
    }
    Ok((found, rest))
}
