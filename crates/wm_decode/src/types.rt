//! Types (Core 1.0, section 5.3; threads proposal, "Limits").
ghost use Rattle.std.specs.Prelude.{◌≡◌};
ghost use Rattle.wm_decode.specs.Faults.{value_type_fault};
ghost use Rattle.wm_decode.specs.Bounds.{profile};
ghost use Rattle.wm_decode.specs.Implements.{Implements};
ghost use Rattle.wm_decode.specs.ReadingInstructions.{value_type_at};
ghost use Rattle.wm_decode.specs.ReadingParts.{func_type_at, result_at, limits_at};

use crate::bounds::MAX_INITIAL_PAGES;
use crate::fault::{FaultKind, Feature, ItemFault, Limit};
use crate::number::unsigned_32;
use crate::vectors::{Item, vector};
use std::alloc::Global;
use wm_ast::{FuncType, Limits, ValType};

/// Why a byte is not a value type.
pub(crate) fn value_type_fault(byte: u8) -> FaultKind
    ensures { result ≡ value_type_fault byte }
{
    match byte {
        0x7D | 0x7C => FaultKind::Unsupported(Feature::Floats),
        0x7B => FaultKind::Unsupported(Feature::Simd),
        0x70 | 0x6F => FaultKind::Unsupported(Feature::References),
        _ => FaultKind::BadNumber,
    }
}

impl Item for ValType {
    ghost item_at = { value_type_at };

    #[tactic(auto, unfolding(crate::specs::ReadingInstructions::value_type_at))]
    fn read(_alloc: Global, bytes: &[u8]) -> Result<(ValType, &[u8]), ItemFault> {
        match bytes {
            [] => Err(ItemFault::WithLeft(FaultKind::Truncated, 0)),
            [0x7F, rest @ ..] => Ok((ValType::I32, rest)),
            [0x7E, rest @ ..] => Ok((ValType::I64, rest)),
            [byte, ..] => Err(ItemFault::WithLeft(value_type_fault(*byte), bytes.len())),
        }
    }
}

/// Reads at most one result.
#[tactic(auto, unfolding(crate::specs::ReadingParts::result_at))]
fn result_type(alloc: Global, bytes: &[u8]) -> Result<(Option<ValType>, &[u8]), ItemFault>
    ensures { Implements (λ x. (x.0, x.1.now)) result (result_at bytes.now) }
{
    let (count, rest) = unsigned_32(bytes)?;
    match count {
        0 => Ok((None, rest)),
        1 => {
            let (ty, rest) = ValType::read(alloc, rest)?;
            Ok((Some(ty), rest))
        }
        _ => Err(ItemFault::WithLeft(FaultKind::Unsupported(Feature::MultiValue), bytes.len())),
    }
}

impl Item for FuncType {
    ghost item_at = { func_type_at };

    #[tactic(auto, unfolding(crate::specs::ReadingParts::func_type_at))]
    fn read(alloc: Global, bytes: &[u8]) -> Result<(FuncType, &[u8]), ItemFault> {
        match bytes {
            [] => Err(ItemFault::WithLeft(FaultKind::Truncated, 0)),
            [0x60, rest @ ..] => {
                let (params, rest) = vector::<ValType>(alloc, rest)?;
                let (result, rest) = result_type(alloc, rest)?;
                Ok((FuncType { params, result }, rest))
            }
            [_, ..] => Err(ItemFault::WithLeft(FaultKind::BadNumber, bytes.len())),
        }
    }
}

/// Reads the limits of a shared memory.
#[tactic(auto, unfolding(crate::specs::ReadingParts::limits_at))]
pub(crate) fn limits(bytes: &[u8]) -> Result<(Limits, &[u8]), ItemFault>
    ensures { Implements (λ x. (x.0, x.1.now)) result (limits_at profile bytes.now) }
{
    let rest = match bytes {
        [] => return Err(ItemFault::WithLeft(FaultKind::Truncated, 0)),
        [0x03, rest @ ..] => rest,
        [0x00 | 0x01, ..] => {
            return Err(ItemFault::WithLeft(
                FaultKind::Unsupported(Feature::UnsharedMemory),
                bytes.len(),
            ));
        }
        [_, ..] => return Err(ItemFault::WithLeft(FaultKind::BadNumber, bytes.len())),
    };
    let (minimum, after) = unsigned_32(rest)?;
    if minimum > MAX_INITIAL_PAGES {
        return Err(ItemFault::WithLeft(FaultKind::Limit(Limit::Pages), rest.len()));
    }
    let (maximum, after) = unsigned_32(after)?;
    Ok((Limits { minimum, maximum }, after))
}
