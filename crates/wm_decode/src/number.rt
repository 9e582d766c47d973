//! Numbers (Core 1.0, section 5.2.2).
ghost use Rattle.std.specs.Prelude.{◌≤◌, ◌-◌, ◌^◌, IfOk, length};
ghost use Rattle.wm_decode.specs.Numbers.{IsMost};
ghost use Rattle.wm_decode.specs.Implements.{Implements};
ghost use Rattle.wm_decode.specs.Reading.{Gives, unsigned_at, signed_at};

use crate::fault::{FaultKind, ItemFault};

/// Reads an unsigned integer of at most `most`, or reports what is wrong with it.
#[tactic(auto, using(crate::proofs::Most::seventh, crate::proofs::Most::seven_more), unfolding(crate::specs::Reading::unsigned_at))]
fn unsigned(most: u64, bytes: &[u8]) -> Result<(u64, &[u8]), FaultKind>
    requires { IsMost most }
    ensures exact { Gives (λ x. (x.0, x.1.now)) (length bytes.now) result (unsigned_at most bytes.now) }
    ensures below { IfOk result (λ x. x.0 ≤ most) }
{
    match bytes {
        [] => Err(FaultKind::Truncated),
        [first, rest @ ..] => {
            let first = *first as u64;
            if first < 128 {
                if most < first {
                    return Err(FaultKind::BadNumber);
                }
                return Ok((first, rest));
            }
            if most < 128 {
                return Err(FaultKind::BadNumber);
            }
            let (high, rest) = unsigned(most / 128, rest)?;
            Ok((first - 128 + 128 * high, rest))
        }
    }
}

/// Reads a signed integer, as its two's complement, or reports what is wrong with it.
#[tactic(auto, using(crate::proofs::Most::seventh, crate::proofs::Most::seven_more), unfolding(crate::specs::Reading::signed_at))]
fn signed(most: u64, bytes: &[u8]) -> Result<(u64, &[u8]), FaultKind>
    requires { IsMost most }
    ensures exact { Gives (λ x. (x.0, x.1.now)) (length bytes.now) result (signed_at most bytes.now) }
    ensures below { IfOk result (λ x. x.0 ≤ most) }
{
    match bytes {
        [] => Err(FaultKind::Truncated),
        [first, rest @ ..] => {
            let first = *first as u64;
            if first < 64 {
                if most / 2 < first {
                    return Err(FaultKind::BadNumber);
                }
                return Ok((first, rest));
            }
            if first < 128 {
                if most / 2 < 127 - first {
                    return Err(FaultKind::BadNumber);
                }
                return Ok((most - (127 - first), rest));
            }
            if most < 128 {
                return Err(FaultKind::BadNumber);
            }
            let (high, rest) = signed(most / 128, rest)?;
            Ok((first - 128 + 128 * high, rest))
        }
    }
}

/// Reads an unsigned 32-bit integer.
pub(crate) fn unsigned_32(bytes: &[u8]) -> Result<(u32, &[u8]), ItemFault>
    ensures { Implements (λ x. (x.0, x.1.now)) result (unsigned_at (2 ^ 32 - 1) bytes.now) }
{
    match unsigned(u32::MAX as u64, bytes) {
        Ok((number, rest)) => Ok((number as u32, rest)),
        Err(kind) => Err(ItemFault::WithLeft(kind, bytes.len())),
    }
}

/// Reads a signed 32-bit integer, as its two's complement.
pub(crate) fn signed_32(bytes: &[u8]) -> Result<(u32, &[u8]), ItemFault>
    ensures { Implements (λ x. (x.0, x.1.now)) result (signed_at (2 ^ 32 - 1) bytes.now) }
{
    match signed(u32::MAX as u64, bytes) {
        Ok((number, rest)) => Ok((number as u32, rest)),
        Err(kind) => Err(ItemFault::WithLeft(kind, bytes.len())),
    }
}

/// Reads a signed 64-bit integer, as its two's complement.
pub(crate) fn signed_64(bytes: &[u8]) -> Result<(u64, &[u8]), ItemFault>
    ensures { Implements (λ x. (x.0, x.1.now)) result (signed_at (2 ^ 64 - 1) bytes.now) }
{
    match signed(u64::MAX, bytes) {
        Ok(found) => Ok(found),
        Err(kind) => Err(ItemFault::WithLeft(kind, bytes.len())),
    }
}
