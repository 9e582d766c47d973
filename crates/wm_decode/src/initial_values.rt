//! Initial values of globals and offsets of data segments (Core 1.0, section 3.3.7).
ghost use Rattle.wm_decode.specs.Implements.{Implements};
ghost use Rattle.wm_decode.specs.ReadingParts.{end_at, initial_at};

use crate::fault::{FaultKind, Feature, ItemFault};
use crate::number::{signed_32, signed_64};
use wm_ast::ConstExpr;

/// Reads the `end` of an initial value.
fn initial_end(bytes: &[u8]) -> Result<&[u8], ItemFault>
    ensures { Implements (λ x. x.now) result (end_at bytes.now) }
{
    match bytes {
        [] => Err(ItemFault::WithLeft(FaultKind::Truncated, 0)),
        [0x0B, rest @ ..] => Ok(rest),
        [_, ..] => Err(ItemFault::WithLeft(
            FaultKind::Unsupported(Feature::ConstExpression),
            bytes.len(),
        )),
    }
}

/// Reads an initial value: one constant.
#[tactic(auto, unfolding(crate::specs::ReadingParts::initial_at))]
pub(crate) fn initial(bytes: &[u8]) -> Result<(ConstExpr, &[u8]), ItemFault>
    ensures { Implements (λ x. (x.0, x.1.now)) result (initial_at bytes.now) }
{
    match bytes {
        [] => Err(ItemFault::WithLeft(FaultKind::Truncated, 0)),
        [0x41, rest @ ..] => {
            let (value, rest) = signed_32(rest)?;
            let rest = initial_end(rest)?;
            Ok((ConstExpr::I32(value), rest))
        }
        [0x42, rest @ ..] => {
            let (value, rest) = signed_64(rest)?;
            let rest = initial_end(rest)?;
            Ok((ConstExpr::I64(value), rest))
        }
        [_, ..] => Err(ItemFault::WithLeft(
            FaultKind::Unsupported(Feature::ConstExpression),
            bytes.len(),
        )),
    }
}
