//! Conversions between the widths (Core 1.0, section 4.3.4: wrap, extend_u, extend_s).

ghost use Rattle.std.specs.Prelude.{◌≡◌};
ghost use Rattle.wm_num.specs.Number.{IsOperand};
ghost use Rattle.wm_num.specs.Conversion.{source_of, target_of, conversion_meaning};

use crate::operator::Conversion;
use crate::view::{operand_64, signed_32};

/// Converts an operand, which is below 2^32 if the conversion takes an i32. `WrapI64` gives the value modulo 2^32,
/// `ExtendI32U` the value itself, and `ExtendI32S` the i64 with the same signed view.
pub fn convert(op: Conversion, operand: u64) -> u64
    requires { IsOperand (source_of op) operand }
    ensures meaning { result ≡ conversion_meaning op operand }
    ensures operand { IsOperand (target_of op) result }
{
    match op {
        Conversion::WrapI64 => operand % 0x1_0000_0000,
        Conversion::ExtendI32S => operand_64(i64::from(signed_32(operand))),
        Conversion::ExtendI32U => operand,
    }
}
