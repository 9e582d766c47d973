//! The operators by their names.

ghost use Rattle.std.specs.Prelude.{◌≡◌, ◌≤◌, ◌↔◌, IfOk, IsTrue};
ghost use Rattle.wm_num.specs.Number.{bits_of, IsOperand};
ghost use Rattle.wm_num.specs.Binary.{DividesLeastByMinusOne, binary_meaning, divides};
ghost use Rattle.wm_num.specs.Unary.{unary_meaning};

use crate::operator::{BinaryOperator, NumTrap, UnaryOperator, Width};
use crate::{arithmetic, bitwise, counting, division, shift};

/// Applies an operator to two operands, which are below 2^32 at W32 (Core 1.0, section 4.3.2).
///
/// # Errors
///
/// `DivideByZero` if the right operand of a division or a remainder is 0, `Overflow` for the signed quotient of the
/// least value and -1. Nothing else traps: the signed remainder of the least value by -1 is 0.
pub fn binary(op: BinaryOperator, width: Width, left: u64, right: u64) -> Result<u64, NumTrap>
    requires left { IsOperand width left }
    requires right { IsOperand width right }
    ensures meaning { result ≡ binary_meaning op width left right }
    ensures operand { IfOk result (IsOperand width) }
    ensures by_zero { (result ≡ Err NumTrap.DivideByZero) ↔ (IsTrue (divides op) × (right ≡ 0)) }
    ensures overflow { (result ≡ Err NumTrap.Overflow) ↔ DividesLeastByMinusOne (bits_of width) op left right }
{
    match op {
        BinaryOperator::Add => Ok(arithmetic::add(width, left, right)),
        BinaryOperator::Sub => Ok(arithmetic::sub(width, left, right)),
        BinaryOperator::Mul => Ok(arithmetic::mul(width, left, right)),
        BinaryOperator::DivS => division::div_s(width, left, right),
        BinaryOperator::DivU => division::div_u(left, right),
        BinaryOperator::RemS => division::rem_s(width, left, right),
        BinaryOperator::RemU => division::rem_u(left, right),
        BinaryOperator::And => Ok(bitwise::and(width, left, right)),
        BinaryOperator::Or => Ok(bitwise::or(width, left, right)),
        BinaryOperator::Xor => Ok(bitwise::xor(width, left, right)),
        BinaryOperator::Shl => Ok(shift::left(width, left, right)),
        BinaryOperator::ShrS => Ok(shift::right_signed(width, left, right)),
        BinaryOperator::ShrU => Ok(shift::right_unsigned(width, left, right)),
        BinaryOperator::Rotl => Ok(shift::rotate_left(width, left, right)),
        BinaryOperator::Rotr => Ok(shift::rotate_right(width, left, right)),
    }
}

/// Applies an operator to one operand, which is below 2^32 at W32 (Core 1.0, section 4.3.2).
/// The counts of leading and of trailing zeros of 0 are the width.
pub fn unary(op: UnaryOperator, width: Width, operand: u64) -> u64
    requires { IsOperand width operand }
    ensures meaning { result ≡ unary_meaning op width operand }
    ensures bound { result ≤ bits_of width }
{
    u64::from(match op {
        UnaryOperator::Clz => counting::leading_zeros(width, operand),
        UnaryOperator::Ctz => counting::trailing_zeros(width, operand),
        UnaryOperator::Popcnt => counting::ones(width, operand),
    })
}
