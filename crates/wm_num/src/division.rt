//! Quotients truncated toward 0 and their remainders (Core 1.0, section 4.3.2: idiv_u, idiv_s, irem_u, irem_s).

ghost use Rattle.std.specs.Prelude.{◌≡◌, ◌≢◌, ◌/◌, ◌%◌, if◌then◌else◌};
ghost use Rattle.wm_num.specs.Number.{bits_of, IsOperand};
ghost use Rattle.wm_num.specs.Binary.{divided, quotient_overflows, signed_quotient, signed_remainder, unless_zero};

use crate::operator::{NumTrap, Width};
use crate::view::{operand_32, operand_64, signed_32, signed_64};

/// The unsigned quotient.
pub fn div_u(left: u64, right: u64) -> Result<u64, NumTrap>
    ensures { result ≡ unless_zero right (Ok (left / right)) }
{
    if right == 0 {
        return Err(NumTrap::DivideByZero);
    }
    Ok(left / right)
}

/// The unsigned remainder.
pub fn rem_u(left: u64, right: u64) -> Result<u64, NumTrap>
    ensures { result ≡ unless_zero right (Ok (left % right)) }
{
    if right == 0 {
        return Err(NumTrap::DivideByZero);
    }
    Ok(left % right)
}

/// The signed quotient. It overflows only for the least value and -1.
pub fn div_s(width: Width, left: u64, right: u64) -> Result<u64, NumTrap>
    requires left { IsOperand width left }
    requires right { IsOperand width right }
    ensures { result ≡ divided (bits_of width) left right }
{
    if right == 0 {
        return Err(NumTrap::DivideByZero);
    }
    if overflows(width, left, right) {
        return Err(NumTrap::Overflow);
    }
    Ok(quotient(width, left, right))
}

/// The signed remainder, with the sign of the dividend. For the least value and -1 it is 0.
pub fn rem_s(width: Width, left: u64, right: u64) -> Result<u64, NumTrap>
    requires left { IsOperand width left }
    requires right { IsOperand width right }
    ensures { result ≡ unless_zero right (Ok (signed_remainder (bits_of width) left right)) }
{
    if right == 0 {
        return Err(NumTrap::DivideByZero);
    }
    Ok(remainder(width, left, right))
}

/// Whether the signed quotient overflows, which only that of the least value and -1 does.
fn overflows(width: Width, left: u64, right: u64) -> bool
    requires left { IsOperand width left }
    requires right { IsOperand width right }
    requires nonzero { right ≢ 0 }
    ensures { result ≡ quotient_overflows (bits_of width) left right }
{
    match width {
        Width::W32 => left == 0x8000_0000 && right == u64::from(u32::MAX),
        Width::W64 => left == 0x8000_0000_0000_0000 && right == u64::MAX,
    }
}

/// The signed quotient by a divisor that isn't 0.
fn quotient(width: Width, left: u64, right: u64) -> u64
    requires left { IsOperand width left }
    requires right { IsOperand width right }
    requires nonzero { right ≢ 0 }
    ensures { result ≡ signed_quotient (bits_of width) left right }
{
    match width {
        Width::W32 => operand_32(signed_32(left).wrapping_div(signed_32(right))),
        Width::W64 => operand_64(signed_64(left).wrapping_div(signed_64(right))),
    }
}

/// The signed remainder by a divisor that isn't 0.
fn remainder(width: Width, left: u64, right: u64) -> u64
    requires left { IsOperand width left }
    requires right { IsOperand width right }
    requires nonzero { right ≢ 0 }
    ensures { result ≡ signed_remainder (bits_of width) left right }
{
    match width {
        Width::W32 => operand_32(signed_32(left).wrapping_rem(signed_32(right))),
        Width::W64 => operand_64(signed_64(left).wrapping_rem(signed_64(right))),
    }
}
