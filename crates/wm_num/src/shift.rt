//! Shifts and rotations by `count` modulo w bits (Core 1.0, section 4.3.2: ishl, ishr_u, ishr_s, irotl, irotr).

ghost use Rattle.std.specs.Prelude.{◌≡◌, ◌%◌, ◌<◌};
ghost use Rattle.wm_num.specs.Number.{bits_of, IsOperand};
ghost use Rattle.wm_num.specs.Binary.{shifted_left, shifted_right, signed_shifted_right, rotated_left, rotated_right};

use crate::operator::Width;
use crate::view::{operand_32, operand_64, signed_32, signed_64};

/// How many bits a count shifts by: the count modulo w.
fn places(width: Width, count: u64) -> u32
    ensures value { result ≡ count % bits_of width }
    ensures bound { result < bits_of width }
{
    match width {
        Width::W32 => (count % 32) as u32,
        Width::W64 => (count % 64) as u32,
    }
}

/// To the left. Bits shifted past 2^w are lost.
pub fn left(width: Width, operand: u64, count: u64) -> u64
    requires { IsOperand width operand }
    ensures { result ≡ shifted_left (bits_of width) operand (count % bits_of width) }
{
    let places = places(width, count);
    match width {
        Width::W32 => u64::from((operand as u32) << places),
        Width::W64 => operand << places,
    }
}

/// To the right, filled with zeros.
pub fn right_unsigned(width: Width, operand: u64, count: u64) -> u64
    ensures { result ≡ shifted_right operand (count % bits_of width) }
{
    operand >> places(width, count)
}

/// To the right, filled with copies of the sign bit.
pub fn right_signed(width: Width, operand: u64, count: u64) -> u64
    requires { IsOperand width operand }
    ensures { result ≡ signed_shifted_right (bits_of width) operand (count % bits_of width) }
{
    let places = places(width, count);
    match width {
        Width::W32 => operand_32(signed_32(operand) >> places),
        Width::W64 => operand_64(signed_64(operand) >> places),
    }
}

/// To the left. Bits shifted out come in at the low end.
pub fn rotate_left(width: Width, operand: u64, count: u64) -> u64
    requires { IsOperand width operand }
    ensures operand { IsOperand width result }
    ensures value { result ≡ rotated_left (bits_of width) operand (count % bits_of width) }
{
    let places = places(width, count);
    match width {
        Width::W32 => u64::from((operand as u32).rotate_left(places)),
        Width::W64 => operand.rotate_left(places),
    }
}

/// To the right. Bits shifted out come in at the high end.
pub fn rotate_right(width: Width, operand: u64, count: u64) -> u64
    requires { IsOperand width operand }
    ensures operand { IsOperand width result }
    ensures value { result ≡ rotated_right (bits_of width) operand (count % bits_of width) }
{
    let places = places(width, count);
    match width {
        Width::W32 => u64::from((operand as u32).rotate_right(places)),
        Width::W64 => operand.rotate_right(places),
    }
}
