//! Counts of bits (Core 1.0, section 4.3.2: iclz, ictz, ipopcnt).

ghost use Rattle.std.specs.Prelude.{◌≡◌, ◌-◌, ◌%◌, ◌^◌, ◌<◌, ◌≤◌};
ghost use Rattle.wm_num.specs.Number.{bits_of, IsOperand, digit};
ghost use Rattle.wm_num.specs.Unary.{leading_zero_count, trailing_zero_count, one_count};

use crate::operator::Width;

/// The number of zeros above the highest 1, w if the operand is 0.
pub fn leading_zeros(width: Width, operand: u64) -> u32
    requires { IsOperand width operand }
    ensures bound { result ≤ bits_of width }
    ensures value { result ≡ leading_zero_count (bits_of width) operand }
    ensures zero { operand ≡ 0 → result ≡ bits_of width }
    ensures below { operand < 2 ^ (bits_of width - result) }
    ensures reached { 0 < operand → 2 ^ (bits_of width - 1 - result) ≤ operand }
{
    match width {
        Width::W32 => (operand as u32).leading_zeros(),
        Width::W64 => operand.leading_zeros(),
    }
}

/// The number of zeros below the lowest 1, w if the operand is 0.
pub fn trailing_zeros(width: Width, operand: u64) -> u32
    requires { IsOperand width operand }
    ensures bound { result ≤ bits_of width }
    ensures value { result ≡ trailing_zero_count (bits_of width) operand }
    ensures zero { operand ≡ 0 → result ≡ bits_of width }
    ensures divisible { operand % 2 ^ result ≡ 0 }
    ensures lowest { 0 < operand → digit operand result ≡ 1 }
{
    match width {
        Width::W32 => (operand as u32).trailing_zeros(),
        Width::W64 => operand.trailing_zeros(),
    }
}

/// The number of bits that are 1.
pub fn ones(width: Width, operand: u64) -> u32
    requires { IsOperand width operand }
    ensures bound { result ≤ bits_of width }
    ensures value { result ≡ one_count (bits_of width) operand }
{
    operand.count_ones()
}
