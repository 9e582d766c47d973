//! Sums, differences and products, modulo 2^w (Core 1.0, section 4.3.2: iadd, isub, imul).

ghost use Rattle.std.specs.Prelude.{◌≡◌, ◌^◌};
ghost use Rattle.wm_num.specs.Number.{bits_of, IsOperand};
ghost use Rattle.wm_num.specs.Binary.{sum_modulo, difference_modulo, product_modulo};

use crate::operator::Width;

/// The sum modulo 2^w.
pub fn add(width: Width, left: u64, right: u64) -> u64
    requires left { IsOperand width left }
    requires right { IsOperand width right }
    ensures { result ≡ sum_modulo (bits_of width) left right }
{
    match width {
        Width::W32 => u64::from((left as u32).wrapping_add(right as u32)),
        Width::W64 => left.wrapping_add(right),
    }
}

/// The difference modulo 2^w.
pub fn sub(width: Width, left: u64, right: u64) -> u64
    requires left { IsOperand width left }
    requires right { IsOperand width right }
    ensures { result ≡ difference_modulo (bits_of width) left right }
{
    match width {
        Width::W32 => u64::from((left as u32).wrapping_sub(right as u32)),
        Width::W64 => left.wrapping_sub(right),
    }
}

/// The product modulo 2^w.
pub fn mul(width: Width, left: u64, right: u64) -> u64
    requires left { IsOperand width left }
    requires right { IsOperand width right }
    ensures { result ≡ product_modulo (bits_of width) left right }
{
    match width {
        Width::W32 => u64::from((left as u32).wrapping_mul(right as u32)),
        Width::W64 => left.wrapping_mul(right),
    }
}
