//! Comparisons (Core 1.0, section 4.3.2: ieq to ige_s).

ghost use Rattle.std.specs.Prelude.{◌≡◌};
ghost use Rattle.wm_num.specs.Number.{bits_of, IsOperand};
ghost use Rattle.wm_num.specs.Comparison.{comparison_meaning, signed_lt, signed_le};

use crate::operator::{Comparison, Width};
use crate::view::{signed_32, signed_64};

/// Whether the comparison of the operands holds. They are below 2^32 at W32.
/// The operators that end in S compare the signed views, the others the operands themselves.
/// The standard's `eqz` is `Eq` with 0 on the right.
pub fn compare(op: Comparison, width: Width, left: u64, right: u64) -> bool
    requires left { IsOperand width left }
    requires right { IsOperand width right }
    ensures { result ≡ comparison_meaning op width left right }
{
    match op {
        Comparison::Eq => left == right,
        Comparison::Ne => left != right,
        Comparison::LtS => is_below(width, left, right),
        Comparison::LtU => left < right,
        Comparison::GtS => is_below(width, right, left),
        Comparison::GtU => left > right,
        Comparison::LeS => is_at_most(width, left, right),
        Comparison::LeU => left <= right,
        Comparison::GeS => is_at_most(width, right, left),
        Comparison::GeU => left >= right,
    }
}

/// Whether the left signed view is below the right one.
fn is_below(width: Width, left: u64, right: u64) -> bool
    requires left { IsOperand width left }
    requires right { IsOperand width right }
    ensures { result ≡ signed_lt (bits_of width) left right }
{
    match width {
        Width::W32 => signed_32(left) < signed_32(right),
        Width::W64 => signed_64(left) < signed_64(right),
    }
}

/// Whether the left signed view is at most the right one.
fn is_at_most(width: Width, left: u64, right: u64) -> bool
    requires left { IsOperand width left }
    requires right { IsOperand width right }
    ensures { result ≡ signed_le (bits_of width) left right }
{
    match width {
        Width::W32 => signed_32(left) <= signed_32(right),
        Width::W64 => signed_64(left) <= signed_64(right),
    }
}
