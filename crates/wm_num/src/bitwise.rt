//! The bitwise operators (Core 1.0, section 4.3.2: iand, ior, ixor).

ghost use Rattle.std.specs.Prelude.{◌≡◌};
ghost use Rattle.wm_num.specs.Number.{bits_of, IsOperand};
ghost use Rattle.wm_num.specs.Binary.{conjunction, disjunction, exclusive_disjunction};

use crate::operator::Width;

/// The bits that are set in both operands.
pub fn and(width: Width, left: u64, right: u64) -> u64
    requires left { IsOperand width left }
    requires right { IsOperand width right }
    ensures operand { IsOperand width result }
    ensures value { result ≡ conjunction (bits_of width) left right }
{
    left & right
}

/// The bits that are set in at least one operand.
pub fn or(width: Width, left: u64, right: u64) -> u64
    requires left { IsOperand width left }
    requires right { IsOperand width right }
    ensures operand { IsOperand width result }
    ensures value { result ≡ disjunction (bits_of width) left right }
{
    left | right
}

/// The bits in which the operands differ.
pub fn xor(width: Width, left: u64, right: u64) -> u64
    requires left { IsOperand width left }
    requires right { IsOperand width right }
    ensures operand { IsOperand width result }
    ensures value { result ≡ exclusive_disjunction (bits_of width) left right }
{
    left ^ right
}
