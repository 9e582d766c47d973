//! Instructions (Core 1.0, section 2.4).

use crate::access::AccessKind;
use crate::types::BlockType;
use wm_list::List;
use wm_num::{BinaryOperator, Comparison, Conversion, UnaryOperator, Width};

/// The instructions of a block, in order. Neither `else` nor `end` is one of them.
pub type Block = List<Instr>;

/// Whether the bytes of an `if` have an else part.
#[derive(Clone, Copy, PartialEq, Eq)]
pub enum Else {
    Present,
    Absent,
}

/// The immediates of a memory instruction (Core 1.0, section 2.4.4).
#[derive(Clone, Copy, PartialEq, Eq)]
pub struct MemArg {
    /// The alignment hint, as an exponent of 2.
    pub alignment: u32,
    /// What is added to the address, in bytes.
    pub offset: u32,
}

/// An instruction. A nested block is named by its number in its function; labels count the blocks
/// around the instruction from the innermost, 0, outwards; other indices are those of the standard.
#[derive(Drop)]
pub enum Instr {
    Unreachable,
    Nop,
    /// A block, whose label is after its end.
    Block(BlockType, usize),
    /// A loop, whose label is before its first instruction.
    Loop(BlockType, usize),
    /// An `if` with its two blocks. An absent else part is an empty block of its own.
    If {
        result: BlockType,
        then_block: usize,
        else_block: usize,
        else_part: Else,
    },
    Br(u32),
    BrIf(u32),
    /// The labels for the indices from 0 on, and the default label.
    BrTable(List<u32>, u32),
    Return,
    Call(u32),
    Drop,
    Select,
    LocalGet(u32),
    LocalSet(u32),
    LocalTee(u32),
    GlobalGet(u32),
    GlobalSet(u32),
    /// A load, a store or an atomic access.
    Access(AccessKind, MemArg),
    MemorySize,
    /// The constant modulo 2 to the power 32.
    I32Const(u32),
    /// The constant modulo 2 to the power 64.
    I64Const(u64),
    /// Whether the operand is 0.
    Eqz(Width),
    Compare(Comparison, Width),
    Unary(UnaryOperator, Width),
    Binary(BinaryOperator, Width),
    Convert(Conversion),
}
