//! Instructions and their blocks (Core 1.0, section 5.4; threads proposal, "Atomic Memory Instructions").
ghost use Rattle.std.specs.Prelude.{◌≡◌, ◌<◌, OnOk};
ghost use Rattle.wm_decode.specs.Faults.{block_type_fault, atomic_fault, opcode_fault};
ghost use Rattle.wm_decode.specs.Implements.{Implements};
ghost use Rattle.wm_decode.specs.Instructions.{indexed_instr};
ghost use Rattle.wm_decode.specs.ReadingInstructions.{block_type_at, opened_at, access_at, atomic_access_at, immediates_at, plain_at, blocks_at};
ghost use Rattle.wm_decode.specs.InstructionsRead.{ReadsBlock, ReadsClosed, ReadsInstr, ReadsInstrs};

use crate::fault::{FaultKind, Feature, ItemFault, Limit};
use crate::number::{signed_32, signed_64, unsigned_32};
use crate::opcode::{Indexed, Opcode, atomic_access, opcode_of};
use crate::types::value_type_fault;
use crate::vectors::vector;
use std::alloc::Global;
use wm_ast::{AccessKind, Block, BlockType, Else, Instr, MemArg, ValType};
use wm_list::List;

/// The byte that ends a block.
const END: u8 = 0x0B;

/// The byte between the two blocks of an `if`.
const ELSE: u8 = 0x05;

/// The blocks of a function.
type Blocks = Vec<Block>;

/// Why a byte is not a block type.
fn block_type_fault(byte: u8) -> FaultKind
    ensures { result ≡ block_type_fault byte }
{
    match byte {
        0x00..=0x3F | 0x80..=0xFF => FaultKind::Unsupported(Feature::MultiValue),
        _ => value_type_fault(byte),
    }
}

/// Reads the type of a block (Core 1.0, section 5.4.1).
#[tactic(auto, unfolding(crate::specs::ReadingInstructions::block_type_at))]
fn block_type(bytes: &[u8]) -> Result<(BlockType, &[u8]), ItemFault>
    ensures { Implements (λ x. (x.0, x.1.now)) result (block_type_at bytes.now) }
{
    match bytes {
        [] => Err(ItemFault::WithLeft(FaultKind::Truncated, 0)),
        [0x40, rest @ ..] => Ok((None, rest)),
        [0x7F, rest @ ..] => Ok((Some(ValType::I32), rest)),
        [0x7E, rest @ ..] => Ok((Some(ValType::I64), rest)),
        [byte, ..] => Err(ItemFault::WithLeft(block_type_fault(*byte), bytes.len())),
    }
}

impl Indexed {
    /// The instruction with this index.
    fn instr(self, index: u32) -> Instr
        ensures { result ≡ indexed_instr self index }
    {
        match self {
            Indexed::Br => Instr::Br(index),
            Indexed::BrIf => Instr::BrIf(index),
            Indexed::Call => Instr::Call(index),
            Indexed::LocalGet => Instr::LocalGet(index),
            Indexed::LocalSet => Instr::LocalSet(index),
            Indexed::LocalTee => Instr::LocalTee(index),
            Indexed::GlobalGet => Instr::GlobalGet(index),
            Indexed::GlobalSet => Instr::GlobalSet(index),
        }
    }
}

/// Reads the immediates of an access (Core 1.0, section 5.4.4).
#[tactic(auto, unfolding(crate::specs::ReadingInstructions::access_at))]
fn access(kind: AccessKind, bytes: &[u8]) -> Result<(Instr, &[u8]), ItemFault>
    ensures { Implements (λ x. (x.0, x.1.now)) result (access_at kind bytes.now) }
{
    let (alignment, rest) = unsigned_32(bytes)?;
    let (offset, rest) = unsigned_32(rest)?;
    Ok((Instr::Access(kind, MemArg { alignment, offset }), rest))
}

/// Why a code after the prefix `FE` is not the code of an access.
fn atomic_fault(code: u32) -> FaultKind
    ensures { result ≡ atomic_fault code }
{
    match code {
        0x00 => FaultKind::Unsupported(Feature::Notify),
        0x01 | 0x02 => FaultKind::Unsupported(Feature::Wait),
        0x03 => FaultKind::Unsupported(Feature::Fence),
        0x4A..=0x4E => FaultKind::Unsupported(Feature::NarrowCmpxchg),
        _ => FaultKind::UnknownOpcode(0xFE),
    }
}

/// Reads the rest of an atomic access after its prefix. A fault of its code is at the prefix.
#[tactic(auto, unfolding(crate::specs::ReadingInstructions::atomic_access_at))]
fn atomic(bytes: &[u8]) -> Result<(Instr, &[u8]), ItemFault>
    ensures { Implements (λ x. (x.0, x.1.now)) result (atomic_access_at bytes.now) }
{
    let prefix = bytes.len().saturating_add(1);
    let (code, rest) = match unsigned_32(bytes) {
        Ok(found) => found,
        Err(fault) => return Err(fault.at(prefix)),
    };
    match atomic_access(code) {
        Some(kind) => access(kind, rest),
        None => Err(ItemFault::WithLeft(atomic_fault(code), prefix)),
    }
}

/// Reads the immediates of an instruction without blocks.
#[tactic(auto, unfolding(crate::specs::ReadingInstructions::immediates_at))]
fn immediates(alloc: Global, opcode: Opcode, bytes: &[u8]) -> Result<(Instr, &[u8]), ItemFault>
    ensures { Implements (λ x. (x.0, x.1.now)) result (immediates_at opcode bytes.now) }
{
    match opcode {
        Opcode::NoImmediates(instr) => Ok((instr, bytes)),
        Opcode::Indexed(kind) => {
            let (index, rest) = unsigned_32(bytes)?;
            Ok((kind.instr(index), rest))
        }
        Opcode::BrTable => {
            let (labels, rest) = vector::<u32>(alloc, bytes)?;
            let (other, rest) = unsigned_32(rest)?;
            Ok((Instr::BrTable(labels, other), rest))
        }
        Opcode::Access(kind) => access(kind, bytes),
        Opcode::MemorySize => match bytes {
            [] => Err(ItemFault::WithLeft(FaultKind::Truncated, 0)),
            [0x00, rest @ ..] => Ok((Instr::MemorySize, rest)),
            [_, ..] => Err(ItemFault::WithLeft(FaultKind::BadNumber, bytes.len())),
        },
        Opcode::I32Const => {
            let (value, rest) = signed_32(bytes)?;
            Ok((Instr::I32Const(value), rest))
        }
        Opcode::I64Const => {
            let (value, rest) = signed_64(bytes)?;
            Ok((Instr::I64Const(value), rest))
        }
        Opcode::Atomic => atomic(bytes),
    }
}

/// Why a byte is not an opcode.
fn opcode_fault(code: u8) -> FaultKind
    ensures { result ≡ opcode_fault code }
{
    let feature = match code {
        0x06..=0x0A | 0x12 | 0x13 | 0x18 | 0x19 | 0x1F => Feature::Reserved,
        0x11 => Feature::Table,
        0x1C | 0x25 | 0x26 | 0xD0 | 0xD1 | 0xD2 => Feature::References,
        0x2A | 0x2B | 0x38 | 0x39 | 0x43 | 0x44 => Feature::Floats,
        0x5B..=0x66 | 0x8B..=0xA6 | 0xA8..=0xAB | 0xAE..=0xBF => Feature::Floats,
        0x40 => Feature::Growth,
        0xC0..=0xC4 => Feature::SignExtension,
        0xFC => Feature::PrefixFC,
        0xFD => Feature::Simd,
        _ => return FaultKind::UnknownOpcode(code),
    };
    FaultKind::Unsupported(feature)
}

/// Reads an instruction without blocks after its first byte. A fault of the opcode is at that byte.
#[tactic(auto, unfolding(crate::specs::ReadingInstructions::plain_at))]
fn plain(alloc: Global, code: u8, bytes: &[u8]) -> Result<(Instr, &[u8]), ItemFault>
    ensures { Implements (λ x. (x.0, x.1.now)) result (plain_at code bytes.now) }
{
    match opcode_of(code) {
        Some(opcode) => immediates(alloc, opcode, bytes),
        None => Err(ItemFault::WithLeft(opcode_fault(code), bytes.len().saturating_add(1))),
    }
}

// Reads instructions up to the byte that closes their block, and adds the blocks that begin among them.
#[cycle(body)]
fn instrs<'a>(
    alloc: Global,
    depth_left: u32,
    blocks: &mut Blocks,
    bytes: &'a [u8],
) -> Result<(Block, u8, &'a [u8]), ItemFault>
    ensures { ReadsInstrs blocks.old.items blocks.new.items depth_left (λ x. (x.0, x.1, x.2.now)) result bytes.now }
{
    let mut found = List::new(alloc);
    let mut rest = bytes;
    while let [op, after @ ..] = rest {
        let op = *op;
        if op == END || op == ELSE {
            return Ok((found, op, after));
        }
        let (one, after) = instr(alloc, depth_left, blocks, op, after)?;
        found.push(one)?;
        rest = after;
    }
    Err(ItemFault::WithLeft(FaultKind::Truncated, 0))
}

// Reads a block up to the byte that closes it, and adds it and the blocks that begin in it.
#[cycle(body)]
fn nested<'a>(
    alloc: Global,
    depth_left: u32,
    blocks: &mut Blocks,
    bytes: &'a [u8],
) -> Result<(usize, u8, &'a [u8]), ItemFault>
    ensures { ReadsBlock blocks.old.items blocks.new.items depth_left (λ x. (x.0, x.1, x.2.now)) result bytes.now }
{
    let number = blocks.len();
    blocks.push(List::new(alloc))?;
    let (body, closer, rest) = instrs(alloc, depth_left, blocks, bytes)?;
    blocks[number] = body;
    Ok((number, closer, rest))
}

// Reads a block that only an `end` closes.
#[cycle(body)]
#[tactic(auto, unfolding(crate::specs::ReadingInstructions::closed_with))]
fn closed<'a>(
    alloc: Global,
    depth_left: u32,
    blocks: &mut Blocks,
    bytes: &'a [u8],
) -> Result<(usize, &'a [u8]), ItemFault>
    ensures { ReadsClosed blocks.old.items blocks.new.items depth_left (λ x. (x.0, x.1.now)) result bytes.now }
{
    let (number, closer, rest) = nested(alloc, depth_left, blocks, bytes)?;
    if closer == END {
        return Ok((number, rest));
    }
    Err(ItemFault::WithLeft(
        FaultKind::UnknownOpcode(closer),
        rest.len().saturating_add(1),
    ))
}

/// Reads the type of a block after its opcode. If the block would nest too deep, the fault is at the opcode.
#[tactic(auto, unfolding(crate::specs::ReadingInstructions::opened_at))]
fn block_header(depth_left: u32, bytes: &[u8]) -> Result<(BlockType, &[u8]), ItemFault>
    ensures read { Implements (λ x. (x.0, x.1.now)) result (opened_at depth_left bytes.now) }
    ensures has_room { OnOk result (0 < depth_left) }
{
    if depth_left == 0 {
        return Err(ItemFault::WithLeft(
            FaultKind::Limit(Limit::Nesting),
            bytes.len().saturating_add(1),
        ));
    }
    block_type(bytes)
}

// Reads one instruction after its opcode, and adds the blocks that begin in it.
#[cycle(body)]
#[tactic(auto, unfolding(crate::specs::ReadingInstructions::instr_with, crate::specs::ReadingInstructions::framed_with, crate::specs::ReadingInstructions::if_with))]
fn instr<'a>(
    alloc: Global,
    depth_left: u32,
    blocks: &mut Blocks,
    op: u8,
    bytes: &'a [u8],
) -> Result<(Instr, &'a [u8]), ItemFault>
    ensures { ReadsInstr blocks.old.items blocks.new.items depth_left op (λ x. (x.0, x.1.now)) result bytes.now }
{
    match op {
        0x02 | 0x03 => {
            let (ty, rest) = block_header(depth_left, bytes)?;
            let (number, rest) = closed(alloc, depth_left - 1, blocks, rest)?;
            let instr = if op == 0x02 {
                Instr::Block(ty, number)
            } else {
                Instr::Loop(ty, number)
            };
            Ok((instr, rest))
        }
        0x04 => {
            let (ty, rest) = block_header(depth_left, bytes)?;
            let (first, closer, rest) = nested(alloc, depth_left - 1, blocks, rest)?;
            if closer == END {
                let second = blocks.len();
                blocks.push(List::new(alloc))?;
                let instr = Instr::If {
                    result: ty,
                    then_block: first,
                    else_block: second,
                    else_part: Else::Absent,
                };
                return Ok((instr, rest));
            }
            let (second, rest) = closed(alloc, depth_left - 1, blocks, rest)?;
            let instr = Instr::If {
                result: ty,
                then_block: first,
                else_block: second,
                else_part: Else::Present,
            };
            Ok((instr, rest))
        }
        _ => plain(alloc, op, bytes),
    }
}

/// Reads the instructions of a function and the `end` after them: its blocks, the body first,
/// nested at most `depth_left` deep.
#[tactic(auto, unfolding(crate::specs::ReadingInstructions::blocks_at))]
pub(crate) fn blocks(
    alloc: Global,
    depth_left: u32,
    bytes: &[u8],
) -> Result<(List<Block>, &[u8]), ItemFault>
    ensures { Implements (λ x. (x.0, x.1.now)) result (blocks_at depth_left bytes.now) }
{
    let mut blocks = Vec::new(alloc);
    let (_, rest) = closed(alloc, depth_left, &mut blocks, bytes)?;
    Ok((List::from_vec(blocks), rest))
}
