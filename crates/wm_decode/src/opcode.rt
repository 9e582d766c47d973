//! Opcodes (Core 1.0, section 5.4, and the threads proposal, "Atomic Memory Instructions").
ghost use Rattle.std.specs.Prelude.{◌≡◌};
ghost use Rattle.wm_decode.specs.Opcodes.{lookup, opcode_at, atomic_at, control_opcodes, memory_opcodes, comparison_opcodes, arithmetic_32_opcodes, arithmetic_64_opcodes, other_opcodes, atomic_moves, first_updates, last_updates};

use wm_access::RmwOperator;
use wm_ast::{AccessKind, Instr, Narrow, Storage, ValType};
use wm_num::{BinaryOperator, Comparison, Conversion, UnaryOperator, Width};

/// An instruction with one index after its opcode.
#[derive(Clone, Copy)]
pub(crate) enum Indexed {
    Br,
    BrIf,
    Call,
    LocalGet,
    LocalSet,
    LocalTee,
    GlobalGet,
    GlobalSet,
}

/// An opcode, by its immediates.
#[derive(Drop)]
pub(crate) enum Opcode {
    /// Nothing.
    NoImmediates(Instr),
    /// An index.
    Indexed(Indexed),
    /// A vector of labels, and a label.
    BrTable,
    /// An alignment exponent and an offset.
    Access(AccessKind),
    /// A byte 0.
    MemorySize,
    /// A signed 32-bit integer.
    I32Const,
    /// A signed 64-bit integer.
    I64Const,
    /// The code of an atomic access, and the immediates of an access.
    Atomic,
}

/// Control and variables.
fn control(code: u8) -> Option<Opcode>
    ensures { result ≡ lookup code control_opcodes }
{
    match code {
        0x00 => Some(Opcode::NoImmediates(Instr::Unreachable)),
        0x01 => Some(Opcode::NoImmediates(Instr::Nop)),
        0x0C => Some(Opcode::Indexed(Indexed::Br)),
        0x0D => Some(Opcode::Indexed(Indexed::BrIf)),
        0x0E => Some(Opcode::BrTable),
        0x0F => Some(Opcode::NoImmediates(Instr::Return)),
        0x10 => Some(Opcode::Indexed(Indexed::Call)),
        0x1A => Some(Opcode::NoImmediates(Instr::Drop)),
        0x1B => Some(Opcode::NoImmediates(Instr::Select)),
        0x20 => Some(Opcode::Indexed(Indexed::LocalGet)),
        0x21 => Some(Opcode::Indexed(Indexed::LocalSet)),
        0x22 => Some(Opcode::Indexed(Indexed::LocalTee)),
        0x23 => Some(Opcode::Indexed(Indexed::GlobalGet)),
        0x24 => Some(Opcode::Indexed(Indexed::GlobalSet)),
        _ => None,
    }
}

/// Plain loads and stores, and the size of the memory.
fn memory(code: u8) -> Option<Opcode>
    ensures { result ≡ lookup code memory_opcodes }
{
    match code {
        0x28 => Some(Opcode::Access(AccessKind::Read(Storage::I32))),
        0x29 => Some(Opcode::Access(AccessKind::Read(Storage::I64))),
        0x2C => Some(Opcode::Access(AccessKind::ReadSigned(Narrow::I32As8))),
        0x2D => Some(Opcode::Access(AccessKind::Read(Storage::I32As8))),
        0x2E => Some(Opcode::Access(AccessKind::ReadSigned(Narrow::I32As16))),
        0x2F => Some(Opcode::Access(AccessKind::Read(Storage::I32As16))),
        0x30 => Some(Opcode::Access(AccessKind::ReadSigned(Narrow::I64As8))),
        0x31 => Some(Opcode::Access(AccessKind::Read(Storage::I64As8))),
        0x32 => Some(Opcode::Access(AccessKind::ReadSigned(Narrow::I64As16))),
        0x33 => Some(Opcode::Access(AccessKind::Read(Storage::I64As16))),
        0x34 => Some(Opcode::Access(AccessKind::ReadSigned(Narrow::I64As32))),
        0x35 => Some(Opcode::Access(AccessKind::Read(Storage::I64As32))),
        0x36 => Some(Opcode::Access(AccessKind::Write(Storage::I32))),
        0x37 => Some(Opcode::Access(AccessKind::Write(Storage::I64))),
        0x3A => Some(Opcode::Access(AccessKind::Write(Storage::I32As8))),
        0x3B => Some(Opcode::Access(AccessKind::Write(Storage::I32As16))),
        0x3C => Some(Opcode::Access(AccessKind::Write(Storage::I64As8))),
        0x3D => Some(Opcode::Access(AccessKind::Write(Storage::I64As16))),
        0x3E => Some(Opcode::Access(AccessKind::Write(Storage::I64As32))),
        0x3F => Some(Opcode::MemorySize),
        _ => None,
    }
}

/// Comparisons.
fn comparison(code: u8) -> Option<Opcode>
    ensures { result ≡ lookup code comparison_opcodes }
{
    match code {
        0x45 => Some(Opcode::NoImmediates(Instr::Eqz(Width::W32))),
        0x46 => Some(Opcode::NoImmediates(Instr::Compare(Comparison::Eq, Width::W32))),
        0x47 => Some(Opcode::NoImmediates(Instr::Compare(Comparison::Ne, Width::W32))),
        0x48 => Some(Opcode::NoImmediates(Instr::Compare(Comparison::LtS, Width::W32))),
        0x49 => Some(Opcode::NoImmediates(Instr::Compare(Comparison::LtU, Width::W32))),
        0x4A => Some(Opcode::NoImmediates(Instr::Compare(Comparison::GtS, Width::W32))),
        0x4B => Some(Opcode::NoImmediates(Instr::Compare(Comparison::GtU, Width::W32))),
        0x4C => Some(Opcode::NoImmediates(Instr::Compare(Comparison::LeS, Width::W32))),
        0x4D => Some(Opcode::NoImmediates(Instr::Compare(Comparison::LeU, Width::W32))),
        0x4E => Some(Opcode::NoImmediates(Instr::Compare(Comparison::GeS, Width::W32))),
        0x4F => Some(Opcode::NoImmediates(Instr::Compare(Comparison::GeU, Width::W32))),
        0x50 => Some(Opcode::NoImmediates(Instr::Eqz(Width::W64))),
        0x51 => Some(Opcode::NoImmediates(Instr::Compare(Comparison::Eq, Width::W64))),
        0x52 => Some(Opcode::NoImmediates(Instr::Compare(Comparison::Ne, Width::W64))),
        0x53 => Some(Opcode::NoImmediates(Instr::Compare(Comparison::LtS, Width::W64))),
        0x54 => Some(Opcode::NoImmediates(Instr::Compare(Comparison::LtU, Width::W64))),
        0x55 => Some(Opcode::NoImmediates(Instr::Compare(Comparison::GtS, Width::W64))),
        0x56 => Some(Opcode::NoImmediates(Instr::Compare(Comparison::GtU, Width::W64))),
        0x57 => Some(Opcode::NoImmediates(Instr::Compare(Comparison::LeS, Width::W64))),
        0x58 => Some(Opcode::NoImmediates(Instr::Compare(Comparison::LeU, Width::W64))),
        0x59 => Some(Opcode::NoImmediates(Instr::Compare(Comparison::GeS, Width::W64))),
        0x5A => Some(Opcode::NoImmediates(Instr::Compare(Comparison::GeU, Width::W64))),
        _ => None,
    }
}

/// Other operators on an i32.
fn arithmetic_32(code: u8) -> Option<Opcode>
    ensures { result ≡ lookup code arithmetic_32_opcodes }
{
    match code {
        0x67 => Some(Opcode::NoImmediates(Instr::Unary(UnaryOperator::Clz, Width::W32))),
        0x68 => Some(Opcode::NoImmediates(Instr::Unary(UnaryOperator::Ctz, Width::W32))),
        0x69 => Some(Opcode::NoImmediates(Instr::Unary(UnaryOperator::Popcnt, Width::W32))),
        0x6A => Some(Opcode::NoImmediates(Instr::Binary(BinaryOperator::Add, Width::W32))),
        0x6B => Some(Opcode::NoImmediates(Instr::Binary(BinaryOperator::Sub, Width::W32))),
        0x6C => Some(Opcode::NoImmediates(Instr::Binary(BinaryOperator::Mul, Width::W32))),
        0x6D => Some(Opcode::NoImmediates(Instr::Binary(BinaryOperator::DivS, Width::W32))),
        0x6E => Some(Opcode::NoImmediates(Instr::Binary(BinaryOperator::DivU, Width::W32))),
        0x6F => Some(Opcode::NoImmediates(Instr::Binary(BinaryOperator::RemS, Width::W32))),
        0x70 => Some(Opcode::NoImmediates(Instr::Binary(BinaryOperator::RemU, Width::W32))),
        0x71 => Some(Opcode::NoImmediates(Instr::Binary(BinaryOperator::And, Width::W32))),
        0x72 => Some(Opcode::NoImmediates(Instr::Binary(BinaryOperator::Or, Width::W32))),
        0x73 => Some(Opcode::NoImmediates(Instr::Binary(BinaryOperator::Xor, Width::W32))),
        0x74 => Some(Opcode::NoImmediates(Instr::Binary(BinaryOperator::Shl, Width::W32))),
        0x75 => Some(Opcode::NoImmediates(Instr::Binary(BinaryOperator::ShrS, Width::W32))),
        0x76 => Some(Opcode::NoImmediates(Instr::Binary(BinaryOperator::ShrU, Width::W32))),
        0x77 => Some(Opcode::NoImmediates(Instr::Binary(BinaryOperator::Rotl, Width::W32))),
        0x78 => Some(Opcode::NoImmediates(Instr::Binary(BinaryOperator::Rotr, Width::W32))),
        _ => None,
    }
}

/// Other operators on an i64.
fn arithmetic_64(code: u8) -> Option<Opcode>
    ensures { result ≡ lookup code arithmetic_64_opcodes }
{
    match code {
        0x79 => Some(Opcode::NoImmediates(Instr::Unary(UnaryOperator::Clz, Width::W64))),
        0x7A => Some(Opcode::NoImmediates(Instr::Unary(UnaryOperator::Ctz, Width::W64))),
        0x7B => Some(Opcode::NoImmediates(Instr::Unary(UnaryOperator::Popcnt, Width::W64))),
        0x7C => Some(Opcode::NoImmediates(Instr::Binary(BinaryOperator::Add, Width::W64))),
        0x7D => Some(Opcode::NoImmediates(Instr::Binary(BinaryOperator::Sub, Width::W64))),
        0x7E => Some(Opcode::NoImmediates(Instr::Binary(BinaryOperator::Mul, Width::W64))),
        0x7F => Some(Opcode::NoImmediates(Instr::Binary(BinaryOperator::DivS, Width::W64))),
        0x80 => Some(Opcode::NoImmediates(Instr::Binary(BinaryOperator::DivU, Width::W64))),
        0x81 => Some(Opcode::NoImmediates(Instr::Binary(BinaryOperator::RemS, Width::W64))),
        0x82 => Some(Opcode::NoImmediates(Instr::Binary(BinaryOperator::RemU, Width::W64))),
        0x83 => Some(Opcode::NoImmediates(Instr::Binary(BinaryOperator::And, Width::W64))),
        0x84 => Some(Opcode::NoImmediates(Instr::Binary(BinaryOperator::Or, Width::W64))),
        0x85 => Some(Opcode::NoImmediates(Instr::Binary(BinaryOperator::Xor, Width::W64))),
        0x86 => Some(Opcode::NoImmediates(Instr::Binary(BinaryOperator::Shl, Width::W64))),
        0x87 => Some(Opcode::NoImmediates(Instr::Binary(BinaryOperator::ShrS, Width::W64))),
        0x88 => Some(Opcode::NoImmediates(Instr::Binary(BinaryOperator::ShrU, Width::W64))),
        0x89 => Some(Opcode::NoImmediates(Instr::Binary(BinaryOperator::Rotl, Width::W64))),
        0x8A => Some(Opcode::NoImmediates(Instr::Binary(BinaryOperator::Rotr, Width::W64))),
        _ => None,
    }
}

/// Constants, conversions and the prefix of atomic accesses.
fn other(code: u8) -> Option<Opcode>
    ensures { result ≡ lookup code other_opcodes }
{
    match code {
        0x41 => Some(Opcode::I32Const),
        0x42 => Some(Opcode::I64Const),
        0xA7 => Some(Opcode::NoImmediates(Instr::Convert(Conversion::WrapI64))),
        0xAC => Some(Opcode::NoImmediates(Instr::Convert(Conversion::ExtendI32S))),
        0xAD => Some(Opcode::NoImmediates(Instr::Convert(Conversion::ExtendI32U))),
        0xFE => Some(Opcode::Atomic),
        _ => None,
    }
}

/// The meaning of a byte as an opcode that starts no block; None if it has none.
#[tactic(auto, unfolding(crate::specs::Opcodes::opcode_at))]
pub(crate) fn opcode_of(code: u8) -> Option<Opcode>
    ensures { result ≡ opcode_at code }
{
    if code < 0x28 {
        control(code)
    } else if code < 0x41 {
        memory(code)
    } else if code < 0x45 {
        other(code)
    } else if code < 0x67 {
        comparison(code)
    } else if code < 0x79 {
        arithmetic_32(code)
    } else if code < 0x8B {
        arithmetic_64(code)
    } else {
        other(code)
    }
}

/// Atomic loads, stores and compare-exchanges.
fn atomic_move(code: u32) -> Option<AccessKind>
    ensures { result ≡ lookup code atomic_moves }
{
    match code {
        0x10 => Some(AccessKind::AtomicRead(Storage::I32)),
        0x11 => Some(AccessKind::AtomicRead(Storage::I64)),
        0x12 => Some(AccessKind::AtomicRead(Storage::I32As8)),
        0x13 => Some(AccessKind::AtomicRead(Storage::I32As16)),
        0x14 => Some(AccessKind::AtomicRead(Storage::I64As8)),
        0x15 => Some(AccessKind::AtomicRead(Storage::I64As16)),
        0x16 => Some(AccessKind::AtomicRead(Storage::I64As32)),
        0x17 => Some(AccessKind::AtomicWrite(Storage::I32)),
        0x18 => Some(AccessKind::AtomicWrite(Storage::I64)),
        0x19 => Some(AccessKind::AtomicWrite(Storage::I32As8)),
        0x1A => Some(AccessKind::AtomicWrite(Storage::I32As16)),
        0x1B => Some(AccessKind::AtomicWrite(Storage::I64As8)),
        0x1C => Some(AccessKind::AtomicWrite(Storage::I64As16)),
        0x1D => Some(AccessKind::AtomicWrite(Storage::I64As32)),
        0x48 => Some(AccessKind::CmpXchg(ValType::I32)),
        0x49 => Some(AccessKind::CmpXchg(ValType::I64)),
        _ => None,
    }
}

/// Atomic additions, subtractions and conjunctions.
fn first_update(code: u32) -> Option<AccessKind>
    ensures { result ≡ lookup code first_updates }
{
    match code {
        0x1E => Some(AccessKind::Rmw(RmwOperator::Add, Storage::I32)),
        0x1F => Some(AccessKind::Rmw(RmwOperator::Add, Storage::I64)),
        0x20 => Some(AccessKind::Rmw(RmwOperator::Add, Storage::I32As8)),
        0x21 => Some(AccessKind::Rmw(RmwOperator::Add, Storage::I32As16)),
        0x22 => Some(AccessKind::Rmw(RmwOperator::Add, Storage::I64As8)),
        0x23 => Some(AccessKind::Rmw(RmwOperator::Add, Storage::I64As16)),
        0x24 => Some(AccessKind::Rmw(RmwOperator::Add, Storage::I64As32)),
        0x25 => Some(AccessKind::Rmw(RmwOperator::Sub, Storage::I32)),
        0x26 => Some(AccessKind::Rmw(RmwOperator::Sub, Storage::I64)),
        0x27 => Some(AccessKind::Rmw(RmwOperator::Sub, Storage::I32As8)),
        0x28 => Some(AccessKind::Rmw(RmwOperator::Sub, Storage::I32As16)),
        0x29 => Some(AccessKind::Rmw(RmwOperator::Sub, Storage::I64As8)),
        0x2A => Some(AccessKind::Rmw(RmwOperator::Sub, Storage::I64As16)),
        0x2B => Some(AccessKind::Rmw(RmwOperator::Sub, Storage::I64As32)),
        0x2C => Some(AccessKind::Rmw(RmwOperator::And, Storage::I32)),
        0x2D => Some(AccessKind::Rmw(RmwOperator::And, Storage::I64)),
        0x2E => Some(AccessKind::Rmw(RmwOperator::And, Storage::I32As8)),
        0x2F => Some(AccessKind::Rmw(RmwOperator::And, Storage::I32As16)),
        0x30 => Some(AccessKind::Rmw(RmwOperator::And, Storage::I64As8)),
        0x31 => Some(AccessKind::Rmw(RmwOperator::And, Storage::I64As16)),
        0x32 => Some(AccessKind::Rmw(RmwOperator::And, Storage::I64As32)),
        _ => None,
    }
}

/// Atomic disjunctions and exchanges.
fn last_update(code: u32) -> Option<AccessKind>
    ensures { result ≡ lookup code last_updates }
{
    match code {
        0x33 => Some(AccessKind::Rmw(RmwOperator::Or, Storage::I32)),
        0x34 => Some(AccessKind::Rmw(RmwOperator::Or, Storage::I64)),
        0x35 => Some(AccessKind::Rmw(RmwOperator::Or, Storage::I32As8)),
        0x36 => Some(AccessKind::Rmw(RmwOperator::Or, Storage::I32As16)),
        0x37 => Some(AccessKind::Rmw(RmwOperator::Or, Storage::I64As8)),
        0x38 => Some(AccessKind::Rmw(RmwOperator::Or, Storage::I64As16)),
        0x39 => Some(AccessKind::Rmw(RmwOperator::Or, Storage::I64As32)),
        0x3A => Some(AccessKind::Rmw(RmwOperator::Xor, Storage::I32)),
        0x3B => Some(AccessKind::Rmw(RmwOperator::Xor, Storage::I64)),
        0x3C => Some(AccessKind::Rmw(RmwOperator::Xor, Storage::I32As8)),
        0x3D => Some(AccessKind::Rmw(RmwOperator::Xor, Storage::I32As16)),
        0x3E => Some(AccessKind::Rmw(RmwOperator::Xor, Storage::I64As8)),
        0x3F => Some(AccessKind::Rmw(RmwOperator::Xor, Storage::I64As16)),
        0x40 => Some(AccessKind::Rmw(RmwOperator::Xor, Storage::I64As32)),
        0x41 => Some(AccessKind::Rmw(RmwOperator::Xchg, Storage::I32)),
        0x42 => Some(AccessKind::Rmw(RmwOperator::Xchg, Storage::I64)),
        0x43 => Some(AccessKind::Rmw(RmwOperator::Xchg, Storage::I32As8)),
        0x44 => Some(AccessKind::Rmw(RmwOperator::Xchg, Storage::I32As16)),
        0x45 => Some(AccessKind::Rmw(RmwOperator::Xchg, Storage::I64As8)),
        0x46 => Some(AccessKind::Rmw(RmwOperator::Xchg, Storage::I64As16)),
        0x47 => Some(AccessKind::Rmw(RmwOperator::Xchg, Storage::I64As32)),
        _ => None,
    }
}

/// The access that a code after the prefix `FE` means; None if it means nothing.
#[tactic(auto, unfolding(crate::specs::Opcodes::atomic_at))]
pub(crate) fn atomic_access(code: u32) -> Option<AccessKind>
    ensures { result ≡ atomic_at code }
{
    if code < 0x1E {
        atomic_move(code)
    } else if code < 0x33 {
        first_update(code)
    } else if code < 0x48 {
        last_update(code)
    } else {
        atomic_move(code)
    }
}
