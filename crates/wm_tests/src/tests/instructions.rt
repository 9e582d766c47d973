//! Instructions in the words of the text format.
use super::same;
use std::alloc::{AllocError, Global};
use std::process::Abort;
use std::test::Fail;
use wm_access::RmwOperator;
use wm_ast::{AccessKind, Instr, InstrText, MemArg, Narrow, Storage, ValType};
use wm_list::List;
use wm_num::{BinaryOperator, Comparison, Conversion, UnaryOperator, Width};

/// Accesses with their alignment and offset, and their texts.
const ACCESSES: [(AccessKind, u32, u32, &str); 11] = [
    (AccessKind::Read(Storage::I32), 2, 0, "i32.load"),
    (AccessKind::Read(Storage::I64As32), 2, 0, "i64.load32_u"),
    (AccessKind::ReadSigned(Narrow::I32As8), 0, 0, "i32.load8_s"),
    (AccessKind::Write(Storage::I64As16), 1, 0, "i64.store16"),
    (AccessKind::Write(Storage::I64), 2, 0, "i64.store align=4"),
    (
        AccessKind::Read(Storage::I32),
        0,
        8,
        "i32.load offset=8 align=1",
    ),
    (
        AccessKind::AtomicRead(Storage::I32As8),
        0,
        0,
        "i32.atomic.load8_u",
    ),
    (
        AccessKind::AtomicWrite(Storage::I64As32),
        2,
        0,
        "i64.atomic.store32",
    ),
    (
        AccessKind::Rmw(RmwOperator::Add, Storage::I32As16),
        1,
        0,
        "i32.atomic.rmw16.add_u",
    ),
    (
        AccessKind::Rmw(RmwOperator::Xchg, Storage::I64),
        3,
        0,
        "i64.atomic.rmw.xchg",
    ),
    (
        AccessKind::CmpXchg(ValType::I64),
        3,
        0,
        "i64.atomic.rmw.cmpxchg",
    ),
];

/// The texts of the instructions of [`other`].
const OTHERS: [&str; 15] = [
    "unreachable",
    "block (result i32)",
    "loop",
    "br_if 3",
    "br_table 1 0 2",
    "call 7",
    "i64.const 5",
    "i32.eqz",
    "i64.lt_s",
    "i32.ctz",
    "i32.rem_u",
    "i64.extend_i32_u",
    "local.tee 4",
    "global.set 0",
    "memory.size",
];

/// An instruction that is no access.
fn other(alloc: Global, number: usize) -> Result<Instr, AllocError> {
    Ok(match number {
        0 => Instr::Unreachable,
        1 => Instr::Block(Some(ValType::I32), 1),
        2 => Instr::Loop(None, 1),
        3 => Instr::BrIf(3),
        4 => Instr::BrTable(List::from_vec(vec![in alloc; 1, 0]?), 2),
        5 => Instr::Call(7),
        6 => Instr::I64Const(5),
        7 => Instr::Eqz(Width::W32),
        8 => Instr::Compare(Comparison::LtS, Width::W64),
        9 => Instr::Unary(UnaryOperator::Ctz, Width::W32),
        10 => Instr::Binary(BinaryOperator::RemU, Width::W32),
        11 => Instr::Convert(Conversion::ExtendI32U),
        12 => Instr::LocalTee(4),
        13 => Instr::GlobalSet(0),
        _ => Instr::MemorySize,
    })
}

fn text_of(alloc: Global, instr: &Instr) -> Result<String, AllocError> {
    format!(in alloc; "{}", InstrText(instr))
}

/// Compares the text of an instruction.
fn has_text<R: Abort + AllocGlobal>(rt: &R, instr: Instr, text: &str) -> Result<(), AllocError> {
    let got = text_of(rt.alloc(), &instr);
    drop(instr);
    same(rt, got?.as_str(), text);
    Ok(())
}

/// Compares the texts of accesses.
fn accesses_have_texts<R: Abort + AllocGlobal>(
    rt: &R,
    accesses: &[(AccessKind, u32, u32, &str)],
) -> Result<(), AllocError> {
    for (kind, alignment, offset, text) in accesses {
        let operands = MemArg {
            alignment: *alignment,
            offset: *offset,
        };
        has_text(rt, Instr::Access(*kind, operands), text)?;
    }
    Ok(())
}

/// Compares the texts of the other instructions.
fn others_have_texts<R: Abort + AllocGlobal>(rt: &R, texts: &[&str]) -> Result<(), AllocError> {
    for (number, text) in texts.iter().enumerate() {
        has_text(rt, other(rt.alloc(), number)?, text)?;
    }
    Ok(())
}

#[test]
fn instructions_have_their_texts(rt: HostRuntime) -> Result<(), Fail> {
    accesses_have_texts(&rt, &ACCESSES)?;
    others_have_texts(&rt, &OTHERS)?;
    Ok(())
}
