//! Instructions in the text format (Core 1.0, section 6.5, and the threads proposal).

use crate::{AccessKind, BlockType, Instr, MemArg, Storage, ValType};
use std::fmt;
use wm_access::RmwOperator;
use wm_num::{BinaryOperator, Comparison, Conversion, UnaryOperator, Width};

/// The name of a type.
fn type_word(ty: ValType) -> &'static str {
    match ty {
        ValType::I32 => "i32",
        ValType::I64 => "i64",
    }
}

/// The type whose values have this width.
fn width_word(width: Width) -> &'static str {
    match width {
        Width::W32 => "i32",
        Width::W64 => "i64",
    }
}

/// How many bits are in memory, if that is fewer than the type has.
fn bits_word(storage: Storage) -> &'static str {
    match storage {
        Storage::I32 | Storage::I64 => "",
        Storage::I32As8 | Storage::I64As8 => "8",
        Storage::I32As16 | Storage::I64As16 => "16",
        Storage::I64As32 => "32",
    }
}

/// The suffix of a load or an update that extends with zeros.
fn zeros_word(storage: Storage) -> &'static str {
    match storage {
        Storage::I32 | Storage::I64 => "",
        Storage::I32As8
        | Storage::I32As16
        | Storage::I64As8
        | Storage::I64As16
        | Storage::I64As32 => "_u",
    }
}

/// The operator of an update, after a dot.
fn operator_suffix(operator: RmwOperator) -> &'static str {
    match operator {
        RmwOperator::Add => ".add",
        RmwOperator::Sub => ".sub",
        RmwOperator::And => ".and",
        RmwOperator::Or => ".or",
        RmwOperator::Xor => ".xor",
        RmwOperator::Xchg => ".xchg",
    }
}

/// What is done to memory, before its bits.
fn access_word(kind: AccessKind) -> &'static str {
    match kind {
        AccessKind::Read(_) | AccessKind::ReadSigned(_) => ".load",
        AccessKind::Write(_) => ".store",
        AccessKind::AtomicRead(_) => ".atomic.load",
        AccessKind::AtomicWrite(_) => ".atomic.store",
        AccessKind::Rmw(_, _) | AccessKind::CmpXchg(_) => ".atomic.rmw",
    }
}

/// What an update computes; nothing for another access.
fn update_suffix(kind: AccessKind) -> &'static str {
    match kind {
        AccessKind::Rmw(operator, _) => operator_suffix(operator),
        AccessKind::CmpXchg(_) => ".cmpxchg",
        _ => "",
    }
}

/// How an access extends what it reads; nothing if it reads nothing or all of it.
fn extension_suffix(kind: AccessKind) -> &'static str {
    match kind {
        AccessKind::Read(storage) | AccessKind::AtomicRead(storage) | AccessKind::Rmw(_, storage) =>
            zeros_word(storage),
        AccessKind::ReadSigned(_) => "_s",
        _ => "",
    }
}

/// The name of an operator on one operand.
fn unary_word(operator: UnaryOperator) -> &'static str {
    match operator {
        UnaryOperator::Clz => "clz",
        UnaryOperator::Ctz => "ctz",
        UnaryOperator::Popcnt => "popcnt",
    }
}

/// The name of an operator on two operands.
fn binary_word(operator: BinaryOperator) -> &'static str {
    match operator {
        BinaryOperator::Add => "add",
        BinaryOperator::Sub => "sub",
        BinaryOperator::Mul => "mul",
        BinaryOperator::DivS => "div_s",
        BinaryOperator::DivU => "div_u",
        BinaryOperator::RemS => "rem_s",
        BinaryOperator::RemU => "rem_u",
        BinaryOperator::And => "and",
        BinaryOperator::Or => "or",
        BinaryOperator::Xor => "xor",
        BinaryOperator::Shl => "shl",
        BinaryOperator::ShrS => "shr_s",
        BinaryOperator::ShrU => "shr_u",
        BinaryOperator::Rotl => "rotl",
        BinaryOperator::Rotr => "rotr",
    }
}

/// The name of a comparison.
fn comparison_word(comparison: Comparison) -> &'static str {
    match comparison {
        Comparison::Eq => "eq",
        Comparison::Ne => "ne",
        Comparison::LtS => "lt_s",
        Comparison::LtU => "lt_u",
        Comparison::GtS => "gt_s",
        Comparison::GtU => "gt_u",
        Comparison::LeS => "le_s",
        Comparison::LeU => "le_u",
        Comparison::GeS => "ge_s",
        Comparison::GeU => "ge_u",
    }
}

/// The name of a conversion.
fn conversion_word(conversion: Conversion) -> &'static str {
    match conversion {
        Conversion::WrapI64 => "i32.wrap_i64",
        Conversion::ExtendI32S => "i64.extend_i32_s",
        Conversion::ExtendI32U => "i64.extend_i32_u",
    }
}

/// The name of an instruction that has nothing after its name.
fn plain_word(instr: &Instr) -> Option<&'static str> {
    match instr {
        Instr::Unreachable => Some("unreachable"),
        Instr::Nop => Some("nop"),
        Instr::Return => Some("return"),
        Instr::Drop => Some("drop"),
        Instr::Select => Some("select"),
        Instr::MemorySize => Some("memory.size"),
        Instr::Convert(conversion) => Some(conversion_word(*conversion)),
        _ => None,
    }
}

/// The name of an instruction that has one index after its name, and the index.
fn indexed_word(instr: &Instr) -> Option<(&'static str, u32)> {
    match instr {
        Instr::Br(label) => Some(("br", *label)),
        Instr::BrIf(label) => Some(("br_if", *label)),
        Instr::Call(function) => Some(("call", *function)),
        Instr::LocalGet(local) => Some(("local.get", *local)),
        Instr::LocalSet(local) => Some(("local.set", *local)),
        Instr::LocalTee(local) => Some(("local.tee", *local)),
        Instr::GlobalGet(global) => Some(("global.get", *global)),
        Instr::GlobalSet(global) => Some(("global.set", *global)),
        _ => None,
    }
}

/// The width of an instruction that computes on operands of one width, and the name of what it computes.
fn computing_word(instr: &Instr) -> Option<(Width, &'static str)> {
    match instr {
        Instr::Eqz(width) => Some((*width, "eqz")),
        Instr::Compare(comparison, width) => Some((*width, comparison_word(*comparison))),
        Instr::Unary(operator, width) => Some((*width, unary_word(*operator))),
        Instr::Binary(operator, width) => Some((*width, binary_word(*operator))),
        _ => None,
    }
}

/// The result type of a block, after its word.
#[derive(Clone, Copy)]
struct ResultPhrase(BlockType);

impl fmt::Display for ResultPhrase {
    fn fmt<W: fmt::Write>(&self, f: &mut fmt::Formatter<W>) -> fmt::Result {
        match self.0 {
            None => Ok(()),
            Some(ty) => write!(f, " (result {})", type_word(ty)),
        }
    }
}

/// The name of a memory instruction.
#[derive(Clone, Copy)]
struct AccessName(AccessKind);

impl fmt::Display for AccessName {
    fn fmt<W: fmt::Write>(&self, f: &mut fmt::Formatter<W>) -> fmt::Result {
        let kind = self.0;
        let storage = kind.storage();
        let ty = type_word(storage.operand());
        let word = access_word(kind);
        let bits = bits_word(storage);
        let update = update_suffix(kind);
        let extension = extension_suffix(kind);
        write!(f, "{ty}{word}{bits}{update}{extension}")
    }
}

/// The offset if it is not 0, and the alignment if it is not the width.
#[derive(Clone, Copy)]
struct MemArgPhrase(AccessKind, MemArg);

impl fmt::Display for MemArgPhrase {
    fn fmt<W: fmt::Write>(&self, f: &mut fmt::Formatter<W>) -> fmt::Result {
        let MemArgPhrase(kind, MemArg { alignment, offset }) = *self;
        if offset != 0 {
            write!(f, " offset={offset}")?;
        }
        if alignment >= 64 {
            return write!(f, " align=2^{alignment}");
        }
        let bytes = 1u64 << alignment;
        if bytes != u64::from(kind.width().bytes()) {
            write!(f, " align={bytes}")?;
        }
        Ok(())
    }
}

/// An instruction with its immediates as the text format writes it, without the instructions of its blocks. It prints as
/// `i64.atomic.rmw8.add_u offset=8` or `br_table 0 1 2`; an alignment is printed if it is not the width.
#[derive(Clone, Copy)]
pub struct InstrText<'a>(pub &'a Instr);

impl InstrText<'_> {
    /// Writes an instruction that has immediates other than one index.
    fn write_immediates<W: fmt::Write>(&self, f: &mut fmt::Formatter<W>) -> fmt::Result {
        match self.0 {
            Instr::Block(result, _) => write!(f, "block{}", ResultPhrase(*result)),
            Instr::Loop(result, _) => write!(f, "loop{}", ResultPhrase(*result)),
            Instr::If { result, .. } => write!(f, "if{}", ResultPhrase(*result)),
            Instr::BrTable(labels, last) => InstrText::write_table(f, labels.as_slice(), *last),
            Instr::Access(kind, operands) => {
                write!(f, "{}{}", AccessName(*kind), MemArgPhrase(*kind, *operands))
            }
            Instr::I32Const(value) => write!(f, "i32.const {value}"),
            Instr::I64Const(value) => write!(f, "i64.const {value}"),
            _ => Ok(()),
        }
    }

    /// Writes the labels of a table.
    fn write_table<W: fmt::Write>(
        f: &mut fmt::Formatter<W>,
        labels: &[u32],
        last: u32,
    ) -> fmt::Result {
        f.write_str("br_table")?;
        for label in labels {
            write!(f, " {label}")?;
        }
        write!(f, " {last}")
    }
}

impl fmt::Display for InstrText<'_> {
    fn fmt<W: fmt::Write>(&self, f: &mut fmt::Formatter<W>) -> fmt::Result {
        if let Some(word) = plain_word(self.0) {
            return f.write_str(word);
        }
        if let Some((word, index)) = indexed_word(self.0) {
            return write!(f, "{word} {index}");
        }
        match computing_word(self.0) {
            Some((width, word)) => write!(f, "{}.{word}", width_word(width)),
            None => self.write_immediates(f),
        }
    }
}
