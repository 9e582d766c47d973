//! The instruction at which a function's types are wrong: the operands found, and the operands expected.

use crate::instr_at::InstrAt;
use crate::type_stack::{self, Operand};
use std::alloc::{AllocError, Global};
use std::fmt;
use wm_ast::{ConstExpr, Instr, InstrText, Module, Mutability, ValType};

/// The most operands that are shown.
const SHOWN: usize = 8;

/// Operands in brackets, as `[i32 i64]`, with a word for one of any type.
#[derive(Clone, Copy)]
struct OperandsPhrase<'a> {
    operands: &'a [Operand],
    /// Whether more are below.
    is_open: bool,
    any: &'static str,
}

impl OperandsPhrase<'_> {
    /// The word for an operand of this type.
    fn word(&self, operand: Operand) -> &'static str {
        match operand {
            Some(ValType::I32) => "i32",
            Some(ValType::I64) => "i64",
            None => self.any,
        }
    }
}

impl fmt::Display for OperandsPhrase<'_> {
    fn fmt<W: fmt::Write>(&self, f: &mut fmt::Formatter<W>) -> fmt::Result {
        let hidden = self.operands.len().saturating_sub(SHOWN);
        let is_cut = self.is_open || hidden > 0;
        f.write_str(if is_cut { "[.. " } else { "[" })?;
        for (position, operand) in self.operands.iter().skip(hidden).enumerate() {
            let space = if position > 0 { " " } else { "" };
            f.write_str(space)?;
            f.write_str(self.word(*operand))?;
        }
        f.write_str("]")
    }
}

/// An instruction, or the end of a block, at the beginning of a sentence.
#[derive(Clone, Copy)]
struct OpcodePhrase<'a> {
    instr: Option<&'a Instr>,
    is_body: bool,
}

impl fmt::Display for OpcodePhrase<'_> {
    fn fmt<W: fmt::Write>(&self, f: &mut fmt::Formatter<W>) -> fmt::Result {
        match self.instr {
            Some(instr) => write!(f, "{}", InstrText(instr)),
            None if self.is_body => f.write_str("The end of the body"),
            None => f.write_str("The end of the block"),
        }
    }
}

/// Whether a block ends here with the expected operands.
fn is_result(found: &InstrAt, expected: &[Operand]) -> bool {
    found.instr.is_none() && !found.stack.is_open && found.stack.known.as_slice() == expected
}

/// The fault of an instruction whose operands are right.
fn other_fault(
    alloc: Global,
    found: &InstrAt,
    module: &Module,
) -> Result<Option<String>, AllocError> {
    match found.instr {
        Some(Instr::GlobalSet(global)) => match module.globals.get(*global as usize) {
            Some(entry) if entry.mutability == Mutability::Constant => Ok(Some(format!(in alloc;
                "global.set {global} sets an immutable global."
            )?)),
            _ => Ok(None),
        },
        Some(Instr::BrTable(labels, last)) => {
            let ty = found.scope.label(*last);
            for label in labels.as_slice() {
                if found.scope.label(*label) != ty {
                    return Ok(Some(format!(in alloc;
                        "The labels {label} and {last} of br_table don't have one type."
                    )?));
                }
            }
            Ok(None)
        }
        _ => Ok(None),
    }
}

/// The expected operands: those of the instruction, or the result of the block.
fn expected_operands(alloc: Global, found: &InstrAt) -> Result<Vec<Operand>, AllocError> {
    match found.instr {
        Some(instr) => type_stack::instr_operands(alloc, &found.scope, instr),
        None => {
            let mut operands = Vec::new(alloc);
            if found.block.result.is_some() {
                operands.push(found.block.result)?;
            }
            Ok(operands)
        }
    }
}

/// What is wrong with the types at an opcode of a function.
///
/// # Errors
///
/// Only if an allocation fails.
pub(crate) fn type_fault(
    alloc: Global,
    module: &Module,
    found: &InstrAt,
) -> Result<String, AllocError> {
    if let Some(text) = other_fault(alloc, found, module)? {
        return Ok(text);
    }
    let expected = expected_operands(alloc, found)?;
    if found.block.lacks_else && is_result(found, expected.as_slice()) {
        return format!(in alloc; "An if with a result needs an else part with that result.");
    }
    let instr = OpcodePhrase {
        instr: found.instr,
        is_body: found.block.block == 0,
    };
    let wanted = OperandsPhrase {
        operands: expected.as_slice(),
        is_open: false,
        any: "T",
    };
    let stack = OperandsPhrase {
        operands: found.stack.known.as_slice(),
        is_open: found.stack.is_open,
        any: "any",
    };
    format!(in alloc; "{instr} finds the operands {stack}, the top last. Expected: {wanted}.")
}

/// The name of a constant's type, with its article.
fn constant_type(value: ConstExpr) -> &'static str {
    match value {
        ConstExpr::I32(_) => "an i32",
        ConstExpr::I64(_) => "an i64",
    }
}

/// What is wrong with the types outside the functions; None if nothing is.
///
/// # Errors
///
/// Only if an allocation fails.
pub(crate) fn section_fault(alloc: Global, module: &Module) -> Result<Option<String>, AllocError> {
    for (number, global) in module.globals.as_slice().iter().enumerate() {
        let found = constant_type(global.init);
        let expected = match global.ty {
            ValType::I32 => "an i32",
            ValType::I64 => "an i64",
        };
        if found != expected {
            return Ok(Some(format!(in alloc;
                "The initial value of global {number} is {found}. Expected: {expected}."
            )?));
        }
    }
    for (number, segment) in module.data.as_slice().iter().enumerate() {
        if let ConstExpr::I64(_) = segment.offset {
            return Ok(Some(format!(in alloc;
                "The offset of data segment {number} is an i64. Expected: an i32."
            )?));
        }
    }
    Ok(None)
}
