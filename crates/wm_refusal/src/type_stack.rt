//! The types of the operands of a block, up to an instruction of a function that is well-typed up to there.

use std::alloc::{AllocError, Global};
use wm_ast::{BlockType, Instr, ValType};
use wm_valid::{InstrType, Operands, Scope, instr_type};

/// The type of an operand; None if it can be any type.
pub(crate) type Operand = Option<ValType>;

/// The operands of a block.
#[derive(Drop)]
pub(crate) struct TypeStack {
    /// The last one is on top.
    pub known: Vec<Operand>,
    /// Whether operands of any type are below the known ones, as after a branch.
    pub is_open: bool,
}

impl TypeStack {
    /// The operands at the start of a block.
    pub(crate) fn new(alloc: Global) -> TypeStack {
        TypeStack {
            known: Vec::new(alloc),
            is_open: false,
        }
    }

    /// Pops an operand.
    fn pop(&mut self) -> Operand {
        self.known.pop().flatten()
    }

    /// Pops as many operands as an instruction takes.
    fn take(&mut self, alloc: Global, scope: &Scope, instr: &Instr) -> Result<(), AllocError> {
        for _ in instr_operands(alloc, scope, instr)?.as_slice() {
            self.pop();
        }
        Ok(())
    }

    /// Pushes an operand if there is a type.
    fn give(&mut self, ty: BlockType) -> Result<(), AllocError> {
        if ty.is_some() {
            self.known.push(ty)?;
        }
        Ok(())
    }

    /// Pops two operands of one type under an i32, and pushes one of that type.
    fn select(&mut self) -> Result<(), AllocError> {
        self.pop();
        let (first, second) = (self.pop(), self.pop());
        Ok(self.known.push(first.or(second))?)
    }

    /// Applies an instruction to the operands.
    pub(crate) fn step(
        &mut self,
        alloc: Global,
        scope: &Scope,
        instr: &Instr,
    ) -> Result<(), AllocError> {
        if let Instr::Block(result, _) | Instr::Loop(result, _) | Instr::If { result, .. } = instr {
            self.take(alloc, scope, instr)?;
            return self.give(*result);
        }
        match instr_type(scope, instr) {
            Some(InstrType::Selects) => self.select(),
            Some(InstrType::Maps { gives, .. }) => {
                self.take(alloc, scope, instr)?;
                self.give(gives)
            }
            Some(InstrType::StackPolymorphic { .. }) => {
                self.known.clear();
                self.is_open = true;
                Ok(())
            }
            Some(InstrType::Drops) | None => self.take(alloc, scope, instr),
        }
    }
}

/// Adds the operands that an instruction takes.
fn add_operands(operands: &mut Vec<Operand>, takes: Operands) -> Result<(), AllocError> {
    match takes {
        Operands::Nothing => {}
        Operands::One(top) => operands.push(Some(top))?,
        Operands::Two(under, top) => {
            operands.push(Some(under))?;
            operands.push(Some(top))?;
        }
        Operands::Three(lowest, under, top) => {
            operands.push(Some(lowest))?;
            operands.push(Some(under))?;
            operands.push(Some(top))?;
        }
        Operands::Params(params) => {
            for param in params {
                operands.push(Some(*param))?;
            }
        }
    }
    Ok(())
}

/// The operands that an instruction takes, the last one on top; None for an operand of any type.
///
/// # Errors
///
/// Only if an allocation fails.
pub(crate) fn instr_operands(
    alloc: Global,
    scope: &Scope,
    instr: &Instr,
) -> Result<Vec<Operand>, AllocError> {
    let mut operands = Vec::new(alloc);
    if let Instr::If { .. } = instr {
        operands.push(Some(ValType::I32))?;
    }
    match instr_type(scope, instr) {
        Some(InstrType::Maps { takes, .. } | InstrType::StackPolymorphic { takes }) => {
            add_operands(&mut operands, takes)?;
        }
        Some(InstrType::Drops) => operands.push(None)?,
        Some(InstrType::Selects) => {
            operands.push(None)?;
            operands.push(None)?;
            operands.push(Some(ValType::I32))?;
        }
        None => {}
    }
    Ok(operands)
}
