//! The operands of a block while it is checked. After an instruction that makes the block stack-polymorphic, operands
//! of any types may be below the known ones.
ghost use Rattle.std.specs.Prelude.{◌≡◌, IfErr, Some, OnOk, MatchOption, None, reverse, is_some};
ghost use Rattle.wm_valid.specs.Stacks.{pop, push, empty, opened, take_one, take_all, give_all, select_on, made_by, ended, joined};
ghost use Rattle.wm_valid.specs.InstrTypes.{listed, drops};
ghost use Rattle.wm_valid.specs.Operands.{operands_of, meaning};
ghost use Rattle.wm_valid.specs.Implements.{LeavesStack, IsUntyped};
ghost use Rattle.wm_valid.specs.declared.fault.InstrFault.TheVariants.{OutOfMemory};

use crate::fault::{FaultKind, InstrFault};
use crate::instr_types::{InstrType, Operands};
use std::alloc::{AllocFailed, Global};
use std::marker::Model;
use wm_ast::{BlockType, ValType};

/// The type of an operand, or None if it may have any type.
pub(crate) type Operand = Option<ValType>;

/// The operands of a block, the last on top.
#[derive(Drop)]
pub(crate) struct Stack {
    known: Vec<Operand>,
    /// Whether any operands may be below the known ones.
    anything: bool,
}

impl Model for Stack {
    ghost use Rattle.std.specs.Prelude.{reverse};
    ghost use Rattle.wm_valid.specs.Stacks.{Stack as Seen};

    ghost Value = { Seen };

    ghost view = { λ s. record { known = reverse s.known.items; open_below = s.anything } };
}

impl Stack {
    /// The empty stack.
    pub(crate) fn new(alloc: Global) -> Stack
        ensures { result ≡ empty }
    {
        Stack {
            known: Vec::new(alloc),
            anything: false,
        }
    }

    /// Makes the stack polymorphic: any operands.
    pub(crate) fn clear(&mut self)
        ensures { self.new ≡ opened }
    {
        self.known.clear();
        self.anything = true;
    }

    /// Pushes an operand. An `Err` changes nothing.
    pub(crate) fn push(&mut self, operand: Operand) -> Result<(), AllocFailed<Operand>>
        ensures ok { OnOk result (self.new ≡ push operand self.old) }
    {
        self.known.push(operand)
    }

    /// Pops an operand.
    pub(crate) fn pop(&mut self) -> Option<Operand>
        ensures { MatchOption result (pop self.old ≡ None) (λ o. pop self.old ≡ Some (record { operand = o; under = self.new })) }
    {
        match self.known.pop() {
            Some(operand) => Some(operand),
            None if self.anything => Some(None),
            None => None,
        }
    }

    /// Pushes a result, if there is one.
    pub(crate) fn give(&mut self, result_type: BlockType) -> Result<(), InstrFault>
        ensures maps { LeavesStack result (Some (give_all (listed result_type) self.old)) self.new }
        ensures kind { IfErr result IsUntyped }
        ensures want { IfErr result (λ e. e ≡ OutOfMemory) }
    {
        match result_type {
            Some(t) => Ok(self.push(Some(t))?),
            None => Ok(()),
        }
    }

    /// Pops an operand of this type.
    pub(crate) fn take(&mut self, t: ValType) -> Result<(), InstrFault>
        ensures maps { LeavesStack result (take_one t self.old) self.new }
        ensures kind { IfErr result IsUntyped }
    {
        match self.pop() {
            Some(operand) if agrees(t, operand) => Ok(()),
            _ => Err(InstrFault::Breaks(FaultKind::BadType)),
        }
    }

    /// Pops an operand of any type.
    pub(crate) fn take_any(&mut self) -> Result<(), InstrFault>
        ensures maps { LeavesStack result (made_by drops self.old) self.new }
        ensures kind { IfErr result IsUntyped }
    {
        match self.pop() {
            Some(_) => Ok(()),
            None => Err(InstrFault::Breaks(FaultKind::BadType)),
        }
    }

    /// Pops a result, if there is one.
    pub(crate) fn take_result(&mut self, result_type: BlockType) -> Result<(), InstrFault>
        ensures maps { LeavesStack result (take_all (listed result_type) self.old) self.new }
        ensures kind { IfErr result IsUntyped }
    {
        match result_type {
            Some(t) => self.take(t),
            None => Ok(()),
        }
    }

    /// Pops the arguments of a call.
    pub(crate) fn take_params(&mut self, params: &[ValType]) -> Result<(), InstrFault>
        ensures maps { LeavesStack result (take_all (reverse params.now) self.old) self.new }
        ensures kind { IfErr result IsUntyped }
    {
        let mut left = params.len();
        while left > 0 {
            left -= 1;
            self.take(params[left])?;
        }
        Ok(())
    }

    /// Pops the operands that an instruction takes.
    fn take_operands(&mut self, operands: Operands) -> Result<(), InstrFault>
        ensures maps { LeavesStack result (take_all (operands_of operands.entry) self.old) self.new }
        ensures kind { IfErr result IsUntyped }
    {
        match operands {
            Operands::Nothing => Ok(()),
            Operands::One(t) => self.take(t),
            Operands::Two(t, u) => {
                self.take(u)?;
                self.take(t)
            }
            Operands::Three(t, u, v) => {
                self.take(v)?;
                self.take(u)?;
                self.take(t)
            }
            Operands::Params(params) => self.take_params(params),
        }
    }

    /// Applies an instruction of this type.
    pub(crate) fn apply(&mut self, ty: InstrType) -> Result<(), InstrFault>
        ensures maps { LeavesStack result (made_by (meaning ty.entry) self.old) self.new }
        ensures kind { IfErr result IsUntyped }
    {
        match ty {
            InstrType::Maps { takes, gives } => {
                self.take_operands(takes)?;
                self.give(gives)
            }
            InstrType::Drops => self.take_any(),
            InstrType::Selects => self.select(),
            InstrType::StackPolymorphic { takes } => {
                self.take_operands(takes)?;
                self.clear();
                Ok(())
            }
        }
    }

    /// Pops t t i32 for some type t, and pushes t.
    pub(crate) fn select(&mut self) -> Result<(), InstrFault>
        ensures maps { LeavesStack result (select_on self.old) self.new }
        ensures kind { IfErr result IsUntyped }
    {
        self.take(ValType::I32)?;
        let Some(first) = self.pop() else {
            return Err(InstrFault::Breaks(FaultKind::BadType));
        };
        let Some(second) = self.pop() else {
            return Err(InstrFault::Breaks(FaultKind::BadType));
        };
        let Some(operand) = join(first, second) else {
            return Err(InstrFault::Breaks(FaultKind::BadType));
        };
        self.push(operand)?;
        Ok(())
    }

    /// Pops a result, if there is one, which has to leave nothing else.
    pub(crate) fn end(&mut self, result_type: BlockType) -> Result<(), InstrFault>
        ensures maps { LeavesStack result (ended result_type self.old) empty }
        ensures kind { IfErr result IsUntyped }
    {
        self.take_result(result_type)?;
        if self.known.is_empty() {
            Ok(())
        } else {
            Err(InstrFault::Breaks(FaultKind::BadType))
        }
    }
}

// The operand, if both are of one type.
fn join(first: Operand, second: Operand) -> Option<Operand>
    ensures { result ≡ joined first second }
{
    match (first, second) {
        (None, o) => Some(o),
        (Some(t), None) => Some(Some(t)),
        (Some(ValType::I32), Some(ValType::I32)) => Some(Some(ValType::I32)),
        (Some(ValType::I64), Some(ValType::I64)) => Some(Some(ValType::I64)),
        (Some(_), Some(_)) => None,
    }
}

// Whether the operand can be of this type.
fn agrees(t: ValType, operand: Operand) -> bool
    ensures { result ≡ is_some (joined (Some t) operand) }
{
    match (t, operand) {
        (_, None) => true,
        (ValType::I32, Some(ValType::I32)) => true,
        (ValType::I64, Some(ValType::I64)) => true,
        (_, Some(_)) => false,
    }
}
