//! The context of a function's instructions, and what it finds in it.
ghost use Rattle.std.specs.Prelude.{IfErr, slice_get};
ghost use Rattle.wm_ast.specs.Module.{func_type};
ghost use Rattle.wm_valid.specs.Implements.{Implements, LeavesStack, BrokenBy, IsIndexFault};
ghost use Rattle.wm_valid.specs.Stacks.{plain_on};

use crate::fault::{FaultKind, InstrFault};
use crate::labels::Labels;
use crate::stack::Stack;
use std::marker::Model;
use wm_ast::{Block, BlockType, FuncType, Global, Instr, Module, ValType};
use wm_list::List;

/// The context in which the instructions of a function are checked, without the labels.
#[derive(Drop)]
pub(crate) struct Checker<'m> {
    pub(crate) module: &'m Module,
    /// The types of the parameters and of the other locals.
    pub(crate) locals: List<ValType>,
    /// The result of the function.
    pub(crate) result_type: BlockType,
    pub(crate) blocks: &'m List<Block>,
}

impl<'m> Model for Checker<'m> {
    ghost use Rattle.wm_ast.specs.Module.{func_type};
    ghost use Rattle.wm_valid.specs.InstrTypes.{Context};

    ghost Value = { Context };

    ghost view = { λ s. record { «module» = s.module.now; locals = s.locals; result = s.result_type; blocks = s.blocks.now } };
}

impl<'m> Checker<'m> {
    /// The type of a function.
    pub(crate) fn type_of_func(&self, func: u32) -> Result<&'m FuncType, FaultKind>
        ensures found { Implements (λ t. t.now) result (func_type self.now.module func) }
        ensures kind { IfErr result IsIndexFault }
    {
        self.module.func_type(func as usize).ok_or(FaultKind::Index)
    }

    /// The type of a local.
    pub(crate) fn local(&self, local: u32) -> Result<ValType, FaultKind>
        ensures found { Implements (λ t. t) result (slice_get self.now.locals local) }
        ensures kind { IfErr result IsIndexFault }
    {
        match self.locals.get(local as usize) {
            Some(t) => Ok(*t),
            None => Err(FaultKind::Index),
        }
    }

    /// A global.
    pub(crate) fn global(&self, global: u32) -> Result<Global, FaultKind>
        ensures found { Implements (λ g. g) result (slice_get self.now.module.globals global) }
        ensures kind { IfErr result IsIndexFault }
    {
        match self.module.globals.get(global as usize) {
            Some(g) => Ok(*g),
            None => Err(FaultKind::Index),
        }
    }

    /// Applies an instruction that has no blocks to the operands.
    pub(crate) fn plain(
        &self,
        labels: &Labels,
        stack: &mut Stack,
        instr: &Instr,
    ) -> Result<(), InstrFault>
        ensures maps { LeavesStack result (plain_on self.now labels.now instr.now stack.old) stack.new }
        ensures breaks { IfErr result (BrokenBy self.now labels.now instr.now) }
    {
        let ty = self.instr_type(labels, instr)?;
        stack.apply(ty)
    }
}
