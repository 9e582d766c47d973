//! The code of a function.
ghost use Rattle.std.specs.Prelude.{◌^◌, ◌≡◌, ◌<◌, ◌+◌, [], None, IfSome, option_copied};
ghost use Rattle.wm_ast.specs.Module.{block_in};
ghost use Rattle.wm_machine.specs.Code.{IsInstrAt};
ghost use Rattle.wm_machine.specs.Functions.{continuation};
ghost use Rattle.wm_machine.specs.Places.{IsTargetAt};
ghost use Rattle.wm_machine.specs.Stepping.{BranchContinuesAt, IsNoBranchTarget, BranchNeedsOperand};

use std::marker::Model;
use wm_ast::{Block, Instr, Module};

/// The code of a function of a module, with its blocks at hand. Contracts see it as the module and the function's index.
#[derive(Drop)]
pub struct Code<'m> {
    module: &'m Module,
    func: usize,
    /// The blocks of the function; none if there is no such function.
    blocks: &'m [Block],
}

impl<'m> Model for Code<'m> {
    ghost use Rattle.wm_machine.specs.Code.{FunctionCode, AreBlocks};

    ghost Value = { FunctionCode };

    ghost view = { λ c. record { «module» = c.module.now; func = c.func } };

    ghost invariant = { λ c. AreBlocks c.module.now c.func c.blocks.now };
}

impl<'m> Code<'m> {
    /// The code of a function, which has no block if there is no such function.
    pub fn of(module: &'m Module, func: usize) -> Self
        ensures { result ≡ record { «module» = «module».now; func = func } }
    {
        let blocks = match module.funcs.get(func) {
            None => &[],
            Some(function) => function.blocks.as_slice(),
        };
        Code {
            module,
            func,
            blocks,
        }
    }

    /// The module.
    #[inline(always)]
    pub fn module(&self) -> &'m Module
        ensures { result.now ≡ self.now.module }
    {
        self.module
    }

    /// The block of this number.
    #[inline(always)]
    pub fn block(&self, number: usize) -> Option<&Block>
        ensures { option_copied result ≡ block_in self.now.module.funcs self.now.func number }
    {
        self.blocks.get(number)
    }

    /// The instruction at a place.
    #[tactic(auto, using(crate::proofs::Continuations::drop_at, crate::proofs::Continuations::drop_none))]
    #[inline(always)]
    pub fn instr_at(&self, block: usize, at: usize) -> Option<&Instr>
        ensures none { result ≡ None → continuation self.now.module self.now.func block at ≡ [] }
        ensures followed { IfSome result (λ _. at + 1 < 2 ^ 64) }
        ensures some { IfSome result (λ i. IsInstrAt self.now block at i.now) }
    {
        match self.block(block) {
            None => None,
            Some(instrs) => {
                if at < instrs.len() {
                    instrs.get(at)
                } else {
                    None
                }
            }
        }
    }

    /// Where a branch to the block of an instruction continues, and whether it carries an operand there.
    #[inline(always)]
    pub fn target(&self, block: usize, at: usize) -> Option<(bool, usize)>
        ensures some { IfSome result (λ r. BranchContinuesAt self.now.module self.now.func block at r.0 r.1) }
        ensures place { IfSome result (λ r. IsTargetAt self.now.module self.now.func block at r.1) }
        ensures empty { IfSome result (λ r. BranchNeedsOperand self.now.module self.now.func block at r.0) }
        ensures none { result ≡ None → IsNoBranchTarget self.now.module self.now.func block at }
    {
        match self.instr_at(block, at) {
            Some(Instr::Loop(_, _)) => Some((false, at)),
            Some(Instr::Block(result, _)) => Some((result.is_some(), at + 1)),
            Some(Instr::If { result, .. }) => Some((result.is_some(), at + 1)),
            _ => None,
        }
    }
}
