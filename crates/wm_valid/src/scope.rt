//! The type of an instruction in a function, for callers outside.
ghost use Rattle.std.specs.Prelude.{◌≡◌, ◌∷◌, IfOk, MatchOption, OnOk, slice_get};
ghost use Rattle.wm_valid.specs.Implements.{Finds};
ghost use Rattle.wm_valid.specs.InstrTypes.{instr_type};
ghost use Rattle.wm_valid.specs.Operands.{meaning};
ghost use Rattle.wm_valid.specs.Scopes.{HasNoType, IsBodyOf};

use crate::checker::Checker;
use crate::instr_types::InstrType;
use crate::labels::Labels;
use crate::valid::all_locals;
use std::alloc::{AllocError, Global};
use std::marker::Model;
use wm_ast::{BlockType, Instr, Module};

/// What the type of an instruction depends on: its function, and the labels around it.
#[derive(Drop)]
pub struct Scope<'m> {
    checker: Checker<'m>,
    labels: Labels,
}

impl<'m> Model for Scope<'m> {
    ghost use Rattle.wm_valid.specs.Scopes.{Scope as Seen};

    ghost Value = { Seen };

    ghost view = { λ s. record { context = s.checker; labels = s.labels } };
}

impl<'m> Scope<'m> {
    /// The body of a function; None if there is no such function, or its type doesn't exist.
    ///
    /// # Errors
    ///
    /// Only if an allocation fails.
    pub fn new(
        alloc: Global,
        module: &'m Module,
        function: usize,
    ) -> Result<Option<Scope<'m>>, AllocError>
        ensures { IfOk result (λ found. MatchOption found (HasNoType «module».now function) (IsBodyOf «module».now function)) }
    {
        let Some(func) = module.funcs.get(function) else {
            return Ok(None);
        };
        let Some(ty) = module.types.get(func.type_index as usize) else {
            return Ok(None);
        };
        let checker = Checker {
            module,
            locals: all_locals(alloc, ty.params.as_slice(), func.locals.as_slice())?,
            result_type: ty.result,
            blocks: &func.blocks,
        };
        let mut labels = Labels::new(alloc);
        labels.push(ty.result)?;
        Ok(Some(Scope { checker, labels }))
    }

    /// Enters a block with a label of this type. An `Err` changes nothing.
    ///
    /// # Errors
    ///
    /// Only if an allocation fails.
    pub fn enter(&mut self, label: BlockType) -> Result<(), AllocError>
        ensures context { self.new.context ≡ self.old.context }
        ensures labels { OnOk result (self.new.labels ≡ label ∷ self.old.labels) }
    {
        Ok(self.labels.push(label)?)
    }

    /// The type of a label, counted from the innermost; None if there is no such label.
    pub fn label(&self, label: u32) -> Option<BlockType>
        ensures { result ≡ slice_get self.now.labels label }
    {
        self.labels.get(label).ok()
    }

    /// The result of the function.
    pub fn result(&self) -> BlockType
        ensures { result ≡ self.now.context.result }
    {
        self.checker.result_type
    }
}

/// The type of an instruction; None if it has blocks, or breaks a rule here, so that it has no type.
pub fn instr_type<'m>(scope: &Scope<'m>, instr: &Instr) -> Option<InstrType<'m>>
    ensures { Finds meaning result (instr_type scope.now.context scope.now.labels instr.now) }
{
    scope.checker.instr_type(&scope.labels, instr).ok()
}
