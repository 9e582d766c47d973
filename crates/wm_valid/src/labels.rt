//! The labels around an instruction.

ghost use Rattle.std.specs.Prelude.{ℕ, ◌≡◌, All, IfErr, IsErr, None, ◌∷◌, [], OnOk, slice_get, List, Option};
ghost use Rattle.wm_valid.specs.Implements.{Implements, IsLabel, TableFault, IsLabelFault};
ghost use Rattle.wm_valid.specs.InstrTypes.{table_type, same};
ghost use Rattle.wm_valid.specs.Locations.{NoSuchLabelIn};

use crate::fault::FaultKind;
use std::alloc::{AllocFailed, Global};
use std::marker::Model;
use wm_ast::{BlockType, ValType};

/// The types of labels, the innermost last.
#[derive(Drop)]
pub(crate) struct Labels {
    types: Vec<BlockType>,
}

impl Model for Labels {
    ghost use Rattle.std.specs.Prelude.{reverse, List, Option};
    ghost use Rattle.wm_ast.specs.declared.types.ValType.{ValType};

    ghost Value = { List (Option ValType) };

    ghost view = { λ s. reverse s.types.items };
}

impl Labels {
    /// Without labels.
    pub(crate) fn new(alloc: Global) -> Labels
        ensures { result ≡ [] }
    {
        Labels {
            types: Vec::new(alloc),
        }
    }

    /// Enters a block. An `Err` changes nothing.
    pub(crate) fn push(&mut self, label: BlockType) -> Result<(), AllocFailed<BlockType>>
        ensures { OnOk result (self.new ≡ label ∷ self.old) }
    {
        self.types.push(label)
    }

    /// Leaves a block.
    pub(crate) fn pop(&mut self)
        ensures { (t : Option ValType) (ts : List (Option ValType)) → self.old ≡ t ∷ ts → self.new ≡ ts }
    {
        let _ = self.types.pop();
    }

    /// The type of a label, counted from the innermost.
    pub(crate) fn get(&self, label: u32) -> Result<BlockType, FaultKind>
        ensures found { Implements (λ t. t) result (slice_get self.now label) }
        ensures kind { IfErr result IsLabelFault }
    {
        let label = label as usize;
        if label < self.types.len() {
            Ok(self.types[self.types.len() - 1 - label])
        } else {
            Err(FaultKind::Label)
        }
    }

    /// Whether all these labels exist.
    fn check(&self, labels: &[u32]) -> Result<(), FaultKind>
        ensures there { OnOk result (All (IsLabel self.now) labels.now) }
        ensures found { (last : ℕ) → IsErr result → table_type self.now labels.now last ≡ None }
        ensures kind { (last : ℕ) → IfErr result (TableFault self.now labels.now last) }
    {
        for label in labels {
            self.get(*label)?;
        }
        Ok(())
    }

    /// The common type of all these labels, each of which has to exist.
    pub(crate) fn table(&self, labels: &[u32], last: u32) -> Result<BlockType, FaultKind>
        ensures found { Implements (λ t. t) result (table_type self.now labels.now last) }
        ensures there { OnOk result (NoSuchLabelIn self.now labels.now last → ⊥) }
        ensures kind { IfErr result (TableFault self.now labels.now last) }
    {
        let found = self.get(last)?;
        self.check(labels)?;
        for label in labels {
            let other = self.get(*label)?;
            if !is_same(other, found) {
                return Err(FaultKind::BadType);
            }
        }
        Ok(found)
    }
}

fn is_same(one: BlockType, other: BlockType) -> bool
    ensures { result ≡ same one other }
{
    match (one, other) {
        (None, None) => true,
        (Some(ValType::I32), Some(ValType::I32)) => true,
        (Some(ValType::I64), Some(ValType::I64)) => true,
        _ => false,
    }
}
