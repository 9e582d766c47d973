//! The effect of a step, decided from its operands.
ghost use Rattle.std.specs.Prelude.{◌≡◌};
ghost use Rattle.wm_machine.specs.Action.{op_of};

use crate::value::TypedValue;
use wm_ast::AccessKind;
use wm_event::{Op, TrapKind};

/// The effect of a step, decided from its operands.
#[derive(Clone, Copy)]
pub enum Action {
    /// No case applies.
    Stuck,
    Trap(TrapKind),
    /// Replaces this number of topmost operands by a value, if there is one.
    Replace(usize, Option<TypedValue>),
    /// Pops the topmost operand into a global.
    SetGlobal(u32, TypedValue),
    /// An access, its instruction, and how many operands that pops.
    Access(Op, AccessKind, usize),
    /// Enters a block, after popping this number of operands.
    Enter { block: usize, popped: usize },
    Return,
    Call(u32),
}

impl Action {
    /// The access of an action; None if it makes none.
    pub fn op(self) -> Option<Op>
        ensures { result ≡ op_of self }
    {
        match self {
            Action::Access(op, _, _) => Some(op),
            _ => None,
        }
    }
}
