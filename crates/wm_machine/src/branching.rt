//! What a branch instruction does (Core 1.0, section 4.4.5), decided from its operands.
ghost use Rattle.std.specs.Prelude.{◌≡◌, ◌≤◌, true, length};
ghost use Rattle.wm_ast.specs.declared.instr.Instr.{Instr};
ghost use Rattle.wm_machine.specs.Branching.{BranchesAs, is_branch, popped_by};

use crate::control_stack::ControlStack;
use crate::numeric::number;
use wm_ast::Instr;
use wm_list::List;
use wm_num::Width;

/// What a branch instruction does.
#[derive(Clone, Copy)]
pub enum Branching {
    /// No case applies.
    Stuck,
    /// It pops its operand, and goes on to the next instruction.
    NotTaken,
    /// It branches out of blocks, after popping this number of operands.
    To { label: u32, popped: usize },
}

/// `br_if`: branches if the topmost operand isn't 0.
fn branch_if(control_stack: &ControlStack, label: u32) -> Branching
    ensures means { BranchesAs (Instr.BrIf label) control_stack.now.operands result }
    ensures room { popped_by result ≤ length control_stack.now.operands }
{
    match number(control_stack, 0, Width::W32) {
        Some(condition) => {
            let is_taken = condition != 0;
            if is_taken {
                Branching::To { label, popped: 1 }
            } else {
                Branching::NotTaken
            }
        }
        None => Branching::Stuck,
    }
}

/// `br_table`: branches to the label at the index that is the topmost operand, or to the default label if the index is
/// past the list.
fn branch_by_table(control_stack: &ControlStack, labels: &List<u32>, default: u32) -> Branching
    ensures means { BranchesAs (Instr.BrTable labels.now default) control_stack.now.operands result }
    ensures room { popped_by result ≤ length control_stack.now.operands }
{
    match number(control_stack, 0, Width::W32) {
        Some(index) => match labels.get(index as usize) {
            Some(label) => Branching::To {
                label: *label,
                popped: 1,
            },
            None => Branching::To {
                label: default,
                popped: 1,
            },
        },
        None => Branching::Stuck,
    }
}

/// What a branch instruction does with these operands.
#[inline(always)]
pub fn branching_of(instr: &Instr, control_stack: &ControlStack) -> Branching
    requires { is_branch instr.now ≡ true }
    ensures means { BranchesAs instr.now control_stack.now.operands result }
    ensures room { popped_by result ≤ length control_stack.now.operands }
{
    match instr {
        Instr::Br(label) => Branching::To {
            label: *label,
            popped: 0,
        },
        Instr::BrIf(label) => branch_if(control_stack, *label),
        Instr::BrTable(labels, default) => branch_by_table(control_stack, labels, *default),
        _ => unreachable!(),
    }
}
