//! The instructions that loops mostly consist of, each decided and performed at once (Core 1.0, section 4.4).
ghost use Rattle.std.specs.Prelude.{◌^◌, ◌≡◌, ◌≤◌, ◌<◌, ◌+◌, IfErr, IfOk, drop, length, ◌∷◌};
ghost use Rattle.wm_ast.specs.declared.instr.Instr.{Instr};
ghost use Rattle.wm_machine.specs.AtOnce.{HasEffect, at_next};

use crate::call_frame::{CallFrame, Flow};
use crate::fault::StepFault;
use crate::numeric::{number, trap_of, truth};
use crate::value::TypedValue;
use wm_ast::Instr;
use wm_num::{BinaryOperator, Comparison, Width, binary, compare};

/// Replaces this number of topmost operands by a value, and goes on to the next instruction.
#[inline(always)]
fn replace(running: &mut CallFrame, popped: usize, value: TypedValue) -> Result<Flow, StepFault>
    requires room { popped ≤ length running.old.control_stack.operands }
    requires followed { running.old.control_stack.at + 1 < 2 ^ 64 }
    ensures within { IfOk result (λ reached. (reached ≡ Flow.Within)
        × (running.new ≡ at_next running.old.locals (value ∷ drop popped running.old.control_stack.operands) running.old)) }
    ensures memory { IfErr result (λ fault. (fault ≡ StepFault.OutOfMemory) × (running.new ≡ running.old)) }
{
    let next = running.control_stack.at() + 1;
    running.control_stack.replace(popped, value)?;
    running.control_stack.set_at(next);
    Ok(Flow::Within)
}

/// `i32.const`.
#[inline(always)]
pub fn push_i32(running: &mut CallFrame, number: u32) -> Result<Flow, StepFault>
    requires { running.old.control_stack.at + 1 < 2 ^ 64 }
    ensures { HasEffect (Instr.I32Const number) running.old running.new result }
{
    replace(running, 0, TypedValue::I32(number))
}

/// `local.get`.
#[inline(always)]
pub fn get_local(running: &mut CallFrame, index: u32) -> Result<Flow, StepFault>
    requires { running.old.control_stack.at + 1 < 2 ^ 64 }
    ensures { HasEffect (Instr.LocalGet index) running.old running.new result }
{
    match running.locals.get(index as usize) {
        Some(value) => replace(running, 0, value),
        None => Err(StepFault::Stuck),
    }
}

/// `local.set`.
#[inline(always)]
pub fn set_local(running: &mut CallFrame, index: u32) -> Result<Flow, StepFault>
    requires { running.old.control_stack.at + 1 < 2 ^ 64 }
    ensures { HasEffect (Instr.LocalSet index) running.old running.new result }
{
    let next = running.control_stack.at() + 1;
    match running.control_stack.operand(0) {
        Some(value) if running.locals.has(index as usize) => {
            running.locals.set(index as usize, value)?;
            running.control_stack.pop(1);
            running.control_stack.set_at(next);
            Ok(Flow::Within)
        }
        _ => Err(StepFault::Stuck),
    }
}

/// `local.tee`.
#[inline(always)]
pub fn tee_local(running: &mut CallFrame, index: u32) -> Result<Flow, StepFault>
    requires { running.old.control_stack.at + 1 < 2 ^ 64 }
    ensures { HasEffect (Instr.LocalTee index) running.old running.new result }
{
    let next = running.control_stack.at() + 1;
    match running.control_stack.operand(0) {
        Some(kept) if running.locals.has(index as usize) => {
            running.locals.set(index as usize, kept)?;
            running.control_stack.set_at(next);
            Ok(Flow::Within)
        }
        _ => Err(StepFault::Stuck),
    }
}

/// `eqz`: whether the operand is 0.
#[inline(always)]
pub fn test_zero(running: &mut CallFrame, width: Width) -> Result<Flow, StepFault>
    requires { running.old.control_stack.at + 1 < 2 ^ 64 }
    ensures { HasEffect (Instr.Eqz width) running.old running.new result }
{
    match number(&running.control_stack, 0, width) {
        Some(operand) => replace(
            running,
            1,
            truth(compare(Comparison::Eq, width, operand, 0)),
        ),
        None => Err(StepFault::Stuck),
    }
}

/// A comparison of the two topmost operands, with the right one on top.
#[inline(always)]
pub fn compare_operands(
    running: &mut CallFrame,
    op: Comparison,
    width: Width,
) -> Result<Flow, StepFault>
    requires { running.old.control_stack.at + 1 < 2 ^ 64 }
    ensures { HasEffect (Instr.Compare op width) running.old running.new result }
{
    match (
        number(&running.control_stack, 1, width),
        number(&running.control_stack, 0, width),
    ) {
        (Some(left), Some(right)) => replace(running, 2, truth(compare(op, width, left, right))),
        _ => Err(StepFault::Stuck),
    }
}

/// An operator on the two topmost operands, with the right one on top.
#[inline(always)]
pub fn calculate(
    running: &mut CallFrame,
    op: BinaryOperator,
    width: Width,
) -> Result<Flow, StepFault>
    requires { running.old.control_stack.at + 1 < 2 ^ 64 }
    ensures { HasEffect (Instr.Binary op width) running.old running.new result }
{
    match (
        number(&running.control_stack, 1, width),
        number(&running.control_stack, 0, width),
    ) {
        (Some(left), Some(right)) => match binary(op, width, left, right) {
            Ok(value) => replace(running, 2, TypedValue::of(width, value)),
            Err(trap) => Ok(Flow::Trapped(trap_of(trap))),
        },
        _ => Err(StepFault::Stuck),
    }
}
