//! What the numeric instructions do (Core 1.0, section 4.4.1).
ghost use Rattle.std.specs.Prelude.{◌≡◌, ◌≤◌, IfSome, false, length, ◌+◌};
ghost use Rattle.wm_num.specs.Number.{IsOperand};
ghost use Rattle.wm_num.specs.Conversion.{source_of, target_of};
ghost use Rattle.wm_ast.specs.declared.module.Module.{Module};
ghost use Rattle.wm_ast.specs.declared.instr.Instr.{Instr};
ghost use Rattle.wm_machine.specs.Values.{number_at};
ghost use Rattle.wm_machine.specs.Step.{trap_of, truth};
ghost use Rattle.wm_machine.specs.Term.{Vars};
ghost use Rattle.wm_machine.specs.Action.{Acts, popped_by, SetsNothing};
ghost use Rattle.wm_machine.specs.Places.{enters_block};

use crate::action::Action;
use crate::control_stack::ControlStack;
use crate::value::TypedValue;
use wm_ast::Instr;
use wm_event::TrapKind;
use wm_num::{Conversion, NumTrap, UnaryOperator, Width, convert, unary};

/// The operand at `depth`, counted from the top, if it has this width.
#[inline(always)]
pub fn number(control_stack: &ControlStack, depth: usize, width: Width) -> Option<u64>
    ensures value { result ≡ number_at width control_stack.now.operands depth }
    ensures operand { IfSome result (IsOperand width) }
    ensures room { IfSome result (λ _. depth + 1 ≤ length control_stack.now.operands) }
{
    match control_stack.operand(depth) {
        Some(value) => value.number(width),
        None => None,
    }
}

/// The trap of an operator that has no result.
pub fn trap_of(trap: NumTrap) -> TrapKind
    ensures { result ≡ trap_of trap }
{
    match trap {
        NumTrap::DivideByZero => TrapKind::DivideByZero,
        NumTrap::Overflow => TrapKind::Overflow,
    }
}

/// The result of a test, as an operand.
#[inline(always)]
pub fn truth(holds: bool) -> TypedValue
    ensures { result ≡ TypedValue.I32 (truth holds) }
{
    TypedValue::I32(u32::from(holds))
}

/// An operator on the topmost operand.
pub fn counted(control_stack: &ControlStack, op: UnaryOperator, width: Width) -> Action
    ensures means { (m : Module) (vars : Vars) → Acts m (Instr.Unary op width) vars control_stack.now.operands result }
    ensures room { popped_by result ≤ length control_stack.now.operands }
    ensures stays { enters_block result ≡ false }
    ensures sets { SetsNothing result }
{
    match number(control_stack, 0, width) {
        Some(operand) => Action::Replace(1, Some(TypedValue::of(width, unary(op, width, operand)))),
        None => Action::Stuck,
    }
}

/// A conversion of the topmost operand.
pub fn converted(control_stack: &ControlStack, op: Conversion) -> Action
    ensures means { (m : Module) (vars : Vars) → Acts m (Instr.Convert op) vars control_stack.now.operands result }
    ensures room { popped_by result ≤ length control_stack.now.operands }
    ensures stays { enters_block result ≡ false }
    ensures sets { SetsNothing result }
{
    let (source, target) = widths(op);
    match number(control_stack, 0, source) {
        Some(operand) => Action::Replace(1, Some(TypedValue::of(target, convert(op, operand)))),
        None => Action::Stuck,
    }
}

/// The width that a conversion takes, and the width that it gives.
fn widths(op: Conversion) -> (Width, Width)
    ensures { result ≡ (source_of op, target_of op) }
{
    match op {
        Conversion::WrapI64 => (Width::W64, Width::W32),
        Conversion::ExtendI32S | Conversion::ExtendI32U => (Width::W32, Width::W64),
    }
}
