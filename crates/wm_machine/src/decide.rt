//! The effect of an instruction, decided from its operands before anything changes (Core 1.0, section 4.4).
ghost use Rattle.std.specs.Prelude.{◌≡◌, ◌≤◌, List, false, length, slice_get};
ghost use Rattle.wm_ast.specs.declared.module.Module.{Module};
ghost use Rattle.wm_ast.specs.declared.instr.Instr.{Instr};
ghost use Rattle.wm_ast.specs.Module.{pages_of};
ghost use Rattle.wm_machine.specs.declared.value.TypedValue.{TypedValue};
ghost use Rattle.wm_machine.specs.Term.{Vars};
ghost use Rattle.wm_machine.specs.Action.{Acts, GetsGlobal, SetsGlobal, SetsNothing, SetsWithin, popped_by};
ghost use Rattle.wm_machine.specs.AtOnce.{is_at_once};
ghost use Rattle.wm_machine.specs.Places.{LeadsAs, enters_block};

use crate::action::Action;
use crate::control_stack::ControlStack;
use crate::memory::access;
use crate::numeric::{converted, counted, number};
use crate::value::TypedValue;
use wm_ast::{BlockType, Else, Instr, Module};
use wm_event::TrapKind;
use wm_num::Width;

/// `if`: enters its second block if the topmost operand is 0, otherwise the first.
fn entered(
    control_stack: &ControlStack,
    ty: BlockType,
    first: usize,
    second: usize,
    other: Else,
) -> Action
    ensures means { (m : Module) (vars : Vars) → Acts m (Instr.If ty first second other) vars control_stack.now.operands result }
    ensures room { popped_by result ≤ length control_stack.now.operands }
    ensures leads { LeadsAs (Instr.If ty first second other) control_stack.now.operands result }
    ensures sets { SetsNothing result }
{
    match number(control_stack, 0, Width::W32) {
        Some(0) => Action::Enter {
            block: second,
            popped: 1,
        },
        Some(_) => Action::Enter {
            block: first,
            popped: 1,
        },
        None => Action::Stuck,
    }
}

/// `drop`.
fn dropped(control_stack: &ControlStack) -> Action
    ensures means { (m : Module) (vars : Vars) → Acts m Instr.Drop vars control_stack.now.operands result }
    ensures room { popped_by result ≤ length control_stack.now.operands }
    ensures stays { enters_block result ≡ false }
    ensures sets { SetsNothing result }
{
    match control_stack.operand(0) {
        Some(_) => Action::Replace(1, None),
        None => Action::Stuck,
    }
}

/// `select`: keeps the first of two operands if the i32 above them isn't 0, otherwise the second.
fn selected(control_stack: &ControlStack) -> Action
    ensures means { (m : Module) (vars : Vars) → Acts m Instr.Select vars control_stack.now.operands result }
    ensures room { popped_by result ≤ length control_stack.now.operands }
    ensures stays { enters_block result ≡ false }
    ensures sets { SetsNothing result }
{
    let (Some(first), Some(second)) = (control_stack.operand(2), control_stack.operand(1)) else {
        return Action::Stuck;
    };
    match number(control_stack, 0, Width::W32) {
        Some(0) => Action::Replace(3, Some(second)),
        Some(_) => Action::Replace(3, Some(first)),
        None => Action::Stuck,
    }
}

/// The value of a global, if it exists.
fn global_at(globals: &[TypedValue], index: u32) -> Option<TypedValue>
    ensures { result ≡ slice_get globals.now index }
{
    globals.get(index as usize).copied()
}

/// `global.get` of this variable, if it exists.
fn got(variable: Option<TypedValue>) -> Action
    ensures means { GetsGlobal variable result }
    ensures room { popped_by result ≡ 0 }
    ensures stays { enters_block result ≡ false }
    ensures sets { SetsNothing result }
{
    match variable {
        Some(value) => Action::Replace(0, Some(value)),
        None => Action::Stuck,
    }
}

/// `global.set`.
fn set_global(control_stack: &ControlStack, globals: &[TypedValue], index: u32) -> Action
    ensures means { SetsGlobal index globals.now control_stack.now.operands result }
    ensures room { popped_by result ≤ length control_stack.now.operands }
    ensures stays { enters_block result ≡ false }
    ensures sets { SetsWithin result globals.now }
{
    match control_stack.operand(0) {
        Some(value) if (index as usize) < globals.len() => Action::SetGlobal(index, value),
        _ => Action::Stuck,
    }
}

/// The effect of an instruction with these operands and globals, unless it is one that is performed at once.
#[inline(always)]
pub fn decide(
    module: &Module,
    instr: &Instr,
    control_stack: &ControlStack,
    globals: &[TypedValue],
) -> Action
    requires pages { pages_of «module».now.memory ≤ 65536 }
    requires rest { is_at_once instr.now ≡ false }
    ensures means { (locals : List TypedValue)
        → Acts «module».now instr.now record { locals = locals; globals = globals.now } control_stack.now.operands result }
    ensures room { popped_by result ≤ length control_stack.now.operands }
    ensures leads { LeadsAs instr.now control_stack.now.operands result }
    ensures sets { SetsWithin result globals.now }
{
    match instr {
        Instr::Unreachable => Action::Trap(TrapKind::Unreachable),
        Instr::Nop => Action::Replace(0, None),
        Instr::Block(_, block) | Instr::Loop(_, block) => Action::Enter {
            block: *block,
            popped: 0,
        },
        Instr::If {
            result,
            then_block,
            else_block,
            else_part,
        } => entered(control_stack, *result, *then_block, *else_block, *else_part),
        Instr::Return => Action::Return,
        Instr::Call(func) => Action::Call(*func),
        Instr::Drop => dropped(control_stack),
        Instr::Select => selected(control_stack),
        Instr::GlobalGet(index) => got(global_at(globals, *index)),
        Instr::GlobalSet(index) => set_global(control_stack, globals, *index),
        Instr::Access(kind, operands) => access(module, control_stack, *kind, *operands),
        Instr::MemorySize => Action::Replace(0, Some(TypedValue::I32(module.pages()))),
        Instr::I64Const(number) => Action::Replace(0, Some(TypedValue::I64(*number))),
        Instr::Unary(op, width) => counted(control_stack, *op, *width),
        Instr::Convert(op) => converted(control_stack, *op),
        Instr::LocalGet(_)
        | Instr::LocalSet(_)
        | Instr::LocalTee(_)
        | Instr::I32Const(_)
        | Instr::Eqz(_)
        | Instr::Compare(_, _)
        | Instr::Binary(_, _)
        | Instr::Br(_)
        | Instr::BrIf(_)
        | Instr::BrTable(_, _) => unreachable!(),
    }
}
