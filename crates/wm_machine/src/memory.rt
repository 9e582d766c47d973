//! The effects of the memory instructions (Core 1.0, section 4.4.4, and the threads proposal).
ghost use Rattle.std.specs.Prelude.{◌≡◌, ◌≤◌, ◌<◌, ◌+◌, ◌^◌, IfSome, None, false, length, option_map};
ghost use Rattle.wm_access.specs.AccessWidth.{bytes_of, Fits};
ghost use Rattle.wm_num.specs.declared.operator.Width.TheVariants.{W32};
ghost use Rattle.wm_ast.specs.Access.{access_order, access_width, storage_width, whole};
ghost use Rattle.wm_event.specs.Op.{KindFits};
ghost use Rattle.wm_ast.specs.Module.{memory_size, pages_of};
ghost use Rattle.wm_machine.specs.Values.{number_at};
ghost use Rattle.wm_machine.specs.Accesses.{asked, loaded, extended, access_trap};
ghost use Rattle.wm_machine.specs.Request.{asked_by};
ghost use Rattle.wm_machine.specs.Term.{Vars};
ghost use Rattle.wm_machine.specs.Action.{Acts, popped_by, SetsNothing};
ghost use Rattle.wm_machine.specs.Places.{enters_block};
ghost use Rattle.wm_machine.specs.Stepping.{low_operand_of};

use crate::action::Action;
use crate::control_stack::ControlStack;
use crate::numeric::number;
use crate::value::TypedValue;
use wm_access::PAGE_BYTES;
use wm_ast::{AccessKind, Instr, MemArg, Module, Storage, ValType};
use wm_event::{Op, OpFields, OpKind, TrapKind};
use wm_num::{Signedness, Width, extend_bytes, low_bytes};

/// The access of a memory instruction, the i32 that its address is without the offset, and how many operands it pops.
#[derive(Clone, Copy)]
struct Request {
    kind: OpKind,
    base: u64,
    popped: usize,
}

/// A request whose address is the operand at `depth`, below the others.
fn at_address(control_stack: &ControlStack, kind: OpKind, depth: usize) -> Option<Request>
    requires { depth ≤ 2 }
    ensures kind { IfSome result (λ r. r.kind ≡ kind) }
    ensures popped { IfSome result (λ r. r.popped ≡ depth + 1) }
    ensures base { option_map (λ r. r.base) result ≡ number_at W32 control_stack.now.operands depth }
    ensures bound { IfSome result (λ r. r.base < 2 ^ 32) }
    ensures room { IfSome result (λ r. r.popped ≤ length control_stack.now.operands) }
{
    let base = number(control_stack, depth, Width::W32)?;
    Some(Request {
        kind,
        base,
        popped: depth + 1,
    })
}

/// The low bytes of the topmost operand.
fn low_operand(control_stack: &ControlStack, storage: Storage) -> Option<u64>
    ensures value { result ≡ low_operand_of storage control_stack.now.operands }
    ensures bound { IfSome result (Fits (storage_width storage)) }
{
    let operand = number(control_stack, 0, storage.operand().width())?;
    Some(low_bytes(operand, storage.width()))
}

/// The request of a memory instruction; None if its operands aren't there.
fn requested(control_stack: &ControlStack, kind: AccessKind) -> Option<Request>
    ensures asked { option_map (asked_by control_stack.now.operands) result ≡ asked kind control_stack.now.operands }
    ensures fits { IfSome result (λ r. KindFits r.kind (access_order kind) (access_width kind)) }
    ensures bound { IfSome result (λ r. r.base < 2 ^ 32) }
    ensures room { IfSome result (λ r. r.popped ≤ length control_stack.now.operands) }
{
    match kind {
        AccessKind::Read(_) | AccessKind::ReadSigned(_) | AccessKind::AtomicRead(_) => {
            at_address(control_stack, OpKind::Read, 0)
        }
        AccessKind::Write(storage) | AccessKind::AtomicWrite(storage) => {
            let value = low_operand(control_stack, storage)?;
            at_address(control_stack, OpKind::Write(value), 1)
        }
        AccessKind::Rmw(operator, storage) => {
            let value = low_operand(control_stack, storage)?;
            at_address(control_stack, OpKind::Rmw(operator, value), 1)
        }
        AccessKind::CmpXchg(ty) => {
            let new = number(control_stack, 0, ty.width())?;
            let expected = number(control_stack, 1, ty.width())?;
            at_address(control_stack, OpKind::CmpXchg(expected, new), 2)
        }
    }
}

/// Why an access at an address traps; None if it doesn't.
fn access_trap(module: &Module, kind: AccessKind, address: u64) -> Option<TrapKind>
    requires { address < 2 ^ 33 }
    ensures trap { result ≡ access_trap «module».now kind address }
    ensures inside { result ≡ None → address + bytes_of (access_width kind) ≤ memory_size «module».now }
{
    let width = u64::from(kind.width().bytes());
    let size = u64::from(module.pages()) * PAGE_BYTES as u64;
    if kind.order().is_atomic() && address % width != 0 {
        return Some(TrapKind::Unaligned);
    }
    if size < address + width {
        return Some(TrapKind::OutOfBounds);
    }
    None
}

/// The value read as an operand.
fn extended(signedness: Signedness, storage: Storage, read: u64) -> TypedValue
    ensures { result ≡ extended signedness storage read }
{
    let width = storage.operand().width();
    TypedValue::of(
        width,
        extend_bytes(read, storage.width(), width, signedness),
    )
}

/// The operand that an access leaves if it reads this value; None for a store.
pub fn loaded(kind: AccessKind, read: u64) -> Option<TypedValue>
    ensures { result ≡ loaded kind read }
{
    match kind {
        AccessKind::Write(_) | AccessKind::AtomicWrite(_) => None,
        AccessKind::Read(storage) | AccessKind::AtomicRead(storage) | AccessKind::Rmw(_, storage) =>
            Some(extended(Signedness::Unsigned, storage, read)),
        AccessKind::ReadSigned(narrow) => Some(extended(
            Signedness::Signed,
            narrow.storage(),
            read,
        )),
        AccessKind::CmpXchg(ty) => Some(extended(Signedness::Unsigned, whole(ty), read)),
    }
}

/// All bytes of a value.
fn whole(ty: ValType) -> Storage
    ensures { result ≡ whole ty }
{
    match ty {
        ValType::I32 => Storage::I32,
        ValType::I64 => Storage::I64,
    }
}

/// A memory instruction. Its effective address is its operand plus the offset, not wrapped.
pub fn access(
    module: &Module,
    control_stack: &ControlStack,
    kind: AccessKind,
    operands: MemArg,
) -> Action
    requires { pages_of «module».now.memory ≤ 65536 }
    ensures means { (vars : Vars) → Acts «module».now (Instr.Access kind operands) vars control_stack.now.operands result }
    ensures room { popped_by result ≤ length control_stack.now.operands }
    ensures stays { enters_block result ≡ false }
    ensures sets { SetsNothing result }
{
    let Some(request) = requested(control_stack, kind) else {
        return Action::Stuck;
    };
    let address = request.base + u64::from(operands.offset);
    if let Some(trap) = access_trap(module, kind, address) {
        return Action::Trap(trap);
    }
    let op = Op::new(OpFields {
        kind: request.kind,
        order: kind.order(),
        address: address as u32,
        width: kind.width(),
    });
    Action::Access(op, kind, request.popped)
}
