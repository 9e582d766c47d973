//! A small module by hand: each public call once on its happy path, and each refusal of a start.
ghost use Rattle.wm_event.specs.Op.{kind_finds};
ghost use Rattle.wm_event.specs.Reply.{ReadAnswers};

use super::accesses::atomic_load;
use super::same;
use std::alloc::{AllocError, Global};
use std::process::Abort;
use std::test::Fail;
use wm_access::AccessWidth;
use wm_ast::{
    AccessKind, Export, ExportKind, Exports, Func, FuncType, Instr, Limits, MemArg, Memory, Module,
    Storage, ValType,
};
use wm_event::{End, EventId, Op, Reply, TrapKind};
use wm_list::List;
use wm_machine::{CodePosition, Need, StartFault, Stepped, Thread, never_stuck};
use wm_num::{BinaryOperator, Width, low_bytes};
use wm_valid::{ValidModule, validate};

/// The type of the function of the module below.
fn types(alloc: Global) -> Result<List<FuncType>, AllocError> {
    let params = vec![in alloc; ValType::I32]?;
    let types = vec![in alloc;
        FuncType {
            params: List::from_vec(params),
            result: Some(ValType::I32),
        },
    ]?;
    Ok(List::from_vec(types))
}

/// The functions of the module below.
fn funcs(alloc: Global) -> Result<Vec<Func>, Fail> {
    let operands = MemArg {
        alignment: 2,
        offset: 0,
    };
    let body = vec![in alloc;
        Instr::LocalGet(0),
        Instr::Access(AccessKind::AtomicRead(Storage::I32), operands),
        Instr::I32Const(5),
        Instr::Binary(BinaryOperator::Add, Width::W32),
    ]?;
    let blocks = vec![in alloc; List::from_vec(body)]?;
    let func = Func {
        type_index: 0,
        locals: List::new(alloc),
        blocks: List::from_vec(blocks),
    };
    Ok(vec![in alloc; func]?)
}

/// Exports the first function or the memory under a name, unless the name is taken.
fn export(
    alloc: Global,
    exports: &mut Exports,
    name: &str,
    kind: ExportKind,
) -> Result<(), AllocError> {
    if exports.get(name).is_none() {
        let export = Export { kind, index: 0 };
        exports.push(String::from_str(alloc, name)?, export)?;
    }
    Ok(())
}

/// Exports the function and the memory of the module below.
fn export_both(alloc: Global, exports: &mut Exports) -> Result<(), AllocError> {
    export(alloc, exports, "load", ExportKind::Func)?;
    export(alloc, exports, "memory", ExportKind::Memory)
}

/// The exports of the module below.
fn exports(alloc: Global) -> Result<Exports, AllocError> {
    let mut exports = Exports::new(alloc);
    match export_both(alloc, &mut exports) {
        Ok(()) => Ok(exports),
        Err(fault) => {
            drop(exports);
            Err(fault)
        }
    }
}

/// The module
///
/// ```text
/// (module
///   (memory (export "memory") 1 1 shared)
///   (func (export "load") (param i32) (result i32)
///     local.get 0
///     i32.atomic.load
///     i32.const 5
///     i32.add))
/// ```
fn loads_and_adds(alloc: Global) -> Result<ValidModule, Fail> {
    let types = types(alloc)?;
    let funcs = funcs(alloc)?;
    let exports = exports(alloc)?;
    let module = Module {
        types,
        funcs: List::from_vec(funcs),
        memory: Some(Memory {
            limits: Limits {
                minimum: 1,
                maximum: 1,
            },
            import: None,
        }),
        globals: List::new(alloc),
        exports,
        data: List::new(alloc),
    };
    match validate(alloc, module) {
        Ok(module) => Ok(module),
        Err(_) => Err(Fail::from("valid")),
    }
}

// Each call of a thread is in a function of its own, which hands none of its contract on, so a test is proved in
// seconds, and not in a minute.

/// A thread that loads at this address.
fn started<'m>(alloc: Global, module: &'m ValidModule, address: u64) -> Result<Thread<'m>, Fail> {
    match Thread::start(alloc, module, "load", &[address]) {
        Ok(thread) => Ok(thread),
        Err(_) => Err(Fail::from("starts")),
    }
}

/// Why a thread of a module doesn't start; None if it does.
fn fault_over(alloc: Global, module: &ValidModule, name: &str, args: &[u64]) -> Option<StartFault> {
    match Thread::start(alloc, module, name, args) {
        Ok(thread) => {
            drop(thread);
            None
        }
        Err(fault) => Some(fault),
    }
}

/// Why a thread doesn't start; None if it does.
fn refusal(alloc: Global, name: &str, args: &[u64]) -> Result<Option<StartFault>, Fail> {
    let module = loads_and_adds(alloc)?;
    let fault = fault_over(alloc, &module, name, args);
    drop(module);
    Ok(fault)
}

fn stepped(thread: &mut Thread) -> Option<Stepped> {
    thread.step().ok()
}

fn ran(thread: &mut Thread, most: u32) -> Option<u32> {
    thread.run(most).ok()
}

fn next(thread: &Thread) -> Need {
    thread.next()
}

fn position(thread: &Thread) -> CodePosition {
    thread.position()
}

/// The reply that brings this value, cut to the width of the access.
fn reply(op: &Op, value: u64) -> Reply
    ensures { ReadAnswers (kind_finds op.now.kind) op.now.width result.read }
{
    Reply {
        read: if op.reads() {
            Some(low_bytes(value, op.fields().width))
        } else {
            None
        },
        stored: !op.reads(),
        writers: [EventId::Init; 8],
    }
}

/// Makes a step, whose access reads this value if it makes one. False if no step is made.
fn advanced(thread: &mut Thread, value: u64) -> bool {
    match thread.next() {
        Need::Ended(_) => false,
        Need::Local => thread.advance(None).is_ok(),
        Need::Access(op) => thread.advance(Some(reply(&op, value))).is_ok(),
    }
}

/// An instruction of the function's body, or its end.
fn body_at(at: usize) -> CodePosition {
    CodePosition {
        func: 0,
        block: 0,
        at,
    }
}

/// The atomic load of an i32 at this address.
fn load(address: u32) -> Op {
    atomic_load(address, AccessWidth::Four)
}

/// From the start to the access, which reads 7.
fn reads_seven<R: Abort>(rt: &R, thread: &mut Thread) {
    let access = load(8);
    same(rt, position(thread), body_at(0));
    same(rt, stepped(thread), Some(Stepped::Local));
    same(rt, next(thread), Need::Access(access));
    same(rt, stepped(thread), Some(Stepped::Access(access)));
    same(rt, position(thread), body_at(1));
    same(rt, advanced(thread, 7), true);
    same(rt, position(thread), body_at(2));
}

/// From after the access to the end.
fn returns_twelve<R: Abort>(rt: &R, thread: &mut Thread) {
    same(rt, advanced(thread, 0), true);
    same(rt, stepped(thread), Some(Stepped::Local));
    same(rt, position(thread), body_at(4));
    same(rt, stepped(thread), Some(Stepped::Local));
    let end = End::Done(Some(12));
    same(rt, next(thread), Need::Ended(end));
    same(rt, stepped(thread), Some(Stepped::Ended(end)));
}

/// A thread of a module from its start to its end.
fn runs_to_twelve<R: Abort + AllocGlobal>(rt: &R, module: &ValidModule) -> Result<(), Fail> {
    let mut thread = started(rt.alloc(), module, 8)?;
    reads_seven(rt, &mut thread);
    returns_twelve(rt, &mut thread);
    drop(thread);
    Ok(())
}

#[test]
fn a_thread_returns_what_it_read_and_five(rt: HostRuntime) -> Result<(), Fail> {
    never_stuck();
    let module = loads_and_adds(rt.alloc())?;
    let run = runs_to_twelve(&rt, &module);
    drop(module);
    run
}

/// The local steps up to the access, and those after it.
fn runs_in_parts<R: Abort>(rt: &R, thread: &mut Thread) {
    same(rt, ran(thread, 10), Some(1));
    same(rt, ran(thread, 10), Some(0));
    same(rt, next(thread), Need::Access(load(8)));
    same(rt, advanced(thread, 7), true);
    same(rt, ran(thread, 2), Some(2));
    same(rt, position(thread), body_at(4));
    same(rt, ran(thread, 10), Some(1));
    same(rt, next(thread), Need::Ended(End::Done(Some(12))));
    same(rt, ran(thread, 10), Some(0));
}

/// A thread of a module that makes its local steps at once.
fn runs_at_once<R: Abort + AllocGlobal>(rt: &R, module: &ValidModule) -> Result<(), Fail> {
    let mut thread = started(rt.alloc(), module, 8)?;
    runs_in_parts(rt, &mut thread);
    drop(thread);
    Ok(())
}

#[test]
fn local_steps_end_at_an_access_and_at_the_end(rt: HostRuntime) -> Result<(), Fail> {
    let module = loads_and_adds(rt.alloc())?;
    let run = runs_at_once(&rt, &module);
    drop(module);
    run
}

/// From the start to the trap.
fn traps_unaligned<R: Abort>(rt: &R, thread: &mut Thread) {
    same(rt, stepped(thread), Some(Stepped::Local));
    same(rt, next(thread), Need::Local);
    same(rt, stepped(thread), Some(Stepped::Local));
    let end = End::Trap(TrapKind::Unaligned);
    same(rt, next(thread), Need::Ended(end));
}

/// A thread of a module that loads at an unaligned address.
fn runs_to_trap<R: Abort + AllocGlobal>(rt: &R, module: &ValidModule) -> Result<(), Fail> {
    let mut thread = started(rt.alloc(), module, 2)?;
    traps_unaligned(rt, &mut thread);
    drop(thread);
    Ok(())
}

#[test]
fn an_unaligned_access_needs_no_reply(rt: HostRuntime) -> Result<(), Fail> {
    let module = loads_and_adds(rt.alloc())?;
    let run = runs_to_trap(&rt, &module);
    drop(module);
    run
}

#[test]
fn starts_are_refused(rt: HostRuntime) -> Result<(), Fail> {
    let cases: [(&str, &[u64], StartFault); 4] = [
        ("store", &[8], StartFault::NoExport),
        ("memory", &[8], StartFault::NotFunction),
        ("load", &[8, 9], StartFault::ArgCount),
        ("load", &[0x1_0000_0000], StartFault::ArgRange),
    ];
    for (name, args, fault) in &cases {
        same(&rt, refusal(rt.alloc(), name, args)?, Some(*fault));
    }
    Ok(())
}

fn are_same(thread: &Thread, other: &Thread) -> bool {
    thread.is_same(other)
}

/// Two threads with the same start are the same, and then again once both have made the same steps.
fn steps_tell_apart<R: Abort>(rt: &R, thread: &mut Thread, other: &mut Thread) {
    same(rt, are_same(thread, other), true);
    same(rt, ran(thread, 10), Some(1));
    same(rt, are_same(thread, other), false);
    same(rt, ran(other, 10), Some(1));
    same(rt, are_same(thread, other), true);
    same(rt, advanced(thread, 7), true);
    same(rt, advanced(other, 8), true);
    same(rt, are_same(thread, other), false);
}

/// Two threads of a module that start so.
fn both_run<R: Abort + AllocGlobal>(rt: &R, module: &ValidModule) -> Result<(), Fail> {
    let mut thread = started(rt.alloc(), module, 8)?;
    let mut other = started(rt.alloc(), module, 8)?;
    steps_tell_apart(rt, &mut thread, &mut other);
    drop(thread);
    drop(other);
    Ok(())
}

#[test]
fn threads_are_the_same_where_they_are_at_one_place_with_the_same_values(
    rt: HostRuntime,
) -> Result<(), Fail> {
    let module = loads_and_adds(rt.alloc())?;
    let run = both_run(&rt, &module);
    drop(module);
    run
}

/// A thread and its copy make steps of their own.
fn copy_runs<R: Abort + AllocGlobal>(rt: &R, module: &ValidModule) -> Result<(), Fail> {
    let mut thread = started(rt.alloc(), module, 8)?;
    let mut copy = thread.copy()?;
    steps_tell_apart(rt, &mut thread, &mut copy);
    drop(thread);
    drop(copy);
    Ok(())
}

#[test]
fn a_copy_goes_on_by_itself(rt: HostRuntime) -> Result<(), Fail> {
    let module = loads_and_adds(rt.alloc())?;
    let run = copy_runs(&rt, &module);
    drop(module);
    run
}
