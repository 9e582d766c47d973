//! Scripts of turns from seeds: each run is allowed, which is proved, and what happens before what in it is the plain
//! closure. The test plays, writes, reads, checks and compares each of them.
use super::calls::module_of;
use super::closure::compares_document;
use super::modules::{STORE_BUFFERING, STORE_BUFFERING_ATOMIC};
use super::rounds::{BOTH, plan};
use super::same;
use std::alloc::{AllocError, Global};
use std::process::Abort;
use std::test::Fail;
use std::thread::Threads;
use wm_check::{Verdict, check};
use wm_event::Initial;
use wm_run::{Plan, Run, Turn, drive, write_run};
use wm_valid::ValidModule;

/// A step, a drain of the oldest store, or a drain of the store after it.
fn turn(number: u64) -> Turn {
    match number {
        0 => Turn::Step(0),
        1 => Turn::Step(1),
        2 => Turn::Drain(0),
        3 => Turn::Drain(1),
        4 => Turn::DrainAt(0, 1),
        _ => Turn::DrainAt(1, 1),
    }
}

/// 40 turns that are drawn from a seed; the last two kinds are left out if stores leave in their order.
fn turns(alloc: Global, seed: u32, in_order: bool) -> Result<Vec<Turn>, AllocError> {
    let kinds = if in_order { 4 } else { 6 };
    let mut state = seed as u64;
    let mut turns = Vec::new(alloc);
    for _ in 0..40u32 {
        state = state.wrapping_mul(1_103_515_245).wrapping_add(12_345) % 2_147_483_648;
        turns.push(turn(state / 65_536 % kinds))?;
    }
    Ok(turns)
}

/// What is written of a run.
fn document_of(alloc: Global, run: &Run) -> Result<String, AllocError> {
    write_run(alloc, run)
}

/// Whether the check of a document allows it.
fn allows<R: Abort + AllocGlobal + Threads + Sync>(
    rt: &R,
    module_bytes: &[u8],
    document: &str,
) -> Result<bool, AllocError> {
    match check(rt, module_bytes, document.as_bytes())? {
        Verdict::Allowed(_) => Ok(true),
        _ => Ok(false),
    }
}

/// Whether the check of what is written of a run allows it, and what happens before what in it is the plain closure.
fn is_allowed<R: Abort + AllocGlobal + Threads + Sync>(
    rt: &R,
    module_bytes: &[u8],
    run: &Run,
) -> Result<bool, AllocError> {
    let document = document_of(rt.alloc(), run)?;
    let initial = Initial::zeros(rt.alloc(), 1);
    let is_compared = compares_document(rt, document.as_str(), &initial)?;
    Ok(allows(rt, module_bytes, document.as_str())? && is_compared)
}

/// The run of these turns; None if there is no such run.
fn driven(alloc: Global, module: &ValidModule, plan: &Plan, turns: &[Turn]) -> Option<Run> {
    drive(alloc, module, plan, turns).ok()
}

/// Whether the run of these turns is allowed.
fn plays_allowed<R: Abort + AllocGlobal + Threads + Sync>(
    rt: &R,
    module: &ValidModule,
    module_bytes: &[u8],
    plan: &Plan,
    turns: &[Turn],
) -> Result<bool, AllocError> {
    match driven(rt.alloc(), module, plan, turns) {
        Some(run) => {
            let is_allowed = is_allowed(rt, module_bytes, &run);
            drop(run);
            is_allowed
        }
        None => Ok(false),
    }
}

/// Whether the run of the turns that are drawn from a seed is allowed.
fn seed_is_allowed<R: Abort + AllocGlobal + Threads + Sync>(
    rt: &R,
    module: &ValidModule,
    module_bytes: &[u8],
    plan: &Plan,
    seed: (u32, bool),
) -> Result<bool, AllocError> {
    let turns = turns(rt.alloc(), seed.0, seed.1)?;
    plays_allowed(rt, module, module_bytes, plan, turns.as_slice())
}

/// How many of 200 seeds give a run of the module that is allowed.
fn count_over<R: Abort + AllocGlobal + Threads + Sync>(
    rt: &R,
    module: &ValidModule,
    module_bytes: &[u8],
    plan: &Plan,
    in_order: bool,
) -> Result<u32, AllocError> {
    let mut allowed = 0u32;
    for seed in 1..201u32 {
        if seed_is_allowed(rt, module, module_bytes, plan, (seed, in_order))? {
            allowed = allowed.saturating_add(1);
        }
    }
    Ok(allowed)
}

/// The same of both threads from their starts.
fn count_planned<R: Abort + AllocGlobal + Threads + Sync>(
    rt: &R,
    module: &ValidModule,
    module_bytes: &[u8],
    in_order: bool,
) -> Result<u32, AllocError> {
    let plan = plan(rt.alloc(), &BOTH, 0)?;
    let count = count_over(rt, module, module_bytes, &plan, in_order);
    drop(plan);
    count
}

/// How many of 200 seeds give a run of the module that is allowed; 0 if the bytes spell no module.
fn count_allowed<R: Abort + AllocGlobal + Threads + Sync>(
    rt: &R,
    module_bytes: &[u8],
    in_order: bool,
) -> Result<u32, AllocError> {
    match module_of(rt.alloc(), module_bytes)? {
        Some(module) => {
            let count = count_planned(rt, &module, module_bytes, in_order);
            drop(module);
            count
        }
        None => Ok(0),
    }
}

#[test]
fn driven_runs_are_allowed(rt: HostRuntime) -> Result<(), Fail> {
    for in_order in [true, false] {
        same(&rt, count_allowed(&rt, &STORE_BUFFERING, in_order)?, 200);
        same(
            &rt,
            count_allowed(&rt, &STORE_BUFFERING_ATOMIC, in_order)?,
            200,
        );
    }
    Ok(())
}
