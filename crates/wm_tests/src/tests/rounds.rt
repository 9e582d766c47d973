//! Rounds of store buffering, with gates that hold threads back.
ghost use Rattle.std.specs.Prelude.{false, ⊤};

use super::calls::module_of;
use super::modules::{ARGUMENT, STORE_BUFFERING};
use super::same;
use std::alloc::{AllocError, Global};
use std::sync::Wait;
use std::sync::atomic::{AtomicBool, Ordering};
use std::test::Fail;
use std::thread::{Threads, yield_now};
use wm_event::{End, Start};
use wm_list::{List, Text};
use wm_run::{Gate, OpenGate, Plan, Run, Taker, run_round, run_rounds};
use wm_valid::ValidModule;

/// How often a gate looks whether another thread has come.
const MAX_LOOKS: u32 = 20_000_000;

/// The arguments of a function that takes one, or none.
fn args_of(alloc: Global, arg: Option<u64>) -> Result<List<u64>, AllocError> {
    let mut args = List::new(alloc);
    if let Some(arg) = arg {
        args.push(arg)?;
    }
    Ok(args)
}

/// A thread that starts with this function.
fn start(alloc: Global, name: &str, arg: Option<u64>) -> Result<Start, AllocError> {
    let name = Text::from_string(String::from_str(alloc, name)?);
    let args = args_of(alloc, arg)?;
    Ok(Start { name, args })
}

/// Threads that start with these functions of one argument each, or none.
pub(super) fn plan(
    alloc: Global,
    starts: &[(&str, Option<u64>)],
    drains: u32,
) -> Result<Plan, AllocError> {
    let mut list = List::new(alloc);
    for (name, arg) in starts {
        list.push(start(alloc, name, *arg)?)?;
    }
    Ok(Plan {
        starts: list,
        steps: 1_000_000,
        drains,
    })
}

/// The two threads of store buffering.
pub(super) const BOTH: [(&str, Option<u64>); 2] = [("a", None), ("b", None)];

/// How a thread of a run ended.
fn end_of(run: &Run, thread: usize) -> Option<End> {
    match run.log().threads().get(thread) {
        Some(thread) => Some(thread.end),
        None => None,
    }
}

/// How the threads of a run ended, of at most two.
fn ends(run: &Run) -> [Option<End>; 2] {
    [end_of(run, 0), end_of(run, 1)]
}

/// How the two threads of a round of a module ended; None if no round is made.
fn ends_over<R: AllocGlobal + Threads + Wait + Sync, G: Gate + Sync>(
    rt: &R,
    module: &ValidModule,
    plan: &Plan,
    gate: &G,
) -> [Option<End>; 2] {
    match run_round(rt, rt.alloc(), module, plan, gate) {
        Ok(run) => {
            let ends = ends(&run);
            drop(run);
            ends
        }
        Err(_) => [None, None],
    }
}

/// The same of the module that the bytes spell.
fn round<R: AllocGlobal + Threads + Wait + Sync, G: Gate + Sync>(
    rt: &R,
    module_bytes: &[u8],
    plan: &Plan,
    gate: &G,
) -> [Option<End>; 2] {
    match module_of(rt.alloc(), module_bytes) {
        Ok(Some(module)) => {
            let ends = ends_over(rt, &module, plan, gate);
            drop(module);
            ends
        }
        _ => [None, None],
    }
}

/// Whether a flag is set within [`MAX_LOOKS`] looks.
fn comes(flag: &AtomicBool) -> bool {
    for _look in 0..MAX_LOOKS {
        if flag.load(Ordering::SeqCst) {
            return true;
        }
        yield_now();
    }
    false
}

/// Holds thread 1 at its first access until thread 0 comes to its first, and thread 0 there until thread 1 comes to its
/// second. So the threads have to overlap.
#[derive(Drop)]
struct Meeting {
    first_came: AtomicBool,
    second_made_one: AtomicBool,
}

impl Gate for Meeting {
    ghost is_open = { λ _. false };

    fn before(&self, thread: u32, event_number: usize) -> bool {
        match (thread, event_number) {
            (0, 0) => {
                self.first_came.store(true, Ordering::SeqCst);
                comes(&self.second_made_one)
            }
            (1, 0) => comes(&self.first_came),
            (1, 1) => {
                self.second_made_one.store(true, Ordering::SeqCst);
                true
            }
            _ => true,
        }
    }

    fn before_drain(&self, _turn: u32) -> bool {
        true
    }
}

/// Both store before either loads. Without a drain each store stays in its thread's buffer, so both load Init's zero.
#[test]
fn two_workers_meet(rt: HostRuntime) -> Result<(), Fail> {
    let gate = Meeting {
        first_came: AtomicBool::new(false),
        second_made_one: AtomicBool::new(false),
    };
    let plan = plan(rt.alloc(), &BOTH, 0)?;
    let ends = round(&rt, &STORE_BUFFERING, &plan, &gate);
    drop(plan);
    same(&rt, ends, [Some(End::Done(Some(0))); 2]);
    Ok(())
}

/// Holds the drainer at its first turn until thread 0 made its store, and thread 1 at its load until the drainer made that
/// turn.
#[derive(Drop)]
struct Drained {
    stored: AtomicBool,
    drained: AtomicBool,
}

impl Gate for Drained {
    ghost is_open = { λ _. false };

    fn before(&self, thread: u32, event_number: usize) -> bool {
        match (thread, event_number) {
            (0, 1) => {
                self.stored.store(true, Ordering::SeqCst);
                true
            }
            (1, 1) => comes(&self.drained),
            _ => true,
        }
    }

    fn before_drain(&self, turn: u32) -> bool {
        match turn {
            0 => comes(&self.stored),
            1 => {
                self.drained.store(true, Ordering::SeqCst);
                true
            }
            _ => true,
        }
    }
}

#[test]
fn the_drainer_drains(rt: HostRuntime) -> Result<(), Fail> {
    let gate = Drained {
        stored: AtomicBool::new(false),
        drained: AtomicBool::new(false),
    };
    let plan = plan(rt.alloc(), &BOTH, 2)?;
    let ends = round(&rt, &STORE_BUFFERING, &plan, &gate);
    drop(plan);
    same(&rt, ends[1], Some(End::Done(Some(1))));
    Ok(())
}

#[test]
fn a_worker_reads_back_what_it_stored(rt: HostRuntime) -> Result<(), Fail> {
    let plan = plan(rt.alloc(), &[("f", Some(0)), ("f", Some(4))], 256)?;
    for _round in 0..3u32 {
        let ends = round(&rt, &ARGUMENT, &plan, &OpenGate);
        same(&rt, ends, [Some(End::Done(Some(7))); 2]);
    }
    drop(plan);
    Ok(())
}

/// Takes rounds until it has this number, and notes how many of them ended with 7 in both threads.
#[derive(Drop)]
struct UpTo {
    limit: u32,
    taken: u32,
    sevens: u32,
}

impl Taker for UpTo {
    ghost Task = { Unit {0} };

    ghost task = { λ _. tt };

    ghost takes = { λ _ _. ⊤ };

    ghost has_taken = { λ _ _. ⊤ };

    ghost is_done = { λ _. ⊤ };

    fn take(&mut self, run: Run) -> Result<bool, AllocError> {
        self.taken = self.taken.saturating_add(1);
        if ends(&run) == [Some(End::Done(Some(7))); 2] {
            self.sevens = self.sevens.saturating_add(1);
        }
        Ok(self.taken < self.limit)
    }
}

/// How many of five rounds a taker takes that wants up to `limit`, how many of these ended with 7 in both threads, and
/// whether all five were made; None if no round is made.
fn taken_of_five<R: AllocGlobal + Threads + Wait + Sync>(
    rt: &R,
    plan: &Plan,
    limit: u32,
) -> Option<(u32, u32, bool)> {
    let taker = UpTo {
        limit,
        taken: 0,
        sevens: 0,
    };
    let Ok(Some(module)) = module_of(rt.alloc(), &ARGUMENT) else {
        return None;
    };
    let (taker, made) = run_rounds(rt, rt.alloc(), &module, plan, &OpenGate, 5, taker);
    drop(module);
    match made {
        Ok(all) => Some((taker.taken, taker.sevens, all)),
        Err(_) => None,
    }
}

#[test]
fn rounds_come_one_by_one_until_the_taker_wants_no_more(rt: HostRuntime) -> Result<(), Fail> {
    let plan = plan(rt.alloc(), &[("f", Some(0)), ("f", Some(4))], 256)?;
    same(&rt, taken_of_five(&rt, &plan, 3), Some((3, 3, false)));
    same(&rt, taken_of_five(&rt, &plan, 9), Some((5, 5, true)));
    drop(plan);
    Ok(())
}
