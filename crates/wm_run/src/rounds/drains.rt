//! The drainer of a round.
ghost use Rattle.std.specs.Prelude.{◌≡◌, ◌≤◌, IfOk};
ghost use Rattle.wm_run.specs.Drains.{AreDrains, drainer_turn};

use crate::rounds::gate::Gate;
use std::alloc::{AllocError, Global};
use wm_recorder::{Calls, Drains};

/// A turn of the drainer: which store of a thread leaves its buffer.
#[derive(Clone, Copy)]
enum DrainerTurn {
    /// The oldest one.
    Oldest(u32),
    /// The one after the oldest.
    Second(u32),
}

/// The drainer's turn of this number, among this number of threads.
fn drainer_turn(threads: u32, number: u32) -> DrainerTurn
    requires { 1 ≤ threads }
    ensures { result ≡ drainer_turn threads number }
{
    let thread = number % threads;
    if number / threads % 2 == 1 {
        DrainerTurn::Second(thread)
    } else {
        DrainerTurn::Oldest(thread)
    }
}

/// Takes `drains` turns over the buffers of `threads` threads, one thread after the other. The passes alternate between
/// draining the oldest store and draining the one after it. The drainer ends when the gate answers false; the gate is
/// asked before each turn while no lock is held. Returns its calls: one drain for each turn.
///
/// # Errors
///
/// Only if an allocation fails.
pub fn drainer<S: Drains, G: Gate>(
    alloc: Global,
    shared: &S,
    threads: u32,
    drains: u32,
    gate: &G,
) -> Result<Calls, AllocError>
    requires { 1 ≤ threads }
    ensures { IfOk result (AreDrains (G.is_open gate.now) drains) }
{
    let mut calls = Calls::new(alloc);
    for number in 0..drains {
        if !gate.before_drain(number) {
            return Ok(calls);
        }
        match drainer_turn(threads, number) {
            DrainerTurn::Oldest(thread) => shared.drain(&mut calls, thread)?,
            DrainerTurn::Second(thread) => shared.drain_at(&mut calls, thread, 1)?,
        };
    }
    Ok(calls)
}
