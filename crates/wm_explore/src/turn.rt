//! What is added next to a state.
ghost use Rattle.std.specs.Prelude.{◌≡◌, IfOk, IfSome, None, Some, true, false};
ghost use Rattle.wm_ast.specs.declared.module.Module.{Module};
ghost use Rattle.wm_event.specs.Op.{kind_finds};
ghost use Rattle.wm_explore.specs.Known.{KnowsNexts};
ghost use Rattle.wm_explore.specs.Moved.{IsMoved, MovesSo};
ghost use Rattle.wm_explore.specs.Turns.{AreNexts, EachEnds, FindsBound, FindsRead, FindsWrite, HasNoNew, IsTurn, OthersRest, Rests, WaitsFor, bound_at};
ghost use Rattle.wm_replay.specs.Continuing.{ContinuesSo};
ghost use Rattle.wm_replay.specs.Following.{HasPlaces};

use crate::bound::Bound;
use crate::moved::Moved;
use crate::state::State;
use crate::writing::is_writer;
use std::alloc::{AllocError, Global};
use wm_event::{End, Op, OpFields, ThreadLog};
use wm_list::List;
use wm_replay::{Next, next_after};
use wm_valid::ValidModule;

/// What is added next to a state.
#[derive(Clone, Copy)]
pub(crate) enum Turn {
    /// Nothing: each thread has ended.
    Nothing,
    /// An event of a thread whose next access only writes.
    Write(usize, Op),
    /// An event of a thread whose next access reads.
    Read(usize, Op),
    /// A thread is at a bound.
    Bounded(Bound),
    /// Each thread that has not ended waits for an event that writes what it reads, and no thread makes one.
    Stuck,
}

/// What a thread of a state does next, of which it isn't known; one that doesn't start ends as one that is cut.
fn next_of_thread(
    alloc: Global,
    module: &ValidModule,
    moved: &Option<Moved>,
    stated: &ThreadLog,
    number: usize,
) -> Result<Next, AllocError>
    requires places { HasPlaces number stated.now.events }
    requires moved { IfSome moved.now (MovesSo «module».now number stated.now) }
    ensures { IfOk result (ContinuesSo «module».now number stated.now) }
{
    if let Some(moved) = moved
        && moved.number == number
    {
        return Ok(moved.next);
    }
    match next_after(alloc, module, stated, number)? {
        Err(_) => Ok(Next::Ends(End::Cut)),
        Ok(next) => Ok(next),
    }
}

/// What each thread of a state does next. It is found by running those of which it isn't known, but for the one that moved.
pub(crate) fn nexts(
    alloc: Global,
    module: &ValidModule,
    state: &State,
    moved: &Option<Moved>,
) -> Result<List<Next>, AllocError>
    requires known { KnowsNexts «module».now state.now }
    requires moved { IfSome moved.now (IsMoved «module».now state.now) }
    ensures { IfOk result (AreNexts «module».now state.now.log) }
{
    let mut nexts = List::new(alloc);
    for (number, stated) in state.log.threads().iter().enumerate() {
        if let Some(next) = state.known(number) {
            nexts.push(next)?;
            continue;
        }
        nexts.push(next_of_thread(alloc, module, moved, stated, number)?)?;
    }
    Ok(nexts)
}

/// The bound that a thread is at, if it is at one.
fn bound_of(state: &State, number: usize, next: Next, events: u32) -> Option<Bound>
    ensures { result ≡ bound_at state.now.log number next events }
{
    match next {
        Next::Ends(_) => None,
        Next::Unknown => Some(Bound::Steps(number)),
        Next::Access(_) => {
            let stated = state.log.threads().get(number)?;
            if stated.events.len() < events as usize {
                None
            } else {
                Some(Bound::Events(number))
            }
        }
    }
}

/// The bound of the threads that are at one, if there are any.
fn met_bound(state: &State, nexts: &[Next], events: u32) -> Option<Bound>
    ensures { FindsBound state.now.log nexts.now events result }
{
    let mut met = None;
    for (number, next) in nexts.iter().enumerate() {
        if let Some(bound) = bound_of(state, number, *next, events) {
            met = Some(match met {
                None => bound,
                Some(other) => bound.earlier(other),
            });
        }
    }
    met
}

/// The access by which a thread writes next without reading.
fn write_of(next: Next) -> Option<Op>
    ensures some { IfSome result (λ op. (next ≡ Next.Access op) × (kind_finds op.kind ≡ false)) }
    ensures none { result ≡ None → (op : OpFields) → next ≡ Next.Access op → kind_finds op.kind ≡ true }
{
    let Next::Access(op) = next else {
        return None;
    };
    if op.reads() {
        return None;
    }
    Some(op)
}

/// The event of the first thread whose next access only writes.
fn first_write(nexts: &[Next]) -> Option<Turn>
    ensures { FindsWrite nexts.now result }
{
    for (number, next) in nexts.iter().enumerate() {
        match write_of(*next) {
            None => {}
            Some(op) => return Some(Turn::Write(number, op)),
        }
    }
    None
}

/// Whether one of the events that arrived after the first `count` writes a byte of an access.
fn has_new(state: &State, op: OpFields, count: usize) -> bool
    ensures { result ≡ false → HasNoNew state.now op count }
{
    let arrived = state.arrived.as_slice();
    for place in count..arrived.len() {
        if is_writer(state, arrived[place], op) {
            return true;
        }
    }
    false
}

/// Whether a thread that is about to read can have a value that it could not have when it was marked.
fn can_read(state: &State, number: usize, op: OpFields) -> bool
    ensures { result ≡ false → WaitsFor state.now number op }
{
    match state.mark(number) {
        None => true,
        Some(count) => has_new(state, op, count),
    }
}

/// The access by which a thread reads next, unless it has to wait.
fn read_of(state: &State, number: usize, next: Next) -> Option<Op>
    ensures some { IfSome result (λ op. (next ≡ Next.Access op) × (kind_finds op.kind ≡ true)) }
    ensures none { result ≡ None → (op : OpFields) → next ≡ Next.Access op → kind_finds op.kind ≡ true → WaitsFor state.now number op }
{
    let Next::Access(op) = next else {
        return None;
    };
    if !op.reads() {
        return None;
    }
    if can_read(state, number, op.fields()) {
        Some(op)
    } else {
        None
    }
}

/// The event of the first thread whose next access reads and that need not wait.
fn first_read(state: &State, nexts: &[Next]) -> Option<Turn>
    ensures { FindsRead state.now nexts.now result }
{
    for (number, next) in nexts.iter().enumerate() {
        match read_of(state, number, *next) {
            None => {}
            Some(op) => return Some(Turn::Read(number, op)),
        }
    }
    None
}

/// Whether the next access of a thread is atomic, if it reads and the thread is not marked.
fn is_atomic_if_unmarked(state: &State, number: usize, next: Next) -> Option<bool> {
    if state.mark(number).is_some() {
        return None;
    }
    let op = read_of(state, number, next)?;
    Some(op.fields().order.is_atomic())
}

/// The thread that is to read next, so that few graphs are likely to follow: the first one that is not marked, if it can be
/// one whose next access is atomic.
fn preferred(state: &State, nexts: &[Next]) -> Option<usize> {
    let mut first = None;
    for (number, next) in nexts.iter().enumerate() {
        match is_atomic_if_unmarked(state, number, *next) {
            Some(true) => return Some(number),
            Some(false) if first.is_none() => first = Some(number),
            Some(false) | None => {}
        }
    }
    first
}

/// The event of the preferred thread, if there is one.
fn preferred_read(state: &State, nexts: &[Next]) -> Option<Turn>
    ensures { IfSome result (λ turn. FindsRead state.now nexts.now (Some turn)) }
{
    let number = preferred(state, nexts)?;
    let op = read_of(state, number, *nexts.get(number)?)?;
    Some(Turn::Read(number, op))
}

/// The event of a thread whose next access reads and that need not wait.
fn next_read(state: &State, nexts: &[Next]) -> Option<Turn>
    ensures { FindsRead state.now nexts.now result }
{
    match preferred_read(state, nexts) {
        None => first_read(state, nexts),
        Some(turn) => Some(turn),
    }
}

/// Whether a thread ends, or waits for an event that writes what it reads.
fn rests(state: &State, number: usize, next: Next) -> bool
    ensures { result ≡ true → Rests state.now number next }
{
    match next {
        Next::Ends(_) => true,
        Next::Access(op) => !can_read(state, number, op.fields()),
        Next::Unknown => false,
    }
}

/// Whether each thread but one, which can be marked, ends, or waits for an event that writes what it reads.
pub(crate) fn others_rest(state: &State, nexts: &[Next], thread: usize) -> bool
    ensures { result ≡ true → OthersRest state.now nexts.now thread }
{
    if state.marks.len() <= thread {
        return false;
    }
    for (number, next) in nexts.iter().enumerate() {
        if number == thread {
            continue;
        }
        if !rests(state, number, *next) {
            return false;
        }
    }
    true
}

/// Whether each thread ends.
fn each_ends(nexts: &[Next]) -> bool
    ensures { EachEnds nexts.now result }
{
    for next in nexts {
        match next {
            Next::Ends(_) => {}
            Next::Access(_) | Next::Unknown => return false,
        }
    }
    true
}

/// What is added next to a state whose threads do this next, where a thread has at most this number of events.
pub(crate) fn turn_of(state: &State, nexts: &[Next], events: u32) -> Turn
    ensures { (m : Module) → AreNexts m state.now.log nexts.now → IsTurn m events state.now result }
{
    match met_bound(state, nexts, events) {
        None => {}
        Some(bound) => return Turn::Bounded(bound),
    }
    match first_write(nexts) {
        None => {}
        Some(turn) => return turn,
    }
    match next_read(state, nexts) {
        None => {}
        Some(turn) => return turn,
    }
    if each_ends(nexts) {
        return Turn::Nothing;
    }
    Turn::Stuck
}
