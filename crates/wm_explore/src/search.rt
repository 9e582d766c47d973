//! The exploration: states that are extended one after the other.
ghost use Rattle.std.specs.Prelude.{◌≡◌, ◌≢◌, ◌+◌, ◌<◌, ◌≤◌, ◌^◌, ℕ, List, true, false, IfOk, OnOk, length};
ghost use Rattle.wm_event.specs.Limits.{max_threads};
ghost use Rattle.wm_event.specs.Log.{IsLog};
ghost use Rattle.wm_event.specs.Op.{event_made, kind_finds};
ghost use Rattle.wm_event.specs.declared.log.ThreadLog.{ThreadLog};
ghost use Rattle.wm_explore.specs.Bounds.{Excuses, IsExcused};
ghost use Rattle.wm_explore.specs.Executions.{IsFinished, ends_of};
ghost use Rattle.wm_explore.specs.Known.{IsNoted};
ghost use Rattle.wm_explore.specs.Search.{AddsPermitted, AddsRead, EndsFound, Explores, IsFirstState, IsProgress, IsStep, Lists};
ghost use Rattle.wm_explore.specs.Subtrees.{Advances};
ghost use Rattle.wm_explore.specs.States.{count_in, extended};
ghost use Rattle.wm_explore.specs.Turns.{AreNexts, EachEndsIn, EndSo, MakesNext, OthersRest};
ghost use Rattle.wm_explore.specs.Writing.{ListsWriting};

use crate::bound::{Bound, Limits};
use crate::cache::Cache;
use crate::copies::copied_start;
use crate::exploration::{Exploration, Finished};
use crate::hint::Hint;
use crate::judge::{Permission, judged};
use crate::moved::{is_idle, last_moved};
use crate::past::{past_of, past_of_write};
use crate::standing::pasts_of;
use crate::state::State;
use crate::subtrees::explore_some;
use crate::turn::{Turn, nexts, others_rest, turn_of};
use crate::values::values;
use crate::writing::writing;
use std::alloc::{AllocError, AllocGlobal, Global};
use std::thread::Threads;
use wm_event::{End, Event, EventKey, Initial, Log, Op, Start, ThreadLog};
use wm_list::List;
use wm_replay::{Completion, Next, complete};
use wm_valid::ValidModule;

/// How far an exploration has come.
#[derive(Drop)]
pub(crate) struct Progress {
    /// The states that are still to be extended.
    pub work: Vec<State>,
    /// An execution for each outcome found.
    pub finished: Vec<Finished>,
    /// A bound that was met.
    pub met: Option<Bound>,
}

impl Progress {
    /// Notes that a bound was met.
    pub(crate) fn meet(&mut self, bound: Bound)
        ensures work { self.new.work ≡ self.old.work }
        ensures finished { self.new.finished ≡ self.old.finished }
        ensures kept { (events : ℕ) (log : List ThreadLog) → IsExcused events self.old.met log → IsExcused events self.new.met log }
        ensures met { (events : ℕ) (log : List ThreadLog) → Excuses events bound log → IsExcused events self.new.met log }
    {
        self.met = Some(match self.met {
            None => bound,
            Some(other) => bound.earlier(other),
        });
    }
}

/// Whether two ends are the same.
fn are_same(end: End, other: End) -> bool
    ensures same { result ≡ true → end ≡ other }
    ensures other { result ≡ false → end ≢ other }
{
    end == other
}

/// Whether the threads of two logs end in the same ways.
fn have_same_ends(log: &[ThreadLog], other: &[ThreadLog]) -> bool
    ensures same { result ≡ true → ends_of log.now ≡ ends_of other.now }
    ensures other { result ≡ false → ends_of log.now ≢ ends_of other.now }
{
    if log.len() != other.len() {
        return false;
    }
    for (number, thread) in log.iter().enumerate() {
        if !are_same(thread.end, other[number].end) {
            return false;
        }
    }
    true
}

/// Whether an execution with the ends of a log was found.
pub(crate) fn is_listed(finished: &[Finished], log: &Log) -> bool
    ensures listed { result ≡ true → Lists finished.now (ends_of log.now) }
    ensures not { result ≡ false → Lists finished.now (ends_of log.now) → ⊥ }
{
    for other in finished {
        if have_same_ends(other.log.threads(), log.threads()) {
            return true;
        }
    }
    false
}

/// Whether what a thread does next is to end so.
fn ends_as(next: Next, end: End) -> bool
    ensures { result ≡ true → next ≡ Next.Ends end }
{
    match next {
        Next::Ends(other) => are_same(other, end),
        Next::Access(_) | Next::Unknown => false,
    }
}

/// Whether the threads of an execution end as these threads do next.
fn end_so(threads: &[ThreadLog], nexts: &[Next]) -> bool
    ensures { result ≡ true → EndSo threads.now nexts.now }
{
    if threads.len() != nexts.len() {
        return false;
    }
    for (number, thread) in threads.iter().enumerate() {
        if !ends_as(nexts[number], thread.end) {
            return false;
        }
    }
    true
}

/// Whether an execution was found that ends as these threads do next.
fn ends_found(finished: &[Finished], nexts: &[Next]) -> bool
    ensures { result ≡ true → EndsFound finished.now nexts.now }
{
    for other in finished {
        if end_so(other.log.threads(), nexts) {
            return true;
        }
    }
    false
}

/// Whether each thread has ended.
fn is_finished(threads: &[ThreadLog]) -> bool
    ensures finished { result ≡ true → IsFinished threads.now }
    ensures not { result ≡ false → IsFinished threads.now → ⊥ }
{
    for thread in threads {
        if thread.end == End::Cut {
            return false;
        }
    }
    true
}

/// Looks at a state in which each thread has ended.
fn finish(
    alloc: Global,
    module: &ValidModule,
    nodes: u64,
    state: &State,
    nexts: &[Next],
    progress: &mut Progress,
) -> Result<(), AllocError>
    requires ends { EachEndsIn «module».now state.now.log }
    requires nexts { AreNexts «module».now state.now.log nexts.now }
    ensures { OnOk result ((events : ℕ) → IsStep «module».now events state.now progress.old progress.new) }
{
    if ends_found(progress.finished.as_slice(), nexts) {
        return Ok(());
    }
    let log = match complete(alloc, module, &state.log)? {
        Completion::Completed(log) => log,
        Completion::NoRun(_) => return Ok(()),
    };
    if !is_finished(log.threads()) {
        return Ok(());
    }
    if is_listed(progress.finished.as_slice(), &log) {
        return Ok(());
    }
    let arrived = state.arrived.as_slice();
    match judged(alloc, &log, arrived, module.initial(), nodes)? {
        Permission::With(witness) => progress.finished.push(Finished { log, witness })?,
        Permission::Never => {}
        Permission::Unknown => progress.meet(Bound::Nodes),
    }
    Ok(())
}

/// How many events a thread of a state has.
fn event_count(state: &State, thread: usize) -> usize
    ensures count { result ≡ count_in state.now.log thread }
    ensures log { IsLog state.now.log }
{
    match state.log.threads().get(thread) {
        None => 0,
        Some(stated) => stated.events.len(),
    }
}

/// The event that a thread makes next by an access, if it reads this value.
fn next_event(state: &State, thread: usize, op: Op, read: u64) -> Event
    requires thread { thread < length state.now.log }
    requires few { length state.now.log ≤ max_threads }
    requires number { count_in state.now.log thread < 2 ^ 32 }
    ensures log { IsLog (extended thread result state.now.log) }
    ensures event { result ≡ event_made (record { thread = thread; number = count_in state.now.log thread }) op read }
{
    let number = event_count(state, thread);
    let key = EventKey {
        thread: thread as u32,
        number: number as u32,
    };
    // An access keeps what its kind asks of its fields.
    let _ = op.fields();
    op.event(key, read)
}

/// Adds the state in which a thread has one more event, unless no witness makes it one of a valid execution. That is asked
/// only of a state without a hint.
fn add_permitted(
    alloc: Global,
    initial: &Initial,
    nodes: u64,
    child: State,
    work: &mut Vec<State>,
) -> Result<(), AllocError>
    ensures { OnOk result (AddsPermitted initial.now child work.old.items work.new.items) }
{
    if child.hint.is_some() {
        work.push(child)?;
        return Ok(());
    }
    match judged(alloc, &child.log, child.arrived.as_slice(), initial, nodes)? {
        Permission::Never => {}
        Permission::With(witness) => {
            let hint = Hint::of(alloc, &child.log, &witness)?;
            work.push(child.hinted(hint))?;
        }
        Permission::Unknown => work.push(child)?,
    }
    Ok(())
}

/// Adds the state in which a thread has one more event, which reads, unless no valid execution that keeps the mark of the
/// thread has it there.
fn add_read(
    alloc: Global,
    initial: &Initial,
    nodes: u64,
    state: &State,
    nexts: &[Next],
    writing: &[usize],
    work: &mut Vec<State>,
    thread: usize,
    event: Event,
) -> Result<(), AllocError>
    requires log { IsLog (extended thread event state.now.log) }
    requires writing { ListsWriting state.now event.address event.width writing.now }
    ensures { OnOk result (AddsRead initial.now nexts.now thread event state.now work.old.items work.new.items) }
{
    match pasts_of(alloc, state, writing, initial, &event)? {
        None => Ok(()),
        Some(pasts) => {
            let child = state.with(alloc, initial, nexts, thread, event, pasts)?;
            add_permitted(alloc, initial, nodes, child, work)
        }
    }
}

/// The same, where the state gives way to the one that is added.
fn add_last_read(
    alloc: Global,
    initial: &Initial,
    nodes: u64,
    state: State,
    nexts: &[Next],
    writing: &[usize],
    work: &mut Vec<State>,
    thread: usize,
    event: Event,
) -> Result<(), AllocError>
    requires log { IsLog (extended thread event state.log) }
    requires writing { ListsWriting state event.address event.width writing.now }
    ensures { OnOk result (AddsRead initial.now nexts.now thread event state work.old.items work.new.items) }
{
    match past_of(&state, writing, initial, &event) {
        None => Ok(()),
        Some(past) => {
            let child = state.into_child(alloc, initial, nexts, thread, event, past)?;
            add_permitted(alloc, initial, nodes, child, work)
        }
    }
}

/// How many of some values a thread reads in copies of a state: all, or all but the last if nothing else comes of the state.
fn copies_of(state: &State, nexts: &[Next], thread: usize, values: usize) -> usize
    ensures most { result ≤ values }
    ensures one_less { values ≤ result + 1 }
    ensures rest { result < values → OthersRest state.now nexts.now thread }
{
    if others_rest(state, nexts, thread) {
        values.saturating_sub(1)
    } else {
        values
    }
}

/// Adds the states in which a thread makes the access, which reads, and the one in which it waits, unless all would wait then.
fn add_reads(
    alloc: Global,
    module: &ValidModule,
    limits: Limits,
    state: State,
    nexts: &[Next],
    progress: &mut Progress,
    thread: usize,
    op: Op,
) -> Result<(), AllocError>
    requires few { length state.log ≤ max_threads }
    requires noted { IsNoted «module».now state }
    requires nexts { AreNexts «module».now state.log nexts.now }
    requires next { MakesNext «module».now limits.events state.log thread op }
    requires reads { kind_finds op.kind ≡ true }
    ensures { OnOk result (IsStep «module».now limits.events state progress.old progress.new) }
{
    let initial = module.initial();
    let writing = writing(alloc, &state, op.fields())?;
    let writing = writing.as_slice();
    let mark = state.mark(thread);
    let values = values(alloc, &state, writing, initial, op.fields(), mark)?;
    let values = values.as_slice();
    let copies = copies_of(&state, nexts, thread, values.len());
    for place in 0..copies {
        let event = next_event(&state, thread, op, values[place]);
        add_read(
            alloc,
            initial,
            limits.nodes,
            &state,
            nexts,
            writing,
            &mut progress.work,
            thread,
            event,
        )?;
    }
    if copies < values.len() {
        let event = next_event(&state, thread, op, values[copies]);
        return add_last_read(
            alloc,
            initial,
            limits.nodes,
            state,
            nexts,
            writing,
            &mut progress.work,
            thread,
            event,
        );
    }
    let waiting = state.marked(alloc, nexts, thread)?;
    match turn_of(&waiting, nexts, limits.events) {
        // Each thread would wait.
        Turn::Stuck => Ok(()),
        _ => {
            progress.work.push(waiting)?;
            Ok(())
        }
    }
}

/// Extends a state whose threads do this next.
fn extend(
    alloc: Global,
    module: &ValidModule,
    limits: Limits,
    state: State,
    nexts: &[Next],
    progress: &mut Progress,
) -> Result<(), AllocError>
    requires few { length state.log ≤ max_threads }
    requires noted { IsNoted «module».now state }
    requires nexts { AreNexts «module».now state.log nexts.now }
    ensures { OnOk result (IsStep «module».now limits.events state progress.old progress.new) }
{
    match turn_of(&state, nexts, limits.events) {
        Turn::Nothing => finish(alloc, module, limits.nodes, &state, nexts, progress),
        Turn::Write(thread, op) => {
            let event = next_event(&state, thread, op, 0);
            let past = past_of_write(&state, event.key());
            let initial = module.initial();
            let child = state.into_child(alloc, initial, nexts, thread, event, past)?;
            progress.work.push(child)?;
            Ok(())
        }
        Turn::Read(thread, op) => {
            add_reads(alloc, module, limits, state, nexts, progress, thread, op)
        }
        Turn::Bounded(bound) => {
            progress.meet(bound);
            Ok(())
        }
        Turn::Stuck => Ok(()),
    }
}

/// The state before anything has happened.
fn first_state(alloc: Global, starts: &[Start]) -> Result<State, AllocError>
    ensures { IfOk result (IsFirstState starts.now) }
{
    let mut threads = List::new(alloc);
    let mut marks = List::new(alloc);
    for start in starts {
        let start = copied_start(alloc, start)?;
        threads.push(ThreadLog {
            start,
            end: End::Cut,
            steps: 0,
            events: List::new(alloc),
        })?;
        marks.push(None)?;
    }
    Ok(State {
        log: Log::new(threads),
        arrived: List::new(alloc),
        marks,
        pasts: List::new(alloc),
        known: List::new(alloc),
        hint: Some(Hint::new(alloc)),
    })
}

/// Extends states, the last one that is left first, and what follows from them, until nothing is left or this number of
/// graphs has been extended. Returns how many were.
pub(crate) fn advance(
    alloc: Global,
    module: &ValidModule,
    starts: &[Start],
    limits: Limits,
    most: u64,
    progress: &mut Progress,
) -> Result<u64, AllocError>
    requires few { length starts.now ≤ max_threads }
    requires progress { IsProgress «module».now starts.now progress.old }
    ensures { OnOk result (Advances «module».now starts.now limits.events progress.old progress.new) }
{
    let mut cache = Cache::new(alloc)?;
    for graphs in 0..most {
        match progress.work.pop() {
            None => return Ok(graphs),
            Some(state) => {
                let moved = last_moved(alloc, module, &state, &mut cache)?;
                // An execution that goes on from here has a shorter one with its ends.
                if is_idle(&moved) {
                    continue;
                }
                let nexts = nexts(alloc, module, &state, &moved)?;
                extend(alloc, module, limits, state, nexts.as_slice(), progress)?;
            }
        }
    }
    Ok(most)
}

/// The outcomes that the memory rules permit of a module whose threads are started so, computed on as many threads as
/// there are processors. The answer doesn't depend on how many there are.
///
/// # Errors
///
/// Only if an allocation fails.
pub fn explore<R: AllocGlobal + Threads + Sync>(
    rt: &R,
    module: &ValidModule,
    starts: &[Start],
    limits: Limits,
) -> Result<Exploration, AllocError>
    requires { length starts.now ≤ max_threads }
    ensures { IfOk result (Explores «module».now starts.now limits.events) }
{
    let alloc = rt.alloc();
    let mut progress = Progress {
        work: Vec::new(alloc),
        finished: Vec::new(alloc),
        met: None,
    };
    progress.work.push(first_state(alloc, starts)?)?;
    let mut graphs: u64 = 0;
    for _ in 0..limits.graphs {
        if progress.work.is_empty() {
            return Ok(Exploration {
                finished: List::from_vec(progress.finished),
                graphs,
                met: progress.met,
            });
        }
        if graphs >= limits.graphs {
            break;
        }
        graphs = graphs.saturating_add(explore_some(rt, module, starts, limits, &mut progress)?);
    }
    progress.meet(Bound::Graphs);
    Ok(Exploration {
        finished: List::from_vec(progress.finished),
        graphs,
        met: progress.met,
    })
}
