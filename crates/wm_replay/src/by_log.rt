//! A thread that is run by its log: on the values that its events read, as long as it makes those events.
ghost use Rattle.std.specs.Prelude.{◌≡◌, ◌≤◌, ℕ, Ok, true, false, IfOk};
ghost use Rattle.wm_event.specs.Op.{kind_finds};
ghost use Rattle.wm_event.specs.Reply.{ReadAnswers};
ghost use Rattle.wm_machine.specs.Run.{end_of as config_end};
ghost use Rattle.wm_machine.specs.State.{config_of, need_of, value_or_zero};
ghost use Rattle.wm_machine.specs.Stepping.{HasNoLocalStep};
ghost use Rattle.wm_replay.specs.Following.{FollowsLog, HasPlaces, MakesEvent, MakesNext, MakesNotEvent, RunsByLog};
ghost use Rattle.wm_replay.specs.Positions.{ArePositions, HasCome, HasFollowed, HasPositions, HasReached, IsFollowed, IsReached, MovesIfMade, NotesPosition};

use std::alloc::{AllocError, Global};
use wm_event::{End, Event, EventId, Op, Reply, ThreadLog};
use wm_list::List;
use wm_machine::{AdvanceFault, CodePosition, Need, StartFault, Thread};
use wm_num::low_bytes;
use wm_valid::ValidModule;

/// How far a thread was run by its log.
#[derive(Drop)]
struct Progress {
    steps: u32,
    /// How many events of its log the thread made.
    events: usize,
    /// The position of the thread before the step that made each event.
    positions: Vec<CodePosition>,
}

/// A thread that was run by its log until it ended, came to an access that isn't the log's next event, or had made the
/// given number of steps.
#[derive(Drop)]
pub struct Followed<'m> {
    /// The thread after its last step.
    pub thread: Thread<'m>,
    /// How many steps it made.
    pub steps: u32,
    /// How many events of its log it made. They are the first ones of the log.
    pub events: usize,
    /// The position in the code before the step that made each event, in their order.
    pub positions: List<CodePosition>,
}

impl<'m> Followed<'m> {
    /// A copy, whose thread goes on by itself.
    ///
    /// # Errors
    ///
    /// Only if an allocation fails.
    pub fn copy(&self, alloc: Global) -> Result<Self, AllocError>
        ensures { IfOk result (λ copy. copy ≡ self.now) }
    {
        Ok(Followed {
            thread: self.thread.copy()?,
            steps: self.steps,
            events: self.events,
            positions: List::from_vec(self.positions.as_slice().to_vec(alloc)?),
        })
    }
}

/// Whether the access makes the event when it reads the value that the event read.
fn makes_event(op: &Op, event: &Event) -> bool
    ensures yes { result ≡ true → MakesEvent op.now event.now }
    ensures no { result ≡ false → MakesNotEvent op.now event.now }
{
    let width = op.fields().width;
    low_bytes(event.read, width) == event.read && op.event(event.key(), event.read) == *event
}

/// The reply to an access that makes the event.
fn reply_of(op: &Op, event: &Event) -> Reply
    requires { MakesEvent op.now event.now }
    ensures answers { ReadAnswers (kind_finds op.now.kind) op.now.width result.read }
    ensures value { value_or_zero result.read ≡ event.now.read }
{
    Reply {
        read: if op.reads() { Some(event.read) } else { None },
        stored: event.writes(),
        writers: [EventId::Init; 8],
    }
}

/// Makes the next step of a thread that has no local one, if it is the access that is the log's next event, after the
/// given number of events, and notes where that access is made. Returns whether it was made.
fn event_by_log(
    thread: &mut Thread,
    stated: &[Event],
    events: usize,
    positions: &mut Vec<CodePosition>,
) -> Result<bool, AllocError>
    requires { (read : ℕ) → HasNoLocalStep (need_of read thread.old) }
    ensures made { IfOk result (MakesNext thread.old.module (config_of thread.old) (config_of thread.new) stated.now events) }
    ensures noted { IfOk result (NotesPosition thread.old positions.old.items positions.new.items) }
    ensures moves { IfOk result (MovesIfMade thread.old thread.new) }
    ensures same { thread.new.module ≡ thread.old.module }
{
    let Need::Access(op) = thread.next() else {
        return Ok(false);
    };
    if events >= stated.len() {
        return Ok(false);
    }
    let event = &stated[events];
    if !makes_event(&op, event) {
        return Ok(false);
    }
    positions.push(thread.position())?;
    match thread.advance(Some(reply_of(&op, event))) {
        Ok(()) => Ok(true),
        Err(AdvanceFault::OutOfMemory) => Err(AllocError),
    }
}

/// The end of a thread that makes no further step here.
pub fn end_of(thread: &Thread) -> End
    ensures { result ≡ config_end (config_of thread.now) }
{
    match thread.next() {
        Need::Ended(end) => end,
        Need::Local | Need::Access(_) => End::Cut,
    }
}

/// Runs a thread that has come so far by its log on, until it ends, comes to an access that isn't the log's next event, or
/// has made `limit` steps.
fn run_by_log(
    thread: &mut Thread,
    stated: &ThreadLog,
    number: usize,
    limit: u32,
    mut progress: Progress,
) -> Result<Progress, AllocError>
    requires come { HasCome thread.old.module number stated.now thread.old progress.steps progress.events progress.positions.items }
    requires within { progress.steps ≤ limit }
    requires places { HasPlaces number stated.now.events }
    ensures runs { IfOk result (λ p. RunsByLog thread.old.module number stated.now limit (config_of thread.new) p.steps p.events) }
    ensures positions { IfOk result (λ p. ArePositions thread.old.module number stated.now p.events p.positions.items) }
    ensures reached { IfOk result (λ p. IsReached thread.old.module number stated.now p.steps thread.new) }
    ensures same { thread.new.module ≡ thread.old.module }
{
    let stated_events = stated.events.as_slice();
    loop {
        match thread.run(limit - progress.steps) {
            Ok(local) => progress.steps += local,
            Err(AdvanceFault::OutOfMemory) => return Err(AllocError),
        }
        if progress.steps >= limit
            || !event_by_log(
                thread,
                stated_events,
                progress.events,
                &mut progress.positions,
            )?
        {
            return Ok(progress);
        }
        progress.steps += 1;
        progress.events += 1;
    }
}

/// Runs a thread that has come so far by its log on.
fn followed_from<'m>(
    mut thread: Thread<'m>,
    stated: &ThreadLog,
    number: usize,
    limit: u32,
    progress: Progress,
) -> Result<Followed<'m>, AllocError>
    requires come { HasCome thread.module number stated.now thread progress.steps progress.events progress.positions.items }
    requires within { progress.steps ≤ limit }
    requires places { HasPlaces number stated.now.events }
    ensures { IfOk result (IsFollowed thread.entry.module number stated.now limit) }
{
    let progress = run_by_log(&mut thread, stated, number, limit, progress)?;
    Ok(Followed {
        thread,
        steps: progress.steps,
        events: progress.events,
        positions: List::from_vec(progress.positions),
    })
}

/// Starts a thread as its log states, and runs it on the values that its events read. It stops when it has ended,
/// before an access that isn't the log's next event, or after `limit` steps. The steps and the end that the log states
/// are ignored. `number` is the thread's number in the log. If the thread doesn't start, the result is the reason,
/// which is never `OutOfMemory`.
///
/// # Errors
///
/// Only if an allocation fails.
pub fn follow<'m>(
    alloc: Global,
    module: &'m ValidModule,
    stated: &ThreadLog,
    number: usize,
    limit: u32,
) -> Result<Result<Followed<'m>, StartFault>, AllocError>
    requires { HasPlaces number stated.now.events }
    ensures runs { IfOk result (FollowsLog «module».now number stated.now limit) }
    ensures positions { IfOk result (HasPositions «module».now number stated.now) }
    ensures reached { IfOk result (HasReached «module».now number stated.now) }
{
    let name = stated.start.name.as_str();
    let args = stated.start.args.as_slice();
    let thread = match Thread::start(alloc, module, name, args) {
        Ok(thread) => thread,
        Err(StartFault::OutOfMemory) => return Err(AllocError),
        Err(fault) => return Ok(Err(fault)),
    };
    let none = Progress {
        steps: 0,
        events: 0,
        positions: Vec::new(alloc),
    };
    let followed = followed_from(thread, stated, number, limit, none)?;
    Ok(Ok(followed))
}

/// Runs a thread on that was run by the first events of its log, by [`follow`] or by this function with the same number
/// and limit. The result is the one that [`follow`] gives for the whole log.
///
/// # Errors
///
/// Only if an allocation fails.
pub fn follow_on<'m>(
    followed: Followed<'m>,
    stated: &ThreadLog,
    number: usize,
    limit: u32,
) -> Result<Followed<'m>, AllocError>
    requires places { HasPlaces number stated.now.events }
    requires first { HasFollowed followed.thread.module number stated.now limit followed }
    ensures { IfOk result (IsFollowed followed.entry.thread.module number stated.now limit) }
{
    let Followed {
        thread,
        steps,
        events,
        positions,
    } = followed;
    let progress = Progress {
        steps,
        events,
        positions: positions.into_vec(),
    };
    followed_from(thread, stated, number, limit, progress)
}
