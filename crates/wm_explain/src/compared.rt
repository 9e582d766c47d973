//! A thread's log compared with its run.
ghost use Rattle.std.specs.Prelude.{◌≡◌, ℕ, IfOk, IfSome, slice_get};
ghost use Rattle.wm_explain.specs.Compared.{IsCompared, next_by_log, next_by_module};
ghost use Rattle.wm_machine.specs.State.{need_of};
ghost use Rattle.wm_replay.specs.Following.{HasPlaces};

use std::alloc::{AllocError, Global};
use std::fmt;
use wm_event::{End, Event, MAX_STEPS, OpFields, ThreadLog};
use wm_list::List;
use wm_machine::{CodePosition, Need, Thread};
use wm_phrase::{EndPhrase, EventPhrase, OpPhrase};
use wm_replay::follow;
use wm_valid::ValidModule;

/// What comes next in a thread, by its log or by its module.
#[derive(Clone, Copy)]
pub(crate) enum Next {
    /// This event of the log.
    Event(Event),
    /// No event: the log has no further event.
    NoEvent,
    /// This access of the module.
    Access(OpFields),
    /// No access: the thread has ended this way.
    Ended(End),
    /// No access yet: it has made [`MAX_STEPS`] steps.
    Limit,
}

/// How far a thread runs by its log, and what comes next.
#[derive(Drop)]
pub(crate) struct Compared {
    /// How many steps it makes.
    pub steps: u32,
    /// How many events it makes. They are the first ones of the log.
    pub events: usize,
    /// What the log has next.
    pub logged: Next,
    /// What the module has next.
    pub made: Next,
    /// The position of the thread in its code then.
    pub position: CodePosition,
    /// The positions in the code at which it makes its events, in order.
    pub positions: List<CodePosition>,
}

/// What the log has next, after the given number of events.
fn log_next(stated: &[Event], events: usize) -> Next
    ensures { result ≡ next_by_log (slice_get stated.now events) }
{
    match stated.get(events) {
        Some(event) => Next::Event(*event),
        None => Next::NoEvent,
    }
}

/// What the module does next in a thread.
fn module_next(thread: &Thread) -> Next
    ensures { (read : ℕ) → result ≡ next_by_module (need_of read thread.now) }
{
    match thread.next() {
        Need::Access(op) => Next::Access(op.fields()),
        Need::Ended(end) => Next::Ended(end),
        Need::Local => Next::Limit,
    }
}

/// Runs a thread by its log for at most [`MAX_STEPS`] steps; None if it doesn't start.
///
/// # Errors
///
/// Only if an allocation fails.
pub(crate) fn compare(
    alloc: Global,
    module: &ValidModule,
    stated: &ThreadLog,
    number: usize,
) -> Result<Option<Compared>, AllocError>
    requires { HasPlaces number stated.now.events }
    ensures { IfOk result (λ found. IfSome found (IsCompared «module».now number stated.now)) }
{
    let followed = match follow(alloc, module, stated, number, MAX_STEPS) {
        Err(refused) => return Err(refused),
        Ok(Err(_)) => return Ok(None),
        Ok(Ok(followed)) => followed,
    };
    Ok(Some(Compared {
        steps: followed.steps,
        events: followed.events,
        logged: log_next(stated.events.as_slice(), followed.events),
        made: module_next(&followed.thread),
        position: followed.thread.position(),
        positions: followed.positions,
    }))
}

impl fmt::Display for Next {
    fn fmt<W: fmt::Write>(&self, f: &mut fmt::Formatter<W>) -> fmt::Result {
        match self {
            Next::Event(event) => write!(f, "{} ({})", EventPhrase::decimal(event), event.key()),
            Next::NoEvent => f.write_str("no further event"),
            Next::Access(op) => write!(f, "{}", OpPhrase(*op)),
            Next::Ended(end) => write!(f, "no further access: it {}", EndPhrase(*end)),
            Next::Limit => write!(f, "no further access within {MAX_STEPS} steps"),
        }
    }
}
