//! Why a thread's log isn't its run.

use crate::compared::{Compared, Next, compare};
use crate::named_site::{NamedSites, event_places};
use crate::position::add_position_phrase;
use crate::row::EventTables;
use crate::rule::events_of;
use crate::some_sites::{ComparedRun, sites_of};
use crate::start_refusal::start_reason;
use std::alloc::{AllocError, Global};
use std::cmp::Ordering;
use std::fmt;
use std::thread::Threads;
use wm_access::RmwOperator;
use wm_event::{Candidate, EventId, Judgement, MAX_STEPS, OpKind, Rule, RuleFault, ThreadLog};
use wm_list::List;
use wm_machine::CodePosition;
use wm_phrase::{AndEndPhrase, Count, EndPhrase, JsonText};
use wm_replay::{Place, ReplayAnswer};
use wm_rules::judge;
use wm_sites::ModuleCode;
use wm_valid::ValidModule;
use wm_writers::{ByteFit, Writers, writers_that_fit};

/// A thread of a log, by its number.
#[derive(Clone, Copy)]
struct LoggedThread<'a> {
    number: usize,
    log: &'a ThreadLog,
}

/// States that this number of first events of a log are the module's.
#[derive(Clone, Copy)]
struct MatchPhrase(usize);

impl fmt::Display for MatchPhrase {
    fn fmt<W: fmt::Write>(&self, f: &mut fmt::Formatter<W>) -> fmt::Result {
        match self.0 {
            0 => f.write_str("no events"),
            1 => f.write_str("its event matches the log"),
            events => write!(f, "its {events} events match the log"),
        }
    }
}

/// Adds what the log and the module have at the point where they differ.
fn add_difference(text: &mut String, compared: &Compared) -> Result<(), AllocError> {
    let steps = Count(u64::from(compared.steps), "step");
    let events = Count(compared.events as u64, "event");
    let (logged, made) = (compared.logged, compared.made);
    writeln!(
        text,
        "Run again with the values that its reads have in the log, it makes {steps} and {events} as logged. Next,\n  the log has     {logged}\n  the module has  {made}"
    )
}

/// How far a run gets by its log and how it goes on, as it prints.
#[derive(Clone, Copy)]
struct RunPhrase<'a>(&'a Compared);

impl fmt::Display for RunPhrase<'_> {
    fn fmt<W: fmt::Write>(&self, f: &mut fmt::Formatter<W>) -> fmt::Result {
        let compared = self.0;
        let steps = Count(u64::from(compared.steps), "step");
        let events = MatchPhrase(compared.events);
        match compared.made {
            Next::Ended(end) => write!(f, "{steps}; {events}; then it {}", EndPhrase(end)),
            Next::Limit => write!(f, "{events}; it has not ended after {MAX_STEPS} steps"),
            next => write!(f, "{steps}; {events}; next access: {next}"),
        }
    }
}

/// Adds how the log and the run end.
fn add_ends(
    text: &mut String,
    thread: LoggedThread,
    compared: &Compared,
) -> Result<(), AllocError> {
    let steps = Count(u64::from(thread.log.steps), "step");
    let end = AndEndPhrase(thread.log.end);
    let run = RunPhrase(compared);
    writeln!(
        text,
        "  the log has     {steps}, {end}\n  the module has  {run}"
    )
}

/// Adds how the number of the log's steps compares with that of a run that ended.
fn add_length(
    text: &mut String,
    thread: LoggedThread,
    compared: &Compared,
    place: Place,
) -> Result<(), AllocError> {
    let made = compared.steps;
    let stated = thread.log.steps;
    match (stated.cmp(&made), place) {
        (Ordering::Equal, _) => Ok(()),
        (Ordering::Greater, _) => writeln!(
            text,
            "The log has too many steps: {stated}. The run has {made}."
        ),
        (Ordering::Less, Place::End) => writeln!(
            text,
            "The log has too few steps: {stated}. The run has {made}."
        ),
        (Ordering::Less, Place::Event(number)) => {
            let steps = Count(u64::from(stated), "step");
            let of = thread.number;
            writeln!(
                text,
                "The log has too few steps: after {steps} the module has not made event {of}.{number} yet. The run has {made}."
            )
        }
    }
}

/// Adds why a run that did not end differs from a log with fewer steps.
fn add_unended(
    text: &mut String,
    thread: LoggedThread,
    compared: &Compared,
    place: Place,
) -> Result<(), AllocError> {
    let steps = Count(u64::from(thread.log.steps), "step");
    match place {
        Place::Event(number) => {
            let of = thread.number;
            writeln!(
                text,
                "The log has too few steps: after {steps} the module has not made event {of}.{number} yet."
            )?;
        }
        Place::End => writeln!(text, "The run has not ended after {steps}.")?,
    }
    match (compared.made, compared.logged) {
        (Next::Access(_), Next::Event(event)) => {
            let logged = compared.logged;
            let key = event.key();
            writeln!(text, "Event {key} differs too. The log has: {logged}.")
        }
        (_, _) => Ok(()),
    }
}

/// Adds the place where a thread differs from its log.
fn add_place(
    text: &mut String,
    thread: LoggedThread,
    compared: &Compared,
    place: Place,
) -> Result<(), AllocError> {
    let is_made = match place {
        Place::End => true,
        Place::Event(event) => event < compared.events,
    };
    if !is_made {
        return add_difference(text, compared);
    }
    add_ends(text, thread, compared)?;
    match compared.made {
        Next::Ended(_) => add_length(text, thread, compared, place),
        _ if thread.log.steps < compared.steps => add_unended(text, thread, compared, place),
        _ => Ok(()),
    }
}

/// Adds the thread's position in its code.
fn add_position(
    alloc: Global,
    text: &mut String,
    code: ModuleCode,
    thread: LoggedThread,
    compared: &Compared,
) -> Result<(), AllocError> {
    match compared.made {
        Next::Ended(_) => text.push_str("The run ended at ")?,
        _ => {
            let steps = Count(u64::from(compared.steps), "step");
            write!(text, "After {steps} the next instruction is ")?;
        }
    }
    let start = thread.log.start.name.as_str();
    add_position_phrase(alloc, text, code, start, compared.position)
}

/// Whether what an access writes depends on the value that it reads: that of an update but an exchange, and that of a
/// compare-exchange.
fn writes_by_read(kind: OpKind) -> bool {
    match kind {
        OpKind::Rmw(operator, _) => operator != RmwOperator::Xchg,
        OpKind::CmpXchg(_, _) => true,
        _ => false,
    }
}

/// Whether the read of a fault is the event at which the thread differs, and its value decides what the module writes there.
fn decides_difference(compared: &Compared, fault: &RuleFault) -> bool {
    match (compared.made, compared.logged) {
        (Next::Access(op), Next::Event(event)) => event.key() == fault.event
            && event.address == op.address
            && event.width == op.width
            && writes_by_read(op.kind),
        _ => false,
    }
}

/// Whether a byte at which a read breaks V1 has a value that no other event, and not the initial memory, left there.
fn is_from_nowhere(
    alloc: Global,
    candidate: &Candidate,
    fault: &RuleFault,
) -> Result<bool, AllocError> {
    match writers_that_fit(alloc, candidate, fault)? {
        Writers::Only(writers) | Writers::Several(writers) => {
            for source in writers.sources.as_slice() {
                if source
                    .bytes
                    .as_slice()
                    .iter()
                    .any(|byte: &ByteFit| -> bool { byte.fit.is_empty() })
                {
                    return Ok(true);
                }
            }
            Ok(false)
        }
        Writers::Other => Ok(false),
    }
}

/// What a fault of V1 at a read of the thread suggests about the thread's run.
fn hint(
    alloc: Global,
    candidate: &Candidate,
    compared: &Compared,
    fault: &RuleFault,
) -> Result<&'static str, AllocError> {
    if fault.case != 3 && !is_from_nowhere(alloc, candidate, fault)? {
        return Ok(
            "That is about who wrote a byte, so it can't be the cause: a thread's run depends only on the values that it reads.",
        );
    }
    if (fault.event.number as usize) < compared.events {
        return Ok(
            "That read comes before the difference and may be the cause. Check how the read's value was recorded.",
        );
    }
    if decides_difference(compared, fault) {
        return Ok(
            "That read is at the difference and may be the cause: what an update or a compare-exchange writes depends on the value that it reads.",
        );
    }
    Ok("That read doesn't come before the difference, so it can't be the cause.")
}

/// Adds that the memory rules don't allow the events either, since a wrong value that was read often shows up later as
/// a different step.
fn add_fault(
    alloc: Global,
    text: &mut String,
    candidate: &Candidate,
    thread: LoggedThread,
    compared: &Compared,
    fault: &RuleFault,
) -> Result<(), AllocError> {
    writeln!(
        text,
        "The memory rules are also violated; the first violation is {fault}."
    )?;
    if fault.rule == Rule::WrittenValues && fault.event.thread as usize == thread.number {
        let hint = hint(alloc, candidate, compared, fault)?;
        writeln!(text, "{hint}")?;
    }
    Ok(())
}

/// Adds the events of a violation of the memory rules.
fn add_fault_table(
    alloc: Global,
    text: &mut String,
    code: ModuleCode,
    candidate: &Candidate,
    run: ComparedRun,
    fault: &RuleFault,
) -> Result<(), AllocError> {
    text.push_str("The events of the violation, with their places in the order:\n")?;
    let ids = events_of(alloc, candidate, fault, &[])?;
    let sites = sites_of(alloc, code, candidate.log(), ids.as_slice(), Some(run))?;
    let mut tables = EventTables::over(alloc, candidate, sites);
    tables.add(text, ids.as_slice())
}

/// Adds why the log of a thread that starts isn't its run.
fn add_thread_reason(
    alloc: Global,
    text: &mut String,
    code: ModuleCode,
    thread: LoggedThread,
    compared: &Compared,
    place: Place,
) -> Result<(), AllocError> {
    let number = thread.number;
    let name = JsonText(thread.log.start.name.as_str());
    writeln!(
        text,
        "Thread {number} runs the exported function {name}. Its log isn't what the module does."
    )?;
    add_place(text, thread, compared, place)?;
    add_position(alloc, text, code, thread, compared)
}

/// Runs the thread of this number by its log; None if there is no such thread, or if it doesn't start.
fn compare_thread(
    alloc: Global,
    module: &ValidModule,
    candidate: &Candidate,
    number: usize,
) -> Result<Option<Compared>, AllocError> {
    let threads = candidate.log().threads();
    if number >= threads.len() {
        return Ok(None);
    }
    compare(alloc, module, &threads[number], number)
}

/// Adds whether the memory rules allow the events.
fn add_judgement<R: AllocGlobal + Threads + Sync>(
    rt: &R,
    text: &mut String,
    code: ModuleCode,
    candidate: &Candidate,
    thread: LoggedThread,
    compared: &Compared,
) -> Result<(), AllocError> {
    match judge(rt, candidate)? {
        Judgement::Valid => Ok(text.push_str("The memory rules allow the events as logged.\n")?),
        Judgement::Broken(fault) => {
            add_fault(rt.alloc(), text, candidate, thread, compared, &fault)?;
            let run = ComparedRun {
                number: thread.number,
                compared,
            };
            add_fault_table(rt.alloc(), text, code, candidate, run, &fault)
        }
    }
}

/// Why the log of a thread that was compared isn't its run, and whether the memory rules allow the events.
fn compared_reason<R: AllocGlobal + Threads + Sync>(
    rt: &R,
    code: ModuleCode,
    candidate: &Candidate,
    thread: LoggedThread,
    compared: &Compared,
    place: Place,
) -> Result<String, AllocError> {
    let mut text = String::new(rt.alloc());
    add_thread_reason(rt.alloc(), &mut text, code, thread, compared, place)?;
    add_judgement(rt, &mut text, code, candidate, thread, compared)?;
    Ok(text)
}

/// Why the log of the thread of this number isn't its run, and whether the memory rules allow the events.
fn differing_reason<R: AllocGlobal + Threads + Sync>(
    rt: &R,
    code: ModuleCode,
    candidate: &Candidate,
    number: usize,
    place: Place,
) -> Result<String, AllocError> {
    let alloc = rt.alloc();
    let Some(log) = candidate.log().threads().get(number) else {
        return Ok(String::new(alloc));
    };
    match compare_thread(alloc, code.module, candidate, number)? {
        Some(compared) => {
            let thread = LoggedThread { number, log };
            compared_reason(rt, code, candidate, thread, &compared, place)
        }
        None => Ok(String::new(alloc)),
    }
}

/// Why a thread's log isn't its run: what the log has and what the module does at that point, and at which instruction;
/// too few or too many steps; and whether the memory rules allow the events.
///
/// # Errors
///
/// Only if an allocation fails.
pub(crate) fn replay_reason<R: AllocGlobal + Threads + Sync>(
    rt: &R,
    code: ModuleCode,
    candidate: &Candidate,
    answer: ReplayAnswer,
) -> Result<String, AllocError> {
    match answer {
        ReplayAnswer::Same => Ok(String::new(rt.alloc())),
        ReplayAnswer::StartRefused(number, fault) => match candidate.log().threads().get(number) {
            Some(stated) => start_reason(rt.alloc(), code.module.module(), number, stated, fault),
            None => Ok(String::new(rt.alloc())),
        },
        ReplayAnswer::Differs(number, place) => differing_reason(
            rt, code, candidate, number, place,
        ),
    }
}

/// What a picture shows of the module.
#[derive(Drop)]
pub struct PictureNotes {
    /// For each event that the picture shows, the instruction that makes it, as `at 0x2e, instruction 2 of "a"`; empty if
    /// its thread doesn't make it.
    pub places: Vec<String>,
    /// What the module does where a thread differs from its log, as `plain read of 4 bytes at address 4`; empty if no
    /// thread that starts differs.
    pub module_does: String,
}

/// What a picture of a candidate that shows these events shows of the module, if the threads make the events at these
/// positions.
///
/// # Errors
///
/// Only if an allocation fails.
pub fn judged_notes(
    alloc: Global,
    code: ModuleCode,
    candidate: &Candidate,
    positions: Vec<List<CodePosition>>,
    ids: &[EventId],
) -> Result<PictureNotes, AllocError> {
    let mut sites = NamedSites::at(alloc, code, candidate.log(), positions)?;
    Ok(PictureNotes {
        places: event_places(alloc, &mut sites, ids)?,
        module_does: String::new(alloc),
    })
}

/// The thread that differs from its log, compared with it; None if no thread that starts differs.
fn compare_differing(
    alloc: Global,
    module: &ValidModule,
    candidate: &Candidate,
    answer: ReplayAnswer,
) -> Result<Option<(usize, Compared)>, AllocError> {
    let ReplayAnswer::Differs(number, _) = answer else {
        return Ok(None);
    };
    match compare_thread(alloc, module, candidate, number)? {
        Some(compared) => Ok(Some((number, compared))),
        None => Ok(None),
    }
}

/// What the module does next in the thread that differs from its log; empty if none does.
fn module_does(alloc: Global, run: Option<ComparedRun>) -> Result<String, AllocError> {
    match run {
        Some(run) => format!(in alloc; "{}", run.compared.made),
        None => Ok(String::new(alloc)),
    }
}

/// What a picture of a candidate that shows these events shows of the module, if a thread isn't its run. The threads are
/// followed up to the last of these events.
///
/// # Errors
///
/// Only if an allocation fails.
pub fn difference_notes(
    alloc: Global,
    code: ModuleCode,
    candidate: &Candidate,
    answer: ReplayAnswer,
    ids: &[EventId],
) -> Result<PictureNotes, AllocError> {
    let differing = compare_differing(alloc, code.module, candidate, answer)?;
    let run = match &differing {
        Some((number, compared)) => Some(ComparedRun {
            number: *number,
            compared,
        }),
        None => None,
    };
    let mut sites = sites_of(alloc, code, candidate.log(), ids, run)?;
    Ok(PictureNotes {
        places: event_places(alloc, &mut sites, ids)?,
        module_does: module_does(alloc, run)?,
    })
}
