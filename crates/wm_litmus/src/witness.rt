//! The command `witness`: whether any writers and any order make a log allowed, and which.
ghost use Rattle.std.specs.Prelude.{IfOk};
ghost use Rattle.wm_litmus.specs.Prints.{Gives};
ghost use Rattle.wm_litmus.specs.Witness.{AnswersEventWitness, AnswersSearch, AnswersWitness, AnswersWitnessOver, IsStarted};

use crate::INITIAL_PAGES;
use crate::answer::Answer;
use crate::rules::zero_memory;
use std::alloc::{AllocError, Global};
use std::thread::Threads;
use wm_check::{Breach, Verdict, count_events, read_module};
use wm_event::{Candidate, Initial, Log, ShapeFault};
use wm_logfile::{read_document, write_document};
use wm_replay::{ReplayAnswer, replay};
use wm_valid::ValidModule;
use wm_witness::{Answer as Search, find, unknown_witness};

/// How many nodes a search takes at the most, if no number is given.
pub(crate) const DEFAULT_NODES: u32 = 100_000;

/// A log over an initial memory as a candidate, with a witness that is not its own; or the first fault of its shape.
pub(crate) fn started<'i>(
    alloc: Global,
    log: Log,
    initial: &'i Initial,
) -> Result<Result<Candidate<'i>, ShapeFault>, AllocError>
    ensures { IfOk result (IsStarted log initial.now) }
{
    let witness = unknown_witness(alloc, &log)?;
    Ok(Candidate::new(alloc, log, witness, initial))
}

/// The answer of a search of at most this number of nodes for a witness of a candidate's log.
pub(crate) fn searched(alloc: Global, start: &Candidate, nodes: u32) -> Result<Answer, AllocError>
    ensures { IfOk result (Gives (AnswersSearch start.now nodes)) }
{
    let log = start.log();
    let answer = find(alloc, start, u64::from(nodes))?;
    match answer {
        Search::Found(witness) => {
            let text = write_document(alloc, log, &witness)?;
            Answer::of_line(0, text)
        }
        Search::NoWitness => {
            let threads = log.threads();
            let (count, events) = (threads.len(), count_events(threads));
            let line = format!(in alloc; "no witness threads={count} events={events}")?;
            Answer::of_line(1, line)
        }
        Search::GaveUp => {
            let line = format!(in alloc; "gave up nodes={nodes}")?;
            Answer::of_line(2, line)
        }
    }
}

/// The answer to a candidate over a module: if its threads run as the log states, that of the search.
fn compared<R: AllocGlobal + Threads + Sync>(
    rt: &R,
    module: &ValidModule,
    start: &Candidate,
    nodes: u32,
) -> Result<Answer, AllocError>
    ensures { IfOk result (AnswersWitnessOver «module».now start.now nodes) }
{
    let answer = replay(rt, module, start.log())?;
    if answer != ReplayAnswer::Same {
        return Answer::of_verdict(rt.alloc(), &Verdict::Broken(Breach::Replay(answer)));
    }
    searched(rt.alloc(), start, nodes)
}

/// Whether the module and, with any writers and any order, the memory rules permit the log of these bytes. Its own
/// writers and order are ignored. A search takes at most this number of nodes.
///
/// # Errors
///
/// Only if an allocation fails.
pub(crate) fn witness_answer<R: AllocGlobal + Threads + Sync>(
    rt: &R,
    module_bytes: &[u8],
    document_bytes: &[u8],
    nodes: u32,
) -> Result<Answer, AllocError>
    ensures { IfOk result (Gives (AnswersWitness nodes module_bytes.now document_bytes.now)) }
{
    let module = match read_module(rt.alloc(), module_bytes) {
        Ok(module) => module,
        Err(unread) => return Answer::refused_module(rt.alloc(), unread),
    };
    let log = match read_document(rt.alloc(), document_bytes) {
        Ok((log, _own)) => log,
        Err(fault) => return Answer::refused_document(rt.alloc(), &fault),
    };
    match started(rt.alloc(), log, module.initial())? {
        Ok(start) => compared(rt, &module, &start, nodes),
        Err(fault) => Answer::refused_shape(rt.alloc(), fault),
    }
}

/// The same for a document without a module, over pages of zeros. Starts, ends and steps are ignored too.
///
/// # Errors
///
/// Only if an allocation fails.
pub(crate) fn event_witness_answer(
    alloc: Global,
    bytes: &[u8],
    nodes: u32,
) -> Result<Answer, AllocError>
    ensures { IfOk result (Gives (AnswersEventWitness nodes bytes.now)) }
{
    let log = match read_document(alloc, bytes) {
        Ok((log, _own)) => log,
        Err(fault) => return Answer::refused_document(alloc, &fault),
    };
    let initial = zero_memory(alloc, INITIAL_PAGES);
    match started(alloc, log, &initial)? {
        Ok(start) => searched(alloc, &start, nodes),
        Err(fault) => Answer::refused_shape(alloc, fault),
    }
}
