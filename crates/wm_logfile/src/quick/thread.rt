//! Quick reading of the logs of threads.
ghost use Rattle.std.specs.Prelude.{Some, IfOk, suc};
ghost use Rattle.serde_json.specs.Find.{as_str};
ghost use Rattle.wm_logfile.specs.Reading.{trap_at, result_from, end_at, few_at, thread_at, thread_by_at, limited_thread_at, limited_thread_by_at};
ghost use Rattle.wm_logfile.specs.Taking.{Taken, TakenOn, TakenHead, result_at};

use crate::items::unzipped;
use crate::quick::event::{EventByTaker, EventTaker};
use crate::quick::reader::Reader;
use crate::quick::{
    ItemTaker, NumberTaker, TakeFault, close_list, open_list, take_list, take_list_with_room,
    take_number, take_text,
};
use crate::thread::ThreadHead;
use crate::words::trap_of_word;
use std::alloc::Global;
use wm_event::{End, EventId, MAX_STEPS, MAX_THREADS, Start, ThreadLog, TrapKind};
use wm_list::{List, Text};

/// Takes a name.
fn take_name(alloc: Global, reader: &mut Reader<'_>) -> Result<Text, TakeFault>
    ensures { IfOk result (λ s. Taken 0 as_str reader.old s reader.new) }
{
    let name = take_text(reader)?;
    Ok(Text::from_string(String::from_str(alloc, name)?))
}

/// Takes why a thread trapped.
#[tactic(auto, using(crate::proofs::Taking::word_taken))]
fn take_trap(reader: &mut Reader<'_>) -> Result<TrapKind, TakeFault>
    ensures { IfOk result (λ k. Taken 0 trap_at reader.old k reader.new) }
{
    let word = take_text(reader)?;
    match trap_of_word(word) {
        Some(kind) => Ok(kind),
        None => Err(TakeFault::Other),
    }
}

/// Takes the result of a function, if it has one, and the end of its list.
#[tactic(auto, using(crate::proofs::TakingThreads::no_result_taken, crate::proofs::TakingThreads::result_taken))]
fn take_result_items(reader: &mut Reader<'_>) -> Result<Option<u64>, TakeFault>
    ensures { IfOk result (λ v. TakenOn 0 result_from reader.old v reader.new) }
{
    if reader.take_end_array() {
        return Ok(None);
    }
    let value = take_number(reader, u64::MAX)?;
    close_list(reader)?;
    Ok(Some(value))
}

/// Takes the list of the result of a function.
#[tactic(auto, using(crate::proofs::TakingThreads::results_taken))]
fn take_result(reader: &mut Reader<'_>) -> Result<Option<u64>, TakeFault>
    ensures { IfOk result (λ v. Taken 1 result_at reader.old v reader.new) }
{
    open_list(reader)?;
    let value = take_result_items(reader)?;
    Ok(value)
}

/// Takes how a thread ended.
#[tactic(auto, using(crate::proofs::TakingThreads::cut_taken, crate::proofs::TakingThreads::done_taken, crate::proofs::TakingThreads::trapped_taken))]
fn take_end(reader: &mut Reader<'_>) -> Result<End, TakeFault>
    ensures { IfOk result (λ e. Taken 2 end_at reader.old e reader.new) }
{
    open_list(reader)?;
    match take_text(reader)? {
        "cut" => {
            close_list(reader)?;
            Ok(End::Cut)
        }
        "done" => {
            let value = take_result(reader)?;
            close_list(reader)?;
            Ok(End::Done(value))
        }
        "trap" => {
            let kind = take_trap(reader)?;
            close_list(reader)?;
            Ok(End::Trap(kind))
        }
        _ => Err(TakeFault::Other),
    }
}

/// Takes what comes before the events of a thread.
#[tactic(auto, using(crate::proofs::TakingThreads::head_taken))]
fn take_head(alloc: Global, reader: &mut Reader<'_>) -> Result<ThreadHead, TakeFault>
    ensures { IfOk result (λ h. TakenHead reader.old h reader.new) }
{
    let name = take_name(alloc, reader)?;
    let args = take_list(alloc, &NumberTaker, reader)?;
    let end = take_end(reader)?;
    let steps = take_number(reader, MAX_STEPS as u64)? as u32;
    Ok(ThreadHead {
        start: Start { name, args },
        end,
        steps,
    })
}

/// A thread of up to this number of events needs one allocation for them.
const EVENTS_ROOM: usize = 16;

/// Takes the log of a thread.
#[tactic(auto, using(crate::proofs::TakingThreads::thread_taken))]
fn take_thread(alloc: Global, reader: &mut Reader<'_>, thread: u32) -> Result<ThreadLog, TakeFault>
    ensures { IfOk result (λ l. Taken 3 (thread_at thread) reader.old l reader.new) }
{
    open_list(reader)?;
    let head = take_head(alloc, reader)?;
    let events = take_list_with_room(alloc, &EventTaker { thread }, EVENTS_ROOM, reader)?;
    close_list(reader)?;
    Ok(head.with_events(events))
}

/// Takes the log of a thread with the writers of its events.
#[tactic(auto, using(crate::proofs::TakingThreads::thread_by_taken))]
fn take_thread_by(
    alloc: Global,
    reader: &mut Reader<'_>,
    thread: u32,
) -> Result<(ThreadLog, List<List<EventId>>), TakeFault>
    ensures { IfOk result (λ p. Taken 5 (thread_by_at thread) reader.old (p.0, p.1) reader.new) }
{
    open_list(reader)?;
    let head = take_head(alloc, reader)?;
    let events = take_list_with_room(alloc, &EventByTaker { thread }, EVENTS_ROOM, reader)?;
    close_list(reader)?;
    let (events, writers) = unzipped(alloc, events)?;
    Ok((head.with_events(events), writers))
}

/// Takes the log of a thread in a list of at most [`MAX_THREADS`].
#[derive(Clone, Copy)]
pub(crate) struct ThreadTaker;

impl ItemTaker<ThreadLog> for ThreadTaker {
    ghost reads = { λ _ n d. limited_thread_at n d };

    ghost levels = { λ _. 3 };

    fn take(
        &self,
        alloc: Global,
        reader: &mut Reader<'_>,
        index: usize,
    ) -> Result<ThreadLog, TakeFault> {
        if index >= MAX_THREADS {
            return Err(TakeFault::Other);
        }
        take_thread(alloc, reader, index as u32)
    }
}

/// Takes the log of a thread with the writers of its events in a list of at most [`MAX_THREADS`].
#[derive(Clone, Copy)]
pub(crate) struct ThreadByTaker;

impl ItemTaker<(ThreadLog, List<List<EventId>>)> for ThreadByTaker {
    ghost reads = { λ _ n d. limited_thread_by_at n d };

    ghost levels = { λ _. 5 };

    fn take(
        &self,
        alloc: Global,
        reader: &mut Reader<'_>,
        index: usize,
    ) -> Result<(ThreadLog, List<List<EventId>>), TakeFault> {
        if index >= MAX_THREADS {
            return Err(TakeFault::Other);
        }
        take_thread_by(alloc, reader, index as u32)
    }
}

/// Takes the threads, if there are not too many.
#[tactic(auto, using(crate::proofs::TakingThreads::few_taken))]
pub(crate) fn take_threads<T: Drop, R: ItemTaker<T>>(
    alloc: Global,
    taker: &R,
    reader: &mut Reader<'_>,
) -> Result<List<T>, TakeFault>
    ensures { IfOk result (λ ts.
        Taken (suc (R.levels taker.now)) (few_at (R.reads taker.now)) reader.old ts reader.new) }
{
    let threads = take_list(alloc, taker, reader)?;
    if threads.len() > MAX_THREADS {
        return Err(TakeFault::Other);
    }
    Ok(threads)
}
