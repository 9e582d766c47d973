//! Turns of a loop without which a thread is where it is, as those in which it only waits.
ghost use Rattle.std.specs.Prelude.{◌≡◌, ◌≤◌, true, IfOk, IfSome};
ghost use Rattle.wm_explore.specs.Idle.{HasIdleReads, IsAfter, IsIdle, OnlyRead};
ghost use Rattle.wm_machine.specs.State.{config_of};
ghost use Rattle.wm_replay.specs.Complete.{RunsWithinLimit};
ghost use Rattle.wm_replay.specs.Following.{HasPlaces};

use crate::copies::without;
use std::alloc::{AllocError, Global};
use wm_event::{Event, MAX_STEPS, ThreadLog};
use wm_list::List;
use wm_machine::{CodePosition, Need, Thread};
use wm_replay::{Followed, follow};
use wm_valid::ValidModule;

/// With itself before so many of its last turns a thread is compared.
const LAST_TURNS: usize = 64;

/// Events of a thread that follow each other: those from number `first` on and below `end`.
#[derive(Clone, Copy)]
pub(crate) struct Stretch {
    pub first: usize,
    pub end: usize,
}

/// A thread that was run after the events of its log, if it makes them within [`MAX_STEPS`] steps.
fn reached<'m>(
    alloc: Global,
    module: &'m ValidModule,
    stated: &ThreadLog,
    number: usize,
) -> Result<Option<Followed<'m>>, AllocError>
    requires { HasPlaces number stated.now.events }
    ensures after { IfOk result (λ found. IfSome found (λ f. IsAfter «module».now number stated.now (config_of f.thread) f.steps)) }
    ensures same { IfOk result (λ found. IfSome found (λ f. f.thread.module ≡ «module».now)) }
{
    match follow(alloc, module, stated, number, MAX_STEPS)? {
        Err(_) => Ok(None),
        Ok(followed) => {
            if followed.events < stated.events.len() {
                return Ok(None);
            }
            Ok(Some(followed))
        }
    }
}

/// Whether these events write nothing.
fn only_read(events: &[Event], stretch: Stretch) -> bool
    ensures { result ≡ true → OnlyRead events.now stretch.first stretch.end }
{
    for (number, event) in events.iter().enumerate() {
        if stretch.first <= number && number < stretch.end && event.writes() {
            return false;
        }
    }
    true
}

/// Whether a thread is where another one is, and came there as soon or sooner.
fn comes_there(thread: &Followed, other: &Followed) -> bool
    requires { thread.now.thread.module ≡ other.now.thread.module }
    ensures there { result ≡ true → config_of thread.now.thread ≡ config_of other.now.thread }
    ensures sooner { result ≡ true → thread.now.steps ≤ other.now.steps }
{
    if thread.steps > other.steps {
        return false;
    }
    thread.thread.is_same(&other.thread)
}

/// Whether a thread that was run by its log is where it would be without these events, which only read.
fn is_idle(
    alloc: Global,
    module: &ValidModule,
    stated: &ThreadLog,
    number: usize,
    now: &Followed,
    stretch: Stretch,
) -> Result<bool, AllocError>
    requires places { HasPlaces number stated.now.events }
    requires runs { RunsWithinLimit number stated.now now.now }
    requires same { now.now.thread.module ≡ «module».now }
    ensures { IfOk result (λ idle. idle ≡ true → IsIdle «module».now number stated.now stretch.first stretch.end) }
{
    if now.events < stated.events.len() {
        return Ok(false);
    }
    if stretch.first >= stretch.end {
        return Ok(false);
    }
    if stretch.end > stated.events.len() {
        return Ok(false);
    }
    if !only_read(stated.events.as_slice(), stretch) {
        return Ok(false);
    }
    let shorter = without(alloc, stated, stretch, number)?;
    match reached(alloc, module, &shorter, number)? {
        None => Ok(false),
        Some(other) => Ok(comes_there(&other, now)),
    }
}

/// Whether what a thread does next makes an event if it reads the value that the event read.
fn would_make(thread: &Thread, event: &Event) -> bool {
    match thread.next() {
        Need::Access(op) => {
            op.fields().address == event.address && op.event(event.key(), event.read) == *event
        }
        _ => false,
    }
}

/// The number of the first of a thread's last events, which only read.
fn first_of_last_reads(events: &[Event]) -> usize {
    for later in 0..events.len() {
        let number = events.len() - 1 - later;
        if events[number].writes() {
            return number + 1;
        }
    }
    0
}

/// Whether an event was made at a place.
fn is_at(positions: &[CodePosition], number: usize, place: CodePosition) -> bool {
    match positions.get(number) {
        None => false,
        Some(other) => other.at == place.at
            && other.block == place.block
            && other.func == place.func,
    }
}

/// Whether a thread is compared with itself before one of its turns, the last of which is number 0. So a cycle of more turns
/// than [`LAST_TURNS`] is found too, but later.
fn is_compared(turn: usize, turns: usize) -> bool {
    turn < LAST_TURNS || turns.saturating_sub(turn).is_power_of_two()
}

/// The numbers of the events from number `first` on that were made at a place, the last one first.
fn made_at(
    alloc: Global,
    positions: &[CodePosition],
    first: usize,
    place: CodePosition,
) -> Result<List<usize>, AllocError> {
    let mut made = List::new(alloc);
    for later in first..positions.len() {
        let number = positions.len() - 1 - (later - first);
        if is_at(positions, number, place) {
            made.push(number)?;
        }
    }
    Ok(made)
}

/// Whether the events from number `first` on and below `end` were made where those were that came `count` later.
fn are_made_again(positions: &[CodePosition], first: usize, end: usize, count: usize) -> bool {
    for number in first..end {
        if positions.get(number) != positions.get(number.saturating_add(count)) {
            return false;
        }
    }
    true
}

/// The first turn of a loop that a thread has left with its last event, if it has made two, as its places tell that begin
/// with number `first`.
fn first_turn(positions: &[CodePosition], first: usize) -> Option<Stretch> {
    let last = positions.len().checked_sub(1)?;
    let place = *positions.get(last)?;
    let again = (first..last).rfind(|number| is_at(positions, *number, place))?;
    let count = last.checked_sub(again)?;
    let begin = (first..again).find(|begin| are_made_again(positions, *begin, again, count));
    let begin = begin.unwrap_or(again);
    Some(Stretch {
        first: begin,
        end: begin.checked_add(count)?,
    })
}

/// The turn before a thread's last one: of the loop to whose beginning it has come back, as the events made there tell, the
/// last one first, or of a loop that it has left.
fn turn_before(made: &[usize], positions: &[CodePosition], first: usize) -> Option<Stretch> {
    match (made.first(), made.get(1)) {
        (Some(end), Some(first)) => Some(Stretch {
            first: *first,
            end: *end,
        }),
        (Some(_), None) => None,
        (None, _) => first_turn(positions, first),
    }
}

/// What is likely to be idle of the events of a thread that was run by its log: its last turns, or the one before.
fn guesses(alloc: Global, stated: &ThreadLog, now: &Followed) -> Result<List<Stretch>, AllocError> {
    let mut guesses = List::new(alloc);
    let events = stated.events.as_slice();
    let positions = now.positions.as_slice();
    let reads = first_of_last_reads(events);
    let made = made_at(alloc, positions, reads, now.thread.position())?;
    for (turn, first) in made.as_slice().iter().enumerate() {
        if !is_compared(turn, made.len()) {
            continue;
        }
        match events.get(*first) {
            Some(event) if would_make(&now.thread, event) => guesses.push(Stretch {
                first: *first,
                end: events.len(),
            })?,
            _ => {}
        }
    }
    if let Some(turn) = turn_before(made.as_slice(), positions, reads) {
        guesses.push(turn)?;
    }
    Ok(guesses)
}

/// Whether a thread that was run by its log is where it would be without some of its events, which only read. It is asked
/// of turns of loops alone.
pub(crate) fn has_idle_reads(
    alloc: Global,
    module: &ValidModule,
    stated: &ThreadLog,
    number: usize,
    now: &Followed,
) -> Result<bool, AllocError>
    requires places { HasPlaces number stated.now.events }
    requires runs { RunsWithinLimit number stated.now now.now }
    requires same { now.now.thread.module ≡ «module».now }
    ensures { IfOk result (λ idle. idle ≡ true → HasIdleReads «module».now number stated.now) }
{
    let guesses = guesses(alloc, stated, now)?;
    for guess in guesses.as_slice() {
        if is_idle(alloc, module, stated, number, now, *guess)? {
            return Ok(true);
        }
    }
    Ok(false)
}
