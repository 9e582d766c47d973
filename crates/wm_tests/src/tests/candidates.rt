//! What a candidate and the initial memory give, and the events of accesses.
ghost use Rattle.wm_event.specs.Op.{KindFits};

use super::calls::{candidate, read};
use super::same;
use std::alloc::{AllocError, Global};
use std::process::Abort;
use std::test::Fail;
use wm_access::{AccessWidth, MemoryOrder, RmwOperator};
use wm_event::{Candidate, EventId, EventKey, EventKind, Initial, Op, OpFields, OpKind};

/// A thread that writes 9 to bytes 1 and 2 and then updates byte 1, over three bytes.
const UPDATE: &str =
    r#"["wasm-litmus-log",1,[["a",[7],["done",[3]],4,[["w","un",1,2,9],["x","sc",1,1,9,6]]]],[[[[],[[0,0]]]],[[0,0],[0,1]]]]"#;

const WRITE: EventKey = EventKey {
    thread: 0,
    number: 0,
};

const SECOND: EventKey = EventKey {
    thread: 0,
    number: 1,
};

fn candidate_of<'a>(alloc: Global, initial: &'a Initial) -> Result<Candidate<'a>, Fail> {
    let (log, witness) = read(alloc, UPDATE)?;
    Ok(candidate(alloc, log, witness, initial)?)
}

/// The three bytes of the initial memory.
fn three_bytes(alloc: Global) -> Result<Initial, AllocError> {
    Initial::of(alloc, &[4, 5, 7])
}

/// How many threads, places of the order and initial bytes a candidate has.
fn sizes(candidate: &Candidate) -> [usize; 3] {
    [
        candidate.log().threads().len(),
        candidate.witness().order.len(),
        candidate.initial().len(),
    ]
}

/// The bytes of the initial memory, and the sizes of a candidate over it.
fn sizes_are<R: Abort + AllocGlobal>(rt: &R, initial: &Initial) -> Result<(), Fail> {
    same(rt, initial.byte(2), Some(7));
    same(rt, initial.byte(3), None);
    let candidate = candidate_of(rt.alloc(), initial)?;
    same(rt, sizes(&candidate), [1, 2, 3]);
    drop(candidate);
    Ok(())
}

#[test]
fn a_candidate_gives_what_it_was_made_of(rt: HostRuntime) -> Result<(), Fail> {
    let initial = three_bytes(rt.alloc())?;
    let given = sizes_are(&rt, &initial);
    drop(initial);
    given
}

/// What an event of a candidate writes.
fn written(candidate: &Candidate, id: EventId) -> Option<u64> {
    candidate.event(id).map(|event| event.written)
}

fn events_and_places<R: Abort>(rt: &R, candidate: &Candidate) {
    same(rt, written(candidate, EventId::At(SECOND)), Some(6));
    same(rt, written(candidate, EventId::Init), None);
    same(rt, candidate.place(EventId::At(SECOND)), Some(1));
    same(rt, candidate.place(EventId::Init), None);
}

fn writers_and_bytes<R: Abort>(rt: &R, candidate: &Candidate) {
    let writers = [EventId::At(WRITE)];
    same(rt, candidate.writers(SECOND), writers.as_slice());
    same(rt, candidate.byte_by(EventId::At(SECOND), 1), Some(6));
    same(rt, candidate.byte_by(EventId::Init, 2), Some(7));
}

fn writes_by_byte<R: Abort>(rt: &R, candidate: &Candidate) {
    let writes = [EventId::At(WRITE), EventId::At(SECOND)];
    same(rt, candidate.writes_to(1), writes.as_slice());
    same(rt, candidate.writes_to(0).len(), 0);
}

/// What a candidate over the initial memory has.
fn parts_are<R: Abort + AllocGlobal>(rt: &R, initial: &Initial) -> Result<(), Fail> {
    let candidate = candidate_of(rt.alloc(), initial)?;
    events_and_places(rt, &candidate);
    writers_and_bytes(rt, &candidate);
    writes_by_byte(rt, &candidate);
    drop(candidate);
    Ok(())
}

#[test]
fn a_candidate_gives_its_events_places_and_writers(rt: HostRuntime) -> Result<(), Fail> {
    let initial = three_bytes(rt.alloc())?;
    let given = parts_are(&rt, &initial);
    drop(initial);
    given
}

/// The kind of the event of an access of two bytes that reads `read`, and what it writes.
fn event_of(kind: OpKind, read: u64) -> (EventKind, u64)
    requires { KindFits kind MemoryOrder.SeqCst AccessWidth.Two }
{
    let op = Op::new(OpFields {
        kind,
        order: MemoryOrder::SeqCst,
        address: 8,
        width: AccessWidth::Two,
    });
    let event = op.event(SECOND, read);
    (event.kind, event.written)
}

#[test]
fn an_access_has_its_event(rt: HostRuntime) {
    let add = OpKind::Rmw(RmwOperator::Add, 0xfffe);
    same(&rt, event_of(add, 5), (EventKind::Update, 3));
    let exchange = OpKind::CmpXchg(5, 9);
    same(&rt, event_of(exchange, 5), (EventKind::Update, 9));
    same(&rt, event_of(exchange, 6), (EventKind::Read, 0));
    same(&rt, event_of(OpKind::Write(7), 0), (EventKind::Write, 7));
}
