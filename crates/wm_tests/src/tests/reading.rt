//! Documents that are read and written: each part of a log and of its witness, which no command prints alone.
use super::calls::read;
use super::same;
use std::alloc::AllocError;
use std::process::Abort;
use std::test::Fail;
use wm_access::{AccessWidth, MemoryOrder};
use wm_event::{End, Event, EventId, EventKey, EventKind, Log, ThreadLog, TrapKind, Witness};
use wm_logfile::{DocFault, write_document};

/// Two threads that each write an address and then read the other's.
const STORE_BUFFERING: &str =
    r#"["wasm-litmus-log",1,[["a",[],["done",[0]],6,[["w","un",0,4,1],["r","un",4,4,0]]],["b",[],["done",[0]],6,[["w","un",4,4,1],["r","un",0,4,0]]]],[[[[],[[],[],[],[]]],[[],[[],[],[],[]]]],[[0,0],[1,0],[0,1],[1,1]]]]"#;

fn plain(thread: u32, number: u32, kind: EventKind, address: u32, written: u64) -> Event {
    Event {
        thread,
        number,
        kind,
        order: MemoryOrder::Unordered,
        address,
        width: AccessWidth::Four,
        read: 0,
        written,
    }
}

fn key(thread: u32, number: u32) -> EventKey {
    EventKey { thread, number }
}

/// How a thread of a log starts, how it ends after how many steps, and its events.
fn thread_is<R: Abort>(
    rt: &R,
    thread: &ThreadLog,
    start: (&str, &[u64]),
    end: (End, u32),
    events: &[Event],
) {
    same(rt, thread.start.name.as_str(), start.0);
    same(rt, thread.start.args.as_slice(), start.1);
    same(rt, thread.end, end.0);
    same(rt, thread.steps, end.1);
    same(rt, thread.events.as_slice(), events);
}

/// The threads of store buffering.
fn threads_are_store_buffering<R: Abort>(rt: &R, log: &Log) {
    let [first, second] = log.threads() else {
        panic!(rt; "two threads");
    };
    let events = [
        plain(0, 0, EventKind::Write, 0, 1),
        plain(0, 1, EventKind::Read, 4, 0),
    ];
    thread_is(rt, first, ("a", &[]), (End::Done(Some(0)), 6), &events);
    let events = [
        plain(1, 0, EventKind::Write, 4, 1),
        plain(1, 1, EventKind::Read, 0, 0),
    ];
    thread_is(rt, second, ("b", &[]), (End::Done(Some(0)), 6), &events);
}

/// The witness of store buffering.
fn witness_is_store_buffering<R: Abort>(rt: &R, witness: &Witness) {
    same(rt, witness.writers(key(0, 0)).len(), 0);
    let init = [EventId::Init; 4];
    same(rt, witness.writers(key(0, 1)), init.as_slice());
    same(rt, witness.writers(key(1, 1)), init.as_slice());
    let order = [key(0, 0), key(1, 0), key(0, 1), key(1, 1)];
    same(rt, witness.order.as_slice(), order.as_slice());
}

#[test]
fn store_buffering_is_read(rt: HostRuntime) -> Result<(), Fail> {
    let (log, witness) = read(rt.alloc(), STORE_BUFFERING)?;
    threads_are_store_buffering(&rt, &log);
    witness_is_store_buffering(&rt, &witness);
    drop(log);
    drop(witness);
    Ok(())
}

/// A document with each way to end, an update, and white space.
const ENDS: &str = r#"
["wasm-litmus-log", 1, [
    ["f", [1, 18446744073709551615], ["done", []], 1000000, [["x", "sc", 4294967295, 1, 5, 6]]],
    ["", [], ["trap", "divide-by-zero"], 1, [["r", "sc", 0, 2, 65535]]],
    ["g", [], ["cut"], 3, []]
], [[[[[]]], [[[0, 0], [4294967295, 1]]], []], [[1, 0], [0, 0]]]]
"#;

/// The same as [`ENDS`], in version 2.
const ENDS_WITH_WRITERS: &str =
    r#"["wasm-litmus-log",2,[["f",[1,18446744073709551615],["done",[]],1000000,[["x","sc",4294967295,1,5,6,[[]]]]],["",[],["trap","divide-by-zero"],1,[["r","sc",0,2,65535,[[0,0],[4294967295,1]]]]],["g",[],["cut"],3,[]]],[[1,0],[0,0]]]"#;

/// The update of [`ENDS`].
const UPDATE: Event = Event {
    thread: 0,
    number: 0,
    kind: EventKind::Update,
    order: MemoryOrder::SeqCst,
    address: u32::MAX,
    width: AccessWidth::One,
    read: 5,
    written: 6,
};

/// The load of [`ENDS`].
const LOAD: Event = Event {
    thread: 1,
    number: 0,
    kind: EventKind::Read,
    order: MemoryOrder::SeqCst,
    address: 0,
    width: AccessWidth::Two,
    read: 65_535,
    written: 0,
};

/// The threads of [`ENDS`].
fn threads_end<R: Abort>(rt: &R, log: &Log) {
    let [returned, trapped, cut] = log.threads() else {
        panic!(rt; "three threads");
    };
    let returns = (End::Done(None), 1_000_000);
    thread_is(rt, returned, ("f", &[1, u64::MAX]), returns, &[UPDATE]);
    let traps = (End::Trap(TrapKind::DivideByZero), 1);
    thread_is(rt, trapped, ("", &[]), traps, &[LOAD]);
    thread_is(rt, cut, ("g", &[]), (End::Cut, 3), &[]);
}

/// The witness of [`ENDS`].
fn witness_ends<R: Abort>(rt: &R, witness: &Witness) {
    let init = [EventId::Init];
    same(rt, witness.writers(key(0, 0)), init.as_slice());
    let writers = [EventId::At(key(0, 0)), EventId::At(key(u32::MAX, 1))];
    same(rt, witness.writers(key(1, 0)), writers.as_slice());
    let order = [key(1, 0), key(0, 0)];
    same(rt, witness.order.as_slice(), order.as_slice());
}

#[test]
fn each_end_is_read(rt: HostRuntime) -> Result<(), Fail> {
    let (log, witness) = read(rt.alloc(), ENDS)?;
    threads_end(&rt, &log);
    witness_ends(&rt, &witness);
    drop(log);
    drop(witness);
    Ok(())
}

#[test]
fn version_2_is_read(rt: HostRuntime) -> Result<(), Fail> {
    let (log, witness) = read(rt.alloc(), ENDS_WITH_WRITERS)?;
    threads_end(&rt, &log);
    witness_ends(&rt, &witness);
    same(&rt, witness.fits(&log), true);
    drop(log);
    drop(witness);
    Ok(())
}

#[test]
fn a_fault_has_the_indices_of_its_value(rt: HostRuntime) -> Result<(), Fail> {
    let text = r#"["wasm-litmus-log",1,[["a",{},["cut"],0,[]]],[[],[]]]"#;
    match &read(rt.alloc(), text) {
        Err(DocFault::BadShape(path)) => same(&rt, path.indices(), [2, 0, 1].as_slice()),
        Err(_) => panic!(rt; "of the shape"),
        Ok(_) => panic!(rt; "arguments that are no list"),
    }
    Ok(())
}

/// Two threads that each write an address and then read the other's, in version 2.
const STORE_BUFFERING_WITH_WRITERS: &str =
    r#"["wasm-litmus-log",2,[["a",[],["done",[0]],6,[["w","un",0,4,1],["r","un",4,4,0,[[],[],[],[]]]]],["b",[],["done",[0]],6,[["w","un",4,4,1],["r","un",0,4,0,[[],[],[],[]]]]]],[[0,0],[1,0],[0,1],[1,1]]]"#;

/// The document of a log and a witness that fits it.
fn written<R: Abort + AllocGlobal>(
    rt: &R,
    log: &Log,
    witness: &Witness,
) -> Result<String, AllocError> {
    if !witness.fits(log) {
        panic!(rt; "the witness fits");
    }
    write_document(rt.alloc(), log, witness)
}

#[test]
fn what_is_written_is_read_again(rt: HostRuntime) -> Result<(), Fail> {
    let (log, witness) = read(rt.alloc(), STORE_BUFFERING)?;
    let text = written(&rt, &log, &witness);
    drop(log);
    drop(witness);
    same(&rt, text?.as_str(), STORE_BUFFERING_WITH_WRITERS);
    Ok(())
}
