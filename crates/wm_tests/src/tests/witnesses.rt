//! The search for a witness of a log that has none, or another.
use super::calls::{candidate, read};
use super::documents::ALLOWED;
use super::{same, same_in};
use std::alloc::Global;
use std::process::Abort;
use std::test::Fail;
use wm_event::{EventKey, Initial, Judgement, Witness};
use wm_rules::judge_sequentially;
use wm_witness::{Answer, Assumption, find, find_keeping, unknown_witness};

/// Atomic store buffering in which both threads miss the other's store: no witness.
const STORE_BUFFERING: &str =
    r#"["wasm-litmus-log",2,[["t",[],["cut"],0,[["w","sc",0,4,1],["r","sc",4,4,0,[]]]],["t",[],["cut"],0,[["w","sc",4,4,1],["r","sc",0,4,0,[]]]]],[]]"#;

/// A value that either of two writes left, before the initial one: no witness, which takes three steps.
const EITHER_WRITE: &str =
    r#"["wasm-litmus-log",2,[["t",[],["cut"],0,[["w","sc",0,1,1],["w","sc",0,1,1]]],["t",[],["cut"],0,[["r","sc",0,1,1,[]],["r","sc",0,1,0,[]]]]],[]]"#;

/// A torn word: each byte of it was written often, and the word never.
const TORN_WORD: &str =
    r#"["wasm-litmus-log",2,[["t",[],["cut"],0,[["w","un",0,4,257],["w","un",0,4,514],["w","un",0,4,257],["w","un",0,4,514]]],["t",[],["cut"],0,[["w","un",0,4,257],["w","un",0,4,514],["r","un",0,4,513,[]],["w","un",0,4,257]]]],[]]"#;

/// A value that either of two threads left, and the second of them reads.
const EITHER_THREAD: &str =
    r#"["wasm-litmus-log",2,[["t",[],["cut"],0,[["w","un",0,1,1]]],["t",[],["cut"],0,[["w","un",0,1,1],["r","un",0,1,1,[]]]]],[]]"#;

/// What a search of so many steps answers for the log of a document.
fn answer_of(alloc: Global, text: &str, initial: &Initial, nodes: u64) -> Result<Answer, Fail> {
    let (log, stated) = read(alloc, text)?;
    drop(stated);
    let unknown = unknown_witness(alloc, &log)?;
    let start = candidate(alloc, log, unknown, initial)?;
    let answer = find(alloc, &start, nodes);
    drop(start);
    Ok(answer?)
}

/// An answer in a word.
fn word_of(answer: &Answer) -> &'static str {
    match answer {
        Answer::Found(_) => "found",
        Answer::NoWitness => "none",
        Answer::GaveUp => "gave up",
    }
}

/// Compares an answer with a word.
fn answers<R: Abort + AllocGlobal>(
    rt: &R,
    text: &str,
    initial: &Initial,
    nodes: u64,
    wanted: &str,
) -> Result<(), Fail> {
    let answer = answer_of(rt.alloc(), text, initial, nodes)?;
    same_in(rt, &text, word_of(&answer), wanted);
    drop(answer);
    Ok(())
}

/// Whether the log of a document is allowed with another witness.
fn is_allowed_with(
    alloc: Global,
    text: &str,
    initial: &Initial,
    witness: Witness,
) -> Result<bool, Fail> {
    let (log, stated) = read(alloc, text)?;
    drop(stated);
    let found = candidate(alloc, log, witness, initial)?;
    let judged = judge_sequentially(alloc, &found);
    drop(found);
    Ok(match judged? {
        Judgement::Valid => true,
        Judgement::Broken(_) => false,
    })
}

/// Whether a search finds a witness with which the log of a document is allowed.
fn has_witness(alloc: Global, text: &str, initial: &Initial) -> Result<bool, Fail> {
    match answer_of(alloc, text, initial, 100)? {
        Answer::Found(witness) => is_allowed_with(alloc, text, initial, witness),
        Answer::NoWitness | Answer::GaveUp => Ok(false),
    }
}

/// Each of these documents has a witness.
fn all_have_witnesses<R: Abort + AllocGlobal>(
    rt: &R,
    documents: &[&str],
    initial: &Initial,
) -> Result<(), Fail> {
    for document in documents {
        let is_found = has_witness(rt.alloc(), document, initial)?;
        same_in(rt, document, is_found, true);
    }
    Ok(())
}

#[test]
fn allowed_logs_have_witnesses(rt: HostRuntime) -> Result<(), Fail> {
    let initial = Initial::zeros(rt.alloc(), 16);
    let found = all_have_witnesses(&rt, &ALLOWED, &initial);
    drop(initial);
    found
}

/// The documents that no witness makes allowed.
fn none_are_found<R: Abort + AllocGlobal>(rt: &R, initial: &Initial) -> Result<(), Fail> {
    answers(rt, STORE_BUFFERING, initial, 1, "none")?;
    answers(rt, EITHER_WRITE, initial, 3, "none")?;
    answers(rt, TORN_WORD, initial, 1, "none")?;
    Ok(())
}

#[test]
fn no_witness_is_found_where_there_is_none(rt: HostRuntime) -> Result<(), Fail> {
    let initial = Initial::zeros(rt.alloc(), 1);
    let found = none_are_found(&rt, &initial);
    drop(initial);
    found
}

#[test]
fn a_search_gives_up_after_its_steps(rt: HostRuntime) -> Result<(), Fail> {
    let initial = Initial::zeros(rt.alloc(), 1);
    let given = answers(&rt, EITHER_WRITE, &initial, 2, "gave up");
    drop(initial);
    given
}

/// How many writers and places of the order the witness has that stands for an unknown one.
fn unknown_sizes(alloc: Global, text: &str) -> Result<[usize; 2], Fail> {
    let (log, stated) = read(alloc, text)?;
    drop(stated);
    let unknown = unknown_witness(alloc, &log)?;
    let sizes = [unknown.writers.len(), unknown.order.len()];
    drop(unknown);
    drop(log);
    Ok(sizes)
}

#[test]
fn an_unknown_witness_has_a_place_for_each_event(rt: HostRuntime) -> Result<(), Fail> {
    let sizes = unknown_sizes(rt.alloc(), STORE_BUFFERING)?;
    same(&rt, sizes, [2, 4]);
    Ok(())
}

/// What a search answers for EITHER_THREAD if its read takes nothing from the first events of these threads.
fn answer_without(alloc: Global, threads: &[u32], initial: &Initial) -> Result<Answer, Fail> {
    let (log, stated) = read(alloc, EITHER_THREAD)?;
    drop(stated);
    let unknown = unknown_witness(alloc, &log)?;
    let start = candidate(alloc, log, unknown, initial)?;
    let reader = EventKey {
        thread: 1,
        number: 1,
    };
    let mut wanted = Vec::new(alloc);
    for thread in threads {
        let writer = EventKey {
            thread: *thread,
            number: 0,
        };
        wanted.push(Assumption::TakesNone(reader, writer))?;
    }
    let answer = find_keeping(alloc, &start, wanted.as_slice(), 100);
    drop(start);
    Ok(answer?)
}

/// Without either writer the read has the other, and without both none.
fn other_writers_are_found<R: Abort + AllocGlobal>(rt: &R, initial: &Initial) -> Result<(), Fail> {
    let cases = [(0, 0, "found"), (1, 1, "found"), (0, 1, "none")];
    for (one, other, wanted) in &cases {
        let answer = answer_without(rt.alloc(), &[*one, *other], initial)?;
        same_in(rt, one, word_of(&answer), *wanted);
        drop(answer);
    }
    Ok(())
}

#[test]
fn a_search_keeps_what_is_assumed(rt: HostRuntime) -> Result<(), Fail> {
    let initial = Initial::zeros(rt.alloc(), 1);
    let found = other_writers_are_found(&rt, &initial);
    drop(initial);
    found
}
