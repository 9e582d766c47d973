//! Whether a broken rule depends on the witness: which writers fit, and whether another witness makes the run allowed.
ghost use Rattle.std.specs.Prelude.{All, IfOk};
ghost use Rattle.wm_witness.specs.Answer.{FoundIsValid, NoneIsNever};
ghost use Rattle.wm_event.specs.LoggedRun.{LoggedRun};
ghost use Rattle.wm_writers.specs.Answer.{IsSource};
ghost use Rattle.wm_explain.specs.Parts.{Adds, AreNamed, IsFitOf, IsKnown};

use crate::other_witness::differences;
use crate::part::Part;
use std::alloc::{AllocError, Global};
use wm_event::{Candidate, EventId, EventKey, Rule, RuleFault};
use wm_witness::{Answer, find};
use wm_writers::{ByteFit, FaultWriters, Source, Writers};

/// How many of the ids that fit a byte are named.
const MAX_NAMED: usize = 8;

/// The most events of a log that is searched for another witness while it is explained.
const MAX_SEARCHED: usize = 128;

/// The most nodes of that search.
const NODES: u64 = 1_000;

/// Adds prose.
fn add_prose(alloc: Global, parts: &mut Vec<Part>, text: &str) -> Result<(), AllocError>
    ensures { (run : LoggedRun) → Adds result run parts.old.items parts.new.items }
{
    Ok(parts.push(Part::Prose(String::from_str(alloc, text)?))?)
}

/// Adds ids that fit a byte of a read.
fn add_named(
    parts: &mut Vec<Part>,
    reader: EventKey,
    byte: u8,
    named: &[EventId],
) -> Result<(), AllocError>
    ensures { (run : LoggedRun) → AreNamed run reader byte named.now → Adds result run parts.old.items parts.new.items }
{
    for (position, id) in named.iter().enumerate() {
        let id = *id;
        if position == 0 {
            parts.push(Part::Fits { reader, byte, id })?;
        } else {
            parts.push(Part::FitsToo { reader, byte, id })?;
        }
    }
    Ok(())
}

/// Adds a byte of a read with the ids that fit it.
fn add_fit(
    alloc: Global,
    parts: &mut Vec<Part>,
    reader: EventKey,
    fit: &ByteFit,
) -> Result<(), AllocError>
    ensures { (run : LoggedRun) → IsFitOf run reader fit.now → Adds result run parts.old.items parts.new.items }
{
    let (byte, address, ids) = (fit.byte, fit.address, fit.fit.as_slice());
    parts.push(Part::Byte {
        reader,
        byte,
        address,
    })?;
    let named = ids.len().min(MAX_NAMED);
    if named == 0 {
        parts.push(Part::FitsNone { reader, byte })?;
    }
    add_named(parts, reader, byte, &ids[..named])?;
    if ids.len() > named {
        let more = ids.len() - named;
        parts.push(Part::FitMore { reader, byte, more })?;
    }
    add_prose(alloc, parts, "\n")
}

/// Adds the bytes of a source.
fn add_source(alloc: Global, parts: &mut Vec<Part>, source: &Source) -> Result<(), AllocError>
    ensures { (run : LoggedRun) → IsSource run source.now → Adds result run parts.old.items parts.new.items }
{
    for fit in source.bytes.as_slice() {
        add_fit(alloc, parts, source.need.reader, fit)?;
    }
    Ok(())
}

/// Adds the bytes that a fault rests on, with the ids that fit each.
fn add_fits(alloc: Global, parts: &mut Vec<Part>, writers: &FaultWriters) -> Result<(), AllocError>
    ensures { (run : LoggedRun) → All (IsSource run) writers.now.sources → Adds result run parts.old.items parts.new.items }
{
    add_prose(
        alloc,
        parts,
        "Events whose value at the address is the value read:\n",
    )?;
    for source in writers.sources.as_slice() {
        add_source(alloc, parts, source)?;
    }
    Ok(())
}

/// Whether a log is short enough for a search.
fn is_searched(candidate: &Candidate) -> bool {
    candidate.witness().order.len() <= MAX_SEARCHED
}

/// Whether another witness makes the run allowed, as far as a short search tells.
fn searched(alloc: Global, candidate: &Candidate) -> Result<Answer, AllocError>
    ensures found { IfOk result (FoundIsValid candidate.now) }
    ensures none { IfOk result (NoneIsNever candidate.now) }
{
    if is_searched(candidate) {
        find(alloc, candidate, NODES)
    } else {
        Ok(Answer::GaveUp)
    }
}

/// Adds whether another witness makes the run allowed, as far as a short search tells.
fn add_search(alloc: Global, parts: &mut Vec<Part>, candidate: &Candidate) -> Result<(), AllocError>
    ensures { Adds result candidate.now parts.old.items parts.new.items }
{
    match searched(alloc, candidate)? {
        Answer::NoWitness => {
            add_prose(alloc, parts, "No other writers and no other order help: ")?;
            Ok(parts.push(Part::NoWitness)?)
        }
        Answer::Found(witness) => {
            let text = differences(alloc, candidate, &witness)?;
            parts.push(Part::OtherWitness(witness))?;
            Ok(parts.push(Part::Prose(text))?)
        }
        Answer::GaveUp => add_prose(
            alloc,
            parts,
            "With another witness, the same accesses may be allowed: `wmlab witness` searches for one.\n",
        ),
    }
}

/// Whether happens-before and the order have a say in a fault.
fn order_reason(fault: &RuleFault, has_cycle: bool) -> &'static str {
    match (fault.rule, has_cycle) {
        (Rule::Order, true) => "Happens-before has a cycle, so no order agrees with it. ",
        (Rule::Order, false) => "Happens-before has no cycle: some order agrees with it. ",
        (Rule::SequentialConsistency, _) => "This rule depends on the order of the events. ",
        _ => "This rule doesn't depend on the order of the events. ",
    }
}

/// Adds what a fault depends on: on the order, or only on the writers; for the writers which others fit; and whether
/// another witness makes the run allowed.
///
/// # Errors
///
/// Only if an allocation fails.
pub(crate) fn add_remedy(
    alloc: Global,
    parts: &mut Vec<Part>,
    candidate: &Candidate,
    fault: &RuleFault,
    writers: &Writers,
) -> Result<(), AllocError>
    ensures { IsKnown candidate.now fault.now writers.now → Adds result candidate.now parts.old.items parts.new.items }
{
    match writers {
        Writers::Only(_) => {
            add_prose(alloc, parts, order_reason(fault, true))?;
            add_prose(alloc, parts, "No other writer fits: ")?;
            Ok(parts.push(Part::NoWitness)?)
        }
        Writers::Several(writers) => {
            add_prose(alloc, parts, order_reason(fault, true))?;
            add_fits(alloc, parts, writers)?;
            add_search(alloc, parts, candidate)
        }
        Writers::Other => {
            add_prose(alloc, parts, order_reason(fault, false))?;
            add_search(alloc, parts, candidate)
        }
    }
}
