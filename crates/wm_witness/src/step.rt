//! One step of the search.
ghost use Rattle.std.specs.Prelude.{IfOk, IfSome, List};
ghost use Rattle.wm_witness.specs.Offers.{AreOffers};
ghost use Rattle.wm_witness.specs.Rules.{IsNode};
ghost use Rattle.wm_witness.specs.Steps.{IsSameLog, IsSplit, IsStep};
ghost use Rattle.wm_witness.specs.declared.assumption.Assumption.{Assumption as Assumed};

use crate::assumption::{Assumption, keeps};
use crate::copies::{copy_log, copy_witness};
use crate::grounds::grounds_of;
use crate::leaf::{Bytes, likely_writers};
use crate::new_split::{Split, any_new_split, new_split};
use crate::node::{Node, settle};
use crate::offers::Offers;
use crate::schedule::Schedule;
use crate::split::is_open;
use std::alloc::{AllocError, Global};
use wm_event::{Candidate, EventId, EventKey, Judgement, Log, ShapeFault, Witness};
use wm_list::List;
use wm_rules::judge_sequentially;

/// What one step of a search finds.
#[derive(Drop)]
pub(crate) enum Step {
    /// The log is valid with this witness, which is as wanted.
    Found(Witness),
    /// No witness that keeps the assumptions makes the log valid.
    Closed,
    /// A further assumption, which is new, and the one against it.
    Split(Assumption, Assumption),
    /// All that can be assumed is assumed or denied.
    Stays,
}

/// A split on the first of some assumptions that is open.
fn split_on_open(
    start: &Candidate,
    assumed: &[Assumption],
    node: &Node,
    grounds: &[Assumption],
) -> Option<Split>
    requires { IsNode start.now assumed.now node.now }
    ensures { IfSome result (IsSplit start.now.log assumed.now) }
{
    for ground in grounds {
        if is_open(start, assumed, node, *ground)
            && let Some(split) = new_split(start, assumed, *ground)
        {
            return Some(split);
        }
    }
    None
}

/// A split on the writer of some byte that isn't known.
fn split_on_byte(
    start: &Candidate,
    assumed: &[Assumption],
    node: &Node,
    writers: &[Bytes],
) -> Option<Split>
    requires { IsNode start.now assumed.now node.now }
    ensures { IfSome result (IsSplit start.now.log assumed.now) }
{
    for (index, bytes) in writers.iter().enumerate() {
        let reader = node.happens.rows.get(index)?.key;
        for byte in 0..8 {
            if let Some(writer) = bytes[byte as usize] {
                let ground = Assumption::Byte(reader, byte, writer);
                if is_open(start, assumed, node, ground)
                    && let Some(split) = new_split(start, assumed, ground)
                {
                    return Some(split);
                }
            }
        }
    }
    None
}

/// A split on the order of two events that isn't known, of which the one is that of a row.
fn split_on_order_of(
    start: &Candidate,
    assumed: &[Assumption],
    node: &Node,
    key: EventKey,
) -> Option<Split>
    requires { IsNode start.now assumed.now node.now }
    ensures { IfSome result (IsSplit start.now.log assumed.now) }
{
    for row in node.happens.rows.iter() {
        let ground = Assumption::Before(key, row.key);
        if key != row.key
            && is_open(start, assumed, node, ground)
            && let Some(split) = new_split(start, assumed, ground)
        {
            return Some(split);
        }
    }
    None
}

/// A split on the order of two events that isn't known.
fn split_on_order(start: &Candidate, assumed: &[Assumption], node: &Node) -> Option<Split>
    requires { IsNode start.now assumed.now node.now }
    ensures { IfSome result (IsSplit start.now.log assumed.now) }
{
    for row in node.happens.rows.iter() {
        if let Some(split) = split_on_order_of(start, assumed, node, row.key) {
            return Some(split);
        }
    }
    None
}

/// The step that splits on one of some assumptions if one is open, otherwise on the writer of a byte, otherwise on an
/// order, otherwise on anything that is new.
fn some_split(
    start: &Candidate,
    assumed: &[Assumption],
    node: &Node,
    writers: &[Bytes],
    grounds: &[Assumption],
) -> Step
    requires { IsNode start.now assumed.now node.now }
    ensures { (wanted : List Assumed) → IsStep start.now wanted assumed.now result }
{
    if let Some(split) = split_on_open(start, assumed, node, grounds) {
        return Step::Split(split.last, split.other);
    }
    if let Some(split) = split_on_byte(start, assumed, node, writers) {
        return Step::Split(split.last, split.other);
    }
    if let Some(split) = split_on_order(start, assumed, node) {
        return Step::Split(split.last, split.other);
    }
    match any_new_split(start, assumed) {
        Some(split) => Step::Split(split.last, split.other),
        None => Step::Stays,
    }
}

/// The likely writers of all bytes.
fn all_writers(
    alloc: Global,
    start: &Candidate,
    assumed: &[Assumption],
    node: &Node,
) -> Result<Vec<Bytes>, AllocError>
    requires { IsNode start.now assumed.now node.now }
{
    let mut writers = Vec::with_capacity(alloc, node.happens.rows.len())?;
    for (index, row) in node.happens.rows.iter().enumerate() {
        writers.push(likely_writers(alloc, start, assumed, node, index, row.key)?)?;
    }
    Ok(writers)
}

/// The writers of a thread's bytes, as a witness has them: Init where none is likely.
fn listed_writers(
    alloc: Global,
    log: &Log,
    thread: usize,
    writers: &[Bytes],
    first: usize,
) -> Result<List<List<EventId>>, AllocError> {
    let mut list = List::new(alloc);
    let Some(thread) = log.threads().get(thread) else {
        return Ok(list);
    };
    for (number, event) in thread.events.as_slice().iter().enumerate() {
        let mut ids = List::new(alloc);
        let bytes = match writers.get(first.saturating_add(number)) {
            Some(bytes) => *bytes,
            None => [None; 8],
        };
        if event.reads() {
            for byte in 0..event.width.bytes() {
                let id = match bytes.get(byte as usize) {
                    Some(Some(id)) => *id,
                    _ => EventId::Init,
                };
                ids.push(id)?;
            }
        }
        list.push(ids)?;
    }
    Ok(list)
}

/// The witness of these writers and this order.
fn witness_of(
    alloc: Global,
    start: &Candidate,
    node: &Node,
    writers: &[Bytes],
    order: &[EventKey],
) -> Result<Witness, AllocError> {
    let mut lists = List::new(alloc);
    for thread in 0..start.log().threads().len() {
        let first = match node.happens.starts.get(thread) {
            Some(first) => *first,
            None => 0,
        };
        lists.push(listed_writers(alloc, start.log(), thread, writers, first)?)?;
    }
    Ok(Witness {
        writers: lists,
        order: List::from_vec(order.to_vec(alloc)?),
    })
}

/// The candidate of a witness; None if its shape has a fault.
pub(crate) fn candidate_with<'a>(
    alloc: Global,
    start: &Candidate<'a>,
    witness: Witness,
) -> Result<Option<Candidate<'a>>, AllocError>
    ensures { IfOk result (λ found. IfSome found (λ leaf. IsSameLog start.now leaf)) }
{
    let log = copy_log(alloc, start.log())?;
    match Candidate::of(alloc, log, witness, start.initial()) {
        Ok(candidate) => Ok(Some(candidate)),
        Err(misshapen) => match misshapen.fault {
            ShapeFault::OutOfMemory => Err(AllocError),
            _ => Ok(None),
        },
    }
}

/// Judges a leaf.
fn judged(
    alloc: Global,
    start: &Candidate,
    wanted: &[Assumption],
    assumed: &[Assumption],
    node: &Node,
    writers: &[Bytes],
    leaf: &Candidate,
) -> Result<Step, AllocError>
    requires node { IsNode start.now assumed.now node.now }
    requires log { IsSameLog start.now leaf.now }
    ensures { IfOk result (IsStep start.now wanted.now assumed.now) }
{
    let _log = leaf.log();
    match judge_sequentially(alloc, leaf)? {
        Judgement::Valid => {
            if !keeps(leaf, wanted) {
                return Ok(some_split(start, assumed, node, writers, &[]));
            }
            Ok(Step::Found(copy_witness(alloc, leaf.witness())?))
        }
        Judgement::Broken(fault) => {
            let grounds = grounds_of(alloc, leaf, &fault)?;
            let grounds = grounds.as_slice();
            Ok(some_split(start, assumed, node, writers, grounds))
        }
    }
}

/// Judges the witness of these writers and this order.
fn judged_with(
    alloc: Global,
    start: &Candidate,
    wanted: &[Assumption],
    assumed: &[Assumption],
    node: &Node,
    writers: &[Bytes],
    order: &[EventKey],
) -> Result<Step, AllocError>
    requires node { IsNode start.now assumed.now node.now }
    ensures { IfOk result (IsStep start.now wanted.now assumed.now) }
{
    let witness = witness_of(alloc, start, node, writers, order)?;
    match candidate_with(alloc, start, witness)? {
        Some(leaf) => judged(alloc, start, wanted, assumed, node, writers, &leaf),
        None => Ok(some_split(start, assumed, node, writers, &[])),
    }
}

/// Looks at the witnesses that keep the assumptions, which begin with what is wanted.
///
/// # Errors
///
/// Only if an allocation fails.
pub(crate) fn next_step(
    alloc: Global,
    start: &Candidate,
    offers: &Offers,
    wanted: &[Assumption],
    assumed: &[Assumption],
) -> Result<Step, AllocError>
    requires { AreOffers start.now.log offers.now }
    ensures { IfOk result (IsStep start.now wanted.now assumed.now) }
{
    let Some(node) = settle(alloc, start, offers, assumed)? else {
        return Ok(Step::Closed);
    };
    let writers = all_writers(alloc, start, assumed, &node)?;
    let mut schedule = Schedule::new(alloc, start, &node, writers.as_slice())?;
    if !schedule.run(start, &node, writers.as_slice())?
        && let Some((reader, writer)) = schedule.stuck(start, &node, writers.as_slice())
        && let Some(split) = split_on_open(
            start,
            assumed,
            &node,
            &[Assumption::Takes(reader, writer)],
        )
    {
        return Ok(Step::Split(split.last, split.other));
    }
    judged_with(
        alloc,
        start,
        wanted,
        assumed,
        &node,
        writers.as_slice(),
        schedule.order.as_slice(),
    )
}
