//! The scan of all events, one rule after the other.
ghost use Rattle.std.specs.Prelude.{◌≡◌, ◌<◌, ◌≤◌, [], ◌∷◌, All, Bool, IfOk, List, length};
ghost use Rattle.std.specs.List.{AllZip};
ghost use Rattle.rayon.specs.Lists.{first_true};
ghost use Rattle.wm_event.specs.declared.rule.RuleFault.{RuleFault};
ghost use Rattle.wm_event.specs.Faults.{Breaks, Judges, rule_number};
ghost use Rattle.wm_event.specs.LoggedRun.{execution};
ghost use Rattle.wm_rules.specs.Finding.{HasClosure, judgement_of};
ghost use Rattle.wm_rules.specs.Late.{IsFaulty, late_number};
ghost use Rattle.wm_hb.specs.Scan.{Finds, IsEventOf};

use crate::coherence::coherence_fault;
use crate::no_tearing::tearing_fault;
use crate::sequential_consistency::consistency_fault;
use crate::written_values::value_fault;
use rayon::prelude::*;
use std::alloc::AllocError;
use std::thread::Threads;
use wm_closure::Closure;
use wm_event::{Candidate, Event, Judgement, RuleFault};
use wm_hb::{HappensBefore, Ordered};

/// The first fault of a thread by V1.
fn value_fault_in_thread(candidate: &Candidate, thread: usize) -> Option<RuleFault>
    requires { thread < length candidate.now.log }
    ensures { Finds (execution candidate.now) (1 ∷ thread ∷ []) result }
{
    let log = &candidate.log().threads()[thread];
    for event in log.events.as_slice() {
        let fault = value_fault(candidate, event);
        if fault.is_some() {
            return fault;
        }
    }
    None
}

/// The first fault by V1.
pub(crate) fn first_value_fault(candidate: &Candidate) -> Option<RuleFault>
    ensures { Finds (execution candidate.now) (1 ∷ []) result }
{
    for thread in 0..candidate.log().threads().len() {
        let fault = value_fault_in_thread(candidate, thread);
        if fault.is_some() {
            return fault;
        }
    }
    None
}

/// The rules that assume an order that agrees with happens-before.
#[derive(Clone, Copy)]
pub(crate) enum LateRule {
    Coherence,
    NoTearing,
    SequentialConsistency,
}

/// Those rules, in the order in which they are judged.
pub(crate) const LATE_RULES: [LateRule; 3] = [
    LateRule::Coherence,
    LateRule::NoTearing,
    LateRule::SequentialConsistency,
];

/// The first fault of an event by a rule.
fn fault_at_event(relation: &HappensBefore, rule: LateRule, event: &Event) -> Option<RuleFault>
    requires { IsEventOf (execution relation.now) event.now }
    ensures { Finds (execution relation.now) (late_number rule ∷ event.now.thread ∷ event.now.number ∷ []) result }
{
    match rule {
        LateRule::Coherence => coherence_fault(relation, event),
        LateRule::NoTearing => tearing_fault(relation.candidate(), event),
        LateRule::SequentialConsistency => consistency_fault(relation, event),
    }
}

/// Whether an event has a fault by a rule.
fn is_faulty(relation: &HappensBefore, rule: LateRule, event: &Event) -> bool
    requires { IsEventOf (execution relation.now) event.now }
    ensures { IsFaulty (execution relation.now) (late_number rule) event.now result }
{
    fault_at_event(relation, rule, event).is_some()
}

/// The place, among events, of the first event with a fault by a rule, searched for in parallel.
fn first_faulty(
    rt: &(impl Threads + Sync),
    relation: &HappensBefore,
    rule: LateRule,
    events: &[Event],
) -> Option<usize>
    requires { All (IsEventOf (execution relation.now)) events.now }
    ensures { (bs : List Bool) × AllZip (IsFaulty (execution relation.now) (late_number rule)) events.now bs × (result ≡ first_true bs) }
{
    events.par_iter().position_first(
        rt,
        |event: &Event| -> bool
            requires { IsEventOf (execution relation.now) event.now }
            ensures { IsFaulty (execution relation.entry.now) (late_number rule) event.now result }
        { is_faulty(relation, rule, event) },
    )
}

/// The first fault in a thread by a rule.
pub(crate) fn fault_in_thread(
    relation: &HappensBefore,
    rule: LateRule,
    thread: usize,
) -> Option<RuleFault>
    requires { thread < length relation.now.log }
    ensures { Finds (execution relation.now) (late_number rule ∷ thread ∷ []) result }
{
    let log = &relation.candidate().log().threads()[thread];
    for event in log.events.as_slice() {
        let fault = fault_at_event(relation, rule, event);
        if fault.is_some() {
            return fault;
        }
    }
    None
}

/// The first fault in a thread by a rule. It first checks in parallel whether there is any.
fn fault_of_thread(
    rt: &(impl Threads + Sync),
    relation: &HappensBefore,
    rule: LateRule,
    thread: usize,
) -> Option<RuleFault>
    requires { thread < length relation.now.log }
    ensures { Finds (execution relation.now) (late_number rule ∷ thread ∷ []) result }
{
    let log = &relation.candidate().log().threads()[thread];
    if first_faulty(rt, relation, rule, log.events.as_slice()).is_none() {
        return None;
    }
    fault_in_thread(relation, rule, thread)
}

/// The first fault by a rule.
fn fault_by_rule(
    rt: &(impl Threads + Sync),
    relation: &HappensBefore,
    rule: LateRule,
) -> Option<RuleFault>
    ensures { Finds (execution relation.now) (late_number rule ∷ []) result }
{
    for thread in 0..relation.candidate().log().threads().len() {
        let fault = fault_of_thread(rt, relation, rule, thread);
        if fault.is_some() {
            return fault;
        }
    }
    None
}

/// The first fault, given that none is of the first two rules.
fn first_fault(rt: &(impl Threads + Sync), relation: &HappensBefore) -> Option<RuleFault>
    requires { (f : RuleFault) → Breaks (execution relation.now) f → 3 ≤ rule_number f.rule }
    ensures { Finds (execution relation.now) [] result }
{
    for rule in LATE_RULES {
        let fault = fault_by_rule(rt, relation, rule);
        if fault.is_some() {
            return fault;
        }
    }
    None
}

/// A judgement with what it found of happens-before.
#[derive(Drop)]
pub enum Finding {
    /// All five rules hold. [`HappensBefore::over`] takes the closure of happens-before.
    Valid(Closure),
    /// The first fault.
    Broken(RuleFault),
}

impl Finding {
    /// The judgement alone.
    pub fn judgement(&self) -> Judgement
        ensures { result ≡ judgement_of self.now }
    {
        match self {
            Finding::Valid(_) => Judgement::Valid,
            Finding::Broken(fault) => Judgement::Broken(*fault),
        }
    }
}

/// Judges a run as [`judge`] does, and keeps the closure of happens-before of a valid one.
///
/// # Errors
///
/// Only if an allocation fails.
pub fn judge_and_close(
    rt: &(impl AllocGlobal + Threads + Sync),
    candidate: &Candidate,
) -> Result<Finding, AllocError>
    ensures judged { IfOk result (λ finding. Judges (execution candidate.now) (judgement_of finding)) }
    ensures closed { IfOk result (HasClosure candidate.now) }
{
    if let Some(fault) = first_value_fault(candidate) {
        return Ok(Finding::Broken(fault));
    }
    match Ordered::of(candidate) {
        Err(fault) => Ok(Finding::Broken(fault)),
        Ok(ordered) => {
            let relation = HappensBefore::of(rt.alloc(), &ordered)?;
            match first_fault(rt, &relation) {
                Some(fault) => Ok(Finding::Broken(fault)),
                None => Ok(Finding::Valid(relation.into_closure())),
            }
        }
    }
}

/// Whether the memory rules permit a run: Valid if all five hold, otherwise the first fault, which is the least by
/// rule, event, byte, case and the place of the other write in the order.
///
/// The only error is an allocation failure.
pub fn judge(
    rt: &(impl AllocGlobal + Threads + Sync),
    candidate: &Candidate,
) -> Result<Judgement, AllocError>
    ensures judged { IfOk result (λ judgement. Judges (execution candidate.now) judgement) }
{
    let finding = judge_and_close(rt, candidate)?;
    Ok(finding.judgement())
}
